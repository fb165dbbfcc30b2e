//! The places of days among the strata of their quarter (40 CFR Part 50, Appendix K, 3.2).
ghost use Rattle.std.specs.Prelude.{◌≡◌, ◌≤◌};
ghost use Rattle.aq_base.specs.declared.day.TheConstants.{LAST_DAY};
ghost use Rattle.aq_reports.specs.Daily.StrataBegun.{with_day};

use aq_particles::pm10::STRATUM_DAYS;

/// How many strata of a quarter have begun, and the day on which the next one begins at the latest.
#[derive(Clone, Copy)]
pub(crate) struct Begun {
    pub(crate) strata: u8,
    pub(crate) end: u16,
}

impl Begun {
    /// With the next day, which begins a stratum if it is scheduled, or if the last one has six days.
    pub(crate) fn with_day(self, day: u16, scheduled: bool) -> Begun
        requires few { self.strata ≤ 92 }
        requires in_profile { day ≤ LAST_DAY }
        ensures { result ≡ with_day scheduled day self }
    {
        if scheduled || day == self.end {
            Begun {
                strata: self.strata + 1,
                end: day + STRATUM_DAYS,
            }
        } else {
            self
        }
    }
}
