//! The strata of a quarter and their samples, day after day (40 CFR Part 50, Appendix K, 3.1 and 3.2).
ghost use Rattle.std.specs.Prelude.{◌≡◌, ◌||◌, ◌==◌, ◌+◌, ◌*◌, ◌<◌, ◌≤◌, ℕ, ℤ, [], ◌∷◌, ◌++◌, List};
ghost use Rattle.aq_base.specs.declared.day.TheConstants.{LAST_DAY};
ghost use Rattle.aq_rules.specs.Particles.Pm10Estimate.{exceeds};
ghost use Rattle.aq_particles.specs.Pm10.StrataSoFar.{IsStratumOf, AreTotalsOf, AreStrataOf, IsStratum, AreTotals, StrataCut, IsStrata, all_ended, no_strata, samples_in, with_day, with_sample};

use aq_rules::particles::pm10::exceedances_and_their_estimates;

/// A stratum has so many days at most.
pub const STRATUM_DAYS: u16 = 6;

/// The least value, in tenths of a µg/m3, that exceeds 150 µg/m3 once it is rounded to the nearest 10.
const LEAST_EXCEEDING: i32 = 1550;

/// Whether a value in tenths of a µg/m3 exceeds 150 µg/m3 (Appendix K, 1.0(b) and 2.1).
pub fn exceeds(value: i32) -> bool
    ensures { result ≡ exceeds value }
{
    exceedances_and_their_estimates();
    value >= LEAST_EXCEEDING
}

/// The samples of a stratum so far: how many, and how many of them exceed.
#[derive(Clone, Copy)]
pub(crate) struct Stratum {
    samples: u8,
    exceedances: u8,
}

impl Stratum {
    /// A stratum without samples.
    fn new() -> Stratum
        ensures of { IsStratumOf [] result }
        ensures facts { IsStratum result }
        ensures samples { result.samples ≡ 0 }
    {
        Stratum {
            samples: 0,
            exceedances: 0,
        }
    }

    /// With the sample of a day, if it has one.
    fn with(self, sample: Option<i32>) -> Stratum
        requires few { self.samples ≤ 91 }
        requires facts { IsStratum self }
        ensures of { (values : List ℤ) → IsStratumOf values self → IsStratumOf (with_sample sample values) result }
        ensures facts { IsStratum result }
        ensures few { result.samples ≤ self.samples + 1 }
    {
        match sample {
            None => self,
            Some(value) => Stratum {
                samples: self.samples + 1,
                exceedances: self.exceedances + u8::from(exceeds(value)),
            },
        }
    }
}

/// Of strata that have ended: how many have samples, how many samples, how many of these exceed, and the
/// sum of the parts that exceed, in sixtieths.
#[derive(Clone, Copy)]
pub(crate) struct Totals {
    pub(crate) strata: u8,
    pub(crate) samples: u8,
    pub(crate) exceedances: u8,
    pub(crate) sixtieths: u32,
}

impl Totals {
    /// With one more stratum.
    fn with(self, stratum: Stratum) -> Totals
        requires few { self.samples + stratum.samples ≤ 92 }
        requires facts { AreTotals self }
        requires stratum { IsStratum stratum }
        ensures of { (ended : List (List ℤ)) (values : List ℤ) → AreTotalsOf ended self → IsStratumOf values stratum → AreTotalsOf (ended ++ values ∷ []) result }
        ensures facts { AreTotals result }
        ensures samples { result.samples ≡ self.samples + stratum.samples }
    {
        if stratum.samples == 0 {
            return self;
        }
        let samples = u32::from(stratum.samples);
        Totals {
            strata: self.strata + 1,
            samples: self.samples + stratum.samples,
            exceedances: self.exceedances + stratum.exceedances,
            sixtieths: self.sixtieths + 60 * u32::from(stratum.exceedances) / samples,
        }
    }
}

/// The strata of the days so far: those that have ended, and the first day and the samples of the one that
/// goes on.
#[derive(Clone, Copy)]
pub(crate) struct Strata {
    ended: Totals,
    first: u16,
    last: Stratum,
}

impl Strata {
    /// One stratum that begins on a day, and has no samples so far.
    pub(crate) fn starting(first: u16) -> Strata
        ensures of { AreStrataOf (no_strata first) result }
        ensures facts { IsStrata result }
        ensures samples { samples_in result ≡ 0 }
    {
        Strata {
            ended: Totals {
                strata: 0,
                samples: 0,
                exceedances: 0,
                sixtieths: 0,
            },
            first,
            last: Stratum::new(),
        }
    }

    /// With one more day. A stratum starts at a scheduled day, and six days after the last start if none
    /// came sooner.
    pub(crate) fn with(self, day: u16, scheduled: bool, sample: Option<i32>) -> Strata
        requires few { samples_in self ≤ 91 }
        requires facts { IsStrata self }
        requires before { self.first ≤ day }
        requires day { day ≤ LAST_DAY }
        ensures of { (cut : StrataCut) → AreStrataOf cut self → AreStrataOf (with_day scheduled sample day cut) result }
        ensures facts { IsStrata result }
        ensures few { samples_in result ≤ samples_in self + 1 }
        ensures first { result.first ≤ day }
    {
        if self.ends_before(day, scheduled) {
            Strata {
                ended: self.ended.with(self.last),
                first: day,
                last: Stratum::new().with(sample),
            }
        } else {
            Strata {
                ended: self.ended,
                first: self.first,
                last: self.last.with(sample),
            }
        }
    }

    /// Whether a day begins the next stratum.
    fn ends_before(&self, day: u16, scheduled: bool) -> bool
        requires before { self.now.first ≤ day }
        requires day { day ≤ LAST_DAY }
        ensures { result ≡ (scheduled || (day == self.now.first + 6)) }
    {
        scheduled || day == self.first + STRATUM_DAYS
    }

    /// The totals once the last stratum has ended too.
    pub(crate) fn totals(self) -> Totals
        requires few { samples_in self ≤ 92 }
        requires facts { IsStrata self }
        ensures of { (cut : StrataCut) → AreStrataOf cut self → AreTotalsOf (all_ended cut) result }
        ensures facts { AreTotals result }
    {
        self.ended.with(self.last)
    }
}
