//! The days of an extract.
ghost use Rattle.std.specs.Prelude.{◌≡◌, ◌+◌, ◌-◌, ◌*◌, ◌≤◌};
ghost use Rattle.aq_staging.specs.Extracts.Judging.{span_of};
ghost use Rattle.aq_rules.specs.Extracts.Changes.{is_in_span};

use aq_base::{Day, Hour};

/// The first and the last day of an extract.
#[derive(Clone, Copy, Debug, PartialEq, Eq)]
pub(crate) struct Days {
    pub(crate) first: Day,
    pub(crate) last: Day,
}

impl Days {
    /// Whether an hour is on one of the days.
    pub(crate) fn has(&self, hour: Hour) -> bool
        ensures { result ≡ is_in_span (span_of self.now) hour }
    {
        let day = hour.number() / 24;
        u32::from(self.first.number()) <= day && day <= u32::from(self.last.number())
    }

    /// The first hour of the first day.
    pub(crate) fn first_hour(&self) -> Hour
        ensures { result ≡ 24 * self.now.first }
    {
        Hour::new(24 * u32::from(self.first.number()))
    }

    /// How many hours the days have.
    pub(crate) fn hour_count(&self) -> u32
        ensures value { result ≡ 24 * self.now.last + 24 - 24 * self.now.first }
        ensures few { result ≤ 1000000 }
    {
        let end = 24 * u32::from(self.last.number()) + 24;
        end.saturating_sub(24 * u32::from(self.first.number()))
    }
}
