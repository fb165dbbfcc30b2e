//! The hours of calendar days, which are read eight days together.
ghost use Rattle.std.specs.Prelude.{◌≡◌, ℕ, ◌+◌, ◌*◌, ◌<◌, ◌≤◌, Option};
ghost use Rattle.aq_rules.specs.Ozone.SiteHour.{Cell};
ghost use Rattle.aq_ozone.specs.DayHours as hours;
ghost use Rattle.aq_series.specs.Samples.{AreOzone};

use crate::source::OzoneSource;
use crate::windows::DAY_HOURS;
use aq_base::{Day, LAST_DAY, Steps};
use aq_series::{Cell, SPAN_DAYS, SPAN_HOURS};
use std::sync::ledger::Ledger;

/// What is read has for the hours of eight days, by the number of the first.
#[derive(Drop)]
pub(crate) struct DaySpan {
    first: u16,
    hours: [Option<Cell>; SPAN_HOURS],
}

impl DaySpan {
    ghost use Rattle.std.specs.Prelude.{◌≡◌, ◌+◌, ◌*◌, ◌≤◌, ℕ, Option};
    ghost use Rattle.aq_base.specs.declared.day.TheConstants.{LAST_DAY};
    ghost use Rattle.aq_rules.specs.Ozone.SiteHour.{Cell};
    ghost use Rattle.aq_ozone.specs.DayHours as hours;
    ghost use Rattle.aq_ozone.specs.DaySpans.{Holds, Reaches};
    ghost use Rattle.aq_series.specs.Samples.{AreOzone};

    /// Those from a day on: none past the profile. At most 1,544 steps for each site.
    pub(crate) fn read<S: OzoneSource, L: Ledger>(
        source: &S,
        day: u16,
        steps: &mut Steps<L>,
    ) -> DaySpan
        ensures first { result.first ≡ day }
        ensures holds { Holds (S.cell_at source.now) result }
        ensures steps { steps.new ≤ steps.old + 1544 * S.sites }
    {
        DaySpan {
            first: day,
            hours: hours_from(source, day, steps),
        }
    }

    /// Reads the eight days from a day on if it is the one after these.
    pub(crate) fn reach<S: OzoneSource, L: Ledger>(
        &mut self,
        source: &S,
        day: u16,
        steps: &mut Steps<L>,
    )
        requires profile { day ≤ LAST_DAY + 1 }
        requires first { self.old.first ≤ day }
        requires near { day ≤ self.old.first + 8 }
        requires holds { Holds (S.cell_at source.now) self.old }
        ensures reaches { Reaches day self.new }
        ensures later { self.old.first ≤ self.new.first }
        ensures holds { Holds (S.cell_at source.now) self.new }
        ensures steps { steps.new + 193 * S.sites * self.old.first
            ≤ steps.old + 193 * S.sites * self.new.first }
    {
        if day == self.first + SPAN_DAYS as u16 {
            *self = DaySpan::read(source, day, steps);
        }
    }

    /// The hours of one of these days.
    pub(crate) fn day(&self, day: u16) -> [Option<Cell>; DAY_HOURS]
        requires reaches { Reaches day self.now }
        requires ozone { AreOzone self.now.hours }
        ensures hours { (cell_at : ℕ → Option Cell)
            → Holds cell_at self.now
            → result ≡ hours.calendar_hours cell_at day }
        ensures ozone { AreOzone result }
    {
        hours_in(&self.hours, usize::from(day - self.first))
    }
}

/// What is read has for the hours of eight calendar days from the given one on.
fn hours_from<S: OzoneSource, L: Ledger>(
    source: &S,
    day: u16,
    steps: &mut Steps<L>,
) -> [Option<Cell>; SPAN_HOURS]
    ensures hours { result ≡ hours.span_hours (S.cell_at source.now) day }
    ensures ozone { AreOzone result }
    ensures steps { steps.new ≤ steps.old + 1544 * S.sites }
{
    if day <= LAST_DAY {
        source.hours(Day::new(day), steps)
    } else {
        [None; SPAN_HOURS]
    }
}

/// The hours of one of eight days: 0 is the first.
fn hours_in(span: &[Option<Cell>; SPAN_HOURS], day: usize) -> [Option<Cell>; DAY_HOURS]
    requires day { day < 8 }
    requires ozone { AreOzone span.now }
    ensures hours { (cell_at : ℕ → Option Cell) (first : ℕ)
        → span.now ≡ hours.span_hours cell_at first
        → result ≡ hours.calendar_hours cell_at (first + day) }
    ensures ozone { AreOzone result }
{
    let first = DAY_HOURS * day;
    let mut hours = [None; DAY_HOURS];
    for i in 0..DAY_HOURS {
        hours[i] = span[first + i];
    }
    hours
}
