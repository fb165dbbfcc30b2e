//! The days of a site, one after another.
use crate::day_span::DaySpan;
use crate::eight_hour::DayWindows;
use crate::source::{AtSite, OzoneSource};
use crate::windows::{DAY_HOURS, hours_of, windows_of};
use aq_base::{Day, SiteId, Steps};
use aq_registry::Registry;
use aq_series::Cell;
use aq_shelf::Shelf;
use std::sync::ledger::Ledger;

/// A walk over the days of a site, from a day on. Each hour is read once, those of eight calendar days
/// together; the shelf and the registry are the same all the way.
#[derive(Drop)]
pub struct Days {
    day: u16,
    today: [Option<Cell>; DAY_HOURS],
    span: DaySpan,
}

impl Days {
    ghost use Rattle.std.specs.Prelude.{◌≡◌, ◌+◌, ◌*◌, ◌≤◌};
    ghost use Rattle.aq_base.specs.declared.day.TheConstants.{LAST_DAY};
    ghost use Rattle.aq_rules.specs.Ozone.EightHour.{window_by};
    ghost use Rattle.aq_rules.specs.Ozone.OzoneDay as ozone_day;
    ghost use Rattle.aq_ozone.specs.DayHours.{AreNetOzone};
    ghost use Rattle.aq_ozone.specs.DaySpans.{days_read, IsAt, WalksAt};
    ghost use Rattle.aq_series.specs.OfficeView.{office_of};

    /// A walk that begins with a day.
    pub fn new<L: Ledger>(
        shelf: &Shelf,
        registry: &Registry,
        site: SiteId,
        day: Day,
        steps: &mut Steps<L>,
    ) -> Days
        ensures at { IsAt (office_of registry.now shelf.now) site day result }
        ensures read { days_read result ≡ day + 8 }
        ensures steps { steps.new ≤ steps.old + 1544 }
    {
        let at = AtSite {
            shelf,
            registry,
            site,
        };
        Days::starting(&at, day, steps)
    }

    /// The seventeen averages of the day that the walk is at, which then goes on to the next one. A step
    /// is made for each eligible monitor and eight days, and one for each hour that it has.
    #[tactic(auto, unfolding(aq_rules::specs::Ozone::OzoneDay::windows, aq_rules::specs::Ozone::EightHour::window))]
    pub fn next<L: Ledger>(
        &mut self,
        shelf: &Shelf,
        registry: &Registry,
        site: SiteId,
        steps: &mut Steps<L>,
    ) -> DayWindows
        requires at { IsAt (office_of registry.now shelf.now) site self.old.day self.old }
        requires profile { self.old.day ≤ LAST_DAY }
        ensures windows { result ≡ ozone_day.windows (office_of registry.now shelf.now) site self.old.day }
        ensures range { AreNetOzone result }
        ensures at { IsAt (office_of registry.now shelf.now) site (self.old.day + 1) self.new }
        ensures steps { steps.new + 193 * days_read self.old ≤ steps.old + 193 * days_read self.new }
    {
        let at = AtSite {
            shelf,
            registry,
            site,
        };
        self.next_of(&at, steps)
    }

    /// A walk over the days of what is read as one site, which begins with a day.
    pub(crate) fn starting<S: OzoneSource, L: Ledger>(
        source: &S,
        day: Day,
        steps: &mut Steps<L>,
    ) -> Days
        ensures at { WalksAt (S.cell_at source.now) day result }
        ensures read { days_read result ≡ day + 8 }
        ensures steps { steps.new ≤ steps.old + 1544 * S.sites }
    {
        let span = DaySpan::read(source, day.number(), steps);
        Days {
            day: day.number(),
            today: span.day(day.number()),
            span,
        }
    }

    /// The averages of the day that the walk is at, which then goes on to the next one.
    pub(crate) fn next_of<S: OzoneSource, L: Ledger>(
        &mut self,
        source: &S,
        steps: &mut Steps<L>,
    ) -> DayWindows
        requires at { WalksAt (S.cell_at source.now) self.old.day self.old }
        requires profile { self.old.day ≤ LAST_DAY }
        ensures windows { result
            ≡ ozone_day.windows_by (window_by (S.cell_at source.now)) self.old.day }
        ensures range { AreNetOzone result }
        ensures at { WalksAt (S.cell_at source.now) (self.old.day + 1) self.new }
        ensures steps { steps.new + 193 * S.sites * days_read self.old
            ≤ steps.old + 193 * S.sites * days_read self.new }
    {
        let next = self.day + 1;
        self.span.reach(source, next, steps);
        let tomorrow = self.span.day(next);
        let windows = windows_of(&hours_of(&self.today, &tomorrow));
        self.day = next;
        self.today = tomorrow;
        windows
    }
}
