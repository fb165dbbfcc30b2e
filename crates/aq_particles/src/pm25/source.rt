//! What the PM2.5 of quarters and years is computed from.
ghost use Rattle.std.specs.Prelude.{◌≡◌, ℕ, ◌+◌, ◌<◌, ◌≤◌, Option, None, IfSome, get_or, length};
ghost use Rattle.aq_base.specs.declared.day.TheConstants.{LAST_DAY};
ghost use Rattle.aq_particles.specs.Pm25.SiteDays.{SiteDays, credits_by, AreApart};
ghost use Rattle.aq_series.specs.DayCells.{IsParticle};

use aq_base::{Day, Pollutant, Quarter, SiteId, Steps};
use aq_cal::a_quarter_holds_the_days_of_its_span;
use aq_registry::Registry;
use aq_series::{Cell, site_day, site_days};
use aq_shelf::Shelf;
use std::sync::ledger::Ledger;

/// The longest quarter has as many days.
pub const MOST_DAYS: usize = 92;

/// The schedule of what is read as one site: a site, or several that stand for one another.
pub trait Pm25Schedule {
    /// What it has for a day, and which days are scheduled.
    ghost site_days: { Self → SiteDays };

    /// Whether a day is scheduled (40 CFR 58.12).
    fn is_scheduled(&self, day: Day) -> bool
        ensures { result ≡ (site_days self.now).schedules day };
}

/// The days of what is read as one site, with its schedule. Values are in tenths of a µg/m3. It takes no
/// memory.
pub trait Pm25Days: Pm25Schedule {
    /// What it has for a day (40 CFR Part 50, Appendix N, 3.0).
    fn day<L: Ledger>(&self, day: Day, steps: &mut Steps<L>) -> Option<Cell>
        ensures value { result ≡ (Self.site_days self.now).cell_on day }
        ensures range { IfSome result (λ cell. IsParticle cell.value) };

    /// What it has for so many days from the first one on.
    fn days<L: Ledger>(
        &self,
        first: Day,
        count: u8,
        steps: &mut Steps<L>,
    ) -> [Option<Cell>; MOST_DAYS]
        requires few { count ≤ 92 }
        requires in_profile { first + count ≤ LAST_DAY + 1 }
        ensures many { length result ≡ 92 }
        ensures days { (k : ℕ) → k < count
            → get_or result k None ≡ (Self.site_days self.now).cell_on (first + k) }
        ensures range { (k : ℕ) → IfSome (get_or result k None) (λ cell. IsParticle cell.value) };
}

/// Such days with their make-up samples.
pub trait Pm25Source: Pm25Days {
    /// The day of the sample that may make up for a missed day.
    ghost makeup_for: { Self → ℕ → Option ℕ };

    /// The day of the sample that may make up for a missed day (40 CFR Part 50, Appendix N, 1.0(c)), if
    /// there is one.
    fn makeup_of<L: Ledger>(&self, missed: Day, steps: &mut Steps<L>) -> Option<Day>
        ensures { result ≡ makeup_for self.now missed };

    /// Of a quarter's make-up samples that give credit each has a day of its own, in the quarter.
    fn makeups_lie_apart(&self, quarter: Quarter)
        ensures { AreApart quarter
            (credits_by (Self.site_days self.now) (makeup_for self.now) quarter) };
}

/// A site of a shelf and a registry.
#[derive(Drop)]
pub(crate) struct AtSite<'a> {
    pub(crate) shelf: &'a Shelf,
    pub(crate) registry: &'a Registry,
    pub(crate) site: SiteId,
}

impl<'a> Pm25Schedule for AtSite<'a> {
    ghost use Rattle.aq_particles.specs.Pm25.SiteDays.{days_at};
    ghost use Rattle.aq_series.specs.OfficeView.{office_of};

    ghost site_days = { λ at. days_at (office_of at.registry.now at.shelf.now) at.site };

    fn is_scheduled(&self, day: Day) -> bool {
        self.registry.is_scheduled(self.site, Pollutant::Pm25, day)
    }
}

impl<'a> Pm25Days for AtSite<'a> {
    fn day<L: Ledger>(&self, day: Day, steps: &mut Steps<L>) -> Option<Cell> {
        site_day(
            self.shelf,
            self.registry,
            self.site,
            Pollutant::Pm25,
            day,
            steps,
        )
    }

    fn days<L: Ledger>(
        &self,
        first: Day,
        count: u8,
        steps: &mut Steps<L>,
    ) -> [Option<Cell>; MOST_DAYS] {
        site_days(self.shelf, self.registry, self.site, first, count, steps)
    }
}

impl<'a> Pm25Source for AtSite<'a> {
    ghost use Rattle.aq_rules.specs.Office.Questions.{makeup_of};

    ghost makeup_for = { λ at. makeup_of at.registry.now at.site };

    fn makeup_of<L: Ledger>(&self, missed: Day, _steps: &mut Steps<L>) -> Option<Day> {
        self.registry.makeup_of(self.site, missed)
    }

    fn makeups_lie_apart(&self, _quarter: Quarter) {
        a_quarter_holds_the_days_of_its_span();
        // The proof learns that the records are those of a valid office.
        let _ = self.registry.next_poc(self.site, Pollutant::Pm25, 0);
    }
}
