//! What the ozone of a year is computed from.
ghost use Rattle.std.specs.Prelude.{◌≡◌, ℕ, ◌+◌, ◌*◌, ◌≤◌, Bool, Option, IfSome, count_by};
ghost use Rattle.aq_base.specs.declared.day.TheConstants.{FIRST_YEAR, LAST_YEAR};
ghost use Rattle.aq_registry.specs.Registry.{days_of};
ghost use Rattle.aq_rules.specs.Office.Season.{Season, is_in_season};
ghost use Rattle.aq_rules.specs.Ozone.OzoneYear as ozone_year;
ghost use Rattle.aq_rules.specs.Ozone.SiteHour as site_hour;
ghost use Rattle.aq_ozone.specs.DayHours.{span_hours};
ghost use Rattle.aq_series.specs.Samples.{AreOzone, IsOzone};

use aq_base::{Day, Hour, Pollutant, SiteId, Steps};
use aq_registry::Registry;
use aq_rules::kept::summaries::ozone_years_keep_their_facts;
use aq_series::{Cell, SPAN_HOURS, site_hour, site_hours};
use aq_shelf::Shelf;
use std::sync::ledger::Ledger;

/// What is read as one site: a site, or several that stand for one another. Values are in thousandths of
/// a ppm. It takes no memory.
pub trait OzoneSource {
    /// What it has for an hour.
    ghost cell_at: { Self → ℕ → Option site_hour.Cell };

    /// Whether a day counts as valid by approval.
    ghost approves: { Self → ℕ → Bool };

    /// The season of a year.
    ghost season_of: { Self → ℕ → Season };

    /// How many sites are read, at most.
    ghost sites: { ℕ };

    /// What it has for an hour (40 CFR Part 50, Appendix U, 2(b)), in at most 8 steps for each site.
    fn hour<L: Ledger>(&self, hour: Hour, steps: &mut Steps<L>) -> Option<Cell>
        ensures value { result ≡ cell_at self.now hour }
        ensures range { IfSome result (λ cell. IsOzone cell.value) }
        ensures steps { steps.new ≤ steps.old + 8 * sites };

    /// What it has for the hours of eight calendar days from the given one on, and none past the profile,
    /// in at most 1,544 steps for each site.
    fn hours<L: Ledger>(&self, day: Day, steps: &mut Steps<L>) -> [Option<Cell>; SPAN_HOURS]
        ensures hours { result ≡ span_hours (cell_at self.now) day }
        ensures range { AreOzone result }
        ensures steps { steps.new ≤ steps.old + 1544 * sites };

    /// The season of a year (40 CFR Part 50, Appendix U, 4(b)), which has a day. The year is 1990 to 2059.
    fn season(&self, year: u16) -> (Day, Day)
        requires first { FIRST_YEAR ≤ year }
        requires last { year ≤ LAST_YEAR }
        ensures season { result ≡ days_of (season_of self.now year) }
        ensures some { 1
            ≤ count_by (is_in_season (season_of self.now year)) (ozone_year.days_of year) };

    /// Whether a day counts as valid by approval (40 CFR Part 50, Appendix U, 4(c)).
    fn is_approved(&self, day: Day) -> bool
        ensures { result ≡ approves self.now day };
}

/// A site of a shelf and a registry.
#[derive(Drop)]
pub(crate) struct AtSite<'a> {
    pub(crate) shelf: &'a Shelf,
    pub(crate) registry: &'a Registry,
    pub(crate) site: SiteId,
}

impl<'a> OzoneSource for AtSite<'a> {
    ghost use Rattle.aq_rules.specs.Office.Approval as approvals;
    ghost use Rattle.aq_rules.specs.Office.Season as seasons;
    ghost use Rattle.aq_rules.specs.Ozone.SiteHour as site_hour;
    ghost use Rattle.aq_series.specs.OfficeView.{office_of};

    ghost cell_at = { λ at. site_hour.site_hour (office_of at.registry.now at.shelf.now) at.site };

    ghost approves = { λ at. approvals.is_approved at.registry.now at.site };

    ghost season_of = { λ at. seasons.season_of at.registry.now at.site };

    ghost sites = { 1 };

    fn hour<L: Ledger>(&self, hour: Hour, steps: &mut Steps<L>) -> Option<Cell> {
        site_hour(self.shelf, self.registry, self.site, hour, steps)
    }

    fn hours<L: Ledger>(&self, day: Day, steps: &mut Steps<L>) -> [Option<Cell>; SPAN_HOURS] {
        site_hours(self.shelf, self.registry, self.site, day, steps)
    }

    fn season(&self, year: u16) -> (Day, Day) {
        ozone_years_keep_their_facts();
        // The proof learns that the records are those of a valid office.
        let _ = self.registry.next_poc(self.site, Pollutant::Ozone, 0);
        self.registry.season(self.site, year)
    }

    fn is_approved(&self, day: Day) -> bool {
        self.registry.is_approved(self.site, day)
    }
}
