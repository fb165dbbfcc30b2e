//! Two combined sites, read as one.
use crate::combined::either::of_either;
use aq_base::{Day, Hour, Pollutant, SiteId, Steps};
use aq_ozone::OzoneSource;
use aq_registry::Registry;
use aq_rules::kept::summaries::ozone_years_keep_their_facts;
use aq_series::{Cell, SPAN_DAYS, SPAN_HOURS, site_hour, site_hours};
use aq_shelf::Shelf;
use std::sync::ledger::Ledger;

/// A site of a shelf and a registry, and the one that is joined to it from a day on.
#[derive(Drop)]
pub(crate) struct Pair<'s, 'r> {
    pub(crate) shelf: &'s Shelf,
    pub(crate) registry: &'r Registry,
    pub(crate) site: SiteId,
    pub(crate) joined: SiteId,
    pub(crate) from: Day,
}

impl<'s, 'r> Pair<'s, 'r> {
    ghost use Rattle.std.specs.Prelude.{◌≡◌, nat_lt, option_map, IfSome};
    ghost use Rattle.aq_rules.specs.Combined.Pair as pairs;
    ghost use Rattle.aq_design.specs.Combined.Pairs.{office_in, pair_in};
    ghost use Rattle.aq_series.specs.OfficeView.{office_of};

    /// The pair whose first site this is, for a pollutant, if there is one.
    pub(crate) fn of(
        shelf: &'s Shelf,
        registry: &'r Registry,
        site: SiteId,
        pollutant: Pollutant,
    ) -> Option<Pair<'s, 'r>>
        ensures pair { option_map pair_in result
            ≡ pairs.pair_of (office_of registry.now shelf.now) site pollutant }
        ensures office { IfSome result (λ pair. office_in pair ≡ office_of registry.now shelf.now) }
    {
        let (joined, from) = registry.combined(site, pollutant)?;
        Some(Pair {
            shelf,
            registry,
            site,
            joined,
            from,
        })
    }

    /// Whether a day comes before the one from which the other site is joined.
    pub(crate) fn is_before(&self, day: Day) -> bool
        ensures { result ≡ nat_lt day self.now.from }
    {
        day < self.from
    }

    /// The site whose schedule, approvals and make-up samples hold on a day.
    pub(crate) fn in_force(&self, day: Day) -> SiteId
        ensures { result ≡ pairs.site_in_force (pair_in self.now) day }
    {
        if self.is_before(day) {
            self.site
        } else {
            self.joined
        }
    }
}

impl<'s, 'r> OzoneSource for Pair<'s, 'r> {
    ghost use Rattle.aq_rules.specs.Combined.Pair as pairs;
    ghost use Rattle.aq_rules.specs.Office.Season as seasons;
    ghost use Rattle.aq_design.specs.Combined.Pairs.{office_in, pair_in};

    ghost cell_at = { λ pair. pairs.pair_hour (office_in pair) (pair_in pair) };

    ghost approves = { λ pair. pairs.is_pair_approved (office_in pair) (pair_in pair) };

    ghost season_of = { λ pair. seasons.season_of pair.registry.now pair.site };

    ghost sites = { 2 };

    fn hour<L: Ledger>(&self, hour: Hour, steps: &mut Steps<L>) -> Option<Cell> {
        let day = Day::new((hour.number() / 24) as u16);
        if self.is_before(day) {
            return site_hour(self.shelf, self.registry, self.site, hour, steps);
        }
        let joined = site_hour(self.shelf, self.registry, self.joined, hour, steps);
        if joined.is_some() {
            return joined;
        }
        site_hour(self.shelf, self.registry, self.site, hour, steps)
    }

    fn hours<L: Ledger>(&self, day: Day, steps: &mut Steps<L>) -> [Option<Cell>; SPAN_HOURS] {
        let site = site_hours(self.shelf, self.registry, self.site, day, steps);
        let number = day.number();
        let from = self.from.number();
        let end = number + SPAN_DAYS as u16;
        if end <= from {
            return site;
        }
        let joined = site_hours(self.shelf, self.registry, self.joined, day, steps);
        of_either(&site, &joined, 24 * u32::from(number), 24 * u32::from(from))
    }

    fn season(&self, year: u16) -> (Day, Day) {
        ozone_years_keep_their_facts();
        // The proof learns that the records are those of a valid office.
        let _ = self.registry.next_poc(self.site, Pollutant::Ozone, 0);
        self.registry.season(self.site, year)
    }

    fn is_approved(&self, day: Day) -> bool {
        self.registry.is_approved(self.in_force(day), day)
    }
}
