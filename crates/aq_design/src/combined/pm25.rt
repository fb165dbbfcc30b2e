//! The PM2.5 of two combined sites.
ghost use Rattle.std.specs.Prelude.{◌≡◌, ◌≤◌};
ghost use Rattle.aq_base.specs.declared.day.TheConstants.{FIRST_YEAR, LAST_YEAR};
ghost use Rattle.aq_rules.specs.Combined.Pair.{pair_pm25_year};
ghost use Rattle.aq_rules.specs.Kept.Summaries.{summary_of_year};
ghost use Rattle.aq_design.specs.Combined.Makeups.{is_taken};
ghost use Rattle.aq_design.specs.Combined.Pairs.{office_in, pair_in};

use crate::combined::either::of_either;
use crate::combined::pair::Pair;
use aq_base::{Day, Pollutant, Quarter, SiteId, Steps};
use aq_cal::a_quarter_holds_the_days_of_its_span;
use aq_particles::pm25::{MOST_DAYS, Pm25Days, Pm25Schedule, Pm25Source, gives_credit, year_of};
use aq_series::{Cell, site_day, site_days};
use aq_verdict::PmYear;
use std::sync::ledger::Ledger;

impl<'s, 'r> Pair<'s, 'r> {
    ghost use Rattle.std.specs.Prelude.{◌≡◌, IfSome};
    ghost use Rattle.aq_base.specs.declared.monitor.Pollutant.TheVariants.{Pm25};
    ghost use Rattle.aq_rules.specs.Particles.ParticleDay.{site_day};
    ghost use Rattle.aq_design.specs.Combined.Pairs.{office_in};
    ghost use Rattle.aq_series.specs.DayCells.{IsParticle};

    /// What one of the sites has for a day.
    fn pm25_on<L: Ledger>(&self, site: SiteId, day: Day, steps: &mut Steps<L>) -> Option<Cell>
        ensures value { result ≡ site_day (office_in self.now) site Pm25 day }
        ensures range { IfSome result (λ cell. IsParticle cell.value) }
    {
        site_day(self.shelf, self.registry, site, Pollutant::Pm25, day, steps)
    }
}

impl<'s, 'r> Pm25Schedule for Pair<'s, 'r> {
    ghost use Rattle.aq_design.specs.Combined.Pairs.{days_of, office_in, pair_in};

    ghost site_days = { λ pair. days_of (office_in pair) (pair_in pair) };

    fn is_scheduled(&self, day: Day) -> bool {
        self.registry
            .is_scheduled(self.in_force(day), Pollutant::Pm25, day)
    }
}

impl<'s, 'r> Pm25Days for Pair<'s, 'r> {
    fn day<L: Ledger>(&self, day: Day, steps: &mut Steps<L>) -> Option<Cell> {
        if self.is_before(day) {
            return self.pm25_on(self.site, day, steps);
        }
        let joined = self.pm25_on(self.joined, day, steps);
        if joined.is_some() {
            return joined;
        }
        self.pm25_on(self.site, day, steps)
    }

    fn days<L: Ledger>(
        &self,
        first: Day,
        count: u8,
        steps: &mut Steps<L>,
    ) -> [Option<Cell>; MOST_DAYS] {
        let site = site_days(self.shelf, self.registry, self.site, first, count, steps);
        let number = first.number();
        let from = self.from.number();
        let end = number + u16::from(count);
        if end <= from {
            return site;
        }
        let joined = site_days(self.shelf, self.registry, self.joined, first, count, steps);
        of_either(&site, &joined, u32::from(number), u32::from(from))
    }
}

impl<'s, 'r> Pm25Source for Pair<'s, 'r> {
    ghost use Rattle.aq_design.specs.Combined.Makeups.{makeup_of_pair};
    ghost use Rattle.aq_design.specs.Combined.Pairs.{office_in, pair_in};

    ghost makeup_for = { λ pair. makeup_of_pair (office_in pair) (pair_in pair) };

    fn makeup_of<L: Ledger>(&self, missed: Day, steps: &mut Steps<L>) -> Option<Day> {
        if self.is_before(missed) {
            return self.registry.makeup_of(self.site, missed);
        }
        let makeup = self.registry.makeup_of(self.joined, missed)?;
        if is_taken(self, makeup, steps) {
            return None;
        }
        Some(makeup)
    }

    fn makeups_lie_apart(&self, _quarter: Quarter) {
        a_quarter_holds_the_days_of_its_span();
        // The proof learns that the records are those of a valid office.
        let _ = self.registry.next_poc(self.site, Pollutant::Pm25, 0);
    }
}

/// Whether the sample of a day makes up for a missed day of the site, before the other one is joined.
fn is_taken<L: Ledger>(pair: &Pair<'_, '_>, makeup: Day, steps: &mut Steps<L>) -> bool
    ensures { result ≡ is_taken (office_in pair.now) (pair_in pair.now) makeup }
{
    let Some(missed) = pair.registry.missed_of(pair.site, makeup) else {
        return false;
    };
    pair.is_before(missed) && gives_credit(pair, missed, makeup, steps)
}

/// The PM2.5 year of the pair.
pub(crate) fn pm25_year<L: Ledger>(pair: &Pair<'_, '_>, year: u16, steps: &mut Steps<L>) -> PmYear
    requires first { FIRST_YEAR ≤ year }
    requires last { year ≤ LAST_YEAR }
    ensures { result
        ≡ summary_of_year (pair_pm25_year (office_in pair.now) (pair_in pair.now) year) }
{
    a_quarter_holds_the_days_of_its_span();
    // The proof learns that the records are those of a valid office.
    let _ = pair.registry.next_poc(pair.site, Pollutant::Pm25, 0);
    year_of(pair, year, steps)
}
