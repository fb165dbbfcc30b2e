//! Where the years of an office are had from.
ghost use Rattle.std.specs.Prelude.{◌≡◌, ◌+◌, ◌≤◌, ℕ, Bool, true};
ghost use Rattle.aq_base.specs.declared.day.TheConstants.{FIRST_YEAR, LAST_YEAR};
ghost use Rattle.aq_rules.specs.Kept.Summaries.{pm25_summary};
ghost use Rattle.aq_rules.specs.Office.Office.{Office};
ghost use Rattle.aq_rules.specs.Ozone.OzoneYear.{ozone_year};
ghost use Rattle.aq_rules.specs.Particles.Pm10Estimate.{pm10_year};

use aq_base::{SiteId, Steps};
use aq_verdict::{OzoneYear, Pm10Year, PmYear};
use std::sync::ledger::Ledger;

/// Gives what is kept of the years of an office's sites, without memory.
pub trait Years {
    /// The office whose years they are.
    ghost office: { Self → Office };

    /// How many steps an ozone year makes at most.
    ghost ozone_steps: { ℕ };

    /// Whether the particle years are kept, so that they make no step.
    ghost keeps_particles: { Bool };

    /// The ozone year of a site (40 CFR Part 50, Appendix U, 3(e) and 4(b)), in at most as many
    /// steps as the source says. The year is 1990 to 2059.
    fn ozone<L: Ledger>(&self, site: SiteId, year: u16, steps: &mut Steps<L>) -> OzoneYear
        requires first { FIRST_YEAR ≤ year }
        requires last { year ≤ LAST_YEAR }
        ensures year { result ≡ ozone_year (office self.now) site year }
        ensures steps { steps.new ≤ steps.old + ozone_steps };

    /// The PM2.5 year of a site (40 CFR Part 50, Appendix N, 1.0(c), 3.0 and 4). If the
    /// source keeps it, it makes no step. The year is 1990 to 2059.
    fn pm25<L: Ledger>(&self, site: SiteId, year: u16, steps: &mut Steps<L>) -> PmYear
        requires first { FIRST_YEAR ≤ year }
        requires last { year ≤ LAST_YEAR }
        ensures year { result ≡ pm25_summary (office self.now) site year }
        ensures steps { keeps_particles ≡ true → steps.new ≤ steps.old };

    /// The PM10 year of a site (40 CFR Part 50, Appendix K, 2.3 and 3). If the source keeps it, it
    /// makes no step. The year is 1990 to 2059.
    fn pm10<L: Ledger>(&self, site: SiteId, year: u16, steps: &mut Steps<L>) -> Pm10Year
        requires first { FIRST_YEAR ≤ year }
        requires last { year ≤ LAST_YEAR }
        ensures year { result ≡ pm10_year (office self.now) site year }
        ensures steps { keeps_particles ≡ true → steps.new ≤ steps.old };
}
