//! The years of an office's sites, and the design values of a site (40 CFR Part 50, Appendices U, N and K).
ghost use Rattle.std.specs.Prelude.{◌≡◌, ◌+◌, ◌≤◌, is_ok, IfOk};
ghost use Rattle.aq_base.specs.declared.day.TheConstants.{FIRST_YEAR, LAST_YEAR};
ghost use Rattle.aq_rules.specs.DesignValues as designs;
ghost use Rattle.aq_rules.specs.Kept.Summaries.{pm25_summary};
ghost use Rattle.aq_rules.specs.Particles.Pm10Estimate.{pm10_year};
ghost use Rattle.aq_rules.specs.Questions.Answer.{is_registered};
ghost use Rattle.aq_verdict.specs.Designs.{design_of};

use crate::book::Book;
use crate::fault::UnknownSite;
use aq_base::{SiteId, Standard, Steps};
use aq_cal::year_span;
use aq_design::{Years, design_value};
use aq_verdict::{DesignValue, OzoneYear, Pm10Year, PmYear};
use std::sync::ledger::Ledger;

impl Years for Book {
    ghost use Rattle.std.specs.Prelude.{true};

    ghost office = { λ office. office };

    ghost ozone_steps = { 0 };

    ghost keeps_particles = { true };

    fn ozone<L: Ledger>(&self, site: SiteId, year: u16, _steps: &mut Steps<L>) -> OzoneYear {
        aq_ozone_cells::kept_numbers_are_those_of_the_office();
        // The proof learns that the days of the year are of the profile.
        let _ = year_span(year);
        self.cells.ozone.year(&self.registry, site, year)
    }

    fn pm25<L: Ledger>(&self, site: SiteId, year: u16, _steps: &mut Steps<L>) -> PmYear {
        self.pm25_of_cells(site, year)
    }

    fn pm10<L: Ledger>(&self, site: SiteId, year: u16, _steps: &mut Steps<L>) -> Pm10Year {
        self.pm10_of_cells(site, year)
    }
}

impl Book {
    /// The design value of a standard for a site and the three years that end with a year, with what is
    /// kept of these and the verdict (40 CFR Part 50, Appendix U, 3(e) and 4, Appendix N, 4 and 5, and
    /// Appendix K, 2.1). It takes no memory. The years are kept, so it makes no step. The year is 1992 to
    /// 2059.
    pub fn design_value<L: Ledger>(
        &self,
        standard: Standard,
        site: SiteId,
        year: u16,
        steps: &mut Steps<L>,
    ) -> Result<DesignValue, UnknownSite>
        requires first { FIRST_YEAR + 2 ≤ year }
        requires last { year ≤ LAST_YEAR }
        ensures value { IfOk result
            (λ value. design_of value ≡ designs.design_value standard self.now site year) }
        ensures registered { is_ok result ≡ is_registered self.now site }
        ensures steps { steps.new ≤ steps.old }
    {
        self.find(site)?;
        Ok(design_value(self, standard, site, year, steps))
    }

    /// The PM2.5 year of a site, from the cells that are kept.
    pub(crate) fn pm25_of_cells(&self, site: SiteId, year: u16) -> PmYear
        requires first { FIRST_YEAR ≤ year }
        requires last { year ≤ LAST_YEAR }
        ensures { result ≡ pm25_summary self.now site year }
    {
        aq_particle_cells::pm25::kept_numbers_are_those_of_the_office();
        self.cells.pm25.year(&self.registry, site, year)
    }

    /// The PM10 year of a site, from the cells that are kept.
    pub(crate) fn pm10_of_cells(&self, site: SiteId, year: u16) -> Pm10Year
        requires first { FIRST_YEAR ≤ year }
        requires last { year ≤ LAST_YEAR }
        ensures { result ≡ pm10_year self.now site year }
    {
        aq_particle_cells::pm10::kept_numbers_are_those_of_the_office();
        self.cells.pm10.year(&self.registry, site, year)
    }
}
