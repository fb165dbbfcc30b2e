//! The report of a standard: the design values of the sites that measure its pollutant.
ghost use Rattle.std.specs.Prelude.{◌≡◌, ◌+◌, ◌≤◌, ◌++◌, [], ◌∷◌, IfOk, OnOk, filter, length, map};
ghost use Rattle.aq_base.specs.declared.day.TheConstants.{FIRST_YEAR, LAST_YEAR};
ghost use Rattle.aq_base.specs.declared.limits.TheConstants.{MOST_SITES};
ghost use Rattle.aq_book.specs.Questions.{valued, valued_in};
ghost use Rattle.aq_rules.specs.Office.Office as offices;
ghost use Rattle.aq_rules.specs.Shown.OtherSheets.{sites_with};
ghost use Rattle.aq_rules.specs.Standards as standards;

use crate::book::Book;
use aq_base::{Items, Memory, Pollutant, SiteId, Standard, Steps};
use aq_design::design_value;
use aq_verdict::DesignValue;
use std::alloc::Global;
use std::sync::ledger::Ledger;

/// Sites, each with its design value, in rising order. Contracts see the list of them.
pub type SiteValues = Items<(SiteId, DesignValue)>;

impl Book {
    /// The design value of a standard for each site that has a registered monitor of its pollutant, eligible
    /// or not, and the three years that end with a year, in rising order of sites. Each site is asked once.
    /// It makes no step. The year is 1992 to 2059.
    pub fn report<L: Ledger>(
        &self,
        alloc: Global,
        standard: Standard,
        year: u16,
        steps: &mut Steps<L>,
    ) -> Result<SiteValues, Memory>
        requires first { FIRST_YEAR + 2 ≤ year }
        requires last { year ≤ LAST_YEAR }
        ensures values { IfOk result (λ values. map valued_in values
            ≡ map (valued standard self.now year)
            (sites_with self.now (standards.pollutant_of standard))) }
        ensures few { IfOk result (λ values. length values ≤ MOST_SITES) }
        ensures steps { steps.new ≤ steps.old }
    {
        let mut values = SiteValues::new(alloc);
        let mut after = None;
        while let Some(site) = self.registry.next_site(after) {
            if self.measures(site, standard.pollutant()) {
                let value = design_value(self, standard, site, year, steps);
                values.push((site, value))?;
            }
            after = Some(site);
        }
        Ok(values)
    }

    /// Whether a site has a registered monitor of the pollutant, by one search of the records.
    fn measures(&self, site: SiteId, pollutant: Pollutant) -> bool
        ensures { result ≡ offices.has_monitor self.now site pollutant }
    {
        self.registry.next_poc(site, pollutant, 0).is_some()
    }
}
