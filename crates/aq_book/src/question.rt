//! Questions of a site.
ghost use Rattle.std.specs.Prelude.{◌≡◌, ◌+◌, ◌*◌, ◌≤◌, true, is_ok, IfErr, IfOk, OnOk, length};
ghost use Rattle.aq_base.specs.declared.day.TheConstants.{FIRST_YEAR, LAST_YEAR};
ghost use Rattle.aq_rules.specs.Kept.Summaries.{pm25_summary};
ghost use Rattle.aq_rules.specs.Particles.Pm10Estimate.{pm10_year};
ghost use Rattle.aq_rules.specs.Office.Approval as approvals;
ghost use Rattle.aq_rules.specs.Office.Season as seasons;
ghost use Rattle.aq_rules.specs.Ozone.OzoneDay as ozone;
ghost use Rattle.aq_rules.specs.Ozone.OzoneYear as years;
ghost use Rattle.aq_rules.specs.Questions.Answer.{is_registered};
ghost use Rattle.aq_rules.specs.Shown.Export as exports;
ghost use Rattle.aq_book.specs.Questions.{IsAskFault};
ghost use Rattle.aq_registry.specs.Registry.{days_of};

use crate::book::Book;
use crate::export::{ShownRows, shown_of};
use crate::fault::{AskFault, UnknownSite};
use crate::ozone::{OzoneDays, days_of_year};
use aq_base::{Day, Pollutant, SiteId, Steps};
use aq_design::Years;
use aq_ozone::DayWindows;
use aq_ozone_cells::kept_numbers_are_those_of_the_office;
use aq_verdict::{OzoneYear, Pm10Year, PmYear};
use std::alloc::Global;
use std::sync::ledger::Ledger;

impl Book {
    /// How many observations stand.
    pub fn observation_count(&self) -> u32
        ensures { result ≡ length self.now.observations }
    {
        self.shelf.count()
    }

    /// The seventeen 8-hour averages of a day of a site (40 CFR Part 50, Appendix U, 3(b)), from the hours
    /// that are kept. It takes no memory and makes none of the 192 steps that it may.
    pub fn windows<L: Ledger>(
        &self,
        site: SiteId,
        day: Day,
        steps: &mut Steps<L>,
    ) -> Result<DayWindows, UnknownSite>
        ensures windows { IfOk result (λ windows. windows ≡ ozone.windows self.now site day) }
        ensures registered { is_ok result ≡ is_registered self.now site }
        ensures steps { steps.new ≤ steps.old + 192 }
    {
        kept_numbers_are_those_of_the_office();
        // The hours are kept, so no step is made.
        let _ = steps;
        self.find(site)?;
        Ok(self.cells.ozone.windows(site, day))
    }

    /// The first and the last day of the ozone season of a site and year (40 CFR Part 50, Appendix U,
    /// 4(b)), by two searches of the records. It takes no memory. The year is 1990 to 2059.
    pub fn season(&self, site: SiteId, year: u16) -> Result<(Day, Day), UnknownSite>
        requires first { FIRST_YEAR ≤ year }
        requires last { year ≤ LAST_YEAR }
        ensures season { IfOk result
            (λ season. season ≡ days_of (seasons.season_of self.now.records site year)) }
        ensures registered { is_ok result ≡ is_registered self.now site }
    {
        self.find(site)?;
        Ok(self.registry.season(site, year))
    }

    /// Whether an ozone day of a site counts as valid by approval (40 CFR Part 50, Appendix U, 4(c)), by
    /// two searches of the records. It takes no memory.
    pub fn is_approved(&self, site: SiteId, day: Day) -> Result<bool, UnknownSite>
        ensures approved { IfOk result
            (λ approved. approved ≡ approvals.is_approved self.now.records site day) }
        ensures registered { is_ok result ≡ is_registered self.now site }
    {
        self.find(site)?;
        Ok(self.registry.is_approved(site, day))
    }

    /// The ozone days of a site and year, one for each day of the year (40 CFR Part 50, Appendix U, 3(c)
    /// and (d)), in at most 200 steps a day. The year is 1990 to 2059.
    pub fn ozone_days<L: Ledger>(
        &self,
        alloc: Global,
        site: SiteId,
        year: u16,
        steps: &mut Steps<L>,
    ) -> Result<OzoneDays, AskFault>
        requires first { FIRST_YEAR ≤ year }
        requires last { year ≤ LAST_YEAR }
        ensures days { IfOk result (λ days. days ≡ years.ozone_days self.now site year) }
        ensures registered { OnOk result (is_registered self.now site ≡ true) }
        ensures refused { IfErr result (λ fault. IsAskFault fault (is_registered self.now site)) }
        ensures steps { steps.new ≤ steps.old + 200 * 367 }
    {
        self.find(site)?;
        let days = days_of_year(alloc, &self.shelf, &self.registry, site, year, steps)?;
        Ok(days)
    }

    /// The ozone year of a site: the days of its season, those of them that are valid or approved, how
    /// many maxima are ranked, and the fourth highest of these in thousandths of a ppm (40 CFR Part 50,
    /// Appendix U, 3(e) and 4(b)), from the cells that are kept. It takes no memory and makes no step. The
    /// year is 1990 to 2059.
    pub fn ozone_year<L: Ledger>(
        &self,
        site: SiteId,
        year: u16,
        steps: &mut Steps<L>,
    ) -> Result<OzoneYear, UnknownSite>
        requires first { FIRST_YEAR ≤ year }
        requires last { year ≤ LAST_YEAR }
        ensures year { IfOk result (λ summary. summary ≡ years.ozone_year self.now site year) }
        ensures registered { is_ok result ≡ is_registered self.now site }
        ensures steps { steps.new ≤ steps.old }
    {
        self.find(site)?;
        Ok(self.ozone(site, year, steps))
    }

    /// The PM2.5 year of a site: what is kept of its four quarters, and its eight greatest values (40 CFR
    /// Part 50, Appendix N, 1.0(c), 3.0 and 4), from the cells that are kept. It takes no memory and makes no
    /// step. The year is 1990 to 2059.
    pub fn pm25_year<L: Ledger>(
        &self,
        site: SiteId,
        year: u16,
        steps: &mut Steps<L>,
    ) -> Result<PmYear, UnknownSite>
        requires first { FIRST_YEAR ≤ year }
        requires last { year ≤ LAST_YEAR }
        ensures year { IfOk result (λ summary. summary ≡ pm25_summary self.now site year) }
        ensures registered { is_ok result ≡ is_registered self.now site }
        ensures steps { steps.new ≤ steps.old }
    {
        // The cells are kept, so no step is made.
        let _ = steps;
        self.find(site)?;
        Ok(self.pm25_of_cells(site, year))
    }

    /// The PM10 year of a site: its four quarters (40 CFR Part 50, Appendix K, 2.3 and 3), from the cells that
    /// are kept. It takes no memory and makes no step. The year is 1990 to 2059.
    pub fn pm10_year<L: Ledger>(
        &self,
        site: SiteId,
        year: u16,
        steps: &mut Steps<L>,
    ) -> Result<Pm10Year, UnknownSite>
        requires first { FIRST_YEAR ≤ year }
        requires last { year ≤ LAST_YEAR }
        ensures year { IfOk result (λ summary. summary ≡ pm10_year self.now site year) }
        ensures registered { is_ok result ≡ is_registered self.now site }
        ensures steps { steps.new ≤ steps.old }
    {
        // The cells are kept, so no step is made.
        let _ = steps;
        self.find(site)?;
        Ok(self.pm10_of_cells(site, year))
    }

    /// The observations of a site and pollutant in a year, each with whether it is excluded (40 CFR
    /// 50.14): of every registered monitor, eligible or not, also those without a value, in the order of
    /// POC and hour. It costs two searches of the observations for each monitor. The year is 1990 to 2059.
    pub fn observations(
        &self,
        alloc: Global,
        site: SiteId,
        pollutant: Pollutant,
        year: u16,
    ) -> Result<ShownRows, AskFault>
        requires first { FIRST_YEAR ≤ year }
        requires last { year ≤ LAST_YEAR }
        ensures rows { IfOk result (λ rows. rows ≡ exports.shown_of self.now site pollutant year) }
        ensures registered { OnOk result (is_registered self.now site ≡ true) }
        ensures refused { IfErr result (λ fault. IsAskFault fault (is_registered self.now site)) }
    {
        self.find(site)?;
        let rows = shown_of(alloc, &self.shelf, &self.registry, site, pollutant, year)?;
        Ok(rows)
    }

    /// Whether a monitor of a site is registered, by one search of the records.
    pub fn has_site(&self, site: SiteId) -> bool
        ensures { result ≡ is_registered self.now site }
    {
        self.registry.has_site(site)
    }

    /// Finds a site among those that have a registered monitor, by one search of the records.
    pub(crate) fn find(&self, site: SiteId) -> Result<(), UnknownSite>
        ensures { is_ok result ≡ is_registered self.now site }
    {
        if self.has_site(site) {
            Ok(())
        } else {
            Err(UnknownSite)
        }
    }
}
