//! The PM10 cells of sites, kept under change.
ghost use Rattle.std.specs.Prelude.{◌≡◌, ◌≤◌, ◌+◌, ◌&&◌, ◌==◌, ℕ, None, if◌then◌else◌, IfSome, OnOk};
ghost use Rattle.aq_base.specs.Site.{Site};
ghost use Rattle.aq_base.specs.declared.day.TheConstants.{FIRST_YEAR, LAST_YEAR};
ghost use Rattle.aq_rules.specs.Office.Monitors.{is_same_site};
ghost use Rattle.aq_series.specs.DayCells.{IsParticle};
ghost use Rattle.aq_particle_cells.specs.Days.KeptDays.{cell_at, sample_at};
ghost use Rattle.aq_particle_cells.specs.Pm10.Pm10Cells.{pm10_quarter_of_days, pm10_year_of_days, scheduled_sample, stratum_from, AreCountedBy, AreSamplesBy, IsCountedBy};
ghost use Rattle.aq_particle_cells.specs.Pm10.Strata.{stratum_at};
ghost use Rattle.aq_particle_cells.specs.Days.Spans.{is_day_of};

use crate::days::{KeptDays, scheduled_days};
use crate::pm10::days::{change_day, settle_quarter, settle_stratum};
use crate::pm10::kept_strata::KeptStrata;
use crate::pm10::tallies::Pm10Tallies;
use aq_base::{Day, FIRST_YEAR, LAST_YEAR, Memory, Pollutant, Quarter, SiteId, Steps};
use aq_cal::quarter_span;
use aq_particles::pm10::quarter_in;
use aq_registry::Registry;
use aq_series::Cell;
use aq_verdict::{Pm10Quarter, Pm10Year};
use std::alloc::Global;
use std::marker::Model;
use std::sync::ledger::Ledger;

/// The PM10 cells of sites: the value of each day, whether it counts as scheduled, what is kept of each
/// stratum under its first day, and what the days and the strata give their quarters together. A change and a
/// settling take out just what was put in, whatever a registry says by then. Contracts see what is kept of
/// the days (`cell_at`, `sample_at`) and of the strata (`stratum_at`). After want of memory the value may
/// only be dropped.
#[derive(Drop)]
pub struct Pm10Cells {
    days: KeptDays,
    strata: KeptStrata,
    tallies: Pm10Tallies,
    alloc: Global,
}

impl Model for Pm10Cells {
    ghost use Rattle.aq_particle_cells.specs.Pm10.Pm10Cells.{AreCells, Pm10Kept};

    ghost Value = { Pm10Kept };

    ghost view = { λ cells. record { days = cells.days.days.entries; strata = cells.strata.strata.entries } };

    ghost invariant = { λ cells. AreCells cells.days.days.entries cells.strata.strata.entries cells.tallies };
}

impl Pm10Cells {
    /// The cells of the empty office. It takes no memory.
    pub fn new(alloc: Global) -> Pm10Cells
        ensures cells { (site : Site) (day : ℕ) → cell_at result.days site day ≡ None }
        ensures samples { (site : Site) (day : ℕ) → sample_at result.days site day ≡ None }
        ensures strata { (site : Site) (first : ℕ) → stratum_at result.strata site first ≡ None }
    {
        Pm10Cells {
            days: KeptDays::new(alloc),
            strata: KeptStrata::new(alloc),
            tallies: Pm10Tallies::new(alloc),
            alloc,
        }
    }

    /// The value of a day that is kept.
    pub fn cell(&self, site: SiteId, day: Day) -> Option<Cell>
        ensures { result ≡ cell_at self.now.days site day }
    {
        self.days.cell(site, day)
    }

    /// The day goes from the value `old`, which is kept, to `new`, and counts as scheduled or not by the
    /// registry. Its stratum follows by `settle_stratum`. At most 16 steps.
    pub fn change_day<L: Ledger>(
        &mut self,
        registry: &Registry,
        site: SiteId,
        day: Day,
        old: Option<Cell>,
        new: Option<Cell>,
        steps: &mut Steps<L>,
    ) -> Result<(), Memory>
        requires old { cell_at self.old.days site day ≡ old }
        requires range { IfSome new (λ cell. IsParticle cell.value) }
        ensures cells { OnOk result ((other : Site) (number : ℕ)
            → cell_at self.new.days other number
            ≡ (if is_same_site site other && (day == number) then new
            else cell_at self.old.days other number)) }
        ensures samples { OnOk result ((other : Site) (number : ℕ)
            → sample_at self.new.days other number
            ≡ (if is_same_site site other && (day == number)
            then scheduled_sample registry.now self.new.days site day
            else sample_at self.old.days other number)) }
        ensures strata { OnOk result ((other : Site) (first : ℕ)
            → stratum_at self.new.strata other first ≡ stratum_at self.old.strata other first) }
        ensures steps { steps.new ≤ steps.old + 16 }
    {
        let _ = old; // It is kept, and found there.
        match change_day(
            &mut self.days,
            &self.strata,
            &mut self.tallies,
            registry,
            site,
            day,
            &new,
            steps,
        ) {
            Ok(()) => Ok(()),
            Err(Memory) => {
                *self = Pm10Cells::new(self.alloc);
                Err(Memory)
            }
        }
    }

    /// What is kept of the stratum that starts on a day becomes that of its days, by a registry: nothing if no
    /// stratum starts there or none of its days has a value that is not excluded. At most 16 steps.
    pub fn settle_stratum<L: Ledger>(
        &mut self,
        registry: &Registry,
        site: SiteId,
        first: Day,
        steps: &mut Steps<L>,
    ) -> Result<(), Memory>
        ensures strata { OnOk result ((other : Site) (number : ℕ)
            → stratum_at self.new.strata other number
            ≡ (if is_same_site site other && (first == number)
            then stratum_from registry.now self.old.days site first
            else stratum_at self.old.strata other number)) }
        ensures cells { OnOk result ((other : Site) (day : ℕ) → cell_at self.new.days other day
            ≡ cell_at self.old.days other day) }
        ensures samples { OnOk result ((other : Site) (day : ℕ) → sample_at self.new.days other day
            ≡ sample_at self.old.days other day) }
        ensures steps { steps.new ≤ steps.old + 16 }
    {
        match settle_stratum(
            &self.days,
            &mut self.strata,
            &mut self.tallies,
            registry,
            site,
            first,
            steps,
        ) {
            Ok(()) => Ok(()),
            Err(Memory) => {
                *self = Pm10Cells::new(self.alloc);
                Err(Memory)
            }
        }
    }

    /// The counts of a quarter become those under a registry: each day counts as scheduled or not. At most 800
    /// steps, and none if each counts so already.
    pub fn settle_quarter<L: Ledger>(
        &mut self,
        registry: &Registry,
        site: SiteId,
        quarter: Quarter,
        steps: &mut Steps<L>,
    ) -> Result<(), Memory>
        ensures samples { OnOk result ((other : Site) (number : ℕ)
            → sample_at self.new.days other number
            ≡ (if is_same_site site other && is_day_of quarter number
            then scheduled_sample registry.now self.old.days site number
            else sample_at self.old.days other number)) }
        ensures cells { OnOk result ((other : Site) (number : ℕ)
            → cell_at self.new.days other number ≡ cell_at self.old.days other number) }
        ensures strata { OnOk result ((other : Site) (first : ℕ)
            → stratum_at self.new.strata other first ≡ stratum_at self.old.strata other first) }
        ensures steps { steps.new ≤ steps.old + 800 }
        ensures no_step { AreSamplesBy registry.now self.old.days site quarter
            → steps.new ≤ steps.old }
    {
        match settle_quarter(
            &mut self.days,
            &self.strata,
            &mut self.tallies,
            registry,
            site,
            quarter,
            steps,
        ) {
            Ok(()) => Ok(()),
            Err(Memory) => {
                *self = Pm10Cells::new(self.alloc);
                Err(Memory)
            }
        }
    }

    /// The year of the days and the strata that are kept, 1990 to 2059. It takes no memory and makes no step.
    pub fn year(&self, registry: &Registry, site: SiteId, year: u16) -> Pm10Year
        requires first { FIRST_YEAR ≤ year }
        requires last { year ≤ LAST_YEAR }
        requires counted { AreCountedBy registry.now self.now site year }
        ensures { result ≡ pm10_year_of_days registry.now self.now.days site year }
    {
        let first = self.quarter(registry, site, quarter_in(year, 0));
        let second = self.quarter(registry, site, quarter_in(year, 1));
        let third = self.quarter(registry, site, quarter_in(year, 2));
        let fourth = self.quarter(registry, site, quarter_in(year, 3));
        Pm10Year::new([first, second, third, fourth])
    }

    fn quarter(&self, registry: &Registry, site: SiteId, quarter: Quarter) -> Pm10Quarter
        requires { IsCountedBy registry.now self.now site quarter }
        ensures { result ≡ pm10_quarter_of_days registry.now self.now.days site quarter }
    {
        // The proof learns that the quarter is of the profile.
        let _ = quarter.number();
        let (_, calendar_days) = quarter_span(quarter);
        let (exceedances, captured) = self.tallies.samples(site, quarter);
        let strata = self.tallies.strata(site, quarter);
        Pm10Quarter::new(
            calendar_days,
            scheduled_days(registry, site, Pollutant::Pm10, quarter),
            captured as u8,
            strata.strata as u8,
            strata.samples as u8,
            strata.exceedances as u8,
            exceedances as u8,
            strata.sixtieths as u32,
        )
    }
}
