//! The PM2.5 cells of sites, kept under change.
ghost use Rattle.std.specs.Prelude.{◌≡◌, ◌≤◌, ◌+◌, ◌&&◌, ◌==◌, ℕ, None, if◌then◌else◌, IfSome, OnOk};
ghost use Rattle.aq_base.specs.Site.{Site};
ghost use Rattle.aq_base.specs.declared.day.TheConstants.{FIRST_YEAR, LAST_YEAR};
ghost use Rattle.aq_rules.specs.Kept.Summaries.{summary_of_quarter, KeepsPmQuarter};
ghost use Rattle.aq_rules.specs.Office.Monitors.{is_same_site};
ghost use Rattle.aq_series.specs.DayCells.{IsParticle};
ghost use Rattle.aq_particle_cells.specs.Days.KeptDays.{cell_at, sample_at};
ghost use Rattle.aq_particle_cells.specs.Pm25.Pm25Cells.{is_counted_by, quarter_of_days, sample_from, year_of_days, AreCountedBy, IsCountedBy};
ghost use Rattle.aq_particle_cells.specs.Days.Spans.{is_day_of};

use crate::days::{KeptDays, scheduled_days};
use crate::pm25::days::{change_day, settle_quarter};
use crate::pm25::tallies::Pm25Tallies;
use aq_base::{Day, FIRST_YEAR, LAST_YEAR, Memory, Pollutant, Quarter, SiteId, Steps};
use aq_cal::quarter_span;
use aq_particles::pm25::part_of;
use aq_registry::Registry;
use aq_rules::kept::summaries::pm25_quarters_keep_their_facts;
use aq_series::Cell;
use aq_verdict::{PmQuarter, PmYear};
use std::alloc::Global;
use std::marker::Model;
use std::sync::ledger::Ledger;

/// The PM2.5 cells of sites: the value of each day, the creditable sample that the day gives its quarter (its
/// own if it is scheduled, else one that makes up for it), and what the days give their quarters and years
/// together. A change and a settling take out just what was put in, whatever a registry says by then.
/// Contracts see what is kept of the days (`cell_at`, `sample_at`). After want of memory the value may only
/// be dropped.
#[derive(Drop)]
pub struct Pm25Cells {
    days: KeptDays,
    tallies: Pm25Tallies,
    alloc: Global,
}

impl Model for Pm25Cells {
    ghost use Rattle.aq_particle_cells.specs.Days.KeptDays.{Days};
    ghost use Rattle.aq_particle_cells.specs.Pm25.Pm25Cells.{AreCells};

    ghost Value = { Days };

    ghost view = { λ cells. cells.days.days.entries };

    ghost invariant = { λ cells. AreCells cells.days.days.entries cells.tallies };
}

impl Pm25Cells {
    /// The cells of the empty office. It takes no memory.
    pub fn new(alloc: Global) -> Pm25Cells
        ensures cells { (site : Site) (day : ℕ) → cell_at result site day ≡ None }
        ensures samples { (site : Site) (day : ℕ) → sample_at result site day ≡ None }
    {
        Pm25Cells {
            days: KeptDays::new(alloc),
            tallies: Pm25Tallies::new(alloc),
            alloc,
        }
    }

    /// The value of a day that is kept.
    pub fn cell(&self, site: SiteId, day: Day) -> Option<Cell>
        ensures { result ≡ cell_at self.now site day }
    {
        self.days.cell(site, day)
    }

    /// The day goes from the value `old`, which is kept, to `new`, in its quarter and its year. Its creditable
    /// sample, and that of the missed day for which its own makes up, become those that the registry gives
    /// them. At most 16 steps.
    pub fn change_day<L: Ledger>(
        &mut self,
        registry: &Registry,
        site: SiteId,
        day: Day,
        old: Option<Cell>,
        new: Option<Cell>,
        steps: &mut Steps<L>,
    ) -> Result<(), Memory>
        requires old { cell_at self.old site day ≡ old }
        requires range { IfSome new (λ cell. IsParticle cell.value) }
        ensures cells { OnOk result ((other : Site) (number : ℕ) → cell_at self.new other number
            ≡ (if is_same_site site other && (day == number) then new
            else cell_at self.old other number)) }
        ensures samples { OnOk result ((other : Site) (number : ℕ) → sample_at self.new other number
            ≡ (if is_same_site site other && is_counted_by registry.now site day number
            then sample_from registry.now self.new site number
            else sample_at self.old other number)) }
        ensures steps { steps.new ≤ steps.old + 16 }
    {
        let _ = old; // It is kept, and found there.
        match change_day(
            &mut self.days,
            &mut self.tallies,
            registry,
            site,
            day,
            &new,
            steps,
        ) {
            Ok(()) => Ok(()),
            Err(Memory) => {
                *self = Pm25Cells::new(self.alloc);
                Err(Memory)
            }
        }
    }

    /// The counts of a quarter become those under a registry: each day's creditable sample is the one that its
    /// schedules and make-ups give it. At most 800 steps, and none if each is that already.
    pub fn settle_quarter<L: Ledger>(
        &mut self,
        registry: &Registry,
        site: SiteId,
        quarter: Quarter,
        steps: &mut Steps<L>,
    ) -> Result<(), Memory>
        ensures cells { OnOk result ((other : Site) (number : ℕ) → cell_at self.new other number
            ≡ cell_at self.old other number) }
        ensures samples { OnOk result ((other : Site) (number : ℕ) → sample_at self.new other number
            ≡ (if is_same_site site other && is_day_of quarter number
            then sample_from registry.now self.old site number
            else sample_at self.old other number)) }
        ensures steps { steps.new ≤ steps.old + 800 }
        ensures no_step { IsCountedBy registry.now self.old site quarter → steps.new ≤ steps.old }
    {
        match settle_quarter(
            &mut self.days,
            &mut self.tallies,
            registry,
            site,
            quarter,
            steps,
        ) {
            Ok(()) => Ok(()),
            Err(Memory) => {
                *self = Pm25Cells::new(self.alloc);
                Err(Memory)
            }
        }
    }

    /// The year of the days that are kept, 1990 to 2059. It takes no memory and makes no step.
    pub fn year(&self, registry: &Registry, site: SiteId, year: u16) -> PmYear
        requires first { FIRST_YEAR ≤ year }
        requires last { year ≤ LAST_YEAR }
        requires counted { AreCountedBy registry.now self.now site year }
        ensures { result ≡ year_of_days registry.now self.now site year }
    {
        pm25_quarters_keep_their_facts();
        // The proof learns that the records are those of a valid office.
        let _ = registry.next_poc(site, Pollutant::Pm25, 0);
        let first = self.quarter(registry, site, part_of(year, 0));
        let second = self.quarter(registry, site, part_of(year, 1));
        let third = self.quarter(registry, site, part_of(year, 2));
        let fourth = self.quarter(registry, site, part_of(year, 3));
        let top = self.tallies.greatest(site, year);
        PmYear::new([first, second, third, fourth], top)
    }

    fn quarter(&self, registry: &Registry, site: SiteId, quarter: Quarter) -> PmQuarter
        requires { IsCountedBy registry.now self.now site quarter }
        ensures quarter { result
            ≡ summary_of_quarter (quarter_of_days registry.now self.now site quarter) }
        ensures facts { KeepsPmQuarter result }
    {
        // The proof learns that the records are those of a valid office, and that the quarter is of the profile.
        let _ = registry.next_poc(site, Pollutant::Pm25, 0);
        let _ = quarter.number();
        let _ = quarter_span(quarter);
        let (counted, creditable) = self.tallies.samples(site, quarter);
        let values = self.tallies.values(site, quarter);
        PmQuarter::new(
            scheduled_days(registry, site, Pollutant::Pm25, quarter),
            creditable as u8,
            counted as u8,
            values.number as u8,
            values.sum as i32,
            values.least,
            values.greatest,
        )
    }
}
