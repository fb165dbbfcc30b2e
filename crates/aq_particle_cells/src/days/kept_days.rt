//! What is kept of the days of sites.
ghost use Rattle.std.specs.Prelude.{◌≡◌, ◌&&◌, ◌==◌, ℕ, if◌then◌else◌, option_and_then, OnOk, OnErr};
ghost use Rattle.aq_base.specs.Site.{Site};
ghost use Rattle.aq_rules.specs.Office.Monitors.{is_same_site};
ghost use Rattle.aq_rules.specs.Particles.ParticleDay.{unless_excluded};
ghost use Rattle.aq_particle_cells.specs.Days.KeptDays.{cell_at, day_at, no_day, sample_at};

use crate::days::site_time::SiteTime;
use aq_base::{Day, Memory, SiteId};
use aq_series::Cell;
use std::alloc::Global;
use std::collections::BTreeMap;

/// What is kept of a day of a site: its value in tenths of a µg/m3, and the sample that it gives its quarter
/// if it is scheduled.
#[derive(Clone, Copy, Debug, PartialEq, Eq)]
pub struct KeptDay {
    pub cell: Option<Cell>,
    pub sample: Option<Cell>,
}

/// A value, if it is not excluded.
pub fn net(cell: &Option<Cell>) -> Option<i32>
    ensures { result ≡ option_and_then unless_excluded cell.now }
{
    match cell {
        Some(cell) if !cell.excluded => Some(cell.value),
        _ => None,
    }
}

/// What is kept of the days of sites. Nothing is kept of a day that was never changed.
#[derive(Drop)]
pub struct KeptDays {
    days: BTreeMap<SiteTime, KeptDay>,
}

impl KeptDays {
    /// Nothing is kept. It takes no memory.
    pub fn new(alloc: Global) -> KeptDays
        ensures { (site : Site) (day : ℕ) → day_at result.days.entries site day ≡ no_day }
    {
        KeptDays {
            days: BTreeMap::new(alloc),
        }
    }

    /// What is kept of a day.
    pub fn day(&self, site: SiteId, day: Day) -> KeptDay
        ensures { result ≡ day_at self.now.days.entries site day }
    {
        match self.days.get(&SiteTime::new(site, day.number())) {
            Some(kept) => *kept,
            None => KeptDay {
                cell: None,
                sample: None,
            },
        }
    }

    /// The value of a day.
    #[tactic(auto, unfolding(crate::specs::Days::KeptDays::cell_at))]
    pub fn cell(&self, site: SiteId, day: Day) -> Option<Cell>
        ensures { result ≡ cell_at self.now.days.entries site day }
    {
        self.day(site, day).cell
    }

    /// The sample of a day.
    #[tactic(auto, unfolding(crate::specs::Days::KeptDays::sample_at))]
    pub fn sample(&self, site: SiteId, day: Day) -> Option<Cell>
        ensures { result ≡ sample_at self.now.days.entries site day }
    {
        self.day(site, day).sample
    }

    /// Keeps something else of a day. After want of memory all is as before.
    pub fn put(&mut self, site: SiteId, day: Day, kept: &KeptDay) -> Result<(), Memory>
        ensures ok { OnOk result ((other : Site) (number : ℕ)
            → day_at self.new.days.entries other number
            ≡ (if is_same_site site other && (day == number) then kept.now
            else day_at self.old.days.entries other number)) }
        ensures err { OnErr result (self.new.days.entries ≡ self.old.days.entries) }
    {
        // The prover learns where the type of a value stands.
        let cell: Option<Cell> = kept.cell;
        let sample: Option<Cell> = kept.sample;
        let kept = KeptDay { cell, sample };
        match self.days.insert(SiteTime::new(site, day.number()), kept) {
            Ok(_) => Ok(()),
            Err(_) => Err(Memory),
        }
    }
}
