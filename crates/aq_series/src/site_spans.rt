//! The PM2.5 values of a site for the days of a quarter, with one span of each monitor's hours.
ghost use Rattle.std.specs.Prelude.{◌≡◌, ℕ, ◌+◌, ◌<◌, ◌≤◌, List, None, IfSome, get_or, length};
ghost use Rattle.aq_base.specs.declared.day.TheConstants.{LAST_DAY};
ghost use Rattle.aq_base.specs.declared.monitor.Pollutant.TheVariants.{Pm25};
ghost use Rattle.aq_rules.specs.Office.Designation.{primary_on};
ghost use Rattle.aq_rules.specs.Office.Office.{IsOffice};
ghost use Rattle.aq_rules.specs.Ozone.SiteHour as sites;
ghost use Rattle.aq_rules.specs.Particles.ParticleDay as particle_day;
ghost use Rattle.aq_registry.specs.Registry.{office_with};
ghost use Rattle.aq_series.specs.DayCells.{mean_of, IsOfParticles, IsParticle, IsParticulate, IsTallyOf};
ghost use Rattle.aq_series.specs.DaySums.{AddsDay, HasDayRoom, IsNew};
ghost use Rattle.aq_series.specs.OfficeView.{office_of};
ghost use Rattle.aq_series.specs.declared.site_spans.DayState.{DayState};
ghost use Rattle.std.specs.Option.{option_or};

use crate::day_spans::{MOST_DAYS, monitor_days};
use crate::day_tally::DayTally;
use crate::days::monitor_at;
use crate::hours::Cell;
use aq_base::{Day, MonitorId, Pollutant, SiteId, Steps};
use aq_registry::Registry;
use aq_shelf::Shelf;
use std::sync::ledger::Ledger;

/// What the monitors of a site have for a day, as far as they were read: the primary's value, and those
/// of the others.
#[derive(Clone, Copy)]
struct DayState {
    primary: Option<u8>,
    own: Option<Cell>,
    others: DayTally,
}

impl DayState {
    ghost use Rattle.std.specs.Prelude.{◌≡◌, List, IfSome};
    ghost use Rattle.std.specs.Option.{option_or};
    ghost use Rattle.aq_rules.specs.Ozone.SiteHour as sites;
    ghost use Rattle.aq_series.specs.DayCells.{mean_of, IsOfParticles, IsParticle, IsTallyOf};
    ghost use Rattle.aq_series.specs.DaySums.{AddsDay, HasDayRoom};

    /// Adds what the monitor with this POC has.
    fn add(&mut self, poc: u8, cell: Option<Cell>)
        requires room { HasDayRoom self.old }
        requires value { IfSome cell (λ cell. IsParticle cell.value) }
        ensures { AddsDay poc cell self.old self.new }
    {
        if self.primary == Some(poc) {
            if cell.is_some() {
                self.own = cell;
            }
        } else {
            self.others = self.others.with(cell);
        }
    }

    /// The primary's value, else the mean of the others'.
    fn cell(&self) -> Option<Cell>
        requires values { IsOfParticles self.now.others }
        requires own { IfSome self.now.own (λ cell. IsParticle cell.value) }
        ensures value { (before : List sites.Cell) → IsTallyOf before self.now.others → result ≡ option_or self.now.own (mean_of before) }
        ensures range { IfSome result (λ cell. IsParticle cell.value) }
    {
        match self.own {
            Some(cell) => Some(cell),
            None => self.others.mean(),
        }
    }
}

/// The PM2.5 values of a site for so many days from the first one on, each as `site_day` has it. The call
/// reads one span of each eligible monitor of hours, and each sample of the others.
pub fn site_days<L: Ledger>(
    shelf: &Shelf,
    registry: &Registry,
    site: SiteId,
    first: Day,
    count: u8,
    steps: &mut Steps<L>,
) -> [Option<Cell>; MOST_DAYS]
    requires few { count ≤ 92 }
    requires in_profile { first + count ≤ LAST_DAY + 1 }
    ensures many { length result ≡ 92 }
    ensures days { (k : ℕ) → k < count → get_or result k None ≡ particle_day.site_day (office_of registry.now shelf.now) site Pm25 (first + k) }
    ensures range { (k : ℕ) → IfSome (get_or result k None) (λ cell. IsParticle cell.value) }
{
    let site = &site;
    // The proof learns that the records are those of a valid office.
    let _ = registry.next_poc(*site, Pollutant::Pm25, 0);
    let mut states = new_states(registry, site, first, count);
    let mut after = 0;
    while let Some(poc) = registry.next_poc(*site, Pollutant::Pm25, after) {
        let monitor = &monitor_at(site, Pollutant::Pm25, poc);
        add_monitor(shelf, registry, monitor, first, count, &mut states, steps);
        after = poc;
    }
    cells(&states)
}

/// The states of the days before anything is read.
fn new_states(registry: &Registry, site: &SiteId, first: Day, count: u8) -> [DayState; MOST_DAYS]
    requires few { count ≤ 92 }
    requires in_profile { first + count ≤ LAST_DAY + 1 }
    ensures many { length result ≡ 92 }
    ensures primaries { (k : ℕ) (d : DayState) → k < count → (get_or result k d).primary ≡ primary_on registry.now site.now Pm25 (first + k) }
    ensures states { (k : ℕ) (d : DayState) → k < 92 → IsNew (get_or result k d) }
{
    let none = DayState {
        primary: None,
        own: None,
        others: DayTally::new(),
    };
    let mut states = [none; MOST_DAYS];
    for i in 0..count {
        let day = Day::new(first.number() + u16::from(i));
        states[usize::from(i)].primary = registry.primary_on(*site, Pollutant::Pm25, day);
    }
    states
}

/// Adds what a monitor has for each day, if its values count.
fn add_monitor<L: Ledger>(
    shelf: &Shelf,
    registry: &Registry,
    monitor: &MonitorId,
    first: Day,
    count: u8,
    states: &mut [DayState; MOST_DAYS],
    steps: &mut Steps<L>,
)
    requires particles { IsParticulate monitor.now.pollutant }
    requires valid { IsOffice (office_with registry.now) }
    requires few { count ≤ 92 }
    requires in_profile { first + count ≤ LAST_DAY + 1 }
    requires room { (k : ℕ) (d : DayState) → k < 92 → HasDayRoom (get_or states.old k d) }
    ensures many { length states.new ≡ 92 }
    ensures days { (k : ℕ) (d : DayState) → k < count → AddsDay monitor.now.poc (particle_day.monitor_day (office_of registry.now shelf.now) monitor.now (first + k)) (get_or states.old k d) (get_or states.new k d) }
    ensures values { (k : ℕ) (d : DayState) → k < 92 → IsOfParticles (get_or states.new k d).others }
    ensures others { (k : ℕ) (d : DayState) → count ≤ k → get_or states.new k d ≡ get_or states.old k d }
{
    // The proof learns that the observations are in order.
    let _ = shelf.count();
    let Some((duration, eligible)) = registry.monitor(*monitor) else {
        return;
    };
    if eligible {
        let cells = monitor_days(shelf, registry, monitor, duration, first, count, steps);
        add_days(&cells, monitor.poc, count, states);
    }
}

/// Adds the values of a monitor.
fn add_days(
    cells: &[Option<Cell>; MOST_DAYS],
    poc: u8,
    count: u8,
    states: &mut [DayState; MOST_DAYS],
)
    requires few { count ≤ 92 }
    requires room { (k : ℕ) (d : DayState) → k < 92 → HasDayRoom (get_or states.old k d) }
    requires range { (k : ℕ) → IfSome (get_or cells.now k None) (λ cell. IsParticle cell.value) }
    ensures many { length states.new ≡ 92 }
    ensures days { (k : ℕ) (d : DayState) → k < count → AddsDay poc (get_or cells.now k None) (get_or states.old k d) (get_or states.new k d) }
    ensures others { (k : ℕ) (d : DayState) → count ≤ k → get_or states.new k d ≡ get_or states.old k d }
{
    for i in 0..usize::from(count) {
        states[i].add(poc, cells[i]);
    }
}

/// The site's value for each day.
fn cells(states: &[DayState; MOST_DAYS]) -> [Option<Cell>; MOST_DAYS]
    requires values { (k : ℕ) (d : DayState) → k < 92 → IsOfParticles (get_or states.now k d).others }
    requires own { (k : ℕ) (d : DayState) → k < 92 → IfSome (get_or states.now k d).own (λ cell. IsParticle cell.value) }
    ensures many { length result ≡ 92 }
    ensures days { (k : ℕ) (d : DayState) → k < 92 → (before : List sites.Cell) → IsTallyOf before (get_or states.now k d).others → get_or result k None ≡ option_or (get_or states.now k d).own (mean_of before) }
    ensures range { (k : ℕ) → IfSome (get_or result k None) (λ cell. IsParticle cell.value) }
{
    let mut cells = [None; MOST_DAYS];
    for i in 0..MOST_DAYS {
        cells[i] = states[i].cell();
    }
    cells
}
