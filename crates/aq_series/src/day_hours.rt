//! The ozone values of a site for the hours of some days, with one span for each monitor.
ghost use Rattle.std.specs.Prelude.{◌≡◌, ℕ, ◌+◌, ◌*◌, ◌/◌, ◌<◌, ◌≤◌, List, None, IfSome, get_or, length};
ghost use Rattle.aq_base.specs.declared.monitor.Pollutant.TheVariants.{Ozone};
ghost use Rattle.aq_rules.specs.Office.Office.{IsOffice};
ghost use Rattle.aq_rules.specs.Ozone.SiteHour.{mean_of, Sample};
ghost use Rattle.aq_registry.specs.Registry.{office_with};
ghost use Rattle.aq_series.specs.DayStates as states;
ghost use Rattle.aq_series.specs.DayStates.{Adds, HasRoom, IsUnread, stood_at, standing_at};
ghost use Rattle.aq_series.specs.OfficeView.{office_of};
ghost use Rattle.aq_series.specs.Samples.{cell_at, AreOzone, IsOfEight, IsOzone, IsTally};
ghost use Rattle.aq_series.specs.declared.day_hours.HourState.{HourState};

use crate::hours::{Cell, cell_of, is_eligible};
use crate::tally::Tally;
use aq_base::{Day, Hour, LAST_DAY, MonitorId, ObsKey, Pollutant, SiteId, Steps};
use aq_registry::Registry;
use aq_shelf::Shelf;
use std::sync::ledger::Ledger;

/// So many days are read together.
pub const SPAN_DAYS: usize = 8;

/// They have so many hours.
pub const SPAN_HOURS: usize = 24 * SPAN_DAYS;

/// What the monitors of a site have for an hour, as far as they were read: the value of its primary
/// alone once it has one, else those of the others.
#[derive(Clone, Copy)]
struct HourState {
    values: Tally,
    primary: Option<u8>,
    is_settled: bool,
}

impl HourState {
    ghost use Rattle.std.specs.Prelude.{◌≡◌, false, [], ◌<◌};
    ghost use Rattle.aq_series.specs.DayStates.{AddsValue, HasRoom};
    ghost use Rattle.aq_series.specs.Samples.{IsOfEight, IsOzone, IsTally};

    /// Adds the value of the monitor with this POC.
    fn add(&mut self, poc: u8, cell: &Cell)
        requires room { HasRoom self.old }
        requires value { IsOzone cell.now.value }
        ensures { AddsValue poc cell.now self.old self.new }
    {
        if self.is_settled {
            return;
        }
        if self.primary == Some(poc) {
            self.is_settled = true;
            self.values = Tally::new().with(cell);
        } else {
            self.values = self.values.with(cell);
        }
    }
}

/// The ozone values of a site for the hours of eight calendar days from the given one on, each as
/// `site_hour` has it, and none past the profile. The call reads one span of each eligible monitor: a
/// step, and one more for each of the hours that it has, at most 1,544 for eight monitors.
pub fn site_hours<L: Ledger>(
    shelf: &Shelf,
    registry: &Registry,
    site: SiteId,
    day: Day,
    steps: &mut Steps<L>,
) -> [Option<Cell>; SPAN_HOURS]
    ensures hours { result ≡ states.site_hours (office_of registry.now shelf.now) site day }
    ensures range { AreOzone result }
    ensures steps { steps.new ≤ steps.old + 1544 }
{
    // The proof learns that the observations are in order.
    let _ = shelf.count();
    let mut hours = unread(&primaries(registry, site, day));
    let mut after = 0;
    while let Some(poc) = registry.next_poc(site, Pollutant::Ozone, after) {
        let monitor = MonitorId {
            site,
            pollutant: Pollutant::Ozone,
            poc,
        };
        add_monitor(shelf, registry, &monitor, day, &mut hours, steps);
        after = poc;
    }
    cells(&hours)
}

/// The primary of each day.
fn primaries(registry: &Registry, site: SiteId, day: Day) -> [Option<u8>; SPAN_DAYS]
    ensures { (k : ℕ) → k < 8 → get_or result k None ≡ states.primary_in registry.now site (day + k) }
{
    let mut primaries = [None; SPAN_DAYS];
    for i in 0..SPAN_DAYS {
        primaries[i] = primary_in(registry, site, day.number() + i as u16);
    }
    primaries
}

/// The primary of a day, by the day's number: none past the profile.
fn primary_in(registry: &Registry, site: SiteId, day: u16) -> Option<u8>
    ensures { result ≡ states.primary_in registry.now site day }
{
    if day <= LAST_DAY {
        registry.primary_on(site, Pollutant::Ozone, Day::new(day))
    } else {
        None
    }
}

/// The states of the hours before anything is read.
fn unread(primaries: &[Option<u8>; SPAN_DAYS]) -> [HourState; SPAN_HOURS]
    ensures many { length result ≡ 192 }
    ensures states { (k : ℕ) (d : HourState) → k < 192 → IsUnread (get_or primaries.now (k / 24) None) (get_or result k d) }
{
    let none = HourState {
        values: Tally::new(),
        primary: None,
        is_settled: false,
    };
    let mut hours = [none; SPAN_HOURS];
    for i in 0..SPAN_HOURS {
        hours[i].primary = primaries[i / 24];
    }
    hours
}

/// Adds what a monitor has for each hour, if its values count.
fn add_monitor<L: Ledger>(
    shelf: &Shelf,
    registry: &Registry,
    monitor: &MonitorId,
    day: Day,
    hours: &mut [HourState; SPAN_HOURS],
    steps: &mut Steps<L>,
)
    requires ozone { monitor.now.pollutant ≡ Ozone }
    requires valid { IsOffice (office_with registry.now) }
    requires room { (k : ℕ) (d : HourState) → k < 192 → HasRoom (get_or hours.old k d) }
    ensures hours { (k : ℕ) (d : HourState) → k < 192 → Adds monitor.now.poc (cell_at registry.now shelf.now (standing_at monitor.now day k)) (get_or hours.old k d) (get_or hours.new k d) }
    ensures steps { steps.new ≤ steps.old + 193 }
{
    if is_eligible(registry, monitor) {
        add_span(shelf, registry, monitor, day, hours, steps);
    }
}

/// Adds the values of a monitor's hours.
fn add_span<L: Ledger>(
    shelf: &Shelf,
    registry: &Registry,
    monitor: &MonitorId,
    day: Day,
    hours: &mut [HourState; SPAN_HOURS],
    steps: &mut Steps<L>,
)
    requires ozone { monitor.now.pollutant ≡ Ozone }
    requires room { (k : ℕ) (d : HourState) → k < 192 → HasRoom (get_or hours.old k d) }
    ensures hours { (k : ℕ) (d : HourState) → k < 192 → Adds monitor.now.poc (stood_at registry.now shelf.now (standing_at monitor.now day k)) (get_or hours.old k d) (get_or hours.new k d) }
    ensures steps { steps.new ≤ steps.old + 193 }
{
    let first = 24 * u32::from(day.number());
    for (hour, content) in shelf.span(*monitor, Hour::new(first), SPAN_HOURS as u32, steps) {
        let key = ObsKey {
            monitor: *monitor,
            hour,
        };
        if let Some(cell) = cell_of(registry, &key, &content) {
            let place = (hour.number() - first) as usize;
            hours[place].add(monitor.poc, &cell);
        }
    }
}

/// The site's value for each hour.
fn cells(hours: &[HourState; SPAN_HOURS]) -> [Option<Cell>; SPAN_HOURS]
    requires { (k : ℕ) (d : HourState) → k < 192 → IsOfEight (get_or hours.now k d).values }
    ensures many { length result ≡ 192 }
    ensures values { (k : ℕ) (d : HourState) → k < 192 → (before : List Sample) → IsTally before (get_or hours.now k d).values → get_or result k None ≡ mean_of before }
    ensures range { (k : ℕ) → IfSome (get_or result k None) (λ cell. IsOzone cell.value) }
{
    let mut cells = [None; SPAN_HOURS];
    for i in 0..SPAN_HOURS {
        cells[i] = hours[i].values.mean();
    }
    cells
}
