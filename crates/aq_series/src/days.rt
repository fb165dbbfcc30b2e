//! The PM2.5 and PM10 value of a monitor and of a site for a day (40 CFR Part 50, Appendix N, 3.0, and
//! Appendix K, 1.0 and 2.1).
ghost use Rattle.std.specs.Prelude.{◌≡◌, ◌+◌, ◌≤◌, None, sum_by, IfSome};
ghost use Rattle.std.specs.Option.{option_and_then, option_map_or, option_or};
ghost use Rattle.aq_base.specs.declared.day.TheConstants.{LAST_HOUR};
ghost use Rattle.aq_base.specs.declared.monitor.Pollutant.TheVariants.{Pm25, Pm10};
ghost use Rattle.aq_rules.specs.Office.Designation.{primary_on};
ghost use Rattle.aq_rules.specs.Office.Office.{IsOffice};
ghost use Rattle.aq_rules.specs.Particles.ParticleDay as particle_day;
ghost use Rattle.aq_registry.specs.Registry.{office_with};
ghost use Rattle.aq_series.specs.OfficeView.{office_of};
ghost use Rattle.aq_series.specs.DayCells.{cell_at, cells_in, cells_on, hours_of, mean_of, monitor_at, monitor_steps, pocs_of, site_steps, steps_beside, IsOfParticles, IsParticle, IsParticulate, IsTallyOf};

use crate::day_tally::DayTally;
use crate::exclusion::is_excluded;
use crate::hours::{Cell, is_eligible};
use aq_base::{Day, Duration, Hour, MonitorId, ObsKey, Pollutant, SiteId, Steps};
use aq_registry::Registry;
use aq_shelf::Shelf;
use std::sync::ledger::Ledger;

/// The value of a PM2.5 or PM10 monitor for a day, in tenths of a µg/m3 (40 CFR Part 50, Appendix N, 3.0,
/// and Appendix K, 1.0 and 2.1). A monitor of days has its sample. One of hours has the truncated mean of
/// 18 hours or more, and for PM2.5 the sum of fewer over 24 if that is 35.5 µg/m3 or more. The day is
/// excluded if one of these samples is. A monitor whose values do not count has none. The call makes a
/// step for each of the day's 24 hours, or one for a sample of a day.
pub fn monitor_day<L: Ledger>(
    shelf: &Shelf,
    registry: &Registry,
    monitor: MonitorId,
    day: Day,
    steps: &mut Steps<L>,
) -> Option<Cell>
    requires particles { IsParticulate monitor.pollutant }
    ensures value { result ≡ particle_day.monitor_day (office_of registry.now shelf.now) monitor day }
    ensures range { IfSome result (λ cell. IsParticle cell.value) }
    ensures steps { steps.new ≤ steps.old + monitor_steps registry.now monitor }
{
    // The proof learns that the records are those of a valid office.
    let _ = registry.next_poc(monitor.site, monitor.pollutant, monitor.poc);
    measured_day(shelf, registry, &monitor, day, steps)
}

/// The value of a monitor for a day, by one search for the monitor.
fn measured_day<L: Ledger>(
    shelf: &Shelf,
    registry: &Registry,
    monitor: &MonitorId,
    day: Day,
    steps: &mut Steps<L>,
) -> Option<Cell>
    requires particles { IsParticulate monitor.now.pollutant }
    requires valid { IsOffice (office_with registry.now) }
    ensures value { result ≡ particle_day.monitor_day (office_of registry.now shelf.now) monitor.now day }
    ensures range { IfSome result (λ cell. IsParticle cell.value) }
    ensures steps { steps.new ≤ steps.old + monitor_steps registry.now monitor.now }
{
    // The proof learns that the observations are in order.
    let _ = shelf.count();
    let (duration, eligible) = registry.monitor(*monitor)?;
    if !eligible {
        return None;
    }
    match duration {
        Duration::Hour => { hours_of(shelf, registry, monitor, day, steps).day(monitor.pollutant) }
        Duration::Day => {
            cell_at(
                shelf,
                registry,
                monitor,
                24 * u32::from(day.number()),
                steps,
            )
        }
    }
}

/// The PM2.5 or PM10 value of a site for a day, in tenths of a µg/m3. For PM2.5 it is the primary
/// monitor's if that has one, else the mean of what the other eligible monitors have, truncated to
/// 0.1 µg/m3, and excluded if one of them is (40 CFR Part 50, Appendix N, 3.0; the truncation is this
/// project's own). For PM10 the primary alone counts, and if none is designated the eligible monitor
/// with the lowest POC (own). The call makes the steps of each of the site's monitors at most once.
pub fn site_day<L: Ledger>(
    shelf: &Shelf,
    registry: &Registry,
    site: SiteId,
    pollutant: Pollutant,
    day: Day,
    steps: &mut Steps<L>,
) -> Option<Cell>
    requires particles { IsParticulate pollutant }
    ensures value { result ≡ particle_day.site_day (office_of registry.now shelf.now) site pollutant day }
    ensures range { IfSome result (λ cell. IsParticle cell.value) }
    ensures steps { steps.new ≤ steps.old + site_steps registry.now site pollutant }
    ensures most_steps { steps.new ≤ steps.old + 192 }
{
    // The proof learns that the records are those of a valid office.
    let _ = registry.next_poc(site, pollutant, 0);
    match pollutant {
        Pollutant::Ozone => None,
        Pollutant::Pm25 => pm25_day(shelf, registry, &site, day, steps),
        Pollutant::Pm10 => pm10_day(shelf, registry, &site, day, steps),
    }
}

/// The PM2.5 value of a site for a day.
fn pm25_day<L: Ledger>(
    shelf: &Shelf,
    registry: &Registry,
    site: &SiteId,
    day: Day,
    steps: &mut Steps<L>,
) -> Option<Cell>
    requires { IsOffice (office_with registry.now) }
    ensures value { result ≡ particle_day.site_day (office_of registry.now shelf.now) site.now Pm25 day }
    ensures range { IfSome result (λ cell. IsParticle cell.value) }
    ensures steps { steps.new ≤ steps.old + site_steps registry.now site.now Pm25 }
{
    let primary = registry.primary_on(*site, Pollutant::Pm25, day);
    let cell = day_of_poc(shelf, registry, site, Pollutant::Pm25, primary, day, steps);
    if cell.is_some() {
        return cell;
    }
    mean_of_others(shelf, registry, site, Pollutant::Pm25, primary, day, steps)
}

/// The PM10 value of a site for a day: that of the one monitor that counts.
fn pm10_day<L: Ledger>(
    shelf: &Shelf,
    registry: &Registry,
    site: &SiteId,
    day: Day,
    steps: &mut Steps<L>,
) -> Option<Cell>
    requires { IsOffice (office_with registry.now) }
    ensures value { result ≡ particle_day.site_day (office_of registry.now shelf.now) site.now Pm10 day }
    ensures range { IfSome result (λ cell. IsParticle cell.value) }
    ensures steps { steps.new ≤ steps.old + site_steps registry.now site.now Pm10 }
{
    let poc = counting_poc(registry, site, day);
    day_of_poc(shelf, registry, site, Pollutant::Pm10, poc, day, steps)
}

/// The POC of the PM10 monitor that counts on a day.
fn counting_poc(registry: &Registry, site: &SiteId, day: Day) -> Option<u8>
    ensures { result ≡ option_or (primary_on registry.now site.now Pm10 day) (particle_day.lowest_poc (particle_day.eligible_pocs registry.now site.now Pm10)) }
{
    match registry.primary_on(*site, Pollutant::Pm10, day) {
        Some(poc) => Some(poc),
        None => lowest_eligible(registry, site, Pollutant::Pm10),
    }
}

/// What the monitor of a POC has for a day, if there is a POC.
fn day_of_poc<L: Ledger>(
    shelf: &Shelf,
    registry: &Registry,
    site: &SiteId,
    pollutant: Pollutant,
    poc: Option<u8>,
    day: Day,
    steps: &mut Steps<L>,
) -> Option<Cell>
    requires particles { IsParticulate pollutant }
    requires valid { IsOffice (office_with registry.now) }
    ensures value { result ≡ option_and_then (λ poc. particle_day.monitor_day (office_of registry.now shelf.now) (monitor_at site.now pollutant poc) day) poc }
    ensures range { IfSome result (λ cell. IsParticle cell.value) }
    ensures steps { steps.new ≤ steps.old + option_map_or (λ poc. monitor_steps registry.now (monitor_at site.now pollutant poc)) poc 0 }
{
    let monitor = &monitor_at(site, pollutant, poc?);
    measured_day(shelf, registry, monitor, day, steps)
}

/// The mean of what the monitors of a site beside the primary have for a day, if one of them has a value;
/// the primary has none.
fn mean_of_others<L: Ledger>(
    shelf: &Shelf,
    registry: &Registry,
    site: &SiteId,
    pollutant: Pollutant,
    primary: Option<u8>,
    day: Day,
    steps: &mut Steps<L>,
) -> Option<Cell>
    requires particles { IsParticulate pollutant }
    requires without { IfSome primary (λ poc. particle_day.monitor_day (office_of registry.now shelf.now) (monitor_at site.now pollutant poc) day ≡ None) }
    ensures value { result ≡ mean_of (cells_on (office_of registry.now shelf.now) site.now pollutant day (pocs_of registry.now site.now pollutant)) }
    ensures range { IfSome result (λ cell. IsParticle cell.value) }
    ensures steps { steps.new ≤ steps.old + sum_by (steps_beside registry.now site.now pollutant primary) (pocs_of registry.now site.now pollutant) }
{
    let mut tally = DayTally::new();
    let mut after = 0;
    while let Some(poc) = registry.next_poc(*site, pollutant, after) {
        if primary != Some(poc) {
            let monitor = &monitor_at(site, pollutant, poc);
            tally = tally.with(measured_day(shelf, registry, monitor, day, steps));
        }
        after = poc;
    }
    tally.mean()
}

/// The lowest POC of the monitors of a site and pollutant whose values count, if there is one.
fn lowest_eligible(registry: &Registry, site: &SiteId, pollutant: Pollutant) -> Option<u8>
    ensures { result ≡ particle_day.lowest_poc (particle_day.eligible_pocs registry.now site.now pollutant) }
{
    let mut after = 0;
    while let Some(poc) = registry.next_poc(*site, pollutant, after) {
        if is_eligible(registry, &monitor_at(site, pollutant, poc)) {
            return Some(poc);
        }
        after = poc;
    }
    None
}

/// A monitor of a site.
pub(crate) fn monitor_at(site: &SiteId, pollutant: Pollutant, poc: u8) -> MonitorId
    ensures { result ≡ monitor_at site.now pollutant poc }
{
    MonitorId {
        site: *site,
        pollutant,
        poc,
    }
}

/// The values that a monitor has for the hours of a day, in a step for each hour.
fn hours_of<L: Ledger>(
    shelf: &Shelf,
    registry: &Registry,
    monitor: &MonitorId,
    day: Day,
    steps: &mut Steps<L>,
) -> DayTally
    requires particles { IsParticulate monitor.now.pollutant }
    ensures tally { IsTallyOf (cells_in registry.now shelf.now monitor.now (hours_of day)) result }
    ensures values { IsOfParticles result }
    ensures steps { steps.new ≡ steps.old + 24 }
{
    let first = 24 * u32::from(day.number());
    let mut tally = DayTally::new();
    for count in 0..24 {
        tally = tally.with(cell_at(shelf, registry, monitor, first + count, steps));
    }
    tally
}

/// The value that a monitor has for the sample that starts at an hour, if there is one, in one step.
pub(crate) fn cell_at<L: Ledger>(
    shelf: &Shelf,
    registry: &Registry,
    monitor: &MonitorId,
    hour: u32,
    steps: &mut Steps<L>,
) -> Option<Cell>
    requires particles { IsParticulate monitor.now.pollutant }
    requires hour { hour ≤ LAST_HOUR }
    ensures value { result ≡ cell_at registry.now shelf.now monitor.now hour }
    ensures range { IfSome result (λ cell. IsParticle cell.value) }
    ensures steps { steps.new ≡ steps.old + 1 }
{
    let key = &ObsKey {
        monitor: *monitor,
        hour: Hour::new(hour),
    };
    let content = shelf.at(*key, steps)?;
    let value = content.value?;
    Some(Cell {
        value,
        excluded: is_excluded(registry, &key.monitor, key.hour, &content.quals),
    })
}
