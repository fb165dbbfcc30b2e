//! The last day with an observation: of the office, and of a site and pollutant.
ghost use Rattle.std.specs.Prelude.{◌≡◌, List, [], map};
ghost use Rattle.std.specs.List.{cons_option};
ghost use Rattle.aq_base.specs.declared.office.OfficeRecord.{OfficeRecord};
ghost use Rattle.aq_listed.specs.LastDay.{first_hour, last_day, last_day_at, later, latest};
ghost use Rattle.aq_listed.specs.Registrations.{registered_monitor};
ghost use Rattle.aq_registry.specs.Registry.{office_with};
ghost use Rattle.aq_rules.specs.Listed.Monitors as listed;
ghost use Rattle.aq_rules.specs.Office.Office.{IsOffice};
ghost use Rattle.aq_series.specs.OfficeView.{office_of};

use crate::standing_days::observed;
use aq_base::{Day, Hour, LAST_HOUR, MonitorId, Pollutant, SiteId, Steps};
use aq_registry::Registry;
use aq_shelf::Shelf;
use std::sync::ledger::Ledger;

/// The last day at which an observation of a registered monitor stands, with a value or a null code (own).
/// There is none if no observation stands. It asks for each site and each of its monitors once, and takes
/// no memory.
pub fn last_day<L: Ledger>(shelf: &Shelf, registry: &Registry, steps: &mut Steps<L>) -> Option<Day>
    ensures { result ≡ last_day (office_of registry.now shelf.now) }
{
    let mut day = None;
    let mut after = None;
    while let Some(site) = registry.next_site(after) {
        day = later(day, last_of_site(shelf, registry, site, steps));
        after = Some(site);
    }
    day
}

/// The last day of a site's monitors.
fn last_of_site<L: Ledger>(
    shelf: &Shelf,
    registry: &Registry,
    site: SiteId,
    steps: &mut Steps<L>,
) -> Option<Day>
    ensures day { result ≡ latest (listed.listed_monitors (office_of registry.now shelf.now) site) }
    ensures valid { IsOffice (office_with registry.now) }
{
    let ozone = last_day_at(shelf, registry, site, Pollutant::Ozone, steps);
    let pm25 = last_day_at(shelf, registry, site, Pollutant::Pm25, steps);
    let pm10 = last_day_at(shelf, registry, site, Pollutant::Pm10, steps);
    later(ozone, later(pm25, pm10))
}

/// The last day at which an observation of a site and pollutant stands, of a registered monitor, with a
/// value or a null code (own). There is none if no such observation stands. It asks for each monitor once,
/// and takes no memory.
pub fn last_day_at<L: Ledger>(
    shelf: &Shelf,
    registry: &Registry,
    site: SiteId,
    pollutant: Pollutant,
    steps: &mut Steps<L>,
) -> Option<Day>
    ensures day { result ≡ last_day_at (office_of registry.now shelf.now) site pollutant }
    ensures valid { IsOffice (office_with registry.now) }
{
    let mut day = None;
    let mut after = 0;
    while let Some(poc) = registry.next_poc(site, pollutant, after) {
        let id = MonitorId {
            site,
            pollutant,
            poc,
        };
        day = later_of_monitor(shelf, registry, &id, day, steps);
        after = poc;
    }
    day
}

/// The later of a day and of the last day of a monitor, if it is registered.
fn later_of_monitor<L: Ledger>(
    shelf: &Shelf,
    registry: &Registry,
    id: &MonitorId,
    day: Option<Day>,
    steps: &mut Steps<L>,
) -> Option<Day>
    ensures { result ≡ later day (latest (map (listed.listed_monitor (office_of registry.now shelf.now)) (cons_option (registered_monitor registry.now id.now) []))) }
{
    match registry.monitor(*id) {
        Some(_) => {
            let last = last_since(shelf, id, &day, steps);
            later(day, last)
        }
        None => day,
    }
}

/// The last day of a monitor, as far as it is not before a day: only what stands from that day on is looked at.
fn last_since<L: Ledger>(
    shelf: &Shelf,
    id: &MonitorId,
    day: &Option<Day>,
    steps: &mut Steps<L>,
) -> Option<Day>
    ensures { (records : List OfficeRecord) (registered : listed.RegisteredMonitor) → registered.id ≡ id.now
        → later day.now result ≡ later day.now (listed.listed_monitor (office_of records shelf.now) registered).last }
{
    let first = first_hour(day);
    let number = first.number();
    observed(shelf.span(*id, first, LAST_HOUR + 1 - number, steps)).last
}

/// The first hour of a day, and that of all days if there is none.
fn first_hour(day: &Option<Day>) -> Hour
    ensures { result ≡ first_hour day.now }
{
    match day {
        Some(day) => Hour::new(24 * u32::from(day.number())),
        None => Hour::new(0),
    }
}

/// The later of two days, if there are any.
fn later(one: Option<Day>, other: Option<Day>) -> Option<Day>
    ensures { result ≡ later one other }
{
    match (one, other) {
        (Some(one), Some(other)) => Some(one.max(other)),
        (Some(one), None) => Some(one),
        (None, other) => other,
    }
}
