//! The observations of a site, pollutant and year, as an export shows them, over a shelf and a registry.
ghost use Rattle.std.specs.Prelude.{◌≡◌, ◌*◌, ◌<◌, ◌≤◌, ◌++◌, IfOk, IsTrue, OnOk, map};
ghost use Rattle.std.specs.List.{list_all};
ghost use Rattle.aq_base.specs.declared.day.TheConstants.{FIRST_YEAR, LAST_YEAR};
ghost use Rattle.aq_rules.specs.Office.Office.{fits_monitors};
ghost use Rattle.aq_rules.specs.Shown.Export as exports;
ghost use Rattle.aq_book.specs.Questions.{shown_at};
ghost use Rattle.aq_series.specs.OfficeView.{office_of};
ghost use Rattle.aq_shelf.specs.Standing.{observations_in};

use aq_base::{
    Day, Hour, Items, Memory, MonitorId, ObsKey, Observation, Pollutant, Shown, SiteId, Steps,
};
use aq_cal::year_span;
use aq_registry::Registry;
use aq_series::is_excluded;
use aq_shelf::Shelf;
use std::alloc::Global;
use std::marker::Brand;
use std::sync::ledger::{Blank, Ledger};

/// Observations, each with whether it is excluded, in order. Contracts see the list of them.
pub type ShownRows = Items<Shown>;

/// The observations of all registered monitors of a site and pollutant in a year, by POC and hour. Each
/// standing observation is that of a registered monitor.
pub(crate) fn shown_of(
    alloc: Global,
    shelf: &Shelf,
    registry: &Registry,
    site: SiteId,
    pollutant: Pollutant,
    year: u16,
) -> Result<ShownRows, Memory>
    requires first { FIRST_YEAR ≤ year }
    requires last { year ≤ LAST_YEAR }
    requires registered { IsTrue
        (list_all (fits_monitors (office_of registry.now shelf.now)) shelf.now) }
    ensures { IfOk result (λ rows. rows
        ≡ exports.shown_of (office_of registry.now shelf.now) site pollutant year) }
{
    counted::<Brand>(alloc, shelf, registry, site, pollutant, year, Blank::new(1))
}

/// The same on a counter of its own, which nobody reads.
fn counted<L: Ledger>(
    alloc: Global,
    shelf: &Shelf,
    registry: &Registry,
    site: SiteId,
    pollutant: Pollutant,
    year: u16,
    blank: Blank,
) -> Result<ShownRows, Memory>
    requires first { FIRST_YEAR ≤ year }
    requires last { year ≤ LAST_YEAR }
    requires registered { IsTrue
        (list_all (fits_monitors (office_of registry.now shelf.now)) shelf.now) }
    requires name { blank.name ≡ L.name }
    requires parts { blank.parts ≡ L.parts }
    requires some { 0 < L.parts }
    ensures { IfOk result (λ rows. rows
        ≡ exports.shown_of (office_of registry.now shelf.now) site pollutant year) }
{
    let mut steps = Steps::<L>::new(blank);
    of_monitors(alloc, shelf, registry, site, pollutant, year, &mut steps)
}

/// The same, monitor after monitor.
fn of_monitors<L: Ledger>(
    alloc: Global,
    shelf: &Shelf,
    registry: &Registry,
    site: SiteId,
    pollutant: Pollutant,
    year: u16,
    steps: &mut Steps<L>,
) -> Result<ShownRows, Memory>
    requires first { FIRST_YEAR ≤ year }
    requires last { year ≤ LAST_YEAR }
    requires registered { IsTrue
        (list_all (fits_monitors (office_of registry.now shelf.now)) shelf.now) }
    ensures { IfOk result (λ rows. rows
        ≡ exports.shown_of (office_of registry.now shelf.now) site pollutant year) }
{
    // The proof learns that the observations are in order.
    let _ = shelf.count();
    let (first, days) = year_span(year);
    let mut rows = ShownRows::new(alloc);
    let mut after = 0;
    while let Some(poc) = registry.next_poc(site, pollutant, after) {
        let monitor = MonitorId {
            site,
            pollutant,
            poc,
        };
        add_days(shelf, registry, &monitor, first, days, &mut rows, steps)?;
        after = poc;
    }
    Ok(rows)
}

/// Adds the observations of a monitor in so many days from the first one on.
fn add_days<L: Ledger>(
    shelf: &Shelf,
    registry: &Registry,
    monitor: &MonitorId,
    first: Day,
    days: u16,
    rows: &mut ShownRows,
    steps: &mut Steps<L>,
) -> Result<(), Memory>
    requires { days ≤ 366 }
    ensures { OnOk result (rows.new ≡ rows.old
        ++ map (shown_at registry.now monitor.now)
        (observations_in monitor.now (24 * first) (24 * days) shelf.now)) }
{
    let start = Hour::new(24 * u32::from(first.number()));
    let mut span = shelf.span(*monitor, start, 24 * u32::from(days), steps);
    while let Some(item) = span.next_standing() {
        rows.push(shown(registry, monitor, item.0, &item.1))?;
    }
    Ok(())
}

/// An observation of a monitor, as an export shows it.
fn shown(registry: &Registry, monitor: &MonitorId, hour: Hour, content: &Observation) -> Shown
    ensures { result ≡ shown_at registry.now monitor.now (hour, content.now) }
{
    Shown {
        key: ObsKey {
            monitor: *monitor,
            hour,
        },
        content: *content,
        excluded: is_excluded(registry, monitor, hour, &content.quals),
    }
}
