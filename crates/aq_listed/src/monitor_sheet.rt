//! The sheet of a site's monitors.
ghost use Rattle.std.specs.Prelude.{◌≡◌, IfOk, map};
ghost use Rattle.aq_rules.specs.Listed.Monitors as listed;
ghost use Rattle.aq_series.specs.OfficeView.{office_of};

use crate::monitor_list::{ListedMonitor, listed_monitors};
use aq_base::{Day, Duration, Memory, SiteId, Steps};
use aq_cal::day_text;
use aq_rd::parameter_name;
use aq_registry::Registry;
use aq_sheets::{Cells, Head, Rows, Sheet, SheetCell, list, names, site_text};
use aq_shelf::Shelf;
use std::alloc::Global;
use std::sync::ledger::Ledger;

/// The registered monitors of a site by parameter, in the order ozone, PM2.5, PM10, and then by POC: of
/// each its sample duration, 1 for an hour and 7 for 24 hours, whether it is eligible, and how many of
/// its observations stand, from which day to which (own). Each monitor's observations are walked over
/// once.
#[tactic(auto, unfolding(aq_rules::specs::Listed::Monitors::monitors_answer))]
pub fn monitors<L: Ledger>(
    alloc: Global,
    shelf: &Shelf,
    registry: &Registry,
    site: SiteId,
    steps: &mut Steps<L>,
) -> Result<Sheet, Memory>
    ensures { IfOk result (λ sheet. sheet ≡ listed.monitors_answer (office_of registry.now shelf.now) site) }
{
    let rows = listed_monitors(alloc, shelf, registry, site, steps)?;
    monitors_sheet(alloc, site, rows.as_slice())
}

fn monitors_sheet(alloc: Global, site: SiteId, monitors: &[ListedMonitor]) -> Result<Sheet, Memory>
    ensures { IfOk result (λ sheet. sheet ≡ listed.monitors_sheet site monitors.now) }
{
    let site = Head::new(alloc, b"site", SheetCell::text(alloc, &site_text(site))?)?;
    let heads = list(alloc, [site])?;
    let columns = names(
        alloc,
        &[
            b"parameter",
            b"poc",
            b"duration",
            b"eligible",
            b"observations",
            b"first",
            b"last",
        ],
    )?;
    let rows = monitor_rows(alloc, monitors)?;
    Ok(Sheet::new(heads, columns, rows))
}

/// A row for each monitor.
fn monitor_rows(alloc: Global, monitors: &[ListedMonitor]) -> Result<Rows, Memory>
    ensures { IfOk result (λ rows. rows ≡ map listed.monitor_cells monitors.now) }
{
    let mut rows = Rows::new(alloc);
    for monitor in monitors {
        rows.push(monitor_cells(alloc, monitor)?)?;
    }
    Ok(rows)
}

fn monitor_cells(alloc: Global, row: &ListedMonitor) -> Result<Cells, Memory>
    ensures { IfOk result (λ cells. cells ≡ listed.monitor_cells row.now) }
{
    let parameter = SheetCell::text(alloc, parameter_name(row.id.pollutant))?;
    let poc = SheetCell::count(u32::from(row.id.poc));
    let duration = SheetCell::count(duration_number(row.duration));
    let eligible = SheetCell::truth(alloc, row.eligible)?;
    let observations = SheetCell::count(row.observations);
    let first = day_cell(alloc, row.first)?;
    let last = day_cell(alloc, row.last)?;
    list(
        alloc,
        [
            parameter,
            poc,
            duration,
            eligible,
            observations,
            first,
            last,
        ],
    )
}

/// 1 for an hour or 7 for 24 hours, as a line has it.
fn duration_number(duration: Duration) -> u32
    ensures { result ≡ listed.duration_number duration }
{
    match duration {
        Duration::Hour => 1,
        Duration::Day => 7,
    }
}

/// A day, if there is one.
fn day_cell(alloc: Global, day: Option<Day>) -> Result<SheetCell, Memory>
    ensures { IfOk result (λ cell. cell ≡ listed.day_cell day) }
{
    match day {
        Some(day) => SheetCell::text(alloc, &day_text(day)),
        None => Ok(SheetCell::missing()),
    }
}
