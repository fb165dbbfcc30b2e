//! The deletions: what stands at an extract's monitors in its days, and is not in it.
ghost use Rattle.std.specs.Prelude.{◌≡◌, ◌++◌, flat_map, option_map, OnOk};
ghost use Rattle.aq_staging.specs.Extracts.Judging.{span_of};
ghost use Rattle.aq_staging.specs.Extracts.Said.{from_hour, unsaid_deletion};
ghost use Rattle.aq_staging.specs.Extracts.Texts.{deletion_line, dropped_lines, next_monitor, optional_lines};
ghost use Rattle.aq_rd.specs.RdReading.{value_of};
ghost use Rattle.aq_rules.specs.Office.Monitors as monitors;

use crate::extracts::days::Days;
use crate::extracts::said::SaidHours;
use crate::extracts::text::add_change;
use aq_base::{Hour, Memory, MonitorId, Steps};
use aq_rd::RdLine;
use aq_shelf::Shelf;
use std::alloc::Global;
use std::sync::ledger::Ledger;

/// Adds the deletions, in the order of keys. It costs two searches for each monitor of the extract, and a step for
/// each observation that stands or is said at these monitors on the days.
pub(crate) fn add_deletions<L: Ledger>(
    alloc: Global,
    text: &mut Vec<u8>,
    days: &Days,
    shelf: &Shelf,
    rows: &Shelf,
    steps: &mut Steps<L>,
) -> Result<(), Memory>
    ensures { OnOk result (text.new.items ≡ text.old.items ++ flat_map (deletion_line (span_of days.now) rows.now) shelf.now) }
{
    // The proof learns that what stands is in order.
    let _ = shelf.count();
    let mut before = None;
    for (key, _) in rows.rows(steps) {
        let monitor = next_monitor(&before, &key.monitor);
        add_monitor(alloc, text, days, shelf, rows, monitor, steps)?;
        before = Some(key.monitor);
    }
    Ok(())
}

/// A monitor, if it differs from the one before it: the rows of a monitor stand together.
fn next_monitor(before: &Option<MonitorId>, monitor: &MonitorId) -> Option<MonitorId>
    ensures { result ≡ next_monitor before.now monitor.now }
{
    match before {
        Some(before) => {
            if is_same_monitor(before, monitor) {
                None
            } else {
                Some(*monitor)
            }
        }
        None => Some(*monitor),
    }
}

/// Whether two monitors are one.
fn is_same_monitor(a: &MonitorId, b: &MonitorId) -> bool
    ensures { result ≡ monitors.is_same_monitor a.now b.now }
{
    a == b
}

/// Adds the deletions of a monitor, if there is one.
fn add_monitor<L: Ledger>(
    alloc: Global,
    text: &mut Vec<u8>,
    days: &Days,
    shelf: &Shelf,
    rows: &Shelf,
    monitor: Option<MonitorId>,
    steps: &mut Steps<L>,
) -> Result<(), Memory>
    ensures { OnOk result (text.new.items ≡ text.old.items ++ optional_lines (dropped_lines (span_of days.now) rows.now shelf.now) monitor) }
{
    match monitor {
        Some(monitor) => add_dropped(alloc, text, days, shelf, rows, &monitor, steps),
        None => Ok(()),
    }
}

/// Adds the deletions of a monitor.
fn add_dropped<L: Ledger>(
    alloc: Global,
    text: &mut Vec<u8>,
    days: &Days,
    shelf: &Shelf,
    rows: &Shelf,
    monitor: &MonitorId,
    steps: &mut Steps<L>,
) -> Result<(), Memory>
    ensures { OnOk result (text.new.items ≡ text.old.items ++ dropped_lines (span_of days.now) rows.now shelf.now monitor.now) }
{
    let from = days.first_hour();
    let hours = days.hour_count();
    let mut said = SaidHours::new(rows.span(*monitor, from, hours, steps));
    for (hour, _) in shelf.span(*monitor, from, hours, steps) {
        let change = unsaid_deletion(&mut said, monitor, hour);
        add_change(alloc, text, change)?;
    }
    Ok(())
}

/// The deletion of what stands at an hour of a monitor, if an extract says nothing of it. What it says of hours
/// before is passed over.
fn unsaid_deletion(said: &mut SaidHours<'_>, monitor: &MonitorId, hour: Hour) -> Option<RdLine>
    ensures deletion { option_map value_of result ≡ unsaid_deletion said.new monitor.now hour }
    ensures later { said.new ≡ from_hour hour said.old }
{
    said.pass_over(hour);
    if said.starts_at(hour) {
        None
    } else {
        Some(RdLine::Delete {
            monitor: *monitor,
            hour,
        })
    }
}
