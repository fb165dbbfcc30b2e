//! The sheet of a site's events.
ghost use Rattle.std.specs.Prelude.{◌≡◌, IfOk, map};
ghost use Rattle.aq_rules.specs.Listed.Events as events;
ghost use Rattle.aq_rules.specs.Shown.Sheet.SheetCell.{Text};
ghost use Rattle.aq_series.specs.OfficeView.{office_of};

use crate::code_cell::code_cell;
use crate::event_list::{ListedEvent, listed_events};
use crate::moment::moment_text;
use aq_base::{Hour, Memory, SiteId, Steps};
use aq_rd::parameter_name;
use aq_registry::Registry;
use aq_sheets::{Cells, Head, Rows, Sheet, SheetCell, list, names, site_text};
use aq_shelf::Shelf;
use std::alloc::Global;
use std::sync::ledger::Ledger;

/// The exceptional events of a site, by number, each with what the Administrator said of it (40 CFR 50.14)
/// and the number of standing observations that it flags. It costs a walk over the records, one over the
/// observations, and two searches of the site's flagged hours for each event.
pub fn events<L: Ledger>(
    alloc: Global,
    shelf: &Shelf,
    registry: &Registry,
    site: SiteId,
    steps: &mut Steps<L>,
) -> Result<Sheet, Memory>
    ensures { IfOk result (λ sheet. sheet ≡ events.events_answer (office_of registry.now shelf.now) site) }
{
    let listed = listed_events(alloc, shelf, registry, site, steps)?;
    let sheet = events_sheet(alloc, site, listed.as_slice())?;
    Ok(sheet)
}

/// The sheet of the events of a site.
fn events_sheet(alloc: Global, site: SiteId, listed: &[ListedEvent]) -> Result<Sheet, Memory>
    ensures { IfOk result (λ sheet. sheet ≡ events.events_sheet site listed.now) }
{
    let text = SheetCell::text(alloc, &site_text(site))?;
    let site = Head::new(alloc, b"site", text)?;
    let heads = list(alloc, [site])?;
    let columns = names(
        alloc,
        &[
            b"event",
            b"parameter",
            b"first",
            b"last",
            b"code",
            b"agreed",
            b"flagged",
        ],
    )?;
    let rows = event_rows(alloc, listed)?;
    Ok(Sheet::new(heads, columns, rows))
}

/// A row for each event.
fn event_rows(alloc: Global, listed: &[ListedEvent]) -> Result<Rows, Memory>
    ensures { IfOk result (λ rows. rows ≡ map events.event_cells listed.now) }
{
    let mut rows = Rows::new(alloc);
    for row in listed {
        rows.push(event_cells(alloc, row)?)?;
    }
    Ok(rows)
}

/// The row of an event.
fn event_cells(alloc: Global, row: &ListedEvent) -> Result<Cells, Memory>
    ensures { IfOk result (λ cells. cells ≡ events.event_cells row.now) }
{
    let parameter = SheetCell::text(alloc, parameter_name(row.event.pollutant))?;
    let first = moment_cell(alloc, row.event.first)?;
    let last = moment_cell(alloc, row.event.last)?;
    let code = code_cell(alloc, row.event.code)?;
    let agreed = agreed_cell(alloc, row.agreed)?;
    list(
        alloc,
        [
            SheetCell::count(row.event.number),
            parameter,
            first,
            last,
            code,
            agreed,
            SheetCell::count(row.flagged),
        ],
    )
}

/// An hour as `YYYY-MM-DDTHH:00`.
fn moment_cell(alloc: Global, hour: Hour) -> Result<SheetCell, Memory>
    ensures { IfOk result (λ cell. cell ≡ Text (events.moment_text hour)) }
{
    SheetCell::text(alloc, &moment_text(hour))
}

/// What the Administrator said, if anything.
fn agreed_cell(alloc: Global, agreed: Option<bool>) -> Result<SheetCell, Memory>
    ensures { IfOk result (λ cell. cell ≡ events.truth_cell agreed) }
{
    match agreed {
        Some(agreed) => SheetCell::truth(alloc, agreed),
        None => Ok(SheetCell::missing()),
    }
}
