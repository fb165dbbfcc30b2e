//! The sheet of a year's flags.
ghost use Rattle.std.specs.Prelude.{◌≡◌, ◌≤◌, IfOk, map};
ghost use Rattle.std.specs.Int.{IsInRange};
ghost use Rattle.aq_base.specs.declared.day.TheConstants.{FIRST_YEAR, LAST_YEAR};
ghost use Rattle.aq_rules.specs.Listed.Flags as flags;
ghost use Rattle.aq_series.specs.OfficeView.{office_of};

use crate::code_cell::code_cell;
use crate::flag_list::{ListedFlag, listed_flags};
use aq_base::{Memory, Pollutant, SiteId, Steps};
use aq_cal::day_text;
use aq_rd::parameter_name;
use aq_registry::Registry;
use aq_sheets::{Cells, Head, Rows, Sheet, SheetCell, list, names, site_text};
use aq_shelf::Shelf;
use std::alloc::Global;
use std::sync::ledger::Ledger;

/// The observations of a site and pollutant in a year that ask to be left out (a code from RA to RZ): for
/// each day and code how many carry it, for how many of them an event of the code stands, and for how
/// many one with a concurrence. The year is 1990 to 2059.
pub fn flags<L: Ledger>(
    alloc: Global,
    shelf: &Shelf,
    registry: &Registry,
    site: SiteId,
    pollutant: Pollutant,
    year: u16,
    steps: &mut Steps<L>,
) -> Result<Sheet, Memory>
    requires year { IsInRange FIRST_YEAR LAST_YEAR year }
    ensures { IfOk result (λ sheet. sheet ≡ flags.flags_answer (office_of registry.now shelf.now) site pollutant year) }
{
    let listed = listed_flags(alloc, shelf, registry, site, pollutant, year, steps)?;
    let sheet = flags_sheet(alloc, site, pollutant, year, listed.as_slice())?;
    Ok(sheet)
}

/// The sheet of the flags of a site, pollutant and year.
fn flags_sheet(
    alloc: Global,
    site: SiteId,
    pollutant: Pollutant,
    year: u16,
    listed: &[ListedFlag],
) -> Result<Sheet, Memory>
    ensures { IfOk result (λ sheet. sheet ≡ flags.flags_sheet site pollutant year listed.now) }
{
    let text = SheetCell::text(alloc, &site_text(site))?;
    let site = Head::new(alloc, b"site", text)?;
    let name = SheetCell::text(alloc, parameter_name(pollutant))?;
    let parameter = Head::new(alloc, b"parameter", name)?;
    let year = Head::new(alloc, b"year", SheetCell::count(u32::from(year)))?;
    let heads = list(alloc, [site, parameter, year])?;
    let columns = names(
        alloc,
        &[b"day", b"code", b"flagged", b"covered", b"excluded"],
    )?;
    let rows = flag_rows(alloc, listed)?;
    Ok(Sheet::new(heads, columns, rows))
}

/// A row for each day and code.
fn flag_rows(alloc: Global, listed: &[ListedFlag]) -> Result<Rows, Memory>
    ensures { IfOk result (λ rows. rows ≡ map flags.flag_cells listed.now) }
{
    let mut rows = Rows::new(alloc);
    for row in listed {
        rows.push(flag_cells(alloc, row)?)?;
    }
    Ok(rows)
}

/// The row of a day and code.
fn flag_cells(alloc: Global, row: &ListedFlag) -> Result<Cells, Memory>
    ensures { IfOk result (λ cells. cells ≡ flags.flag_cells row.now) }
{
    let day = SheetCell::text(alloc, &day_text(row.day))?;
    let code = code_cell(alloc, row.code)?;
    list(
        alloc,
        [
            day,
            code,
            SheetCell::count(row.flagged),
            SheetCell::count(row.covered),
            SheetCell::count(row.excluded),
        ],
    )
}
