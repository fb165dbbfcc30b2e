//! The sheet of how complete the samples of a site's monitors are.
ghost use Rattle.std.specs.Prelude.{◌≡◌, [], IfOk, map};
ghost use Rattle.std.specs.Int.{IsInRange};
ghost use Rattle.aq_base.specs.declared.day.TheConstants.{FIRST_YEAR, LAST_YEAR};
ghost use Rattle.aq_rules.specs.Listed.Completeness as book;
ghost use Rattle.aq_rules.specs.Shown.Sheet.{whole_cell};
ghost use Rattle.aq_series.specs.OfficeView.{office_of};

use crate::monitor_months::{ListedMonth, listed_months};
use crate::month_counts::MonthCounts;
use aq_base::{Memory, Pollutant, SiteId, Steps};
use aq_rd::parameter_name;
use aq_registry::Registry;
use aq_sheets::{Cells, Head, Heads, Rows, Sheet, SheetCell, list, names, site_text};
use aq_shelf::Shelf;
use std::alloc::Global;
use std::sync::ledger::Ledger;

/// The sheet of how many of each month's due samples each registered monitor of a site and pollutant has,
/// by POC and month (own). The year is 1990 to 2059.
#[tactic(auto, unfolding(aq_rules::specs::Listed::Completeness::completeness_answer))]
pub fn completeness<L: Ledger>(
    alloc: Global,
    shelf: &Shelf,
    registry: &Registry,
    site: SiteId,
    pollutant: Pollutant,
    year: u16,
    steps: &mut Steps<L>,
) -> Result<Sheet, Memory>
    requires year { IsInRange FIRST_YEAR LAST_YEAR year }
    ensures { IfOk result (λ sheet. sheet ≡ book.completeness_answer (office_of registry.now shelf.now) site pollutant year) }
{
    let rows = listed_months(alloc, shelf, registry, site, pollutant, year, steps)?;
    sheet_of(alloc, site, pollutant, year, rows.as_slice())
}

/// The sheet of these rows.
fn sheet_of(
    alloc: Global,
    site: SiteId,
    pollutant: Pollutant,
    year: u16,
    rows: &[ListedMonth],
) -> Result<Sheet, Memory>
    ensures { IfOk result (λ sheet. sheet ≡ book.completeness_sheet site pollutant year rows.now) }
{
    let heads = month_heads(alloc, site, pollutant, year)?;
    let columns = names(
        alloc,
        &[
            b"poc", b"month", b"due", b"valued", b"null", b"missing", b"extra", b"percent",
        ],
    )?;
    let rows = month_rows(alloc, rows)?;
    Ok(Sheet::new(heads, columns, rows))
}

#[tactic(auto, unfolding(aq_rules::specs::Listed::Completeness::completeness_sheet))]
fn month_heads(
    alloc: Global,
    site: SiteId,
    pollutant: Pollutant,
    year: u16,
) -> Result<Heads, Memory>
    ensures { IfOk result (λ heads. heads ≡ (book.completeness_sheet site pollutant year []).heads) }
{
    let place = SheetCell::text(alloc, &site_text(site))?;
    let site = Head::new(alloc, b"site", place)?;
    let name = SheetCell::text(alloc, parameter_name(pollutant))?;
    let parameter = Head::new(alloc, b"parameter", name)?;
    let year = Head::new(alloc, b"year", SheetCell::count(u32::from(year)))?;
    list(alloc, [site, parameter, year])
}

/// A row for each monitor and month.
fn month_rows(alloc: Global, months: &[ListedMonth]) -> Result<Rows, Memory>
    ensures { IfOk result (λ rows. rows ≡ map book.month_cells months.now) }
{
    let mut rows = Rows::new(alloc);
    for month in months {
        rows.push(month_cells(alloc, month)?)?;
    }
    Ok(rows)
}

fn month_cells(alloc: Global, month: &ListedMonth) -> Result<Cells, Memory>
    ensures { IfOk result (λ cells. cells ≡ book.month_cells month.now) }
{
    let counts = &month.counts;
    list(
        alloc,
        [
            SheetCell::count(u32::from(month.poc)),
            SheetCell::count(u32::from(month.month)),
            SheetCell::count(counts.due),
            SheetCell::count(counts.valued),
            SheetCell::count(counts.null),
            SheetCell::count(counts.missing),
            SheetCell::count(counts.extra),
            percent_cell(counts),
        ],
    )
}

fn percent_cell(counts: &MonthCounts) -> SheetCell
    ensures { result ≡ whole_cell (book.percent counts.now) }
{
    match counts.percent() {
        Some(percent) => SheetCell::int(percent),
        None => SheetCell::missing(),
    }
}
