//! The sheet of a standard's report: the design value and verdict of each site.
ghost use Rattle.std.specs.Prelude.{◌≡◌, [], IfOk, IsTrue, map};
ghost use Rattle.aq_rules.specs.Shown.OtherSheets as other_sheets;
ghost use Rattle.aq_reports.specs.Formed.{are_heads};
ghost use Rattle.aq_reports.specs.Rows.{judged_in};

use crate::value::{design_cell, verdict_name};
use aq_base::{Memory, SiteId, Standard};
use aq_sheets::{
    Cells, Heads, Rows, Sheet, SheetCell, add_count, add_text, list, names, site_text,
};
use aq_verdict::DesignValue;
use std::alloc::Global;

/// The sheet of the sites' design values for the three years that end with the year, in the order in
/// which they come.
pub fn report_sheet(
    alloc: Global,
    standard: Standard,
    year: u16,
    rows: &[(SiteId, DesignValue)],
) -> Result<Sheet, Memory>
    ensures { IfOk result (λ sheet. sheet ≡ other_sheets.report_sheet standard year (map judged_in rows.now)) }
{
    let heads = report_heads(alloc, standard, year)?;
    let columns = names(alloc, &[b"site", b"value", b"verdict"])?;
    let rows = judged_rows(alloc, standard, rows)?;
    Ok(Sheet::new(heads, columns, rows))
}

#[tactic(auto, using(crate::proofs::Formed::words), unfolding(aq_rules::specs::Shown::OtherSheets::report_sheet))]
pub(crate) fn report_heads(alloc: Global, standard: Standard, year: u16) -> Result<Heads, Memory>
    ensures value { IfOk result (λ heads. heads ≡ (other_sheets.report_sheet standard year []).heads) }
    ensures heads { IfOk result (λ heads. IsTrue (are_heads heads)) }
{
    let mut heads = Heads::new(alloc);
    add_text(alloc, &mut heads, b"standard", standard.name().as_bytes())?;
    add_count(alloc, &mut heads, b"year", u32::from(year))?;
    Ok(heads)
}

/// A row for each site.
fn judged_rows(
    alloc: Global,
    standard: Standard,
    judged: &[(SiteId, DesignValue)],
) -> Result<Rows, Memory>
    ensures { IfOk result (λ rows. rows ≡ map (other_sheets.judged_cells standard) (map judged_in judged.now)) }
{
    let mut rows = Rows::new(alloc);
    for row in judged {
        rows.push(judged_cells(alloc, standard, row)?)?;
    }
    Ok(rows)
}

fn judged_cells(
    alloc: Global,
    standard: Standard,
    row: &(SiteId, DesignValue),
) -> Result<Cells, Memory>
    ensures { IfOk result (λ cells. cells ≡ other_sheets.judged_cells standard (judged_in row.now)) }
{
    let (site, value) = row;
    let site = SheetCell::text(alloc, &site_text(*site))?;
    let verdict = SheetCell::text(alloc, verdict_name(value.verdict()).as_bytes())?;
    list(alloc, [site, design_cell(standard, value.value()), verdict])
}
