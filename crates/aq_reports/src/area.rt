//! The sheets of an area: its years, and its sites with their critical values.
ghost use Rattle.std.specs.Prelude.{◌≡◌, [], IfOk, IsTrue, map};
ghost use Rattle.aq_rules.specs.Shown.AreaSheets as sheets;
ghost use Rattle.aq_rules.specs.Shown.WellFormed.{IsWellFormed, is_cell};
ghost use Rattle.aq_reports.specs.Formed.{are_heads, are_rows, is_row_of};

use crate::report::report_heads;
use crate::value::{design_cell, verdict_name};
use aq_base::{Memory, SiteId, Standard, Verdict};
use aq_sheets::{
    Cells, Heads, Rows, Sheet, SheetCell, add_count, add_head, add_text, list, names, site_text,
};
use std::alloc::Global;

/// The sheet of an area for the three years that end with the year: its verdict, the site that governs
/// and its value, and how many years it has met the standard; and of end years before it, each with the
/// area's verdict and value.
pub fn area_sheet(
    alloc: Global,
    standard: Standard,
    year: u16,
    verdict: Verdict,
    governing: Option<SiteId>,
    value: Option<i32>,
    met: u16,
    rows: &[(u16, Verdict, Option<i32>)],
) -> Result<Sheet, Memory>
    ensures value { IfOk result (λ sheet. sheet ≡ sheets.area_sheet standard year verdict governing value met rows.now) }
    ensures well_formed { IfOk result (λ sheet. IsWellFormed sheet) }
{
    let heads = area_heads(alloc, standard, year, verdict, governing, value, met)?;
    let columns = names(alloc, &[b"year", b"verdict", b"value"])?;
    let rows = area_rows(alloc, standard, rows)?;
    Ok(Sheet::new(heads, columns, rows))
}

#[tactic(auto, using(crate::proofs::Formed::words), unfolding(aq_rules::specs::Shown::AreaSheets::area_sheet, aq_rules::specs::Shown::OtherSheets::report_sheet))]
fn area_heads(
    alloc: Global,
    standard: Standard,
    year: u16,
    verdict: Verdict,
    governing: Option<SiteId>,
    value: Option<i32>,
    met: u16,
) -> Result<Heads, Memory>
    ensures value { IfOk result (λ heads. heads ≡ (sheets.area_sheet standard year verdict governing value met []).heads) }
    ensures heads { IfOk result (λ heads. IsTrue (are_heads heads)) }
{
    let mut heads = report_heads(alloc, standard, year)?;
    let verdict = verdict_name(verdict);
    add_text(alloc, &mut heads, b"verdict", verdict.as_bytes())?;
    let governing = site_cell(alloc, governing)?;
    add_head(alloc, &mut heads, b"governing", governing)?;
    add_head(alloc, &mut heads, b"value", design_cell(standard, value))?;
    add_count(alloc, &mut heads, b"met", u32::from(met))?;
    Ok(heads)
}

fn site_cell(alloc: Global, site: Option<SiteId>) -> Result<SheetCell, Memory>
    ensures { IfOk result (λ cell. cell ≡ sheets.site_cell site) }
{
    match site {
        Some(site) => SheetCell::text(alloc, &site_text(site)),
        None => Ok(SheetCell::missing()),
    }
}

/// A row for each end year.
fn area_rows(
    alloc: Global,
    standard: Standard,
    years: &[(u16, Verdict, Option<i32>)],
) -> Result<Rows, Memory>
    ensures value { IfOk result (λ rows. rows ≡ map (sheets.area_cells standard) years.now) }
    ensures rows { IfOk result (λ rows. IsTrue (are_rows 3 rows)) }
{
    let mut rows = Rows::new(alloc);
    for year in years {
        rows.push(area_cells(alloc, standard, year)?)?;
    }
    Ok(rows)
}

fn area_cells(
    alloc: Global,
    standard: Standard,
    row: &(u16, Verdict, Option<i32>),
) -> Result<Cells, Memory>
    ensures value { IfOk result (λ cells. cells ≡ sheets.area_cells standard row.now) }
    ensures row { IfOk result (λ cells. IsTrue (is_row_of 3 cells)) }
{
    let (year, verdict, value) = row;
    let year = SheetCell::count(u32::from(*year));
    let verdict = SheetCell::text(alloc, verdict_name(*verdict).as_bytes())?;
    list(alloc, [year, verdict, design_cell(standard, *value)])
}

/// The sheet of an area's sites in a year: the value and verdict of each, and its critical value.
pub fn area_sites_sheet(
    alloc: Global,
    standard: Standard,
    year: u16,
    rows: &[(SiteId, Option<i32>, Verdict, Option<i32>)],
) -> Result<Sheet, Memory>
    ensures value { IfOk result (λ sheet. sheet ≡ sheets.area_sites_sheet standard year rows.now) }
    ensures well_formed { IfOk result (λ sheet. IsWellFormed sheet) }
{
    let heads = report_heads(alloc, standard, year)?;
    let columns = names(alloc, &[b"site", b"value", b"verdict", b"critical"])?;
    let rows = area_site_rows(alloc, standard, rows)?;
    Ok(Sheet::new(heads, columns, rows))
}

/// A row for each site.
fn area_site_rows(
    alloc: Global,
    standard: Standard,
    sites: &[(SiteId, Option<i32>, Verdict, Option<i32>)],
) -> Result<Rows, Memory>
    ensures value { IfOk result (λ rows. rows ≡ map (sheets.area_site_cells standard) sites.now) }
    ensures rows { IfOk result (λ rows. IsTrue (are_rows 4 rows)) }
{
    let mut rows = Rows::new(alloc);
    for site in sites {
        rows.push(area_site_cells(alloc, standard, site)?)?;
    }
    Ok(rows)
}

#[tactic(auto, using(crate::proofs::Formed::words))]
fn area_site_cells(
    alloc: Global,
    standard: Standard,
    row: &(SiteId, Option<i32>, Verdict, Option<i32>),
) -> Result<Cells, Memory>
    ensures value { IfOk result (λ cells. cells ≡ sheets.area_site_cells standard row.now) }
    ensures row { IfOk result (λ cells. IsTrue (is_row_of 4 cells)) }
{
    let (site, value, verdict, critical) = row;
    let site = SheetCell::text(alloc, &site_text(*site))?;
    let value = design_cell(standard, *value);
    let verdict = SheetCell::text(alloc, verdict_name(*verdict).as_bytes())?;
    list(
        alloc,
        [site, value, verdict, critical_cell(standard, *critical)],
    )
}

/// A critical value as a year's part has it: in ppm, or with tenths.
fn critical_cell(standard: Standard, value: Option<i32>) -> SheetCell
    ensures value { result ≡ sheets.critical_cell standard value }
    ensures cell { IsTrue (is_cell result) }
{
    match standard {
        Standard::Ozone2015 => SheetCell::ppm(value),
        Standard::Annual2012
        | Standard::AnnualSecondary
        | Standard::Annual2024
        | Standard::Daily2006
        | Standard::Pm10Of1987 => SheetCell::tenths(value),
    }
}
