//! The sheets of PM2.5 design values: three years, the oldest first.
ghost use Rattle.std.specs.Prelude.{◌≡◌, ◌≤◌, IfOk, IsTrue, map, zip};
ghost use Rattle.std.specs.List.{enumerate_from};
ghost use Rattle.aq_rules.specs.Particles.QuarterCounts.{capture};
ghost use Rattle.aq_rules.specs.Kept.Summaries.{counts_of};
ghost use Rattle.aq_rules.specs.Shown.ParticleSheets as particle_sheets;
ghost use Rattle.aq_rules.specs.Shown.Sheet.{count_cell};
ghost use Rattle.aq_rules.specs.Shown.WellFormed.{IsWellFormed, is_cell};
ghost use Rattle.aq_reports.specs.Formed.{are_rows, is_row_of};

use crate::value::{oldest_year, value_heads};
use aq_base::{Memory, SiteId, Standard};
use aq_sheets::{Cells, Rows, Sheet, SheetCell, list, names};
use aq_verdict::{
    AnnualDv, DailyDv, PmQuarter, PmYear, annual_mean, capture, counted_in, percentile_of,
};
use std::alloc::Global;

/// The sheet of an annual PM2.5 design value.
pub(crate) fn annual_value_sheet(
    alloc: Global,
    standard: Standard,
    site: SiteId,
    year: u16,
    years: &[PmYear; 3],
    design: &AnnualDv,
) -> Result<Sheet, Memory>
    ensures value { IfOk result (λ sheet. sheet ≡ particle_sheets.annual_value_sheet standard site year years.now design.now) }
    ensures well_formed { IfOk result (λ sheet. IsWellFormed sheet) }
{
    let heads = value_heads(
        alloc,
        standard,
        site,
        year,
        design.value,
        design.test,
        design.verdict,
    )?;
    let columns = names(
        alloc,
        &[
            b"year",
            b"mean",
            b"capture1",
            b"capture2",
            b"capture3",
            b"capture4",
            b"valid",
        ],
    )?;
    let rows = annual_rows(alloc, oldest_year(year), years, &design.valid)?;
    Ok(Sheet::new(heads, columns, rows))
}

fn annual_rows(
    alloc: Global,
    oldest: u32,
    years: &[PmYear; 3],
    valid: &[bool; 3],
) -> Result<Rows, Memory>
    requires { oldest ≤ 65535 }
    ensures value { IfOk result (λ rows. rows ≡ map particle_sheets.annual_cells (enumerate_from oldest (zip years.now valid.now))) }
    ensures rows { IfOk result (λ rows. IsTrue (are_rows 7 rows)) }
{
    let mut rows = Rows::new(alloc);
    for (place, kept) in years.iter().enumerate() {
        let number = oldest + place as u32;
        rows.push(annual_cells(alloc, number, kept, valid[place])?)?;
    }
    Ok(rows)
}

fn annual_cells(alloc: Global, number: u32, kept: &PmYear, valid: bool) -> Result<Cells, Memory>
    ensures value { IfOk result (λ cells. cells ≡ particle_sheets.annual_cells (number, (kept.now, valid))) }
    ensures row { IfOk result (λ cells. IsTrue (is_row_of 7 cells)) }
{
    let [first, second, third, fourth] = kept.quarters();
    let valid = SheetCell::truth(alloc, valid)?;
    list(
        alloc,
        [
            SheetCell::count(number),
            SheetCell::tenths(annual_mean(kept)),
            capture_cell(first),
            capture_cell(second),
            capture_cell(third),
            capture_cell(fourth),
            valid,
        ],
    )
}

/// The sheet of a 24-hour PM2.5 design value.
pub(crate) fn daily_value_sheet(
    alloc: Global,
    site: SiteId,
    year: u16,
    years: &[PmYear; 3],
    design: &DailyDv,
) -> Result<Sheet, Memory>
    ensures value { IfOk result (λ sheet. sheet ≡ particle_sheets.daily_value_sheet site year years.now design.now) }
    ensures well_formed { IfOk result (λ sheet. IsWellFormed sheet) }
{
    let heads = value_heads(
        alloc,
        Standard::Daily2006,
        site,
        year,
        design.value,
        design.test,
        design.verdict,
    )?;
    let columns = names(
        alloc,
        &[
            b"year",
            b"percentile",
            b"counted",
            b"capture1",
            b"capture2",
            b"capture3",
            b"capture4",
            b"valid",
        ],
    )?;
    let rows = daily_rows(alloc, oldest_year(year), years, &design.valid)?;
    Ok(Sheet::new(heads, columns, rows))
}

fn daily_rows(
    alloc: Global,
    oldest: u32,
    years: &[PmYear; 3],
    valid: &[bool; 3],
) -> Result<Rows, Memory>
    requires { oldest ≤ 65535 }
    ensures value { IfOk result (λ rows. rows ≡ map particle_sheets.daily_cells (enumerate_from oldest (zip years.now valid.now))) }
    ensures rows { IfOk result (λ rows. IsTrue (are_rows 8 rows)) }
{
    let mut rows = Rows::new(alloc);
    for (place, kept) in years.iter().enumerate() {
        let number = oldest + place as u32;
        rows.push(daily_cells(alloc, number, kept, valid[place])?)?;
    }
    Ok(rows)
}

#[tactic(auto, using(crate::proofs::Formed::words))]
fn daily_cells(alloc: Global, number: u32, kept: &PmYear, valid: bool) -> Result<Cells, Memory>
    ensures value { IfOk result (λ cells. cells ≡ particle_sheets.daily_cells (number, (kept.now, valid))) }
    ensures row { IfOk result (λ cells. IsTrue (is_row_of 8 cells)) }
{
    let [first, second, third, fourth] = kept.quarters();
    let valid = SheetCell::truth(alloc, valid)?;
    list(
        alloc,
        [
            SheetCell::count(number),
            SheetCell::tenths(percentile_of(kept)),
            SheetCell::count(u32::from(counted_in(kept))),
            capture_cell(first),
            capture_cell(second),
            capture_cell(third),
            capture_cell(fourth),
            valid,
        ],
    )
}

fn capture_cell(quarter: &PmQuarter) -> SheetCell
    ensures value { result ≡ count_cell (capture (counts_of quarter.now)) }
    ensures cell { IsTrue (is_cell result) }
{
    SheetCell::count(capture(quarter))
}
