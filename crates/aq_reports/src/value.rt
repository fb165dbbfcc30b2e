//! The sheet of a design value of any standard: three years, the oldest first.
ghost use Rattle.std.specs.Prelude.{◌≡◌, ◌-◌, ◌≤◌, IfOk, IsTrue};
ghost use Rattle.aq_rules.specs.Shown.Sheets as sheets;
ghost use Rattle.aq_rules.specs.Shown.OtherSheets as other;
ghost use Rattle.aq_rules.specs.Shown.WellFormed.{IsWellFormed, is_cell};
ghost use Rattle.aq_verdict.specs.Designs.{design_of};
ghost use Rattle.aq_reports.specs.Formed.{are_heads};

use crate::numbered::{NumberedRow, numbered_rows};
use crate::value_pm10::pm10_value_sheet;
use crate::value_pm25::{annual_value_sheet, daily_value_sheet};
use aq_base::{Memory, SiteId, Standard, Verdict};
use aq_sheets::{
    Cells, Heads, Sheet, SheetCell, add_count, add_head, add_text, list, names, site_text,
};
use aq_verdict::{DesignValue, OzoneDv, OzoneYear};
use std::alloc::Global;

/// The sheet of a design value of the standard: the value and the test's value in the standard's unit,
/// the verdict, and a row for each of the three years that end with the year.
#[tactic(auto, unfolding(aq_rules::specs::Shown::OtherSheets::value_sheet))]
pub fn value_sheet(
    alloc: Global,
    standard: Standard,
    site: SiteId,
    year: u16,
    value: &DesignValue,
) -> Result<Sheet, Memory>
    ensures value { IfOk result (λ sheet. sheet ≡ other.value_sheet standard site year (design_of value.now)) }
    ensures well_formed { IfOk result (λ sheet. IsWellFormed sheet) }
{
    match value {
        DesignValue::Ozone(years, design) => ozone_value_sheet(alloc, site, year, years, design),
        DesignValue::Annual(years, design) => {
            annual_value_sheet(alloc, standard, site, year, years, design)
        }
        DesignValue::Daily(years, design) => daily_value_sheet(alloc, site, year, years, design),
        DesignValue::Pm10(years, design) => pm10_value_sheet(alloc, site, year, years, design),
    }
}

/// The sheet of an ozone design value. There is no test.
fn ozone_value_sheet(
    alloc: Global,
    site: SiteId,
    year: u16,
    years: &[OzoneYear; 3],
    design: &OzoneDv,
) -> Result<Sheet, Memory>
    ensures value { IfOk result (λ sheet. sheet ≡ sheets.ozone_value_sheet site year years.now design.now) }
    ensures well_formed { IfOk result (λ sheet. IsWellFormed sheet) }
{
    let heads = value_heads(
        alloc,
        Standard::Ozone2015,
        site,
        year,
        design.value,
        None,
        design.verdict,
    )?;
    let columns = names(
        alloc,
        &[
            b"year",
            b"ranked",
            b"fourth",
            b"season_days",
            b"season_valid",
        ],
    )?;
    let rows = numbered_rows(alloc, oldest_year(year), years)?;
    Ok(Sheet::new(heads, columns, rows))
}

impl NumberedRow for OzoneYear {
    ghost use Rattle.aq_rules.specs.Shown.Sheets as sheets;

    ghost shown = { sheets.year_cells };

    ghost width = { 5 };

    fn cells(&self, alloc: Global, number: u32) -> Result<Cells, Memory> {
        list(
            alloc,
            [
                SheetCell::count(number),
                SheetCell::count(u32::from(self.ranked())),
                SheetCell::ppm(self.fourth()),
                SheetCell::count(u32::from(self.season_days())),
                SheetCell::count(u32::from(self.season_valid())),
            ],
        )
    }
}

/// The heads of a design value of any standard.
#[tactic(auto, using(crate::proofs::Formed::words))]
pub(crate) fn value_heads(
    alloc: Global,
    standard: Standard,
    site: SiteId,
    year: u16,
    value: Option<i32>,
    test: Option<i32>,
    verdict: Verdict,
) -> Result<Heads, Memory>
    ensures value { IfOk result (λ heads. heads ≡ sheets.value_heads standard site year value test verdict) }
    ensures heads { IfOk result (λ heads. IsTrue (are_heads heads)) }
{
    let mut heads = Heads::new(alloc);
    add_text(alloc, &mut heads, b"standard", standard.name().as_bytes())?;
    add_text(alloc, &mut heads, b"site", &site_text(site))?;
    add_count(alloc, &mut heads, b"year", u32::from(year))?;
    add_head(alloc, &mut heads, b"value", design_cell(standard, value))?;
    add_head(alloc, &mut heads, b"test", design_cell(standard, test))?;
    add_text(
        alloc,
        &mut heads,
        b"verdict",
        verdict_name(verdict).as_bytes(),
    )?;
    Ok(heads)
}

/// The first of the three years that end with a year.
pub(crate) fn oldest_year(year: u16) -> u32
    ensures value { result ≡ year - 2 }
    ensures small { result ≤ 65535 }
{
    u32::from(year.saturating_sub(2))
}

/// A design value or a test's value in its standard's unit.
pub(crate) fn design_cell(standard: Standard, value: Option<i32>) -> SheetCell
    ensures value { result ≡ sheets.design_cell standard value }
    ensures cell { IsTrue (is_cell result) }
{
    match standard {
        Standard::Ozone2015 => SheetCell::ppm(value),
        Standard::Annual2012
        | Standard::AnnualSecondary
        | Standard::Annual2024
        | Standard::Pm10Of1987 => SheetCell::tenths(value),
        Standard::Daily2006 => SheetCell::whole(value),
    }
}

pub(crate) fn verdict_name(verdict: Verdict) -> &'static str
    ensures { result.now ≡ sheets.verdict_name verdict }
{
    match verdict {
        Verdict::Met => "Met",
        Verdict::NotMet => "NotMet",
        Verdict::Incomplete => "Incomplete",
        Verdict::NoValue => "NoValue",
    }
}
