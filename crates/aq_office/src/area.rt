//! The value and verdict of an area.
ghost use Rattle.std.specs.Prelude.{◌≡◌, ◌≤◌, IfOk, IsTrue, length, map};
ghost use Rattle.aq_area.specs.AreaRows.{site_values};
ghost use Rattle.aq_area.specs.declared.area_history.TheConstants.{MOST_END_YEARS};
ghost use Rattle.aq_base.specs.Calendar.{is_design_year};
ghost use Rattle.aq_base.specs.declared.limits.TheConstants.{MOST_SITES};
ghost use Rattle.aq_base.specs.declared.question.Question.TheVariants as question;
ghost use Rattle.aq_rules.specs.Areas.AreaValue.{rows_of};
ghost use Rattle.aq_rules.specs.Questions.Answer.{answer};
ghost use Rattle.aq_rules.specs.Shown.AreaSheets as sheets;
ghost use Rattle.aq_rules.specs.Shown.WellFormed.{IsWellFormed};
ghost use Rattle.aq_office.specs.Answers.{IsShown, seen};

use crate::answers::{Answer, Lack};
use aq_area::{AreaYear, area_year, critical, history};
use aq_base::{Area, FIRST_DESIGN_YEAR, Memory, SiteId, Standard, Steps, Verdict};
use aq_book::{Book, SiteValues};
use aq_reports::{area_sheet, area_sites_sheet};
use aq_sheets::{Sheet, list};
use aq_verdict::DesignValue;
use std::alloc::Global;
use std::sync::ledger::Ledger;

/// The sheet of an area, and that of its sites.
pub(crate) fn area_of<L: Ledger>(
    alloc: Global,
    book: &Book,
    standard: Standard,
    area: &Area,
    year: u16,
    steps: &mut Steps<L>,
) -> Result<Answer, Memory>
    requires year { IsTrue (is_design_year year) }
    ensures answer { IfOk result (λ found. answer book.now (question.Area standard area.now year) ≡ seen found) }
    ensures shown { IfOk result (λ found. IsShown found) }
{
    let rows = values_in(alloc, book, standard, year, steps)?;
    let now = area_year(rows.as_slice(), area);
    if now.sites == 0 {
        return Ok(Answer::Lacks(Lack::NoSiteInArea));
    }
    let years = years_to(alloc, book, standard, area, year, &now, steps)?;
    let sheet = sheet_of_years(alloc, standard, year, &years, &now)?;
    let sites = sheet_of_sites(alloc, standard, area, year, rows.as_slice())?;
    Ok(Answer::Sheets(list(alloc, [sheet, sites])?))
}

/// The design values of all sites in a year.
#[tactic(auto, unfolding(aq_rules::specs::Shown::AreaSheets::site_values))]
fn values_in<L: Ledger>(
    alloc: Global,
    book: &Book,
    standard: Standard,
    year: u16,
    steps: &mut Steps<L>,
) -> Result<SiteValues, Memory>
    requires { IsTrue (is_design_year year) }
    ensures values { IfOk result (λ values. site_values values
        ≡ sheets.site_values standard book.now year) }
    ensures few { IfOk result (λ values. length values ≤ MOST_SITES) }
{
    let values = book.report(alloc, standard, year, steps)?;
    Ok(values)
}

/// The area's years of which there is a design value, up to this one, which is known.
fn years_to<L: Ledger>(
    alloc: Global,
    book: &Book,
    standard: Standard,
    area: &Area,
    year: u16,
    now: &AreaYear,
    steps: &mut Steps<L>,
) -> Result<Vec<AreaYear>, Memory>
    requires year { IsTrue (is_design_year year) }
    requires now { now.now ≡ sheets.area_in standard book.now area.now year }
    ensures years { IfOk result (λ years. years.items
        ≡ map (sheets.area_in standard book.now area.now) (sheets.end_years year)) }
    ensures few { IfOk result (λ years. length years.items ≤ MOST_END_YEARS) }
{
    let mut years = Vec::new(alloc);
    for end_year in FIRST_DESIGN_YEAR..year {
        let rows = values_in(alloc, book, standard, end_year, steps)?;
        years.push(area_year(rows.as_slice(), area))?;
    }
    years.push(*now)?;
    Ok(years)
}

/// The sheet of the years, of which the last is now.
fn sheet_of_years(
    alloc: Global,
    standard: Standard,
    year: u16,
    years: &[AreaYear],
    now: &AreaYear,
) -> Result<Sheet, Memory>
    requires { length years.now ≤ MOST_END_YEARS }
    ensures sheet { IfOk result
        (λ sheet. sheet ≡ sheets.sheet_of_years standard year years.now now.now) }
    ensures well_formed { IfOk result (λ sheet. IsWellFormed sheet) }
{
    let history = history(years);
    let rows = rows_from(alloc, history.first, years)?;
    area_sheet(
        alloc,
        standard,
        year,
        now.verdict,
        now.governing,
        now.value,
        history.met,
        &rows,
    )
}

/// The years from a place on, each with its number; none without a place.
fn rows_from(
    alloc: Global,
    first: Option<u16>,
    years: &[AreaYear],
) -> Result<Vec<(u16, Verdict, Option<i32>)>, Memory>
    requires { length years.now ≤ MOST_END_YEARS }
    ensures { IfOk result (λ rows. rows.items ≡ sheets.rows_from first years.now) }
{
    let mut rows = Vec::new(alloc);
    let Some(from) = first else {
        return Ok(rows);
    };
    for place in usize::from(from)..years.len() {
        let year = &years[place];
        rows.push((FIRST_DESIGN_YEAR + place as u16, year.verdict, year.value))?;
    }
    Ok(rows)
}

/// The sheet of the area's sites.
fn sheet_of_sites(
    alloc: Global,
    standard: Standard,
    area: &Area,
    year: u16,
    values: &[(SiteId, DesignValue)],
) -> Result<Sheet, Memory>
    ensures sheet { IfOk result (λ sheet. sheet ≡ sheets.area_sites_sheet standard year
        (map (sheets.area_site_row standard) (rows_of area.now (site_values values.now)))) }
    ensures well_formed { IfOk result (λ sheet. IsWellFormed sheet) }
{
    let rows = site_rows(alloc, standard, area, values)?;
    area_sites_sheet(alloc, standard, year, &rows)
}

/// The area's sites among those of a report, each with its critical value.
fn site_rows(
    alloc: Global,
    standard: Standard,
    area: &Area,
    values: &[(SiteId, DesignValue)],
) -> Result<Vec<(SiteId, Option<i32>, Verdict, Option<i32>)>, Memory>
    ensures { IfOk result (λ rows. rows.items ≡ map (sheets.area_site_row standard)
        (rows_of area.now (site_values values.now))) }
{
    let mut rows = Vec::new(alloc);
    for (site, value) in values {
        if area.holds(*site) {
            let critical = critical(standard, value);
            rows.push((*site, value.value(), value.verdict(), critical))?;
        }
    }
    Ok(rows)
}
