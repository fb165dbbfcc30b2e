//! The sheet of a year's ozone days.
ghost use Rattle.std.specs.Prelude.{◌≡◌, ◌+◌, ◌≤◌, [], IfOk, length, map, zip};
ghost use Rattle.std.specs.Int.{IsInRange};
ghost use Rattle.std.specs.List.{enumerate_from};
ghost use Rattle.aq_base.specs.Calendar.{days_in_year};
ghost use Rattle.aq_base.specs.declared.day.TheConstants.{FIRST_YEAR, LAST_DAY, LAST_YEAR};
ghost use Rattle.aq_rules.specs.Shown.Sheets as sheets;

use aq_base::{Day, Memory, SiteId};
use aq_cal::{day_text, year_span};
use aq_ozone::OzoneDay;
use aq_sheets::{
    Cells, Heads, Rows, Sheet, SheetCell, add_count, add_head, add_text, list, names, site_text,
};
use aq_verdict::OzoneYear;
use std::alloc::Global;

/// The sheet of a year: its season, what the year counts, and a row for each day, valid or not, with
/// whether its maximum is approved.
pub fn days_sheet(
    alloc: Global,
    site: SiteId,
    year: u16,
    season: (Day, Day),
    days: &[OzoneDay],
    approved: &[bool],
    totals: &OzoneYear,
) -> Result<Sheet, Memory>
    requires year { IsInRange FIRST_YEAR LAST_YEAR year }
    requires days { length days.now ≡ days_in_year year }
    requires approved { length approved.now ≡ days_in_year year }
    ensures { IfOk result (λ sheet. sheet ≡ sheets.days_sheet site year (record { first = season.0; last = season.1 }) days.now approved.now totals.now) }
{
    let heads = days_heads(alloc, site, year, season, totals)?;
    let columns = names(
        alloc,
        &[b"day", b"averages", b"valid", b"approved", b"maximum"],
    )?;
    let (first, _) = year_span(year);
    let rows = day_rows(alloc, first, days, approved)?;
    Ok(Sheet::new(heads, columns, rows))
}

/// The heads of a year.
#[tactic(auto, unfolding(aq_rules::specs::Shown::Sheets::days_sheet))]
fn days_heads(
    alloc: Global,
    site: SiteId,
    year: u16,
    season: (Day, Day),
    totals: &OzoneYear,
) -> Result<Heads, Memory>
    ensures { IfOk result (λ heads. heads ≡ (sheets.days_sheet site year (record { first = season.0; last = season.1 }) [] [] totals.now).heads) }
{
    let (first, last) = season;
    let mut heads = Heads::new(alloc);
    add_text(alloc, &mut heads, b"site", &site_text(site))?;
    add_count(alloc, &mut heads, b"year", u32::from(year))?;
    add_text(alloc, &mut heads, b"season_first", &day_text(first))?;
    add_text(alloc, &mut heads, b"season_last", &day_text(last))?;
    add_count(
        alloc,
        &mut heads,
        b"season_days",
        u32::from(totals.season_days()),
    )?;
    add_count(
        alloc,
        &mut heads,
        b"season_valid",
        u32::from(totals.season_valid()),
    )?;
    add_head(
        alloc,
        &mut heads,
        b"fourth",
        SheetCell::ppm(totals.fourth()),
    )?;
    Ok(heads)
}

/// A row for each day from the first on.
fn day_rows(alloc: Global, first: Day, days: &[OzoneDay], approved: &[bool]) -> Result<Rows, Memory>
    requires few { first + length days.now ≤ LAST_DAY + 1 }
    requires each { length approved.now ≡ length days.now }
    ensures { IfOk result (λ rows. rows ≡ map sheets.day_cells (enumerate_from first (zip days.now approved.now))) }
{
    let mut rows = Rows::new(alloc);
    for (place, kept) in days.iter().enumerate() {
        let day = Day::new(first.number() + place as u16);
        rows.push(day_cells(alloc, day, kept, approved[place])?)?;
    }
    Ok(rows)
}

fn day_cells(alloc: Global, day: Day, kept: &OzoneDay, approved: bool) -> Result<Cells, Memory>
    ensures { IfOk result (λ cells. cells ≡ sheets.day_cells (day, (kept.now, approved))) }
{
    let day = SheetCell::text(alloc, &day_text(day))?;
    let valid = SheetCell::truth(alloc, kept.valid)?;
    let approved = SheetCell::truth(alloc, approved)?;
    list(
        alloc,
        [
            day,
            SheetCell::count(u32::from(kept.averages)),
            valid,
            approved,
            SheetCell::ppm(kept.maximum),
        ],
    )
}
