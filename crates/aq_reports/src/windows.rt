//! The sheet of a day's 8-hour averages.
ghost use Rattle.std.specs.Prelude.{◌≡◌, IfOk, map};
ghost use Rattle.std.specs.List.{enumerate_from};
ghost use Rattle.aq_base.specs.Text.{hour_text};
ghost use Rattle.aq_rules.specs.Shown.Sheets as sheets;

use aq_base::{Day, Memory, SiteId};
use aq_cal::{day_text, last_digits};
use aq_ozone::{DayWindows, WindowRow};
use aq_sheets::{Cells, Head, Rows, Sheet, SheetCell, list, names, site_text};
use std::alloc::Global;

/// The hour of the day at which the first average starts.
const FIRST_START: u16 = 7;

/// The sheet of a day's averages: a row for each, named by the hour at which it starts.
pub fn windows_sheet(
    alloc: Global,
    site: SiteId,
    day: Day,
    windows: &DayWindows,
) -> Result<Sheet, Memory>
    ensures { IfOk result (λ sheet. sheet ≡ sheets.windows_sheet site day windows.now) }
{
    let site = Head::new(alloc, b"site", SheetCell::text(alloc, &site_text(site))?)?;
    let day = Head::new(alloc, b"day", SheetCell::text(alloc, &day_text(day))?)?;
    let heads = list(alloc, [site, day])?;
    let columns = names(
        alloc,
        &[b"hour", b"average", b"hours", b"full", b"full_hours"],
    )?;
    let rows = window_rows(alloc, windows)?;
    Ok(Sheet::new(heads, columns, rows))
}

/// The rows of the averages, in the order of their starts.
fn window_rows(alloc: Global, windows: &DayWindows) -> Result<Rows, Memory>
    ensures { IfOk result (λ rows. rows ≡ map sheets.window_cells (enumerate_from 7 windows.now)) }
{
    let mut rows = Rows::new(alloc);
    let mut hour = FIRST_START;
    for row in &windows.rows {
        rows.push(window_cells(alloc, hour, row)?)?;
        hour += 1;
    }
    Ok(rows)
}

/// The row of the average that starts at an hour.
fn window_cells(alloc: Global, hour: u16, row: &WindowRow) -> Result<Cells, Memory>
    ensures { IfOk result (λ cells. cells ≡ sheets.window_cells (hour, row.now)) }
{
    let hour = SheetCell::text(alloc, &hour_text(hour))?;
    list(
        alloc,
        [
            hour,
            SheetCell::ppm(row.net),
            SheetCell::count(u32::from(row.net_hours)),
            SheetCell::ppm(row.full),
            SheetCell::count(u32::from(row.full_hours)),
        ],
    )
}

/// An hour of a day, `HH:00`.
#[tactic(auto, unfolding(aq_base::specs::Text::hour_text))]
fn hour_text(hour: u16) -> [u8; 5]
    ensures { result ≡ hour_text hour }
{
    let [tens, ones] = last_digits::<2>(hour);
    [tens, ones, b':', b'0', b'0']
}
