//! The 8-hour averages of a day of a site (40 CFR Part 50, Appendix U, 3(b)).
ghost use Rattle.std.specs.Prelude.{◌≡◌, ℕ, ◌+◌, ◌*◌, ◌<◌, ◌≤◌, Option, IfSome, length};
ghost use Rattle.aq_rules.specs.Ozone.EightHour.{row_of, window_by};
ghost use Rattle.aq_rules.specs.Ozone.OzoneDay as ozone_day;
ghost use Rattle.aq_rules.specs.Ozone.SiteHour as site_hour;
ghost use Rattle.aq_ozone.specs.DayHours.{cells_in, within_profile, AreNetOzone};
ghost use Rattle.aq_ozone.specs.DayHours as hours;
ghost use Rattle.aq_series.specs.OfficeView.{office_of};
ghost use Rattle.aq_series.specs.Samples.{AreOzone, IsOzone};

use crate::eight_hour::{DayWindows, WINDOWS, WindowRow, average};
use crate::source::{AtSite, OzoneSource};
use aq_base::{Day, Hour, LAST_HOUR, SiteId, Steps};
use aq_registry::Registry;
use aq_series::Cell;
use aq_shelf::Shelf;
use std::sync::ledger::Ledger;

/// The first average of a day starts at 07:00.
pub const FIRST_START: u32 = 7;

/// The averages of a day read so many hours.
pub const DAY_HOURS: usize = 24;

/// Each average is of so many.
pub const WINDOW_HOURS: usize = 8;

/// The seventeen 8-hour averages of a day of a site, from that of 07:00 on, each net of the excluded
/// hours, and full. The call reads each of the day's 24 hours (07:00 to 06:00 of the next day) once: at
/// most 192 steps.
#[tactic(auto, unfolding(aq_rules::specs::Ozone::OzoneDay::windows, aq_rules::specs::Ozone::EightHour::window))]
pub fn day_windows<L: Ledger>(
    shelf: &Shelf,
    registry: &Registry,
    site: SiteId,
    day: Day,
    steps: &mut Steps<L>,
) -> DayWindows
    ensures windows { result ≡ ozone_day.windows (office_of registry.now shelf.now) site day }
    ensures range { AreNetOzone result }
    ensures steps { steps.new ≤ steps.old + 192 }
{
    let at = AtSite {
        shelf,
        registry,
        site,
    };
    windows_on(&at, day, steps)
}

/// The seventeen 8-hour averages of a day of what is read as one site, by the same rules. The call reads
/// each of the day's 24 hours (07:00 to 06:00 of the next day) once: at most 192 steps for each site.
pub fn windows_on<S: OzoneSource, L: Ledger>(
    source: &S,
    day: Day,
    steps: &mut Steps<L>,
) -> DayWindows
    ensures windows { result ≡ ozone_day.windows_by (window_by (S.cell_at source.now)) day }
    ensures range { AreNetOzone result }
    ensures steps { steps.new ≤ steps.old + 192 * S.sites }
{
    windows_of(&day_hours(source, day, steps))
}

/// The seventeen averages of the hours that they read, from that of 07:00 on.
pub fn windows_of(cells: &[Option<Cell>; DAY_HOURS]) -> DayWindows
    requires { AreOzone cells.now }
    ensures windows { (cell_at : ℕ → Option site_hour.Cell) (day : ℕ)
        → cells.now ≡ hours.day_hours cell_at day
        → result ≡ ozone_day.windows_by (window_by cell_at) day }
    ensures range { AreNetOzone result }
{
    let hours = &cells[..];
    let none = WindowRow {
        net: None,
        net_hours: 0,
        full: None,
        full_hours: 0,
    };
    let mut rows = [none; WINDOWS];
    for i in 0..WINDOWS {
        rows[i] = window(&hours[i..i + WINDOW_HOURS]);
    }
    DayWindows::new(rows)
}

/// What is read has for each hour that the averages of a day read.
fn day_hours<S: OzoneSource, L: Ledger>(
    source: &S,
    day: Day,
    steps: &mut Steps<L>,
) -> [Option<Cell>; DAY_HOURS]
    ensures hours { result ≡ hours.day_hours (S.cell_at source.now) day }
    ensures ozone { AreOzone result }
    ensures steps { steps.new ≤ steps.old + 192 * S.sites }
{
    let first = 24 * u32::from(day.number()) + FIRST_START;
    let mut hours = [None; DAY_HOURS];
    for i in 0..DAY_HOURS {
        hours[i] = hour_at(source, first + i as u32, steps);
    }
    hours
}

/// The hours that the averages of a day read, from 07:00 of its calendar day to 06:00 of the next one.
pub(crate) fn hours_of(
    today: &[Option<Cell>; DAY_HOURS],
    tomorrow: &[Option<Cell>; DAY_HOURS],
) -> [Option<Cell>; DAY_HOURS]
    requires today { AreOzone today.now }
    requires tomorrow { AreOzone tomorrow.now }
    ensures hours { (cell_at : ℕ → Option site_hour.Cell) (day : ℕ)
        → today.now ≡ hours.calendar_hours cell_at day
        → tomorrow.now ≡ hours.calendar_hours cell_at (day + 1)
        → result ≡ hours.day_hours cell_at day }
    ensures ozone { AreOzone result }
{
    let first = FIRST_START as usize;
    let mut hours = [None; DAY_HOURS];
    for i in 0..DAY_HOURS {
        hours[i] = if i < DAY_HOURS - first {
            today[i + first]
        } else {
            tomorrow[i + first - DAY_HOURS]
        };
    }
    hours
}

/// What is read has for an hour, by the hour's number: none past the profile.
fn hour_at<S: OzoneSource, L: Ledger>(source: &S, hour: u32, steps: &mut Steps<L>) -> Option<Cell>
    ensures value { result ≡ within_profile (S.cell_at source.now) hour }
    ensures ozone { IfSome result (λ cell. IsOzone cell.value) }
    ensures steps { steps.new ≤ steps.old + 8 * S.sites }
{
    if hour <= LAST_HOUR {
        source.hour(Hour::new(hour), steps)
    } else {
        None
    }
}

/// Hours that have a value: how many, and the sum of their values.
#[derive(Clone, Copy)]
struct Tally {
    hours: u8,
    sum: i32,
}

impl Tally {
    ghost use Rattle.std.specs.Prelude.{◌≡◌, ◌≤◌, ◌+◌, ◌*◌, ◌+ℤ◌, unsigned_abs};
    ghost use Rattle.aq_series.specs.Samples.{IsOzone};

    /// With one more hour.
    fn with(self, value: i32) -> Tally
        requires hours { self.hours ≤ 7 }
        requires sum { unsigned_abs self.sum ≤ 9999 * self.hours }
        requires value { IsOzone value }
        ensures hours { result.hours ≡ self.hours + 1 }
        ensures sum { result.sum ≡ self.sum +ℤ value }
        ensures range { unsigned_abs result.sum ≤ 9999 * result.hours }
    {
        Tally {
            hours: self.hours + 1,
            sum: self.sum + value,
        }
    }
}

/// The averages of at most eight hours, whose values are ozone's.
pub fn window(hours: &[Option<Cell>]) -> WindowRow
    requires few { length hours.now ≤ 8 }
    requires ozone { AreOzone hours.now }
    ensures { result ≡ row_of (cells_in hours.now) }
{
    let mut full = Tally { hours: 0, sum: 0 };
    let mut net = Tally { hours: 0, sum: 0 };
    for hour in hours {
        if let Some(cell) = hour {
            full = full.with(cell.value);
            if !cell.excluded {
                net = net.with(cell.value);
            }
        }
    }
    WindowRow {
        net: average(net.hours, net.sum),
        net_hours: net.hours,
        full: average(full.hours, full.sum),
        full_hours: full.hours,
    }
}
