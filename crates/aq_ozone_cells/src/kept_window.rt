//! The 8-hour averages of the hours that are kept (40 CFR Part 50, Appendix U, 3(b)).
ghost use Rattle.std.specs.Prelude.{◌≡◌, ◌≤◌, IfSome, length, map};
ghost use Rattle.std.specs.List.{range_with_len};
ghost use Rattle.aq_base.specs.declared.day.TheConstants.{LAST_HOUR};
ghost use Rattle.aq_rules.specs.Ozone.EightHour.{row_of};
ghost use Rattle.aq_series.specs.Samples.{AreOzone, IsOzone};
ghost use Rattle.aq_ozone.specs.DayHours as hours;
ghost use Rattle.aq_ozone.specs.DayHours.{cells_in};
ghost use Rattle.aq_ozone_cells.specs.KeptDays.{averages_of, hour_at, hour_of_two};
ghost use Rattle.aq_ozone_cells.specs.OzoneCells.{average_of_hours, hour_in_profile, AreHoursOfOzone};

use crate::kept_days::{DayCells, KeptAverage, KeptDays};
use aq_base::{Day, Hour, LAST_HOUR, SiteId};
use aq_ozone::{DAY_HOURS, FIRST_START, WINDOW_HOURS, window};
use aq_series::Cell;

/// The average of the eight hours from a start on that are kept, as far as the profile goes.
pub(crate) fn average_of_hours(days: &KeptDays, site: SiteId, start: Hour) -> KeptAverage
    requires { AreHoursOfOzone days.now.days.entries }
    ensures average { result ≡ average_of_hours days.now.days.entries site start }
    ensures net { IfSome result.net IsOzone }
{
    let hours = eight_hours(days, site, start.number());
    average_over(&hours[..])
}

/// The average over at most eight hours.
pub(crate) fn average_over(hours: &[Option<Cell>]) -> KeptAverage
    requires few { length hours.now ≤ 8 }
    requires ozone { AreOzone hours.now }
    ensures average { result ≡ averages_of (row_of (cells_in hours.now)) }
    ensures net { IfSome result.net IsOzone }
{
    let row = window(hours);
    KeptAverage {
        net: small(row.net),
        full: small(row.full),
    }
}

/// What is kept of eight hours from the first on, none past the profile.
fn eight_hours(days: &KeptDays, site: SiteId, first: u32) -> [Option<Cell>; WINDOW_HOURS]
    requires first { first ≤ LAST_HOUR }
    requires ozone { AreHoursOfOzone days.now.days.entries }
    ensures hours { result ≡ map (hour_in_profile days.now.days.entries site) (range_with_len first 8) }
    ensures ozone { AreOzone result }
{
    let mut hours = [None; WINDOW_HOURS];
    for i in 0..WINDOW_HOURS {
        hours[i] = hour_in_profile(days, site, first + i as u32);
    }
    hours
}

/// What is kept of an hour, by its number: none past the profile.
fn hour_in_profile(days: &KeptDays, site: SiteId, hour: u32) -> Option<Cell>
    requires { AreHoursOfOzone days.now.days.entries }
    ensures value { result ≡ hour_in_profile days.now.days.entries site hour }
    ensures ozone { IfSome result (λ cell. IsOzone cell.value) }
{
    if hour <= LAST_HOUR {
        days.hour(site, Hour::new(hour))
    } else {
        None
    }
}

/// What is kept of the hours that a day's averages read, from its 07:00 to 06:00 of the next day: none past
/// the profile. It costs two searches of the days.
pub(crate) fn day_hours(days: &KeptDays, site: SiteId, day: Day) -> [Option<Cell>; DAY_HOURS]
    requires { AreHoursOfOzone days.now.days.entries }
    ensures hours { result ≡ hours.day_hours (hour_at days.now.days.entries site) day }
    ensures ozone { AreOzone result }
{
    let number = day.number();
    let today = days.day(site, number);
    let tomorrow = days.day(site, number + 1);
    let first = 24 * u32::from(number) + FIRST_START;
    let mut hours = [None; DAY_HOURS];
    for i in 0..DAY_HOURS {
        hours[i] = hour_of_two(&today, &tomorrow, number, first + i as u32);
    }
    hours
}

/// What a day and the one after it have for an hour of theirs, by its number: none past the profile.
fn hour_of_two(today: &DayCells, tomorrow: &DayCells, day: u16, hour: u32) -> Option<Cell>
    ensures { result ≡ hour_of_two today.now tomorrow.now day hour }
{
    if hour > LAST_HOUR {
        None
    } else if hour / 24 == u32::from(day) {
        today.hour(hour)
    } else {
        tomorrow.hour(hour)
    }
}

/// The same value of ozone in sixteen bits.
pub(crate) fn small(value: Option<i32>) -> Option<i16>
    requires { IfSome value IsOzone }
    ensures { result ≡ value }
{
    match value {
        Some(value) => Some(value as i16),
        None => None,
    }
}
