//! The days of a month.
ghost use Rattle.std.specs.Prelude.{◌≡◌, ◌+◌, ◌≤◌};
ghost use Rattle.std.specs.Int.{IsInRange};
ghost use Rattle.aq_base.specs.Calendar as calendar;
ghost use Rattle.aq_base.specs.declared.day.TheConstants.{FIRST_YEAR, LAST_DAY, LAST_YEAR};

use aq_base::Day;
use aq_cal::day_of;

/// So many days from the first one on.
#[derive(Clone, Copy)]
pub(crate) struct DaySpan {
    pub(crate) first: Day,
    pub(crate) days: u8,
}

/// The days of a month.
pub(crate) fn month_span(year: u16, month: u8) -> DaySpan
    requires year { IsInRange FIRST_YEAR LAST_YEAR year }
    requires month { IsInRange 1 12 month }
    ensures first { result.first ≡ calendar.day_number year month 1 }
    ensures days { result.days ≡ calendar.days_in_month year month }
    ensures few { result.days ≤ 31 }
    ensures in_profile { result.first + result.days ≤ LAST_DAY + 1 }
{
    let first = first_of_month(year, month);
    let days = days_in_month(year, month);
    DaySpan { first, days }
}

/// The first day of a month.
fn first_of_month(year: u16, month: u8) -> Day
    requires year { IsInRange FIRST_YEAR LAST_YEAR year }
    requires month { IsInRange 1 12 month }
    ensures { result ≡ calendar.day_number year month 1 }
{
    day_of(year, month, 1).unwrap()
}

/// How many days a month has, in one of the profile's years.
fn days_in_month(year: u16, month: u8) -> u8
    ensures days { result ≡ calendar.days_in_month year month }
    ensures few { result ≤ 31 }
{
    if month == 2 {
        if year % 4 == 0 { 29 } else { 28 }
    } else if month == 4 || month == 6 || month == 9 || month == 11 {
        30
    } else {
        31
    }
}
