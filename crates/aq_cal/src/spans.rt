//! Calendar quarters and years, as spans of days.
ghost use Rattle.std.specs.Prelude.{◌≡◌, ◌+◌, ◌<◌, ◌≤◌, ◌↔◌, ℕ};
ghost use Rattle.std.specs.Int.{IsInRange};
ghost use Rattle.aq_base.specs.Calendar as calendar;
ghost use Rattle.aq_base.specs.declared.day.TheConstants.{LAST_DAY};

use crate::date::{civil_of, number_of};
use aq_base::{Day, FIRST_YEAR, LAST_DAY, LAST_YEAR, Quarter};
use jiff::civil::date;

/// The calendar quarter that a day lies in.
pub fn quarter_of(day: Day) -> Quarter
    ensures { result ≡ calendar.quarter_of day }
{
    let date = civil_of(day);
    Quarter::new(4 * (date.year - FIRST_YEAR) + u16::from((date.month - 1) / 3))
}

/// The first day of a quarter, and how many days it has.
pub fn quarter_span(quarter: Quarter) -> (Day, u8)
    ensures first { result.0 ≡ calendar.quarter_first quarter }
    ensures days { result.1 ≡ calendar.days_in_quarter quarter }
    ensures days_range { IsInRange 90 92 result.1 }
    ensures in_profile { result.0 + result.1 ≤ LAST_DAY + 1 }
{
    let year = FIRST_YEAR + quarter.number() / 4;
    let month = 3 * (quarter.number() % 4) as u8 + 1;
    let first = first_of_month(year, month);
    let last = last_of_month(year, month + 2);
    (first, (last.number() - first.number() + 1) as u8)
}

/// The first day of a year from 1990 to 2059, and how many days it has.
pub fn year_span(year: u16) -> (Day, u16)
    requires { IsInRange FIRST_YEAR LAST_YEAR year }
    ensures first { result.0 ≡ calendar.year_first year }
    ensures days { result.1 ≡ calendar.days_in_year year }
    ensures days_range { IsInRange 365 366 result.1 }
    ensures in_profile { result.0 + result.1 ≤ LAST_DAY + 1 }
{
    let first = first_of_month(year, 1);
    let last = last_of_month(year, 12);
    (first, last.number() - first.number() + 1)
}

/// A day lies in a quarter exactly if it is one of those from the quarter's first on, as many as the
/// quarter has.
pub fn a_quarter_holds_the_days_of_its_span()
    ensures { (quarter day : ℕ) → day ≤ LAST_DAY → (calendar.quarter_of day ≡ quarter) ↔ ((calendar.quarter_first quarter ≤ day) × (day < calendar.quarter_first quarter + calendar.days_in_quarter quarter)) }
{}

fn first_of_month(year: u16, month: u8) -> Day
    requires year { IsInRange FIRST_YEAR LAST_YEAR year }
    requires month { IsInRange 1 12 month }
    ensures { result ≡ calendar.day_number year month 1 }
{
    number_of(date(year as i16, month as i8, 1))
}

fn last_of_month(year: u16, month: u8) -> Day
    requires year { IsInRange FIRST_YEAR LAST_YEAR year }
    requires month { IsInRange 1 12 month }
    ensures { result ≡ calendar.day_number year month (calendar.days_in_month year month) }
{
    number_of(date(year as i16, month as i8, 1).last_of_month())
}
