//! Days as civil dates, and back.
ghost use Rattle.std.specs.Prelude.{◌≡◌, ◌≤◌, pos, ◌+ℤ◌, unsigned_abs, Some};
ghost use Rattle.std.specs.Int.{IsInRange};
ghost use Rattle.jiff.specs.Words.{IsYmd, IsBetween, epoch_day};
ghost use Rattle.aq_base.specs.Calendar.{day_number, day_of_date, year_of, month_of, day_of_month, hour_number};

use aq_base::{Day, FIRST_YEAR, Hour, LAST_YEAR};
use jiff::ToSpan;
use jiff::civil::{Date, date};

/// A civil date of the profile, in local standard time.
#[derive(Clone, Copy, Debug, PartialEq, Eq)]
pub struct Civil {
    /// The year, from 1990 to 2059.
    pub year: u16,
    /// The month, from 1 for January to 12.
    pub month: u8,
    /// The day of the month, from 1.
    pub day: u8,
}

/// The day that these parts name. There is none if the calendar has no such date, or if it is
/// not from 1990-01-01 to 2059-12-31.
pub fn day_of(year: u16, month: u8, day: u8) -> Option<Day>
    ensures { result ≡ day_of_date year month day }
{
    if year < FIRST_YEAR || year > LAST_YEAR {
        return None;
    }
    let month = i8::try_from(month).ok()?;
    let day = i8::try_from(day).ok()?;
    let date = Date::new(year as i16, month, day).ok()?;
    Some(number_of(date))
}

/// The civil date of a day.
pub fn civil_of(day: Day) -> Civil
    ensures date { day_of_date result.year result.month result.day ≡ Some day }
    ensures year { result.year ≡ year_of day }
    ensures month { result.month ≡ month_of day }
    ensures day_of_month { result.day ≡ day_of_month day }
    ensures year_range { IsInRange FIRST_YEAR LAST_YEAR result.year }
    ensures month_range { IsInRange 1 12 result.month }
    ensures day_range { IsInRange 1 31 result.day }
{
    let date = date_of(day);
    Civil {
        year: date.year() as u16,
        month: date.month() as u8,
        day: date.day() as u8,
    }
}

/// The hour that starts at `hour`:00 of a day, with `hour` from 0 to 23.
pub fn hour_of(day: Day, hour: u8) -> Hour
    requires { hour ≤ 23 }
    ensures { result ≡ hour_number day hour }
{
    Hour::new(24 * u32::from(day.number()) + u32::from(hour))
}

/// Day 0.
fn first_date() -> Date
    ensures { IsYmd (pos FIRST_YEAR) (pos 1) (pos 1) result }
{
    date(FIRST_YEAR as i16, 1, 1)
}

/// The day of a date in one of the profile's years.
pub(crate) fn number_of(date: Date) -> Day
    requires { IsBetween (pos FIRST_YEAR) (pos LAST_YEAR) date.year }
    ensures { result ≡ day_number (unsigned_abs date.year) date.month date.day }
{
    Day::new(first_date().to_plain().until(date.to_plain()) as u16)
}

/// The date so many days after the first.
fn date_of(day: Day) -> Date
    ensures year { IsBetween (pos FIRST_YEAR) (pos LAST_YEAR) result.year }
    ensures number { day_number (unsigned_abs result.year) result.month result.day ≡ day }
{
    first_date()
        .checked_add(i64::from(day.number()).days())
        .unwrap()
}
