//! Dates and times of the expansions.
use aq_base::{Day, Hour, LAST_DAY, LAST_HOUR};
use aq_cal::hour_of;
use aq_rd::{day_word, time_in};

/// The day of `YYYY-MM-DD`.
pub fn day_in(text: &str) -> Option<Day> {
    day_word(text.as_bytes())
}

/// The hour of `YYYY-MM-DD` and `HH:00`.
pub fn first_hour(day: &str, time: &str) -> Option<Hour> {
    let day = day_in(day)?;
    let hour = time_in(time.as_bytes())?;
    Some(hour_of(day, hour))
}

/// The day so many days on.
pub fn day_after(day: Day, days: u32) -> Option<Day> {
    let number = u32::from(day.number()).checked_add(days)?;
    if number > u32::from(LAST_DAY) {
        return None;
    }
    Some(Day::new(number as u16))
}

/// The day and the hour of the day so many hours on.
pub fn hour_after(hour: Hour, hours: u32) -> Option<(Day, u32)> {
    let number = hour.number().checked_add(hours)?;
    if number > LAST_HOUR {
        return None;
    }
    Some((Day::new((number / 24) as u16), number % 24))
}
