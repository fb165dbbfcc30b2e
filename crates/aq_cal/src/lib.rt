//! Dates of the profile: the numbers of days, hours and quarters, and the civil dates that they stand
//! for. All are in local standard time. The calendar itself is the crate `jiff`'s.
//!
//! # What it has
//!
//! - `day_of(year, month, day)`: the day of a date, or `None` if there is no such date from 1990 to
//!   2059.
//! - `civil_of(day)`: the `Civil` date of a day, its year, month and day of the month.
//! - `hour_of(day, hour)`: the hour that starts at a full hour of a day; `hour` is 0 to 23.
//! - `quarter_of(day)`, `quarter_span(quarter)`, `year_span(year)`: the quarter of a day; the first day
//!   of a quarter or a year, and how many days it has.
//! - `day_text(day)`, `write_day(out, day)`: a day as `YYYY-MM-DD`.
//! - `last_digits::<N>(number)`: the last N digits of a number, leading zeros among them.
//!
//! # What it promises
//!
//! - Day numbers, dates, hours, quarters and years are those of the calendar's definition (`Calendar` of
//!   aq_base); `civil_of` gives the date that `day_of` takes back to the same day.
//! - A day prints as YYYY-MM-DD. `write_day` is refused only if the text has no room and memory cannot
//!   be had, and then nothing is written.
//! - A day lies in the span of its quarter and of no other (`a_quarter_holds_the_days_of_its_span`).
//!
//! # An example
//!
//! ```rust
//! let leap_day = day_of(2024, 2, 29)?;
//! assert!(rt; day_of(2023, 2, 29).is_none());
//! assert_eq!(rt; day_text(leap_day), *b"2024-02-29");
//! let (first, days) = quarter_span(quarter_of(leap_day));
//! assert_eq!(rt; day_text(first), *b"2024-01-01");
//! assert_eq!(rt; days, 91);
//! ```
#![tactic(auto)]

mod date;
mod spans;
mod text;

pub use date::{Civil, civil_of, day_of, hour_of};
pub use spans::{a_quarter_holds_the_days_of_its_span, quarter_of, quarter_span, year_span};
pub use text::{day_text, last_digits, write_day};
