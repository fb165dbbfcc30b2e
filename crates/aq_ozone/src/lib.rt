//! Ozone (40 CFR Part 50, Appendix U): the 8-hour averages of a site, the daily maximum 8-hour average
//! that they give, and the fourth highest of a year. They are computed from an office, which takes no
//! memory. Values are in thousandths of a ppm.
//!
//! # What it has
//!
//! - `average`: the average of so many hours with a sum; `WindowRow`, `DayWindows`: one, net and full,
//!   and the seventeen of a day (`WINDOWS`).
//! - `day_windows`: those of a day of a site; `Days`: a walk over days, which reads each hour once.
//!   `windows_of`: those of a day's hours (`DAY_HOURS`), for whoever has them at hand.
//! - `OzoneDay`, `day_of_windows`: what a day's averages say of the day.
//! - `year`: a site's ozone year, as an `OzoneYear` of aq_verdict.
//! - `OzoneSource`: what is read as one site, as a site or several that stand for one another;
//!   `windows_on`, `year_of`: the averages of a day and the year of any source.
//!
//! # What it promises
//!
//! - An 8-hour average is the book's, and so are the seventeen of a day, net and full; at most 192 steps
//!   (`average`, `day_windows`). So are those of a walk over days (`Days`).
//! - What a day's averages say of the day is the book's, and so is a site's ozone year: the days of its
//!   season, those that count, and the fourth highest maximum; at most 200 steps for each day of the
//!   year and for the one after it (`day_of_windows`, `year`).
//! - Of any source they are those of its hours, approved days and season by the rules of a site, in as many
//!   steps for each site that it reads (`windows_on`, `year_of`).
//!
//! # An example
//!
//! ```rust
//! assert_eq!(rt; average(8, 567), Some(70)); // truncated to 0.001 ppm
//! assert_eq!(rt; average(5, 567), None);     // five hours, and 567 / 8 is not above the level
//! assert_eq!(rt; average(5, 568), Some(71));
//! let windows = day_windows(&shelf, &registry, site, day, &mut steps);
//! let day = day_of_windows(&windows);
//! ```
#![tactic(auto)]

mod day_span;
mod days;
mod eight_hour;
mod ozone_day;
mod ozone_year;
mod source;
mod top_four;
mod windows;

pub use days::Days;
pub use eight_hour::{DayWindows, WINDOWS, WindowRow, average};
pub use ozone_day::{OzoneDay, day_of_windows};
pub use ozone_year::{year, year_of};
pub use source::OzoneSource;
pub use windows::{
    DAY_HOURS, FIRST_START, WINDOW_HOURS, day_windows, window, windows_of, windows_on,
};
