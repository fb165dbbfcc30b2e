//! The values of a site: ozone hour by hour, and PM2.5 and PM10 day by day, from the records of its
//! monitors and what they reported. The primary monitor's value counts where it has one; else the mean
//! of the other eligible monitors, truncated (40 CFR Part 50, Appendices U, N and K). It takes no
//! memory.
//!
//! # What it has
//!
//! - `Cell`: a value, and whether an exceptional event leaves it out.
//! - `site_hour`: the ozone value of a site for an hour.
//! - `site_hours`: those of the hours of eight days (`SPAN_DAYS`, `SPAN_HOURS`), by one span of each
//!   monitor.
//! - `monitor_day`, `site_day`: the PM2.5 or PM10 value of a monitor, and of a site, for a day.
//! - `site_days`: the PM2.5 values of a site for up to 92 days, by one span of each monitor.
//! - `is_excluded`: whether an event leaves an observation out.
//!
//! # What it promises
//!
//! - A site's ozone value for an hour, and whether it is excluded, are the book's; at most 8 steps
//!   (`site_hour`). So are those of the hours of eight days; at most 1,544 steps (`site_hours`).
//! - The PM2.5 or PM10 value of a monitor and of a site for a day, and whether it is excluded, are the
//!   book's; at most 24 steps for a monitor of hours and one for a monitor of days, and 192 for a site
//!   (`monitor_day`, `site_day`). So are the PM2.5 values of a site for the days of a quarter
//!   (`site_days`).
//! - Whether an event leaves an observation out is the book's (`is_excluded`).
//!
//! # An example
//!
//! ```rust
//! let noon = hour_of(day, 12);
//! match site_hour(&shelf, &registry, site, noon, &mut steps) {
//!     Some(cell) if !cell.excluded => average.add(cell.value), // thousandths of a ppm
//!     _ => {}
//! }
//! ```
#![tactic(auto)]

mod day_hours;
mod day_spans;
mod day_tally;
mod days;
mod exclusion;
mod hours;
mod site_spans;
mod tally;

pub use day_hours::{SPAN_DAYS, SPAN_HOURS, site_hours};
pub use days::{monitor_day, site_day};
pub use exclusion::is_excluded;
pub use hours::{Cell, site_hour};
pub use site_spans::site_days;
