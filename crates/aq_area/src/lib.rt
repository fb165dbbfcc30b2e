//! Areas, for which designations are made: an area's value and verdict in a year, its history, and how
//! much the year after a report's may measure at a site for the standard still to be met (own). It takes
//! no memory, and each call always succeeds.
//!
//! # What it has
//!
//! - [`area_year`]: how many sites the area has, the one that governs with its value, and the verdict,
//!   as [`AreaYear`], from the design values of the sites of one standard and year.
//! - [`history`]: the first year that is not met and how many are met since, as [`AreaHistory`], from
//!   the area's years one after another.
//! - [`critical`]: the critical value of a site, from its design value.
//!
//! # What it promises
//!
//! - The year and the history of an area are the book's. The least of the sites with the greatest value
//!   governs, and `NotMet` comes before `Incomplete`.
//! - A critical value is the book's, by one division of exact annual means and else by subtraction. With
//!   it the level is kept, and with any greater whole number it is not (clauses `kept` and `greatest`).
//!
//! # An example
//!
//! ```rust
//! // fourth highest maxima of 0.070 and 0.071 ppm leave 0.071
//! let years = [OzoneYear::new(245, 240, 240, Some(69)), OzoneYear::new(245, 240, 240, Some(70)),
//!     OzoneYear::new(245, 240, 240, Some(71))];
//! let value = DesignValue::Ozone(years, ozone(&years));
//! assert_eq!(rt; critical(Standard::Ozone2015, &value), Some(71));
//! ```
#![tactic(auto)]

mod area_history;
mod area_value;
mod critical_value;
mod exact_mean;
mod two_years;

pub use area_history::{AreaHistory, MOST_END_YEARS, history};
pub use area_value::{AreaYear, area_year};
pub use critical_value::critical;
