//! The days behind a number: of the particles each day of a site's year, and the ten highest days that a
//! standard ranks. The particle days are asked of a source that knows them (`ParticleDays` of aq_design), so no
//! observation is read.
//!
//! # What it has
//!
//! - `pm25_days`, `pm10_days`: a row for each day of a year of a site, with whether it is scheduled and what
//!   the site has for it. Of PM2.5 it says which samples make up for missed days, of PM10 in which stratum a
//!   day lies.
//! - `highest_particles`: the ten highest days of a PM2.5 or PM10 year, how many are ranked, and the rank that
//!   decides.
//! - `ten_highest`: of any list of days how many have a value, and the highest of them, as `Highest` with its
//!   `RankedDay`s (`TEN` at most). It is for ozone, whose days are kept elsewhere.
//! - `first_at`: at which hour the average that is a value starts, as `MaximumAt`.
//! - `highest_ozone_sheet`: the sheet of an ozone year, of its `RankedMaximum`s.
//!
//! # What it promises
//!
//! - The days of a particle year, and its highest days, are the book's sheets of the office whose days the source
//!   gives (`pm25_days`, `pm10_days`, `highest_particles`).
//! - Of any list of values the ten highest are the first ten of the book's order, and the number is that of all
//!   ranked (`ten_highest`). The start of a maximum and the sheet of an ozone year are the book's (`first_at`,
//!   `highest_ozone_sheet`). Together they are the answer for ozone, if the values are the maxima of the days
//!   of its year (`highest-ozone-is`, `start-among` of the proofs).
//! - The only refusal is want of memory.
//!
//! # An example
//!
//! ```rust
//! let sheet = pm25_days(alloc, &book, site, 2024)?; // of a book, whose cells are kept
//! let highest = highest_particles(alloc, &book, site, Pollutant::Pm25, 2024, &mut steps)?;
//!
//! let found = ten_highest(alloc, first, &maxima)?; // the maxima of the valid days of an ozone year
//! for day in &found.days {
//!     let start = first_at(&windows, day.value); // of the averages of this day
//!     rows.push(RankedMaximum { day: *day, start })?;
//! }
//! let sheet = highest_ozone_sheet(alloc, site, 2024, found.ranked, &rows)?;
//! ```

mod cells;
mod credit;
mod highest;
mod highest_sheet;
mod maximum;
mod pm10_sheet;
mod pm25_sheet;
mod ranked;
mod schedule;
mod strata;

pub use highest::highest_particles;
pub use highest_sheet::{RankedMaximum, highest_ozone_sheet};
pub use maximum::{MaximumAt, first_at};
pub use pm10_sheet::pm10_days;
pub use pm25_sheet::pm25_days;
pub use ranked::{Highest, RankedDay, TEN, ten_highest};
