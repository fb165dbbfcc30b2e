//! Combined sites: a moved site keeps its record (own). A site and the one that is joined to it from a day
//! on are read as one, by what reads a site: the walk over days and quarters, the rules and the verdicts
//! are those of aq_ozone, aq_particles and aq_verdict. It takes no memory.
//!
//! # What it has
//!
//! - [`pair_windows`]: the seventeen 8-hour averages of a day.
//! - [`pair_value`]: the design value of a standard for the three years that end with a year, 1992 to 2059.
//!
//! # What is read
//!
//! - Before the day of the combination the hours and days of the site; from that day on those of the
//!   joined site, and those of the site if there is none. An excluded one is there, and hides the site's.
//! - Schedules and approved days, and make-up samples by their missed days, of the site before that day,
//!   and of the joined site alone from then on. Of two make-up samples of one day that would both give
//!   credit, only the one with the earlier missed day does.
//! - The season is the site's.
//!
//! # What it promises
//!
//! - The averages and the design value are the book's of the pair, and there are none exactly if the site
//!   is not the first one of a combination for ozone, or for the standard's pollutant (`pair_windows`,
//!   `pair_value`, clauses `windows` and `value`). PM10 has no combinations.
//! - If the joined site has no data, and is joined only after the last year, they are the site's own
//!   (clauses `alone`, `ozone_alone` and `pm25_alone`; for PM2.5 in a valid office).
//! - For ozone a value makes at most 400 steps a day, and the averages of a day 384 (clause `steps`).
//!
//! # An example
//!
//! ```rust
//! match pair_value(&shelf, &registry, Standard::Ozone2015, site, 2024, &mut steps) {
//!     Some(value) => show(&value),
//!     None => {} // no site is joined to this one
//! }
//! ```

mod either;
mod pair;
mod pm25;
mod value;
mod windows;

pub use value::pair_value;
pub use windows::pair_windows;
