//! PM10 (40 CFR Part 50, Appendix K): the samples of a site's quarter, the strata that they lie in, and
//! how many of them exceed 150 µg/m3. It takes no memory.
//!
//! # What it has
//!
//! - `quarter(shelf, registry, site, quarter, steps)`: a quarter, as a `Pm10Quarter` of aq_verdict: its
//!   days, its scheduled days and those of them with a sample, its strata with a sample, its samples,
//!   those that exceed, of all and of those on scheduled days, and the strata's parts that exceed, in
//!   sixtieths.
//! - `year(shelf, registry, site, year, steps)`: the four quarters of a year, as a `Pm10Year`. The year
//!   is 1990 to 2059.
//! - `quarter_in(year, part)`: a quarter of a year, by its part from 0 to 3; `exceeds`: whether a value
//!   exceeds 150 µg/m3; `STRATUM_DAYS`: how many days a stratum has at most.
//!
//! # What it promises
//!
//! - A site's quarters and years are the book's: samples, strata and exceedances (`quarter`, `year`).
//!
//! # An example
//!
//! ```rust
//! let years = [
//!     year(&shelf, &registry, site, 2022, &mut steps),
//!     year(&shelf, &registry, site, 2023, &mut steps),
//!     year(&shelf, &registry, site, 2024, &mut steps),
//! ];
//! let value = pm10(&years); // estimated exceedances a year, in tenths, and the verdict
//! ```

mod site_quarter;
mod strata;

pub use site_quarter::{quarter, quarter_in, year};
pub use strata::{STRATUM_DAYS, exceeds};
