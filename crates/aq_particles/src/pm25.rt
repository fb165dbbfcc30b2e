//! PM2.5 (40 CFR Part 50, Appendix N): what is kept of a site's quarters and years, and the rank of the
//! 98th percentile. Values are in tenths of a µg/m3. It takes no memory.
//!
//! # What it has
//!
//! - `quarter(shelf, registry, site, quarter, steps)`: a quarter, as a `PmQuarter` of aq_verdict: its
//!   scheduled days, its creditable samples and those that are counted; and the number, sum, least and
//!   greatest of the values that are not excluded.
//! - `year(shelf, registry, site, year, steps)`: a year, as a `PmYear`: its four quarters and its eight
//!   greatest values that are not excluded. The year is 1990 to 2059.
//! - `Pm25Schedule`, `Pm25Days`, `Pm25Source`: the schedule of what is read as one site, its days, and its
//!   make-up samples; `year_of`: the year of any source; `gives_credit`: whether a sample makes up for a
//!   missed day; `is_makeup_day`: whether a sample of a day may.
//! - `part_of(year, part)`: a quarter of a year, by its part from 0 to 3.
//! - `rank_of(counted)`: the rank of the 98th percentile among so many samples, 1 to 400 (of
//!   aq_verdict).
//!
//! # What it promises
//!
//! - A site's quarters and years are the book's: scheduled, creditable and counted samples, make-up
//!   samples with them, the values that are not excluded, and the eight greatest of a year (`quarter`,
//!   `year`).
//! - Of any source a year is that of its days, schedule and make-up samples by the rules of a site
//!   (`year_of`), and whether a sample gives credit is the book's (`gives_credit`).
//! - The rank is that of Table 1 of Appendix N, 4.5, first for 1 to 50 samples, second to 100, and so on
//!   (`rank_of`).
//!
//! # An example
//!
//! ```rust
//! let years = [
//!     year(&shelf, &registry, site, 2022, &mut steps),
//!     year(&shelf, &registry, site, 2023, &mut steps),
//!     year(&shelf, &registry, site, 2024, &mut steps),
//! ];
//! let value = annual(&years, Standard::Annual2024.level());
//! ```

mod quarter_days;
mod quarter_values;
mod quarters;
mod source;

pub use aq_verdict::rank_of;
pub use quarter_days::{gives_credit, is_makeup_day};
pub use quarters::{part_of, quarter, year, year_of};
pub use source::{MOST_DAYS, Pm25Days, Pm25Schedule, Pm25Source};
