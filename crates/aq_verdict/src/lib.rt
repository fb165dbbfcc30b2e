//! Design values and verdicts of three years, over what is kept of the years (40 CFR Part 50, Appendices
//! K, N and U). It takes no memory, and each call always succeeds.
//!
//! # What it has
//!
//! - `OzoneYear`, `PmQuarter`, `PmYear`, `Pm10Quarter`, `Pm10Year`: what is kept of a quarter or year.
//! - `ozone`, `annual`, `daily`, `pm10`: the design value of three years, the oldest first, as
//!   `OzoneDv`, `AnnualDv`, `DailyDv` and `Pm10Dv`, each with its verdict; `annual` takes the level as
//!   well.
//! - `DesignValue`: any of these with its three years; `value` and `verdict`.
//! - `capture`, `counted_in`, `percentile_of`, `rank_of`, `annual_mean`: of PM2.5 quarters and years.
//! - `quarter_estimate`, `quarter_lower`, `year_estimate`, `year_lower`, `exceedances_in`,
//!   `is_complete_year`: of PM10 quarters and years.
//! - `TopEight`: the eight greatest of some values, downwards.
//!
//! # What it promises
//!
//! - The design values and verdicts of three years on ozone, PM2.5 (annual and 24-hour, with their
//!   substitution tests) and PM10 are the book's, over what is kept of the years.
//! - What is kept of a quarter or year has the facts that the book asks of it, always.
//! - So are captures, counts, percentiles and their ranks, the eight greatest of some values, annual
//!   means, estimates and completeness of quarters and years: each is the book's.
//!
//! # An example
//!
//! ```rust
//! // a season of 366 days, all of them valid, and a fourth highest maximum of 0.070 ppm
//! let year = OzoneYear::new(366, 366, 366, Some(70));
//! let value = ozone(&[year, year, year]);
//! assert_eq!(rt; value.value, Some(70));
//! assert!(rt; value.verdict == Verdict::Met);
//! assert_eq!(rt; rank_of(120), 3); // the 98th percentile of 120 samples is the third highest
//! ```
#![tactic(auto)]

mod annual_value;
mod counts;
mod daily_value;
mod design_value;
mod levels;
mod means;
mod ozone_value;
mod ozone_year;
mod percentile;
mod pm10_value;
mod pm10_year;
mod pm_quarter;
mod pm_year;
mod quarterly;
mod rounded;
mod substitution;
mod top_eight;

pub use annual_value::{AnnualDv, annual};
pub use counts::{capture, counted_in};
pub use daily_value::{DailyDv, daily};
pub use design_value::DesignValue;
pub use ozone_value::{OzoneDv, ozone};
pub use ozone_year::OzoneYear;
pub use percentile::{percentile_of, rank_of};
pub use pm_quarter::PmQuarter;
pub use pm_year::PmYear;
pub use pm10_value::{
    Pm10Dv, exceedances_in, is_complete_year, pm10, quarter_estimate, quarter_lower, year_estimate,
    year_lower,
};
pub use pm10_year::{Pm10Quarter, Pm10Year};
pub use quarterly::annual_mean;
pub use top_eight::TopEight;
