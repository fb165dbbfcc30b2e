//! The particles of sites: what is kept of a site's quarters and years of PM2.5 (40 CFR Part 50, Appendix N)
//! and of PM10 (Appendix K), computed from the observations and records that stand. It takes no memory.
//!
//! # What it has
//!
//! - `pm25`: quarters and years of PM2.5, of a site or of any source of days.
//! - `pm10`: quarters and years of PM10, with their strata.
//!
//! # What it promises
//!
//! - A site's quarters and years are the book's (`pm25::quarter`, `pm25::year`, `pm10::quarter`, `pm10::year`).
//!
//! # An example
//!
//! ```rust
//! let fine = pm25::year(&shelf, &registry, site, 2024, &mut steps);
//! let coarse = pm10::year(&shelf, &registry, site, 2024, &mut steps);
//! ```
#![tactic(auto)]

pub mod pm10;
pub mod pm25;
