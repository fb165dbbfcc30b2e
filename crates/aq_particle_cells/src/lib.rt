//! The cells of particles: days, strata, quarters and years of PM2.5 and PM10 of sites (40 CFR Part 50,
//! Appendices N and K), kept under change, so that a question needs no walk over the observations.
//!
//! # What it has
//!
//! - `days`: what is kept of a day of either, and the bags in which days count.
//! - `pm25`: the cells of PM2.5. `pm10`: the cells of PM10, with strata.
//!
//! # What it promises
//!
//! - The cells that are filled are the office's (`pm25::filled`, `pm10::filled`); a cell that is brought up is
//!   the office's, and those that were stay so (`pm25::bring_up`, `pm10::bring_up`).
//! - Each module has its own list.
//!
//! # An example
//!
//! ```rust
//! let fine = pm25::filled(alloc, &shelf, &registry, &mut steps)?;
//! let year = fine.year(&registry, site, 2024);
//! ```
#![tactic(auto)]

pub mod days;
pub mod pm10;
pub mod pm25;
