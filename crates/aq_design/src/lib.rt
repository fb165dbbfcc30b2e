//! Design values of a site (40 CFR Part 50, Appendices U, N and K), over any source of what is kept of
//! its years: a shelf and a registry, or whatever else knows the years of an office. Also those under assumed
//! concurrences, and those of combined sites.
//!
//! # What it has
//!
//! - [`Years`]: gives the ozone, PM2.5 and PM10 years of an office's sites, which contracts name
//!   (`office`).
//! - [`ParticleDays`]: gives besides what the sites have for each day of particles, and the records, without
//!   a step.
//! - [`FromShelf`]: a shelf and a registry as such a source; each year is computed at the call.
//! - [`design_value`]: the design value of a standard for a site and the three years that end with a
//!   year, as a `DesignValue` of aq_verdict. The year is 1992 to 2059. It takes no memory.
//! - `what_if`: the design value under concurrences that are assumed, and the events that decide a verdict.
//! - `combined`: a site and the one that is joined to it, read as one.
//!
//! # What it promises
//!
//! - The design value of each of the six standards is the book's over the source's office, with what is
//!   kept of its three years and the verdict (`design_value`, clause `value`).
//! - For ozone it makes at most three times the steps that the source says of a year (clause `steps`):
//!   200 for each day and for the one after the last, over a shelf and a registry. For particles it makes
//!   none if the source keeps their years (clause `particles`).
//! - What a source gives is the book's year of the site in its office (the trait `Years`), and so is
//!   what is computed from a shelf and a registry (`FromShelf`). A day that a source gives is the book's
//!   day of the site in the same office (the trait `ParticleDays`).
//!
//! # An example
//!
//! ```rust
//! let source = FromShelf { shelf: &shelf, registry: &registry };
//! let value = design_value(&source, Standard::Ozone2015, site, 2024, &mut steps);
//! assert!(rt; value.verdict() == Verdict::Met);
//! ```
#![tactic(auto)]

pub mod combined;
mod from_shelf;
mod particle_days;
mod value;
pub mod what_if;
mod years;

pub use from_shelf::FromShelf;
pub use particle_days::ParticleDays;
pub use value::design_value;
pub use years::Years;
