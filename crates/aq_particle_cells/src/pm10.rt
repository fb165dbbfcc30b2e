//! The PM10 cells of sites (40 CFR Part 50, Appendix K): days, strata, quarters and years, kept under change,
//! so that a question needs no walk over the observations.
//!
//! # What it has
//!
//! - [`Pm10Cells`]: `cell` and `year` answer; `change_day` gives a day another value, `settle_stratum` brings
//!   the stratum that starts on a day up to date with its days, and `settle_quarter` counts a quarter anew
//!   once its schedules changed.
//! - [`filled`]: the cells of an office, made from its records and observations.
//! - [`bring_up`]: brings one cell up to date with the office, by its name in aq_dirty.
//!
//! # How it is kept
//!
//! - Each day keeps its value, and once more as a sample if it is scheduled. So a change takes out just what was
//!   put in, whatever a registry says by then.
//! - What is kept of a stratum stands under its first day: how many of its samples exceed and how many it has.
//! - The sums of quarters are tallies of aq_agg. How many days are scheduled is asked of the registry when a
//!   year is.
//!
//! # What it promises
//!
//! - Each call changes what it says and nothing else, in at most 16 steps (`change_day`, `settle_stratum`) and
//!   800 (`settle_quarter`); a year is answered without a step and is that of the days and strata that are
//!   kept, if these count by the given registry (`year`).
//! - The cells that are filled are the office's (`filled`). If all days and strata are kept as an office has
//!   them, so is each year (`kept_numbers_are_those_of_the_office`).
//! - What a change does not reach is as the office after it has it
//!   (`cells_out_of_reach_are_those_of_the_office_after_it`). A cell that is brought up is the office's, and
//!   those that were stay so (`bring_up`); a stratum is brought up after its days.
//! - A quarter whose days count already as a registry says is settled without a step (`settle_quarter`).
//!   `bring_up` makes at most 16 steps for a day, beside its look-ups, 16 for a stratum and 800 for a quarter,
//!   but none if its days count as they should already.
//! - After want of memory the cells may only be dropped.
//!
//! # An example
//!
//! ```rust
//! let mut cells = filled(alloc, &shelf, &registry, &mut steps)?;
//! let cell = CellName::PmDay(site, Pollutant::Pm10, day); // of a day whose value has changed
//! bring_up(&mut cells, &cell, &shelf, &registry, &mut steps)?;
//! let stratum = CellName::Stratum(site, first); // the one in which that day lies
//! bring_up(&mut cells, &stratum, &shelf, &registry, &mut steps)?;
//! let year = cells.year(&registry, site, 2024);
//! ```

mod cells;
mod days;
mod filling;
mod kept_strata;
mod levels;
mod settling;
mod strata;
mod strata_totals;
mod tallies;

pub use cells::Pm10Cells;
pub use filling::filled;
pub use levels::{
    cells_out_of_reach_are_those_of_the_office_after_it, kept_numbers_are_those_of_the_office,
};
pub use settling::bring_up;
