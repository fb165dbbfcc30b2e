//! The PM2.5 cells of sites (40 CFR Part 50, Appendix N): days, quarters and years, kept under change, so that
//! a question needs no walk over the observations.
//!
//! # What it has
//!
//! - [`Pm25Cells`]: `cell` and `year` answer; `change_day` gives a day another value, and `settle_quarter`
//!   counts a quarter anew once its schedules or make-ups changed.
//! - [`filled`]: the cells of an office, made from its records and observations.
//! - [`bring_up`]: brings one cell up to date with the office, by its name in aq_dirty.
//!
//! # How it is kept
//!
//! - Each day keeps its value, and the creditable sample that it gives its quarter: its own, or that of its
//!   make-up day. So a change takes out just what was put in, whatever a registry says by then.
//! - The sums of quarters and the ranked values of years are tallies of aq_agg. How many days are scheduled is
//!   asked of the registry when a year is.
//!
//! # What it promises
//!
//! - Each call changes what it says and nothing else, in at most 16 steps (`change_day`) and 800
//!   (`settle_quarter`); a year is answered without a step and is that of the days that are kept, if these
//!   count by the given registry (`year`).
//! - The cells that are filled are the office's (`filled`). If all days are kept as an office has them, so is
//!   each year (`kept_numbers_are_those_of_the_office`).
//! - What a change does not reach is as the office after it has it
//!   (`cells_out_of_reach_are_those_of_the_office_after_it`). A cell that is brought up is the office's, and
//!   those that were stay so (`bring_up`).
//! - A quarter whose days count already as a registry says is settled without a step (`settle_quarter`).
//!   `bring_up` makes at most 16 steps for a day, beside its look-ups, and 800 for a quarter, but none if its
//!   days count as they should already.
//! - After want of memory the cells may only be dropped.
//!
//! # An example
//!
//! ```rust
//! let mut cells = filled(alloc, &shelf, &registry, &mut steps)?;
//! let cell = CellName::PmDay(site, Pollutant::Pm25, day); // of a day whose value has changed
//! bring_up(&mut cells, &cell, &shelf, &registry, &mut steps)?;
//! let year = cells.year(&registry, site, 2024);
//! ```

mod cells;
mod day_values;
mod days;
mod filling;
mod levels;
mod settling;
mod tallies;

pub use cells::Pm25Cells;
pub use filling::filled;
pub use levels::{
    cells_out_of_reach_are_those_of_the_office_after_it, kept_numbers_are_those_of_the_office,
};
pub use settling::bring_up;
