//! The ozone cells of sites (40 CFR Part 50, Appendix U): hours, 8-hour averages, days and years, kept
//! under change, so that a question needs no walk over the observations. aq_book keeps those of its
//! office.
//!
//! # What it has
//!
//! - [`OzoneCells`]: the cells. `hour`, `windows` and `year` answer; `change_hour`, `settle_window`, `settle_day`
//!   and `settle_year` change one level each, from the one below, and `fill_day` puts a day's hours in.
//! - [`filled`]: the cells of an office, made from its records and observations.
//! - [`settle`]: brings the cells that wait in a `Dirty` of aq_dirty up to date with the office after a
//!   change.
//!
//! # What it costs
//!
//! - What is kept of a day of a site stands together: its hours, its averages and what it gives its year.
//!   A day that never had any of them, and that is not approved, takes no room.
//! - `settle` brings each cell up to date by itself: an hour from the observations of the site's
//!   monitors, and any other from the level below it, as it is kept.
//! - Where the hours of two days or more wait together, it fills whole weeks from the rows instead, and
//!   passes over the cells that these have. So a change that reaches years costs little more than one
//!   walk over the observations that it reaches, and a look at each day.
//! - Such a week takes at most 1,572 steps, and the 48 hours that begin it may take 1,920 one by one.
//!
//! # What it promises
//!
//! - Each call changes what it says and nothing else, in at most 16, 4, 4 and 732 steps (`change_hour`,
//!   `settle_window`, `settle_day`, `settle_year`); a year is answered from its tallies, without a step,
//!   and is that of the days that are held (`year`).
//! - A day's averages are those of the hours that are kept, by two searches and without a step
//!   (`windows`).
//! - The cells that are filled are the office's (`filled`). If all cells that do not wait are the
//!   office's, then all are, once those that wait are settled (`settle`).
//! - `settle` makes at most 40 steps for each hour that waits, four for each average and day, and 732 for
//!   each year, but none for a year whose days count as they should already. So what the book of rules
//!   allows for each cell is enough (`AreEnough`).
//! - What a change does not reach is as the office after it has it
//!   (`cells_out_of_reach_are_those_of_the_office_after_it`): so marking the change and settling is
//!   enough.
//! - If the hours are kept as an office has them and the levels above are brought up to date, averages,
//!   days and years are those of the office (`kept_numbers_are_those_of_the_office`).
//! - After want of memory the cells may only be dropped.
//!
//! # An example
//!
//! ```rust
//! let mut cells = filled(alloc, &shelf, &registry, &mut steps)?;
//! dirty.mark(&registry, &change)?; // of a row that has changed in the shelf or the registry
//! settle(&mut cells, &mut dirty, &shelf, &registry, &mut steps)?;
//! let year = cells.year(&registry, site, 2024);
//! ```
#![tactic(auto)]

mod filled_days;
mod filling;
mod held_days;
mod kept_days;
mod kept_window;
mod levels;
mod ozone_cells;
mod ranked_maxima;
mod settling;
mod site_key;
mod weeks;
mod year_tallies;

pub use filling::filled;
pub use levels::{
    cells_out_of_reach_are_those_of_the_office_after_it, kept_numbers_are_those_of_the_office,
};
pub use ozone_cells::OzoneCells;
pub use settling::settle;
