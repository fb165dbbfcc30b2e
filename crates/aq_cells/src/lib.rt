//! All cells that are kept of an office, of ozone and of particles: filled, and those that a load reaches marked
//! and brought up to date, which costs no more than the change does.
//!
//! # What it has
//!
//! - [`Cells`]: the cells of ozone, of PM2.5 and of PM10; [`filled`]: those of an office, made from its records
//!   and observations.
//! - [`bring_up`]: brings the cells that the changes of a load reach up to date with the office after it.
//! - [`loads_of_ozone_hours_cost_no_more_than_this`]: a law on what a change costs, in numbers.
//!
//! # What it promises
//!
//! - The cells that are filled are the office's (`filled`).
//! - If all cells that no change reaches are those of the office after a load, then all are, once those that it
//!   reaches are brought up to date (`bring_up`, clauses `ozone`, `pm25` and `pm10`). What is marked is exactly
//!   what is in reach.
//! - If all cells were those of the office before, it makes at most the steps that the change costs (clause
//!   `steps`).
//! - A load that changes its own row alone costs 16 steps, one that changes an ozone hour too at most 108, and
//!   one that changes the hours of an ozone day at most 1,488, whatever else the office holds.
//! - After want of memory the cells may only be dropped.
//!
//! # An example
//!
//! ```rust
//! let mut cells = filled(alloc, &shelf, &before, &mut steps)?;
//! bring_up(alloc, &mut cells, &changes, &before, &after, &shelf, &mut steps)?; // the changes of a load
//! let year = cells.pm25.year(&after, site, 2024);
//! ```
#![tactic(auto)]

mod cells;
mod laws;
mod reached;
mod settling;

pub use cells::{Cells, filled};
pub use laws::loads_of_ozone_hours_cost_no_more_than_this;
pub use reached::bring_up;
