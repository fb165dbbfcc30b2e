//! The dirty sets: the cells that a change of an office's rows reaches, held until each is brought up to
//! date. A cell is a number that is kept of an office beside its rows: an hour, an average, a day, a
//! stratum, a quarter or a year of a site. One set holds those of ozone and one those of PM2.5 and PM10,
//! as spans of hours, days, quarters and years.
//!
//! # What it has
//!
//! - `CellName`: a cell, by what it is of.
//! - `OfficeChange`: what became of one observation or record.
//! - `Dirty::new`, `mark`: an empty set; the ozone cells that a change reaches are added.
//! - `Dirty::holds`: whether a cell is held.
//! - `Dirty::next`, `settle`: the next cell, of the lowest level; it is dropped once it is up to date.
//! - `Dirty::first_hours`, `settle_hours`: the same for the first hours, as an `HourSpan`.
//! - `DirtyParticles`: the same for the cells of particles, one at a time.
//! - `stratum_first`: the first day of the stratum that holds a day.
//! - `out_of_reach`: laws on what a change does not reach.
//!
//! # What it promises
//!
//! - After a change is marked, the cells that are held are those that were held and those that the book's
//!   table names for the changed row, and no others; after want of memory they are those of before.
//! - The next cell is of the lowest level: hours come before averages, these before days, and these
//!   before years; days of particles come before strata, these before quarters, and these before years.
//!   There is none exactly if no cell is held.
//! - Settling the next cell, or the first hours, drops those cells alone, and takes no memory.
//! - The cells that are held are those of a list (`the_cells_held_are_a_list`,
//!   `the_particle_cells_held_are_a_list`).
//! - What is out of reach of a change is as before (`out_of_reach`).
//!
//! # An example
//!
//! ```rust
//! let mut dirty = Dirty::new(alloc);
//! dirty.mark(&registry, &OfficeChange::Observation { key, old: None, new: Some(content) })?;
//! while let Some(cell) = dirty.next() {
//!     bring_up_to_date(&cell);
//!     dirty.settle(cell);
//! }
//! ```
#![tactic(auto)]

mod cell_name;
mod change;
mod dirty;
mod marking;
pub mod out_of_reach;
mod particle_marking;
mod particle_reach;
mod particles;
mod reach;
mod spans;
mod strata;

pub use cell_name::CellName;
pub use change::OfficeChange;
pub use dirty::{Dirty, HourSpan, the_cells_held_are_a_list};
pub use particles::{DirtyParticles, the_particle_cells_held_are_a_list};
pub use strata::stratum_first;
