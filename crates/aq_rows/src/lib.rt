//! The rows of the tables, both ways: the row of a record, an observation and a load, what a row says,
//! an office opened from its rows, and the rows of an office. The loads that were taken are kept here,
//! each by its number with the digest of its body and its reply.
//!
//! # What it has
//!
//! - `office_row`, `observation_row`, `load_row`, `office_key`, `observation_key`: rows and keys of
//!   them.
//! - `record_of`, `observation_of`, `load_of`: what a row says, if it is the row of that.
//! - `open(alloc, rows)`: the parts of an office, as an `Opened`, or an `OpenFault` with the first
//!   damaged row's `Place`; `place_of`, `table_of`: where a row stands.
//! - `rows_of(alloc, registry, shelf, loads)`: the rows of an office.
//! - `Loads`, `KeptLoad`: the loads that were taken; `put`, `reply_of`, `digest_of`, `entries`,
//!   `are_full`.
//!
//! # What it promises
//!
//! - The rows of a record, an observation and a load, and their keys, are the book's; what a row says is
//!   what the book says that it says (`office_row`, `observation_row`, `load_row`, `office_key`,
//!   `observation_key`, `record_of`, `observation_of`, `load_of`).
//! - A list of rows gives the office that the book gives, or its first damaged row: the rows before it
//!   are an office's, and those up to it are no office's (`open`).
//! - The rows of an office are the book's (`rows_of`).
//! - The loads that were taken are the book's list, and a load is found under its number (`Loads`).
//!
//! # An example
//!
//! ```rust
//! match open(alloc, rows) {
//!     Ok(opened) => assert!(rt; opened.loads.reply_of(1).is_some()),
//!     Err(OpenFault::Damaged(place)) => println!(rt; "table {} row {}", place.table, place.index)?,
//!     Err(OpenFault::Memory) => return Err(Memory),
//! }
//! ```
#![tactic(auto)]

mod hours;
mod kept_loads;
mod keys;
mod loads;
mod observations;
mod office_rows;
mod opening;
mod pairs;
mod ranges;
mod records;
mod texts;
mod walk;

pub use kept_loads::{KeptLoad, Loads, digest_is_32_bytes};
pub use keys::{observation_key, office_key};
pub use loads::{load_of, load_row};
pub use observations::{fitting_observations_can_stand, observation_of, observation_row};
pub use office_rows::rows_of;
pub use opening::{OpenFault, Opened, Place, open, place_of, table_of};
pub use records::{office_row, record_of};
