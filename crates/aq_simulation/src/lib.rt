//! A simulation (own): generated loads are taken over an office of which nothing stands, one after the
//! other, and a summary of it and the reports of its last year are made.
//!
//! # What it has
//!
//! - `simulation(alloc, start, sites, years)`: the text that is shown: how many loads were taken, how
//!   many lines they had and how many observations stand, and the report of each standard for the last
//!   year. There are 1 to 32 sites and 3 to 10 years.
//! - `generator`: the loads that are generated.
//!
//! # What it promises
//!
//! - The text of a simulation is the book's (`simulation`): the loads that the book generates, taken as
//!   it takes them, and its summary and reports of the office after them. The only refusal is want of
//!   memory.
//!
//! # An example
//!
//! ```rust
//! let text = simulation(alloc, 1, 2, 3)?;
//! let again = simulation(alloc, 1, 2, 3)?;
//! assert!(rt; text.as_slice() == again.as_slice());
//! ```
#![tactic(auto)]

pub mod generator;
mod reports;
mod taken;
mod text;

pub use text::simulation;
