//! The shelf: the observations that stand, one for each key. Contracts see it as the list of its rows in
//! the order of keys. It is one map of stretches of 256 hours of a monitor, so that the hours of a day
//! or a quarter are read by one search.
//!
//! # What it has
//!
//! - `Shelf::new`, `count`: an empty shelf, and how many observations stand.
//! - `Shelf::insert`, `update`, `remove`: put an observation, change one, take one away.
//! - `Shelf::at`: the observation of a key.
//! - `Shelf::span`: the observations of a monitor in some hours from one on, as a `Span`.
//! - `Span::extent`: how many observations a span has, and the hours of the first and of the last of them,
//!   as an `Extent`.
//! - `Shelf::rows`: all of them, in order, as `Rows`.
//! - `ShelfFault` and `NotThere`: why a call is refused.
//!
//! # What it promises
//!
//! - The standing observations are the book's list in the order of keys; each change is that of the
//!   list.
//! - `insert` refuses exactly if the key stands, or else if 4,000,000 observations stand, or else for
//!   want of memory; `update` and `remove` refuse exactly if the key does not stand, take no memory, and
//!   answer what stood. After any refusal the shelf is as before.
//! - A change of one key leaves what stands at every other (clause `keys`).
//! - What stands is read by `at`, `span` and `rows` alone, and each counts its steps: a look-up one, a
//!   span one and one more for each observation, a walk one for each. `update` and `remove` count none:
//!   they answer what stood at the key that they change.
//! - The extent of a span is that of its list. It searches each stretch and walks over none.
//!
//! # An example
//!
//! ```rust
//! let mut shelf = Shelf::new(alloc);
//! let key = ObsKey { monitor, hour: hour_of(day, 12) };
//! shelf.insert(key, Observation { value: Some(67), null: None, quals: Quals::new(), method: None })?;
//! assert!(rt; shelf.insert(key, content) == Err(ShelfFault::AlreadyThere));
//! for (key, observation) in shelf.span(monitor, hour_of(day, 0), 24, &mut steps) { .. }
//! assert!(rt; shelf.remove(key).is_ok());
//! ```
#![tactic(auto)]

mod extent;
mod fault;
mod hours;
mod rows;
mod shelf;
mod span;
mod stretch;

pub use extent::Extent;
pub use fault::{NotThere, ShelfFault};
pub use rows::Rows;
pub use shelf::Shelf;
pub use span::Span;
