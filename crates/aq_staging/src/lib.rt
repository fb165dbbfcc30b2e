//! A load, staged beside an office: its lines are taken in their order, on observations with its changes and
//! on a copy of the records that its first line of the office makes, and what stood before is not touched.
//!
//! # What it has
//!
//! - `stage_load(alloc, registry, shelf, identity, body)`: what the lines of a body make of an office, as
//!   a `Staged`.
//! - `LoadIdentity`: under what a load is kept, its number and the digest of its body. A load that is not
//!   kept has none.
//! - `Staged::reply`, `identity`: the reply to the load, and under what it is kept.
//! - `Staged::changes`: what the load changes, as `OfficeChanges`, a list of `OfficeChange`; it is made once.
//! - `Staged::onto(shelf)`: what stands after the load, as a `Taken`; `registry_after`: the records then.
//! - `extracts`: the lines of a load that makes what stands that of an extract from AQS.
//!
//! # What it promises
//!
//! - The reply to a load is the book's, and the office with what is staged is the one after its lines
//!   (`stage_load`, `Staged::reply`).
//! - What it changes of the records and observations are the changes that the book names, in their
//!   order, with none for a row that is the same (`stage_load`, clause `staged_on`).
//! - What is taken has the records that were staged, if they may differ from those before the load, and the
//!   observations with the changes; after want of memory the shelf is gone (`onto`).
//! - A load without a line of the office copies no record (`LateCopy`).
//!
//! # An example
//!
//! ```rust
//! let identity = LoadIdentity::new(1, digest);
//! let staged = stage_load(alloc, &registry, &shelf, identity, &body)?;
//! if staged.reply().refused == 0 {
//!     let batch = batch_of(staged.changes());
//!     let Taken { registry: after, shelf, .. } = staged.onto(shelf)?;
//!     let registry = after.unwrap_or(registry);
//! }
//! ```
#![tactic(auto)]

mod batch;
mod change;
mod changes;
pub mod extracts;
mod identity;
mod keys;
mod late_copy;
mod list;
mod load;
mod overlay;
mod reply;
mod staged;
mod staging;
mod touched;
mod uncounted;

pub use change::OfficeChange;
pub use identity::LoadIdentity;
pub use late_copy::registry_after;
pub use list::OfficeChanges;
pub use load::stage_load;
pub use staged::{Staged, Taken};
