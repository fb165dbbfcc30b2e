//! What if: the design value of a site under concurrences that are assumed in place of those on record,
//! and the events whose concurrence alone decides its verdict (own). Shelf and registry are lent, and a
//! question leaves them as they are: it copies the records, and no observation.
//!
//! # What it has
//!
//! - [`what_if`]: the design value if each event of a list were concurred in or not, as its entry says.
//! - [`decisive`]: the events that alone change the verdict if their concurrence is turned round, with
//!   the verdict then, as [`DecisiveEvents`], by rising number.
//! - [`WhatIfFault`]: why there is no answer: the site is not registered, an event of the list is
//!   unknown, or memory was wanted.
//!
//! # What it promises
//!
//! - The design value is the book's over the office with the concurrences assumed; the last entry of a
//!   number counts (`what_if`, clause `value`). With one entry it is the design value once the line of
//!   that concurrence is accepted (clause `line`).
//! - The events that decide are the book's (`decisive`, clause `events`).
//! - A site is refused exactly if no monitor of it is registered, and a list exactly if it names an
//!   event that does not stand; else only want of memory is (`registered`, `known`, `refused`).
//! - For ozone a value takes as many steps as a design value, and the events that decide take at most that
//!   many once and once more for each event of the site (clause `steps`). Of an event only the years that
//!   read its hours are computed anew, which no clause counts.
//!
//! # An example
//!
//! ```rust
//! let assumed = [Assumed { number: 12, agreed: true }];
//! let value = what_if(&shelf, &registry, &assumed, Standard::Ozone2015, site, 2024, &mut steps)?;
//! let events = decisive(alloc, &shelf, &registry, Standard::Ozone2015, site, 2024, &mut steps)?;
//! for event in events.as_slice() { .. } // each with its number, and the verdict with it turned round
//! ```

mod events;
mod fault;
mod question;
mod records;
mod standing;

pub use events::{DecisiveEvents, decisive};
pub use fault::WhatIfFault;
pub use question::what_if;
