//! What makes the standing observations those of an extract from AQS: an agency gets a fresh extract of some
//! monitors and days, and a load of the lines that is made here brings what stands up to date.
//!
//! # What it has
//!
//! - `changes`: the text of the lines for an extract, or the first line of it that breaks a rule, as a
//!   `ChangesAnswer`. Nothing is written.
//!
//! # What it promises
//!
//! - The answer, seen by `answer_in` of `specs/Answers`, is the book's over the office of the records and
//!   observations (`changes`): deletions of what stands at the extract's monitors in its days and is not in
//!   it, then updates of what it says otherwise, then insertions of what is new, each in the order of keys.
//! - Of an extract that breaks a rule the first such line is named, with the first rule that it breaks.
//! - The only refusal is want of memory.
//!
//! # An example
//!
//! ```rust
//! match changes(alloc, &shelf, &registry, first, last, body, &mut steps)? {
//!     ChangesAnswer::RefusedAt { line, rule } => refuse(line, rule),
//!     ChangesAnswer::OfLines(text) => post(text.as_slice()),
//! }
//! ```

mod answer;
mod days;
mod deletions;
mod extract;
mod place;
mod puts;
mod said;
mod sample;
mod text;

pub use answer::{ChangesAnswer, changes};
