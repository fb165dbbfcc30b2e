//! An office that is asked and posted to: the answers to its questions, and loads posted over a keeper. The
//! commands, the server and the simulation all do both by it.
//!
//! # What it has
//!
//! - `answer_to(alloc, book, question)`: the `Answer` to a question: sheets, a text, or what is missing
//!   (`Lack`): a site, an event, a combination, a site of the area, or a load.
//! - `windows_answer_after(alloc, book, staged, site, day)`: that to a day's averages after a load, for
//!   whoever asks nothing else of the office.
//! - `post(alloc, book, keeper, number, body, steps)`: a load, posted under a number; it changes the book
//!   in place, and answers what became of the load, as a `Posted`. `post_uncounted` is the same on a counter
//!   of its own.
//! - `service`: the replies to requests of HTTP.
//!
//! # What it promises
//!
//! - Each of the 23 questions about an office is answered as the book of rules has it (`answer_to`, clause
//!   `answer`), and each sheet of an answer is well formed in a valid office (clause `shown`).
//! - A day's averages after a load are answered as over the office that it leaves (`windows_answer_after`),
//!   without a cell of it.
//! - A load that is posted is what the book's `posted` says of it: it is committed before it is taken,
//!   and after a failed commit the office and the tables are as before (`post`). The answer has the sheet of
//!   the load's reply, or the two digests that differ. It makes at most the steps that the change costs,
//!   whatever else stands (`post`, clause `steps`).
//!
//! # An example
//!
//! ```rust
//! let mut book = Book::new(alloc);
//! let posted = post(alloc, &mut book, &mut keeper, 1, &body, &mut steps)?; // a `Body` of aq_forms
//! assert!(rt; matches!(posted, Posted::Done(_)));
//! match answer_to(alloc, &book, &Question::Value(Standard::Ozone2015, site, 2024))? {
//!     Answer::Sheets(sheets) => print(texts_of(alloc, sheets.as_slice())?),
//!     Answer::Text(text) => print(text),
//!     Answer::Lacks(_) => {}
//! }
//! ```
#![tactic(auto)]

mod answers;
mod area;
mod combined;
mod daily;
mod days;
mod highest;
mod lists;
mod loads;
mod posting;
mod reports;
pub mod service;
mod sheets;
mod what_if;

pub use answers::{Answer, Lack, answer_to, windows_answer_after};
pub use posting::{Posted, post, post_uncounted};
