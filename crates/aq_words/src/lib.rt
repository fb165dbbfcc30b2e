//! The words of the command line, and the command that they name; and the questions about an office, as words
//! and paths ask them: two readings of one table. It takes no memory.
//!
//! # What it has
//!
//! - `Command`: what the program is asked to do, with a question, sites, days and numbers as values. A `Draft`
//!   is what is said of an input beside an office that stays as it is.
//! - `asked_in_words`, `asked_in_path`: the question that the words of a command ask, or the texts in a path.
//!   `question_of` is a row's question by the texts of its parts. A path's refusal is `BAD_REQUEST` or `NOT_FOUND`.
//! - `read_words(words)`: the command that the words name, the program's name left out, or `None`.
//!
//! # What it promises
//!
//! - The command that words name is the definition's (`command_of` in `specs/Words.antt`), and its
//!   numbers are in their ranges (`read_words`).
//! - Words and paths ask what the book's table of questions says, in its range, and nothing else
//!   (`asked_in_words`, `asked_in_path`).
//! - An area names at most 32 sites, and a list at most 64 entries (`limits_of_words_are_these_numbers`).
//!
//! # An example
//!
//! ```rust
//! let mut words = Vec::new(alloc);
//! for word in ["show", "O3-2015", "06-037-1103", "2024"] {
//!     words.push(String::from_str(alloc, word)?)?;
//! }
//! let Some(Command::Ask(Question::Value(standard, site, 2024))) = read_words(&words) else { .. };
//! ```
#![tactic(auto)]

mod asking;
mod limits;
mod lists;
mod parts;
mod rows;
mod words;
mod years;

pub use asking::{BAD_REQUEST, NOT_FOUND, asked_in_path, asked_in_words};
pub use limits::limits_of_words_are_these_numbers;
pub use rows::question_of;
pub use words::{Command, Draft, read_words};
