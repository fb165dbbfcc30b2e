//! The office in a browser: the page of an answer, with the links by which staff walk from the list of
//! sites to the hours behind a number, and the small pages of what is no answer. It stands on no server, and
//! asks nothing: it is given the question, the sheets of its answer and what stands beside them.
//!
//! # What it has
//!
//! - `answer_page`: the page of some sheets, with the title of their question, the links of its place and of
//!   its rows, each sheet with its heads, its picture, its table and what its columns mean, and a line that
//!   says how many loads and observations stand.
//! - `missing_page`: the page of a question of which nothing stands, with its message.
//! - `refusal_page`: the page of a target that is no question, with its status.
//! - `Context`: what stands in the office beside an answer.
//! - In `specs/`: `Paths` and `Titles`, how a question is spelled in a path and in words; `Links` and
//!   `Rows`, where a page leads; `Standing`, what stands beside an answer; `Pages`, the bytes of a page.
//!
//! # What it promises
//!
//! - Unless memory runs out, each page is the definition's, byte for byte (`Pages`).
//! - For each sheet in order, the list of its heads has each name and its word, and the table has the
//!   names of the columns and each row's words, as in the text (`-` where there is no value), escaped, and
//!   nothing else.
//! - A page has no script and no form, and fetches nothing.
//! - That each link leads to a page that answers, and what a browser makes of a page, is only tried, by
//!   `bin/tries-page`.
//!
//! # An example
//!
//! ```rust
//! let page = answer_page(alloc, &context, &Question::Sites, &[sheet])?;
//! let missing = missing_page(alloc, &context, &question, b"12 no site 06-037-1103")?;
//! ```
#![tactic(auto)]

mod cells;
mod context;
mod links;
mod numbers;
mod pages;
mod paths;
mod rows;
mod sections;
mod tables;
mod titles;

pub use context::Context;
pub use pages::{answer_page, missing_page, refusal_page};
