//! Sheets: the answers of the program as values, as text and as JSON, and observations as CSV. A sheet
//! has heads, and a table of rows below its column names. `aq_reports` makes one of each answer.
//!
//! # What it has
//!
//! - `Sheet`, `Head`, `SheetCell` with the lists `Heads`, `Names`, `Cells`, `Rows`: a sheet and its
//!   parts. `Sheet::heads`, `Sheet::columns`, `Sheet::rows`, `Head::name` and `Head::cell` read what a sheet has.
//! - `list` and `names` make a list of few items, and one of the names of columns; `add_head`, `add_text` and
//!   `add_count` add one head, with a cell, a text or a count.
//! - `text_of`, `json_of`: a sheet as text, and a well-formed one as JSON.
//! - `write_cell`: a cell as text, behind what is there.
//! - `texts_of`, `json_of_sheets`: several sheets as text, and well-formed ones as JSON.
//! - `export_of`: observations as CSV, each with whether it is excluded.
//! - `site_text`: a site as `SS-CCC-NNNN`.
//!
//! # What it promises
//!
//! - Sheets are values, seen as the book's.
//! - The text of sheets, well-formed sheets as JSON, and observations as CSV are the book's texts.
//! - The only refusal is want of memory.
//!
//! # An example
//!
//! ```rust
//! let text = text_of(alloc, &sheet)?;  // lines, as `scan` prints them
//! let json = json_of(alloc, &sheet)?;  // as `serve` sends them
//! assert_eq!(rt; site_text(site), *b"06-037-1103");
//! ```
#![tactic(auto)]

mod cell;
mod export;
mod json_text;
mod lists;
mod sheet;
mod sheets;
mod text;

pub use cell::SheetCell;
pub use export::export_of;
pub use json_text::json_of;
pub use lists::{add_count, add_head, add_text, list, names};
pub use sheet::{Cells, Head, Heads, Names, Rows, Sheet};
pub use sheets::{json_of_sheets, texts_of};
pub use text::{site_text, text_of, write_cell};
