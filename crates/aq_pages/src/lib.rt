//! Pages of HTML, of sheets in words: their tables, the words round them, and pictures of their numbers in
//! SVG by one scale. It stands on no room of the office, and reads no text.
//!
//! # What it has
//!
//! - `PageSheet`: a sheet in words. A `Line` is the words of a head or of a row; `is_word` and `is_head` say
//!   what a word and a head are.
//! - `kinds`, `Kind`: the sheets that have a page, each told by the names of its heads and of its columns,
//!   with its title, its `Picture` and its words; `kind_of` finds that of a sheet. `Names` are such names, and
//!   `are_same` compares them with words.
//! - `page_of_sheets`: the page of some sheets, between two texts. `HEAD` and `FOOT` are these of all
//!   pages, with the style.
//! - The pieces of such a page, for pages that are made otherwise: `write_escaped`, `write_cell`,
//!   `write_table_start`, `write_column_names`, `write_table_end`, `write_level_words`, `write_picture` and
//!   `write_words`. `are_plain` says that a text is escaped as it is. `has_picture` says whether anything is
//!   drawn of a kind, `drawn_places` and `is_number` of which words that hangs, and `in_its_place` what stands
//!   there if nothing is.
//! - Inside, `kind` says what a sheet is called and what is drawn of it, `words` what its heads and columns
//!   mean, `subject` what it is about, and `html`, `numbers`, `level`, `bars`, `day` and `year` write it;
//!   `ranked` has the ten highest days of a year.
//! - In `specs/`: `Kinds`, `Subject`, `Page`, `Pictures` and `Year`, which say what a page is, and the one
//!   scale of its pictures. `Pieces` in `proofs/` joins what is written in several pieces.
//!
//! # What it promises
//!
//! - Unless memory runs out, the page of any sheets is the definition's (`page_of_sheets`): behind each
//!   title the tables have a row for each head and each row of the sheet and a cell for each of its words,
//!   escaped, in their order, and nothing else. The words of its kind stand behind them.
//! - The title of the page and the head of each section say the standard, the site, the parameter and the
//!   year or day that the heads of a sheet name. A picture in which nothing would be drawn is a sentence.
//! - A sheet's kind is that whose names its heads and columns have, and no two kinds have the same names
//!   (`each_kind_is_found_by_its_names`). A sheet with the names of no kind has its tables, no picture and
//!   no words.
//! - Every coordinate of a picture that stands for a number is its place by one scale, `scaled`, from 0
//!   to the greatest of the numbers drawn and the level; the level and its words are those of aq_base, and
//!   that of a day of PM10 is the book's.
//! - The ten days that are marked in a year are the first ten in the book's order of ranked days
//!   (`days_ranked`), of those that are not set apart.
//! - That the page is good HTML, and what a browser makes of it, is only tried, by `bin/tries-page`.
//!
//! # An example
//!
//! ```rust
//! // `heads`: site 06-037-1103, day 2024-07-01; `columns`: hour, average, hours, full, full_hours
//! let sheet = PageSheet { heads, columns, rows };
//! let page = page_of_sheets(alloc, HEAD, heads, &[sheet], FOOT)?;
//! ```
#![tactic(auto)]

mod bars;
mod day;
mod html;
mod kind;
mod level;
mod numbers;
mod page;
mod ranked;
mod sheet;
mod style;
mod subject;
mod words;
mod year;

pub use html::{are_plain, write_cell, write_escaped};
pub use kind::{
    Kind, Names, Picture, are_same, each_kind_is_found_by_its_names, has_picture, kind_of, kinds,
};
pub use numbers::is_number;
pub use page::{
    drawn_places, in_its_place, page_of_sheets, write_column_names, write_level_words,
    write_picture, write_table_end, write_table_start, write_words,
};
pub use sheet::{Line, PageSheet, is_head, is_word};
pub use style::{FOOT, HEAD};
