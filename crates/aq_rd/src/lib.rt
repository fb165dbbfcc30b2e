//! Lines of the AQS raw data transaction format (RD), both ways: their tags and fields, and the samples
//! that they insert, update and delete. The spellings of sites, dates, codes and numbers, which the
//! office's lines and the words of a command share, are read and written here too.
//!
//! # What it has
//!
//! - `RdLine`: what an RD line asks for, a sample to put or to delete.
//! - `read_rd`, `print_rd`: a line read, which takes no memory, and printed.
//! - `Tag`, `tag_of`, `tag_in`, `has_office_tag`: the form of a line, by its first field.
//! - `Fields`: the fields of a line, without the spaces round each; `MOST_FIELDS` of them have numbers.
//! - `site_in`, `parameter_in`, `poc_in`, `duration_in`, `date_in`, `year_in`, `time_in`, `truth_in`,
//!   `null_in`, `qualifier_in`, `is_code_byte`: the readers of a field.
//! - `digits_in`, `number_to`, `any_number`: numbers of a width, up to a last one, and of any length.
//! - `write_field`, `write_code`, `write_date`, `write_start`, `parameter_name`, `duration_name`: the
//!   writers.
//! - `site_word`, `day_word`, `standard_word`: words of a command.
//!
//! # What it promises
//!
//! - An RD line is read exactly if it breaks no reading rule, as the one value that it spells, and is
//!   else refused under the first rule that it breaks (`read_rd`).
//! - The printed line is the canonical one, and if a line can spell the value, it is read back as that
//!   value (`print_rd`).
//! - Fields are read as the book's `Lines/Spellings` define and written as its `Lines/Canonical` does;
//!   words of a command are read as its `Questions/Spelling` defines.
//!
//! # An example
//!
//! ```rust
//! let line = b"RD|I|06|037|1103|44201|1|1|007|087|20240701|12:00|0.067";
//! match read_rd(line)? {
//!     RdLine::Put { hour, content, .. } => assert_eq!(rt; content.value, Some(67)),
//!     RdLine::Delete { .. } => {}
//! }
//! assert!(rt; read_rd(b"RD|I|06") == Err(Rule::FieldCount));
//! assert_eq!(rt; site_word(b"06-037-1103"), SiteId::new(6, 37, 1103));
//! ```
#![tactic(auto)]

mod bytes;
mod digits;
mod field_texts;
mod fields;
mod line;
mod print;
mod read;
mod spellings;
mod tag;
mod words;

pub use digits::{any_number, digits_in, number_to};
pub use field_texts::{
    duration_name, parameter_name, write_code, write_date, write_field, write_start,
};
pub use fields::{Fields, MOST_FIELDS};
pub use line::RdLine;
pub use print::print_rd;
pub use read::read_rd;
pub use spellings::{
    date_in, duration_in, is_code_byte, null_in, parameter_in, poc_in, qualifier_in, site_in,
    time_in, truth_in, year_in,
};
pub use tag::{Tag, has_office_tag, tag_in, tag_of};
pub use words::{day_word, site_word, standard_word};
