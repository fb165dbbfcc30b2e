//! The body of a load and its lines, and the lines of the agency's own forms (own), both ways: monitors,
//! designations, schedules, seasons, make-ups, events, concurrences, approved days and combined sites.
//!
//! # What it has
//!
//! - `Body`: a load's body within the limits on bytes and lines. Its lines are counted once, as it is made
//!   (`Body::new`); `text` and `line_count` give its bytes and how many lines they have.
//! - `lines_of(body)`: the `Lines` of a body that are not skipped, each a `BodyLine` with its number
//!   from 1. Blank lines and comments are counted and left out, and so are a byte order mark and a CR at
//!   a line's end.
//! - `count_lines(body)`: how many lines a body has, skipped ones among them.
//! - `read_office(line)`: a line of the office, as an `OfficeLine` of aq_base, or the first rule that it
//!   breaks.
//! - `print_office(alloc, line)`: the one line by which it is written.
//! - `print_key(alloc, key)`: the key under which a record stands in its kind's rows.
//!
//! # What it promises
//!
//! - A text is a body exactly if it has no more lines than may be; of another the number of its lines is
//!   given (`Body::new`).
//! - The numbered lines of a body, and how many there are, are the definition's (`lines_of`,
//!   `count_lines`, `Body::line_count`).
//! - The agency's own lines of all nine forms are read exactly if they break no reading rule, as the one
//!   value that they spell, and are else refused under the first rule that they break; reading takes no
//!   memory (`read_office`).
//! - Printed lines are the canonical ones, and what a line can spell is read back (`print_office`); keys
//!   print as defined (`print_key`).
//!
//! # An example
//!
//! ```rust
//! let body = Body::new(text)?;
//! for line in lines_of(body.text()) {
//!     if has_office_tag(line.text) {
//!         match read_office(line.text) {
//!             Ok(office_line) => apply(office_line),
//!             Err(rule) => refuse(line.number, rule),
//!         }
//!     }
//! }
//! ```
#![tactic(auto)]

mod body;
mod forms;
mod lines;
mod print;
mod read;
mod spellings;

pub use body::Body;
pub use lines::{BodyLine, Lines, count_lines, lines_of};
pub use print::{print_key, print_office};
pub use read::read_office;
