//! What a file of cases says, and the trials that want no command: calls of single functions by their names,
//! and batches over databases. `aq_cases` alone stands on it.
//!
//! # What it has
//!
//! - `read_cases`: the cases of a text, as the module `format` says that one is written.
//! - `difference`: how a text differs from what a case wants of it.
//! - `read_rows` and `rows_text`: rows of the tables, both ways.
//! - `answer`: what a call of a function of a lower crate answers, by its name.
//! - `try_batches`, `try_databases`: batches that keepers over `sqlite` take, and databases that are prepared or
//!   refused.
//!
//! # What it promises
//!
//! - No contract says what a case is. It is proved only to be safe and to end. A reader that reads a case as
//!   another one is found by the `stdout` of `aq_cases`, and by the reviewer of a case.
//!
//! # An example
//!
//! ```text
//! case a_quotient_is_cut_toward_zero
//! calls
//!   truncated -7 2 => -3
//! ```
#![tactic(auto)]

mod answers;
mod batches;
mod blocks;
mod case;
mod compare;
mod dates;
mod format;
mod rows;
mod spelling;
mod tally;
mod trouble;

pub use answers::{NOT_SO, add_word, answer, cut};
pub use batches::{new_keeper, try_batches, try_databases};
pub use case::{Case, Extent, Failing, Given, Place, Room, Run, Subject, Wanted};
pub use compare::difference;
pub use dates::day_in;
pub use format::read_cases;
pub use rows::{read_rows, rows_text};
pub use spelling::spelling_of;
pub use tally::Tally;
pub use trouble::Trouble;
