//! The tables of an office in a database of `sqlite`: what they are, the statements that read and change
//! them, and what these mean for the rows that are told, over any store and whatever else the database
//! has.
//!
//! # What it has
//!
//! - `prepare(conn, alloc)`: looks whether the tables that stand are those of an office, makes them in a
//!   database of nobody, and moves observations into `observations3` that an earlier program kept in
//!   `observations2`.
//! - `commit(conn, batch)`: makes the changes of a batch in one transaction.
//! - `read_all(conn, alloc)`: all rows, in the order of tables and keys.
//! - In `specs/`: the tables, the number under which an observation stands (`number_at`), the rows that a
//!   database tells (`rows_of`), what a batch makes of them (`Becomes`), the words for what a crash
//!   leaves (`Survives`, `Leaves`, `IsMade`), and those for why a call is refused (`IsCaused`).
//!
//! # What it promises
//!
//! What is said of rows holds while the store is clean: the disk has returned what was written, and
//! nobody else has written the file.
//!
//! - A batch is made in one transaction: after `Ok` the tables are those with the batch and a crash
//!   leaves nothing else; after an error they are as before while the connection is open, and a crash
//!   leaves what it could leave before or the tables with the batch (`commit`).
//! - A batch leaves each other table that has no foreign key with the rows that it had (`OthersStay`).
//! - An observation whose key has no number is not put: the batch is refused. To drop such a key is
//!   `Ok` and changes nothing.
//! - Which keys have a number is a law (`keys_that_have_a_number`). A key is that of its number
//!   (`keys_are_those_of_their_numbers`), and a number that of its key
//!   (`numbers_are_those_of_their_keys`).
//! - All rows are read as they were committed, and nothing changes (`read_all`).
//! - `prepare` looks first: it goes on only if the tables that stand are those of an office, each as its
//!   statement makes it, or if there is none, and no two rows of one have one rowid. What it makes and
//!   moves it commits in one transaction, as the last thing that it does, and the rows that are told are
//!   the same before and after. After an error nothing was committed. It leaves a database as it is that
//!   has some of the tables and not all, one of them in another form, or tables and none of these.
//! - Other tables stand after `prepare` as before, with their indexes, and so do views (`LeavesOthers`).
//!   They keep their rows, but for those that a foreign key's action takes out with `observations2`.
//! - A transaction that is open already is refused by each call, and none is left open.
//! - Each error of the three calls has its cause (`why`), while the store is clean. Memory was wanting, the
//!   faults of the store rose, the connection was shut before, or a transaction was open already.
//! - Else the clause names what was refused. Of a batch it is a change behind those that were made: its key
//!   has no number, its table is missing, or SQLite refuses its statement (`RefusesCommit`). Of the tables
//!   it is one whose rows are not read as its own (`RefusesRows`).
//! - Of a file that is prepared it is what was refused as it was looked at, or as its tables were made
//!   (`RefusesFile`).
//!
//! # An example
//!
//! ```rust
//! let mut conn = Connection::open_in_memory(alloc)?;
//! prepare(&mut conn, alloc)?;
//! commit(&mut conn, &[RowChange::put(Row::load(row))])?;
//! let rows = read_all(&mut conn, alloc)?;
//! ```
#![tactic(auto)]

mod all;
mod batch;
mod binding;
mod forms;
mod loads;
mod missing;
mod moving;
mod number;
mod observations;
mod preparing;
mod reading;
mod records;
mod rowids;
mod sixteen;
mod third;

pub use all::read_all;
pub use batch::commit;
pub use number::{
    keys_are_those_of_their_numbers, keys_that_have_a_number, numbers_are_those_of_their_keys,
};
pub use preparing::prepare;
