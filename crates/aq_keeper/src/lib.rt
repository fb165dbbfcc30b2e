//! Where an office's rows are kept from run to run: the rows of its four tables, their keys and changes,
//! what a keeper promises, and keepers in memory. Keepers of real files stand in aq_sqlite and
//! aq_journal.
//!
//! # What it has
//!
//! - `Row` with its `RowContent` (`OfficeRow`, `ObsRow`, `LoadRow`, `ObsRow2`): a row of the table
//!   `records`, `observations` (which version 1 kept), `loads` or `observations3`; `Rows`: a list of
//!   them.
//! - `RowKey` with its `KeyContent`: the key of a row in its table.
//! - `RowChange` with its `ChangeContent`: a row that is put, or the key of one that is dropped.
//! - `Keeper`: `read_all` answers all rows, `commit` changes them by a batch, `let_go` gives the tables
//!   up; `KeeperFault`: why not.
//! - `MemoryKeeper`: one in memory that fails at the calls that it is told to; `SteadyKeeper`: one that
//!   never fails while it has its tables.
//! - `are_in_order`, `do_keys_rise`: whether rows, or changes of a batch, are in order.
//!
//! # What it promises
//!
//! - A keeper tells its tables or does not, may stop telling within a call, and counts its faults: the
//!   count rises at a call that fails, and at no other. Want of memory is no fault.
//! - Of what is told as a call ends: what it reads is that, a commit that answers `Ok` is the batch, in
//!   the order of a batch, done to the tables, and after any other answer they are as before (the trait
//!   `Keeper`).
//! - Behind `let_go` what was told stays told, and each other call fails.
//! - Each commit is counted, whatever becomes of it, and nothing else is (`commits`).
//! - The keepers in memory tell theirs; while they have them one fails exactly at the calls that it is
//!   told to, the other never (`MemoryKeeper`, `SteadyKeeper`). Of one that still tells as a call ends, all this is exact
//!   (`told_tables_are_exact`).
//!
//! # An example
//!
//! ```rust
//! let mut keeper = SteadyKeeper::new(alloc);
//! let batch = [RowChange::put(row), RowChange::drop(RowKey::load(1))]; // loads come last
//! keeper.commit(alloc, &batch)?;
//! let rows = keeper.read_all(alloc)?;
//! ```
#![tactic(auto)]

mod change;
mod keeper;
mod key;
mod memory_keeper;
mod order;
mod row;
mod steady_keeper;
mod tables;
mod tables_apart;
mod told;

pub use change::{ChangeContent, RowChange};
pub use keeper::{Keeper, KeeperFault};
pub use key::{KeyContent, RowKey};
pub use memory_keeper::MemoryKeeper;
pub use order::{are_in_order, do_keys_rise};
pub use row::{LoadRow, ObsRow, ObsRow2, OfficeRow, Row, RowContent, Rows};
pub use steady_keeper::SteadyKeeper;
pub use told::told_tables_are_exact;
