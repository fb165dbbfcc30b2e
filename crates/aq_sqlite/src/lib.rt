//! A keeper whose tables are those of an SQLite database: over any store of `sqlite`, or over a file,
//! which it opens at its first call. `airdv` keeps `airdv.sqlite` by it.
//!
//! # What it has
//!
//! - `SqliteKeeper`: the keeper over a connection; `adopt` takes it, `prepare` makes the tables or moves
//!   those of an earlier program, and `into_connection` gives it back.
//! - `LateKeeper`: the keeper that is opened at its first call, by an `Opener`. It tells its tables from
//!   its first moment, and shuts their store (`Closes`) as it lets them go or is dropped.
//! - `AtPath`: what opens the files at a path, once nobody else has them; it waits ten seconds.
//!   `Holds`: what a type says that they hold; `Unknown` is the one for `main` to name. `FileKeeper`:
//!   the late keeper of such files.
//! - `keeper_from`: the same opening by itself, over any first contents; `Refusal`: why not.
//! - `acknowledged_loads_outlive_a_crash`, `batches_spare_other_loads`: laws on what a crash leaves.
//!
//! # What it promises
//!
//! - From a `prepare` that answered `Ok` on, the keeper over `sqlite` tells its tables while its
//!   connection is open, in any store; so what is said over told tables holds over it (`SqliteKeeper`).
//! - What a crash leaves after any of its calls are the rows of the last batch that was acknowledged, or
//!   of one that failed since then (`acknowledged_loads_outlive_a_crash`). So each acknowledged load is
//!   in all that a crash may leave: no batch of another load or of a migration changes its row
//!   (`batches_spare_other_loads`).
//! - It takes the databases of an office, none of whose tables is missing, and of nobody, and leaves any
//!   other as it is. After an error nothing was committed (`prepare`).
//! - Want of memory is told as that, and everything else as a failure, which is counted.
//! - A call fails only for a reason that is named, while the disk is clean (`why`). The faults of the
//!   store rose, the connection was shut before, or the tables were let go. A `commit` also fails where a
//!   key has no number, or where SQLite refuses a statement of the batch behind those before it. A
//!   `read_all` also fails where a table is not read as one of ours. A `prepare` also fails where the file
//!   is none that it takes, or where SQLite refuses a statement that makes the tables.
//! - No transaction is left open by any call, and none is open before.
//! - Behind an opening what is told are the rows of the database that the files held, over any first
//!   contents, if what was read is what honest files held (`keeper_from`). So the keeper of a file tells
//!   from its first call on, and meets every clause of a keeper; an opening that is refused, or a fault
//!   that shuts the store, ends the telling (`LateKeeper`, `AtPath`).
//! - Behind `let_go` what was told stays told, and each other call fails.
//! - That the path is the one that was given, and what shutting a store does, no clause says.
//!
//! # An example
//!
//! ```rust
//! let mut keeper = SqliteKeeper::adopt(connection);
//! keeper.prepare(alloc)?;
//! keeper.commit(alloc, &batch)?;
//! let rows = keeper.read_all(alloc)?;
//! let mut of_a_file: FileKeeper<'_, Unknown> = LateKeeper::new(AtPath::new(&rt, path));
//! ```
#![tactic(auto)]

mod at_path;
mod crash;
mod from_start;
mod late_keeper;
mod sqlite_keeper;

pub use at_path::{AtPath, FileKeeper, Holds};
pub use crash::{acknowledged_loads_outlive_a_crash, batches_spare_other_loads};
pub use from_start::{Refusal, keeper_from};
pub use late_keeper::{Closes, LateKeeper, Opener};
pub use sqlite::Unknown;
pub use sqlite_keeper::SqliteKeeper;
