//! A journal of batches over a disk, of which each byte is defined: the disk with what a crash may leave
//! of it, the bytes of a journal both ways, and the keeper whose tables are those of the journal.
//! `airdv_journal` stands on it; `docs/USING.md` has the bytes.
//!
//! # What it has
//!
//! - `Disk`: a file of bytes that is read, written and synced, and what a crash leaves of it.
//! - `MemoryDisk`: one in memory, which fails at the calls that it is told to; `bytes` shows what it
//!   has.
//! - `JournalKeeper`: the keeper over a disk, made by `new`; `disk` shows what is beneath it.
//! - `batches_are_read_back`, `journals_are_read_back`, `what_is_acknowledged_outlives_a_crash`: laws.
//! - In `specs/`: `JournalFormat`, the bytes of a journal, and the words for a crash.
//!
//! # What it promises
//!
//! - A batch that is written is read back, and what is read as one was written so, so no two batches
//!   have the same bytes; the same of a journal (`batches_are_read_back`, `journals_are_read_back`).
//! - Over a disk that tells its bytes, the keeper tells the tables of its journal: what it reads is that
//!   (`rows`), a commit that answers `Ok` is the batch done to the tables (`done`), and after any other
//!   answer they are as before (`kept`).
//! - A disk may stop telling within a call, as a file does of which an answer was wrong, and never begins to.
//!   So what is told, and what a crash leaves, is said of a disk that tells still as the call ends (`IfTells`).
//! - The keeper refreshes the disk first of all. Until that was answered a crash leaves only what it could
//!   leave before. From then on a crash at any moment, during a call or between two, leaves a disk whose
//!   tables are those told before, or those with one batch more: that of the commit, or of one that failed
//!   since the last call that answered `Ok` (`crash`, `left`, `settled`). So a test that the tables pass
//!   after a call that answered `Ok`, as that the row of a load stands, is passed by whatever a crash may
//!   leave from then on, if each later batch spares it (`what_is_acknowledged_outlives_a_crash`).
//! - It fails only where the disk failed, no tables are told (the file is no journal, or the disk tells no more),
//!   the batch is too great, or its tables were let go (`why`), and its count of faults rises exactly where it
//!   answers `Failed` (`cause`).
//! - After `let_go` each call is `Failed` (`gone`). What was told stays told, and a crash leaves what it could
//!   leave before: for the law on crashes it is a call that reads.
//! - All this rests on what the trait `Disk` says of a write, a sync and a crash. The disk in memory keeps it
//!   (`MemoryDisk`), and so does the disk of a file (`FileDisk` of aq_file), over what the kit says of one.
//! - Of a sync that fails the trait promises nothing. What was written before it and not again may stand or
//!   not, whatever a read gives, and however many later syncs are answered (`once_synced`). Bytes that are
//!   written again and synced stand. All of the above is proved over that: before anything rests on bytes
//!   that a failed sync left in doubt, the keeper writes them again.
//! - After a `refresh` that is answered a crash leaves what a read gives, also of bytes that an earlier
//!   program left in doubt. The disk in memory forgets nothing: over it a sync does the same.
//!
//! # An example
//!
//! ```rust
//! let mut keeper = JournalKeeper::new(MemoryDisk::new(Vec::new(alloc), Vec::new(alloc)));
//! keeper.commit(alloc, &[RowChange::put(Row::load(row))])?;
//! assert!(rt; keeper.disk().bytes().starts_with(b"AIRDVJ01"));
//! assert_eq!(rt; keeper.read_all(alloc)?.as_slice().len(), 1);
//! ```
#![tactic(auto)]

mod calls;
mod crash;
mod disk;
mod gate;
mod journal;
mod journal_keeper;
mod laws;
mod memory_disk;
mod opening;
mod place;
mod reading;
mod scanning;
mod tables;
mod trouble;
mod writing;

pub use crash::what_is_acknowledged_outlives_a_crash;
pub use disk::Disk;
pub use journal_keeper::JournalKeeper;
pub use laws::{batches_are_read_back, journals_are_read_back};
pub use memory_disk::MemoryDisk;
