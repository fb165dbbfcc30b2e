//! A file of the host as the disk of a journal. It is opened by the disk's first `refresh`, and no second program
//! has it until it is dropped or let go.
//!
//! # What it has
//!
//! - [`FileDisk`]: the disk of a file, over any file that does as the trait `Disk` of the kit's sqlite_disk says,
//!   and any [`Opener`], which opens it and knows what it holds. The calls are those of the trait `Disk` of
//!   aq_journal.
//! - [`AtName`]: the opener of a file of the working folder by its name, and [`HostDisk`]: its disk. What the
//!   file holds is a parameter, a type of [`FirstBytes`]; `main` names [`Unknown`].
//!
//! # What it promises
//!
//! - `FileDisk` meets each clause of the trait `Disk`, over any file and any opener. So a sync that is passed
//!   over, a write that is cut short, a read from another place, and a file that is emptied as it is opened are
//!   refused by its contracts.
//! - It tells its bytes from its making on: those that the opener knows of, and from the opening on those of
//!   the file. The one premise is that what is read is what an honest file held: once an answer of the file was
//!   wrong (`is_clean` of the kit), it tells nothing any more. So a keeper of aq_journal over it tells its tables
//!   from its first call.
//! - A call that the file refuses is counted once, and what it answers is passed on: the count of faults rises
//!   at a call that fails, and at no other. Want of memory may come at a `refresh` alone, and is no fault.
//! - After a sync that failed, and once it was let go, no call is answered. That is proved of the private
//!   `LateFile` (`shut`, `doubt`), and that `let_go` gives the file up of `FileDisk` (`gone`).
//! - Where a sync fails, a system may keep what was written as if it stood: it answers the next sync, and gives
//!   in a read what the disk does not have. So the opening syncs the file and its folder, and drops the system's
//!   copies; a file in doubt is kept until the disk is dropped, so only what opens it anew finds out what stands.
//!
//! # What is trusted
//!
//! - That `AtName` opens the file of its name, and how long it waits for one that another program has. It opens
//!   by the kit's sqlite_std_file, which makes and locks two files, as of a database and its log. The log, the
//!   name with `-wal`, stays empty. Its README says what is trusted of the calls, of the lock, and of the system
//!   that drops the copies when it is told to.
//! - What the kit's trait says of a write, a sync and a crash, of a real file.
//!
//! # An example
//!
//! ```rust
//! let file = AtName::<Unknown>::new(&rt, "airdv.journal");
//! let mut keeper = JournalKeeper::new(FileDisk::new(rt.alloc(), file));
//! let rows = keeper.read_all(rt.alloc())?;
//! ```
#![tactic(auto)]

mod at_name;
mod file_disk;
mod late_file;
mod opener;

pub use at_name::{AtName, FirstBytes, HostDisk};
pub use file_disk::FileDisk;
pub use opener::Opener;
pub use sqlite_disk::Unknown;
