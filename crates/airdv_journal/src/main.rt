//! The program over a journal: it hands the keeper of the file `airdv.journal` to aq_desk, which
//! obeys the words. Its commands are those of `airdv`; its file is a plain one of which `docs/USING.md`
//! defines every byte.
//!
//! # What it has
//!
//! - `main`: a journal (aq_journal) over the disk of that file (`FileDisk` of aq_file, opened by `AtName`),
//!   handed to `run_over`.
//!
//! # What it promises
//!
//! - What is promised of a journal stands in the door page of aq_journal, and of the commands in that of
//!   aq_desk. The disk of the file tells its bytes, so the keeper tells its tables from its first call on,
//!   under one premise: what is read is what an honest file held (`is_clean` of the kit). What the kit's
//!   trait of a disk says of a write, a sync and a crash is trusted of a real file. The type that `main`
//!   names says nothing of what the file holds (`Unknown`).
//! - `main` has no contract: which file is opened, and that it hands on the keeper and ends with the
//!   status, are trusted, and tried on the built program by `bin/tries-journal`.
//!
//! # An example
//!
//! ```sh
//! bin/build journal
//! journal=$PWD/crates/airdv_journal/out/airdv_journal samples=$PWD/samples; cd $(mktemp -d)
//! $journal load 1 < $samples/two-sites.txt
//! head -c 8 airdv.journal    # AIRDVJ01
//! ```
#![tactic(auto)]

use aq_desk::program::run_over;
use aq_file::{AtName, FileDisk, Unknown};
use aq_journal::JournalKeeper;
use std::process::ExitCode;

/// The file of the journal, in the working folder. It is made at the keeper's first call.
const FILE: &str = "airdv.journal";

fn main(rt: HostRuntime) -> ExitCode {
    let file = AtName::<Unknown>::new(&rt, FILE);
    let keeper = JournalKeeper::new(FileDisk::new(rt.alloc(), file));
    run_over(rt, keeper)
}
