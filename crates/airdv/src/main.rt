//! The program: it hands the keeper of the file `airdv.sqlite` to aq_desk, which obeys the words. The
//! file stands in the working folder, and is made by the first command that opens it. `docs/COMMANDS.md`
//! has the commands, and `docs/PROVED.md` what is promised of them.
//!
//! # What it has
//!
//! - `main`: the keeper of that file (`LateKeeper` of aq_sqlite, opened by `AtPath`), handed to
//!   `run_over`.
//!
//! # What it promises
//!
//! - All that is proved is proved of `obey` in aq_desk, over any keeper. The keeper of the file tells
//!   its tables from its first call on, over any contents of an office or of nobody, under one premise:
//!   what is read is what honest files held (`HasCleanDisk` of the kit). So what is said of told tables
//!   is said over the file. The type that `main` names says nothing of what the file holds (`Unknown`).
//! - `main` has no contract: which file is opened, that it hands on the keeper and ends with the status,
//!   and the close are trusted, and tried on the built program by `bin/tries`, `bin/tries-file`,
//!   `bin/tries-serve` and `bin/tries-memory`.
//!
//! # An example
//!
//! ```sh
//! bin/build
//! airdv=$PWD/bin/airdv samples=$PWD/samples; cd $(mktemp -d)
//! $airdv load 1 < $samples/two-sites.txt
//! $airdv report O3-2015 2024
//! ```
#![tactic(auto)]

use aq_desk::program::{run_over, without_memory};
use aq_sqlite::{AtPath, FileKeeper, Holds, LateKeeper, Unknown};
use std::process::ExitCode;

/// The file of the tables, in the working folder. It is made at the keeper's first call.
const FILE: &str = "airdv.sqlite";

fn main(rt: HostRuntime) -> ExitCode {
    run_from::<Unknown>(rt)
}

/// Runs over the file, whatever it holds at first.
fn run_from<S: Holds>(rt: HostRuntime) -> ExitCode {
    let Ok(path) = String::from_str(rt.alloc(), FILE) else {
        return without_memory(rt);
    };
    let keeper: FileKeeper<'_, S> = LateKeeper::new(AtPath::new(&rt, path));
    run_over(rt, keeper)
}
