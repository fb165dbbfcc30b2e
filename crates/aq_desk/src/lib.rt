//! The desk: the top call `run`, which obeys the words of a command over a keeper, a door and three
//! streams, and whose clause `run` is the program's promise (`IsRun` in `specs/Run.antt`). `docs/PROVED.md`
//! tells it in words.
//!
//! # What it has
//!
//! - `run(alloc, words, keeper, door, input, output, errors)`: does what the words ask for, and answers
//!   the exit status.
//! - `perform`: does a command without the errors stream; `Stop`: what stops one, with its status.
//! - `Command`, `Draft`, `read_words`, `post`, `Posted`: handed on from aq_words and aq_office.
//! - `end_without_memory`: ends a program that had no memory for its words.
//! - `program`: what the programs share, `run` over their words and the host's streams and network.
//! - In `specs/`, what each command is: `Run`, and a module for each.
//!
//! # What it promises
//!
//! - The headline: for each command and each status, what is written, what the tables are after it, and
//!   over what rows and bytes that is said (`headline`, by `Runs`). Of `serve` it
//!   says what each connection was answered.
//! - The causes: 2 comes exactly if the words are no command; 3, 4, 5 and 8 come only if a count of
//!   faults rose, which else stays, but for the keeper's while `serve` answers 503; with 2, 3, 5, 6, 8,
//!   9, 10, 11 and 13 to 17 nothing is written on the output (`no_command`, `input_failed`,
//!   `output_failed`, `keeper_failed`, `door_failed`, `only_serve`, `silent`). 10 and the statuses after
//!   the input was read are tied to its size in the headline (`measured`).
//! - A command that reads its input reads at most one byte more than a body may have, and all of it
//!   where it read the body to its end (`read`).
//! - The message on the errors stream is that of the status (`tells`); without memory for the words it
//!   is that of 7 (`end_without_memory`). No status and no output depends on that stream.
//! - A command leaves as it was what it does not use (`unused_input`, `unused_keeper`, `unused_output`,
//!   `unused_door`).
//! - A command that prints has let the keeper's tables go when anything is written on the output
//!   (`gone`).
//! - `try` prints the reply that a load of the input would get, and `changes` the lines that bring what stands
//!   up to date with an extract. 17 comes only where a line of the extract breaks a rule, and its message
//!   names the first such line and the first rule that it breaks (`headline`, by `Draft` in `specs/`).
//! - A question commits nothing but a migration, and neither do `try` and `changes` (`only_migrates`).
//! - Over a keeper that tells its tables to the end, what is said of them is exact
//!   (`told_runs_are_exact`). If no count of faults rises, nothing is left out
//!   (`runs_without_faults_are_complete`).
//!
//! `docs/PROVED.md` has each of these in full.
//!
//! # An example
//!
//! ```rust
//! let mut keeper = SteadyKeeper::new(alloc);
//! let status = run(alloc, &words, &mut keeper, &mut door, &mut input, &mut output, &mut errors);
//! assert_eq!(rt; status, 0);
//! ```
#![tactic(auto)]

mod ask;
mod asked;
mod body;
mod command;
mod draft;
mod lack;
mod load;
mod messages;
mod office;
pub mod program;
mod scan;
mod serve;
mod simulate;
mod status;
mod stop;
mod writing;

pub use aq_office::{Posted, post};
pub use aq_words::{Command, Draft, read_words};
pub use command::{
    end_without_memory, perform, run, runs_without_faults_are_complete, told_runs_are_exact,
};
pub use status::statuses_are_these_numbers;
pub use stop::Stop;
