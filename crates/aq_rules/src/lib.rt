//! The book of rules: the definitions in `specs/` say what the program must compute and keep, and all
//! other rooms are held against them. This is what a reviewer reads and believes; `docs/RULES.md` has
//! each rule in plain words, with its place in the standard. The functions in `src/` are laws: they do
//! nothing when they run, and show that a definition means what a reader expects.
//!
//! # What it has
//!
//! - `Lines`, `Office`: the forms of lines and the rules of reading; what stands, what is asked of it,
//!   loads.
//! - `Ozone`, `Particles`: values, averages, days, quarters and years, percentiles, estimates, verdicts.
//! - `Kept`: summaries of quarters and years, rows and their changes, migration, and what reads what.
//! - `WhatIf`, `Combined`, `Areas`: assumed concurrences, combined sites, areas and their history.
//! - `Shown`: sheets with their text and JSON, exports, answers, the generated loads.
//! - `Listed`, `Extracts`: what stands and the days behind a number, listed; what an extract changes.
//! - `Questions`: the table of questions, read in words and in paths, and the answer to each.
//!
//! # What it promises
//!
//! - A load leaves a valid office valid: each line, all lines of a body, and the load's own row
//!   (`lines_leave_the_office_valid`, `loads_leave_the_office_valid`).
//! - A line has a value exactly if it breaks no reading rule; its rule is the first that it breaks; a
//!   canonical line is read as the value that it prints.
//! - A refused line, and a load that is not taken, change nothing.
//! - The batch of a load, done to the rows of the office before, gives the rows of the office after,
//!   with the load's own row last (`batch_gives_the_rows_after`).
//! - The rows of an office give it back; a list of rows is an office's exactly if no row is damaged; the
//!   batch of a migration, done to rows of version 1, gives the migrated rows, which are an office's.
//! - A site's value for an hour, its value for a day and its export are the same without the methods of
//!   the observations. An ozone hour that no changed row reaches is as before
//!   (`hours_out_of_reach_are_as_before`).
//! - The PM2.5 verdicts on lists of values are those on the sums, counts and eight greatest that are
//!   kept.
//! - The sheets of loads, windows, days, quarters, values and reports of a valid office are well formed. So are
//!   the lists of what stands and of the days behind a number, and the sheets of decisive events and areas if
//!   their numbers are of 64 bits. A report's row says what the value sheet of its site says, and the fields of
//!   an export of a valid office need no quotes.
//! - Records and observations of a valid office that are printed as lines load back, piece by piece
//!   (`records_load_back`, `observations_load_back`). A load of what an extract changes is accepted line by
//!   line, whole or piece by piece, and brings what stands up to date; the same extract then changes nothing
//!   (`extracts_bring_up_to_date`).
//! - The words of a question and the parts of its path are two readings of one row of the table
//!   (`words_and_paths_ask_alike`), and what they ask is in range (`questions_asked_are_in_range`).
//! - A standard is met only by a design value at or below its level, and that of ozone or PM2.5 is not
//!   met only by one above it.
//!
//! # An example
//!
//! A contract of a room names a definition of the book, here `rank_of` in `Particles/Percentile`:
//!
//! ```rust
//! pub fn rank_of(counted: u16) -> u8
//!     ensures rank { result ≡ rank_of counted }
//! ```
#![tactic(auto)]

pub mod areas;
pub mod combined;
pub mod extracts;
pub mod kept;
pub mod lines;
pub mod listed;
pub mod lists;
pub mod office;
pub mod ozone;
pub mod particles;
pub mod questions;
pub mod shown;
pub mod standards;
pub mod what_if;
