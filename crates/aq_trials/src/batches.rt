//! Batches that the keepers of `aq_sqlite` take, over a database on a disk in memory and over a real file.
//!
//! - A file whose name ends with `.batches` has cases with a blank line between them: a name, the statements of
//!   what stands before (`sql`), and steps as `step` describes them. Each is tried over both keepers. What is
//!   left of a batch at the end is stopped at each call of the disk in memory.
//! - One whose name ends with `.databases` has databases, one in each line: a name, what becomes of it as its tables
//!   are prepared, and its statements. It is `refused`, or as many tables and views stand as two numbers say. Behind
//!   `wrong` the last statement is refused, and the tables are then prepared.
mod database;
mod file;
mod job;
mod step;
mod stops;

use crate::tally::Tally;
pub use database::new_keeper;
use database::{Stoppable, Stops, ends, keeps};
use file::{excludes, leaves_what_is_no_database};
use job::End;
use std::alloc::Global;
use std::io::{self, ErrorKind};

/// Tries the cases of a text over both keepers.
pub fn try_batches(rt: &HostRuntime, text: &str, tally: &mut Tally) -> io::Result<()> {
    try_batches_over::<Stoppable>(rt, text, tally)
}

fn try_batches_over<D: Stops>(rt: &HostRuntime, text: &str, tally: &mut Tally) -> io::Result<()> {
    for case in text.trim_end().split("\n\n") {
        try_batch::<D>(rt, case, tally)?;
    }
    Ok(())
}

fn try_batch<D: Stops>(rt: &HostRuntime, case: &str, tally: &mut Tally) -> io::Result<()> {
    let (name, rest) = cut_at(case, "\nsql")?;
    let (sql, steps) = cut_at(rest, "\n")?;
    let is_kept = keeps::<D>(rt.alloc(), sql, steps)?;
    tell(rt, name, is_kept, tally)?;
    let is_kept = excludes::<D>(rt, sql, steps)?;
    tell(rt, "and over a file", is_kept, tally)
}

/// Tries the databases of a text, and a file that is none.
pub fn try_databases(rt: &HostRuntime, text: &str, tally: &mut Tally) -> io::Result<()> {
    try_databases_over::<Stoppable>(rt, text, tally)?;
    let is_left = leaves_what_is_no_database(rt)?;
    tell(
        rt,
        "a_file_that_is_no_database_is_refused_and_stays",
        is_left,
        tally,
    )
}

fn try_databases_over<D: Stops>(rt: &HostRuntime, text: &str, tally: &mut Tally) -> io::Result<()> {
    for line in text.lines() {
        let (name, rest) = cut_at(line, " ")?;
        let is_well = becomes::<D>(rt.alloc(), rest)?;
        tell(rt, name, is_well, tally)?;
    }
    Ok(())
}

/// Whether a database becomes what its line says.
fn becomes<D: Stops>(alloc: Global, line: &str) -> io::Result<bool> {
    let (sql, end) = end_of(line)?;
    Ok(ends::<D>(alloc, sql, end))
}

/// The statements of a line, and what becomes of their database.
fn end_of(line: &str) -> io::Result<(&str, End<'_>)> {
    let (word, rest) = cut_at(line, " ")?;
    match word {
        "refused" => Ok((rest, End::Refused)),
        "wrong" => match rest.rsplit_once("; ") {
            Some((front, last)) => Ok((front, End::Wrong(last))),
            None => Err(wrong()),
        },
        _ => {
            let (views, sql) = cut_at(rest, " ")?;
            match (word.parse(), views.parse()) {
                (Ok(tables), Ok(views)) => Ok((sql, End::Leaves(tables, views))),
                _ => Err(wrong()),
            }
        }
    }
}

/// Counts a case and prints how it came out.
fn tell(rt: &HostRuntime, name: &str, is_well: bool, tally: &mut Tally) -> io::Result<()> {
    tally.add(is_well);
    if is_well {
        println!(rt; "ok {name}")
    } else {
        println!(rt; "DIFFERS {name}")
    }
}

/// A line that is no row, or no step.
fn wrong() -> io::Error {
    io::Error::from(ErrorKind::InvalidData)
}

/// What stands before a mark and after it.
fn cut_at<'a>(line: &'a str, mark: &str) -> io::Result<(&'a str, &'a str)> {
    match line.split_once(mark) {
        Some(parts) => Ok(parts),
        None => Err(wrong()),
    }
}
