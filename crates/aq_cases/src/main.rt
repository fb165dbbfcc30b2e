//! A program for the gate alone: it runs the cases that stand in files of `data/` over sources, sinks,
//! doors and keepers in memory, and prints a line for each. A case says which words and lines go in, and
//! what has to come out. Batches are tried over databases too, one of them in a real file.
//!
//! # What it has
//!
//! - `data/*.txt`: the cases, plain text that a reviewer can read. `format` of `aq_trials` says how one is
//!   written.
//! - `data/kept.batches` and `data/others.databases`: batches over databases, and databases that are refused.
//!   `batches` of `aq_trials` says how they are written.
//! - `data/index.txt`: the files that are run if the words name none. A file of `data/` that it does not name
//!   counts as a failure.
//! - `stdout`: a line for each case; the gate compares it, as two compilers build the program.
//!
//! # What it promises
//!
//! - Of `TakingKeeper`, a keeper that tells nothing: it gives its rows once, fails at each later reading, and
//!   takes every batch.
//! - Of the cases nothing: no contract says what they are. It ends with 1 if one differs. Expected values come
//!   from the standard by hand, never from the program.
//!
//! # An example
//!
//! `rt try` proves nothing, and runs the cases of one file in its folder by
//!
//! ```sh
//! rt try -- data/scan.txt
//! ```
#![tactic(auto)]

mod asked;
mod calls;
mod generated;
mod lent;
mod taking;
mod trial;

use aq_base::Memory;
use aq_trials::{Case, Tally, read_cases, try_batches, try_databases};
use generated::expanded;
use std::alloc::Global;
use std::io::ErrorKind;
use std::process::ExitCode;
use std::{env, fs, io};
use trial::try_case;

fn main(rt: HostRuntime) -> io::Result<ExitCode> {
    let mut tally = Tally {
        cases: 0,
        failures: 0,
    };
    let names: Vec<String> = env::args(&rt)?.skip(1).collect(rt.alloc())?;
    if names.is_empty() {
        let index = fs::read_to_string(&rt, "index.txt")?;
        for name in index.lines() {
            try_file(&rt, name, &mut tally)?;
        }
        see_all_named(&rt, index.as_str(), &mut tally)?;
    }
    for name in &names {
        try_file(&rt, name.as_str(), &mut tally)?;
    }
    println!(rt; "{} cases, {} failures", tally.cases, tally.failures)?;
    Ok(ExitCode::from(u8::from(tally.failures > 0)))
}

/// Sees that the index names each file that stands beside it.
fn see_all_named(rt: &HostRuntime, index: &str, tally: &mut Tally) -> io::Result<()> {
    for entry in fs::read_dir(rt, ".")? {
        let entry = entry?;
        let name = entry.file_name();
        if name != "index.txt" && !index.lines().any(|line| line == name) {
            tally.failures = tally.failures.saturating_add(1);
            println!(rt; "DIFFERS index.txt: it does not name {name}")?;
        }
    }
    Ok(())
}

/// Tries the cases of a file.
fn try_file(rt: &HostRuntime, name: &str, tally: &mut Tally) -> io::Result<()> {
    let text = fs::read_to_string(rt, name)?;
    println!(rt; "# {name}")?;
    if name.ends_with(".batches") {
        return try_batches(rt, text.as_str(), tally);
    }
    if name.ends_with(".databases") {
        return try_databases(rt, text.as_str(), tally);
    }
    let text = known(expanded(rt.alloc(), text.as_str()))?;
    let cases = known(read_cases(rt.alloc(), text.as_str()))?;
    for case in cases {
        try_one(rt, case, tally)?;
    }
    Ok(())
}

/// Tries a case, and prints its line.
fn try_one(rt: &HostRuntime, case: Case, tally: &mut Tally) -> io::Result<()> {
    let alloc: Global = rt.alloc();
    let name = case.name.clone()?;
    let difference = known(try_case(alloc, case))?;
    tally.add(difference.is_none());
    match difference {
        None => println!(rt; "ok {name}"),
        Some(difference) => println!(rt; "DIFFERS {name}: {difference}"),
    }
}

/// A value, or want of memory as the system says it.
fn known<T: Drop>(value: Result<T, Memory>) -> io::Result<T> {
    match value {
        Ok(value) => Ok(value),
        Err(Memory) => Err(io::Error::from(ErrorKind::OutOfMemory)),
    }
}
