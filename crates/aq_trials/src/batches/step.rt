//! Batches that a keeper takes, and the rows that then stand. A line adds to the next step, or takes it:
//!
//! - `put ROW` and `drop KEY` add to the batch, and `row ROW` to the rows that have to stand after it
//! - `each COUNT LINE` is so many of these lines, with a number from 0 on for each `#`
//! - `taken`: the batch is committed, and these rows stand
//! - `refused`: the batch fails, and these rows stand
use crate::batches::{cut_at, wrong};
use crate::rows::{read_key, read_row};
use aq_keeper::{Keeper, KeeperFault, Row, RowChange, do_keys_rise};
use std::alloc::Global;
use std::io;

/// What the lines since the last step say.
#[derive(Drop)]
pub struct Step {
    pub batch: Vec<RowChange>,
    pub rows: Vec<Row>,
}

impl Step {
    pub fn new(alloc: Global) -> Step {
        Step {
            batch: Vec::new(alloc),
            rows: Vec::new(alloc),
        }
    }
}

/// Takes the steps of some lines. Answers whether all is as they say, and leaves what they say behind the last
/// one.
pub fn take_steps<K: Keeper>(
    alloc: Global,
    keeper: &mut K,
    lines: &str,
    step: &mut Step,
) -> io::Result<bool> {
    for line in lines.lines() {
        if !take_line(alloc, keeper, line, step)? {
            return Ok(false);
        }
    }
    Ok(true)
}

fn take_line<K: Keeper>(
    alloc: Global,
    keeper: &mut K,
    line: &str,
    step: &mut Step,
) -> io::Result<bool> {
    let is_well = match line {
        "taken" => is_taken(alloc, keeper, step)?,
        "refused" => is_refused(alloc, keeper, step)?,
        _ => {
            add_lines(alloc, step, line)?;
            return Ok(true);
        }
    };
    step.batch.clear();
    step.rows.clear();
    Ok(is_well)
}

fn add_lines(alloc: Global, step: &mut Step, line: &str) -> io::Result<()> {
    let Some(rest) = line.strip_prefix("each ") else {
        return add(alloc, step, line);
    };
    let Some((word, line)) = rest.split_once(' ') else {
        return Err(wrong());
    };
    match word.parse() {
        Ok(count) => add_each(alloc, step, count, line),
        Err(_) => Err(wrong()),
    }
}

fn add_each(alloc: Global, step: &mut Step, count: u16, line: &str) -> io::Result<()> {
    for number in 0..count {
        add_numbered(alloc, step, number, line)?;
    }
    Ok(())
}

fn add_numbered(alloc: Global, step: &mut Step, number: u16, line: &str) -> io::Result<()> {
    let number = format!(in alloc; "{number}")?;
    let line = line.replace(alloc, "#", number.as_str())?;
    add(alloc, step, line.as_str())
}

fn add(alloc: Global, step: &mut Step, line: &str) -> io::Result<()> {
    let (word, rest) = cut_at(line, " ")?;
    match word {
        "put" => step.batch.push(RowChange::put(read_row(alloc, rest)?))?,
        "drop" => step.batch.push(RowChange::drop(read_key(alloc, rest)?))?,
        "row" => step.rows.push(read_row(alloc, rest)?)?,
        _ => return Err(wrong()),
    }
    Ok(())
}

fn is_taken<K: Keeper>(alloc: Global, keeper: &mut K, step: &Step) -> io::Result<bool> {
    if commit(alloc, keeper, &step.batch).is_err() {
        return Ok(false);
    }
    reads(alloc, keeper, &step.rows)
}

fn is_refused<K: Keeper>(alloc: Global, keeper: &mut K, step: &Step) -> io::Result<bool> {
    if commit(alloc, keeper, &step.batch) != Err(KeeperFault::Failed) {
        return Ok(false);
    }
    reads(alloc, keeper, &step.rows)
}

/// Commits a batch. One whose keys do not rise is neither taken nor refused: it is told as want of memory.
pub fn commit<K: Keeper>(
    alloc: Global,
    keeper: &mut K,
    batch: &[RowChange],
) -> Result<(), KeeperFault> {
    if !do_keys_rise(batch) {
        return Err(KeeperFault::Memory);
    }
    keeper.commit(alloc, batch)
}

/// Whether a keeper reads these rows, in this order, with all their fields.
pub fn reads<K: Keeper>(alloc: Global, keeper: &mut K, rows: &[Row]) -> io::Result<bool> {
    let found = text_read(alloc, keeper)?;
    let wanted = text_of(alloc, rows)?;
    Ok(found.as_str() == wanted.as_str())
}

/// The rows that a keeper reads; no text if it is refused.
pub fn text_read<K: Keeper>(alloc: Global, keeper: &mut K) -> io::Result<String> {
    match keeper.read_all(alloc) {
        Ok(rows) => text_of(alloc, rows.as_slice()),
        Err(_) => Ok(String::new(alloc)),
    }
}

/// Rows in their order, with all their fields.
pub fn text_of(alloc: Global, rows: &[Row]) -> io::Result<String> {
    Ok(format!(in alloc; "{rows:?}")?)
}

/// Whether a keeper fails at both calls.
pub fn fails<K: Keeper>(alloc: Global, keeper: &mut K) -> bool {
    let cannot_read = matches!(keeper.read_all(alloc), Err(KeeperFault::Failed));
    let answer = commit(alloc, keeper, &[]);
    cannot_read && answer == Err(KeeperFault::Failed)
}
