//! A case that is tried.
ghost use Rattle.std.specs.Prelude.{◌≡◌, true, map, IfOk};
ghost use Rattle.aq_rules.specs.Kept.RowChanges.{row_key, keys_rise};

use crate::asked::try_asked;
use crate::calls::try_calls;
use crate::lent::LentKeeper;
use crate::taking::TakingKeeper;
use aq_base::Memory;
use aq_journal::{JournalKeeper, MemoryDisk};
use aq_keeper::{Keeper, MemoryKeeper, Row, are_in_order};
use aq_outside::{MemoryDoor, MemorySink, MemorySource};
use aq_trials::{
    Case, Extent, Failing, Given, Place, Run, Subject, Trouble, Wanted, difference, new_keeper,
    read_rows, rows_text,
};
use std::alloc::Global;

/// What a run answered and wrote.
#[derive(Drop)]
struct Outcome {
    status: u8,
    output: Vec<u8>,
    errors: Vec<u8>,
    replies: Vec<Vec<u8>>,
}

/// The first difference of a case, in words, if there is one.
pub fn try_case(alloc: Global, case: Case) -> Result<Option<String>, Memory> {
    let Case {
        name: _,
        wrong,
        rows,
        failing_keeper,
        place,
        calls,
        runs,
    } = case;
    if let Some((number, why)) = wrong {
        return Ok(Some(format!(in alloc; "its line {number}: {why}")?));
    }
    if calls.is_empty() && runs.is_empty() {
        return said(alloc, "it says nothing");
    }
    if let Some(found) = try_calls(alloc, calls.as_str())? {
        return Ok(Some(found));
    }
    match place {
        Place::Memory => match rows_in_order(alloc, &rows) {
            Ok(rows) => {
                let mut keeper = MemoryKeeper::new(rows, failing_keeper);
                try_runs(alloc, runs, &mut keeper)
            }
            Err(trouble) => said_of(alloc, trouble),
        },
        Place::Database => match new_keeper(alloc) {
            Some(mut keeper) => try_runs(alloc, runs, &mut keeper),
            None => said(alloc, "the database cannot be opened"),
        },
        Place::Journal => {
            let disk = MemoryDisk::new(Vec::new(alloc), failing_keeper);
            let mut keeper = JournalKeeper::new(disk);
            try_runs(alloc, runs, &mut keeper)
        }
        Place::Nowhere => match rows_in_order(alloc, &rows) {
            Ok(rows) => {
                let mut keeper = MemoryKeeper::new(rows, failing_keeper);
                try_taking(alloc, runs, &mut keeper)
            }
            Err(trouble) => said_of(alloc, trouble),
        },
    }
}

/// The rows of a text, which have to be in the order of tables and keys.
fn rows_in_order(alloc: Global, text: &[u8]) -> Result<Vec<Row>, Trouble>
    ensures { IfOk result (λ rows. keys_rise (map row_key rows.items) ≡ true) }
{
    let rows = read_rows(alloc, text)?;
    if are_in_order(&rows) {
        Ok(rows)
    } else {
        Err(Trouble::Wrong("the rows are not in order"))
    }
}

/// What is wrong with the rows of a case.
fn said_of(alloc: Global, trouble: Trouble) -> Result<Option<String>, Memory> {
    match trouble {
        Trouble::Memory => Err(Memory),
        Trouble::Wrong(why) => said(alloc, why),
    }
}

fn said(alloc: Global, text: &str) -> Result<Option<String>, Memory> {
    Ok(Some(String::from_str(alloc, text)?))
}

/// The first difference of runs over a keeper.
fn try_runs<K: Keeper>(
    alloc: Global,
    runs: Vec<Run>,
    keeper: &mut K,
) -> Result<Option<String>, Memory> {
    let mut number = 0u32;
    let mut before = Vec::new(alloc);
    for run in runs {
        number = number.saturating_add(1);
        if let Some(found) = try_run(alloc, run, keeper, &mut before)? {
            return Ok(Some(format!(in alloc; "run {number}: {found}")?));
        }
    }
    Ok(None)
}

/// The first difference of runs over a keeper, but for the last one: its keeper gives the rows that stand
/// then, and takes every batch.
fn try_taking<K: Keeper>(
    alloc: Global,
    runs: Vec<Run>,
    keeper: &mut K,
) -> Result<Option<String>, Memory> {
    let mut runs = runs;
    let Some(last) = runs.pop() else {
        return said(alloc, "there is no last run");
    };
    if let Some(found) = try_runs(alloc, runs, keeper)? {
        return Ok(Some(found));
    }
    let Ok(rows) = keeper.read_all(alloc) else {
        return said(alloc, "the tables cannot be read");
    };
    let mut taking = TakingKeeper::new(rows);
    let Some(found) = try_run(alloc, last, &mut taking, &mut Vec::new(alloc))? else {
        return Ok(None);
    };
    Ok(Some(format!(in alloc; "the last run: {found}")?))
}

/// The first difference of a run. What the run before wrote on the output gives way to what this one does.
fn try_run<K: Keeper>(
    alloc: Global,
    run: Run,
    keeper: &mut K,
    before: &mut Vec<u8>,
) -> Result<Option<String>, Memory> {
    let Run {
        words,
        given,
        status,
        wanted,
    } = run;
    let Some(status) = status else {
        return said(alloc, "no status is wanted");
    };
    let outcome = perform(alloc, &words, given, keeper)?;
    if outcome.status != status {
        let found = outcome.status;
        let told = String::from_utf8_lossy(alloc, &outcome.errors)?;
        return Ok(Some(format!(in alloc; "status {found}, wanted {status}: {told}")?));
    }
    for one in &wanted {
        if let Some(found) = compare(alloc, one, &outcome, before, keeper)? {
            return Ok(Some(found));
        }
    }
    *before = outcome.output;
    Ok(None)
}

/// Runs the program's words over what is given.
fn perform<K: Keeper>(
    alloc: Global,
    words: &[String],
    given: Given,
    keeper: &mut K,
) -> Result<Outcome, Memory> {
    let Given {
        input,
        connections,
        failing,
        room,
    } = given;
    let Failing {
        input: failing_reads,
        output: failing_writes,
        errors: failing_errors,
        accepts,
        transfers,
    } = failing;
    let count = connections.len();
    let mut door = MemoryDoor::new(alloc, connections, room.connection, accepts, transfers)?;
    let mut input = MemorySource::new(input, failing_reads);
    let mut output = MemorySink::new(alloc, room.output, failing_writes)?;
    let mut errors = MemorySink::new(alloc, room.errors, failing_errors)?;
    let mut lent = LentKeeper::new(keeper);
    let status = aq_desk::run(
        alloc,
        words,
        &mut lent,
        &mut door,
        &mut input,
        &mut output,
        &mut errors,
    );
    Ok(Outcome {
        status,
        output: output.written().to_vec(alloc)?,
        errors: errors.written().to_vec(alloc)?,
        replies: replies_of(alloc, &door, count)?,
    })
}

/// What was written on each of so many connections.
fn replies_of(alloc: Global, door: &MemoryDoor, count: usize) -> Result<Vec<Vec<u8>>, Memory> {
    let mut replies = Vec::new(alloc);
    for connection in 0..count {
        let written = door.written(connection).unwrap_or(b"");
        replies.push(written.to_vec(alloc)?)?;
    }
    Ok(replies)
}

/// The first difference from one thing that is wanted.
fn compare<K: Keeper>(
    alloc: Global,
    wanted: &Wanted,
    outcome: &Outcome,
    before: &[u8],
    keeper: &mut K,
) -> Result<Option<String>, Memory> {
    let (extent, text) = (wanted.extent, wanted.text.as_slice());
    match wanted.subject {
        Subject::Output => {
            let text = if extent == Extent::Again {
                before
            } else {
                text
            };
            let found = difference(alloc, extent, text, &outcome.output)?;
            told(alloc, "output", found)
        }
        Subject::Errors => {
            let found = difference(alloc, extent, text, &outcome.errors)?;
            told(alloc, "errors", found)
        }
        Subject::Replies(place) => match outcome.replies.get(place) {
            Some(written) => {
                let found = difference(alloc, extent, text, written)?;
                told(alloc, "replies", found)
            }
            None => said(alloc, "there is no such connection"),
        },
        Subject::Tables => compare_tables(alloc, extent, text, keeper),
        Subject::Asked => ask_office(alloc, text, keeper),
    }
}

/// The first difference of a keeper's rows.
fn compare_tables<K: Keeper>(
    alloc: Global,
    extent: Extent,
    wanted: &[u8],
    keeper: &mut K,
) -> Result<Option<String>, Memory> {
    let rows = match keeper.read_all(alloc) {
        Ok(rows) => rows_text(alloc, rows.as_slice())?,
        Err(_) => return said(alloc, "the tables cannot be read"),
    };
    let found = difference(alloc, extent, wanted, rows.as_bytes())?;
    told(alloc, "tables", found)
}

/// The first difference of calls over the office of a keeper's rows.
fn ask_office<K: Keeper>(
    alloc: Global,
    calls: &[u8],
    keeper: &mut K,
) -> Result<Option<String>, Memory> {
    let (Ok(rows), Ok(calls)) = (keeper.read_all(alloc), str::from_utf8(calls)) else {
        return said(alloc, "the tables cannot be read");
    };
    let found = try_asked(alloc, rows.as_slice(), calls)?;
    told(alloc, "asked", found)
}

/// A difference, with the name of what differs.
fn told(alloc: Global, name: &str, difference: Option<String>) -> Result<Option<String>, Memory> {
    match difference {
        None => Ok(None),
        Some(text) => Ok(Some(format!(in alloc; "{name}: {text}")?)),
    }
}
