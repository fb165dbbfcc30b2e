//! How a case is written. A file of cases is text; `#` begins a remark, and an empty line means nothing.
//!
//! ```text
//! case six_hours_have_an_average
//! run scan 06-037-1103 2024-07-01
//! input
//!   XM|I|06|037|1103|44201|1|1|Y
//!   @hours 2024-07-01 10:00 6 RD|I|06|037|1103|44201|1|1|007|087|{date}|{time}|0.071
//! status 0
//! output has
//!   10:00 0.071 6 0.071 6
//! ```
//!
//! A line that begins with two spaces belongs to the block above it. Every other line begins with one of
//! these words:
//!
//! - `case NAME`: the next case begins. Its keeper is one for all its runs.
//! - `rows`, a block: the rows that the keeper has before the first run, as `rows` says in its module.
//! - `keeper fails at NUMBERS`: these calls of the keeper fail, counted from 1. Comparing its rows after a
//!   run is a call too.
//! - `keeper in a database`: it is that of `aq_sqlite`, over a new database on a disk in memory. Such a case
//!   has no `rows`.
//! - `keeper in a journal`: it is that of `aq_journal`, over a new disk in memory. Such a case has no `rows`, and
//!   what `keeper fails at` counts are the calls of that disk.
//! - `keeper takes every batch`: it tells nothing. It gives the `rows` at its first reading, fails at each later
//!   one, and takes every batch without keeping it. Such a case has no `keeper fails at`, and no `tables`.
//! - `calls`, a block: calls of single functions, `NAME ARGUMENTS => ANSWER`, by the names of `answers`. Its
//!   lines stand for themselves alone.
//! - `run WORDS`: the program's words, with one space between them.
//! - `input`, a block: what stands on the input. `input again` is that of the run before, and these lines.
//! - `connection`, a block: what comes on the next connection of the door.
//! - `status NUMBER`: the exit status that is wanted. Every run has one.
//! - `output`, `errors`, a block: what has to be written there. `replies`, a block: what has to be written
//!   on the connection above. `tables`, a block: the rows that the keeper has to have after the run. A word
//!   after them says less: that it `starts` or `ends` so, that it `has` each of these lines, `lacks` all of
//!   them, or `contains` each of them somewhere. `output again` is that of the run before. What a run does not
//!   speak of is not compared.
//! - `asked`, a block: calls over the office of the tables after the run, `CALL => ANSWER`, by the names of the
//!   module `asked`.
//! - `input`, `output`, `errors`, `door` or `transfer`, with `fails at NUMBERS`: these calls fail. Of the
//!   door `listen` and `accept` are counted, and of a transfer `read` and `write`.
//! - `output`, `errors` or `connection`, with `has room for NUMBER`: so many bytes can be written there.
//!
//! A line of a block ends with LF unless a backslash ends it. `\r`, `\n`, `\t` and `\\` are CR, LF, a tab and a
//! backslash, and `\xff` is a byte. These lines stand for many:
//!
//! - `@repeat COUNT LINE`
//! - `@count FIRST LAST LINE`, where `{n}`, `{n:02}` and `{n:04}` are the number, and `{n+14}` is one that is
//!   greater by 14.
//! - `@days DAY COUNT STEP LINE`, for so many days from `YYYY-MM-DD` on, each so many after the one before,
//!   where `{date}` is `YYYYMMDD`, `{day}` is `YYYY-MM-DD`, and `{n}` counts from 0.
//! - `@hours DAY TIME COUNT LINE`, for so many hours from `HH:00` of a day on, where `{time}` is `HH:00`.
//! - `@generated START SITES YEARS LOAD`, for all lines of the generated load of that number. `aq_cases` puts its
//!   spelling there before the text is read.
use crate::blocks::write_block_line;
use crate::case::{Case, Extent, Failing, Given, Place, Room, Run, Subject, Wanted};
use crate::trouble::Trouble;
use aq_base::Memory;
use std::alloc::Global;

/// So many bytes can be written if a case says nothing of it.
const ROOM: Room = Room {
    output: 1_000_000,
    errors: 10_000,
    connection: 100_000,
};

/// The block that the next lines belong to.
#[derive(Clone, Copy)]
enum Block {
    None,
    Rows,
    Calls,
    Input,
    Connection,
    Wanted,
}

const UNKNOWN: Trouble = Trouble::Wrong("no such words");

const NO_NUMBER: Trouble = Trouble::Wrong("no number");

const NO_CASE: Trouble = Trouble::Wrong("it stands before the first case");

const NO_RUN: Trouble = Trouble::Wrong("it stands before the first run");

/// The cases of a text, in order. The case that has what cannot be read says so.
pub fn read_cases(alloc: Global, text: &str) -> Result<Vec<Case>, Memory> {
    let mut cases = Vec::new(alloc);
    add_cases(alloc, text, &mut cases)?;
    Ok(cases)
}

fn add_cases(alloc: Global, text: &str, cases: &mut Vec<Case>) -> Result<(), Memory> {
    let mut block = Block::None;
    let mut number = 0usize;
    for line in text.lines() {
        number = number.saturating_add(1);
        match take_line(alloc, cases, block, line) {
            Ok(next) => block = next,
            Err(Trouble::Memory) => return Err(Memory),
            Err(Trouble::Wrong(why)) => note(alloc, cases, number, why)?,
        }
    }
    Ok(())
}

/// Notes what is wrong with the case that is read, unless something was before.
fn note(
    alloc: Global,
    cases: &mut Vec<Case>,
    number: usize,
    why: &'static str,
) -> Result<(), Memory> {
    if cases.is_empty() {
        cases.push(new_case(alloc, "before_the_first_case")?)?;
    }
    note_in(cases.last_mut(), number, why);
    Ok(())
}

fn note_in(case: Option<&mut Case>, number: usize, why: &'static str) {
    if let Some(case) = case {
        if case.wrong.is_none() {
            case.wrong = Some((number, why));
        }
    }
}

/// Takes a line that stands in a block, or behind it, and answers which block the next one stands in.
fn take_line(
    alloc: Global,
    cases: &mut Vec<Case>,
    block: Block,
    line: &str,
) -> Result<Block, Trouble> {
    if line.is_empty() || line.starts_with('#') {
        return Ok(block);
    }
    let (word, rest) = match line.split_once(' ') {
        Some(parts) => parts,
        None => (line, ""),
    };
    if word == "case" {
        return add_case(alloc, cases, rest);
    }
    let Some(case) = cases.last_mut() else {
        return Err(NO_CASE);
    };
    match line.strip_prefix("  ") {
        Some(content) => {
            take_content(alloc, case, block, content)?;
            Ok(block)
        }
        None => open_in_case(alloc, case, word, rest),
    }
}

fn add_case(alloc: Global, cases: &mut Vec<Case>, name: &str) -> Result<Block, Trouble> {
    cases.push(new_case(alloc, name)?)?;
    Ok(Block::None)
}

/// Adds what a line stands for to a block of a case.
fn take_content(alloc: Global, case: &mut Case, block: Block, line: &str) -> Result<(), Trouble> {
    match block {
        Block::None => Err(Trouble::Wrong("it belongs to no block")),
        Block::Rows => write_block_line(alloc, line, &mut case.rows),
        Block::Calls => Ok(add_call(&mut case.calls, line)?),
        _ => match case.runs.last_mut() {
            Some(run) => take_in_run(alloc, run, block, line),
            None => Err(NO_RUN),
        },
    }
}

fn add_call(calls: &mut String, line: &str) -> Result<(), Memory> {
    calls.push_str(line)?;
    Ok(calls.push_str("\n")?)
}

/// Adds what a line stands for to a block of a run.
fn take_in_run(alloc: Global, run: &mut Run, block: Block, line: &str) -> Result<(), Trouble> {
    match block {
        Block::Input => write_block_line(alloc, line, &mut run.given.input),
        Block::Connection => match run.given.connections.last_mut() {
            Some(connection) => write_block_line(alloc, line, connection),
            None => Ok(()),
        },
        _ => match run.wanted.last_mut() {
            Some(wanted) => write_block_line(alloc, line, &mut wanted.text),
            None => Ok(()),
        },
    }
}

fn new_case(alloc: Global, name: &str) -> Result<Case, Memory> {
    Ok(Case {
        name: String::from_str(alloc, name)?,
        wrong: None,
        rows: Vec::new(alloc),
        failing_keeper: Vec::new(alloc),
        place: Place::Memory,
        calls: String::new(alloc),
        runs: Vec::new(alloc),
    })
}

/// Takes a line that is no content, and answers the block that it opens.
fn open_in_case(alloc: Global, case: &mut Case, word: &str, rest: &str) -> Result<Block, Trouble> {
    match word {
        "run" => add_run(alloc, &mut case.runs, rest),
        "rows" if rest.is_empty() => Ok(Block::Rows),
        "calls" if rest.is_empty() => Ok(Block::Calls),
        "keeper" => set_keeper(case, rest),
        "input" if rest == "again" => repeat_input(alloc, &mut case.runs),
        _ => match case.runs.last_mut() {
            Some(run) => open_in_run(alloc, run, word, rest),
            None => Err(NO_RUN),
        },
    }
}

fn add_run(alloc: Global, runs: &mut Vec<Run>, words: &str) -> Result<Block, Trouble> {
    let mut run = new_run(alloc);
    add_words(alloc, words, &mut run.words)?;
    runs.push(run)?;
    Ok(Block::None)
}

/// Sets which keeper a case has, or at which calls it fails.
fn set_keeper(case: &mut Case, words: &str) -> Result<Block, Trouble> {
    match words {
        "in a database" => case.place = Place::Database,
        "in a journal" => case.place = Place::Journal,
        "takes every batch" => case.place = Place::Nowhere,
        _ => match words.strip_prefix("fails at ") {
            Some(numbers) => set_numbers(numbers, &mut case.failing_keeper)?,
            None => return Err(UNKNOWN),
        },
    }
    Ok(Block::None)
}

/// Gives the last run the input of the run before it.
fn repeat_input(alloc: Global, runs: &mut Vec<Run>) -> Result<Block, Trouble> {
    let input = input_before(alloc, runs.as_slice())?;
    if let Some(run) = runs.last_mut() {
        run.given.input = input;
    }
    Ok(Block::Input)
}

/// The input of the last run but one.
fn input_before(alloc: Global, runs: &[Run]) -> Result<Vec<u8>, Trouble> {
    match runs {
        [.., before, _] => Ok(before.given.input.to_vec(alloc)?),
        _ => Err(Trouble::Wrong("there is no run before")),
    }
}

fn new_run(alloc: Global) -> Run {
    Run {
        words: Vec::new(alloc),
        given: Given {
            input: Vec::new(alloc),
            connections: Vec::new(alloc),
            failing: Failing {
                input: Vec::new(alloc),
                output: Vec::new(alloc),
                errors: Vec::new(alloc),
                accepts: Vec::new(alloc),
                transfers: Vec::new(alloc),
            },
            room: ROOM,
        },
        status: None,
        wanted: Vec::new(alloc),
    }
}

fn add_words(alloc: Global, text: &str, words: &mut Vec<String>) -> Result<(), Memory> {
    if text.is_empty() {
        return Ok(());
    }
    for word in text.split(' ') {
        words.push(String::from_str(alloc, word)?)?;
    }
    Ok(())
}

/// Has a list be the numbers of a text.
fn set_numbers(text: &str, numbers: &mut Vec<u64>) -> Result<(), Trouble> {
    numbers.clear();
    for word in text.split(' ') {
        match word.parse() {
            Ok(number) => numbers.push(number)?,
            Err(_) => return Err(NO_NUMBER),
        }
    }
    Ok(())
}

/// Takes a line of a run that is no content, and answers the block that it opens.
fn open_in_run(alloc: Global, run: &mut Run, word: &str, rest: &str) -> Result<Block, Trouble> {
    if let Some(numbers) = rest.strip_prefix("fails at ") {
        return set_failing(failing_at(&mut run.given.failing, word), numbers);
    }
    if let Some(number) = rest.strip_prefix("has room for ") {
        return set_room(&mut run.given.room, word, number);
    }
    open_block(alloc, run, word, rest)
}

fn open_block(alloc: Global, run: &mut Run, word: &str, rest: &str) -> Result<Block, Trouble> {
    match word {
        "input" if rest.is_empty() => Ok(Block::Input),
        "connection" if rest.is_empty() => add_connection(alloc, &mut run.given.connections),
        "status" => set_status(run, rest),
        _ => open_wanted(alloc, run, word, rest),
    }
}

fn add_connection(alloc: Global, connections: &mut Vec<Vec<u8>>) -> Result<Block, Trouble> {
    connections.push(Vec::new(alloc))?;
    Ok(Block::Connection)
}

fn set_status(run: &mut Run, word: &str) -> Result<Block, Trouble> {
    match word.parse() {
        Ok(status) => {
            run.status = Some(status);
            Ok(Block::None)
        }
        Err(_) => Err(NO_NUMBER),
    }
}

/// The numbers of the calls that fail of what a word names.
fn failing_at<'a>(failing: &'a mut Failing, word: &str) -> Option<&'a mut Vec<u64>> {
    match word {
        "input" => Some(&mut failing.input),
        "output" => Some(&mut failing.output),
        "errors" => Some(&mut failing.errors),
        "door" => Some(&mut failing.accepts),
        "transfer" => Some(&mut failing.transfers),
        _ => None,
    }
}

fn set_failing(failing: Option<&mut Vec<u64>>, numbers: &str) -> Result<Block, Trouble> {
    let Some(failing) = failing else {
        return Err(UNKNOWN);
    };
    set_numbers(numbers, failing)?;
    Ok(Block::None)
}

fn set_room(room: &mut Room, word: &str, number: &str) -> Result<Block, Trouble> {
    let Ok(number) = number.parse() else {
        return Err(NO_NUMBER);
    };
    match word {
        "output" => room.output = number,
        "errors" => room.errors = number,
        "connection" => room.connection = number,
        _ => return Err(UNKNOWN),
    }
    Ok(Block::None)
}

/// Opens a block of what is wanted.
fn open_wanted(alloc: Global, run: &mut Run, word: &str, rest: &str) -> Result<Block, Trouble> {
    let Some(subject) = subject_of(word, run.given.connections.len()) else {
        return Err(UNKNOWN);
    };
    let Some(extent) = extent_of(subject, rest) else {
        return Err(UNKNOWN);
    };
    run.wanted.push(Wanted {
        subject,
        extent,
        text: Vec::new(alloc),
    })?;
    Ok(Block::Wanted)
}

/// What a word names behind so many connections.
fn subject_of(word: &str, connections: usize) -> Option<Subject> {
    match word {
        "output" => Some(Subject::Output),
        "errors" => Some(Subject::Errors),
        "tables" => Some(Subject::Tables),
        "asked" => Some(Subject::Asked),
        "replies" => Some(Subject::Replies(connections.checked_sub(1)?)),
        _ => None,
    }
}

fn extent_of(subject: Subject, word: &str) -> Option<Extent> {
    match word {
        "" => Some(Extent::Whole),
        "again" if subject == Subject::Output => Some(Extent::Again),
        _ if subject == Subject::Asked => None,
        "starts" => Some(Extent::Start),
        "ends" => Some(Extent::End),
        "has" => Some(Extent::Lines),
        "lacks" => Some(Extent::Absent),
        "contains" => Some(Extent::Parts),
        _ => None,
    }
}
