//! Calls of single functions, that no run shows as directly: `NAME ARGUMENTS => ANSWER`, a line for each.
//! The names are those of `aq_trials::answer`, and of what stands on rooms that it does without: `command`,
//! `error`, `generated`, `rank` and `without_memory`.
use crate::generated::generated;
use aq_base::Memory;
use aq_desk::end_without_memory;
use aq_outside::MemorySink;
use aq_particles::pm25::rank_of;
use aq_reports::error_sheet;
use aq_sheets::text_of;
use aq_trials::{NOT_SO, Trouble, answer, spelling_of};
use aq_words::read_words;
use std::alloc::Global;

/// The first call that answers something else, in words, if there is one.
pub fn try_calls(alloc: Global, text: &str) -> Result<Option<String>, Memory> {
    for line in text.lines() {
        if let Some(found) = try_call(alloc, line)? {
            return Ok(Some(found));
        }
    }
    Ok(None)
}

fn try_call(alloc: Global, line: &str) -> Result<Option<String>, Memory> {
    let Some((call, wanted)) = line.split_once(" => ") else {
        return Ok(Some(format!(in alloc; "`{line}` has no answer")?));
    };
    let Some((name, arguments)) = call.split_once(' ') else {
        return Ok(Some(format!(in alloc; "`{call}` has no arguments")?));
    };
    let found = match name {
        "command" => command(alloc, arguments),
        "error" => error(alloc, arguments),
        "generated" => generated(alloc, arguments),
        "rank" => rank(alloc, arguments),
        "without_memory" => without_memory(alloc),
        _ => answer(alloc, name, arguments),
    };
    verdict(alloc, call, wanted, found)
}

/// How a call's answer differs from what is wanted, in words, if it does.
pub(crate) fn verdict(
    alloc: Global,
    call: &str,
    wanted: &str,
    found: Result<String, Trouble>,
) -> Result<Option<String>, Memory> {
    match found {
        Ok(found) if found.as_str() == wanted => Ok(None),
        Ok(found) => Ok(Some(format!(in alloc; "{call} is {found}, wanted {wanted}")?)),
        Err(Trouble::Memory) => Err(Memory),
        Err(Trouble::Wrong(why)) => Ok(Some(format!(in alloc; "{call}: {why}")?)),
    }
}

/// The command that words name, or `none`.
fn command(alloc: Global, arguments: &str) -> Result<String, Trouble> {
    let mut words = Vec::new(alloc);
    for word in arguments.split(' ') {
        words.push(String::from_str(alloc, word)?)?;
    }
    match read_words(&words) {
        Some(command) => Ok(format!(in alloc; "{command:?}")?),
        None => Ok(String::from_str(alloc, "none")?),
    }
}

/// How the program ends if its words had no memory: the status, and what it says.
fn without_memory(alloc: Global) -> Result<String, Trouble> {
    let mut errors = MemorySink::new(alloc, 1_000, Vec::new(alloc))?;
    let status = end_without_memory(&mut errors);
    let told = spelling_of(alloc, errors.written())?;
    Ok(format!(in alloc; "{status} {told}")?)
}

/// `COUNTED`: the rank of the percentile.
fn rank(alloc: Global, arguments: &str) -> Result<String, Trouble> {
    let Ok(counted) = arguments.parse::<u16>() else {
        return Err(NOT_SO);
    };
    if counted < 1 || counted > 366 {
        return Err(NOT_SO);
    }
    Ok(format!(in alloc; "{}", rank_of(counted))?)
}

/// `NAME`: the sheet of an error, of two of the names.
fn error(alloc: Global, arguments: &str) -> Result<String, Trouble> {
    let sheet = match arguments {
        "NotFound" => error_sheet(alloc, "NotFound")?,
        "Forbidden" => error_sheet(alloc, "Forbidden")?,
        _ => return Err(NOT_SO),
    };
    Ok(spelling_of(alloc, &text_of(alloc, &sheet)?)?)
}
