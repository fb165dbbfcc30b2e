//! Generated loads, for the lines of a block and for calls. They are written by a room that takes long to prove,
//! so `aq_trials` does without them.
ghost use Rattle.std.specs.Int.{IsInRange};
ghost use Rattle.std.specs.Prelude.{IfOk};

use aq_base::{FEWEST_GENERATED_YEARS, MOST_GENERATED_SITES, MOST_GENERATED_YEARS, Memory};
use aq_simulation::generator::generate;
use aq_trials::{NOT_SO, Trouble, cut, spelling_of};
use std::alloc::Global;

/// A text of cases in which each line `@generated START SITES YEARS LOAD` of a block is one that spells the load.
/// One that names no load stays, and the reader of the cases does not know it.
pub fn expanded(alloc: Global, text: &str) -> Result<String, Memory> {
    let mut all = String::new(alloc);
    for line in text.lines() {
        match line.strip_prefix("  @generated ") {
            Some(words) => add_load(alloc, words, line, &mut all)?,
            None => all.push_str(line)?,
        }
        all.push_str("\n")?;
    }
    Ok(all)
}

/// Adds the line of a block that spells a load. The backslash at its end says that no LF follows.
fn add_load(alloc: Global, words: &str, line: &str, all: &mut String) -> Result<(), Memory> {
    match load(alloc, words) {
        Ok(Some(body)) => {
            all.push_str("  ")?;
            all.push_str(spelling_of(alloc, &body)?.as_str())?;
            all.push_str("\\")?;
            Ok(())
        }
        Err(Trouble::Memory) => Err(Memory),
        _ => Ok(all.push_str(line)?),
    }
}

/// `START SITES YEARS LOAD LINE`: a line of a generated load, by its number from 0, or `none`.
pub fn generated(alloc: Global, arguments: &str) -> Result<String, Trouble> {
    let Some((words, place)) = arguments.rsplit_once(' ') else {
        return Err(NOT_SO);
    };
    let Ok(place) = place.parse() else {
        return Err(NOT_SO);
    };
    match load(alloc, words)? {
        Some(body) => line_at(alloc, &body, place),
        None => Ok(String::from_str(alloc, "none")?),
    }
}

/// `START SITES YEARS LOAD`: a generated load, if there is one of that number.
fn load(alloc: Global, words: &str) -> Result<Option<Vec<u8>>, Trouble> {
    let (start, rest) = cut(words);
    let (sites, rest) = cut(rest);
    let (years, load) = cut(rest);
    let (Ok(start), Ok(load)) = (start.parse(), load.parse()) else {
        return Err(NOT_SO);
    };
    let sites = count_within(sites, 1, MOST_GENERATED_SITES)?;
    let years = count_within(years, FEWEST_GENERATED_YEARS, MOST_GENERATED_YEARS)?;
    Ok(generate(alloc, start, sites, years, load)?)
}

/// A number from the least to the most.
fn count_within(word: &str, least: u8, most: u8) -> Result<u8, Trouble>
    ensures { IfOk result (IsInRange least most) }
{
    let Ok(number) = word.parse::<u8>() else {
        return Err(NOT_SO);
    };
    if number < least || number > most {
        return Err(NOT_SO);
    }
    Ok(number)
}

/// A line of a text by its number.
fn line_at(alloc: Global, body: &[u8], place: u64) -> Result<String, Trouble> {
    let mut number = 0u64;
    for line in body.split(|byte| *byte == b'\n') {
        if number == place {
            return Ok(spelling_of(alloc, line)?);
        }
        number = number.saturating_add(1);
    }
    Err(NOT_SO)
}
