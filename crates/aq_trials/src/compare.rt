//! Texts that are compared, and the first difference in words.
use crate::case::Extent;
use crate::spelling::spelling_of;
use aq_base::Memory;
use memchr::memmem;
use std::alloc::Global;

/// The first difference of a text from what is wanted of it.
pub fn difference(
    alloc: Global,
    extent: Extent,
    wanted: &[u8],
    found: &[u8],
) -> Result<Option<String>, Memory> {
    match first_fault(extent, wanted, found) {
        Some(fault) => Ok(Some(told(alloc, &fault)?)),
        None => Ok(None),
    }
}

/// What is wrong with a line that is wanted, by its number, and where.
#[derive(Clone, Copy)]
struct Fault<'a> {
    why: &'static str,
    number: u32,
    wanted: &'a [u8],
    found: &'a [u8],
}

fn first_fault<'a>(extent: Extent, wanted: &'a [u8], found: &'a [u8]) -> Option<Fault<'a>> {
    let is_so = match extent {
        Extent::Whole | Extent::Again => wanted == found,
        Extent::Start => found.starts_with(wanted),
        Extent::End => found.ends_with(wanted),
        _ => return first_line(extent, wanted, found),
    };
    if is_so {
        return None;
    }
    Some(first_other(wanted, found))
}

/// In place of a line behind the last one.
const NO_LINE: &[u8] = b"(no line)";

/// The first line at which two texts differ.
fn first_other<'a>(wanted: &'a [u8], found: &'a [u8]) -> Fault<'a> {
    let mut number = 1u32;
    let mut others = found.split(|byte| *byte == b'\n');
    for line in wanted.split(|byte| *byte == b'\n') {
        let other = others.next().unwrap_or(NO_LINE);
        if line != other {
            return is_not(number, line, other);
        }
        number = number.saturating_add(1);
    }
    is_not(number, NO_LINE, others.next().unwrap_or(NO_LINE))
}

fn is_not<'a>(number: u32, wanted: &'a [u8], found: &'a [u8]) -> Fault<'a> {
    Fault {
        why: "is another one",
        number,
        wanted,
        found,
    }
}

/// The first of some lines that a text lacks, has, or has no part of.
fn first_line<'a>(extent: Extent, wanted: &'a [u8], found: &'a [u8]) -> Option<Fault<'a>> {
    let mut number = 0u32;
    for line in wanted.split(|byte| *byte == b'\n') {
        number = number.saturating_add(1);
        if let Some(why) = fault_of(extent, line, found) {
            return Some(Fault {
                why,
                number,
                wanted: line,
                found,
            });
        }
    }
    None
}

fn fault_of(extent: Extent, line: &[u8], found: &[u8]) -> Option<&'static str> {
    match extent {
        Extent::Lines if !line.is_empty() && !has_line(found, line) => Some("is not there"),
        Extent::Absent if !line.is_empty() && has_line(found, line) => Some("is there"),
        Extent::Parts if memmem::find(found, line).is_none() => Some("is no part"),
        _ => None,
    }
}

fn has_line(text: &[u8], line: &[u8]) -> bool {
    for part in text.split(|byte| *byte == b'\n') {
        if part == line {
            return true;
        }
    }
    false
}

/// What is wrong with a text, and the text.
fn told(alloc: Global, fault: &Fault<'_>) -> Result<String, Memory> {
    let (why, number) = (fault.why, fault.number);
    let (wanted, found) = (shown(alloc, fault.wanted)?, shown(alloc, fault.found)?);
    Ok(format!(in alloc; "line {number} {why}: `{wanted}`; it is `{found}`")?)
}

/// The first bytes of a text, for a message.
fn shown(alloc: Global, text: &[u8]) -> Result<String, Memory> {
    let front = &text[..text.len().min(MOST_SHOWN)];
    spelling_of(alloc, front)
}

/// So many bytes of a text are shown.
const MOST_SHOWN: usize = 2_000;
