//! The lines of a block, as bytes: a line stands for itself, or for many by an expansion.
use crate::dates::{day_after, day_in, first_hour, hour_after};
use crate::spelling::write_line;
use crate::trouble::Trouble;
use aq_base::{Day, Hour, Memory};
use aq_cal::{civil_of, write_day};
use std::alloc::Global;

/// Over what an expansion goes.
#[derive(Clone, Copy)]
enum Times {
    Numbers,
    /// Days from one on, so many after one another.
    Days(Day, u32),
    Hours(Hour),
}

/// What the fields of an expansion's line stand for.
#[derive(Clone, Copy)]
struct Fields {
    number: u32,
    /// The day and the hour, if the expansion goes over those.
    time: Option<(Day, u32)>,
}

/// Appends what a line of a block stands for.
pub fn write_block_line(alloc: Global, line: &str, out: &mut Vec<u8>) -> Result<(), Trouble> {
    let Some(expansion) = line.strip_prefix('@') else {
        return write_line(line.as_bytes(), out);
    };
    let (name, rest) = cut(expansion);
    match name {
        "repeat" => write_repeated(rest, out),
        "count" => write_counted(alloc, rest, out),
        "days" => write_days(alloc, rest, out),
        "hours" => write_hours(alloc, rest, out),
        _ => Err(Trouble::Wrong("no such expansion")),
    }
}

/// `@repeat COUNT LINE`
fn write_repeated(rest: &str, out: &mut Vec<u8>) -> Result<(), Trouble> {
    let Some((count, line)) = cut_number(rest) else {
        return Err(NO_NUMBER);
    };
    for _ in 0..count {
        write_line(line.as_bytes(), out)?;
    }
    Ok(())
}

/// `@count FIRST LAST LINE`
fn write_counted(alloc: Global, rest: &str, out: &mut Vec<u8>) -> Result<(), Trouble> {
    let Some((first, rest)) = cut_number(rest) else {
        return Err(NO_NUMBER);
    };
    let Some((last, line)) = cut_number(rest) else {
        return Err(NO_NUMBER);
    };
    write_lines(
        alloc,
        first,
        last.saturating_add(1),
        Times::Numbers,
        line,
        out,
    )
}

/// `@days DAY COUNT STEP LINE`
fn write_days(alloc: Global, rest: &str, out: &mut Vec<u8>) -> Result<(), Trouble> {
    let (day, rest) = cut(rest);
    let Some(first) = day_in(day) else {
        return Err(NO_DAY);
    };
    let Some((count, rest)) = cut_number(rest) else {
        return Err(NO_NUMBER);
    };
    let Some((step, line)) = cut_number(rest) else {
        return Err(NO_NUMBER);
    };
    write_lines(alloc, 0, count, Times::Days(first, step), line, out)
}

/// `@hours DAY TIME COUNT LINE`
fn write_hours(alloc: Global, rest: &str, out: &mut Vec<u8>) -> Result<(), Trouble> {
    let (day, rest) = cut(rest);
    let (time, rest) = cut(rest);
    let Some(first) = first_hour(day, time) else {
        return Err(NO_DAY);
    };
    let Some((count, line)) = cut_number(rest) else {
        return Err(NO_NUMBER);
    };
    write_lines(alloc, 0, count, Times::Hours(first), line, out)
}

const NO_DAY: Trouble = Trouble::Wrong("no day YYYY-MM-DD, or no time HH:00");

const NO_NUMBER: Trouble = Trouble::Wrong("no number");

const NO_FIELD: Trouble = Trouble::Wrong("no such field");

/// The first word and what stands after it.
fn cut(text: &str) -> (&str, &str) {
    match text.split_once(' ') {
        Some(parts) => parts,
        None => (text, ""),
    }
}

fn cut_number(text: &str) -> Option<(u32, &str)> {
    let (word, rest) = text.split_once(' ')?;
    match word.parse() {
        Ok(number) => Some((number, rest)),
        Err(_) => None,
    }
}

/// Appends a line for each number from the first to the one before the last.
fn write_lines(
    alloc: Global,
    first: u32,
    last: u32,
    times: Times,
    line: &str,
    out: &mut Vec<u8>,
) -> Result<(), Trouble> {
    for number in first..last {
        let Some(fields) = fields_of(&times, number) else {
            return Err(Trouble::Wrong("a day after the last one"));
        };
        write_filled(alloc, line, &fields, out)?;
    }
    Ok(())
}

fn fields_of(times: &Times, number: u32) -> Option<Fields> {
    let time = match times {
        Times::Numbers => None,
        Times::Days(first, step) => Some((day_after(*first, number.saturating_mul(*step))?, 0)),
        Times::Hours(first) => Some(hour_after(*first, number)?),
    };
    Some(Fields { number, time })
}

/// Appends a line whose fields are filled in.
fn write_filled(
    alloc: Global,
    line: &str,
    fields: &Fields,
    out: &mut Vec<u8>,
) -> Result<(), Trouble> {
    let mut filled = Vec::new(alloc);
    fill(alloc, line, fields, &mut filled)?;
    write_line(&filled, out)
}

/// Appends the text of a line whose fields are filled in.
fn fill(alloc: Global, line: &str, fields: &Fields, out: &mut Vec<u8>) -> Result<(), Trouble> {
    let mut parts = line.split('{');
    if let Some(front) = parts.next() {
        out.extend_from_slice(front.as_bytes())?;
    }
    for part in parts {
        write_field(alloc, part, fields, out)?;
    }
    Ok(())
}

/// Appends a field, and what stands after it. The brace before it is cut off.
fn write_field(
    alloc: Global,
    part: &str,
    fields: &Fields,
    out: &mut Vec<u8>,
) -> Result<(), Trouble> {
    let Some((name, rest)) = part.split_once('}') else {
        return Err(NO_FIELD);
    };
    write_value(alloc, name, fields, out)?;
    Ok(out.extend_from_slice(rest.as_bytes())?)
}

fn write_value(
    alloc: Global,
    name: &str,
    fields: &Fields,
    out: &mut Vec<u8>,
) -> Result<(), Trouble> {
    if let Some(format) = name.strip_prefix("n") {
        return write_count(alloc, format, fields.number, out);
    }
    match fields.time {
        Some((day, hour)) => write_time(alloc, name, day, hour, out),
        None => Err(NO_FIELD),
    }
}

/// The number, with so many digits, or greater by another one.
fn write_count(alloc: Global, format: &str, number: u32, out: &mut Vec<u8>) -> Result<(), Trouble> {
    match format {
        "" => Ok(write_number(alloc, number, 1, out)?),
        ":02" => Ok(write_number(alloc, number, 2, out)?),
        ":04" => Ok(write_number(alloc, number, 4, out)?),
        _ => match more_in(format) {
            Some(more) => Ok(write_number(alloc, number.saturating_add(more), 1, out)?),
            None => Err(NO_FIELD),
        },
    }
}

fn more_in(format: &str) -> Option<u32> {
    format.strip_prefix("+")?.parse().ok()
}

fn write_time(
    alloc: Global,
    name: &str,
    day: Day,
    hour: u32,
    out: &mut Vec<u8>,
) -> Result<(), Trouble> {
    match name {
        "date" => Ok(write_date(alloc, day, out)?),
        "day" => Ok(write_day(out, day)?),
        "time" => Ok(write_hour(alloc, hour, out)?),
        _ => Err(NO_FIELD),
    }
}

/// A day as `YYYYMMDD`.
fn write_date(alloc: Global, day: Day, out: &mut Vec<u8>) -> Result<(), Memory> {
    let date = civil_of(day);
    write_number(alloc, u32::from(date.year), 4, out)?;
    write_number(alloc, u32::from(date.month), 2, out)?;
    write_number(alloc, u32::from(date.day), 2, out)
}

/// An hour as `HH:00`.
fn write_hour(alloc: Global, hour: u32, out: &mut Vec<u8>) -> Result<(), Memory> {
    write_number(alloc, hour, 2, out)?;
    Ok(out.extend_from_slice(b":00")?)
}

/// A number with so many digits at least.
fn write_number(
    alloc: Global,
    number: u32,
    digits: usize,
    out: &mut Vec<u8>,
) -> Result<(), Memory> {
    let text = format!(in alloc; "{number}")?;
    for _ in text.len()..digits {
        out.push(b'0')?;
    }
    Ok(out.extend_from_slice(text.as_bytes())?)
}
