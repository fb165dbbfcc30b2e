//! Calls of single functions over the office of the tables, that no command makes: `CALL => ANSWER`, a line
//! for each.
//!
//! - `day_windows SITE DAY`: the full 8-hour averages of a day in thousandths of a ppm, from that of 07:00
//!   on, and after `net` those net of what is excluded; `-` where there is none.
//! - `pair_windows SITE DAY`: the same of the site and the one that is joined to it, or `none`.
//! - `monitor_day SITE PARAMETER POC DAY`: the value of a monitor of particles in tenths of a µg/m3, and
//!   whether it is excluded, or `none`.
//! - `changes FIRST LAST LINE..`: the lines for an extract of these lines, with ` / ` between them, or `nothing`;
//!   or `line NUMBER rule NUMBER NAME`.
ghost use Rattle.std.specs.Prelude.{◌≡◌, ◌<◌, ◌≤◌, length, IfSome};
ghost use Rattle.aq_rules.specs.Limits.{MOST_BYTES};
ghost use Rattle.aq_series.specs.DayCells.{IsParticulate};

use crate::calls::verdict;
use aq_base::{Day, MOST_BYTES, Memory, MonitorId, Pollutant, SiteId, Steps};
use aq_book::{Book, OpenFault, book_of};
use aq_design::combined::pair_windows;
use aq_keeper::Row;
use aq_ozone::{DayWindows, day_windows};
use aq_rd::site_word;
use aq_series::{Cell, monitor_day};
use aq_staging::extracts::{ChangesAnswer, changes};
use aq_trials::{NOT_SO, Trouble, add_word, cut, day_in};
use std::alloc::Global;
use std::marker::Brand;
use std::sync::ledger::{Blank, Ledger};

/// The first call that answers something else, in words, if there is one.
pub fn try_asked(alloc: Global, rows: &[Row], text: &str) -> Result<Option<String>, Memory> {
    let book = match book_of(alloc, rows) {
        Ok(book) => book,
        Err(OpenFault::Memory) => return Err(Memory),
        Err(OpenFault::Damaged(_)) => {
            return Ok(Some(String::from_str(alloc, "the tables are no office's")?));
        }
    };
    for line in text.lines() {
        if let Some(found) = try_line(alloc, &book, line)? {
            return Ok(Some(found));
        }
    }
    Ok(None)
}

fn try_line(alloc: Global, book: &Book, line: &str) -> Result<Option<String>, Memory> {
    let Some((call, wanted)) = line.split_once(" => ") else {
        return Ok(Some(format!(in alloc; "`{line}` has no answer")?));
    };
    let found = answer(alloc, book, call);
    verdict(alloc, call, wanted, found)
}

/// What a call answers.
fn answer(alloc: Global, book: &Book, call: &str) -> Result<String, Trouble> {
    let (name, rest) = cut(call);
    match name {
        "day_windows" => windows(alloc, book, rest),
        "pair_windows" => windows_of_pair(alloc, book, rest),
        "monitor_day" => value(alloc, book, rest),
        "changes" => changes_for(alloc, book, rest),
        _ => Err(Trouble::Wrong("there is no such call")),
    }
}

fn windows(alloc: Global, book: &Book, words: &str) -> Result<String, Trouble> {
    let Some((site, day)) = site_and_day(words) else {
        return Err(NOT_SO);
    };
    let windows = counted_windows::<Brand>(book, site, day, Blank::new(1));
    Ok(windows_text(alloc, &windows)?)
}

fn windows_of_pair(alloc: Global, book: &Book, words: &str) -> Result<String, Trouble> {
    let Some((site, day)) = site_and_day(words) else {
        return Err(NOT_SO);
    };
    let windows = counted_pair::<Brand>(book, site, day, Blank::new(1));
    match windows {
        Some(windows) => Ok(windows_text(alloc, &windows)?),
        None => Ok(String::from_str(alloc, "none")?),
    }
}

fn value(alloc: Global, book: &Book, words: &str) -> Result<String, Trouble> {
    let (site, rest) = cut(words);
    let (parameter, rest) = cut(rest);
    let (poc, day) = cut(rest);
    let Some(pollutant) = particulate(parameter) else {
        return Err(NOT_SO);
    };
    let (Some(site), Ok(poc), Some(day)) = (site_word(site.as_bytes()), poc.parse(), day_in(day))
    else {
        return Err(NOT_SO);
    };
    let monitor = MonitorId {
        site,
        pollutant,
        poc,
    };
    let cell = counted_day::<Brand>(book, monitor, day, Blank::new(1));
    match cell {
        Some(cell) => {
            let mark = if cell.excluded { " excluded" } else { "" };
            Ok(format!(in alloc; "{}{mark}", cell.value)?)
        }
        None => Ok(String::from_str(alloc, "none")?),
    }
}

fn changes_for(alloc: Global, book: &Book, words: &str) -> Result<String, Trouble> {
    let (first, rest) = cut(words);
    let (last, lines) = cut(rest);
    let (Some(first), Some(last)) = (day_in(first), day_in(last)) else {
        return Err(NOT_SO);
    };
    let body = lines.replace(alloc, " ", "\n")?;
    if body.len() > MOST_BYTES {
        return Err(NOT_SO);
    }
    match counted_changes::<Brand>(alloc, book, first, last, body.as_bytes(), Blank::new(1))? {
        ChangesAnswer::OfLines(text) => in_a_line(alloc, text.as_slice()),
        ChangesAnswer::RefusedAt { line, rule } => {
            Ok(format!(in alloc; "line {line} rule {} {}", rule.number(), rule.name())?)
        }
    }
}

/// A text with ` / ` between its lines.
fn in_a_line(alloc: Global, text: &[u8]) -> Result<String, Trouble> {
    if text.is_empty() {
        return Ok(String::from_str(alloc, "nothing")?);
    }
    let text = String::from_utf8_lossy(alloc, text)?;
    Ok(text.as_str().trim_end().replace(alloc, "\n", " / ")?)
}

// The rooms count their steps. Nobody reads the counts that are made here.

fn counted_windows<L: Ledger>(book: &Book, site: SiteId, day: Day, blank: Blank) -> DayWindows
    requires name { blank.name ≡ L.name }
    requires parts { blank.parts ≡ L.parts }
    requires some { 0 < L.parts }
{
    let mut steps = Steps::<L>::new(blank);
    day_windows(book.shelf(), book.registry(), site, day, &mut steps)
}

fn counted_pair<L: Ledger>(book: &Book, site: SiteId, day: Day, blank: Blank) -> Option<DayWindows>
    requires name { blank.name ≡ L.name }
    requires parts { blank.parts ≡ L.parts }
    requires some { 0 < L.parts }
{
    let mut steps = Steps::<L>::new(blank);
    pair_windows(book.shelf(), book.registry(), site, day, &mut steps)
}

fn counted_day<L: Ledger>(book: &Book, monitor: MonitorId, day: Day, blank: Blank) -> Option<Cell>
    requires name { blank.name ≡ L.name }
    requires parts { blank.parts ≡ L.parts }
    requires some { 0 < L.parts }
    requires particles { IsParticulate monitor.pollutant }
{
    let mut steps = Steps::<L>::new(blank);
    monitor_day(book.shelf(), book.registry(), monitor, day, &mut steps)
}

fn counted_changes<L: Ledger>(
    alloc: Global,
    book: &Book,
    first: Day,
    last: Day,
    body: &[u8],
    blank: Blank,
) -> Result<ChangesAnswer, Memory>
    requires name { blank.name ≡ L.name }
    requires parts { blank.parts ≡ L.parts }
    requires some { 0 < L.parts }
    requires few { length body.now ≤ MOST_BYTES }
{
    let mut steps = Steps::<L>::new(blank);
    changes(
        alloc,
        book.shelf(),
        book.registry(),
        first,
        last,
        body,
        &mut steps,
    )
}

/// PM2.5 or PM10, by its parameter.
fn particulate(parameter: &str) -> Option<Pollutant>
    ensures { IfSome result IsParticulate }
{
    match parameter {
        "88101" => Some(Pollutant::Pm25),
        "81102" => Some(Pollutant::Pm10),
        _ => None,
    }
}

/// `SITE YYYY-MM-DD`
fn site_and_day(words: &str) -> Option<(SiteId, Day)> {
    let (site, day) = cut(words);
    match (site_word(site.as_bytes()), day_in(day)) {
        (Some(site), Some(day)) => Some((site, day)),
        _ => None,
    }
}

fn windows_text(alloc: Global, windows: &DayWindows) -> Result<String, Memory> {
    let mut words = String::new(alloc);
    for row in &windows.rows {
        add_average(alloc, &mut words, row.full)?;
    }
    add_word(&mut words, "net")?;
    for row in &windows.rows {
        add_average(alloc, &mut words, row.net)?;
    }
    Ok(words)
}

fn add_average(alloc: Global, words: &mut String, average: Option<i32>) -> Result<(), Memory> {
    match average {
        Some(value) => add_word(words, format!(in alloc; "{value}")?.as_str()),
        None => add_word(words, "-"),
    }
}
