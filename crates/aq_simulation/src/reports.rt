//! The sheets that a simulation shows.
ghost use Rattle.std.specs.Prelude.{◌≡◌, ◌++◌, ◌+◌, ◌≤◌, flat_map, length, IfOk, OnOk};
ghost use Rattle.aq_base.specs.Standard.{standards};
ghost use Rattle.aq_base.specs.declared.day.TheConstants.{FIRST_YEAR, LAST_YEAR};
ghost use Rattle.aq_rules.specs.Shown.OtherSheets.{report_answer, summary_sheet};
ghost use Rattle.aq_rules.specs.Shown.Sheet.{text_of};

use crate::taken::Taken;
use aq_base::{Memory, Question, Standard};
use aq_book::Book;
use aq_office::{Answer, answer_to};
use aq_reports::summary_sheet;
use aq_sheets::{text_of, texts_of};
use std::alloc::Global;

/// The text of the summary.
pub(crate) fn summary_text(alloc: Global, taken: &Taken, loads: u32) -> Result<Vec<u8>, Memory>
    ensures { IfOk result (λ text. text.items ≡ text_of (summary_sheet loads taken.now.lines (length taken.now.book.observations))) }
{
    let sheet = summary_sheet(alloc, loads, taken.lines, taken.book.observation_count())?;
    text_of(alloc, &sheet)
}

/// Adds the text of each standard's report for a year.
pub(crate) fn add_reports(
    alloc: Global,
    book: &Book,
    year: u16,
    text: &mut Vec<u8>,
) -> Result<(), Memory>
    requires first { FIRST_YEAR + 2 ≤ year }
    requires last { year ≤ LAST_YEAR }
    ensures { OnOk result (text.new.items ≡ text.old.items ++ flat_map (λ standard. text_of (report_answer standard book.now year)) standards) }
{
    add_each(alloc, book, year, &Standard::all(), text)
}

/// Adds the text of these standards' reports.
fn add_each(
    alloc: Global,
    book: &Book,
    year: u16,
    standards: &[Standard],
    text: &mut Vec<u8>,
) -> Result<(), Memory>
    requires first { FIRST_YEAR + 2 ≤ year }
    requires last { year ≤ LAST_YEAR }
    ensures { OnOk result (text.new.items ≡ text.old.items ++ flat_map (λ standard. text_of (report_answer standard book.now year)) standards.now) }
{
    for standard in standards {
        let report = report_text(alloc, book, *standard, year)?;
        text.extend_from_slice(&report)?;
    }
    Ok(())
}

/// The text of a report.
fn report_text(alloc: Global, book: &Book, standard: Standard, year: u16) -> Result<Vec<u8>, Memory>
    requires first { FIRST_YEAR + 2 ≤ year }
    requires last { year ≤ LAST_YEAR }
    ensures { IfOk result (λ text. text.items ≡ text_of (report_answer standard book.now year)) }
{
    match answer_to(alloc, book, &Question::Report(standard, year))? {
        Answer::Sheets(sheets) => texts_of(alloc, sheets.as_slice()),
        Answer::Text(text) => Ok(text),
        Answer::Lacks(_) => Ok(Vec::new(alloc)),
    }
}
