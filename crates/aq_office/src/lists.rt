//! The answers that list what stands.
ghost use Rattle.std.specs.Prelude.{◌≡◌, IfOk, IsTrue};
ghost use Rattle.aq_base.specs.Calendar.{is_year};
ghost use Rattle.aq_base.specs.declared.question.Question.TheVariants as question;
ghost use Rattle.aq_rules.specs.Listed.Completeness.{completeness_answer};
ghost use Rattle.aq_rules.specs.Listed.Events.{events_answer};
ghost use Rattle.aq_rules.specs.Listed.Flags.{flags_answer};
ghost use Rattle.aq_rules.specs.Listed.Monitors.{monitors_answer};
ghost use Rattle.aq_rules.specs.Listed.ObservationLines.{lines_answer};
ghost use Rattle.aq_rules.specs.Listed.Records.{records_answer};
ghost use Rattle.aq_rules.specs.Listed.Sites.{sites_answer};
ghost use Rattle.aq_rules.specs.Questions.Answer.{answer};
ghost use Rattle.aq_office.specs.Answers.{seen};

use crate::answers::Answer;
use aq_base::{Memory, Pollutant, SiteId, Steps};
use aq_book::Book;
use aq_listed::{completeness, events, flags, lines, monitors, records, sites};
use aq_sheets::Sheet;
use std::alloc::Global;
use std::sync::ledger::Ledger;

/// The registered sites.
#[tactic(auto, unfolding(aq_rules::specs::Questions::Answer::answer))]
pub(crate) fn sites_of(alloc: Global, book: &Book) -> Result<Answer, Memory>
    ensures { IfOk result (λ found. answer book.now question.Sites ≡ seen found) }
{
    Answer::of_sheet(alloc, sites_sheet(alloc, book)?)
}

/// The sheet of the registered sites.
fn sites_sheet(alloc: Global, book: &Book) -> Result<Sheet, Memory>
    ensures { IfOk result (λ sheet. sheet ≡ sites_answer book.now) }
{
    sites(alloc, book.registry())
}

/// The monitors of a site.
#[tactic(auto, unfolding(aq_rules::specs::Questions::Answer::answer))]
pub(crate) fn monitors_of<L: Ledger>(
    alloc: Global,
    book: &Book,
    site: SiteId,
    steps: &mut Steps<L>,
) -> Result<Answer, Memory>
    ensures { IfOk result (λ found. answer book.now (question.Monitors site) ≡ seen found) }
{
    if !book.has_site(site) {
        return Ok(Answer::no_site(site));
    }
    Answer::of_sheet(alloc, monitors_sheet(alloc, book, site, steps)?)
}

/// The sheet of the monitors of a site.
fn monitors_sheet<L: Ledger>(
    alloc: Global,
    book: &Book,
    site: SiteId,
    steps: &mut Steps<L>,
) -> Result<Sheet, Memory>
    ensures { IfOk result (λ sheet. sheet ≡ monitors_answer book.now site) }
{
    monitors(alloc, book.shelf(), book.registry(), site, steps)
}

/// The exceptional events of a site.
#[tactic(auto, unfolding(aq_rules::specs::Questions::Answer::answer))]
pub(crate) fn events_of<L: Ledger>(
    alloc: Global,
    book: &Book,
    site: SiteId,
    steps: &mut Steps<L>,
) -> Result<Answer, Memory>
    ensures { IfOk result (λ found. answer book.now (question.Events site) ≡ seen found) }
{
    if !book.has_site(site) {
        return Ok(Answer::no_site(site));
    }
    Answer::of_sheet(alloc, events_sheet(alloc, book, site, steps)?)
}

/// The sheet of the exceptional events of a site.
fn events_sheet<L: Ledger>(
    alloc: Global,
    book: &Book,
    site: SiteId,
    steps: &mut Steps<L>,
) -> Result<Sheet, Memory>
    ensures { IfOk result (λ sheet. sheet ≡ events_answer book.now site) }
{
    events(alloc, book.shelf(), book.registry(), site, steps)
}

/// The days and codes of a year at which observations ask to be left out.
#[tactic(auto, unfolding(aq_rules::specs::Questions::Answer::answer))]
pub(crate) fn flags_of<L: Ledger>(
    alloc: Global,
    book: &Book,
    site: SiteId,
    pollutant: Pollutant,
    year: u16,
    steps: &mut Steps<L>,
) -> Result<Answer, Memory>
    requires { IsTrue (is_year year) }
    ensures { IfOk result (λ found. answer book.now (question.Flags site pollutant year) ≡ seen found) }
{
    if !book.has_site(site) {
        return Ok(Answer::no_site(site));
    }
    Answer::of_sheet(
        alloc,
        flags_sheet(alloc, book, site, pollutant, year, steps)?,
    )
}

/// The sheet of those days and codes.
fn flags_sheet<L: Ledger>(
    alloc: Global,
    book: &Book,
    site: SiteId,
    pollutant: Pollutant,
    year: u16,
    steps: &mut Steps<L>,
) -> Result<Sheet, Memory>
    requires { IsTrue (is_year year) }
    ensures { IfOk result (λ sheet. sheet ≡ flags_answer book.now site pollutant year) }
{
    flags(
        alloc,
        book.shelf(),
        book.registry(),
        site,
        pollutant,
        year,
        steps,
    )
}

/// How many of each month's due samples each monitor has.
#[tactic(auto, unfolding(aq_rules::specs::Questions::Answer::answer))]
pub(crate) fn completeness_of<L: Ledger>(
    alloc: Global,
    book: &Book,
    site: SiteId,
    pollutant: Pollutant,
    year: u16,
    steps: &mut Steps<L>,
) -> Result<Answer, Memory>
    requires { IsTrue (is_year year) }
    ensures { IfOk result (λ found. answer book.now (question.Completeness site pollutant year) ≡ seen found) }
{
    if !book.has_site(site) {
        return Ok(Answer::no_site(site));
    }
    Answer::of_sheet(
        alloc,
        completeness_sheet(alloc, book, site, pollutant, year, steps)?,
    )
}

/// The sheet of the due samples.
fn completeness_sheet<L: Ledger>(
    alloc: Global,
    book: &Book,
    site: SiteId,
    pollutant: Pollutant,
    year: u16,
    steps: &mut Steps<L>,
) -> Result<Sheet, Memory>
    requires { IsTrue (is_year year) }
    ensures { IfOk result (λ sheet. sheet ≡ completeness_answer book.now site pollutant year) }
{
    completeness(
        alloc,
        book.shelf(),
        book.registry(),
        site,
        pollutant,
        year,
        steps,
    )
}

/// The records, as the lines that make them anew.
#[tactic(auto, unfolding(aq_rules::specs::Questions::Answer::answer))]
pub(crate) fn records_of(alloc: Global, book: &Book) -> Result<Answer, Memory>
    ensures { IfOk result (λ found. answer book.now question.Records ≡ seen found) }
{
    Ok(Answer::Text(records_text(alloc, book)?))
}

/// The text of the records.
fn records_text(alloc: Global, book: &Book) -> Result<Vec<u8>, Memory>
    ensures { IfOk result (λ text. text.items ≡ records_answer book.now) }
{
    records(alloc, book.registry())
}

/// The observations of a site, pollutant and year, as the lines that make them anew.
#[tactic(auto, unfolding(aq_rules::specs::Questions::Answer::answer))]
pub(crate) fn lines_of<L: Ledger>(
    alloc: Global,
    book: &Book,
    site: SiteId,
    pollutant: Pollutant,
    year: u16,
    steps: &mut Steps<L>,
) -> Result<Answer, Memory>
    requires { IsTrue (is_year year) }
    ensures { IfOk result (λ found. answer book.now (question.Lines site pollutant year) ≡ seen found) }
{
    if !book.has_site(site) {
        return Ok(Answer::no_site(site));
    }
    Ok(Answer::Text(lines_text(alloc, book, site, pollutant, year, steps)?))
}

/// The text of those observations.
fn lines_text<L: Ledger>(
    alloc: Global,
    book: &Book,
    site: SiteId,
    pollutant: Pollutant,
    year: u16,
    steps: &mut Steps<L>,
) -> Result<Vec<u8>, Memory>
    ensures { IfOk result (λ text. text.items ≡ lines_answer book.now site pollutant year) }
{
    lines(
        alloc,
        book.shelf(),
        book.registry(),
        site,
        pollutant,
        year,
        steps,
    )
}
