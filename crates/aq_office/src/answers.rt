//! The answers to questions about an office.
ghost use Rattle.std.specs.Prelude.{◌≡◌, ◌<◌, IfOk, IsTrue};
ghost use Rattle.aq_base.specs.declared.question.Question.{Question as Asked};
ghost use Rattle.aq_base.specs.declared.question.Question.TheVariants.{Windows};
ghost use Rattle.aq_book.specs.Staged.{office_with, Fits};
ghost use Rattle.aq_rules.specs.Office.Office.{IsOffice, Office};
ghost use Rattle.aq_rules.specs.Questions.Answer as questions;
ghost use Rattle.aq_rules.specs.Questions.Asking.{is_asked};
ghost use Rattle.aq_rules.specs.Shown.WellFormed.{IsWellFormed};
ghost use Rattle.aq_office.specs.Answers.{IsShown, seen};
ghost use Rattle.aq_office.specs.Shown.{AreWellFormed, has_law};

use crate::area::area_of;
use crate::combined::combined_of;
use crate::daily::daily_of;
use crate::days::days_of;
use crate::highest::highest_of;
use crate::lists::{
    completeness_of, events_of, flags_of, lines_of, monitors_of, records_of, sites_of,
};
use crate::loads::loads_of;
use crate::reports::reports_of;
use crate::sheets::{
    answer_of_windows, export_of, pm10_of, pm25_of, reply_of, report_of, value_of, windows_of,
};
use crate::what_if::{decisive_of, what_if_of};
use aq_base::{Day, Items, Memory, Question, SiteId, Steps};
use aq_book::{Book, Staged};
use aq_rules::shown::well_formed::{answers_are_well_formed, sheets_of_lists_are_well_formed};
use aq_sheets::{Sheet, list};
use std::alloc::Global;
use std::marker::Brand;
use std::sync::ledger::{Blank, Ledger};

/// The answer to a question about an office.
#[derive(Debug, Drop)]
pub enum Answer {
    /// One sheet or more.
    Sheets(Items<Sheet>),
    /// A text, as that of a CSV file.
    Text(Vec<u8>),
    /// There is none, for want of this.
    Lacks(Lack),
}

/// What is not there.
#[derive(Clone, Copy, Debug, PartialEq, Eq)]
pub enum Lack {
    /// No monitor of the site is registered.
    NoSite(SiteId),
    /// No event has the number.
    NoEvent(u32),
    /// No site is joined to the site for the standard's pollutant.
    NoCombination(SiteId),
    /// No registered site of the area has a monitor of the standard's pollutant.
    NoSiteInArea,
    /// No load has the number.
    NoLoad(u32),
}

impl Answer {
    /// The answer of one sheet.
    pub(crate) fn of_sheet(alloc: Global, sheet: Sheet) -> Result<Answer, Memory>
        ensures answer { IfOk result (λ found. questions.of_sheet sheet ≡ seen found) }
        ensures shown { IsWellFormed sheet → IfOk result (λ found. IsShown found) }
    {
        Ok(Answer::Sheets(list(alloc, [sheet])?))
    }

    /// That no monitor of a site is registered.
    pub(crate) fn no_site(site: SiteId) -> Answer
        ensures answer { seen result ≡ questions.Lacks (questions.NoSite site) }
        ensures shown { IsShown result }
    {
        Answer::Lacks(Lack::NoSite(site))
    }
}

/// The answer to a question. Nobody counts the steps.
pub fn answer_to(alloc: Global, book: &Book, question: &Question) -> Result<Answer, Memory>
    requires range { IsTrue (is_asked question.now) }
    ensures answer { IfOk result (λ found. questions.answer book.now question.now ≡ seen found) }
    ensures shown { IsOffice book.now → IfOk result (λ found. IsShown found) }
{
    counted::<Brand>(alloc, book, question, Blank::new(1))
}

/// The answer to a day's 8-hour averages over the office that a load leaves which fits the book: one that was
/// staged on it. No cell of that office is brought up to date for it, and the book is gone. Nobody counts the
/// steps.
pub fn windows_answer_after(
    alloc: Global,
    book: Book,
    staged: Staged,
    site: SiteId,
    day: Day,
) -> Result<Answer, Memory>
    requires { Fits staged book }
    ensures { IfOk result (λ found. questions.answer (office_with staged book) (Windows site day) ≡ seen found) }
{
    windows_after::<Brand>(alloc, book, staged, site, day, Blank::new(1))
}

/// The same on a counter of its own, which nobody reads.
fn windows_after<L: Ledger>(
    alloc: Global,
    book: Book,
    staged: Staged,
    site: SiteId,
    day: Day,
    blank: Blank,
) -> Result<Answer, Memory>
    requires name { blank.name ≡ L.name }
    requires parts { blank.parts ≡ L.parts }
    requires some { 0 < L.parts }
    requires fits { Fits staged book }
    ensures { IfOk result (λ found. questions.answer (office_with staged book) (Windows site day) ≡ seen found) }
{
    let mut steps = Steps::<L>::new(blank);
    let found = book.windows_after(staged, site, day, &mut steps)?;
    answer_of_windows(alloc, site, day, found)
}

/// The same on a counter of its own, which nobody reads.
fn counted<L: Ledger>(
    alloc: Global,
    book: &Book,
    question: &Question,
    blank: Blank,
) -> Result<Answer, Memory>
    requires name { blank.name ≡ L.name }
    requires parts { blank.parts ≡ L.parts }
    requires some { 0 < L.parts }
    requires range { IsTrue (is_asked question.now) }
    ensures answer { IfOk result (λ found. questions.answer book.now question.now ≡ seen found) }
    ensures shown { IsOffice book.now → IfOk result (λ found. IsShown found) }
{
    answers_of_an_office_are_well_formed();
    let mut steps = Steps::<L>::new(blank);
    match *question {
        Question::Value(standard, site, year) => {
            value_of(alloc, book, standard, site, year, &mut steps)
        }
        Question::Report(standard, year) => report_of(alloc, book, standard, year, &mut steps),
        Question::Export(site, pollutant, year) => export_of(alloc, book, site, pollutant, year),
        Question::WhatIf(standard, site, year, assumed) => what_if_of(
            alloc,
            book,
            standard,
            site,
            year,
            assumed.as_slice(),
            &mut steps,
        ),
        Question::Decisive(standard, site, year) => {
            decisive_of(alloc, book, standard, site, year, &mut steps)
        }
        Question::Combined(standard, site, year) => {
            combined_of(alloc, book, standard, site, year, &mut steps)
        }
        Question::Area(standard, area, year) => {
            area_of(alloc, book, standard, &area, year, &mut steps)
        }
        Question::Reply(number) => reply_of(alloc, book, number),
        Question::Windows(site, day) => windows_of(alloc, book, site, day, &mut steps),
        Question::Days(site, year) => days_of(alloc, book, site, year, &mut steps),
        Question::Pm25(site, year) => pm25_of(alloc, book, site, year, &mut steps),
        Question::Pm10(site, year) => pm10_of(alloc, book, site, year, &mut steps),
        Question::Sites => sites_of(alloc, book),
        Question::Monitors(site) => monitors_of(alloc, book, site, &mut steps),
        Question::Events(site) => events_of(alloc, book, site, &mut steps),
        Question::Flags(site, pollutant, year) => {
            flags_of(alloc, book, site, pollutant, year, &mut steps)
        }
        Question::Loads => loads_of(alloc, book),
        Question::Daily(site, pollutant, year) => {
            daily_of(alloc, book, site, pollutant, year, &mut steps)
        }
        Question::Highest(site, pollutant, year) => {
            highest_of(alloc, book, site, pollutant, year, &mut steps)
        }
        Question::Completeness(site, pollutant, year) => {
            completeness_of(alloc, book, site, pollutant, year, &mut steps)
        }
        Question::Reports(year) => reports_of(alloc, book, year, &mut steps),
        Question::Records => records_of(alloc, book),
        Question::Lines(site, pollutant, year) => {
            lines_of(alloc, book, site, pollutant, year, &mut steps)
        }
    }
}

/// In a valid office the answers of which the laws speak are well formed.
fn answers_of_an_office_are_well_formed()
    ensures { (office : Office) (question : Asked)
        → IsOffice office → IsTrue (is_asked question) → IsTrue (has_law question) → AreWellFormed (questions.answer office question) }
{
    answers_are_well_formed();
    sheets_of_lists_are_well_formed();
}
