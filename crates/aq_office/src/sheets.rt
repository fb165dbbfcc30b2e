//! The answers of one sheet or one text.
ghost use Rattle.std.specs.Prelude.{◌≡◌, ◌≤◌, is_ok, IfOk, IsTrue};
ghost use Rattle.aq_base.specs.Calendar.{is_design_year, is_year};
ghost use Rattle.aq_base.specs.declared.question.Question.TheVariants as question;
ghost use Rattle.aq_rules.specs.Office.Office.{Office};
ghost use Rattle.aq_rules.specs.Ozone.OzoneDay as ozone;
ghost use Rattle.aq_rules.specs.Questions.Answer.{answer, is_registered};
ghost use Rattle.aq_rules.specs.Shown.OtherSheets.{report_answer};
ghost use Rattle.aq_office.specs.Answers.{IsShown, seen};

use crate::answers::{Answer, Lack};
use aq_base::{Day, Memory, Pollutant, SiteId, Standard, Steps};
use aq_book::{AskFault, Book, UnknownSite};
use aq_ozone::DayWindows;
use aq_reports::{load_sheet, pm10_sheet, pm25_sheet, report_sheet, value_sheet, windows_sheet};
use aq_sheets::{Sheet, export_of as export_text};
use std::alloc::Global;
use std::sync::ledger::Ledger;

/// The design value of a site.
#[tactic(auto, unfolding(aq_rules::specs::Questions::Answer::answer, aq_rules::specs::Shown::OtherSheets::value_answer))]
pub(crate) fn value_of<L: Ledger>(
    alloc: Global,
    book: &Book,
    standard: Standard,
    site: SiteId,
    year: u16,
    steps: &mut Steps<L>,
) -> Result<Answer, Memory>
    requires { IsTrue (is_design_year year) }
    ensures answer { IfOk result (λ found. answer book.now (question.Value standard site year) ≡ seen found) }
    ensures shown { IfOk result (λ found. IsShown found) }
{
    match book.design_value(standard, site, year, steps) {
        Ok(value) => Answer::of_sheet(alloc, value_sheet(alloc, standard, site, year, &value)?),
        Err(UnknownSite) => Ok(Answer::no_site(site)),
    }
}

/// The design values of all sites.
#[tactic(auto, unfolding(aq_rules::specs::Questions::Answer::answer))]
pub(crate) fn report_of<L: Ledger>(
    alloc: Global,
    book: &Book,
    standard: Standard,
    year: u16,
    steps: &mut Steps<L>,
) -> Result<Answer, Memory>
    requires { IsTrue (is_design_year year) }
    ensures { IfOk result (λ found. answer book.now (question.Report standard year) ≡ seen found) }
{
    Answer::of_sheet(alloc, report_sheet_of(alloc, book, standard, year, steps)?)
}

/// The sheet of the design values of all sites.
pub(crate) fn report_sheet_of<L: Ledger>(
    alloc: Global,
    book: &Book,
    standard: Standard,
    year: u16,
    steps: &mut Steps<L>,
) -> Result<Sheet, Memory>
    requires { IsTrue (is_design_year year) }
    ensures { IfOk result (λ sheet. sheet ≡ report_answer standard book.now year) }
{
    let values = book.report(alloc, standard, year, steps)?;
    report_sheet(alloc, standard, year, values.as_slice())
}

/// The observations of a site, pollutant and year.
#[tactic(auto, unfolding(aq_rules::specs::Questions::Answer::answer, aq_rules::specs::Shown::Export::export_answer))]
pub(crate) fn export_of(
    alloc: Global,
    book: &Book,
    site: SiteId,
    pollutant: Pollutant,
    year: u16,
) -> Result<Answer, Memory>
    requires { IsTrue (is_year year) }
    ensures answer { IfOk result (λ found. answer book.now (question.Export site pollutant year) ≡ seen found) }
    ensures shown { IfOk result (λ found. IsShown found) }
{
    match book.observations(alloc, site, pollutant, year) {
        Ok(rows) => Ok(Answer::Text(export_text(alloc, rows.as_slice())?)),
        Err(AskFault::UnknownSite) => Ok(Answer::no_site(site)),
        Err(AskFault::Memory) => Err(Memory),
    }
}

/// The reply to a load.
#[tactic(auto, unfolding(aq_rules::specs::Questions::Answer::answer))]
pub(crate) fn reply_of(alloc: Global, book: &Book, number: u32) -> Result<Answer, Memory>
    ensures { IfOk result (λ found. answer book.now (question.Reply number) ≡ seen found) }
{
    match book.reply_of(number) {
        Some(reply) => Answer::of_sheet(alloc, load_sheet(alloc, reply)?),
        None => Ok(Answer::Lacks(Lack::NoLoad(number))),
    }
}

/// The 8-hour averages of a day.
pub(crate) fn windows_of<L: Ledger>(
    alloc: Global,
    book: &Book,
    site: SiteId,
    day: Day,
    steps: &mut Steps<L>,
) -> Result<Answer, Memory>
    ensures { IfOk result (λ found. answer book.now (question.Windows site day) ≡ seen found) }
{
    answer_of_windows(alloc, site, day, book.windows(site, day, steps))
}

/// The 8-hour averages of a day, which were found in an office, or that the site is not registered in it.
#[tactic(auto, unfolding(aq_rules::specs::Questions::Answer::answer, aq_rules::specs::Shown::Sheets::windows_answer))]
pub(crate) fn answer_of_windows(
    alloc: Global,
    site: SiteId,
    day: Day,
    found: Result<DayWindows, UnknownSite>,
) -> Result<Answer, Memory>
    ensures { (office : Office) → is_ok found ≡ is_registered office site
        → IfOk found (λ windows. windows ≡ ozone.windows office site day)
        → IfOk result (λ found. answer office (question.Windows site day) ≡ seen found) }
{
    match found {
        Ok(windows) => Answer::of_sheet(alloc, windows_sheet(alloc, site, day, &windows)?),
        Err(UnknownSite) => Ok(Answer::no_site(site)),
    }
}

/// The PM2.5 quarters of a year.
#[tactic(auto, unfolding(aq_rules::specs::Questions::Answer::answer, aq_rules::specs::Shown::ParticleSheets::pm25_answer))]
pub(crate) fn pm25_of<L: Ledger>(
    alloc: Global,
    book: &Book,
    site: SiteId,
    year: u16,
    steps: &mut Steps<L>,
) -> Result<Answer, Memory>
    requires { IsTrue (is_year year) }
    ensures { IfOk result (λ found. answer book.now (question.Pm25 site year) ≡ seen found) }
{
    match book.pm25_year(site, year, steps) {
        Ok(parts) => Answer::of_sheet(alloc, pm25_sheet(alloc, site, year, &parts)?),
        Err(UnknownSite) => Ok(Answer::no_site(site)),
    }
}

/// The PM10 quarters of a year.
#[tactic(auto, unfolding(aq_rules::specs::Questions::Answer::answer, aq_rules::specs::Shown::ParticleSheets::pm10_answer))]
pub(crate) fn pm10_of<L: Ledger>(
    alloc: Global,
    book: &Book,
    site: SiteId,
    year: u16,
    steps: &mut Steps<L>,
) -> Result<Answer, Memory>
    requires { IsTrue (is_year year) }
    ensures { IfOk result (λ found. answer book.now (question.Pm10 site year) ≡ seen found) }
{
    match book.pm10_year(site, year, steps) {
        Ok(parts) => Answer::of_sheet(alloc, pm10_sheet(alloc, site, year, &parts)?),
        Err(UnknownSite) => Ok(Answer::no_site(site)),
    }
}
