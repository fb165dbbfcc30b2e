//! The sheet of a year's ozone days.
ghost use Rattle.std.specs.Prelude.{◌≡◌, IfErr, IfOk, IsTrue, OnOk, false, map, true};
ghost use Rattle.aq_base.specs.Calendar.{is_year};
ghost use Rattle.aq_base.specs.declared.question.Question.TheVariants.{Days};
ghost use Rattle.aq_book.specs.declared.fault.AskFault.TheVariants.{UnknownSite};
ghost use Rattle.aq_rules.specs.Office.Approval.{is_approved};
ghost use Rattle.aq_rules.specs.Ozone.OzoneYear as years;
ghost use Rattle.aq_rules.specs.Questions.Answer.{answer, is_registered};
ghost use Rattle.aq_rules.specs.Shown.Sheets.{days_answer};
ghost use Rattle.aq_office.specs.Answers.{seen};

use crate::answers::Answer;
use aq_base::{Day, Items, Memory, SiteId, Steps};
use aq_book::{AskFault, Book};
use aq_cal::year_span;
use aq_reports::days_sheet;
use aq_sheets::Sheet;
use std::alloc::Global;
use std::sync::ledger::Ledger;

/// The ozone days of a year.
#[tactic(auto, unfolding(aq_rules::specs::Questions::Answer::answer))]
pub(crate) fn days_of<L: Ledger>(
    alloc: Global,
    book: &Book,
    site: SiteId,
    year: u16,
    steps: &mut Steps<L>,
) -> Result<Answer, Memory>
    requires { IsTrue (is_year year) }
    ensures { IfOk result (λ found. answer book.now (Days site year) ≡ seen found) }
{
    match sheet_of(alloc, book, site, year, steps) {
        Ok(sheet) => Answer::of_sheet(alloc, sheet),
        Err(AskFault::UnknownSite) => Ok(Answer::no_site(site)),
        Err(AskFault::Memory) => Err(Memory),
    }
}

/// The sheet of the days, if the site is registered.
fn sheet_of<L: Ledger>(
    alloc: Global,
    book: &Book,
    site: SiteId,
    year: u16,
    steps: &mut Steps<L>,
) -> Result<Sheet, AskFault>
    requires { IsTrue (is_year year) }
    ensures sheet { IfOk result (λ sheet. sheet ≡ days_answer book.now site year) }
    ensures registered { OnOk result (is_registered book.now site ≡ true) }
    ensures refused { IfErr result
        (λ fault. fault ≡ UnknownSite → is_registered book.now site ≡ false) }
{
    let days = book.ozone_days(alloc, site, year, steps)?;
    let season = book.season(site, year)?;
    let totals = book.ozone_year(site, year, steps)?;
    let approved = approved_days(alloc, book, site, year)?;
    let sheet = days_sheet(
        alloc,
        site,
        year,
        season,
        days.as_slice(),
        approved.as_slice(),
        &totals,
    )?;
    Ok(sheet)
}

/// Whether each day of a year counts as valid by approval, if the site is registered.
fn approved_days(
    alloc: Global,
    book: &Book,
    site: SiteId,
    year: u16,
) -> Result<Items<bool>, AskFault>
    requires { IsTrue (is_year year) }
    ensures approved { IfOk result (λ approved. approved
        ≡ map (is_approved book.now.records site) (years.days_of year)) }
    ensures refused { IfErr result
        (λ fault. fault ≡ UnknownSite → is_registered book.now site ≡ false) }
{
    let (first, count) = year_span(year);
    let mut approved = Items::new(alloc);
    for i in 0..count {
        let counts = book.is_approved(site, Day::new(first.number() + i))?;
        approved.push(counts)?;
    }
    Ok(approved)
}
