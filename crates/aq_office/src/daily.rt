//! The days of a year.
ghost use Rattle.std.specs.Prelude.{◌≡◌, IfOk, IsTrue};
ghost use Rattle.aq_base.specs.Calendar.{is_year};
ghost use Rattle.aq_base.specs.declared.question.Question.TheVariants as question;
ghost use Rattle.aq_rules.specs.Questions.Answer.{answer};
ghost use Rattle.aq_office.specs.Answers.{seen};

use crate::answers::Answer;
use crate::days::days_of;
use aq_base::{Memory, Pollutant, SiteId, Steps};
use aq_book::Book;
use aq_reports::daily::{pm10_days, pm25_days};
use std::alloc::Global;
use std::sync::ledger::Ledger;

/// The days of a year: of ozone its days sheet, of the particles what each day has and counts for.
#[tactic(auto, unfolding(aq_rules::specs::Questions::Answer::answer))]
pub(crate) fn daily_of<L: Ledger>(
    alloc: Global,
    book: &Book,
    site: SiteId,
    pollutant: Pollutant,
    year: u16,
    steps: &mut Steps<L>,
) -> Result<Answer, Memory>
    requires { IsTrue (is_year year) }
    ensures { IfOk result (λ found. answer book.now (question.Daily site pollutant year) ≡ seen found) }
{
    if !book.has_site(site) {
        return Ok(Answer::no_site(site));
    }
    match pollutant {
        Pollutant::Ozone => days_of(alloc, book, site, year, steps),
        Pollutant::Pm25 => {
            let sheet = pm25_days(alloc, book, site, year)?;
            Answer::of_sheet(alloc, sheet)
        }
        Pollutant::Pm10 => {
            let sheet = pm10_days(alloc, book, site, year)?;
            Answer::of_sheet(alloc, sheet)
        }
    }
}
