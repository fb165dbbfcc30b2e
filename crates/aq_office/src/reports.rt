//! The reports of a year.
ghost use Rattle.std.specs.Prelude.{◌≡◌, IfOk, IsTrue, map};
ghost use Rattle.aq_base.specs.Calendar.{is_design_year};
ghost use Rattle.aq_base.specs.declared.question.Question.TheVariants as question;
ghost use Rattle.aq_rules.specs.Questions.Answer.{answer};
ghost use Rattle.aq_rules.specs.Shown.OtherSheets.{report_answer};
ghost use Rattle.aq_office.specs.Answers.{seen};

use crate::answers::Answer;
use crate::sheets::report_sheet_of;
use aq_base::{Items, Memory, Standard, Steps};
use aq_book::Book;
use aq_sheets::Sheet;
use std::alloc::Global;
use std::sync::ledger::Ledger;

/// The reports on all standards, in their order.
#[tactic(auto, unfolding(aq_rules::specs::Questions::Answer::answer))]
pub(crate) fn reports_of<L: Ledger>(
    alloc: Global,
    book: &Book,
    year: u16,
    steps: &mut Steps<L>,
) -> Result<Answer, Memory>
    requires { IsTrue (is_design_year year) }
    ensures { IfOk result (λ found. answer book.now (question.Reports year) ≡ seen found) }
{
    let sheets = each_report(alloc, book, &Standard::all(), year, steps)?;
    Ok(Answer::Sheets(sheets))
}

/// The reports on these standards.
fn each_report<L: Ledger>(
    alloc: Global,
    book: &Book,
    standards: &[Standard],
    year: u16,
    steps: &mut Steps<L>,
) -> Result<Items<Sheet>, Memory>
    requires { IsTrue (is_design_year year) }
    ensures { IfOk result (λ sheets. sheets
        ≡ map (λ standard. report_answer standard book.now year) standards.now) }
{
    let mut sheets = Items::new(alloc);
    for standard in standards {
        sheets.push(report_sheet_of(alloc, book, *standard, year, steps)?)?;
    }
    Ok(sheets)
}
