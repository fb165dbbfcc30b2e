//! The design value of sites that are combined.
ghost use Rattle.std.specs.Prelude.{◌≡◌, IfOk, IsTrue};
ghost use Rattle.aq_base.specs.Calendar.{is_design_year};
ghost use Rattle.aq_base.specs.declared.question.Question.TheVariants.{Combined};
ghost use Rattle.aq_rules.specs.Questions.Answer.{answer, is_registered};
ghost use Rattle.aq_office.specs.Answers.{IsShown, seen};

use crate::answers::{Answer, Lack};
use aq_base::{Memory, SiteId, Standard, Steps};
use aq_book::Book;
use aq_design::combined::pair_value;
use aq_reports::value_sheet;
use std::alloc::Global;
use std::sync::ledger::Ledger;

/// The design value of a site and the one that is joined to it.
#[tactic(auto, unfolding(aq_rules::specs::Questions::Answer::answer), using(crate::proofs::Joining::value_over))]
pub(crate) fn combined_of<L: Ledger>(
    alloc: Global,
    book: &Book,
    standard: Standard,
    site: SiteId,
    year: u16,
    steps: &mut Steps<L>,
) -> Result<Answer, Memory>
    requires { IsTrue (is_design_year year) }
    ensures answer { IfOk result (λ found. answer book.now (Combined standard site year) ≡ seen found) }
    ensures shown { IfOk result (λ found. IsShown found) }
{
    if !is_registered(book, site) {
        return Ok(Answer::no_site(site));
    }
    let value = pair_value(book.shelf(), book.registry(), standard, site, year, steps);
    match value {
        Some(value) => Answer::of_sheet(alloc, value_sheet(alloc, standard, site, year, &value)?),
        None => Ok(Answer::Lacks(Lack::NoCombination(site))),
    }
}

/// Whether a monitor of a site is registered.
fn is_registered(book: &Book, site: SiteId) -> bool
    ensures { result ≡ is_registered book.now site }
{
    book.registry().has_site(site)
}
