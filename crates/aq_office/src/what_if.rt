//! What would be if events were concurred in or not.
ghost use Rattle.std.specs.Prelude.{◌≡◌, IfErr, IfOk, IsTrue, List, None, OnOk, map, true};
ghost use Rattle.aq_base.specs.Calendar.{is_design_year};
ghost use Rattle.aq_base.specs.declared.question.Question.TheVariants as question;
ghost use Rattle.aq_rules.specs.Questions.Answer.{answer, is_registered};
ghost use Rattle.aq_rules.specs.Shown.AreaSheets.{decisive_row};
ghost use Rattle.aq_rules.specs.WhatIf.Assumed as assuming;
ghost use Rattle.aq_verdict.specs.Designs.{design_of};
ghost use Rattle.aq_design.specs.WhatIf.Refusals.{IsFaultOf};
ghost use Rattle.aq_office.specs.Answers.{IsRefusal, IsShown, seen};

use crate::answers::{Answer, Lack};
use aq_base::{Assumed, DecisiveEvent, Memory, SiteId, Standard, Steps, Verdict};
use aq_book::{Book, UnknownSite};
use aq_design::what_if::{DecisiveEvents, WhatIfFault, decisive, what_if};
use aq_reports::{decisive_sheet, value_sheet};
use aq_verdict::DesignValue;
use std::alloc::Global;
use std::sync::ledger::Ledger;

/// The design value of a site under assumed concurrences.
#[tactic(auto, unfolding(aq_rules::specs::Questions::Answer::answer, aq_rules::specs::Shown::AreaSheets::what_if_answer))]
pub(crate) fn what_if_of<L: Ledger>(
    alloc: Global,
    book: &Book,
    standard: Standard,
    site: SiteId,
    year: u16,
    assumed: &[Assumed],
    steps: &mut Steps<L>,
) -> Result<Answer, Memory>
    requires { IsTrue (is_design_year year) }
    ensures answer { IfOk result (λ found. answer book.now (question.WhatIf standard site year assumed.now) ≡ seen found) }
    ensures shown { IfOk result (λ found. IsShown found) }
{
    match value_as_if(book, standard, site, year, assumed, steps) {
        Ok(value) => Answer::of_sheet(alloc, value_sheet(alloc, standard, site, year, &value)?),
        Err(fault) => refusal(fault, site),
    }
}

/// The design value under assumed concurrences.
fn value_as_if<L: Ledger>(
    book: &Book,
    standard: Standard,
    site: SiteId,
    year: u16,
    assumed: &[Assumed],
    steps: &mut Steps<L>,
) -> Result<DesignValue, WhatIfFault>
    requires { IsTrue (is_design_year year) }
    ensures value { IfOk result (λ value. design_of value
        ≡ assuming.what_if standard book.now assumed.now site year) }
    ensures registered { OnOk result (is_registered book.now site ≡ true) }
    ensures known { OnOk result (assuming.unknown_event book.now assumed.now ≡ None) }
    ensures refused { IfErr result (IsFaultOf (is_registered book.now site)
        (assuming.unknown_event book.now assumed.now)) }
{
    what_if(
        book.shelf(),
        book.registry(),
        assumed,
        standard,
        site,
        year,
        steps,
    )
}

/// The events that decide the verdict of a site.
#[tactic(auto, unfolding(aq_rules::specs::Questions::Answer::answer, aq_rules::specs::Shown::AreaSheets::decisive_answer))]
pub(crate) fn decisive_of<L: Ledger>(
    alloc: Global,
    book: &Book,
    standard: Standard,
    site: SiteId,
    year: u16,
    steps: &mut Steps<L>,
) -> Result<Answer, Memory>
    requires { IsTrue (is_design_year year) }
    ensures answer { IfOk result (λ found. answer book.now (question.Decisive standard site year) ≡ seen found) }
    ensures shown { IfOk result (λ found. IsShown found) }
{
    let verdict = match book.design_value(standard, site, year, steps) {
        Ok(value) => value.verdict(),
        Err(UnknownSite) => return Ok(Answer::no_site(site)),
    };
    match events_of(alloc, book, standard, site, year, steps) {
        Ok(events) => {
            let rows = rows_of(alloc, events.as_slice())?;
            let sheet = decisive_sheet(alloc, standard, site, year, verdict, &rows)?;
            Answer::of_sheet(alloc, sheet)
        }
        Err(fault) => refusal(fault, site),
    }
}

/// The events that decide the verdict.
fn events_of<L: Ledger>(
    alloc: Global,
    book: &Book,
    standard: Standard,
    site: SiteId,
    year: u16,
    steps: &mut Steps<L>,
) -> Result<DecisiveEvents, WhatIfFault>
    requires { IsTrue (is_design_year year) }
    ensures events { IfOk result (λ events. events
        ≡ assuming.decisive standard book.now site year) }
    ensures registered { OnOk result (is_registered book.now site ≡ true) }
    ensures refused { IfErr result (IsFaultOf (is_registered book.now site) None) }
{
    decisive(
        alloc,
        book.shelf(),
        book.registry(),
        standard,
        site,
        year,
        steps,
    )
}

/// The rows of a sheet of events.
fn rows_of(alloc: Global, events: &[DecisiveEvent]) -> Result<Vec<(u32, Verdict)>, Memory>
    ensures { IfOk result (λ rows. rows.items ≡ map decisive_row events.now) }
{
    let mut rows = Vec::new(alloc);
    for event in events {
        rows.push((event.number, event.verdict))?;
    }
    Ok(rows)
}

/// What is answered if there is no value.
fn refusal(fault: WhatIfFault, site: SiteId) -> Result<Answer, Memory>
    ensures missing { IfOk result (IsRefusal fault site) }
    ensures shown { IfOk result (λ found. IsShown found) }
{
    match fault {
        WhatIfFault::UnknownSite => Ok(Answer::no_site(site)),
        WhatIfFault::UnknownEvent(number) => Ok(Answer::Lacks(Lack::NoEvent(number))),
        WhatIfFault::Memory => Err(Memory),
    }
}
