//! The changes for an extract.
ghost use Rattle.std.specs.Prelude.{◌≡◌, ◌≤◌, length, IfOk};
ghost use Rattle.aq_staging.specs.Extracts.Answers.{answer_in};
ghost use Rattle.aq_staging.specs.Extracts.Judging.{span_of};
ghost use Rattle.aq_staging.specs.Extracts.Texts.{change_lines};
ghost use Rattle.aq_rules.specs.Extracts.Changes as changes;
ghost use Rattle.aq_rules.specs.Extracts.Changes.{changes_answer};
ghost use Rattle.aq_rules.specs.Limits.{MOST_BYTES};
ghost use Rattle.aq_series.specs.OfficeView.{office_of};

use crate::extracts::days::Days;
use crate::extracts::deletions::add_deletions;
use crate::extracts::extract::{ExtractFault, read_extract};
use crate::extracts::puts::add_puts;
use aq_base::{Bytes, Day, Memory, Rule, Steps};
use aq_registry::Registry;
use aq_shelf::Shelf;
use std::alloc::Global;
use std::sync::ledger::Ledger;

/// What is answered to an extract. The book's answer is `answer_in` of it.
#[derive(Debug, Drop)]
pub enum ChangesAnswer {
    /// The line breaks the rule, and no line before it breaks one.
    RefusedAt { line: u32, rule: Rule },
    /// The lines of the changes: deletions, then updates, then insertions, each in the order of keys.
    OfLines(Bytes),
}

/// The lines that, loaded, make what stands what an extract says, or the first line of the extract that
/// breaks a rule. The extract has the samples of some monitors on the days from the first to the last: at those
/// monitors, on those days, nothing else is to stand. Nothing is written. A body has at most 8,388,608 bytes. It
/// costs some searches for each line, and one for each observation that stands at these monitors on these days.
#[tactic(auto, unfolding(aq_rules::specs::Extracts::Changes::changes_answer))]
pub fn changes<L: Ledger>(
    alloc: Global,
    shelf: &Shelf,
    registry: &Registry,
    first: Day,
    last: Day,
    body: &[u8],
    steps: &mut Steps<L>,
) -> Result<ChangesAnswer, Memory>
    requires { length body.now ≤ MOST_BYTES }
    ensures { IfOk result (λ answer. answer_in answer ≡ changes_answer (record { first = first; last = last }) (office_of registry.now shelf.now) body.now) }
{
    let days = Days { first, last };
    match read_extract(alloc, registry, &days, body) {
        Ok(rows) => answer_for(alloc, shelf, registry, &days, &rows, steps),
        Err(ExtractFault::Refused { line, rule }) => Ok(ChangesAnswer::RefusedAt { line, rule }),
        Err(ExtractFault::Memory) => Err(Memory),
    }
}

/// The answer to an extract of these rows.
fn answer_for<L: Ledger>(
    alloc: Global,
    shelf: &Shelf,
    registry: &Registry,
    days: &Days,
    rows: &Shelf,
    steps: &mut Steps<L>,
) -> Result<ChangesAnswer, Memory>
    ensures { IfOk result (λ answer. answer_in answer ≡ changes.answer_for (span_of days.now) (office_of registry.now shelf.now) (changes.Says rows.now)) }
{
    let text = change_lines(alloc, shelf, registry, days, rows, steps)?;
    Ok(ChangesAnswer::OfLines(Bytes::from_vec(text)))
}

/// The lines of the changes for the rows of an extract.
fn change_lines<L: Ledger>(
    alloc: Global,
    shelf: &Shelf,
    registry: &Registry,
    days: &Days,
    rows: &Shelf,
    steps: &mut Steps<L>,
) -> Result<Vec<u8>, Memory>
    ensures { IfOk result (λ text. text.items ≡ change_lines (span_of days.now) (office_of registry.now shelf.now) rows.now) }
{
    let mut text = Vec::new(alloc);
    add_deletions(alloc, &mut text, days, shelf, rows, steps)?;
    let mut insertions = Vec::new(alloc);
    add_puts(
        alloc,
        &mut text,
        &mut insertions,
        shelf,
        registry,
        rows,
        steps,
    )?;
    text.extend_from_slice(&insertions)?;
    Ok(text)
}
