//! The commands that say what an input would make of the office: `try` and `changes`.
ghost use Rattle.std.specs.Prelude.{◌≡◌, ◌<◌, ◌⊎◌, true, false, IfErr, IfOk};
ghost use Rattle.aq_staging.specs.Extracts.Answers.{answer_in};
ghost use Rattle.aq_keeper.specs.Told.{told_through};
ghost use Rattle.aq_rules.specs.Extracts.Changes.{changes_answer};
ghost use Rattle.aq_desk.specs.Ask.{IsUnanswered};
ghost use Rattle.aq_desk.specs.Command.{RisesAt, WritesNothing, printed};
ghost use Rattle.aq_desk.specs.Draft.{draft_outcome, draft_printout};
ghost use Rattle.aq_desk.specs.Office.{OnlyMigrates};
ghost use Rattle.aq_outside.specs.Outside.{OfTold};
ghost use Rattle.aq_desk.specs.Stop.{HasCauses, HasRead, IsMeasured, Performs, status_of};
ghost use Rattle.aq_words.specs.declared.words.Draft.TheVariants.{Changes, Try};
ghost use Rattle.aq_desk.specs.declared.status.TheConstants.{DOOR_FAILED, INPUT_FAILED, KEEPER_FAILED, OUTPUT_FAILED, TOO_LARGE};

use crate::asked::{Asked, print_asked};
use crate::body::{body_of, read_body};
use crate::stop::Stop;
use aq_base::{Bytes, Day, Memory, Steps};
use aq_book::Book;
use aq_forms::Body;
use aq_keeper::Keeper;
use aq_outside::{Sink, Source};
use aq_reports::load_sheet;
use aq_sheets::text_of;
use aq_staging::extracts::{ChangesAnswer, changes};
use aq_words::Draft;
use std::alloc::Global;
use std::marker::Brand;
use std::sync::ledger::{Blank, Ledger};

/// Reads the input, and prints what it would make of the office of the tables, which are let go before.
pub(crate) fn draft<K: Keeper, S: Source, O: Sink>(
    alloc: Global,
    draft: &Draft,
    keeper: &mut K,
    input: &mut S,
    output: &mut O,
) -> Result<(), Stop>
    ensures told { OfTold (told_through (K.seen keeper.old).tables (K.seen keeper.new).tables)
        (λ rows. OfTold (S.seen input.old).left (λ body. Performs
        (draft_outcome draft.now rows body) result (O.seen output.old) (O.seen output.new)
        (K.seen keeper.old).tables (K.seen keeper.new).tables × IsMeasured true body
        (status_of result))) }
    ensures causes { HasCauses (status_of result) (S.seen input.old) (S.seen input.new)
        (O.seen output.old) (O.seen output.new) }
    ensures read { HasRead (status_of result) (S.seen input.old).left (S.seen input.new).left }
    ensures keeper_failed { RisesAt KEEPER_FAILED (status_of result) (K.seen keeper.old).faults
        (K.seen keeper.new).faults }
    ensures no_door { status_of result ≡ DOOR_FAILED → ⊥ }
    ensures silent { WritesNothing (status_of result) → output.new ≡ output.old }
    ensures gone { (output.new ≡ output.old) ⊎ ((K.seen keeper.new).is_held ≡ false) }
    ensures only_migrates { OnlyMigrates (K.seen keeper.old) (K.seen keeper.new) }
{
    let bytes = read_body(alloc, input)?;
    let body = body_of(&bytes)?;
    print_asked(alloc, &Asked::Draft(draft, &body), keeper, output)
}

/// The text of what a body would make of an office.
pub(crate) fn text_of_draft(
    alloc: Global,
    book: &Book,
    draft: &Draft,
    body: &Body<'_>,
) -> Result<Bytes, Stop>
    ensures text { IfOk result (λ text. draft_printout draft.now body.now book.now ≡ printed text) }
    ensures refused { IfErr result (IsUnanswered (draft_printout draft.now body.now book.now)) }
{
    match draft {
        Draft::Try => text_of_reply(alloc, book, body),
        Draft::Changes { first, last } => text_of_changes(alloc, book, *first, *last, body),
    }
}

/// The text of the reply that a load of a body would get.
#[tactic(auto, unfolding(crate::specs::Draft::draft_printout, aq_rules::specs::Extracts::Try::try_answer))]
fn text_of_reply(alloc: Global, book: &Book, body: &Body<'_>) -> Result<Bytes, Stop>
    ensures text { IfOk result (λ text. draft_printout Try body.now book.now ≡ printed text) }
    ensures refused { IfErr result (IsUnanswered (draft_printout Try body.now book.now)) }
{
    // A load with this number is not kept, and its digest is not looked at.
    let staged = book.stage(alloc, 0, [0; 32], body)?;
    let sheet = load_sheet(alloc, staged.reply())?;
    Ok(Bytes::from_vec(text_of(alloc, &sheet)?))
}

/// The text of the lines for an extract.
fn text_of_changes(
    alloc: Global,
    book: &Book,
    first: Day,
    last: Day,
    body: &Body<'_>,
) -> Result<Bytes, Stop>
    ensures text { IfOk result (λ text. draft_printout (Changes first last) body.now book.now ≡ printed text) }
    ensures refused { IfErr result (IsUnanswered (draft_printout (Changes first last) body.now book.now)) }
{
    match uncounted::<Brand>(alloc, book, first, last, body, Blank::new(1))? {
        ChangesAnswer::OfLines(text) => Ok(text),
        ChangesAnswer::RefusedAt { line, rule } => Err(Stop::Refused { line, rule }),
    }
}

/// The answer to an extract, on a counter of its own, which nobody reads.
fn uncounted<L: Ledger>(
    alloc: Global,
    book: &Book,
    first: Day,
    last: Day,
    body: &Body<'_>,
    blank: Blank,
) -> Result<ChangesAnswer, Memory>
    requires name { blank.name ≡ L.name }
    requires parts { blank.parts ≡ L.parts }
    requires some { 0 < L.parts }
    ensures { IfOk result (λ answer. answer_in answer ≡ changes_answer (record { first = first; last = last }) book.now body.now) }
{
    let mut steps = Steps::<L>::new(blank);
    changes(
        alloc,
        book.shelf(),
        book.registry(),
        first,
        last,
        body.text(),
        &mut steps,
    )
}
