//! What is asked of the office of the tables, which stays as it is: a question, or what an input would make of it.
ghost use Rattle.std.specs.Prelude.{◌≡◌, false, IfErr, IfOk};
ghost use Rattle.aq_keeper.specs.Told.{told_through};
ghost use Rattle.aq_desk.specs.Ask.{IsUnanswered, ask_outcome};
ghost use Rattle.aq_desk.specs.Asked.{IsAskable, asked_printout};
ghost use Rattle.aq_desk.specs.Command.{RisesAt, WritesNothing, printed};
ghost use Rattle.aq_desk.specs.Office.{OnlyMigrates};
ghost use Rattle.aq_outside.specs.Outside.{OfTold};
ghost use Rattle.aq_desk.specs.Stop.{Gives, IsUnprinted, Performs, status_of};
ghost use Rattle.aq_desk.specs.declared.status.TheConstants.{DOOR_FAILED, INPUT_FAILED, KEEPER_FAILED, OUTPUT_FAILED, TOO_LARGE};

use crate::ask::text_of_answer;
use crate::draft::text_of_draft;
use crate::office::open;
use crate::stop::Stop;
use crate::writing::print_text;
use aq_base::{Bytes, Question};
use aq_book::Book;
use aq_forms::Body;
use aq_keeper::Keeper;
use aq_outside::Sink;
use aq_words::Draft;
use std::alloc::Global;

/// What a command asks of the office of the tables.
#[derive(Drop)]
pub(crate) enum Asked<'a> {
    Question(&'a Question),
    /// What a body would make of it.
    Draft(&'a Draft, &'a Body<'a>),
}

/// Prints the answer over the office of the tables, which are let go before.
pub(crate) fn print_asked<K: Keeper, O: Sink>(
    alloc: Global,
    asked: &Asked<'_>,
    keeper: &mut K,
    output: &mut O,
) -> Result<(), Stop>
    requires { IsAskable asked.now }
    ensures told { OfTold (told_through (K.seen keeper.old).tables (K.seen keeper.new).tables)
        (λ rows. Performs (ask_outcome (asked_printout asked.now) rows) result
        (O.seen output.old) (O.seen output.new) (K.seen keeper.old).tables
        (K.seen keeper.new).tables) }
    ensures no_input { (status_of result ≡ INPUT_FAILED → ⊥)
        × (status_of result ≡ TOO_LARGE → ⊥) }
    ensures no_door { status_of result ≡ DOOR_FAILED → ⊥ }
    ensures output_failed { RisesAt OUTPUT_FAILED (status_of result) (O.seen output.old).faults
        (O.seen output.new).faults }
    ensures keeper_failed { RisesAt KEEPER_FAILED (status_of result) (K.seen keeper.old).faults
        (K.seen keeper.new).faults }
    ensures silent { WritesNothing (status_of result) → output.new ≡ output.old }
    ensures gone { (K.seen keeper.new).is_held ≡ false }
    ensures only_migrates { OnlyMigrates (K.seen keeper.old) (K.seen keeper.new) }
{
    let text = answered_and_let_go(alloc, asked, keeper)?;
    print_text(text.as_slice(), output)
}

/// The text of the answer over the office of the tables, which are let go.
fn answered_and_let_go<K: Keeper>(
    alloc: Global,
    asked: &Asked<'_>,
    keeper: &mut K,
) -> Result<Bytes, Stop>
    requires { IsAskable asked.now }
    ensures told { OfTold (told_through (K.seen keeper.old).tables (K.seen keeper.new).tables)
        (λ rows. Gives (ask_outcome (asked_printout asked.now) rows) result
        (K.seen keeper.old).tables (K.seen keeper.new).tables) }
    ensures unprinted { IfErr result IsUnprinted }
    ensures keeper_failed { RisesAt KEEPER_FAILED (status_of result) (K.seen keeper.old).faults
        (K.seen keeper.new).faults }
    ensures gone { (K.seen keeper.new).is_held ≡ false }
    ensures only_migrates { OnlyMigrates (K.seen keeper.old) (K.seen keeper.new) }
{
    let text = answered(alloc, asked, keeper);
    keeper.let_go();
    text
}

/// The text of the answer over the office of the tables.
fn answered<K: Keeper>(alloc: Global, asked: &Asked<'_>, keeper: &mut K) -> Result<Bytes, Stop>
    requires { IsAskable asked.now }
    ensures told { OfTold (told_through (K.seen keeper.old).tables (K.seen keeper.new).tables)
        (λ rows. Gives (ask_outcome (asked_printout asked.now) rows) result
        (K.seen keeper.old).tables (K.seen keeper.new).tables) }
    ensures unprinted { IfErr result IsUnprinted }
    ensures keeper_failed { RisesAt KEEPER_FAILED (status_of result) (K.seen keeper.old).faults
        (K.seen keeper.new).faults }
    ensures only_migrates { OnlyMigrates (K.seen keeper.old) (K.seen keeper.new) }
{
    let book = open(alloc, keeper)?;
    text_of_asked(alloc, &book, asked)
}

/// The text of the answer over an office.
fn text_of_asked(alloc: Global, book: &Book, asked: &Asked<'_>) -> Result<Bytes, Stop>
    requires { IsAskable asked.now }
    ensures text { IfOk result (λ text. asked_printout asked.now book.now ≡ printed text) }
    ensures refused { IfErr result (IsUnanswered (asked_printout asked.now book.now)) }
{
    match asked {
        Asked::Question(question) => text_of_answer(alloc, book, *question),
        Asked::Draft(draft, body) => text_of_draft(alloc, book, *draft, *body),
    }
}
