//! The commands that ask.
ghost use Rattle.std.specs.Prelude.{◌≡◌, false, IfErr, IfOk, IsTrue};
ghost use Rattle.aq_keeper.specs.Told.{told_through};
ghost use Rattle.aq_office.specs.Answers.{seen};
ghost use Rattle.aq_rules.specs.Questions.Asking.{is_asked};
ghost use Rattle.aq_desk.specs.Ask.{IsUnanswered, answered, ask_outcome, ask_printout};
ghost use Rattle.aq_desk.specs.Command.{RisesAt, WritesNothing, printed};
ghost use Rattle.aq_desk.specs.Office.{OnlyMigrates};
ghost use Rattle.aq_outside.specs.Outside.{OfTold};
ghost use Rattle.aq_desk.specs.Stop.{Performs, status_of};
ghost use Rattle.aq_desk.specs.declared.status.TheConstants.{DOOR_FAILED, INPUT_FAILED, KEEPER_FAILED, OUTPUT_FAILED, TOO_LARGE};

use crate::asked::{Asked, print_asked};
use crate::stop::Stop;
use aq_base::{Bytes, Question};
use aq_book::Book;
use aq_keeper::Keeper;
use aq_office::{Answer, answer_to};
use aq_outside::Sink;
use aq_sheets::texts_of;
use std::alloc::Global;

/// Prints the answer to a question over the office of the tables, which are let go before.
pub(crate) fn ask<K: Keeper, O: Sink>(
    alloc: Global,
    question: &Question,
    keeper: &mut K,
    output: &mut O,
) -> Result<(), Stop>
    requires { IsTrue (is_asked question.now) }
    ensures told { OfTold (told_through (K.seen keeper.old).tables (K.seen keeper.new).tables)
        (λ rows. Performs (ask_outcome (ask_printout question.now) rows) result
        (O.seen output.old) (O.seen output.new) (K.seen keeper.old).tables
        (K.seen keeper.new).tables) }
    ensures no_input { (status_of result ≡ INPUT_FAILED → ⊥)
        × (status_of result ≡ TOO_LARGE → ⊥) }
    ensures no_door { status_of result ≡ DOOR_FAILED → ⊥ }
    ensures output_failed { RisesAt OUTPUT_FAILED (status_of result) (O.seen output.old).faults
        (O.seen output.new).faults }
    ensures keeper_failed { RisesAt KEEPER_FAILED (status_of result) (K.seen keeper.old).faults
        (K.seen keeper.new).faults }
    ensures silent { WritesNothing (status_of result) → output.new ≡ output.old }
    ensures gone { (K.seen keeper.new).is_held ≡ false }
    ensures only_migrates { OnlyMigrates (K.seen keeper.old) (K.seen keeper.new) }
{
    print_asked(alloc, &Asked::Question(question), keeper, output)
}

/// The text of the answer over an office.
pub(crate) fn text_of_answer(alloc: Global, book: &Book, question: &Question) -> Result<Bytes, Stop>
    requires { IsTrue (is_asked question.now) }
    ensures text { IfOk result (λ text. ask_printout question.now book.now ≡ printed text) }
    ensures refused { IfErr result (IsUnanswered (ask_printout question.now book.now)) }
{
    let answer = answer_to(alloc, book, question)?;
    shown_text(alloc, answer)
}

/// The text of an answer.
pub(crate) fn shown_text(alloc: Global, answer: Answer) -> Result<Bytes, Stop>
    ensures text { IfOk result (λ text. answered (seen answer) ≡ printed text) }
    ensures refused { IfErr result (IsUnanswered (answered (seen answer))) }
{
    match answer {
        Answer::Sheets(sheets) => Ok(Bytes::from_vec(texts_of(alloc, sheets.as_slice())?)),
        Answer::Text(text) => Ok(Bytes::from_vec(text)),
        Answer::Lacks(what) => Err(Stop::Lacks(what)),
    }
}
