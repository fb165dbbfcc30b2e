//! The command `load`.
ghost use Rattle.std.specs.Prelude.{◌≡◌, ◌⊎◌, true, false, IfErr};
ghost use Rattle.aq_keeper.specs.Told.{told_through};
ghost use Rattle.aq_desk.specs.Command.{RisesAt, WritesNothing};
ghost use Rattle.aq_desk.specs.Load.{IsTextOf, load_answer, load_outcome};
ghost use Rattle.aq_outside.specs.Outside.{OfTold};
ghost use Rattle.aq_desk.specs.Stop.{Gives, HasCauses, HasRead, IsMeasured, IsUnprinted, Performs, status_of};
ghost use Rattle.aq_desk.specs.declared.status.TheConstants.{DOOR_FAILED, INPUT_FAILED, KEEPER_FAILED, OUTPUT_FAILED, TOO_LARGE};

use crate::body::{body_of, read_body};
use crate::office::open;
use crate::stop::Stop;
use crate::writing::print_text;
use aq_base::Bytes;
use aq_forms::Body;
use aq_keeper::Keeper;
use aq_office::{Posted, post_uncounted};
use aq_outside::{Sink, Source};
use aq_sheets::text_of;
use std::alloc::Global;

/// Takes the input as a numbered load over the office of the tables, and prints its sheet. Before that the
/// tables are let go.
pub(crate) fn load<K: Keeper, S: Source, O: Sink>(
    alloc: Global,
    number: u32,
    keeper: &mut K,
    input: &mut S,
    output: &mut O,
) -> Result<(), Stop>
    ensures told { OfTold (told_through (K.seen keeper.old).tables (K.seen keeper.new).tables)
        (λ rows. OfTold (S.seen input.old).left (λ body. Performs
        (load_outcome number rows body) result (O.seen output.old) (O.seen output.new)
        (K.seen keeper.old).tables (K.seen keeper.new).tables × IsMeasured true body
        (status_of result))) }
    ensures causes { HasCauses (status_of result) (S.seen input.old) (S.seen input.new)
        (O.seen output.old) (O.seen output.new) }
    ensures read { HasRead (status_of result) (S.seen input.old).left (S.seen input.new).left }
    ensures keeper_failed { RisesAt KEEPER_FAILED (status_of result) (K.seen keeper.old).faults
        (K.seen keeper.new).faults }
    ensures no_door { status_of result ≡ DOOR_FAILED → ⊥ }
    ensures silent { WritesNothing (status_of result) → output.new ≡ output.old }
    ensures gone { (output.new ≡ output.old) ⊎ ((K.seen keeper.new).is_held ≡ false) }
{
    let bytes = read_body(alloc, input)?;
    let body = body_of(&bytes)?;
    answer(alloc, number, &body, keeper, output)
}

/// Takes a body, and prints the sheet of the load.
fn answer<K: Keeper, O: Sink>(
    alloc: Global,
    number: u32,
    body: &Body<'_>,
    keeper: &mut K,
    output: &mut O,
) -> Result<(), Stop>
    ensures told { OfTold (told_through (K.seen keeper.old).tables (K.seen keeper.new).tables)
        (λ rows. Performs (load_answer number body.now rows) result (O.seen output.old)
        (O.seen output.new) (K.seen keeper.old).tables (K.seen keeper.new).tables) }
    ensures no_input { (status_of result ≡ INPUT_FAILED → ⊥)
        × (status_of result ≡ TOO_LARGE → ⊥) }
    ensures no_door { status_of result ≡ DOOR_FAILED → ⊥ }
    ensures output_failed { RisesAt OUTPUT_FAILED (status_of result) (O.seen output.old).faults
        (O.seen output.new).faults }
    ensures keeper_failed { RisesAt KEEPER_FAILED (status_of result) (K.seen keeper.old).faults
        (K.seen keeper.new).faults }
    ensures silent { WritesNothing (status_of result) → output.new ≡ output.old }
    ensures gone { (K.seen keeper.new).is_held ≡ false }
{
    let text = take_and_let_go(alloc, number, body, keeper)?;
    print_text(text.as_slice(), output)
}

/// Takes a body, lets the tables go, and answers the text of the load's sheet.
fn take_and_let_go<K: Keeper>(
    alloc: Global,
    number: u32,
    body: &Body<'_>,
    keeper: &mut K,
) -> Result<Bytes, Stop>
    ensures told { OfTold (told_through (K.seen keeper.old).tables (K.seen keeper.new).tables)
        (λ rows. Gives (load_answer number body.now rows) result (K.seen keeper.old).tables
        (K.seen keeper.new).tables) }
    ensures unprinted { IfErr result IsUnprinted }
    ensures keeper_failed { RisesAt KEEPER_FAILED (status_of result) (K.seen keeper.old).faults
        (K.seen keeper.new).faults }
    ensures gone { (K.seen keeper.new).is_held ≡ false }
{
    let text = take(alloc, number, body, keeper);
    keeper.let_go();
    text
}

/// Takes a body, and answers the text of the load's sheet: the load stands then.
fn take<K: Keeper>(
    alloc: Global,
    number: u32,
    body: &Body<'_>,
    keeper: &mut K,
) -> Result<Bytes, Stop>
    ensures told { OfTold (told_through (K.seen keeper.old).tables (K.seen keeper.new).tables)
        (λ rows. Gives (load_answer number body.now rows) result (K.seen keeper.old).tables
        (K.seen keeper.new).tables) }
    ensures unprinted { IfErr result IsUnprinted }
    ensures keeper_failed { RisesAt KEEPER_FAILED (status_of result) (K.seen keeper.old).faults
        (K.seen keeper.new).faults }
{
    let mut book = open(alloc, keeper)?;
    let posted = post_uncounted(alloc, &mut book, keeper, number, body)?;
    text_of_posted(alloc, number, posted)
}

/// The text of the sheet of a load that was posted, or what stops the command.
fn text_of_posted(alloc: Global, number: u32, posted: Posted) -> Result<Bytes, Stop>
    ensures { IsTextOf posted number result }
{
    match posted {
        Posted::Done(sheet) => Ok(Bytes::from_vec(text_of(alloc, &sheet)?)),
        Posted::Conflict { kept, sent } => Err(Stop::Conflict { number, kept, sent }),
        Posted::Full => Err(Stop::LoadsFull),
        Posted::Failed => Err(Stop::KeeperFailed),
    }
}
