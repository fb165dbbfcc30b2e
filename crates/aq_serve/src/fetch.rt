//! The next request of a connection, read piece by piece.
ghost use Rattle.std.specs.Prelude.{◌≡◌, ◌<◌, true, length};
ghost use Rattle.aq_http.specs.Head.{head_in, IsHeadStep, Whole as WholeHead};
ghost use Rattle.aq_serve.specs.Talking.{Fetches, FetchesPiece, IsHeadBy, IsRequestBy};

use crate::unanswered::Unanswered;
use aq_base::{Failed, Memory};
use aq_http::{Head, HeadStep, read_head, steps_are_bounded, steps_stay};
use aq_outside::Door;
use std::alloc::Global;

/// Why a request was not read.
#[derive(Clone, Copy, Debug, PartialEq, Eq)]
pub(crate) enum FetchFault {
    ReadFailed,
    Memory,
}

/// Reads one piece after the bytes that are not answered, and answers how many bytes it has.
fn read_piece<D: Door>(
    alloc: Global,
    door: &mut D,
    piece: &mut [u8],
    input: &mut Unanswered,
) -> Result<usize, FetchFault>
    requires open { (D.seen door.old).is_open ≡ true }
    requires room { 0 < length piece.old }
    ensures fetched { FetchesPiece (D.seen door.old) (D.seen door.new) input.old input.new result }
    ensures piece { length piece.new ≡ length piece.old }
{
    let n = match door.read(piece) {
        Ok(n) => n,
        Err(Failed) => return Err(FetchFault::ReadFailed),
    };
    match input.add(alloc, &piece[..n]) {
        Ok(()) => Ok(n),
        Err(Memory) => Err(FetchFault::Memory),
    }
}

/// Reads until the head of the next request is whole or refused. More bytes are wanted only if the
/// connection ends before.
fn fetch_head<D: Door>(
    alloc: Global,
    door: &mut D,
    piece: &mut [u8],
    input: &mut Unanswered,
) -> Result<HeadStep, FetchFault>
    requires open { (D.seen door.old).is_open ≡ true }
    requires room { 0 < length piece.old }
    ensures fetched { Fetches (λ step. IsHeadBy step (D.seen door.new) input.new) (D.seen door.old)
        (D.seen door.new) input.old input.new result }
    ensures piece { length piece.new ≡ length piece.old }
{
    steps_are_bounded();
    'head: loop {
        match read_head(input.as_slice()) {
            HeadStep::More => {}
            HeadStep::Refuse(status) => return Ok(HeadStep::Refuse(status)),
            HeadStep::Whole(head) => return Ok(HeadStep::Whole(head)),
        }
        match read_piece(alloc, door, piece, input) {
            Ok(0) => return Ok(HeadStep::More),
            Ok(_) => {}
            Err(fault) => return Err(fault),
        }
    }
}

/// Reads until the body after a head is whole. The head is not read again.
fn fetch_body<D: Door>(
    alloc: Global,
    door: &mut D,
    piece: &mut [u8],
    input: &mut Unanswered,
    head: &Head,
) -> Result<HeadStep, FetchFault>
    requires open { (D.seen door.old).is_open ≡ true }
    requires room { 0 < length piece.old }
    requires stands { IsHeadStep input.old (WholeHead (head_in input.old head.now)) }
    ensures fetched { Fetches (λ step. IsRequestBy step (D.seen door.new) input.new)
        (D.seen door.old) (D.seen door.new) input.old input.new result }
    ensures piece { length piece.new ≡ length piece.old }
{
    steps_stay();
    let whole = head.whole();
    'body: while input.as_slice().len() < whole {
        match read_piece(alloc, door, piece, input) {
            Ok(0) => return Ok(HeadStep::More),
            Ok(_) => {}
            Err(fault) => return Err(fault),
        }
    }
    Ok(HeadStep::Whole(*head))
}

/// Reads until the next request is whole or refused. More bytes are wanted only if the connection
/// ends before.
pub(crate) fn fetch<D: Door>(
    alloc: Global,
    door: &mut D,
    piece: &mut [u8],
    input: &mut Unanswered,
) -> Result<HeadStep, FetchFault>
    requires open { (D.seen door.old).is_open ≡ true }
    requires room { 0 < length piece.old }
    ensures fetched { Fetches (λ step. IsRequestBy step (D.seen door.new) input.new)
        (D.seen door.old) (D.seen door.new) input.old input.new result }
    ensures piece { length piece.new ≡ length piece.old }
{
    let step = match fetch_head(alloc, door, piece, input) {
        Ok(step) => step,
        Err(fault) => return Err(fault),
    };
    match &step {
        HeadStep::More => Ok(HeadStep::More),
        HeadStep::Refuse(status) => Ok(HeadStep::Refuse(*status)),
        HeadStep::Whole(head) => fetch_body(alloc, door, piece, input, head),
    }
}
