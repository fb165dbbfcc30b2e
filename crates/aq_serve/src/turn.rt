//! One request of a connection: read, answered, and its reply sent.
ghost use Rattle.std.specs.Prelude.{◌≡◌, ℕ, ◌+◌, ◌<◌, ◌==◌, ◌||◌, true, false, ◌++◌, List, length, Ok, IfOk, IsTrue, OnErr};
ghost use Rattle.aq_http.specs.Reply.{is_reply_status};
ghost use Rattle.aq_http.specs.Step.{IsStep, Refuse};
ghost use Rattle.aq_keeper.specs.Standing.{Standing};
ghost use Rattle.aq_serve.specs.Talking.{IsWholeRequest, Replies, RepliesNot, SentBy, TakesTurn};
ghost use Rattle.aq_serve.specs.declared.limits.TheConstants.{MOST_REQUESTS};

use crate::ending::End;
use crate::fetch::{FetchFault, fetch};
use crate::limits::MOST_REQUESTS;
use crate::sending::{error_reply, write_all};
use crate::service::Service;
use crate::unanswered::Unanswered;
use aq_base::{Failed, Memory};
use aq_http::{Head, HeadStep, steps_are_bounded, steps_stay};
use aq_outside::Door;
use std::alloc::Global;

/// A reply, how many bytes the request has, and whether the connection ends after it.
#[derive(Drop)]
struct Reply {
    bytes: Vec<u8>,
    used: usize,
    closes: bool,
}

/// Whether the connection ends after a reply, so many having been served on it before.
fn ends_behind(close: bool, served: u32) -> bool
    requires { served < MOST_REQUESTS }
    ensures value { result ≡ (close || (served + 1 == MOST_REQUESTS)) }
    ensures few { result ≡ false → served + 1 < MOST_REQUESTS }
{
    close || served + 1 == MOST_REQUESTS
}

/// The reply to the whole request that these bytes begin with.
fn answer<K, V: Service<K>>(
    alloc: Global,
    service: &mut V,
    keeper: &mut K,
    input: &[u8],
    head: &Head,
    served: u32,
) -> Result<Reply, Memory>
    requires whole { IsWholeRequest input.now head.now }
    requires few { served < MOST_REQUESTS }
    ensures answered { IfOk result
        (λ reply. Replies served input.now reply.bytes.items reply.used reply.closes
        (V.seen service.old keeper.old) (V.seen service.new keeper.new)) }
    ensures lost { OnErr result
        (RepliesNot served input.now (V.seen service.old keeper.old)
        (V.seen service.new keeper.new)) }
{
    steps_stay();
    steps_are_bounded();
    let request = head.request(input);
    let closes = ends_behind(request.close, served);
    match service.answer(
        alloc,
        keeper,
        request.verb,
        request.target,
        request.body,
        closes,
    ) {
        Ok(bytes) => Ok(Reply {
            bytes,
            used: request.used,
            closes,
        }),
        Err(Memory) => Err(Memory),
    }
}

/// Sends a reply, and answers how the connection has ended, if it has.
fn send<D: Door>(door: &mut D, reply: &[u8], closes: bool) -> Option<End>
    requires open { (D.seen door.old).is_open ≡ true }
    ensures { SentBy result closes reply.now (D.seen door.old) (D.seen door.new) }
{
    match write_all(door, reply) {
        Ok(()) => { if closes { Some(End::Whole) } else { None } }
        Err(Failed) => Some(End::CutByWrite),
    }
}

/// Refuses a request with this status.
fn refuse<D: Door>(alloc: Global, door: &mut D, status: u16) -> Result<Option<End>, Memory>
    requires open { (D.seen door.old).is_open ≡ true }
    requires status { IsTrue (is_reply_status status) }
    ensures { (served : ℕ) (input now : List ℕ) (service : Standing)
        → ((more : List ℕ) → IsStep (input ++ more) (Refuse status))
        → TakesTurn served (record { door = D.seen door.old; service = service })
        (record { door = D.seen door.new; service = service }) input now result }
{
    match error_reply(alloc, status, b"", true) {
        Ok(reply) => Ok(send(door, &reply, true)),
        Err(Memory) => Err(Memory),
    }
}

/// Answers the whole request that the bytes begin with, and drops its bytes.
fn serve_request<K, V: Service<K>, D: Door>(
    alloc: Global,
    service: &mut V,
    keeper: &mut K,
    door: &mut D,
    input: &mut Unanswered,
    head: &Head,
    served: u32,
) -> Result<Option<End>, Memory>
    requires open { (D.seen door.old).is_open ≡ true }
    requires whole { IsWholeRequest input.old head.now }
    requires few { served < MOST_REQUESTS }
    ensures { TakesTurn served
        (record { door = D.seen door.old; service = V.seen service.old keeper.old })
        (record { door = D.seen door.new; service = V.seen service.new keeper.new })
        input.old input.new result }
{
    match answer(alloc, service, keeper, input.as_slice(), head, served) {
        Ok(reply) => {
            input.skip(reply.used);
            Ok(send(door, &reply.bytes, reply.closes))
        }
        Err(Memory) => Err(Memory),
    }
}

/// Reads the next request, answers it, and sends the reply, before anything else is read. Answers how
/// the connection has ended, if it has.
pub(crate) fn take_turn<K, V: Service<K>, D: Door>(
    alloc: Global,
    service: &mut V,
    keeper: &mut K,
    door: &mut D,
    piece: &mut [u8],
    input: &mut Unanswered,
    served: u32,
) -> Result<Option<End>, Memory>
    requires open { (D.seen door.old).is_open ≡ true }
    requires room { 0 < length piece.old }
    requires few { served < MOST_REQUESTS }
    ensures turn { TakesTurn served
        (record { door = D.seen door.old; service = V.seen service.old keeper.old })
        (record { door = D.seen door.new; service = V.seen service.new keeper.new })
        input.old input.new result }
    ensures piece { length piece.new ≡ length piece.old }
{
    steps_stay();
    steps_are_bounded();
    let step = match fetch(alloc, door, piece, input) {
        Ok(step) => step,
        Err(FetchFault::ReadFailed) => return Ok(Some(End::CutByRead)),
        Err(FetchFault::Memory) => return Err(Memory),
    };
    match &step {
        HeadStep::More => Ok(Some(End::Whole)),
        HeadStep::Refuse(status) => refuse(alloc, door, *status),
        HeadStep::Whole(head) => serve_request(alloc, service, keeper, door, input, head, served),
    }
}
