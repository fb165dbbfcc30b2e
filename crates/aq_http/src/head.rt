//! The head of a request.
ghost use Rattle.std.specs.Prelude.{◌≡◌, ◌≤◌, ◌+◌, ◌||◌, ◌==◌, ℕ, List, ◌++◌, length};
ghost use Rattle.httparse.specs.Spans.{IsRequestWithin};
ghost use Rattle.aq_http.specs.Head.{head_in, head_step_in, is_encoded, step_at, window, IfWhole, IsHeadStep, Whole};
ghost use Rattle.aq_http.specs.Places.{IsHeadPlaces};
ghost use Rattle.aq_http.specs.Step.{IsStep, Whole as WholeStep, request_in, request_of};

use crate::length::body_or_refusal;
use crate::limits::{MOST_HEAD, MOST_HEADERS};
use crate::step::Request;
use crate::verb::Verb;
use http1::fields::{KnownFields, TransferEncoding};
use httparse::Status;
use httparse::spans::{EMPTY_HEADER_SPAN, HeaderSpan, RequestSpans, Span, parse_request};
use std::marker::Model;

/// The head of a request that is not refused. It borrows nothing, so that it can be kept while more of
/// the connection is read.
#[derive(Clone, Copy, Debug, PartialEq, Eq)]
pub struct Head {
    len: usize,
    body: usize,
    verb: Verb,
    target: Span,
    close: bool,
}

impl Model for Head {
    ghost use Rattle.aq_http.specs.Places.{HeadPlaces, IsHeadPlaces};

    ghost Value = { HeadPlaces };

    ghost use Rattle.aq_http.specs.KeptHead.{places_of};

    ghost view = { places_of };

    ghost invariant = { λ head. IsHeadPlaces (places_of head) };

    ghost inverse = { λ places. record {
      len = places.head_bytes;
      body = places.body_bytes;
      verb = places.verb;
      target = record { start = places.start; end = places.end };
      close = places.close;
    } };
}

/// What a connection's bytes so far come to, as far as the head of the first request.
#[derive(Clone, Copy, Debug)]
pub enum HeadStep {
    /// More bytes are wanted.
    More,
    /// The request is refused with this status, and the connection ends after the reply.
    Refuse(u16),
    /// The head is whole.
    Whole(Head),
}

/// Reads the head that a connection's bytes begin with. It takes no memory.
pub fn read_head(input: &[u8]) -> HeadStep
    ensures { IsHeadStep input.now (head_step_in input.now result) }
{
    let window = window(input);
    let mut headers = [EMPTY_HEADER_SPAN; MOST_HEADERS];
    match parse_request(window, &mut headers) {
        Ok(Status::Complete(spans)) => whole_head(window, &headers, spans),
        Ok(Status::Partial) if input.len() >= MOST_HEAD => HeadStep::Refuse(431),
        Ok(Status::Partial) => HeadStep::More,
        Err(_) => HeadStep::Refuse(400),
    }
}

/// The bytes in which the head must end.
fn window(input: &[u8]) -> &[u8]
    ensures { result.now ≡ window input.now }
{
    input.split_at(input.len().min(MOST_HEAD)).0
}

/// What the parts of a whole head come to.
fn whole_head(window: &[u8], headers: &[HeaderSpan; MOST_HEADERS], spans: RequestSpans) -> HeadStep
    requires within { IsRequestWithin window.now headers.now spans }
    requires short { length window.now ≤ MOST_HEAD }
    ensures few { spans.headers ≤ MOST_HEADERS }
    ensures value { head_step_in window.now result ≡ step_at window.now headers.now spans }
    ensures places { IfWhole result (λ head. IsHeadPlaces head × (head.head_bytes ≤ length window.now)) }
{
    let headers = &headers[..spans.headers];
    let known = KnownFields::from_spans(window, headers);
    if is_encoded(known.transfer_encoding) {
        return HeadStep::Refuse(501);
    }
    let verb = Verb::of(spans.method.of(window));
    match body_or_refusal(verb, window, headers) {
        Ok(body) => HeadStep::Whole(Head {
            len: spans.len,
            body,
            verb,
            target: spans.path,
            close: is_last(spans.version, &known),
        }),
        Err(status) => HeadStep::Refuse(status),
    }
}

/// Whether the connection ends after the reply: version 1.0, or a Connection header that lists `close`.
fn is_last(minor: u8, known: &KnownFields) -> bool
    ensures { result ≡ ((minor == 0) || known.now.close) }
{
    minor == 0 || known.close
}

/// Whether a Transfer-Encoding header is there.
fn is_encoded(encoding: TransferEncoding) -> bool
    ensures { result ≡ is_encoded encoding }
{
    !matches!(encoding, TransferEncoding::Absent)
}

impl Head {
    /// How many bytes the head and the body have: `request` gives the request as soon as they are there.
    pub fn whole(&self) -> usize
        ensures value { result ≡ self.now.head_bytes + self.now.body_bytes }
        ensures places { IsHeadPlaces self.now }
    {
        self.len + self.body
    }

    /// The request of this head in the bytes that it was read from, with what has come after them since,
    /// once all of it is there. The head is not read again. It takes no memory.
    pub fn request<'a>(&self, input: &'a [u8]) -> Request<'a>
        requires { self.now.head_bytes + self.now.body_bytes ≤ length input.now }
        ensures value { request_of result ≡ request_in input.now (head_in input.now self.now) }
        // it is what `next_request` gives of all these bytes
        ensures step { (front more : List ℕ) → input.now ≡ front ++ more
            → IsHeadStep front (Whole (head_in front self.now)) → IsStep input.now (WholeStep (request_of result)) }
    {
        let used = self.whole();
        Request {
            used,
            verb: self.verb,
            target: self.target.of(input),
            body: &input[self.len..used],
            close: self.close,
        }
    }
}
