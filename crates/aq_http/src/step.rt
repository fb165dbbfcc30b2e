//! The first request of a connection's bytes.
ghost use Rattle.std.specs.Prelude.{◌≡◌};
ghost use Rattle.aq_http.specs.Step.{IsStep, step_of};

use crate::head::{HeadStep, read_head};
use crate::verb::Verb;

/// A whole request. The body has at most `MOST_BYTES`, and the target is as it came, with what stands
/// after a `?`.
#[derive(Clone, Copy, Debug)]
pub struct Request<'a> {
    /// How many bytes it has.
    pub used: usize,
    pub verb: Verb,
    pub target: &'a [u8],
    pub body: &'a [u8],
    /// The connection ends after the reply.
    pub close: bool,
}

/// What is due on a connection, from all of its bytes that stand unanswered.
#[derive(Clone, Copy, Debug)]
pub enum Step<'a> {
    /// More bytes are wanted.
    More,
    /// The reply has this status, and the connection ends after it.
    Refuse(u16),
    /// The request is whole.
    Whole(Request<'a>),
}

/// The step to which a connection's bytes so far come (RFC 9112, sections 2 to 6 and 9). It takes no
/// memory, and keeps none of an earlier call.
pub fn next_request(input: &[u8]) -> Step<'_>
    ensures { IsStep input.now (step_of result) }
{
    match read_head(input) {
        HeadStep::More => Step::More,
        HeadStep::Refuse(status) => Step::Refuse(status),
        HeadStep::Whole(head) => {
            if input.len() < head.whole() {
                Step::More
            } else {
                Step::Whole(head.request(input))
            }
        }
    }
}
