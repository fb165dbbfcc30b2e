//! HTTP/1.1 over bytes: the request that a connection's bytes begin with, what its target asks, and the
//! bytes of a reply. Nothing here reads or writes a connection. Heads are read by `httparse` and
//! `http1`, targets found by `matchit`, and statuses are those of `http`.
//!
//! # What it has
//!
//! - `next_request(input)`: the [`Step`] that is due from all bytes that stand unanswered: more are
//!   wanted, they are refused with a status, or a whole [`Request`] stands.
//! - `read_head(input)`, `Head`: the same in pieces. A caller asks `read_head` until the head is whole,
//!   then waits for `Head::whole` bytes, and takes the request by `Head::request`: so the head is not
//!   read again for each piece of the body.
//! - `Verb`: GET, POST, or another.
//! - `Routes::find(verb, target)`: what is asked, as a `Found`: an answer, or its page in HTML
//!   (`Found::Page`) for the target `/` and those that begin with `/page/`.
//! - `reply_bytes`: the bytes of a reply; `MediaType`: what its body is written in. The head of a page
//!   (`MediaType::Html`) says that it has no script, fetches and posts nothing, and stands in no frame.
//! - `MOST_HEAD`, `MOST_HEADERS`: how much a head may have (`limits_of_a_head_are_these_numbers`).
//!
//! # What it promises
//!
//! - The first request of a connection's bytes, or that more are wanted, or the status with which they
//!   are refused, is a step of the definition, which has two open points where `httparse` has them
//!   (`next_request`, `read_head`, `Head`). A `POST` with an Origin header, which a page in a browser
//!   sends, is refused with 403.
//! - A refusal and a whole request stay, whatever bytes come after (`steps_stay`); more are wanted only
//!   of fewer than a head and a body may have together (`steps_are_bounded`).
//! - What a target asks is the definition's (`Routes::find`), with worked targets of each route
//!   (`worked_targets`). A question that is found is in its range, and one of a page has a page.
//! - The bytes of a reply are the definition's (`reply_bytes`).
//!
//! # An example
//!
//! ```rust
//! let routes = Routes::new(alloc)?;
//! match next_request(b"GET /loads/5 HTTP/1.1\r\nHost: localhost\r\n\r\n") {
//!     Step::Whole(request) => {
//!         let found = routes.find(request.verb, request.target);
//!         assert!(rt; found == Found::Ask(Question::Reply(5)))
//!     }
//!     Step::More | Step::Refuse(_) => {}
//! }
//! ```
#![tactic(auto)]

mod head;
mod laws;
mod length;
mod limits;
mod media;
mod reply;
mod routes;
mod step;
mod verb;

pub use head::{Head, HeadStep, read_head};
pub use laws::{steps_are_bounded, steps_stay, worked_targets};
pub use limits::{MOST_HEAD, MOST_HEADERS, limits_of_a_head_are_these_numbers};
pub use media::MediaType;
pub use reply::reply_bytes;
pub use routes::{Found, Routes};
pub use step::{Request, Step, next_request};
pub use verb::Verb;
