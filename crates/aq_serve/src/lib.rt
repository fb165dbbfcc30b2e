//! Connections served over an office: what comes through a door of aq_outside is read as requests, and each is
//! answered by a service.
//!
//! # What it has
//!
//! - `Service`: answers a whole request over an office, with the keeper that is lent to it.
//! - `serve`: serves connections of a door, one after the other; `ServeFault`, `End`: why it ended.
//! - `error_reply`: the bytes of a reply with an error; `MOST_REQUESTS`: a connection has at most so
//!   many (`limits_of_a_connection_are_these_numbers`).
//!
//! # What it promises
//!
//! - Connections are served as the headline of `serve` in `docs/PROVED.md` says, over any service and
//!   any door: each is served whole, or cut by a read or a write that failed in it, and the next one is
//!   served over the office that it left (`serve`, by `Serves` in `specs/Serving.antt`).
//!
//! # An example
//!
//! ```rust
//! match serve(alloc, &mut service, &mut keeper, &mut door, connections) {
//!     Ok(()) => {} // so many connections have ended
//!     Err(fault) => stop(fault),
//! }
//! ```
#![tactic(auto)]

mod connection;
mod ending;
mod fetch;
mod limits;
mod sending;
mod service;
mod serving;
mod turn;
mod unanswered;

pub use ending::{End, ServeFault};
pub use limits::{MOST_REQUESTS, limits_of_a_connection_are_these_numbers};
pub use sending::error_reply;
pub use service::Service;
pub use serving::serve;
