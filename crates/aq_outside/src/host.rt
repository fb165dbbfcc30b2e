//! The host's streams and network, as the outside. They tell none of their bytes: what a
//! stream beneath gives is passed on as it is, and what is given reaches it, as far as the stream's own
//! clauses go.
//!
//! # What it has
//!
//! - [`Reading`]: a source of any reader; [`Writing`]: a sink of any writer.
//! - [`TcpDoor`]: a door of TCP connections from this machine alone (127.0.0.1). A connection that lies
//!   idle for five seconds is ended, and so is one whose request has not come, or whose reply has not
//!   been taken, within thirty seconds. Where another peer waits it gives way sooner.
//!
//! # What it promises
//!
//! - What a reader gives is what is read, and what is written reaches the writer beneath, as far as the
//!   stream's own clauses go (`Reading::read`, `Writing::write`, clause `passed`).
//! - The door over TCP is a door: its counts rise at the calls that fail and at no other, what a
//!   connection gives is what is read, and what is written reaches it, as far as the stream's own
//!   clauses go; it tells no bytes, and it tells the port that it was given (`TcpDoor`).
//! - A failure is never told as the end of connections (`accept`, clause `more`).
//! - Behind `accept` no deadline stands. A request keeps the one that it began with until a part of its
//!   reply is taken, and the reply its own until it is taken whole: then neither stands (`accept`, `read`
//!   and `write`, clause `deadlines`).
//! - Of time nothing else is proved. The kit's trait of a stream cannot say how long a call may wait: that
//!   it is set before each, and to what, is told by a test in code, and tried by `bin/tries-serve`.
//!
//! # An example
//!
//! ```rust
//! let mut input = Reading::new(rt.reader());
//! let mut output = Writing::new(io::writer(&rt));
//! let mut door = TcpDoor::new(rt);
//! door.listen(8080)?;
//! ```

mod streams;
mod tcp_door;
mod waits;

pub use streams::{Reading, Writing};
pub use tcp_door::TcpDoor;
