//! The outside, as the rooms above see it. A source is read, a sink is written, and connections come through a
//! door; each is a trait with a form in memory, which tells its bytes or does not, and counts its faults.
//!
//! # What it has
//!
//! - `Source`, `Sink`, `Door`: where bytes come from, where they go, and where connections come from.
//! - `MemorySource`, `MemorySink`, `MemoryDoor`: one of each in memory, which fails at the calls that it
//!   is told to.
//! - `host`: the streams and the network of the host.
//!
//! # What it promises
//!
//! - A count of faults rises at a call that fails, and at no other (the traits `Source`, `Sink` and
//!   `Door`).
//! - The source, the sink and the door in memory fail exactly at the calls that they are told to, the
//!   sink and the door also where a piece finds no room; the first two say their count after each call,
//!   and the door counts each call once, and keeps its lists and the room of each connection
//!   (`MemorySource`, `MemorySink`, `MemoryDoor`).
//!
//! # An example
//!
//! ```rust
//! let mut source = MemorySource::new(b"two".to_vec(alloc)?, vec![in alloc; 2]?); // its second call fails
//! let mut buffer = [0; 8];
//! assert_eq!(rt; source.read(&mut buffer), Ok(3));
//! assert_eq!(rt; source.read(&mut buffer), Err(Failed));
//! assert_eq!(rt; source.read(&mut buffer), Ok(0)); // the end
//! ```
#![tactic(auto)]

mod door;
pub mod host;
mod memory_door;
mod memory_line;
mod memory_sink;
mod memory_source;
mod streams;

pub use door::Door;
pub use memory_door::MemoryDoor;
pub use memory_sink::MemorySink;
pub use memory_source::MemorySource;
pub use streams::{Sink, Source};
