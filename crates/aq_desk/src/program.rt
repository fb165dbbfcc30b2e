//! What the programs share, whatever keeps their tables: the words, the host's streams and network, and
//! the top call over them.
//!
//! # What it has
//!
//! - `run_over(rt, keeper)`: obeys the words of the program over a keeper, with the host's streams and
//!   network.
//! - `obey`: the same over any door and streams; it is what is proved.
//! - `without_memory(rt)`: ends a program that had no memory for its keeper.
//!
//! # What it promises
//!
//! - `obey` takes the words, any keeper, any door and the three streams, and is a run as `run`
//!   is (clause `run`, by `IsRun`); without memory for the words it ends with 7 and uses nothing but the
//!   errors stream.
//! - `run_over` and `without_memory` have no clauses: that they hand on what they are given is trusted,
//!   and tried on the built programs.
//!
//! # An example
//!
//! ```rust
//! fn main(rt: HostRuntime) -> ExitCode {
//!     let file = AtName::<Unknown>::new(&rt, "airdv.journal");
//!     let keeper = JournalKeeper::new(FileDisk::new(rt.alloc(), file));
//!     run_over(rt, keeper)
//! }
//! ```

mod host;
mod obeying;

pub use host::{run_over, without_memory};
pub use obeying::obey;
