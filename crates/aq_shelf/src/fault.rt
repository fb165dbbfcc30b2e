//! Why the shelf refuses a change.
ghost use Rattle.std.specs.Prelude.{Some};
ghost use Rattle.aq_shelf.specs.Faults.{fault_text, not_there_text};

use std::error::Error;
use std::fmt;

/// Why an observation is not put on the shelf.
#[derive(Clone, Copy, Debug, PartialEq, Eq)]
pub enum ShelfFault {
    /// An observation stands at the key.
    AlreadyThere,
    /// As many observations stand as may.
    Full,
    /// Memory could not be had.
    Memory,
}

impl fmt::Display for ShelfFault {
    ghost output = { λ fault. Some (fault_text fault) };

    fn fmt<W: fmt::Write>(&self, f: &mut fmt::Formatter<W>) -> fmt::Result {
        f.write_str(match self {
            ShelfFault::AlreadyThere => "an observation stands at the key",
            ShelfFault::Full => "the shelf is full",
            ShelfFault::Memory => "memory",
        })
    }
}

impl Error for ShelfFault {}

/// No observation stands at the key.
#[derive(Clone, Copy, Debug, PartialEq, Eq)]
pub struct NotThere;

impl fmt::Display for NotThere {
    ghost output = { λ _. Some not_there_text };

    fn fmt<W: fmt::Write>(&self, f: &mut fmt::Formatter<W>) -> fmt::Result {
        f.write_str("no observation stands at the key")
    }
}

impl Error for NotThere {}
