//! How a connection ends, and how serving ends.
ghost use Rattle.std.specs.Prelude.{Some};
ghost use Rattle.aq_serve.specs.Endings.{fault_text};

use aq_base::Memory;
use std::error::Error;
use std::fmt;

/// How a connection ended.
#[derive(Clone, Copy, Debug, PartialEq, Eq)]
pub enum End {
    /// All its requests were served, or the last reply closes it.
    Whole,
    /// A read failed.
    CutByRead,
    /// A write failed.
    CutByWrite,
}

/// Why serving ended before as many connections as were to be served.
#[derive(Clone, Copy, Debug, PartialEq, Eq)]
pub enum ServeFault {
    /// The door failed to accept, and its count of faults rose.
    DoorFailed,
    /// Memory could not be had.
    Memory,
}

impl From<Memory> for ServeFault {
    ghost use Rattle.std.specs.Prelude.{◌≡◌};
    ghost use Rattle.aq_serve.specs.declared.ending.ServeFault.TheVariants as faults;

    ghost from_gives = { λ _ fault. fault ≡ faults.Memory };

    fn from(_: Memory) -> Self {
        ServeFault::Memory
    }
}

impl fmt::Display for ServeFault {
    ghost output = { λ fault. Some (fault_text fault) };

    fn fmt<W: fmt::Write>(&self, f: &mut fmt::Formatter<W>) -> fmt::Result {
        f.write_str(match self {
            ServeFault::DoorFailed => "door failed",
            ServeFault::Memory => "memory",
        })
    }
}

impl Error for ServeFault {}
