//! What a line changes, and why one is refused.
ghost use Rattle.std.specs.Prelude.{Some};
ghost use Rattle.aq_registry.specs.Changes.{fault_text};

use aq_base::{OfficeRecord, Rule};
use std::error::Error;
use std::fmt;

/// What became of one record: the one of its key before and after.
#[derive(Clone, Copy, Debug, PartialEq, Eq)]
pub struct RecordChange {
    pub old: Option<OfficeRecord>,
    pub new: Option<OfficeRecord>,
}

/// What a line changed: the record of its key, and the concurrence that is dropped with its event.
#[derive(Clone, Copy, Debug, PartialEq, Eq)]
pub struct Changes {
    pub first: RecordChange,
    pub second: Option<RecordChange>,
}

/// Why a line is not applied.
#[derive(Clone, Copy, Debug, PartialEq, Eq)]
pub enum RegistryFault {
    /// The first rule of the office that the line breaks.
    Broken(Rule),
    /// Memory could not be had.
    Memory,
}

impl From<aq_base::Memory> for RegistryFault {
    ghost use Rattle.std.specs.Prelude.{◌≡◌};
    ghost use Rattle.aq_registry.specs.declared.changes.RegistryFault.TheVariants.{Memory};

    ghost from_gives = { λ _ fault. fault ≡ Memory };

    fn from(_: aq_base::Memory) -> Self {
        RegistryFault::Memory
    }
}

impl fmt::Display for RegistryFault {
    ghost output = { λ fault. Some (fault_text fault) };

    fn fmt<W: fmt::Write>(&self, f: &mut fmt::Formatter<W>) -> fmt::Result {
        f.write_str(match self {
            RegistryFault::Broken(_) => "the line breaks a rule of the office",
            RegistryFault::Memory => "memory",
        })
    }
}

impl Error for RegistryFault {}
