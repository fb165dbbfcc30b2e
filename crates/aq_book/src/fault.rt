//! Why a question has no answer.
ghost use Rattle.std.specs.Prelude.{Some};
ghost use Rattle.aq_book.specs.Questions.{ask_fault_text, unknown_site_text};

use aq_base::Memory;
use std::error::Error;
use std::fmt;

/// No monitor of the site is registered.
#[derive(Clone, Copy, Debug, PartialEq, Eq)]
pub struct UnknownSite;

impl fmt::Display for UnknownSite {
    ghost output = { λ _. Some unknown_site_text };

    fn fmt<W: fmt::Write>(&self, f: &mut fmt::Formatter<W>) -> fmt::Result {
        f.write_str("no monitor of the site is registered")
    }
}

impl Error for UnknownSite {}

/// Why a question whose answer takes memory has none.
#[derive(Clone, Copy, Debug, PartialEq, Eq)]
pub enum AskFault {
    /// No monitor of the site is registered.
    UnknownSite,
    /// Memory could not be had.
    Memory,
}

impl From<UnknownSite> for AskFault {
    ghost use Rattle.std.specs.Prelude.{◌≡◌};
    ghost use Rattle.aq_book.specs.declared.fault.AskFault.TheVariants as faults;

    ghost from_gives = { λ _ fault. fault ≡ faults.UnknownSite };

    fn from(_: UnknownSite) -> Self {
        AskFault::UnknownSite
    }
}

impl From<Memory> for AskFault {
    ghost use Rattle.std.specs.Prelude.{◌≡◌};
    ghost use Rattle.aq_book.specs.declared.fault.AskFault.TheVariants as faults;

    ghost from_gives = { λ _ fault. fault ≡ faults.Memory };

    fn from(_: Memory) -> Self {
        AskFault::Memory
    }
}

impl fmt::Display for AskFault {
    ghost output = { λ fault. Some (ask_fault_text fault) };

    fn fmt<W: fmt::Write>(&self, f: &mut fmt::Formatter<W>) -> fmt::Result {
        f.write_str(match self {
            AskFault::UnknownSite => "no monitor of the site is registered",
            AskFault::Memory => "memory",
        })
    }
}

impl Error for AskFault {}
