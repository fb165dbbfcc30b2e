//! Refusals that carry nothing.
ghost use Rattle.std.specs.Prelude.{Some};
ghost use Rattle.aq_base.specs.Faults.{memory_text, failed_text};

use std::alloc::{AllocError, AllocFailed};
use std::error::Error;
use std::fmt;

/// Memory could not be had. It is merged with no other refusal.
#[derive(Clone, Copy, Debug, PartialEq, Eq)]
pub struct Memory;

impl From<AllocError> for Memory {
    fn from(_: AllocError) -> Self {
        Memory
    }
}

impl<T: Drop> From<AllocFailed<T>> for Memory {
    fn from(_: AllocFailed<T>) -> Self {
        Memory
    }
}

impl fmt::Display for Memory {
    ghost output = { λ _. Some memory_text };

    fn fmt<W: fmt::Write>(&self, f: &mut fmt::Formatter<W>) -> fmt::Result {
        f.write_str("memory")
    }
}

impl Error for Memory {}

/// An outside object failed: a source, a sink, a door, a disk or a keeper. Its count of faults rose
/// in that call.
#[derive(Clone, Copy, Debug, PartialEq, Eq)]
pub struct Failed;

impl fmt::Display for Failed {
    ghost output = { λ _. Some failed_text };

    fn fmt<W: fmt::Write>(&self, f: &mut fmt::Formatter<W>) -> fmt::Result {
        f.write_str("failed")
    }
}

impl Error for Failed {}
