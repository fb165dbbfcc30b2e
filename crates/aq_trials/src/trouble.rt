//! Why a part of a case could not be read.
use aq_base::Memory;
use std::alloc::{AllocError, AllocFailed};
use std::io::{self, ErrorKind};

/// What is wrong with a line of a file of cases, or want of memory.
#[derive(Clone, Copy)]
pub enum Trouble {
    Memory,
    Wrong(&'static str),
}

impl From<AllocError> for Trouble {
    fn from(_: AllocError) -> Self {
        Trouble::Memory
    }
}

impl<T: Drop> From<AllocFailed<T>> for Trouble {
    fn from(_: AllocFailed<T>) -> Self {
        Trouble::Memory
    }
}

impl From<Memory> for Trouble {
    fn from(_: Memory) -> Self {
        Trouble::Memory
    }
}

impl From<Trouble> for io::Error {
    fn from(trouble: Trouble) -> Self {
        match trouble {
            Trouble::Memory => io::Error::from(ErrorKind::OutOfMemory),
            Trouble::Wrong(_) => io::Error::from(ErrorKind::InvalidData),
        }
    }
}
