//! Whether a load acts.

/// What becomes of a load with a number from 1 on.
#[derive(Clone, Copy, Debug, PartialEq, Eq)]
pub enum LoadCheck {
    /// Its number is known with the same digest: its reply is the one that is kept.
    Repeat,
    /// Its number is known with another digest.
    Conflict,
    /// As many loads stand as may.
    Full,
    /// It is taken.
    New,
}
