//! What an export shows.
use crate::observation::{ObsKey, Observation};

/// An observation that an export shows, and whether it is excluded (40 CFR 50.14).
#[derive(Clone, Copy, Debug, PartialEq, Eq)]
pub struct Shown {
    pub key: ObsKey,
    pub content: Observation,
    pub excluded: bool,
}
