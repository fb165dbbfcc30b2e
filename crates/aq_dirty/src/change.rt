use aq_base::{ObsKey, Observation};
use aq_registry::RecordChange;

/// What became of one observation or record of an office.
#[derive(Clone, Copy, Debug)]
pub enum OfficeChange {
    /// The observation at a key before and after.
    Observation {
        key: ObsKey,
        old: Option<Observation>,
        new: Option<Observation>,
    },
    /// The record of a key before and after. If there is neither, nothing changed.
    Record(RecordChange),
}
