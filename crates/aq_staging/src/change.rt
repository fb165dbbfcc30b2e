//! A change of one record or observation.
ghost use Rattle.std.specs.Prelude.{◌≡◌, option_map};
ghost use Rattle.aq_staging.specs.Batch.{change_in};
ghost use Rattle.aq_rules.specs.Office.Load as load;

use aq_base::{ObsKey, Observation, OfficeKey, OfficeRecord};

/// What a load does to one record or observation of an office.
#[derive(Clone, Copy, Debug, PartialEq, Eq)]
pub enum OfficeChange {
    /// The record is new, or takes the place of the one with its key.
    PutRecord(OfficeRecord),
    /// The record of the key is gone.
    DropRecord(OfficeKey),
    /// The observation at the key is new, or takes the place of the one there.
    PutObservation(ObsKey, Observation),
    /// The observation at the key is gone.
    DropObservation(ObsKey),
}

/// What becomes of the record of a key: nothing if it is the same before and now.
pub(crate) fn record_change(
    key: &OfficeKey,
    before: &Option<OfficeRecord>,
    now: &Option<OfficeRecord>,
) -> Option<OfficeChange>
    ensures { option_map change_in result ≡ load.record_change key.now before.now now.now }
{
    match (before, now) {
        (None, None) => None,
        (None, Some(now)) => Some(OfficeChange::PutRecord(*now)),
        (Some(_), None) => Some(OfficeChange::DropRecord(*key)),
        (Some(before), Some(now)) => {
            if is_same_record(before, now) {
                None
            } else {
                Some(OfficeChange::PutRecord(*now))
            }
        }
    }
}

/// Whether two records are equal.
fn is_same_record(a: &OfficeRecord, b: &OfficeRecord) -> bool
    ensures { result ≡ load.is_same_record a.now b.now }
{
    a == b
}

/// What becomes of the observation at a key: nothing if it is the same before and now.
pub(crate) fn observation_change(
    key: &ObsKey,
    before: &Option<Observation>,
    now: &Option<Observation>,
) -> Option<OfficeChange>
    ensures { option_map change_in result ≡ load.observation_change key.now before.now now.now }
{
    match (before, now) {
        (None, None) => None,
        (None, Some(now)) => Some(OfficeChange::PutObservation(*key, *now)),
        (Some(_), None) => Some(OfficeChange::DropObservation(*key)),
        (Some(before), Some(now)) => {
            if is_same_content(before, now) {
                None
            } else {
                Some(OfficeChange::PutObservation(*key, *now))
            }
        }
    }
}

/// Whether two observations have equal values, null codes, qualifiers and methods.
fn is_same_content(a: &Observation, b: &Observation) -> bool
    ensures { result ≡ load.is_same_content a.now b.now }
{
    a.value == b.value
        && a.null == b.null
        && a.quals.codes() == b.quals.codes()
        && a.method == b.method
}
