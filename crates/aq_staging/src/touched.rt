//! The records that a load's lines touched.
ghost use Rattle.std.specs.Prelude.{◌≡◌, OnOk};
ghost use Rattle.aq_staging.specs.Touched.{noted, noted_change};

use aq_base::Memory;
use aq_registry::{Changes, RecordChange, Records};

/// Adds what a line changed to the touched records: the record that it put, or those that it dropped, each
/// in place of the one with its key. After want of memory a record of the line may be missing.
pub(crate) fn note(touched: &mut Records, changes: &Changes) -> Result<(), Memory>
    ensures { OnOk result (touched.new ≡ noted changes.now touched.old) }
{
    note_change(touched, &changes.first)?;
    match &changes.second {
        Some(second) => note_change(touched, second),
        None => Ok(()),
    }
}

/// Adds a record that was put, or one that was dropped.
fn note_change(touched: &mut Records, change: &RecordChange) -> Result<(), Memory>
    ensures { OnOk result (touched.new ≡ noted_change change.now touched.old) }
{
    match change.new.or(change.old) {
        Some(row) => touched.put(row),
        None => Ok(()),
    }
}
