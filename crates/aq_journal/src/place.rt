//! Where a row stands among the others.
ghost use Rattle.std.specs.Prelude.{◌≡◌, IfOk};
ghost use Rattle.aq_rules.specs.Kept.RowChanges.{row_key};
ghost use Rattle.aq_journal.specs.Places.{key_at};

use aq_base::Memory;
use aq_keeper::{KeyContent, Row, RowContent, RowKey};
use std::alloc::Global;

/// A key, in the order of tables and of their columns: a text goes by its bytes, and a shorter one before those
/// that it begins.
#[derive(Debug, PartialEq, Eq, PartialOrd, Ord, Drop)]
pub(crate) enum Place {
    /// The kind and key of a record.
    Record(i64, Vec<u8>),
    /// The site, pollutant, POC and hour of an observation of version 1.
    First(i64, i64, i64, i64),
    /// The number of a load.
    Load(i64),
    /// The site, pollutant, POC and hour of an observation.
    Second(i64, i64, i64, i64),
}

impl Place {
    ghost use Rattle.std.specs.Prelude.{◌≡◌, IfOk};

    /// Where a row stands.
    pub(crate) fn of_row(alloc: Global, row: &Row) -> Result<Place, Memory>
        ensures { IfOk result (λ place. key_at place ≡ row_key row.now) }
    {
        Ok(match &row.content {
            RowContent::Office(row) => Place::Record(row.kind, row.key.as_slice().to_vec(alloc)?),
            RowContent::Observation(row) => Place::First(
                row.site,
                row.pollutant,
                row.poc,
                row.hour,
            ),
            RowContent::Load(row) => Place::Load(row.number),
            RowContent::Second(row) => Place::Second(row.site, row.pollutant, row.poc, row.hour),
        })
    }

    /// Where the row of a key stands.
    pub(crate) fn of_key(alloc: Global, key: &RowKey) -> Result<Place, Memory>
        ensures { IfOk result (λ place. key_at place ≡ key.now) }
    {
        Ok(match &key.content {
            KeyContent::Office { kind, key } => Place::Record(*kind, key.as_slice().to_vec(alloc)?),
            KeyContent::Load { number } => Place::Load(*number),
            KeyContent::Observation {
                site,
                pollutant,
                poc,
                hour,
            } => Place::First(*site, *pollutant, *poc, *hour),
            KeyContent::Second {
                site,
                pollutant,
                poc,
                hour,
            } => Place::Second(*site, *pollutant, *poc, *hour),
        })
    }
}
