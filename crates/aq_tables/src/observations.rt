//! The table `observations`.
ghost use Rattle.std.specs.Prelude.{◌≡◌};
ghost use Rattle.sqlite.specs.Values.{bound};
ghost use Rattle.aq_tables.specs.Told.{observation_values};

use crate::binding::cell_of;
use aq_keeper::ObsRow;
use sqlite::types::ValueRef;

pub(crate) const DROP_OBSERVATION: &str =
    "DELETE FROM observations WHERE site = ?1 AND pollutant = ?2 AND poc = ?3 AND hour = ?4";

pub(crate) const PUT_OBSERVATION: &str =
    "INSERT INTO observations (site, pollutant, poc, hour, value, nullcode, quals) VALUES (?1, ?2, ?3, ?4, ?5, ?6, ?7)";

/// A row as the statement takes it.
pub(crate) fn row_values(row: &ObsRow) -> [ValueRef<'_>; 7]
    ensures { bound result ≡ observation_values row.now }
{
    [
        ValueRef::Int(row.site),
        ValueRef::Int(row.pollutant),
        ValueRef::Int(row.poc),
        ValueRef::Int(row.hour),
        cell_of(&row.value),
        ValueRef::Text(row.null.as_slice()),
        ValueRef::Text(row.quals.as_slice()),
    ]
}
