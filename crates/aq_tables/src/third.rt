//! The table `observations3`.
ghost use Rattle.std.specs.Prelude.{◌≡◌, ◌∷◌, []};
ghost use Rattle.sqlite.specs.Values.{bound};
ghost use Rattle.aq_tables.specs.Number.{number_at};
ghost use Rattle.aq_tables.specs.Told.{cell, number_of, third_values};

use crate::binding::cell_of;
use crate::number::number_of;
use aq_keeper::ObsRow2;
use sqlite::types::ValueRef;

pub(crate) const DROP_THIRD: &str = "DELETE FROM observations3 WHERE id = ?1";

pub(crate) const PUT_THIRD: &str =
    "INSERT INTO observations3 (id, value, method, nullcode, quals) VALUES (?1, ?2, ?3, ?4, ?5)";

/// A key as the statement takes it: its number, or NULL, which no row has.
pub(crate) fn key_values(
    site: &i64,
    pollutant: &i64,
    poc: &i64,
    hour: &i64,
) -> [ValueRef<'static>; 1]
    ensures { bound result ≡ cell (number_at site.now pollutant.now poc.now hour.now) ∷ [] }
{
    [cell_of(&number_of(site, pollutant, poc, hour))]
}

/// The number of a row's key, if it has one.
pub(crate) fn number_in(row: &ObsRow2) -> Option<i64>
    ensures { result ≡ number_of row.now }
{
    number_of(&row.site, &row.pollutant, &row.poc, &row.hour)
}

/// A row as the statement takes it, with the number of its key.
pub(crate) fn row_values<'a>(row: &'a ObsRow2, number: &Option<i64>) -> [ValueRef<'a>; 5]
    ensures { number.now ≡ number_of row.now → bound result ≡ third_values row.now }
{
    [
        cell_of(number),
        cell_of(&row.value),
        cell_of(&row.method),
        ValueRef::Text(row.null.as_slice()),
        ValueRef::Text(row.quals.as_slice()),
    ]
}
