//! The table `loads`.
ghost use Rattle.std.specs.Prelude.{◌≡◌, ◌∷◌, []};
ghost use Rattle.sqlite.specs.declared.types.Value.TheVariants.{Int};
ghost use Rattle.sqlite.specs.Values.{bound};
ghost use Rattle.aq_tables.specs.Told.{load_values};

use aq_keeper::LoadRow;
use sqlite::types::ValueRef;

pub(crate) const DROP_LOAD: &str = "DELETE FROM loads WHERE number = ?1";

pub(crate) const PUT_LOAD: &str =
    "INSERT INTO loads (number, digest, lines, accepted, listed, rest) VALUES (?1, ?2, ?3, ?4, ?5, ?6)";

/// A key as the statement takes it.
pub(crate) fn key_values(number: &i64) -> [ValueRef<'static>; 1]
    ensures { bound result ≡ Int number.now ∷ [] }
{
    [ValueRef::Int(*number)]
}

/// A row as the statement takes it.
pub(crate) fn row_values(row: &LoadRow) -> [ValueRef<'_>; 6]
    ensures { bound result ≡ load_values row.now }
{
    [
        ValueRef::Int(row.number),
        ValueRef::Blob(row.digest.as_slice()),
        ValueRef::Int(row.lines),
        ValueRef::Int(row.accepted),
        ValueRef::Text(row.listed.as_slice()),
        ValueRef::Text(row.rest.as_slice()),
    ]
}
