//! The table `records`.
ghost use Rattle.std.specs.Prelude.{◌≡◌, ◌∷◌, []};
ghost use Rattle.sqlite.specs.declared.types.Value.TheVariants.{Int, Text};
ghost use Rattle.sqlite.specs.Values.{bound};
ghost use Rattle.aq_tables.specs.Told.{record_values};

use aq_keeper::OfficeRow;
use sqlite::types::ValueRef;

pub(crate) const DROP_RECORD: &str = "DELETE FROM records WHERE kind = ?1 AND rowkey = ?2";

pub(crate) const PUT_RECORD: &str = "INSERT INTO records (kind, rowkey, line) VALUES (?1, ?2, ?3)";

/// A key as the statement takes it.
pub(crate) fn key_values<'a>(kind: &i64, key: &'a [u8]) -> [ValueRef<'a>; 2]
    ensures { bound result ≡ Int kind.now ∷ Text key.now ∷ [] }
{
    [ValueRef::Int(*kind), ValueRef::Text(key)]
}

/// A row as the statement takes it.
pub(crate) fn row_values(row: &OfficeRow) -> [ValueRef<'_>; 3]
    ensures { bound result ≡ record_values row.now }
{
    [
        ValueRef::Int(row.kind),
        ValueRef::Text(row.key.as_slice()),
        ValueRef::Text(row.line.as_slice()),
    ]
}
