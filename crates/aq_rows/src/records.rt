//! The row of a record, and the record that a row says.
ghost use Rattle.std.specs.Prelude.{◌≡◌, IfOk, IfSome, IsTrue};
ghost use Rattle.aq_rules.specs.Lines.Canonical.{is_office_line, record_line};
ghost use Rattle.aq_rules.specs.Lines.Spellings.{◌>>=◌ as ◌>>-◌};
ghost use Rattle.aq_rules.specs.Lines.Reading.{line_value, OfOffice};
ghost use Rattle.aq_rules.specs.Kept.Rows as rows;

use crate::keys::kind_of;
use aq_base::{Bytes, Memory, OfficeLine, OfficeRecord};
use aq_forms::{print_key, print_office, read_office};
use aq_keeper::OfficeRow;
use aq_rd::has_office_tag;
use std::alloc::Global;

/// The row of a record: its kind, its printed key and its canonical line.
pub fn office_row(alloc: Global, entry: &OfficeRecord) -> Result<OfficeRow, Memory>
    ensures { IfOk result (λ row. row ≡ rows.office_row entry.now) }
{
    let key = entry.key();
    let line = record_line(entry);
    Ok(OfficeRow {
        kind: kind_of(&key),
        key: Bytes::from_vec(print_key(alloc, &key)?),
        line: Bytes::from_vec(print_office(alloc, &line)?),
    })
}

/// The record that a row says, if the row is the row of that record.
#[tactic(auto, unfolding(aq_rules::specs::Kept::Rows::record_of_row))]
pub fn record_of(alloc: Global, row: &OfficeRow) -> Result<Option<OfficeRecord>, Memory>
    ensures value { IfOk result (λ found. found ≡ rows.record_of_row row.now) }
    // it is one that a line can spell
    ensures spelled { IfOk result (λ found. IfSome found (λ entry. IsTrue (is_office_line (record_line entry)))) }
{
    let Some(entry) = record_in(row.line.as_slice()) else {
        return Ok(None);
    };
    let own = office_row(alloc, &entry)?;
    if is_same(&own, row) {
        Ok(Some(entry))
    } else {
        Ok(None)
    }
}

/// The record that a line spells.
fn record_in(line: &[u8]) -> Option<OfficeRecord>
    ensures value { result ≡ (line_value line.now >>- rows.record_in) }
    ensures spelled { IfSome result (λ entry. IsTrue (is_office_line (record_line entry))) }
{
    if !has_office_tag(line) {
        return None;
    }
    match read_office(line) {
        Ok(line) => record_put(&line),
        Err(_) => None,
    }
}

/// The record that a line puts; of changes only that of a concurrence puts one.
fn record_put(line: &OfficeLine) -> Option<OfficeRecord>
    ensures value { result ≡ rows.record_in (OfOffice line.now) }
    ensures spelled { IsTrue (is_office_line line.now) → IfSome result (λ entry. IsTrue (is_office_line (record_line entry))) }
{
    match *line {
        OfficeLine::Put(entry) => Some(entry),
        OfficeLine::Change(OfficeRecord::Concurrence { number, agreed }) => {
            Some(OfficeRecord::Concurrence { number, agreed })
        }
        OfficeLine::Change(_) | OfficeLine::Drop(_) => None,
    }
}

/// The line by which a record is kept: an insertion, and of a concurrence a change.
pub(crate) fn record_line(entry: &OfficeRecord) -> OfficeLine
    ensures { result ≡ record_line entry.now }
{
    match *entry {
        OfficeRecord::Concurrence { .. } => OfficeLine::Change(*entry),
        _ => OfficeLine::Put(*entry),
    }
}

/// Whether two rows are the same.
fn is_same(a: &OfficeRow, b: &OfficeRow) -> bool
    ensures { result ≡ rows.is_office_row a.now b.now }
{
    a.kind == b.kind
        && a.key.as_slice() == b.key.as_slice()
        && a.line.as_slice() == b.line.as_slice()
}
