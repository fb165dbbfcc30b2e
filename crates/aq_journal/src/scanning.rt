//! The tables of a journal, and where it ends.
ghost use Rattle.std.specs.Prelude.{◌≡◌, ◌<◌, ℕ, suc, ◌∷◌, ◌++◌, length, get_or, IfOk, IfErr, OnOk};
ghost use Rattle.std.specs.Option.{option_map};
ghost use Rattle.aq_rules.specs.Kept.RowChanges.{with_row_changes};
ghost use Rattle.aq_journal.specs.JournalFormat.{BatchFits, body_of, sized, frames_in};
ghost use Rattle.aq_journal.specs.Reading.{Stops};
ghost use Rattle.aq_journal.specs.Scanning.{IsScanned, IsNext};

use crate::reading::{Cursor, batch_in};
use crate::tables::Tables;
use crate::trouble::Trouble;
use aq_base::Memory;
use aq_keeper::RowChange;
use std::alloc::Global;

/// What stands before the frames.
pub(crate) const HEADER: [u8; 8] = *b"AIRDVJ01";

/// The tables of a journal, and the place of the gate that ends it.
#[derive(Drop)]
pub(crate) struct Scanned {
    pub(crate) tables: Tables,
    pub(crate) end: usize,
}

/// Reads a file of more than nine bytes.
pub(crate) fn scan(alloc: Global, file: &[u8]) -> Result<Scanned, Trouble>
    requires { 9 < length file.now }
    ensures { IsScanned (λ scanned. scanned.tables) (λ scanned. scanned.end) result file.now }
{
    let Some(rest) = file.strip_prefix(&HEADER) else {
        return Err(Trouble::Refused);
    };
    let mut cursor = Cursor { rest };
    let mut tables = Tables::new(alloc);
    for _ in 0..file.len() {
        let Some(batch) = next_batch(alloc, &mut cursor)? else {
            let end = file.len() - cursor.rest.len();
            return Ok(Scanned { tables, end });
        };
        apply(alloc, &mut tables, batch)?;
    }
    Err(Trouble::Refused)
}

/// The batch of the next frame, or none if its gate is not open.
#[tactic(auto, unfolding(crate::specs::JournalFormat::frames_in))]
fn next_batch(alloc: Global, cursor: &mut Cursor<'_>) -> Result<Option<Vec<RowChange>>, Trouble>
    ensures { IsNext (λ found. option_map (λ batch. batch.items) found) result cursor.old.rest.now cursor.new.rest.now }
{
    let Some((gate, rest)) = cursor.rest.split_first() else {
        return Err(Trouble::Refused);
    };
    if *gate != 1 {
        return Ok(None);
    }
    cursor.rest = rest;
    let batch = batch_behind(alloc, cursor)?;
    Ok(Some(batch))
}

/// The batch that stands behind an open gate.
fn batch_behind(alloc: Global, cursor: &mut Cursor<'_>) -> Result<Vec<RowChange>, Trouble>
    ensures ok { IfOk result (λ batch. BatchFits batch.items × (cursor.old.rest.now ≡ sized (body_of batch.items) ++ cursor.new.rest.now)) }
    ensures err { IfErr result (λ fault. (most : ℕ) → Stops fault (frames_in (suc most) (1 ∷ cursor.old.rest.now))) }
{
    bytes_are_below_256(cursor.rest);
    let body = cursor.sized()?;
    Ok(batch_in(alloc, body)?)
}

/// What is known of bytes.
fn bytes_are_below_256(bytes: &[u8])
    ensures { (i : ℕ) → get_or bytes.now i 0 < 256 }
{
    let _ = bytes.len();
}

/// Makes the changes of a batch, one after the other.
fn apply(alloc: Global, tables: &mut Tables, batch: Vec<RowChange>) -> Result<(), Memory>
    ensures { OnOk result (tables.new ≡ with_row_changes tables.old batch.items) }
{
    for change in batch {
        tables.make(alloc, change)?;
    }
    Ok(())
}
