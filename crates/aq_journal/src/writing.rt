//! The bytes of a journal, written.
ghost use Rattle.std.specs.Prelude.{◌≡◌, ◌<◌, ◌^◌, [], ◌∷◌, ◌++◌, length, IfOk, IfErr, OnOk};
ghost use Rattle.std.specs.Int.{w64};
ghost use Rattle.std.specs.Int.RustNames.{FitsSigned};
ghost use Rattle.std.specs.List.{flat_map, AllByRecursion};
ghost use Rattle.aq_rules.specs.Kept.Rows.{OfOfficeRow, OfObsRow, OfLoadRow, OfSecondRow};
ghost use Rattle.aq_journal.specs.JournalFormat.{count_bytes, whole_bytes, optional_bytes, sized, fields_bytes, hour_key_form, Optional, Bytes, row_bytes, key_bytes, change_bytes, body_of, FieldFits, FieldsFit, RowFits, KeyFits, ChangeFits, BatchFits};
ghost use Rattle.aq_journal.specs.Writing.{Adds, Makes, Exceeds};

use crate::trouble::Trouble;
use aq_base::Memory;
use aq_keeper::{
    ChangeContent, KeyContent, LoadRow, ObsRow, ObsRow2, OfficeRow, Row, RowChange, RowContent,
    RowKey,
};
use std::alloc::Global;

/// Adds bytes.
pub(crate) fn put(out: &mut Vec<u8>, bytes: &[u8]) -> Result<(), Memory>
    ensures { OnOk result (out.new.items ≡ out.old.items ++ bytes.now) }
{
    out.extend_from_slice(bytes)?;
    Ok(())
}

/// Adds a count in four bytes.
#[tactic(auto, unfolding(crate::specs::JournalFormat::count_bytes))]
pub(crate) fn put_count(out: &mut Vec<u8>, n: u32) -> Result<(), Memory>
    ensures { OnOk result (out.new.items ≡ out.old.items ++ count_bytes n) }
{
    put(out, &n.to_be_bytes())
}

/// Adds a whole number in eight bytes.
#[tactic(auto, unfolding(crate::specs::JournalFormat::whole_bytes))]
fn put_whole(out: &mut Vec<u8>, n: &i64) -> Result<(), Memory>
    ensures bytes { OnOk result (out.new.items ≡ out.old.items ++ whole_bytes n.now) }
    ensures fits { FitsSigned w64 n.now }
{
    put(out, &n.to_be_bytes())
}

/// Adds a number that may be missing.
fn put_optional(out: &mut Vec<u8>, n: &Option<i64>) -> Result<(), Memory>
    ensures { OnOk result ((out.new.items ≡ out.old.items ++ optional_bytes n.now) × FieldFits Optional n.now) }
{
    match n {
        None => put(out, &[0]),
        Some(n) => {
            put(out, &[1])?;
            put_whole(out, n)
        }
    }
}

/// Adds bytes behind their length.
pub(crate) fn put_sized(out: &mut Vec<u8>, bytes: &[u8]) -> Result<(), Trouble>
    ensures { Adds result out.old.items out.new.items (sized bytes.now) (FieldFits Bytes bytes.now) }
{
    if bytes.len() > u32::MAX as usize {
        return Err(Trouble::Refused);
    }
    put_count(out, bytes.len() as u32)?;
    put(out, bytes)?;
    Ok(())
}

fn put_record(out: &mut Vec<u8>, row: &OfficeRow) -> Result<(), Trouble>
    ensures { Adds result out.old.items out.new.items (row_bytes (OfOfficeRow row.now)) (RowFits (OfOfficeRow row.now)) }
{
    put(out, &[0])?;
    put_whole(out, &row.kind)?;
    put_sized(out, row.key.as_slice())?;
    put_sized(out, row.line.as_slice())?;
    Ok(())
}

/// Adds an observation of version 1.
fn put_observation(out: &mut Vec<u8>, row: &ObsRow) -> Result<(), Trouble>
    ensures { Adds result out.old.items out.new.items (row_bytes (OfObsRow row.now)) (RowFits (OfObsRow row.now)) }
{
    put_hour(out, 1, &row.site, &row.pollutant, &row.poc, &row.hour)?;
    put_optional(out, &row.value)?;
    put_sized(out, row.null.as_slice())?;
    put_sized(out, row.quals.as_slice())?;
    Ok(())
}

fn put_load(out: &mut Vec<u8>, row: &LoadRow) -> Result<(), Trouble>
    ensures { Adds result out.old.items out.new.items (row_bytes (OfLoadRow row.now)) (RowFits (OfLoadRow row.now)) }
{
    put(out, &[2])?;
    put_whole(out, &row.number)?;
    put_sized(out, row.digest.as_slice())?;
    put_whole(out, &row.lines)?;
    put_whole(out, &row.accepted)?;
    put_sized(out, row.listed.as_slice())?;
    put_sized(out, row.rest.as_slice())?;
    Ok(())
}

fn put_second(out: &mut Vec<u8>, row: &ObsRow2) -> Result<(), Trouble>
    ensures { Adds result out.old.items out.new.items (row_bytes (OfSecondRow row.now)) (RowFits (OfSecondRow row.now)) }
{
    put_hour(out, 3, &row.site, &row.pollutant, &row.poc, &row.hour)?;
    put_optional(out, &row.value)?;
    put_optional(out, &row.method)?;
    put_sized(out, row.null.as_slice())?;
    put_sized(out, row.quals.as_slice())?;
    Ok(())
}

/// Adds the number of a row's table, and its fields.
fn put_row(out: &mut Vec<u8>, row: &Row) -> Result<(), Trouble>
    ensures { Adds result out.old.items out.new.items (row_bytes row.now) (RowFits row.now) }
{
    match &row.content {
        RowContent::Office(row) => put_record(out, row),
        RowContent::Observation(row) => put_observation(out, row),
        RowContent::Load(row) => put_load(out, row),
        RowContent::Second(row) => put_second(out, row),
    }
}

/// Adds the number of a key's table, and its fields.
fn put_key(out: &mut Vec<u8>, key: &RowKey) -> Result<(), Trouble>
    ensures { Adds result out.old.items out.new.items (key_bytes key.now) (KeyFits key.now) }
{
    match &key.content {
        KeyContent::Office { kind, key } => {
            put(out, &[0])?;
            put_whole(out, kind)?;
            put_sized(out, key.as_slice())
        }
        KeyContent::Load { number } => {
            put(out, &[2])?;
            Ok(put_whole(out, number)?)
        }
        KeyContent::Observation {
            site,
            pollutant,
            poc,
            hour,
        } => Ok(put_hour(out, 1, site, pollutant, poc, hour)?),
        KeyContent::Second {
            site,
            pollutant,
            poc,
            hour,
        } => Ok(put_hour(out, 3, site, pollutant, poc, hour)?),
    }
}

/// Adds the number of a table of observations, and the key of an hour.
fn put_hour(
    out: &mut Vec<u8>,
    table: u8,
    site: &i64,
    pollutant: &i64,
    poc: &i64,
    hour: &i64,
) -> Result<(), Memory>
    ensures { OnOk result ((out.new.items ≡ out.old.items ++ table ∷ fields_bytes hour_key_form (site.now, (pollutant.now, (poc.now, (hour.now, tt))))) × FieldsFit hour_key_form (site.now, (pollutant.now, (poc.now, (hour.now, tt))))) }
{
    put(out, &[table])?;
    put_whole(out, site)?;
    put_whole(out, pollutant)?;
    put_whole(out, poc)?;
    put_whole(out, hour)
}

fn put_change(out: &mut Vec<u8>, change: &RowChange) -> Result<(), Trouble>
    ensures { Adds result out.old.items out.new.items (change_bytes change.now) (ChangeFits change.now) }
{
    match &change.content {
        ChangeContent::Put(row) => {
            put(out, &[0])?;
            put_row(out, row)
        }
        ChangeContent::Drop(key) => {
            put(out, &[1])?;
            put_key(out, key)
        }
    }
}

fn put_changes(out: &mut Vec<u8>, batch: &[RowChange]) -> Result<(), Trouble>
    ensures { Adds result out.old.items out.new.items (flat_map change_bytes batch.now) (AllByRecursion ChangeFits batch.now) }
{
    for place in 0..batch.len() {
        let change = &batch[place];
        put_change(out, change)?;
    }
    Ok(())
}

/// The body of a batch's frame.
#[tactic(auto, using(crate::proofs::Sizes::body_long))]
pub(crate) fn body_of(alloc: Global, batch: &[RowChange]) -> Result<Vec<u8>, Trouble>
    ensures { Makes (λ body. body.items) result (body_of batch.now) (BatchFits batch.now) }
{
    if batch.len() > u32::MAX as usize {
        return Err(Trouble::Refused);
    }
    let mut body = Vec::new(alloc);
    put_count(&mut body, batch.len() as u32)?;
    put_changes(&mut body, batch)?;
    if body.len() > u32::MAX as usize {
        return Err(Trouble::Refused);
    }
    Ok(body)
}

/// What a batch's frame has behind its gate, and a shut gate behind that.
pub(crate) fn behind_of(alloc: Global, batch: &[RowChange]) -> Result<Vec<u8>, Trouble>
    ensures ok { IfOk result (λ behind. (behind.items ≡ sized (body_of batch.now) ++ 0 ∷ []) × BatchFits batch.now) }
    ensures err { IfErr result (λ fault. Exceeds fault (body_of batch.now)) }
{
    let body = body_of(alloc, batch)?;
    Ok(closed(alloc, &body)?)
}

/// Bytes behind their length, and a shut gate behind them.
fn closed(alloc: Global, body: &[u8]) -> Result<Vec<u8>, Memory>
    requires { length body.now < 2 ^ 32 }
    ensures { IfOk result (λ behind. behind.items ≡ sized body.now ++ 0 ∷ []) }
{
    let mut behind = Vec::new(alloc);
    put_count(&mut behind, body.len() as u32)?;
    put(&mut behind, body)?;
    put(&mut behind, &[0])?;
    Ok(behind)
}
