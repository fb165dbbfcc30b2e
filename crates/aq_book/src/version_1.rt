//! Rows of version 1, and the rows of today that they become.
ghost use Rattle.std.specs.Prelude.{◌≡◌, ◌++◌, not, filter, map, IfOk, OnOk};
ghost use Rattle.std.specs.List.{list_any};
ghost use Rattle.aq_rules.specs.Kept.Rows.{OfObsRow, tables_follow};
ghost use Rattle.aq_rules.specs.Kept.RowChanges.{DropRow, PutRow, row_key};
ghost use Rattle.aq_rules.specs.Kept.Migration.{is_first, is_second, migrated, migrated_row, migration_batch, second_row};
ghost use Rattle.aq_book.specs.Migrating.{has_old_tables};

use crate::batch::RowChanges;
use aq_base::{Bytes, Memory};
use aq_keeper::{ObsRow, ObsRow2, Row, RowChange, RowContent, RowKey, Rows};
use aq_rows::table_of;
use std::alloc::Global;

/// Whether rows stand in the tables of version 1: some observation has no place for a method, none has one,
/// and the tables are in order.
pub(crate) fn has_old_tables(rows: &[Row]) -> bool
    ensures { result ≡ has_old_tables rows.now }
{
    has_first(rows) && !has_second(rows) && do_tables_follow(rows)
}

fn has_first(rows: &[Row]) -> bool
    ensures { result ≡ list_any is_first rows.now }
{
    rows.iter().any(is_first)
}

fn has_second(rows: &[Row]) -> bool
    ensures { result ≡ list_any is_second rows.now }
{
    rows.iter().any(is_second)
}

fn is_first(row: &Row) -> bool
    ensures { result ≡ is_first row.now }
{
    matches!(row.content, RowContent::Observation(_))
}

fn is_second(row: &Row) -> bool
    ensures { result ≡ is_second row.now }
{
    matches!(row.content, RowContent::Second(_))
}

fn do_tables_follow(rows: &[Row]) -> bool
    ensures { result ≡ tables_follow rows.now }
{
    let Some((first, rest)) = rows.split_first() else {
        return true;
    };
    let mut before = first;
    for row in rest {
        if table_of(row) < table_of(before) {
            return false;
        }
        before = row;
    }
    true
}

/// The rows with each observation of version 1 in the last table, without a method.
#[tactic(auto, unfolding(aq_rules::specs::Kept::Migration::migrated))]
pub(crate) fn migrated(alloc: Global, rows: &[Row]) -> Result<Rows, Memory>
    ensures { IfOk result (λ made. made ≡ migrated rows.now) }
{
    let mut made = Rows::new(alloc);
    add_others(alloc, &mut made, rows)?;
    add_migrated(alloc, &mut made, rows)?;
    Ok(made)
}

fn add_others(alloc: Global, made: &mut Rows, rows: &[Row]) -> Result<(), Memory>
    ensures { OnOk result (made.new ≡ made.old ++ filter (λ row. not (is_first row)) rows.now) }
{
    for row in rows {
        if !is_first(row) {
            made.push(row.copy(alloc)?)?;
        }
    }
    Ok(())
}

fn add_migrated(alloc: Global, made: &mut Rows, rows: &[Row]) -> Result<(), Memory>
    ensures { OnOk result (made.new ≡ made.old ++ map migrated_row (filter is_first rows.now)) }
{
    for row in rows {
        if let RowContent::Observation(row) = &row.content {
            made.push(Row::second(second_row(alloc, row)?))?;
        }
    }
    Ok(())
}

/// The changes that migrate rows of version 1: all drops by key, and then all puts by key.
#[tactic(auto, unfolding(aq_rules::specs::Kept::Migration::migration_batch))]
pub(crate) fn migration_batch(alloc: Global, rows: &[Row]) -> Result<RowChanges, Memory>
    ensures { IfOk result (λ batch. batch ≡ migration_batch rows.now) }
{
    let mut batch = RowChanges::new(alloc);
    add_drops(&mut batch, rows)?;
    add_puts(alloc, &mut batch, rows)?;
    Ok(batch)
}

fn add_drops(batch: &mut RowChanges, rows: &[Row]) -> Result<(), Memory>
    ensures { OnOk result (batch.new ≡ batch.old
        ++ map (λ row. DropRow (row_key row)) (filter is_first rows.now)) }
{
    for row in rows {
        if let RowContent::Observation(row) = &row.content {
            batch.push(RowChange::drop(first_key(row)))?;
        }
    }
    Ok(())
}

fn add_puts(alloc: Global, batch: &mut RowChanges, rows: &[Row]) -> Result<(), Memory>
    ensures { OnOk result (batch.new ≡ batch.old
        ++ map (λ row. PutRow (migrated_row row)) (filter is_first rows.now)) }
{
    for row in rows {
        if let RowContent::Observation(row) = &row.content {
            batch.push(RowChange::put(Row::second(second_row(alloc, row)?)))?;
        }
    }
    Ok(())
}

fn first_key(row: &ObsRow) -> RowKey
    ensures { result ≡ row_key (OfObsRow row.now) }
{
    RowKey::observation(row.site, row.pollutant, row.poc, row.hour)
}

/// The same observation, without a method.
fn second_row(alloc: Global, row: &ObsRow) -> Result<ObsRow2, Memory>
    ensures { IfOk result (λ made. made ≡ second_row row.now) }
{
    Ok(ObsRow2 {
        site: row.site,
        pollutant: row.pollutant,
        poc: row.poc,
        hour: row.hour,
        value: row.value,
        method: None,
        null: Bytes::from_vec(row.null.as_slice().to_vec(alloc)?),
        quals: Bytes::from_vec(row.quals.as_slice().to_vec(alloc)?),
    })
}
