//! The rows that an answer shows.
ghost use Rattle.std.specs.Prelude.{◌≡◌, ◌⊎◌, false, IfOk, IfErr, OnOk};
ghost use Rattle.sqlite.specs.declared.error.Error.TheVariants.{SqliteFailure};
ghost use Rattle.sqlite.specs.declared.error.ErrorCode.TheVariants.{OutOfMemory};
ghost use Rattle.sqlite.specs.State.{HasCleanDisk, IsUnchanged, KeepsCommit, Survives};
ghost use Rattle.sqlite.specs.Held.{state};
ghost use Rattle.sqlite_value.specs.Order.{column, bytes};
ghost use Rattle.aq_tables.specs.Queries.{IsBareText, Takes, shown_by};
ghost use Rattle.aq_tables.specs.Texts.{read_text};
ghost use Rattle.aq_tables.specs.declared.reading.Table.TheVariants.{Records, Observations, Loads, Second, Third};
ghost use Rattle.sqlite_trees.specs.View.{is_int};
ghost use Rattle.sqlite.specs.declared.types.Value.TheVariants.{Int};
ghost use Rattle.aq_tables.specs.Told.{Reads, load_shown, observation_shown, optional, ours_of, record_shown, second_shown, third_shown};
ghost use Rattle.aq_tables.specs.Why.{IsCaused, IsOther, IsUnfit, RefusesAnswer, is_blob, is_cell, is_text};

use crate::number::{hour_of, poc_of, pollutant_of, site_of};
use aq_base::Bytes;
use aq_keeper::{LoadRow, ObsRow, ObsRow2, OfficeRow, Row};
use sqlite::types::{Type, ValueRef};
use sqlite::{Alter, Connection, Error, ErrorCode, Row as Columns};
use std::alloc::Global;

/// A table of an office of any version.
#[derive(Clone, Copy)]
pub(crate) enum Table {
    Records,
    Observations,
    Loads,
    Second,
    Third,
}

/// All rows in the order of their keys, as a query.
fn query_of(table: Table) -> &'static str
    ensures { result.now ≡ read_text table }
{
    match table {
        Table::Records => "SELECT kind, rowkey, line FROM records ORDER BY kind, rowkey",
        Table::Observations =>
            "SELECT site, pollutant, poc, hour, value, nullcode, quals FROM observations ORDER BY site, pollutant, poc, hour",
        Table::Loads =>
            "SELECT number, digest, lines, accepted, listed, rest FROM loads ORDER BY number",
        Table::Second =>
            "SELECT site, pollutant, poc, hour, value, method, nullcode, quals FROM observations2 ORDER BY site, pollutant, poc, hour",
        Table::Third => "SELECT id, value, method, nullcode, quals FROM observations3 ORDER BY id",
    }
}

/// The bytes of a text.
fn text_at(columns: &Columns, at: usize, alloc: Global) -> Result<Bytes, Error>
    ensures found { IfOk result (λ found. found ≡ bytes (column columns.now at)) }
    ensures why { IfErr result (λ error. (error ≡ SqliteFailure OutOfMemory) ⊎ IsUnfit is_text columns.now at) }
{
    let value = columns.get_ref(at)?;
    match value {
        ValueRef::Text(text) => Ok(Bytes::from_vec(Vec::from_slice(alloc, text)?)),
        _ => Err(Error::InvalidColumnType(at, Type::of(value))),
    }
}

/// The bytes of a blob.
fn blob_at(columns: &Columns, at: usize, alloc: Global) -> Result<Bytes, Error>
    ensures found { IfOk result (λ found. found ≡ bytes (column columns.now at)) }
    ensures why { IfErr result (λ error. (error ≡ SqliteFailure OutOfMemory) ⊎ IsUnfit is_blob columns.now at) }
{
    let value = columns.get_ref(at)?;
    match value {
        ValueRef::Blob(blob) => Ok(Bytes::from_vec(Vec::from_slice(alloc, blob)?)),
        _ => Err(Error::InvalidColumnType(at, Type::of(value))),
    }
}

/// The number of a column.
pub(crate) fn integer_at(columns: &Columns, at: usize) -> Result<i64, Error>
    ensures found { IfOk result (λ found. column columns.now at ≡ Int found) }
    ensures why { IfErr result (λ error. (error ≡ SqliteFailure OutOfMemory) ⊎ IsUnfit is_int columns.now at) }
{
    let value = columns.get_ref(at)?;
    match value {
        ValueRef::Int(number) => Ok(number),
        _ => Err(Error::InvalidColumnType(at, Type::of(value))),
    }
}

/// The number of a column that may have none.
fn optional_at(columns: &Columns, at: usize) -> Result<Option<i64>, Error>
    ensures found { IfOk result (λ found. found ≡ optional (column columns.now at)) }
    ensures why { IfErr result (λ error. (error ≡ SqliteFailure OutOfMemory) ⊎ IsUnfit is_cell columns.now at) }
{
    let value = columns.get_ref(at)?;
    match value {
        ValueRef::Null => Ok(None),
        ValueRef::Int(number) => Ok(Some(number)),
        _ => Err(Error::InvalidColumnType(at, Type::of(value))),
    }
}

/// The record that the columns of an answer show.
fn record_in(columns: &Columns, alloc: Global) -> Result<Row, Error>
    ensures found { IfOk result (λ row. row ≡ record_shown columns.now) }
    ensures why { IfErr result (λ error. (error ≡ SqliteFailure OutOfMemory) ⊎ IsOther Records columns.now) }
{
    Ok(Row::office(OfficeRow {
        kind: integer_at(columns, 0)?,
        key: text_at(columns, 1, alloc)?,
        line: text_at(columns, 2, alloc)?,
    }))
}

/// The load that the columns of an answer show.
fn load_in(columns: &Columns, alloc: Global) -> Result<Row, Error>
    ensures found { IfOk result (λ row. row ≡ load_shown columns.now) }
    ensures why { IfErr result (λ error. (error ≡ SqliteFailure OutOfMemory) ⊎ IsOther Loads columns.now) }
{
    Ok(Row::load(LoadRow {
        number: integer_at(columns, 0)?,
        digest: blob_at(columns, 1, alloc)?,
        lines: integer_at(columns, 2)?,
        accepted: integer_at(columns, 3)?,
        listed: text_at(columns, 4, alloc)?,
        rest: text_at(columns, 5, alloc)?,
    }))
}

/// The observation of version 1 that the columns of an answer show.
fn observation_in(columns: &Columns, alloc: Global) -> Result<Row, Error>
    ensures found { IfOk result (λ row. row ≡ observation_shown columns.now) }
    ensures why { IfErr result (λ error. (error ≡ SqliteFailure OutOfMemory) ⊎ IsOther Observations columns.now) }
{
    Ok(Row::observation(ObsRow {
        site: integer_at(columns, 0)?,
        pollutant: integer_at(columns, 1)?,
        poc: integer_at(columns, 2)?,
        hour: integer_at(columns, 3)?,
        value: optional_at(columns, 4)?,
        null: text_at(columns, 5, alloc)?,
        quals: text_at(columns, 6, alloc)?,
    }))
}

/// The observation that the columns of an answer from the table of before show.
fn second_in(columns: &Columns, alloc: Global) -> Result<Row, Error>
    ensures found { IfOk result (λ row. row ≡ second_shown columns.now) }
    ensures why { IfErr result (λ error. (error ≡ SqliteFailure OutOfMemory) ⊎ IsOther Second columns.now) }
{
    Ok(Row::second(ObsRow2 {
        site: integer_at(columns, 0)?,
        pollutant: integer_at(columns, 1)?,
        poc: integer_at(columns, 2)?,
        hour: integer_at(columns, 3)?,
        value: optional_at(columns, 4)?,
        method: optional_at(columns, 5)?,
        null: text_at(columns, 6, alloc)?,
        quals: text_at(columns, 7, alloc)?,
    }))
}

/// The observation that the columns of an answer show.
fn third_in(columns: &Columns, alloc: Global) -> Result<Row, Error>
    ensures found { IfOk result (λ row. row ≡ third_shown columns.now) }
    ensures why { IfErr result (λ error. (error ≡ SqliteFailure OutOfMemory) ⊎ IsOther Third columns.now) }
{
    let number = integer_at(columns, 0)?;
    Ok(Row::second(ObsRow2 {
        site: site_of(&number),
        pollutant: pollutant_of(&number),
        poc: poc_of(&number),
        hour: hour_of(&number),
        value: optional_at(columns, 1)?,
        method: optional_at(columns, 2)?,
        null: text_at(columns, 3, alloc)?,
        quals: text_at(columns, 4, alloc)?,
    }))
}

fn row_in(table: Table, columns: &Columns, alloc: Global) -> Result<Row, Error>
    ensures found { IfOk result (λ row. row ≡ shown_by table columns.now) }
    ensures why { IfErr result (λ error. (error ≡ SqliteFailure OutOfMemory) ⊎ IsOther table columns.now) }
{
    match table {
        Table::Records => record_in(columns, alloc),
        Table::Observations => observation_in(columns, alloc),
        Table::Loads => load_in(columns, alloc),
        Table::Second => second_in(columns, alloc),
        Table::Third => third_in(columns, alloc),
    }
}

/// Takes the answer to a query of a table to its end.
fn take_all<S: Alter>(
    conn: &mut Connection<S>,
    text: &str,
    table: Table,
    alloc: Global,
    found: &mut Vec<Row>,
) -> Result<(), Error>
    requires { IsBareText text.now }
    ensures rows { HasCleanDisk (state S.Store conn.new) → OnOk result (Takes (shown_by table) text.now (state S.Store conn.old).now found.old.items found.new.items) }
    ensures same { HasCleanDisk (state S.Store conn.new) → OnOk result (IsUnchanged (state S.Store conn.old) (state S.Store conn.new)) }
    ensures kept { HasCleanDisk (state S.Store conn.new) → KeepsCommit (state S.Store conn.old) (state S.Store conn.new) }
    ensures why { HasCleanDisk (state S.Store conn.new) → IfErr result (IsCaused (RefusesAnswer table text.now (state S.Store conn.old)) (state S.Store conn.old) (state S.Store conn.new)) }
    ensures mode { (state S.Store conn.old).in_transaction ≡ false → (state S.Store conn.new).in_transaction ≡ false }
    ensures crash { Survives (state S.Store conn.old) (state S.Store conn.new) (λ _. ⊥) }
{
    let mut rows = conn.query(text, &[])?;
    'rows: for _taken in 0..u64::MAX {
        let Some(row) = rows.next()? else {
            return Ok(());
        };
        found.push(row_in(table, row, alloc)?)?;
    }
    Err(Error::SqliteFailure(ErrorCode::TooBig))
}

/// Reads all rows of a table, in the order of their keys, after those that are there.
pub(crate) fn read_table<S: Alter>(
    conn: &mut Connection<S>,
    table: Table,
    alloc: Global,
    found: &mut Vec<Row>,
) -> Result<(), Error>
    ensures rows { HasCleanDisk (state S.Store conn.new) → OnOk result (Reads (ours_of table) (state S.Store conn.old).now found.old.items found.new.items) }
    ensures same { HasCleanDisk (state S.Store conn.new) → OnOk result (IsUnchanged (state S.Store conn.old) (state S.Store conn.new)) }
    ensures kept { HasCleanDisk (state S.Store conn.new) → KeepsCommit (state S.Store conn.old) (state S.Store conn.new) }
    ensures why { HasCleanDisk (state S.Store conn.new) → IfErr result (IsCaused (RefusesAnswer table (read_text table) (state S.Store conn.old)) (state S.Store conn.old) (state S.Store conn.new)) }
    ensures mode { (state S.Store conn.old).in_transaction ≡ false → (state S.Store conn.new).in_transaction ≡ false }
    ensures crash { Survives (state S.Store conn.old) (state S.Store conn.new) (λ _. ⊥) }
{
    take_all(conn, query_of(table), table, alloc, found)
}
