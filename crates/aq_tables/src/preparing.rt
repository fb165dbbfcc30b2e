//! The tables, looked at, made in a database of nobody, and moved to the form of today.
ghost use Rattle.std.specs.Prelude.{◌≡◌, ◌≢◌, ◌⊎◌, [], true, false, IsTrue, IfOk, IfErr, IsErrAnd, OnErr, OnOk};
ghost use Rattle.sqlite.specs.declared.error.ErrorCode.TheVariants.{NotADatabase, OutOfMemory, TransactionState};
ghost use Rattle.sqlite.specs.declared.error.Error.TheVariants.{SqliteFailure};
ghost use Rattle.sqlite.specs.Effect.{Database};
ghost use Rattle.sqlite.specs.State.{HasCleanDisk, IsLive, KeepsCommit, Survives};
ghost use Rattle.sqlite.specs.Held.{state};
ghost use Rattle.aq_tables.specs.All.{HasTables, rows_in, rows_of};
ghost use Rattle.aq_tables.specs.Made.{AreAllApart, AreMissing, AreThere, Inside, IsMade, IsMissing, IsOffice, IsThere, LeavesOthers, form_of, is_whole};
ghost use Rattle.aq_tables.specs.Moves.{DropsSecond, MakesFirst};
ghost use Rattle.aq_tables.specs.Rowids.{AreApart};
ghost use Rattle.aq_tables.specs.Told.{second};
ghost use Rattle.aq_tables.specs.declared.reading.Table.TheVariants.{Second};
ghost use Rattle.aq_tables.specs.Texts.{drop_second_text, read_text, rowids_text};
ghost use Rattle.aq_tables.specs.Why.{IsCaused, OrBegun, Refuses, RefusesAnswer};
ghost use Rattle.aq_tables.specs.WhyMade.{RefusesFile, RefusesFirst, RefusesMaking, RefusesOffice, RefusesRowids};

use crate::binding::run;
use crate::missing::{Missing, missing_of};
use crate::moving::put_all;
use crate::reading::{Table, read_table};
use crate::rowids::are_apart;
use aq_keeper::Row;
use sqlite::{Alter, Connection, Error, ErrorCode, Transaction};
use std::alloc::Global;

const MAKE_RECORDS: &str =
    "CREATE TABLE records (kind INTEGER NOT NULL, rowkey TEXT NOT NULL, line TEXT NOT NULL, PRIMARY KEY (kind, rowkey)) STRICT";

const MAKE_LOADS: &str =
    "CREATE TABLE loads (number INTEGER PRIMARY KEY, digest BLOB NOT NULL, lines INTEGER NOT NULL, accepted INTEGER NOT NULL, listed TEXT NOT NULL, rest TEXT NOT NULL) STRICT";

const MAKE_THIRD: &str =
    "CREATE TABLE observations3 (id INTEGER PRIMARY KEY, value INTEGER, method INTEGER, nullcode TEXT NOT NULL, quals TEXT NOT NULL) STRICT";

const DROP_SECOND: &str = "DROP TABLE observations2";

/// A view with the name and the columns of the table of before, so that a SELECT of it goes on, and an
/// earlier program refuses the file.
const MAKE_VIEW: &str =
    "CREATE VIEW observations2 AS SELECT id / 1000000000 AS site, id / 100000000 % 10 AS pollutant, id / 1000000 % 100 AS poc, id % 1000000 - 87648 AS hour, value, method, nullcode, quals FROM observations3";

/// Makes `records` and `loads`, if they are missing.
fn make_first<S: Alter>(tx: &mut Transaction<'_, S>, are_missing: bool) -> Result<(), Error>
    ensures same_reference { tx.new.conn.ghost_name ≡ tx.old.conn.ghost_name }
    ensures done { HasCleanDisk (state S.Store tx.new.conn.now) → IsTrue (state S.Store tx.old.conn.now).in_transaction → OnOk result (MakesFirst are_missing (state S.Store tx.old.conn.now) (state S.Store tx.new.conn.now)) }
    ensures kept { HasCleanDisk (state S.Store tx.new.conn.now) → IsTrue (state S.Store tx.old.conn.now).in_transaction → KeepsCommit (state S.Store tx.old.conn.now) (state S.Store tx.new.conn.now) }
    ensures why { HasCleanDisk (state S.Store tx.new.conn.now) → IsTrue (state S.Store tx.old.conn.now).in_transaction → IfErr result (IsCaused (λ error. (are_missing ≡ true) × RefusesFirst S.Store tx.old.conn.now error) (state S.Store tx.old.conn.now) (state S.Store tx.new.conn.now)) }
    ensures survives { Survives (state S.Store tx.old.conn.now) (state S.Store tx.new.conn.now) (λ _. ⊥) }
{
    if !are_missing {
        return Ok(());
    }
    run(tx, MAKE_RECORDS, &[])?;
    run(tx, MAKE_LOADS, &[])
}

/// Drops `observations2`, if it stands.
fn drop_second<S: Alter>(tx: &mut Transaction<'_, S>, is_missing: bool) -> Result<(), Error>
    ensures same_reference { tx.new.conn.ghost_name ≡ tx.old.conn.ghost_name }
    ensures done { HasCleanDisk (state S.Store tx.new.conn.now) → IsTrue (state S.Store tx.old.conn.now).in_transaction → OnOk result (DropsSecond is_missing (state S.Store tx.old.conn.now) (state S.Store tx.new.conn.now)) }
    ensures kept { HasCleanDisk (state S.Store tx.new.conn.now) → IsTrue (state S.Store tx.old.conn.now).in_transaction → KeepsCommit (state S.Store tx.old.conn.now) (state S.Store tx.new.conn.now) }
    ensures why { HasCleanDisk (state S.Store tx.new.conn.now) → IsTrue (state S.Store tx.old.conn.now).in_transaction → IfErr result (IsCaused (λ error. (is_missing ≡ false) × Refuses drop_second_text [] (state S.Store tx.old.conn.now) error) (state S.Store tx.old.conn.now) (state S.Store tx.new.conn.now)) }
    ensures survives { Survives (state S.Store tx.old.conn.now) (state S.Store tx.new.conn.now) (λ _. ⊥) }
{
    if is_missing {
        return Ok(());
    }
    run(tx, DROP_SECOND, &[])
}

/// Makes `observations3` with these rows, and the view in place of `observations2`.
fn make_third<S: Alter>(
    tx: &mut Transaction<'_, S>,
    missing: &Missing,
    rows: &[Row],
) -> Result<(), Error>
    ensures same_reference { tx.new.conn.ghost_name ≡ tx.old.conn.ghost_name }
    ensures done { HasCleanDisk (state S.Store tx.new.conn.now) → IsTrue (state S.Store tx.old.conn.now).in_transaction
        → OnOk result (Inside (λ old new. missing.now.third ≡ true → missing.now.loads ≡ missing.now.records → AreThere missing.now old → rows.now ≡ rows_in second old → IsMade old new) (state S.Store tx.old.conn.now) (state S.Store tx.new.conn.now)) }
    ensures kept { HasCleanDisk (state S.Store tx.new.conn.now) → IsTrue (state S.Store tx.old.conn.now).in_transaction → KeepsCommit (state S.Store tx.old.conn.now) (state S.Store tx.new.conn.now) }
    ensures why { HasCleanDisk (state S.Store tx.new.conn.now) → IsTrue (state S.Store tx.old.conn.now).in_transaction → IfErr result (IsCaused (RefusesMaking S.Store missing.now rows.now tx.old.conn.now) (state S.Store tx.old.conn.now) (state S.Store tx.new.conn.now)) }
    ensures survives { Survives (state S.Store tx.old.conn.now) (state S.Store tx.new.conn.now) (λ _. ⊥) }
{
    make_first(tx, missing.records)?;
    run(tx, MAKE_THIRD, &[])?;
    put_all(tx, rows)?;
    drop_second(tx, missing.second)?;
    run(tx, MAKE_VIEW, &[])
}

/// Commits the tables of today in one transaction, with the rows of `observations2`. It does nothing if they
/// stand.
fn commit_third<S: Alter>(
    conn: &mut Connection<S>,
    missing: &Missing,
    rows: &[Row],
) -> Result<(), Error>
    requires autocommit { conn.old.in_transaction ≡ false }
    requires settled { IsTrue (state S.Store conn.old).is_open → (state S.Store conn.old).now ≡ (state S.Store conn.old).committed }
    requires there { IsTrue (state S.Store conn.old).is_open → AreThere missing.now (state S.Store conn.old).now }
    requires missing { AreMissing missing.now conn.old.schema }
    requires whole { IsTrue (is_whole conn.old.schema) }
    requires rows { IsTrue (state S.Store conn.old).is_open → rows.now ≡ rows_in second (state S.Store conn.old).now }
    ensures made { HasCleanDisk (state S.Store conn.new) → OnOk result (IsTrue (state S.Store conn.new).is_open → IsMade (state S.Store conn.old).now (state S.Store conn.new).now) }
    ensures settled { HasCleanDisk (state S.Store conn.new) → OnOk result (IsTrue (state S.Store conn.new).is_open → (state S.Store conn.new).now ≡ (state S.Store conn.new).committed) }
    ensures was_open { HasCleanDisk (state S.Store conn.new) → OnOk result (IsTrue (state S.Store conn.new).is_open → IsTrue (state S.Store conn.old).is_open) }
    ensures kept { HasCleanDisk (state S.Store conn.new) → OnErr result (KeepsCommit (state S.Store conn.old) (state S.Store conn.new)) }
    ensures why { HasCleanDisk (state S.Store conn.new) → IfErr result (IsCaused (λ error. (missing.now.third ≡ true) × RefusesMaking S.Store missing.now rows.now (record conn.old { in_transaction = true }) error) (state S.Store conn.old) (state S.Store conn.new)) }
    ensures mode { (state S.Store conn.new).in_transaction ≡ false }
    ensures crash { Survives (state S.Store conn.old) (state S.Store conn.new) (λ trees. (db : Database) × IsMade (state S.Store conn.old).now db × (trees ≡ db.trees)) }
{
    if !missing.third {
        return Ok(());
    }
    let mut tx = conn.transaction();
    make_third(&mut tx, missing, rows)?;
    tx.commit()
}

/// Sees that no two rows of a table have the same rowid, if it stands.
fn see_table<S: Alter>(
    conn: &mut Connection<S>,
    is_missing: bool,
    table: Table,
) -> Result<(), Error>
    ensures apart { HasCleanDisk (state S.Store conn.new) → OnOk result (IsMissing is_missing (state S.Store conn.old).now.schema (form_of table) → AreApart (form_of table) (state S.Store conn.old).now) }
    ensures same { HasCleanDisk (state S.Store conn.new) → OnOk result ((state S.Store conn.new).now ≡ (state S.Store conn.old).now) }
    ensures kept { HasCleanDisk (state S.Store conn.new) → KeepsCommit (state S.Store conn.old) (state S.Store conn.new) }
    ensures why { HasCleanDisk (state S.Store conn.new) → IfErr result (IsCaused (λ error. (is_missing ≡ false) × RefusesRowids (rowids_text table) (state S.Store conn.old) error) (state S.Store conn.old) (state S.Store conn.new)) }
    ensures mode { (state S.Store conn.old).in_transaction ≡ false → (state S.Store conn.new).in_transaction ≡ false }
    ensures crash { Survives (state S.Store conn.old) (state S.Store conn.new) (λ _. ⊥) }
{
    if is_missing {
        return Ok(());
    }
    if are_apart(conn, table)? {
        Ok(())
    } else {
        Err(Error::SqliteFailure(ErrorCode::DatabaseCorrupt))
    }
}

/// Sees that no two rows of a table that stands have the same rowid.
fn see_rows<S: Alter>(conn: &mut Connection<S>, missing: &Missing) -> Result<(), Error>
    ensures apart { HasCleanDisk (state S.Store conn.new) → OnOk result (AreMissing missing.now (state S.Store conn.old).now.schema → AreAllApart (state S.Store conn.old).now) }
    ensures same { HasCleanDisk (state S.Store conn.new) → OnOk result ((state S.Store conn.new).now ≡ (state S.Store conn.old).now) }
    ensures kept { HasCleanDisk (state S.Store conn.new) → KeepsCommit (state S.Store conn.old) (state S.Store conn.new) }
    ensures why { HasCleanDisk (state S.Store conn.new) → IfErr result (IsCaused (RefusesOffice S.Store missing.now conn.old) (state S.Store conn.old) (state S.Store conn.new)) }
    ensures mode { (state S.Store conn.old).in_transaction ≡ false → (state S.Store conn.new).in_transaction ≡ false }
    ensures crash { Survives (state S.Store conn.old) (state S.Store conn.new) (λ _. ⊥) }
{
    see_table(conn, missing.records, Table::Records)?;
    see_table(conn, missing.observations, Table::Observations)?;
    see_table(conn, missing.loads, Table::Loads)?;
    see_table(conn, missing.second, Table::Second)?;
    see_table(conn, missing.third, Table::Third)?;
    Ok(())
}

/// The rows of `observations2`, if it stands.
fn rows_before<S: Alter>(
    conn: &mut Connection<S>,
    is_missing: bool,
    alloc: Global,
) -> Result<Vec<Row>, Error>
    ensures rows { HasCleanDisk (state S.Store conn.new) → IfOk result (λ rows. IsThere is_missing second (state S.Store conn.old).now → rows.items ≡ rows_in second (state S.Store conn.old).now) }
    ensures same { HasCleanDisk (state S.Store conn.new) → OnOk result ((state S.Store conn.new).now ≡ (state S.Store conn.old).now) }
    ensures kept { HasCleanDisk (state S.Store conn.new) → KeepsCommit (state S.Store conn.old) (state S.Store conn.new) }
    ensures why { HasCleanDisk (state S.Store conn.new) → IfErr result (IsCaused (λ error. (is_missing ≡ false) × RefusesAnswer Second (read_text Second) (state S.Store conn.old) error) (state S.Store conn.old) (state S.Store conn.new)) }
    ensures mode { (state S.Store conn.old).in_transaction ≡ false → (state S.Store conn.new).in_transaction ≡ false }
    ensures crash { Survives (state S.Store conn.old) (state S.Store conn.new) (λ _. ⊥) }
{
    let mut found = Vec::new(alloc);
    if is_missing {
        return Ok(found);
    }
    read_table(conn, Table::Second, alloc, &mut found)?;
    Ok(found)
}

/// The tables that are missing. It is refused if a transaction is open, and if the tables that stand are
/// not those of an office.
fn see_tables<S: Alter>(conn: &Connection<S>) -> Result<Missing, Error>
    ensures alone { OnOk result (conn.now.in_transaction ≡ false) }
    ensures settled { OnOk result (IsTrue (state S.Store conn.now).is_open → (state S.Store conn.now).now ≡ (state S.Store conn.now).committed) }
    ensures missing { IfOk result (λ missing. AreMissing missing conn.now.schema) }
    ensures whole { OnOk result (IsTrue (is_whole conn.now.schema)) }
    ensures live { OnOk result (IsLive (state S.Store conn.now)) }
    ensures refused { IfErr result (λ error. ((error ≡ SqliteFailure TransactionState) × IsTrue conn.now.in_transaction) ⊎ ((error ≡ SqliteFailure NotADatabase) × (IsOffice conn.now.schema → ⊥))) }
{
    if !conn.is_autocommit() {
        return Err(Error::SqliteFailure(ErrorCode::TransactionState));
    }
    missing_of(conn.schema())
}

/// Sees that the tables that stand are those of an office, of which none is missing, or of nobody, and that no
/// two rows of one of them have the same rowid. Then it makes the tables in a database of nobody, and in one
/// that an earlier program left it moves the rows of `observations2` into `observations3`, in one
/// transaction. It is refused if a transaction is open, if a table of one of our names has another form or
/// shares its tree, if two of its rows have the same rowid, if the key of a row has no number, and if the
/// tables are neither those of an office nor of nobody. After an error nothing is made or moved.
///
/// Each other table stands as before, with its indexes, and each view. It keeps its rows, unless `observations2`
/// is dropped, a foreign key acts where a row of that is deleted, and the table has a foreign key.
pub fn prepare<S: Alter>(conn: &mut Connection<S>, alloc: Global) -> Result<(), Error>
    ensures alone { OnOk result (conn.old.in_transaction ≡ false) }
    ensures office { OnOk result (IsOffice conn.old.schema) }
    ensures other { (IsOffice conn.old.schema → ⊥) → (conn.new ≡ conn.old) × IsErrAnd result (λ error. error ≢ SqliteFailure OutOfMemory) }
    ensures was_open { OnOk result (IsTrue (state S.Store conn.new).is_open → IsTrue (state S.Store conn.old).is_open) }
    ensures stand { OnOk result (IsTrue (state S.Store conn.new).is_open → HasTables (state S.Store conn.new).committed) }
    ensures same { OnOk result (IsTrue (state S.Store conn.new).is_open → rows_of (state S.Store conn.new).committed ≡ rows_of (state S.Store conn.old).committed) }
    ensures others { OnOk result (IsTrue (state S.Store conn.new).is_open → LeavesOthers (state S.Store conn.old).committed (state S.Store conn.new).committed) }
    ensures kept { HasCleanDisk (state S.Store conn.new) → OnErr result (KeepsCommit (state S.Store conn.old) (state S.Store conn.new)) }
    ensures why { HasCleanDisk (state S.Store conn.new) → IfErr result (IsCaused (OrBegun (state S.Store conn.old) (RefusesFile S.Store conn.old)) (state S.Store conn.old) (state S.Store conn.new)) }
    ensures mode { (state S.Store conn.old).in_transaction ≡ false → (state S.Store conn.new).in_transaction ≡ false }
    ensures crash { Survives (state S.Store conn.old) (state S.Store conn.new) (λ trees. (db : Database) × IsMade (state S.Store conn.old).now db × (trees ≡ db.trees)) }
{
    let missing = see_tables(conn)?;
    see_rows(conn, &missing)?;
    let rows = rows_before(conn, missing.second, alloc)?;
    // Whatever the store did while it was read, what is made is missing now.
    let missing = see_tables(conn)?;
    commit_third(conn, &missing, rows.as_slice())?;
    let _ = conn.schema();
    Ok(())
}
