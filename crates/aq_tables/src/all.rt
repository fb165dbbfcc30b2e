//! All rows of the tables.
ghost use Rattle.std.specs.Prelude.{◌≡◌, ◌++◌, false, IsTrue, IfOk, IfErr, OnOk};
ghost use Rattle.sqlite.specs.State.{HasCleanDisk, IsUnchanged, KeepsCommit, Survives};
ghost use Rattle.sqlite.specs.Held.{state};
ghost use Rattle.aq_tables.specs.Told.{observations};
ghost use Rattle.aq_tables.specs.All.{HasTables, MayHave, rows_in, rows_of};
ghost use Rattle.aq_tables.specs.Why.{IsCaused, OrBegun, RefusesRows};

use crate::batch::first_stands;
use crate::reading::{Table, read_table};
use aq_keeper::{Row, Rows};
use sqlite::{Alter, Connection, Error, ErrorCode};
use std::alloc::Global;

/// Reads the rows of the table that version 1 kept after those that are there, if it stands.
fn read_first<S: Alter>(
    conn: &mut Connection<S>,
    alloc: Global,
    found: &mut Vec<Row>,
) -> Result<(), Error>
    ensures rows { HasCleanDisk (state S.Store conn.new) → OnOk result (MayHave observations (state S.Store conn.old).now → found.new.items ≡ found.old.items ++ rows_in observations (state S.Store conn.old).now) }
    ensures same { HasCleanDisk (state S.Store conn.new) → OnOk result (IsTrue (state S.Store conn.old).is_open → IsUnchanged (state S.Store conn.old) (state S.Store conn.new)) }
    ensures kept { HasCleanDisk (state S.Store conn.new) → KeepsCommit (state S.Store conn.old) (state S.Store conn.new) }
    ensures why { HasCleanDisk (state S.Store conn.new) → IfErr result (IsCaused (RefusesRows (state S.Store conn.old)) (state S.Store conn.old) (state S.Store conn.new)) }
    ensures mode { (state S.Store conn.old).in_transaction ≡ false → (state S.Store conn.new).in_transaction ≡ false }
    ensures crash { Survives (state S.Store conn.old) (state S.Store conn.new) (λ _. ⊥) }
{
    if !first_stands(conn) {
        return Ok(());
    }
    read_table(conn, Table::Observations, alloc, found)
}

/// All rows in the order of tables and keys. Nothing changes. A transaction that is open is refused, so
/// that what is read was committed.
pub fn read_all<S: Alter>(conn: &mut Connection<S>, alloc: Global) -> Result<Rows, Error>
    ensures alone { OnOk result ((state S.Store conn.old).in_transaction ≡ false) }
    ensures rows { HasCleanDisk (state S.Store conn.new) → IfOk result (λ rows. HasTables (state S.Store conn.old).committed → rows ≡ rows_of (state S.Store conn.old).committed) }
    ensures same { HasCleanDisk (state S.Store conn.new) → OnOk result (IsUnchanged (state S.Store conn.old) (state S.Store conn.new)) }
    ensures kept { HasCleanDisk (state S.Store conn.new) → KeepsCommit (state S.Store conn.old) (state S.Store conn.new) }
    ensures why { HasCleanDisk (state S.Store conn.new) → IfErr result (IsCaused (OrBegun (state S.Store conn.old) (RefusesRows (state S.Store conn.old))) (state S.Store conn.old) (state S.Store conn.new)) }
    ensures mode { (state S.Store conn.old).in_transaction ≡ false → (state S.Store conn.new).in_transaction ≡ false }
    ensures crash { Survives (state S.Store conn.old) (state S.Store conn.new) (λ _. ⊥) }
{
    if !conn.is_autocommit() {
        return Err(Error::SqliteFailure(ErrorCode::TransactionState));
    }
    let mut found = Vec::new(alloc);
    read_table(conn, Table::Records, alloc, &mut found)?;
    read_first(conn, alloc, &mut found)?;
    read_table(conn, Table::Loads, alloc, &mut found)?;
    read_table(conn, Table::Third, alloc, &mut found)?;
    Ok(Rows::from_vec(found))
}
