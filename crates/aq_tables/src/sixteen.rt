//! Rows put into `observations3`, sixteen by one INSERT.
ghost use Rattle.std.specs.Prelude.{◌≡◌, ◌≢◌, IsNone, List, length, map, IsTrue, IfOk, IfErr, IfSome, MatchBool};
ghost use Rattle.sqlite.specs.State.{HasCleanDisk, KeepsCommit, Survives};
ghost use Rattle.sqlite.specs.Values.{bound};
ghost use Rattle.sqlite.specs.Held.{state};
ghost use Rattle.aq_rules.specs.Kept.Rows.{ObsRow2, OfSecondRow};
ghost use Rattle.aq_rules.specs.Kept.RowChanges.{PutRow};
ghost use Rattle.aq_tables.specs.Told.{third_values};
ghost use Rattle.aq_tables.specs.Sixteen.{AreNumbered, IsStill, PutsAll, puts_of};
ghost use Rattle.aq_tables.specs.Why.{IsCaused, RefusesPuts, RefusesSixteen, is_clash, unless_clash};

use crate::third::{number_in, row_values};
use aq_keeper::{ChangeContent, ObsRow2, Row, RowChange, RowContent};
use sqlite::types::ValueRef;
use sqlite::{Alter, Error, ErrorCode, Transaction};

const PUT_SIXTEEN: &str =
    "INSERT INTO observations3 (id, value, method, nullcode, quals) VALUES (?, ?, ?, ?, ?), (?, ?, ?, ?, ?), (?, ?, ?, ?, ?), (?, ?, ?, ?, ?), (?, ?, ?, ?, ?), (?, ?, ?, ?, ?), (?, ?, ?, ?, ?), (?, ?, ?, ?, ?), (?, ?, ?, ?, ?), (?, ?, ?, ?, ?), (?, ?, ?, ?, ?), (?, ?, ?, ?, ?), (?, ?, ?, ?, ?), (?, ?, ?, ?, ?), (?, ?, ?, ?, ?), (?, ?, ?, ?, ?)";

/// The observation that a row is.
pub(crate) fn observation_in(row: &Row) -> Option<&ObsRow2>
    ensures some { IfSome result (λ it. row.now ≡ OfSecondRow it.now) }
    ensures none { IsNone result → (it : ObsRow2) → row.now ≢ OfSecondRow it }
{
    match &row.content {
        RowContent::Second(row) => Some(row),
        RowContent::Office(_) => None,
        RowContent::Observation(_) => None,
        RowContent::Load(_) => None,
    }
}

/// The observation that a change puts.
fn put_by(change: &RowChange) -> Option<&ObsRow2>
    ensures { IfSome result (λ row. change.now ≡ PutRow (OfSecondRow row.now)) }
{
    match &change.content {
        ChangeContent::Put(row) => observation_in(row),
        ChangeContent::Drop(_) => None,
    }
}

/// Fills in the values of the rows that changes put, and answers whether it did: if there are as many of
/// them, all observations whose keys have a number.
fn take_changes<'a>(changes: &'a [RowChange], values: &mut [[ValueRef<'a>; 5]]) -> bool
    ensures len { length values.new ≡ length values.old }
    ensures rows { IsTrue result → (rows : List ObsRow2) × (changes.now ≡ puts_of rows) × (map bound values.new ≡ map third_values rows) × AreNumbered rows }
{
    if changes.len() != values.len() {
        return false;
    }
    for place in 0..changes.len() {
        let Some(row) = put_by(&changes[place]) else {
            return false;
        };
        let number = number_in(row);
        if number.is_none() {
            return false;
        }
        values[place] = row_values(row, &number);
    }
    true
}

/// The same of rows.
fn take_rows<'a>(rows: &'a [Row], values: &mut [[ValueRef<'a>; 5]]) -> bool
    ensures len { length values.new ≡ length values.old }
    ensures rows { IsTrue result → (found : List ObsRow2) × (rows.now ≡ map OfSecondRow found) × (map bound values.new ≡ map third_values found) × AreNumbered found }
{
    if rows.len() != values.len() {
        return false;
    }
    for place in 0..rows.len() {
        let Some(row) = observation_in(&rows[place]) else {
            return false;
        };
        let number = number_in(row);
        if number.is_none() {
            return false;
        }
        values[place] = row_values(row, &number);
    }
    true
}

/// Puts sixteen rows by one INSERT, and answers whether it did. It did not, and changed nothing, if one of
/// the keys stands, or if two are the same.
fn put_values<S: Alter>(
    tx: &mut Transaction<'_, S>,
    values: &[[ValueRef<'_>; 5]; 16],
) -> Result<bool, Error>
    ensures same_reference { tx.new.conn.ghost_name ≡ tx.old.conn.ghost_name }
    ensures done { (rows : List ObsRow2) → map bound values.now ≡ map third_values rows → AreNumbered rows
        → HasCleanDisk (state S.Store tx.new.conn.now) → IsTrue (state S.Store tx.old.conn.now).in_transaction → IfOk result (λ is_put. MatchBool is_put (PutsAll rows (state S.Store tx.old.conn.now) (state S.Store tx.new.conn.now)) (IsStill (state S.Store tx.old.conn.now) (state S.Store tx.new.conn.now))) }
    ensures kept { HasCleanDisk (state S.Store tx.new.conn.now) → IsTrue (state S.Store tx.old.conn.now).in_transaction → KeepsCommit (state S.Store tx.old.conn.now) (state S.Store tx.new.conn.now) }
    ensures why { (rows : List ObsRow2) → map bound values.now ≡ map third_values rows
        → HasCleanDisk (state S.Store tx.new.conn.now) → IsTrue (state S.Store tx.old.conn.now).in_transaction → IfErr result (IsCaused (RefusesPuts rows (state S.Store tx.old.conn.now)) (state S.Store tx.old.conn.now) (state S.Store tx.new.conn.now)) }
    ensures survives { Survives (state S.Store tx.old.conn.now) (state S.Store tx.new.conn.now) (λ _. ⊥) }
{
    match tx.execute(PUT_SIXTEEN, values.as_flattened()) {
        Ok(_) => Ok(true),
        Err(error) => unless_clash(error),
    }
}

/// Whether a statement is against a rule of its table, as where its key stands.
fn is_clash(error: &Error) -> bool
    ensures { result ≡ is_clash error.now }
{
    match error {
        Error::SqliteFailure(ErrorCode::ConstraintViolation(_)) => true,
        _ => false,
    }
}

/// What is answered where nothing was put: that it was not, for a clash, and else the error.
fn unless_clash(error: Error) -> Result<bool, Error>
    ensures { result ≡ unless_clash error }
{
    if is_clash(&error) {
        Ok(false)
    } else {
        Err(error)
    }
}

/// Makes sixteen changes by one INSERT, and answers whether it did. It did not, and changed nothing, if
/// they are not sixteen observations to be put whose keys have a number, if one of the keys stands, or if
/// two are the same.
pub(crate) fn put_sixteen<S: Alter>(
    tx: &mut Transaction<'_, S>,
    changes: &[RowChange],
) -> Result<bool, Error>
    ensures same_reference { tx.new.conn.ghost_name ≡ tx.old.conn.ghost_name }
    ensures done { HasCleanDisk (state S.Store tx.new.conn.now) → IsTrue (state S.Store tx.old.conn.now).in_transaction
        → IfOk result (λ is_put. MatchBool is_put ((rows : List ObsRow2) × (changes.now ≡ puts_of rows) × PutsAll rows (state S.Store tx.old.conn.now) (state S.Store tx.new.conn.now)) (IsStill (state S.Store tx.old.conn.now) (state S.Store tx.new.conn.now))) }
    ensures kept { HasCleanDisk (state S.Store tx.new.conn.now) → IsTrue (state S.Store tx.old.conn.now).in_transaction → KeepsCommit (state S.Store tx.old.conn.now) (state S.Store tx.new.conn.now) }
    ensures why { HasCleanDisk (state S.Store tx.new.conn.now) → IsTrue (state S.Store tx.old.conn.now).in_transaction → IfErr result (IsCaused (RefusesSixteen changes.now (state S.Store tx.old.conn.now)) (state S.Store tx.old.conn.now) (state S.Store tx.new.conn.now)) }
    ensures survives { Survives (state S.Store tx.old.conn.now) (state S.Store tx.new.conn.now) (λ _. ⊥) }
{
    let mut values = [[ValueRef::Null; 5]; 16];
    if !take_changes(changes, &mut values) {
        return Ok(false);
    }
    put_values(tx, &values)
}

/// Puts sixteen rows by one INSERT, and answers whether it did, in the same way.
pub(crate) fn put_rows<S: Alter>(tx: &mut Transaction<'_, S>, rows: &[Row]) -> Result<bool, Error>
    ensures same_reference { tx.new.conn.ghost_name ≡ tx.old.conn.ghost_name }
    ensures done { HasCleanDisk (state S.Store tx.new.conn.now) → IsTrue (state S.Store tx.old.conn.now).in_transaction
        → IfOk result (λ is_put. MatchBool is_put ((found : List ObsRow2) × (rows.now ≡ map OfSecondRow found) × PutsAll found (state S.Store tx.old.conn.now) (state S.Store tx.new.conn.now)) (IsStill (state S.Store tx.old.conn.now) (state S.Store tx.new.conn.now))) }
    ensures kept { HasCleanDisk (state S.Store tx.new.conn.now) → IsTrue (state S.Store tx.old.conn.now).in_transaction → KeepsCommit (state S.Store tx.old.conn.now) (state S.Store tx.new.conn.now) }
    ensures why { HasCleanDisk (state S.Store tx.new.conn.now) → IsTrue (state S.Store tx.old.conn.now).in_transaction → IfErr result (IsCaused (λ error. (found : List ObsRow2) × (rows.now ≡ map OfSecondRow found) × AreNumbered found × RefusesPuts found (state S.Store tx.old.conn.now) error) (state S.Store tx.old.conn.now) (state S.Store tx.new.conn.now)) }
    ensures survives { Survives (state S.Store tx.old.conn.now) (state S.Store tx.new.conn.now) (λ _. ⊥) }
{
    let mut values = [[ValueRef::Null; 5]; 16];
    if !take_rows(rows, &mut values) {
        return Ok(false);
    }
    put_values(tx, &values)
}
