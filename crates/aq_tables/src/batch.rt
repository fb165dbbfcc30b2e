//! Changes of the tables, and a batch of them in one transaction.
ghost use Rattle.std.specs.Prelude.{◌≡◌, ◌∷◌, [], ℤ, true, false, IsTrue, IfErr, OnOk, OnErr};
ghost use Rattle.std.specs.List.{AllByRecursion};
ghost use Rattle.sqlite.specs.declared.types.Value.TheVariants.{Int};
ghost use Rattle.sqlite.specs.Values.{bound};
ghost use Rattle.aq_rules.specs.Kept.Rows.{OfObsRow, OfSecondRow};
ghost use Rattle.sqlite.specs.State.{HasCleanDisk, KeepsCommit, Survives};
ghost use Rattle.sqlite.specs.Held.{state};
ghost use Rattle.aq_rules.specs.Kept.RowChanges.{ObsRowKey, row_key};
ghost use Rattle.aq_tables.specs.Sixteen.{PutsAll};
ghost use Rattle.aq_tables.specs.Batch.{Becomes, Changes, DropsKey, IsNumbered, KnowsFirst, Leaves, PutsRow};
ghost use Rattle.aq_tables.specs.Why.{IsCaused, OrBegun, RefusesBatch, RefusesChange, RefusesCommit, RefusesDrop, RefusesPut, RefusesWithin};

use crate::binding::{place_values, run};
use crate::loads::{DROP_LOAD, PUT_LOAD};
use crate::observations::{DROP_OBSERVATION, PUT_OBSERVATION};
use crate::records::{DROP_RECORD, PUT_RECORD};
use crate::sixteen::put_sixteen;
use crate::third::{DROP_THIRD, PUT_THIRD};
use crate::{loads, observations, records, third};
use aq_keeper::{ChangeContent, KeyContent, ObsRow, ObsRow2, Row, RowChange, RowContent, RowKey};
use sqlite::types::ValueRef;
use sqlite::{Alter, Connection, Error, ErrorCode, Transaction};

/// Whether the table that version 1 kept stands.
pub(crate) fn first_stands<S: Alter>(conn: &Connection<S>) -> bool
    ensures { KnowsFirst result (state S.Store conn.now).now.schema }
{
    conn.schema()
        .table_named(b"observations".as_slice())
        .is_some()
}

/// Drops the row of a key, if there is one. Where the table that version 1 kept is missing, none of its keys
/// has a row: then no row of `observations3` is dropped, so that the store is seen to be open.
fn drop_key<S: Alter>(tx: &mut Transaction<'_, S>, first: bool, key: &RowKey) -> Result<(), Error>
    ensures same_reference { tx.new.conn.ghost_name ≡ tx.old.conn.ghost_name }
    ensures done { HasCleanDisk (state S.Store tx.new.conn.now) → IsTrue (state S.Store tx.old.conn.now).in_transaction → OnOk result (DropsKey first key.now (state S.Store tx.old.conn.now) (state S.Store tx.new.conn.now)) }
    ensures kept { HasCleanDisk (state S.Store tx.new.conn.now) → IsTrue (state S.Store tx.old.conn.now).in_transaction → KeepsCommit (state S.Store tx.old.conn.now) (state S.Store tx.new.conn.now) }
    ensures why { HasCleanDisk (state S.Store tx.new.conn.now) → IsTrue (state S.Store tx.old.conn.now).in_transaction → IfErr result (IsCaused (RefusesDrop first key.now (state S.Store tx.old.conn.now)) (state S.Store tx.old.conn.now) (state S.Store tx.new.conn.now)) }
    ensures survives { Survives (state S.Store tx.old.conn.now) (state S.Store tx.new.conn.now) (λ _. ⊥) }
{
    match &key.content {
        KeyContent::Office { kind, key } => {
            run(tx, DROP_RECORD, &records::key_values(kind, key.as_slice()))
        }
        KeyContent::Observation {
            site,
            pollutant,
            poc,
            hour,
        } => drop_first(tx, first, &place_values(site, pollutant, poc, hour)),
        KeyContent::Load { number } => run(tx, DROP_LOAD, &loads::key_values(number)),
        KeyContent::Second {
            site,
            pollutant,
            poc,
            hour,
        } => run(
            tx,
            DROP_THIRD,
            &third::key_values(site, pollutant, poc, hour),
        ),
    }
}

/// Drops the row of a key from the table that version 1 kept, if that stands.
fn drop_first<S: Alter>(
    tx: &mut Transaction<'_, S>,
    first: bool,
    place: &[ValueRef<'_>; 4],
) -> Result<(), Error>
    ensures same_reference { tx.new.conn.ghost_name ≡ tx.old.conn.ghost_name }
    ensures done { (site pollutant poc hour : ℤ) → bound place.now ≡ Int site ∷ Int pollutant ∷ Int poc ∷ Int hour ∷ []
        → HasCleanDisk (state S.Store tx.new.conn.now) → IsTrue (state S.Store tx.old.conn.now).in_transaction → OnOk result (DropsKey first (ObsRowKey site pollutant poc hour) (state S.Store tx.old.conn.now) (state S.Store tx.new.conn.now)) }
    ensures kept { HasCleanDisk (state S.Store tx.new.conn.now) → IsTrue (state S.Store tx.old.conn.now).in_transaction → KeepsCommit (state S.Store tx.old.conn.now) (state S.Store tx.new.conn.now) }
    ensures why { (site pollutant poc hour : ℤ) → bound place.now ≡ Int site ∷ Int pollutant ∷ Int poc ∷ Int hour ∷ []
        → HasCleanDisk (state S.Store tx.new.conn.now) → IsTrue (state S.Store tx.old.conn.now).in_transaction → IfErr result (IsCaused (RefusesDrop first (ObsRowKey site pollutant poc hour) (state S.Store tx.old.conn.now)) (state S.Store tx.old.conn.now) (state S.Store tx.new.conn.now)) }
    ensures survives { Survives (state S.Store tx.old.conn.now) (state S.Store tx.new.conn.now) (λ _. ⊥) }
{
    if first {
        run(tx, DROP_OBSERVATION, place)
    } else {
        run(tx, DROP_THIRD, &[ValueRef::Null])
    }
}

/// Drops the row that has the key of this one, if there is one.
fn drop_same<S: Alter>(tx: &mut Transaction<'_, S>, first: bool, row: &Row) -> Result<(), Error>
    ensures same_reference { tx.new.conn.ghost_name ≡ tx.old.conn.ghost_name }
    ensures done { HasCleanDisk (state S.Store tx.new.conn.now) → IsTrue (state S.Store tx.old.conn.now).in_transaction → OnOk result (DropsKey first (row_key row.now) (state S.Store tx.old.conn.now) (state S.Store tx.new.conn.now)) }
    ensures kept { HasCleanDisk (state S.Store tx.new.conn.now) → IsTrue (state S.Store tx.old.conn.now).in_transaction → KeepsCommit (state S.Store tx.old.conn.now) (state S.Store tx.new.conn.now) }
    ensures why { HasCleanDisk (state S.Store tx.new.conn.now) → IsTrue (state S.Store tx.old.conn.now).in_transaction → IfErr result (IsCaused (RefusesDrop first (row_key row.now) (state S.Store tx.old.conn.now)) (state S.Store tx.old.conn.now) (state S.Store tx.new.conn.now)) }
    ensures survives { Survives (state S.Store tx.old.conn.now) (state S.Store tx.new.conn.now) (λ _. ⊥) }
{
    match &row.content {
        RowContent::Office(row) => {
            run(
                tx,
                DROP_RECORD,
                &records::key_values(&row.kind, row.key.as_slice()),
            )
        }
        RowContent::Observation(row) => {
            drop_first(
                tx,
                first,
                &place_values(&row.site, &row.pollutant, &row.poc, &row.hour),
            )
        }
        RowContent::Load(row) => run(tx, DROP_LOAD, &loads::key_values(&row.number)),
        RowContent::Second(row) => {
            run(
                tx,
                DROP_THIRD,
                &third::key_values(&row.site, &row.pollutant, &row.poc, &row.hour),
            )
        }
    }
}

/// Puts a row, of which none has the key. It is refused if its table is missing, and if its key has no
/// number.
fn put_row<S: Alter>(tx: &mut Transaction<'_, S>, first: bool, row: &Row) -> Result<(), Error>
    ensures same_reference { tx.new.conn.ghost_name ≡ tx.old.conn.ghost_name }
    ensures done { HasCleanDisk (state S.Store tx.new.conn.now) → IsTrue (state S.Store tx.old.conn.now).in_transaction → OnOk result (PutsRow first row.now (state S.Store tx.old.conn.now) (state S.Store tx.new.conn.now)) }
    ensures kept { HasCleanDisk (state S.Store tx.new.conn.now) → IsTrue (state S.Store tx.old.conn.now).in_transaction → KeepsCommit (state S.Store tx.old.conn.now) (state S.Store tx.new.conn.now) }
    ensures why { HasCleanDisk (state S.Store tx.new.conn.now) → IsTrue (state S.Store tx.old.conn.now).in_transaction → IfErr result (IsCaused (RefusesPut first row.now (state S.Store tx.old.conn.now)) (state S.Store tx.old.conn.now) (state S.Store tx.new.conn.now)) }
    ensures survives { Survives (state S.Store tx.old.conn.now) (state S.Store tx.new.conn.now) (λ _. ⊥) }
{
    match &row.content {
        RowContent::Office(row) => run(tx, PUT_RECORD, &records::row_values(row)),
        RowContent::Observation(row) => put_first(tx, first, row),
        RowContent::Load(row) => run(tx, PUT_LOAD, &loads::row_values(row)),
        RowContent::Second(row) => put_third(tx, row),
    }
}

/// Puts a row into the table that version 1 kept, of which none has the key. It is refused if that is missing.
fn put_first<S: Alter>(tx: &mut Transaction<'_, S>, first: bool, row: &ObsRow) -> Result<(), Error>
    ensures same_reference { tx.new.conn.ghost_name ≡ tx.old.conn.ghost_name }
    ensures done { HasCleanDisk (state S.Store tx.new.conn.now) → IsTrue (state S.Store tx.old.conn.now).in_transaction → OnOk result (PutsRow first (OfObsRow row.now) (state S.Store tx.old.conn.now) (state S.Store tx.new.conn.now)) }
    ensures kept { HasCleanDisk (state S.Store tx.new.conn.now) → IsTrue (state S.Store tx.old.conn.now).in_transaction → KeepsCommit (state S.Store tx.old.conn.now) (state S.Store tx.new.conn.now) }
    ensures why { HasCleanDisk (state S.Store tx.new.conn.now) → IsTrue (state S.Store tx.old.conn.now).in_transaction → IfErr result (IsCaused (RefusesPut first (OfObsRow row.now) (state S.Store tx.old.conn.now)) (state S.Store tx.old.conn.now) (state S.Store tx.new.conn.now)) }
    ensures survives { Survives (state S.Store tx.old.conn.now) (state S.Store tx.new.conn.now) (λ _. ⊥) }
{
    if !first {
        return Err(Error::SqliteFailure(ErrorCode::NotADatabase));
    }
    run(tx, PUT_OBSERVATION, &observations::row_values(row))
}

/// Puts an observation, of which none has the key. It is refused if that has no number.
pub(crate) fn put_third<S: Alter>(tx: &mut Transaction<'_, S>, row: &ObsRow2) -> Result<(), Error>
    ensures same_reference { tx.new.conn.ghost_name ≡ tx.old.conn.ghost_name }
    ensures done { HasCleanDisk (state S.Store tx.new.conn.now) → IsTrue (state S.Store tx.old.conn.now).in_transaction → OnOk result (PutsAll (row.now ∷ []) (state S.Store tx.old.conn.now) (state S.Store tx.new.conn.now)) }
    ensures kept { HasCleanDisk (state S.Store tx.new.conn.now) → IsTrue (state S.Store tx.old.conn.now).in_transaction → KeepsCommit (state S.Store tx.old.conn.now) (state S.Store tx.new.conn.now) }
    ensures why { HasCleanDisk (state S.Store tx.new.conn.now) → IsTrue (state S.Store tx.old.conn.now).in_transaction → IfErr result (IsCaused (RefusesPut true (OfSecondRow row.now) (state S.Store tx.old.conn.now)) (state S.Store tx.old.conn.now) (state S.Store tx.new.conn.now)) }
    ensures survives { Survives (state S.Store tx.old.conn.now) (state S.Store tx.new.conn.now) (λ _. ⊥) }
{
    let number = third::number_in(row);
    if number.is_none() {
        return Err(Error::SqliteFailure(ErrorCode::NoRowid));
    }
    run(tx, PUT_THIRD, &third::row_values(row, &number))
}

/// Makes a change: a row is put behind a drop of its key.
fn make<S: Alter>(tx: &mut Transaction<'_, S>, first: bool, change: &RowChange) -> Result<(), Error>
    ensures same_reference { tx.new.conn.ghost_name ≡ tx.old.conn.ghost_name }
    ensures done { HasCleanDisk (state S.Store tx.new.conn.now) → IsTrue (state S.Store tx.old.conn.now).in_transaction → OnOk result (Changes first (change.now ∷ []) (state S.Store tx.old.conn.now) (state S.Store tx.new.conn.now)) }
    ensures kept { HasCleanDisk (state S.Store tx.new.conn.now) → IsTrue (state S.Store tx.old.conn.now).in_transaction → KeepsCommit (state S.Store tx.old.conn.now) (state S.Store tx.new.conn.now) }
    ensures why { HasCleanDisk (state S.Store tx.new.conn.now) → IsTrue (state S.Store tx.old.conn.now).in_transaction → IfErr result (IsCaused (RefusesChange S.Store first change.now tx.old.conn.now) (state S.Store tx.old.conn.now) (state S.Store tx.new.conn.now)) }
    ensures survives { Survives (state S.Store tx.old.conn.now) (state S.Store tx.new.conn.now) (λ _. ⊥) }
{
    match &change.content {
        ChangeContent::Put(row) => {
            drop_same(tx, first, row)?;
            put_row(tx, first, row)
        }
        ChangeContent::Drop(key) => drop_key(tx, first, key),
    }
}

/// Makes changes one after the other.
fn make_each<S: Alter>(
    tx: &mut Transaction<'_, S>,
    first: bool,
    changes: &[RowChange],
) -> Result<(), Error>
    ensures same_reference { tx.new.conn.ghost_name ≡ tx.old.conn.ghost_name }
    ensures done { HasCleanDisk (state S.Store tx.new.conn.now) → IsTrue (state S.Store tx.old.conn.now).in_transaction → OnOk result (Changes first changes.now (state S.Store tx.old.conn.now) (state S.Store tx.new.conn.now)) }
    ensures kept { HasCleanDisk (state S.Store tx.new.conn.now) → IsTrue (state S.Store tx.old.conn.now).in_transaction → KeepsCommit (state S.Store tx.old.conn.now) (state S.Store tx.new.conn.now) }
    ensures why { HasCleanDisk (state S.Store tx.new.conn.now) → IsTrue (state S.Store tx.old.conn.now).in_transaction → IfErr result (IsCaused (RefusesWithin S.Store first changes.now tx.old.conn.now) (state S.Store tx.old.conn.now) (state S.Store tx.new.conn.now)) }
    ensures survives { Survives (state S.Store tx.old.conn.now) (state S.Store tx.new.conn.now) (λ _. ⊥) }
{
    for place in 0..changes.len() {
        make(tx, first, &changes[place])?;
    }
    Ok(())
}

/// Makes changes: by one INSERT if they put sixteen observations of which no key stands, and else
/// one after the other.
fn make_together<S: Alter>(
    tx: &mut Transaction<'_, S>,
    first: bool,
    changes: &[RowChange],
) -> Result<(), Error>
    ensures same_reference { tx.new.conn.ghost_name ≡ tx.old.conn.ghost_name }
    ensures done { HasCleanDisk (state S.Store tx.new.conn.now) → IsTrue (state S.Store tx.old.conn.now).in_transaction → OnOk result (Changes first changes.now (state S.Store tx.old.conn.now) (state S.Store tx.new.conn.now)) }
    ensures kept { HasCleanDisk (state S.Store tx.new.conn.now) → IsTrue (state S.Store tx.old.conn.now).in_transaction → KeepsCommit (state S.Store tx.old.conn.now) (state S.Store tx.new.conn.now) }
    ensures why { HasCleanDisk (state S.Store tx.new.conn.now) → IsTrue (state S.Store tx.old.conn.now).in_transaction → IfErr result (IsCaused (RefusesWithin S.Store first changes.now tx.old.conn.now) (state S.Store tx.old.conn.now) (state S.Store tx.new.conn.now)) }
    ensures survives { Survives (state S.Store tx.old.conn.now) (state S.Store tx.new.conn.now) (λ _. ⊥) }
{
    if put_sixteen(tx, changes)? {
        return Ok(());
    }
    make_each(tx, first, changes)
}

/// Makes the changes of a batch, sixteen at a time. Where there are none a statement that drops nothing sees that
/// the store is open.
fn make_all<S: Alter>(
    tx: &mut Transaction<'_, S>,
    first: bool,
    batch: &[RowChange],
) -> Result<(), Error>
    ensures same_reference { tx.new.conn.ghost_name ≡ tx.old.conn.ghost_name }
    ensures done { HasCleanDisk (state S.Store tx.new.conn.now) → IsTrue (state S.Store tx.old.conn.now).in_transaction → OnOk result (Changes first batch.now (state S.Store tx.old.conn.now) (state S.Store tx.new.conn.now)) }
    ensures opened { HasCleanDisk (state S.Store tx.new.conn.now) → IsTrue (state S.Store tx.old.conn.now).in_transaction → OnOk result (IsTrue (state S.Store tx.old.conn.now).is_open) }
    ensures kept { HasCleanDisk (state S.Store tx.new.conn.now) → IsTrue (state S.Store tx.old.conn.now).in_transaction → KeepsCommit (state S.Store tx.old.conn.now) (state S.Store tx.new.conn.now) }
    ensures why { HasCleanDisk (state S.Store tx.new.conn.now) → IsTrue (state S.Store tx.old.conn.now).in_transaction → IfErr result (IsCaused (RefusesBatch S.Store first batch.now tx.old.conn.now) (state S.Store tx.old.conn.now) (state S.Store tx.new.conn.now)) }
    ensures survives { Survives (state S.Store tx.old.conn.now) (state S.Store tx.new.conn.now) (λ _. ⊥) }
{
    if batch.is_empty() {
        return run(tx, DROP_THIRD, &[ValueRef::Null]);
    }
    for changes in batch.chunks(16) {
        make_together(tx, first, changes)?;
    }
    Ok(())
}

/// Makes the changes of a batch in one transaction: all of them, or after an error none. A transaction
/// that is open already is refused. None is left open. A batch is refused that puts a key without a number.
///
/// It says what the tables become if they stand. A crash after it leaves them with the batch, and
/// one within it, or after an error, also what it could leave before.
pub fn commit<S: Alter>(conn: &mut Connection<S>, batch: &[RowChange]) -> Result<(), Error>
    ensures alone { OnOk result ((state S.Store conn.old).in_transaction ≡ false) }
    ensures done { HasCleanDisk (state S.Store conn.new) → OnOk result (Becomes batch.now (state S.Store conn.old).now (state S.Store conn.new).committed) }
    ensures numbered { HasCleanDisk (state S.Store conn.new) → OnOk result (AllByRecursion IsNumbered batch.now) }
    ensures opened { HasCleanDisk (state S.Store conn.new) → OnOk result (IsTrue (state S.Store conn.new).is_open) }
    ensures left { HasCleanDisk (state S.Store conn.new) → OnOk result ((trees : _) → (state S.Store conn.new).may_leave trees → trees ≡ (state S.Store conn.new).committed.trees) }
    ensures kept { HasCleanDisk (state S.Store conn.new) → IsTrue (state S.Store conn.new).is_open
        → OnErr result (((state S.Store conn.new).now ≡ (state S.Store conn.old).now) × ((state S.Store conn.new).committed ≡ (state S.Store conn.old).committed)) }
    ensures why { HasCleanDisk (state S.Store conn.new) → IfErr result (IsCaused (OrBegun (state S.Store conn.old) (RefusesCommit S.Store batch.now conn.old)) (state S.Store conn.old) (state S.Store conn.new)) }
    ensures crash { Survives (state S.Store conn.old) (state S.Store conn.new) (Leaves batch.now (state S.Store conn.old)) }
    ensures mode { (state S.Store conn.old).in_transaction ≡ false → (state S.Store conn.new).in_transaction ≡ false }
    ensures was_open { HasCleanDisk (state S.Store conn.new) → IsTrue (state S.Store conn.new).is_open → IsTrue (state S.Store conn.old).is_open }
{
    if !conn.is_autocommit() {
        return Err(Error::SqliteFailure(ErrorCode::TransactionState));
    }
    let first = first_stands(conn);
    let mut tx = conn.transaction();
    make_all(&mut tx, first, batch)?;
    tx.commit()?;
    Ok(())
}
