//! The rows of `observations2`, read and put into `observations3`.
ghost use Rattle.std.specs.Prelude.{◌≡◌, ◌∷◌, [], IsTrue, IfErr, OnOk};
ghost use Rattle.sqlite.specs.State.{HasCleanDisk, KeepsCommit, Survives};
ghost use Rattle.sqlite.specs.Held.{state};
ghost use Rattle.aq_rules.specs.Kept.Rows.{ObsRow2, OfSecondRow};
ghost use Rattle.aq_tables.specs.Sixteen.{MovesAll, PutsAll};
ghost use Rattle.aq_tables.specs.Why.{IsCaused};
ghost use Rattle.aq_tables.specs.WhyMade.{RefusesMove, RefusesMoves};

use crate::batch::put_third;
use crate::sixteen::{observation_in, put_rows};
use aq_keeper::Row;
use sqlite::{Alter, Error, ErrorCode, Transaction};

/// Puts a row that is an observation.
fn put_one<S: Alter>(tx: &mut Transaction<'_, S>, row: &Row) -> Result<(), Error>
    ensures same_reference { tx.new.conn.ghost_name ≡ tx.old.conn.ghost_name }
    ensures done { HasCleanDisk (state S.Store tx.new.conn.now) → IsTrue (state S.Store tx.old.conn.now).in_transaction
        → OnOk result ((it : ObsRow2) × (row.now ≡ OfSecondRow it) × PutsAll (it ∷ []) (state S.Store tx.old.conn.now) (state S.Store tx.new.conn.now)) }
    ensures kept { HasCleanDisk (state S.Store tx.new.conn.now) → IsTrue (state S.Store tx.old.conn.now).in_transaction → KeepsCommit (state S.Store tx.old.conn.now) (state S.Store tx.new.conn.now) }
    ensures why { HasCleanDisk (state S.Store tx.new.conn.now) → IsTrue (state S.Store tx.old.conn.now).in_transaction → IfErr result (IsCaused (RefusesMove row.now (state S.Store tx.old.conn.now)) (state S.Store tx.old.conn.now) (state S.Store tx.new.conn.now)) }
    ensures survives { Survives (state S.Store tx.old.conn.now) (state S.Store tx.new.conn.now) (λ _. ⊥) }
{
    let Some(it) = observation_in(row) else {
        return Err(Error::SqliteFailure(ErrorCode::DatabaseCorrupt));
    };
    put_third(tx, it)
}

/// Puts rows one after the other.
fn put_each<S: Alter>(tx: &mut Transaction<'_, S>, rows: &[Row]) -> Result<(), Error>
    ensures same_reference { tx.new.conn.ghost_name ≡ tx.old.conn.ghost_name }
    ensures done { HasCleanDisk (state S.Store tx.new.conn.now) → IsTrue (state S.Store tx.old.conn.now).in_transaction
        → OnOk result (MovesAll rows.now (state S.Store tx.old.conn.now) (state S.Store tx.new.conn.now)) }
    ensures kept { HasCleanDisk (state S.Store tx.new.conn.now) → IsTrue (state S.Store tx.old.conn.now).in_transaction → KeepsCommit (state S.Store tx.old.conn.now) (state S.Store tx.new.conn.now) }
    ensures why { HasCleanDisk (state S.Store tx.new.conn.now) → IsTrue (state S.Store tx.old.conn.now).in_transaction → IfErr result (IsCaused (RefusesMoves S.Store rows.now tx.old.conn.now) (state S.Store tx.old.conn.now) (state S.Store tx.new.conn.now)) }
    ensures survives { Survives (state S.Store tx.old.conn.now) (state S.Store tx.new.conn.now) (λ _. ⊥) }
{
    for place in 0..rows.len() {
        put_one(tx, &rows[place])?;
    }
    Ok(())
}

/// Puts rows: by one INSERT if there are sixteen, and else one after the other.
fn put_together<S: Alter>(tx: &mut Transaction<'_, S>, rows: &[Row]) -> Result<(), Error>
    ensures same_reference { tx.new.conn.ghost_name ≡ tx.old.conn.ghost_name }
    ensures done { HasCleanDisk (state S.Store tx.new.conn.now) → IsTrue (state S.Store tx.old.conn.now).in_transaction
        → OnOk result (MovesAll rows.now (state S.Store tx.old.conn.now) (state S.Store tx.new.conn.now)) }
    ensures kept { HasCleanDisk (state S.Store tx.new.conn.now) → IsTrue (state S.Store tx.old.conn.now).in_transaction → KeepsCommit (state S.Store tx.old.conn.now) (state S.Store tx.new.conn.now) }
    ensures why { HasCleanDisk (state S.Store tx.new.conn.now) → IsTrue (state S.Store tx.old.conn.now).in_transaction → IfErr result (IsCaused (RefusesMoves S.Store rows.now tx.old.conn.now) (state S.Store tx.old.conn.now) (state S.Store tx.new.conn.now)) }
    ensures survives { Survives (state S.Store tx.old.conn.now) (state S.Store tx.new.conn.now) (λ _. ⊥) }
{
    if put_rows(tx, rows)? {
        return Ok(());
    }
    put_each(tx, rows)
}

/// Puts rows of `observations2` into `observations3`, sixteen at a time. It is refused if the key of one has
/// no number.
pub(crate) fn put_all<S: Alter>(tx: &mut Transaction<'_, S>, rows: &[Row]) -> Result<(), Error>
    ensures same_reference { tx.new.conn.ghost_name ≡ tx.old.conn.ghost_name }
    ensures done { HasCleanDisk (state S.Store tx.new.conn.now) → IsTrue (state S.Store tx.old.conn.now).in_transaction
        → OnOk result (MovesAll rows.now (state S.Store tx.old.conn.now) (state S.Store tx.new.conn.now)) }
    ensures kept { HasCleanDisk (state S.Store tx.new.conn.now) → IsTrue (state S.Store tx.old.conn.now).in_transaction → KeepsCommit (state S.Store tx.old.conn.now) (state S.Store tx.new.conn.now) }
    ensures why { HasCleanDisk (state S.Store tx.new.conn.now) → IsTrue (state S.Store tx.old.conn.now).in_transaction → IfErr result (IsCaused (RefusesMoves S.Store rows.now tx.old.conn.now) (state S.Store tx.old.conn.now) (state S.Store tx.new.conn.now)) }
    ensures survives { Survives (state S.Store tx.old.conn.now) (state S.Store tx.new.conn.now) (λ _. ⊥) }
{
    for some in rows.chunks(16) {
        put_together(tx, some)?;
    }
    Ok(())
}
