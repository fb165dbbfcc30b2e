//! What a statement takes, and how it runs.
ghost use Rattle.std.specs.Prelude.{◌≡◌, ◌∷◌, [], IsTrue, IfErr, OnOk};
ghost use Rattle.sqlite.specs.declared.types.Value.TheVariants.{Int};
ghost use Rattle.sqlite.specs.State.{HasCleanDisk, KeepsCommit, Survives};
ghost use Rattle.sqlite.specs.Values.{bound, bound_value};
ghost use Rattle.sqlite.specs.Held.{state};
ghost use Rattle.sqlite_value.specs.Value.{owned};
ghost use Rattle.aq_tables.specs.Told.{Runs, cell};
ghost use Rattle.aq_tables.specs.Why.{IsCaused, Refuses};

use sqlite::types::ValueRef;
use sqlite::{Alter, Error, Transaction};

/// The number, or NULL.
pub(crate) fn cell_of(number: &Option<i64>) -> ValueRef<'static>
    ensures { bound_value (owned result) ≡ cell number.now }
{
    match number {
        Some(number) => ValueRef::Int(*number),
        None => ValueRef::Null,
    }
}

/// The key of an observation, of either version.
pub(crate) fn place_values(
    site: &i64,
    pollutant: &i64,
    poc: &i64,
    hour: &i64,
) -> [ValueRef<'static>; 4]
    ensures { bound result ≡ Int site.now ∷ Int pollutant.now ∷ Int poc.now ∷ Int hour.now ∷ [] }
{
    [
        ValueRef::Int(*site),
        ValueRef::Int(*pollutant),
        ValueRef::Int(*poc),
        ValueRef::Int(*hour),
    ]
}

/// Runs a statement with these values.
pub(crate) fn run<S: Alter>(
    tx: &mut Transaction<'_, S>,
    text: &str,
    values: &[ValueRef<'_>],
) -> Result<(), Error>
    ensures same_reference { tx.new.conn.ghost_name ≡ tx.old.conn.ghost_name }
    ensures done { HasCleanDisk (state S.Store tx.new.conn.now) → IsTrue (state S.Store tx.old.conn.now).in_transaction → OnOk result (Runs text.now (bound values.now) (state S.Store tx.old.conn.now) (state S.Store tx.new.conn.now)) }
    ensures kept { HasCleanDisk (state S.Store tx.new.conn.now) → IsTrue (state S.Store tx.old.conn.now).in_transaction → KeepsCommit (state S.Store tx.old.conn.now) (state S.Store tx.new.conn.now) }
    ensures why { HasCleanDisk (state S.Store tx.new.conn.now) → IsTrue (state S.Store tx.old.conn.now).in_transaction → IfErr result (IsCaused (Refuses text.now (bound values.now) (state S.Store tx.old.conn.now)) (state S.Store tx.old.conn.now) (state S.Store tx.new.conn.now)) }
    ensures survives { Survives (state S.Store tx.old.conn.now) (state S.Store tx.new.conn.now) (λ _. ⊥) }
{
    tx.execute(text, values)?;
    Ok(())
}
