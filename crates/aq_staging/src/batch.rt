//! The changes that a load makes to the records and observations.
ghost use Rattle.std.specs.Prelude.{◌≡◌, true, ◌++◌, map, option_map, unwrap_or, IfOk, OnOk};
ghost use Rattle.std.specs.List.{filter_map};
ghost use Rattle.std.specs.Option.{option_to_list};
ghost use Rattle.aq_staging.specs.Batch.{change_in, observation_change_at, record_change_at};
ghost use Rattle.aq_staging.specs.Changes.{with_changes, AreChanges};
ghost use Rattle.aq_staging.specs.Keys.{either_keys, keys_in};
ghost use Rattle.aq_staging.specs.Staged.{AreChangesOf};
ghost use Rattle.aq_staging.specs.Touched.{AreTouched};
ghost use Rattle.aq_rules.specs.Office.Office.{key_of, record_rank, rises};

use crate::change::{OfficeChange, observation_change, record_change};
use crate::changes::Changes;
use crate::keys::EitherKeys;
use crate::late_copy::registry_after;
use crate::list::OfficeChanges;
use crate::uncounted::{content_at, rows_of};
use aq_base::{Memory, OfficeKey};
use aq_registry::{Records, Registry};
use aq_shelf::Shelf;
use std::alloc::Global;

/// The changes that a load makes to these records and observations, in the order of their tables and keys,
/// if it leaves a copy of the records and changes of the observations, and its lines touched these records. A
/// record or an observation that is the same after the load is not among them. It costs a few searches for
/// each record and observation that the load touched, and no walk over those that it did not.
pub(crate) fn changes_of(
    alloc: Global,
    left: &Option<Registry>,
    touched: &Records,
    staged: &Changes,
    registry: &Registry,
    shelf: &Shelf,
) -> Result<OfficeChanges, Memory>
    requires order { rises record_rank registry.now ≡ true }
    requires touched { AreTouched registry.now (unwrap_or left.now registry.now) touched.now }
    requires changes { AreChanges shelf.now staged.now }
    ensures { IfOk result (AreChangesOf registry.now shelf.now left.now staged.now) }
{
    let mut changes = OfficeChanges::new(alloc);
    let after = registry_after(left, registry);
    add_records(&mut changes, touched, registry, after)?;
    add_observations(&mut changes, staged, shelf)?;
    Ok(changes)
}

/// Adds what becomes of the records of the touched keys.
fn add_records(
    changes: &mut OfficeChanges,
    touched: &Records,
    before: &Registry,
    now: &Registry,
) -> Result<(), Memory>
    ensures { OnOk result (changes.new ≡ changes.old ++ filter_map (record_change_at before.now now.now) (map key_of touched.now)) }
{
    for row in touched.rows() {
        add_record(changes, &row.key(), before, now)?;
    }
    Ok(())
}

/// Adds what becomes of the observations that were put, changed or taken away.
fn add_observations(
    changes: &mut OfficeChanges,
    staged: &Changes,
    shelf: &Shelf,
) -> Result<(), Memory>
    requires { AreChanges shelf.now staged.now }
    ensures { OnOk result (changes.new ≡ changes.old ++ filter_map (observation_change_at shelf.now (with_changes staged.now shelf.now)) (either_keys (keys_in staged.now.dropped) (keys_in staged.now.left))) }
{
    for key in EitherKeys::new(rows_of(&staged.dropped), rows_of(&staged.left)) {
        let change = observation_change(&key, &content_at(shelf, &key), &staged.at(shelf, &key));
        add(changes, change)?;
    }
    Ok(())
}

/// Adds what becomes of the record of a key.
fn add_record(
    changes: &mut OfficeChanges,
    key: &OfficeKey,
    before: &Registry,
    now: &Registry,
) -> Result<(), Memory>
    ensures { OnOk result (changes.new ≡ changes.old ++ option_to_list (record_change_at before.now now.now key.now)) }
{
    let change = record_change(key, &before.get(*key), &now.get(*key));
    add(changes, change)
}

/// Adds a change, if there is one.
fn add(changes: &mut OfficeChanges, change: Option<OfficeChange>) -> Result<(), Memory>
    ensures { OnOk result (changes.new ≡ changes.old ++ option_to_list (option_map change_in change)) }
{
    if let Some(change) = change {
        changes.push(change)?;
    }
    Ok(())
}
