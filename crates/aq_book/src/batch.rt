//! The batch of a staged load: the changes of rows that a keeper takes.
ghost use Rattle.std.specs.Prelude.{◌≡◌, ◌++◌, map, IfOk, OnOk};
ghost use Rattle.aq_staging.specs.Batch.{change_in, changes_in};
ghost use Rattle.aq_book.specs.Staged.{own_change};
ghost use Rattle.aq_rules.specs.Kept.RowChanges.{row_change};

use aq_base::{Items, LoadReply, Memory};
use aq_keeper::{Row, RowChange};
use aq_rows::{load_row, observation_key, observation_row, office_key, office_row};
use aq_staging::{LoadIdentity, OfficeChange, OfficeChanges};
use std::alloc::Global;

/// Changes of rows, in the order of a batch: that of tables and keys, but for the loads, which come last.
pub type RowChanges = Items<RowChange>;

/// The changes of rows that a load's changes stand for, and its own row last, if it is kept.
pub(crate) fn batch_of(
    alloc: Global,
    changes: &OfficeChanges,
    identity: Option<LoadIdentity>,
    reply: &LoadReply,
) -> Result<RowChanges, Memory>
    ensures { IfOk result (λ batch. batch ≡ map row_change changes.now
        ++ map row_change (own_change identity reply.now)) }
{
    let mut batch = RowChanges::new(alloc);
    add_changes(alloc, &mut batch, changes.as_slice())?;
    add_load(alloc, &mut batch, identity, reply)?;
    Ok(batch)
}

fn add_changes(
    alloc: Global,
    batch: &mut RowChanges,
    changes: &[OfficeChange],
) -> Result<(), Memory>
    ensures { OnOk result (batch.new ≡ batch.old ++ map row_change (changes_in changes.now)) }
{
    for change in changes {
        batch.push(row_change(alloc, change)?)?;
    }
    Ok(())
}

/// The change of rows that a change of a record or an observation stands for.
fn row_change(alloc: Global, change: &OfficeChange) -> Result<RowChange, Memory>
    ensures { IfOk result (λ made. made ≡ row_change (change_in change.now)) }
{
    Ok(match change {
        OfficeChange::PutRecord(record) => RowChange::put(Row::office(office_row(alloc, record)?)),
        OfficeChange::DropRecord(key) => RowChange::drop(office_key(alloc, key)?),
        OfficeChange::PutObservation(key, content) => {
            RowChange::put(Row::second(observation_row(alloc, key, content)?))
        }
        OfficeChange::DropObservation(key) => RowChange::drop(observation_key(key)),
    })
}

fn add_load(
    alloc: Global,
    batch: &mut RowChanges,
    identity: Option<LoadIdentity>,
    reply: &LoadReply,
) -> Result<(), Memory>
    ensures { OnOk result (batch.new ≡ batch.old
        ++ map row_change (own_change identity reply.now)) }
{
    if let Some(identity) = identity {
        let row = Row::load(load_row(alloc, identity.number, &identity.digest, reply)?);
        batch.push(RowChange::put(row))?;
    }
    Ok(())
}
