//! Changes, one after the other.
ghost use Rattle.std.specs.Prelude.{◌≡◌, [], ◌∷◌, ◌++◌, OnOk};
ghost use Rattle.aq_staging.specs.Batch.{change_in, changes_in};

use crate::change::OfficeChange;
use aq_base::Memory;
use std::alloc::Global;
use std::marker::Model;

/// What a load does to an office's records and observations. Contracts see the list of the book's changes.
#[derive(Drop)]
pub struct OfficeChanges {
    items: Vec<OfficeChange>,
}

impl Model for OfficeChanges {
    ghost use Rattle.std.specs.Prelude.{List};
    ghost use Rattle.aq_staging.specs.Batch.{changes_in};
    ghost use Rattle.aq_rules.specs.Office.Load as load;

    ghost Value = { List load.OfficeChange };

    ghost view = { λ changes. changes_in changes.items.items };
}

impl OfficeChanges {
    /// No changes. It takes no memory.
    pub(crate) fn new(alloc: Global) -> OfficeChanges
        ensures { result ≡ [] }
    {
        OfficeChanges {
            items: Vec::new(alloc),
        }
    }

    /// Adds a change at the end.
    pub(crate) fn push(&mut self, change: OfficeChange) -> Result<(), Memory>
        ensures { OnOk result (self.new ≡ self.old ++ change_in change ∷ []) }
    {
        // Taken apart and put together, since the proof finds the types of its parts in this function alone.
        let change = match change {
            OfficeChange::PutRecord(row) => OfficeChange::PutRecord(row),
            OfficeChange::DropRecord(key) => OfficeChange::DropRecord(key),
            OfficeChange::PutObservation(key, content) => OfficeChange::PutObservation(
                key, content,
            ),
            OfficeChange::DropObservation(key) => OfficeChange::DropObservation(key),
        };
        self.items.push(change)?;
        Ok(())
    }

    /// All changes, in the order of their tables and keys.
    pub fn as_slice(&self) -> &[OfficeChange]
        ensures { changes_in result.now ≡ self.now }
    {
        self.items.as_slice()
    }
}
