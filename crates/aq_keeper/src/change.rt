//! Changes of rows.
use crate::key::{KeyView, RowKey};
use crate::row::Row;
use aq_base::Memory;
use std::alloc::Global;
use std::marker::Model;

/// A row that is put, in the place of one with its key, or the key of a row that is dropped.
#[derive(Debug, Drop)]
pub enum ChangeContent {
    Put(Row),
    Drop(RowKey),
}

/// A change of a table. Contracts see the book's change.
#[derive(Debug, Drop)]
pub struct RowChange {
    pub content: ChangeContent,
}

impl Model for RowChange {
    ghost use Rattle.aq_rules.specs.Kept.RowChanges as row_changes;

    ghost Value = { row_changes.RowChange };

    ghost use Rattle.aq_keeper.specs.ChangeView.{change_of};

    ghost view = { λ change. change_of change.content };
}

impl RowChange {
    ghost use Rattle.std.specs.Prelude.{◌≡◌, IfOk};
    ghost use Rattle.aq_rules.specs.Kept.RowChanges as row_changes;
    ghost use Rattle.aq_keeper.specs.KeyView.{key_seen};

    /// A row is put.
    pub fn put(row: Row) -> RowChange
        ensures { result ≡ row_changes.PutRow row }
    {
        RowChange {
            content: ChangeContent::Put(row),
        }
    }

    /// The row of a key is dropped.
    pub fn drop(key: RowKey) -> RowChange
        ensures { result ≡ row_changes.DropRow key }
    {
        RowChange {
            content: ChangeContent::Drop(key),
        }
    }

    /// The same change once more.
    pub fn copy(&self, alloc: Global) -> Result<RowChange, Memory>
        ensures { IfOk result (λ copy. copy ≡ self.now) }
    {
        Ok(match &self.content {
            ChangeContent::Put(row) => RowChange::put(row.copy(alloc)?),
            ChangeContent::Drop(key) => RowChange::drop(key.copy(alloc)?),
        })
    }

    pub(crate) fn key(&self) -> KeyView<'_>
        ensures { key_seen result ≡ row_changes.changed_key self.now }
    {
        match &self.content {
            ChangeContent::Put(row) => row.key(),
            ChangeContent::Drop(key) => key.view(),
        }
    }
}
