//! The rows of a journal's tables, while its batches are made one after the other.
ghost use Rattle.std.specs.Prelude.{◌≡◌, [], IfOk, OnOk};
ghost use Rattle.aq_rules.specs.Kept.RowChanges.{put_row, drop_row, with_row_change};

use crate::place::Place;
use aq_base::Memory;
use aq_keeper::{ChangeContent, Row, RowChange, RowKey, Rows};
use std::alloc::Global;
use std::collections::BTreeMap;
use std::marker::Model;

/// Rows, each at its place. Contracts see the list of them, in the order of tables and keys.
#[derive(Drop)]
pub(crate) struct Tables {
    rows: BTreeMap<Place, Row>,
}

impl Model for Tables {
    ghost use Rattle.std.specs.Prelude.{List};
    ghost use Rattle.std.specs.Map.{values_of};
    ghost use Rattle.aq_rules.specs.Kept.Rows as the_rows;
    ghost use Rattle.aq_journal.specs.Places.{AreEntries};

    ghost Value = { List the_rows.Row };

    ghost view = { λ tables. values_of tables.rows.entries };

    ghost invariant = { λ tables. AreEntries tables.rows.entries };
}

impl Tables {
    ghost use Rattle.std.specs.Prelude.{◌≡◌, [], IfOk, OnOk};
    ghost use Rattle.aq_rules.specs.Kept.RowChanges.{put_row, drop_row, with_row_change};

    /// No rows. It takes no memory.
    pub(crate) fn new(alloc: Global) -> Tables
        ensures { result ≡ [] }
    {
        Tables {
            rows: BTreeMap::new(alloc),
        }
    }

    /// Makes a change, by one search of the rows.
    pub(crate) fn make(&mut self, alloc: Global, change: RowChange) -> Result<(), Memory>
        ensures { OnOk result (self.new ≡ with_row_change self.old change) }
    {
        match change.content {
            ChangeContent::Put(row) => self.put(alloc, row),
            ChangeContent::Drop(key) => self.remove(alloc, &key),
        }
    }

    /// Puts a row, in the place of one with its key.
    fn put(&mut self, alloc: Global, row: Row) -> Result<(), Memory>
        ensures { OnOk result (self.new ≡ put_row row self.old) }
    {
        let place = Place::of_row(alloc, &row)?;
        self.rows.insert(place, row)?;
        Ok(())
    }

    /// Takes the row of a key away, if there is one.
    fn remove(&mut self, alloc: Global, key: &RowKey) -> Result<(), Memory>
        ensures { OnOk result (self.new ≡ drop_row key.now self.old) }
    {
        let place = Place::of_key(alloc, key)?;
        let _ = self.rows.remove(&place);
        Ok(())
    }

    /// All rows, in order.
    pub(crate) fn into_rows(self, alloc: Global) -> Result<Rows, Memory>
        ensures { IfOk result (λ rows. rows ≡ self) }
    {
        let mut rows = Vec::with_capacity(alloc, self.rows.len())?;
        for row in self.rows.into_values() {
            rows.push(row)?;
        }
        Ok(Rows::from_vec(rows))
    }
}
