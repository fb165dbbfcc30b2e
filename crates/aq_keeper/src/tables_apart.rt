//! The rows of the tables in memory, each table in a list of its own.
use crate::change::RowChange;
use crate::row::{Row, Rows};
use crate::tables::{add_copies, changes_in, later_for, make_all};
use aq_base::Memory;
use std::alloc::Global;
use std::marker::Model;

/// A list for each table, so that a change moves rows of its own table alone. Contracts see the rows of all
/// in the order of tables and keys.
#[derive(Drop)]
pub(crate) struct TablesApart {
    records: Vec<Row>,
    observations: Vec<Row>,
    loads: Vec<Row>,
    seconds: Vec<Row>,
}

impl Model for TablesApart {
    ghost use Rattle.std.specs.Prelude.{List, ◌++◌};
    ghost use Rattle.aq_rules.specs.Kept.Rows as rows;
    ghost use Rattle.aq_keeper.specs.Rising.{IsTable};

    ghost Value = { List rows.Row };

    ghost view = { λ tables. tables.records.items ++ tables.observations.items ++ tables.loads.items ++ tables.seconds.items };

    ghost invariant = { λ tables. IsTable 0 tables.records.items × IsTable 1 tables.observations.items × IsTable 2 tables.loads.items × IsTable 3 tables.seconds.items };
}

impl TablesApart {
    ghost use Rattle.std.specs.Prelude.{◌≡◌, [], true, map, IfOk, OnOk, OnErr};
    ghost use Rattle.aq_rules.specs.Kept.RowChanges.{batch_rises, changed_key, with_row_changes};

    /// Empty tables. It takes no memory.
    pub(crate) fn new(alloc: Global) -> TablesApart
        ensures { result ≡ [] }
    {
        TablesApart {
            records: Vec::new(alloc),
            observations: Vec::new(alloc),
            loads: Vec::new(alloc),
            seconds: Vec::new(alloc),
        }
    }

    /// All rows once more.
    pub(crate) fn read(&self, alloc: Global) -> Result<Rows, Memory>
        ensures { IfOk result (λ rows. rows ≡ self.now) }
    {
        let mut copies = Vec::new(alloc);
        add_copies(alloc, &mut copies, &self.records)?;
        add_copies(alloc, &mut copies, &self.observations)?;
        add_copies(alloc, &mut copies, &self.loads)?;
        add_copies(alloc, &mut copies, &self.seconds)?;
        Ok(Rows::from_vec(copies))
    }

    /// Makes the changes of a batch. After want of memory the rows are as before.
    pub(crate) fn change(&mut self, alloc: Global, batch: &[RowChange]) -> Result<(), Memory>
        requires rising { batch_rises (map changed_key batch.now) ≡ true }
        ensures done { OnOk result (self.new ≡ with_row_changes self.old batch.now) }
        ensures kept { OnErr result (self.new ≡ self.old) }
    {
        let records = changes_in(alloc, batch, 0)?;
        let observations = changes_in(alloc, batch, 1)?;
        let loads = changes_in(alloc, batch, 2)?;
        let seconds = changes_in(alloc, batch, 3)?;
        let later_records = later_for(alloc, &mut self.records, records.len())?;
        let later_observations = later_for(alloc, &mut self.observations, observations.len())?;
        let later_loads = later_for(alloc, &mut self.loads, loads.len())?;
        let later_seconds = later_for(alloc, &mut self.seconds, seconds.len())?;
        make_all(&mut self.records, later_records, records);
        make_all(&mut self.observations, later_observations, observations);
        make_all(&mut self.loads, later_loads, loads);
        make_all(&mut self.seconds, later_seconds, seconds);
        Ok(())
    }
}
