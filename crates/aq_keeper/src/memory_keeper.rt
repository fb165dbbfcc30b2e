use crate::change::RowChange;
use crate::keeper::{Keeper, KeeperFault};
use crate::row::{Row, Rows};
use crate::tables::Tables;
use std::alloc::Global;
use std::marker::Model;

/// A keeper in memory, which fails at the calls that it is told to. Contracts see its state.
#[derive(Drop)]
pub struct MemoryKeeper {
    tables: Tables,
    failing: Vec<u64>,
    calls: u64,
    faults: u64,
    commits: u64,
    is_held: bool,
}

impl Model for MemoryKeeper {
    ghost use Rattle.aq_keeper.specs.Memories.{KeeperState};

    ghost Value = { KeeperState };

    ghost view = { λ keeper. record { tables = keeper.tables; failing = keeper.failing.items; calls = keeper.calls; faults = keeper.faults; commits = keeper.commits; is_held = keeper.is_held } };
}

impl MemoryKeeper {
    ghost use Rattle.std.specs.Prelude.{◌≡◌, ◌||◌, not, true, map, if◌then◌else◌};
    ghost use Rattle.aq_rules.specs.Kept.RowChanges.{row_key, keys_rise};
    ghost use Rattle.aq_base.specs.Faults.{HasRisen, is_listed, next};

    /// A keeper of these rows, which are in the order of tables and keys and have distinct keys. It
    /// fails at the calls with these numbers, counted from 1 over reading and committing, and at each
    /// once it has let its tables go.
    pub fn new(tables: Vec<Row>, failing: Vec<u64>) -> MemoryKeeper
        requires { keys_rise (map row_key tables.items) ≡ true }
        ensures { result ≡
            record { tables = tables.items; failing = failing.items; calls = 0; faults = 0; commits = 0; is_held = true } }
    {
        MemoryKeeper {
            tables: Tables::of(tables),
            failing,
            calls: 0,
            faults: 0,
            commits: 0,
            is_held: true,
        }
    }

    /// Counts a call, and answers whether it is to fail.
    fn is_to_fail(&mut self) -> bool
        ensures listed { result ≡ (not self.old.is_held || is_listed self.old.failing (next self.old.calls)) }
        ensures state { self.new ≡
            record self.old {
              calls = next self.old.calls;
              faults = if result then next self.old.faults else self.old.faults;
            } }
        ensures risen { result ≡ true → HasRisen self.old.faults self.new.faults }
    {
        self.calls = self.calls.saturating_add(1);
        let is_to_fail = !self.is_held || self.failing.contains(&self.calls);
        if is_to_fail {
            self.faults = self.faults.saturating_add(1);
        }
        is_to_fail
    }
}

impl Keeper for MemoryKeeper {
    ghost use Rattle.std.specs.Prelude.{◌≡◌, ◌||◌, not, true, false, map, Err, IfOk, OnOk, OnErr, Some};
    ghost use Rattle.aq_rules.specs.Kept.RowChanges.{batch_rises, changed_key, with_row_changes};
    ghost use Rattle.aq_base.specs.Faults.{is_listed, next};
    ghost use Rattle.aq_keeper.specs.Told.{HasCause, faults_after};
    ghost use Rattle.aq_keeper.specs.Memories.{has_failed};
    ghost use Rattle.aq_keeper.specs.declared.keeper.KeeperFault.TheVariants.{Failed};

    ghost seen = { λ keeper. record { tables = Some keeper.tables; faults = keeper.faults; commits = keeper.commits; is_held = keeper.is_held } };

    fn read_all(&mut self, alloc: Global) -> Result<Rows, KeeperFault>
        ensures rows { IfOk result (λ rows. rows ≡ self.old.tables) }
        ensures kept { self.new.tables ≡ self.old.tables }
        ensures cause { HasCause self.old.faults self.new.faults result }
        ensures commits { self.new.commits ≡ self.old.commits }
        ensures held { self.new.is_held ≡ self.old.is_held }
        ensures gone { self.old.is_held ≡ false → result ≡ Err Failed }

        // It fails exactly at the listed calls, and once its tables are gone.
        ensures listed { has_failed result ≡ (not self.old.is_held || is_listed self.old.failing (next self.old.calls)) }
        ensures faults { self.new.faults ≡ faults_after self.old.faults result }
        ensures calls { self.new.calls ≡ next self.old.calls }
        ensures failing { self.new.failing ≡ self.old.failing }
    {
        if self.is_to_fail() {
            return Err(KeeperFault::Failed);
        }
        Ok(self.tables.read(alloc)?)
    }

    fn commit(&mut self, alloc: Global, batch: &[RowChange]) -> Result<(), KeeperFault>
        requires rising { batch_rises (map changed_key batch.now) ≡ true }
        ensures done { OnOk result (self.new.tables ≡ with_row_changes self.old.tables batch.now) }
        ensures kept { OnErr result (self.new.tables ≡ self.old.tables) }
        ensures cause { HasCause self.old.faults self.new.faults result }
        ensures commits { self.new.commits ≡ next self.old.commits }
        ensures held { self.new.is_held ≡ self.old.is_held }
        ensures gone { self.old.is_held ≡ false → result ≡ Err Failed }

        // It fails exactly at the listed calls, and once its tables are gone.
        ensures listed { has_failed result ≡ (not self.old.is_held || is_listed self.old.failing (next self.old.calls)) }
        ensures faults { self.new.faults ≡ faults_after self.old.faults result }
        ensures calls { self.new.calls ≡ next self.old.calls }
        ensures failing { self.new.failing ≡ self.old.failing }
    {
        self.commits = self.commits.saturating_add(1);
        if self.is_to_fail() {
            return Err(KeeperFault::Failed);
        }
        self.tables.change(alloc, batch)?;
        Ok(())
    }

    fn let_go(&mut self)
        ensures { self.new ≡ record self.old { is_held = false } }
    {
        self.is_held = false;
    }
}
