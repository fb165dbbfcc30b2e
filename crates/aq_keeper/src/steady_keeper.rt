use crate::change::RowChange;
use crate::keeper::{Keeper, KeeperFault};
use crate::row::Rows;
use crate::tables_apart::TablesApart;
use std::alloc::Global;
use std::marker::Model;

/// A keeper in memory that never fails while it has its tables. A change moves rows of its own table alone.
/// Contracts see its state.
#[derive(Drop)]
pub struct SteadyKeeper {
    tables: TablesApart,
    is_held: bool,
    faults: u64,
    commits: u64,
}

impl Model for SteadyKeeper {
    ghost use Rattle.aq_keeper.specs.Memories.{SteadyState};

    ghost Value = { SteadyState };

    ghost view = { λ keeper. record { tables = keeper.tables; is_held = keeper.is_held; faults = keeper.faults; commits = keeper.commits } };
}

impl SteadyKeeper {
    ghost use Rattle.std.specs.Prelude.{◌≡◌, true, []};
    ghost use Rattle.aq_base.specs.Faults.{HasRisen};

    /// A keeper of empty tables. It takes no memory.
    pub fn new(alloc: Global) -> SteadyKeeper
        ensures { result ≡ record { tables = []; is_held = true; faults = 0; commits = 0 } }
    {
        SteadyKeeper {
            tables: TablesApart::new(alloc),
            is_held: true,
            faults: 0,
            commits: 0,
        }
    }

    /// Counts a call that is made when the tables are gone.
    fn fail(&mut self)
        ensures tables { self.new.tables ≡ self.old.tables }
        ensures held { self.new.is_held ≡ self.old.is_held }
        ensures commits { self.new.commits ≡ self.old.commits }
        ensures risen { HasRisen self.old.faults self.new.faults }
    {
        self.faults = self.faults.saturating_add(1);
    }
}

impl Keeper for SteadyKeeper {
    ghost use Rattle.std.specs.Prelude.{◌≡◌, true, false, map, Err, IfOk, IfErr, OnOk, OnErr, Some};
    ghost use Rattle.aq_rules.specs.Kept.RowChanges.{batch_rises, changed_key, with_row_changes};
    ghost use Rattle.aq_base.specs.Faults.{next};
    ghost use Rattle.aq_keeper.specs.Memories.{steady_view};
    ghost use Rattle.aq_keeper.specs.Told.{HasCause};
    ghost use Rattle.aq_keeper.specs.declared.keeper.KeeperFault.TheVariants.{Failed, Memory};

    ghost seen = { λ keeper. steady_view keeper };

    fn read_all(&mut self, alloc: Global) -> Result<Rows, KeeperFault>
        ensures rows { IfOk result (λ rows. rows ≡ self.old.tables) }
        ensures kept { self.new.tables ≡ self.old.tables }
        ensures cause { let old = steady_view self.old in let new = steady_view self.new in HasCause old.faults new.faults result }
        ensures commits { self.new.commits ≡ self.old.commits }
        ensures held { self.new.is_held ≡ self.old.is_held }
        ensures gone { self.old.is_held ≡ false → result ≡ Err Failed }

        // Only want of memory may stop it while it has its tables.
        ensures memory { self.old.is_held ≡ true → IfErr result (λ fault. fault ≡ Memory) }
    {
        if !self.is_held {
            self.fail();
            return Err(KeeperFault::Failed);
        }
        Ok(self.tables.read(alloc)?)
    }

    fn commit(&mut self, alloc: Global, batch: &[RowChange]) -> Result<(), KeeperFault>
        requires rising { batch_rises (map changed_key batch.now) ≡ true }
        ensures done { OnOk result (self.new.tables ≡ with_row_changes self.old.tables batch.now) }
        ensures kept { OnErr result (self.new.tables ≡ self.old.tables) }
        ensures cause { let old = steady_view self.old in let new = steady_view self.new in HasCause old.faults new.faults result }
        ensures commits { self.new.commits ≡ next self.old.commits }
        ensures held { self.new.is_held ≡ self.old.is_held }
        ensures gone { self.old.is_held ≡ false → result ≡ Err Failed }

        // Only want of memory may stop it while it has its tables.
        ensures memory { self.old.is_held ≡ true → IfErr result (λ fault. fault ≡ Memory) }
    {
        self.commits = self.commits.saturating_add(1);
        if !self.is_held {
            self.fail();
            return Err(KeeperFault::Failed);
        }
        self.tables.change(alloc, batch)?;
        Ok(())
    }

    fn let_go(&mut self) {
        if self.is_held {
            self.is_held = false;
            self.faults = 0;
        }
    }
}
