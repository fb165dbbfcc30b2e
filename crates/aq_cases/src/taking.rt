//! The keeper of a case whose tables stand nowhere.
use aq_keeper::{Keeper, KeeperFault, RowChange, Rows};
use std::alloc::Global;

/// A keeper that tells nothing. It gives its rows at its first reading and fails at each later one, and takes
/// every batch without keeping it. So what a program answers after that reading comes from what it holds itself.
#[derive(Drop)]
pub struct TakingKeeper {
    /// The rows, until they are given.
    rows: Option<Rows>,
    faults: u64,
    commits: u64,
    is_held: bool,
}

impl TakingKeeper {
    ghost use Rattle.std.specs.Prelude.{◌≡◌, Some, true};

    /// A keeper that gives these rows.
    pub fn new(rows: Rows) -> TakingKeeper
        ensures { result ≡ record { rows = Some rows; faults = 0; commits = 0; is_held = true } }
    {
        TakingKeeper {
            rows: Some(rows),
            faults: 0,
            commits: 0,
            is_held: true,
        }
    }
}

impl Keeper for TakingKeeper {
    ghost use Rattle.std.specs.Prelude.{◌≡◌, true, false, map, None, Err, IsOk};
    ghost use Rattle.std.specs.Option.{ok_or};
    ghost use Rattle.aq_base.specs.Faults.{next};
    ghost use Rattle.aq_rules.specs.Kept.RowChanges.{batch_rises, changed_key};
    ghost use Rattle.aq_keeper.specs.Told.{HasCause, faults_after};
    ghost use Rattle.aq_keeper.specs.declared.keeper.KeeperFault.TheVariants.{Failed};

    // It tells nothing.
    ghost seen = { λ keeper. record { tables = None; faults = keeper.faults; commits = keeper.commits; is_held = keeper.is_held } };

    fn read_all(&mut self, _alloc: Global) -> Result<Rows, KeeperFault>
        ensures cause { HasCause self.old.faults self.new.faults result }
        ensures commits { self.new.commits ≡ self.old.commits }
        ensures held { self.new.is_held ≡ self.old.is_held }
        ensures gone { self.old.is_held ≡ false → result ≡ Err Failed }

        // It gives its rows once, and fails exactly at each later reading.
        ensures given { self.old.is_held ≡ true → result ≡ ok_or self.old.rows Failed }
        ensures once { self.old.is_held ≡ true → self.new.rows ≡ None }
        ensures faults { self.new.faults ≡ faults_after self.old.faults result }
    {
        if !self.is_held {
            self.faults = self.faults.saturating_add(1);
            return Err(KeeperFault::Failed);
        }
        let Some(rows) = self.rows.take() else {
            self.faults = self.faults.saturating_add(1);
            return Err(KeeperFault::Failed);
        };
        Ok(rows)
    }

    fn commit(&mut self, _alloc: Global, batch: &[RowChange]) -> Result<(), KeeperFault>
        requires rising { batch_rises (map changed_key batch.now) ≡ true }
        ensures cause { HasCause self.old.faults self.new.faults result }
        ensures commits { self.new.commits ≡ next self.old.commits }
        ensures held { self.new.is_held ≡ self.old.is_held }
        ensures gone { self.old.is_held ≡ false → result ≡ Err Failed }

        // It takes every batch, and keeps nothing of it.
        ensures taken { self.old.is_held ≡ true → IsOk result }
        ensures kept { self.new.rows ≡ self.old.rows }
    {
        self.commits = self.commits.saturating_add(1);
        if !self.is_held {
            self.faults = self.faults.saturating_add(1);
            return Err(KeeperFault::Failed);
        }
        Ok(())
    }

    fn let_go(&mut self)
        ensures { self.new ≡ record self.old { is_held = false } }
    {
        self.is_held = false;
    }
}
