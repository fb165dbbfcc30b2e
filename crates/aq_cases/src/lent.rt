//! The keeper of a case as it is lent to a run.
ghost use Rattle.aq_keeper.specs.Told.{HasCause};

use aq_keeper::{Keeper, KeeperFault, RowChange, Rows};
use std::alloc::Global;

/// A keeper that is lent for one run. It lets go of what it was lent alone, so the next run can have it.
#[derive(Drop)]
pub struct LentKeeper<'a, K: Keeper> {
    keeper: &'a mut K,
    faults: u64,
    commits: u64,
    is_held: bool,
}

impl<'a, K: Keeper> LentKeeper<'a, K> {
    /// A keeper that hands its calls to this one until it lets its tables go.
    pub fn new(keeper: &'a mut K) -> LentKeeper<'a, K> {
        LentKeeper {
            keeper,
            faults: 0,
            commits: 0,
            is_held: true,
        }
    }
}

impl<'a, K: Keeper> Keeper for LentKeeper<'a, K> {
    ghost seen = { λ lent. record {
      tables = (K.seen lent.keeper.now).tables;
      faults = lent.faults;
      commits = lent.commits;
      is_held = lent.is_held;
    } };

    fn read_all(&mut self, alloc: Global) -> Result<Rows, KeeperFault> {
        if !self.is_held {
            self.faults = self.faults.saturating_add(1);
            return Err(KeeperFault::Failed);
        }
        let rows = self.keeper.read_all(alloc);
        count(&mut self.faults, &rows);
        rows
    }

    fn commit(&mut self, alloc: Global, batch: &[RowChange]) -> Result<(), KeeperFault> {
        self.commits = self.commits.saturating_add(1);
        if !self.is_held {
            self.faults = self.faults.saturating_add(1);
            return Err(KeeperFault::Failed);
        }
        let made = self.keeper.commit(alloc, batch);
        count(&mut self.faults, &made);
        made
    }

    fn let_go(&mut self) {
        self.is_held = false;
    }
}

/// Counts an answer that is a failure.
fn count<T>(faults: &mut u64, answer: &Result<T, KeeperFault>)
    ensures { HasCause faults.old faults.new answer.now }
{
    if let Err(KeeperFault::Failed) = answer {
        *faults = faults.saturating_add(1);
    }
}
