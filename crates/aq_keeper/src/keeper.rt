//! A keeper: where the tables of an office stand from run to run. It tells its tables or does not, and
//! counts its faults. It may stop telling within any call, and never begins to: so each call speaks of what
//! is told as it ends. A count rises at a call that fails, and at no other; one at its greatest value counts
//! as risen. Want of memory is no fault, and may come at any call. The batches that it is asked to commit are
//! counted too, whatever becomes of them.
ghost use Rattle.std.specs.Prelude.{◌≡◌, true, false, map, Some, Err, IfSome, IfOk, OnOk, OnErr};
ghost use Rattle.std.specs.Option.{option_map};
ghost use Rattle.aq_base.specs.Faults.{next};
ghost use Rattle.aq_rules.specs.Kept.RowChanges.{batch_rises, changed_key, with_row_changes};
ghost use Rattle.aq_keeper.specs.Told.{HasCause, KeeperView, Stays, fault_text, let_go};
ghost use Rattle.aq_keeper.specs.declared.keeper.KeeperFault.TheVariants.{Failed};

use crate::change::RowChange;
use crate::row::Rows;
use aq_base::Memory;
use std::alloc::Global;
use std::error::Error;
use std::fmt;

/// Why a keeper refused a call.
#[derive(Clone, Copy, Debug, PartialEq, Eq)]
pub enum KeeperFault {
    /// The keeper failed, and its count of faults rose.
    Failed,
    /// Memory could not be had.
    Memory,
}

impl From<Memory> for KeeperFault {
    ghost use Rattle.std.specs.Prelude.{◌≡◌};
    ghost use Rattle.aq_keeper.specs.declared.keeper.KeeperFault.TheVariants as faults;

    ghost from_gives = { λ _ fault. fault ≡ faults.Memory };

    fn from(_: Memory) -> Self {
        KeeperFault::Memory
    }
}

impl fmt::Display for KeeperFault {
    ghost output = { λ fault. Some (fault_text fault) };

    fn fmt<W: fmt::Write>(&self, f: &mut fmt::Formatter<W>) -> fmt::Result {
        f.write_str(match self {
            KeeperFault::Failed => "failed",
            KeeperFault::Memory => "memory",
        })
    }
}

impl Error for KeeperFault {}

/// Keeps the rows of the four tables.
pub trait Keeper {
    /// The rows of its tables, if it tells them, its counts of faults and of commits, and whether it has its tables
    /// still.
    ghost seen: { Self → KeeperView };

    /// All rows in the order of tables and keys. The tables stay as they are.
    fn read_all(&mut self, alloc: Global) -> Result<Rows, KeeperFault>
        ensures rows { IfOk result (λ rows. IfSome (seen self.new).tables (λ told. rows ≡ told)) }
        ensures kept { Stays (seen self.old).tables (seen self.new).tables }
        ensures cause { HasCause (seen self.old).faults (seen self.new).faults result }
        ensures commits { (seen self.new).commits ≡ (seen self.old).commits }
        ensures held { (seen self.new).is_held ≡ (seen self.old).is_held }
        ensures gone { (seen self.old).is_held ≡ false → result ≡ Err Failed };

    /// Changes the rows by a batch, of which the keys rise in the order of a batch: that of tables and
    /// keys, but for the loads, which come last. After a fault the tables are as before.
    fn commit(&mut self, alloc: Global, batch: &[RowChange]) -> Result<(), KeeperFault>
        requires rising { batch_rises (map changed_key batch.now) ≡ true }
        ensures done { OnOk result (Stays (option_map (λ told. with_row_changes told batch.now)
            (seen self.old).tables) (seen self.new).tables) }
        ensures kept { OnErr result (Stays (seen self.old).tables (seen self.new).tables) }
        ensures cause { HasCause (seen self.old).faults (seen self.new).faults result }
        ensures commits { (seen self.new).commits ≡ next (seen self.old).commits }
        ensures held { (seen self.new).is_held ≡ (seen self.old).is_held }
        ensures gone { (seen self.old).is_held ≡ false → result ≡ Err Failed };

    /// Lets the tables go, so that others may have them. What is told stays told, and every other call
    /// fails from then on.
    fn let_go(&mut self)
        ensures { seen self.new ≡ let_go (seen self.old) };
}
