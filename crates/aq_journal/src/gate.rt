//! The gate that ends a journal, and what is written there.
ghost use Rattle.std.specs.Prelude.{◌≡◌, ◌+◌, ◌<◌, ◌^◌, List, length, OnOk, OnErr};
ghost use Rattle.aq_rules.specs.Kept.RowChanges.{RowChange};
ghost use Rattle.aq_journal.specs.Disks.{HasCause, IfTells};
ghost use Rattle.aq_journal.specs.Keeping.{IsBehind, IsHeld, Endures, told, with_batch};
ghost use Rattle.aq_journal.specs.Opening.{IsSettled, IsTrouble};
ghost use Rattle.aq_journal.specs.declared.gate.Gate.TheVariants.{Shut};

use crate::calls::put;
use crate::disk::Disk;
use crate::trouble::Trouble;
use aq_base::Failed;

/// The gate that ends a journal.
#[derive(Clone, Copy, Debug, PartialEq, Eq)]
pub(crate) enum Gate {
    /// The disk was not synced yet.
    Unsynced,
    /// The journal was not read yet.
    Unread,
    /// At this place, and not open.
    Shut(u64),
    /// At this place; a commit that failed may have opened it.
    Doubtful(u64),
}

/// Refreshes a disk that was not synced yet, and shuts a gate that may be open. The gate is written again: behind
/// a sync that failed, one that is answered says nothing of what was written before.
pub(crate) fn settle<D: Disk>(disk: &mut D, gate: &mut Gate) -> Result<(), Trouble>
    requires held { IsHeld D.Disk disk.old gate.old }
    ensures held { IsHeld D.Disk disk.new gate.new }
    ensures told { IfTells (D.seen disk.new) (told gate.new (D.seen disk.new) ≡ told gate.old (D.seen disk.old)) }
    ensures settled { OnOk result (IsSettled gate.new) }
    ensures crash { IfTells (D.seen disk.new) (Endures D.Disk disk.old disk.new gate.old gate.new (told gate.old (D.seen disk.old))) }
    ensures cause { IsTrouble (D.faults disk.old) (D.faults disk.new) ⊥ result }
{
    match *gate {
        Gate::Unsynced => {
            disk.refresh()?;
            *gate = Gate::Unread;
            Ok(())
        }
        Gate::Unread => Ok(()),
        Gate::Shut(_) => Ok(()),
        Gate::Doubtful(end) => {
            put(disk, end, &[0])?;
            *gate = Gate::Shut(end);
            Ok(())
        }
    }
}

/// Adds a frame at the gate that ends the journal. What is behind its gate is synced before the gate is opened.
pub(crate) fn add<D: Disk>(
    disk: &mut D,
    gate: &mut Gate,
    end: u64,
    behind: &[u8],
) -> Result<(), Failed>
    requires gate { gate.old ≡ Shut end }
    requires room { end + 1 + length behind.now < 2 ^ 63 }
    requires held { IsHeld D.Disk disk.old gate.old }
    ensures held { (batch : List RowChange) → IsBehind batch behind.now → IsHeld D.Disk disk.new gate.new }
    ensures done { (batch : List RowChange) → IsBehind batch behind.now → OnOk result (IfTells (D.seen disk.new) (told gate.new (D.seen disk.new) ≡ with_batch batch (told gate.old (D.seen disk.old)))) }
    ensures kept { (batch : List RowChange) → IsBehind batch behind.now → OnErr result (IfTells (D.seen disk.new) (told gate.new (D.seen disk.new) ≡ told gate.old (D.seen disk.old))) }
    ensures shut { OnOk result (gate.new ≡ Shut (end + length behind.now)) }
    ensures crash { (batch : List RowChange) → IsBehind batch behind.now → IfTells (D.seen disk.new) (Endures D.Disk disk.old disk.new gate.old gate.new (with_batch batch (told gate.old (D.seen disk.old)))) }
    ensures cause { HasCause (D.faults disk.old) (D.faults disk.new) result }
{
    put(disk, end + 1, behind)?;
    *gate = Gate::Doubtful(end);
    put(disk, end, &[1])?;
    *gate = Gate::Shut(end + behind.len() as u64);
    Ok(())
}
