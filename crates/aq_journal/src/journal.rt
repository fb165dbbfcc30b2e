//! A journal that is read and added to, whatever is known of its gate.
ghost use Rattle.std.specs.Prelude.{◌≡◌, ◌⊎◌, ◌+◌, ◌^◌, ◌<◌, IfSome, IfOk, OnOk, OnErr, None};
ghost use Rattle.aq_journal.specs.Disks.{IfTells};
ghost use Rattle.aq_journal.specs.Keeping.{IsCertain, IsHeld, Endures, told, with_batch};
ghost use Rattle.aq_journal.specs.Opening.{IsTrouble, IsTooGreat};
ghost use Rattle.aq_journal.specs.declared.gate.Gate.TheVariants.{Shut};

use crate::disk::Disk;
use crate::gate::{Gate, add, settle};
use crate::opening::read_journal;
use crate::trouble::Trouble;
use crate::writing::behind_of;
use aq_keeper::{RowChange, Rows};
use std::alloc::Global;

/// The last place at which a gate may stand.
const LAST_PLACE: u64 = (1 << 63) - 2;

/// All rows of a journal.
pub(crate) fn read_all<D: Disk>(
    alloc: Global,
    disk: &mut D,
    gate: &mut Gate,
) -> Result<Rows, Trouble>
    requires held { IsHeld D.Disk disk.old gate.old }
    ensures rows { IfOk result (λ rows. IfSome (told gate.new (D.seen disk.new)) (λ told. rows ≡ told)) }
    ensures held { IsHeld D.Disk disk.new gate.new }
    ensures told { IfTells (D.seen disk.new) (told gate.new (D.seen disk.new) ≡ told gate.old (D.seen disk.old)) }
    ensures settled { OnOk result (IsCertain gate.new (D.seen disk.new)) }
    ensures crash { IfTells (D.seen disk.new) (Endures D.Disk disk.old disk.new gate.old gate.new (told gate.old (D.seen disk.old))) }
    ensures cause { IsTrouble (D.faults disk.old) (D.faults disk.new) (told gate.new (D.seen disk.new) ≡ None) result }
{
    settle(disk, gate)?;
    let scanned = read_journal(alloc, disk, gate)?;
    Ok(scanned.tables.into_rows(alloc)?)
}

/// Adds a batch to a journal.
pub(crate) fn commit<D: Disk>(
    alloc: Global,
    disk: &mut D,
    gate: &mut Gate,
    batch: &[RowChange],
) -> Result<(), Trouble>
    requires held { IsHeld D.Disk disk.old gate.old }
    ensures held { IsHeld D.Disk disk.new gate.new }
    ensures done { OnOk result (IfTells (D.seen disk.new) (told gate.new (D.seen disk.new) ≡ with_batch batch.now (told gate.old (D.seen disk.old)))) }
    ensures kept { OnErr result (IfTells (D.seen disk.new) (told gate.new (D.seen disk.new) ≡ told gate.old (D.seen disk.old))) }
    ensures settled { OnOk result (IsCertain gate.new (D.seen disk.new)) }
    ensures crash { IfTells (D.seen disk.new) (Endures D.Disk disk.old disk.new gate.old gate.new (with_batch batch.now (told gate.old (D.seen disk.old)))) }
    ensures cause { IsTrouble (D.faults disk.old) (D.faults disk.new) ((told gate.new (D.seen disk.new) ≡ None) ⊎ IsTooGreat batch.now gate.new) result }
{
    let end = end_of(alloc, disk, gate)?;
    let behind = behind_of(alloc, batch)?;
    if behind.len() as u64 > LAST_PLACE - end {
        return Err(Trouble::Refused);
    }
    add(disk, gate, end, &behind)?;
    Ok(())
}

/// The place of the gate that ends a journal, which is not open.
fn end_of<D: Disk>(alloc: Global, disk: &mut D, gate: &mut Gate) -> Result<u64, Trouble>
    requires held { IsHeld D.Disk disk.old gate.old }
    ensures held { IsHeld D.Disk disk.new gate.new }
    ensures told { IfTells (D.seen disk.new) (told gate.new (D.seen disk.new) ≡ told gate.old (D.seen disk.old)) }
    ensures shut { IfOk result (λ end. gate.new ≡ Shut end) }
    ensures room { IfOk result (λ end. end + 1 < 2 ^ 63) }
    ensures crash { IfTells (D.seen disk.new) (Endures D.Disk disk.old disk.new gate.old gate.new (told gate.old (D.seen disk.old))) }
    ensures cause { IsTrouble (D.faults disk.old) (D.faults disk.new) (told gate.new (D.seen disk.new) ≡ None) result }
{
    settle(disk, gate)?;
    if let Gate::Shut(end) = *gate {
        return Ok(end);
    }
    let scanned = read_journal(alloc, disk, gate)?;
    Ok(scanned.end as u64)
}
