//! A journal that is read, and begun if it is empty.
ghost use Rattle.std.specs.Prelude.{◌≡◌, ◌<◌, ◌≤◌, ◌^◌, length, IfSome, IfOk, IfErr, OnOk, None};
ghost use Rattle.aq_journal.specs.Disks.{HasCause, IfTells};
ghost use Rattle.aq_journal.specs.Calls.{IsQuiet};
ghost use Rattle.aq_journal.specs.Keeping.{IsHeld, Endures, told};
ghost use Rattle.aq_journal.specs.Opening.{IsSettled, IsTrouble};
ghost use Rattle.aq_journal.specs.declared.gate.Gate.TheVariants.{Shut};

use crate::calls::{fill, put, zeros};
use crate::disk::Disk;
use crate::gate::Gate;
use crate::scanning::{HEADER, Scanned, scan};
use crate::tables::Tables;
use crate::trouble::Trouble;
use aq_base::Failed;
use std::alloc::Global;

/// Makes the empty journal, unless it stands.
fn begin<D: Disk>(disk: &mut D, gate: &mut Gate) -> Result<(), Failed>
    requires settled { IsSettled gate.old }
    requires held { IsHeld D.Disk disk.old gate.old }
    requires small { IfSome (D.seen disk.old) (λ file. length file ≤ 9) }
    ensures held { IsHeld D.Disk disk.new gate.new }
    ensures told { IfTells (D.seen disk.new) (told gate.new (D.seen disk.new) ≡ told gate.old (D.seen disk.old)) }
    ensures shut { OnOk result (gate.new ≡ Shut 8) }
    ensures crash { IfTells (D.seen disk.new) (Endures D.Disk disk.old disk.new gate.old gate.new (told gate.old (D.seen disk.old))) }
    ensures cause { HasCause (D.faults disk.old) (D.faults disk.new) result }
{
    match *gate {
        Gate::Unread => {
            put(disk, 0, b"AIRDVJ01\0")?;
            *gate = Gate::Shut(8);
            Ok(())
        }
        _ => {
            *gate = Gate::Shut(8);
            Ok(())
        }
    }
}

/// All bytes of a disk.
fn read_whole<D: Disk>(alloc: Global, disk: &mut D) -> Result<Vec<u8>, Trouble>
    ensures bytes { IfOk result (λ bytes. IfSome (D.seen disk.new) (λ file. bytes.items ≡ file)) }
    ensures bound { IfOk result (λ bytes. length bytes.items < 2 ^ 63) }
    ensures quiet { IfTells (D.seen disk.new) (IsQuiet D.Disk disk.old disk.new) }
    ensures cause { IsTrouble (D.faults disk.old) (D.faults disk.new) ⊥ result }
{
    let length = disk.length()?;
    let mut bytes = zeros(alloc, length as usize)?;
    let read = fill(disk, &mut bytes)?;
    bytes.truncate(read);
    Ok(bytes)
}

/// Reads the journal of a disk that is settled.
pub(crate) fn read_journal<D: Disk>(
    alloc: Global,
    disk: &mut D,
    gate: &mut Gate,
) -> Result<Scanned, Trouble>
    requires settled { IsSettled gate.old }
    requires held { IsHeld D.Disk disk.old gate.old }
    ensures rows { IfOk result (λ scanned. IfSome (told gate.new (D.seen disk.new)) (λ rows. scanned.tables ≡ rows)) }
    ensures held { IsHeld D.Disk disk.new gate.new }
    ensures told { IfTells (D.seen disk.new) (told gate.new (D.seen disk.new) ≡ told gate.old (D.seen disk.old)) }
    ensures shut { IfOk result (λ scanned. gate.new ≡ Shut scanned.end) }
    ensures crash { IfTells (D.seen disk.new) (Endures D.Disk disk.old disk.new gate.old gate.new (told gate.old (D.seen disk.old))) }
    ensures cause { IsTrouble (D.faults disk.old) (D.faults disk.new) (told gate.new (D.seen disk.new) ≡ None) result }
{
    let file = read_whole(alloc, disk)?;
    if file.len() <= 9 {
        begin(disk, gate)?;
        return Ok(Scanned {
            tables: Tables::new(alloc),
            end: HEADER.len(),
        });
    }
    let scanned = scan(alloc, &file)?;
    *gate = Gate::Shut(scanned.end as u64);
    Ok(scanned)
}
