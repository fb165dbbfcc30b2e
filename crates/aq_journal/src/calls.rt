//! Calls of a disk one after the other.
ghost use Rattle.std.specs.Prelude.{◌≡◌, ◌+◌, ◌-◌, ◌<◌, ◌≤◌, ◌^◌, length, take, drop, IfSome, IfOk, OnOk};
ghost use Rattle.aq_journal.specs.Disks.{HasCause, Gives, IfTells};
ghost use Rattle.aq_journal.specs.Calls.{Puts, HasPut, IsQuiet};

use crate::disk::Disk;
use crate::trouble::Trouble;
use aq_base::{Failed, Memory};
use std::alloc::Global;

impl From<Failed> for Trouble {
    ghost use Rattle.std.specs.Prelude.{◌≡◌};
    ghost use Rattle.aq_journal.specs.declared.trouble.Trouble.TheVariants as trouble;

    ghost from_gives = { λ _ fault. fault ≡ trouble.Failed };

    fn from(_: Failed) -> Self {
        Trouble::Failed
    }
}

/// Writes bytes at a place, and syncs.
pub(crate) fn put<D: Disk>(disk: &mut D, at: u64, bytes: &[u8]) -> Result<(), Failed>
    requires { at + length bytes.now < 2 ^ 63 }
    ensures images { IfTells (D.seen disk.new) (Puts D.Disk at bytes.now disk.old disk.new) }
    ensures done { OnOk result (IfTells (D.seen disk.new) (HasPut D.Disk at bytes.now disk.old disk.new)) }
    ensures cause { HasCause (D.faults disk.old) (D.faults disk.new) result }
{
    disk.write_at(at, bytes)?;
    disk.sync()
}

/// Reads into a buffer until it is full or no byte is left, and answers how many bytes were read.
pub(crate) fn fill<D: Disk>(disk: &mut D, bytes: &mut [u8]) -> Result<usize, Failed>
    ensures length { length bytes.new ≡ length bytes.old }
    ensures within { IfOk result (λ n. n ≤ length bytes.new) }
    ensures read { IfOk result (λ n. IfSome (D.seen disk.new) (λ file. length file ≤ length bytes.new → take n bytes.new ≡ file)) }
    ensures quiet { IfTells (D.seen disk.new) (IsQuiet D.Disk disk.old disk.new) }
    ensures cause { HasCause (D.faults disk.old) (D.faults disk.new) result }
{
    let mut at = 0;
    for _ in 0..bytes.len() {
        if at == bytes.len() {
            return Ok(at);
        }
        let n = read_into(disk, bytes, at)?;
        if n == 0 {
            return Ok(at);
        }
        at += n;
    }
    Ok(at)
}

/// Reads bytes from a place on into a buffer, at the same place.
fn read_into<D: Disk>(disk: &mut D, bytes: &mut [u8], at: usize) -> Result<usize, Failed>
    requires { at ≤ length bytes.old }
    ensures length { length bytes.new ≡ length bytes.old }
    ensures front { take at bytes.new ≡ take at bytes.old }
    ensures within { IfOk result (λ n. n ≤ length bytes.new - at) }
    ensures gives { IfOk result (λ n. IfSome (D.seen disk.new) (λ file. Gives file at (drop at bytes.new) n)) }
    ensures quiet { IfTells (D.seen disk.new) (IsQuiet D.Disk disk.old disk.new) }
    ensures cause { HasCause (D.faults disk.old) (D.faults disk.new) result }
{
    disk.read(at as u64, &mut bytes[at..])
}

/// So many zeros.
pub(crate) fn zeros(alloc: Global, n: usize) -> Result<Vec<u8>, Memory>
    ensures { IfOk result (λ bytes. length bytes.items ≡ n) }
{
    let mut bytes = Vec::new(alloc);
    bytes.resize(n, 0)?;
    Ok(bytes)
}
