ghost use Rattle.std.specs.Prelude.{◌≡◌, ◌+◌, ◌<◌, ◌≤◌, ◌^◌, length, IfOk};
ghost use Rattle.aq_journal.specs.Disks.{Gives, written};

use crate::disk::Disk;
use aq_base::{Bytes, Failed, Memory};
use aq_keeper::KeeperFault;
use std::alloc::Global;
use std::marker::Model;

/// A call that changed what a crash may leave: a write, one that failed, or a sync, by itself or in a refresh.
#[derive(Debug, Drop)]
pub(crate) enum Call {
    Wrote { at: u64, piece: Bytes },
    Tore { at: u64, size: usize },
    Synced,
}

/// A disk in memory, which fails at the calls that it is told to, and if it is refused memory for a write, a
/// sync or a refresh. After a sync that failed the next one that is answered leaves the bytes as they read.
/// Contracts see its state.
#[derive(Drop)]
pub struct MemoryDisk {
    first: Vec<u8>,
    latest: Option<Bytes>,
    changes: Vec<Call>,
    failing: Vec<u64>,
    calls: u64,
    faults: u64,
}

impl Model for MemoryDisk {
    ghost use Rattle.std.specs.Prelude.{◌≡◌};
    ghost use Rattle.aq_journal.specs.Memories.{DiskState, after_calls, at_first, current};

    ghost Value = { DiskState };

    ghost view = { λ disk. record { first = disk.first.items; changes = disk.changes.items; failing = disk.failing.items; calls = disk.calls; faults = disk.faults } };

    ghost invariant = { λ disk. current disk.first.items disk.latest ≡ (after_calls (at_first disk.first.items) disk.changes.items).bytes };
}

impl MemoryDisk {
    ghost use Rattle.std.specs.Prelude.{◌≡◌, ◌↔◌, ◌+◌, ◌<◌, ◌^◌, [], ◌∷◌, ◌++◌, length, IsErr, IsTrue, OnOk, OnErr};
    ghost use Rattle.aq_base.specs.Faults.{HasRisen, is_listed, next};
    ghost use Rattle.aq_journal.specs.Disks.{HasCause};
    ghost use Rattle.aq_journal.specs.Memories.{bytes_now, faults_after, IsQuiet};
    ghost use Rattle.aq_journal.specs.declared.memory_disk.Call.TheVariants.{Wrote};

    /// A disk with these bytes, all of them synced. It fails at the calls with these numbers, counted from 1
    /// over all methods.
    pub fn new(bytes: Vec<u8>, failing: Vec<u64>) -> MemoryDisk
        ensures { result ≡ record { first = bytes.items; changes = []; failing = failing.items; calls = 0; faults = 0 } }
    {
        let alloc = *bytes.allocator();
        MemoryDisk {
            first: bytes,
            latest: None,
            changes: Vec::new(alloc),
            failing,
            calls: 0,
            faults: 0,
        }
    }

    /// The bytes as they read.
    pub fn bytes(&self) -> &[u8]
        ensures { result.now ≡ bytes_now self.now }
    {
        match &self.latest {
            None => self.first.as_slice(),
            Some(bytes) => bytes.as_slice(),
        }
    }

    /// Counts a call, which fails if it is to.
    fn begin(&mut self) -> Result<(), Failed>
        ensures listed { IsErr result ↔ IsTrue (is_listed self.old.failing (next self.old.calls)) }
        ensures state { self.new ≡ record self.old { calls = next self.old.calls; faults = faults_after self.old.faults result } }
        ensures cause { HasCause self.old.faults self.new.faults result }
    {
        self.calls = self.calls.saturating_add(1);
        if self.failing.contains(&self.calls) {
            self.count_fault();
            return Err(Failed);
        }
        Ok(())
    }

    /// Writes a piece at a place.
    fn put(&mut self, at: u64, piece: &[u8]) -> Result<(), Memory>
        requires { at + length piece.now < 2 ^ 63 }
        ensures ok { OnOk result (self.new ≡ record self.old { changes = self.old.changes ++ Wrote at piece.now ∷ [] }) }
        ensures err { OnErr result (self.new ≡ self.old) }
    {
        let alloc = *self.first.allocator();
        let next = with_written(alloc, self.bytes(), at as usize, piece)?;
        let piece = Bytes::from_vec(piece.to_vec(alloc)?);
        self.changes.push(Call::Wrote { at, piece })?;
        self.latest = Some(Bytes::from_vec(next));
        Ok(())
    }

    /// Notes a call that leaves the bytes as they read.
    fn note(&mut self, call: Call) -> Result<(), Memory>
        requires { IsQuiet call }
        ensures ok { OnOk result (self.new ≡ record self.old { changes = self.old.changes ++ call ∷ [] }) }
        ensures err { OnErr result (self.new ≡ self.old) }
    {
        self.changes.push(call)?;
        Ok(())
    }

    /// Counts a fault.
    fn count_fault(&mut self)
        ensures state { self.new ≡ record self.old { faults = next self.old.faults } }
        ensures risen { HasRisen self.old.faults self.new.faults }
    {
        self.faults = self.faults.saturating_add(1);
    }
}

/// The bytes with a piece written at a place.
fn with_written(alloc: Global, bytes: &[u8], at: usize, piece: &[u8]) -> Result<Vec<u8>, Memory>
    requires { at + length piece.now < 2 ^ 63 }
    ensures { IfOk result (λ next. next.items ≡ written at piece.now bytes.now) }
{
    let mut next = bytes[..at.min(bytes.len())].to_vec(alloc)?;
    next.resize(at, 0)?;
    next.extend_from_slice(piece)?;
    let end = (at + piece.len()).min(bytes.len());
    next.extend_from_slice(&bytes[end..])?;
    Ok(next)
}

/// Copies bytes from a place on to the front of a buffer, as far as there is room.
fn copy_from(bytes: &[u8], at: usize, buffer: &mut [u8]) -> usize
    ensures within { result ≤ length buffer.new }
    ensures gives { Gives bytes.now at buffer.new result }
{
    let left = &bytes[at.min(bytes.len())..];
    let n = left.len().min(buffer.len());
    buffer[..n].copy_from_slice(&left[..n]);
    n
}

impl Disk for MemoryDisk {
    ghost use Rattle.std.specs.Prelude.{◌≡◌, ◌↔◌, ◌+◌, ◌<◌, ◌≤◌, ◌^◌, length, IsTrue, IsErr, IfOk, OnOk, OnErr, Some};
    ghost use Rattle.aq_base.specs.Faults.{is_listed, next};
    ghost use Rattle.aq_journal.specs.Disks.{HasCause, Gives, written, Torn, Only, NothingNew, Follows, Elapses};
    ghost use Rattle.aq_journal.specs.Memories.{MayLeave, LeftSince, bytes_now, at_first, faults_after, is_counted, is_last, reads_image, reads_alone, first_reads};

    ghost seen = { λ disk. Some (bytes_now disk) };

    ghost may_leave = { λ disk image. MayLeave disk image };

    ghost once_synced = { λ disk image. image ≡ bytes_now disk };

    ghost moment = { λ disk. length disk.changes };

    ghost left_since = { λ disk t image. LeftSince disk t image };

    ghost faults = { λ disk. disk.faults };

    ghost counts_now = { λ disk t image _ now. is_counted (at_first disk.first) disk.changes t image now };

    ghost once_synced_less = { λ disk image is. reads_alone (at_first disk.first) disk.changes image (first_reads disk.first) is };

    ghost only_now = { λ disk image left. is_last (at_first disk.first) disk.changes image left };

    ghost reads_image = { λ disk. reads_image (at_first disk.first) disk.changes (first_reads disk.first) };

    fn length(&mut self) -> Result<u64, Failed>
        ensures length { IfOk result (λ n. n ≡ length (bytes_now self.old)) }
        ensures bound { IfOk result (λ n. n < 2 ^ 63) }

        // It fails exactly at the listed calls.
        ensures listed { IsErr result ↔ IsTrue (is_listed self.old.failing (next self.old.calls)) }
        ensures state { self.new ≡ record self.old { calls = next self.old.calls; faults = faults_after self.old.faults result } }
        ensures cause { HasCause self.old.faults self.new.faults result }
    {
        self.begin()?;
        Ok(self.bytes().len() as u64)
    }

    fn read(&mut self, at: u64, buffer: &mut [u8]) -> Result<usize, Failed>
        ensures within { IfOk result (λ n. n ≤ length buffer.new) }
        ensures gives { IfOk result (λ n. Gives (bytes_now self.old) at buffer.new n) }

        // It fails exactly at the listed calls.
        ensures listed { IsErr result ↔ IsTrue (is_listed self.old.failing (next self.old.calls)) }
        ensures state { self.new ≡ record self.old { calls = next self.old.calls; faults = faults_after self.old.faults result } }
        ensures cause { HasCause self.old.faults self.new.faults result }
    {
        self.begin()?;
        Ok(copy_from(self.bytes(), at as usize, buffer))
    }

    fn write_at(&mut self, at: u64, bytes: &[u8]) -> Result<(), Failed> {
        if self.begin().is_err() {
            let _ = self.note(Call::Tore {
                at,
                size: bytes.len(),
            });
            return Err(Failed);
        }
        if self.put(at, bytes).is_err() {
            self.count_fault();
            return Err(Failed);
        }
        Ok(())
    }

    fn sync(&mut self) -> Result<(), Failed> {
        self.begin()?;
        if self.note(Call::Synced).is_err() {
            self.count_fault();
            return Err(Failed);
        }
        Ok(())
    }

    fn refresh(&mut self) -> Result<(), KeeperFault> {
        if self.begin().is_err() {
            return Err(KeeperFault::Failed);
        }
        if self.note(Call::Synced).is_err() {
            self.count_fault();
            return Err(KeeperFault::Failed);
        }
        Ok(())
    }

    /// Nobody else can have what stands in memory.
    fn let_go(&mut self)
        ensures { self.new ≡ self.old }
    {}
}
