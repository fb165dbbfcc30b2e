//! A file that is opened late, as the disk of a journal.
ghost use Rattle.std.specs.Prelude.{◌≡◌, Ok, IfOk, OnErr, IsErr};
ghost use Rattle.aq_keeper.specs.Told.{HasCause as HasFaultCause};
ghost use Rattle.aq_journal.specs.Disks.{HasCause};
ghost use Rattle.aq_journal.specs.Memories.{faults_after};

use crate::late_file::LateFile;
use crate::opener::Opener;
use aq_base::Failed;
use aq_journal::Disk;
use aq_keeper::KeeperFault;
use std::alloc::Global;
use std::io;
use std::snapshot::Snapshot;

/// Room for so many calls. What is noted of them has no bytes.
const MOST_CALLS: usize = 1 << 60;

/// A file as a disk, opened by its first `refresh`. What the file refuses is a fault of that call, counted once. It
/// tells the bytes that its opener knows of, and from the opening on those of the file, until an answer of it was
/// wrong.
#[derive(Drop)]
pub struct FileDisk<F: sqlite_disk::Disk + Drop, O: Opener<F> + Drop> {
    file: LateFile<F, O>,
    /// What it was before each call.
    past: Vec<Snapshot<LateFile<F, O>>>,
    faults: u64,
}

impl<F: sqlite_disk::Disk + Drop, O: Opener<F> + Drop> FileDisk<F, O> {
    ghost use Rattle.std.specs.Prelude.{◌≡◌, [], ◌∷◌, ◌++◌, OnOk, OnErr};
    ghost use Rattle.aq_journal.specs.Disks.{HasCause};
    ghost use Rattle.aq_file.specs.States.{state, states};
    ghost use Rattle.aq_file.specs.declared.late_file.Stage.TheVariants.{Late};

    /// The disk of the file that this opens. It takes no memory before its first `refresh`.
    pub fn new(alloc: Global, opener: O) -> FileDisk<F, O>
        ensures file { result.file ≡ record { opener = opener; stage = Late } }
        ensures past { states result.past.items ≡ [] }
        ensures faults { result.faults ≡ 0 }
    {
        FileDisk {
            file: LateFile::new(opener),
            past: Vec::new(alloc),
            faults: 0,
        }
    }

    /// Notes what stands before a call.
    fn note(&mut self) -> Result<(), Failed>
        ensures file { self.new.file ≡ self.old.file }
        ensures ok { OnOk result (states self.new.past.items ≡ states self.old.past.items ++ state self.old.file ∷ []) }
        ensures err { OnErr result (states self.new.past.items ≡ states self.old.past.items) }
        ensures cause { HasCause self.old.faults self.new.faults result }
    {
        if self.past.push(Snapshot::of(&self.file)).is_err() {
            self.faults = self.faults.saturating_add(1);
            return Err(Failed);
        }
        Ok(())
    }
}

impl<F: sqlite_disk::Disk + Drop, O: Opener<F> + Drop> Disk for FileDisk<F, O> {
    ghost use Rattle.std.specs.Prelude.{◌≡◌, ◌⊎◌, length};
    ghost use Rattle.std.proofs.Common.{inl};
    ghost use Rattle.aq_file.specs.Late.{leaves, left_from, only_last, stands, stands_leaves, tells, tells_image};
    ghost use Rattle.aq_file.specs.States.{IsLetGo, state, states};

    ghost seen = { λ disk. tells F.Disk O.bytes (state disk.file) };

    ghost may_leave = { λ disk image. leaves F.Disk O.bytes (state disk.file) image };

    ghost once_synced = { λ disk image. stands F.Disk O.bytes (state disk.file) image };

    ghost moment = { λ disk. length (states disk.past.items) };

    ghost left_since = { λ disk t image. leaves F.Disk O.bytes (state disk.file) image ⊎ left_from F.Disk O.bytes (states disk.past.items) t image };

    ghost faults = { λ disk. disk.faults };

    ghost once_synced_less = { λ disk image is. stands_leaves F.Disk.own O.bytes F.seen_may_stay (state disk.file) image is };

    ghost counts_now = { λ disk t image _ now. inl now };

    ghost only_now = { λ disk image left. only_last F.Disk.own O.bytes (state disk.file) (states disk.past.items) image left };

    ghost reads_image = { λ disk. tells_image F.Disk.own O.bytes F.seen_may_stay (state disk.file) };

    fn length(&mut self) -> Result<u64, Failed> {
        self.note()?;
        counted(&mut self.faults, self.file.length())
    }

    fn read(&mut self, at: u64, buffer: &mut [u8]) -> Result<usize, Failed> {
        self.note()?;
        counted(&mut self.faults, self.file.read(at, buffer))
    }

    fn write_at(&mut self, at: u64, bytes: &[u8]) -> Result<(), Failed> {
        self.note()?;
        counted(&mut self.faults, self.file.write(at, bytes))
    }

    fn sync(&mut self) -> Result<(), Failed> {
        self.note()?;
        counted(&mut self.faults, self.file.sync())
    }

    fn refresh(&mut self) -> Result<(), KeeperFault> {
        if self.past.reserve(MOST_CALLS).is_err() {
            return Err(KeeperFault::Memory);
        }
        if self.note().is_err() {
            return Err(KeeperFault::Failed);
        }
        refreshed(&mut self.faults, self.file.refresh())
    }

    /// Others may have the file, and no call of it is answered any more.
    fn let_go(&mut self)
        ensures same { state self.new.file ≡ state self.old.file }
        ensures past { states self.new.past.items ≡ states self.old.past.items }
        ensures faults { self.new.faults ≡ self.old.faults }
        ensures gone { IsLetGo self.new.file.stage }
    {
        self.file.let_go();
    }
}

/// An answer of the host as a disk's: it is the same, or it is counted as a fault.
fn counted<T>(faults: &mut u64, answer: io::Result<T>) -> Result<T, Failed>
    ensures same { IfOk result (λ value. answer ≡ Ok value) }
    ensures failed { OnErr result (IsErr answer) }
    ensures counted { faults.new ≡ faults_after faults.old result }
    ensures cause { HasCause faults.old faults.new result }
{
    match answer {
        Ok(value) => Ok(value),
        Err(_) => {
            *faults = faults.saturating_add(1);
            Err(Failed)
        }
    }
}

/// The answer of a refresh as it is, of which a failure is counted.
fn refreshed(faults: &mut u64, answer: Result<(), KeeperFault>) -> Result<(), KeeperFault>
    ensures same { result ≡ answer }
    ensures cause { HasFaultCause faults.old faults.new result }
{
    if let Err(KeeperFault::Failed) = &answer {
        *faults = faults.saturating_add(1);
    }
    answer
}
