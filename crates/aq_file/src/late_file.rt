//! A file that is opened late, and let go.
ghost use Rattle.std.specs.Prelude.{◌≡◌, ◌<◌, ◌≤◌, ◌^◌, length, false, IsTrue, IfOk, OnOk, OnErr};
ghost use Rattle.sqlite_disk.specs.Disk.{Holds, Torn as TornAt};
ghost use Rattle.aq_journal.specs.Disks.{Gives, Torn, Only, NothingNew, Follows, written};
ghost use Rattle.aq_file.specs.Late.{IsRead, StaysUnusable};

use crate::opener::Opener;
use aq_keeper::KeeperFault;
use sqlite_disk::Disk;
use std::io::{self, ErrorKind};
use std::snapshot::Snapshot;

/// So often is a call that a signal interrupts made again.
const MOST_TRIES: u32 = 1_000;

/// How far a file has come.
#[derive(Drop)]
pub(crate) enum Stage<F: Drop> {
    /// It was not opened yet.
    Late,
    /// It is this program's alone.
    Opened(F),
    /// Others may have it. What it was then, if it was opened.
    LetGo(Option<Snapshot<F>>),
}

/// A file that is opened by `refresh`, and is then this program's alone until it is let go. An opening that is
/// refused is tried again by the next one. Before the opening no other call is answered, and none behind a sync that
/// failed: only what opens the file anew finds out what stands.
#[derive(Drop)]
pub(crate) struct LateFile<F: Disk + Drop, O: Opener<F> + Drop> {
    opener: O,
    stage: Stage<F>,
}

impl<F: Disk + Drop, O: Opener<F> + Drop> LateFile<F, O> {
    ghost use Rattle.std.specs.Prelude.{◌≡◌, ◌⊎◌, ◌<◌, ◌≤◌, ◌^◌, length, IfSome, IfOk, OnOk, OnErr};
    ghost use Rattle.std.specs.Option.{option_map};
    ghost use Rattle.aq_journal.specs.Disks.{IfTells, Gives, IsWritten, Torn, TornIfTold, Only, NothingNew, Follows, written};
    ghost use Rattle.aq_file.specs.Late.{leaves, stands, tells};
    ghost use Rattle.aq_file.specs.States.{IsLate, IsLetGo, IsShut, StaysShut, state};
    ghost use Rattle.aq_file.specs.declared.late_file.Stage.TheVariants.{Late};

    /// The file that this opens.
    pub(crate) fn new(opener: O) -> LateFile<F, O>
        ensures { result ≡ record { opener = opener; stage = Late } }
    {
        LateFile {
            opener,
            stage: Stage::Late,
        }
    }

    /// How many bytes the file has.
    pub(crate) fn length(&mut self) -> io::Result<u64>
        ensures length { IfOk result (λ n. IfSome (tells F.Disk O.bytes (state self.new)) (λ bytes. n ≡ length bytes)) }
        ensures bound { IfOk result (λ n. n < 2 ^ 63) }
        ensures same { IfTells (tells F.Disk O.bytes (state self.new)) (tells F.Disk O.bytes (state self.new) ≡ tells F.Disk O.bytes (state self.old)) }
        ensures crash { NothingNew (leaves F.Disk O.bytes (state self.old)) (leaves F.Disk O.bytes (state self.new)) }
        ensures shut { StaysShut F.Disk self.old self.new result }
    {
        match &mut self.stage {
            Stage::Opened(file) => length_of(file),
            _ => Err(ErrorKind::NotFound.into()),
        }
    }

    /// Reads bytes from a place on: none only at the end of the file, or where the buffer has no room.
    pub(crate) fn read(&mut self, at: u64, buffer: &mut [u8]) -> io::Result<usize>
        ensures within { IfOk result (λ n. n ≤ length buffer.new) }
        ensures gives { IfOk result (λ n. IfSome (tells F.Disk O.bytes (state self.new)) (λ bytes. Gives bytes at buffer.new n)) }
        ensures same { IfTells (tells F.Disk O.bytes (state self.new)) (tells F.Disk O.bytes (state self.new) ≡ tells F.Disk O.bytes (state self.old)) }
        ensures crash { NothingNew (leaves F.Disk O.bytes (state self.old)) (leaves F.Disk O.bytes (state self.new)) }
        ensures shut { StaysShut F.Disk self.old self.new result }
    {
        match &mut self.stage {
            Stage::Opened(file) => read_from(file, at, buffer),
            _ => Err(ErrorKind::NotFound.into()),
        }
    }

    /// Writes all bytes at a place that is not behind the end.
    pub(crate) fn write(&mut self, at: u64, bytes: &[u8]) -> io::Result<()>
        ensures written { OnOk result (IfTells (tells F.Disk O.bytes (state self.new)) (tells F.Disk O.bytes (state self.new) ≡ option_map (written at bytes.now) (tells F.Disk O.bytes (state self.old)))) }
        ensures failed { OnErr result (IfTells (tells F.Disk O.bytes (state self.new)) (TornIfTold at (length bytes.now) (tells F.Disk O.bytes (state self.old)) (tells F.Disk O.bytes (state self.new)))) }
        ensures stands { OnOk result (Follows (IsWritten at bytes.now) (stands F.Disk O.bytes (state self.old)) (stands F.Disk O.bytes (state self.new))) }
        ensures crash { Follows (Torn at (length bytes.now)) (leaves F.Disk O.bytes (state self.old)) (leaves F.Disk O.bytes (state self.new)) }
        ensures shut { StaysShut F.Disk self.old self.new result }
    {
        match &mut self.stage {
            Stage::Opened(file) => write_to(file, at, bytes),
            _ => Err(ErrorKind::NotFound.into()),
        }
    }

    /// Waits until all that was written is on the disk.
    pub(crate) fn sync(&mut self) -> io::Result<()>
        ensures synced { OnOk result (NothingNew (stands F.Disk O.bytes (state self.old)) (leaves F.Disk O.bytes (state self.new))) }
        ensures only { OnOk result (IfSome (tells F.Disk O.bytes (state self.new)) (λ bytes. Only bytes (leaves F.Disk O.bytes (state self.new)))) }
        ensures same { tells F.Disk O.bytes (state self.new) ≡ tells F.Disk O.bytes (state self.old) }
        ensures crash { NothingNew (leaves F.Disk O.bytes (state self.old)) (leaves F.Disk O.bytes (state self.new)) }
        ensures shut { StaysShut F.Disk self.old self.new result }

        // Behind a sync that fails no call is answered.
        ensures doubt { OnErr result (IsLate self.old.stage ⊎ IsShut F.Disk self.new) }
    {
        match &mut self.stage {
            Stage::Opened(file) => sync_of(file),
            _ => Err(ErrorKind::NotFound.into()),
        }
    }

    /// Opens the file, unless that is done, and syncs it. As it is opened the system's copies of it are dropped, and
    /// no call is answered behind a sync that failed: so what is read is what is on the disk.
    pub(crate) fn refresh(&mut self) -> Result<(), KeeperFault>
        ensures only { OnOk result (IfSome (tells F.Disk O.bytes (state self.new)) (λ bytes. Only bytes (leaves F.Disk O.bytes (state self.new)))) }
        ensures same { tells F.Disk O.bytes (state self.new) ≡ tells F.Disk O.bytes (state self.old) }
        ensures crash { NothingNew (leaves F.Disk O.bytes (state self.old)) (leaves F.Disk O.bytes (state self.new)) }
        ensures shut { StaysShut F.Disk self.old self.new result }
    {
        self.open()?;
        match self.sync() {
            Ok(()) => Ok(()),
            Err(_) => Err(KeeperFault::Failed),
        }
    }

    /// Opens the file, unless that is done.
    fn open(&mut self) -> Result<(), KeeperFault>
        ensures same { tells F.Disk O.bytes (state self.new) ≡ tells F.Disk O.bytes (state self.old) }
        ensures crash { NothingNew (leaves F.Disk O.bytes (state self.old)) (leaves F.Disk O.bytes (state self.new)) }
        ensures shut { IsShut F.Disk self.old → IsShut F.Disk self.new }
    {
        match &self.stage {
            Stage::Late => {}
            _ => return Ok(()),
        }
        self.stage = Stage::Opened(self.opener.open()?);
        Ok(())
    }

    /// Gives up the file. From then on no call is answered.
    pub(crate) fn let_go(&mut self)
        ensures same { state self.new ≡ state self.old }
        ensures gone { IsLetGo self.new.stage }
    {
        self.stage = match &self.stage {
            Stage::Late => Stage::LetGo(None),
            Stage::Opened(file) => Stage::LetGo(Some(Snapshot::of(file))),
            Stage::LetGo(_) => return,
        };
    }
}

/// Answers that no sync of a file has failed.
fn see_usable<F: Disk>(file: &F) -> io::Result<()>
    ensures usable { OnOk result (IsTrue (F.is_usable file.now)) }
    ensures not { OnErr result (F.is_usable file.now ≡ false) }
{
    if !file.may_be_used() {
        return Err(ErrorKind::Other.into());
    }
    Ok(())
}

/// How many bytes a file has.
fn length_of<F: Disk>(file: &mut F) -> io::Result<u64>
    ensures bound { IfOk result (λ n. n < 2 ^ 63) }
    ensures length { IfOk result (λ n. IsTrue (F.is_clean file.new) → n ≡ length (F.seen file.old)) }
    ensures read { IsRead F.Disk file.old file.new }
    ensures shut { StaysUnusable F.Disk file.old file.new result }
{
    see_usable(file)?;
    let length = file.len()? as u64;
    if length > i64::MAX as u64 {
        return Err(ErrorKind::InvalidData.into());
    }
    Ok(length)
}

/// Reads what is there, as far as there is room.
fn read_from<F: Disk>(file: &mut F, at: u64, buffer: &mut [u8]) -> io::Result<usize>
    ensures within { IfOk result (λ n. n ≤ length buffer.new) }
    ensures gives { IfOk result (λ n. IsTrue (F.is_clean file.new) → Gives (F.seen file.old) at buffer.new n) }
    ensures read { IsRead F.Disk file.old file.new }
    ensures shut { StaysUnusable F.Disk file.old file.new result }
{
    see_usable(file)?;
    let at = at as usize;
    let n = file.len()?.saturating_sub(at).min(buffer.len());
    if n == 0 {
        return Ok(0);
    }
    read_piece(file, at, &mut buffer[..n])?;
    Ok(n)
}

/// Reads a whole piece, made again if a signal interrupts it.
fn read_piece<F: Disk>(file: &mut F, at: usize, piece: &mut [u8]) -> io::Result<()>
    requires { IsTrue (F.is_usable file.old) }
    ensures holds { OnOk result (IsTrue (F.is_clean file.new) → 0 < length piece.new → Holds (F.seen file.old) at piece.new) }
    ensures read { IsRead F.Disk file.old file.new }
{
    for _ in 0..MOST_TRIES {
        match file.read_at(at, piece) {
            Err(error) if error.kind() == ErrorKind::Interrupted => {}
            answer => return answer,
        }
    }
    Err(ErrorKind::Interrupted.into())
}

/// Writes all bytes at a place that is not behind the end.
fn write_to<F: Disk>(file: &mut F, at: u64, bytes: &[u8]) -> io::Result<()>
    ensures clean { IsTrue (F.is_clean file.new) → IsTrue (F.is_clean file.old) }
    ensures written { OnOk result (IsTrue (F.is_clean file.new) → F.seen file.new ≡ written at bytes.now (F.seen file.old)) }
    ensures torn { Torn at (length bytes.now) (F.seen file.old) (F.seen file.new) }
    ensures crash { Follows (Torn at (length bytes.now)) (F.may_leave file.old) (F.may_leave file.new) }
    ensures shut { StaysUnusable F.Disk file.old file.new result }
{
    see_usable(file)?;
    let at = at as usize;
    if at > file.len()? {
        return Err(ErrorKind::InvalidInput.into());
    }
    write_piece(file, at, bytes)
}

/// Writes a whole piece, made again if a signal interrupts it.
fn write_piece<F: Disk>(file: &mut F, at: usize, piece: &[u8]) -> io::Result<()>
    requires { IsTrue (F.is_usable file.old) }
    ensures clean { IsTrue (F.is_clean file.new) → IsTrue (F.is_clean file.old) }
    ensures holds { OnOk result (0 < length piece.now → Holds (F.seen file.new) at piece.now) }
    ensures torn { TornAt at (length piece.now) (F.seen file.old) (F.seen file.new) }
    ensures crash { Follows (TornAt at (length piece.now)) (F.may_leave file.old) (F.may_leave file.new) }
{
    for _ in 0..MOST_TRIES {
        match file.write_at(at, piece) {
            Err(error) if error.kind() == ErrorKind::Interrupted => {}
            answer => return answer,
        }
    }
    Err(ErrorKind::Interrupted.into())
}

/// Syncs a file.
fn sync_of<F: Disk>(file: &mut F) -> io::Result<()>
    ensures only { OnOk result (Only (F.seen file.old) (F.may_leave file.new)) }
    ensures clean { F.is_clean file.new ≡ F.is_clean file.old }
    ensures seen { F.seen file.new ≡ F.seen file.old }
    ensures crash { NothingNew (F.may_leave file.old) (F.may_leave file.new) }
    ensures doubt { OnErr result (F.is_usable file.new ≡ false) }
    ensures shut { StaysUnusable F.Disk file.old file.new result }
{
    see_usable(file)?;
    file.sync()
}
