//! The file of a name, opened once nobody else has it.
ghost use Rattle.std.specs.Prelude.{IfOk};
ghost use Rattle.aq_file.specs.Late.{IsOpened};

use crate::file_disk::FileDisk;
use crate::opener::Opener;
use aq_keeper::KeeperFault;
use sqlite_disk::{Disk, Files, Start, Unknown};
use sqlite_std_file::{FileFrom, OpenError};
use std::io::ErrorKind;
use std::marker::PhantomData;
use std::thread;
use std::time::Duration;

/// So often is a file tried that another program has, with a pause behind each try: for ten seconds.
const MOST_TRIES: u32 = 200;

/// In milliseconds.
const PAUSE: u64 = 50;

/// What a file holds as it is opened: the bytes `db` of a start. What is proved over every such type is proved of a
/// file with any bytes.
pub trait FirstBytes: Start {
    /// What stands for these bytes at an opening.
    fn start() -> Self;
}

/// For `main` to name: no code can read what a type says that the file holds.
impl FirstBytes for Unknown {
    fn start() -> Self {
        Unknown
    }
}

/// The file of a name, of which the first bytes are those of `S`.
#[derive(Drop)]
pub struct AtName<'a, S: FirstBytes> {
    rt: &'a HostRuntime,
    name: &'a str,
    contents: PhantomData<S>,
}

impl<'a, S: FirstBytes> AtName<'a, S> {
    /// The file of the working folder with this name. It is made at its opening if it is missing, and so is one
    /// beside it, the name with `-wal`, which stays empty. While another program has it, it is tried again, for ten
    /// seconds.
    pub fn new(rt: &'a HostRuntime, name: &'a str) -> AtName<'a, S> {
        AtName {
            rt,
            name,
            contents: PhantomData,
        }
    }
}

/// The disk of a file of the host.
pub type HostDisk<'a, S> = FileDisk<FileFrom<S>, AtName<'a, S>>;

impl<'a, S: FirstBytes> Opener<FileFrom<S>> for AtName<'a, S> {
    ghost bytes = { S.Start.db };

    /// Each try has a start of its own.
    fn open(&self) -> Result<FileFrom<S>, KeeperFault> {
        for _ in 0..MOST_TRIES {
            match open_once::<S>(self.rt, self.name) {
                Ok(file) => return Ok(file),
                Err(OpenError::Busy) => thread::sleep(self.rt, Duration::from_millis(PAUSE)),
                Err(error) => return Err(fault_of(&error)),
            }
        }
        Err(KeeperFault::Failed)
    }
}

/// Opens the file, unless another program has it. The one beside it, of which nothing is used, is let go at once.
fn open_once<S: FirstBytes>(rt: &HostRuntime, name: &str) -> Result<FileFrom<S>, OpenError>
    ensures { IfOk result (λ file. IsOpened ⟦<FileFrom<S> as Disk>⟧ S.Start.db file) }
{
    let Files { log, db } = sqlite_std_file::open(rt, name, S::start())?;
    drop(log);
    Ok(db)
}

/// What a refused opening is to a keeper.
fn fault_of(error: &OpenError) -> KeeperFault {
    match error {
        OpenError::OutOfMemory => KeeperFault::Memory,
        OpenError::Io(error) if error.kind() == ErrorKind::OutOfMemory => KeeperFault::Memory,
        _ => KeeperFault::Failed,
    }
}
