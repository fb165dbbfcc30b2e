//! What opens a file, and knows what it holds.
use aq_keeper::KeeperFault;
use sqlite_disk::Disk;

/// A file by its name, before it is opened.
pub trait Opener<F: Disk> {
    ghost use Rattle.std.specs.Prelude.{ℕ, List, IfOk};
    ghost use Rattle.aq_file.specs.Late.{IsOpened};

    /// The bytes that it holds.
    ghost bytes: { List ℕ };

    /// Opens it, synced, with the system's copies of it dropped. From then on it is this program's alone, until it is
    /// dropped.
    fn open(&self) -> Result<F, KeeperFault>
        ensures { IfOk result (λ file. IsOpened F.Disk bytes file) };
}
