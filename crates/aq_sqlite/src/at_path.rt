//! The files at a path, opened once nobody else has them.
ghost use Rattle.std.specs.Prelude.{◌≡◌, IfOk, IfSome};
ghost use Rattle.sqlite.specs.Files.{file_state};
ghost use Rattle.aq_sqlite.specs.Telling.{told};

use crate::from_start::{Refusal, keeper_from};
use crate::late_keeper::{Closes, LateKeeper, Opener};
use crate::sqlite_keeper::SqliteKeeper;
use aq_keeper::KeeperFault;
use sqlite::{FileFrom, FileStore, Start, Unknown};
use sqlite_disk::Disk;
use std::marker::PhantomData;
use std::thread;
use std::time::Duration;

/// So often are files tried that another keeper has, with a pause behind each try: for ten seconds.
const MOST_TRIES: u32 = 200;

/// In milliseconds.
const PAUSE: u64 = 50;

/// First contents with the rows of the office that they hold. What is proved over every such type is proved of
/// files with any contents that are those of an office or of nobody.
pub trait Holds: Start {
    ghost use Rattle.std.specs.Prelude.{◌≡◌, List};
    ghost use Rattle.sqlite.specs.Effect.{Database, IsDatabase};
    ghost use Rattle.sqlite.specs.Files.{AreFoundIn};
    ghost use Rattle.sqlite_wal.specs.Files.{image_at};
    ghost use Rattle.aq_rules.specs.Kept.Rows as the_rows;
    ghost use Rattle.aq_tables.specs.All.{rows_of};

    /// The rows that the files hold as they are opened.
    ghost rows: { List the_rows.Row };

    /// What stands for these contents at an opening.
    fn start() -> Self;

    /// Whatever database an opening finds there has these rows.
    ghost holds: { (db : Database) → IsDatabase db → AreFoundIn (image_at Self.Start) db.trees → rows_of db ≡ rows };
}

/// For `main` to name: no code can read what a type says that the files hold.
impl Holds for Unknown {
    ghost use Rattle.std.specs.Prelude.{[]};
    ghost use Rattle.aq_sqlite.specs.Nobody.{nobody_has_no_rows};

    ghost rows = { [] };

    ghost holds = { nobody_has_no_rows };

    fn start() -> Self {
        Unknown
    }
}

/// The files at a path, of which the first contents are those of `S`.
#[derive(Drop)]
pub struct AtPath<'a, S: Holds> {
    rt: &'a HostRuntime,
    path: String,
    tries: u32,
    contents: PhantomData<S>,
}

impl<'a, S: Holds> AtPath<'a, S> {
    /// The files at a path, which are made at the opening if they are missing. While another keeper has them
    /// they are tried again, for ten seconds.
    pub fn new(rt: &'a HostRuntime, path: String) -> AtPath<'a, S> {
        AtPath {
            rt,
            path,
            tries: MOST_TRIES,
            contents: PhantomData,
        }
    }

    /// The same, tried only once.
    pub fn at_once(rt: &'a HostRuntime, path: String) -> AtPath<'a, S> {
        AtPath {
            rt,
            path,
            tries: 1,
            contents: PhantomData,
        }
    }
}

/// The keeper of the files at a path.
pub type FileKeeper<'a, S> = LateKeeper<FileStore<FileFrom<S>>, AtPath<'a, S>>;

impl<'a, S: Holds> Opener<FileStore<FileFrom<S>>> for AtPath<'a, S> {
    ghost rows = { S.Holds.rows };

    /// Each try has a start of its own.
    fn open(self) -> Result<SqliteKeeper<FileStore<FileFrom<S>>>, KeeperFault> {
        let AtPath {
            rt,
            path,
            tries,
            contents: _,
        } = self;
        for _ in 0..tries {
            match open_once::<S>(rt, path.as_str()) {
                Ok(keeper) => return Ok(keeper),
                Err(Refusal::Busy) => thread::sleep(rt, Duration::from_millis(PAUSE)),
                Err(Refusal::Keeper(fault)) => return Err(fault),
            }
        }
        Err(KeeperFault::Failed)
    }
}

impl<D: Disk + Drop> Closes for FileStore<D> {
    /// The log is copied into the file, which can then be copied by itself. If that is refused the log
    /// beside the file still has what was committed.
    fn shut(self) {
        let mut store = self;
        let _ = store.checkpoint();
        drop(store.close());
    }
}

/// Opens the files at a path, unless another keeper has them.
fn open_once<S: Holds>(
    rt: &HostRuntime,
    path: &str,
) -> Result<SqliteKeeper<FileStore<FileFrom<S>>>, Refusal>
    ensures { IfOk result (λ keeper. IfSome (told keeper.prepared (file_state keeper.connection)) (λ found. S.Holds.rows ≡ found)) }
{
    keeper_from(rt, path, S::start())
}
