//! A keeper of the files at a path, over any first contents.
ghost use Rattle.std.specs.Prelude.{◌≡◌, IfOk, IfSome};
ghost use Rattle.sqlite_wal.specs.Files.{image_at};
ghost use Rattle.sqlite.specs.Effect.{Database, IsDatabase};
ghost use Rattle.sqlite.specs.Files.{AreFoundIn, file_state};
ghost use Rattle.sqlite.specs.State.{HasCleanDisk};
ghost use Rattle.aq_tables.specs.All.{rows_of};
ghost use Rattle.aq_sqlite.specs.Telling.{told};

use crate::sqlite_keeper::{SqliteKeeper, fault_of};
use aq_keeper::KeeperFault;
use sqlite::{Connection, Error, ErrorCode, FileFrom, FileStore, Start};

/// Why the files at a path were not opened.
#[derive(Clone, Copy, Debug, PartialEq, Eq)]
pub enum Refusal {
    /// Another keeper has them.
    Busy,
    Keeper(KeeperFault),
}

impl From<KeeperFault> for Refusal {
    ghost use Rattle.std.specs.Prelude.{◌≡◌};
    ghost use Rattle.aq_sqlite.specs.declared.from_start.Refusal.TheVariants as refusals;

    ghost from_gives = { λ fault refusal. refusal ≡ refusals.Keeper fault };

    fn from(fault: KeeperFault) -> Self {
        Refusal::Keeper(fault)
    }
}

/// Opens the files at a path, which are made if they are missing, and prepares their tables. What is told
/// then are the rows of a database that the files held as they were opened.
pub fn keeper_from<S: Start>(
    rt: &HostRuntime,
    path: &str,
    start: S,
) -> Result<SqliteKeeper<FileStore<FileFrom<S>>>, Refusal>
    ensures { IfOk result (λ keeper. HasCleanDisk (file_state keeper.connection)
        → IfSome (told keeper.prepared (file_state keeper.connection))
        (λ rows. (db : Database) × IsDatabase db × AreFoundIn (image_at S.Start) db.trees × (rows ≡ rows_of db))) }
{
    let connection = match Connection::open_from(rt, path, false, start) {
        Ok(connection) => connection,
        Err((error, _)) => return Err(refusal_of(&error)),
    };
    let mut keeper = SqliteKeeper::adopt(connection);
    keeper.prepare(rt.alloc())?;
    Ok(keeper)
}

/// What an error of an opening is.
fn refusal_of(error: &Error) -> Refusal {
    match error {
        Error::SqliteFailure(ErrorCode::DatabaseBusy) => Refusal::Busy,
        _ => Refusal::Keeper(fault_of(error)),
    }
}
