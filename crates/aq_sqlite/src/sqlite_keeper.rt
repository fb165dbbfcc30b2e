ghost use Rattle.std.specs.Prelude.{◌≡◌, Err, false, IsTrue, IfErr, OnOk, OnErr};
ghost use Rattle.sqlite.specs.Effect.{IsDatabase};
ghost use Rattle.sqlite.specs.State.{HasCleanDisk, Survives};
ghost use Rattle.sqlite.specs.Held.{state};
ghost use Rattle.aq_keeper.specs.Told.{HasCause};
ghost use Rattle.aq_keeper.specs.declared.keeper.KeeperFault.TheVariants.{Failed};
ghost use Rattle.aq_tables.specs.All.{HasTables};
ghost use Rattle.aq_tables.specs.Batch.{Becomes, Leaves};
ghost use Rattle.aq_tables.specs.Why.{IsCaused, OrBegun, RefusesCommit};
ghost use Rattle.aq_sqlite.specs.Faults.{answered, fault_of};

use aq_keeper::{Keeper, KeeperFault, RowChange, Rows};
use aq_tables::commit;
use sqlite::{Alter, Connection, Error, ErrorCode};
use std::alloc::Global;

/// A keeper over a connection of `sqlite`, whatever its store is. It tells its tables once it has prepared
/// them, while the connection is open: a fault of the store may shut it in any call. Each refusal but want
/// of memory is a fault. Once it has let its tables go it makes no call of the connection, which is still
/// given back.
#[derive(Drop)]
pub struct SqliteKeeper<S: Alter + Drop> {
    connection: Connection<S>,
    faults: u64,
    commits: u64,
    prepared: bool,
    is_held: bool,
    ghost stands: { IsTrue prepared → IsTrue (state S.Store connection).is_open → ∥ HasTables (state S.Store connection).committed ∥₁ },
    ghost alone: { connection.in_transaction ≡ false },
}

impl<S: Alter + Drop> SqliteKeeper<S> {
    ghost use Rattle.std.specs.Prelude.{◌≡◌, ◌∷◌, [], false, true, IsTrue, IfSome, OnErr, OnOk};
    ghost use Rattle.sqlite.specs.State.{HasCleanDisk, KeepsCommit, Survives};
    ghost use Rattle.sqlite.specs.Held.{state};
    ghost use Rattle.aq_keeper.specs.Told.{HasCause};
    ghost use Rattle.aq_tables.specs.All.{rows_of};
    ghost use Rattle.aq_tables.specs.Made.{IsMade, IsOffice};
    ghost use Rattle.aq_sqlite.specs.Telling.{told};
    ghost use Rattle.aq_sqlite.specs.Crash.{IsKept, LeavesOnly};
    ghost use Rattle.aq_sqlite.specs.Faults.{FailsOnlyIf, HasReason};
    ghost use Rattle.aq_tables.specs.WhyMade.{RefusesFile};

    /// The keeper of a connection without an open transaction. It tells nothing until its tables are
    /// prepared.
    pub fn adopt(connection: Connection<S>) -> SqliteKeeper<S>
        requires { connection.in_transaction ≡ false }
        ensures connection { result.connection ≡ connection }
        ensures prepared { result.prepared ≡ false }
        ensures faults { result.faults ≡ 0 }
        ensures commits { result.commits ≡ 0 }
        ensures held { result.is_held ≡ true }
    {
        SqliteKeeper {
            connection,
            faults: 0,
            commits: 0,
            prepared: false,
            is_held: true,
        }
    }

    /// Looks whether each table is as its statement makes it, makes the tables in a database of nobody, and
    /// moves the rows of `observations2` into `observations3` in one that an earlier program left, in one
    /// transaction. From then on the keeper tells its tables.
    ///
    /// It fails, and makes nothing, where a table with one of the names has another form, where some of the
    /// tables stand and not all, where the database has tables and none of these, and where the key of an
    /// observation has no number.
    pub fn prepare(&mut self, alloc: Global) -> Result<(), KeeperFault>
        ensures begins { OnOk result (IsTrue self.new.prepared) }
        ensures rows { IfSome (told self.new.prepared (state S.Store self.new.connection)) (λ rows. rows_of (state S.Store self.old.connection).committed ≡ rows) }
        ensures cause { HasCause self.old.faults self.new.faults result }

        // It takes the databases of an office and of nobody, and leaves any other as it is.
        ensures office { OnOk result (IsOffice self.old.connection.schema) }
        ensures other { (IsOffice self.old.connection.schema → ⊥) → self.new.connection ≡ self.old.connection }

        // It fails only where the store failed or was shut, where the database is neither an office's nor
        // nobody's, and where a table is not read, a rowid stands twice, a key has no number, or a statement
        // that makes the tables is refused.
        ensures why { FailsOnlyIf result (HasReason (RefusesFile S.Store self.old.connection) (state S.Store self.old.connection) (state S.Store self.new.connection)) }

        // No transaction is left open.
        ensures mode { self.new.connection.in_transaction ≡ false }

        // After an error nothing was committed.
        ensures kept { HasCleanDisk (state S.Store self.new.connection) → OnErr result (KeepsCommit (state S.Store self.old.connection) (state S.Store self.new.connection)) }

        // After Ok a crash leaves what is told and nothing else, and after an error also what it could
        // leave before.
        ensures left { IfSome (told self.new.prepared (state S.Store self.new.connection)) (λ rows. LeavesOnly (λ left. left ≡ rows) (state S.Store self.new.connection)) }
        ensures crash { Survives (state S.Store self.old.connection) (state S.Store self.new.connection) (λ trees. (db : _) × IsMade (state S.Store self.old.connection).now db × (trees ≡ db.trees)) }

        // So the law on calls one after the other begins with what is told.
        ensures called { IfSome (told self.new.prepared (state S.Store self.new.connection)) (λ rows. IsKept (record { rows = rows; left = rows ∷ [] }) (state S.Store self.new.connection)) }
    {
        let made = aq_tables::prepare(&mut self.connection, alloc);
        let _ = self.connection.schema();
        self.prepared = made.is_ok();
        counted(&mut self.faults, made)
    }

    /// The connection, as the last call left it.
    pub fn into_connection(self) -> Connection<S>
        ensures { result ≡ self.connection }
    {
        let SqliteKeeper {
            connection,
            faults: _,
            commits: _,
            prepared: _,
            is_held: _,
        } = self;
        connection
    }
}

impl<S: Alter + Drop> Keeper for SqliteKeeper<S> {
    ghost use Rattle.std.specs.Prelude.{◌≡◌, ◌⊎◌, true, false, map, Some, Err, IsTrue, IfSome, IfOk, OnOk, OnErr};
    ghost use Rattle.sqlite.specs.State.{Survives};
    ghost use Rattle.sqlite.specs.Held.{state};
    ghost use Rattle.aq_base.specs.Faults.{next};
    ghost use Rattle.aq_rules.specs.Kept.RowChanges.{batch_rises, changed_key};
    ghost use Rattle.aq_keeper.specs.Told.{HasCause, Stays};
    ghost use Rattle.aq_keeper.specs.declared.keeper.KeeperFault.TheVariants.{Failed};
    ghost use Rattle.aq_sqlite.specs.Telling.{told, with_batch};
    ghost use Rattle.aq_sqlite.specs.Crash.{AlsoLeaves, LeavesOnly};
    ghost use Rattle.aq_sqlite.specs.Faults.{FailsOnlyIf, HasReason};
    ghost use Rattle.aq_tables.specs.Why.{RefusesCommit, RefusesRows};

    ghost seen = { λ keeper. record {
      tables = told keeper.prepared (state S.Store keeper.connection);
      faults = keeper.faults;
      commits = keeper.commits;
      is_held = keeper.is_held;
    } };

    fn read_all(&mut self, alloc: Global) -> Result<Rows, KeeperFault>
        ensures rows { IfOk result (λ rows. IfSome (told self.new.prepared (state S.Store self.new.connection)) (λ told. rows ≡ told)) }
        ensures kept { Stays (told self.old.prepared (state S.Store self.old.connection)) (told self.new.prepared (state S.Store self.new.connection)) }
        ensures cause { HasCause self.old.faults self.new.faults result }
        ensures commits { self.new.commits ≡ self.old.commits }
        ensures held { self.new.is_held ≡ self.old.is_held }
        ensures gone { self.old.is_held ≡ false → result ≡ Err Failed }

        // It fails only where the tables were let go, the store failed or was shut, or a table is not read.
        ensures why { FailsOnlyIf result ((self.old.is_held ≡ false) ⊎ HasReason (RefusesRows (state S.Store self.old.connection)) (state S.Store self.old.connection) (state S.Store self.new.connection)) }

        // A crash after it leaves what it could leave before.
        ensures prepared { self.new.prepared ≡ self.old.prepared }
        ensures crash { Survives (state S.Store self.old.connection) (state S.Store self.new.connection) (λ _. ⊥) }
    {
        if !self.is_held {
            return gone(&mut self.faults);
        }
        let rows = aq_tables::read_all(&mut self.connection, alloc);
        counted(&mut self.faults, rows)
    }

    fn commit(&mut self, _alloc: Global, batch: &[RowChange]) -> Result<(), KeeperFault>
        requires rising { batch_rises (map changed_key batch.now) ≡ true }
        ensures done { OnOk result (Stays (with_batch batch.now (told self.old.prepared (state S.Store self.old.connection))) (told self.new.prepared (state S.Store self.new.connection))) }
        ensures kept { OnErr result (Stays (told self.old.prepared (state S.Store self.old.connection)) (told self.new.prepared (state S.Store self.new.connection))) }
        ensures cause { HasCause self.old.faults self.new.faults result }
        ensures commits { self.new.commits ≡ next self.old.commits }
        ensures held { self.new.is_held ≡ self.old.is_held }
        ensures gone { self.old.is_held ≡ false → result ≡ Err Failed }

        // It fails only where the tables were let go, the store failed or was shut, a key has no number, or a
        // statement of the batch is refused.
        ensures why { FailsOnlyIf result ((self.old.is_held ≡ false) ⊎ HasReason (RefusesCommit S.Store batch.now self.old.connection) (state S.Store self.old.connection) (state S.Store self.new.connection)) }

        // After Ok a crash leaves the tables with the batch and nothing else, and after an error also what
        // it could leave before.
        ensures prepared { self.new.prepared ≡ self.old.prepared }
        ensures left { IsTrue self.old.prepared → OnOk result (LeavesOnly (λ rows. with_batch batch.now (told self.old.prepared (state S.Store self.old.connection)) ≡ Some rows) (state S.Store self.new.connection)) }
        ensures crash { IsTrue self.old.prepared → AlsoLeaves (λ rows. with_batch batch.now (told self.old.prepared (state S.Store self.old.connection)) ≡ Some rows) (state S.Store self.old.connection) (state S.Store self.new.connection) }
    {
        self.commits = self.commits.saturating_add(1);
        if !self.is_held {
            return gone(&mut self.faults);
        }
        let made = commit_alone(&mut self.connection, batch);
        counted(&mut self.faults, made)
    }

    fn let_go(&mut self)
        ensures connection { self.new.connection ≡ self.old.connection }
        ensures prepared { self.new.prepared ≡ self.old.prepared }
        ensures faults { self.new.faults ≡ self.old.faults }
        ensures commits { self.new.commits ≡ self.old.commits }
        ensures gone { self.new.is_held ≡ false }
    {
        self.is_held = false;
    }
}

/// Commits a batch if no transaction is open, so that what the connection sees was committed.
fn commit_alone<S: Alter>(connection: &mut Connection<S>, batch: &[RowChange]) -> Result<(), Error>
    ensures settled { OnOk result (IsTrue (state S.Store connection.old).is_open → (state S.Store connection.old).now ≡ (state S.Store connection.old).committed) }
    ensures sound { IsTrue (state S.Store connection.old).is_open → IsDatabase (state S.Store connection.old).committed }
    ensures done { HasCleanDisk (state S.Store connection.new) → OnOk result (Becomes batch.now (state S.Store connection.old).now (state S.Store connection.new).committed) }
    ensures opened { HasCleanDisk (state S.Store connection.new) → OnOk result (IsTrue (state S.Store connection.new).is_open) }
    ensures left { HasCleanDisk (state S.Store connection.new) → OnOk result ((trees : _) → (state S.Store connection.new).may_leave trees → trees ≡ (state S.Store connection.new).committed.trees) }
    ensures kept { HasCleanDisk (state S.Store connection.new) → IsTrue (state S.Store connection.new).is_open → OnErr result ((state S.Store connection.new).committed ≡ (state S.Store connection.old).committed) }
    ensures was_open { HasCleanDisk (state S.Store connection.new) → IsTrue (state S.Store connection.new).is_open → IsTrue (state S.Store connection.old).is_open }
    ensures why { HasCleanDisk (state S.Store connection.new) → IfErr result (IsCaused (OrBegun (state S.Store connection.old) (RefusesCommit S.Store batch.now connection.old)) (state S.Store connection.old) (state S.Store connection.new)) }
    ensures mode { connection.old.in_transaction ≡ false → connection.new.in_transaction ≡ false }
    ensures crash { Survives (state S.Store connection.old) (state S.Store connection.new) (λ trees. Leaves batch.now (state S.Store connection.old) trees × (IsTrue (state S.Store connection.old).is_open → (state S.Store connection.old).now ≡ (state S.Store connection.old).committed)) }
{
    let _ = connection.schema();
    if !connection.is_autocommit() {
        return Err(Error::SqliteFailure(ErrorCode::TransactionState));
    }
    commit(connection, batch)
}

/// The answer of a call behind the one that let the tables go.
pub(crate) fn gone<T>(faults: &mut u64) -> Result<T, KeeperFault>
    ensures cause { HasCause faults.old faults.new result }
    ensures failed { result ≡ Err Failed }
{
    *faults = faults.saturating_add(1);
    Err(KeeperFault::Failed)
}

/// An answer with its refusal, which is counted if it is a fault.
fn counted<T>(faults: &mut u64, answer: Result<T, Error>) -> Result<T, KeeperFault>
    ensures cause { HasCause faults.old faults.new result }
    ensures same { result ≡ answered answer }
{
    match answer {
        Ok(value) => Ok(value),
        Err(error) => {
            let fault = fault_of(&error);
            if fault == KeeperFault::Failed {
                *faults = faults.saturating_add(1);
            }
            Err(fault)
        }
    }
}

/// What a refusal is: want of memory, or a failure.
pub(crate) fn fault_of(error: &Error) -> KeeperFault
    ensures { result ≡ fault_of error.now }
{
    match error {
        Error::SqliteFailure(ErrorCode::OutOfMemory) => KeeperFault::Memory,
        _ => KeeperFault::Failed,
    }
}
