//! A keeper that is opened at its first call, and tells its tables from its first moment.
ghost use Rattle.std.specs.Prelude.{◌≡◌, Err};
ghost use Rattle.aq_keeper.specs.Told.{HasCause};
ghost use Rattle.aq_keeper.specs.declared.keeper.KeeperFault.TheVariants.{Failed};

use crate::sqlite_keeper::{SqliteKeeper, gone};
use aq_keeper::{Keeper, KeeperFault, RowChange, Rows};
use sqlite::Alter;
use std::alloc::Global;
use std::snapshot::Snapshot;

/// A store that others may have once it is shut.
pub trait Closes: Alter + Drop {
    /// Gives up what it has, behind the rollback that gives it back.
    fn shut(self);
}

/// What opens a keeper, and knows which rows it finds.
pub trait Opener<S: Alter + Drop> {
    ghost use Rattle.std.specs.Prelude.{◌≡◌, List, IfOk, IfSome};
    ghost use Rattle.sqlite.specs.Held.{state};
    ghost use Rattle.aq_rules.specs.Kept.Rows as the_rows;
    ghost use Rattle.aq_sqlite.specs.Telling.{told};

    /// The rows of the tables before they are opened.
    ghost rows: { List the_rows.Row };

    /// Opens the keeper, with its tables prepared.
    fn open(self) -> Result<SqliteKeeper<S>, KeeperFault>
        ensures { IfOk result (λ keeper. IfSome (told keeper.prepared (state S.Store keeper.connection)) (λ found. rows ≡ found)) };
}

/// What opens a keeper, until it has, and the keeper from then on.
#[derive(Drop)]
pub struct Source<S: Closes, O: Opener<S> + Drop> {
    opener: Option<O>,
    keeper: Option<SqliteKeeper<S>>,
}

/// A keeper that is opened at its first call. It tells the rows that its opener knows of, and from the
/// opening on those of the keeper that is opened. An opening that is refused ends the telling, and is not
/// tried again. A fault in a later call may shut what was opened: then each call fails, until the program is
/// started anew.
///
/// From the opening until its tables are let go, or it is dropped, nobody else has them.
pub struct LateKeeper<S: Closes, O: Opener<S> + Drop> {
    source: Source<S, O>,
    /// What it was as it let its tables go.
    left: Option<Snapshot<Source<S, O>>>,
    faults: u64,
    commits: u64,
}

impl<S: Closes, O: Opener<S> + Drop> Drop for LateKeeper<S, O> {
    fn drop(self) {
        let LateKeeper {
            source,
            left: _,
            faults: _,
            commits: _,
        } = self;
        source.close();
    }
}

impl<S: Closes, O: Opener<S> + Drop> Source<S, O> {
    ghost use Rattle.std.specs.Prelude.{◌≡◌, None, OnOk};
    ghost use Rattle.aq_keeper.specs.Told.{HasCause, Stays};
    ghost use Rattle.aq_sqlite.specs.Late.{tells};

    /// Opens the keeper, unless that is done.
    fn open(&mut self) -> Result<(), KeeperFault>
        ensures tells { Stays (tells S.Store O.rows self.old.opener self.old.keeper) (tells S.Store O.rows self.new.opener self.new.keeper) }
        ensures opened { OnOk result (self.new.opener ≡ None) }
    {
        let Some(opener) = self.opener.take() else {
            return Ok(());
        };
        self.keeper = None;
        self.keeper = Some(opener.open()?);
        Ok(())
    }

    /// Closes the keeper, if it was opened.
    fn close(self) {
        let Source { opener: _, keeper } = self;
        if let Some(keeper) = keeper {
            keeper.into_connection().into_store().shut();
        }
    }
}

impl<S: Closes, O: Opener<S> + Drop> LateKeeper<S, O> {
    ghost use Rattle.std.specs.Prelude.{◌≡◌, Some, None};

    /// The keeper that this opens at its first call.
    pub fn new(opener: O) -> LateKeeper<S, O>
        ensures { result ≡ record { source = record { opener = Some opener; keeper = None }; left = None; faults = 0; commits = 0 } }
    {
        LateKeeper {
            source: Source {
                opener: Some(opener),
                keeper: None,
            },
            left: None,
            faults: 0,
            commits: 0,
        }
    }
}

impl<S: Closes, O: Opener<S> + Drop> Keeper for LateKeeper<S, O> {
    ghost use Rattle.std.specs.Prelude.{◌≡◌};
    ghost use Rattle.aq_sqlite.specs.Late.{is_still_held, remembered, tells};

    ghost seen = { λ keeper. record {
      tables = remembered keeper.left (λ left. tells S.Store O.rows left.value.opener left.value.keeper) (tells S.Store O.rows keeper.source.opener keeper.source.keeper);
      faults = keeper.faults;
      commits = keeper.commits;
      is_held = is_still_held keeper.left;
    } };

    fn read_all(&mut self, alloc: Global) -> Result<Rows, KeeperFault> {
        if self.left.is_some() {
            return gone(&mut self.faults);
        }
        if let Err(fault) = self.source.open() {
            return counted(&mut self.faults, Err(fault));
        }
        let rows = match &mut self.source.keeper {
            Some(keeper) => keeper.read_all(alloc),
            None => Err(KeeperFault::Failed),
        };
        counted(&mut self.faults, rows)
    }

    fn commit(&mut self, alloc: Global, batch: &[RowChange]) -> Result<(), KeeperFault> {
        self.commits = self.commits.saturating_add(1);
        if self.left.is_some() {
            return gone(&mut self.faults);
        }
        if let Err(fault) = self.source.open() {
            return counted(&mut self.faults, Err(fault));
        }
        let made = match &mut self.source.keeper {
            Some(keeper) => keeper.commit(alloc, batch),
            None => Err(KeeperFault::Failed),
        };
        counted(&mut self.faults, made)
    }

    fn let_go(&mut self) {
        if self.left.is_some() {
            return;
        }
        self.left = Some(Snapshot::of(&self.source));
        self.source.opener = None;
        if let Some(keeper) = self.source.keeper.take() {
            keeper.into_connection().into_store().shut();
        }
    }
}

/// An answer as it is, of which a failure is counted.
fn counted<T>(faults: &mut u64, answer: Result<T, KeeperFault>) -> Result<T, KeeperFault>
    ensures cause { HasCause faults.old faults.new result }
    ensures same { result ≡ answer }
{
    if let Err(KeeperFault::Failed) = &answer {
        *faults = faults.saturating_add(1);
    }
    answer
}
