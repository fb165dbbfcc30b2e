//! The migration of rows of version 1, which kept no methods.
ghost use Rattle.std.specs.Prelude.{◌≡◌, false, Some, IfErr, IfOk};
ghost use Rattle.aq_rules.specs.Kept.Rows.{are_office_rows};
ghost use Rattle.aq_rules.specs.Kept.Migration.{can_be_opened, opening_damage};
ghost use Rattle.aq_book.specs.Migrating.{IsFound, IsMigrationFault, Migrates, is_opened};

use crate::batch::RowChanges;
use crate::version_1::{has_old_tables, migrated, migration_batch};
use aq_base::Memory;
use aq_keeper::{Row, RowChange, Rows};
use aq_rows::{OpenFault, Place, open, place_of};
use std::alloc::Global;

/// What has to be changed where rows of version 1 are kept, and the rows as they are then.
#[derive(Drop)]
pub struct Migration {
    rows: Rows,
    batch: RowChanges,
}

impl Migration {
    /// The changes of rows, as a keeper takes them: all drops by key, and then all puts by key. It takes no
    /// memory.
    pub fn batch(&self) -> &[RowChange]
        ensures { result.now ≡ self.now.batch }
    {
        self.batch.as_slice()
    }

    /// The migrated rows, in the order of tables and keys. They are an office's. It takes no memory.
    pub fn rows(&self) -> &[Row]
        ensures { result.now ≡ self.now.rows }
    {
        self.rows.as_slice()
    }
}

/// The migration of rows of version 1; an office's rows need none. Of other rows the first one is named that
/// cannot be opened with those before it. It opens the rows, and if that fails the migrated rows; of other
/// rows it does so again for some twenty fronts, to find the place by halves.
pub fn migrate(alloc: Global, rows: &[Row]) -> Result<Option<Migration>, OpenFault>
    ensures migrated { IfOk result (Migrates rows.now) }
    ensures damaged { IfErr result (IsMigrationFault rows.now) }
{
    match find(alloc, rows)? {
        Found::Office => Ok(None),
        Found::Version1(office) => {
            let batch = migration_batch(alloc, rows)?;
            Ok(Some(Migration {
                rows: office,
                batch,
            }))
        }
        Found::Neither => Err(OpenFault::Damaged(first_unopened(alloc, rows)?)),
    }
}

/// What rows are.
#[derive(Drop)]
pub(crate) enum Found {
    /// An office's.
    Office,
    /// Of version 1: the migrated rows are these.
    Version1(Rows),
    Neither,
}

impl Found {
    fn can_be_opened(&self) -> bool
        ensures { result ≡ is_opened self.now }
    {
        match self {
            Found::Office | Found::Version1(_) => true,
            Found::Neither => false,
        }
    }
}

fn find(alloc: Global, rows: &[Row]) -> Result<Found, Memory>
    ensures { IfOk result (IsFound rows.now) }
{
    if are_office_rows(alloc, rows)? {
        return Ok(Found::Office);
    }
    if !has_old_tables(rows) {
        return Ok(Found::Neither);
    }
    let office = migrated(alloc, rows)?;
    if are_office_rows(alloc, office.as_slice())? {
        Ok(Found::Version1(office))
    } else {
        Ok(Found::Neither)
    }
}

/// Whether rows are an office's.
fn are_office_rows(alloc: Global, rows: &[Row]) -> Result<bool, Memory>
    ensures { IfOk result (λ are. are ≡ are_office_rows rows.now) }
{
    match open(alloc, rows) {
        Ok(_) => Ok(true),
        Err(OpenFault::Damaged(_)) => Ok(false),
        Err(OpenFault::Memory) => Err(Memory),
    }
}

/// The place of the first row that cannot be opened with those before it, of rows that cannot be opened.
/// The rows before `good` can be, and those before `bad` cannot.
fn first_unopened(alloc: Global, rows: &[Row]) -> Result<Place, Memory>
    requires { can_be_opened rows.now ≡ false }
    ensures { IfOk result (λ place. opening_damage rows.now ≡ Some place) }
{
    let mut good = 0;
    let mut bad = rows.len();
    while bad - good > 1 {
        let middle = good + (bad - good) / 2;
        if can_be_opened(alloc, &rows[..middle])? {
            good = middle;
        } else {
            bad = middle;
        }
    }
    Ok(place_of(&rows[..good], &rows[good]))
}

fn can_be_opened(alloc: Global, rows: &[Row]) -> Result<bool, Memory>
    ensures { IfOk result (λ can. can ≡ can_be_opened rows.now) }
{
    let found = find(alloc, rows)?;
    Ok(found.can_be_opened())
}
