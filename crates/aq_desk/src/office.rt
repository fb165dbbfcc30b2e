//! The office that a command opens.
ghost use Rattle.std.specs.Prelude.{◌≡◌, false, IfErr, IfOk, IfSome, OnOk};
ghost use Rattle.aq_rules.specs.Kept.Migration.{are_version_1};
ghost use Rattle.aq_desk.specs.Office.{HasOpened, IsUnopened, OnlyMigrates};

use crate::stop::Stop;
use aq_book::{Book, OpenFault, migrate};
use aq_keeper::{Keeper, Row};
use aq_rows::Opened;
use aq_rules::kept::migration::{
    migrated_rows_are_an_offices, the_batch_of_a_migration_gives_the_migrated_rows,
};
use aq_rules::kept::tables::{first_damaged_row_is_named, rows_are_those_of_their_office};
use std::alloc::Global;

/// The book of the office whose rows the keeper hands out. Rows of version 1 are migrated first.
pub(crate) fn open<K: Keeper>(alloc: Global, keeper: &mut K) -> Result<Book, Stop>
    ensures opened { IfOk result (λ book. HasOpened book (K.seen keeper.old).tables
        (K.seen keeper.new).tables) }
    ensures stopped { IfErr result (IsUnopened (K.seen keeper.old).tables
        (K.seen keeper.new).tables (K.seen keeper.old).faults (K.seen keeper.new).faults) }
    ensures steady { OnOk result ((K.seen keeper.new).faults ≡ (K.seen keeper.old).faults) }
    ensures only_migrates { OnlyMigrates (K.seen keeper.old) (K.seen keeper.new) }
{
    // The rows are gone before the book fills its cells.
    let opened = {
        let rows = keeper.read_all(alloc)?;
        open_rows(alloc, rows.as_slice(), keeper)?
    };
    Ok(Book::over(alloc, opened)?)
}

/// The office of rows that the keeper handed out. It is called again only if they are of version 1.
fn open_rows<K: Keeper>(alloc: Global, rows: &[Row], keeper: &mut K) -> Result<Opened, Stop>
    requires { IfSome (K.seen keeper.old).tables (λ told. rows.now ≡ told) }
    ensures opened { IfOk result (λ opened. HasOpened opened (K.seen keeper.old).tables
        (K.seen keeper.new).tables) }
    ensures stopped { IfErr result (IsUnopened (K.seen keeper.old).tables
        (K.seen keeper.new).tables (K.seen keeper.old).faults (K.seen keeper.new).faults) }
    ensures steady { OnOk result ((K.seen keeper.new).faults ≡ (K.seen keeper.old).faults) }
    ensures untouched { are_version_1 rows.now ≡ false → keeper.new ≡ keeper.old }
{
    first_damaged_row_is_named();
    migrated_rows_are_an_offices();
    rows_are_those_of_their_office();
    match aq_rows::open(alloc, rows) {
        Ok(opened) => Ok(opened),
        Err(OpenFault::Damaged(_)) => migrate_rows(alloc, rows, keeper),
        Err(OpenFault::Memory) => Err(Stop::Memory),
    }
}

/// The office of rows, of which those of version 1 are migrated by one commit.
fn migrate_rows<K: Keeper>(alloc: Global, rows: &[Row], keeper: &mut K) -> Result<Opened, Stop>
    requires { IfSome (K.seen keeper.old).tables (λ told. rows.now ≡ told) }
    ensures opened { IfOk result (λ opened. HasOpened opened (K.seen keeper.old).tables
        (K.seen keeper.new).tables) }
    ensures stopped { IfErr result (IsUnopened (K.seen keeper.old).tables
        (K.seen keeper.new).tables (K.seen keeper.old).faults (K.seen keeper.new).faults) }
    ensures steady { OnOk result ((K.seen keeper.new).faults ≡ (K.seen keeper.old).faults) }
    ensures untouched { are_version_1 rows.now ≡ false → keeper.new ≡ keeper.old }
{
    first_damaged_row_is_named();
    migrated_rows_are_an_offices();
    rows_are_those_of_their_office();
    the_batch_of_a_migration_gives_the_migrated_rows();
    let Some(migration) = migrate(alloc, rows)? else {
        return Ok(aq_rows::open(alloc, rows)?);
    };
    keeper.commit(alloc, migration.batch())?;
    Ok(aq_rows::open(alloc, migration.rows())?)
}
