//! Whether no two rows of a table have the same rowid.
ghost use Rattle.std.specs.Prelude.{◌≡◌, ◌&&◌, true, false, IfOk, IfErr, OnOk};
ghost use Rattle.sqlite.specs.State.{HasCleanDisk, IsUnchanged, KeepsCommit, Survives};
ghost use Rattle.sqlite.specs.Held.{state};
ghost use Rattle.aq_tables.specs.Rowids.{AreApart, ShowsRising, is_after};
ghost use Rattle.aq_tables.specs.Queries.{IsBareText};
ghost use Rattle.aq_tables.specs.Texts.{rowids_text};
ghost use Rattle.aq_tables.specs.Told.{ours_of};
ghost use Rattle.aq_tables.specs.Why.{IsCaused};
ghost use Rattle.aq_tables.specs.WhyMade.{DoesNotRise, RefusesRowids};

use crate::reading::{Table, integer_at};
use sqlite::{Alter, Connection, Error, ErrorCode};

/// All rowids in their order, as a query.
fn rowids_of(table: Table) -> &'static str
    ensures { result.now ≡ rowids_text table }
{
    match table {
        Table::Records => "SELECT rowid FROM records ORDER BY rowid",
        Table::Observations => "SELECT rowid FROM observations ORDER BY rowid",
        Table::Loads => "SELECT rowid FROM loads ORDER BY rowid",
        Table::Second => "SELECT rowid FROM observations2 ORDER BY rowid",
        Table::Third => "SELECT rowid FROM observations3 ORDER BY rowid",
    }
}

/// Whether numbers still rise with this one, of which the last one was that, if there was one.
fn still_rise(rise: bool, last: Option<i64>, number: &i64) -> bool
    ensures { result ≡ (rise && is_after last number.now) }
{
    match last {
        Some(last) => rise && last < *number,
        None => rise,
    }
}

/// Whether the numbers that a query shows in its first column rise.
fn do_rise<S: Alter>(conn: &mut Connection<S>, text: &str) -> Result<bool, Error>
    requires { IsBareText text.now }
    ensures rise { HasCleanDisk (state S.Store conn.new) → IfOk result (λ rise. rise ≡ true → ShowsRising text.now (state S.Store conn.old).now) }
    ensures same { HasCleanDisk (state S.Store conn.new) → OnOk result (IsUnchanged (state S.Store conn.old) (state S.Store conn.new)) }
    ensures kept { HasCleanDisk (state S.Store conn.new) → KeepsCommit (state S.Store conn.old) (state S.Store conn.new) }
    ensures falls { HasCleanDisk (state S.Store conn.new) → IfOk result (λ rise. rise ≡ false → DoesNotRise text.now (state S.Store conn.old).now) }
    ensures why { HasCleanDisk (state S.Store conn.new) → IfErr result (IsCaused (RefusesRowids text.now (state S.Store conn.old)) (state S.Store conn.old) (state S.Store conn.new)) }
    ensures mode { (state S.Store conn.old).in_transaction ≡ false → (state S.Store conn.new).in_transaction ≡ false }
    ensures crash { Survives (state S.Store conn.old) (state S.Store conn.new) (λ _. ⊥) }
{
    let mut last = None;
    let mut rise = true;
    let mut rows = conn.query(text, &[])?;
    'rows: for _taken in 0..u64::MAX {
        let Some(row) = rows.next()? else {
            return Ok(rise);
        };
        let number = integer_at(row, 0)?;
        rise = still_rise(rise, last, &number);
        last = Some(number);
    }
    Err(Error::SqliteFailure(ErrorCode::TooBig))
}

/// Whether no two rows of a table have the same rowid.
pub(crate) fn are_apart<S: Alter>(conn: &mut Connection<S>, table: Table) -> Result<bool, Error>
    ensures apart { HasCleanDisk (state S.Store conn.new) → IfOk result (λ apart. apart ≡ true → AreApart (ours_of table).form (state S.Store conn.old).now) }
    ensures same { HasCleanDisk (state S.Store conn.new) → OnOk result (IsUnchanged (state S.Store conn.old) (state S.Store conn.new)) }
    ensures kept { HasCleanDisk (state S.Store conn.new) → KeepsCommit (state S.Store conn.old) (state S.Store conn.new) }
    ensures falls { HasCleanDisk (state S.Store conn.new) → IfOk result (λ apart. apart ≡ false → DoesNotRise (rowids_text table) (state S.Store conn.old).now) }
    ensures why { HasCleanDisk (state S.Store conn.new) → IfErr result (IsCaused (RefusesRowids (rowids_text table) (state S.Store conn.old)) (state S.Store conn.old) (state S.Store conn.new)) }
    ensures mode { (state S.Store conn.old).in_transaction ≡ false → (state S.Store conn.new).in_transaction ≡ false }
    ensures crash { Survives (state S.Store conn.old) (state S.Store conn.new) (λ _. ⊥) }
{
    do_rise(conn, rowids_of(table))
}
