//! What a crash leaves after any calls of a keeper that has prepared its tables.
ghost use Rattle.std.specs.Prelude.{◌≡◌, ◌≢◌, ◌∷◌, ◌++◌, ℕ, ℤ, pos, List, Option, Some, true};
ghost use Rattle.std.specs.List.{AllByRecursion};
ghost use Rattle.sqlite.specs.Held.{state};
ghost use Rattle.aq_rules.specs.Office.Office.{Office};
ghost use Rattle.aq_rules.specs.Kept.Rows.{Row, LoadRow};
ghost use Rattle.aq_rules.specs.Kept.RowChanges.{RowChange, row_batch};
ghost use Rattle.aq_rules.specs.Kept.Migration.{migration_batch};
ghost use Rattle.aq_tables.specs.Crash.{Attempt, Kept};
ghost use Rattle.aq_sqlite.specs.Crash.{AreCalled, IsKept, LeavesOnly, kept_through, last_after};
ghost use Rattle.aq_sqlite.specs.Loads.{HasLoad, Spares, SparesCall, with_load};

use crate::sqlite_keeper::SqliteKeeper;
use sqlite::Alter;

/// After any calls of a keeper, whether they are acknowledged or fail, a crash leaves the rows of the last
/// batch that was acknowledged, or of one that failed since. So the row of an acknowledged load is in all
/// that a crash may leave, if the batches since have no change of it.
pub fn acknowledged_loads_outlive_a_crash<S: Alter + Drop>(keeper: &SqliteKeeper<S>)
    ensures rows { (kept : Kept) (calls : List (Option Attempt × _)) → IsKept kept (state S.Store keeper.now.connection) → AreCalled S.Store keeper.now.connection calls
        → IsKept (kept_through kept calls) (state S.Store (last_after keeper.now.connection calls)) }
    ensures loads { (row : LoadRow) (batch : List RowChange) (before after : List (Option Attempt × _)) (kept : Kept) (held : _) → IsKept kept (state S.Store keeper.now.connection)
        → AreCalled S.Store keeper.now.connection (before ++ (Some (record { batch = with_load batch row; is_done = true }), held) ∷ after)
        → AllByRecursion (λ call. SparesCall row.number call.0) after
        → LeavesOnly (HasLoad row) (state S.Store (last_after keeper.now.connection (before ++ (Some (record { batch = with_load batch row; is_done = true }), held) ∷ after))) }
{}

/// The batches of other loads and of migrations have no change of the row of a load.
pub fn batches_spare_other_loads()
    ensures loads { (office : Office) (number : ℕ) (digest body : List ℕ) (other : ℤ) → pos number ≢ other → Spares other (row_batch office number digest body) }
    ensures migrations { (rows : List Row) (number : ℤ) → Spares number (migration_batch rows) }
{}
