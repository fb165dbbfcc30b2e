//! What a crash leaves after any calls of a keeper.
ghost use Rattle.std.specs.Prelude.{ℕ, Bool, List};
ghost use Rattle.aq_rules.specs.Kept.Rows.{Row};
ghost use Rattle.aq_journal.specs.Disks.{IfTells};
ghost use Rattle.aq_journal.specs.JournalFormat.{tables_in};
ghost use Rattle.aq_journal.specs.Keeping.{IsCertain, IsLeft};
ghost use Rattle.aq_journal.specs.Runs.{Call, AreCalls, AllSpare, Passes, after_all, told_by};

use crate::disk::Disk;
use crate::journal_keeper::JournalKeeper;

/// Take a test that the tables pass after a call that answered Ok, as that the row of a load stands. If it
/// is passed with each batch that is tried from then on, whether it is acknowledged or fails, a crash at any
/// moment from then on, during a call or between two, leaves a journal whose tables pass it, if the disk tells its
/// bytes still.
pub fn what_is_acknowledged_outlives_a_crash<D: Disk + Drop>(keeper: &JournalKeeper<D>)
    ensures { (test : List Row → Bool) (calls : List (Call × _)) → IsCertain keeper.now.gate (D.seen keeper.now.disk) → IsLeft D.Disk keeper.now.disk keeper.now.gate → Passes test (told_by D.Disk keeper.now)
        → AreCalls D.Disk keeper.now calls → AllSpare test calls → IfTells (D.seen (after_all keeper.now calls).disk) (
        (image : List ℕ) → D.left_since (after_all keeper.now calls).disk (D.moment keeper.now.disk) image → Passes test (tables_in image)) }
{}
