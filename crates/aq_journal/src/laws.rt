//! What a journal's bytes mean, both ways.
ghost use Rattle.std.specs.Prelude.{◌≡◌, ◌≢◌, ◌⊎◌, ◌≤◌, ◌<◌, ◌^◌, ℕ, List, [], length, get_or, Some};
ghost use Rattle.std.specs.List.{AllByRecursion};
ghost use Rattle.aq_rules.specs.Kept.RowChanges.{RowChange};
ghost use Rattle.aq_journal.specs.JournalFormat.{BatchFits, batch_in, body_of, batches_in, journal_of, IsJournalOf};

/// A batch that is written is read back, and what is read as one was written so.
pub fn batches_are_read_back()
    ensures again { (batch : List RowChange) → BatchFits batch → batch_in (body_of batch) ≡ Some batch }
    ensures only { (body : List ℕ) (batch : List RowChange) → ((i : ℕ) → get_or body i 0 < 256) → length body < 2 ^ 32 → batch_in body ≡ Some batch → (body ≡ body_of batch) × BatchFits batch }
{}

/// A journal is read back, and what is read as one is empty, with at most nine bytes, or was written so: its
/// batches' frames, and then a gate that is not open, whatever stands behind it.
pub fn journals_are_read_back()
    ensures again { (batches : List (List RowChange)) (gate : ℕ) (rest : List ℕ) → AllByRecursion BatchFits batches → gate ≢ 1 → batches_in (journal_of batches gate rest) ≡ Some batches }
    ensures only { (file : List ℕ) (batches : List (List RowChange)) → ((i : ℕ) → get_or file i 0 < 256) → batches_in file ≡ Some batches → ((length file ≤ 9) × (batches ≡ [])) ⊎ IsJournalOf file batches }
{}
