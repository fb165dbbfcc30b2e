//! What the sorted list, the greatest value and the latest record are.
#![tactic(auto)]

ghost use Rattle.std.specs.Prelude.{◌≡◌, ℕ, ◌+◌, ◌<◌, ◌≤◌, ℤ, ◌≤ℤ◌, int_lt, false, List, [], length, slice_index_or, All, Contains, IsPermutation, MatchOption};
ghost use Rattle.aq_rules.specs.Lists.{greatest, latest, ranked};
ghost use Rattle.aq_rules.specs.Office.Designation.{Designation};

/// The ranked list has the given values, each as often, and no value stands before a greater one.
pub fn ranked_values_are_sorted_downwards()
    ensures values { (values : List ℤ) → IsPermutation values (ranked values) }
    ensures falls { (values : List ℤ) (k : ℕ) (d : ℤ)
        → k + 1 < length (ranked values)
        → int_lt (slice_index_or (ranked values) k d) (slice_index_or (ranked values) (k + 1) d) ≡ false }
{}

/// The order in which the values are given does not matter.
pub fn ranking_forgets_the_order()
    ensures { (a b : List ℤ) → IsPermutation a b → ranked a ≡ ranked b }
{}

/// A list of the values that falls is the ranked list.
pub fn ranked_list_is_the_only_one()
    ensures { (values sorted : List ℤ)
        → IsPermutation values sorted
        → ((k : ℕ) (d : ℤ) → k + 1 < length sorted → int_lt (slice_index_or sorted k d) (slice_index_or sorted (k + 1) d) ≡ false)
        → ranked values ≡ sorted }
{}

/// The greatest value is one of the values, and none is above it; no values have none.
pub fn greatest_is_one_of_the_values()
    ensures { (values : List ℤ)
        → MatchOption (greatest values) (values ≡ []) (λ top. Contains values top × All (λ v. v ≤ℤ top) values) }
{}

/// The latest of some designations is one of them, and none starts later.
pub fn latest_is_one_of_the_records()
    ensures { (designations : List Designation)
        → MatchOption (latest (λ (d : Designation). d.from) designations) (designations ≡ [])
        (λ last. Contains designations last × All (λ (d : Designation). d.from ≤ last.from) designations) }
{}
