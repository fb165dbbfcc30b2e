//! The 98th percentile: worked out, and what it is.
#![tactic(auto)]

ghost use Rattle.std.specs.Prelude.{◌≡◌, ℕ, ◌<◌, ◌≤◌, ◌∷◌, ◌++◌, replicate, length, count_by, Some, None, IsSome, IsPermutation, List, ℤ, pos, int_lt, int_le, [], map};
ghost use Rattle.aq_rules.specs.Particles.Percentile.{daily_value, percentile, rank_of};

/// The counted samples alone give the rank, and all values are ranked, unscheduled ones too. First for
/// 1 to 50 counted samples, second to 100, and so on to the eighth.
pub fn ranks_of_counted_samples()
    ensures first { percentile (pos 300 ∷ pos 200 ∷ replicate 48 (pos 100)) 50 ≡ Some (pos 300) }
    ensures second { percentile (replicate 3 (pos 400) ++ pos 300 ∷ pos 200 ∷ replicate 49 (pos 100)) 51 ≡ Some (pos 400) }
    ensures unscheduled { percentile (pos 300 ∷ pos 200 ∷ replicate 49 (pos 100)) 50 ≡ Some (pos 300) }
    ensures ranks_step_at_fifties { map rank_of (1 ∷ 50 ∷ 51 ∷ 100 ∷ 101 ∷ 150 ∷ 151 ∷ 200 ∷ 201 ∷ 250 ∷ 251 ∷ 300 ∷ 301 ∷ 350 ∷ 351 ∷ 366 ∷ [])
        ≡ 1 ∷ 1 ∷ 2 ∷ 2 ∷ 3 ∷ 3 ∷ 4 ∷ 4 ∷ 5 ∷ 5 ∷ 6 ∷ 6 ∷ 7 ∷ 7 ∷ 8 ∷ 8 ∷ [] }
{}

/// The mean of three percentiles is rounded, and not each of them: 35.5, 35.5 and 35.4 have 35.47, and
/// 34.5 has itself, which is rounded up.
pub fn percentiles_are_rounded_together()
    ensures below { daily_value (Some (pos 355)) (Some (pos 355)) (Some (pos 354)) ≡ Some (pos 35) }
    ensures half { daily_value (Some (pos 345)) (Some (pos 345)) (Some (pos 345)) ≡ Some (pos 35) }
    ensures missing { daily_value (Some (pos 355)) None (Some (pos 354)) ≡ None }
{}

/// The order of the values does not matter, and beside them only the number of counted samples does.
pub fn percentile_forgets_the_order()
    ensures { (a b : List ℤ) (counted : ℕ) → IsPermutation a b → percentile a counted ≡ percentile b counted }
{}

/// Fewer values than the rank are above the percentile, and as many as the rank are it or above. It is
/// the only value with that, and it is there with as many values as the rank.
pub fn percentile_is_the_value_of_its_rank()
    ensures above { (values : List ℤ) (counted : ℕ) (p : ℤ) → percentile values counted ≡ Some p → count_by (λ v. int_lt p v) values < rank_of counted }
    ensures at_or_above { (values : List ℤ) (counted : ℕ) (p : ℤ) → percentile values counted ≡ Some p → rank_of counted ≤ count_by (λ v. int_le p v) values }
    ensures only { (values : List ℤ) (counted : ℕ) (p : ℤ) → 0 < counted
        → count_by (λ v. int_lt p v) values < rank_of counted
        → rank_of counted ≤ count_by (λ v. int_le p v) values
        → percentile values counted ≡ Some p }
    ensures some { (values : List ℤ) (counted : ℕ) → 0 < counted → rank_of counted ≤ length values → IsSome (percentile values counted) }
    ensures none { (values : List ℤ) → percentile values 0 ≡ None }
{}
