//! What the answers about bags are.
ghost use Rattle.std.specs.Prelude.{◌≡◌, List, [], ◌∷◌, ℤ, pos, neg_ℤ, length, map, replicate, sum_by, filter_map, slice_index_or, IsPermutation, Some, None};
ghost use Rattle.aq_rules.specs.Kept.Summaries.{eight_greatest};
ghost use Rattle.aq_rules.specs.Lists.{greatest, ranked};
ghost use Rattle.aq_rules.specs.Ozone.OzoneYear.{fourth_of};
ghost use Rattle.aq_rules.specs.Particles.Pm10Estimate.{sampled_strata, sixtieths_of};
ghost use Rattle.aq_agg.specs.Ranks.{top_eight};
ghost use Rattle.aq_agg.specs.StratumSums.{number_and_sixtieths, stratum_with};
ghost use Rattle.aq_agg.specs.Sums.{sum_and_number};
ghost use Rattle.aq_agg.specs.Tallies.{BagAt};

use crate::aggregate::Aggregate;

/// Values of 41 and 44 thousandths have the sum 85; one below zero takes away from it. Equal values
/// each have a place of their own among the eight greatest, a ninth value has none, and where there
/// are fewer the last places are empty. The greatest of values below zero is below zero, and an empty
/// bag has none. Fifteen strata of one sample, of which one exceeds, have 60 sixtieths, and 30 if the
/// exceeding one has a sample more; samples are not pooled over strata: one of two and none of one are
/// 30 sixtieths, and not 20.
#[tactic(auto, unfolding(aq_rules::specs::Lists::ranked))]
pub fn answers_of_bags()
    ensures sums { sum_and_number (pos 41 ∷ pos 44 ∷ []) ≡ (pos 85, 2) }
    ensures sum_of_none { sum_and_number [] ≡ (pos 0, 0) }
    ensures sum_below_zero { sum_and_number (pos 41 ∷ neg_ℤ (pos 50) ∷ []) ≡ (neg_ℤ (pos 9), 2) }
    ensures equal_ones_each { top_eight (pos 70 ∷ pos 71 ∷ pos 60 ∷ pos 71 ∷ pos 75 ∷ [])
        ≡ Some (pos 75) ∷ Some (pos 71) ∷ Some (pos 71) ∷ Some (pos 70) ∷ Some (pos 60) ∷ None ∷ None ∷ None ∷ [] }
    ensures ninth_has_no_place { top_eight (pos 200 ∷ pos 300 ∷ pos 90 ∷ replicate 6 (pos 100))
        ≡ Some (pos 300) ∷ Some (pos 200) ∷ replicate 6 (Some (pos 100)) }
    ensures greatest_below_zero { greatest (neg_ℤ (pos 50) ∷ neg_ℤ (pos 30) ∷ []) ≡ Some (neg_ℤ (pos 30)) }
    ensures greatest_of_none { greatest [] ≡ None }
    ensures single_samples { number_and_sixtieths ((1, 1) ∷ replicate 14 (0, 1)) ≡ (15, 60) }
    ensures one_of_two { number_and_sixtieths ((1, 2) ∷ replicate 14 (0, 1)) ≡ (15, 30) }
    ensures not_pooled { number_and_sixtieths ((1, 2) ∷ (0, 1) ∷ []) ≡ (2, 30) }
    ensures parts { number_and_sixtieths ((1, 3) ∷ (3, 4) ∷ (2, 5) ∷ (5, 6) ∷ []) ≡ (4, 139) }
{}

/// The places that have a value are the eight greatest values that are kept of a year.
pub fn top_eight_are_the_eight_greatest()
    ensures { (bag : List ℤ) → filter_map (λ place. place) (top_eight bag) ≡ eight_greatest bag }
{}

/// The fourth place has the fourth highest value of a year, if there is one.
pub fn fourth_of_the_top_eight()
    ensures { (bag : List ℤ) → slice_index_or (top_eight bag) 3 None ≡ fourth_of (ranked bag) }
{}

/// The strata with samples, put in by what exceeds of them and how many they are, have the number and
/// the sixtieths that the quarter has.
pub fn strata_give_what_their_samples_give()
    ensures { (strata : List (List ℤ)) → number_and_sixtieths (map stratum_with (sampled_strata strata))
        ≡ (length (sampled_strata strata), sum_by sixtieths_of (sampled_strata strata)) }
{}

/// The order of the bag under a key of a tally says nothing.
pub fn bags_of_a_tally_have_no_order<K: Ord + Copy, A: Aggregate>()
    ensures { (key : K) (a b : List A.Item) (entries : List (K × A)) → IsPermutation a b
        → BagAt K.cmp A.is_of key a entries → BagAt K.cmp A.is_of key b entries }
{}
