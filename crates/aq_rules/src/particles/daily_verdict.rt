//! The verdict on the 24-hour PM2.5 standard, with its substitution test, worked out.
#![tactic(auto)]

ghost use Rattle.std.specs.Prelude.{◌≡◌, true, false, ◌∷◌, [], replicate, Some, None, pos};
ghost use Rattle.aq_base.specs.declared.standard.Verdict.TheVariants.{Met, NotMet, Incomplete, NoValue};
ghost use Rattle.aq_rules.specs.Particles.DailyVerdict.{daily_dv, is_daily_year};
ghost use Rattle.aq_rules.specs.Particles.ParticleExamples.{no_sample, one_sample, year_of_percentile, year_of_two_ranks, year_with_first};

/// Percentiles of 35.4, 35.5 and 35.6 have a mean of 35.5, which rounds to 36. Twelve copies of 10.0
/// for a quarter with a capture of 60 leave the percentile; with a capture of 49 there is no test. 35
/// meets the standard. The copies count as samples: with 11 of them 100 counted samples are 111, and
/// the percentile is the third of the values and no more the second.
pub fn percentiles_of_three_years()
    ensures mean_of_percentiles_is_rounded_once { daily_dv (year_of_percentile 354 ∷ year_of_percentile 355 ∷ year_of_percentile 356 ∷ [])
        ≡ record { value = Some (pos 36); test = None; valid = true ∷ true ∷ true ∷ []; verdict = NotMet } }
    ensures passes { daily_dv (year_of_percentile 340 ∷ year_of_percentile 340 ∷ year_with_first 30 18 ∷ [])
        ≡ record { value = Some (pos 34); test = Some (pos 34); valid = true ∷ true ∷ false ∷ []; verdict = Met } }
    ensures too_few { daily_dv (year_of_percentile 340 ∷ year_of_percentile 340 ∷ year_with_first 90 44 ∷ [])
        ≡ record { value = Some (pos 34); test = None; valid = true ∷ true ∷ false ∷ []; verdict = Incomplete } }
    ensures at { daily_dv (replicate 3 (year_of_percentile 350))
        ≡ record { value = Some (pos 35); test = None; valid = true ∷ true ∷ true ∷ []; verdict = Met } }
    ensures above { daily_dv (replicate 3 (year_of_percentile 360))
        ≡ record { value = Some (pos 36); test = None; valid = true ∷ true ∷ true ∷ []; verdict = NotMet } }
    ensures copies_count_as_samples { daily_dv (year_of_percentile 351 ∷ year_of_percentile 351 ∷ year_of_two_ranks ∷ [])
        ≡ record { value = Some (pos 35); test = Some (pos 34); valid = true ∷ true ∷ false ∷ []; verdict = Met } }
{}

/// One creditable sample is enough for a year whose percentile, rounded, or whose design value is above
/// 35, also if that sample is excluded. A missing percentile is above nothing.
pub fn one_sample_is_enough_above_the_level()
    ensures value { is_daily_year (Some (pos 36)) None one_sample ≡ true }
    ensures percentile { is_daily_year (Some (pos 34)) (Some (pos 355)) one_sample ≡ true }
    ensures at { is_daily_year (Some (pos 35)) (Some (pos 354)) one_sample ≡ false }
    ensures none { is_daily_year None None one_sample ≡ false }
    ensures no_sample { is_daily_year (Some (pos 36)) (Some (pos 360)) no_sample ≡ false }
{}
