//! PM10 exceedances, estimates and verdicts, worked out.
#![tactic(auto)]

ghost use Rattle.std.specs.Prelude.{◌≡◌, true, false, ◌∷◌, [], Some, None, ℤ, pos, int_le};
ghost use Rattle.aq_base.specs.Calendar.{day_number};
ghost use Rattle.aq_base.specs.declared.monitor.Pollutant.TheVariants.{Pm10};
ghost use Rattle.aq_base.specs.declared.standard.Verdict.TheVariants.{Met, NotMet, Incomplete, NoValue};
ghost use Rattle.aq_rules.specs.Particles.Pm10Estimate.{exceeds, mean_of_years, pm10_quarter, quarter_estimate, quarter_lower, year_of_quarters};
ghost use Rattle.aq_rules.specs.Particles.Pm10Verdict.{is_complete_quarter, pm10_dv, pm10_verdict};
ghost use Rattle.aq_rules.specs.Ozone.OzoneExamples.{site};
ghost use Rattle.aq_rules.specs.Particles.ParticleExamples.{busy_quarter, calm_quarter, calm_year, captured_quarter, empty_quarter, exceeding_quarter, mixed_days, particle_sample, quarter_of_exceedances, third_of_2023, with_exceedance};

/// 154.9 rounds to 150 and does not exceed; 155.0 rounds to 160 and does, and so does every value above
/// it. Every sixth day, 15 of 16 scheduled days sampled and one exceeding: 92 days over 15 samples is
/// 6.13, the year has 6.1, and three years 2.0, which does not meet the standard. With a second sample
/// in the exceeding day's stratum half of that stratum exceeds: 3.07, 3.1 and 1.0, which meets the
/// standard. A quarter without a sample leaves no design value. Four exceedances elsewhere do not meet
/// the standard all the same; three that are on no scheduled day decide nothing. The lower estimate
/// counts exceedances on scheduled days over all scheduled days: 92 over 16 is 5.75.
pub fn exceedances_and_their_estimates()
    ensures below { exceeds (pos 1549) ≡ false }
    ensures above { exceeds (pos 1550) ≡ true }
    ensures everywhere { (value : ℤ) → exceeds value ≡ int_le (pos 1550) value }
    ensures quarter { quarter_estimate (pm10_quarter (with_exceedance []) site third_of_2023) ≡ Some (pos 613) }
    ensures year { year_of_quarters quarter_estimate (calm_quarter ∷ calm_quarter ∷ pm10_quarter (with_exceedance []) site third_of_2023 ∷ calm_quarter ∷ []) ≡ Some (pos 61) }
    ensures verdict { pm10_dv (calm_year ∷ calm_year ∷ (calm_quarter ∷ calm_quarter ∷ pm10_quarter (with_exceedance []) site third_of_2023 ∷ calm_quarter ∷ []) ∷ [])
        ≡ record { value = Some (pos 20); verdict = NotMet } }
    ensures second_sample_halves_its_stratum_quarter { quarter_estimate (pm10_quarter (with_exceedance (particle_sample Pm10 1 400 (day_number 2023 7 3) ∷ [])) site third_of_2023) ≡ Some (pos 307) }
    ensures second_sample_halves_its_stratum_year { year_of_quarters quarter_estimate (calm_quarter ∷ calm_quarter ∷ pm10_quarter (with_exceedance (particle_sample Pm10 1 400 (day_number 2023 7 3) ∷ [])) site third_of_2023 ∷ calm_quarter ∷ []) ≡ Some (pos 31) }
    ensures second_sample_halves_its_stratum_verdict { pm10_dv (calm_year ∷ calm_year ∷ (calm_quarter ∷ calm_quarter ∷ pm10_quarter (with_exceedance (particle_sample Pm10 1 400 (day_number 2023 7 3) ∷ [])) site third_of_2023 ∷ calm_quarter ∷ []) ∷ [])
        ≡ record { value = Some (pos 10); verdict = Met } }
    ensures four { pm10_dv (calm_year ∷ (calm_quarter ∷ quarter_of_exceedances 4 ∷ calm_quarter ∷ calm_quarter ∷ []) ∷ (empty_quarter ∷ calm_quarter ∷ calm_quarter ∷ calm_quarter ∷ []) ∷ [])
        ≡ record { value = None; verdict = NotMet } }
    ensures three { pm10_dv (calm_year ∷ (calm_quarter ∷ quarter_of_exceedances 3 ∷ calm_quarter ∷ calm_quarter ∷ []) ∷ (empty_quarter ∷ calm_quarter ∷ calm_quarter ∷ calm_quarter ∷ []) ∷ [])
        ≡ record { value = None; verdict = NoValue } }
    ensures lower_estimate_takes_all_scheduled_days { quarter_lower (pm10_quarter (with_exceedance []) site third_of_2023) ≡ Some (pos 575) }
{}

/// A quarter of July to September 2023: six of 16 scheduled days have a sample, two of them excluded;
/// three others have one too. Seven samples in four strata remain, of which three exceed, one on a
/// scheduled day: the whole of one stratum and half of another. 92 times 1.5 over 4 is 34.50.
pub fn a_pm10_quarter_is_counted()
    ensures counts { pm10_quarter mixed_days site third_of_2023
        ≡ record { calendar_days = 92; scheduled = 16; captured = 6; strata = 4; samples = 7; exceedances = 3; scheduled_exceedances = 1; sixtieths = 90 } }
    ensures estimate { quarter_estimate (pm10_quarter mixed_days site third_of_2023) ≡ Some (pos 3450) }
    ensures lower { quarter_lower (pm10_quarter mixed_days site third_of_2023) ≡ Some (pos 575) }
{}

/// Means are rounded and not cut: of 0, 0 and 3.2 the mean is 1.07, which is 1.1. Without a scheduled
/// day the lower estimate is 0. Three quarters of the scheduled days have to be captured, and one day
/// has to be scheduled. An unambiguous case does not meet the standard if a quarter is not complete,
/// whatever the value. One exceedance on one of 16 scheduled days is unambiguous: its lower estimate is
/// 5.75 for the quarter and 1.9 for the three years.
pub fn estimates_and_completeness()
    ensures quarter { quarter_estimate busy_quarter ≡ Some (pos 321) }
    ensures year { year_of_quarters quarter_estimate (calm_quarter ∷ busy_quarter ∷ calm_quarter ∷ calm_quarter ∷ []) ≡ Some (pos 32) }
    ensures three_years { mean_of_years quarter_estimate (calm_year ∷ calm_year ∷ (calm_quarter ∷ busy_quarter ∷ calm_quarter ∷ calm_quarter ∷ []) ∷ []) ≡ Some (pos 11) }
    ensures unscheduled { quarter_lower (captured_quarter 0 0) ≡ Some (pos 0) }
    ensures lower { quarter_lower busy_quarter ≡ Some (pos 300) }
    ensures enough { is_complete_quarter (captured_quarter 16 12) ≡ true }
    ensures too_few { is_complete_quarter (captured_quarter 16 11) ≡ false }
    ensures three_quarters_of_the_scheduled_days_unscheduled { is_complete_quarter (captured_quarter 0 0) ≡ false }
    ensures low_value { pm10_verdict (Some (pos 5)) false true ≡ NotMet }
    ensures complete { pm10_verdict (Some (pos 5)) true true ≡ Met }
    ensures incomplete { pm10_verdict (Some (pos 5)) false false ≡ Incomplete }
    ensures at { pm10_verdict (Some (pos 10)) true false ≡ Met }
    ensures above { pm10_verdict (Some (pos 11)) true false ≡ NotMet }
    ensures unambiguous_cases_need_no_complete_quarter_lower { pm10_dv (calm_year ∷ (calm_quarter ∷ exceeding_quarter ∷ calm_quarter ∷ calm_quarter ∷ []) ∷ (empty_quarter ∷ calm_quarter ∷ calm_quarter ∷ calm_quarter ∷ []) ∷ [])
        ≡ record { value = None; verdict = NotMet } }
{}
