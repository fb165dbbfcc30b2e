//! How much the next year may measure, worked out.
#![tactic(auto)]

ghost use Rattle.std.specs.Prelude.{◌≡◌, true, false, ◌∷◌, [], List, Option, Some, None, option_map, pos, neg_ℤ};
ghost use Rattle.aq_base.specs.Decimal.{half_up};
ghost use Rattle.aq_base.specs.declared.standard.Standard.{Standard};
ghost use Rattle.aq_base.specs.declared.standard.Standard.TheVariants.{Ozone2015, Annual2012, Annual2024, Daily2006, Pm10Of1987};
ghost use Rattle.aq_rules.specs.DesignValues.{DesignValue, OfAnnual, OfDaily, OfOzone, OfPm10};
ghost use Rattle.aq_rules.specs.Standards.{level_of};
ghost use Rattle.aq_rules.specs.Ozone.OzoneExamples.{year_with, year_without_fourth};
ghost use Rattle.aq_rules.specs.Ozone.OzoneVerdict.{no_design};
ghost use Rattle.aq_rules.specs.Particles.AnnualVerdict.{annual_value};
ghost use Rattle.aq_rules.specs.Particles.Means.{Fraction, mean_of_means};
ghost use Rattle.aq_rules.specs.Particles.ParticleExamples.{even_quarter, even_year};
ghost use Rattle.aq_rules.specs.Particles.YearParts.{of_values};
ghost use Rattle.aq_rules.specs.Areas.AreaExamples.{annual_years, pm10_years_of};
ghost use Rattle.aq_rules.specs.Areas.CriticalValue.{Estimates, Fourths, HasQuarters, IsCritical, LastTwo, Means, Percentiles, critical, critical_with, exact_mean_of, keeps_level, last_two};
ghost use Rattle.aq_rules.specs.Shown.ShownExamples.{exceeding_pm10, tested_annual, tested_daily, three_pm10_years, three_pm25_years};

/// Fourth highest values of 0.070 and 0.071 leave 0.071: a third of 212 is cut to 70, and one of 213 is
/// 71. Percentiles of 35.4 and 35.5 leave 35.5: 106.4 / 3 rounds to 35, and 106.5 / 3 to 36. Estimates
/// of 1.0 and 1.1 leave 1.0: 3.1 / 3 rounds to 1.0, and 3.2 / 3 to 1.1. Annual means of 9.0 and 9.0
/// leave 9.1 at the level 9.0: 27.1 / 3 rounds to 9.0, and 27.2 / 3 to 9.1. Means are not rounded: two
/// of 9.025 leave 9.0, while two of 9.0 leave 9.1.
pub fn what_two_years_leave()
    ensures ozone { critical_with (level_of Ozone2015) (Fourths (pos 70) (pos 71)) ≡ pos 71 }
    ensures ozone_kept { keeps_level (level_of Ozone2015) (Fourths (pos 70) (pos 71)) (pos 71) ≡ true }
    ensures ozone_above { keeps_level (level_of Ozone2015) (Fourths (pos 70) (pos 71)) (pos 72) ≡ false }
    ensures daily { critical_with (level_of Daily2006) (Percentiles (pos 354) (pos 355)) ≡ pos 355 }
    ensures daily_kept { keeps_level (level_of Daily2006) (Percentiles (pos 354) (pos 355)) (pos 355) ≡ true }
    ensures daily_above { keeps_level (level_of Daily2006) (Percentiles (pos 354) (pos 355)) (pos 356) ≡ false }
    ensures pm10 { critical_with (level_of Pm10Of1987) (Estimates (pos 10) (pos 11)) ≡ pos 10 }
    ensures pm10_kept { keeps_level (level_of Pm10Of1987) (Estimates (pos 10) (pos 11)) (pos 10) ≡ true }
    ensures pm10_above { keeps_level (level_of Pm10Of1987) (Estimates (pos 10) (pos 11)) (pos 11) ≡ false }
    ensures annual { critical_with (level_of Annual2024) (Means (pos 90, 1) (pos 90, 1)) ≡ pos 91 }
    ensures annual_kept { keeps_level (level_of Annual2024) (Means (pos 90, 1) (pos 90, 1)) (pos 91) ≡ true }
    ensures annual_above { keeps_level (level_of Annual2024) (Means (pos 90, 1) (pos 90, 1)) (pos 92) ≡ false }
    ensures unrounded { critical_with (level_of Annual2024) (Means (pos 361, 4) (pos 361, 4)) ≡ pos 90 }
    ensures by_days_kept { annual_value of_values (even_year (even_quarter 30 30 90) ∷ even_year (even_quarter 30 20 90) ∷ even_year (even_quarter 30 10 91) ∷ []) ≡ Some (pos 90) }
    ensures by_days_above { annual_value of_values (even_year (even_quarter 30 30 90) ∷ even_year (even_quarter 30 20 90) ∷ even_year (even_quarter 30 10 92) ∷ []) ≡ Some (pos 91) }
{}

/// The parts are those of the last two of the three years, whatever the first has, and there is no
/// critical value if one of the two lacks its part. Annual means of 10.75 and 10.75 leave 14.6 at
/// the level 12.0: what is below 36.15 - 21.5. Percentiles of 28.0 and 17.0 leave 61.4. Estimates of 63.0
/// and 43.8 leave -103.7: a critical value has no bounds.
pub fn critical_values_of_design_values()
    ensures ozone { critical Ozone2015 (OfOzone (year_without_fourth ∷ year_with 245 70 ∷ year_with 240 71 ∷ []) no_design) ≡ Some (pos 71) }
    ensures no_fourth_before { critical Ozone2015 (OfOzone (year_with 245 70 ∷ year_without_fourth ∷ year_with 240 71 ∷ []) no_design) ≡ None }
    ensures no_fourth_last { critical Ozone2015 (OfOzone (year_with 245 70 ∷ year_with 240 71 ∷ year_without_fourth ∷ []) no_design) ≡ None }
    ensures annual { critical Annual2012 (OfAnnual annual_years tested_annual) ≡ Some (pos 146) }
    ensures other_level { critical Annual2024 (OfAnnual annual_years tested_annual) ≡ Some (pos 56) }
    ensures empty_quarter { critical Annual2012 (OfAnnual three_pm25_years tested_annual) ≡ None }
    ensures daily { critical Daily2006 (OfDaily three_pm25_years tested_daily) ≡ Some (pos 614) }
    ensures pm10 { critical Pm10Of1987 (OfPm10 pm10_years_of exceeding_pm10) ≡ Some (neg_ℤ (pos 1037)) }
    ensures no_sample { critical Pm10Of1987 (OfPm10 three_pm10_years exceeding_pm10) ≡ None }
{}

/// A critical value is the greatest whole number with which the level of its standard is kept.
pub fn a_critical_value_is_the_greatest()
    ensures { (standard : Standard) (value : DesignValue) (parts : LastTwo)
        → HasQuarters value → last_two value ≡ Some parts
        → (critical standard value ≡ Some (critical_with (level_of standard) parts)) × IsCritical (level_of standard) parts (critical_with (level_of standard) parts) }
{}

/// Rounded half up, the exact mean of a year's quarterly means is its annual mean.
pub fn an_exact_mean_rounds_to_the_annual_mean()
    ensures { (means : List Fraction) → mean_of_means means ≡ option_map (λ (mean : Fraction). half_up mean.0 (pos mean.1)) (exact_mean_of means) }
{}
