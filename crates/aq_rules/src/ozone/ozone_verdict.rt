//! The design value and the verdict on ozone, worked out.
#![tactic(auto)]

ghost use Rattle.std.specs.Prelude.{◌≡◌, ℕ, ◌+◌, ◌*◌, ◌<◌, nat_le, true, false, ◌∷◌, [], Some, None, pos};
ghost use Rattle.aq_base.specs.declared.standard.Verdict.TheVariants.{Met, NotMet, Incomplete, NoValue};
ghost use Rattle.aq_rules.specs.Ozone.OzoneYear.{OzoneYear, ozone_year};
ghost use Rattle.aq_rules.specs.Ozone.OzoneVerdict.{OzoneDv, is_average_kept, is_complete, ozone_dv, three_years};
ghost use Rattle.aq_base.specs.Site.{Site};
ghost use Rattle.aq_rules.specs.Office.Office.{Office};
ghost use Rattle.aq_rules.specs.Office.OfficeExamples.{season_of_days};
ghost use Rattle.aq_rules.specs.Ozone.OzoneExamples.{year_with, year_without_fourth};

/// A third of 212 thousandths is cut to 0.070 ppm, which meets the standard if the seasons are
/// complete. A third of 213 thousandths is above the level, complete or not. A year without a fourth
/// highest value leaves no design value.
pub fn values_of_three_years()
    ensures complete { ozone_dv (year_with 245 71 ∷ year_with 245 71 ∷ year_with 245 70 ∷ []) ≡ record { value = Some (pos 70); verdict = Met } }
    ensures incomplete { ozone_dv (year_with 245 71 ∷ year_with 245 71 ∷ year_with 183 70 ∷ []) ≡ record { value = Some (pos 70); verdict = Incomplete } }
    ensures third_of_213_does_not_meet_the_standard { ozone_dv (year_with 4 71 ∷ year_with 4 71 ∷ year_with 4 71 ∷ []) ≡ record { value = Some (pos 71); verdict = NotMet } }
    ensures missing_fourth_leaves_no_value { ozone_dv (year_with 245 71 ∷ year_without_fourth ∷ year_with 245 71 ∷ []) ≡ record { value = None; verdict = NoValue } }
{}

/// Of three seasons of 245 days, 662 days are nine tenths, and 661 are not. Each season needs three
/// quarters of its days: 184 of 245, while 183 are too few. Nine tenths are of the three fractions, and
/// not of all days together: 292 of 365, 100 of 100 and 90 of 100 are enough, and with one day fewer
/// they are not.
pub fn complete_seasons()
    ensures enough { is_complete (year_with 221 70) (year_with 221 70) (year_with 220 70) ≡ true }
    ensures too_few { is_complete (year_with 221 70) (year_with 220 70) (year_with 220 70) ≡ false }
    ensures three_quarters_of_each_season_enough { is_complete (year_with 245 70) (year_with 245 70) (year_with 184 70) ≡ true }
    ensures three_quarters_of_each_season_too_few { is_complete (year_with 245 70) (year_with 245 70) (year_with 183 70) ≡ false }
    ensures seasons_are_not_pooled_enough { is_complete (season_of_days 365 292) (season_of_days 100 100) (season_of_days 100 90) ≡ true }
    ensures seasons_are_not_pooled_too_few { is_complete (season_of_days 365 292) (season_of_days 100 100) (season_of_days 100 89) ≡ false }
    ensures too_few_of_many { is_complete (season_of_days 365 291) (season_of_days 100 100) (season_of_days 100 90) ≡ false }
    ensures one_short_season { is_complete (season_of_days 100 100) (season_of_days 100 100) (season_of_days 40 29) ≡ false }
    ensures met { ozone_dv (season_of_days 365 292 ∷ season_of_days 100 100 ∷ season_of_days 100 90 ∷ []) ≡ record { value = Some (pos 69); verdict = Met } }
{}

/// If the three seasons are of one length, the mean of the fractions is nine tenths if nine
/// tenths of all their days are valid.
pub fn nine_tenths_of_equal_seasons()
    ensures { (a b c : OzoneYear)
        → 0 < a.season_days → b.season_days ≡ a.season_days → c.season_days ≡ a.season_days
        → is_average_kept a b c ≡ nat_le (27 * a.season_days) (10 * (a.season_valid + b.season_valid + c.season_valid)) }
{}

/// A design value of 2024 is of 2022, 2023 and 2024.
#[tactic(auto, unfolding(crate::specs::Ozone::OzoneVerdict::three_years))]
pub fn three_years_end_with_the_year()
    ensures { (office : Office) (site : Site) → three_years office site 2024 ≡ ozone_year office site 2022 ∷ ozone_year office site 2023 ∷ ozone_year office site 2024 ∷ [] }
{}
