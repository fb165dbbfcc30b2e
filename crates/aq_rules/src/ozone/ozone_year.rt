//! The fourth highest value of a year, worked out.
#![tactic(auto)]

ghost use Rattle.std.specs.Prelude.{◌≡◌, ℕ, ◌≤◌, true, false, ◌∷◌, [], length, filter, IsPermutation, Some, None, pos};
ghost use Rattle.aq_base.specs.Site.{Site};
ghost use Rattle.aq_base.specs.declared.observation.ObsKey.{ObsKey};
ghost use Rattle.aq_base.specs.declared.observation.Observation.{Observation};
ghost use Rattle.aq_rules.specs.Office.Office.{Office};
ghost use Rattle.aq_rules.specs.Ozone.OzoneExamples.{site, four_peaks};
ghost use Rattle.aq_rules.specs.Office.Monitors.{is_same_key};
ghost use Rattle.aq_rules.specs.Office.OfficeExamples.{approved_june, west};
ghost use Rattle.aq_rules.specs.Ozone.EightHour.{window};
ghost use Rattle.aq_rules.specs.Ozone.OzoneDay.{OzoneDay, ozone_day};
ghost use Rattle.aq_rules.specs.Lists.{ranked};
ghost use Rattle.aq_rules.specs.Ozone.OzoneYear.{OzoneYear, fourth_of, ozone_year, ranked_maxima};

/// Equal values are counted each. Three values have no fourth. Days that are not valid, and valid days
/// without a maximum, are not ranked.
pub fn ranked_values_and_their_fourth()
    ensures fourth_highest_counts_ties { fourth_of (ranked (pos 60 ∷ pos 71 ∷ pos 71 ∷ pos 75 ∷ pos 71 ∷ [])) ≡ Some (pos 71) }
    ensures three_values_have_no_fourth { fourth_of (ranked (pos 60 ∷ pos 71 ∷ pos 75 ∷ [])) ≡ None }
    ensures valid_maxima_are_ranked { ranked_maxima
        (record { averages = 13; valid = true; maximum = Some (pos 50) }
        ∷ record { averages = 12; valid = false; maximum = Some (pos 70) }
        ∷ record { averages = 17; valid = true; maximum = None }
        ∷ record { averages = 17; valid = true; maximum = Some (pos 60) } ∷ [])
        ≡ pos 60 ∷ pos 50 ∷ [] }
{}

/// A year of four valid days, with maxima of 0.071, 0.075, 0.073 and 0.072 ppm.
pub fn year_of_four_peaks()
    ensures { ozone_year four_peaks site 2024 ≡ record { season_days = 366; season_valid = 4; ranked = 4; fourth = Some (pos 71) } }
{}

/// The order of the observations does not matter to an average, a day or a year, if no two stand
/// at one key.
pub fn ozone_forgets_the_order()
    ensures average { (a b : Office) (site : Site) (start : ℕ)
        → a.records ≡ b.records
        → IsPermutation a.observations b.observations
        → ((key : ObsKey) → length (filter (λ (e : ObsKey × Observation). is_same_key e.0 key) a.observations) ≤ 1)
        → window a site start ≡ window b site start }
    ensures day { (a b : Office) (site : Site) (day : ℕ)
        → a.records ≡ b.records
        → IsPermutation a.observations b.observations
        → ((key : ObsKey) → length (filter (λ (e : ObsKey × Observation). is_same_key e.0 key) a.observations) ≤ 1)
        → ozone_day a site day ≡ ozone_day b site day }
    ensures year { (a b : Office) (site : Site) (year : ℕ)
        → a.records ≡ b.records
        → IsPermutation a.observations b.observations
        → ((key : ObsKey) → length (filter (λ (e : ObsKey × Observation). is_same_key e.0 key) a.observations) ≤ 1)
        → ozone_year a site year ≡ ozone_year b site year }
{}

/// A day of the season that is approved counts as valid, once, without hours too, and an approval
/// outside the season or of another site does not. Maxima outside the season are ranked.
pub fn approved_days_of_the_season_count()
    ensures { ozone_year approved_june west 2024 ≡ record { season_days = 61; season_valid = 4; ranked = 4; fourth = Some (pos 71) } }
{}
