//! What the strata of a PM10 quarter are, and what they make of an estimate.
#![tactic(auto)]

ghost use Rattle.std.specs.Prelude.{◌≡◌, ℕ, ◌*◌, ◌≤◌, ◌==◌, if◌then◌else◌, not, true, List, ◌∷◌, [], ◌++◌, ℤ, pos, length, map, replicate, drop, sum_by, count_by, flat_map, All, Some, None};
ghost use Rattle.std.specs.List.{list_all};
ghost use Rattle.aq_base.specs.Decimal.{half_up};
ghost use Rattle.aq_base.specs.Site.{Site};
ghost use Rattle.aq_base.specs.declared.monitor.Pollutant.TheVariants.{Pm10};
ghost use Rattle.aq_rules.specs.Office.Office.{Office};
ghost use Rattle.aq_rules.specs.Office.Schedule.{is_scheduled};
ghost use Rattle.aq_rules.specs.Particles.QuarterCounts.{days_of_quarter};
ghost use Rattle.aq_rules.specs.Particles.Strata.{strata_of, stratum_of};
ghost use Rattle.aq_base.specs.Calendar.{day_number, quarter_number};
ghost use Rattle.aq_base.specs.declared.office.OfficeRecord.TheVariants.{Schedule};
ghost use Rattle.aq_rules.specs.Ozone.OzoneExamples.{office_of, site as example_site};
ghost use Rattle.aq_rules.specs.Particles.ParticleExamples.{mixed_days, third_of_2023};
ghost use Rattle.aq_rules.specs.Particles.Pm10Estimate.{exceeds, quarter_estimate, quarter_of_strata, sixtieths_of};

/// The strata one after the other are the quarter's days, so each day lies in exactly one.
pub fn each_day_lies_in_one_stratum()
    ensures { (office : Office) (site : Site) (quarter : ℕ) → flat_map (λ days. days) (strata_of office site quarter) ≡ days_of_quarter quarter }
{}

/// No stratum has more than six days, and only its first may be a scheduled one.
pub fn strata_are_short()
    ensures six { (office : Office) (site : Site) (quarter : ℕ) → All (λ days. length days ≤ 6) (strata_of office site quarter) }
    ensures scheduled { (office : Office) (site : Site) (quarter : ℕ)
        → All (λ days. list_all (λ day. not (is_scheduled office.records site Pm10 day)) (drop 1 days) ≡ true) (strata_of office site quarter) }
{}

/// Without a schedule the 90 days of the first quarter of 2023 are fifteen strata of six. Where every
/// sixth day is scheduled from 1 July 2023 on, that quarter has 16, of which the last has two days, and
/// 3 July lies in the stratum of 1 July; a schedule from 10 August on begins a new one on that day. Of
/// one to six samples the part that exceeds is a whole number of sixtieths. Where no stratum has two
/// samples, the quarter's estimate is its days times the exceedances over the samples.
pub fn strata_and_their_sixtieths()
    ensures unscheduled { map length (strata_of (office_of [] []) example_site (quarter_number 2023 0)) ≡ replicate 15 6 }
    ensures scheduled { map length (strata_of mixed_days example_site third_of_2023) ≡ replicate 15 6 ++ 2 ∷ [] }
    ensures sooner { map length (strata_of (office_of (Schedule example_site Pm10 (day_number 2023 8 10) 3 (day_number 2023 8 10) ∷ []) []) example_site third_of_2023)
        ≡ replicate 6 6 ++ 4 ∷ replicate 17 3 ++ 1 ∷ [] }
    ensures first_day { stratum_of mixed_days example_site (day_number 2023 7 3) ≡ Some (day_number 2023 7 1) }
    ensures next_day { stratum_of mixed_days example_site (day_number 2023 7 7) ≡ Some (day_number 2023 7 7) }
    ensures sixtieths_are_exact { (values : List ℤ) → 1 ≤ length values → length values ≤ 6 → sixtieths_of values * length values ≡ 60 * count_by exceeds values }
    ensures single_samples_give_the_plain_estimate { (days scheduled captured exceeding : ℕ) (strata : List (List ℤ))
        → All (λ values. length values ≤ 1) strata
        → quarter_estimate (quarter_of_strata days scheduled captured exceeding strata)
        ≡ (if sum_by length strata == 0 then None
        else Some (half_up (pos (100 * (sum_by (count_by exceeds) strata * days))) (pos (sum_by length strata)))) }
{}
