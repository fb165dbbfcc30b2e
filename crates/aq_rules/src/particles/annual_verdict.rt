//! The verdict on an annual PM2.5 standard, with its substitution tests, worked out.
#![tactic(auto)]

ghost use Rattle.std.specs.Prelude.{◌≡◌, true, false, List, ◌∷◌, [], length, map, replicate, sum_by, Some, None, pos};
ghost use Rattle.aq_base.specs.declared.standard.Verdict.TheVariants.{Met, NotMet, Incomplete, NoValue};
ghost use Rattle.aq_rules.specs.Particles.QuarterCounts.{QuarterDays, values_in};
ghost use Rattle.aq_rules.specs.Particles.YearParts.{of_values};
ghost use Rattle.aq_rules.specs.Particles.Substitution.{matched, maximum_copies, maximum_for, minimum_copies, minimum_for};
ghost use Rattle.aq_rules.specs.Particles.AnnualVerdict.{annual_dv, mean_of};
ghost use Rattle.aq_base.specs.declared.standard.Standard.TheVariants.{Annual2012, Annual2024};
ghost use Rattle.aq_rules.specs.Standards.{level_of};
ghost use Rattle.aq_rules.specs.Lists.{greatest, least};
ghost use Rattle.aq_rules.specs.Particles.ParticleExamples.{daily_year, even_quarter, even_year, mixed_quarter, three_years_at_ten, with_low_day, year_above, year_from, year_with_second};

/// Thirty values with a sum of 361.5 in each quarter give 12.05, which rounds to 12.1 and does not meet
/// 12.0; a sum of 361.2 gives 12.04, which rounds to 12.0 and meets it. A quarter with 54 of 90 days
/// has a capture of 60, and passes the maximum test; with 44 days its capture of 49 is too low for the
/// test. A quarter with ten samples gets one copy of the least value of its calendar quarter, and the
/// test value stays above the level; three such quarters with 28 days in all have no test. A quarter
/// without a value leaves no design value.
pub fn means_of_three_years()
    ensures above { annual_dv (level_of Annual2012) (replicate 3 (year_above 120 15))
        ≡ record { value = Some (pos 121); test = None; valid = true ∷ true ∷ true ∷ []; verdict = NotMet } }
    ensures at_level { annual_dv (level_of Annual2012) (replicate 3 (year_above 120 12))
        ≡ record { value = Some (pos 120); test = None; valid = true ∷ true ∷ true ∷ []; verdict = Met } }
    ensures passes { annual_dv (level_of Annual2012) (daily_year 90 ∷ daily_year 90 ∷ daily_year 54 ∷ [])
        ≡ record { value = Some (pos 112); test = Some (pos 112); valid = true ∷ true ∷ false ∷ []; verdict = Met } }
    ensures too_few { annual_dv (level_of Annual2012) (daily_year 90 ∷ daily_year 90 ∷ daily_year 44 ∷ [])
        ≡ record { value = Some (pos 112); test = None; valid = true ∷ true ∷ false ∷ []; verdict = Incomplete } }
    ensures minimum_test_needs_thirty_days_passes { annual_dv (level_of Annual2012) (year_with_second 130 (even_quarter 30 30 130) ∷ year_with_second 130 (with_low_day 130 120) ∷ year_with_second 130 (even_quarter 30 10 130) ∷ [])
        ≡ record { value = Some (pos 130); test = Some (pos 130); valid = true ∷ true ∷ false ∷ []; verdict = NotMet } }
    ensures minimum_test_needs_thirty_days_too_few { annual_dv (level_of Annual2012) (year_with_second 130 (even_quarter 30 9 130) ∷ year_with_second 130 (even_quarter 30 9 130) ∷ year_with_second 130 (even_quarter 30 10 130) ∷ [])
        ≡ record { value = Some (pos 130); test = None; valid = false ∷ false ∷ false ∷ []; verdict = Incomplete } }
    ensures empty_quarter_leaves_no_value { annual_dv (level_of Annual2012) (year_with_second 130 (even_quarter 30 0 0) ∷ year_with_second 130 (with_low_day 130 120) ∷ year_with_second 130 (with_low_day 130 120) ∷ [])
        ≡ record { value = None; test = None; valid = false ∷ true ∷ true ∷ []; verdict = NoValue } }
{}

/// One value may be above 9.0 and not above 12.0. Thirty values with a sum of 271.5 in each quarter give
/// 9.05, which rounds to 9.1; a sum of 271.2 gives 9.04, which rounds to 9.0 and meets both. Of three years
/// at 10.0 the last has a quarter of ten samples. At 9.0 the minimum test adds one copy of the least value
/// of that calendar quarter, 9.5, and the value stays above the level. At 12.0 the maximum test is asked
/// for, which a quarter with a capture of 33 does not have.
pub fn levels_of_2012_and_2024()
    ensures above_9_0 { annual_dv (level_of Annual2024) (replicate 3 (year_above 90 15))
        ≡ record { value = Some (pos 91); test = None; valid = true ∷ true ∷ true ∷ []; verdict = NotMet } }
    ensures within_12_0 { annual_dv (level_of Annual2012) (replicate 3 (year_above 90 15))
        ≡ record { value = Some (pos 91); test = None; valid = true ∷ true ∷ true ∷ []; verdict = Met } }
    ensures at_9_0 { annual_dv (level_of Annual2024) (replicate 3 (year_above 90 12))
        ≡ record { value = Some (pos 90); test = None; valid = true ∷ true ∷ true ∷ []; verdict = Met } }
    ensures below_12_0 { annual_dv (level_of Annual2012) (replicate 3 (year_above 90 12))
        ≡ record { value = Some (pos 90); test = None; valid = true ∷ true ∷ true ∷ []; verdict = Met } }
    ensures minimum_test { annual_dv (level_of Annual2024) three_years_at_ten
        ≡ record { value = Some (pos 100); test = Some (pos 100); valid = true ∷ true ∷ false ∷ []; verdict = NotMet } }
    ensures maximum_test { annual_dv (level_of Annual2012) three_years_at_ten
        ≡ record { value = Some (pos 100); test = None; valid = true ∷ true ∷ false ∷ []; verdict = Incomplete } }
{}

/// Each quarter counts the same in a year, however many days it has: 10.0 and three times 14.0 have the
/// mean 13.0. Eleven creditable samples in each quarter are enough for a year whose mean is above the
/// level, and also if the design value alone is, and ten are not; counted samples and days are other
/// numbers. For the maximum test a quarter gets as many copies as its scheduled days less its creditable
/// samples, if half of these days have one; what is excluded gets no copy. For the minimum test it gets
/// eleven less its creditable samples, if thirty days have a value. The copies are of the least value
/// for the minimum test, and of the greatest for the maximum test, of the same quarter of any of the
/// three years, and of no other quarter.
pub fn quarters_and_their_copies()
    ensures quarters_weigh_the_same { mean_of of_values (even_quarter 30 10 100 ∷ even_quarter 30 30 140 ∷ even_quarter 30 30 140 ∷ even_quarter 30 30 140 ∷ []) ≡ Some (pos 130) }
    ensures eleven { annual_dv (level_of Annual2012) (replicate 3 (year_with_second 130 (mixed_quarter 30 11 10 12 130)))
        ≡ record { value = Some (pos 130); test = None; valid = true ∷ true ∷ true ∷ []; verdict = NotMet } }
    ensures ten { annual_dv (level_of Annual2012) (replicate 3 (year_with_second 130 (mixed_quarter 30 10 11 12 130)))
        ≡ record { value = Some (pos 130); test = Some (pos 130); valid = false ∷ false ∷ false ∷ []; verdict = NotMet } }
    ensures by_the_design_value { annual_dv (level_of Annual2012) (even_year (even_quarter 30 30 140) ∷ even_year (even_quarter 30 30 140) ∷ even_year (mixed_quarter 30 11 10 12 110) ∷ [])
        ≡ record { value = Some (pos 130); test = None; valid = true ∷ true ∷ true ∷ []; verdict = NotMet } }
    ensures by_its_own_mean { annual_dv (level_of Annual2012) (even_year (even_quarter 30 30 110) ∷ even_year (even_quarter 30 30 110) ∷ even_year (mixed_quarter 30 11 10 12 130) ∷ [])
        ≡ record { value = Some (pos 117); test = None; valid = true ∷ true ∷ true ∷ []; verdict = Met } }
    ensures at_the_level { annual_dv (level_of Annual2012) (replicate 3 (even_year (mixed_quarter 30 11 10 12 120)))
        ≡ record { value = Some (pos 120); test = None; valid = false ∷ false ∷ false ∷ []; verdict = Incomplete } }
    ensures half { maximum_copies (record { scheduled = 30; creditable = 15; counted = 13 }) (Some (pos 200)) ≡ Some (replicate 15 (pos 200)) }
    ensures less { maximum_copies (record { scheduled = 30; creditable = 14; counted = 13 }) (Some (pos 200)) ≡ None }
    ensures excluded { maximum_copies (record { scheduled = 30; creditable = 20; counted = 15 }) (Some (pos 200)) ≡ Some (replicate 10 (pos 200)) }
    ensures captured { maximum_copies (record { scheduled = 91; creditable = 68; counted = 60 }) (Some (pos 200)) ≡ Some [] }
    ensures no_value { maximum_copies (record { scheduled = 30; creditable = 20; counted = 0 }) None ≡ None }
    ensures thirty_days { minimum_copies (record { scheduled = 30; creditable = 9; counted = 8 }) 30 (Some (pos 90)) ≡ Some (pos 90 ∷ pos 90 ∷ []) }
    ensures fewer_days { minimum_copies (record { scheduled = 30; creditable = 9; counted = 8 }) 29 (Some (pos 90)) ≡ None }
    ensures copies_fill_a_quarter_eleven { minimum_copies (record { scheduled = 30; creditable = 11; counted = 8 }) 29 (Some (pos 90)) ≡ Some [] }
    ensures minimum { minimum_for of_values (mixed_quarter 30 10 9 12 120, mixed_quarter 30 10 9 12 120 ∷ mixed_quarter 30 28 27 29 110 ∷ mixed_quarter 30 26 25 31 130 ∷ []) ≡ Some (pos 110 ∷ []) }
    ensures maximum { maximum_for of_values (mixed_quarter 20 14 13 15 120, mixed_quarter 20 14 13 15 120 ∷ mixed_quarter 30 28 27 29 110 ∷ mixed_quarter 30 26 25 31 130 ∷ []) ≡ Some (replicate 6 (pos 130)) }
    ensures matched { map (λ (row : QuarterDays × List QuarterDays). map (λ (q : QuarterDays). q.counts.scheduled) row.1) (matched of_values (year_from 10 ∷ year_from 20 ∷ year_from 30 ∷ []) (year_from 20))
        ≡ (10 ∷ 20 ∷ 30 ∷ []) ∷ (11 ∷ 21 ∷ 31 ∷ []) ∷ (12 ∷ 22 ∷ 32 ∷ []) ∷ (13 ∷ 23 ∷ 33 ∷ []) ∷ [] }
{}

/// The value of which a quarter gets copies is the least one, and the greatest one, of all days of its
/// calendar quarter in the three years.
pub fn copies_are_of_the_least_and_the_greatest_value()
    ensures minimum { (quarter : QuarterDays) (three : List QuarterDays)
        → minimum_for of_values (quarter, three)
        ≡ minimum_copies quarter.counts (sum_by (λ (q : QuarterDays). length q.values) three) (least (values_in three)) }
    ensures maximum { (quarter : QuarterDays) (three : List QuarterDays)
        → maximum_for of_values (quarter, three) ≡ maximum_copies quarter.counts (greatest (values_in three)) }
{}
