//! The verdicts on what is kept are the verdicts on the lists of values.
#![tactic(auto)]

ghost use Rattle.std.specs.Prelude.{◌≡◌, ℕ, List, ℤ, pos, map, filter_map, length, min, slice_get, nat_le, is_some, IsTrue, All};
ghost use Rattle.aq_base.specs.Site.{Site};
ghost use Rattle.aq_rules.specs.Office.Office.{IsOffice, Office};
ghost use Rattle.aq_rules.specs.Standards.{years_to};
ghost use Rattle.aq_rules.specs.Lists.{greatest, least, total};
ghost use Rattle.aq_rules.specs.Ozone.OzoneYear.{ozone_year};
ghost use Rattle.aq_rules.specs.Particles.QuarterCounts.{QuarterDays, counted_in, pm25_quarter, values_in};
ghost use Rattle.aq_rules.specs.Particles.Means.{mean_of_means, quarterly_mean};
ghost use Rattle.aq_rules.specs.Particles.Percentile.{percentile};
ghost use Rattle.aq_rules.specs.Particles.YearParts.{of_values};
ghost use Rattle.aq_rules.specs.Particles.Pm10Estimate.{pm10_quarter, pm10_year};
ghost use Rattle.aq_rules.specs.Particles.AnnualVerdict.{annual_design, annual_dv, mean_of};
ghost use Rattle.aq_rules.specs.Particles.DailyVerdict.{daily_design, daily_dv, percentile_of};
ghost use Rattle.aq_rules.specs.Kept.Summaries.{KeepsOzoneYear, KeepsPm10Quarter, KeepsPm10Year, KeepsPmQuarter, KeepsPmYear, PmQuarter, PmYear, net_days_in, eight_greatest, falls, is_sum_within, pm25_summary, summary_of_quarter, summary_of_year};
ghost use Rattle.aq_rules.specs.Kept.SummaryVerdicts.{kept_annual_dv, kept_counted, kept_daily_dv, kept_percentile, mean_of_sums};

/// Sums and numbers of values are enough for an annual standard, its tests with their copies too.
pub fn sums_are_enough_for_the_annual_verdict()
    ensures { (level : ℤ) (years : List (List QuarterDays)) → kept_annual_dv level (map summary_of_year years) ≡ annual_dv level years }
{}

/// The eight greatest values of each year are enough for the 24-hour standard, its test with the copies
/// too, for years whose counts are those of a year's days.
pub fn eight_greatest_are_enough_for_the_daily_verdict()
    ensures { (years : List (List QuarterDays))
        → All (λ year. KeepsPmYear (summary_of_year year)) years
        → kept_daily_dv (map summary_of_year years) ≡ daily_dv years }
{}

/// Without copies the means are those of the values or of sums over numbers, and the percentile is that of
/// the values or of the eight greatest.
pub fn means_and_percentiles_without_copies()
    ensures mean { (quarters : List QuarterDays) → mean_of of_values quarters ≡ mean_of_means (map (λ (q : QuarterDays). quarterly_mean q.values) quarters) }
    ensures percentile { (year : List QuarterDays) → percentile_of of_values year ≡ percentile (values_in year) (counted_in year) }
    ensures mean_of_sums { (quarters : List PmQuarter) → mean_of_sums quarters ≡ mean_of_means (map (λ (q : PmQuarter). (q.sum, q.net_days)) quarters) }
    ensures kept_percentile { (year : PmYear) → kept_percentile year ≡ percentile year.top (kept_counted year.quarters) }
{}

/// The PM2.5 verdicts of a valid office are those on what is kept of its years.
pub fn office_verdicts_read_what_is_kept()
    ensures annual { (level : ℤ) (office : Office) (site : Site) (year : ℕ)
        → annual_design level office site year ≡ kept_annual_dv level (map (pm25_summary office site) (years_to year)) }
    ensures daily { (office : Office) (site : Site) (year : ℕ)
        → IsOffice office
        → daily_design office site year ≡ kept_daily_dv (map (pm25_summary office site) (years_to year)) }
{}

/// What is kept of an ozone year of a valid office keeps its facts.
pub fn ozone_years_keep_their_facts()
    ensures { (office : Office) (site : Site) (year : ℕ)
        → IsOffice office
        → KeepsOzoneYear (ozone_year office site year) }
{}

/// What is kept of a PM10 quarter and year keeps its facts, in every office.
pub fn pm10_quarters_keep_their_facts()
    ensures quarter { (office : Office) (site : Site) (quarter : ℕ) → KeepsPm10Quarter (pm10_quarter office site quarter) }
    ensures year { (office : Office) (site : Site) (year : ℕ) → KeepsPm10Year (pm10_year office site year) }
{}

/// What is kept of a PM2.5 quarter and year of a valid office keeps its facts.
pub fn pm25_quarters_keep_their_facts()
    ensures quarter { (office : Office) (site : Site) (quarter : ℕ)
        → IsOffice office
        → KeepsPmQuarter (summary_of_quarter (pm25_quarter office site quarter)) }
    ensures year { (office : Office) (site : Site) (year : ℕ)
        → IsOffice office
        → KeepsPmYear (pm25_summary office site year) }
{}

/// A quarter with a value has a least and a greatest one, and its sum lies between so many times
/// either; a quarter without has the sum 0.
pub fn quarter_summaries_keep_their_facts()
    ensures least { (values : List ℤ) → is_some (least values) ≡ nat_le 1 (length values) }
    ensures greatest { (values : List ℤ) → is_some (greatest values) ≡ nat_le 1 (length values) }
    ensures sum { (quarter : QuarterDays) → IsTrue (is_sum_within (summary_of_quarter quarter)) }
    ensures no_sum { (values : List ℤ) → length values ≡ 0 → total values ≡ pos 0 }
{}

/// The eight greatest values fall; there are as many as the quarters' days, but eight at most; and the
/// first is the greatest of the quarters.
pub fn eight_greatest_keep_their_facts()
    ensures falls { (values : List ℤ) → IsTrue (falls (eight_greatest values)) }
    ensures count { (year : List QuarterDays) → length (eight_greatest (values_in year)) ≡ min 8 (net_days_in (map summary_of_quarter year)) }
    ensures first { (year : List QuarterDays)
        → slice_get (eight_greatest (values_in year)) 0 ≡ greatest (filter_map (λ (q : PmQuarter). q.greatest) (map summary_of_quarter year)) }
{}
