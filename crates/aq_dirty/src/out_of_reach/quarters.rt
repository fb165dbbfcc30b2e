//! Quarters and years of PM2.5 and PM10 that are not in reach.
#![tactic(auto)]

ghost use Rattle.std.specs.Prelude.{◌≡◌, ℕ, ◌-◌, false, true, pos, [], ◌∷◌, map};
ghost use Rattle.std.specs.List.{list_any, range_with_len};
ghost use Rattle.aq_base.specs.Calendar.{is_year, quarter_of, quarter_year};
ghost use Rattle.aq_base.specs.Site.{Site};
ghost use Rattle.aq_base.specs.declared.monitor.Pollutant.{Pollutant};
ghost use Rattle.aq_base.specs.declared.monitor.Pollutant.TheVariants.{Pm25, Pm10};
ghost use Rattle.aq_rules.specs.Kept.Cells.{PmYearCell, QuarterCell, is_same_cell};
ghost use Rattle.aq_rules.specs.Kept.Reach.{reach};
ghost use Rattle.aq_rules.specs.Kept.Summaries.{eight_greatest, pm25_summary};
ghost use Rattle.aq_rules.specs.Office.Office.{IsOffice, Office};
ghost use Rattle.aq_rules.specs.Office.OfficeExamples.{plain_day, west};
ghost use Rattle.aq_rules.specs.Particles.Pm10Estimate.{pm10_quarter, pm10_year};
ghost use Rattle.aq_rules.specs.Particles.QuarterCounts.{credits, pm25_quarter, pm25_year, quarter_counts, quarter_values, quarters_of, scheduled_days, values_in};
ghost use Rattle.aq_dirty.specs.OutOfReach.Examples.{corrected_sample, made_up, scheduled};

/// A make-up record reaches the quarter of its missed day: of the 16 scheduled days two now have a
/// creditable sample in place of one. The quarters beside it are out of reach, that of PM10, with its one
/// sample, and the PM2.5 year, since no value is new. Both offices are valid ones, so the laws speak of
/// them.
pub fn a_makeup_record_reaches_this()
    ensures valid_before { IsOffice scheduled }
    ensures valid_after { IsOffice made_up }
    ensures quarters { map (λ quarter. list_any (is_same_cell (QuarterCell west Pm25 quarter)) (reach scheduled made_up)) (range_with_len (quarter_of plain_day - 1) 3)
        ≡ false ∷ true ∷ false ∷ [] }
    ensures of_pm10 { list_any (is_same_cell (QuarterCell west Pm10 (quarter_of plain_day))) (reach scheduled made_up) ≡ false }
    ensures year { list_any (is_same_cell (PmYearCell west 2024)) (reach scheduled made_up) ≡ false }
    ensures year_before { list_any (λ quarter. list_any (is_same_cell (QuarterCell west Pm25 quarter)) (reach scheduled made_up)) (quarters_of 2023) ≡ false }
    ensures year_of_pm10 { list_any (λ quarter. list_any (is_same_cell (QuarterCell west Pm10 quarter)) (reach scheduled made_up)) (quarters_of 2024) ≡ false }
    ensures counts { quarter_counts scheduled west (quarter_of plain_day) ≡ record { scheduled = 16; creditable = 1; counted = 1 } }
    ensures new_counts { quarter_counts made_up west (quarter_of plain_day) ≡ record { scheduled = 16; creditable = 2; counted = 2 } }
    ensures samples_of_pm10 { (pm10_quarter scheduled west (quarter_of plain_day)).samples ≡ 1 }
    ensures same_samples_of_pm10 { (pm10_quarter made_up west (quarter_of plain_day)).samples ≡ 1 }
{}

/// A quarter of PM2.5 or PM10 that is not in reach is as before. It reads the observations, designations
/// and events of its days as they do, and beside that the schedules whose days meet it, and of PM2.5 the
/// make-ups of its missed days. A make-up's two days lie in one quarter, so none reads a day of another.
/// So the same days are scheduled, the same make-ups have credit, and the quarter has the values that it
/// had: of PM2.5 with its counts, and of PM10 with its strata, samples and exceedances. A quarter is one of
/// the profile's.
pub fn quarters_out_of_reach_are_as_before()
    ensures scheduled { (old new : Office) (site : Site) (pollutant : Pollutant) (quarter : ℕ)
        → is_year (quarter_year quarter) ≡ true
        → IsOffice old
        → IsOffice new
        → list_any (is_same_cell (QuarterCell site pollutant quarter)) (reach old new) ≡ false
        → scheduled_days old site pollutant quarter ≡ scheduled_days new site pollutant quarter }
    ensures values { (old new : Office) (site : Site) (pollutant : Pollutant) (quarter : ℕ)
        → is_year (quarter_year quarter) ≡ true
        → IsOffice old
        → IsOffice new
        → list_any (is_same_cell (QuarterCell site pollutant quarter)) (reach old new) ≡ false
        → quarter_values old site pollutant quarter ≡ quarter_values new site pollutant quarter }
    ensures made_up { (old new : Office) (site : Site) (quarter : ℕ)
        → is_year (quarter_year quarter) ≡ true
        → IsOffice old
        → IsOffice new
        → list_any (is_same_cell (QuarterCell site Pm25 quarter)) (reach old new) ≡ false
        → credits old site quarter ≡ credits new site quarter }
    ensures pm25 { (old new : Office) (site : Site) (quarter : ℕ)
        → is_year (quarter_year quarter) ≡ true
        → IsOffice old
        → IsOffice new
        → list_any (is_same_cell (QuarterCell site Pm25 quarter)) (reach old new) ≡ false
        → pm25_quarter old site quarter ≡ pm25_quarter new site quarter }
    ensures pm10 { (old new : Office) (site : Site) (quarter : ℕ)
        → is_year (quarter_year quarter) ≡ true
        → IsOffice old
        → IsOffice new
        → list_any (is_same_cell (QuarterCell site Pm10 quarter)) (reach old new) ≡ false
        → pm10_quarter old site quarter ≡ pm10_quarter new site quarter }
{}

/// A corrected sample of PM2.5 reaches its year, whose greatest value is a new one. The years beside it are
/// out of reach.
pub fn a_corrected_sample_reaches_this()
    ensures valid_after { IsOffice corrected_sample }
    ensures years { map (λ year. list_any (is_same_cell (PmYearCell west year)) (reach scheduled corrected_sample)) (range_with_len 2023 3)
        ≡ false ∷ true ∷ false ∷ [] }
    ensures greatest { eight_greatest (values_in (pm25_year scheduled west 2024)) ≡ map pos (130 ∷ 120 ∷ []) }
    ensures new_greatest { eight_greatest (values_in (pm25_year corrected_sample west 2024)) ≡ map pos (300 ∷ 120 ∷ []) }
{}

/// A PM2.5 year that is not in reach has the values that it had, and so the same eight greatest ones. It
/// reads what its days read, and no schedule and no make-up, so its counts may change: they are kept with
/// its quarters. A year is one of the profile's.
pub fn values_of_a_pm25_year_out_of_reach_are_as_before()
    ensures values { (old new : Office) (site : Site) (year : ℕ)
        → is_year year ≡ true
        → IsOffice old
        → IsOffice new
        → list_any (is_same_cell (PmYearCell site year)) (reach old new) ≡ false
        → values_in (pm25_year old site year) ≡ values_in (pm25_year new site year) }
    ensures greatest { (old new : Office) (site : Site) (year : ℕ)
        → is_year year ≡ true
        → IsOffice old
        → IsOffice new
        → list_any (is_same_cell (PmYearCell site year)) (reach old new) ≡ false
        → (pm25_summary old site year).top ≡ (pm25_summary new site year).top }
{}

/// A year of PM2.5 or PM10 is as before if none of its four quarters is in reach: each quarter with its
/// counts and values, and of PM2.5 also what is kept of them.
pub fn years_whose_quarters_are_out_of_reach_are_as_before()
    ensures pm25 { (old new : Office) (site : Site) (year : ℕ)
        → is_year year ≡ true
        → IsOffice old
        → IsOffice new
        → list_any (λ quarter. list_any (is_same_cell (QuarterCell site Pm25 quarter)) (reach old new)) (quarters_of year) ≡ false
        → pm25_year old site year ≡ pm25_year new site year }
    ensures kept { (old new : Office) (site : Site) (year : ℕ)
        → is_year year ≡ true
        → IsOffice old
        → IsOffice new
        → list_any (λ quarter. list_any (is_same_cell (QuarterCell site Pm25 quarter)) (reach old new)) (quarters_of year) ≡ false
        → pm25_summary old site year ≡ pm25_summary new site year }
    ensures pm10 { (old new : Office) (site : Site) (year : ℕ)
        → is_year year ≡ true
        → IsOffice old
        → IsOffice new
        → list_any (λ quarter. list_any (is_same_cell (QuarterCell site Pm10 quarter)) (reach old new)) (quarters_of year) ≡ false
        → pm10_year old site year ≡ pm10_year new site year }
{}
