//! Strata of PM10 that are not in reach.
#![tactic(auto)]

ghost use Rattle.std.specs.Prelude.{◌≡◌, ℕ, ◌+◌, ◌≤◌, false, true, List, [], ◌∷◌, Some, pos, length, map, filter_map, count_by, slice_get, Contains};
ghost use Rattle.std.specs.List.{list_any, range_with_len};
ghost use Rattle.aq_base.specs.Calendar.{is_year, quarter_of, quarter_year};
ghost use Rattle.aq_base.specs.Site.{Site};
ghost use Rattle.aq_base.specs.declared.day.TheConstants.{LAST_DAY};
ghost use Rattle.aq_base.specs.declared.monitor.Pollutant.TheVariants.{Pm10};
ghost use Rattle.aq_rules.specs.Kept.Cells.{QuarterCell, StratumCell, is_same_cell};
ghost use Rattle.aq_rules.specs.Kept.Reach.{reach};
ghost use Rattle.aq_rules.specs.Office.Office.{IsOffice, Office};
ghost use Rattle.aq_rules.specs.Office.OfficeExamples.{plain_day, west};
ghost use Rattle.aq_rules.specs.Particles.ParticleDay.{net_day, site_day};
ghost use Rattle.aq_rules.specs.Particles.Pm10Estimate.{exceeds};
ghost use Rattle.aq_rules.specs.Particles.Strata.{strata_of, stratum_of};
ghost use Rattle.aq_dirty.specs.OutOfReach.Examples.{corrected_pm10, every_sixth, every_third};

/// A corrected sample of PM10 on 1 July 2024 reaches the stratum that starts there. The next one, from 7 to
/// 12 July, is out of reach, with its sample of 8 July. Both offices are valid ones, so the laws speak of
/// them.
pub fn a_corrected_pm10_sample_reaches_this()
    ensures valid_before { IsOffice every_sixth }
    ensures valid_after { IsOffice corrected_pm10 }
    ensures strata { map (λ days. list_any (is_same_cell (StratumCell west (plain_day + days))) (reach every_sixth corrected_pm10)) (0 ∷ 6 ∷ 12 ∷ [])
        ≡ true ∷ false ∷ false ∷ [] }
    ensures stratum { stratum_of every_sixth west (plain_day + 7) ≡ Some (plain_day + 6) }
    ensures second { slice_get (strata_of every_sixth west (quarter_of plain_day)) 1 ≡ Some (range_with_len (plain_day + 6) 6) }
    ensures samples { filter_map (net_day every_sixth west Pm10) (range_with_len (plain_day + 6) 6) ≡ map pos (1600 ∷ []) }
    ensures same_samples { filter_map (net_day corrected_pm10 west Pm10) (range_with_len (plain_day + 6) 6) ≡ map pos (1600 ∷ []) }
    ensures new_samples { filter_map (net_day corrected_pm10 west Pm10) (range_with_len plain_day 6) ≡ map pos (1700 ∷ []) }
{}

/// A new schedule from 1 October to the end of 2024 reaches the strata of that quarter: those of the old
/// schedule, which start on 1, 5, 11 October and so on, and those of the new one, from 1, 4, 7 October on.
/// The last stratum of the quarter before and the first of the next one are out of reach.
pub fn a_new_schedule_reaches_this()
    ensures valid_after { IsOffice every_third }
    ensures strata { map (λ days. list_any (is_same_cell (StratumCell west (plain_day + days))) (reach every_sixth every_third)) (90 ∷ 92 ∷ 95 ∷ 96 ∷ 184 ∷ [])
        ≡ false ∷ true ∷ true ∷ true ∷ false ∷ [] }
    ensures quarters { map (λ quarter. list_any (is_same_cell (QuarterCell west Pm10 quarter)) (reach every_sixth every_third)) (range_with_len (quarter_of plain_day) 3)
        ≡ false ∷ true ∷ false ∷ [] }
    ensures old_stratum { stratum_of every_sixth west (plain_day + 97) ≡ Some (plain_day + 96) }
    ensures new_stratum { stratum_of every_third west (plain_day + 97) ≡ Some (plain_day + 95) }
{}

/// A day that one office has in a stratum that is not in reach is in that stratum in the other office too,
/// and has the value that it had. A stratum reads the observations, designations and events of its days,
/// and the schedules whose days meet its quarter, by the records of the old office and by those of the new
/// one.
pub fn days_of_strata_out_of_reach_are_as_before()
    ensures stays { (old new : Office) (site : Site) (first day : ℕ)
        → day ≤ LAST_DAY
        → IsOffice old
        → IsOffice new
        → list_any (is_same_cell (StratumCell site first)) (reach old new) ≡ false
        → stratum_of old site day ≡ Some first
        → stratum_of new site day ≡ Some first }
    ensures stood { (old new : Office) (site : Site) (first day : ℕ)
        → day ≤ LAST_DAY
        → IsOffice old
        → IsOffice new
        → list_any (is_same_cell (StratumCell site first)) (reach old new) ≡ false
        → stratum_of new site day ≡ Some first
        → stratum_of old site day ≡ Some first }
    ensures value { (old new : Office) (site : Site) (first day : ℕ)
        → day ≤ LAST_DAY
        → IsOffice old
        → IsOffice new
        → list_any (is_same_cell (StratumCell site first)) (reach old new) ≡ false
        → stratum_of old site day ≡ Some first
        → site_day old site Pm10 day ≡ site_day new site Pm10 day }
{}

/// A stratum of PM10 that is not in reach is as before. If one office has it, its quarter is cut into the
/// same strata in both; and it has the samples that it had, so as many of them, and as many that exceed.
/// The quarter is one of the profile's.
pub fn strata_out_of_reach_are_as_before()
    ensures strata { (old new : Office) (site : Site) (quarter first : ℕ) (days : List ℕ)
        → is_year (quarter_year quarter) ≡ true
        → IsOffice old
        → IsOffice new
        → list_any (is_same_cell (StratumCell site first)) (reach old new) ≡ false
        → Contains (strata_of old site quarter) (first ∷ days)
        → strata_of old site quarter ≡ strata_of new site quarter }
    ensures new_strata { (old new : Office) (site : Site) (quarter first : ℕ) (days : List ℕ)
        → is_year (quarter_year quarter) ≡ true
        → IsOffice old
        → IsOffice new
        → list_any (is_same_cell (StratumCell site first)) (reach old new) ≡ false
        → Contains (strata_of new site quarter) (first ∷ days)
        → strata_of old site quarter ≡ strata_of new site quarter }
    ensures samples { (old new : Office) (site : Site) (quarter first : ℕ) (days : List ℕ)
        → is_year (quarter_year quarter) ≡ true
        → IsOffice old
        → IsOffice new
        → list_any (is_same_cell (StratumCell site first)) (reach old new) ≡ false
        → Contains (strata_of old site quarter) (first ∷ days)
        → filter_map (net_day old site Pm10) (first ∷ days) ≡ filter_map (net_day new site Pm10) (first ∷ days) }
    ensures number { (old new : Office) (site : Site) (quarter first : ℕ) (days : List ℕ)
        → is_year (quarter_year quarter) ≡ true
        → IsOffice old
        → IsOffice new
        → list_any (is_same_cell (StratumCell site first)) (reach old new) ≡ false
        → Contains (strata_of old site quarter) (first ∷ days)
        → length (filter_map (net_day old site Pm10) (first ∷ days)) ≡ length (filter_map (net_day new site Pm10) (first ∷ days)) }
    ensures exceedances { (old new : Office) (site : Site) (quarter first : ℕ) (days : List ℕ)
        → is_year (quarter_year quarter) ≡ true
        → IsOffice old
        → IsOffice new
        → list_any (is_same_cell (StratumCell site first)) (reach old new) ≡ false
        → Contains (strata_of old site quarter) (first ∷ days)
        → count_by exceeds (filter_map (net_day old site Pm10) (first ∷ days)) ≡ count_by exceeds (filter_map (net_day new site Pm10) (first ∷ days)) }
{}
