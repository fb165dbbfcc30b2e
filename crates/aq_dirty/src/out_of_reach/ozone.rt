//! Averages, days and years of ozone that are not in reach.
#![tactic(auto)]

ghost use Rattle.std.specs.Prelude.{◌≡◌, ℕ, ◌+◌, ◌-◌, false, true, Some, pos, [], ◌∷◌, ◌++◌, map, replicate};
ghost use Rattle.std.specs.List.{list_any, range_with_len};
ghost use Rattle.aq_base.specs.Calendar.{is_year, year_of};
ghost use Rattle.aq_base.specs.Site.{Site};
ghost use Rattle.aq_rules.specs.Kept.Cells.{WindowCell, OzoneDayCell, OzoneYearCell, is_same_cell};
ghost use Rattle.aq_rules.specs.Kept.Reach.{reach};
ghost use Rattle.aq_rules.specs.Office.Approval.{is_approved};
ghost use Rattle.aq_rules.specs.Office.Office.{IsOffice, Office};
ghost use Rattle.aq_rules.specs.Office.OfficeExamples.{east, noon, plain_day, west};
ghost use Rattle.aq_rules.specs.Office.Season.{season_of};
ghost use Rattle.aq_rules.specs.Ozone.EightHour.{window};
ghost use Rattle.aq_rules.specs.Ozone.OzoneDay.{ozone_day};
ghost use Rattle.aq_rules.specs.Ozone.OzoneYear.{counts_as_valid, ozone_days, ozone_year};
ghost use Rattle.aq_dirty.specs.OutOfReach.Examples.{afternoon, corrected};

/// A correction of the ozone at noon of 1 July 2024 reaches the averages that start at 05:00 to noon, the
/// day and the year. The averages and days beside them are out of reach, the years beside it, and what is
/// of another site. Both offices are valid ones, so the laws speak of them. The average from noon changes;
/// that from 13:00 is out of reach, and stays.
pub fn a_corrected_hour_reaches_this()
    ensures valid_before { IsOffice afternoon }
    ensures valid_after { IsOffice corrected }
    ensures averages { map (λ start. list_any (is_same_cell (WindowCell west start)) (reach afternoon corrected)) (range_with_len (noon - 8) 10)
        ≡ false ∷ replicate 8 true ++ false ∷ [] }
    ensures days { map (λ day. list_any (is_same_cell (OzoneDayCell west day)) (reach afternoon corrected)) (range_with_len (plain_day - 1) 3)
        ≡ false ∷ true ∷ false ∷ [] }
    ensures years { map (λ year. list_any (is_same_cell (OzoneYearCell west year)) (reach afternoon corrected)) (range_with_len 2023 3)
        ≡ false ∷ true ∷ false ∷ [] }
    ensures other_site { list_any (is_same_cell (OzoneYearCell east 2024)) (reach afternoon corrected) ≡ false }
    ensures from_noon { (window afternoon west noon).full ≡ Some (pos 60) }
    ensures corrected_from_noon { (window corrected west noon).full ≡ Some (pos 63) }
    ensures from_13 { (window afternoon west (noon + 1)).full ≡ Some (pos 60) }
    ensures corrected_from_13 { (window corrected west (noon + 1)).full ≡ Some (pos 60) }
{}

/// An 8-hour average that is not in reach is as before, the full one and the net one, each with the
/// number of its hours. It reads the eight hours from its start, as far as the profile goes.
pub fn averages_out_of_reach_are_as_before()
    ensures { (old new : Office) (site : Site) (start : ℕ)
        → IsOffice old
        → IsOffice new
        → list_any (is_same_cell (WindowCell site start)) (reach old new) ≡ false
        → window old site start ≡ window new site start }
{}

/// An ozone day that is not in reach is as before: how many full averages it has, whether it is valid,
/// and its maximum. It reads the hours of its averages, from 07:00 to 06:00 of the next day. Whether the
/// day is approved is no part of it: its year reads that.
pub fn ozone_days_out_of_reach_are_as_before()
    ensures { (old new : Office) (site : Site) (day : ℕ)
        → IsOffice old
        → IsOffice new
        → list_any (is_same_cell (OzoneDayCell site day)) (reach old new) ≡ false
        → ozone_day old site day ≡ ozone_day new site day }
{}

/// What an ozone year reads beside the hours is as before if the year is not in reach: its season, and
/// which of its days are approved. A changed season or approval reaches the year alone.
pub fn seasons_and_approvals_out_of_reach_are_as_before()
    ensures season { (old new : Office) (site : Site) (year : ℕ)
        → list_any (is_same_cell (OzoneYearCell site year)) (reach old new) ≡ false
        → season_of old.records site year ≡ season_of new.records site year }
    ensures approval { (old new : Office) (site : Site) (day : ℕ)
        → list_any (is_same_cell (OzoneYearCell site (year_of day))) (reach old new) ≡ false
        → is_approved old.records site day ≡ is_approved new.records site day }
{}

/// An ozone year that is not in reach is as before. It reads the hours of its days, so each of them has
/// the averages, the validity and the maximum that it had, and counts as valid, by its averages or by
/// approval, if it did. With its season, the year has as many days of the season as before and as many of
/// them that count, as many ranked maxima, and the same fourth highest. A year is one of the profile's.
pub fn ozone_years_out_of_reach_are_as_before()
    ensures day { (old new : Office) (site : Site) (day : ℕ)
        → IsOffice old
        → IsOffice new
        → list_any (is_same_cell (OzoneYearCell site (year_of day))) (reach old new) ≡ false
        → ozone_day old site day ≡ ozone_day new site day }
    ensures counts { (old new : Office) (site : Site) (day : ℕ)
        → IsOffice old
        → IsOffice new
        → list_any (is_same_cell (OzoneYearCell site (year_of day))) (reach old new) ≡ false
        → counts_as_valid old site day ≡ counts_as_valid new site day }
    ensures days { (old new : Office) (site : Site) (year : ℕ)
        → is_year year ≡ true
        → IsOffice old
        → IsOffice new
        → list_any (is_same_cell (OzoneYearCell site year)) (reach old new) ≡ false
        → ozone_days old site year ≡ ozone_days new site year }
    ensures year { (old new : Office) (site : Site) (year : ℕ)
        → is_year year ≡ true
        → IsOffice old
        → IsOffice new
        → list_any (is_same_cell (OzoneYearCell site year)) (reach old new) ≡ false
        → ozone_year old site year ≡ ozone_year new site year }
{}
