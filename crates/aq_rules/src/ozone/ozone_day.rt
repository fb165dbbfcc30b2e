//! The daily maximum, worked out.
#![tactic(auto)]

ghost use Rattle.std.specs.Prelude.{◌≡◌, ℕ, ◌+◌, ◌*◌, ◌<◌, ◌≤◌, true, false, ◌∷◌, ◌++◌, replicate, Some, None, pos};
ghost use Rattle.aq_base.specs.Site.{Site};
ghost use Rattle.aq_base.specs.Calendar.{hour_number};
ghost use Rattle.aq_rules.specs.Office.Office.{Office};
ghost use Rattle.aq_rules.specs.Ozone.SiteHour.{site_hour};
ghost use Rattle.aq_rules.specs.Ozone.OzoneDay.{OzoneDay, day_of_windows, windows, ozone_day};
ghost use Rattle.aq_rules.specs.Ozone.OzoneExamples.{site, summer_day, afternoon, smoky, day_with, empty_row, excluded_row, lowered_row};

/// Twelve averages do not make a valid day if the greatest is 0.070 ppm. Twelve averages make one
/// if the greatest is above the level. Thirteen averages make a valid day. What is excluded counts
/// for a day's validity: one full average above the level, or thirteen below it, make a valid day that
/// has no maximum.
pub fn days_are_valid_by_their_full_averages()
    ensures twelve_averages_at_the_level_are_too_few { day_with 12 70 ≡ record { averages = 12; valid = false; maximum = Some (pos 70) } }
    ensures twelve_averages_above_the_level_are_enough { day_with 12 71 ≡ record { averages = 12; valid = true; maximum = Some (pos 71) } }
    ensures thirteen_averages_are_enough { day_with 13 70 ≡ record { averages = 13; valid = true; maximum = Some (pos 70) } }
    ensures above { day_of_windows (excluded_row 71 ∷ replicate 16 empty_row) ≡ record { averages = 1; valid = true; maximum = None } }
    ensures at_level { day_of_windows (excluded_row 70 ∷ replicate 16 empty_row) ≡ record { averages = 1; valid = false; maximum = None } }
    ensures thirteen { day_of_windows (replicate 13 (excluded_row 50) ++ replicate 4 empty_row) ≡ record { averages = 13; valid = true; maximum = None } }
    ensures net_above { day_of_windows (lowered_row 75 60 ∷ replicate 16 empty_row) ≡ record { averages = 1; valid = true; maximum = Some (pos 60) } }
{}

/// Eight hours of 0.071 ppm from 10:00 make a valid day, of five averages. An event concurred in takes
/// its hours from the maximum, and not from the day's validity. A day reads no hour before its 07:00,
/// and none from 07:00 of the next day on.
pub fn days_of_offices()
    ensures eight_hours_above_the_level_are_a_valid_day { ozone_day afternoon site summer_day ≡ record { averages = 5; valid = true; maximum = Some (pos 71) } }
    ensures agreed { ozone_day (smoky true) site summer_day ≡ record { averages = 17; valid = true; maximum = Some (pos 60) } }
    ensures refused { ozone_day (smoky false) site summer_day ≡ record { averages = 17; valid = true; maximum = Some (pos 75) } }
    ensures averages { (a b : Office) (site : Site) (day : ℕ)
        → ((hour : ℕ) → hour_number day 7 ≤ hour → hour < hour_number day 31 → site_hour a site hour ≡ site_hour b site hour)
        → windows a site day ≡ windows b site day }
    ensures result { (a b : Office) (site : Site) (day : ℕ)
        → ((hour : ℕ) → hour_number day 7 ≤ hour → hour < hour_number day 31 → site_hour a site hour ≡ site_hour b site hour)
        → ozone_day a site day ≡ ozone_day b site day }
{}
