//! The averages of a day, worked out, as their sheets print them.
#![tactic(auto)]

ghost use Rattle.std.specs.Prelude.{◌≡◌, true, [], ◌∷◌, ◌++◌, codes, map, replicate, Some, None, pos};
ghost use Rattle.aq_base.specs.Calendar.{hour_number};
ghost use Rattle.aq_rules.specs.Ozone.EightHour.{WindowRow};
ghost use Rattle.aq_rules.specs.Ozone.OzoneDay.{windows};
ghost use Rattle.aq_rules.specs.Shown.Sheet.{text_of};
ghost use Rattle.aq_rules.specs.Shown.Sheets.{load_sheet, windows_answer};
ghost use Rattle.aq_rules.specs.Ozone.OzoneExamples.{site, summer_day, old_years_day, new_years_day, afternoon, nine_lines, one_hour, empty_row, single_row, smoky};

/// The reply to a monitor and eight hours of values. Eight hours of 0.071 ppm from 10:00: the averages
/// that read six of them or more are there. An hour at 06:00 is read by the average of 23:00 on the day
/// before, and by no average of its own day. An hour at 07:00 is read by the average of that hour, and
/// by no average of the day before. With the event concurred in, six net averages are gone, and the
/// full ones stay.
pub fn windows_of_offices()
    ensures load_of_nine_lines { text_of (load_sheet nine_lines)
        ≡ codes "load 0\nlines 9\naccepted 9\nrefused 0\nline rule name count\n" }
    ensures windows_of_eight_hours { text_of (windows_answer afternoon site summer_day)
        ≡ codes "site 06-037-1103\nday 2024-07-01\nhour average hours full full_hours\n"
        ++ codes "07:00 - 5 - 5\n08:00 0.071 6 0.071 6\n09:00 0.071 7 0.071 7\n"
        ++ codes "10:00 0.071 8 0.071 8\n11:00 0.071 7 0.071 7\n12:00 0.071 6 0.071 6\n"
        ++ codes "13:00 - 5 - 5\n14:00 - 4 - 4\n15:00 - 3 - 3\n16:00 - 2 - 2\n17:00 - 1 - 1\n"
        ++ codes "18:00 - 0 - 0\n19:00 - 0 - 0\n20:00 - 0 - 0\n21:00 - 0 - 0\n22:00 - 0 - 0\n"
        ++ codes "23:00 - 0 - 0\n" }
    ensures before { windows (one_hour (hour_number new_years_day 6)) site old_years_day
        ≡ replicate 16 empty_row ++ single_row ∷ [] }
    ensures same_day { windows (one_hour (hour_number new_years_day 6)) site new_years_day ≡ replicate 17 empty_row }
    ensures seven_o_clock_counts_for_its_day_before { windows (one_hour (hour_number new_years_day 7)) site old_years_day ≡ replicate 17 empty_row }
    ensures seven_o_clock_counts_for_its_day_same_day { windows (one_hour (hour_number new_years_day 7)) site new_years_day
        ≡ single_row ∷ replicate 16 empty_row }
    ensures net { map (λ (r : WindowRow). r.net) (windows (smoky true) site summer_day)
        ≡ replicate 6 None ++ replicate 11 (Some (pos 60)) }
    ensures full { map (λ (r : WindowRow). r.full) (windows (smoky true) site summer_day)
        ≡ replicate 6 (Some (pos 75)) ++ Some (pos 70) ∷ Some (pos 65) ∷ replicate 9 (Some (pos 60)) }
    ensures net_hours { map (λ (r : WindowRow). r.net_hours) (windows (smoky true) site summer_day)
        ≡ replicate 6 5 ++ 6 ∷ 7 ∷ replicate 9 8 }
    ensures full_hours { map (λ (r : WindowRow). r.full_hours) (windows (smoky true) site summer_day) ≡ replicate 17 8 }
{}
