//! The sheets of ozone days and of a design value, as they print.
#![tactic(auto)]

ghost use Rattle.std.specs.Prelude.{◌≡◌, ℕ, List, ◌+◌, length, map, take, true, false, ◌∷◌, [], ◌++◌, codes, Some, None, pos};
ghost use Rattle.std.specs.List.{flat_map};
ghost use Rattle.aq_base.specs.Calendar.{days_in_year};
ghost use Rattle.aq_base.specs.Site.{Site};
ghost use Rattle.aq_base.specs.declared.standard.Standard.{Standard};
ghost use Rattle.aq_rules.specs.Office.Office.{Office};
ghost use Rattle.aq_rules.specs.Office.Season.{Season};
ghost use Rattle.aq_rules.specs.Ozone.OzoneDay.{OzoneDay};
ghost use Rattle.aq_rules.specs.Ozone.OzoneVerdict.{ozone_dv};
ghost use Rattle.aq_rules.specs.Shown.Sheet.{line_of, text_of};
ghost use Rattle.aq_rules.specs.Shown.Sheets.{days_answer, days_sheet, load_sheet, ozone_value_sheet, windows_answer, windows_sheet};
ghost use Rattle.aq_rules.specs.Shown.ShownExamples.{incomplete_ozone, reply_with_rest, three_ozone_years, three_windows, two_days};
ghost use Rattle.aq_rules.specs.Shown.OtherSheets.{value_answer};
ghost use Rattle.aq_rules.specs.Ozone.OzoneExamples.{site, summer_day, day_with, year_with, year_without_fourth};

/// The first two days of a year, of which the second has no average and is approved. A load with listed
/// lines and further ones of two rules. Each column of windows, days and a design value prints its own
/// field: all fields of the records differ. A day that is not valid prints its maximum, too. Three
/// years and their design value.
pub fn sheets_of_loads_and_of_ozone_print()
    ensures days_print { text_of
        (days_sheet site 2000 (record { first = 3712; last = 3956 })
        (day_with 12 70 ∷ record { averages = 0; valid = false; maximum = None } ∷ [])
        (false ∷ true ∷ []) (year_with 221 71))
        ≡ codes "site 06-037-1103\nyear 2000\nseason_first 2000-03-01\nseason_last 2000-10-31\n"
        ++ codes "season_days 245\nseason_valid 221\nfourth 0.071\n"
        ++ codes "day averages valid approved maximum\n"
        ++ codes "2000-01-01 12 N N 0.070\n2000-01-02 0 N Y -\n" }
    ensures refused_lines_print { text_of (load_sheet reply_with_rest)
        ≡ codes "load 8\nlines 530\naccepted 12\nrefused 515\nline rule name count\n"
        ++ codes "3 21 AlreadyThere 1\n17 7 BadPoc 1\n- 11 BadDate 9\n- 22 NotThere 4\n" }
    ensures windows { text_of (windows_sheet site summer_day three_windows)
        ≡ codes "site 06-037-1103\nday 2024-07-01\nhour average hours full full_hours\n"
        ++ codes "07:00 0.065 6 0.071 8\n08:00 - 2 - 5\n09:00 - 4 0.068 7\n" }
    ensures days { map (λ totals. text_of (days_sheet site 2000 (record { first = 3712; last = 3956 }) two_days (false ∷ true ∷ []) totals)) (take 1 three_ozone_years)
        ≡ (codes "site 06-037-1103\nyear 2000\nseason_first 2000-03-01\nseason_last 2000-10-31\n"
        ++ codes "season_days 245\nseason_valid 240\nfourth 0.071\n"
        ++ codes "day averages valid approved maximum\n"
        ++ codes "2000-01-01 13 Y N 0.066\n2000-01-02 5 N Y 0.059\n") ∷ [] }
    ensures value { text_of (ozone_value_sheet site 2024 three_ozone_years incomplete_ozone)
        ≡ codes "standard O3-2015\nsite 06-037-1103\nyear 2024\nvalue 0.070\ntest -\nverdict Incomplete\n"
        ++ codes "year ranked fourth season_days season_valid\n"
        ++ codes "2022 250 0.071 245 240\n2023 230 0.069 214 209\n2024 3 - 365 301\n" }
    ensures met { text_of
        (ozone_value_sheet site 2024 (year_with 245 71 ∷ year_with 245 71 ∷ year_with 240 70 ∷ [])
        (ozone_dv (year_with 245 71 ∷ year_with 245 71 ∷ year_with 240 70 ∷ [])))
        ≡ codes "standard O3-2015\nsite 06-037-1103\nyear 2024\nvalue 0.070\ntest -\nverdict Met\n"
        ++ codes "year ranked fourth season_days season_valid\n"
        ++ codes "2022 245 0.071 245 245\n2023 245 0.071 245 245\n2024 240 0.070 245 240\n" }
    ensures no_value { text_of
        (ozone_value_sheet site 2024 (year_without_fourth ∷ year_with 245 71 ∷ year_with 240 70 ∷ [])
        (ozone_dv (year_without_fourth ∷ year_with 245 71 ∷ year_with 240 70 ∷ [])))
        ≡ codes "standard O3-2015\nsite 06-037-1103\nyear 2024\nvalue -\ntest -\nverdict NoValue\n"
        ++ codes "year ranked fourth season_days season_valid\n"
        ++ codes "2022 3 - 245 3\n2023 245 0.071 245 245\n2024 240 0.070 245 240\n" }
{}

/// The windows of a day have seventeen rows, a year's days one row each, and a design value three.
pub fn sheets_have_their_rows()
    ensures windows { (office : Office) (site : Site) (day : ℕ) → length (windows_answer office site day).rows ≡ 17 }
    ensures days { (office : Office) (site : Site) (year : ℕ) → length (days_answer office site year).rows ≡ days_in_year year }
    ensures value { (standard : Standard) (office : Office) (site : Site) (year : ℕ) → length (value_answer standard office site year).rows ≡ 3 }
{}

/// A line is its first word, each further one after a space, and LF.
pub fn words_stand_behind_single_spaces()
    ensures { (word : List ℕ) (words : List (List ℕ))
        → line_of (word ∷ words) ≡ (word ++ flat_map (λ (w : List ℕ). codes " " ++ w) words) ++ codes "\n" }
{}
