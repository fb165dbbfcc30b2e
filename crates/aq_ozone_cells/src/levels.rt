//! What is kept is the office's, level by level.
ghost use Rattle.std.specs.Prelude.{◌≡◌, ◌+◌, ◌<◌, ◌≤◌, ℕ, true, false, IsTrue};
ghost use Rattle.std.specs.List.{list_any};
ghost use Rattle.aq_base.specs.Calendar.{hour_number};
ghost use Rattle.aq_base.specs.Site.{Site};
ghost use Rattle.aq_base.specs.declared.day.TheConstants.{LAST_HOUR};
ghost use Rattle.aq_rules.specs.Kept.Cells.{CellName as Cell, is_same_cell};
ghost use Rattle.aq_rules.specs.Kept.Reach.{reach};
ghost use Rattle.aq_rules.specs.Office.Office.{IsOffice, Office};
ghost use Rattle.aq_rules.specs.Ozone.EightHour.{window, window_by};
ghost use Rattle.aq_rules.specs.Ozone.OzoneDay.{windows, windows_by};
ghost use Rattle.aq_rules.specs.Ozone.OzoneYear.{ozone_year};
ghost use Rattle.aq_rules.specs.Ozone.SiteHour.{site_hour};
ghost use Rattle.aq_dirty.specs.Reach.{is_of_ozone};
ghost use Rattle.aq_ozone_cells.specs.FilledDays.{AreKept};
ghost use Rattle.aq_ozone_cells.specs.Settling.{IsCellOf};
ghost use Rattle.aq_ozone_cells.specs.KeptDays.{average_at, averages_of, held_at, hour_at};
ghost use Rattle.aq_ozone_cells.specs.OzoneCells.{average_of_hours, day_from, held_day, is_day_of, year_of_days, AreHeldBy, Cells};

/// If the hours that an average reads are kept as an office has them, the average that they give is the
/// office's, and so are the seventeen of a day. If the averages of a day are the office's, the day gives
/// its year what it gives it in the office. And if each day of a year is held so, each is held with the
/// office's season and approvals, and the year of these days is the office's.
pub fn kept_numbers_are_those_of_the_office()
    ensures average { (office : Office) (cells : Cells) (site : Site) (start : ℕ)
        → ((hour : ℕ) → start ≤ hour → hour < start + 8 → hour ≤ LAST_HOUR → hour_at cells site hour ≡ site_hour office site hour)
        → average_of_hours cells site start ≡ averages_of (window office site start) }
    ensures windows { (office : Office) (cells : Cells) (site : Site) (day : ℕ)
        → ((hour : ℕ) → hour_number day 7 ≤ hour → hour < hour_number day 7 + 24 → hour ≤ LAST_HOUR
        → hour_at cells site hour ≡ site_hour office site hour)
        → windows_by (window_by (hour_at cells site)) day ≡ windows office site day }
    ensures day { (office : Office) (cells : Cells) (site : Site) (day : ℕ)
        → ((start : ℕ) → hour_number day 7 ≤ start → start < hour_number day 7 + 17 → average_at cells site start ≡ averages_of (window office site start))
        → day_from office.records cells site day ≡ held_day office site day }
    ensures held { (office : Office) (cells : Cells) (site : Site) (year : ℕ)
        → ((day : ℕ) → IsTrue (is_day_of year day) → held_at cells site day ≡ held_day office site day)
        → AreHeldBy office.records cells site year }
    ensures year { (office : Office) (cells : Cells) (site : Site) (year : ℕ)
        → ((day : ℕ) → IsTrue (is_day_of year day) → held_at cells site day ≡ held_day office site day)
        → year_of_days office.records cells site year ≡ ozone_year office site year }
{}

/// The cells of an office that a change of its rows does not reach are those of the office after it: an
/// hour, an average and a day that are out of reach, and the days of a year that is.
pub fn cells_out_of_reach_are_those_of_the_office_after_it()
    ensures { (old new : Office) (cells : Cells) (cell : Cell)
        → IsOffice old
        → IsOffice new
        → AreKept old cells
        → (is_of_ozone cell ≡ true → list_any (is_same_cell cell) (reach old new) ≡ false)
        → IsCellOf new cells cell }
{}
