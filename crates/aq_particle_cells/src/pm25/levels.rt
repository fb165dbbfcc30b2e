//! What is kept of PM2.5 is the office's.
ghost use Rattle.std.specs.Prelude.{◌≡◌, false, ℕ};
ghost use Rattle.std.specs.List.{list_any};
ghost use Rattle.aq_base.specs.Site.{Site};
ghost use Rattle.aq_rules.specs.Kept.Cells.{CellName as Cell, is_same_cell};
ghost use Rattle.aq_rules.specs.Kept.Reach.{reach};
ghost use Rattle.aq_rules.specs.Kept.Summaries.{pm25_summary};
ghost use Rattle.aq_rules.specs.Office.Office.{IsOffice, Office};
ghost use Rattle.aq_particle_cells.specs.Days.KeptDays.{Days};
ghost use Rattle.aq_particle_cells.specs.Pm25.Pm25Cells.{year_of_days, AreCountedBy};
ghost use Rattle.aq_particle_cells.specs.Pm25.Pm25Levels.{AreKept, IsCellOf};

/// If all days are kept as an office has them, those of each year count by its schedules and make-ups, and the
/// year that they give is the office's.
pub fn kept_numbers_are_those_of_the_office()
    ensures counted { (office : Office) (days : Days) (site : Site) (year : ℕ)
        → AreKept office days
        → AreCountedBy office.records days site year }
    ensures year { (office : Office) (days : Days) (site : Site) (year : ℕ)
        → AreKept office days
        → year_of_days office.records days site year ≡ pm25_summary office site year }
{}

/// The cells of an office that a change of its rows does not reach are those of the office after it.
pub fn cells_out_of_reach_are_those_of_the_office_after_it()
    ensures { (old new : Office) (days : Days) (cell : Cell)
        → IsOffice old
        → IsOffice new
        → AreKept old days
        → list_any (is_same_cell cell) (reach old new) ≡ false
        → IsCellOf new days cell }
{}
