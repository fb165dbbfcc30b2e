//! What is kept of PM10 is the office's.
ghost use Rattle.std.specs.Prelude.{◌≡◌, false, ℕ};
ghost use Rattle.std.specs.List.{list_any};
ghost use Rattle.aq_base.specs.Site.{Site};
ghost use Rattle.aq_rules.specs.Kept.Cells.{CellName as Cell, is_same_cell};
ghost use Rattle.aq_rules.specs.Kept.Reach.{reach};
ghost use Rattle.aq_rules.specs.Office.Office.{IsOffice, Office};
ghost use Rattle.aq_rules.specs.Particles.Pm10Estimate.{pm10_year};
ghost use Rattle.aq_particle_cells.specs.Pm10.Pm10Cells.{pm10_year_of_days, AreCountedBy, Pm10Kept};
ghost use Rattle.aq_particle_cells.specs.Pm10.Pm10Levels.{AreKept, IsCellOf};

/// If all days and strata are kept as an office has them, those of each year count by its schedules, and the
/// year that they give is the office's.
pub fn kept_numbers_are_those_of_the_office()
    ensures counted { (office : Office) (kept : Pm10Kept) (site : Site) (year : ℕ)
        → AreKept office kept
        → AreCountedBy office.records kept site year }
    ensures year { (office : Office) (kept : Pm10Kept) (site : Site) (year : ℕ)
        → AreKept office kept
        → pm10_year_of_days office.records kept.days site year ≡ pm10_year office site year }
{}

/// The cells of an office that a change of its rows does not reach are those of the office after it.
pub fn cells_out_of_reach_are_those_of_the_office_after_it()
    ensures { (old new : Office) (kept : Pm10Kept) (cell : Cell)
        → IsOffice old
        → IsOffice new
        → AreKept old kept
        → list_any (is_same_cell cell) (reach old new) ≡ false
        → IsCellOf new kept cell }
{}
