//! What cells that wait may cost, and what loads of ozone hours do.
ghost use Rattle.std.specs.Prelude.{◌≡◌, ◌≤◌, ◌+◌, ◌++◌, ◌∷◌, [], map, ℕ};
ghost use Rattle.std.specs.List.{range_with_len};
ghost use Rattle.aq_base.specs.Calendar.{hour_number};
ghost use Rattle.aq_base.specs.declared.monitor.MonitorId.{MonitorId};
ghost use Rattle.aq_base.specs.declared.monitor.Pollutant.TheVariants.{Ozone};
ghost use Rattle.aq_base.specs.declared.observation.ObsKey.{ObsKey};
ghost use Rattle.aq_cells.specs.Allowed.{steps_for_both, HoldReach};
ghost use Rattle.aq_cells.specs.Bound as particle_bound;
ghost use Rattle.aq_dirty.specs.Marked.{Marked};
ghost use Rattle.aq_dirty.specs.Particles.{MarkedParticles};
ghost use Rattle.aq_ozone_cells.specs.Bound as ozone_bound;
ghost use Rattle.aq_ozone_cells.specs.FilledDays as ozone_cells;
ghost use Rattle.aq_ozone_cells.specs.OzoneCells.{Cells};
ghost use Rattle.aq_particle_cells.specs.Days.KeptDays.{Days};
ghost use Rattle.aq_particle_cells.specs.Pm10.Pm10Cells.{Pm10Kept};
ghost use Rattle.aq_particle_cells.specs.Pm10.Pm10Levels as pm10_cells;
ghost use Rattle.aq_particle_cells.specs.Pm25.Pm25Levels as pm25_cells;
ghost use Rattle.aq_rules.specs.Kept.Cells.{CellName};
ghost use Rattle.aq_rules.specs.Kept.Reach.{ChangedLoad, ChangedObservation, changed_rows, cost};
ghost use Rattle.aq_rules.specs.Office.Office.{IsOffice, Office};

/// If the cells are those of the office of before, and the dirty sets hold the cells in reach of the change and
/// no others, then to bring them up to date makes at most the steps that the change costs. Fewer than 732 for an
/// ozone year, or than 800 for a quarter, are only allowed where no changed row says which of its days count;
/// its days then count as the office after the change has it.
pub(crate) fn settling_what_waits_costs_what_the_change_costs()
    ensures { (old new : Office) (cells : Cells) (days : Days) (kept : Pm10Kept)
        (ozone : Marked) (particles : MarkedParticles) (start end : ℕ)
        → IsOffice old
        → IsOffice new
        → ozone_cells.AreKept old cells
        → pm25_cells.AreKept old days
        → pm10_cells.AreKept old kept
        → HoldReach old new ozone particles
        → ((enough : CellName → ℕ) → ozone_bound.AreEnough new cells enough
        → particle_bound.AreEnough new days kept enough
        → end ≤ start + steps_for_both enough ozone particles)
        → end ≤ start + cost old new }
{}

/// Between any two offices, a change of a load's row alone costs 16 steps. With one row of ozone it costs
/// at most 108, and with those of a monitor's ozone day, from 07:00 to 06:00, at most 1,488.
pub fn loads_of_ozone_hours_cost_no_more_than_this()
    ensures none { (old new : Office) (number : ℕ)
        → changed_rows old new ≡ ChangedLoad number ∷ []
        → cost old new ≡ 16 }
    ensures hour { (old new : Office) (key : ObsKey) (number : ℕ)
        → key.monitor.pollutant ≡ Ozone
        → changed_rows old new ≡ ChangedObservation key ∷ ChangedLoad number ∷ []
        → cost old new ≤ 108 }
    ensures day { (old new : Office) (monitor : MonitorId) (day number : ℕ)
        → monitor.pollutant ≡ Ozone
        → changed_rows old new ≡ map (λ hour. ChangedObservation (record { monitor = monitor; hour = hour }))
        (range_with_len (hour_number day 7) 24) ++ ChangedLoad number ∷ []
        → cost old new ≤ 1488 }
{}
