//! Cells that wait are brought up to date, lower levels first.
ghost use Rattle.std.specs.Prelude.{◌≡◌, ◌≤◌, ◌+◌, ℕ, false, OnOk};
ghost use Rattle.aq_dirty.specs.Marked.{named};
ghost use Rattle.aq_dirty.specs.Particles.{holds_particle};
ghost use Rattle.aq_particle_cells.specs.Pm10.Pm10Levels as pm10_cells;
ghost use Rattle.aq_particle_cells.specs.Pm25.Pm25Levels as pm25_cells;
ghost use Rattle.aq_registry.specs.Registry.{office_with};
ghost use Rattle.aq_rules.specs.Kept.Cells.{CellName as Cell};
ghost use Rattle.aq_rules.specs.Office.Office.{IsOffice};
ghost use Rattle.aq_series.specs.OfficeView.{office_of};
ghost use Rattle.aq_cells.specs.Bound.{steps_for, AreEnough};

use aq_base::{Memory, Pollutant, SiteId, Steps};
use aq_dirty::{CellName, DirtyParticles, the_particle_cells_held_are_a_list};
use aq_particle_cells::pm10::Pm10Cells;
use aq_particle_cells::pm25::Pm25Cells;
use aq_registry::Registry;
use aq_rules::kept::reach::a_cell_less_is_its_steps_less;
use aq_shelf::Shelf;
use std::sync::ledger::Ledger;

/// Brings the cells that wait up to date with the office of these records and observations, of which all
/// others are: days before strata, these before quarters, and these before years. At most the steps that the
/// book of rules allows for each: 16 and three look-ups for each sample for a day, 16 for a stratum, and 800
/// for a quarter, but none if its days count as they should already.
pub(crate) fn settle<L: Ledger>(
    pm25: &mut Pm25Cells,
    pm10: &mut Pm10Cells,
    waiting: &mut DirtyParticles,
    shelf: &Shelf,
    registry: &Registry,
    steps: &mut Steps<L>,
) -> Result<(), Memory>
    requires pm25 { (cell : Cell) → holds_particle waiting.old cell ≡ false
        → pm25_cells.IsCellOf (office_of registry.now shelf.now) pm25.old cell }
    requires pm10 { (cell : Cell) → holds_particle waiting.old cell ≡ false
        → pm10_cells.IsCellOf (office_of registry.now shelf.now) pm10.old cell }
    ensures pm25 { OnOk result (pm25_cells.AreKept (office_of registry.now shelf.now) pm25.new) }
    ensures pm10 { OnOk result (pm10_cells.AreKept (office_of registry.now shelf.now) pm10.new) }
    ensures steps { (enough : Cell → ℕ)
        → AreEnough (office_of registry.now shelf.now) pm25.old pm10.old enough
        → steps.new ≤ steps.old + steps_for enough waiting.old }
{
    a_cell_less_is_its_steps_less();
    the_particle_cells_held_are_a_list();
    records_are_valid(registry);
    while let Some(cell) = waiting.next() {
        bring_up(pm25, pm10, &cell, shelf, registry, steps)?;
        waiting.settle(cell);
    }
    Ok(())
}

/// Brings a cell up to date: what is kept of it of PM2.5, and of PM10.
fn bring_up<L: Ledger>(
    pm25: &mut Pm25Cells,
    pm10: &mut Pm10Cells,
    cell: &CellName,
    shelf: &Shelf,
    registry: &Registry,
    steps: &mut Steps<L>,
) -> Result<(), Memory>
    requires below { pm10_cells.AreBelow (office_of registry.now shelf.now) pm10.old
        (named cell.now) }
    requires valid { IsOffice (office_with registry.now) }
    ensures pm25_stay { OnOk result
        (pm25_cells.CellsStay (office_of registry.now shelf.now) pm25.old pm25.new) }
    ensures pm25 { OnOk result
        (pm25_cells.IsCellOf (office_of registry.now shelf.now) pm25.new (named cell.now)) }
    ensures pm10_stay { OnOk result
        (pm10_cells.CellsStay (office_of registry.now shelf.now) pm10.old pm10.new) }
    ensures pm10 { OnOk result
        (pm10_cells.IsCellOf (office_of registry.now shelf.now) pm10.new (named cell.now)) }
    ensures steps { (enough : Cell → ℕ)
        → AreEnough (office_of registry.now shelf.now) pm25.old pm10.old enough
        → steps.new ≤ steps.old + enough (named cell.now) }
{
    aq_particle_cells::pm25::bring_up(pm25, cell, shelf, registry, steps)?;
    aq_particle_cells::pm10::bring_up(pm10, cell, shelf, registry, steps)?;
    Ok(())
}

/// The proof learns that the records are those of a valid office.
fn records_are_valid(registry: &Registry)
    ensures { IsOffice (office_with registry.now) }
{
    let Some(site) = SiteId::new(0, 0, 0) else {
        return; // There is such a number.
    };
    let _ = registry.next_poc(site, Pollutant::Pm25, 0);
}
