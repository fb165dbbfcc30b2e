//! PM2.5 cells that wait are brought up to date.
ghost use Rattle.std.specs.Prelude.{◌≤◌, ◌+◌, ℕ, List, OnOk};
ghost use Rattle.aq_base.specs.declared.observation.ObsKey.{ObsKey};
ghost use Rattle.aq_base.specs.declared.observation.Observation.{Observation};
ghost use Rattle.aq_rules.specs.Kept.Cells.{CellName as Cell, PmDayCell, QuarterCell};
ghost use Rattle.aq_dirty.specs.Marked.{named};
ghost use Rattle.aq_series.specs.OfficeView.{office_of};
ghost use Rattle.aq_particle_cells.specs.Pm25.Bound.{own_steps, AreEnough};
ghost use Rattle.aq_particle_cells.specs.Pm25.Pm25Levels.{CellsStay, IsCellOf};

use crate::pm25::cells::Pm25Cells;
use aq_base::{Day, Memory, Pollutant, Quarter, SiteId, Steps};
use aq_dirty::CellName;
use aq_registry::Registry;
use aq_series::site_day;
use aq_shelf::Shelf;
use std::sync::ledger::Ledger;

/// Brings a cell up to date with the office of these records and observations: a day or a quarter of PM2.5. The
/// quarters and years of the days that are kept follow the days; of other cells nothing is kept here. At most
/// 16 steps and the look-ups of a day for a day, and 800 for a quarter, but none if its days count as they
/// should.
pub fn bring_up<L: Ledger>(
    cells: &mut Pm25Cells,
    cell: &CellName,
    shelf: &Shelf,
    registry: &Registry,
    steps: &mut Steps<L>,
) -> Result<(), Memory>
    ensures stay { OnOk result (CellsStay (office_of registry.now shelf.now) cells.old cells.new) }
    ensures cell { OnOk result
        (IsCellOf (office_of registry.now shelf.now) cells.new (named cell.now)) }
    ensures steps { (enough : Cell → ℕ)
        → AreEnough (office_of registry.now shelf.now) cells.old enough
        → steps.new ≤ steps.old + own_steps enough (named cell.now) }
{
    match cell {
        CellName::PmDay(site, pollutant, day) => {
            bring_up_day(cells, *site, *pollutant, *day, shelf, registry, steps)
        }
        CellName::Quarter(site, pollutant, quarter) => {
            bring_up_quarter(cells, *site, *pollutant, *quarter, registry, steps)?;
            Ok(())
        }
        _ => Ok(()), // Nothing is kept of it here.
    }
}

fn bring_up_day<L: Ledger>(
    cells: &mut Pm25Cells,
    site: SiteId,
    pollutant: Pollutant,
    day: Day,
    shelf: &Shelf,
    registry: &Registry,
    steps: &mut Steps<L>,
) -> Result<(), Memory>
    ensures stay { OnOk result (CellsStay (office_of registry.now shelf.now) cells.old cells.new) }
    ensures cell { OnOk result
        (IsCellOf (office_of registry.now shelf.now) cells.new (PmDayCell site pollutant day)) }
    ensures steps { (enough : Cell → ℕ)
        → AreEnough (office_of registry.now shelf.now) cells.old enough
        → steps.new ≤ steps.old + own_steps enough (PmDayCell site pollutant day) }
{
    if pollutant != Pollutant::Pm25 {
        return Ok(());
    }
    // The proof learns that the records are those of a valid office.
    let _ = registry.next_poc(site, Pollutant::Pm25, 0);
    let new = site_day(shelf, registry, site, Pollutant::Pm25, day, steps);
    let old = cells.cell(site, day);
    cells.change_day(registry, site, day, old, new, steps)?;
    Ok(())
}

fn bring_up_quarter<L: Ledger>(
    cells: &mut Pm25Cells,
    site: SiteId,
    pollutant: Pollutant,
    quarter: Quarter,
    registry: &Registry,
    steps: &mut Steps<L>,
) -> Result<(), Memory>
    ensures stay { OnOk result ((rows : List (ObsKey × Observation))
        → CellsStay (office_of registry.now rows) cells.old cells.new) }
    ensures cell { OnOk result ((rows : List (ObsKey × Observation))
        → IsCellOf (office_of registry.now rows) cells.new
        (QuarterCell site pollutant quarter)) }
    ensures steps { (rows : List (ObsKey × Observation)) (enough : Cell → ℕ)
        → AreEnough (office_of registry.now rows) cells.old enough
        → steps.new ≤ steps.old + own_steps enough (QuarterCell site pollutant quarter) }
{
    if pollutant != Pollutant::Pm25 {
        return Ok(());
    }
    cells.settle_quarter(registry, site, quarter, steps)?;
    Ok(())
}
