//! All cells that are kept of an office.
ghost use Rattle.std.specs.Prelude.{IfOk};
ghost use Rattle.aq_ozone_cells.specs.FilledDays as ozone_cells;
ghost use Rattle.aq_particle_cells.specs.Pm10.Pm10Levels as pm10_cells;
ghost use Rattle.aq_particle_cells.specs.Pm25.Pm25Levels as pm25_cells;
ghost use Rattle.aq_series.specs.OfficeView.{office_of};

use aq_base::{Memory, Steps};
use aq_ozone_cells::OzoneCells;
use aq_particle_cells::pm10::Pm10Cells;
use aq_particle_cells::pm25::Pm25Cells;
use aq_registry::Registry;
use aq_shelf::Shelf;
use std::alloc::Global;
use std::sync::ledger::Ledger;

/// The cells of an office: of ozone, of PM2.5 and of PM10.
#[derive(Drop)]
pub struct Cells {
    pub ozone: OzoneCells,
    pub pm25: Pm25Cells,
    pub pm10: Pm10Cells,
}

/// The cells of the office of these records and observations.
pub fn filled<L: Ledger>(
    alloc: Global,
    shelf: &Shelf,
    registry: &Registry,
    steps: &mut Steps<L>,
) -> Result<Cells, Memory>
    ensures ozone { IfOk result
        (λ cells. ozone_cells.AreKept (office_of registry.now shelf.now) cells.ozone) }
    ensures pm25 { IfOk result
        (λ cells. pm25_cells.AreKept (office_of registry.now shelf.now) cells.pm25) }
    ensures pm10 { IfOk result
        (λ cells. pm10_cells.AreKept (office_of registry.now shelf.now) cells.pm10) }
{
    let ozone = aq_ozone_cells::filled(alloc, shelf, registry, steps)?;
    let pm25 = aq_particle_cells::pm25::filled(alloc, shelf, registry, steps)?;
    let pm10 = aq_particle_cells::pm10::filled(alloc, shelf, registry, steps)?;
    Ok(Cells { ozone, pm25, pm10 })
}
