//! The PM2.5 cells of an office, filled from its rows.
ghost use Rattle.std.specs.Prelude.{◌≡◌, true, ℕ, IfOk, IfSome, OnOk};
ghost use Rattle.aq_base.specs.Site.{Site};
ghost use Rattle.aq_base.specs.declared.monitor.Pollutant.TheVariants.{Pm25};
ghost use Rattle.aq_series.specs.OfficeView.{office_of};
ghost use Rattle.aq_particle_cells.specs.Days.Observed.{lies_on};
ghost use Rattle.aq_particle_cells.specs.Pm25.Pm25Levels.{AreFilling, AreKept, HasValueOf, ValuesStay};

use crate::days::{SiteDay, is_last};
use crate::pm25::cells::Pm25Cells;
use aq_base::{Day, Memory, ObsKey, Pollutant, SiteId, Steps};
use aq_registry::Registry;
use aq_series::site_day;
use aq_shelf::Shelf;
use std::alloc::Global;
use std::sync::ledger::Ledger;

/// The PM2.5 cells of the office of these records and observations. It costs a walk over the observations, and
/// for each day of a site that has one of PM2.5 its value and some look-ups of the cells.
pub fn filled<L: Ledger>(
    alloc: Global,
    shelf: &Shelf,
    registry: &Registry,
    steps: &mut Steps<L>,
) -> Result<Pm25Cells, Memory>
    ensures { IfOk result (AreKept (office_of registry.now shelf.now)) }
{
    let mut cells = Pm25Cells::new(alloc);
    let mut last = None;
    for (key, _) in shelf.rows(steps) {
        fill_observation(&mut cells, &mut last, shelf, registry, &key, steps)?;
    }
    Ok(cells)
}

/// Fills the day in which an observation lies, if it is one of PM2.5.
fn fill_observation<L: Ledger>(
    cells: &mut Pm25Cells,
    last: &mut Option<SiteDay>,
    shelf: &Shelf,
    registry: &Registry,
    key: &ObsKey,
    steps: &mut Steps<L>,
) -> Result<(), Memory>
    requires each { AreFilling (office_of registry.now shelf.now) cells.old }
    requires last { IfSome last.old
        (λ last. HasValueOf (office_of registry.now shelf.now) cells.old last.site last.day) }
    ensures each { OnOk result (AreFilling (office_of registry.now shelf.now) cells.new) }
    ensures stay { OnOk result (ValuesStay (office_of registry.now shelf.now) cells.old cells.new) }
    ensures last { OnOk result
        (IfSome last.new (λ last. HasValueOf
        (office_of registry.now shelf.now) cells.new last.site last.day)) }
    ensures filled { OnOk result ((site : Site) (day : ℕ) → lies_on Pm25 site day key.now ≡ true
        → HasValueOf (office_of registry.now shelf.now) cells.new site day) }
{
    if key.monitor.pollutant != Pollutant::Pm25 {
        return Ok(());
    }
    let site = key.monitor.site;
    let day = Day::new((key.hour.number() / 24) as u16);
    if is_last(last, site, day) {
        return Ok(());
    }
    fill_day(cells, shelf, registry, site, day, steps)?;
    *last = Some(SiteDay { site, day });
    Ok(())
}

/// Gives a day the value that the office has.
fn fill_day<L: Ledger>(
    cells: &mut Pm25Cells,
    shelf: &Shelf,
    registry: &Registry,
    site: SiteId,
    day: Day,
    steps: &mut Steps<L>,
) -> Result<(), Memory>
    requires { AreFilling (office_of registry.now shelf.now) cells.old }
    ensures each { OnOk result (AreFilling (office_of registry.now shelf.now) cells.new) }
    ensures stay { OnOk result (ValuesStay (office_of registry.now shelf.now) cells.old cells.new) }
    ensures filled { OnOk result
        (HasValueOf (office_of registry.now shelf.now) cells.new site day) }
{
    // The proof learns that the records are those of a valid office.
    let _ = registry.next_poc(site, Pollutant::Pm25, 0);
    let old = cells.cell(site, day);
    let new = site_day(shelf, registry, site, Pollutant::Pm25, day, steps);
    cells.change_day(registry, site, day, old, new, steps)?;
    Ok(())
}
