//! PM10 cells of small offices, with ample memory.
ghost use Rattle.std.specs.Prelude.{◌≡◌, ◌<◌, Some, IfSome, IsTrue};
ghost use Rattle.aq_base.specs.declared.monitor.Pollutant.TheVariants.{Pm10};
ghost use Rattle.aq_rules.specs.Office.Office.{is_site};
ghost use Rattle.aq_series.specs.DayCells.{IsParticle};

use aq_base::{
    Day, Duration, Hour, Memory, MonitorId, ObsKey, Observation, OfficeLine, OfficeRecord,
    Pollutant, Quals, SiteId, Steps,
};
use aq_cal::quarter_of;
use aq_particle_cells::pm10::{Pm10Cells, filled, kept_numbers_are_those_of_the_office};
use aq_registry::Registry;
use aq_series::Cell;
use aq_shelf::Shelf;
use std::alloc::Global;
use std::marker::Brand;
use std::sync::ledger::{Blank, Ledger};
use std::test::Fail;

/// 1 July 2024.
const JULY: u16 = 12_600;

/// A sampler, of which a sample on every sixth day is asked for from 1 July 2024 on.
fn sampler(registry: &mut Registry, site: SiteId) -> Result<(), Memory>
    requires { IsTrue (is_site site) }
{
    let sampler = OfficeRecord::Monitor {
        id: monitor(site),
        duration: Duration::Day,
        eligible: true,
    };
    let schedule = OfficeRecord::Schedule {
        site,
        pollutant: Pollutant::Pm10,
        from: Day::new(JULY),
        interval: 6,
        anchor: Day::new(JULY),
    };
    let (Ok(_), Ok(_)) = (
        registry.apply(OfficeLine::Put(sampler)),
        registry.apply(OfficeLine::Put(schedule)),
    ) else {
        return Err(Memory);
    };
    Ok(())
}

fn monitor(site: SiteId) -> MonitorId
    ensures { result ≡ record { site = site; pollutant = Pm10; poc = 1 } }
{
    MonitorId {
        site,
        pollutant: Pollutant::Pm10,
        poc: 1,
    }
}

fn content(value: i32) -> Observation
    ensures { result.value ≡ Some value }
{
    Observation {
        value: Some(value),
        null: None,
        quals: Quals::new(),
        method: None,
    }
}

/// What the third quarter of a year has, once the cells are filled: scheduled days, those of them with a
/// sample, strata with samples, samples, and how many exceed, of all and on scheduled days.
fn counts<L: Ledger>(
    alloc: Global,
    shelf: &Shelf,
    registry: &Registry,
    site: SiteId,
    blank: Blank,
) -> Result<[u8; 6], Memory>
    requires name { blank.name ≡ L.name }
    requires parts { blank.parts ≡ L.parts }
    requires some { 0 < L.parts }
{
    let mut steps = Steps::<L>::new(blank);
    let cells = filled(alloc, shelf, registry, &mut steps)?;
    kept_numbers_are_those_of_the_office();
    let year = cells.year(registry, site, 2024);
    let [_, _, third, _] = year.quarters();
    Ok([
        third.scheduled(),
        third.captured(),
        third.strata(),
        third.samples(),
        third.exceedances(),
        third.scheduled_exceedances(),
    ])
}

/// PM10 samples of 1 July, which is scheduled and exceeds, and of 3 July in the same stratum.
fn samples(registry: &mut Registry, shelf: &mut Shelf, site: SiteId) -> Result<(), Memory>
    requires { IsTrue (is_site site) }
{
    sampler(registry, site)?;
    let first = ObsKey {
        monitor: monitor(site),
        hour: Hour::new(302_400),
    };
    let third = ObsKey {
        monitor: monitor(site),
        hour: Hour::new(302_448),
    };
    let (Ok(()), Ok(())) = (
        shelf.insert(first, content(1550)),
        shelf.insert(third, content(1549)),
    ) else {
        return Err(Memory);
    };
    Ok(())
}

/// Of the 92 days from 1 July on sixteen are scheduled, one of them with a sample. One stratum has two samples, of
/// which one exceeds.
#[test]
fn cells_are_filled_from_the_rows(rt: HostRuntime) -> Result<(), Fail> {
    let site = SiteId::new(6, 37, 1103).ok_or(Memory)?;
    let mut registry = Registry::new(rt.alloc());
    let mut shelf = Shelf::new(rt.alloc());
    samples(&mut registry, &mut shelf, site)?;
    let third = counts::<Brand>(rt.alloc(), &shelf, &registry, site, Blank::new(1))?;
    assert!(rt; third == [16, 1, 1, 2, 1, 1]);
    Ok(())
}

/// An excluded value of 155.0 µg/m3.
fn high() -> Option<Cell>
    ensures { IfSome result (λ cell. IsParticle cell.value) }
{
    Some(Cell {
        value: 1550,
        excluded: true,
    })
}

/// The value of 1 July, once it has a high one and the cells of its quarter are settled.
fn changed<L: Ledger>(alloc: Global, site: SiteId, blank: Blank) -> Result<Option<Cell>, Memory>
    requires name { blank.name ≡ L.name }
    requires parts { blank.parts ≡ L.parts }
    requires some { 0 < L.parts }
{
    let mut steps = Steps::<L>::new(blank);
    let registry = Registry::new(alloc);
    let day = Day::new(JULY);
    let mut cells = Pm10Cells::new(alloc);
    cells.change_day(&registry, site, day, None, high(), &mut steps)?;
    cells.settle_stratum(&registry, site, day, &mut steps)?;
    cells.settle_quarter(&registry, site, quarter_of(day), &mut steps)?;
    Ok(cells.cell(site, day))
}

#[test]
fn a_day_has_the_value_that_it_was_given(rt: HostRuntime) -> Result<(), Fail> {
    let site = SiteId::new(6, 37, 1103).ok_or(Memory)?;
    let value = changed::<Brand>(rt.alloc(), site, Blank::new(1))?;
    assert!(rt; value == high());
    Ok(())
}
