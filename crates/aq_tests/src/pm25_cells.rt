//! PM2.5 cells of small offices, with ample memory.
ghost use Rattle.std.specs.Prelude.{◌≡◌, ◌<◌, Some, IfSome, IsTrue};
ghost use Rattle.aq_base.specs.declared.monitor.Pollutant.TheVariants.{Pm25};
ghost use Rattle.aq_rules.specs.Office.Office.{is_site};
ghost use Rattle.aq_series.specs.DayCells.{IsParticle};

use aq_base::{
    Day, Duration, Hour, Memory, MonitorId, ObsKey, Observation, OfficeLine, OfficeRecord,
    Pollutant, Quals, SiteId, Steps,
};
use aq_cal::quarter_of;
use aq_particle_cells::pm25::{Pm25Cells, filled, kept_numbers_are_those_of_the_office};
use aq_registry::Registry;
use aq_series::Cell;
use aq_shelf::Shelf;
use std::alloc::Global;
use std::marker::Brand;
use std::sync::ledger::{Blank, Ledger};
use std::test::Fail;

/// 1 July 2024.
const JULY: u16 = 12_600;

/// A sampler, of which a sample on every sixth day is asked for from 1 July 2024 on.
fn sampler(registry: &mut Registry, site: SiteId) -> Result<(), Memory>
    requires { IsTrue (is_site site) }
{
    let sampler = OfficeRecord::Monitor {
        id: monitor(site),
        duration: Duration::Day,
        eligible: true,
    };
    let schedule = OfficeRecord::Schedule {
        site,
        pollutant: Pollutant::Pm25,
        from: Day::new(JULY),
        interval: 6,
        anchor: Day::new(JULY),
    };
    let (Ok(_), Ok(_)) = (
        registry.apply(OfficeLine::Put(sampler)),
        registry.apply(OfficeLine::Put(schedule)),
    ) else {
        return Err(Memory);
    };
    Ok(())
}

fn monitor(site: SiteId) -> MonitorId
    ensures { result ≡ record { site = site; pollutant = Pm25; poc = 1 } }
{
    MonitorId {
        site,
        pollutant: Pollutant::Pm25,
        poc: 1,
    }
}

fn content(value: i32) -> Observation
    ensures { result.value ≡ Some value }
{
    Observation {
        value: Some(value),
        null: None,
        quals: Quals::new(),
        method: None,
    }
}

/// What the third quarter of a year counts, once the cells are filled: scheduled, creditable and counted
/// samples, and days.
fn counts<L: Ledger>(
    alloc: Global,
    shelf: &Shelf,
    registry: &Registry,
    site: SiteId,
    blank: Blank,
) -> Result<[u8; 4], Memory>
    requires name { blank.name ≡ L.name }
    requires parts { blank.parts ≡ L.parts }
    requires some { 0 < L.parts }
{
    let mut steps = Steps::<L>::new(blank);
    let cells = filled(alloc, shelf, registry, &mut steps)?;
    kept_numbers_are_those_of_the_office();
    let year = cells.year(registry, site, 2024);
    let [_, _, third, _] = year.quarters();
    Ok([
        third.scheduled(),
        third.creditable(),
        third.counted(),
        third.days(),
    ])
}

/// PM2.5 samples of 1 July, which is scheduled, and of 9 July, which makes up for 7 July.
fn samples(registry: &mut Registry, shelf: &mut Shelf, site: SiteId) -> Result<(), Memory>
    requires { IsTrue (is_site site) }
{
    sampler(registry, site)?;
    let makeup = OfficeRecord::Makeup {
        site,
        missed: Day::new(JULY + 6),
        makeup: Day::new(JULY + 8),
    };
    let first = ObsKey {
        monitor: monitor(site),
        hour: Hour::new(302_400),
    };
    let ninth = ObsKey {
        monitor: monitor(site),
        hour: Hour::new(302_592),
    };
    let (Ok(_), Ok(()), Ok(())) = (
        registry.apply(OfficeLine::Put(makeup)),
        shelf.insert(first, content(120)),
        shelf.insert(ninth, content(130)),
    ) else {
        return Err(Memory);
    };
    Ok(())
}

/// Of the 92 days from 1 July on sixteen are scheduled. Two samples are creditable, one of them of the make-up day.
#[test]
fn cells_are_filled_from_the_rows(rt: HostRuntime) -> Result<(), Fail> {
    let site = SiteId::new(6, 37, 1103).ok_or(Memory)?;
    let mut registry = Registry::new(rt.alloc());
    let mut shelf = Shelf::new(rt.alloc());
    samples(&mut registry, &mut shelf, site)?;
    let third = counts::<Brand>(rt.alloc(), &shelf, &registry, site, Blank::new(1))?;
    assert!(rt; third == [16, 2, 2, 2]);
    Ok(())
}

/// An excluded value of 155.0 µg/m3.
fn high() -> Option<Cell>
    ensures { IfSome result (λ cell. IsParticle cell.value) }
{
    Some(Cell {
        value: 1550,
        excluded: true,
    })
}

/// The value of 1 July, once it has a high one and the cells of its quarter are settled.
fn changed<L: Ledger>(alloc: Global, site: SiteId, blank: Blank) -> Result<Option<Cell>, Memory>
    requires name { blank.name ≡ L.name }
    requires parts { blank.parts ≡ L.parts }
    requires some { 0 < L.parts }
{
    let mut steps = Steps::<L>::new(blank);
    let registry = Registry::new(alloc);
    let day = Day::new(JULY);
    let mut cells = Pm25Cells::new(alloc);
    cells.change_day(&registry, site, day, None, high(), &mut steps)?;
    cells.settle_quarter(&registry, site, quarter_of(day), &mut steps)?;
    Ok(cells.cell(site, day))
}

#[test]
fn a_day_has_the_value_that_it_was_given(rt: HostRuntime) -> Result<(), Fail> {
    let site = SiteId::new(6, 37, 1103).ok_or(Memory)?;
    let value = changed::<Brand>(rt.alloc(), site, Blank::new(1))?;
    assert!(rt; value == high());
    Ok(())
}
