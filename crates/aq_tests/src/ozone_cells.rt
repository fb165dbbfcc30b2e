//! Ozone cells that are changed, with ample memory.
ghost use Rattle.std.specs.Prelude.{◌≡◌, ◌<◌, IfSome, IsTrue};
ghost use Rattle.aq_base.specs.declared.monitor.Pollutant.TheVariants.{Ozone};
ghost use Rattle.aq_rules.specs.Office.Office.{is_site};
ghost use Rattle.aq_series.specs.Samples.{IsOzone};

use aq_base::{
    Day, Duration, Hour, Memory, MonitorId, ObsKey, Observation, OfficeLine, OfficeRecord,
    Pollutant, Quals, SiteId, Steps,
};
use aq_ozone_cells::{OzoneCells, filled};
use aq_registry::Registry;
use aq_series::Cell;
use aq_shelf::Shelf;
use std::alloc::Global;
use std::marker::Brand;
use std::sync::ledger::{Blank, Ledger};
use std::test::Fail;

/// The days of the season of 2024, those that are valid, and the maxima that are ranked, once noon of
/// 1 July has another value, in an office without records.
fn counts_after<L: Ledger>(
    cells: &mut OzoneCells,
    registry: &Registry,
    site: SiteId,
    value: Option<Cell>,
    steps: &mut Steps<L>,
) -> Result<[u16; 3], Memory>
    requires { IfSome value (λ cell. IsOzone cell.value) }
{
    let noon = Hour::new(302_412);
    let old = cells.hour(site, noon);
    cells.change_hour(site, noon, old, value, steps)?;
    cells.settle_window(site, noon, steps)?;
    cells.settle_day(registry, site, Day::new(12_600), steps)?;
    cells.settle_year(registry, site, 2024, steps)?;
    let year = cells.year(registry, site, 2024);
    Ok([year.season_days(), year.season_valid(), year.ranked()])
}

/// One hour of 0.568 ppm has an average of 0.071 over eight hours, which is above the level, so that its day
/// is valid and its maximum is ranked. Once the hour is taken back, no day is.
fn counts<L: Ledger>(alloc: Global, site: SiteId, blank: Blank) -> Result<[[u16; 3]; 2], Memory>
    requires name { blank.name ≡ L.name }
    requires parts { blank.parts ≡ L.parts }
    requires some { 0 < L.parts }
{
    let mut steps = Steps::<L>::new(blank);
    let registry = Registry::new(alloc);
    let mut cells = OzoneCells::new(alloc);
    let high = Some(Cell {
        value: 568,
        excluded: false,
    });
    let with = counts_after(&mut cells, &registry, site, high, &mut steps)?;
    let without = counts_after(&mut cells, &registry, site, None, &mut steps)?;
    Ok([with, without])
}

#[test]
fn a_year_follows_its_hours(rt: HostRuntime) -> Result<(), Fail> {
    let site = SiteId::new(6, 37, 1103).ok_or(Memory)?;
    let counts = counts::<Brand>(rt.alloc(), site, Blank::new(1))?;
    assert!(rt; counts == [[366, 1, 1], [366, 0, 0]]);
    Ok(())
}

/// The same counts of a year, once cells are filled from an office in which one hour is observed.
fn counts_filled<L: Ledger>(
    alloc: Global,
    shelf: &Shelf,
    registry: &Registry,
    site: SiteId,
    blank: Blank,
) -> Result<[u16; 3], Memory>
    requires name { blank.name ≡ L.name }
    requires parts { blank.parts ≡ L.parts }
    requires some { 0 < L.parts }
{
    let mut steps = Steps::<L>::new(blank);
    let mut cells = filled(alloc, shelf, registry, &mut steps)?;
    cells.settle_year(registry, site, 2024, &mut steps)?;
    let year = cells.year(registry, site, 2024);
    Ok([year.season_days(), year.season_valid(), year.ranked()])
}

fn ozone_monitor(site: SiteId) -> MonitorId
    ensures { result ≡ record { site = site; pollutant = Ozone; poc = 1 } }
{
    MonitorId {
        site,
        pollutant: Pollutant::Ozone,
        poc: 1,
    }
}

/// A monitor of ozone, and its noon of 1 July 2024.
fn observed(registry: &mut Registry, shelf: &mut Shelf, site: SiteId) -> Result<(), Memory>
    requires { IsTrue (is_site site) }
{
    let monitor = OfficeRecord::Monitor {
        id: ozone_monitor(site),
        duration: Duration::Hour,
        eligible: true,
    };
    let key = ObsKey {
        monitor: ozone_monitor(site),
        hour: Hour::new(302_412),
    };
    let content = Observation {
        value: Some(568),
        null: None,
        quals: Quals::new(),
        method: None,
    };
    let (Ok(_), Ok(())) = (
        registry.apply(OfficeLine::Put(monitor)),
        shelf.insert(key, content),
    ) else {
        return Err(Memory);
    };
    Ok(())
}

/// Filled from an office, the cells have what the office has.
#[test]
fn cells_are_filled_from_the_rows(rt: HostRuntime) -> Result<(), Fail> {
    let site = SiteId::new(6, 37, 1103).ok_or(Memory)?;
    let mut registry = Registry::new(rt.alloc());
    let mut shelf = Shelf::new(rt.alloc());
    observed(&mut registry, &mut shelf, site)?;
    let counts = counts_filled::<Brand>(rt.alloc(), &shelf, &registry, site, Blank::new(1))?;
    assert!(rt; counts == [366, 1, 1]);
    Ok(())
}
