//! Changes that are marked and brought up to date, with ample memory.
ghost use Rattle.std.specs.Prelude.{◌<◌};

use aq_base::{Day, Hour, Memory, MonitorId, ObsKey, OfficeRecord, Pollutant, SiteId};
use aq_dirty::{CellName, Dirty, DirtyParticles, HourSpan, OfficeChange};
use aq_registry::{RecordChange, Registry};
use std::alloc::Global;
use std::test::Fail;

/// The level and the number of a cell: hours, averages, days and years.
fn level_of(cell: &CellName) -> (u8, u32) {
    match cell {
        CellName::Hour(_, hour) => (1, hour.number()),
        CellName::Window(_, start) => (2, start.number()),
        CellName::OzoneDay(_, day) => (3, u32::from(day.number())),
        CellName::OzoneYear(_, year) => (4, u32::from(*year)),
        _ => (0, 0),
    }
}

/// The first twelve cells that wait, in the order in which they are brought up to date.
fn settled(dirty: &mut Dirty) -> [(u8, u32); 12] {
    let mut cells = [(0, 0); 12];
    for place in 0..12 {
        if let Some(cell) = dirty.next() {
            cells[place] = level_of(&cell);
            dirty.settle(cell);
        }
    }
    cells
}

/// What waits after one change in an office without records.
fn marked(alloc: Global, change: OfficeChange) -> Result<Dirty, Memory> {
    let registry = Registry::new(alloc);
    let mut dirty = Dirty::new(alloc);
    dirty.mark(&registry, &change)?;
    Ok(dirty)
}

/// What waits after a record came in that was not there.
fn marked_record(alloc: Global, row: OfficeRecord) -> Result<Dirty, Memory> {
    marked(
        alloc,
        OfficeChange::Record(RecordChange {
            old: None,
            new: Some(row),
        }),
    )
}

/// The first hours that wait, once so many of them at most are brought up to date.
fn after_hours(dirty: &mut Dirty, most: u32) -> Option<HourSpan>
    requires { 0 < most }
{
    let hours = dirty.first_hours()?;
    dirty.settle_hours(hours.count.min(most));
    dirty.first_hours()
}

/// The hour 31 is 07:00 of 2 January 1990. It is read by eight averages, by its day and by its year.
#[test]
fn an_ozone_hour_waits_with_what_reads_it(rt: HostRuntime) -> Result<(), Fail> {
    let site = SiteId::new(6, 37, 1103).ok_or(Memory)?;
    let key = ObsKey {
        monitor: MonitorId {
            site,
            pollutant: Pollutant::Ozone,
            poc: 1,
        },
        hour: Hour::new(31),
    };
    let change = OfficeChange::Observation {
        key,
        old: None,
        new: None,
    };
    let mut dirty = marked(rt.alloc(), change)?;
    assert!(rt; dirty.holds(CellName::Window(site, Hour::new(24))));
    assert!(rt; !dirty.holds(CellName::Window(site, Hour::new(23))));
    let cells = settled(&mut dirty);
    assert!(rt;
        cells
            == [
                (1, 31),
                (2, 24),
                (2, 25),
                (2, 26),
                (2, 27),
                (2, 28),
                (2, 29),
                (2, 30),
                (2, 31),
                (3, 1),
                (4, 1990),
                (0, 0)
            ]
    );
    Ok(())
}

/// A designation from 2 January 1990 on is read by the 613,584 hours from 24 to the end of 2059, and a
/// season by its year alone.
#[test]
fn records_wait_with_what_reads_them(rt: HostRuntime) -> Result<(), Fail> {
    let site = SiteId::new(6, 37, 1103).ok_or(Memory)?;
    let primary = OfficeRecord::Primary {
        site,
        pollutant: Pollutant::Ozone,
        from: Day::new(1),
        poc: 1,
    };
    let mut dirty = marked_record(rt.alloc(), primary)?;
    let left = after_hours(&mut dirty, 48).ok_or(Memory)?;
    assert!(rt; left.first.number() == 72 && left.count == 613_536);
    let season = OfficeRecord::Season {
        site,
        year: 2024,
        first: Day::new(12_478),
        last: Day::new(12_722),
    };
    let mut dirty = marked_record(rt.alloc(), season)?;
    let cells = settled(&mut dirty);
    assert!(rt; cells[0] == (4, 2024) && cells[1] == (0, 0));
    Ok(())
}

/// The level and the number of a cell of particles: days, strata, quarters and years.
fn particle_level(cell: &CellName) -> (u8, u32) {
    match cell {
        CellName::PmDay(_, _, day) => (1, u32::from(day.number())),
        CellName::Stratum(_, first) => (2, u32::from(first.number())),
        CellName::Quarter(_, _, quarter) => (3, u32::from(quarter.number())),
        CellName::PmYear(_, year) => (4, u32::from(*year)),
        _ => (0, 0),
    }
}

/// The first four particle cells that wait, in the order in which they are brought up to date.
fn settled_particles(dirty: &mut DirtyParticles) -> [(u8, u32); 4] {
    let mut cells = [(0, 0); 4];
    for place in 0..4 {
        if let Some(cell) = dirty.next() {
            cells[place] = particle_level(&cell);
            dirty.settle(cell);
        }
    }
    cells
}

/// What waits of particles after one change in an office without records.
fn marked_particles(alloc: Global, change: OfficeChange) -> Result<DirtyParticles, Memory> {
    let registry = Registry::new(alloc);
    let mut dirty = DirtyParticles::new(alloc);
    dirty.mark(&registry, &change)?;
    Ok(dirty)
}

/// Without a schedule a stratum has six days, so 8 July 2024 (day 12,607) lies in the one from 7 July.
#[test]
fn a_pm10_sample_waits_with_its_stratum_and_its_quarter(rt: HostRuntime) -> Result<(), Fail> {
    let site = SiteId::new(6, 37, 1103).ok_or(Memory)?;
    let key = ObsKey {
        monitor: MonitorId {
            site,
            pollutant: Pollutant::Pm10,
            poc: 1,
        },
        hour: Hour::new(24 * 12_607),
    };
    let change = OfficeChange::Observation {
        key,
        old: None,
        new: None,
    };
    let mut dirty = marked_particles(rt.alloc(), change)?;
    let cells = settled_particles(&mut dirty);
    assert!(rt; cells == [(1, 12_607), (2, 12_606), (3, 138), (0, 0)]);
    Ok(())
}

/// A schedule from 1 October 2059 (day 25,475) on reaches the last quarter, and the strata that it had: the
/// second one starts on 7 October.
#[test]
fn a_schedule_waits_with_the_strata_of_its_quarters(rt: HostRuntime) -> Result<(), Fail> {
    let site = SiteId::new(6, 37, 1103).ok_or(Memory)?;
    let schedule = OfficeRecord::Schedule {
        site,
        pollutant: Pollutant::Pm10,
        from: Day::new(25_475),
        interval: 3,
        anchor: Day::new(0),
    };
    let change = OfficeChange::Record(RecordChange {
        old: None,
        new: Some(schedule),
    });
    let mut dirty = marked_particles(rt.alloc(), change)?;
    let cells = settled_particles(&mut dirty);
    assert!(rt; cells == [(2, 25_475), (2, 25_481), (2, 25_487), (2, 25_493)]);
    Ok(())
}
