//! A site whose monitors and hours are made up.
ghost use Rattle.std.specs.Prelude.{◌≡◌, ◌+◌, ◌<◌, ◌≤◌, IsTrue};
ghost use Rattle.aq_base.specs.Values.{HasValueInRange};
ghost use Rattle.aq_base.specs.declared.day.TheConstants.{LAST_HOUR};
ghost use Rattle.aq_base.specs.declared.office.OfficeLine.TheVariants.{Put};
ghost use Rattle.aq_rules.specs.Lines.Canonical.{is_office_line};
ghost use Rattle.aq_rules.specs.Office.Office.{is_site};

use aq_base::{
    Code, Day, Duration, Hour, LAST_HOUR, Memory, MonitorId, ObsKey, Observation, OfficeLine,
    OfficeRecord, Pollutant, Quals, SiteId,
};
use aq_cal::year_span;
use aq_registry::Registry;
use aq_shelf::Shelf;

/// The design value is that of this year and the two before it.
pub const LAST: u16 = 2024;

/// A site has at most this many monitors.
pub const MOST_MONITORS: u8 = 8;

/// The first hour of the three years, and the one after the last.
#[derive(Clone, Copy)]
pub struct Hours {
    pub first: u32,
    pub end: u32,
}

/// Registers so many monitors of hours whose values count, and puts a value for each hour of three years at
/// each of them.
pub fn fill(
    shelf: &mut Shelf,
    registry: &mut Registry,
    site: SiteId,
    pollutant: Pollutant,
    monitors: u8,
) -> Result<(), Memory>
    requires site { IsTrue (is_site site) }
    requires most { monitors ≤ MOST_MONITORS }
{
    fill_between(shelf, registry, site, pollutant, monitors, three_years())
}

/// The same for each of some hours.
pub fn fill_between(
    shelf: &mut Shelf,
    registry: &mut Registry,
    site: SiteId,
    pollutant: Pollutant,
    monitors: u8,
    hours: Hours,
) -> Result<(), Memory>
    requires site { IsTrue (is_site site) }
    requires most { monitors ≤ MOST_MONITORS }
    requires profile { hours.end ≤ LAST_HOUR + 1 }
{
    for poc in 1..monitors + 1 {
        put(registry, registered(site, pollutant, poc))?;
        fill_hours(shelf, site, pollutant, poc, hours)?;
    }
    Ok(())
}

/// The hours of the three years.
pub fn three_years() -> Hours
    ensures { result.end ≤ LAST_HOUR + 1 }
{
    let (first, _) = year_span(LAST - 2);
    let (last, days) = year_span(LAST);
    Hours {
        first: 24 * u32::from(first.number()),
        end: 24 * (u32::from(last.number()) + u32::from(days)),
    }
}

/// Has every day scheduled for PM2.5 from the first one on.
pub fn schedule(registry: &mut Registry, site: SiteId) -> Result<(), Memory>
    requires site { IsTrue (is_site site) }
{
    let (first, _) = year_span(LAST - 2);
    put(registry, every_day(site, first))
}

/// Puts an office record.
pub fn put(registry: &mut Registry, line: OfficeLine) -> Result<(), Memory>
    requires { IsTrue (is_office_line line) }
{
    match registry.apply(line) {
        Ok(_) => Ok(()),
        Err(_) => Err(Memory),
    }
}

/// The line of a monitor of hours whose values count.
pub fn registered(site: SiteId, pollutant: Pollutant, poc: u8) -> OfficeLine
    requires site { IsTrue (is_site site) }
    requires least { 0 < poc }
    requires most { poc ≤ MOST_MONITORS }
    ensures { IsTrue (is_office_line result) }
{
    OfficeLine::Put(OfficeRecord::Monitor {
        id: MonitorId {
            site,
            pollutant,
            poc,
        },
        duration: Duration::Hour,
        eligible: true,
    })
}

/// The line of a schedule that asks for every day.
fn every_day(site: SiteId, from: Day) -> OfficeLine
    requires { IsTrue (is_site site) }
    ensures { IsTrue (is_office_line result) }
{
    // The proof learns the range of the day.
    let _ = from.number();
    OfficeLine::Put(OfficeRecord::Schedule {
        site,
        pollutant: Pollutant::Pm25,
        from,
        interval: 1,
        anchor: from,
    })
}

/// Puts the hours of a monitor.
fn fill_hours(
    shelf: &mut Shelf,
    site: SiteId,
    pollutant: Pollutant,
    poc: u8,
    hours: Hours,
) -> Result<(), Memory>
    requires { hours.end ≤ LAST_HOUR + 1 }
{
    for number in hours.first..hours.end {
        let key = ObsKey {
            monitor: MonitorId {
                site,
                pollutant,
                poc,
            },
            hour: Hour::new(number),
        };
        let content = content_at(pollutant, poc, number, None);
        shelf.insert(key, content).map_err(|_| Memory)?;
    }
    Ok(())
}

/// A monitor's observation for an hour: 20 to 79, in the unit of its pollutant; if it has a code, 10 more.
pub fn content_at(pollutant: Pollutant, poc: u8, hour: u32, code: Option<Code>) -> Observation
    requires { hour ≤ LAST_HOUR }
    ensures { HasValueInRange pollutant result }
{
    let mut value = 20 + hour / 24 * 7 % 30 + (hour * 37 + u32::from(poc) * 11) % 31;
    let mut quals = Quals::new();
    if let Some(code) = code {
        value += 10;
        quals.add(code);
    }
    Observation {
        value: Some(value as i32),
        null: None,
        quals,
        method: None,
    }
}
