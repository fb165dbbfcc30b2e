//! Exceptional events of a site whose hours are made up: a hundred over the three years, of a day each, and a
//! hundred elsewhere. No concurrence stands.
ghost use Rattle.std.specs.Prelude.{◌≡◌, ◌+◌, ◌*◌, ◌<◌, ◌≤◌, IsTrue};
ghost use Rattle.aq_base.specs.declared.day.TheConstants.{LAST_HOUR};
ghost use Rattle.aq_rules.specs.Lines.Canonical.{is_office_line};
ghost use Rattle.aq_rules.specs.Office.Office.{is_site};

use crate::made_up::{MOST_MONITORS, content_at, put, registered};
use aq_base::{Code, Hour, Memory, MonitorId, ObsKey, OfficeLine, OfficeRecord, Pollutant, SiteId};
use aq_registry::Registry;
use aq_shelf::Shelf;

/// So many events are put at a time, numbered from 1 on.
const EVENTS: u32 = 100;

/// The three years, 2022 to 2024, begin with this hour and have so many days.
const FIRST_HOUR: u32 = 24 * (32 * 365 + 8);

const DAYS: u32 = 1_096;

const SMOKE: Code = Code {
    first: b'R',
    second: b'T',
};

/// Puts the events of the three years. Their hours are 10 thousandths of a ppm higher at each monitor, and
/// flagged.
pub fn add_events(
    shelf: &mut Shelf,
    registry: &mut Registry,
    site: SiteId,
    monitors: u8,
) -> Result<(), Memory>
    requires site { IsTrue (is_site site) }
    requires most { monitors ≤ MOST_MONITORS }
{
    for number in 1..EVENTS + 1 {
        let first = first_hour(number);
        put(registry, event(number, site, first))?;
        for poc in 1..monitors + 1 {
            flag_hours(shelf, site, poc, first)?;
        }
    }
    Ok(())
}

/// Puts as many events that the three years of the site do not read: one half three years earlier, the
/// other half at another site.
pub fn add_elsewhere(registry: &mut Registry, site: SiteId, other: SiteId) -> Result<(), Memory>
    requires site { IsTrue (is_site site) }
    requires other { IsTrue (is_site other) }
{
    put(registry, registered(other, Pollutant::Ozone, 1))?;
    for number in 1..EVENTS + 1 {
        let first = first_hour(number);
        let line = if number % 2 == 0 {
            event(EVENTS + number, other, first)
        } else {
            event(EVENTS + number, site, first - 24 * DAYS)
        };
        put(registry, line)?;
    }
    Ok(())
}

/// The first hour of an event: they stand evenly over the three years.
fn first_hour(number: u32) -> u32
    requires least { 0 < number }
    requires most { number ≤ EVENTS }
    ensures least { FIRST_HOUR ≤ result }
    ensures most { result + 23 ≤ LAST_HOUR }
{
    FIRST_HOUR + 24 * ((number - 1) * DAYS / EVENTS)
}

/// The line of an event of a day.
fn event(number: u32, site: SiteId, first: u32) -> OfficeLine
    requires site { IsTrue (is_site site) }
    requires least { 0 < number }
    requires most { number ≤ 2 * EVENTS }
    requires hours { first + 23 ≤ LAST_HOUR }
    ensures { IsTrue (is_office_line result) }
{
    OfficeLine::Put(OfficeRecord::Event {
        number,
        site,
        pollutant: Pollutant::Ozone,
        first: Hour::new(first),
        last: Hour::new(first + 23),
        code: SMOKE,
    })
}

/// Gives the hours of a day their higher values, and the code of the events.
fn flag_hours(shelf: &mut Shelf, site: SiteId, poc: u8, first: u32) -> Result<(), Memory>
    requires { first + 23 ≤ LAST_HOUR }
{
    for number in first..first + 24 {
        let key = ObsKey {
            monitor: MonitorId {
                site,
                pollutant: Pollutant::Ozone,
                poc,
            },
            hour: Hour::new(number),
        };
        let content = content_at(Pollutant::Ozone, poc, number, Some(SMOKE));
        shelf.update(key, content).map_err(|_| Memory)?;
    }
    Ok(())
}
