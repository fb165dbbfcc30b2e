//! What a change of an observation or a record reaches among the particle cells.
ghost use Rattle.std.specs.Prelude.{◌≡◌};
ghost use Rattle.aq_base.specs.Calendar.{day_of_hour};
ghost use Rattle.aq_rules.specs.Kept.Reach as table;
ghost use Rattle.aq_dirty.specs.ParticleReach.{reach_of, reach_of_event, reach_of_hours, reach_of_key, reach_of_quarters, reach_of_record, schedule_start_in, IsReach};

use crate::change::OfficeChange;
use crate::reach::last_day_designated;
use aq_base::{
    Day, Hour, LAST_DAY, LAST_HOUR, OfficeKey, OfficeRecord, Pollutant, Quarter, SiteId,
};
use aq_cal::{hour_of, quarter_of};
use aq_registry::{RecordChange, Registry};

/// The particle cells that read a changed row. None of them is of ozone.
#[derive(Clone, Copy, Debug)]
pub(crate) enum ParticleReach {
    Nothing,
    /// Those that read a day of a site and pollutant from the first to the last.
    Days {
        site: SiteId,
        pollutant: Pollutant,
        first: Day,
        last: Day,
    },
    /// The quarters of a site and pollutant from the first to the last, with their strata.
    Quarters {
        site: SiteId,
        pollutant: Pollutant,
        first: Quarter,
        last: Quarter,
    },
}

/// What a change reaches in an office with these records.
pub(crate) fn particle_reach_of(registry: &Registry, change: &OfficeChange) -> ParticleReach
    ensures value { result ≡ reach_of registry.now change.now }
    ensures within { IsReach result }
{
    match change {
        OfficeChange::Observation { key, .. } => {
            reach_of_hours(key.monitor.site, key.monitor.pollutant, key.hour, key.hour)
        }
        OfficeChange::Record(change) => reach_of_record(registry, change),
    }
}

fn reach_of_record(registry: &Registry, change: &RecordChange) -> ParticleReach
    ensures value { result ≡ reach_of_record registry.now change.now }
    ensures within { IsReach result }
{
    if let Some(row) = &change.new {
        return reach_of_key(registry, &row.key(), change.old.is_none());
    }
    if let Some(row) = &change.old {
        return reach_of_key(registry, &row.key(), false);
    }
    ParticleReach::Nothing
}

/// What a changed record of a key reaches; whether it is new counts for a monitor alone.
fn reach_of_key(registry: &Registry, key: &OfficeKey, is_new: bool) -> ParticleReach
    ensures value { result ≡ reach_of_key registry.now key.now is_new }
    ensures within { IsReach result }
{
    match *key {
        OfficeKey::Monitor { id } => {
            if is_new && !may_count_at_once(id.pollutant) {
                ParticleReach::Nothing
            } else {
                reach_of_hours(id.site, id.pollutant, Hour::new(0), Hour::new(LAST_HOUR))
            }
        }
        OfficeKey::Primary {
            site,
            pollutant,
            from,
        } => {
            let last = last_day_designated(registry, site, pollutant, from);
            reach_of_hours(site, pollutant, hour_of(from, 0), hour_of(last, 23))
        }
        OfficeKey::Schedule {
            site,
            pollutant,
            from,
        } => {
            let last = last_day_scheduled(registry, site, pollutant, from);
            reach_of_quarters(site, pollutant, quarter_of(from), quarter_of(last))
        }
        OfficeKey::Makeup { site, missed } => {
            let quarter = quarter_of(missed);
            reach_of_quarters(site, Pollutant::Pm25, quarter, quarter)
        }
        OfficeKey::Event { number } => reach_of_event(&registry.get(OfficeKey::Event { number })),
        OfficeKey::Concurrence { number } => {
            reach_of_event(&registry.get(OfficeKey::Event { number }))
        }
        OfficeKey::Season { .. } => ParticleReach::Nothing,
        OfficeKey::Approved { .. } => ParticleReach::Nothing,
        OfficeKey::Combined { .. } => ParticleReach::Nothing,
    }
}

/// Whether a new monitor may count at once: one of PM10 may be the one with the lowest POC.
fn may_count_at_once(pollutant: Pollutant) -> bool
    ensures { result ≡ table.may_count_at_once pollutant }
{
    match pollutant {
        Pollutant::Pm10 => true,
        _ => false,
    }
}

/// What the hours of an event reach.
fn reach_of_event(row: &Option<OfficeRecord>) -> ParticleReach
    ensures value { result ≡ reach_of_event row.now }
    ensures within { IsReach result }
{
    match row {
        Some(
            OfficeRecord::Event {
                site,
                pollutant,
                first,
                last,
                ..
            },
        ) => reach_of_hours(*site, *pollutant, *first, *last),
        _ => ParticleReach::Nothing,
    }
}

/// What hours of a site and pollutant reach, from the first to the last.
fn reach_of_hours(site: SiteId, pollutant: Pollutant, first: Hour, last: Hour) -> ParticleReach
    ensures value { result ≡ reach_of_hours site pollutant first last }
    ensures within { IsReach result }
{
    if first.number() <= last.number() {
        ParticleReach::Days {
            site,
            pollutant,
            first: day_of_hour(first),
            last: day_of_hour(last),
        }
    } else {
        ParticleReach::Nothing
    }
}

fn day_of_hour(hour: Hour) -> Day
    ensures { result ≡ day_of_hour hour }
{
    Day::new((hour.number() / 24) as u16)
}

/// What the quarters of a site and pollutant reach, from the first to the last.
fn reach_of_quarters(
    site: SiteId,
    pollutant: Pollutant,
    first: Quarter,
    last: Quarter,
) -> ParticleReach
    ensures value { result ≡ reach_of_quarters site pollutant first last }
    ensures within { IsReach result }
{
    if first.number() <= last.number() {
        ParticleReach::Quarters {
            site,
            pollutant,
            first,
            last,
        }
    } else {
        ParticleReach::Nothing
    }
}

/// The last day of the schedule of a site and pollutant that starts on a day, be there one or not: the day
/// before the next one, found by one search of the map.
fn last_day_scheduled(registry: &Registry, site: SiteId, pollutant: Pollutant, from: Day) -> Day
    ensures { result ≡ table.last_day_scheduled registry.now site pollutant from }
{
    // For the proof: the records are those of a valid office.
    let _ = registry.next_poc(site, pollutant, 0);
    let key = OfficeKey::Schedule {
        site,
        pollutant,
        from,
    };
    match schedule_start_in(&registry.following(Some(key)), &site, pollutant) {
        Some(next) => Day::new(next.number().saturating_sub(1)),
        None => Day::new(LAST_DAY),
    }
}

/// Where a record starts, if it is a schedule of the site and pollutant.
fn schedule_start_in(row: &Option<OfficeRecord>, site: &SiteId, pollutant: Pollutant) -> Option<Day>
    ensures { result ≡ schedule_start_in site.now pollutant row.now }
{
    match row {
        Some(
            OfficeRecord::Schedule {
                site: other,
                pollutant: kind,
                from,
                ..
            },
        ) if other == site && *kind == pollutant => Some(*from),
        _ => None,
    }
}
