//! What a change of an observation or a record reaches among the ozone cells.
ghost use Rattle.std.specs.Prelude.{◌≡◌, ◌≤◌, Some, option_map};
ghost use Rattle.aq_base.specs.declared.office.OfficeKey.TheVariants.{Primary as PrimaryKey};
ghost use Rattle.aq_rules.specs.Kept.Reach as table;
ghost use Rattle.aq_rules.specs.Office.Questions.{following, record_of};
ghost use Rattle.aq_dirty.specs.Reach.{reach_of, reach_of_event, reach_of_hours, reach_of_key, reach_of_record, start_in, IsReach};

use crate::change::OfficeChange;
use aq_base::{Day, Hour, LAST_DAY, LAST_HOUR, OfficeKey, OfficeRecord, Pollutant, SiteId};
use aq_cal::{civil_of, hour_of};
use aq_registry::{RecordChange, Registry};

/// The ozone cells that read a changed row.
#[derive(Clone, Copy, Debug)]
pub(crate) enum Reach {
    Nothing,
    /// Those that read an hour of a site from the first to the last.
    Hours {
        site: SiteId,
        first: Hour,
        last: Hour,
    },
    /// The year of a site.
    Year {
        site: SiteId,
        year: u16,
    },
}

/// What a change reaches in an office with these records.
pub(crate) fn reach_of(registry: &Registry, change: &OfficeChange) -> Reach
    ensures value { result ≡ reach_of registry.now change.now }
    ensures within { IsReach result }
{
    match change {
        OfficeChange::Observation { key, .. } => {
            reach_of_hours(key.monitor.pollutant, key.monitor.site, key.hour, key.hour)
        }
        OfficeChange::Record(change) => reach_of_record(registry, change),
    }
}

fn reach_of_record(registry: &Registry, change: &RecordChange) -> Reach
    ensures value { result ≡ reach_of_record registry.now change.now }
    ensures within { IsReach result }
{
    if let Some(row) = &change.new {
        return reach_of_key(registry, &row.key(), change.old.is_none());
    }
    if let Some(row) = &change.old {
        return reach_of_key(registry, &row.key(), false);
    }
    Reach::Nothing
}

/// What a changed record of a key reaches; whether it is new counts for a monitor alone.
fn reach_of_key(registry: &Registry, key: &OfficeKey, is_new: bool) -> Reach
    ensures value { result ≡ reach_of_key registry.now key.now is_new }
    ensures within { IsReach result }
{
    match *key {
        OfficeKey::Monitor { id } => {
            if is_new {
                Reach::Nothing
            } else {
                reach_of_hours(id.pollutant, id.site, Hour::new(0), Hour::new(LAST_HOUR))
            }
        }
        OfficeKey::Primary {
            site,
            pollutant,
            from,
        } => {
            let last = last_day_designated(registry, site, pollutant, from);
            reach_of_hours(pollutant, site, hour_of(from, 0), hour_of(last, 23))
        }
        OfficeKey::Season { site, year } => Reach::Year { site, year },
        OfficeKey::Approved { site, day } => Reach::Year {
            site,
            year: civil_of(day).year,
        },
        OfficeKey::Event { number } => reach_of_event(&registry.get(OfficeKey::Event { number })),
        OfficeKey::Concurrence { number } => {
            reach_of_event(&registry.get(OfficeKey::Event { number }))
        }
        OfficeKey::Schedule { .. } => Reach::Nothing,
        OfficeKey::Makeup { .. } => Reach::Nothing,
        OfficeKey::Combined { .. } => Reach::Nothing,
    }
}

/// What the hours of an event reach.
fn reach_of_event(row: &Option<OfficeRecord>) -> Reach
    ensures value { result ≡ reach_of_event row.now }
    ensures within { IsReach result }
{
    match row {
        Some(
            OfficeRecord::Event {
                site,
                pollutant,
                first,
                last,
                ..
            },
        ) => reach_of_hours(*pollutant, *site, *first, *last),
        _ => Reach::Nothing,
    }
}

/// What hours of a site and pollutant reach, from the first to the last.
fn reach_of_hours(pollutant: Pollutant, site: SiteId, first: Hour, last: Hour) -> Reach
    ensures value { result ≡ reach_of_hours pollutant site first last }
    ensures within { IsReach result }
{
    match pollutant {
        Pollutant::Ozone if first.number() <= last.number() => Reach::Hours { site, first, last },
        _ => Reach::Nothing,
    }
}

/// The last day of the designation of a site and pollutant that starts on a day, be there one or not: the
/// day before the next one, found by one search of the map.
pub(crate) fn last_day_designated(
    registry: &Registry,
    site: SiteId,
    pollutant: Pollutant,
    from: Day,
) -> Day
    ensures { result ≡ table.last_day_designated registry.now site pollutant from }
{
    // For the proof: the records are those of a valid office.
    let _ = registry.next_poc(site, pollutant, 0);
    let key = OfficeKey::Primary {
        site,
        pollutant,
        from,
    };
    match start_in(&registry.following(Some(key)), &site, pollutant) {
        Some(next) => Day::new(next.number().saturating_sub(1)),
        None => Day::new(LAST_DAY),
    }
}

/// Where a record starts, if it is a designation of the site and pollutant.
fn start_in(row: &Option<OfficeRecord>, site: &SiteId, pollutant: Pollutant) -> Option<Day>
    ensures { result ≡ start_in site.now pollutant row.now }
{
    match row {
        Some(
            OfficeRecord::Primary {
                site: other,
                pollutant: kind,
                from,
                ..
            },
        ) if other == site && *kind == pollutant => Some(*from),
        _ => None,
    }
}
