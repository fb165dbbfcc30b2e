//! What one record says.
ghost use Rattle.std.specs.Prelude.{◌≡◌, false, option_map, IfSome, IsTrue};
ghost use Rattle.std.specs.Option.{option_and_then, option_map_or};
ghost use Rattle.aq_rules.specs.Office.Designation.{designated_poc};
ghost use Rattle.aq_rules.specs.Office.Office.{combines, combines_either, is_record, is_same, series_numbers};
ghost use Rattle.aq_registry.specs.Events.{event_above};
ghost use Rattle.aq_registry.specs.Rules.{duration_in};
ghost use Rattle.aq_registry.specs.Registry.{agreement_in, coverage_in, days_of, designation_in, joined_from, joined_in, schedule_in, missed_by, makeup_in, pair_of, poc_in, registration_in, season_in, site_in};

use crate::place::parameter;
use crate::schedule::Schedule;
use aq_base::{Day, Duration, Hour, OfficeRecord, Pollutant, SiteId};

/// How long a monitor's samples last, and whether its values count.
pub(crate) fn registration(of: &Option<OfficeRecord>) -> Option<(Duration, bool)>
    ensures { result ≡ option_map pair_of (option_and_then registration_in of.now) }
{
    match of {
        Some(
            OfficeRecord::Monitor {
                duration,
                eligible,
                ..
            },
        ) => Some((*duration, *eligible)),
        _ => None,
    }
}

/// How long a monitor's samples last.
pub(crate) fn duration(of: &Option<OfficeRecord>) -> Option<Duration>
    ensures { result ≡ duration_in of.now }
{
    match of {
        Some(OfficeRecord::Monitor { duration, .. }) => Some(*duration),
        _ => None,
    }
}

/// A monitor's POC.
pub(crate) fn poc(of: &Option<OfficeRecord>) -> Option<u8>
    ensures { result ≡ option_and_then poc_in of.now }
{
    match of {
        Some(OfficeRecord::Monitor { id, .. }) => Some(id.poc),
        _ => None,
    }
}

/// A monitor's site.
pub(crate) fn site(of: &Option<OfficeRecord>) -> Option<SiteId>
    ensures { result ≡ option_and_then site_in of.now }
{
    match of {
        Some(OfficeRecord::Monitor { id, .. }) => Some(id.site),
        _ => None,
    }
}

/// A season's first and last day.
pub(crate) fn season(of: &Option<OfficeRecord>) -> Option<(Day, Day)>
    ensures { result ≡ option_map days_of (option_and_then season_in of.now) }
{
    match of {
        Some(OfficeRecord::Season { first, last, .. }) => Some((*first, *last)),
        _ => None,
    }
}

/// The day of a make-up sample.
pub(crate) fn makeup(of: &Option<OfficeRecord>) -> Option<Day>
    ensures { result ≡ option_and_then makeup_in of.now }
{
    match of {
        Some(OfficeRecord::Makeup { makeup, .. }) => Some(*makeup),
        _ => None,
    }
}

/// The site that is joined to another one, and the day from which it is.
pub(crate) fn joined(of: &Option<OfficeRecord>) -> Option<(SiteId, Day)>
    ensures { result ≡ option_map joined_from (option_and_then joined_in of.now) }
{
    match of {
        Some(OfficeRecord::Combined { from, joined, .. }) => Some((*joined, *from)),
        _ => None,
    }
}

/// Whether a record combines one of two sites for a pollutant, in either part.
pub(crate) fn combines_either(
    of: &OfficeRecord,
    site: &SiteId,
    joined: &SiteId,
    pollutant: Pollutant,
) -> bool
    ensures { result ≡ combines_either site.now joined.now pollutant of.now }
{
    combines(of, site, pollutant) || combines(of, joined, pollutant)
}

/// Whether a record combines a site for a pollutant, in either part.
fn combines(of: &OfficeRecord, site: &SiteId, pollutant: Pollutant) -> bool
    ensures { result ≡ combines site.now pollutant of.now }
{
    match of {
        OfficeRecord::Combined {
            site: first,
            pollutant: other,
            joined,
            ..
        } => {
            is_same_series(first, *other, site, pollutant)
                || is_same_series(joined, *other, site, pollutant)
        }
        _ => false,
    }
}

/// Whether a site and pollutant are the same as others.
fn is_same_series(a: &SiteId, p: Pollutant, b: &SiteId, q: Pollutant) -> bool
    ensures { result ≡ is_same (series_numbers a.now p) (series_numbers b.now q) }
{
    a.state() == b.state()
        && a.county() == b.county()
        && a.site() == b.site()
        && parameter(p) == parameter(q)
}

/// Whether an event holds an hour in its span.
pub(crate) fn coverage(of: &Option<OfficeRecord>, hour: Hour) -> Option<bool>
    ensures { result ≡ option_and_then (coverage_in hour) of.now }
{
    match of {
        Some(OfficeRecord::Event { first, last, .. }) => {
            let hour = hour.number();
            Some(first.number() <= hour && hour <= last.number())
        }
        _ => None,
    }
}

/// The number of an event of a site and pollutant, if it is above the given one.
#[tactic(auto, using(crate::proofs::EventLemmas::event_series))]
pub(crate) fn event_above(
    of: &OfficeRecord,
    site: &SiteId,
    pollutant: Pollutant,
    after: u32,
) -> Option<u32>
    ensures { result ≡ event_above site.now pollutant after of.now }
{
    match of {
        OfficeRecord::Event {
            number,
            site: other,
            pollutant: measured,
            ..
        } if is_same_series(other, *measured, site, pollutant) && after < *number => Some(*number),
        _ => None,
    }
}

/// The POC of a designation, which names none if it is 0.
pub(crate) fn designated(of: &Option<OfficeRecord>) -> Option<u8>
    ensures { result ≡ option_and_then designated_poc (option_and_then designation_in of.now) }
{
    match of {
        Some(OfficeRecord::Primary { poc, .. }) if *poc != 0 => Some(*poc),
        _ => None,
    }
}

/// The schedule that a record makes.
#[tactic(auto, using(crate::proofs::ScheduleLemmas::interval_is_some))]
pub(crate) fn schedule(of: &Option<OfficeRecord>) -> Option<Schedule>
    requires { IfSome of.now (λ r. IsTrue (is_record r)) }
    ensures { result ≡ option_and_then schedule_in of.now }
{
    match of {
        Some(
            OfficeRecord::Schedule {
                from,
                interval,
                anchor,
                ..
            },
        ) => Some(Schedule::new(*from, *interval, *anchor)),
        _ => None,
    }
}

/// The missed day for which the sample of a day makes up.
pub(crate) fn missed(of: &OfficeRecord, day: Day) -> Option<Day>
    ensures { result ≡ missed_by day of.now }
{
    match of {
        OfficeRecord::Makeup { missed, makeup, .. } if makeup.number() == day.number() => {
            Some(*missed)
        }
        _ => None,
    }
}

/// Whether a concurrence agrees.
pub(crate) fn agreement(of: &Option<OfficeRecord>) -> bool
    ensures { result ≡ option_map_or agreement_in of.now false }
{
    match of {
        Some(OfficeRecord::Concurrence { agreed, .. }) => *agreed,
        _ => false,
    }
}
