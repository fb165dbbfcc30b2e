//! The strata of PM10 that hold days of a site (40 CFR Part 50, Appendix K, 3.2).
ghost use Rattle.std.specs.Prelude.{◌≡◌, ◌≤◌, ◌<◌, ◌+◌, ◌-◌, ◌&&◌, ◌||◌, ℕ, Some, if◌then◌else◌};
ghost use Rattle.aq_base.specs.Site.{Site};
ghost use Rattle.aq_rules.specs.Particles.Strata.{stratum_by};
ghost use Rattle.aq_dirty.specs.ParticleReach.{begins_stratum, covers_stratum};
ghost use Rattle.aq_dirty.specs.Reach.{span_of};
ghost use Rattle.aq_dirty.specs.Spans.{covers, holds};

use crate::spans::{Span, Spans};
use aq_base::{Day, Pollutant, SiteId};
use aq_cal::{quarter_of, quarter_span};
use aq_registry::Registry;

/// A stratum has so many days at most.
const STRATUM_DAYS: u16 = 6;

/// The first day of the stratum that holds a day: a stratum starts with the quarter, at each scheduled day,
/// and six days after the last start if none came sooner.
pub fn stratum_first(registry: &Registry, site: SiteId, day: Day) -> Day
    ensures { stratum_by registry.now site day ≡ Some result }
{
    let (first, _) = quarter_span(quarter_of(day));
    let opens = first.number();
    let mut start = day.number();
    while opens < start && !registry.is_scheduled(site, Pollutant::Pm10, Day::new(start)) {
        start -= 1;
    }
    let whole = (day.number() - start) / STRATUM_DAYS;
    Day::new(start + whole * STRATUM_DAYS)
}

/// Adds the first days of the strata that hold a day of a site from the first to the last. It takes no
/// memory.
pub(crate) fn add_strata(
    strata: &mut Spans,
    registry: &Registry,
    site: SiteId,
    first: Day,
    last: Day,
)
    requires some { first ≤ last }
    requires room { last - first < strata.old.room }
    ensures { (other : Site) (number : ℕ) → holds other number strata.new.spans ≡
        (holds other number strata.old.spans
        || covers_stratum registry.now site first last other number) }
{
    let mut start = stratum_first(registry, site, first);
    add_start(strata, site, start);
    let end = last.number();
    let mut number = first.number();
    while number < end {
        number += 1;
        start = add_next(strata, registry, site, start, Day::new(number));
    }
}

/// Adds a day, if it begins a stratum, where that of the day before starts on `start`, and answers the
/// first day of its own.
fn add_next(strata: &mut Spans, registry: &Registry, site: SiteId, start: Day, day: Day) -> Day
    requires { 0 < strata.old.room }
    ensures start { result ≡ (if begins_stratum registry.now site start day then day else start) }
    ensures holds { (other : Site) (number : ℕ) → holds other number strata.new.spans ≡
        (holds other number strata.old.spans ||
        (begins_stratum registry.now site start day && covers other number
        (span_of site day day))) }
    ensures room { strata.old.room ≤ strata.new.room + 1 }
{
    if !begins_stratum(registry, site, start, day) {
        return start;
    }
    add_start(strata, site, day);
    day
}

/// Whether a day begins a stratum, where that of the day before starts on `start`.
fn begins_stratum(registry: &Registry, site: SiteId, start: Day, day: Day) -> bool
    ensures { result ≡ begins_stratum registry.now site start day }
{
    let (opens, _) = quarter_span(quarter_of(day));
    opens.number() == day.number()
        || registry.is_scheduled(site, Pollutant::Pm10, day)
        || day.number() == start.number() + STRATUM_DAYS
}

/// Adds the first day of a stratum.
fn add_start(strata: &mut Spans, site: SiteId, start: Day)
    requires { 0 < strata.old.room }
    ensures holds { (other : Site) (number : ℕ) → holds other number strata.new.spans ≡
        (holds other number strata.old.spans || covers other number
        (span_of site start start)) }
    ensures room { strata.old.room ≤ strata.new.room + 1 }
{
    let number = u32::from(start.number());
    strata.add(Span {
        site,
        first: number,
        last: number,
    });
}
