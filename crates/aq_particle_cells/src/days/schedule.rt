//! The scheduled days of quarters (40 CFR 58.12).
ghost use Rattle.std.specs.Prelude.{◌≡◌, ◌+◌, ◌-◌, ◌≤◌, count_by, filter, length};
ghost use Rattle.std.specs.List.{range_with_len};
ghost use Rattle.aq_base.specs.declared.day.TheConstants.{LAST_DAY};
ghost use Rattle.aq_rules.specs.Office.Schedule.{asks_for, is_scheduled};
ghost use Rattle.aq_rules.specs.Particles.QuarterCounts.{days_of_quarter};

use aq_base::{Day, Pollutant, Quarter, SiteId};
use aq_cal::quarter_span;
use aq_registry::{Registry, Schedule};

/// How many days of a quarter are scheduled. It goes from schedule to schedule, the last one first, by one
/// search of the map for each that is in force in the quarter.
pub fn scheduled_days(
    registry: &Registry,
    site: SiteId,
    pollutant: Pollutant,
    quarter: Quarter,
) -> u8
    ensures { result ≡ length (filter (is_scheduled registry.now site pollutant)
        (days_of_quarter quarter)) }
{
    let (from, days) = quarter_span(quarter);
    let first = from.number();
    // The day behind those that are not counted yet.
    let mut end = first + u16::from(days);
    let mut count = 0;
    while first < end {
        let Some(schedule) = registry.schedule_on(site, pollutant, Day::new(end - 1)) else {
            return count;
        };
        let start = first.max(schedule.from().number());
        count += asked_days(&schedule, start, end);
        end = start;
    }
    count
}

/// For how many days from the first one on and before the end a schedule asks.
fn asked_days(schedule: &Schedule, first: u16, end: u16) -> u8
    requires order { first ≤ end }
    requires profile { end ≤ LAST_DAY + 1 }
    requires few { end ≤ first + 255 }
    ensures asked { result ≡ count_by (λ day. asks_for day schedule.now) (range_with_len first (end - first)) }
    ensures few { result ≤ end - first }
{
    let mut count = 0;
    for number in first..end {
        count += u8::from(schedule.asks(Day::new(number)));
    }
    count
}
