//! The samples that are due of a monitor: each hour's, or that of each scheduled day (40 CFR 58.12).
ghost use Rattle.std.specs.Prelude.{◌≡◌, ◌+◌, ◌≤◌, count_by, length};
ghost use Rattle.std.specs.List.{range_with_len};
ghost use Rattle.aq_base.specs.declared.day.TheConstants.{LAST_DAY};
ghost use Rattle.aq_rules.specs.Listed.Completeness.{due_hours};
ghost use Rattle.aq_rules.specs.Office.Schedule as schedules;
ghost use Rattle.aq_registry.specs.Registry.{office_with};
ghost use Rattle.aq_listed.specs.DueSamples.{is_due};

use aq_base::{Day, Duration, Hour, MonitorId};
use aq_registry::Registry;

/// Whether a sample is due that starts at an hour.
pub(crate) fn is_due(
    registry: &Registry,
    monitor: &MonitorId,
    duration: Duration,
    hour: Hour,
) -> bool
    ensures { result ≡ is_due registry.now monitor.now duration hour }
{
    match duration {
        Duration::Hour => true,
        Duration::Day => {
            let hour = hour.number();
            let day = Day::new((hour / 24) as u16);
            hour % 24 == 0 && registry.is_scheduled(monitor.site, monitor.pollutant, day)
        }
    }
}

/// How many samples are due on so many days from the first one on.
pub(crate) fn due_samples(
    registry: &Registry,
    monitor: &MonitorId,
    duration: Duration,
    first: Day,
    days: u8,
) -> u32
    requires in_profile { first + days ≤ LAST_DAY + 1 }
    ensures { result ≡ length (due_hours (office_with registry.now) monitor.now duration (range_with_len first days)) }
{
    match duration {
        Duration::Hour => 24 * u32::from(days),
        Duration::Day => u32::from(scheduled_days(registry, monitor, first, days)),
    }
}

/// How many of so many days from the first one on are scheduled.
fn scheduled_days(registry: &Registry, monitor: &MonitorId, first: Day, days: u8) -> u8
    requires in_profile { first + days ≤ LAST_DAY + 1 }
    ensures { result ≡ count_by (schedules.is_scheduled registry.now monitor.now.site monitor.now.pollutant) (range_with_len first days) }
{
    let mut count = 0;
    for place in 0..days {
        let day = Day::new(first.number() + u16::from(place));
        count += u8::from(registry.is_scheduled(monitor.site, monitor.pollutant, day));
    }
    count
}
