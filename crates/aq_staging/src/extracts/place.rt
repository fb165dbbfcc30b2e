//! Where a sample is to stand.
ghost use Rattle.std.specs.Prelude.{◌≡◌, Some, IfOk};
ghost use Rattle.aq_staging.specs.Extracts.Judging.{place_of, span_of};
ghost use Rattle.aq_staging.specs.Extracts.Samples.{sample_in};
ghost use Rattle.aq_registry.specs.Registry.{office_with};
ghost use Rattle.aq_rules.specs.Office.Load as load;
ghost use Rattle.aq_rules.specs.Office.Office.{duration_at};
ghost use Rattle.aq_rules.specs.Office.Refusal.{kept_at};

use crate::extracts::days::Days;
use crate::extracts::sample::Sample;
use aq_base::{Duration, Hour, MonitorId, ObsKey, OfficeKey, OfficeRecord, Rule};
use aq_registry::Registry;

/// Where the sample of a line is to stand: it is on one of the days, of a registered monitor, and as long as the
/// monitor's samples last. Else the first of these rules that it breaks is named.
pub(crate) fn place_of(registry: &Registry, days: &Days, sample: &Sample) -> Result<ObsKey, Rule>
    ensures place { result ≡ place_of (span_of days.now) (office_with registry.now) (sample_in sample.now) }
    ensures monitor { IfOk result (λ key. key.monitor ≡ sample.now.monitor) }
{
    if !days.has(sample.hour) {
        return Err(Rule::BadDate);
    }
    match duration_of(registry, &sample.monitor) {
        Some(registered) => {
            if is_same_duration(sample.duration, registered) {
                Ok(kept_key(&sample.monitor, registered, sample.hour))
            } else {
                Err(Rule::WrongDuration)
            }
        }
        None => Err(Rule::UnknownMonitor),
    }
}

/// Whether samples last as long.
fn is_same_duration(a: Duration, b: Duration) -> bool
    ensures { result ≡ load.is_same_duration a b }
{
    a == b
}

/// How long a registered monitor's samples last, by one search of the records.
pub(crate) fn duration_of(registry: &Registry, monitor: &MonitorId) -> Option<Duration>
    ensures { result ≡ duration_at (office_with registry.now) monitor.now }
{
    let key = OfficeKey::Monitor { id: *monitor };
    match registry.get(key)? {
        OfficeRecord::Monitor { duration, .. } => Some(duration),
        _ => None,
    }
}

/// Where a monitor's sample is to stand: one of 24 hours at hour 00 of its date, whatever start time its
/// line names.
fn kept_key(monitor: &MonitorId, duration: Duration, hour: Hour) -> ObsKey
    ensures { result ≡ record { monitor = monitor.now; hour = kept_at (Some duration) hour } }
{
    let hour = match duration {
        Duration::Hour => hour,
        Duration::Day => Hour::new(24 * (hour.number() / 24)),
    };
    ObsKey {
        monitor: *monitor,
        hour,
    }
}
