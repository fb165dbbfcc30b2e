//! Whether an exceptional event leaves an observation out (40 CFR 50.14).
ghost use Rattle.std.specs.Prelude.{◌≡◌};
ghost use Rattle.aq_rules.specs.Office.Exclusion.{excluded};
ghost use Rattle.aq_series.specs.DayCells.{key_at};

use aq_base::{Hour, MonitorId, ObsKey, Quals};
use aq_registry::Registry;

/// Whether the observation of a monitor and an hour with these codes is left out for an exceptional event
/// (40 CFR 50.14). Most have no code, and without one the events are not asked.
#[inline(always)]
#[tactic(auto, using(crate::proofs::NoCodes::excluded_without_codes))]
pub fn is_excluded(registry: &Registry, monitor: &MonitorId, hour: Hour, quals: &Quals) -> bool
    ensures { result ≡ excluded registry.now (key_at monitor.now hour) quals.now }
{
    if quals.codes().is_empty() {
        return false;
    }
    excluded_by_codes(registry, monitor, hour, *quals)
}

/// Whether an observation with these codes is excluded. It stands apart, so that a loop over hours, which
/// mostly have no code, is short.
#[cold]
#[inline(never)]
fn excluded_by_codes(registry: &Registry, monitor: &MonitorId, hour: Hour, quals: Quals) -> bool
    ensures { result ≡ excluded registry.now (key_at monitor.now hour) quals }
{
    let key = ObsKey {
        monitor: *monitor,
        hour,
    };
    registry.excluded(key, &quals)
}
