//! The stretches into which the shelf cuts the hours of each monitor.
ghost use Rattle.std.specs.Prelude.{◌≡◌};
ghost use Rattle.aq_shelf.specs.Stretches.{stretch_of};

use aq_base::{MonitorId, ObsKey};

/// The hours of a stretch. A load in falling order moves so many at each hour; a list that grows by
/// doubling is full with it.
pub(crate) const STRETCH_HOURS: u32 = 256;

/// A stretch of a monitor's hours, by its number: stretch 0 begins with hour 0.
#[derive(Clone, Copy, PartialEq, Eq, PartialOrd, Ord)]
pub(crate) struct Stretch {
    pub(crate) monitor: MonitorId,
    pub(crate) number: u32,
}

impl Stretch {
    /// The stretch that a key's hour lies in.
    pub(crate) fn of(key: &ObsKey) -> Stretch
        ensures { result ≡ stretch_of key.now }
    {
        Stretch {
            monitor: key.monitor,
            number: key.hour.number() / STRETCH_HOURS,
        }
    }
}
