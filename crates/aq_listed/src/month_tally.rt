//! What stands of a monitor in the hours of a month.
ghost use Rattle.std.specs.Prelude.{◌≡◌, ◌+◌, ◌*◌, ◌≤◌, count_by};
ghost use Rattle.aq_base.specs.declared.day.TheConstants.{LAST_DAY};
ghost use Rattle.aq_shelf.specs.Standing.{observations_in, IsShelf};
ghost use Rattle.aq_listed.specs.DueSamples.{is_beside, is_due_with, is_null, is_valued, stands};

use crate::due_samples::is_due;
use aq_base::{Day, Duration, MonitorId, Observation, Steps};
use aq_cal::hour_of;
use aq_registry::Registry;
use aq_shelf::Shelf;
use std::sync::ledger::Ledger;

/// How many of the samples that stand are due, how many of these have a value or a null code, and how
/// many stand with a value where nothing is due.
#[derive(Clone, Copy)]
pub(crate) struct Tally {
    pub(crate) standing: u32,
    pub(crate) valued: u32,
    pub(crate) null: u32,
    pub(crate) extra: u32,
}

impl Tally {
    ghost use Rattle.std.specs.Prelude.{◌≡◌, ◌+◌, ◌<◌, ◌&&◌, not, is_some, if◌then◌else◌};

    /// One sample more.
    fn add(&mut self, due: bool, content: &Observation)
        requires standing { self.old.standing < 1000 }
        requires valued { self.old.valued < 1000 }
        requires null { self.old.null < 1000 }
        requires extra { self.old.extra < 1000 }
        ensures standing { self.new.standing ≡ self.old.standing + (if due then 1 else 0) }
        ensures valued { self.new.valued ≡ self.old.valued + (if is_some content.now.value && due then 1 else 0) }
        ensures null { self.new.null ≡ self.old.null + (if is_some content.now.null && due then 1 else 0) }
        ensures extra { self.new.extra ≡ self.old.extra + (if is_some content.now.value && not due then 1 else 0) }
    {
        if due {
            self.standing += 1;
            self.valued += u32::from(content.value.is_some());
            self.null += u32::from(content.null.is_some());
        } else {
            self.extra += u32::from(content.value.is_some());
        }
    }
}

/// What stands of a monitor on so many days from the first one on, by one walk over its span.
pub(crate) fn standing_samples<L: Ledger>(
    shelf: &Shelf,
    registry: &Registry,
    monitor: &MonitorId,
    duration: Duration,
    first: Day,
    days: u8,
    steps: &mut Steps<L>,
) -> Tally
    requires few { days ≤ 31 }
    ensures standing { result.standing ≡ count_by (is_due_with registry.now monitor.now duration stands) (observations_in monitor.now (24 * first) (24 * days) shelf.now) }
    ensures valued { result.valued ≡ count_by (is_due_with registry.now monitor.now duration is_valued) (observations_in monitor.now (24 * first) (24 * days) shelf.now) }
    ensures null { result.null ≡ count_by (is_due_with registry.now monitor.now duration is_null) (observations_in monitor.now (24 * first) (24 * days) shelf.now) }
    ensures extra { result.extra ≡ count_by (is_beside registry.now monitor.now duration) (observations_in monitor.now (24 * first) (24 * days) shelf.now) }
    ensures shelf { IsShelf shelf.now }
{
    let mut tally = Tally {
        standing: 0,
        valued: 0,
        null: 0,
        extra: 0,
    };
    let hours = 24 * u32::from(days);
    for (hour, content) in shelf.span(*monitor, hour_of(first, 0), hours, steps) {
        tally.add(is_due(registry, monitor, duration, hour), &content);
    }
    tally
}
