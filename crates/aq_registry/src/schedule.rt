//! The sampling schedule that is in force.
ghost use Rattle.std.specs.Prelude.{◌≡◌, ◌<◌};
ghost use Rattle.aq_rules.specs.Office.Schedule.{asks_for, distance};

use aq_base::Day;
use std::marker::Model;

/// A sampling schedule in force (40 CFR 58.12). From its first day on it asks for a sample on each day
/// whose distance from its anchor is a multiple of its interval (own). Contracts see the three.
#[derive(Clone, Copy, Debug)]
pub struct Schedule {
    from: Day,
    interval: u8,
    anchor: Day,
}

impl Model for Schedule {
    ghost use Rattle.std.specs.Prelude.{◌<◌};
    ghost use Rattle.aq_rules.specs.Office.Schedule.{Schedule as Sampling};

    ghost Value = { Sampling };

    ghost view = { λ schedule. record { from = schedule.from; interval = schedule.interval; anchor = schedule.anchor } };

    ghost invariant = { λ schedule. 0 < schedule.interval };

    ghost inverse = { λ schedule. record { from = schedule.from; interval = schedule.interval; anchor = schedule.anchor } };
}

impl Schedule {
    /// The schedule from a day on, whose interval is not 0.
    pub(crate) fn new(from: Day, interval: u8, anchor: Day) -> Schedule
        requires { 0 < interval }
        ensures { result ≡ record { from = from; interval = interval; anchor = anchor } }
    {
        Schedule {
            from,
            interval,
            anchor,
        }
    }

    /// The day from which it is in force.
    pub fn from(&self) -> Day
        ensures { result ≡ self.now.from }
    {
        self.from
    }

    /// Whether it asks for a sample on a day.
    pub fn asks(&self, day: Day) -> bool
        ensures { result ≡ asks_for day self.now }
    {
        distance(day, self.anchor) % u16::from(self.interval) == 0
    }
}

/// The days from one to the other, whichever comes first.
fn distance(a: Day, b: Day) -> u16
    ensures { result ≡ distance a b }
{
    let a = a.number();
    let b = b.number();
    if a < b { b - a } else { a - b }
}
