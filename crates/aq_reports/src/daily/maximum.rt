//! Where the maximum of an ozone day comes from.
ghost use Rattle.std.specs.Prelude.{◌≡◌};
ghost use Rattle.aq_reports.specs.Daily.Maxima.{first_among};

use aq_ozone::{DayWindows, FIRST_START};
use std::marker::Model;

/// The hour of the day at which an average starts, and its number of net hours. Contracts see the book's
/// start.
#[derive(Clone, Copy, Debug, PartialEq, Eq)]
pub struct MaximumAt {
    pub hour: u8,
    pub hours: u8,
}

impl Model for MaximumAt {
    ghost use Rattle.aq_rules.specs.Listed.Highest as highest;

    ghost Value = { highest.MaximumAt };

    ghost view = { λ at. record { hour = at.hour; hours = at.hours } };

    ghost inverse = { λ at. record { hour = at.hour; hours = at.hours } };
}

/// The earliest start from 07:00 on at which the net average of a day is a value.
pub fn first_at(windows: &DayWindows, value: i32) -> Option<MaximumAt>
    ensures { result ≡ first_among value windows.now }
{
    let mut hour = FIRST_START as u8;
    for row in &windows.rows {
        if row.net == Some(value) {
            let hours = row.net_hours;
            return Some(MaximumAt { hour, hours });
        }
        hour += 1;
    }
    None
}
