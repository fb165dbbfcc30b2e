//! The 8-hour averages (40 CFR Part 50, Appendix U, 3(a) and (b)).
ghost use Rattle.std.specs.Prelude.{◌≡◌, ◌≤◌, ◌*◌, unsigned_abs};
ghost use Rattle.aq_rules.specs.Ozone.EightHour as eight_hour;

use aq_base::Standard;
use std::marker::Model;

/// A day has this many averages: those that start at 07:00 to 23:00.
pub const WINDOWS: usize = 17;

/// With so many of its eight hours an average is over the hours that are there.
const ENOUGH_HOURS: u8 = 6;

/// An average of eight hours, net of those that are excluded, and the full one, which reads all hours,
/// both in thousandths of a ppm; and the number of hours of each. Contracts see the book's row.
#[derive(Clone, Copy, Debug, PartialEq, Eq)]
pub struct WindowRow {
    pub net: Option<i32>,
    pub net_hours: u8,
    pub full: Option<i32>,
    pub full_hours: u8,
}

impl Model for WindowRow {
    ghost use Rattle.aq_rules.specs.Ozone.EightHour as eight_hour;

    ghost Value = { eight_hour.WindowRow };

    ghost view = { λ row. record { net = row.net; net_hours = row.net_hours; full = row.full; full_hours = row.full_hours } };

    ghost inverse = { λ row. record { net = row.net; net_hours = row.net_hours; full = row.full; full_hours = row.full_hours } };
}

/// The averages of a day, in the order of their starts. Contracts see the list of them.
#[derive(Clone, Copy, Debug, PartialEq, Eq)]
pub struct DayWindows {
    pub rows: [WindowRow; WINDOWS],
}

impl Model for DayWindows {
    ghost use Rattle.std.specs.Prelude.{◌≡◌, List, length};
    ghost use Rattle.aq_rules.specs.Ozone.EightHour as eight_hour;
    ghost use Rattle.aq_ozone.specs.declared.eight_hour.TheConstants.{WINDOWS};

    ghost Value = { List eight_hour.WindowRow };

    ghost view = { λ windows. windows.rows };

    ghost invariant = { λ windows. length windows.rows ≡ WINDOWS };

    ghost inverse = { λ rows. record { rows = rows } };
}

impl DayWindows {
    ghost use Rattle.std.specs.Prelude.{◌≡◌};

    /// The averages of a day, from that of 07:00 on.
    pub fn new(rows: [WindowRow; WINDOWS]) -> DayWindows
        ensures { result ≡ rows }
    {
        DayWindows { rows }
    }
}

/// The average of so many hours with this sum, truncated to 0.001 ppm: over their number if there
/// are six or more; else over eight, zero for the missing ones, if what is left is above the level,
/// and none if it is not.
pub fn average(count: u8, sum: i32) -> Option<i32>
    requires count { count ≤ 8 }
    requires sum { unsigned_abs sum ≤ 9999 * count }
    ensures { result ≡ eight_hour.average count sum }
{
    if count >= ENOUGH_HOURS {
        Some(sum / i32::from(count))
    } else if sum >= 8 * (Standard::Ozone2015.level() + 1) {
        Some(sum / 8)
    } else {
        None
    }
}
