//! Days that are filled whole, from hours that follow one another.
ghost use Rattle.std.specs.Prelude.{◌≡◌, ◌<◌, ◌+◌, ◌&&◌, ◌/◌, ◌%◌, ◌==◌, ℕ, None, get_or, if◌then◌else◌, length, option_map, IfSome, OnOk, OnErr};
ghost use Rattle.aq_base.specs.Site.{Site};
ghost use Rattle.aq_rules.specs.Office.Monitors.{is_same_site};
ghost use Rattle.aq_series.specs.Samples.{AreOzone, IsOzone};
ghost use Rattle.aq_ozone_cells.specs.KeptDays.{average_at, average_in, held_at, hour_at, hour_in, kept_of, no_average};
ghost use Rattle.aq_ozone_cells.specs.FilledDays.{average_among, day_average};

use crate::kept_days::{DayCells, KeptAverage, KeptDays, KeptHour, kept_hour};
use crate::kept_window::average_over;
use aq_base::{Day, Memory, SiteId};
use aq_ozone::{FIRST_START, WINDOW_HOURS, WINDOWS};
use aq_series::Cell;

/// The hours of a day and the averages that start in it reach from its 00:00 to 06:00 of the next day.
pub(crate) const REACH: usize = 31;

/// Keeps the hours of a day and the averages that these give, from its 00:00 to 06:00 of the next day. What
/// the day gives its year stays. After want of memory all is as before.
pub(crate) fn fill_day(
    days: &mut KeptDays,
    site: SiteId,
    day: Day,
    hours: &[Option<Cell>],
) -> Result<(), Memory>
    requires many { length hours.now ≡ 31 }
    requires ozone { AreOzone hours.now }
    ensures hours { OnOk result ((other : Site) (number : ℕ) → hour_at days.new.days.entries other number ≡ (if is_same_site site other && (day == number / 24) then get_or hours.now (number % 24) None else hour_at days.old.days.entries other number)) }
    ensures averages { OnOk result ((other : Site) (start : ℕ) → average_at days.new.days.entries other start ≡ (if is_same_site site other && (day == start / 24) then day_average hours.now start else average_at days.old.days.entries other start)) }
    ensures held { OnOk result ((other : Site) (number : ℕ) → held_at days.new.days.entries other number ≡ held_at days.old.days.entries other number) }
    ensures err { OnErr result (days.new.days.entries ≡ days.old.days.entries) }
{
    let day = day.number();
    let mut cells = days.day(site, day);
    fill_cells(&mut cells, hours);
    days.put(site, day, cells)?;
    Ok(())
}

fn fill_cells(cells: &mut DayCells, hours: &[Option<Cell>])
    requires many { length hours.now ≡ 31 }
    requires ozone { AreOzone hours.now }
    ensures hours { (number : ℕ) → hour_in cells.new number ≡ get_or hours.now (number % 24) None }
    ensures averages { (start : ℕ) → average_in cells.new start ≡ day_average hours.now start }
    ensures held { cells.new.held ≡ cells.old.held }
{
    cells.hours = kept_hours(hours);
    cells.averages = kept_averages(hours);
}

fn kept_hours(hours: &[Option<Cell>]) -> [Option<KeptHour>; 24]
    requires many { length hours.now ≡ 31 }
    requires ozone { AreOzone hours.now }
    ensures { (k : ℕ) → k < 24 → get_or result k None ≡ option_map kept_of (get_or hours.now k None) }
{
    let mut kept = [None; 24];
    for i in 0..24 {
        kept[i] = kept_hour(&hours[i]);
    }
    kept
}

fn kept_averages(hours: &[Option<Cell>]) -> [KeptAverage; WINDOWS]
    requires many { length hours.now ≡ 31 }
    requires ozone { AreOzone hours.now }
    ensures { (k : ℕ) → k < 17 → get_or result k no_average ≡ average_among hours.now (7 + k) }
{
    let first = FIRST_START as usize;
    let none = KeptAverage {
        net: None,
        full: None,
    };
    let mut kept = [none; WINDOWS];
    for i in 0..WINDOWS {
        let start = first + i;
        kept[i] = average_over(&hours[start..start + WINDOW_HOURS]);
    }
    kept
}
