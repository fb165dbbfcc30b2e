//! What the days of sites give their years.
ghost use Rattle.std.specs.Prelude.{◌≡◌, ◌≤◌, ◌+◌, ◌*◌, ◌&&◌, ◌==◌, ℕ, if◌then◌else◌, count_by, map, IfSome, OnOk};
ghost use Rattle.aq_base.specs.Site.{Site};
ghost use Rattle.aq_base.specs.declared.day.TheConstants.{FIRST_YEAR, LAST_DAY, LAST_YEAR};
ghost use Rattle.aq_rules.specs.Office.Monitors.{is_same_site};
ghost use Rattle.aq_rules.specs.Office.Season.{is_in_season, season_of};
ghost use Rattle.aq_rules.specs.Ozone.OzoneDay.{starts_of};
ghost use Rattle.aq_rules.specs.Ozone.OzoneYear.{days_of};
ghost use Rattle.aq_series.specs.Samples.{IsOzone};
ghost use Rattle.aq_ozone.specs.DayHours.{AreNetOzone};
ghost use Rattle.aq_ozone_cells.specs.KeptDays.{average_at, held_at, hour_at};
ghost use Rattle.aq_ozone_cells.specs.OzoneCells.{counts, day_from, row_with, AreAveragesOfOzone, AreHeldAlready, AreSettled, AreYears};
ghost use Rattle.aq_ozone_cells.specs.YearTallies.{maximum_of};

use crate::kept_days::{HeldDay, KeptAverage, KeptDays};
use crate::kept_window::small;
use crate::year_tallies::YearTallies;
use aq_base::{Day, FIRST_YEAR, LAST_YEAR, Memory, SiteId, Steps};
use aq_cal::{civil_of, year_span};
use aq_ozone::{DayWindows, FIRST_START, WINDOWS, WindowRow, day_of_windows};
use aq_registry::Registry;
use std::sync::ledger::Ledger;

/// What the day of the averages that are kept gives its year, by the season and the approvals of a registry.
pub(crate) fn day_from(days: &KeptDays, registry: &Registry, site: SiteId, day: Day) -> HeldDay
    requires { AreAveragesOfOzone days.now.days.entries }
    ensures day { result ≡ day_from registry.now days.now.days.entries site day }
    ensures range { IfSome (maximum_of result) IsOzone }
{
    let ozone = day_of_windows(&averages_of(days, site, day));
    HeldDay {
        valid: ozone.valid,
        counted: counts(registry, site, day, ozone.valid),
        maximum: small(ozone.maximum),
    }
}

/// The averages of a day that are kept, as rows without their hours.
fn averages_of(days: &KeptDays, site: SiteId, day: Day) -> DayWindows
    requires { AreAveragesOfOzone days.now.days.entries }
    ensures rows { result ≡ map (λ start. row_with (average_at days.now.days.entries site start)) (starts_of day) }
    ensures range { AreNetOzone result }
{
    let number = day.number();
    let cells = days.day(site, number);
    let first = 24 * u32::from(number) + FIRST_START;
    let none = WindowRow {
        net: None,
        net_hours: 0,
        full: None,
        full_hours: 0,
    };
    let mut rows = [none; WINDOWS];
    for i in 0..WINDOWS {
        rows[i] = row_with(cells.average(first + i as u32));
    }
    DayWindows::new(rows)
}

/// A row with these averages.
fn row_with(average: KeptAverage) -> WindowRow
    ensures { result ≡ row_with average }
{
    WindowRow {
        net: wide(average.net),
        net_hours: 0,
        full: wide(average.full),
        full_hours: 0,
    }
}

fn wide(value: Option<i16>) -> Option<i32>
    ensures { result ≡ value }
{
    match value {
        Some(value) => Some(i32::from(value)),
        None => None,
    }
}

/// Whether a day counts for its year, if it is valid by its hours or not: it is one of the season, and it is
/// valid or approved.
fn counts(registry: &Registry, site: SiteId, day: Day, valid: bool) -> bool
    ensures { result ≡ counts registry.now site day valid }
{
    let season = registry.season(site, civil_of(day).year);
    is_in_season(&season, day) && (valid || registry.is_approved(site, day))
}

/// A day gives its year something else, in two steps; what it gave before costs none. After want of memory
/// a part of it may be done.
pub(crate) fn exchange_day<L: Ledger>(
    days: &mut KeptDays,
    tallies: &mut YearTallies,
    site: SiteId,
    day: Day,
    new: &HeldDay,
    steps: &mut Steps<L>,
) -> Result<(), Memory>
    requires years { AreYears days.old.days.entries tallies.old }
    requires range { IfSome (maximum_of new.now) IsOzone }
    ensures years { OnOk result (AreYears days.new.days.entries tallies.new) }
    ensures hours { OnOk result ((other : Site) (hour : ℕ) → hour_at days.new.days.entries other hour ≡ hour_at days.old.days.entries other hour) }
    ensures averages { OnOk result ((other : Site) (start : ℕ) → average_at days.new.days.entries other start ≡ average_at days.old.days.entries other start) }
    ensures days { OnOk result ((other : Site) (number : ℕ) → held_at days.new.days.entries other number ≡ (if is_same_site site other && (day == number) then new.now else held_at days.old.days.entries other number)) }
    ensures steps { steps.new ≤ steps.old + 2 }
    ensures no_step { held_at days.old.days.entries site day ≡ new.now → steps.new ≤ steps.old }
{
    // The proof learns that the day is one of the profile.
    let _ = day.number();
    let old = days.held(site, day);
    if old == *new {
        return Ok(());
    }
    tallies.exchange(site, civil_of(day).year, &old, new, steps)?;
    days.put_held(site, day, *new)?;
    Ok(())
}

/// Brings what so many days from the first on give their years up to date, by the averages that are kept.
/// After want of memory a part of it may be done.
pub(crate) fn settle_days<L: Ledger>(
    days: &mut KeptDays,
    tallies: &mut YearTallies,
    registry: &Registry,
    site: SiteId,
    first: Day,
    count: u16,
    steps: &mut Steps<L>,
) -> Result<(), Memory>
    requires profile { first + count ≤ LAST_DAY + 1 }
    requires ozone { AreAveragesOfOzone days.old.days.entries }
    requires years { AreYears days.old.days.entries tallies.old }
    ensures years { OnOk result (AreYears days.new.days.entries tallies.new) }
    ensures settled { OnOk result (AreSettled registry.now days.old.days.entries days.new.days.entries site first count) }
    ensures steps { steps.new ≤ steps.old + 2 * count }
    ensures no_step { AreHeldAlready registry.now days.old.days.entries site first count → steps.new ≤ steps.old }
{
    for i in 0..count {
        let day = Day::new(first.number() + i);
        let held = day_from(days, registry, site, day);
        exchange_day(days, tallies, site, day, &held, steps)?;
    }
    Ok(())
}

/// How many days of a year are days of its season.
pub(crate) fn season_days(registry: &Registry, site: SiteId, year: u16) -> u16
    requires first { FIRST_YEAR ≤ year }
    requires last { year ≤ LAST_YEAR }
    ensures { result ≡ count_by (is_in_season (season_of registry.now site year)) (days_of year) }
{
    let season = registry.season(site, year);
    let (first, days) = year_span(year);
    let mut count = 0;
    for i in 0..days {
        let day = Day::new(first.number() + i);
        count += one_if(is_in_season(&season, day));
    }
    count
}

/// One if a test holds, and else none.
fn one_if(test: bool) -> u16
    ensures { result ≡ (if test then 1 else 0) }
{
    if test { 1 } else { 0 }
}

/// Whether a day is one of a season, by the season's first and last day.
fn is_in_season(season: &(Day, Day), day: Day) -> bool
    ensures { result ≡ is_in_season (record { first = season.now.0; last = season.now.1 }) day }
{
    season.0 <= day && day <= season.1
}
