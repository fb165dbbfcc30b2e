//! The cells of an office, filled from its rows.
ghost use Rattle.std.specs.Prelude.{◌≡◌, ◌+◌, ◌<◌, ◌≤◌, ◌&&◌, ◌==◌, ℕ, List, false, true, is_none, length, IfOk, IsTrue, OnOk};
ghost use Rattle.std.specs.List.{list_all, list_any};
ghost use Rattle.aq_base.specs.Site.{Site};
ghost use Rattle.aq_base.specs.declared.day.TheConstants.{LAST_DAY};
ghost use Rattle.aq_base.specs.declared.observation.ObsKey.{ObsKey};
ghost use Rattle.aq_base.specs.declared.observation.Observation.{Observation};
ghost use Rattle.aq_rules.specs.Office.Approval.{approves, is_approved};
ghost use Rattle.aq_rules.specs.Office.Monitors.{is_same_site};
ghost use Rattle.aq_series.specs.OfficeView.{office_of};
ghost use Rattle.aq_series.specs.Samples.{AreOzone};
ghost use Rattle.aq_ozone_cells.specs.Filling.{hours_from, is_within, lies_at, observes, AreFilling, IsFilling, StayFilled};
ghost use Rattle.aq_ozone_cells.specs.FilledDays.{AreKept, IsDayOf, IsEmptyDay, IsSameDay};
ghost use Rattle.aq_ozone_cells.specs.OzoneCells.{is_among};

use crate::filled_days::REACH;
use crate::ozone_cells::OzoneCells;
use aq_base::{Day, LAST_DAY, Memory, ObsKey, OfficeRecord, Pollutant, SiteId, Steps};
use aq_registry::Registry;
use aq_series::{Cell, site_hours};
use aq_shelf::Shelf;
use std::alloc::Global;
use std::sync::ledger::Ledger;

/// The days that are filled together: the hours of eight are read, and the averages of the seventh day
/// reach into the eighth.
const WEEK: u16 = 7;

/// Days of a site that were filled, a week from the first on.
#[derive(Clone, Copy)]
pub(crate) struct Week {
    pub(crate) site: SiteId,
    pub(crate) first: u16,
}

/// The ozone cells of the office of these records and observations, level by level. It costs a walk over
/// both, and for each day of a site that has an observation or an approval some look-ups of the cells.
pub fn filled<L: Ledger>(
    alloc: Global,
    shelf: &Shelf,
    registry: &Registry,
    steps: &mut Steps<L>,
) -> Result<OzoneCells, Memory>
    ensures { IfOk result (AreKept (office_of registry.now shelf.now)) }
{
    let mut cells = OzoneCells::new(alloc);
    fill_observed(&mut cells, shelf, registry, steps)?;
    fill_approved(&mut cells, shelf, registry, steps)?;
    Ok(cells)
}

/// Fills the days of which an hour is observed, and the day before each.
fn fill_observed<L: Ledger>(
    cells: &mut OzoneCells,
    shelf: &Shelf,
    registry: &Registry,
    steps: &mut Steps<L>,
) -> Result<(), Memory>
    requires { AreFilling (office_of registry.now shelf.now) cells.old }
    ensures each { OnOk result (AreFilling (office_of registry.now shelf.now) cells.new) }
    ensures stay { OnOk result (StayFilled (office_of registry.now shelf.now) cells.old cells.new) }
    ensures filled { OnOk result ((site : Site) (day : ℕ) → day ≤ LAST_DAY → list_any (observes site day) shelf.now ≡ true → IsDayOf (office_of registry.now shelf.now) cells.new site day) }
{
    let mut week = None;
    for (key, _) in shelf.rows(steps) {
        fill_observation(cells, &mut week, shelf, registry, &key, steps)?;
    }
    Ok(())
}

/// Fills the days that are approved.
fn fill_approved<L: Ledger>(
    cells: &mut OzoneCells,
    shelf: &Shelf,
    registry: &Registry,
    steps: &mut Steps<L>,
) -> Result<(), Memory>
    requires { AreFilling (office_of registry.now shelf.now) cells.old }
    ensures each { OnOk result (AreFilling (office_of registry.now shelf.now) cells.new) }
    ensures stay { OnOk result (StayFilled (office_of registry.now shelf.now) cells.old cells.new) }
    ensures filled { OnOk result ((site : Site) (day : ℕ) → day ≤ LAST_DAY → list_any (approves site day) registry.now ≡ true → IsDayOf (office_of registry.now shelf.now) cells.new site day) }
{
    let mut week = None;
    for row in registry.rows() {
        fill_record(cells, &mut week, shelf, registry, &row, steps)?;
    }
    Ok(())
}

/// Fills the days that read an observation, if it is one of ozone.
fn fill_observation<L: Ledger>(
    cells: &mut OzoneCells,
    week: &mut Option<Week>,
    shelf: &Shelf,
    registry: &Registry,
    key: &ObsKey,
    steps: &mut Steps<L>,
) -> Result<(), Memory>
    requires { IsFilling (office_of registry.now shelf.now) cells.old week.old }
    ensures filling { OnOk result (IsFilling (office_of registry.now shelf.now) cells.new week.new) }
    ensures stay { OnOk result (StayFilled (office_of registry.now shelf.now) cells.old cells.new) }
    ensures filled { OnOk result ((site : Site) (day : ℕ) → lies_at site day key.now ≡ true → IsDayOf (office_of registry.now shelf.now) cells.new site day) }
{
    if key.monitor.pollutant != Pollutant::Ozone {
        return Ok(());
    }
    let day = (key.hour.number() / 24) as u16;
    fill_at(cells, week, shelf, registry, key.monitor.site, day, steps)?;
    Ok(())
}

/// Fills the day that a record approves, if it is an approval.
fn fill_record<L: Ledger>(
    cells: &mut OzoneCells,
    week: &mut Option<Week>,
    shelf: &Shelf,
    registry: &Registry,
    row: &OfficeRecord,
    steps: &mut Steps<L>,
) -> Result<(), Memory>
    requires { IsFilling (office_of registry.now shelf.now) cells.old week.old }
    ensures filling { OnOk result (IsFilling (office_of registry.now shelf.now) cells.new week.new) }
    ensures stay { OnOk result (StayFilled (office_of registry.now shelf.now) cells.old cells.new) }
    ensures filled { OnOk result ((site : Site) (day : ℕ) → approves site day row.now ≡ true → IsDayOf (office_of registry.now shelf.now) cells.new site day) }
{
    match row {
        OfficeRecord::Approved { site, day } => {
            fill_at(cells, week, shelf, registry, *site, day.number(), steps)?;
            Ok(())
        }
        _ => Ok(()),
    }
}

/// Fills a day and the day before, unless the last week that was filled has both.
fn fill_at<L: Ledger>(
    cells: &mut OzoneCells,
    week: &mut Option<Week>,
    shelf: &Shelf,
    registry: &Registry,
    site: SiteId,
    day: u16,
    steps: &mut Steps<L>,
) -> Result<(), Memory>
    requires day { day ≤ LAST_DAY }
    requires filling { IsFilling (office_of registry.now shelf.now) cells.old week.old }
    ensures filling { OnOk result (IsFilling (office_of registry.now shelf.now) cells.new week.new) }
    ensures stay { OnOk result (StayFilled (office_of registry.now shelf.now) cells.old cells.new) }
    ensures day { OnOk result (IsDayOf (office_of registry.now shelf.now) cells.new site day) }
    ensures before { OnOk result ((number : ℕ) → number + 1 ≡ day → IsDayOf (office_of registry.now shelf.now) cells.new site number) }
{
    let first = day.saturating_sub(1);
    if is_within(week, site, first, day) {
        return Ok(());
    }
    fill_week(cells, shelf, registry, site, first, steps)?;
    *week = Some(Week { site, first });
    Ok(())
}

/// Whether a week has the days of a site from the first to the last.
pub(crate) fn is_within(week: &Option<Week>, site: SiteId, first: u16, last: u16) -> bool
    requires { first ≤ last }
    ensures { result ≡ is_within week.now site first last }
{
    match week {
        Some(week) => week.site == site && week.first <= first && last - week.first < WEEK,
        None => false,
    }
}

/// Fills the days of a week from a day on, as far as the profile goes: at most 1,544 steps to read the hours,
/// and four for each day.
pub(crate) fn fill_week<L: Ledger>(
    cells: &mut OzoneCells,
    shelf: &Shelf,
    registry: &Registry,
    site: SiteId,
    first: u16,
    steps: &mut Steps<L>,
) -> Result<(), Memory>
    requires { first ≤ LAST_DAY }
    ensures filled { OnOk result ((day : ℕ) → first ≤ day → day < first + 7 → day ≤ LAST_DAY → IsDayOf (office_of registry.now shelf.now) cells.new site day) }
    ensures others { OnOk result ((other : Site) (day : ℕ) → (is_same_site site other && is_among first 7 day) ≡ false → IsSameDay cells.old cells.new other day) }
    ensures steps { steps.new ≤ steps.old + 1572 }
{
    let hours = site_hours(shelf, registry, site, Day::new(first), steps);
    let span = &hours[..];
    for i in 0..days_from(first) {
        let from = 24 * usize::from(i);
        fill_one(
            cells,
            registry,
            site,
            Day::new(first + i),
            &span[from..from + REACH],
            steps,
        )?;
    }
    Ok(())
}

/// How many of the days of a week from a day on the profile has.
fn days_from(first: u16) -> u16
    requires { first ≤ LAST_DAY }
    ensures most { result ≤ 7 }
    ensures profile { first + result ≤ LAST_DAY + 1 }
    ensures all { (day : ℕ) → day < first + 7 → day ≤ LAST_DAY → day < first + result }
{
    let left = LAST_DAY + 1 - first;
    if left < WEEK { left } else { WEEK }
}

/// Whether a day with these hours has nothing, and nothing was ever kept of it: it is as it should be.
fn is_unread(
    cells: &OzoneCells,
    registry: &Registry,
    site: SiteId,
    day: Day,
    hours: &[Option<Cell>],
) -> bool
    ensures kept { IsTrue result → IsEmptyDay cells.now site day }
    ensures approved { IsTrue result → is_approved registry.now site day ≡ false }
    ensures hours { IsTrue result → IsTrue (list_all is_none hours.now) }
{
    if cells.has_day(site, day) {
        return false;
    }
    if registry.is_approved(site, day) {
        return false;
    }
    hours.iter().all(|hour| hour.is_none())
}

/// Fills a day from its hours, and brings what it gives its year up to date. A day of which nothing is kept
/// and that has nothing stays so.
fn fill_one<L: Ledger>(
    cells: &mut OzoneCells,
    registry: &Registry,
    site: SiteId,
    day: Day,
    hours: &[Option<Cell>],
    steps: &mut Steps<L>,
) -> Result<(), Memory>
    requires many { length hours.now ≡ 31 }
    requires range { AreOzone hours.now }
    ensures filled { OnOk result ((rows : List (ObsKey × Observation)) → hours.now ≡ hours_from (office_of registry.now rows) site day → IsDayOf (office_of registry.now rows) cells.new site day) }
    ensures others { OnOk result ((other : Site) (number : ℕ) → (is_same_site site other && (day == number)) ≡ false → IsSameDay cells.old cells.new other number) }
    ensures steps { steps.new ≤ steps.old + 4 }
{
    // The proof learns that the day is one of the profile.
    let _ = day.number();
    if is_unread(cells, registry, site, day, hours) {
        return Ok(());
    }
    cells.fill_day(site, day, hours)?;
    cells.settle_day(registry, site, day, steps)?;
    Ok(())
}
