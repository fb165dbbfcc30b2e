//! Cells that wait are brought up to date, lower levels first.
ghost use Rattle.std.specs.Prelude.{◌≡◌, ◌≤◌, ◌<◌, ◌+◌, ℕ, Some, false, true, OnOk};
ghost use Rattle.aq_base.specs.Site.{Site};
ghost use Rattle.aq_base.specs.declared.day.TheConstants.{LAST_DAY};
ghost use Rattle.aq_rules.specs.Kept.Cells.{CellName as Cell, HourCell, WindowCell, OzoneDayCell, OzoneYearCell};
ghost use Rattle.aq_series.specs.OfficeView.{office_of};
ghost use Rattle.aq_dirty.specs.Marked.{holds_cell, named, next_in};
ghost use Rattle.aq_ozone_cells.specs.Bound.{steps_for, AreEnough};
ghost use Rattle.aq_ozone_cells.specs.FilledDays.{AreKept};
ghost use Rattle.aq_ozone_cells.specs.Settling.{AreBelow, AreWeeksOf, CellsStay, HasMaximumOf, IsAverageOf, IsBroughtUp, IsCellOf, IsHourOf};

use crate::ozone_cells::OzoneCells;
use crate::weeks::{TWO_DAYS, Weeks, fill_ahead, week_ahead};
use aq_base::{Day, FIRST_YEAR, Hour, LAST_YEAR, Memory, SiteId, Steps};
use aq_dirty::{CellName, Dirty};
use aq_registry::Registry;
use aq_series::site_hour;
use aq_shelf::Shelf;
use std::sync::ledger::Ledger;

/// Brings the cells that wait up to date with the office of these records and observations, of which all
/// others are: hours before averages, these before days, and these before years. Where the hours of two
/// days or more wait together, all that is kept of their days is filled a week at once. At most 40 steps
/// for an hour, four for an average or a day, and 732 for a year, but none if its days count as they should.
pub fn settle<L: Ledger>(
    cells: &mut OzoneCells,
    dirty: &mut Dirty,
    shelf: &Shelf,
    registry: &Registry,
    steps: &mut Steps<L>,
) -> Result<(), Memory>
    requires { (cell : Cell) → holds_cell dirty.old cell ≡ false → IsCellOf (office_of registry.now shelf.now) cells.old cell }
    ensures kept { OnOk result (AreKept (office_of registry.now shelf.now) cells.new) }
    ensures steps { (enough : Cell → ℕ) → AreEnough (office_of registry.now shelf.now) cells.old enough → steps.new ≤ steps.old + steps_for enough dirty.old }
{
    let mut weeks = Weeks::new(cells.alloc);
    while let Some(cell) = dirty.next() {
        settle_next(cells, &mut weeks, &cell, dirty, shelf, registry, steps)?;
    }
    Ok(())
}

/// Brings the next cell up to date, unless one of the weeks has it, and drops it. If hours of two days or
/// more begin with it, all of a week is, which joins the weeks: the hours of the two days pay for it, and
/// are dropped.
fn settle_next<L: Ledger>(
    cells: &mut OzoneCells,
    weeks: &mut Weeks,
    cell: &CellName,
    dirty: &mut Dirty,
    shelf: &Shelf,
    registry: &Registry,
    steps: &mut Steps<L>,
) -> Result<(), Memory>
    requires next { next_in dirty.old ≡ Some (named cell.now) }
    requires held { holds_cell dirty.old (named cell.now) ≡ true }
    requires others { (other : Cell) → holds_cell dirty.old other ≡ false → IsCellOf (office_of registry.now shelf.now) cells.old other }
    requires weeks { AreWeeksOf (office_of registry.now shelf.now) cells.old weeks.old.weeks.items }
    ensures others { OnOk result ((other : Cell) → holds_cell dirty.new other ≡ false → IsCellOf (office_of registry.now shelf.now) cells.new other) }
    ensures weeks { OnOk result (AreWeeksOf (office_of registry.now shelf.now) cells.new weeks.new.weeks.items) }
    ensures stay { OnOk result (CellsStay (office_of registry.now shelf.now) cells.old cells.new) }
    ensures fewer { OnOk result (steps_for (λ _. 40) dirty.new < steps_for (λ _. 40) dirty.old) }
    ensures paid { OnOk result ((enough : Cell → ℕ) → AreEnough (office_of registry.now shelf.now) cells.old enough → steps.new + steps_for enough dirty.new ≤ steps.old + steps_for enough dirty.old) }
    ensures steps { (enough : Cell → ℕ) → AreEnough (office_of registry.now shelf.now) cells.old enough → steps.new ≤ steps.old + steps_for enough dirty.old }
{
    if weeks.have(cell) {
        dirty.settle(*cell);
        return Ok(());
    }
    if let Some(week) = week_ahead(dirty) {
        fill_ahead(cells, weeks, week, shelf, registry, steps)?;
        dirty.settle_hours(TWO_DAYS);
        return Ok(());
    }
    bring_up(cells, cell, shelf, registry, steps)?;
    dirty.settle(*cell);
    Ok(())
}

/// Brings a cell up to date.
fn bring_up<L: Ledger>(
    cells: &mut OzoneCells,
    cell: &CellName,
    shelf: &Shelf,
    registry: &Registry,
    steps: &mut Steps<L>,
) -> Result<(), Memory>
    requires { AreBelow (office_of registry.now shelf.now) cells.old (named cell.now) }
    ensures up { OnOk result (IsBroughtUp (office_of registry.now shelf.now) cells.old cells.new (named cell.now)) }
    ensures steps { (enough : Cell → ℕ) → AreEnough (office_of registry.now shelf.now) cells.old enough → steps.new ≤ steps.old + enough (named cell.now) }
{
    match cell {
        CellName::Hour(site, hour) => bring_up_hour(cells, *site, *hour, shelf, registry, steps),
        CellName::Window(site, start) => {
            bring_up_average(cells, *site, *start, shelf, registry, steps)
        }
        CellName::OzoneDay(site, day) => bring_up_day(cells, *site, *day, shelf, registry, steps),
        CellName::OzoneYear(site, year) => {
            bring_up_year(cells, *site, *year, shelf, registry, steps)
        }
        _ => Ok(()), // Nothing is kept of it here.
    }
}

fn bring_up_hour<L: Ledger>(
    cells: &mut OzoneCells,
    site: SiteId,
    hour: Hour,
    shelf: &Shelf,
    registry: &Registry,
    steps: &mut Steps<L>,
) -> Result<(), Memory>
    ensures up { OnOk result (IsBroughtUp (office_of registry.now shelf.now) cells.old cells.new (HourCell site hour)) }
    ensures steps { steps.new ≤ steps.old + 40 }
{
    let new = site_hour(shelf, registry, site, hour, steps);
    let old = cells.hour(site, hour);
    cells.change_hour(site, hour, old, new, steps)?;
    Ok(())
}

fn bring_up_average<L: Ledger>(
    cells: &mut OzoneCells,
    site: SiteId,
    start: Hour,
    shelf: &Shelf,
    registry: &Registry,
    steps: &mut Steps<L>,
) -> Result<(), Memory>
    requires { (other : Site) (hour : ℕ) → IsHourOf (office_of registry.now shelf.now) cells.old other hour }
    ensures up { OnOk result (IsBroughtUp (office_of registry.now shelf.now) cells.old cells.new (WindowCell site start)) }
    ensures steps { steps.new ≤ steps.old + 4 }
{
    cells.settle_window(site, start, steps)?;
    Ok(())
}

fn bring_up_day<L: Ledger>(
    cells: &mut OzoneCells,
    site: SiteId,
    day: Day,
    shelf: &Shelf,
    registry: &Registry,
    steps: &mut Steps<L>,
) -> Result<(), Memory>
    requires { (other : Site) (start : ℕ) → IsAverageOf (office_of registry.now shelf.now) cells.old other start }
    ensures up { OnOk result (IsBroughtUp (office_of registry.now shelf.now) cells.old cells.new (OzoneDayCell site day)) }
    ensures steps { steps.new ≤ steps.old + 4 }
{
    // The proof learns that the day is one of the profile.
    let _ = day.number();
    cells.settle_day(registry, site, day, steps)?;
    Ok(())
}

fn bring_up_year<L: Ledger>(
    cells: &mut OzoneCells,
    site: SiteId,
    year: u16,
    shelf: &Shelf,
    registry: &Registry,
    steps: &mut Steps<L>,
) -> Result<(), Memory>
    requires averages { (other : Site) (start : ℕ) → IsAverageOf (office_of registry.now shelf.now) cells.old other start }
    requires days { (other : Site) (day : ℕ) → day ≤ LAST_DAY → HasMaximumOf (office_of registry.now shelf.now) cells.old other day }
    ensures up { OnOk result (IsBroughtUp (office_of registry.now shelf.now) cells.old cells.new (OzoneYearCell site year)) }
    ensures steps { steps.new ≤ steps.old + 732 }
    ensures no_step { IsCellOf (office_of registry.now shelf.now) cells.old (OzoneYearCell site year) → steps.new ≤ steps.old }
{
    // No day of the profile is one of an earlier or a later year.
    if year < FIRST_YEAR {
        return Ok(());
    }
    if year > LAST_YEAR {
        return Ok(());
    }
    cells.settle_year(registry, site, year, steps)?;
    Ok(())
}
