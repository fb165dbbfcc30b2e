//! Weeks that are filled whole while cells are brought up to date.
ghost use Rattle.std.specs.Prelude.{◌≡◌, ◌≤◌, ◌+◌, [], Some, IfSome, IsTrue, OnOk};
ghost use Rattle.std.specs.List.{list_any};
ghost use Rattle.aq_base.specs.Site.{Site};
ghost use Rattle.aq_base.specs.declared.day.TheConstants.{LAST_DAY};
ghost use Rattle.aq_rules.specs.Kept.Cells.{CellName as Cell};
ghost use Rattle.aq_series.specs.OfficeView.{office_of};
ghost use Rattle.aq_dirty.specs.Marked.{named};
ghost use Rattle.aq_ozone_cells.specs.Bound.{IsBegun};
ghost use Rattle.aq_ozone_cells.specs.Filling.{is_within};
ghost use Rattle.aq_ozone_cells.specs.Settling.{is_of_week, AreWeeksOf, CellsStay, IsCellOf};

use crate::filling::{Week, fill_week, is_within};
use crate::ozone_cells::OzoneCells;
use aq_base::{Memory, SiteId, Steps};
use aq_dirty::{CellName, Dirty};
use aq_registry::Registry;
use aq_shelf::Shelf;
use std::alloc::Global;
use std::sync::ledger::Ledger;

/// So many hours one by one may make more steps than a week that is filled: 1,920, and 1,572.
pub(crate) const TWO_DAYS: u32 = 48;

/// The weeks that were filled, mostly in the order of sites and days, and the place of the one that was
/// found last. Each cell of their days is up to date, but for the years.
#[derive(Drop)]
pub(crate) struct Weeks {
    weeks: Vec<Week>,
    place: usize,
}

impl Weeks {
    /// No weeks. It takes no memory.
    pub(crate) fn new(alloc: Global) -> Weeks
        ensures { result.weeks.items ≡ [] }
    {
        Weeks {
            weeks: Vec::new(alloc),
            place: 0,
        }
    }

    /// Whether a cell is found to be of a day of one of the weeks.
    pub(crate) fn have(&mut self, cell: &CellName) -> bool
        ensures found { IsTrue result → IsTrue (list_any (λ week. is_of_week week (named cell.now)) self.old.weeks.items) }
        ensures same { self.new.weeks.items ≡ self.old.weeks.items }
    {
        match cell {
            CellName::Hour(site, hour) => self.have_day(*site, (hour.number() / 24) as u16),
            CellName::Window(site, start) => self.have_day(*site, (start.number() / 24) as u16),
            CellName::OzoneDay(site, day) => self.have_day(*site, day.number()),
            _ => false,
        }
    }

    /// Whether a day is found to be one of the weeks': the week that was found last is asked first, and then
    /// the last one that does not start after the day.
    fn have_day(&mut self, site: SiteId, day: u16) -> bool
        ensures found { IsTrue result → IsTrue (list_any (λ week. is_within (Some week) site day day) self.old.weeks.items) }
        ensures same { self.new.weeks.items ≡ self.old.weeks.items }
    {
        if is_day_at(&self.weeks[..], self.place, site, day) {
            return true;
        }
        let started = started(&self.weeks[..], site, day);
        self.place = started.saturating_sub(1);
        is_day_at(&self.weeks[..], self.place, site, day)
    }
}

/// How many weeks in front do not start after a day of a site.
fn started(weeks: &[Week], site: SiteId, day: u16) -> usize {
    weeks.partition_point(|week| week.site < site || (week.site == site && week.first <= day))
}

/// Whether the week at a place has a day of a site.
fn is_day_at(weeks: &[Week], place: usize, site: SiteId, day: u16) -> bool
    ensures { IsTrue result → IsTrue (list_any (λ week. is_within (Some week) site day day) weeks.now) }
{
    match weeks.get(place) {
        Some(week) => is_within(&Some(*week), site, day, day),
        None => false,
    }
}

/// The week that begins with the first hours that wait, if they are of at least two days from the first one's
/// 00:00 on.
pub(crate) fn week_ahead(dirty: &Dirty) -> Option<Week>
    ensures day { IfSome result (λ week. week.first ≤ LAST_DAY) }
    ensures begun { IfSome result (IsBegun dirty.now) }
{
    let waiting = dirty.first_hours()?;
    let number = waiting.first.number();
    if number % 24 != 0 || waiting.count < TWO_DAYS {
        return None;
    }
    Some(Week {
        site: waiting.site,
        first: (number / 24) as u16,
    })
}

/// Fills a week, and keeps it among the weeks.
pub(crate) fn fill_ahead<L: Ledger>(
    cells: &mut OzoneCells,
    weeks: &mut Weeks,
    week: Week,
    shelf: &Shelf,
    registry: &Registry,
    steps: &mut Steps<L>,
) -> Result<(), Memory>
    requires day { week.first ≤ LAST_DAY }
    requires weeks { AreWeeksOf (office_of registry.now shelf.now) cells.old weeks.old.weeks.items }
    ensures stay { OnOk result (CellsStay (office_of registry.now shelf.now) cells.old cells.new) }
    ensures filled { OnOk result ((cell : Cell) → IsTrue (is_of_week week cell) → IsCellOf (office_of registry.now shelf.now) cells.new cell) }
    ensures weeks { OnOk result (AreWeeksOf (office_of registry.now shelf.now) cells.new weeks.new.weeks.items) }
    ensures steps { steps.new ≤ steps.old + 1572 }
{
    fill_week(cells, shelf, registry, week.site, week.first, steps)?;
    weeks.weeks.push(week)?;
    Ok(())
}
