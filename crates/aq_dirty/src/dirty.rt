//! The cells that wait to be brought up to date.
ghost use Rattle.std.specs.Prelude.{◌≡◌, ◌≤◌, ◌<◌, ◌+◌, ◌&&◌, ◌||◌, ℕ, None, Some, true, false, not, option_map, IfSome, IfNone, OnOk, OnErr};
ghost use Rattle.std.specs.List.{list_any};
ghost use Rattle.aq_rules.specs.Kept.Cells.{CellName as Cell, HourCell, is_same_cell};
ghost use Rattle.aq_dirty.specs.Marked.{cells_of, first_hours_in, holds_cell, is_hour_in, named, next_in, nothing, Marked};
ghost use Rattle.aq_base.specs.declared.day.TheConstants.{LAST_HOUR};
ghost use Rattle.aq_dirty.specs.Reach.{adds, adds_hours, adds_year, marks, IsReach};

use crate::cell_name::CellName;
use crate::change::OfficeChange;
use crate::marking::{add_days, add_hours, reserve_each};
use crate::reach::{Reach, reach_of};
use crate::spans::{Span, Spans};
use aq_base::{Day, Hour, Memory, SiteId};
use aq_registry::Registry;
use std::alloc::Global;
use std::marker::Model;

/// Hours of a site, one after the other.
#[derive(Clone, Copy, Debug)]
pub struct HourSpan {
    pub site: SiteId,
    pub first: Hour,
    pub count: u32,
}

/// The cells that a change of an office's rows reaches and that wait to be brought up to date, as spans of
/// numbers. Contracts see the spans of each kind; `holds_cell` says which cells they hold.
#[derive(Drop)]
pub struct Dirty {
    hours: Spans,
    windows: Spans,
    days: Spans,
    years: Spans,
}

impl Model for Dirty {
    ghost use Rattle.aq_dirty.specs.Marked.{AreMarked, Marked};

    ghost Value = { Marked };

    ghost view = { λ dirty. record { hours = dirty.hours.spans; windows = dirty.windows.spans; days = dirty.days.spans; years = dirty.years.spans } };

    ghost invariant = { λ dirty. AreMarked dirty.hours.spans dirty.windows.spans dirty.days.spans dirty.years.spans };
}

impl Dirty {
    /// No cells. It takes no memory.
    pub fn new(alloc: Global) -> Dirty
        ensures { result ≡ nothing }
    {
        Dirty {
            hours: Spans::new(alloc),
            windows: Spans::new(alloc),
            days: Spans::new(alloc),
            years: Spans::new(alloc),
        }
    }

    /// Adds the ozone cells that read what a change changes, in an office with these records, and no others.
    /// After want of memory the set holds what it held.
    pub fn mark(&mut self, registry: &Registry, change: &OfficeChange) -> Result<(), Memory>
        ensures cells { OnOk result ((cell : Cell) → holds_cell self.new cell ≡ (holds_cell self.old cell || marks registry.now change.now cell)) }
        ensures unchanged { OnErr result (self.new ≡ self.old) }
    {
        let reach = reach_of(registry, change);
        self.add(reach)
    }

    fn add(&mut self, reach: Reach) -> Result<(), Memory>
        requires { IsReach reach }
        ensures cells { OnOk result ((cell : Cell) → holds_cell self.new cell ≡ (holds_cell self.old cell || adds reach cell)) }
        ensures unchanged { OnErr result (self.new ≡ self.old) }
    {
        match reach {
            Reach::Nothing => Ok(()),
            Reach::Hours { site, first, last } => self.add_hours(
                site,
                first.number(),
                last.number(),
            ),
            Reach::Year { site, year } => self.add_year(site, year),
        }
    }

    /// Adds the cells that read one of the hours of a site from the first to the last.
    fn add_hours(&mut self, site: SiteId, first: u32, last: u32) -> Result<(), Memory>
        requires some { first ≤ last }
        requires end { last ≤ LAST_HOUR }
        ensures cells { OnOk result ((cell : Cell) → holds_cell self.new cell ≡ (holds_cell self.old cell || adds_hours site first last cell)) }
        ensures unchanged { OnErr result (self.new ≡ self.old) }
    {
        reserve_each(
            &mut self.hours,
            &mut self.windows,
            &mut self.days,
            &mut self.years,
        )?;
        add_hours(&mut self.hours, &mut self.windows, site, first, last);
        add_days(&mut self.days, &mut self.years, site, first, last);
        Ok(())
    }

    /// Adds a year of a site of which a season or an approved day changed.
    fn add_year(&mut self, site: SiteId, year: u16) -> Result<(), Memory>
        ensures cells { OnOk result ((cell : Cell) → holds_cell self.new cell ≡ (holds_cell self.old cell || adds_year site year cell)) }
        ensures unchanged { OnErr result (self.new ≡ self.old) }
    {
        self.years.reserve(1)?;
        let year = u32::from(year);
        self.years.add(Span {
            site,
            first: year,
            last: year,
        });
        Ok(())
    }

    /// Whether a cell is held, by a walk over the spans of its kind.
    pub fn holds(&self, cell: CellName) -> bool
        ensures { result ≡ holds_cell self.now (named cell) }
    {
        match cell {
            CellName::Hour(site, hour) => self.hours.holds(site, hour.number()),
            CellName::Window(site, start) => self.windows.holds(site, start.number()),
            CellName::OzoneDay(site, day) => self.days.holds(site, u32::from(day.number())),
            CellName::OzoneYear(site, year) => self.years.holds(site, u32::from(year)),
            _ => false,
        }
    }

    /// The next cell: hours come before averages, these before days, and these before years.
    pub fn next(&self) -> Option<CellName>
        ensures value { option_map named result ≡ next_in self.now }
        ensures held { IfSome result (λ cell. holds_cell self.now (named cell) ≡ true) }
        ensures none { IfNone result ((cell : Cell) → holds_cell self.now cell ≡ false) }
    {
        if let Some(hours) = self.hours.first() {
            return Some(CellName::Hour(hours.site, Hour::new(hours.first)));
        }
        if let Some(windows) = self.windows.first() {
            return Some(CellName::Window(windows.site, Hour::new(windows.first)));
        }
        if let Some(days) = self.days.first() {
            return Some(CellName::OzoneDay(days.site, Day::new(days.first as u16)));
        }
        if let Some(years) = self.years.first() {
            return Some(CellName::OzoneYear(years.site, years.first as u16));
        }
        None
    }

    /// Drops the next cell, and no other. It takes no memory.
    pub fn settle(&mut self, cell: CellName)
        requires { next_in self.old ≡ Some (named cell) }
        ensures { (other : Cell) → holds_cell self.new other ≡ (holds_cell self.old other && not (is_same_cell (named cell) other)) }
    {
        match cell {
            CellName::Hour(_, hour) => self.hours.drop_to(hour.number()),
            CellName::Window(_, start) => self.windows.drop_to(start.number()),
            CellName::OzoneDay(_, day) => self.days.drop_to(u32::from(day.number())),
            CellName::OzoneYear(_, year) => self.years.drop_to(u32::from(year)),
            _ => {} // No other cell is held.
        }
    }

    /// The first hours that are held, if there are any: the next cell and those that follow it in its span.
    pub fn first_hours(&self) -> Option<HourSpan>
        ensures value { result ≡ first_hours_in self.now }
        ensures some { IfSome result (λ hours. 0 < hours.count) }
        ensures held { IfSome result (λ hours. (hour : ℕ) → hours.first ≤ hour → hour < hours.first + hours.count → holds_cell self.now (HourCell hours.site hour) ≡ true) }
    {
        let hours = self.hours.first()?;
        Some(HourSpan {
            site: hours.site,
            first: Hour::new(hours.first),
            count: hours.last - hours.first + 1,
        })
    }

    /// Drops the first hours, as many as are given, and no other cell. It takes no memory.
    pub fn settle_hours(&mut self, count: u32)
        requires some { 0 < count }
        requires held { IfSome (first_hours_in self.old) (λ hours. count ≤ hours.count) }
        ensures { IfSome (first_hours_in self.old) (λ hours. (cell : Cell) → holds_cell self.new cell ≡ (holds_cell self.old cell && not (is_hour_in hours.site hours.first count cell))) }
    {
        if let Some(hours) = self.hours.first() {
            self.hours.drop_to(hours.first + (count - 1));
        }
    }
}

/// The cells that are held are those of a list, span by span.
#[tactic(auto, using(crate::proofs::Members::held_cells))]
pub fn the_cells_held_are_a_list()
    ensures { (marked : Marked) (cell : Cell) → list_any (is_same_cell cell) (cells_of marked) ≡ holds_cell marked cell }
{}
