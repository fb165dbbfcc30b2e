//! The particle cells that wait to be brought up to date.
ghost use Rattle.std.specs.Prelude.{◌≡◌, ◌≤◌, ◌<◌, ◌-◌, ◌&&◌, ◌||◌, Some, true, false, not, option_map, IfSome, IfNone, OnOk, OnErr};
ghost use Rattle.std.specs.List.{list_any};
ghost use Rattle.aq_base.specs.declared.day.TheConstants.{LAST_DAY, QUARTERS};
ghost use Rattle.aq_base.specs.declared.monitor.Pollutant.TheVariants.{Pm25, Pm10};
ghost use Rattle.aq_rules.specs.Kept.Cells.{CellName as Cell, PmDayCell, QuarterCell, is_same_cell};
ghost use Rattle.aq_dirty.specs.Marked.{named};
ghost use Rattle.aq_dirty.specs.ParticleReach.{adds, adds_pm10_days, adds_pm10_quarters, adds_pm25_days, adds_pm25_quarters, marks_particle, IsReach};
ghost use Rattle.aq_dirty.specs.declared.particle_reach.ParticleReach.TheVariants.{Days, Quarters};
ghost use Rattle.aq_dirty.specs.Particles.{holds_particle, next_in, nothing, particle_cells_of, MarkedParticles};

use crate::cell_name::CellName;
use crate::change::OfficeChange;
use crate::particle_marking::{
    add_days, add_quarters, add_years, days_between, first_day, last_day, reserve_three,
    reserve_two,
};
use crate::particle_reach::{ParticleReach, particle_reach_of};
use crate::spans::Spans;
use crate::strata::add_strata;
use aq_base::{Day, Memory, Pollutant, Quarter, SiteId};
use aq_registry::Registry;
use std::alloc::Global;
use std::marker::Model;

/// The cells of PM2.5 and PM10 that a change of an office's rows reaches and that wait to be brought up to
/// date, as spans of numbers. Contracts see the spans of each kind; `holds_particle` says which cells they
/// hold.
#[derive(Drop)]
pub struct DirtyParticles {
    pm25_days: Spans,
    pm10_days: Spans,
    strata: Spans,
    pm25_quarters: Spans,
    pm10_quarters: Spans,
    years: Spans,
}

impl Model for DirtyParticles {
    ghost use Rattle.aq_dirty.specs.Particles.{AreMarkedParticles, MarkedParticles};

    ghost Value = { MarkedParticles };

    ghost view = { λ dirty. record { pm25_days = dirty.pm25_days.spans; pm10_days = dirty.pm10_days.spans; strata = dirty.strata.spans; pm25_quarters = dirty.pm25_quarters.spans; pm10_quarters = dirty.pm10_quarters.spans; years = dirty.years.spans } };

    ghost invariant = { λ dirty. AreMarkedParticles dirty.pm25_days.spans dirty.pm10_days.spans dirty.strata.spans dirty.pm25_quarters.spans dirty.pm10_quarters.spans dirty.years.spans };
}

impl DirtyParticles {
    /// No cells. It takes no memory.
    pub fn new(alloc: Global) -> DirtyParticles
        ensures { result ≡ nothing }
    {
        DirtyParticles {
            pm25_days: Spans::new(alloc),
            pm10_days: Spans::new(alloc),
            strata: Spans::new(alloc),
            pm25_quarters: Spans::new(alloc),
            pm10_quarters: Spans::new(alloc),
            years: Spans::new(alloc),
        }
    }

    /// Adds the particle cells that read what a change changes, in an office with these records, and no
    /// others. After want of memory the set holds what it held.
    pub fn mark(&mut self, registry: &Registry, change: &OfficeChange) -> Result<(), Memory>
        ensures cells { OnOk result ((cell : Cell) → holds_particle self.new cell ≡
            (holds_particle self.old cell || marks_particle registry.now change.now cell)) }
        ensures unchanged { OnErr result (self.new ≡ self.old) }
    {
        let reach = particle_reach_of(registry, change);
        self.add(registry, reach)
    }

    fn add(&mut self, registry: &Registry, reach: ParticleReach) -> Result<(), Memory>
        requires { IsReach reach }
        ensures cells { OnOk result ((cell : Cell) → holds_particle self.new cell ≡
            (holds_particle self.old cell || adds registry.now reach cell)) }
        ensures unchanged { OnErr result (self.new ≡ self.old) }
    {
        match reach {
            ParticleReach::Nothing => Ok(()),
            ParticleReach::Days {
                site,
                pollutant,
                first,
                last,
            } => self.add_days(registry, site, pollutant, first, last),
            ParticleReach::Quarters {
                site,
                pollutant,
                first,
                last,
            } => self.add_quarters(registry, site, pollutant, first, last),
        }
    }

    fn add_days(
        &mut self,
        registry: &Registry,
        site: SiteId,
        pollutant: Pollutant,
        first: Day,
        last: Day,
    ) -> Result<(), Memory>
        requires some { first ≤ last }
        requires end { last ≤ LAST_DAY }
        ensures cells { OnOk result ((cell : Cell) → holds_particle self.new cell ≡
            (holds_particle self.old cell || adds registry.now
            (Days site pollutant first last) cell)) }
        ensures unchanged { OnErr result (self.new ≡ self.old) }
    {
        match pollutant {
            Pollutant::Ozone => Ok(()),
            Pollutant::Pm25 => self.add_pm25_days(site, first, last),
            Pollutant::Pm10 => self.add_pm10_days(registry, site, first, last),
        }
    }

    /// Adds the PM2.5 cells that read one of the days of a site from the first to the last.
    fn add_pm25_days(&mut self, site: SiteId, first: Day, last: Day) -> Result<(), Memory>
        requires some { first ≤ last }
        requires end { last ≤ LAST_DAY }
        ensures cells { OnOk result ((cell : Cell) → holds_particle self.new cell ≡
            (holds_particle self.old cell || adds_pm25_days site first last cell)) }
        ensures unchanged { OnErr result (self.new ≡ self.old) }
    {
        reserve_three(
            &mut self.pm25_days,
            &mut self.pm25_quarters,
            &mut self.years,
            1,
        )?;
        add_days(
            &mut self.pm25_days,
            &mut self.pm25_quarters,
            site,
            first,
            last,
        );
        add_years(&mut self.years, site, first, last);
        Ok(())
    }

    /// Adds the PM10 cells that read one of the days of a site from the first to the last.
    fn add_pm10_days(
        &mut self,
        registry: &Registry,
        site: SiteId,
        first: Day,
        last: Day,
    ) -> Result<(), Memory>
        requires some { first ≤ last }
        requires end { last ≤ LAST_DAY }
        ensures cells { OnOk result ((cell : Cell) → holds_particle self.new cell ≡
            (holds_particle self.old cell || adds_pm10_days registry.now site first last cell)) }
        ensures unchanged { OnErr result (self.new ≡ self.old) }
    {
        reserve_three(
            &mut self.pm10_days,
            &mut self.pm10_quarters,
            &mut self.strata,
            days_between(first, last),
        )?;
        add_days(
            &mut self.pm10_days,
            &mut self.pm10_quarters,
            site,
            first,
            last,
        );
        add_strata(&mut self.strata, registry, site, first, last);
        Ok(())
    }

    fn add_quarters(
        &mut self,
        registry: &Registry,
        site: SiteId,
        pollutant: Pollutant,
        first: Quarter,
        last: Quarter,
    ) -> Result<(), Memory>
        requires some { first ≤ last }
        requires end { last < QUARTERS }
        ensures cells { OnOk result ((cell : Cell) → holds_particle self.new cell ≡
            (holds_particle self.old cell || adds registry.now
            (Quarters site pollutant first last) cell)) }
        ensures unchanged { OnErr result (self.new ≡ self.old) }
    {
        match pollutant {
            Pollutant::Ozone => Ok(()),
            Pollutant::Pm25 => self.add_pm25_quarters(site, first, last),
            Pollutant::Pm10 => self.add_pm10_quarters(registry, site, first, last),
        }
    }

    /// Adds quarters of PM2.5 of which a schedule or a make-up changed.
    fn add_pm25_quarters(
        &mut self,
        site: SiteId,
        first: Quarter,
        last: Quarter,
    ) -> Result<(), Memory>
        requires some { first ≤ last }
        requires end { last < QUARTERS }
        ensures cells { OnOk result ((cell : Cell) → holds_particle self.new cell ≡
            (holds_particle self.old cell || adds_pm25_quarters site first last cell)) }
        ensures unchanged { OnErr result (self.new ≡ self.old) }
    {
        self.pm25_quarters.reserve(1)?;
        add_quarters(&mut self.pm25_quarters, site, first, last);
        Ok(())
    }

    /// Adds quarters of PM10 of which a schedule changed, and the strata of their days.
    fn add_pm10_quarters(
        &mut self,
        registry: &Registry,
        site: SiteId,
        first: Quarter,
        last: Quarter,
    ) -> Result<(), Memory>
        requires some { first ≤ last }
        requires end { last < QUARTERS }
        ensures cells { OnOk result ((cell : Cell) → holds_particle self.new cell ≡
            (holds_particle self.old cell
            || adds_pm10_quarters registry.now site first last cell)) }
        ensures unchanged { OnErr result (self.new ≡ self.old) }
    {
        let first_day = first_day(first);
        let last_day = last_day(last);
        reserve_two(
            &mut self.pm10_quarters,
            &mut self.strata,
            days_between(first_day, last_day),
        )?;
        add_quarters(&mut self.pm10_quarters, site, first, last);
        add_strata(&mut self.strata, registry, site, first_day, last_day);
        Ok(())
    }

    /// Whether a cell is held, by a walk over the spans of its kind.
    pub fn holds(&self, cell: CellName) -> bool
        ensures { result ≡ holds_particle self.now (named cell) }
    {
        match cell {
            CellName::PmDay(site, pollutant, day) => self.holds_day(site, pollutant, day),
            CellName::Stratum(site, first) => self.strata.holds(site, u32::from(first.number())),
            CellName::Quarter(site, pollutant, quarter) => {
                self.holds_quarter(site, pollutant, quarter)
            }
            CellName::PmYear(site, year) => self.years.holds(site, u32::from(year)),
            _ => false,
        }
    }

    fn holds_day(&self, site: SiteId, pollutant: Pollutant, day: Day) -> bool
        ensures { result ≡ holds_particle self.now (PmDayCell site pollutant day) }
    {
        match pollutant {
            Pollutant::Ozone => false,
            Pollutant::Pm25 => self.pm25_days.holds(site, u32::from(day.number())),
            Pollutant::Pm10 => self.pm10_days.holds(site, u32::from(day.number())),
        }
    }

    fn holds_quarter(&self, site: SiteId, pollutant: Pollutant, quarter: Quarter) -> bool
        ensures { result ≡ holds_particle self.now (QuarterCell site pollutant quarter) }
    {
        match pollutant {
            Pollutant::Ozone => false,
            Pollutant::Pm25 => self.pm25_quarters.holds(site, u32::from(quarter.number())),
            Pollutant::Pm10 => self.pm10_quarters.holds(site, u32::from(quarter.number())),
        }
    }

    /// The next cell: days come before strata, these before quarters, and these before years.
    pub fn next(&self) -> Option<CellName>
        ensures value { option_map named result ≡ next_in self.now }
        ensures held { IfSome result (λ cell. holds_particle self.now (named cell) ≡ true) }
        ensures none { IfNone result ((cell : Cell) → holds_particle self.now cell ≡ false) }
    {
        if let Some(days) = self.pm25_days.first() {
            let day = Day::new(days.first as u16);
            return Some(CellName::PmDay(days.site, Pollutant::Pm25, day));
        }
        if let Some(days) = self.pm10_days.first() {
            let day = Day::new(days.first as u16);
            return Some(CellName::PmDay(days.site, Pollutant::Pm10, day));
        }
        if let Some(strata) = self.strata.first() {
            return Some(CellName::Stratum(strata.site, Day::new(strata.first as u16)));
        }
        if let Some(quarters) = self.pm25_quarters.first() {
            let quarter = Quarter::new(quarters.first as u16);
            return Some(CellName::Quarter(quarters.site, Pollutant::Pm25, quarter));
        }
        if let Some(quarters) = self.pm10_quarters.first() {
            let quarter = Quarter::new(quarters.first as u16);
            return Some(CellName::Quarter(quarters.site, Pollutant::Pm10, quarter));
        }
        if let Some(years) = self.years.first() {
            return Some(CellName::PmYear(years.site, years.first as u16));
        }
        None
    }

    /// Drops the next cell, and no other. It takes no memory.
    pub fn settle(&mut self, cell: CellName)
        requires { next_in self.old ≡ Some (named cell) }
        ensures cells { (other : Cell) → holds_particle self.new other ≡
            (holds_particle self.old other && not (is_same_cell (named cell) other)) }
    {
        match cell {
            CellName::PmDay(site, pollutant, day) => self.settle_day(site, pollutant, day),
            CellName::Stratum(_, first) => self.strata.drop_to(u32::from(first.number())),
            CellName::Quarter(site, pollutant, quarter) => {
                self.settle_quarter(site, pollutant, quarter)
            }
            CellName::PmYear(_, year) => self.years.drop_to(u32::from(year)),
            _ => {} // No other cell is held.
        }
    }

    fn settle_day(&mut self, site: SiteId, pollutant: Pollutant, day: Day)
        requires { next_in self.old ≡ Some (PmDayCell site pollutant day) }
        ensures cells { (other : Cell) → holds_particle self.new other ≡
            (holds_particle self.old other && not (is_same_cell
            (PmDayCell site pollutant day) other)) }
    {
        let _ = site; // It is that of the first span.
        match pollutant {
            Pollutant::Ozone => {} // No such day is held.
            Pollutant::Pm25 => self.pm25_days.drop_to(u32::from(day.number())),
            Pollutant::Pm10 => self.pm10_days.drop_to(u32::from(day.number())),
        }
    }

    fn settle_quarter(&mut self, site: SiteId, pollutant: Pollutant, quarter: Quarter)
        requires { next_in self.old ≡ Some (QuarterCell site pollutant quarter) }
        ensures cells { (other : Cell) → holds_particle self.new other ≡
            (holds_particle self.old other && not (is_same_cell
            (QuarterCell site pollutant quarter) other)) }
    {
        let _ = site; // It is that of the first span.
        match pollutant {
            Pollutant::Ozone => {} // No such quarter is held.
            Pollutant::Pm25 => self.pm25_quarters.drop_to(u32::from(quarter.number())),
            Pollutant::Pm10 => self.pm10_quarters.drop_to(u32::from(quarter.number())),
        }
    }
}

/// The particle cells that are held are those of a list, span by span.
#[tactic(auto, using(crate::proofs::ParticleMembers::held_particles))]
pub fn the_particle_cells_held_are_a_list()
    ensures { (marked : MarkedParticles) (cell : Cell) → list_any (is_same_cell cell)
        (particle_cells_of marked) ≡ holds_particle marked cell }
{}
