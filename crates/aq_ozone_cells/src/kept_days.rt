//! What is kept of the days of sites: the ozone values of their hours, their 8-hour averages, and what
//! each day gives its year.
ghost use Rattle.std.specs.Prelude.{◌≡◌, ◌≢◌, ◌≤◌, ◌<◌, ◌%◌, ◌&&◌, ◌==◌, ℕ, false, if◌then◌else◌, option_map, IfSome, OnOk, OnErr, IsTrue};
ghost use Rattle.aq_base.specs.Site.{Site};
ghost use Rattle.aq_rules.specs.Office.Monitors.{is_same_site};
ghost use Rattle.aq_series.specs.Samples.{IsOzone};
ghost use Rattle.aq_ozone_cells.specs.KeptDays.{average_at, average_in, cell_of, day_at, empty_day, held_at, hour_at, hour_in, is_kept_start, kept_of};

use crate::site_key::SiteKey;
use aq_base::{Day, Hour, Memory, SiteId};
use aq_series::Cell;
use std::alloc::Global;
use std::collections::BTreeMap;

/// The ozone value of an hour in thousandths of a ppm, which fits sixteen bits, and whether it is
/// excluded.
#[derive(Clone, Copy, Debug, PartialEq, Eq)]
pub(crate) struct KeptHour {
    value: i16,
    excluded: bool,
}

impl KeptHour {
    fn new(cell: &Cell) -> KeptHour
        requires { IsOzone cell.now.value }
        ensures { result ≡ kept_of cell.now }
    {
        KeptHour {
            value: cell.value as i16,
            excluded: cell.excluded,
        }
    }

    fn cell(&self) -> Cell
        ensures { result ≡ cell_of self.now }
    {
        Cell {
            value: i32::from(self.value),
            excluded: self.excluded,
        }
    }
}

/// The value of an hour as it is kept, if there is one.
pub(crate) fn kept_hour(cell: &Option<Cell>) -> Option<KeptHour>
    requires { IfSome cell.now (λ cell. IsOzone cell.value) }
    ensures { result ≡ option_map kept_of cell.now }
{
    match cell {
        Some(cell) => Some(KeptHour::new(cell)),
        None => None,
    }
}

/// An average of eight hours, net of those that are excluded, and the full one, in thousandths of a ppm.
#[derive(Clone, Copy, Debug, PartialEq, Eq)]
pub(crate) struct KeptAverage {
    pub(crate) net: Option<i16>,
    pub(crate) full: Option<i16>,
}

/// What a day gives its year: whether it is valid, whether it is a day of the season that is valid or
/// approved, and its greatest net average in thousandths of a ppm.
#[derive(Clone, Copy, Debug, PartialEq, Eq)]
pub(crate) struct HeldDay {
    pub(crate) valid: bool,
    pub(crate) counted: bool,
    pub(crate) maximum: Option<i16>,
}

/// What is kept of a calendar day: its hours, the averages that start at 07:00 to 23:00, and what it
/// gives its year.
#[derive(Clone, Copy, Debug)]
pub(crate) struct DayCells {
    pub(crate) hours: [Option<KeptHour>; 24],
    pub(crate) averages: [KeptAverage; 17],
    pub(crate) held: HeldDay,
}

impl DayCells {
    /// Of a day of which nothing is kept.
    fn new() -> DayCells
        ensures { result ≡ empty_day }
    {
        let no_average = KeptAverage {
            net: None,
            full: None,
        };
        DayCells {
            hours: [None; 24],
            averages: [no_average; 17],
            held: HeldDay {
                valid: false,
                counted: false,
                maximum: None,
            },
        }
    }

    /// The value of an hour of the day.
    pub(crate) fn hour(&self, hour: u32) -> Option<Cell>
        ensures { result ≡ hour_in self.now hour }
    {
        match &self.hours[(hour % 24) as usize] {
            Some(kept) => Some(kept.cell()),
            None => None,
        }
    }

    /// Gives an hour of the day another value.
    fn put_hour(&mut self, hour: u32, cell: &Option<Cell>)
        requires { IfSome cell.now (λ cell. IsOzone cell.value) }
        ensures hours { (other : ℕ) → hour_in self.new other ≡ (if hour % 24 == other % 24 then cell.now else hour_in self.old other) }
        ensures averages { self.new.averages ≡ self.old.averages }
        ensures held { self.new.held ≡ self.old.held }
    {
        self.hours[(hour % 24) as usize] = kept_hour(cell);
    }

    /// The average that starts at an hour of the day, none before 07:00.
    pub(crate) fn average(&self, start: u32) -> KeptAverage
        ensures { result ≡ average_in self.now start }
    {
        let place = start % 24;
        if 7 <= place {
            self.averages[(place - 7) as usize]
        } else {
            KeptAverage {
                net: None,
                full: None,
            }
        }
    }

    /// Gives the average that starts at an hour of the day, 07:00 or later, another value.
    fn put_average(&mut self, start: u32, average: KeptAverage)
        requires { IsTrue (is_kept_start start) }
        ensures hours { self.new.hours ≡ self.old.hours }
        ensures averages { (other : ℕ) → average_in self.new other ≡ (if start % 24 == other % 24 then average else average_in self.old other) }
        ensures held { self.new.held ≡ self.old.held }
    {
        self.averages[(start % 24 - 7) as usize] = average;
    }
}

/// What is kept of the days of sites. Nothing is kept of a day that was never changed.
#[derive(Drop)]
pub(crate) struct KeptDays {
    days: BTreeMap<SiteKey, DayCells>,
}

impl KeptDays {
    /// Nothing is kept. It takes no memory.
    pub(crate) fn new(alloc: Global) -> KeptDays
        ensures { (site : Site) (day : ℕ) → day_at result.days.entries site day ≡ empty_day }
    {
        KeptDays {
            days: BTreeMap::new(alloc),
        }
    }

    /// What is kept of a day.
    pub(crate) fn day(&self, site: SiteId, day: u16) -> DayCells
        ensures { result ≡ day_at self.now.days.entries site day }
    {
        match self.days.get(&SiteKey::new(site, day)) {
            Some(cells) => *cells,
            None => DayCells::new(),
        }
    }

    /// Whether anything was ever kept of a day.
    pub(crate) fn has(&self, site: SiteId, day: u16) -> bool
        ensures { result ≡ false → day_at self.now.days.entries site day ≡ empty_day }
    {
        self.days.contains_key(&SiteKey::new(site, day))
    }

    /// Keeps something else of a day. After want of memory all is as before.
    pub(crate) fn put(&mut self, site: SiteId, day: u16, cells: DayCells) -> Result<(), Memory>
        ensures ok { OnOk result ((other : Site) (number : ℕ) → day_at self.new.days.entries other number ≡ (if is_same_site site other && (day == number) then cells else day_at self.old.days.entries other number)) }
        ensures err { OnErr result (self.new.days.entries ≡ self.old.days.entries) }
    {
        match self.days.insert(SiteKey::new(site, day), cells) {
            Ok(_) => Ok(()),
            Err(_) => Err(Memory),
        }
    }

    /// The value of an hour.
    #[tactic(auto, unfolding(crate::specs::KeptDays::hour_at))]
    pub(crate) fn hour(&self, site: SiteId, hour: Hour) -> Option<Cell>
        ensures { result ≡ hour_at self.now.days.entries site hour }
    {
        let hour = hour.number();
        self.day(site, (hour / 24) as u16).hour(hour)
    }

    /// Gives an hour another value. After want of memory all is as before.
    pub(crate) fn put_hour(
        &mut self,
        site: SiteId,
        hour: Hour,
        cell: &Option<Cell>,
    ) -> Result<(), Memory>
        requires { IfSome cell.now (λ cell. IsOzone cell.value) }
        ensures hours { OnOk result ((other : Site) (number : ℕ) → hour_at self.new.days.entries other number ≡ (if is_same_site site other && (hour == number) then cell.now else hour_at self.old.days.entries other number)) }
        ensures averages { OnOk result ((other : Site) (start : ℕ) → average_at self.new.days.entries other start ≡ average_at self.old.days.entries other start) }
        ensures held { OnOk result ((other : Site) (day : ℕ) → held_at self.new.days.entries other day ≡ held_at self.old.days.entries other day) }
        ensures err { OnErr result (self.new.days.entries ≡ self.old.days.entries) }
    {
        let hour = hour.number();
        let day = (hour / 24) as u16;
        let mut cells = self.day(site, day);
        cells.put_hour(hour, cell);
        self.put(site, day, cells)?;
        Ok(())
    }

    /// The average that starts at an hour, none before 07:00.
    #[tactic(auto, unfolding(crate::specs::KeptDays::average_at))]
    pub(crate) fn average(&self, site: SiteId, start: Hour) -> KeptAverage
        ensures { result ≡ average_at self.now.days.entries site start }
    {
        let start = start.number();
        self.day(site, (start / 24) as u16).average(start)
    }

    /// Gives the average that starts at an hour, 07:00 or later, another value. After want of memory all is
    /// as before.
    pub(crate) fn put_average(
        &mut self,
        site: SiteId,
        start: Hour,
        average: KeptAverage,
    ) -> Result<(), Memory>
        requires { IsTrue (is_kept_start start) }
        ensures hours { OnOk result ((other : Site) (number : ℕ) → hour_at self.new.days.entries other number ≡ hour_at self.old.days.entries other number) }
        ensures averages { OnOk result ((other : Site) (number : ℕ) → average_at self.new.days.entries other number ≡ (if is_same_site site other && (start == number) then average else average_at self.old.days.entries other number)) }
        ensures held { OnOk result ((other : Site) (day : ℕ) → held_at self.new.days.entries other day ≡ held_at self.old.days.entries other day) }
        ensures err { OnErr result (self.new.days.entries ≡ self.old.days.entries) }
    {
        let start = start.number();
        let day = (start / 24) as u16;
        let mut cells = self.day(site, day);
        cells.put_average(start, average);
        self.put(site, day, cells)?;
        Ok(())
    }

    /// What a day gives its year.
    #[tactic(auto, unfolding(crate::specs::KeptDays::held_at))]
    pub(crate) fn held(&self, site: SiteId, day: Day) -> HeldDay
        ensures { result ≡ held_at self.now.days.entries site day }
    {
        self.day(site, day.number()).held
    }

    /// Keeps something else of what a day gives its year. After want of memory all is as before.
    pub(crate) fn put_held(&mut self, site: SiteId, day: Day, held: HeldDay) -> Result<(), Memory>
        ensures hours { OnOk result ((other : Site) (number : ℕ) → hour_at self.new.days.entries other number ≡ hour_at self.old.days.entries other number) }
        ensures averages { OnOk result ((other : Site) (start : ℕ) → average_at self.new.days.entries other start ≡ average_at self.old.days.entries other start) }
        ensures held { OnOk result ((other : Site) (number : ℕ) → held_at self.new.days.entries other number ≡ (if is_same_site site other && (day == number) then held else held_at self.old.days.entries other number)) }
        ensures err { OnErr result (self.new.days.entries ≡ self.old.days.entries) }
    {
        let day = day.number();
        let mut cells = self.day(site, day);
        cells.held = held;
        self.put(site, day, cells)?;
        Ok(())
    }
}
