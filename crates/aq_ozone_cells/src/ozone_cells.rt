//! The ozone cells of sites, kept under change.
ghost use Rattle.std.specs.Prelude.{◌≡◌, ◌≤◌, ◌+◌, ◌*◌, ◌/◌, ◌%◌, ◌&&◌, ◌==◌, ℕ, [], None, false, get_or, length, if◌then◌else◌, IfSome, IsTrue, OnOk, OnErr};
ghost use Rattle.aq_base.specs.Calendar.{year_of};
ghost use Rattle.aq_base.specs.Site.{Site};
ghost use Rattle.aq_base.specs.declared.day.TheConstants.{FIRST_YEAR, LAST_DAY, LAST_YEAR};
ghost use Rattle.aq_rules.specs.Office.Monitors.{is_same_site};
ghost use Rattle.aq_rules.specs.Ozone.EightHour.{window_by};
ghost use Rattle.aq_rules.specs.Ozone.OzoneDay.{windows_by};
ghost use Rattle.aq_series.specs.Samples.{AreOzone, IsOzone};
ghost use Rattle.aq_ozone_cells.specs.FilledDays.{day_average, IsEmptyDay};
ghost use Rattle.aq_ozone_cells.specs.KeptDays.{average_at, held_at, hour_at, is_kept_start, no_average, no_day};
ghost use Rattle.aq_ozone_cells.specs.OzoneCells.{average_of_hours, day_from, is_day_of, year_of_days, AreHeldAlready, AreHeldBy, AreSettled};

use crate::filled_days::fill_day;
use crate::held_days::{season_days, settle_days};
use crate::kept_days::KeptDays;
use crate::kept_window::{average_of_hours, day_hours};
use crate::year_tallies::YearTallies;
use aq_base::{Day, FIRST_YEAR, Hour, LAST_YEAR, Memory, Pollutant, SiteId, Steps};
use aq_cal::year_span;
use aq_ozone::{DayWindows, windows_of};
use aq_registry::Registry;
use aq_rules::kept::summaries::ozone_years_keep_their_facts;
use aq_series::Cell;
use aq_verdict::OzoneYear;
use std::alloc::Global;
use std::marker::Model;
use std::sync::ledger::Ledger;

/// The ozone cells of sites: the value of each hour, the average that starts at it, what each day gives
/// its year, and the year. Each is brought up to date from the one before by a call of its own; if all are,
/// they are those of the office (`kept_numbers_are_those_of_the_office`). Contracts see what is kept of the
/// days (`hour_at`, `average_at`, `held_at`). After want of memory the value may only be dropped.
#[derive(Drop)]
pub struct OzoneCells {
    days: KeptDays,
    tallies: YearTallies,
    pub(crate) alloc: Global,
}

impl Model for OzoneCells {
    ghost use Rattle.aq_ozone_cells.specs.OzoneCells.{AreCells, Cells};

    ghost Value = { Cells };

    ghost view = { λ cells. cells.days.days.entries };

    ghost invariant = { λ cells. AreCells cells.days.days.entries cells.tallies };
}

impl OzoneCells {
    /// Nothing is kept. It takes no memory.
    pub fn new(alloc: Global) -> OzoneCells
        ensures hours { (site : Site) (hour : ℕ) → hour_at result site hour ≡ None }
        ensures averages { (site : Site) (start : ℕ) → average_at result site start ≡ no_average }
        ensures days { (site : Site) (day : ℕ) → held_at result site day ≡ no_day }
    {
        OzoneCells {
            days: KeptDays::new(alloc),
            tallies: YearTallies::new(alloc),
            alloc,
        }
    }

    /// The value of an hour that is kept.
    pub fn hour(&self, site: SiteId, hour: Hour) -> Option<Cell>
        ensures { result ≡ hour_at self.now site hour }
    {
        self.days.hour(site, hour)
    }

    /// The seventeen averages of a day's hours that are kept, net and full (40 CFR Part 50, Appendix U,
    /// 3(b)), by two searches. It takes no memory and makes no step.
    pub fn windows(&self, site: SiteId, day: Day) -> DayWindows
        ensures { result ≡ windows_by (window_by (hour_at self.now site)) day }
    {
        windows_of(&day_hours(&self.days, site, day))
    }

    /// The hour `old`, which is kept, goes out, and `new` comes in: in the hour, and so among the eight
    /// hours of each average that reads it. The averages follow by `settle_window`. At most 16 steps.
    pub fn change_hour<L: Ledger>(
        &mut self,
        site: SiteId,
        hour: Hour,
        old: Option<Cell>,
        new: Option<Cell>,
        steps: &mut Steps<L>,
    ) -> Result<(), Memory>
        requires old { hour_at self.old site hour ≡ old }
        requires range { IfSome new (λ cell. IsOzone cell.value) }
        ensures hours { OnOk result ((other : Site) (number : ℕ) → hour_at self.new other number ≡ (if is_same_site site other && (hour == number) then new else hour_at self.old other number)) }
        ensures averages { OnOk result ((other : Site) (start : ℕ) → average_at self.new other start ≡ average_at self.old other start) }
        ensures days { OnOk result ((other : Site) (day : ℕ) → held_at self.new other day ≡ held_at self.old other day) }
        ensures steps { steps.new ≤ steps.old + 16 }
    {
        steps.tick();
        if old == new {
            return Ok(());
        }
        self.days.put_hour(site, hour, &new)?;
        Ok(())
    }

    /// Whether anything was ever kept of a day.
    pub(crate) fn has_day(&self, site: SiteId, day: Day) -> bool
        ensures { result ≡ false → IsEmptyDay self.now site day }
    {
        self.days.has(site, day.number())
    }

    /// The hours of a day become these, from its 00:00 to 06:00 of the next day, of which there are
    /// thirty-one, and its averages those that they give. What the day gives its year follows by
    /// `settle_day`. It makes no step.
    pub fn fill_day(&mut self, site: SiteId, day: Day, hours: &[Option<Cell>]) -> Result<(), Memory>
        requires many { length hours.now ≡ 31 }
        requires range { AreOzone hours.now }
        ensures hours { OnOk result ((other : Site) (number : ℕ) → hour_at self.new other number ≡ (if is_same_site site other && (day == number / 24) then get_or hours.now (number % 24) None else hour_at self.old other number)) }
        ensures averages { OnOk result ((other : Site) (start : ℕ) → average_at self.new other start ≡ (if is_same_site site other && (day == start / 24) then day_average hours.now start else average_at self.old other start)) }
        ensures days { OnOk result ((other : Site) (number : ℕ) → held_at self.new other number ≡ held_at self.old other number) }
    {
        fill_day(&mut self.days, site, day, hours)?;
        Ok(())
    }

    /// The average that starts at an hour becomes the one of the hours that are kept. No average is kept
    /// of a start before 07:00. At most 4 steps.
    pub fn settle_window<L: Ledger>(
        &mut self,
        site: SiteId,
        start: Hour,
        steps: &mut Steps<L>,
    ) -> Result<(), Memory>
        ensures averages { OnOk result ((other : Site) (number : ℕ) → average_at self.new other number ≡ (if is_same_site site other && (start == number) && is_kept_start start then average_of_hours self.old site start else average_at self.old other number)) }
        ensures hours { OnOk result ((other : Site) (hour : ℕ) → hour_at self.new other hour ≡ hour_at self.old other hour) }
        ensures days { OnOk result ((other : Site) (day : ℕ) → held_at self.new other day ≡ held_at self.old other day) }
        ensures steps { steps.new ≤ steps.old + 4 }
    {
        steps.tick();
        if start.number() % 24 < 7 {
            return Ok(());
        }
        let average = average_of_hours(&self.days, site, start);
        if self.days.average(site, start) == average {
            return Ok(());
        }
        self.days.put_average(site, start, average)?;
        Ok(())
    }

    /// What a day gives its year becomes what the averages that are kept give it, by the season and the
    /// approvals of a registry. At most 4 steps.
    pub fn settle_day<L: Ledger>(
        &mut self,
        registry: &Registry,
        site: SiteId,
        day: Day,
        steps: &mut Steps<L>,
    ) -> Result<(), Memory>
        ensures days { OnOk result ((other : Site) (number : ℕ) → held_at self.new other number ≡ (if is_same_site site other && (day == number) then day_from registry.now self.old site day else held_at self.old other number)) }
        ensures hours { OnOk result ((other : Site) (hour : ℕ) → hour_at self.new other hour ≡ hour_at self.old other hour) }
        ensures averages { OnOk result ((other : Site) (start : ℕ) → average_at self.new other start ≡ average_at self.old other start) }
        ensures steps { steps.new ≤ steps.old + 4 }
    {
        self.settle_days(registry, site, day, 1, steps)?;
        Ok(())
    }

    /// The same for each day of a year, 1990 to 2059, so that `year` may be asked. At most 732 steps, and
    /// none if each day is held so already.
    pub fn settle_year<L: Ledger>(
        &mut self,
        registry: &Registry,
        site: SiteId,
        year: u16,
        steps: &mut Steps<L>,
    ) -> Result<(), Memory>
        requires first { FIRST_YEAR ≤ year }
        requires last { year ≤ LAST_YEAR }
        ensures days { OnOk result ((other : Site) (number : ℕ) → held_at self.new other number ≡ (if is_same_site site other && is_day_of year number then day_from registry.now self.old site number else held_at self.old other number)) }
        ensures held { OnOk result (AreHeldBy registry.now self.new site year) }
        ensures hours { OnOk result ((other : Site) (hour : ℕ) → hour_at self.new other hour ≡ hour_at self.old other hour) }
        ensures averages { OnOk result ((other : Site) (start : ℕ) → average_at self.new other start ≡ average_at self.old other start) }
        ensures steps { steps.new ≤ steps.old + 732 }
        ensures no_step { ((day : ℕ) → day ≤ LAST_DAY → IsTrue (is_day_of year day) → held_at self.old site day ≡ day_from registry.now self.old site day) → steps.new ≤ steps.old }
    {
        let (first, count) = year_span(year);
        self.settle_days(registry, site, first, count, steps)?;
        Ok(())
    }

    /// The same for so many days from the first on, in at most two steps each.
    fn settle_days<L: Ledger>(
        &mut self,
        registry: &Registry,
        site: SiteId,
        first: Day,
        count: u16,
        steps: &mut Steps<L>,
    ) -> Result<(), Memory>
        requires { first + count ≤ LAST_DAY + 1 }
        ensures settled { OnOk result (AreSettled registry.now self.old self.new site first count) }
        ensures steps { steps.new ≤ steps.old + 2 * count }
        ensures no_step { AreHeldAlready registry.now self.old site first count → steps.new ≤ steps.old }
    {
        match settle_days(
            &mut self.days,
            &mut self.tallies,
            registry,
            site,
            first,
            count,
            steps,
        ) {
            Ok(()) => Ok(()),
            Err(Memory) => {
                *self = OzoneCells::new(self.alloc);
                Err(Memory)
            }
        }
    }

    /// The year of the days that are held, 1990 to 2059. It takes no memory and makes no step.
    pub fn year(&self, registry: &Registry, site: SiteId, year: u16) -> OzoneYear
        requires first { FIRST_YEAR ≤ year }
        requires last { year ≤ LAST_YEAR }
        requires held { AreHeldBy registry.now self.now site year }
        ensures { result ≡ year_of_days registry.now self.now site year }
    {
        ozone_years_keep_their_facts();
        // The proof learns that the records are those of a valid office, and that the year is of the profile.
        let _ = registry.next_poc(site, Pollutant::Ozone, 0);
        let _ = year_span(year);
        let (number, fourth) = self.tallies.maxima(site, year);
        OzoneYear::new(
            season_days(registry, site, year),
            self.tallies.counted(site, year) as u16,
            number as u16,
            fourth,
        )
    }
}
