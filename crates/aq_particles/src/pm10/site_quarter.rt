//! The PM10 quarters of a site (40 CFR Part 50, Appendix K, 2.3 and 3.1).
ghost use Rattle.std.specs.Prelude.{◌≡◌, ◌<◌, ◌≤◌, ◌+◌, ℕ, ◌∷◌, ◌++◌, [], List, option_and_then};
ghost use Rattle.aq_base.specs.Calendar.{quarter_number};
ghost use Rattle.aq_base.specs.declared.day.TheConstants.{FIRST_YEAR, LAST_DAY, LAST_YEAR};
ghost use Rattle.aq_base.specs.declared.monitor.Pollutant.TheVariants.{Pm10};
ghost use Rattle.aq_base.specs.declared.observation.ObsKey.{ObsKey};
ghost use Rattle.aq_base.specs.declared.observation.Observation.{Observation};
ghost use Rattle.aq_rules.specs.Particles.ParticleDay.{site_day, unless_excluded};
ghost use Rattle.aq_rules.specs.Particles.Pm10Estimate.{pm10_quarter, pm10_year};
ghost use Rattle.aq_series.specs.OfficeView.{office_of};
ghost use Rattle.aq_particles.specs.Pm10.QuarterDays.{day_in, IsTallyOf};
ghost use Rattle.aq_particles.specs.Pm10.StrataSoFar.{IsStrata, samples_in};
ghost use Rattle.aq_particles.specs.declared.pm10.site_quarter.DayOfQuarter.{DayOfQuarter};

use crate::pm10::strata::{Strata, exceeds};
use aq_base::{Day, FIRST_YEAR, Pollutant, Quarter, SiteId, Steps};
use aq_cal::quarter_span;
use aq_registry::Registry;
use aq_rules::kept::summaries::pm10_quarters_keep_their_facts;
use aq_series::{Cell, site_day};
use aq_shelf::Shelf;
use aq_verdict::{Pm10Quarter, Pm10Year};
use std::sync::ledger::Ledger;

/// The PM10 quarter of a site: the days of the calendar quarter, its scheduled days and those of them with
/// a sample, its strata with samples, its samples, how many of them exceed 150 µg/m3, of all and of those
/// on scheduled days, and the sum over the strata of the part of their samples that exceed, in sixtieths
/// (40 CFR Part 50, Appendix K, 2.3, 3.1 and 3.2). An excluded day is no sample; it counts as one of the
/// scheduled days with a sample. Each day's value and schedule are looked up once.
pub fn quarter<L: Ledger>(
    shelf: &Shelf,
    registry: &Registry,
    site: SiteId,
    quarter: Quarter,
    steps: &mut Steps<L>,
) -> Pm10Quarter
    ensures { result ≡ pm10_quarter (office_of registry.now shelf.now) site quarter }
{
    pm10_quarters_keep_their_facts();
    let (first, days) = quarter_span(quarter);
    let mut so_far = QuarterTally::new(first.number());
    for count in 0..days {
        let day = Day::new(first.number() + u16::from(count));
        let cell = site_day(shelf, registry, site, Pollutant::Pm10, day, steps);
        so_far = so_far.with(day_of_quarter(registry, site, day, &cell));
    }
    let strata = so_far.strata.totals();
    Pm10Quarter::new(
        days,
        so_far.scheduled,
        so_far.captured,
        strata.strata,
        strata.samples,
        strata.exceedances,
        so_far.scheduled_exceedances,
        strata.sixtieths,
    )
}

/// The four quarters of a site's PM10 year. The year is 1990 to 2059.
pub fn year<L: Ledger>(
    shelf: &Shelf,
    registry: &Registry,
    site: SiteId,
    year: u16,
    steps: &mut Steps<L>,
) -> Pm10Year
    requires first { FIRST_YEAR ≤ year }
    requires last { year ≤ LAST_YEAR }
    ensures { result ≡ pm10_year (office_of registry.now shelf.now) site year }
{
    let first = quarter(shelf, registry, site, quarter_in(year, 0), steps);
    let second = quarter(shelf, registry, site, quarter_in(year, 1), steps);
    let third = quarter(shelf, registry, site, quarter_in(year, 2), steps);
    let fourth = quarter(shelf, registry, site, quarter_in(year, 3), steps);
    Pm10Year::new([first, second, third, fourth])
}

/// The quarter that is a part of a year, 1990 to 2059, from 0 for the first one to 3.
pub fn quarter_in(year: u16, part: u16) -> Quarter
    requires first { FIRST_YEAR ≤ year }
    requires last { year ≤ LAST_YEAR }
    requires part { part < 4 }
    ensures { result ≡ quarter_number year part }
{
    Quarter::new(4 * (year - FIRST_YEAR) + part)
}

/// What a day of a quarter gives it, by the site's value for the day.
fn day_of_quarter(registry: &Registry, site: SiteId, day: Day, cell: &Option<Cell>) -> DayOfQuarter
    ensures { (rows : List (ObsKey × Observation)) → cell.now ≡ site_day (office_of registry.now rows) site Pm10 day → result ≡ day_in (office_of registry.now rows) site day }
{
    DayOfQuarter {
        number: day.number(),
        is_scheduled: registry.is_scheduled(site, Pollutant::Pm10, day),
        is_sampled: cell.is_some(),
        sample: sample_of(cell),
    }
}

/// The value of a day, unless it is excluded.
fn sample_of(cell: &Option<Cell>) -> Option<i32>
    ensures { result ≡ option_and_then unless_excluded cell.now }
{
    match cell {
        Some(cell) => {
            if cell.excluded {
                None
            } else {
                Some(cell.value)
            }
        }
        None => None,
    }
}

/// A day of a quarter: its number, whether it is scheduled, whether there is a sample, and its value in
/// tenths of a µg/m3 unless it is excluded.
#[derive(Clone, Copy)]
struct DayOfQuarter {
    number: u16,
    is_scheduled: bool,
    is_sampled: bool,
    sample: Option<i32>,
}

/// What the days of a quarter so far give: the scheduled ones, those of them with a sample, those of them
/// that exceed, and the strata.
#[derive(Clone, Copy)]
struct QuarterTally {
    scheduled: u8,
    captured: u8,
    scheduled_exceedances: u8,
    strata: Strata,
}

impl QuarterTally {
    /// Of no days of a quarter that begins with this one.
    fn new(first: u16) -> QuarterTally
        ensures of { IsTallyOf first [] result }
        ensures facts { IsStrata result.strata }
        ensures samples { samples_in result.strata ≡ 0 }
    {
        QuarterTally {
            scheduled: 0,
            captured: 0,
            scheduled_exceedances: 0,
            strata: Strata::starting(first),
        }
    }

    /// With the next day.
    fn with(self, day: DayOfQuarter) -> QuarterTally
        requires scheduled { self.scheduled ≤ 91 }
        requires captured { self.captured ≤ 91 }
        requires exceedances { self.scheduled_exceedances ≤ 91 }
        requires samples { samples_in self.strata ≤ 91 }
        requires before { self.strata.first ≤ day.number }
        requires day { day.number ≤ LAST_DAY }
        requires facts { IsStrata self.strata }
        ensures of { (first : ℕ) (days : List DayOfQuarter) → IsTallyOf first days self → IsTallyOf first (days ++ day ∷ []) result }
        ensures facts { IsStrata result.strata }
        ensures samples { samples_in result.strata ≤ samples_in self.strata + 1 }
        ensures first { result.strata.first ≤ day.number }
    {
        let captured = day.is_scheduled && day.is_sampled;
        let exceeds = day.is_scheduled && day.sample.is_some_and(exceeds);
        QuarterTally {
            scheduled: self.scheduled + u8::from(day.is_scheduled),
            captured: self.captured + u8::from(captured),
            scheduled_exceedances: self.scheduled_exceedances + u8::from(exceeds),
            strata: self.strata.with(day.number, day.is_scheduled, day.sample),
        }
    }
}
