//! Design values of PM2.5, of a site whose hours are made up.
ghost use Rattle.std.specs.Prelude.{◌≡◌, ◌<◌, ◌≤◌};

use crate::designs::number_of;
use crate::made_up::{LAST, MOST_MONITORS, fill, schedule};
use aq_base::{Memory, Pollutant, SiteId, Standard, Steps, Verdict};
use aq_particles::pm25::year;
use aq_registry::Registry;
use aq_shelf::Shelf;
use aq_verdict::{PmYear, annual, daily};
use std::alloc::Global;
use std::marker::Brand;
use std::sync::ledger::{Blank, Ledger};

/// The sums over all runs: of the quarters' creditable samples, days and values, of the years' eighth
/// greatest values, of the annual and the 24-hour design values, and of the standards that are met.
#[derive(Clone, Copy, Drop)]
pub struct ParticleSums {
    pub creditable: u64,
    pub days: u64,
    pub sum: i64,
    pub eighths: i64,
    pub annual: i64,
    pub daily: i64,
    pub met: u64,
}

impl ParticleSums {
    fn new() -> ParticleSums {
        ParticleSums {
            creditable: 0,
            days: 0,
            sum: 0,
            eighths: 0,
            annual: 0,
            daily: 0,
            met: 0,
        }
    }

    /// Adds the numbers of a year.
    fn add_year(&mut self, year: &PmYear) {
        for quarter in year.quarters() {
            self.creditable = self
                .creditable
                .wrapping_add(u64::from(quarter.creditable()));
            self.days = self.days.wrapping_add(u64::from(quarter.days()));
            self.sum = self.sum.wrapping_add(i64::from(quarter.sum()));
        }
        self.eighths = self.eighths.wrapping_add(number_of(year.top()[7]));
    }

    /// Adds the design values of three years.
    fn add_designs(&mut self, years: &[PmYear; 3]) {
        let annual = annual(years, Standard::Annual2024.level());
        let daily = daily(years);
        self.annual = self.annual.wrapping_add(number_of(annual.value));
        self.daily = self.daily.wrapping_add(number_of(daily.value));
        let met = u64::from(annual.verdict == Verdict::Met)
            + u64::from(daily.verdict == Verdict::Met);
        self.met = self.met.wrapping_add(met);
    }
}

/// Computes the annual and the 24-hour design value of a site with so many monitors of hours, again and
/// again. Each hour of three years has a value at each monitor, and each day is scheduled.
pub fn pm25_designs(alloc: Global, monitors: u8, runs: u32) -> Result<ParticleSums, Memory>
    requires { monitors ≤ MOST_MONITORS }
{
    let site = SiteId::new(6, 37, 1103).ok_or(Memory)?;
    let mut shelf = Shelf::new(alloc);
    let mut registry = Registry::new(alloc);
    fill(&mut shelf, &mut registry, site, Pollutant::Pm25, monitors)?;
    schedule(&mut registry, site)?;
    Ok(repeated::<Brand>(&shelf, &registry, site, runs, Blank::new(1)))
}

/// Computes the design values so many times.
fn repeated<L: Ledger>(
    shelf: &Shelf,
    registry: &Registry,
    site: SiteId,
    runs: u32,
    blank: Blank,
) -> ParticleSums
    requires name { blank.name ≡ L.name }
    requires parts { blank.parts ≡ L.parts }
    requires some { 0 < L.parts }
{
    let mut steps = Steps::<L>::new(blank);
    let mut sums = ParticleSums::new();
    for _ in 0..runs {
        let years = [
            year(shelf, registry, site, LAST - 2, &mut steps),
            year(shelf, registry, site, LAST - 1, &mut steps),
            year(shelf, registry, site, LAST, &mut steps),
        ];
        for year in &years {
            sums.add_year(year);
        }
        sums.add_designs(&years);
    }
    sums
}
