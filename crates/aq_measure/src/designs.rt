//! Design values of ozone, of a site whose hours are made up.
ghost use Rattle.std.specs.Prelude.{◌≡◌, ◌<◌, ◌≤◌};

use crate::made_up::{LAST, MOST_MONITORS, fill};
use aq_base::{Memory, Pollutant, SiteId, Steps, Verdict};
use aq_ozone::year;
use aq_registry::Registry;
use aq_shelf::Shelf;
use aq_verdict::ozone;
use std::alloc::Global;
use std::marker::Brand;
use std::sync::ledger::{Blank, Ledger};

/// The sums over all runs: of the years' valid days, ranked maxima and fourth highest maxima, of the design
/// values, and of the runs whose standard is not met.
#[derive(Clone, Copy, Drop)]
pub struct Sums {
    pub valid: u64,
    pub ranked: u64,
    pub fourths: i64,
    pub values: i64,
    pub unmet: u64,
}

/// Computes the design value of a site with so many monitors, again and again. Each hour of three years has
/// a value at each monitor.
pub fn ozone_designs(alloc: Global, monitors: u8, runs: u32) -> Result<Sums, Memory>
    requires { monitors ≤ MOST_MONITORS }
{
    let site = SiteId::new(6, 37, 1103).ok_or(Memory)?;
    let mut shelf = Shelf::new(alloc);
    let mut registry = Registry::new(alloc);
    fill(&mut shelf, &mut registry, site, Pollutant::Ozone, monitors)?;
    Ok(repeated::<Brand>(&shelf, &registry, site, runs, Blank::new(1)))
}

/// Computes the design value so many times.
fn repeated<L: Ledger>(
    shelf: &Shelf,
    registry: &Registry,
    site: SiteId,
    runs: u32,
    blank: Blank,
) -> Sums
    requires name { blank.name ≡ L.name }
    requires parts { blank.parts ≡ L.parts }
    requires some { 0 < L.parts }
{
    let mut steps = Steps::<L>::new(blank);
    let mut sums = Sums {
        valid: 0,
        ranked: 0,
        fourths: 0,
        values: 0,
        unmet: 0,
    };
    for _ in 0..runs {
        let years = [
            year(shelf, registry, site, LAST - 2, &mut steps),
            year(shelf, registry, site, LAST - 1, &mut steps),
            year(shelf, registry, site, LAST, &mut steps),
        ];
        for year in &years {
            sums.valid = sums.valid.wrapping_add(u64::from(year.season_valid()));
            sums.ranked = sums.ranked.wrapping_add(u64::from(year.ranked()));
            sums.fourths = sums.fourths.wrapping_add(number_of(year.fourth()));
        }
        let design = ozone(&years);
        sums.values = sums.values.wrapping_add(number_of(design.value));
        sums.unmet = sums
            .unmet
            .wrapping_add(u64::from(design.verdict == Verdict::NotMet));
    }
    sums
}

/// A value as a number: 0 for none.
pub fn number_of(value: Option<i32>) -> i64 {
    value.map_or(0, i64::from)
}
