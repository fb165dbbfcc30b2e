//! The highest days of a particle year.
ghost use Rattle.std.specs.Prelude.{◌≡◌, ◌≤◌, IfOk, map, option_and_then};
ghost use Rattle.std.specs.Int.{IsInRange};
ghost use Rattle.aq_base.specs.declared.day.TheConstants.{FIRST_YEAR, LAST_YEAR};
ghost use Rattle.aq_rules.specs.Listed.Highest as highest;
ghost use Rattle.aq_rules.specs.Ozone.OzoneYear.{days_of};
ghost use Rattle.aq_rules.specs.Particles.ParticleDay.{net_day, unless_excluded};
ghost use Rattle.aq_series.specs.DayCells.{IsParticulate};

use crate::daily::highest_sheet::highest_particles_sheet;
use crate::daily::ranked::ten_highest;
use aq_base::{Day, Items, Memory, Pollutant, SiteId, Steps};
use aq_cal::year_span;
use aq_design::ParticleDays;
use aq_series::Cell;
use aq_sheets::Sheet;
use aq_verdict::{counted_in, rank_of};
use std::alloc::Global;
use std::sync::ledger::Ledger;

/// The ten highest days of a PM2.5 or PM10 year of a site: the greatest values that are not excluded, of
/// equal ones the earlier day first; how many days are ranked; and the rank that decides, that of the 98th
/// percentile of PM2.5 (40 CFR Part 50, Appendix N, 4.5). The year is 1990 to 2059.
pub fn highest_particles<S: ParticleDays, L: Ledger>(
    alloc: Global,
    source: &S,
    site: SiteId,
    pollutant: Pollutant,
    year: u16,
    steps: &mut Steps<L>,
) -> Result<Sheet, Memory>
    requires particles { IsParticulate pollutant }
    requires year { IsInRange FIRST_YEAR LAST_YEAR year }
    ensures { IfOk result (λ sheet. sheet ≡ highest.highest_answer (S.office source.now) site pollutant year) }
{
    let values = net_values(alloc, source, site, pollutant, year)?;
    let (first, _) = year_span(year);
    let found = ten_highest(alloc, first, values.as_slice())?;
    let decides = deciding_rank(source, site, pollutant, year, steps);
    highest_particles_sheet(alloc, site, pollutant, year, &found, decides)
}

/// The values of a year's days, each unless it is excluded.
fn net_values<S: ParticleDays>(
    alloc: Global,
    source: &S,
    site: SiteId,
    pollutant: Pollutant,
    year: u16,
) -> Result<Items<Option<i32>>, Memory>
    requires particles { IsParticulate pollutant }
    requires year { IsInRange FIRST_YEAR LAST_YEAR year }
    ensures { IfOk result (λ values. values ≡ map (net_day (S.office source.now) site pollutant) (days_of year)) }
{
    let (first, days) = year_span(year);
    let mut values = Items::new(alloc);
    for place in 0..days {
        let day = Day::new(first.number() + place);
        let cell = source.particle_day(site, pollutant, day);
        values.push(net_of(&cell))?;
    }
    Ok(values)
}

/// A day's value, unless it is excluded.
fn net_of(cell: &Option<Cell>) -> Option<i32>
    ensures { result ≡ option_and_then unless_excluded cell.now }
{
    match cell {
        Some(cell) if !cell.excluded => Some(cell.value),
        _ => None,
    }
}

/// The rank that the standard takes.
fn deciding_rank<S: ParticleDays, L: Ledger>(
    source: &S,
    site: SiteId,
    pollutant: Pollutant,
    year: u16,
    steps: &mut Steps<L>,
) -> Option<u8>
    requires particles { IsParticulate pollutant }
    requires year { IsInRange FIRST_YEAR LAST_YEAR year }
    ensures { result ≡ highest.deciding_rank (S.office source.now) site pollutant year }
{
    match pollutant {
        Pollutant::Ozone => Some(4),
        Pollutant::Pm25 => {
            let year = source.pm25(site, year, steps);
            deciding_pm25(counted_in(&year))
        }
        Pollutant::Pm10 => None,
    }
}

/// The rank of the 98th percentile, if a sample is counted.
fn deciding_pm25(counted: u16) -> Option<u8>
    requires { counted ≤ 366 }
    ensures { result ≡ highest.deciding_pm25 counted }
{
    if counted == 0 {
        None
    } else {
        Some(rank_of(counted))
    }
}
