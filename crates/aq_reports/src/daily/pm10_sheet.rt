//! The PM10 days of a site's year: what is scheduled, in which stratum it lies, and what it has.
ghost use Rattle.std.specs.Prelude.{◌≡◌, ◌+◌, ◌≤◌, ◌++◌, IfOk, OnOk, map, option_map};
ghost use Rattle.std.specs.Int.{IsInRange};
ghost use Rattle.std.specs.List.{range_with_len};
ghost use Rattle.aq_base.specs.declared.day.TheConstants.{FIRST_YEAR, LAST_DAY, LAST_YEAR};
ghost use Rattle.aq_base.specs.declared.monitor.Pollutant.TheVariants.{Pm10};
ghost use Rattle.aq_rules.specs.Listed.Daily as daily;
ghost use Rattle.aq_rules.specs.Ozone.OzoneYear.{days_of};
ghost use Rattle.aq_rules.specs.Particles.Pm10Estimate.{exceeds};
ghost use Rattle.aq_rules.specs.Particles.QuarterCounts.{days_of_quarter};
ghost use Rattle.aq_reports.specs.Daily.DayRows.{pm10_row, pm10_row_among};

use crate::daily::cells::{exclusion_of, series_heads, truth_cell, value_of};
use crate::daily::strata::Begun;
use aq_base::{Day, Memory, Pollutant, Quarter, SiteId};
use aq_cal::{day_text, quarter_span};
use aq_design::ParticleDays;
use aq_particles::pm10::{exceeds, quarter_in};
use aq_series::Cell;
use aq_sheets::{Cells, Rows, Sheet, SheetCell, list, names};
use std::alloc::Global;
use std::marker::Model;

/// A day: whether a sample is asked for, the place of its stratum, and what the site has. Contracts see the
/// book's day.
#[derive(Clone, Copy, Debug, PartialEq, Eq)]
struct Pm10Day {
    day: Day,
    scheduled: bool,
    stratum: u8,
    sample: Option<Cell>,
}

impl Model for Pm10Day {
    ghost use Rattle.aq_rules.specs.Listed.Daily as daily;

    ghost Value = { daily.Pm10Day };

    ghost view = { λ row. record { day = row.day; scheduled = row.scheduled; stratum = row.stratum; sample = row.sample } };

    ghost inverse = { λ row. record { day = row.day; scheduled = row.scheduled; stratum = row.stratum; sample = row.sample } };
}

/// The PM10 days of a year of a site: whether each is scheduled (40 CFR 58.12), the place of its stratum in
/// its quarter (40 CFR Part 50, Appendix K, 3.2), the site's value with whether it is excluded, and whether
/// it exceeds by itself. The year is 1990 to 2059.
pub fn pm10_days<S: ParticleDays>(
    alloc: Global,
    source: &S,
    site: SiteId,
    year: u16,
) -> Result<Sheet, Memory>
    requires year { IsInRange FIRST_YEAR LAST_YEAR year }
    ensures { IfOk result (λ sheet. sheet ≡ daily.daily_answer (S.office source.now) site Pm10 year) }
{
    let heads = series_heads(alloc, site, Pollutant::Pm10, year)?;
    let columns = names(
        alloc,
        &[
            b"day",
            b"scheduled",
            b"stratum",
            b"value",
            b"excluded",
            b"exceeds",
        ],
    )?;
    let rows = pm10_rows(alloc, source, site, year)?;
    Ok(Sheet::new(heads, columns, rows))
}

/// A row for each day of a year.
fn pm10_rows<S: ParticleDays>(
    alloc: Global,
    source: &S,
    site: SiteId,
    year: u16,
) -> Result<Rows, Memory>
    requires year { IsInRange FIRST_YEAR LAST_YEAR year }
    ensures { IfOk result (λ rows. rows ≡ map (pm10_row (S.office source.now) site) (days_of year)) }
{
    let mut rows = Rows::new(alloc);
    for part in 0..4 {
        let quarter = quarter_in(year, part);
        add_quarter(alloc, &mut rows, source, site, quarter)?;
    }
    Ok(rows)
}

/// Adds a row for each day of a quarter.
fn add_quarter<S: ParticleDays>(
    alloc: Global,
    rows: &mut Rows,
    source: &S,
    site: SiteId,
    quarter: Quarter,
) -> Result<(), Memory>
    ensures { OnOk result (rows.new ≡ rows.old ++ map (pm10_row (S.office source.now) site) (days_of_quarter quarter)) }
{
    let (first, days) = quarter_span(quarter);
    add_days(alloc, rows, source, site, first, days)
}

/// Adds a row for each of the days that a quarter has from its first one on.
fn add_days<S: ParticleDays>(
    alloc: Global,
    rows: &mut Rows,
    source: &S,
    site: SiteId,
    first: Day,
    days: u8,
) -> Result<(), Memory>
    requires few { days ≤ 92 }
    requires in_profile { first + days ≤ LAST_DAY + 1 }
    ensures { OnOk result (rows.new ≡ rows.old ++ map (pm10_row_among (S.office source.now) site (range_with_len first days)) (range_with_len first days)) }
{
    let mut begun = Begun {
        strata: 0,
        end: first.number(),
    };
    for place in 0..days {
        let day = Day::new(first.number() + u16::from(place));
        let scheduled = source.records().is_scheduled(site, Pollutant::Pm10, day);
        begun = begun.with_day(day.number(), scheduled);
        let row = Pm10Day {
            day,
            scheduled,
            stratum: begun.strata,
            sample: source.particle_day(site, Pollutant::Pm10, day),
        };
        rows.push(pm10_day_cells(alloc, &row)?)?;
    }
    Ok(())
}

/// The row of a day.
fn pm10_day_cells(alloc: Global, row: &Pm10Day) -> Result<Cells, Memory>
    ensures { IfOk result (λ cells. cells ≡ daily.pm10_day_cells row.now) }
{
    let day = SheetCell::text(alloc, &day_text(row.day))?;
    let scheduled = SheetCell::truth(alloc, row.scheduled)?;
    let stratum = SheetCell::count(u32::from(row.stratum));
    let value = SheetCell::tenths(value_of(&row.sample));
    let excluded = truth_cell(alloc, exclusion_of(&row.sample))?;
    let exceeds = truth_cell(alloc, exceedance_of(&row.sample))?;
    list(alloc, [day, scheduled, stratum, value, excluded, exceeds])
}

/// Whether a day's value exceeds by itself, if it has one.
fn exceedance_of(sample: &Option<Cell>) -> Option<bool>
    ensures { result ≡ option_map exceeds (daily.value_of sample.now) }
{
    match sample {
        Some(cell) => Some(exceeds(cell.value)),
        None => None,
    }
}
