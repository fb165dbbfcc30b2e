//! The PM2.5 days of a site's year: what is scheduled, what it has, and what it makes up for.
ghost use Rattle.std.specs.Prelude.{◌≡◌, IfOk, map};
ghost use Rattle.std.specs.Int.{IsInRange};
ghost use Rattle.aq_base.specs.declared.day.TheConstants.{FIRST_YEAR, LAST_YEAR};
ghost use Rattle.aq_base.specs.declared.monitor.Pollutant.TheVariants.{Pm25};
ghost use Rattle.aq_rules.specs.Listed.Daily as daily;
ghost use Rattle.aq_rules.specs.Ozone.OzoneYear.{days_of};
ghost use Rattle.aq_reports.specs.Daily.DayRows.{pm25_row};

use crate::daily::cells::{exclusion_of, series_heads, truth_cell, value_of};
use crate::daily::credit::is_credited;
use aq_base::{Day, Memory, Pollutant, SiteId};
use aq_cal::{day_text, year_span};
use aq_design::ParticleDays;
use aq_series::Cell;
use aq_sheets::{Cells, Rows, Sheet, SheetCell, list, names};
use std::alloc::Global;
use std::marker::Model;

/// A day: whether a sample is asked for, what the site has, and whether that makes up for a missed day.
/// Contracts see the book's day.
#[derive(Clone, Copy, Debug, PartialEq, Eq)]
struct Pm25Day {
    day: Day,
    scheduled: bool,
    sample: Option<Cell>,
    credit: bool,
}

impl Model for Pm25Day {
    ghost use Rattle.aq_rules.specs.Listed.Daily as daily;

    ghost Value = { daily.Pm25Day };

    ghost view = { λ row. record { day = row.day; scheduled = row.scheduled; sample = row.sample; credit = row.credit } };

    ghost inverse = { λ row. record { day = row.day; scheduled = row.scheduled; sample = row.sample; credit = row.credit } };
}

/// The PM2.5 days of a year of a site: whether each is scheduled (40 CFR 58.12), the site's value with
/// whether it is excluded, and whether it is the make-up day of a record that gives credit (40 CFR Part 50,
/// Appendix N, 1.0(c)). The year is 1990 to 2059.
pub fn pm25_days<S: ParticleDays>(
    alloc: Global,
    source: &S,
    site: SiteId,
    year: u16,
) -> Result<Sheet, Memory>
    requires year { IsInRange FIRST_YEAR LAST_YEAR year }
    ensures { IfOk result (λ sheet. sheet ≡ daily.daily_answer (S.office source.now) site Pm25 year) }
{
    let heads = series_heads(alloc, site, Pollutant::Pm25, year)?;
    let columns = names(
        alloc,
        &[b"day", b"scheduled", b"value", b"excluded", b"credit"],
    )?;
    let rows = pm25_rows(alloc, source, site, year)?;
    Ok(Sheet::new(heads, columns, rows))
}

/// A row for each day of a year.
fn pm25_rows<S: ParticleDays>(
    alloc: Global,
    source: &S,
    site: SiteId,
    year: u16,
) -> Result<Rows, Memory>
    requires year { IsInRange FIRST_YEAR LAST_YEAR year }
    ensures { IfOk result (λ rows. rows ≡ map (pm25_row (S.office source.now) site) (days_of year)) }
{
    let (first, days) = year_span(year);
    let mut rows = Rows::new(alloc);
    for place in 0..days {
        let day = Day::new(first.number() + place);
        let row = pm25_day(source, site, day);
        rows.push(pm25_day_cells(alloc, &row)?)?;
    }
    Ok(rows)
}

/// What is said of a day.
fn pm25_day<S: ParticleDays>(source: &S, site: SiteId, day: Day) -> Pm25Day
    ensures { result ≡ daily.pm25_day (S.office source.now) site day }
{
    Pm25Day {
        day,
        scheduled: source.records().is_scheduled(site, Pollutant::Pm25, day),
        sample: source.particle_day(site, Pollutant::Pm25, day),
        credit: is_credited(source, site, day),
    }
}

/// The row of a day.
fn pm25_day_cells(alloc: Global, row: &Pm25Day) -> Result<Cells, Memory>
    ensures { IfOk result (λ cells. cells ≡ daily.pm25_day_cells row.now) }
{
    let day = SheetCell::text(alloc, &day_text(row.day))?;
    let scheduled = SheetCell::truth(alloc, row.scheduled)?;
    let value = SheetCell::tenths(value_of(&row.sample));
    let excluded = truth_cell(alloc, exclusion_of(&row.sample))?;
    let credit = SheetCell::truth(alloc, row.credit)?;
    list(alloc, [day, scheduled, value, excluded, credit])
}
