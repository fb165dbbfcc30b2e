//! The sheets of the highest days.
ghost use Rattle.std.specs.Prelude.{◌≡◌, ◌≤◌, Some, IfOk, length, map};
ghost use Rattle.std.specs.List.{enumerate_from};
ghost use Rattle.aq_base.specs.Text.{hour_text};
ghost use Rattle.aq_rules.specs.Listed.Highest as highest;

use crate::daily::cells::series_heads;
use crate::daily::maximum::MaximumAt;
use crate::daily::ranked::{Highest, RankedDay};
use aq_base::{Memory, Pollutant, SiteId};
use aq_cal::{day_text, last_digits};
use aq_sheets::{Cells, Head, Heads, Rows, Sheet, SheetCell, list, names};
use std::alloc::Global;
use std::marker::Model;

/// A ranked ozone day with the start of its maximum. Contracts see the pair of them.
#[derive(Clone, Copy, Debug, PartialEq, Eq)]
pub struct RankedMaximum {
    pub day: RankedDay,
    pub start: Option<MaximumAt>,
}

impl Model for RankedMaximum {
    ghost use Rattle.std.specs.Prelude.{Option};
    ghost use Rattle.aq_rules.specs.Listed.Highest as highest;

    ghost Value = { highest.RankedDay × Option highest.MaximumAt };

    ghost view = { λ row. (row.day, row.start) };

    ghost inverse = { λ row. record { day = row.0; start = row.1 } };
}

/// The sheet of the highest days of an ozone year, of which at most ten are listed. The fourth decides (40
/// CFR Part 50, Appendix U, 4(b)).
pub fn highest_ozone_sheet(
    alloc: Global,
    site: SiteId,
    year: u16,
    ranked: u32,
    rows: &[RankedMaximum],
) -> Result<Sheet, Memory>
    requires few { length rows.now ≤ 10 }
    ensures { IfOk result (λ sheet. sheet ≡ highest.highest_ozone_sheet site year ranked (Some 4) rows.now) }
{
    let heads = highest_heads(alloc, site, Pollutant::Ozone, year, ranked, Some(4))?;
    let columns = names(alloc, &[b"rank", b"day", b"value", b"hour", b"hours"])?;
    let rows = ozone_rows(alloc, rows)?;
    Ok(Sheet::new(heads, columns, rows))
}

/// The sheet of the highest days of a particle year.
pub(crate) fn highest_particles_sheet(
    alloc: Global,
    site: SiteId,
    pollutant: Pollutant,
    year: u16,
    found: &Highest,
    decides: Option<u8>,
) -> Result<Sheet, Memory>
    requires { length found.now.days.items ≤ 10 }
    ensures { IfOk result (λ sheet. sheet ≡ highest.highest_particles_sheet site pollutant year found.now.ranked decides found.now.days.items) }
{
    let heads = highest_heads(alloc, site, pollutant, year, found.ranked, decides)?;
    let columns = names(alloc, &[b"rank", b"day", b"value"])?;
    let rows = particle_rows(alloc, found.days.as_slice())?;
    Ok(Sheet::new(heads, columns, rows))
}

/// The heads of a year, how many days are ranked, and the rank that decides.
fn highest_heads(
    alloc: Global,
    site: SiteId,
    pollutant: Pollutant,
    year: u16,
    ranked: u32,
    decides: Option<u8>,
) -> Result<Heads, Memory>
    ensures { IfOk result (λ heads. heads ≡ highest.highest_heads site pollutant year ranked decides) }
{
    let mut heads = series_heads(alloc, site, pollutant, year)?;
    heads.push(Head::new(alloc, b"ranked", SheetCell::count(ranked))?)?;
    heads.push(Head::new(alloc, b"decides", number_cell(decides))?)?;
    Ok(heads)
}

/// A number, if there is one.
fn number_cell(number: Option<u8>) -> SheetCell
    ensures { result ≡ highest.number_cell number }
{
    match number {
        Some(number) => SheetCell::count(u32::from(number)),
        None => SheetCell::missing(),
    }
}

/// A row for each of at most ten days, by its rank from 1 on.
fn particle_rows(alloc: Global, days: &[RankedDay]) -> Result<Rows, Memory>
    requires { length days.now ≤ 10 }
    ensures { IfOk result (λ rows. rows ≡ map highest.particle_cells (enumerate_from 1 days.now)) }
{
    let mut rows = Rows::new(alloc);
    let mut rank = 1;
    for row in days {
        rows.push(particle_cells(alloc, rank, row)?)?;
        rank += 1;
    }
    Ok(rows)
}

/// The row of a day by its rank.
fn particle_cells(alloc: Global, rank: u32, row: &RankedDay) -> Result<Cells, Memory>
    ensures { IfOk result (λ cells. cells ≡ highest.particle_cells (rank, row.now)) }
{
    let day = SheetCell::text(alloc, &day_text(row.day))?;
    let value = SheetCell::tenths(Some(row.value));
    list(alloc, [SheetCell::count(rank), day, value])
}

/// A row for each of at most ten ozone days, by its rank from 1 on.
fn ozone_rows(alloc: Global, days: &[RankedMaximum]) -> Result<Rows, Memory>
    requires { length days.now ≤ 10 }
    ensures { IfOk result (λ rows. rows ≡ map highest.ozone_cells (enumerate_from 1 days.now)) }
{
    let mut rows = Rows::new(alloc);
    let mut rank = 1;
    for row in days {
        rows.push(ozone_cells(alloc, rank, row)?)?;
        rank += 1;
    }
    Ok(rows)
}

/// The row of an ozone day by its rank.
fn ozone_cells(alloc: Global, rank: u32, row: &RankedMaximum) -> Result<Cells, Memory>
    ensures { IfOk result (λ cells. cells ≡ highest.ozone_cells (rank, row.now)) }
{
    let ranked = row.day;
    let day = SheetCell::text(alloc, &day_text(ranked.day))?;
    let value = SheetCell::ppm(Some(ranked.value));
    match row.start {
        Some(at) => {
            let hour = SheetCell::text(alloc, &hour_text(at.hour))?;
            let hours = SheetCell::count(u32::from(at.hours));
            list(alloc, [SheetCell::count(rank), day, value, hour, hours])
        }
        None => {
            let (hour, hours) = (SheetCell::missing(), SheetCell::missing());
            list(alloc, [SheetCell::count(rank), day, value, hour, hours])
        }
    }
}

/// An hour of a day, `HH:00`.
#[tactic(auto, unfolding(aq_base::specs::Text::hour_text))]
fn hour_text(hour: u8) -> [u8; 5]
    ensures { result ≡ hour_text hour }
{
    let [tens, ones] = last_digits::<2>(u16::from(hour));
    [tens, ones, b':', b'0', b'0']
}
