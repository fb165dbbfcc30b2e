//! The sheets of a year's PM2.5 and PM10 quarters.
ghost use Rattle.std.specs.Prelude.{◌≡◌, IfOk};
ghost use Rattle.aq_rules.specs.Kept.SummaryVerdicts.{kept_counted};
ghost use Rattle.aq_rules.specs.Shown.ParticleSheets as particle_sheets;

use crate::numbered::{NumberedRow, numbered_rows};
use aq_base::{Memory, SiteId};
use aq_sheets::{
    Cells, Heads, Sheet, SheetCell, add_count, add_head, add_text, list, names, site_text,
};
use aq_verdict::{
    Pm10Quarter, Pm10Year, PmQuarter, PmYear, annual_mean, capture, counted_in, percentile_of,
    quarter_estimate, quarter_lower, rank_of, year_estimate,
};
use std::alloc::Global;

/// The sheet of a PM2.5 year: its counted samples, the rank and the value of its percentile, its mean,
/// and a row for each quarter.
pub fn pm25_sheet(alloc: Global, site: SiteId, year: u16, parts: &PmYear) -> Result<Sheet, Memory>
    ensures { IfOk result (λ sheet. sheet ≡ particle_sheets.pm25_sheet site year parts.now) }
{
    let heads = pm25_heads(alloc, site, year, parts)?;
    let columns = names(
        alloc,
        &[
            b"quarter",
            b"scheduled",
            b"creditable",
            b"capture",
            b"counted",
            b"days",
            b"sum",
            b"least",
            b"greatest",
        ],
    )?;
    let rows = numbered_rows(alloc, 1, parts.quarters())?;
    Ok(Sheet::new(heads, columns, rows))
}

#[tactic(auto, unfolding(aq_rules::specs::Shown::ParticleSheets::pm25_sheet))]
fn pm25_heads(alloc: Global, site: SiteId, year: u16, parts: &PmYear) -> Result<Heads, Memory>
    ensures { IfOk result (λ heads. heads ≡ (particle_sheets.pm25_sheet site year parts.now).heads) }
{
    let mut heads = Heads::new(alloc);
    add_text(alloc, &mut heads, b"site", &site_text(site))?;
    add_count(alloc, &mut heads, b"year", u32::from(year))?;
    add_count(alloc, &mut heads, b"counted", u32::from(counted_in(parts)))?;
    add_head(alloc, &mut heads, b"rank", rank_cell(parts))?;
    let percentile = SheetCell::tenths(percentile_of(parts));
    add_head(alloc, &mut heads, b"percentile", percentile)?;
    let mean = SheetCell::tenths(annual_mean(parts));
    add_head(alloc, &mut heads, b"mean", mean)?;
    Ok(heads)
}

/// The rank of the percentile, counted from the greatest value; none without a counted sample (40 CFR
/// Part 50, Appendix N, 4.5).
fn rank_cell(parts: &PmYear) -> SheetCell
    ensures { result ≡ particle_sheets.rank_cell (kept_counted parts.now.quarters) }
{
    let counted = counted_in(parts);
    if counted == 0 {
        return SheetCell::missing();
    }
    SheetCell::count(u32::from(rank_of(counted)))
}

impl NumberedRow for PmQuarter {
    ghost use Rattle.aq_rules.specs.Shown.ParticleSheets as particle_sheets;

    ghost shown = { particle_sheets.pm25_cells };

    ghost width = { 9 };

    fn cells(&self, alloc: Global, number: u32) -> Result<Cells, Memory> {
        list(
            alloc,
            [
                SheetCell::count(number),
                SheetCell::count(u32::from(self.scheduled())),
                SheetCell::count(u32::from(self.creditable())),
                SheetCell::count(capture(self)),
                SheetCell::count(u32::from(self.counted())),
                SheetCell::count(u32::from(self.days())),
                SheetCell::fixed(i64::from(self.sum()), 1),
                SheetCell::tenths(self.least()),
                SheetCell::tenths(self.greatest()),
            ],
        )
    }
}

/// The sheet of a PM10 year: its estimated exceedances, and a row for each quarter.
pub fn pm10_sheet(alloc: Global, site: SiteId, year: u16, parts: &Pm10Year) -> Result<Sheet, Memory>
    ensures { IfOk result (λ sheet. sheet ≡ particle_sheets.pm10_sheet site year parts.now) }
{
    let heads = pm10_heads(alloc, site, year, parts)?;
    let columns = names(
        alloc,
        &[
            b"quarter",
            b"days",
            b"scheduled",
            b"captured",
            b"strata",
            b"samples",
            b"exceedances",
            b"estimate",
            b"lower",
        ],
    )?;
    let rows = numbered_rows(alloc, 1, parts.quarters())?;
    Ok(Sheet::new(heads, columns, rows))
}

#[tactic(auto, unfolding(aq_rules::specs::Shown::ParticleSheets::pm10_sheet))]
fn pm10_heads(alloc: Global, site: SiteId, year: u16, parts: &Pm10Year) -> Result<Heads, Memory>
    ensures { IfOk result (λ heads. heads ≡ (particle_sheets.pm10_sheet site year parts.now).heads) }
{
    let mut heads = Heads::new(alloc);
    add_text(alloc, &mut heads, b"site", &site_text(site))?;
    add_count(alloc, &mut heads, b"year", u32::from(year))?;
    let estimate = SheetCell::tenths(year_estimate(parts));
    add_head(alloc, &mut heads, b"estimate", estimate)?;
    Ok(heads)
}

impl NumberedRow for Pm10Quarter {
    ghost use Rattle.aq_rules.specs.Shown.ParticleSheets as particle_sheets;

    ghost shown = { particle_sheets.pm10_cells };

    ghost width = { 9 };

    fn cells(&self, alloc: Global, number: u32) -> Result<Cells, Memory> {
        list(
            alloc,
            [
                SheetCell::count(number),
                SheetCell::count(u32::from(self.days())),
                SheetCell::count(u32::from(self.scheduled())),
                SheetCell::count(u32::from(self.captured())),
                SheetCell::count(u32::from(self.strata())),
                SheetCell::count(u32::from(self.samples())),
                SheetCell::count(u32::from(self.exceedances())),
                SheetCell::hundredths(quarter_estimate(self)),
                SheetCell::hundredths(quarter_lower(self)),
            ],
        )
    }
}
