//! The sheet of the events that decide a verdict.
ghost use Rattle.std.specs.Prelude.{◌≡◌, [], IfOk, IsTrue, map};
ghost use Rattle.aq_rules.specs.Shown.AreaSheets as sheets;
ghost use Rattle.aq_rules.specs.Shown.WellFormed.{IsWellFormed};
ghost use Rattle.aq_reports.specs.Formed.{are_heads, are_rows, is_row_of};

use crate::value::verdict_name;
use aq_base::{Memory, SiteId, Standard, Verdict};
use aq_sheets::{
    Cells, Heads, Rows, Sheet, SheetCell, add_count, add_text, list, names, site_text,
};
use std::alloc::Global;

/// The sheet of a verdict for the three years that end with the year, and of the events that alone change
/// it: the number of each, and the verdict with its concurrence turned round.
pub fn decisive_sheet(
    alloc: Global,
    standard: Standard,
    site: SiteId,
    year: u16,
    verdict: Verdict,
    rows: &[(u32, Verdict)],
) -> Result<Sheet, Memory>
    ensures value { IfOk result (λ sheet. sheet ≡ sheets.decisive_sheet standard site year verdict rows.now) }
    ensures well_formed { IfOk result (λ sheet. IsWellFormed sheet) }
{
    let heads = decisive_heads(alloc, standard, site, year, verdict)?;
    let columns = names(alloc, &[b"event", b"verdict"])?;
    let rows = decisive_rows(alloc, rows)?;
    Ok(Sheet::new(heads, columns, rows))
}

#[tactic(auto, using(crate::proofs::Formed::words), unfolding(aq_rules::specs::Shown::AreaSheets::decisive_sheet))]
fn decisive_heads(
    alloc: Global,
    standard: Standard,
    site: SiteId,
    year: u16,
    verdict: Verdict,
) -> Result<Heads, Memory>
    ensures value { IfOk result (λ heads. heads ≡ (sheets.decisive_sheet standard site year verdict []).heads) }
    ensures heads { IfOk result (λ heads. IsTrue (are_heads heads)) }
{
    let mut heads = Heads::new(alloc);
    add_text(alloc, &mut heads, b"standard", standard.name().as_bytes())?;
    add_text(alloc, &mut heads, b"site", &site_text(site))?;
    add_count(alloc, &mut heads, b"year", u32::from(year))?;
    let verdict = verdict_name(verdict);
    add_text(alloc, &mut heads, b"verdict", verdict.as_bytes())?;
    Ok(heads)
}

/// A row for each event.
fn decisive_rows(alloc: Global, events: &[(u32, Verdict)]) -> Result<Rows, Memory>
    ensures value { IfOk result (λ rows. rows ≡ map sheets.decisive_cells events.now) }
    ensures rows { IfOk result (λ rows. IsTrue (are_rows 2 rows)) }
{
    let mut rows = Rows::new(alloc);
    for event in events {
        rows.push(decisive_cells(alloc, event)?)?;
    }
    Ok(rows)
}

fn decisive_cells(alloc: Global, event: &(u32, Verdict)) -> Result<Cells, Memory>
    ensures value { IfOk result (λ cells. cells ≡ sheets.decisive_cells event.now) }
    ensures row { IfOk result (λ cells. IsTrue (is_row_of 2 cells)) }
{
    let (number, verdict) = event;
    let verdict = SheetCell::text(alloc, verdict_name(*verdict).as_bytes())?;
    list(alloc, [SheetCell::count(*number), verdict])
}
