//! The sheet of a PM10 design value: three years, the oldest first.
ghost use Rattle.std.specs.Prelude.{◌≡◌, IfOk};
ghost use Rattle.aq_rules.specs.Shown.ParticleSheets as particle_sheets;
ghost use Rattle.aq_rules.specs.Shown.WellFormed.{IsWellFormed};

use crate::numbered::{NumberedRow, numbered_rows};
use crate::value::{oldest_year, value_heads};
use aq_base::{Memory, SiteId, Standard};
use aq_sheets::{Cells, Sheet, SheetCell, list, names};
use aq_verdict::{Pm10Dv, Pm10Year, exceedances_in, is_complete_year, year_estimate, year_lower};
use std::alloc::Global;

/// The sheet of a PM10 design value. There is no test.
pub(crate) fn pm10_value_sheet(
    alloc: Global,
    site: SiteId,
    year: u16,
    years: &[Pm10Year; 3],
    design: &Pm10Dv,
) -> Result<Sheet, Memory>
    ensures value { IfOk result (λ sheet. sheet ≡ particle_sheets.pm10_value_sheet site year years.now design.now) }
    ensures well_formed { IfOk result (λ sheet. IsWellFormed sheet) }
{
    let heads = value_heads(
        alloc,
        Standard::Pm10Of1987,
        site,
        year,
        design.value,
        None,
        design.verdict,
    )?;
    let columns = names(
        alloc,
        &[b"year", b"estimate", b"lower", b"exceedances", b"complete"],
    )?;
    let rows = numbered_rows(alloc, oldest_year(year), years)?;
    Ok(Sheet::new(heads, columns, rows))
}

impl NumberedRow for Pm10Year {
    ghost use Rattle.aq_rules.specs.Shown.ParticleSheets as particle_sheets;

    ghost shown = { particle_sheets.pm10_year_cells };

    ghost width = { 5 };

    fn cells(&self, alloc: Global, number: u32) -> Result<Cells, Memory> {
        let complete = SheetCell::truth(alloc, is_complete_year(self))?;
        list(
            alloc,
            [
                SheetCell::count(number),
                SheetCell::tenths(year_estimate(self)),
                SheetCell::tenths(year_lower(self)),
                SheetCell::count(u32::from(exceedances_in(self))),
                complete,
            ],
        )
    }
}
