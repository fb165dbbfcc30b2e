//! Heads and cells that the sheets of this crate share.
ghost use Rattle.std.specs.Prelude.{◌≡◌, IfOk};
ghost use Rattle.aq_rules.specs.Listed.Daily as daily;
ghost use Rattle.aq_rules.specs.Listed.Events.{truth_cell};

use aq_base::{Memory, Pollutant, SiteId};
use aq_rd::parameter_name;
use aq_series::Cell;
use aq_sheets::{Head, Heads, SheetCell, list, site_text};
use std::alloc::Global;

/// The heads of a year of a site and pollutant.
pub(crate) fn series_heads(
    alloc: Global,
    site: SiteId,
    pollutant: Pollutant,
    year: u16,
) -> Result<Heads, Memory>
    ensures { IfOk result (λ heads. heads ≡ daily.series_heads site pollutant year) }
{
    let place = SheetCell::text(alloc, &site_text(site))?;
    let site = Head::new(alloc, b"site", place)?;
    let name = SheetCell::text(alloc, parameter_name(pollutant))?;
    let parameter = Head::new(alloc, b"parameter", name)?;
    let year = Head::new(alloc, b"year", SheetCell::count(u32::from(year)))?;
    list(alloc, [site, parameter, year])
}

/// A day's value, if it has one.
pub(crate) fn value_of(sample: &Option<Cell>) -> Option<i32>
    ensures { result ≡ daily.value_of sample.now }
{
    match sample {
        Some(cell) => Some(cell.value),
        None => None,
    }
}

/// Whether a day is excluded, if it has a value.
pub(crate) fn exclusion_of(sample: &Option<Cell>) -> Option<bool>
    ensures { result ≡ daily.exclusion_of sample.now }
{
    match sample {
        Some(cell) => Some(cell.excluded),
        None => None,
    }
}

/// `Y` or `N`, or no value.
pub(crate) fn truth_cell(alloc: Global, truth: Option<bool>) -> Result<SheetCell, Memory>
    ensures { IfOk result (λ cell. cell ≡ truth_cell truth) }
{
    match truth {
        Some(truth) => SheetCell::truth(alloc, truth),
        None => Ok(SheetCell::missing()),
    }
}
