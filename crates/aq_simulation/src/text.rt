//! The text of a simulation.
ghost use Rattle.std.specs.Prelude.{◌≡◌, ◌≤◌, IfOk};
ghost use Rattle.sha2.specs.Sha256.{sha256};
ghost use Rattle.aq_rules.specs.Limits.{MOST_GENERATED_SITES, FEWEST_GENERATED_YEARS, MOST_GENERATED_YEARS};
ghost use Rattle.aq_rules.specs.Shown.Generator.{simulation};

use crate::generator::{FIRST_GENERATED_YEAR, load_count};
use crate::reports::{add_reports, summary_text};
use crate::taken::take_all;
use aq_base::Memory;
use std::alloc::Global;

/// The summary of an office of 1 to `MOST_GENERATED_SITES` sites and `FEWEST_GENERATED_YEARS` to
/// `MOST_GENERATED_YEARS` years, whose loads are drawn from a start number: how many loads were taken, how
/// many lines they had and how many observations stand. After it the report of each standard for the last
/// year.
pub fn simulation(alloc: Global, start: u64, sites: u8, years: u8) -> Result<Vec<u8>, Memory>
    requires some_sites { 1 ≤ sites }
    requires few_sites { sites ≤ MOST_GENERATED_SITES }
    requires some_years { FEWEST_GENERATED_YEARS ≤ years }
    requires few_years { years ≤ MOST_GENERATED_YEARS }
    ensures { IfOk result (λ text. text.items ≡ simulation sha256 start sites years) }
{
    let taken = take_all(alloc, start, sites, years)?;
    let mut text = summary_text(alloc, &taken, load_count(sites, years))?;
    add_reports(
        alloc,
        &taken.book,
        FIRST_GENERATED_YEAR - 1 + u16::from(years),
        &mut text,
    )?;
    Ok(text)
}
