//! The loads of a simulation, by their numbers.
ghost use Rattle.std.specs.Prelude.{◌≡◌, ◌≤◌, ◌+◌, ◌-◌, ◌*◌, ◌/◌, ◌%◌, ◌^◌, IfOk, IfSome, length, option_map};
ghost use Rattle.std.specs.Int.{IsInRange};
ghost use Rattle.aq_rules.specs.Limits.{MOST_BYTES, MOST_LINES, MOST_GENERATED_SITES, FEWEST_GENERATED_YEARS, MOST_GENERATED_YEARS};
ghost use Rattle.aq_rules.specs.Lines.Lines.{line_count};
ghost use Rattle.aq_rules.specs.Shown.Generator as generator;
ghost use Rattle.aq_simulation.specs.Generator.Sizes.{IsSmall};

use crate::generator::office::{FIRST_GENERATED_YEAR, office_of};
use crate::generator::samples::samples_of;
use aq_base::Memory;
use std::alloc::Global;

/// How many loads a simulation has: the office's, and one for each site and year.
pub fn load_count(sites: u8, years: u8) -> u32
    ensures { result ≡ generator.load_count sites years }
{
    1 + u32::from(sites) * u32::from(years)
}

/// The body of a load, by its number from 1, of a simulation of 1 to `MOST_GENERATED_SITES` sites and
/// `FEWEST_GENERATED_YEARS` to `MOST_GENERATED_YEARS` years (own).
/// Load 1 has the records of the office, and the others the samples of the sites and their years in
/// order, each drawn from the start number plus its own. There is none with the number 0, and none
/// beyond the count of loads.
pub fn generate(
    alloc: Global,
    start: u64,
    sites: u8,
    years: u8,
    load: u32,
) -> Result<Option<Vec<u8>>, Memory>
    requires sites { IsInRange 1 MOST_GENERATED_SITES sites }
    requires years { IsInRange FEWEST_GENERATED_YEARS MOST_GENERATED_YEARS years }
    ensures body { IfOk result (λ body. option_map (λ text. text.items) body ≡ generator.generate start sites years load) }
    ensures few_bytes { IfOk result (λ body. IfSome body (λ text. length text.items ≤ MOST_BYTES)) }
    ensures few_lines { IfOk result (λ body. IfSome body (λ text. line_count text.items ≤ MOST_LINES)) }
{
    if load == 0 || load_count(sites, years) < load {
        return Ok(None);
    }
    Ok(Some(text_of(alloc, start, sites, years, load)?))
}

fn text_of(alloc: Global, start: u64, sites: u8, years: u8, load: u32) -> Result<Vec<u8>, Memory>
    requires sites { IsInRange 1 MOST_GENERATED_SITES sites }
    requires years { IsInRange FEWEST_GENERATED_YEARS MOST_GENERATED_YEARS years }
    requires load { IsInRange 1 (1 + sites * years) load }
    ensures text { IfOk result (λ text. text.items ≡ generator.generated_load start sites years load) }
    ensures few { IfOk result (λ text. IsSmall text.items) }
{
    if load == 1 {
        return office_of(alloc, sites, years);
    }
    let place = load as u16 - 2;
    let years = u16::from(years);
    samples_of(
        alloc,
        start.wrapping_add(u64::from(load)),
        place / years + 1,
        FIRST_GENERATED_YEAR + place % years,
    )
}
