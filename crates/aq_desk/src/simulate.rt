//! The command `simulate`.
ghost use Rattle.std.specs.Prelude.{◌≤◌, IfErr};
ghost use Rattle.aq_desk.specs.Command.{RisesAt};
ghost use Rattle.aq_desk.specs.Simulate.{simulate_outcome};
ghost use Rattle.aq_desk.specs.Stop.{IsCutShort, Obeys, status_of};
ghost use Rattle.aq_rules.specs.Limits.{MOST_GENERATED_SITES, FEWEST_GENERATED_YEARS, MOST_GENERATED_YEARS};
ghost use Rattle.aq_desk.specs.declared.status.TheConstants.{OUTPUT_FAILED};

use crate::stop::Stop;
use crate::writing::print_text;
use aq_outside::Sink;
use aq_simulation::simulation;
use std::alloc::Global;

/// Prints the summary of an office of generated loads, and the report of each standard.
pub(crate) fn simulate<O: Sink>(
    alloc: Global,
    start: u64,
    sites: u8,
    years: u8,
    output: &mut O,
) -> Result<(), Stop>
    requires some_sites { 1 ≤ sites }
    requires few_sites { sites ≤ MOST_GENERATED_SITES }
    requires some_years { FEWEST_GENERATED_YEARS ≤ years }
    requires few_years { years ≤ MOST_GENERATED_YEARS }
    ensures told { Obeys (simulate_outcome start sites years) result (O.seen output.old)
        (O.seen output.new) }
    ensures cut { IfErr result IsCutShort }
    ensures output_failed { RisesAt OUTPUT_FAILED (status_of result) (O.seen output.old).faults
        (O.seen output.new).faults }
{
    let text = simulation(alloc, start, sites, years)?;
    print_text(&text, output)
}
