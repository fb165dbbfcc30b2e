//! Changes as lines.
ghost use Rattle.std.specs.Prelude.{◌≡◌, ◌++◌, option_map, OnOk};
ghost use Rattle.aq_staging.specs.Extracts.Texts.{optional_text};
ghost use Rattle.aq_rd.specs.RdReading.{value_of};
ghost use Rattle.aq_rules.specs.Extracts.Changes.{change_text};

use aq_base::Memory;
use aq_rd::{RdLine, print_rd};
use std::alloc::Global;

/// Adds the line of a change to a text, if there is one.
pub(crate) fn add_change(
    alloc: Global,
    text: &mut Vec<u8>,
    change: Option<RdLine>,
) -> Result<(), Memory>
    ensures { OnOk result (text.new.items ≡ text.old.items ++ optional_text (option_map value_of change)) }
{
    match change {
        Some(change) => add_line(alloc, text, &change),
        None => Ok(()),
    }
}

/// Adds the line of a change to a text.
fn add_line(alloc: Global, text: &mut Vec<u8>, change: &RdLine) -> Result<(), Memory>
    ensures { OnOk result (text.new.items ≡ text.old.items ++ change_text (value_of change.now)) }
{
    let line = print_rd(alloc, change)?;
    text.extend_from_slice(&line)?;
    text.push(b'\n')?;
    Ok(())
}
