//! The records of an office as text.
ghost use Rattle.std.specs.Prelude.{◌≡◌, ◌++◌, IfOk, OnOk};
ghost use Rattle.aq_rules.specs.Lines.Canonical as canonical;
ghost use Rattle.aq_rules.specs.Listed.Records.{record_text, records_answer};
ghost use Rattle.aq_registry.specs.Registry.{office_with};

use aq_base::{Memory, OfficeLine, OfficeRecord};
use aq_forms::print_office;
use aq_registry::Registry;
use std::alloc::Global;

/// The records of an office as text, in the order of their rows: for each the line that makes it anew,
/// with LF at its end (own). It is one walk over the records.
#[tactic(auto, unfolding(aq_rules::specs::Listed::Records::records_answer))]
pub fn records(alloc: Global, registry: &Registry) -> Result<Vec<u8>, Memory>
    ensures { IfOk result (λ text. text.items ≡ records_answer (office_with registry.now)) }
{
    let mut text = Vec::new(alloc);
    for record in registry.rows() {
        add_record(alloc, &mut text, &record)?;
    }
    Ok(text)
}

/// A record's line and LF.
fn add_record(alloc: Global, text: &mut Vec<u8>, record: &OfficeRecord) -> Result<(), Memory>
    ensures { OnOk result (text.new.items ≡ text.old.items ++ record_text record.now) }
{
    let line = print_office(alloc, &record_line(record))?;
    text.extend_from_slice(&line)?;
    text.push(b'\n')?;
    Ok(())
}

/// The line by which a record is made: an insertion, and of a concurrence an update.
fn record_line(record: &OfficeRecord) -> OfficeLine
    ensures { result ≡ canonical.record_line record.now }
{
    match *record {
        OfficeRecord::Concurrence { .. } => OfficeLine::Change(*record),
        _ => OfficeLine::Put(*record),
    }
}
