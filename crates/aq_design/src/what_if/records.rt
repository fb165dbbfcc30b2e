//! Records with assumed concurrences in place of those on record.
ghost use Rattle.std.specs.Prelude.{◌≡◌, None, true, IfOk, IsNone, IsTrue, OnOk};
ghost use Rattle.aq_base.specs.declared.office.OfficeRecord.TheVariants.{Concurrence};
ghost use Rattle.aq_registry.specs.Registry.{office_with};
ghost use Rattle.aq_rules.specs.Lines.Spellings.{is_event_number};
ghost use Rattle.aq_rules.specs.Office.Office.{event_stands, record_rank, with_row};
ghost use Rattle.aq_rules.specs.WhatIf.Assumed.{unknown_event};
ghost use Rattle.aq_design.specs.WhatIf.Records.{are_event_numbers, records_as_if};

use aq_base::{Assumed, Memory, OfficeLine, OfficeRecord};
use aq_registry::{Registry, RegistryFault};

/// A copy of the records with the concurrence of each entry in place of the one on record; the last entry
/// of a number counts. The events stand.
pub(crate) fn records_as_if(registry: &Registry, assumed: &[Assumed]) -> Result<Registry, Memory>
    requires numbers { IsTrue (are_event_numbers assumed.now) }
    requires known { unknown_event (office_with registry.now) assumed.now ≡ None }
    ensures { IfOk result (λ records. records ≡ records_as_if registry.now assumed.now) }
{
    let mut records = registry.copy()?;
    assume_all(&mut records, assumed)?;
    Ok(records)
}

/// The first number of a list that no event has.
pub(crate) fn unknown_event(registry: &Registry, assumed: &[Assumed]) -> Option<u32>
    ensures first { result ≡ unknown_event (office_with registry.now) assumed.now }
    ensures numbers { IsNone result → IsTrue (are_event_numbers assumed.now) }
{
    for entry in assumed {
        if registry.agreed(entry.number).is_none() {
            return Some(entry.number);
        }
    }
    None
}

/// Puts the concurrences of a list, one after the other. The events stand.
fn assume_all(records: &mut Registry, assumed: &[Assumed]) -> Result<(), Memory>
    requires numbers { IsTrue (are_event_numbers assumed.now) }
    requires known { unknown_event (office_with records.old) assumed.now ≡ None }
    ensures { OnOk result (records.new ≡ records_as_if records.old assumed.now) }
{
    for entry in assumed {
        assume(records, *entry)?;
    }
    Ok(())
}

/// Puts a concurrence in place of the one on record, or adds it. The event stands, so the line of the
/// concurrence breaks no rule.
pub(crate) fn assume(records: &mut Registry, entry: Assumed) -> Result<(), Memory>
    requires number { IsTrue (is_event_number entry.number) }
    requires stands { event_stands (office_with records.old) entry.number ≡ true }
    ensures { OnOk result (records.new ≡ with_row record_rank (Concurrence entry.number entry.agreed) records.old) }
{
    let Assumed { number, agreed } = entry;
    match records.apply(OfficeLine::Change(OfficeRecord::Concurrence { number, agreed })) {
        Err(RegistryFault::Memory) => Err(Memory),
        _ => Ok(()),
    }
}
