//! Which observations are left out for an exceptional event.
ghost use Rattle.std.specs.Prelude.{◌≡◌, ◌<◌, false};
ghost use Rattle.std.specs.List.{list_any};
ghost use Rattle.std.specs.Option.{option_and_then};
ghost use Rattle.aq_rules.specs.Office.Exclusion.{asks_exclusion};
ghost use Rattle.aq_rules.specs.Office.Questions.{record_of};
ghost use Rattle.aq_base.specs.declared.office.OfficeKey.TheVariants.{Event as EventKey};
ghost use Rattle.aq_registry.specs.Agreed.{agreed_span, is_agreed_in, is_noted, leaves_out, number_of, span_at, spans_dropped, spans_put};

use crate::agreed::{Agreed, Span, Start};
use crate::records::Records;
use aq_base::{Code, ObsKey, OfficeKey, OfficeRecord};
use std::iter::Iterator;

/// Whether one of an observation's codes leaves it out.
pub(crate) fn any_leaves_out(agreed: &Agreed, key: &ObsKey, codes: &[Code]) -> bool
    ensures { result ≡ list_any (leaves_out agreed.now.spans key.now) codes.now }
{
    codes.iter().any(|code| leaves_out(agreed, key, *code))
}

/// Whether a code of an observation asks for its exclusion, and an agreed event covers it.
fn leaves_out(agreed: &Agreed, key: &ObsKey, code: Code) -> bool
    ensures { result ≡ leaves_out agreed.now.spans key.now code }
{
    let at = Start::of(&key.monitor.site, key.monitor.pollutant, code, key.hour);
    asks_exclusion(code) && agreed.covers(&at)
}

/// Whether a code is one from RA to RZ, by which an agency asks for an exclusion.
fn asks_exclusion(code: Code) -> bool
    ensures { result ≡ asks_exclusion code }
{
    code.first == b'R' && b'A' <= code.second && code.second <= b'Z'
}

/// Notes among the agreed events that a record of a key was put; `was` says whether its event was agreed
/// before. It takes no memory.
pub(crate) fn note_put(agreed: &mut Agreed, records: &Records, key: &OfficeKey, was: bool)
    requires room { 0 < agreed.old.room }
    requires noted { was ≡ false → is_noted (number_of key.now) agreed.old.spans ≡ false }
    ensures { agreed.new.spans ≡ spans_put records.now (number_of key.now) agreed.old.spans }
{
    if let Some(number) = number_of(key) {
        agreed.renew(number, was, span_at(records, number));
    }
}

/// Notes among the agreed events that the record of a key was dropped; `was` says whether its event was
/// agreed before. It takes no memory.
pub(crate) fn note_drop(agreed: &mut Agreed, key: &OfficeKey, was: bool)
    requires { was ≡ false → is_noted (number_of key.now) agreed.old.spans ≡ false }
    ensures { agreed.new.spans ≡ spans_dropped (number_of key.now) agreed.old.spans }
{
    if let Some(number) = number_of(key) {
        agreed.renew(number, was, None);
    }
}

/// The number of the event of which a key speaks.
fn number_of(key: &OfficeKey) -> Option<u32>
    ensures { result ≡ number_of key.now }
{
    match key {
        OfficeKey::Event { number } | OfficeKey::Concurrence { number } => Some(*number),
        _ => None,
    }
}

/// Whether a record's event is agreed and asks for an exclusion, by two searches of the map.
pub(crate) fn is_agreed(records: &Records, key: &OfficeKey) -> bool
    ensures { result ≡ is_agreed_in records.now (number_of key.now) }
{
    match number_of(key) {
        Some(number) => span_at(records, number).is_some(),
        None => false,
    }
}

/// The span of the event of a number, if it is agreed and asks for an exclusion.
fn span_at(records: &Records, number: u32) -> Option<Span>
    ensures { result ≡ span_at records.now number }
{
    let row = records.get(&OfficeKey::Event { number })?;
    agreed_span(records, &row)
}

/// The span of an event that is agreed and asks for an exclusion.
fn agreed_span(records: &Records, row: &OfficeRecord) -> Option<Span>
    ensures { result ≡ agreed_span records.now row.now }
{
    match row {
        OfficeRecord::Event {
            number,
            site,
            pollutant,
            first,
            last,
            code,
        } if asks_exclusion(*code) && records.agree_to(*number) => {
            Some(Span::new(*number, Start::of(site, *pollutant, *code, *first), *last))
        }
        _ => None,
    }
}
