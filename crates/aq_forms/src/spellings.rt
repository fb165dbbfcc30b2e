//! The spellings that office lines alone have (own).
ghost use Rattle.std.specs.Prelude.{◌≡◌, option_map};
ghost use Rattle.aq_rules.specs.Lines.Forms.{acts};
ghost use Rattle.aq_rules.specs.Lines.Spellings.{has_parameter, parameter_of, primary_in, interval_in, event_number_in, event_code_in, is_event_code};
ghost use Rattle.aq_rules.specs.Lines.Spellings as spellings;
ghost use Rattle.aq_rules.specs.Lines.Reading.{action_for};
ghost use Rattle.aq_rd.specs.Tags.{tag_value};
ghost use Rattle.aq_forms.specs.Actions.{action_value};

use aq_base::{Code, LAST_EVENT_NUMBER, Pollutant};
use aq_rd::{Tag, digits_in, null_in, number_to, parameter_in, poc_in};

/// What a line asks for.
#[derive(Clone, Copy, Debug, PartialEq, Eq)]
pub(crate) enum Action {
    /// A new record.
    Insert,
    /// A changed one.
    Update,
    /// One dropped.
    Delete,
}

/// The action that a text spells, if it is one of the form.
pub(crate) fn action_for(tag: Tag, text: &[u8]) -> Option<Action>
    ensures { option_map action_value result ≡ action_for (tag_value tag) text.now }
{
    match text {
        b"I" if inserts(tag) => Some(Action::Insert),
        b"U" if updates(tag) => Some(Action::Update),
        b"D" if deletes(tag) => Some(Action::Delete),
        _ => None,
    }
}

fn inserts(tag: Tag) -> bool
    ensures { result ≡ acts (tag_value tag) spellings.Insert }
{
    tag != Tag::Xc
}

fn updates(tag: Tag) -> bool
    ensures { result ≡ acts (tag_value tag) spellings.Update }
{
    matches!(tag, Tag::Rd | Tag::Xm | Tag::Xc)
}

fn deletes(tag: Tag) -> bool
    ensures { result ≡ acts (tag_value tag) spellings.Delete }
{
    !matches!(tag, Tag::Xm | Tag::Xc)
}

/// The pollutant of a parameter, if it is one of the form's: schedules are for particles,
/// make-up samples for PM2.5, and combined sites for ozone and PM2.5.
#[tactic(auto, unfolding(aq_rules::specs::Lines::Spellings::parameter_of))]
pub(crate) fn parameter_of(tag: Tag, text: &[u8]) -> Option<Pollutant>
    ensures { result ≡ parameter_of (tag_value tag) text.now }
{
    let pollutant = parameter_in(text)?;
    if has_parameter(tag, pollutant) {
        Some(pollutant)
    } else {
        None
    }
}

fn has_parameter(tag: Tag, pollutant: Pollutant) -> bool
    ensures { result ≡ has_parameter (tag_value tag) pollutant }
{
    match tag {
        Tag::Xs => pollutant != Pollutant::Ozone,
        Tag::Xu => pollutant == Pollutant::Pm25,
        Tag::Xb => pollutant != Pollutant::Pm10,
        _ => true,
    }
}

/// The POC of a designation: 1 to 99, or `0` alone for no monitor.
pub(crate) fn primary_in(text: &[u8]) -> Option<u8>
    ensures { result ≡ primary_in text.now }
{
    if text == b"0".as_slice() {
        Some(0)
    } else {
        poc_in(text)
    }
}

/// A sampling interval: 1, 2, 3 or 6 days.
#[tactic(auto, unfolding(aq_rules::specs::Lines::Spellings::interval_in))]
pub(crate) fn interval_in(text: &[u8]) -> Option<u8>
    ensures { result ≡ interval_in text.now }
{
    let days = digits_in(1, text)?;
    if days == 1 || days == 2 || days == 3 || days == 6 {
        Some(days as u8)
    } else {
        None
    }
}

/// An event's number: 1 to 999,999, without leading zeros.
#[tactic(auto, unfolding(aq_rules::specs::Lines::Spellings::event_number_in))]
pub(crate) fn event_number_in(text: &[u8]) -> Option<u32>
    ensures { result ≡ event_number_in text.now }
{
    let number = number_to(u64::from(LAST_EVENT_NUMBER), text)?;
    Some(number as u32)
}

/// The qualifier code of an event: RA to RZ.
#[tactic(auto, unfolding(aq_rules::specs::Lines::Spellings::event_code_in))]
pub(crate) fn event_code_in(text: &[u8]) -> Option<Code>
    ensures { result ≡ event_code_in text.now }
{
    let code = null_in(text)?;
    if is_event_code(&code) {
        Some(code)
    } else {
        None
    }
}

fn is_event_code(code: &Code) -> bool
    ensures { result ≡ is_event_code code.now }
{
    code.first == b'R' && code.second.is_ascii_uppercase()
}
