//! The fields of a line.
ghost use Rattle.std.specs.Prelude.{◌≡◌, not, ◌&&◌};
ghost use Rattle.std.specs.List.{list_any};
ghost use Rattle.aq_rules.specs.Lines.Fields.{fields, field, trimmed, without_front, without_back, is_bar, is_space};
ghost use Rattle.aq_rd.specs.FieldPlaces.{HoldsFields};

use crate::bytes::has_spaces;
use aq_base::Rule;
use std::marker::Model;

/// A line's fields are told by their numbers up to this one: no form has more (AQS raw data
/// transaction format).
pub const MOST_FIELDS: usize = 28;

const MOST_STARTS: usize = MOST_FIELDS + 1;

/// The fields of a line, without the spaces round each. Contracts see their list. It takes no
/// memory.
#[derive(Drop)]
pub struct Fields<'a> {
    line: &'a [u8],
    // Where the first fields start, and the one after them. One that the line has not starts at its
    // end.
    starts: [usize; MOST_STARTS],
    count: usize,
    has_spaces: bool,
}

impl<'a> Model for Fields<'a> {
    ghost use Rattle.std.specs.Prelude.{List, ℕ};
    ghost use Rattle.aq_rules.specs.Lines.Fields.{fields};
    ghost use Rattle.aq_rd.specs.FieldPlaces.{HoldsFields, HasSpaces};

    ghost Value = { List (List ℕ) };

    ghost view = { λ list. fields list.line.now };

    ghost invariant = { λ list. HoldsFields list.line.now list.starts list.count × HasSpaces list.has_spaces list.line.now };
}

impl<'a> Fields<'a> {
    ghost use Rattle.std.specs.Prelude.{◌≡◌, ◌≤◌, [], true, false, IfOk, IfErr, OnOk, OnErr, length, drop};
    ghost use Rattle.aq_base.specs.declared.rule.Rule.TheVariants.{BadBytes};
    ghost use Rattle.aq_rules.specs.Lines.Fields.{fields, field};
    ghost use Rattle.aq_rules.specs.Lines.Reading.{is_plain};
    ghost use Rattle.aq_rd.specs.FieldPlaces.{has_text, HasSpaces};

    /// The fields of a line. `BadBytes` exactly if a byte is outside 20 to 7E (hexadecimal).
    pub fn new(line: &'a [u8]) -> Result<Fields<'a>, Rule>
        ensures fields { IfOk result (λ texts. texts ≡ fields line.now) }
        ensures plain { OnOk result (is_plain line.now ≡ true) }
        ensures rule { IfErr result (λ r. r ≡ BadBytes) }
        ensures bytes { OnErr result (is_plain line.now ≡ false) }
    {
        let has_spaces = has_spaces(line)?;
        let mut texts = Fields::of_empty_line();
        texts.cut(line, has_spaces);
        Ok(texts)
    }

    /// The fields of an empty line. Another line is cut in their place, since to hand its fields back
    /// copies where each of them starts.
    pub(crate) fn of_empty_line() -> Fields<'a>
        ensures { result ≡ fields [] }
    {
        Fields {
            line: &[],
            starts: [0; MOST_STARTS],
            count: 1,
            has_spaces: false,
        }
    }

    /// Cuts a line, of which it is known whether it may have spaces, in place of the line before.
    pub(crate) fn cut(&mut self, line: &'a [u8], has_spaces: bool)
        requires { HasSpaces has_spaces line.now }
        ensures { self.new ≡ fields line.now }
    {
        self.line = line;
        self.count = cut_at_bars(line, &mut self.starts);
        self.has_spaces = has_spaces;
    }

    /// How many fields the line has.
    pub fn count(&self) -> usize
        ensures { result ≡ length self.now }
    {
        self.count
    }

    /// Whether a field after the first so many is not empty.
    pub fn has_text_behind(&self, number: usize) -> bool
        requires { number ≤ MOST_FIELDS }
        ensures { result ≡ has_text (drop number self.now) }
    {
        self.count > number && has_other_byte(&self.line[self.starts[number]..])
    }

    /// A field by its number from 1, empty if the line has none.
    pub fn field(&self, number: usize) -> &'a [u8]
        requires from { 1 ≤ number }
        requires to { number ≤ MOST_FIELDS }
        ensures { result.now ≡ field number self.now }
    {
        let end = if number < self.count {
            self.starts[number] - 1
        } else {
            self.line.len()
        };
        let text = &self.line[self.starts[number - 1]..end];
        if self.has_spaces { trim(text) } else { text }
    }
}

// Writes where the first fields of a line start, and answers how many fields it has.
fn cut_at_bars(line: &[u8], starts: &mut [usize; MOST_STARTS]) -> usize
    ensures { HoldsFields line.now starts.new result }
{
    *starts = [line.len(); MOST_STARTS];
    starts[0] = 0;
    let mut count = 1;
    for (place, &byte) in line.iter().enumerate() {
        if byte == b'|' {
            if count < MOST_STARTS {
                starts[count] = place + 1;
            }
            count += 1;
        }
    }
    count
}

// Whether a byte is neither a bar nor a space.
fn has_other_byte(text: &[u8]) -> bool
    ensures { result ≡ list_any (λ byte. not (is_bar byte) && not (is_space byte)) text.now }
{
    text.iter().any(|byte| *byte != b'|' && *byte != b' ')
}

/// The field with which a text begins.
pub(crate) fn first_field(text: &[u8]) -> &[u8]
    ensures { result.now ≡ field 1 (fields text.now) }
{
    for (place, &byte) in text.iter().enumerate() {
        if byte == b'|' {
            return trim(&text[..place]);
        }
    }
    trim(text)
}

// A text without the spaces round it.
fn trim(text: &[u8]) -> &[u8]
    ensures { result.now ≡ trimmed text.now }
{
    trim_back(trim_front(text))
}

fn trim_front(text: &[u8]) -> &[u8]
    ensures { result.now ≡ without_front text.now }
{
    let mut rest = text;
    while let [b' ', behind @ ..] = rest {
        rest = behind;
    }
    rest
}

fn trim_back(text: &[u8]) -> &[u8]
    ensures { result.now ≡ without_back text.now }
{
    let mut end = text.len();
    while end > 0 && text[end - 1] == b' ' {
        end -= 1;
    }
    &text[..end]
}
