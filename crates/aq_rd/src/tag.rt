//! The form of a line.
ghost use Rattle.std.specs.Prelude.{◌≡◌, true, false, IfOk, IfErr, OnOk, OnErr, Some, option_map};
ghost use Rattle.aq_rules.specs.Lines.Spellings.{tag_in};
ghost use Rattle.aq_rules.specs.Lines.Reading.{is_plain, reading_rule};
ghost use Rattle.aq_rules.specs.Lines.Reading as reading;
ghost use Rattle.aq_base.specs.declared.rule.Rule.TheVariants.{BadBytes};
ghost use Rattle.aq_rd.specs.Tags.{tag_value, tag_rule, has_office_tag};

use crate::bytes::is_plain;
use crate::fields::first_field;
use aq_base::Rule;

/// The form of a line, by its first field: RD for samples, and the agency's own for its office
/// (own).
#[derive(Clone, Copy, Debug, PartialEq, Eq)]
pub enum Tag {
    /// A sample.
    Rd,
    /// A monitor.
    Xm,
    /// The primary monitor of a site, from a day on.
    Xp,
    /// The sampling schedule of a site, from a day on.
    Xs,
    /// The ozone season of a site and year.
    Xo,
    /// A make-up day.
    Xu,
    /// An event.
    Xe,
    /// The agency's concurrence with an event.
    Xc,
    /// A day of approved ozone hours.
    Xa,
    /// A site that is combined with another one, from a day on.
    Xb,
}

/// The form of a line. `BadBytes` exactly if a byte is outside 20 to 7E (hexadecimal), else
/// `BadTag` exactly if the first field is no tag.
pub fn tag_of(line: &[u8]) -> Result<Tag, Rule>
    ensures ok { IfOk result (λ tag. reading.tag_of line.now ≡ Some (tag_value tag)) }
    ensures plain { OnOk result (is_plain line.now ≡ true) }
    ensures rule { IfErr result (λ r. r ≡ tag_rule line.now) }
    ensures no_office { OnErr result (has_office_tag line.now ≡ false) }
    ensures refused { IfErr result (λ r. reading_rule line.now ≡ Some r) }
{
    if !is_plain(line) {
        return Err(Rule::BadBytes);
    }
    tag_in(first_field(line)).ok_or(Rule::BadTag)
}

/// Whether a line has the tag of one of the agency's own forms, and no byte outside 20 to 7E
/// (hexadecimal): such a line is none for `read_rd`.
pub fn has_office_tag(line: &[u8]) -> bool
    ensures { result ≡ has_office_tag line.now }
{
    match tag_in(first_field(line)) {
        None | Some(Tag::Rd) => false,
        Some(_) => is_plain(line),
    }
}

/// The form that a first field names.
pub fn tag_in(text: &[u8]) -> Option<Tag>
    ensures { option_map tag_value result ≡ tag_in text.now }
{
    match text {
        b"RD" => Some(Tag::Rd),
        b"XM" => Some(Tag::Xm),
        b"XP" => Some(Tag::Xp),
        b"XS" => Some(Tag::Xs),
        b"XO" => Some(Tag::Xo),
        b"XU" => Some(Tag::Xu),
        b"XE" => Some(Tag::Xe),
        b"XC" => Some(Tag::Xc),
        b"XA" => Some(Tag::Xa),
        b"XB" => Some(Tag::Xb),
        _ => None,
    }
}
