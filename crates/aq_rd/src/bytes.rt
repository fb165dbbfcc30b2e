//! The bytes of a line.
ghost use Rattle.std.specs.Prelude.{◌≡◌, true, false, IfOk, IfErr, OnOk, OnErr};
ghost use Rattle.aq_rules.specs.Lines.Reading.{is_plain};
ghost use Rattle.aq_base.specs.declared.rule.Rule.TheVariants.{BadBytes};
ghost use Rattle.aq_rd.specs.FieldPlaces.{HasSpaces, are_between};

use aq_base::Rule;

/// Whether a line may have spaces. `BadBytes` exactly if a byte is outside 20 to 7E
/// (hexadecimal).
pub(crate) fn has_spaces(line: &[u8]) -> Result<bool, Rule>
    ensures spaces { IfOk result (λ has_spaces. HasSpaces has_spaces line.now) }
    ensures plain { OnOk result (is_plain line.now ≡ true) }
    ensures rule { IfErr result (λ r. r ≡ BadBytes) }
    ensures bytes { OnErr result (is_plain line.now ≡ false) }
{
    if is_dense(line) {
        Ok(false)
    } else if is_plain(line) {
        Ok(true)
    } else {
        Err(Rule::BadBytes)
    }
}

/// Whether a line is of printed ASCII and spaces.
pub(crate) fn is_plain(line: &[u8]) -> bool
    ensures { result ≡ is_plain line.now }
{
    are_between(0x20, line)
}

/// Whether a line is of printed ASCII without spaces.
pub(crate) fn is_dense(line: &[u8]) -> bool
    ensures { result ≡ are_between 0x21 line.now }
{
    are_between(0x21, line)
}

// Whether all bytes are from one to 7E. All are tested in any case, so that many are tested at once.
fn are_between(least: u8, line: &[u8]) -> bool
    ensures { result ≡ are_between least line.now }
{
    let mut are_between = true;
    for byte in line {
        are_between &= least <= *byte && *byte <= 0x7E;
    }
    are_between
}
