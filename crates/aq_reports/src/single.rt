//! The sheets without columns: of a conflict, an error and a summary.
ghost use Rattle.std.specs.Prelude.{◌≡◌, ◌<◌, [], ◌∷◌, ◌++◌, IfOk, OnOk, IsTrue, bytes_eq};
ghost use Rattle.std.specs.List.{list_any};
ghost use Rattle.aq_rules.specs.Shown.OtherSheets as other_sheets;
ghost use Rattle.aq_rules.specs.Shown.Sheet.{head_of};
ghost use Rattle.aq_rules.specs.Shown.Sheet.SheetCell.{Text};

use aq_base::Memory;
use aq_sheets::{Heads, Names, Rows, Sheet, add_count, add_text};
use std::alloc::Global;

/// The sheet of a load whose number is kept with another digest: the number, the digest that is kept
/// and the one that was sent.
#[tactic(auto, unfolding(aq_rules::specs::Shown::OtherSheets::conflict_sheet))]
pub fn conflict_sheet(
    alloc: Global,
    number: u32,
    kept: &[u8; 32],
    sent: &[u8; 32],
) -> Result<Sheet, Memory>
    ensures { IfOk result (λ sheet. sheet ≡ other_sheets.conflict_sheet number kept.now sent.now) }
{
    let mut heads = Heads::new(alloc);
    add_count(alloc, &mut heads, b"load", number)?;
    add_digest(alloc, &mut heads, b"kept", kept)?;
    add_digest(alloc, &mut heads, b"sent", sent)?;
    Ok(without_table(alloc, heads))
}

/// The sheet of an error, by its name.
#[tactic(auto, unfolding(aq_rules::specs::Shown::OtherSheets::error_sheet))]
pub fn error_sheet(alloc: Global, name: &'static str) -> Result<Sheet, Memory>
    requires { IsTrue (list_any (bytes_eq name.now) other_sheets.error_names) }
    ensures { IfOk result (λ sheet. sheet ≡ other_sheets.error_sheet name.now) }
{
    let mut heads = Heads::new(alloc);
    add_text(alloc, &mut heads, b"error", name.as_bytes())?;
    Ok(without_table(alloc, heads))
}

/// The sheet of a simulation: how many loads were taken, how many lines they had, and how many
/// observations stand.
#[tactic(auto, unfolding(aq_rules::specs::Shown::OtherSheets::summary_sheet))]
pub fn summary_sheet(
    alloc: Global,
    loads: u32,
    lines: u32,
    observations: u32,
) -> Result<Sheet, Memory>
    ensures { IfOk result (λ sheet. sheet ≡ other_sheets.summary_sheet loads lines observations) }
{
    let mut heads = Heads::new(alloc);
    add_count(alloc, &mut heads, b"loads", loads)?;
    add_count(alloc, &mut heads, b"lines", lines)?;
    add_count(alloc, &mut heads, b"observations", observations)?;
    Ok(without_table(alloc, heads))
}

/// The sheet of these heads alone.
fn without_table(alloc: Global, heads: Heads) -> Sheet
    ensures { result ≡ record { heads = heads; columns = []; rows = [] } }
{
    Sheet::new(heads, Names::new(alloc), Rows::new(alloc))
}

/// One head more, with a digest in hexadecimal digits.
fn add_digest(
    alloc: Global,
    heads: &mut Heads,
    name: &[u8],
    digest: &[u8; 32],
) -> Result<(), Memory>
    ensures { OnOk result (heads.new ≡ heads.old ++ head_of name.now (Text (other_sheets.digest_text digest.now)) ∷ []) }
{
    let text = digest_text(alloc, digest)?;
    add_text(alloc, heads, name, text.as_slice())
}

/// A digest as 64 lower case hexadecimal digits.
pub fn digest_text(alloc: Global, digest: &[u8; 32]) -> Result<Vec<u8>, Memory>
    ensures { IfOk result (λ text. text.items ≡ other_sheets.digest_text digest.now) }
{
    let mut text = Vec::new(alloc);
    for byte in digest {
        text.extend_from_slice(&hex_digits(*byte))?;
    }
    Ok(text)
}

/// A byte as two lower case hexadecimal digits.
pub fn hex_digits(byte: u8) -> [u8; 2]
    ensures { result ≡ other_sheets.digest_text (byte ∷ []) }
{
    [hex_digit(byte / 16), hex_digit(byte % 16)]
}

/// A lower case hexadecimal digit.
fn hex_digit(number: u8) -> u8
    requires { number < 16 }
    ensures { result ≡ other_sheets.hex_digit number }
{
    if number < 10 {
        b'0' + number
    } else {
        b'a' + (number - 10)
    }
}
