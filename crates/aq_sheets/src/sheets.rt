//! Several sheets as one text: one after the other, or as JSON. One sheet is one object, and several are
//! an array of theirs.
ghost use Rattle.std.specs.Prelude.{◌≡◌, All, IfOk, map};
ghost use Rattle.aq_rules.specs.Questions.Answer.{json_of_sheets, texts_of};
ghost use Rattle.aq_rules.specs.Shown.Json as json;
ghost use Rattle.aq_rules.specs.Shown.WellFormed.{IsWellFormed};

use crate::json_text::json_of;
use crate::sheet::Sheet;
use crate::text::write_sheet;
use aq_base::Memory;
use std::alloc::Global;

/// The texts of sheets, one after the other.
pub fn texts_of(alloc: Global, sheets: &[Sheet]) -> Result<Vec<u8>, Memory>
    ensures { IfOk result (λ text. text.items ≡ texts_of sheets.now) }
{
    let mut out = Vec::new(alloc);
    for sheet in sheets {
        write_sheet(&mut out, sheet)?;
    }
    Ok(out)
}

/// The JSON text of well-formed sheets.
pub fn json_of_sheets(alloc: Global, sheets: &[Sheet]) -> Result<Vec<u8>, Memory>
    requires { All IsWellFormed sheets.now }
    ensures { IfOk result (λ text. text.items ≡ json_of_sheets sheets.now) }
{
    match sheets {
        [sheet] => json_of(alloc, sheet),
        _ => json_list(alloc, sheets),
    }
}

/// An array with the object of each.
fn json_list(alloc: Global, sheets: &[Sheet]) -> Result<Vec<u8>, Memory>
    requires { All IsWellFormed sheets.now }
    ensures { IfOk result (λ text. text.items ≡ json.json_list (map json.json_of sheets.now)) }
{
    let mut out = Vec::new(alloc);
    out.push(b'[')?;
    let mut comma: &[u8] = b"";
    for sheet in sheets {
        out.extend_from_slice(comma)?;
        out.extend_from_slice(json_of(alloc, sheet)?.as_slice())?;
        comma = b",";
    }
    out.push(b']')?;
    Ok(out)
}
