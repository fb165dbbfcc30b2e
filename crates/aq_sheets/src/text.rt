//! Sheets as text: a line for each head, and if there are columns a line of their names and one for
//! each row.
ghost use Rattle.std.specs.Fmt.{signed_decimal};
ghost use Rattle.std.specs.Prelude.{◌≡◌, ◌++◌, IfOk, OnOk, flat_map};
ghost use Rattle.aq_base.specs.Text.{site_text};
ghost use Rattle.aq_rules.specs.Shown.Sheet as sheets;

use crate::cell::{Content, SheetCell};
use crate::sheet::{Cells, Head, Sheet};
use aq_base::{Bytes, Memory, SiteId};
use aq_cal::last_digits;
use aq_num::write_fixed;
use itoa::Buffer;
use std::alloc::Global;

/// The text of a sheet.
pub fn text_of(alloc: Global, sheet: &Sheet) -> Result<Vec<u8>, Memory>
    ensures { IfOk result (λ text. text.items ≡ sheets.text_of sheet.now) }
{
    let mut out = Vec::new(alloc);
    write_sheet(&mut out, sheet)?;
    Ok(out)
}

/// The text of a sheet, behind what is there.
#[tactic(auto, unfolding(aq_rules::specs::Shown::Sheet::text_of))]
pub(crate) fn write_sheet(out: &mut Vec<u8>, sheet: &Sheet) -> Result<(), Memory>
    ensures { OnOk result (out.new.items ≡ out.old.items ++ sheets.text_of sheet.now) }
{
    write_heads(out, sheet.heads.as_slice())?;
    write_table(out, sheet.columns.as_slice(), sheet.rows.as_slice())
}

/// A line for each head.
fn write_heads(out: &mut Vec<u8>, heads: &[Head]) -> Result<(), Memory>
    ensures { OnOk result (out.new.items ≡ out.old.items ++ flat_map sheets.head_text heads.now) }
{
    for head in heads {
        out.extend_from_slice(head.name.as_slice())?;
        out.push(b' ')?;
        write_cell(out, &head.cell)?;
        out.push(b'\n')?;
    }
    Ok(())
}

/// The column names and the rows, if there are columns.
fn write_table(out: &mut Vec<u8>, columns: &[Bytes], rows: &[Cells]) -> Result<(), Memory>
    ensures { OnOk result (out.new.items ≡ out.old.items ++ sheets.table_text columns.now rows.now) }
{
    if !columns.is_empty() {
        write_names(out, columns)?;
        for row in rows {
            write_row(out, row.as_slice())?;
        }
    }
    Ok(())
}

/// A line of names.
fn write_names(out: &mut Vec<u8>, names: &[Bytes]) -> Result<(), Memory>
    ensures { OnOk result (out.new.items ≡ out.old.items ++ sheets.line_of names.now) }
{
    let mut space: &[u8] = b"";
    for name in names {
        out.extend_from_slice(space)?;
        out.extend_from_slice(name.as_slice())?;
        space = b" ";
    }
    out.push(b'\n')?;
    Ok(())
}

/// A line of cells.
fn write_row(out: &mut Vec<u8>, cells: &[SheetCell]) -> Result<(), Memory>
    ensures { OnOk result (out.new.items ≡ out.old.items ++ sheets.row_text cells.now) }
{
    let mut space: &[u8] = b"";
    for cell in cells {
        out.extend_from_slice(space)?;
        write_cell(out, cell)?;
        space = b" ";
    }
    out.push(b'\n')?;
    Ok(())
}

/// The text of a cell, behind what is there.
pub fn write_cell(out: &mut Vec<u8>, cell: &SheetCell) -> Result<(), Memory>
    ensures { OnOk result (out.new.items ≡ out.old.items ++ sheets.cell_text cell.now) }
{
    match &cell.content {
        Content::Int(value) => write_whole(out, *value)?,
        Content::Fixed(value, places) => write_fixed(out, *value, *places)?,
        Content::Text(text) => out.extend_from_slice(text.as_slice())?,
        Content::Missing => out.push(b'-')?,
    }
    Ok(())
}

/// A whole number, behind what is there.
fn write_whole(out: &mut Vec<u8>, value: i64) -> Result<(), Memory>
    ensures { OnOk result (out.new.items ≡ out.old.items ++ signed_decimal value) }
{
    let mut digits = Buffer::new();
    out.extend_from_slice(digits.format(value).as_bytes())?;
    Ok(())
}

/// A site, `SS-CCC-NNNN`.
pub fn site_text(site: SiteId) -> [u8; 11]
    ensures { result ≡ site_text site }
{
    let [s1, s2] = last_digits::<2>(u16::from(site.state()));
    let [c1, c2, c3] = last_digits::<3>(site.county());
    let [n1, n2, n3, n4] = last_digits::<4>(site.site());
    [s1, s2, b'-', c1, c2, c3, b'-', n1, n2, n3, n4]
}
