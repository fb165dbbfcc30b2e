//! The words of cells, in HTML.
ghost use Rattle.std.specs.Prelude.{◌≡◌, ◌++◌, OnOk};
ghost use Rattle.aq_pages.specs.Html.{escaped};
ghost use Rattle.aq_rules.specs.Shown.Sheet.{cell_text};

use aq_base::Memory;
use aq_pages::{are_plain, write_escaped};
use aq_sheets::{SheetCell, write_cell as write_cell_text};

/// Appends the text of a cell, escaped. It is written where it is to stand. Only if one of its bytes would mean
/// something, it is taken back, and escaped from `room`.
pub(crate) fn write_word(
    out: &mut Vec<u8>,
    room: &mut Vec<u8>,
    cell: &SheetCell,
) -> Result<(), Memory>
    ensures { OnOk result (out.new.items ≡ out.old.items ++ escaped (cell_text cell.now)) }
{
    let start = out.len();
    write_cell_text(out, cell)?;
    if are_plain(&out[start..]) {
        return Ok(());
    }
    out.truncate(start);
    write_by_name(out, room, cell)
}

/// The same where some bytes are written by name.
#[inline(never)]
fn write_by_name(out: &mut Vec<u8>, room: &mut Vec<u8>, cell: &SheetCell) -> Result<(), Memory>
    ensures { OnOk result (out.new.items ≡ out.old.items ++ escaped (cell_text cell.now)) }
{
    room.clear();
    write_cell_text(room, cell)?;
    write_escaped(out, room)
}
