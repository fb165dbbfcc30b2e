//! Codes as cells of a sheet.
ghost use Rattle.std.specs.Prelude.{◌≡◌, IfOk};
ghost use Rattle.aq_rules.specs.Lines.Canonical as canonical;
ghost use Rattle.aq_rules.specs.Shown.Sheet.SheetCell.{Text};

use aq_base::{Code, Memory};
use aq_rd::write_code;
use aq_sheets::SheetCell;
use std::alloc::Global;

/// A code as it is written.
pub(crate) fn code_cell(alloc: Global, code: Code) -> Result<SheetCell, Memory>
    ensures { IfOk result (λ cell. cell ≡ Text (canonical.code_text code)) }
{
    let mut text = Vec::new(alloc);
    write_code(&mut text, &code)?;
    SheetCell::text(alloc, text.as_slice())
}
