//! Rows of a table that have a number each.
ghost use Rattle.std.specs.Prelude.{◌≡◌, ◌+◌, ◌<◌, ◌^◌, ℕ, List, IfOk, IsTrue, length, map};
ghost use Rattle.std.specs.List.{enumerate_from};
ghost use Rattle.aq_rules.specs.Shown.Sheet.{SheetCell};
ghost use Rattle.aq_reports.specs.Formed.{are_rows, is_row_of};

use aq_base::Memory;
use aq_sheets::{Cells, Rows};
use std::alloc::Global;

/// What a table shows in a row of its own, beside a number.
pub(crate) trait NumberedRow {
    /// The cells of the row, by its number.
    ghost shown: { ℕ × Self → List SheetCell };

    /// How many they are.
    ghost width: { ℕ };

    fn cells(&self, alloc: Global, number: u32) -> Result<Cells, Memory>
        ensures value { IfOk result (λ cells. cells ≡ shown (number, self.now)) }
        ensures row { IfOk result (λ cells. IsTrue (is_row_of width cells)) };
}

/// A row for each item, numbered from the first on.
pub(crate) fn numbered_rows<T: NumberedRow>(
    alloc: Global,
    first: u32,
    items: &[T],
) -> Result<Rows, Memory>
    requires { first + length items.now < 2 ^ 32 }
    ensures value { IfOk result (λ rows. rows ≡ map T.shown (enumerate_from first items.now)) }
    ensures rows { IfOk result (λ rows. IsTrue (are_rows T.width rows)) }
{
    let mut rows = Rows::new(alloc);
    let mut number = first;
    for item in items {
        rows.push(item.cells(alloc, number)?)?;
        number += 1;
    }
    Ok(rows)
}
