//! The cells of a sheet.
use aq_base::{Bytes, Memory};
use std::alloc::Global;
use std::marker::Model;

/// A whole number; a value of so many places, in units of `10^-places`; a text; or no value.
#[derive(Debug, Drop)]
pub(crate) enum Content {
    Int(i64),
    Fixed(i64, u8),
    Text(Bytes),
    Missing,
}

/// A cell of a sheet, of which a value has at most six places. Contracts see the book's cell.
#[derive(Debug, Drop)]
pub struct SheetCell {
    pub(crate) content: Content,
}

impl Model for SheetCell {
    ghost use Rattle.aq_rules.specs.Shown.Sheet as sheets;

    ghost Value = { sheets.SheetCell };

    ghost use Rattle.aq_sheets.specs.CellView.{HasFewPlaces, cell_of};

    ghost view = { λ cell. cell_of cell.content };

    ghost invariant = { λ cell. HasFewPlaces cell.content };
}

impl SheetCell {
    ghost use Rattle.std.specs.Prelude.{◌≡◌, ◌≤◌, IfOk, IsTrue};
    ghost use Rattle.aq_rules.specs.Shown.Sheet as sheets;
    ghost use Rattle.aq_rules.specs.Shown.WellFormed.{is_cell};

    /// A whole number.
    pub fn int(value: i64) -> SheetCell
        ensures { result ≡ sheets.SheetCell.Int value }
    {
        SheetCell {
            content: Content::Int(value),
        }
    }

    /// A number of things.
    pub fn count(number: u32) -> SheetCell
        ensures { result ≡ sheets.count_cell number }
    {
        SheetCell::int(i64::from(number))
    }

    /// The value `value / 10^places`.
    pub fn fixed(value: i64, places: u8) -> SheetCell
        requires { places ≤ 6 }
        ensures { result ≡ sheets.SheetCell.Fixed value places }
    {
        SheetCell {
            content: Content::Fixed(value, places),
        }
    }

    /// A value in units of `10^-places`, if there is one.
    fn optional(value: Option<i32>, places: u8) -> SheetCell
        requires { places ≤ 6 }
        ensures value { result ≡ sheets.fixed_cell places value }
        ensures cell { IsTrue (is_cell result) }
    {
        match value {
            Some(value) => SheetCell::fixed(i64::from(value), places),
            None => SheetCell::missing(),
        }
    }

    /// Thousandths of a ppm as ppm, if there are any.
    pub fn ppm(value: Option<i32>) -> SheetCell
        ensures value { result ≡ sheets.ppm_cell value }
        ensures cell { IsTrue (is_cell result) }
    {
        SheetCell::optional(value, 3)
    }

    /// Tenths as whole ones, if there are any.
    pub fn tenths(value: Option<i32>) -> SheetCell
        ensures value { result ≡ sheets.tenths_cell value }
        ensures cell { IsTrue (is_cell result) }
    {
        SheetCell::optional(value, 1)
    }

    /// Hundredths as whole ones, if there are any.
    pub fn hundredths(value: Option<i32>) -> SheetCell
        ensures value { result ≡ sheets.fixed_cell 2 value }
        ensures cell { IsTrue (is_cell result) }
    {
        SheetCell::optional(value, 2)
    }

    /// A whole number, if there is one.
    pub fn whole(value: Option<i32>) -> SheetCell
        ensures value { result ≡ sheets.whole_cell value }
        ensures cell { IsTrue (is_cell result) }
    {
        match value {
            Some(value) => SheetCell::int(i64::from(value)),
            None => SheetCell::missing(),
        }
    }

    /// `Y` or `N`.
    pub fn truth(alloc: Global, truth: bool) -> Result<SheetCell, Memory>
        ensures { IfOk result (λ cell. cell ≡ sheets.SheetCell.Text (sheets.truth_text truth)) }
    {
        SheetCell::text(alloc, if truth { b"Y" } else { b"N" })
    }

    /// A text.
    pub fn text(alloc: Global, text: &[u8]) -> Result<SheetCell, Memory>
        ensures { IfOk result (λ cell. cell ≡ sheets.SheetCell.Text text.now) }
    {
        let text = Bytes::from_vec(text.to_vec(alloc)?);
        Ok(SheetCell {
            content: Content::Text(text),
        })
    }

    /// No value.
    pub fn missing() -> SheetCell
        ensures { result ≡ sheets.SheetCell.Missing }
    {
        SheetCell {
            content: Content::Missing,
        }
    }
}
