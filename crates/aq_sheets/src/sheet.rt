//! Sheets as values.
use crate::cell::SheetCell;
use aq_base::{Bytes, Items, Memory};
use std::alloc::Global;
use std::marker::Model;

/// A name and its value. Contracts see the book's head.
#[derive(Debug, Drop)]
pub struct Head {
    pub(crate) name: Bytes,
    pub(crate) cell: SheetCell,
}

impl Model for Head {
    ghost use Rattle.aq_rules.specs.Shown.Sheet as sheets;

    ghost Value = { sheets.Head };

    ghost view = { λ head. record { name = head.name; cell = head.cell } };
}

impl Head {
    ghost use Rattle.std.specs.Prelude.{◌≡◌, IfOk};
    ghost use Rattle.aq_rules.specs.Shown.Sheet as sheets;

    /// The head of this name and value.
    pub fn new(alloc: Global, name: &[u8], cell: SheetCell) -> Result<Head, Memory>
        ensures { IfOk result (λ head. head ≡ sheets.head_of name.now cell) }
    {
        let name = Bytes::from_vec(name.to_vec(alloc)?);
        Ok(Head { name, cell })
    }

    /// Its name.
    pub fn name(&self) -> &[u8]
        ensures { result.now ≡ self.now.name }
    {
        self.name.as_slice()
    }

    /// Its value.
    pub fn cell(&self) -> &SheetCell
        ensures { result.now ≡ self.now.cell }
    {
        &self.cell
    }
}

/// The heads of a sheet, in order.
pub type Heads = Items<Head>;

/// The names of its columns.
pub type Names = Items<Bytes>;

/// The cells of a row, one for each column.
pub type Cells = Items<SheetCell>;

/// The rows of a sheet, in order.
pub type Rows = Items<Cells>;

/// A sheet: heads, and a table of rows below its column names. Contracts see the book's sheet.
#[derive(Debug, Drop)]
pub struct Sheet {
    pub(crate) heads: Heads,
    pub(crate) columns: Names,
    pub(crate) rows: Rows,
}

impl Model for Sheet {
    ghost use Rattle.aq_rules.specs.Shown.Sheet as sheets;

    ghost Value = { sheets.Sheet };

    ghost view = { λ sheet. record { heads = sheet.heads; columns = sheet.columns; rows = sheet.rows } };
}

impl Sheet {
    ghost use Rattle.std.specs.Prelude.{◌≡◌};

    /// The sheet of these heads, column names and rows.
    pub fn new(heads: Heads, columns: Names, rows: Rows) -> Sheet
        ensures { result ≡ record { heads = heads; columns = columns; rows = rows } }
    {
        Sheet {
            heads,
            columns,
            rows,
        }
    }

    /// Its heads, in order.
    pub fn heads(&self) -> &[Head]
        ensures { result.now ≡ self.now.heads }
    {
        self.heads.as_slice()
    }

    /// The names of its columns, in order.
    pub fn columns(&self) -> &[Bytes]
        ensures { result.now ≡ self.now.columns }
    {
        self.columns.as_slice()
    }

    /// Its rows, in order.
    pub fn rows(&self) -> &[Cells]
        ensures { result.now ≡ self.now.rows }
    {
        self.rows.as_slice()
    }
}
