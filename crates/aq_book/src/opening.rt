//! The book of an office's rows, and the rows of a book.
ghost use Rattle.std.specs.Prelude.{◌≡◌, ◌<◌, Some, IfErr, IfOk};
ghost use Rattle.aq_rules.specs.Kept.Rows as kept;
ghost use Rattle.aq_rows.specs.Opening.{IsOpenFault};
ghost use Rattle.aq_series.specs.OfficeView.{office_of};
ghost use Rattle.aq_ozone_cells.specs.FilledDays as ozone_cells;
ghost use Rattle.aq_particle_cells.specs.Pm10.Pm10Levels as pm10_cells;
ghost use Rattle.aq_particle_cells.specs.Pm25.Pm25Levels as pm25_cells;

use crate::book::Book;
use aq_base::{Memory, Steps};
use aq_cells::{Cells, filled};
use aq_keeper::{Row, Rows};
use aq_registry::Registry;
use aq_rows::{OpenFault, Opened, open};
use aq_shelf::Shelf;
use std::alloc::Global;
use std::marker::Brand;
use std::sync::ledger::{Blank, Ledger};

/// The book of the office whose rows these are. If they are no office's, the first damaged row is named
/// by its table and its place among that table's rows: the rows before it are an office's.
pub fn book_of(alloc: Global, rows: &[Row]) -> Result<Book, OpenFault>
    ensures book { IfOk result (λ opened. kept.office_of_rows rows.now ≡ Some opened) }
    ensures damaged { IfErr result (IsOpenFault rows.now) }
{
    let opened = open(alloc, rows)?;
    Ok(Book::over(alloc, opened)?)
}

impl Book {
    /// The book of an office that was opened from its rows, with its cells filled: four walks over its
    /// observations and one over its records. The rows may be gone by then, so that they and the cells need
    /// no memory at once.
    pub fn over(alloc: Global, opened: Opened) -> Result<Book, Memory>
        ensures { IfOk result (λ book. book ≡ opened) }
    {
        let cells = cells_of::<Brand>(alloc, &opened.shelf, &opened.registry, Blank::new(1))?;
        Ok(Book {
            registry: opened.registry,
            shelf: opened.shelf,
            loads: opened.loads,
            cells,
            alloc,
        })
    }
}

/// The cells of an office, filled on a counter of their own, which nobody reads.
fn cells_of<L: Ledger>(
    alloc: Global,
    shelf: &Shelf,
    registry: &Registry,
    blank: Blank,
) -> Result<Cells, Memory>
    requires name { blank.name ≡ L.name }
    requires parts { blank.parts ≡ L.parts }
    requires some { 0 < L.parts }
    ensures ozone { IfOk result
        (λ cells. ozone_cells.AreKept (office_of registry.now shelf.now) cells.ozone) }
    ensures pm25 { IfOk result
        (λ cells. pm25_cells.AreKept (office_of registry.now shelf.now) cells.pm25) }
    ensures pm10 { IfOk result
        (λ cells. pm10_cells.AreKept (office_of registry.now shelf.now) cells.pm10) }
{
    let mut steps = Steps::<L>::new(blank);
    filled(alloc, shelf, registry, &mut steps)
}

/// The rows of a book's office, in the order of tables and keys. They give the book back.
pub fn rows_of(alloc: Global, book: &Book) -> Result<Rows, Memory>
    ensures { IfOk result (λ rows. rows ≡ kept.rows_of book.now) }
{
    aq_rows::rows_of(alloc, &book.registry, &book.shelf, &book.loads)
}
