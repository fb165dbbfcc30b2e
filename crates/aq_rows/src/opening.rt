//! An office opened from its rows.
ghost use Rattle.std.specs.Prelude.{◌≡◌, Some, IfErr, IfOk};
ghost use Rattle.aq_rules.specs.Kept.Rows as the_rows;
ghost use Rattle.aq_rows.specs.Opening.{IsOpenFault, fault_text};

use crate::kept_loads::Loads;
use crate::walk::{RowFault, Walk};
use aq_base::Memory;
use aq_keeper::{Row, RowContent};
use aq_registry::Registry;
use aq_shelf::Shelf;
use std::alloc::Global;
use std::error::Error;
use std::fmt;
use std::marker::Model;

/// The parts of an office that was opened. Contracts see the valid office of the book of rules.
#[derive(Drop)]
pub struct Opened {
    pub registry: Registry,
    pub shelf: Shelf,
    pub loads: Loads,
}

impl Model for Opened {
    ghost use Rattle.aq_rules.specs.Office.Office.{IsOffice, Office};
    ghost use Rattle.aq_rows.specs.Walking.{office_with};

    ghost Value = { Office };

    ghost view = { λ opened. office_with opened.registry opened.shelf opened.loads };

    ghost invariant = { λ opened. IsOffice (office_with opened.registry opened.shelf opened.loads) };
}

/// A row by its table, and its place among the rows of that table from 0. Tables are records (0),
/// observations of version 1 (1), loads (2) and observations (3). Contracts see the book's place.
#[derive(Clone, Copy, Debug, PartialEq, Eq)]
pub struct Place {
    pub table: u8,
    pub index: u64,
}

impl Model for Place {
    ghost use Rattle.aq_rules.specs.Kept.Rows as the_rows;

    ghost Value = { the_rows.Place };

    ghost view = { λ place. record { table = place.table; index = place.index } };

    ghost inverse = { λ place. record { table = place.table; index = place.index } };
}

/// Why an office was not opened.
#[derive(Clone, Copy, Debug, PartialEq, Eq)]
pub enum OpenFault {
    /// The first damaged row: the rows before it are an office's, and those up to it are no office's.
    Damaged(Place),
    /// Memory could not be had.
    Memory,
}

impl From<Memory> for OpenFault {
    ghost use Rattle.std.specs.Prelude.{◌≡◌};
    ghost use Rattle.aq_rows.specs.declared.opening.OpenFault.TheVariants as faults;

    ghost from_gives = { λ _ fault. fault ≡ faults.Memory };

    fn from(_: Memory) -> Self {
        OpenFault::Memory
    }
}

impl fmt::Display for OpenFault {
    ghost output = { λ fault. Some (fault_text fault) };

    fn fmt<W: fmt::Write>(&self, f: &mut fmt::Formatter<W>) -> fmt::Result {
        f.write_str(match self {
            OpenFault::Damaged(_) => "a row is damaged",
            OpenFault::Memory => "memory",
        })
    }
}

impl Error for OpenFault {}

/// Opens the office whose rows these are, or names the first damaged row. It reads the rows once, in
/// order, and keeps what each one says: for each record it searches the records a few times, and for each
/// observation the last stretch of the shelf. If a row is damaged, the rows of its table before it are
/// counted.
pub fn open(alloc: Global, rows: &[Row]) -> Result<Opened, OpenFault>
    ensures office { IfOk result (λ opened. the_rows.office_of_rows rows.now ≡ Some opened) }
    ensures damaged { IfErr result (IsOpenFault rows.now) }
{
    let mut walk = Walk::new(alloc);
    for index in 0..rows.len() {
        let row = &rows[index];
        match walk.follow(alloc, row) {
            Ok(()) => {}
            Err(RowFault::Damaged) => {
                return Err(OpenFault::Damaged(place_of(&rows[..index], row)));
            }
            Err(RowFault::Memory) => return Err(OpenFault::Memory),
        }
    }
    Ok(Opened {
        registry: walk.registry,
        shelf: walk.shelf,
        loads: walk.loads,
    })
}

/// The place of a row after others.
pub fn place_of(before: &[Row], row: &Row) -> Place
    ensures { result ≡ the_rows.place_of before.now row.now }
{
    let table = table_of(row);
    let index = before
        .iter()
        .filter(|other| table_of(other) == table)
        .count();
    Place {
        table,
        index: index as u64,
    }
}

/// The table of a row by its number, in the order of tables.
pub fn table_of(row: &Row) -> u8
    ensures { result ≡ the_rows.table_of row.now }
{
    match &row.content {
        RowContent::Office(_) => 0,
        RowContent::Observation(_) => 1,
        RowContent::Load(_) => 2,
        RowContent::Second(_) => 3,
    }
}
