//! The rows of an office.
ghost use Rattle.std.specs.Prelude.{◌≡◌, ◌<◌, ◌++◌, map, IfOk, OnOk};
ghost use Rattle.aq_rules.specs.Kept.Rows as the_rows;
ghost use Rattle.aq_rows.specs.OfficeRows.{load_row, observation_row, record_row};
ghost use Rattle.aq_rows.specs.Walking.{office_with};

use crate::kept_loads::Loads;
use crate::loads::load_row;
use crate::observations::observation_row;
use crate::records::office_row;
use aq_base::{Memory, Steps};
use aq_keeper::{Row, Rows};
use aq_registry::Registry;
use aq_shelf::Shelf;
use std::alloc::Global;
use std::marker::Brand;
use std::sync::ledger::{Blank, Ledger};

/// The rows of the office of these records, observations and loads, in the order of tables and keys
/// (observations stand in the last table), by one walk over each.
#[tactic(auto, unfolding(aq_rules::specs::Kept::Rows::rows_of))]
pub fn rows_of(
    alloc: Global,
    registry: &Registry,
    shelf: &Shelf,
    loads: &Loads,
) -> Result<Rows, Memory>
    ensures { IfOk result (λ rows. rows ≡ the_rows.rows_of (office_with registry.now shelf.now loads.now)) }
{
    let mut rows = Rows::new(alloc);
    add_records(alloc, &mut rows, registry)?;
    add_loads(alloc, &mut rows, loads)?;
    add_observations(alloc, &mut rows, shelf)?;
    Ok(rows)
}

fn add_records(alloc: Global, rows: &mut Rows, registry: &Registry) -> Result<(), Memory>
    ensures { OnOk result (rows.new ≡ rows.old ++ map record_row registry.now) }
{
    for entry in registry.rows() {
        rows.push(Row::office(office_row(alloc, &entry)?))?;
    }
    Ok(())
}

fn add_observations(alloc: Global, rows: &mut Rows, shelf: &Shelf) -> Result<(), Memory>
    ensures { OnOk result (rows.new ≡ rows.old ++ map observation_row shelf.now) }
{
    counted::<Brand>(alloc, rows, shelf, Blank::new(1))
}

/// The same on a counter of its own, which nobody reads.
fn counted<L: Ledger>(
    alloc: Global,
    rows: &mut Rows,
    shelf: &Shelf,
    blank: Blank,
) -> Result<(), Memory>
    requires name { blank.name ≡ L.name }
    requires parts { blank.parts ≡ L.parts }
    requires some { 0 < L.parts }
    ensures { OnOk result (rows.new ≡ rows.old ++ map observation_row shelf.now) }
{
    let mut steps = Steps::<L>::new(blank);
    for (key, content) in shelf.rows(&mut steps) {
        rows.push(Row::second(observation_row(alloc, &key, &content)?))?;
    }
    Ok(())
}

fn add_loads(alloc: Global, rows: &mut Rows, loads: &Loads) -> Result<(), Memory>
    ensures { OnOk result (rows.new ≡ rows.old ++ map load_row loads.now) }
{
    for (number, kept) in loads.entries() {
        let row = load_row(alloc, *number, &kept.digest, &kept.reply)?;
        rows.push(Row::load(row))?;
    }
    Ok(())
}
