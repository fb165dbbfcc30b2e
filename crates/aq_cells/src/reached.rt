//! The cells that a load reaches, brought up to date.
ghost use Rattle.std.specs.Prelude.{◌≡◌, ◌≤◌, ◌+◌, ℕ, true, false, Some, List, OnOk};
ghost use Rattle.std.specs.List.{list_any};
ghost use Rattle.aq_base.specs.declared.observation.ObsKey.{ObsKey};
ghost use Rattle.aq_base.specs.declared.observation.Observation.{Observation};
ghost use Rattle.aq_rules.specs.Kept.Cells.{CellName as Cell};
ghost use Rattle.aq_rules.specs.Kept.Reach.{changed_row, cost};
ghost use Rattle.aq_series.specs.OfficeView.{office_of};
ghost use Rattle.aq_dirty.specs.Marked.{holds_cell, nothing};
ghost use Rattle.aq_dirty.specs.ParticleReach.{is_of_particles};
ghost use Rattle.aq_dirty.specs.Particles.{holds_particle, nothing as no_particles};
ghost use Rattle.aq_dirty.specs.Reach.{is_of_ozone, row_of};
ghost use Rattle.aq_staging.specs.Batch.{change_in, changes_in};
ghost use Rattle.aq_cells.specs.Allowed.{steps_for_both};
ghost use Rattle.aq_cells.specs.Bound as particle_cells;
ghost use Rattle.aq_ozone_cells.specs.Bound.{AreEnough};
ghost use Rattle.aq_ozone_cells.specs.FilledDays.{AreKept};
ghost use Rattle.aq_ozone_cells.specs.Settling.{IsCellOf};
ghost use Rattle.aq_particle_cells.specs.Pm10.Pm10Levels as pm10_cells;
ghost use Rattle.aq_particle_cells.specs.Pm25.Pm25Levels as pm25_cells;
ghost use Rattle.aq_cells.specs.Reached.{is_amiss, HoldsCells, HoldsParticles, HoldsReach, IsChange, IsUnread, Marks, MarksParticles};

use crate::cells::Cells;
use crate::laws::settling_what_waits_costs_what_the_change_costs;
use crate::settling;
use aq_base::{Memory, Steps};
use aq_dirty::{Dirty, DirtyParticles, OfficeChange};
use aq_registry::{RecordChange, Registry};
use aq_rules::kept::reach::what_reads_a_changed_row_is_in_reach;
use aq_shelf::Shelf;
use aq_staging::{OfficeChange as StagedChange, OfficeChanges};
use std::alloc::Global;
use std::sync::ledger::Ledger;

/// Brings the cells that a load reaches up to date with the office after it. All others have to be that
/// office's. If all cells are those of the office before it, it makes at most the steps that the change costs.
pub fn bring_up<L: Ledger>(
    alloc: Global,
    cells: &mut Cells,
    changes: &OfficeChanges,
    before: &Registry,
    after: &Registry,
    shelf: &Shelf,
    steps: &mut Steps<L>,
) -> Result<(), Memory>
    requires drops { list_any (is_amiss before.now) changes.now ≡ false }
    requires ozone { (cell : Cell)
        → (is_of_ozone cell ≡ true → IsUnread before.now after.now cell changes.now)
        → IsCellOf (office_of after.now shelf.now) cells.old.ozone cell }
    requires pm25 { (cell : Cell)
        → (is_of_particles cell ≡ true → IsUnread before.now after.now cell changes.now)
        → pm25_cells.IsCellOf (office_of after.now shelf.now) cells.old.pm25 cell }
    requires pm10 { (cell : Cell)
        → (is_of_particles cell ≡ true → IsUnread before.now after.now cell changes.now)
        → pm10_cells.IsCellOf (office_of after.now shelf.now) cells.old.pm10 cell }
    ensures ozone { OnOk result (AreKept (office_of after.now shelf.now) cells.new.ozone) }
    ensures pm25 { OnOk result
        (pm25_cells.AreKept (office_of after.now shelf.now) cells.new.pm25) }
    ensures pm10 { OnOk result
        (pm10_cells.AreKept (office_of after.now shelf.now) cells.new.pm10) }
    ensures steps { (rows : List (ObsKey × Observation))
        → IsChange (office_of before.now rows) (office_of after.now shelf.now) changes.now
        cells.old.ozone cells.old.pm25 cells.old.pm10
        → steps.new
        ≤ steps.old + cost (office_of before.now rows) (office_of after.now shelf.now) }
{
    settling_what_waits_costs_what_the_change_costs();
    let mut ozone = Dirty::new(alloc);
    let mut particles = DirtyParticles::new(alloc);
    let changes = changes.as_slice();
    mark_all(&mut ozone, &mut particles, changes, before, after)?;
    settle(cells, &mut ozone, &mut particles, shelf, after, steps)
}

/// Brings the cells of both sets up to date.
fn settle<L: Ledger>(
    cells: &mut Cells,
    ozone: &mut Dirty,
    particles: &mut DirtyParticles,
    shelf: &Shelf,
    registry: &Registry,
    steps: &mut Steps<L>,
) -> Result<(), Memory>
    requires ozone { (cell : Cell) → holds_cell ozone.old cell ≡ false
        → IsCellOf (office_of registry.now shelf.now) cells.old.ozone cell }
    requires pm25 { (cell : Cell) → holds_particle particles.old cell ≡ false
        → pm25_cells.IsCellOf (office_of registry.now shelf.now) cells.old.pm25 cell }
    requires pm10 { (cell : Cell) → holds_particle particles.old cell ≡ false
        → pm10_cells.IsCellOf (office_of registry.now shelf.now) cells.old.pm10 cell }
    ensures ozone { OnOk result
        (AreKept (office_of registry.now shelf.now) cells.new.ozone) }
    ensures pm25 { OnOk result
        (pm25_cells.AreKept (office_of registry.now shelf.now) cells.new.pm25) }
    ensures pm10 { OnOk result
        (pm10_cells.AreKept (office_of registry.now shelf.now) cells.new.pm10) }
    ensures steps { (enough : Cell → ℕ)
        → AreEnough (office_of registry.now shelf.now) cells.old.ozone enough
        → particle_cells.AreEnough (office_of registry.now shelf.now) cells.old.pm25
        cells.old.pm10 enough
        → steps.new ≤ steps.old + steps_for_both enough ozone.old particles.old }
{
    aq_ozone_cells::settle(&mut cells.ozone, ozone, shelf, registry, steps)?;
    settling::settle(
        &mut cells.pm25,
        &mut cells.pm10,
        particles,
        shelf,
        registry,
        steps,
    )?;
    Ok(())
}

/// Marks the cells that read what one of these changes changes, in the office before or after them, and no
/// others: those in reach of the change from the one office to the other.
fn mark_all(
    ozone: &mut Dirty,
    particles: &mut DirtyParticles,
    changes: &[StagedChange],
    before: &Registry,
    after: &Registry,
) -> Result<(), Memory>
    requires drops { list_any (is_amiss before.now) (changes_in changes.now) ≡ false }
    requires ozone { ozone.old ≡ nothing }
    requires particles { particles.old ≡ no_particles }
    ensures ozone { OnOk result
        (HoldsCells before.now after.now (changes_in changes.now) ozone.new) }
    ensures particles { OnOk result
        (HoldsParticles before.now after.now (changes_in changes.now) particles.new) }
    ensures reach { OnOk result
        (HoldsReach before.now after.now (changes_in changes.now) ozone.new particles.new) }
{
    what_reads_a_changed_row_is_in_reach();
    for change in changes {
        let read = change_of(before, change);
        mark(ozone, &read, before, after)?;
        mark_particles(particles, &read, before, after)?;
    }
    Ok(())
}

/// Marks the ozone cells that read what a change changes, in the office before or after it.
fn mark(
    dirty: &mut Dirty,
    change: &OfficeChange,
    before: &Registry,
    after: &Registry,
) -> Result<(), Memory>
    ensures cells { OnOk result (Marks before.now after.now change.now dirty.old dirty.new) }
{
    dirty.mark(before, change)?;
    dirty.mark(after, change)?;
    Ok(())
}

/// Marks the particle cells that read what a change changes, in the office before or after it.
fn mark_particles(
    particles: &mut DirtyParticles,
    change: &OfficeChange,
    before: &Registry,
    after: &Registry,
) -> Result<(), Memory>
    ensures cells { OnOk result
        (MarksParticles before.now after.now change.now particles.old particles.new) }
{
    particles.mark(before, change)?;
    particles.mark(after, change)?;
    Ok(())
}

/// A change of a load as the dirty sets read it, by its key alone: what stood at an observation's key
/// does not say which cells read it.
fn change_of(before: &Registry, change: &StagedChange) -> OfficeChange
    requires { is_amiss before.now (change_in change.now) ≡ false }
    ensures { (rows : List (ObsKey × Observation)) → row_of result
        ≡ Some (changed_row (office_of before.now rows) (change_in change.now)) }
{
    match change {
        StagedChange::PutRecord(row) => OfficeChange::Record(RecordChange {
            old: before.get(row.key()),
            new: Some(*row),
        }),
        StagedChange::DropRecord(key) => OfficeChange::Record(RecordChange {
            old: before.get(*key),
            new: None,
        }),
        StagedChange::PutObservation(key, content) => OfficeChange::Observation {
            key: *key,
            old: None,
            new: Some(*content),
        },
        StagedChange::DropObservation(key) => OfficeChange::Observation {
            key: *key,
            old: None,
            new: None,
        },
    }
}
