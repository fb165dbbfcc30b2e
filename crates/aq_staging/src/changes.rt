//! The observations that a load changed.
ghost use Rattle.std.specs.Prelude.{◌≡◌, ◌≤◌, None, [], length, IfOk, IfSome, OnErr, OnOk};
ghost use Rattle.aq_base.specs.Values.{HasValueInRange};
ghost use Rattle.aq_staging.specs.Changes.{with_changes, with_rows, without_rows, AreChanges};
ghost use Rattle.aq_rules.specs.Limits.{MOST_OBSERVATIONS};
ghost use Rattle.aq_rules.specs.Office.Office.{observation_numbers, observation_rank, with_row, without_row};
ghost use Rattle.aq_shelf.specs.Standing.{content_at, IsShelf};

use crate::uncounted::{content_at, rows_of};
use aq_base::{Memory, ObsKey, Observation};
use aq_shelf::{Shelf, ShelfFault};
use std::alloc::Global;

/// What a load leaves of the observations: those that it put or changed, and those of the shelf below
/// that it took away, as they were. If a key is among both, what was put stands.
#[derive(Drop)]
pub(crate) struct Changes {
    pub(crate) left: Shelf,
    pub(crate) dropped: Shelf,
}

impl Changes {
    /// No changes. It takes no memory.
    pub(crate) fn new(alloc: Global) -> Changes
        ensures left { result.left ≡ [] }
        ensures dropped { result.dropped ≡ [] }
    {
        Changes {
            left: Shelf::new(alloc),
            dropped: Shelf::new(alloc),
        }
    }

    /// The observation of a shelf at a key, if one stands there that the load did not take away.
    pub(crate) fn kept(&self, shelf: &Shelf, key: &ObsKey) -> Option<Observation>
        ensures content { result ≡ content_at key.now (without_rows self.now.dropped shelf.now) }
        ensures range { IfSome result (HasValueInRange key.now.monitor.pollutant) }
        ensures shelf { IsShelf shelf.now }
    {
        let before = content_at(shelf, key)?;
        match content_at(&self.dropped, key) {
            Some(_) => None,
            None => Some(before),
        }
    }

    /// The observation at a key of a shelf with the changes, if one stands there.
    pub(crate) fn at(&self, shelf: &Shelf, key: &ObsKey) -> Option<Observation>
        ensures { result ≡ content_at key.now (with_changes self.now shelf.now) }
    {
        match content_at(&self.left, key) {
            Some(content) => Some(content),
            None => self.kept(shelf, key),
        }
    }

    /// Takes away what stands at a key of a shelf with the changes, and answers it, if anything does.
    pub(crate) fn remove(
        &mut self,
        shelf: &Shelf,
        key: &ObsKey,
    ) -> Result<Option<Observation>, Memory>
        requires { AreChanges shelf.now self.old }
        ensures before { IfOk result (λ before. before ≡ content_at key.now (with_changes self.old shelf.now)) }
        ensures ok { OnOk result (with_changes self.new shelf.now ≡ without_row observation_rank (observation_numbers key.now) (with_changes self.old shelf.now)) }
        ensures changes { AreChanges shelf.now self.new }
        ensures unchanged { OnErr result (self.new ≡ self.old) }
    {
        let Some(kept) = self.kept(shelf, key) else {
            return Ok(take_row(&mut self.left, key));
        };
        put_new(&mut self.dropped, key, &kept)?;
        Ok(Some(take_row(&mut self.left, key).unwrap_or(kept)))
    }

    /// A shelf with the changes. It costs a search of it for each, or two, and none of an empty shelf.
    pub(crate) fn onto(self, shelf: Shelf) -> Result<Shelf, Memory>
        requires { length (with_changes self shelf) ≤ MOST_OBSERVATIONS }
        ensures { IfOk result (λ new. new ≡ with_changes self shelf) }
    {
        if shelf.count() == 0 {
            // The proof learns that what is left is in order.
            let _ = self.left.count();
            return Ok(self.left);
        }
        let mut shelf = shelf;
        drop_rows(&mut shelf, &self.dropped);
        put_rows(&mut shelf, &self.left)?;
        Ok(shelf)
    }
}

/// Takes from a shelf what stands at the keys of some rows. It takes no memory.
fn drop_rows(shelf: &mut Shelf, dropped: &Shelf)
    ensures { shelf.new ≡ without_rows dropped.now shelf.old }
{
    for (key, _) in rows_of(dropped) {
        let _ = take_row(shelf, &key);
    }
}

/// Takes from a shelf what stands at a key, and answers it, if anything does.
fn take_row(shelf: &mut Shelf, key: &ObsKey) -> Option<Observation>
    ensures before { result ≡ content_at key.now shelf.old }
    ensures rest { shelf.new ≡ without_row observation_rank (observation_numbers key.now) shelf.old }
{
    shelf.remove(*key).ok()
}

/// Puts some rows on a shelf, each in place of the one at its key. It is refused for want of memory
/// alone; the shelf has then some of them.
fn put_rows(shelf: &mut Shelf, left: &Shelf) -> Result<(), Memory>
    requires { length (with_rows left.now shelf.old) ≤ MOST_OBSERVATIONS }
    ensures { OnOk result (shelf.new ≡ with_rows left.now shelf.old) }
{
    for (key, content) in rows_of(left) {
        put_row(shelf, &key, &content)?;
    }
    Ok(())
}

/// Puts a row on a shelf, in place of the one at its key.
fn put_row(shelf: &mut Shelf, key: &ObsKey, content: &Observation) -> Result<(), Memory>
    requires range { HasValueInRange key.now.monitor.pollutant content.now }
    requires room { length (with_row observation_rank (key.now, content.now) shelf.old) ≤ MOST_OBSERVATIONS }
    ensures { OnOk result (shelf.new ≡ with_row observation_rank (key.now, content.now) shelf.old) }
{
    match shelf.update(*key, *content) {
        Ok(_) => Ok(()),
        Err(_) => put_new(shelf, key, content),
    }
}

/// Puts a row on a shelf if none stands at its key, and if there is room for it.
pub(crate) fn put_new(shelf: &mut Shelf, key: &ObsKey, content: &Observation) -> Result<(), Memory>
    requires range { HasValueInRange key.now.monitor.pollutant content.now }
    requires absent { content_at key.now shelf.old ≡ None }
    requires room { length (with_row observation_rank (key.now, content.now) shelf.old) ≤ MOST_OBSERVATIONS }
    ensures ok { OnOk result (shelf.new ≡ with_row observation_rank (key.now, content.now) shelf.old) }
    ensures unchanged { OnErr result (shelf.new ≡ shelf.old) }
{
    match shelf.insert(*key, *content) {
        Ok(()) => Ok(()),
        Err(ShelfFault::Memory) => Err(Memory),
        Err(ShelfFault::AlreadyThere) => unreachable!(),
        Err(ShelfFault::Full) => unreachable!(),
    }
}
