//! The observations while a load is staged.
ghost use Rattle.std.specs.Prelude.{◌≡◌, ◌<◌, ◌≤◌, None, Some, length, IfErr, IfOk, OnErr, OnOk};
ghost use Rattle.aq_base.specs.Values.{HasValueInRange};
ghost use Rattle.aq_staging.specs.Changes.{with_changes, AreChanges};
ghost use Rattle.aq_staging.specs.Overlay.{with_content, without_content, IsOverlayFault};
ghost use Rattle.aq_rules.specs.Limits.{MOST_OBSERVATIONS};
ghost use Rattle.aq_shelf.specs.Standing.{content_at, IsInsertFault};

use crate::changes::{Changes, put_new};
use aq_base::{MOST_OBSERVATIONS, Memory, ObsKey, Observation};
use aq_shelf::{Shelf, ShelfFault};
use std::alloc::Global;
use std::marker::Model;

/// The observations of a shelf with a load's changes, which are held beside it. Contracts see those of
/// the shelf, and those that stand so far, in rising order of keys.
#[derive(Drop)]
pub(crate) struct Overlay<'a> {
    shelf: &'a Shelf,
    changes: Changes,
    /// How many observations stand so far.
    count: u32,
}

/// Why an observation is not changed.
#[derive(Clone, Copy, Debug, PartialEq, Eq)]
pub(crate) enum OverlayFault {
    /// None stands at the key.
    NotThere,
    /// Memory could not be had.
    Memory,
}

impl From<Memory> for OverlayFault {
    ghost use Rattle.std.specs.Prelude.{◌≡◌};
    ghost use Rattle.aq_staging.specs.declared.overlay.OverlayFault.TheVariants.{Memory};

    ghost from_gives = { λ _ fault. fault ≡ Memory };

    fn from(_: Memory) -> Self {
        OverlayFault::Memory
    }
}

impl<'a> Model for Overlay<'a> {
    ghost use Rattle.aq_staging.specs.Changes.{with_changes};
    ghost use Rattle.aq_staging.specs.Overlay.{IsOverlay, Overlaid};

    ghost Value = { Overlaid };

    ghost view = { λ overlay. record { before = overlay.shelf.now; standing = with_changes overlay.changes overlay.shelf.now } };

    ghost invariant = { λ overlay. IsOverlay overlay.shelf.now overlay.changes overlay.count };
}

impl<'a> Overlay<'a> {
    /// The observations of a shelf, of which none is changed. It takes no memory.
    pub(crate) fn new(alloc: Global, shelf: &'a Shelf) -> Overlay<'a>
        ensures { result ≡ record { before = shelf.now; standing = shelf.now } }
    {
        Overlay {
            shelf,
            changes: Changes::new(alloc),
            count: shelf.count(),
        }
    }

    /// The observation at a key, if one stands there.
    pub(crate) fn get(&self, key: &ObsKey) -> Option<Observation>
        ensures { result ≡ content_at key.now self.now.standing }
    {
        self.changes.at(self.shelf, key)
    }

    /// Puts an observation at a key. It is refused if one stands there, and else if
    /// `MOST_OBSERVATIONS` stand; after a refusal or want of memory nothing is changed. A value is in its
    /// pollutant's range.
    pub(crate) fn insert(&mut self, key: ObsKey, content: Observation) -> Result<(), ShelfFault>
        requires { HasValueInRange key.monitor.pollutant content }
        ensures ok { OnOk result (self.new ≡ with_content key content self.old) }
        ensures absent { OnOk result (content_at key self.old.standing ≡ None) }
        ensures room { OnOk result (length self.old.standing < MOST_OBSERVATIONS) }
        ensures refused { IfErr result (λ fault. IsInsertFault fault key self.old.standing) }
        ensures unchanged { OnErr result (self.new ≡ self.old) }
    {
        let key = &key;
        if self.count == MOST_OBSERVATIONS {
            return match self.get(key) {
                Some(_) => Err(ShelfFault::AlreadyThere),
                None => Err(ShelfFault::Full),
            };
        }
        if self.changes.kept(self.shelf, key).is_some() {
            return Err(ShelfFault::AlreadyThere);
        }
        self.changes.left.insert(*key, content)?;
        self.count += 1;
        Ok(())
    }

    /// Gives the observation at a key another content, and answers the one before. It is refused if
    /// none stands there; after a refusal or want of memory nothing is changed. A value is in its
    /// pollutant's range.
    pub(crate) fn update(
        &mut self,
        key: ObsKey,
        content: Observation,
    ) -> Result<Observation, OverlayFault>
        requires { HasValueInRange key.monitor.pollutant content }
        ensures ok { OnOk result (self.new ≡ with_content key content self.old) }
        ensures before { IfOk result (λ before. content_at key self.old.standing ≡ Some before) }
        ensures refused { IfErr result (λ fault. IsOverlayFault fault (content_at key self.old.standing)) }
        ensures unchanged { OnErr result (self.new ≡ self.old) }
    {
        let key = &key;
        let content = &content;
        if let Ok(before) = self.changes.left.update(*key, *content) {
            return Ok(before);
        }
        let Some(before) = self.changes.kept(self.shelf, key) else {
            return Err(OverlayFault::NotThere);
        };
        put_new(&mut self.changes.left, key, content)?;
        Ok(before)
    }

    /// Takes the observation at a key away, and answers it. It is refused if none stands there; after
    /// a refusal or want of memory nothing is changed.
    pub(crate) fn remove(&mut self, key: ObsKey) -> Result<Observation, OverlayFault>
        ensures ok { OnOk result (self.new ≡ without_content key self.old) }
        ensures before { IfOk result (λ before. content_at key self.old.standing ≡ Some before) }
        ensures refused { IfErr result (λ fault. IsOverlayFault fault (content_at key self.old.standing)) }
        ensures unchanged { OnErr result (self.new ≡ self.old) }
    {
        let Some(before) = self.changes.remove(self.shelf, &key)? else {
            return Err(OverlayFault::NotThere);
        };
        self.count -= 1;
        Ok(before)
    }

    /// The changes alone.
    pub(crate) fn into_changes(self) -> Changes
        ensures standing { with_changes result self.entry.before ≡ self.entry.standing }
        ensures changes { AreChanges self.entry.before result }
        ensures few { length self.entry.standing ≤ MOST_OBSERVATIONS }
    {
        self.changes
    }
}
