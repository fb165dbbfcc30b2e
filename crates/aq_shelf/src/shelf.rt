//! The standing observations.
ghost use Rattle.std.specs.Prelude.{◌≡◌, ◌+◌, ◌-◌, ◌<◌, ◌≤◌, false, Some, None, [], length, IfSome, IfNone, IfOk, IfErr, OnSome, OnOk, OnErr};
ghost use Rattle.std.specs.List.{AllByRecursion};
ghost use Rattle.aq_base.specs.Values.{HasValueInRange};
ghost use Rattle.aq_rules.specs.Office.Office.{observation_numbers, observation_rank, with_row, without_row};
ghost use Rattle.aq_shelf.specs.Standing.{ChangesOnly, content_at, observations_in, IsShelf, IsInsertFault, IsPutFault};
ghost use Rattle.aq_shelf.specs.Stretches.{hours_between, joined, AreStretches};

use crate::fault::{NotThere, ShelfFault};
use crate::hours::Hours;
use crate::rows::Rows;
use crate::span::Span;
use crate::stretch::{STRETCH_HOURS, Stretch};
use aq_base::{Hour, MOST_OBSERVATIONS, MonitorId, ObsKey, Observation, Steps};
use std::alloc::Global;
use std::cmp::Reverse;
use std::collections::BTreeMap;
use std::collections::btree_map::Range;
use std::marker::Model;
use std::ops::Bound;
use std::sync::ledger::Ledger;

/// The observations that stand, one for each key. Contracts see the list of them as the book of rules
/// has it in an office: in rising order of keys, by state, county, site number, pollutant, POC and
/// hour.
///
/// Each stretch of a monitor's hours has a list of its own, so that an hour takes little memory, and a
/// load in any order moves few of them. The map has the stretches latest first: a load mostly brings
/// later and later hours, and a search of the map goes through each node from its front.
#[derive(Drop)]
pub struct Shelf {
    /// The hours of each stretch.
    stretches: BTreeMap<Reverse<Stretch>, Hours>,
    /// How many observations stand.
    count: u32,
    alloc: Global,
}

impl Model for Shelf {
    ghost use Rattle.std.specs.Prelude.{◌≡◌, List, length};
    ghost use Rattle.aq_base.specs.declared.observation.ObsKey.{ObsKey};
    ghost use Rattle.aq_base.specs.declared.observation.Observation.{Observation};
    ghost use Rattle.aq_shelf.specs.Standing.{IsShelf};
    ghost use Rattle.aq_shelf.specs.Stretches.{joined, AreStretches};

    ghost Value = { List (ObsKey × Observation) };

    ghost view = { λ shelf. joined shelf.stretches.entries };

    ghost invariant = { λ shelf. AreStretches shelf.stretches.entries × IsShelf (joined shelf.stretches.entries) × (shelf.count ≡ length (joined shelf.stretches.entries)) };
}

impl Shelf {
    /// An empty shelf. It takes no memory.
    pub fn new(alloc: Global) -> Shelf
        ensures { result ≡ [] }
    {
        Shelf {
            stretches: BTreeMap::new(alloc),
            count: 0,
            alloc,
        }
    }

    /// How many observations stand.
    pub fn count(&self) -> u32
        ensures count { result ≡ length self.now }
        ensures most { result ≤ MOST_OBSERVATIONS }
        ensures shelf { IsShelf self.now }
    {
        self.count
    }

    /// Puts an observation at a key. It is refused if one stands there, and else if
    /// `MOST_OBSERVATIONS` stand; after a refusal or want of memory the shelf is as before. A value is
    /// in its pollutant's range.
    pub fn insert(&mut self, key: ObsKey, content: Observation) -> Result<(), ShelfFault>
        requires { HasValueInRange key.monitor.pollutant content }
        ensures ok { OnOk result (self.new ≡ with_row observation_rank (key, content) self.old) }
        ensures keys { OnOk result (ChangesOnly key (Some content) self.old self.new) }
        ensures absent { OnOk result (content_at key self.old ≡ None) }
        ensures room { OnOk result (length self.old < MOST_OBSERVATIONS) }
        ensures refused { IfErr result (λ fault. IsInsertFault fault key self.old) }
        ensures unchanged { OnErr result (self.new ≡ self.old) }
    {
        // The proof learns the range of the hour.
        let _ = key.hour.number();
        let full = self.count == MOST_OBSERVATIONS;
        put(&mut self.stretches, self.alloc, &key, content, full)?;
        self.count += 1;
        Ok(())
    }

    /// Gives the observation at a key another content, and answers the one before. It takes no
    /// memory. It is refused if none stands there, and the shelf is then as before. A value is in
    /// its pollutant's range.
    pub fn update(&mut self, key: ObsKey, content: Observation) -> Result<Observation, NotThere>
        requires { HasValueInRange key.monitor.pollutant content }
        ensures before { IfOk result (λ before. content_at key self.old ≡ Some before) }
        ensures range { IfOk result (HasValueInRange key.monitor.pollutant) }
        ensures ok { OnOk result (self.new ≡ with_row observation_rank (key, content) self.old) }
        ensures keys { OnOk result (ChangesOnly key (Some content) self.old self.new) }
        ensures not_there { OnErr result (content_at key self.old ≡ None) }
        ensures unchanged { OnErr result (self.new ≡ self.old) }
        ensures shelf { IsShelf self.old }
    {
        // The proof learns the range of the hour.
        let _ = key.hour.number();
        let Some(before) = change(&mut self.stretches, &key, content) else {
            return Err(NotThere);
        };
        Ok(before)
    }

    /// Takes the observation at a key away, and answers it. It takes no memory. It is refused if
    /// none stands there, and the shelf is then as before.
    pub fn remove(&mut self, key: ObsKey) -> Result<Observation, NotThere>
        ensures before { IfOk result (λ before. content_at key self.old ≡ Some before) }
        ensures range { IfOk result (HasValueInRange key.monitor.pollutant) }
        ensures ok { OnOk result (self.new ≡ without_row observation_rank (observation_numbers key) self.old) }
        ensures keys { OnOk result (ChangesOnly key None self.old self.new) }
        ensures not_there { OnErr result (content_at key self.old ≡ None) }
        ensures unchanged { OnErr result (self.new ≡ self.old) }
        ensures shelf { IsShelf self.old }
    {
        let Some(before) = take_out(&mut self.stretches, &key) else {
            return Err(NotThere);
        };
        self.count -= 1;
        Ok(before)
    }

    /// The observation at a key, if one stands there, in one step. It takes no memory.
    pub fn at<L: Ledger>(&self, key: ObsKey, steps: &mut Steps<L>) -> Option<Observation>
        ensures content { result ≡ content_at key self.now }
        ensures range { IfSome result (HasValueInRange key.monitor.pollutant) }
        ensures steps { steps.new ≡ steps.old + 1 }
        ensures shelf { IsShelf self.now }
    {
        steps.tick();
        find(&self.stretches, &key)
    }

    /// The monitor's observations that start in the `hours` hours from `from` on, in order, each with
    /// its hour. The call makes one step, and one more for each of them; `hours` is at most 1,000,000.
    pub fn span<L: Ledger>(
        &self,
        monitor: MonitorId,
        from: Hour,
        hours: u32,
        steps: &mut Steps<L>,
    ) -> Span<'_>
        requires { hours ≤ 1000000 }
        ensures observations { result ≡ observations_in monitor from hours self.now }
        ensures ranges { AllByRecursion (λ item. HasValueInRange monitor.pollutant item.1) result }
        ensures steps { steps.new ≡ steps.old + 1 + length result }
        ensures shelf { IsShelf self.now }
    {
        let start = from.number();
        let end = start + hours;
        let count = count_between(
            stretches_from(&self.stretches, &monitor, start, end),
            start,
            end,
        );
        steps.add(1 + count);
        Span::new(
            stretches_from(&self.stretches, &monitor, start, end),
            start,
            end,
        )
    }

    /// All observations that stand, in rising order of keys. The call makes one step for each of them,
    /// however many are then asked for. It takes no memory.
    pub fn rows<L: Ledger>(&self, steps: &mut Steps<L>) -> Rows<'_>
        ensures rows { result ≡ self.now }
        ensures steps { steps.new ≡ steps.old + length result }
        ensures shelf { IsShelf self.now }
    {
        steps.add(self.count as usize);
        Rows::new(self.stretches.iter())
    }
}

/// Puts an observation at a key. It is refused if one stands there, and else if the shelf is
/// full.
fn put(
    stretches: &mut BTreeMap<Reverse<Stretch>, Hours>,
    alloc: Global,
    key: &ObsKey,
    content: Observation,
    full: bool,
) -> Result<(), ShelfFault>
    requires { AreStretches stretches.old.entries }
    ensures ok { OnOk result (joined stretches.new.entries ≡ with_row observation_rank (key.now, content) (joined stretches.old.entries)) }
    ensures absent { OnOk result (content_at key.now (joined stretches.old.entries) ≡ None) }
    ensures room { OnOk result (full ≡ false) }
    ensures refused { IfErr result (λ fault. IsPutFault fault full (content_at key.now (joined stretches.old.entries))) }
    ensures unchanged { OnErr result (joined stretches.new.entries ≡ joined stretches.old.entries) }
    ensures stretches { AreStretches stretches.new.entries }
{
    match stretches.get_mut(&Reverse(Stretch::of(key))) {
        Some(hours) => hours.insert(key, content, full),
        None => {
            if full {
                return Err(ShelfFault::Full);
            }
            let mut hours = Hours::new(alloc);
            hours.insert(key, content, false)?;
            match stretches.insert(Reverse(Stretch::of(key)), hours) {
                Ok(_) => Ok(()),
                Err(_) => Err(ShelfFault::Memory),
            }
        }
    }
}

/// Gives the observation at a key another content, and answers the one before.
fn change(
    stretches: &mut BTreeMap<Reverse<Stretch>, Hours>,
    key: &ObsKey,
    content: Observation,
) -> Option<Observation>
    requires { AreStretches stretches.old.entries }
    ensures before { result ≡ content_at key.now (joined stretches.old.entries) }
    ensures ok { OnSome result (joined stretches.new.entries ≡ with_row observation_rank (key.now, content) (joined stretches.old.entries)) }
    ensures unchanged { IfNone result (joined stretches.new.entries ≡ joined stretches.old.entries) }
    ensures stretches { AreStretches stretches.new.entries }
{
    let hours = stretches.get_mut(&Reverse(Stretch::of(key)))?;
    hours.update(key, content)
}

/// Takes the observation at a key away, and answers it.
fn take_out(stretches: &mut BTreeMap<Reverse<Stretch>, Hours>, key: &ObsKey) -> Option<Observation>
    requires { AreStretches stretches.old.entries }
    ensures before { result ≡ content_at key.now (joined stretches.old.entries) }
    ensures ok { OnSome result (joined stretches.new.entries ≡ without_row observation_rank (observation_numbers key.now) (joined stretches.old.entries)) }
    ensures unchanged { IfNone result (joined stretches.new.entries ≡ joined stretches.old.entries) }
    ensures stretches { AreStretches stretches.new.entries }
{
    let hours = stretches.get_mut(&Reverse(Stretch::of(key)))?;
    hours.remove(key)
}

/// The observation at a key.
fn find(stretches: &BTreeMap<Reverse<Stretch>, Hours>, key: &ObsKey) -> Option<Observation>
    requires { AreStretches stretches.now.entries }
    ensures { result ≡ content_at key.now (joined stretches.now.entries) }
{
    // The proof learns that the stretches are in order.
    let _ = stretches.len();
    stretches.get(&Reverse(Stretch::of(key)))?.at(key)
}

/// The monitor's stretches from that of the hour `from` to that of the hour `end`, latest first.
fn stretches_from<'a>(
    stretches: &'a BTreeMap<Reverse<Stretch>, Hours>,
    monitor: &MonitorId,
    from: u32,
    end: u32,
) -> Range<'a, Reverse<Stretch>, Hours>
    requires stretches { AreStretches stretches.now.entries }
    requires order { from ≤ end }
    ensures { hours_between from end result ≡ observations_in monitor.now from (end - from) (joined stretches.now.entries) }
{
    let latest = Reverse(Stretch {
        monitor: *monitor,
        number: end / STRETCH_HOURS,
    });
    let first = Reverse(Stretch {
        monitor: *monitor,
        number: from / STRETCH_HOURS,
    });
    stretches.range((Bound::Included(latest), Bound::Included(first)))
}

/// How many hours from `from` on and before `end` some stretches have.
fn count_between(stretches: Range<'_, Reverse<Stretch>, Hours>, from: u32, end: u32) -> usize
    requires { length (hours_between from end stretches) ≤ MOST_OBSERVATIONS }
    ensures count { result ≡ length (hours_between from end stretches.entry) }
    ensures few { result ≤ MOST_OBSERVATIONS }
{
    let mut count = 0;
    for (_, hours) in stretches {
        count += hours.between(from, end).len();
    }
    count
}
