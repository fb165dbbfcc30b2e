//! The observations of one stretch, by hour.
ghost use Rattle.std.specs.Prelude.{◌≡◌, ◌<◌, ◌≤◌, false, None, [], length, filter, IfErr, OnOk, OnErr, OnSome, IfNone, MatchResult};
ghost use Rattle.std.specs.Map.{keys_of};
ghost use Rattle.std.specs.List.Sorted.{IsStrictlySortedBy};
ghost use Rattle.std.specs.Ordering.{nat_cmp};
ghost use Rattle.aq_rules.specs.Office.Office.{observation_numbers, observation_rank, with_row, without_row};
ghost use Rattle.aq_shelf.specs.Places.{place_of, StandsAt, IsGapAt};
ghost use Rattle.aq_shelf.specs.Standing.{content_at, IsPutFault};
ghost use Rattle.aq_shelf.specs.Stretches.{between, rows_of};

use crate::fault::ShelfFault;
use aq_base::{Hour, ObsKey, Observation};
use std::alloc::Global;
use std::marker::Model;

/// The observations of one stretch of a monitor's hours. Contracts see the list of them, rising by
/// hour; with the monitor they are rows.
#[derive(Drop)]
pub(crate) struct Hours {
    items: Vec<(Hour, Observation)>,
}

impl Model for Hours {
    ghost use Rattle.std.specs.Prelude.{List, ℕ};
    ghost use Rattle.std.specs.List.Sorted.{IsStrictlySortedBy};
    ghost use Rattle.std.specs.Map.{keys_of};
    ghost use Rattle.std.specs.Ordering.{nat_cmp};
    ghost use Rattle.aq_base.specs.declared.observation.Observation.{Observation};

    ghost Value = { List (ℕ × Observation) };

    ghost view = { λ hours. hours.items.items };

    ghost invariant = { λ hours. IsStrictlySortedBy nat_cmp (keys_of hours.items.items) };
}

impl Hours {
    /// No hours. It takes no memory.
    pub(crate) fn new(alloc: Global) -> Hours
        ensures { result ≡ [] }
    {
        Hours {
            items: Vec::new(alloc),
        }
    }

    /// Puts an observation at a key of the monitor. It is refused if one stands there, and else
    /// if the shelf is full.
    pub(crate) fn insert(
        &mut self,
        key: &ObsKey,
        content: Observation,
        full: bool,
    ) -> Result<(), ShelfFault>
        ensures ok { OnOk result (rows_of key.now.monitor self.new ≡ with_row observation_rank (key.now, content) (rows_of key.now.monitor self.old)) }
        ensures absent { OnOk result (content_at key.now (rows_of key.now.monitor self.old) ≡ None) }
        ensures room { OnOk result (full ≡ false) }
        ensures refused { IfErr result (λ fault. IsPutFault fault full (content_at key.now (rows_of key.now.monitor self.old))) }
        ensures unchanged { OnErr result (self.new ≡ self.old) }
    {
        match search(self.items.as_slice(), key.hour) {
            Ok(_) => Err(ShelfFault::AlreadyThere),
            Err(place) => {
                if full {
                    return Err(ShelfFault::Full);
                }
                match self.items.insert(place, (key.hour, content)) {
                    Ok(()) => Ok(()),
                    Err(_) => Err(ShelfFault::Memory),
                }
            }
        }
    }

    /// Gives the observation at a key of the monitor another content, and answers the one before.
    pub(crate) fn update(&mut self, key: &ObsKey, content: Observation) -> Option<Observation>
        ensures before { result ≡ content_at key.now (rows_of key.now.monitor self.old) }
        ensures ok { OnSome result (rows_of key.now.monitor self.new ≡ with_row observation_rank (key.now, content) (rows_of key.now.monitor self.old)) }
        ensures unchanged { IfNone result (self.new ≡ self.old) }
    {
        match search(self.items.as_slice(), key.hour) {
            Ok(place) => {
                let before = self.items[place].1;
                self.items[place] = (key.hour, content);
                Some(before)
            }
            Err(_) => None,
        }
    }

    /// Takes the observation at a key of the monitor away, and answers it.
    pub(crate) fn remove(&mut self, key: &ObsKey) -> Option<Observation>
        ensures before { result ≡ content_at key.now (rows_of key.now.monitor self.old) }
        ensures ok { OnSome result (rows_of key.now.monitor self.new ≡ without_row observation_rank (observation_numbers key.now) (rows_of key.now.monitor self.old)) }
        ensures unchanged { IfNone result (self.new ≡ self.old) }
    {
        match search(self.items.as_slice(), key.hour) {
            Ok(place) => Some(self.items.remove(place).1),
            Err(_) => None,
        }
    }

    /// The observation at a key of the monitor.
    pub(crate) fn at(&self, key: &ObsKey) -> Option<Observation>
        ensures { result ≡ content_at key.now (rows_of key.now.monitor self.now) }
    {
        match search(self.items.as_slice(), key.hour) {
            Ok(place) => Some(self.items[place].1),
            Err(_) => None,
        }
    }

    /// All of them, rising.
    pub(crate) fn as_slice(&self) -> &[(Hour, Observation)]
        ensures { result.now ≡ self.now }
    {
        self.items.as_slice()
    }

    /// Those from the hour `from` on and before the hour `end`, rising. It is called once for a stretch, and
    /// stands apart from the loop over its hours.
    #[inline(never)]
    pub(crate) fn between(&self, from: u32, end: u32) -> &[(Hour, Observation)]
        ensures { result.now ≡ filter (between from end) self.now }
    {
        cut(self.items.as_slice(), from, end)
    }
}

/// The part of rising hours from the hour `from` on and before the hour `end`.
fn cut(items: &[(Hour, Observation)], from: u32, end: u32) -> &[(Hour, Observation)]
    requires { IsStrictlySortedBy nat_cmp (keys_of items.now) }
    ensures { result.now ≡ filter (between from end) items.now }
{
    let first = place(items, from);
    let rest = &items[first..];
    let count = place(rest, end);
    &rest[..count]
}

/// The place of an hour among rising hours, or the place where it would stand.
fn search(items: &[(Hour, Observation)], hour: Hour) -> Result<usize, usize>
    requires { IsStrictlySortedBy nat_cmp (keys_of items.now) }
    ensures place { MatchResult result (StandsAt hour items.now) (IsGapAt hour items.now) }
    ensures within { MatchResult result (λ place. place < length items.now) (λ place. place ≤ length items.now) }
{
    let place = place(items, hour.number());
    if place == items.len() {
        return Err(place);
    }
    let entry = &items[place];
    if entry.0.number() == hour.number() {
        Ok(place)
    } else {
        Err(place)
    }
}

/// How many of rising hours are before an hour. One comparison finds an hour after all of them.
fn place(items: &[(Hour, Observation)], hour: u32) -> usize
    requires { IsStrictlySortedBy nat_cmp (keys_of items.now) }
    ensures place { result ≡ place_of hour items.now }
    ensures within { result ≤ length items.now }
{
    let count = items.len();
    if count == 0 {
        return 0;
    }
    let last = &items[count - 1];
    if last.0.number() < hour {
        return count;
    }
    halve(items, hour)
}

/// The same by halving what is left.
fn halve(items: &[(Hour, Observation)], hour: u32) -> usize
    requires { IsStrictlySortedBy nat_cmp (keys_of items.now) }
    ensures place { result ≡ place_of hour items.now }
    ensures within { result ≤ length items.now }
{
    let mut low = 0;
    let mut high = items.len();
    while low < high {
        let middle = low + (high - low) / 2;
        let entry = &items[middle];
        if entry.0.number() < hour {
            low = middle + 1;
        } else {
            high = middle;
        }
    }
    low
}
