//! The records as an ordered map.
ghost use Rattle.std.specs.Prelude.{◌≡◌, ◌<◌, ◌≤◌, ◌^◌, None, [], length, find, filter, count_by, slice_get, IfOk, OnOk, OnErr};
ghost use Rattle.std.specs.List.{last_or, list_any};
ghost use Rattle.std.specs.List.Sorted.{IsStrictlySortedBy};
ghost use Rattle.std.specs.Map.{values_of};
ghost use Rattle.aq_rules.specs.Office.Office.{key_of, key_numbers, record_rank, with_row, without_row};
ghost use Rattle.aq_rules.specs.Office.Exclusion.{agrees_to};
ghost use Rattle.aq_rules.specs.Office.Questions.{record_of, following};
ghost use Rattle.aq_registry.specs.Places.{behind, is_of_between, is_of_from, lies_between, place_cmp, places_of, IsSpan};

use crate::facts;
use crate::place::Place;
use crate::rows::Rows;
use aq_base::{Memory, OfficeKey, OfficeRecord, SiteId};
use std::alloc::Global;
use std::collections::BTreeMap;
use std::collections::btree_map::Range;
use std::iter::{DoubleEndedIterator, Iterator};
use std::marker::Model;
use std::ops::Bound;

/// Records, each at the place of its key. Contracts see the list of them, in the order of rows.
#[derive(Drop)]
pub struct Records {
    by_place: BTreeMap<Place, OfficeRecord>,
}

impl Model for Records {
    ghost use Rattle.std.specs.Prelude.{List};
    ghost use Rattle.std.specs.Map.{values_of};
    ghost use Rattle.aq_base.specs.declared.office.OfficeRecord.{OfficeRecord};
    ghost use Rattle.aq_registry.specs.Records.{AreEntries};

    ghost Value = { List OfficeRecord };

    ghost view = { λ records. values_of records.by_place.entries };

    ghost invariant = { λ records. AreEntries records.by_place.entries };
}

impl Records {
    /// No records. It takes no memory.
    pub fn new(alloc: Global) -> Records
        ensures { result ≡ [] }
    {
        Records {
            by_place: BTreeMap::new(alloc),
        }
    }

    /// The same records.
    pub(crate) fn copy(&self) -> Result<Records, Memory>
        ensures { IfOk result (λ copy. copy ≡ self.now) }
    {
        Ok(Records {
            by_place: self.by_place.clone()?,
        })
    }

    /// The record of a key, by one search of the map.
    pub fn get(&self, key: &OfficeKey) -> Option<OfficeRecord>
        ensures { result ≡ record_of self.now key.now }
    {
        self.by_place.get(&Place::of(key)).copied()
    }

    /// All records, in the order of rows.
    pub fn rows(&self) -> Rows<'_>
        ensures { result ≡ self.now }
    {
        Rows::new(self.by_place.iter())
    }

    /// The record that follows a key, and of none the first, by one search of the map.
    pub fn following(&self, after: &Option<OfficeKey>) -> Option<OfficeRecord>
        ensures { result ≡ following self.now after.now }
    {
        first(self.by_place.range((behind(after), Bound::Unbounded)))
    }

    /// The first record of a kind, site and parameter whose POC, day or year is `from` or later, by one
    /// search of the map.
    pub(crate) fn first_from(
        &self,
        kind: u8,
        site: &SiteId,
        parameter: u32,
        from: u32,
    ) -> Option<OfficeRecord>
        requires { parameter ≤ 99999 }
        ensures { result ≡ find (is_of_from kind site.now parameter from) self.now }
    {
        let start = Place::of_site(kind, site, parameter, from);
        let end = Place::of_site(kind, site, parameter + 1, 0);
        self.first_between(start, end)
    }

    /// The last record of a kind, site and parameter whose POC, day or year is before the end, by one
    /// search of the map.
    pub(crate) fn last_before(
        &self,
        kind: u8,
        site: &SiteId,
        parameter: u32,
        end: u32,
    ) -> Option<OfficeRecord>
        ensures last { result ≡ last_or None (filter (is_of_between kind site.now parameter 0 end) self.now) }
        ensures rising { IsStrictlySortedBy place_cmp (places_of self.now) }
    {
        let start = Place::of_site(kind, site, parameter, 0);
        let end = Place::of_site(kind, site, parameter, end);
        self.last_between(start, end)
    }

    /// The first record from a place on and before the end, by one search of the map.
    pub(crate) fn first_between(&self, start: Place, end: Place) -> Option<OfficeRecord>
        requires { IsSpan start end }
        ensures { result ≡ find (lies_between start end) self.now }
    {
        first(self.between(start, end))
    }

    /// The last record from a place on and before the end, by one search of the map.
    pub(crate) fn last_between(&self, start: Place, end: Place) -> Option<OfficeRecord>
        requires { IsSpan start end }
        ensures last { result ≡ last_or None (filter (lies_between start end) self.now) }
        ensures rising { IsStrictlySortedBy place_cmp (places_of self.now) }
    {
        last(self.between(start, end))
    }

    /// How many records stand from a place on and before the end, by a walk over them alone.
    pub(crate) fn count_between(&self, start: Place, end: Place) -> usize
        requires { IsSpan start end }
        ensures { result ≡ count_by (lies_between start end) self.now }
    {
        count(self.between(start, end))
    }

    /// Whether a concurrence in the event of a number agrees, by one search of the map.
    pub(crate) fn agree_to(&self, number: u32) -> bool
        ensures { result ≡ list_any (agrees_to number) self.now }
    {
        let _ = &self.by_place;
        facts::agreement(&self.get(&OfficeKey::Concurrence { number }))
    }

    /// The records from a place on and before the end, with their places.
    pub(crate) fn between(&self, start: Place, end: Place) -> Range<'_, Place, OfficeRecord>
        requires { IsSpan start end }
        ensures records { values_of result ≡ filter (lies_between start end) self.now }
        ensures rising { IsStrictlySortedBy place_cmp (places_of self.now) }
        ensures fits { length result < 2 ^ 63 }
    {
        self.by_place
            .range((Bound::Included(start), Bound::Excluded(end)))
    }

    /// Puts a record at its place, in place of one with its key.
    pub fn put(&mut self, row: OfficeRecord) -> Result<(), Memory>
        ensures ok { OnOk result (self.new ≡ with_row record_rank row self.old) }
        ensures unchanged { OnErr result (self.new ≡ self.old) }
    {
        let place = Place::of(&row.key());
        self.by_place.insert(place, row)?;
        Ok(())
    }

    /// Takes the record of a key away, if it is there.
    pub fn remove(&mut self, key: &OfficeKey)
        ensures { self.new ≡ without_row record_rank (key_numbers key.now) self.old }
    {
        let _ = self.by_place.remove(&Place::of(key));
    }
}

/// The places after that of a key, or all.
fn behind(after: &Option<OfficeKey>) -> Bound<Place>
    ensures { result ≡ behind after.now }
{
    match after {
        Some(key) => Bound::Excluded(Place::of(key)),
        None => Bound::Unbounded,
    }
}

/// The first record of a part of the map.
fn first(mut part: Range<'_, Place, OfficeRecord>) -> Option<OfficeRecord>
    ensures { result ≡ slice_get (values_of part.entry) 0 }
{
    let (_, record) = part.next()?;
    Some(*record)
}

/// The last record of a part of the map.
fn last(mut part: Range<'_, Place, OfficeRecord>) -> Option<OfficeRecord>
    ensures { result ≡ last_or None (values_of part.entry) }
{
    let (_, record) = part.next_back()?;
    Some(*record)
}

/// How many records a part of the map has.
fn count(part: Range<'_, Place, OfficeRecord>) -> usize
    requires { length part < 2 ^ 63 }
    ensures { result ≡ length part.entry }
{
    let mut count = 0;
    for _ in part {
        count += 1;
    }
    count
}
