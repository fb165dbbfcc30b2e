//! The agreed events by site, pollutant, code and first hour.
ghost use Rattle.std.specs.Prelude.{◌≡◌, ◌+◌, ◌<◌, ◌≤◌, None, Some, [], true, false, drop, filter, length, not, take, ◌&&◌, ◌==◌, nat_le, IfOk, IsSome, OnOk};
ghost use Rattle.std.specs.Vec.{vec_capacity, vec_len};
ghost use Rattle.std.specs.List.{list_any, last_or, AllByRecursion};
ghost use Rattle.aq_registry.specs.Agreed.{covers, does_reach, entry_behind, is_same_series, reach_behind, spans_of, start_of, starts_before, renewed, has_number, with_span, without_number, AreAgreed, AreChained, AreInOrder, AreReached};

use crate::place::parameter;
use aq_base::{Code, Hour, Memory, Pollutant, SiteId};
use std::alloc::Global;
use std::marker::Model;

/// An hour of a site, pollutant and code. They go by site, parameter, code and hour.
#[derive(Clone, Copy, Debug, PartialEq, Eq, PartialOrd, Ord)]
pub(crate) struct Start {
    state: u8,
    county: u16,
    number: u16,
    /// As reported.
    parameter: u32,
    code_first: u8,
    code_second: u8,
    hour: u32,
}

/// The hours of an agreed event: its number, where it starts, and its last hour.
#[derive(Clone, Copy, Debug, PartialEq, Eq)]
pub(crate) struct Span {
    number: u32,
    start: Start,
    last: u32,
}

/// An agreed event, with its reach: the greatest last hour among those of its site, pollutant and code up to
/// this one in their order. An hour that does not come before its start lies in one of them exactly if it
/// does not come after the reach.
#[derive(Clone, Copy, Debug, PartialEq, Eq)]
pub(crate) struct Entry {
    span: Span,
    reach: u32,
}

/// The agreed events in the order of their starts. Contracts see the list of their spans, and how many more
/// can be put in without taking memory.
#[derive(Drop)]
pub(crate) struct Agreed {
    entries: Vec<Entry>,
}

impl Model for Agreed {
    ghost use Rattle.std.specs.Prelude.{◌-◌};
    ghost use Rattle.std.specs.Vec.{vec_capacity, vec_len};
    ghost use Rattle.aq_registry.specs.Agreed.{spans_of, AreAgreed, Held};

    ghost Value = { Held };

    ghost view = { λ agreed. record { spans = spans_of agreed.entries.items; room = vec_capacity agreed.entries - vec_len agreed.entries } };

    ghost invariant = { λ agreed. AreAgreed agreed.entries.items };
}

impl Start {
    /// An hour of a site, pollutant and code.
    pub(crate) fn of(site: &SiteId, pollutant: Pollutant, code: Code, hour: Hour) -> Start
        ensures { result ≡ start_of site.now pollutant code hour }
    {
        Start {
            state: site.state(),
            county: site.county(),
            number: site.site(),
            parameter: parameter(pollutant),
            code_first: code.first,
            code_second: code.second,
            hour: hour.number(),
        }
    }

    /// Whether it comes before another one.
    fn is_before(&self, other: &Start) -> bool
        ensures { result ≡ starts_before self.now other.now }
    {
        self < other
    }

    /// Whether the site, pollutant and code are those of another one.
    fn is_of_series(&self, other: &Start) -> bool
        ensures { result ≡ is_same_series self.now other.now }
    {
        self.state == other.state
            && self.county == other.county
            && self.number == other.number
            && self.parameter == other.parameter
            && self.code_first == other.code_first
            && self.code_second == other.code_second
    }
}

impl Span {
    /// The hours of an event, to the last.
    pub(crate) fn new(number: u32, start: Start, last: Hour) -> Span
        ensures { result ≡ record { number = number; start = start; last = last } }
    {
        Span {
            number,
            start,
            last: last.number(),
        }
    }
}

impl Entry {
    /// The entry of an event after another entry.
    fn behind(before: &Option<Entry>, span: Span) -> Entry
        ensures { result ≡ entry_behind before.now span }
    {
        let reach = match before {
            Some(before)
                if before.span.start.is_of_series(&span.start) && span.last < before.reach => {
                before.reach
            }
            _ => span.last,
        };
        Entry { span, reach }
    }
}

impl Agreed {
    /// No events. It takes no memory.
    pub(crate) fn new(alloc: Global) -> Agreed
        ensures { result.spans ≡ [] }
    {
        Agreed {
            entries: Vec::new(alloc),
        }
    }

    /// The same events.
    pub(crate) fn copy(&self) -> Result<Agreed, Memory>
        ensures { IfOk result (λ copy. copy.spans ≡ self.now.spans) }
    {
        Ok(Agreed {
            entries: self.entries.clone()?,
        })
    }

    /// Whether an event of the site, pollutant and code holds the hour, by one binary search.
    pub(crate) fn covers(&self, at: &Start) -> bool
        ensures { result ≡ list_any (covers at.now) self.now.spans }
    {
        let count = count_up_to(&self.entries, at);
        does_reach(&last_of(&self.entries, count), at)
    }

    /// Takes memory for one more event, if there is none left.
    pub(crate) fn reserve(&mut self) -> Result<(), Memory>
        ensures same { self.new.spans ≡ self.old.spans }
        ensures room { OnOk result (0 < self.new.room) }
    {
        self.entries.reserve(1)?;
        Ok(())
    }

    /// Puts the event of a number in place of the one that has it, or takes that away; `stands` says whether
    /// there may be one. It takes no memory. It costs a walk over the events if there may be one, and else
    /// a search, a shift of those that start after it, and a look at those whose reach changes.
    pub(crate) fn renew(&mut self, number: u32, stands: bool, span: Option<Span>)
        requires room { IsSome span → 0 < self.old.room }
        requires stands { stands ≡ false → has_number number self.old.spans ≡ false }
        ensures { self.new.spans ≡ renewed number span self.old.spans }
    {
        forget(&mut self.entries, number, stands);
        if let Some(span) = span {
            put(&mut self.entries, span);
        }
    }
}

/// Takes the entries of a number away, if there may be one.
fn forget(entries: &mut Vec<Entry>, number: u32, stands: bool)
    requires agreed { AreAgreed entries.old.items }
    requires stands { stands ≡ false → has_number number (spans_of entries.old.items) ≡ false }
    ensures agreed { AreAgreed entries.new.items }
    ensures spans { spans_of entries.new.items ≡ without_number number (spans_of entries.old.items) }
    ensures capacity { vec_capacity entries.new ≡ vec_capacity entries.old }
    ensures few { vec_len entries.new ≤ vec_len entries.old }
{
    if stands {
        take_away(entries, number);
        reach(entries);
    }
}

/// Takes the entries of a number away, and leaves the reaches as they are.
fn take_away(entries: &mut Vec<Entry>, number: u32)
    ensures spans { spans_of entries.new.items ≡ without_number number (spans_of entries.old.items) }
    ensures capacity { vec_capacity entries.new ≡ vec_capacity entries.old }
    ensures few { vec_len entries.new ≤ vec_len entries.old }
{
    entries.retain(|entry| entry.span.number != number);
}

/// Puts an event in its place, before those that start after it.
fn put(entries: &mut Vec<Entry>, span: Span)
    requires agreed { AreAgreed entries.old.items }
    requires room { vec_len entries.old < vec_capacity entries.old }
    ensures agreed { AreAgreed entries.new.items }
    ensures spans { spans_of entries.new.items ≡ with_span span (spans_of entries.old.items) }
{
    let place = insert(entries, span);
    reach_behind(entries, place + 1);
}

/// Puts an event in its place with its reach, and says the place. The reaches after it are those of before.
fn insert(entries: &mut Vec<Entry>, span: Span) -> usize
    requires agreed { AreAgreed entries.old.items }
    requires room { vec_len entries.old < vec_capacity entries.old }
    ensures spans { spans_of entries.new.items ≡ with_span span (spans_of entries.old.items) }
    ensures inside { result < vec_len entries.new }
    ensures reached { AreReached None (take (result + 1) entries.new.items) }
    ensures chained { AreChained (drop (result + 1) entries.new.items) }
{
    let place = count_up_to(entries, &span.start);
    let entry = Entry::behind(&last_of(entries, place), span);
    match entries.insert(place, entry) {
        Ok(()) => {}
        Err(_) => {} // This does not happen: there is room.
    }
    place
}
/// How many entries do not start after an hour of a site, pollutant and code, by one binary search.
fn count_up_to(entries: &[Entry], at: &Start) -> usize
    requires { AreInOrder (spans_of entries.now) }
    ensures few { result ≤ length entries.now }
    ensures front { AllByRecursion (λ entry. starts_before at.now entry.span.start ≡ false) (take result entries.now) }
    ensures back { AllByRecursion (λ entry. starts_before at.now entry.span.start ≡ true) (drop result entries.now) }
{
    entries.partition_point(|entry| !at.is_before(&entry.span.start))
}

/// The last of the first entries.
fn last_of(entries: &[Entry], count: usize) -> Option<Entry>
    requires { count ≤ length entries.now }
    ensures { result ≡ last_or None (take count entries.now) }
{
    if count == 0 {
        None
    } else {
        Some(entries[count - 1])
    }
}

/// Whether the events up to an entry reach an hour of its series.
fn does_reach(entry: &Option<Entry>, at: &Start) -> bool
    ensures { result ≡ does_reach at.now entry.now }
{
    match entry {
        Some(entry) => entry.span.start.is_of_series(at) && at.hour <= entry.reach,
        None => false,
    }
}

/// Sets the reaches from a place on, as far as they change: an entry that is as it should be has only such
/// after it.
fn reach_behind(entries: &mut Vec<Entry>, place: usize)
    requires inside { place ≤ vec_len entries.old }
    requires reached { AreReached None (take place entries.old.items) }
    requires chained { AreChained (drop place entries.old.items) }
    ensures same { spans_of entries.new.items ≡ spans_of entries.old.items }
    ensures reached { AreReached None entries.new.items }
{
    let mut before = last_of(entries, place);
    for i in place..entries.len() {
        let standing = entries[i];
        let entry = Entry::behind(&before, standing.span);
        if entry.reach == standing.reach {
            return;
        }
        entries[i] = entry;
        before = Some(entry);
    }
}

/// Sets the reaches of the entries.
fn reach(entries: &mut Vec<Entry>)
    ensures same { spans_of entries.new.items ≡ spans_of entries.old.items }
    ensures capacity { vec_capacity entries.new ≡ vec_capacity entries.old }
    ensures many { vec_len entries.new ≡ vec_len entries.old }
    ensures reached { AreReached None entries.new.items }
{
    let mut before = None;
    for i in 0..entries.len() {
        let entry = Entry::behind(&before, entries[i].span);
        entries[i] = entry;
        before = Some(entry);
    }
}
