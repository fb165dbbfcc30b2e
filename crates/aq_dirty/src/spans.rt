//! Spans of numbers of sites: of hours, days or years.
ghost use Rattle.std.specs.Prelude.{◌≡◌, ◌≤◌, ◌<◌, ◌+◌, ◌++◌, ◌&&◌, ◌||◌, ℕ, None, Some, [], true, false, not, IfSome, IsTrue, OnOk};
ghost use Rattle.std.specs.List.{AllByRecursion, list_any};
ghost use Rattle.std.specs.VecDeque.{deque_len, deque_capacity};
ghost use Rattle.aq_base.specs.Site.{Site};
ghost use Rattle.aq_dirty.specs.Spans.{covers, first_of, holds, in_front, is_in_front, last_of, left_of, lengthened, reaches, starts_before, AreParts, AreSpans};

use aq_base::{Memory, SiteId};
use std::alloc::Global;
use std::collections::VecDeque;
use std::marker::Model;

/// The numbers of a site from the first to the last.
#[derive(Clone, Copy, Debug, PartialEq, Eq)]
pub(crate) struct Span {
    pub(crate) site: SiteId,
    pub(crate) first: u32,
    pub(crate) last: u32,
}

impl Span {
    /// Whether it starts before another one: at a site that comes before the other's, or at one site at a
    /// lower number.
    fn is_before(&self, other: &Span) -> bool
        ensures { result ≡ starts_before self.now other.now }
    {
        self.site < other.site || (self.site == other.site && self.first < other.first)
    }

    /// Whether a span is of the same site, and starts at `end` or before.
    fn is_joined_by(&self, other: &Span, end: u32) -> bool
        ensures { result ≡ in_front self.now end other.now }
    {
        self.site == other.site && other.first <= end
    }

    /// Whether another span of the same site starts no earlier, and at most one number behind its end.
    fn reaches(&self, other: &Span) -> bool
        ensures { result ≡ reaches self.now other.now }
    {
        self.site == other.site
            && self.first <= other.first
            && other.first.saturating_sub(1) <= self.last
    }

    /// The same span, to the end of another one if that ends later.
    fn lengthened(&self, other: &Span) -> Span
        ensures { result ≡ lengthened self.now other.now }
    {
        Span {
            site: self.site,
            first: self.first,
            last: self.last.max(other.last),
        }
    }
}

/// Spans in the order of their sites and first numbers, which may overlap, in two parts: those up to the
/// place where one was added last, and those behind it. Spans that come in rising order, as the changes of
/// a load do, each find their place at the last one, so no other is moved for them. Contracts see the list
/// of them, and how many more can be added without taking memory.
#[derive(Drop)]
pub(crate) struct Spans {
    front: VecDeque<Span>,
    back: VecDeque<Span>,
}

impl Model for Spans {
    ghost use Rattle.std.specs.Prelude.{◌+◌, ◌++◌};
    ghost use Rattle.std.specs.VecDeque.{deque_capacity, deque_len};
    ghost use Rattle.aq_dirty.specs.Spans.{room_in, AreParts, Held};

    ghost Value = { Held };

    ghost view = { λ spans. record { spans = spans.front.items ++ spans.back.items; room = room_in (deque_len spans.front + deque_len spans.back) (deque_capacity spans.front) (deque_capacity spans.back) } };

    ghost invariant = { λ spans. AreParts (spans.front.items ++ spans.back.items) (deque_len spans.front + deque_len spans.back) (deque_capacity spans.front) (deque_capacity spans.back) };
}

impl Spans {
    /// No spans. It takes no memory.
    pub(crate) fn new(alloc: Global) -> Spans
        ensures { result.spans ≡ [] }
    {
        Spans {
            front: VecDeque::new(alloc),
            back: VecDeque::new(alloc),
        }
    }

    /// Whether a number of a site lies in one of the spans, by a walk over them.
    pub(crate) fn holds(&self, site: SiteId, number: u32) -> bool
        ensures { result ≡ holds site number self.now.spans }
    {
        any_holds(&self.front, site, number) || any_holds(&self.back, site, number)
    }

    /// Takes memory for more spans, if there is none left.
    pub(crate) fn reserve(&mut self, count: usize) -> Result<(), Memory>
        ensures same { self.new.spans ≡ self.old.spans }
        ensures room { OnOk result (count ≤ self.new.room) }
    {
        reserve_beside(&mut self.front, &self.back, count)?;
        reserve_beside(&mut self.back, &self.front, count)
    }

    /// Adds the numbers of a span. It takes no memory. Spans that come in rising order mostly lengthen the
    /// one before them.
    pub(crate) fn add(&mut self, span: Span)
        requires some { span.first ≤ span.last }
        requires room { 0 < self.old.room }
        ensures holds { (site : Site) (number : ℕ) → holds site number self.new.spans ≡ (holds site number self.old.spans || covers site number span) }
        ensures room { self.old.room ≤ self.new.room + 1 }
    {
        part_at(&mut self.front, &mut self.back, &span);
        add_last(&mut self.front, &self.back, span);
    }

    /// The first span, if there is one.
    pub(crate) fn first(&self) -> Option<Span>
        ensures value { result ≡ first_of self.now.spans }
        ensures some { IfSome result (λ span. span.first ≤ span.last) }
        ensures held { IfSome result (λ span. (number : ℕ) → span.first ≤ number → number ≤ span.last → holds span.site number self.now.spans ≡ true) }
    {
        if let Some(first) = self.front.front() {
            return Some(*first);
        }
        let first = self.back.front()?;
        Some(*first)
    }

    /// Takes the numbers of the first span's site up to `end` away, and no others. It takes no memory.
    pub(crate) fn drop_to(&mut self, end: u32)
        requires { IfSome (first_of self.old.spans) (λ span. span.first ≤ end) }
        ensures { (site : Site) (number : ℕ) → holds site number self.new.spans ≡ (holds site number self.old.spans && not (is_in_front self.old.spans end site number)) }
    {
        join(&mut self.front, &mut self.back);
        drop_front(&mut self.back, end);
    }
}

/// Whether a number of a site lies in one of the spans, by a walk over them.
fn any_holds(spans: &VecDeque<Span>, site: SiteId, number: u32) -> bool
    ensures { result ≡ holds site number spans.now.items }
{
    spans.iter().any(|span| span.site == site && span.first <= number && number <= span.last)
}

/// Takes memory for so many spans more than a part and the part beside it have.
fn reserve_beside(
    part: &mut VecDeque<Span>,
    beside: &VecDeque<Span>,
    count: usize,
) -> Result<(), Memory>
    ensures same { part.new.items ≡ part.old.items }
    ensures more { deque_capacity part.old ≤ deque_capacity part.new }
    ensures room { OnOk result
        (deque_len part.new + deque_len beside.now + count ≤ deque_capacity part.new) }
{
    let Some(count) = count.checked_add(beside.len()) else {
        return Err(Memory); // No memory holds so many.
    };
    part.reserve(count)?;
    Ok(())
}

/// Parts the spans at the place of a span: behind it are those that start after it.
fn part_at(front: &mut VecDeque<Span>, back: &mut VecDeque<Span>, span: &Span)
    requires are { AreParts (front.old.items ++ back.old.items) (deque_len front.old + deque_len back.old) (deque_capacity front.old) (deque_capacity back.old) }
    ensures same { front.new.items ++ back.new.items ≡ front.old.items ++ back.old.items }
    ensures front { AllByRecursion (λ other. starts_before span.now other ≡ false) front.new.items }
    ensures back { AllByRecursion (λ other. starts_before span.now other ≡ true) back.new.items }
    ensures len { deque_len front.new + deque_len back.new ≡ deque_len front.old + deque_len back.old }
    ensures front_room { deque_capacity front.new ≡ deque_capacity front.old }
    ensures back_room { deque_capacity back.new ≡ deque_capacity back.old }
{
    put_back(front, back, span);
    bring_forward(front, back, span);
}

/// Puts spans of the front that start after a span to the back, from the last one on.
fn put_back(front: &mut VecDeque<Span>, back: &mut VecDeque<Span>, span: &Span)
    requires are { AreParts (front.old.items ++ back.old.items) (deque_len front.old + deque_len back.old) (deque_capacity front.old) (deque_capacity back.old) }
    ensures same { front.new.items ++ back.new.items ≡ front.old.items ++ back.old.items }
    ensures front { AllByRecursion (λ other. starts_before span.now other ≡ false) front.new.items }
    ensures len { deque_len front.new + deque_len back.new ≡ deque_len front.old + deque_len back.old }
    ensures front_room { deque_capacity front.new ≡ deque_capacity front.old }
    ensures back_room { deque_capacity back.new ≡ deque_capacity back.old }
{
    while let Some(last) = front.pop_back() {
        if !span.is_before(&last) {
            front.push_back_reserved(last);
            break;
        }
        back.push_front_reserved(last);
    }
}

/// Puts spans of the back that do not start after a span to the front, from the first one on.
fn bring_forward(front: &mut VecDeque<Span>, back: &mut VecDeque<Span>, span: &Span)
    requires are { AreParts (front.old.items ++ back.old.items) (deque_len front.old + deque_len back.old) (deque_capacity front.old) (deque_capacity back.old) }
    requires front { AllByRecursion (λ other. starts_before span.now other ≡ false) front.old.items }
    ensures same { front.new.items ++ back.new.items ≡ front.old.items ++ back.old.items }
    ensures front { AllByRecursion (λ other. starts_before span.now other ≡ false) front.new.items }
    ensures back { AllByRecursion (λ other. starts_before span.now other ≡ true) back.new.items }
    ensures len { deque_len front.new + deque_len back.new ≡ deque_len front.old + deque_len back.old }
    ensures front_room { deque_capacity front.new ≡ deque_capacity front.old }
    ensures back_room { deque_capacity back.new ≡ deque_capacity back.old }
{
    while let Some(first) = back.pop_front() {
        if span.is_before(&first) {
            back.push_front_reserved(first);
            break;
        }
        front.push_back_reserved(first);
    }
}

/// Adds the numbers of a span to the front, of which none starts after it, as all of the back do.
fn add_last(front: &mut VecDeque<Span>, back: &VecDeque<Span>, span: Span)
    requires are { AreSpans (front.old.items ++ back.now.items) }
    requires some { span.first ≤ span.last }
    requires front { AllByRecursion (λ other. starts_before span other ≡ false) front.old.items }
    requires back { AllByRecursion (λ other. starts_before span other ≡ true) back.now.items }
    requires room { deque_len front.old < deque_capacity front.old }
    ensures are { AreSpans (front.new.items ++ back.now.items) }
    ensures holds { (site : Site) (number : ℕ) → holds site number (front.new.items ++ back.now.items) ≡ (holds site number (front.old.items ++ back.now.items) || covers site number span) }
    ensures len { deque_len front.new ≤ deque_len front.old + 1 }
    ensures room { deque_capacity front.new ≡ deque_capacity front.old }
{
    if !lengthen_last(front, back, &span) {
        front.push_back_reserved(span);
    }
}

/// Lengthens the last span of the front by the numbers of a span, if it reaches them, and says whether it
/// does.
fn lengthen_last(front: &mut VecDeque<Span>, back: &VecDeque<Span>, span: &Span) -> bool
    requires are { AreSpans (front.old.items ++ back.now.items) }
    ensures are { IsTrue result → AreSpans (front.new.items ++ back.now.items) }
    ensures joined { IsTrue result → (site : Site) (number : ℕ) → holds site number (front.new.items ++ back.now.items) ≡ (holds site number (front.old.items ++ back.now.items) || covers site number span.now) }
    ensures same { result ≡ false → front.new.items ≡ front.old.items }
    ensures len { deque_len front.new ≡ deque_len front.old }
    ensures room { deque_capacity front.new ≡ deque_capacity front.old }
{
    if let Some(last) = front.pop_back() {
        if last.reaches(span) {
            front.push_back_reserved(last.lengthened(span));
            return true;
        }
        front.push_back_reserved(last);
    }
    false
}

/// Puts all spans of the front to the back.
fn join(front: &mut VecDeque<Span>, back: &mut VecDeque<Span>)
    requires room { deque_len front.old + deque_len back.old ≤ deque_capacity back.old }
    ensures none { front.new.items ≡ [] }
    ensures same { back.new.items ≡ front.old.items ++ back.old.items }
    ensures front_room { deque_capacity front.new ≡ deque_capacity front.old }
    ensures back_room { deque_capacity back.new ≡ deque_capacity back.old }
{
    while let Some(last) = front.pop_back() {
        back.push_front_reserved(last);
    }
}

/// Takes the numbers of the first span's site up to `end` away, and no others.
fn drop_front(spans: &mut VecDeque<Span>, end: u32)
    requires are { AreSpans spans.old.items }
    requires first { IfSome (first_of spans.old.items) (λ span. span.first ≤ end) }
    ensures are { AreSpans spans.new.items }
    ensures holds { (site : Site) (number : ℕ) → holds site number spans.new.items ≡ (holds site number spans.old.items && not (is_in_front spans.old.items end site number)) }
    ensures fewer { deque_len spans.new ≤ deque_len spans.old }
    ensures room { deque_capacity spans.new ≡ deque_capacity spans.old }
{
    if let Some(front) = spans.pop_front() {
        let last = absorb(spans, &front, end);
        if end < last {
            spans.push_front_reserved(Span {
                site: front.site,
                first: end + 1,
                last,
            });
        }
    }
}

/// Takes the spans of a span's site in front that start at `end` or before away, and answers the greatest
/// last number of them and of that span.
fn absorb(spans: &mut VecDeque<Span>, front: &Span, end: u32) -> u32
    ensures last { result ≡ last_of front.now end front.now.last spans.old.items }
    ensures left { spans.new.items ≡ left_of front.now end spans.old.items }
    ensures fewer { deque_len spans.new ≤ deque_len spans.old }
    ensures room { deque_capacity spans.new ≡ deque_capacity spans.old }
{
    let mut last = front.last;
    while let Some(span) = spans.front() {
        if !front.is_joined_by(span, end) {
            break;
        }
        last = last.max(span.last);
        spans.pop_front();
    }
    last
}
