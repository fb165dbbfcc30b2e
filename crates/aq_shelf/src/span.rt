//! A monitor's observations in some hours.
ghost use Rattle.std.specs.Prelude.{◌≡◌, ◌≤◌, ◌∷◌, [], length, IfNone, IfSome};
ghost use Rattle.std.specs.Iterator.{YieldsFirst, item_count};
ghost use Rattle.aq_shelf.specs.Extents.{first_hour, last_hour};
ghost use Rattle.aq_shelf.specs.Stretches.{hours_between};

use crate::extent::Extent;
use crate::hours::Hours;
use crate::stretch::Stretch;
use aq_base::{Hour, MOST_OBSERVATIONS, Observation};
use std::cmp::Reverse;
use std::collections::btree_map::Range;
use std::iter::{DoubleEndedIterator, Iterator};
use std::marker::Model;

/// The observations of one monitor that start in some hours, in order, each with its hour. Contracts
/// see the list of what is left.
#[derive(Drop)]
pub struct Span<'a> {
    /// What is left of a stretch.
    hours: &'a [(Hour, Observation)],
    /// The stretches after it, latest first.
    behind: Range<'a, Reverse<Stretch>, Hours>,
    from: u32,
    end: u32,
}

impl<'a> Model for Span<'a> {
    ghost use Rattle.std.specs.Prelude.{ℕ, List, ◌++◌};
    ghost use Rattle.aq_base.specs.declared.observation.Observation.{Observation};
    ghost use Rattle.aq_shelf.specs.Stretches.{hours_between};

    ghost Value = { List (ℕ × Observation) };

    ghost view = { λ span. span.hours.now ++ hours_between span.from span.end span.behind };
}

impl<'a> Span<'a> {
    /// What starts at `from` or later and before `end` in some stretches, which are latest first.
    pub(crate) fn new(
        stretches: Range<'a, Reverse<Stretch>, Hours>,
        from: u32,
        end: u32,
    ) -> Span<'a>
        ensures { result ≡ hours_between from end stretches.entry }
    {
        Span {
            hours: &[],
            behind: stretches,
            from,
            end,
        }
    }

    /// The next observation with its hour, where it stands: the iterator copies it. It is inlined, so that
    /// a loop over a span keeps its place in registers.
    #[inline(always)]
    pub fn next_standing(&mut self) -> Option<&'a (Hour, Observation)>
        ensures some { IfSome result (λ first. self.old ≡ first.now ∷ self.new) }
        ensures none { IfNone result (self.old ≡ []) }
        ensures end { IfNone result (self.new ≡ []) }
    {
        while self.hours.is_empty() {
            let (_, hours) = self.behind.next_back()?;
            self.hours = hours.between(self.from, self.end);
        }
        let first = &self.hours[0];
        self.hours = &self.hours[1..];
        Some(first)
    }

    /// What is left of the span: how much, and from which hour to which. It looks at the ends of each
    /// stretch and does not walk over its hours.
    pub fn extent(self) -> Extent
        requires { length self ≤ MOST_OBSERVATIONS }
        ensures count { result.count ≡ length self.entry }
        ensures first { result.first ≡ first_hour self.entry }
        ensures last { result.last ≡ last_hour self.entry }
    {
        let Span {
            hours,
            behind,
            from,
            end,
        } = self;
        extent_between(behind, from, end).after(hours)
    }
}

impl<'a> Iterator for Span<'a> {
    type Item = (Hour, Observation);

    ghost next_gives = { YieldsFirst (λ rest. rest) };

    ghost remaining = { item_count (λ rest. rest) };

    fn next(&mut self) -> Option<(Hour, Observation)> {
        match self.next_standing() {
            Some(first) => Some((first.0, first.1)),
            None => None,
        }
    }
}

/// The extent of what starts at `from` or later and before `end` in some stretches, which are latest
/// first.
fn extent_between(stretches: Range<'_, Reverse<Stretch>, Hours>, from: u32, end: u32) -> Extent
    requires { length (hours_between from end stretches) ≤ MOST_OBSERVATIONS }
    ensures count { result.count ≡ length (hours_between from end stretches.entry) }
    ensures first { result.first ≡ first_hour (hours_between from end stretches.entry) }
    ensures last { result.last ≡ last_hour (hours_between from end stretches.entry) }
{
    let mut seen = Extent {
        count: 0,
        first: None,
        last: None,
    };
    for (_, hours) in stretches {
        seen = seen.after(hours.between(from, end));
    }
    seen
}
