//! The hours of which an extract says something, one after the other.
ghost use Rattle.std.specs.Prelude.{◌≡◌, map};
ghost use Rattle.aq_staging.specs.Extracts.Said.{hour_of, with_first};

use aq_base::Hour;
use aq_shelf::Span;
use std::marker::Model;

/// The hours of a monitor of which an extract says something, from some hour on. A proof sees their list.
#[derive(Drop)]
pub(crate) struct SaidHours<'a> {
    /// The first of them. Without one there are none.
    first: Option<Hour>,
    /// What the extract says after it.
    rest: Span<'a>,
}

impl<'a> Model for SaidHours<'a> {
    ghost use Rattle.std.specs.Prelude.{ℕ, List, map};
    ghost use Rattle.aq_staging.specs.Extracts.Said.{hour_of, with_first};

    ghost Value = { List ℕ };

    ghost view = { λ said. with_first said.first (map hour_of said.rest) };
}

impl<'a> SaidHours<'a> {
    ghost use Rattle.std.specs.Prelude.{◌≡◌, map};
    ghost use Rattle.aq_staging.specs.Extracts.Said.{from_hour, hour_of, starts_at, starts_before};

    /// The hours of what an extract says at a monitor.
    pub(crate) fn new(span: Span<'a>) -> SaidHours<'a>
        ensures { result ≡ map hour_of span.entry }
    {
        let mut rest = span;
        let first = next_hour(&mut rest);
        SaidHours { first, rest }
    }

    /// Passes over the hours before this one.
    pub(crate) fn pass_over(&mut self, hour: Hour)
        ensures { self.new ≡ from_hour hour self.old }
    {
        while self.starts_before(hour) {
            self.first = next_hour(&mut self.rest);
        }
    }

    /// Whether the first hour is before this one.
    fn starts_before(&self, hour: Hour) -> bool
        ensures { result ≡ starts_before hour self.now }
    {
        match self.first {
            Some(first) => first.number() < hour.number(),
            None => false,
        }
    }

    /// Whether the first hour is this one.
    pub(crate) fn starts_at(&self, hour: Hour) -> bool
        ensures { result ≡ starts_at hour self.now }
    {
        match self.first {
            Some(first) => first.number() == hour.number(),
            None => false,
        }
    }
}

/// The hour of the next item of a span, if there is one.
fn next_hour(span: &mut Span<'_>) -> Option<Hour>
    ensures { map hour_of span.old ≡ with_first result (map hour_of span.new) }
{
    match span.next_standing() {
        Some(item) => Some(item.0),
        None => None,
    }
}
