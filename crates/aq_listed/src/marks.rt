//! Marks: the hours at which observations carry a code, in order.
ghost use Rattle.std.specs.Prelude.{◌≡◌, count_by};
ghost use Rattle.std.specs.List.Sorted.{IsPermutation};
ghost use Rattle.aq_listed.specs.Marks.{is_marked, lies_between, AreFew};

use crate::sorted::{count_below, count_up_to};
use aq_base::{Code, Hour, Pollutant};
use std::marker::Model;

/// An hour at which an observation of a pollutant carries a code.
#[derive(Clone, Copy, Debug, PartialEq, Eq, PartialOrd, Ord)]
pub(crate) struct Mark {
    pub(crate) pollutant: Pollutant,
    pub(crate) code: Code,
    pub(crate) hour: Hour,
}

/// Marks by pollutant, code and hour. Contracts see the list of them.
#[derive(Drop)]
pub(crate) struct Marks {
    items: Vec<Mark>,
}

impl Model for Marks {
    ghost use Rattle.std.specs.Prelude.{List};
    ghost use Rattle.aq_listed.specs.declared.marks.Mark.{Mark};
    ghost use Rattle.aq_listed.specs.Marks.{IsMarks};

    ghost Value = { List Mark };

    ghost view = { λ marks. marks.items.items };

    ghost invariant = { λ marks. IsMarks marks.items.items };
}

impl Marks {
    /// These marks, put in order.
    pub(crate) fn sorted(items: Vec<Mark>) -> Marks
        requires { AreFew items.items }
        ensures { IsPermutation items.items result }
    {
        let mut items = items;
        items.sort_unstable();
        Marks { items }
    }

    /// All of them, in order.
    pub(crate) fn as_slice(&self) -> &[Mark]
        ensures marks { result.now ≡ self.now }
        ensures few { AreFew self.now }
    {
        self.items.as_slice()
    }

    /// How many there are of a pollutant and code from one hour to another one, by two searches.
    pub(crate) fn count(&self, pollutant: Pollutant, code: Code, first: Hour, last: Hour) -> u32
        ensures { result ≡ count_by (is_marked pollutant code (lies_between first last)) self.now }
    {
        if last.number() < first.number() {
            return 0;
        }
        let start = Mark {
            pollutant,
            code,
            hour: first,
        };
        let end = Mark {
            pollutant,
            code,
            hour: last,
        };
        let before = count_below(self.items.as_slice(), &start);
        let through = count_up_to(self.items.as_slice(), &end);
        (through - before) as u32
    }
}
