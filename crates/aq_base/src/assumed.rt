//! What a verdict would be if events were concurred in or not (own).
use crate::standard::Verdict;
use std::marker::Model;

/// A list of assumed concurrences has at most this many entries.
pub const MOST_ASSUMED: usize = 64;

const BLANK: Assumed = Assumed {
    number: 0,
    agreed: false,
};

/// An event, by its number, and whether it is taken to be concurred in.
#[derive(Clone, Copy, Debug, PartialEq, Eq)]
pub struct Assumed {
    pub number: u32,
    pub agreed: bool,
}

/// An event, by its number, that alone changes a verdict if its concurrence is turned round, and the
/// verdict then.
#[derive(Clone, Copy, Debug, PartialEq, Eq)]
pub struct DecisiveEvent {
    pub number: u32,
    pub verdict: Verdict,
}

/// At most 64 assumed concurrences, in the order in which they are given. A number may come more than
/// once. Contracts see the list. It takes no memory.
#[derive(Clone, Copy, Debug, PartialEq, Eq)]
pub struct AssumedList {
    places: [Assumed; MOST_ASSUMED],
    count: u8,
}

impl Model for AssumedList {
    ghost use Rattle.std.specs.Prelude.{List, length, take};
    ghost use Rattle.aq_base.specs.declared.assumed.Assumed.{Assumed};

    ghost Value = { List Assumed };

    ghost view = { λ list. take list.count list.places };

    ghost use Rattle.aq_base.specs.Assuming.{HoldsAssumed, assumed_places};

    ghost invariant = { λ list. HoldsAssumed list.places list.count };

    ghost inverse = { λ entries. record { places = assumed_places entries; count = length entries } };

    ghost use Rattle.aq_base.specs.AssumedPlaces.{assumed_places-take};

    ghost inverse_ok = { λ list holds. assumed_places-take list.places list.count holds };
}

impl AssumedList {
    ghost use Rattle.std.specs.Prelude.{◌≡◌, ◌≤◌, [], length};
    ghost use Rattle.aq_base.specs.Assuming.{has_room, with_assumed};

    /// No entries.
    pub fn new() -> AssumedList
        ensures { result ≡ [] }
    {
        AssumedList {
            places: [BLANK; MOST_ASSUMED],
            count: 0,
        }
    }

    /// Puts an entry last. The answer is `false`, and nothing changes, exactly if 64 are there.
    pub fn add(&mut self, assumed: Assumed) -> bool
        ensures taken { result ≡ has_room self.old }
        ensures entries { self.new ≡ with_assumed self.old assumed }
    {
        if usize::from(self.count) == MOST_ASSUMED {
            return false;
        }
        self.places[usize::from(self.count)] = assumed;
        self.count += 1;
        true
    }

    /// All entries, in order.
    pub fn as_slice(&self) -> &[Assumed]
        ensures value { result.now ≡ self.now }
        ensures few { length result.now ≤ MOST_ASSUMED }
    {
        &self.places[..usize::from(self.count)]
    }
}
