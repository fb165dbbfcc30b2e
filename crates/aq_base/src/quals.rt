use crate::code::Code;
use std::marker::Model;

/// An observation has at most this many qualifier codes.
pub const MOST_QUALIFIERS: usize = 10;

const BLANK: Code = Code {
    first: 0,
    second: 0,
};

/// The qualifier codes of an observation, none twice, in the order in which the line has them.
/// Contracts see the list of codes. It takes no memory.
#[derive(Clone, Copy, Debug, PartialEq, Eq)]
pub struct Quals {
    places: [Code; MOST_QUALIFIERS],
    count: u8,
}

impl Model for Quals {
    ghost use Rattle.std.specs.Prelude.{List, length, take};
    ghost use Rattle.aq_base.specs.declared.code.Code.{Code};

    ghost Value = { List Code };

    ghost use Rattle.aq_base.specs.Quals.{HoldsCodes, padded};

    ghost view = { λ quals. take quals.count quals.places };

    ghost invariant = { λ quals. HoldsCodes quals.places quals.count };

    ghost inverse = { λ codes. record { places = padded codes; count = length codes } };

    ghost use Rattle.aq_base.specs.Places.{padded-take};

    ghost inverse_ok = { λ quals holds. padded-take quals.places quals.count holds };
}

impl Quals {
    ghost use Rattle.std.specs.Prelude.{◌≡◌, ◌≤◌, [], length, IsTrue};
    ghost use Rattle.aq_base.specs.Quals.{has_code, with_code, all_distinct};

    /// No codes.
    pub fn new() -> Quals
        ensures { result ≡ [] }
    {
        Quals {
            places: [BLANK; MOST_QUALIFIERS],
            count: 0,
        }
    }

    /// Puts a new code last, and changes nothing for one that is there.
    pub fn add(&mut self, code: Code)
        requires { length (with_code self.old code) ≤ MOST_QUALIFIERS }
        ensures { self.new ≡ with_code self.old code }
    {
        if !self.has(code) {
            self.places[usize::from(self.count)] = code;
            self.count += 1;
        }
    }

    // Whether a code is there.
    fn has(&self, code: Code) -> bool
        ensures { result ≡ has_code code self.now }
    {
        self.codes().iter().any(|other| *other == code)
    }

    /// The codes, in order.
    pub fn codes(&self) -> &[Code]
        ensures value { result.now ≡ self.now }
        ensures few { length result.now ≤ MOST_QUALIFIERS }
        ensures distinct { IsTrue (all_distinct result.now) }
    {
        &self.places[..usize::from(self.count)]
    }
}
