//! The eight greatest of some values, as those of a PM2.5 year.
ghost use Rattle.std.specs.Prelude.{◌≡◌, ◌≤◌, ◌-◌, [], IsTrue, take, replicate, length, slice_get};
ghost use Rattle.aq_rules.specs.Lists.{ranked_in};
ghost use Rattle.aq_verdict.specs.Inserted.{inserted, is_higher, higher, lower, joined};
ghost use Rattle.aq_verdict.specs.Top.{given, placed, descends, HoldsTop};

use std::marker::Model;

/// The eight greatest of some values, downwards, equal ones each; fewer if there are not eight. Contracts
/// see the list of them.
#[derive(Clone, Copy, Debug, PartialEq, Eq)]
pub struct TopEight {
    places: [Option<i32>; 8],
}

impl Model for TopEight {
    ghost use Rattle.std.specs.Prelude.{List, ℤ};
    ghost use Rattle.aq_verdict.specs.Top.{given, placed, HoldsTop};
    ghost use Rattle.aq_verdict.specs.Places.{placed-given};

    ghost Value = { List ℤ };

    ghost view = { λ top. given top.places };

    ghost invariant = { λ top. HoldsTop top.places };

    ghost inverse = { λ values. record { places = placed 8 values } };

    ghost inverse_ok = { λ top holds. placed-given top.places holds };
}

impl TopEight {
    /// Of no values.
    pub fn new() -> TopEight
        ensures { result ≡ [] }
    {
        TopEight::of_places([None; 8])
    }

    /// The values in these places.
    fn of_places(places: [Option<i32>; 8]) -> TopEight
        requires { IsTrue (descends places) }
        ensures { result ≡ given places }
    {
        TopEight { places }
    }

    /// The places of the values.
    pub(crate) fn places(&self) -> &[Option<i32>; 8]
        ensures value { result.now ≡ placed 8 self.now }
        ensures given { given result.now ≡ self.now }
        ensures falls { IsTrue (descends result.now) }
        ensures eight { length result.now ≡ 8 }
    {
        &self.places
    }

    /// The eight greatest of these values and one more.
    pub fn with_value(&self, value: i32) -> TopEight
        ensures { result ≡ take 8 (ranked_in value self.now) }
    {
        TopEight::of_places(joined(self.places(), Some(value)))
    }

    /// The eight greatest of these values and so many copies of one more.
    pub(crate) fn with_copies(&self, value: i32, number: u8) -> TopEight
        ensures { result ≡ take 8 (inserted (replicate number value) self.now) }
    {
        let mut top = TopEight::of_places(*self.places());
        for _copy in 0..number {
            top = top.with_value(value);
        }
        top
    }

    /// The value of a rank, counted from the greatest one, which is 1.
    pub(crate) fn value_at(&self, rank: u8) -> Option<i32>
        requires some { 1 ≤ rank }
        requires few { rank ≤ 8 }
        ensures { result ≡ slice_get self.now (rank - 1) }
    {
        self.places()[usize::from(rank) - 1]
    }
}

// Each place keeps the higher of its value and of what moves on from the place above.
fn joined(places: &[Option<i32>; 8], value: Option<i32>) -> [Option<i32>; 8]
    ensures { result ≡ joined value places.now }
{
    let [a, b, c, d, e, f, g, h] = *places;
    [
        higher(a, value),
        higher(b, lower(a, value)),
        higher(c, lower(b, value)),
        higher(d, lower(c, value)),
        higher(e, lower(d, value)),
        higher(f, lower(e, value)),
        higher(g, lower(f, value)),
        higher(h, lower(g, value)),
    ]
}

fn higher(place: Option<i32>, value: Option<i32>) -> Option<i32>
    ensures { result ≡ higher place value }
{
    if is_higher(place, value) {
        place
    } else {
        value
    }
}

fn lower(place: Option<i32>, value: Option<i32>) -> Option<i32>
    ensures { result ≡ lower place value }
{
    if is_higher(place, value) {
        value
    } else {
        place
    }
}

fn is_higher(place: Option<i32>, value: Option<i32>) -> bool
    ensures { result ≡ is_higher place value }
{
    match (place, value) {
        (None, _) => false,
        (Some(_), None) => true,
        (Some(other), Some(value)) => value < other,
    }
}
