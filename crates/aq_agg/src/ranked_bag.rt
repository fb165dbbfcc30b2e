//! Values in the order of their ranks.
ghost use Rattle.std.specs.Prelude.{◌≡◌, ◌≤◌, length, slice_get};
ghost use Rattle.aq_agg.specs.Ranks.{place_of};

use crate::aggregate::Aggregate;
use aq_base::Memory;
use std::alloc::Global;

/// The values of a bag, of which it answers the eight greatest downwards, equal ones each, and then
/// `None` where there are fewer. The values are kept as a list that falls: a change moves those that
/// are not above the item, of which a year has 366 at most.
#[derive(Drop)]
pub struct RankedBag {
    values: Vec<i32>,
}

impl Aggregate for RankedBag {
    ghost use Rattle.std.specs.Prelude.{◌≡◌, ⊤};
    ghost use Rattle.aq_rules.specs.Lists.{ranked};
    ghost use Rattle.aq_agg.specs.AnyOrder.{ranks-any_order};
    ghost use Rattle.aq_agg.specs.Ranks.{top_eight};

    type Item = i32;

    type Answer = [Option<i32>; 8];

    ghost may_hold = { λ item. ⊤ };

    ghost is_of = { λ bag kept. kept.values.items ≡ ranked bag };

    ghost answer_of = { top_eight };

    #[tactic(auto, unfolding(aq_rules::specs::Lists::ranked))]
    fn empty(alloc: Global) -> RankedBag {
        RankedBag {
            values: Vec::new(alloc),
        }
    }

    fn add(&mut self, item: i32) -> Result<(), Memory> {
        let place = place_among(self.values.as_slice(), item);
        match self.values.insert(place, item) {
            Ok(()) => Ok(()),
            Err(_) => Err(Memory),
        }
    }

    fn take(&mut self, item: i32) {
        let place = place_among(self.values.as_slice(), item);
        self.values.remove(place);
    }

    fn answer(&self) -> [Option<i32>; 8] {
        let values = self.values.as_slice();
        [
            value_at(values, 0),
            value_at(values, 1),
            value_at(values, 2),
            value_at(values, 3),
            value_at(values, 4),
            value_at(values, 5),
            value_at(values, 6),
            value_at(values, 7),
        ]
    }

    ghost any_order = { λ a b kept moved are. ranks-any_order a b kept.values.items moved are };
}

/// The place of the first value that is not above the given one, among values that fall.
fn place_among(values: &[i32], value: i32) -> usize
    ensures place { result ≡ place_of value values.now }
    ensures within { result ≤ length values.now }
{
    let mut place = 0;
    while place < values.len() && value < values[place] {
        place += 1;
    }
    place
}

/// The value at a place, if there are so many.
fn value_at(values: &[i32], place: usize) -> Option<i32>
    ensures { result ≡ slice_get values.now place }
{
    values.get(place).copied()
}
