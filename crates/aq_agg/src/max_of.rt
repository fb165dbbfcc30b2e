//! Greatest values.
use crate::aggregate::Aggregate;
use crate::ranked_bag::RankedBag;
use aq_base::Memory;
use std::alloc::Global;

/// The values of a bag, of which it answers the greatest, or `None` if the bag is empty.
#[derive(Drop)]
pub struct MaxOf {
    ranked: RankedBag,
}

impl Aggregate for MaxOf {
    ghost use Rattle.std.specs.Prelude.{◌≡◌, ⊤};
    ghost use Rattle.aq_rules.specs.Lists.{greatest, ranked};
    ghost use Rattle.aq_agg.specs.AnyOrder.{ranks-any_order};

    type Item = i32;

    type Answer = Option<i32>;

    ghost may_hold = { λ item. ⊤ };

    ghost is_of = { λ bag kept. kept.ranked.values.items ≡ ranked bag };

    ghost answer_of = { greatest };

    fn empty(alloc: Global) -> MaxOf {
        MaxOf {
            ranked: RankedBag::empty(alloc),
        }
    }

    fn add(&mut self, item: i32) -> Result<(), Memory> {
        self.ranked.add(item)
    }

    fn take(&mut self, item: i32) {
        self.ranked.take(item);
    }

    fn answer(&self) -> Option<i32> {
        let [first, ..] = self.ranked.answer();
        first
    }

    ghost any_order = { λ a b kept moved are. ranks-any_order a b kept.ranked.values.items moved are };
}
