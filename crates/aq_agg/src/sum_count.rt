//! Sums and numbers of values.
use crate::aggregate::Aggregate;
use aq_base::Memory;
use std::alloc::Global;

/// The sum of the values in a bag, and their number.
#[derive(Drop)]
pub struct SumCount {
    sum: i64,
    number: u32,
}

impl Aggregate for SumCount {
    ghost use Rattle.std.specs.Prelude.{⊤};
    ghost use Rattle.aq_agg.specs.AnyOrder.{sums-any_order};
    ghost use Rattle.aq_agg.specs.Sums.{AreOf, sum_and_number};

    type Item = i32;

    type Answer = (i64, u32);

    ghost may_hold = { λ item. ⊤ };

    ghost is_of = { λ bag kept. AreOf bag kept.sum kept.number };

    ghost answer_of = { sum_and_number };

    fn empty(_alloc: Global) -> SumCount {
        SumCount { sum: 0, number: 0 }
    }

    fn add(&mut self, item: i32) -> Result<(), Memory> {
        self.sum += i64::from(item);
        self.number += 1;
        Ok(())
    }

    fn take(&mut self, item: i32) {
        self.sum -= i64::from(item);
        self.number -= 1;
    }

    fn answer(&self) -> (i64, u32) {
        (self.sum, self.number)
    }

    ghost any_order = { λ a b kept moved of. sums-any_order a b kept.sum kept.number moved of };
}
