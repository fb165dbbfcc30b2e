//! The values of a quarter, taken together.
ghost use Rattle.std.specs.Prelude.{◌≡◌, ◌≤ℤ◌, neg_ℤ, pos, option_map, IfSome};
ghost use Rattle.aq_series.specs.DayCells.{IsParticle};

use aq_agg::{Aggregate, MaxOf, SumCount};
use aq_base::Memory;
use std::alloc::Global;

/// The sum of values in tenths of a µg/m3 and their number, the least and the greatest one.
#[derive(Clone, Copy, Debug, PartialEq, Eq)]
pub(crate) struct ValueSummary {
    pub(crate) sum: i64,
    pub(crate) number: u32,
    pub(crate) least: Option<i32>,
    pub(crate) greatest: Option<i32>,
}

/// The values of a bag, in tenths of a µg/m3, of which it answers the sum and the number, the least and the
/// greatest one. The least one is found as the greatest of the negated values.
#[derive(Drop)]
pub(crate) struct DayValues {
    sums: SumCount,
    greatest: MaxOf,
    least: MaxOf,
}

impl Aggregate for DayValues {
    ghost use Rattle.std.specs.Prelude.{◌≡◌};
    ghost use Rattle.aq_series.specs.DayCells.{IsParticle};
    ghost use Rattle.aq_particle_cells.specs.Pm25.DayValues.{summary_of, AreValuesOf, values-any_order};

    type Item = i32;

    type Answer = ValueSummary;

    ghost may_hold = { IsParticle };

    ghost is_of = { λ bag kept. AreValuesOf bag kept };

    ghost answer_of = { summary_of };

    fn empty(alloc: Global) -> DayValues {
        DayValues {
            sums: SumCount::empty(alloc),
            greatest: MaxOf::empty(alloc),
            least: MaxOf::empty(alloc),
        }
    }

    fn add(&mut self, item: i32) -> Result<(), Memory> {
        self.greatest.add(item)?;
        if self.least.add(negated(item)).is_err() {
            self.greatest.take(item);
            return Err(Memory);
        }
        if self.sums.add(item).is_err() {
            self.greatest.take(item);
            self.least.take(negated(item));
            return Err(Memory);
        }
        Ok(())
    }

    fn take(&mut self, item: i32) {
        self.sums.take(item);
        self.greatest.take(item);
        self.least.take(negated(item));
    }

    fn answer(&self) -> ValueSummary {
        let (sum, number) = self.sums.answer();
        let least = mirrored(&self.least.answer());
        ValueSummary {
            sum,
            number,
            least,
            greatest: self.greatest.answer(),
        }
    }

    ghost any_order = { λ a b kept moved of. values-any_order a b kept moved of };
}

/// A value, if there is one, that is as far from zero on the other side.
fn mirrored(value: &Option<i32>) -> Option<i32>
    ensures { IfSome value.now (λ v. neg_ℤ (pos 2147483647) ≤ℤ v) → result
        ≡ option_map neg_ℤ value.now }
{
    match value {
        Some(value) => Some(opposite(*value)),
        None => None,
    }
}

/// The value that is as far from zero on the other side, but the greatest one of the least.
fn opposite(value: i32) -> i32
    ensures { neg_ℤ (pos 2147483647) ≤ℤ value → result ≡ neg_ℤ value }
{
    if value == i32::MIN { i32::MAX } else { -value }
}

/// The value that is as far from zero on the other side.
fn negated(value: i32) -> i32
    requires { IsParticle value }
    ensures { result ≡ neg_ℤ value }
{
    -value
}
