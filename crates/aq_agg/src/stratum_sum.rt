//! Sums over strata.
ghost use Rattle.std.specs.Prelude.{◌≡◌, ◌≤◌};
ghost use Rattle.aq_agg.specs.StratumSums.{IsStratum, sixtieths};

use crate::aggregate::Aggregate;
use aq_base::Memory;
use std::alloc::Global;

/// The number of strata in a bag, and the sum of the parts of their samples that exceed, in sixtieths
/// (40 CFR Part 50, Appendix K, 3.1). A stratum is how many of its samples exceed and how many it has,
/// which is 1 to 6, so that each part is a whole number of sixtieths.
#[derive(Drop)]
pub struct StratumSum {
    sum: u64,
    number: u32,
}

impl Aggregate for StratumSum {
    ghost use Rattle.aq_agg.specs.AnyOrder.{strata-any_order};
    ghost use Rattle.aq_agg.specs.StratumSums.{AreOf, IsStratum, number_and_sixtieths};

    type Item = (u8, u8);

    type Answer = (u32, u64);

    ghost may_hold = { IsStratum };

    ghost is_of = { λ bag kept. AreOf bag kept.number kept.sum };

    ghost answer_of = { number_and_sixtieths };

    fn empty(_alloc: Global) -> StratumSum {
        StratumSum { sum: 0, number: 0 }
    }

    fn add(&mut self, item: (u8, u8)) -> Result<(), Memory> {
        self.sum += sixtieths(item);
        self.number += 1;
        Ok(())
    }

    fn take(&mut self, item: (u8, u8)) {
        self.sum -= sixtieths(item);
        self.number -= 1;
    }

    fn answer(&self) -> (u32, u64) {
        (self.number, self.sum)
    }

    ghost any_order = { λ a b kept moved of. strata-any_order a b kept.number kept.sum moved of };
}

/// The part of a stratum's samples that exceed, in sixtieths.
fn sixtieths(stratum: (u8, u8)) -> u64
    requires { IsStratum stratum }
    ensures value { result ≡ sixtieths stratum }
    ensures most { result ≤ 15300 }
{
    let (exceeding, samples) = stratum;
    60 * u64::from(exceeding) / u64::from(samples)
}
