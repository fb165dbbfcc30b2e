//! The strata of a quarter, taken together.
use aq_agg::{Aggregate, StratumSum};
use aq_base::Memory;
use std::alloc::Global;

/// Of strata with samples: how many, the parts of their samples that exceed, in sixtieths, how many samples,
/// and how many of these exceed.
#[derive(Clone, Copy, Debug, PartialEq, Eq)]
pub(crate) struct StrataSummary {
    pub(crate) strata: u32,
    pub(crate) sixtieths: u64,
    pub(crate) samples: u64,
    pub(crate) exceedances: u64,
}

/// The strata of a bag, each as how many of its samples exceed and how many it has, of which it answers all
/// of these numbers.
#[derive(Drop)]
pub(crate) struct StrataTotals {
    sum: StratumSum,
    samples: u64,
    exceedances: u64,
}

impl Aggregate for StrataTotals {
    ghost use Rattle.aq_agg.specs.StratumSums.{IsStratum};
    ghost use Rattle.aq_particle_cells.specs.Pm10.StrataTotals.{strata_summary, AreTotalsOf, totals-any_order};

    type Item = (u8, u8);

    type Answer = StrataSummary;

    ghost may_hold = { IsStratum };

    ghost is_of = { λ bag kept. AreTotalsOf bag kept };

    ghost answer_of = { strata_summary };

    fn empty(alloc: Global) -> StrataTotals {
        StrataTotals {
            sum: StratumSum::empty(alloc),
            samples: 0,
            exceedances: 0,
        }
    }

    fn add(&mut self, item: (u8, u8)) -> Result<(), Memory> {
        self.sum.add(item)?;
        self.samples += u64::from(item.1);
        self.exceedances += u64::from(item.0);
        Ok(())
    }

    fn take(&mut self, item: (u8, u8)) {
        self.sum.take(item);
        self.samples -= u64::from(item.1);
        self.exceedances -= u64::from(item.0);
    }

    fn answer(&self) -> StrataSummary {
        let (strata, sixtieths) = self.sum.answer();
        StrataSummary {
            strata,
            sixtieths,
            samples: self.samples,
            exceedances: self.exceedances,
        }
    }

    ghost any_order = { λ a b kept moved of. totals-any_order a b kept moved of };
}
