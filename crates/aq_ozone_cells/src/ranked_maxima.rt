//! The ranked maxima of a year.
ghost use Rattle.std.specs.Prelude.{◌≡◌};

use aq_agg::{Aggregate, RankedBag};
use aq_base::Memory;
use std::alloc::Global;

/// The maxima of a bag, in thousandths of a ppm, of which it answers how many there are and the fourth
/// greatest, equal ones each.
#[derive(Drop)]
pub(crate) struct RankedMaxima {
    values: RankedBag,
    number: u32,
}

impl Aggregate for RankedMaxima {
    ghost use Rattle.std.specs.Prelude.{◌≡◌};
    ghost use Rattle.aq_series.specs.Samples.{IsOzone};
    ghost use Rattle.aq_ozone_cells.specs.RankedMaxima.{number_and_fourth, AreRanksOf, ranks-any_order};

    type Item = i32;

    type Answer = (u32, Option<i32>);

    ghost may_hold = { IsOzone };

    ghost is_of = { λ bag kept. AreRanksOf bag kept };

    ghost answer_of = { number_and_fourth };

    fn empty(alloc: Global) -> RankedMaxima {
        RankedMaxima {
            values: RankedBag::empty(alloc),
            number: 0,
        }
    }

    fn add(&mut self, item: i32) -> Result<(), Memory> {
        self.values.add(item)?;
        self.number += 1;
        Ok(())
    }

    fn take(&mut self, item: i32) {
        self.values.take(item);
        self.number -= 1;
    }

    fn answer(&self) -> (u32, Option<i32>) {
        let [_, _, _, fourth, ..] = self.values.answer();
        (self.number, fourth)
    }

    ghost any_order = { λ a b kept moved of. ranks-any_order a b kept moved of };
}
