//! The values of a quarter's days, taken together.
ghost use Rattle.std.specs.Prelude.{◌≡◌};
ghost use Rattle.aq_rules.specs.Lists as lists;

use aq_verdict::TopEight;

/// Values in tenths of a µg/m3: how many, their sum, the least and the greatest one, and the eight
/// greatest of these and of those of earlier quarters.
#[derive(Clone, Copy)]
pub(crate) struct QuarterValues {
    pub(crate) count: u8,
    pub(crate) sum: i32,
    pub(crate) least: Option<i32>,
    pub(crate) greatest: Option<i32>,
    pub(crate) top: TopEight,
}

impl QuarterValues {
    ghost use Rattle.std.specs.Prelude.{◌≡◌, ◌<◌, ℤ, List, [], ◌++◌, IfSome};
    ghost use Rattle.std.specs.Option.{option_to_list};
    ghost use Rattle.aq_series.specs.DayCells.{IsParticle};
    ghost use Rattle.aq_particles.specs.Pm25.QuarterValues.{AreOf, IsSumInRange};

    /// No values beside the greatest of earlier quarters.
    pub(crate) fn new(top: TopEight) -> QuarterValues
        ensures values { AreOf top [] result }
        ensures sum { IsSumInRange result }
    {
        QuarterValues {
            count: 0,
            sum: 0,
            least: None,
            greatest: None,
            top,
        }
    }

    /// With one more value, if there is one.
    pub(crate) fn with(self, value: Option<i32>) -> QuarterValues
        requires room { self.count < 92 }
        requires range { IfSome value (λ value. IsParticle value) }
        requires sum { IsSumInRange self }
        ensures values { (before values : List ℤ) → AreOf before values self → AreOf before (values ++ option_to_list value) result }
        ensures sum { IsSumInRange result }
    {
        match value {
            Some(value) => QuarterValues {
                count: self.count + 1,
                sum: self.sum + value,
                least: lesser(self.least, value),
                greatest: greater(self.greatest, value),
                top: self.top.with_value(value),
            },
            None => self,
        }
    }
}

/// The lesser of a value and another one, if there is one.
fn lesser(one: Option<i32>, value: i32) -> Option<i32>
    ensures { result ≡ lists.lesser one value }
{
    match one {
        Some(one) => Some(one.min(value)),
        None => Some(value),
    }
}

/// The greater of a value and another one, if there is one.
fn greater(one: Option<i32>, value: i32) -> Option<i32>
    ensures { result ≡ lists.greater one value }
{
    match one {
        Some(one) => Some(one.max(value)),
        None => Some(value),
    }
}
