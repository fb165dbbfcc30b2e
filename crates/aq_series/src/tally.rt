//! The mean of some monitors' values.
ghost use Rattle.std.specs.Prelude.{◌≡◌, [], IfSome};
ghost use Rattle.aq_series.specs.Samples.{IsOfEight, IsOzone, IsTally};

use crate::hours::Cell;

/// Values of ozone: how many, their sum, and whether one of them is excluded.
#[derive(Clone, Copy)]
pub(crate) struct Tally {
    sum: i32,
    count: u8,
    excluded: bool,
}

impl Tally {
    ghost use Rattle.std.specs.Prelude.{◌≡◌, ℕ, ◌<◌, ◌+◌, [], ◌∷◌, ◌++◌, List, IfSome};
    ghost use Rattle.aq_rules.specs.Ozone.SiteHour.{Sample, mean_of};
    ghost use Rattle.aq_series.specs.Samples.{IsOfEight, IsOzone, IsTally};

    /// No values.
    pub(crate) fn new() -> Tally
        ensures tally { IsTally [] result }
        ensures values { IsOfEight result }
    {
        Tally {
            count: 0,
            sum: 0,
            excluded: false,
        }
    }

    /// With one more value.
    pub(crate) fn with(self, cell: &Cell) -> Tally
        requires values { IsOfEight self }
        requires count { self.count < 8 }
        requires value { IsOzone cell.now.value }
        ensures tally { (before : List Sample) (poc : ℕ) → IsTally before self → IsTally (before ++ record { poc = poc; cell = cell.now } ∷ []) result }
        ensures count { result.count ≡ self.count + 1 }
        ensures values { IsOfEight result }
    {
        Tally {
            count: self.count + 1,
            sum: self.sum + cell.value,
            excluded: self.excluded || cell.excluded,
        }
    }

    /// The mean, truncated, if there are values.
    pub(crate) fn mean(self) -> Option<Cell>
        requires { IsOfEight self }
        ensures value { (before : List Sample) → IsTally before self → result ≡ mean_of before }
        ensures range { IfSome result (λ cell. IsOzone cell.value) }
    {
        if self.count == 0 {
            return None;
        }
        Some(Cell {
            value: self.sum / i32::from(self.count),
            excluded: self.excluded,
        })
    }
}
