//! The four greatest of some values.
ghost use Rattle.std.specs.Prelude.{◌≡◌, false, not, int_lt};
ghost use Rattle.std.specs.Option.{option_map_or};

/// The four greatest of some values, downwards, equal ones each; none if there are fewer.
#[derive(Clone, Copy)]
pub(crate) struct TopFour {
    first: Option<i32>,
    second: Option<i32>,
    third: Option<i32>,
    fourth: Option<i32>,
}

impl TopFour {
    ghost use Rattle.std.specs.Prelude.{◌≡◌, ℤ, List, [], slice_get};
    ghost use Rattle.aq_rules.specs.Lists.{ranked_in};
    ghost use Rattle.aq_ozone.specs.FourGreatest.{four_of};

    /// Of no values.
    pub(crate) fn new() -> TopFour
        ensures { result ≡ four_of [] }
    {
        TopFour {
            first: None,
            second: None,
            third: None,
            fourth: None,
        }
    }

    /// With one more value, put before the first one that is not above it.
    pub(crate) fn with(self, value: i32) -> TopFour
        ensures { (values : List ℤ) → self ≡ four_of values → result ≡ four_of (ranked_in value values) }
    {
        if is_no_lower(value, self.first) {
            TopFour {
                first: Some(value),
                second: self.first,
                third: self.second,
                fourth: self.third,
            }
        } else if is_no_lower(value, self.second) {
            TopFour {
                first: self.first,
                second: Some(value),
                third: self.second,
                fourth: self.third,
            }
        } else if is_no_lower(value, self.third) {
            TopFour {
                first: self.first,
                second: self.second,
                third: Some(value),
                fourth: self.third,
            }
        } else if is_no_lower(value, self.fourth) {
            TopFour {
                first: self.first,
                second: self.second,
                third: self.third,
                fourth: Some(value),
            }
        } else {
            self
        }
    }

    /// The fourth value.
    pub(crate) fn fourth(&self) -> Option<i32>
        ensures { result ≡ self.now.fourth }
    {
        self.fourth
    }
}

/// Whether a value is as high as another one, or higher. A missing one is the lowest.
fn is_no_lower(value: i32, other: Option<i32>) -> bool
    ensures { result ≡ not (option_map_or (λ other. int_lt value other) other false) }
{
    !other.is_some_and(|other| value < other)
}
