//! How many some observations are, and from which hour to which.
ghost use Rattle.std.specs.Prelude.{◌≡◌, ◌+◌, ◌≤◌, length};
ghost use Rattle.std.specs.Option.{option_or};
ghost use Rattle.aq_shelf.specs.Extents.{first_hour, last_hour};

use aq_base::{Hour, MOST_OBSERVATIONS, Observation};

/// How many observations a span has, and the hours of the first and of the last of them.
#[derive(Clone, Copy, Debug, PartialEq, Eq)]
pub struct Extent {
    pub count: u32,
    pub first: Option<Hour>,
    pub last: Option<Hour>,
}

impl Extent {
    /// These observations and those of a list that stands in front of them. It looks at the ends of the
    /// list.
    pub(crate) fn after(self, items: &[(Hour, Observation)]) -> Extent
        requires { length items.now + self.count ≤ MOST_OBSERVATIONS }
        ensures count { result.count ≡ length items.now + self.count }
        ensures first { result.first ≡ option_or (first_hour items.now) self.first }
        ensures last { result.last ≡ option_or self.last (last_hour items.now) }
    {
        let count = items.len();
        if count == 0 {
            return self;
        }
        let last = match self.last {
            Some(hour) => hour,
            None => items[count - 1].0,
        };
        Extent {
            count: count as u32 + self.count,
            first: Some(items[0].0),
            last: Some(last),
        }
    }
}
