//! What stands of a monitor: how much, and from when to when.
ghost use Rattle.std.specs.Prelude.{◌≡◌, ◌≤◌, length, option_map};
ghost use Rattle.aq_base.specs.Calendar.{day_of_hour};
ghost use Rattle.aq_base.specs.declared.limits.TheConstants.{MOST_OBSERVATIONS};
ghost use Rattle.aq_listed.specs.MonitorDays.{first_day, last_day};

use aq_base::{Day, Hour};
use aq_shelf::Span;

/// How many observations stand, and the days of the first and of the last of them.
#[derive(Clone, Copy, Debug, PartialEq, Eq)]
pub(crate) struct Observations {
    pub(crate) count: u32,
    pub(crate) first: Option<Day>,
    pub(crate) last: Option<Day>,
}

/// What a span has, by the ends of its stretches.
pub(crate) fn observed(span: Span<'_>) -> Observations
    requires { length span ≤ MOST_OBSERVATIONS }
    ensures count { result.count ≡ length span.entry }
    ensures first { result.first ≡ first_day span.entry }
    ensures last { result.last ≡ last_day span.entry }
{
    let extent = span.extent();
    Observations {
        count: extent.count,
        first: day_of(extent.first),
        last: day_of(extent.last),
    }
}

/// The day of an hour, if there is one.
fn day_of(hour: Option<Hour>) -> Option<Day>
    ensures { result ≡ option_map day_of_hour hour }
{
    match hour {
        Some(hour) => Some(Day::new((hour.number() / 24) as u16)),
        None => None,
    }
}
