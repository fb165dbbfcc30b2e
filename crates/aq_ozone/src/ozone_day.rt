//! The daily maximum 8-hour average (40 CFR Part 50, Appendix U, 3(c) and (d)).
ghost use Rattle.std.specs.Prelude.{◌≡◌, fold};
ghost use Rattle.std.specs.Option.{option_to_list};
ghost use Rattle.aq_base.specs.declared.standard.Standard.TheVariants.{Ozone2015};
ghost use Rattle.aq_rules.specs.Lists as lists;
ghost use Rattle.aq_rules.specs.Ozone.OzoneDay as ozone_day;
ghost use Rattle.aq_rules.specs.Standards.{is_above, level_of};

use crate::eight_hour::DayWindows;
use aq_base::Standard;
use std::marker::Model;

/// A day with so many full averages is valid.
const ENOUGH_AVERAGES: u8 = 13;

/// How many full averages of a day exist, whether the day is valid, and its greatest net average in
/// thousandths of a ppm. Contracts see the book's day.
#[derive(Clone, Copy, Debug, PartialEq, Eq)]
pub struct OzoneDay {
    pub averages: u8,
    pub valid: bool,
    pub maximum: Option<i32>,
}

impl Model for OzoneDay {
    ghost use Rattle.aq_rules.specs.Ozone.OzoneDay as ozone_day;

    ghost Value = { ozone_day.OzoneDay };

    ghost view = { λ day. record { averages = day.averages; valid = day.valid; maximum = day.maximum } };

    ghost inverse = { λ day. record { averages = day.averages; valid = day.valid; maximum = day.maximum } };
}

/// The day of these averages. It is valid with thirteen full averages or more, and also if the
/// greatest one is above the level; what is excluded counts for that, and not for the maximum.
pub fn day_of_windows(windows: &DayWindows) -> OzoneDay
    ensures { result ≡ ozone_day.day_of_windows windows.now }
{
    let mut averages = 0;
    let mut greatest = None;
    let mut maximum = None;
    for row in &windows.rows {
        averages += u8::from(row.full.is_some());
        greatest = greater(greatest, row.full);
        maximum = greater(maximum, row.net);
    }
    OzoneDay {
        averages,
        valid: averages >= ENOUGH_AVERAGES || is_above_level(greatest),
        maximum,
    }
}

/// The greater of two values, if there are any.
fn greater(one: Option<i32>, other: Option<i32>) -> Option<i32>
    ensures { result ≡ fold lists.greater one (option_to_list other) }
{
    match (one, other) {
        (Some(one), Some(other)) => Some(one.max(other)),
        (None, other) => other,
        (one, None) => one,
    }
}

/// Whether a value is above the level. A missing one is not.
fn is_above_level(value: Option<i32>) -> bool
    ensures { result ≡ is_above (level_of Ozone2015) value }
{
    value.is_some_and(|value| value > Standard::Ozone2015.level())
}
