//! Days, hours and quarters of the profile, by their numbers. All hours are local standard time.
ghost use Rattle.std.specs.Prelude.{◌≡◌, ℕ, ◌+◌, ◌-◌, ◌*◌, ◌<◌, ◌≤◌};
ghost use Rattle.aq_base.specs.Calendar.{days_of_years, years};
ghost use Rattle.aq_base.specs.declared.day.TheConstants.{FIRST_DESIGN_YEAR, FIRST_YEAR, HOURS_BEFORE_2000, LAST_DAY, LAST_HOUR, QUARTERS};

use std::marker::Model;

/// The profile begins on 1 January of this year, which is day 0 (own).
pub const FIRST_YEAR: u16 = 1990;

/// The profile ends on 31 December of this year (own).
pub const LAST_YEAR: u16 = 2059;

/// The first year that ends three years of the profile: the first of which there are design values.
pub const FIRST_DESIGN_YEAR: u16 = FIRST_YEAR + 2;

/// The number of the profile's last day: each year that 4 divides has a leap day, the year 2000 too.
pub const LAST_DAY: u16 = 365 * (LAST_YEAR + 1 - FIRST_YEAR) + LAST_YEAR / 4
    - (FIRST_YEAR - 1) / 4
    - 1;

/// The number of the profile's last hour.
pub const LAST_HOUR: u32 = 24 * LAST_DAY as u32 + 23;

/// The hours of the profile before 2000-01-01 00:00. Rows of observations count their hours from there,
/// as they did when the profile began in 2000, so an hour before it is negative in them (own).
pub const HOURS_BEFORE_2000: u32 = 87_648;

/// How many calendar quarters the profile has.
pub const QUARTERS: u16 = 4 * (LAST_YEAR + 1 - FIRST_YEAR);

/// The last day and hour and the number of quarters are those of the profile's years, and design values
/// begin with 1992.
#[tactic(auto, unfolding(crate::specs::Calendar::days_of_years))]
pub fn last_numbers_are_those_of_the_years()
    ensures day { LAST_DAY + 1 ≡ days_of_years years }
    ensures hour { LAST_HOUR + 1 ≡ 24 * (LAST_DAY + 1) }
    ensures stored { HOURS_BEFORE_2000 ≡ 24 * days_of_years (2000 - FIRST_YEAR) }
    ensures quarters { QUARTERS ≡ 4 * years }
    ensures design { FIRST_DESIGN_YEAR ≡ 1992 }
{}

/// A day of the profile, by the number of days since its first. Contracts see the number.
#[derive(Clone, Copy, Debug, PartialEq, Eq, PartialOrd, Ord)]
pub struct Day {
    number: u16,
}

impl Model for Day {
    ghost Value = { ℕ };

    ghost view = { λ day. day.number };

    ghost invariant = { λ day. day.number ≤ LAST_DAY };

    ghost inverse = { λ number. record { number = number } };
}

impl Day {
    /// The day with this number.
    pub fn new(number: u16) -> Day
        requires { number ≤ LAST_DAY }
        ensures { result ≡ number }
    {
        Day { number }
    }

    /// How many days of the profile come before it.
    pub fn number(self) -> u16
        ensures value { result ≡ self }
        ensures range { result ≤ LAST_DAY }
    {
        self.number
    }
}

/// An hour of the profile, which starts at a full hour, by the number of hours since the profile's
/// first. Contracts see the number.
#[derive(Clone, Copy, Debug, PartialEq, Eq, PartialOrd, Ord)]
pub struct Hour {
    number: u32,
}

impl Model for Hour {
    ghost Value = { ℕ };

    ghost view = { λ hour. hour.number };

    ghost invariant = { λ hour. hour.number ≤ LAST_HOUR };

    ghost inverse = { λ number. record { number = number } };
}

impl Hour {
    /// The hour with this number.
    pub fn new(number: u32) -> Hour
        requires { number ≤ LAST_HOUR }
        ensures { result ≡ number }
    {
        Hour { number }
    }

    /// How many hours of the profile come before it.
    pub fn number(self) -> u32
        ensures value { result ≡ self }
        ensures range { result ≤ LAST_HOUR }
    {
        self.number
    }
}

/// A calendar quarter of the profile, by the number of quarters since its first. Contracts see the
/// number.
#[derive(Clone, Copy, Debug, PartialEq, Eq, PartialOrd, Ord)]
pub struct Quarter {
    number: u16,
}

impl Model for Quarter {
    ghost Value = { ℕ };

    ghost view = { λ quarter. quarter.number };

    ghost invariant = { λ quarter. quarter.number < QUARTERS };

    ghost inverse = { λ number. record { number = number } };
}

impl Quarter {
    /// The quarter with this number.
    pub fn new(number: u16) -> Quarter
        requires { number < QUARTERS }
        ensures { result ≡ number }
    {
        Quarter { number }
    }

    /// How many quarters of the profile come before it.
    pub fn number(self) -> u16
        ensures value { result ≡ self }
        ensures range { result < QUARTERS }
    {
        self.number
    }
}
