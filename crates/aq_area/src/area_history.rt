//! The history of an area (own).
ghost use Rattle.std.specs.Prelude.{◌≡◌, ◌≤◌, ◌-◌, length};
ghost use Rattle.aq_rules.specs.Areas.AreaValue.{first_not_met, is_year_of, met_at_end};
ghost use Rattle.aq_base.specs.declared.standard.Verdict.TheVariants.{Met, NotMet};

use crate::area_value::{AreaYear, is_same};
use aq_base::{LAST_YEAR, Verdict};

/// A history has at most this many years: a design value needs three, and the first that an area is
/// asked for is that of 1992.
pub const MOST_END_YEARS: u16 = LAST_YEAR + 1 - 1992;

/// The place of the first year that is `NotMet`, counted from 0, and how many years at the end are `Met`
/// without a break.
#[derive(Clone, Copy, Debug, PartialEq, Eq)]
pub struct AreaHistory {
    pub first: Option<u16>,
    pub met: u16,
}

/// The history of an area's years, which follow one another, the first one first.
pub fn history(years: &[AreaYear]) -> AreaHistory
    requires { length years.now ≤ MOST_END_YEARS }
    ensures first { result.first ≡ first_not_met years.now }
    ensures met { result.met ≡ met_at_end years.now }
{
    AreaHistory {
        first: first_not_met(years),
        met: met_at_end(years),
    }
}

fn first_not_met(years: &[AreaYear]) -> Option<u16>
    requires { length years.now ≤ MOST_END_YEARS }
    ensures { result ≡ first_not_met years.now }
{
    let first = years.iter().position(|year| is(year, Verdict::NotMet))?;
    Some(first as u16)
}

fn met_at_end(years: &[AreaYear]) -> u16
    requires { length years.now ≤ MOST_END_YEARS }
    ensures { result ≡ met_at_end years.now }
{
    let met = years.iter().rev().take_while(|year| is(year, Verdict::Met));
    met.count() as u16
}

// Whether the year has the verdict.
fn is(year: &AreaYear, verdict: Verdict) -> bool
    ensures { result ≡ is_year_of verdict year.now }
{
    is_same(year.verdict, verdict)
}
