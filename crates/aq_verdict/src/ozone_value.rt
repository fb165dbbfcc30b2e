//! The ozone design value and its verdict (40 CFR Part 50, Appendix U, 3(e) and 4).
ghost use Rattle.std.specs.Prelude.{◌≡◌, pos, ◌+ℤ◌};
ghost use Rattle.aq_base.specs.Decimal.{truncated};
ghost use Rattle.aq_rules.specs.Ozone.OzoneVerdict.{design_value_of, is_average_kept, is_complete, is_season_kept, ozone_dv, ozone_verdict};

use crate::ozone_year::OzoneYear;
use crate::rounded::sum_of_three;
use aq_base::{Standard, Verdict};
use aq_num::trunc_div;
use std::marker::Model;

/// The ozone design value in thousandths of a ppm, and the verdict.
#[derive(Clone, Copy, Debug, PartialEq, Eq)]
pub struct OzoneDv {
    pub value: Option<i32>,
    pub verdict: Verdict,
}

impl Model for OzoneDv {
    ghost use Rattle.aq_rules.specs.Ozone.OzoneVerdict.{OzoneDv as Design};

    ghost Value = { Design };

    ghost view = { λ design. record { value = design.value; verdict = design.verdict } };

    ghost inverse = { λ design. record { value = design.value; verdict = design.verdict } };
}

/// The design value of three years, the oldest first, and whether the standard of 0.070 ppm is met.
pub fn ozone(years: &[OzoneYear; 3]) -> OzoneDv
    ensures { result ≡ ozone_dv years.now }
{
    let [a, b, c] = years;
    let value = mean_of(a.fourth(), b.fourth(), c.fourth());
    OzoneDv {
        value,
        verdict: verdict_of(value, is_complete(a, b, c)),
    }
}

// The mean of the fourth highest values, truncated.
fn mean_of(a: Option<i32>, b: Option<i32>, c: Option<i32>) -> Option<i32>
    ensures { result ≡ design_value_of a b c }
{
    Some(third_of(a?, b?, c?))
}

fn third_of(a: i32, b: i32, c: i32) -> i32
    ensures { result ≡ truncated (a +ℤ b +ℤ c) (pos 3) }
{
    trunc_div(sum_of_three(a, b, c), 3) as i32
}

fn is_complete(a: &OzoneYear, b: &OzoneYear, c: &OzoneYear) -> bool
    ensures { result ≡ is_complete a.now b.now c.now }
{
    is_season_kept(a) && is_season_kept(b) && is_season_kept(c) && is_average_kept(a, b, c)
}

// Three quarters of the season's days are valid.
fn is_season_kept(year: &OzoneYear) -> bool
    ensures { result ≡ is_season_kept year.now }
{
    3 * u32::from(year.season_days()) <= 4 * u32::from(year.season_valid())
}

// The mean of the parts that are valid is nine tenths or more.
fn is_average_kept(a: &OzoneYear, b: &OzoneYear, c: &OzoneYear) -> bool
    ensures { result ≡ is_average_kept a.now b.now c.now }
{
    let [d1, d2, d3] = [a, b, c].map(|year| u64::from(year.season_days()));
    let [v1, v2, v3] = [a, b, c].map(|year| u64::from(year.season_valid()));
    27 * (d1 * d2 * d3) <= 10 * (v1 * d2 * d3 + v2 * d1 * d3 + v3 * d1 * d2)
}

fn verdict_of(value: Option<i32>, complete: bool) -> Verdict
    ensures { result ≡ ozone_verdict value complete }
{
    match value {
        None => Verdict::NoValue,
        Some(value) if value > Standard::Ozone2015.level() => Verdict::NotMet,
        Some(_) if complete => Verdict::Met,
        Some(_) => Verdict::Incomplete,
    }
}
