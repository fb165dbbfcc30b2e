//! The PM10 design value and its verdict (40 CFR Part 50, Appendix K, 2.1, 2.3 and 3.0).
ghost use Rattle.std.specs.Prelude.{◌≡◌, ◌≤◌, [], ◌∷◌, pos};
ghost use Rattle.std.specs.Option.{option_map};
ghost use Rattle.aq_base.specs.Decimal.{half_up};
ghost use Rattle.aq_rules.specs.Lists.{total, all_of};
ghost use Rattle.aq_rules.specs.Standards.{level_of, is_above};
ghost use Rattle.aq_base.specs.declared.standard.Standard.TheVariants.{Pm10Of1987};
ghost use Rattle.aq_rules.specs.Particles.Pm10Estimate.{mean_of_years, quarter_estimate, quarter_lower, year_of_quarters};
ghost use Rattle.aq_rules.specs.Particles.Pm10Verdict.{exceedances_in, is_complete_quarter, is_complete_year, is_unambiguous, pm10_dv, pm10_verdict};

use crate::pm10_year::{Pm10Quarter, Pm10Year};
use crate::rounded::{rounded, rounded_four, rounded_three};
use aq_base::{Standard, Verdict};
use std::marker::Model;

/// The PM10 design value, the estimated exceedances a year in tenths, and the verdict.
#[derive(Clone, Copy, Debug, PartialEq, Eq)]
pub struct Pm10Dv {
    pub value: Option<i32>,
    pub verdict: Verdict,
}

impl Model for Pm10Dv {
    ghost use Rattle.aq_rules.specs.Particles.Pm10Verdict.{Pm10Dv as Design};

    ghost Value = { Design };

    ghost view = { λ design. record { value = design.value; verdict = design.verdict } };

    ghost inverse = { λ design. record { value = design.value; verdict = design.verdict } };
}

/// The design value of three years, the oldest first, and whether the standard is met.
pub fn pm10(years: &[Pm10Year; 3]) -> Pm10Dv
    ensures { result ≡ pm10_dv years.now }
{
    let [a, b, c] = years;
    let value = mean_of(year_estimate(a), year_estimate(b), year_estimate(c));
    let complete = is_complete_year(a) && is_complete_year(b) && is_complete_year(c);
    Pm10Dv {
        value,
        verdict: verdict_of(value, complete, is_unambiguous(years)),
    }
}

/// The estimate of a year, in tenths; none if a quarter has no sample (40 CFR Part 50, Appendix K, 2.3).
pub fn year_estimate(year: &Pm10Year) -> Option<i32>
    ensures { result ≡ year_of_quarters quarter_estimate year.now }
{
    let [a, b, c, d] = year.quarters();
    year_of(
        quarter_estimate(a),
        quarter_estimate(b),
        quarter_estimate(c),
        quarter_estimate(d),
    )
}

/// The lower estimate of a year, in tenths (own wording of 40 CFR Part 50, Appendix K, 2.3(c)).
pub fn year_lower(year: &Pm10Year) -> Option<i32>
    ensures { result ≡ year_of_quarters quarter_lower year.now }
{
    let [a, b, c, d] = year.quarters();
    year_of(
        quarter_lower(a),
        quarter_lower(b),
        quarter_lower(c),
        quarter_lower(d),
    )
}

/// The estimate of a quarter, in hundredths: its days times the mean of its strata's parts; none without a
/// sample.
pub fn quarter_estimate(quarter: &Pm10Quarter) -> Option<i32>
    ensures { result ≡ quarter_estimate quarter.now }
{
    if quarter.strata() == 0 {
        return None;
    }
    let exceeding = 100 * i128::from(quarter.days()) * i128::from(quarter.sixtieths());
    Some(rounded(exceeding, 60 * i128::from(quarter.strata())))
}

/// The lower estimate of a quarter, in hundredths: its days times the part of its scheduled days that
/// exceed; 0 if nothing is scheduled (own wording of 40 CFR Part 50, Appendix K, 2.3(c)).
pub fn quarter_lower(quarter: &Pm10Quarter) -> Option<i32>
    ensures { result ≡ quarter_lower quarter.now }
{
    if quarter.scheduled() == 0 {
        return Some(0);
    }
    let exceeding = 100 * i128::from(quarter.days()) * i128::from(quarter.scheduled_exceedances());
    Some(rounded(exceeding, i128::from(quarter.scheduled())))
}

// The sum of four quarters, in tenths.
fn year_of(a: Option<i32>, b: Option<i32>, c: Option<i32>, d: Option<i32>) -> Option<i32>
    ensures { result ≡ option_map (λ hundredths. half_up (total hundredths) (pos 10)) (all_of (a ∷ b ∷ c ∷ d ∷ [])) }
{
    Some(rounded_four(a?, b?, c?, d?, 10))
}

// The mean of three years, in tenths.
fn mean_of(a: Option<i32>, b: Option<i32>, c: Option<i32>) -> Option<i32>
    ensures { result ≡ option_map (λ tenths. half_up (total tenths) (pos 3)) (all_of (a ∷ b ∷ c ∷ [])) }
{
    Some(rounded_three(a?, b?, c?, 3))
}

/// Whether three quarters of the scheduled days of each quarter have a sample (40 CFR Part 50, Appendix K,
/// 2.3).
pub fn is_complete_year(year: &Pm10Year) -> bool
    ensures { result ≡ is_complete_year year.now }
{
    year.quarters().iter().all(is_complete_quarter)
}

fn is_complete_quarter(quarter: &Pm10Quarter) -> bool
    ensures { result ≡ is_complete_quarter quarter.now }
{
    quarter.scheduled() >= 1
        && 3 * u32::from(quarter.scheduled()) <= 4 * u32::from(quarter.captured())
}

// Four exceedances, or a lower estimate above the level (own wording of 40 CFR Part 50, Appendix K, 2.3(c)).
fn is_unambiguous(years: &[Pm10Year; 3]) -> bool
    ensures { result ≡ is_unambiguous years.now }
{
    let [a, b, c] = years;
    exceedances_in(a) + exceedances_in(b) + exceedances_in(c) >= 4
        || is_above(mean_of(year_lower(a), year_lower(b), year_lower(c)))
}

fn is_above(value: Option<i32>) -> bool
    ensures { result ≡ is_above (level_of Pm10Of1987) value }
{
    value.is_some_and(|value| value > Standard::Pm10Of1987.level())
}

/// The samples of a year that exceed.
pub fn exceedances_in(year: &Pm10Year) -> u16
    ensures value { result ≡ exceedances_in year.now }
    ensures few { result ≤ 1020 }
{
    let [a, b, c, d] = year.quarters();
    u16::from(a.exceedances())
        + u16::from(b.exceedances())
        + u16::from(c.exceedances())
        + u16::from(d.exceedances())
}

fn verdict_of(value: Option<i32>, complete: bool, unambiguous: bool) -> Verdict
    ensures { result ≡ pm10_verdict value complete unambiguous }
{
    match value {
        Some(value) if complete && value <= Standard::Pm10Of1987.level() => Verdict::Met,
        Some(_) if complete || unambiguous => Verdict::NotMet,
        Some(_) => Verdict::Incomplete,
        None if unambiguous => Verdict::NotMet,
        None => Verdict::NoValue,
    }
}
