//! The 24-hour PM2.5 design value and its verdict (40 CFR Part 50, Appendix N, 4.2 and 4.5).
ghost use Rattle.std.specs.Prelude.{◌≡◌, ◌≤◌, [], ◌∷◌, map, pos, ◌+ℤ◌};
ghost use Rattle.std.specs.List.{flat_map};
ghost use Rattle.std.specs.Option.{IfSome, option_map};
ghost use Rattle.aq_base.specs.Decimal.{half_up};
ghost use Rattle.aq_rules.specs.Lists.{all_of};
ghost use Rattle.aq_rules.specs.Particles.Percentile.{daily_value};
ghost use Rattle.aq_rules.specs.Particles.AnnualVerdict.{counts_in};
ghost use Rattle.aq_rules.specs.Particles.DailyVerdict.{rounded, is_daily_year, daily_test, daily_verdict, daily_value_of, percentile_of, copies_in, filled_percentile, value_of_three};
ghost use Rattle.aq_rules.specs.Kept.SummaryVerdicts.{of_summaries, kept_daily_dv};
ghost use Rattle.aq_verdict.specs.Filled.{copies_of};
ghost use Rattle.aq_verdict.specs.Ranks.{counted_with};

use crate::counts::{creditable_in, is_captured};
use crate::levels::{are_all, is_above, is_at_or_below};
use crate::percentile::{percentile_of, percentile_with};
use crate::pm_year::PmYear;
use crate::rounded::{rounded, rounded_three};
use crate::substitution::{Copies, maximum_for};
use aq_base::{Standard, Verdict};
use std::marker::Model;

/// The 24-hour PM2.5 design value in µg/m3, the value of the maximum test if it was asked for and
/// its needs are met, whether each year is valid, and the verdict.
#[derive(Clone, Copy, Debug, PartialEq, Eq)]
pub struct DailyDv {
    pub value: Option<i32>,
    pub test: Option<i32>,
    pub valid: [bool; 3],
    pub verdict: Verdict,
}

impl Model for DailyDv {
    ghost use Rattle.aq_rules.specs.Particles.AnnualVerdict.{ParticleDv as Design};

    ghost Value = { Design };

    ghost view = { λ design. record { value = design.value; test = design.test; valid = design.valid; verdict = design.verdict } };

    ghost inverse = { λ design. record { value = design.value; test = design.test; valid = design.valid; verdict = design.verdict } };
}

/// The design value of three years, the oldest first, and whether the standard of 35 µg/m3 is met.
pub fn daily(years: &[PmYear; 3]) -> DailyDv
    ensures { result ≡ kept_daily_dv years.now }
{
    let value = daily_value(years);
    let valid = valid_years(years, value);
    let test = daily_test(years, value, &valid);
    DailyDv {
        value,
        test,
        valid,
        verdict: daily_verdict(value, &valid, test),
    }
}

fn daily_value(years: &[PmYear; 3]) -> Option<i32>
    ensures { result ≡ daily_value_of of_summaries years.now }
{
    let [a, b, c] = years;
    mean_of(percentile_of(a), percentile_of(b), percentile_of(c))
}

// The mean of three percentiles, in whole µg/m3.
fn mean_of(a: Option<i32>, b: Option<i32>, c: Option<i32>) -> Option<i32>
    ensures { result ≡ daily_value a b c }
{
    Some(third_of(a?, b?, c?))
}

fn third_of(a: i32, b: i32, c: i32) -> i32
    ensures { result ≡ half_up (a +ℤ b +ℤ c) (pos 30) }
{
    rounded_three(a, b, c, 30)
}

fn valid_years(years: &[PmYear; 3], value: Option<i32>) -> [bool; 3]
    ensures { result ≡ map (λ year. is_daily_year value (percentile_of of_summaries year) (counts_in of_summaries year)) years.now }
{
    let [a, b, c] = years;
    [
        is_daily_year(a, value),
        is_daily_year(b, value),
        is_daily_year(c, value),
    ]
}

// A capture of 75 in each quarter, or one sample and a value above the level (own wording of 40 CFR Part 50, Appendix N, 4.2).
fn is_daily_year(year: &PmYear, value: Option<i32>) -> bool
    ensures { result ≡ is_daily_year value (percentile_of of_summaries year.now) (counts_in of_summaries year.now) }
{
    let level = Standard::Daily2006.level();
    is_captured(year)
        || (creditable_in(year) >= 1
            && (is_above(level, whole(percentile_of(year))) || is_above(level, value)))
}

// A percentile in whole µg/m3.
fn whole(value: Option<i32>) -> Option<i32>
    ensures { result ≡ rounded value }
{
    Some(rounded(i128::from(value?), 10))
}

// The maximum test is asked for if a year is not valid.
fn daily_test(years: &[PmYear; 3], value: Option<i32>, valid: &[bool; 3]) -> Option<i32>
    ensures { result ≡ daily_test value valid.now (value_of_three (map (filled_percentile of_summaries years.now) years.now)) }
{
    let _ = value?;
    if are_all(valid) {
        None
    } else {
        filled_value(years)
    }
}

// The design value with the copies of the maximum test.
fn filled_value(years: &[PmYear; 3]) -> Option<i32>
    ensures { result ≡ value_of_three (map (filled_percentile of_summaries years.now) years.now) }
{
    let [a, b, c] = years;
    mean_of(
        filled_percentile(years, a),
        filled_percentile(years, b),
        filled_percentile(years, c),
    )
}

// If a year is not valid, the maximum test decides. A value above the level makes all three years valid.
fn daily_verdict(value: Option<i32>, valid: &[bool; 3], test: Option<i32>) -> Verdict
    ensures { result ≡ daily_verdict value valid.now test }
{
    let all = are_all(valid);
    match value {
        None => Verdict::NoValue,
        Some(value) if all => {
            if value > Standard::Daily2006.level() {
                Verdict::NotMet
            } else {
                Verdict::Met
            }
        }
        Some(_) => {
            if is_at_or_below(Standard::Daily2006.level(), test) {
                Verdict::Met
            } else {
                Verdict::Incomplete
            }
        }
    }
}

// The percentile of the year's list with its copies; none if they are not to be had for a quarter.
fn filled_percentile(years: &[PmYear; 3], year: &PmYear) -> Option<i32>
    ensures { result ≡ filled_percentile of_summaries years.now year.now }
{
    percentile_with(year, &copies_of_year(years, year)?)
}

// The copies of a year's quarters.
fn copies_of_year(years: &[PmYear; 3], year: &PmYear) -> Option<[Copies; 4]>
    ensures copies { option_map (flat_map copies_of) result ≡ copies_in of_summaries years.now year.now }
    ensures few { IfSome result (λ copies. counted_with year.now.quarters copies ≤ 400) }
{
    let [a, b, c, d] = year.quarters();
    all_four(
        maximum_for(years, a, 0),
        maximum_for(years, b, 1),
        maximum_for(years, c, 2),
        maximum_for(years, d, 3),
    )
}

fn all_four(
    a: Option<Copies>,
    b: Option<Copies>,
    c: Option<Copies>,
    d: Option<Copies>,
) -> Option<[Copies; 4]>
    ensures { result ≡ all_of (a ∷ b ∷ c ∷ d ∷ []) }
{
    Some([a?, b?, c?, d?])
}
