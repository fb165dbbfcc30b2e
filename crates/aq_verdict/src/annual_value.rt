//! The annual PM2.5 design value and its verdict (40 CFR Part 50, Appendix N, 4.1 and 4.4).
ghost use Rattle.std.specs.Prelude.{◌≡◌, ◌<◌, [], ◌∷◌, map, All, pos};
ghost use Rattle.std.specs.Option.{IfSome};
ghost use Rattle.aq_rules.specs.Lists.{all_of};
ghost use Rattle.aq_rules.specs.Particles.Substitution.{same_part, matched, minimum_for, maximum_for};
ghost use Rattle.aq_rules.specs.Particles.AnnualVerdict.{annual_value, is_annual_year, annual_test, annual_verdict, filled_mean, filled_value, counts_in, mean_of};
ghost use Rattle.aq_rules.specs.Kept.SummaryVerdicts.{of_summaries, kept_annual_dv};
ghost use Rattle.aq_verdict.specs.Filled.{copies_in_test, joined_three};
ghost use Rattle.aq_verdict.specs.QuarterlyMean.{IsMean};

use crate::counts::{has_eleven_each, is_captured};
use crate::levels::{are_all, is_above, is_at_or_below};
use crate::means::{Mean, mean_of_three_years};
use crate::pm_quarter::PmQuarter;
use crate::pm_year::PmYear;
use crate::quarterly::{annual_mean, mean_with, quarterly_means, together};
use crate::substitution::{Test, copies_in_test};
use aq_base::Verdict;
use std::marker::Model;

/// The annual PM2.5 design value in tenths of a µg/m3, the value of the test that was asked for and
/// whose needs are met, whether each year is valid, and the verdict.
#[derive(Clone, Copy, Debug, PartialEq, Eq)]
pub struct AnnualDv {
    pub value: Option<i32>,
    pub test: Option<i32>,
    pub valid: [bool; 3],
    pub verdict: Verdict,
}

impl Model for AnnualDv {
    ghost use Rattle.aq_rules.specs.Particles.AnnualVerdict.{ParticleDv as Design};

    ghost Value = { Design };

    ghost view = { λ design. record { value = design.value; test = design.test; valid = design.valid; verdict = design.verdict } };

    ghost inverse = { λ design. record { value = design.value; test = design.test; valid = design.valid; verdict = design.verdict } };
}

/// The design value of three years, the oldest first, and whether the standard of this level, in
/// tenths of a µg/m3, is met.
pub fn annual(years: &[PmYear; 3], level: i32) -> AnnualDv
    ensures { result ≡ kept_annual_dv level years.now }
{
    let value = annual_value(years);
    let valid = valid_years(years, level, value);
    let test = annual_test(years, level, value, &valid);
    AnnualDv {
        value,
        test,
        valid,
        verdict: annual_verdict(level, value, &valid, test),
    }
}

// The mean of the twelve quarterly means.
fn annual_value(years: &[PmYear; 3]) -> Option<i32>
    ensures { result ≡ annual_value of_summaries years.now }
{
    let [a, b, c] = years;
    let means = together(
        &quarterly_means(a),
        &quarterly_means(b),
        &quarterly_means(c),
    );
    mean_of_three_years(&means)
}

fn valid_years(years: &[PmYear; 3], level: i32, value: Option<i32>) -> [bool; 3]
    ensures { result ≡ map (λ year. is_annual_year level value (mean_of of_summaries year.quarters) (counts_in of_summaries year)) years.now }
{
    let [a, b, c] = years;
    [
        is_annual_year(a, level, value),
        is_annual_year(b, level, value),
        is_annual_year(c, level, value),
    ]
}

// A capture of 75 in each quarter, or eleven samples in each and a value above the level (own wording of 40 CFR Part 50, Appendix N, 4.1).
fn is_annual_year(year: &PmYear, level: i32, value: Option<i32>) -> bool
    ensures { result ≡ is_annual_year level value (mean_of of_summaries year.now.quarters) (counts_in of_summaries year.now) }
{
    is_captured(year)
        || (has_eleven_each(year) && (is_above(level, annual_mean(year)) || is_above(level, value)))
}

// Above the level the minimum test is asked for, else the maximum test.
fn annual_test(
    years: &[PmYear; 3],
    level: i32,
    value: Option<i32>,
    valid: &[bool; 3],
) -> Option<i32>
    ensures { result ≡ annual_test level value valid.now (filled_value of_summaries (minimum_for of_summaries) years.now) (filled_value of_summaries (maximum_for of_summaries) years.now) }
{
    let value = value?;
    if are_all(valid) {
        None
    } else if level < value {
        filled_value(years, Test::Minimum)
    } else {
        filled_value(years, Test::Maximum)
    }
}

// If a year is not valid, the test has to bear the value out.
fn annual_verdict(level: i32, value: Option<i32>, valid: &[bool; 3], test: Option<i32>) -> Verdict
    ensures { result ≡ annual_verdict level value valid.now test }
{
    let all = are_all(valid);
    match value {
        None => Verdict::NoValue,
        Some(value) if level < value => {
            if all || is_above(level, test) {
                Verdict::NotMet
            } else {
                Verdict::Incomplete
            }
        }
        Some(_) => {
            if all || is_at_or_below(level, test) {
                Verdict::Met
            } else {
                Verdict::Incomplete
            }
        }
    }
}

// The design value with the copies of a test; none if they are not to be had for a quarter.
fn filled_value(years: &[PmYear; 3], test: Test) -> Option<i32>
    ensures { result ≡ filled_value of_summaries (copies_in_test test) years.now }
{
    let [a, b, c] = years;
    let first = filled_means(years, a, test);
    let second = filled_means(years, b, test);
    let third = filled_means(years, c, test);
    mean_of_three_years(&all_together(first, second, third)?)
}

// The means of a year's quarters with their copies.
fn filled_means(years: &[PmYear; 3], year: &PmYear, test: Test) -> Option<[Mean; 4]>
    ensures means { result ≡ all_of (map (filled_mean of_summaries (copies_in_test test)) (matched of_summaries years.now year.now)) }
    ensures each { IfSome result (All IsMean) }
{
    let [a, b, c, d] = year.quarters();
    all_four(
        filled_mean(years, a, 0, test),
        filled_mean(years, b, 1, test),
        filled_mean(years, c, 2, test),
        filled_mean(years, d, 3, test),
    )
}

// The mean of a quarter, which is the given part of its year, with its copies.
fn filled_mean(years: &[PmYear; 3], quarter: &PmQuarter, part: usize, test: Test) -> Option<Mean>
    requires { part < 4 }
    ensures mean { result ≡ filled_mean of_summaries (copies_in_test test) (quarter.now, same_part of_summaries years.now part) }
    ensures each { IfSome result IsMean }
{
    let copies = copies_in_test(years, quarter, part, test)?;
    Some(mean_with(quarter, copies))
}

fn all_four(a: Option<Mean>, b: Option<Mean>, c: Option<Mean>, d: Option<Mean>) -> Option<[Mean; 4]>
    requires a { IfSome a IsMean }
    requires b { IfSome b IsMean }
    requires c { IfSome c IsMean }
    requires d { IfSome d IsMean }
    ensures all { result ≡ all_of (a ∷ b ∷ c ∷ d ∷ []) }
    ensures each { IfSome result (All IsMean) }
{
    Some([a?, b?, c?, d?])
}

fn all_together(
    a: Option<[Mean; 4]>,
    b: Option<[Mean; 4]>,
    c: Option<[Mean; 4]>,
) -> Option<[Mean; 12]>
    requires a { IfSome a (All IsMean) }
    requires b { IfSome b (All IsMean) }
    requires c { IfSome c (All IsMean) }
    ensures all { result ≡ joined_three a b c }
    ensures each { IfSome result (All IsMean) }
{
    Some(together(&a?, &b?, &c?))
}
