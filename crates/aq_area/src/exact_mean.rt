//! Annual means of PM2.5 that are not rounded, and what two of them leave to a third.
ghost use Rattle.std.specs.Prelude.{◌≡◌, ◌*◌, ◌^◌, ◌≤◌, ◌∷◌, [], All, pos, ◌+ℤ◌, ◌*ℤ◌, ◌≤ℤ◌, unsigned_abs};
ghost use Rattle.std.proofs.Math.IntN.{◌-ℤ◌};
ghost use Rattle.std.specs.Option.{IfSome, option_map};
ghost use Rattle.aq_rules.specs.Kept.SummaryVerdicts.{of_summaries};
ghost use Rattle.aq_rules.specs.Particles.Means.{sum_of_fractions};
ghost use Rattle.aq_rules.specs.Areas.CriticalValue.{below, exact_mean, mean_below};
ghost use Rattle.aq_area.specs.ExactMeans.{IsExact, IsQuarterly, IsTwo, fraction_of, if_days, mean_of_four};
ghost use Rattle.aq_area.specs.NextYear.{IsLevel};

use aq_num::{Frac, sum_of_ratios};
use aq_verdict::{PmQuarter, PmYear};

// A quarterly mean: the sum of the quarter's values, in tenths of a µg/m3, and their number.
type Mean = (i32, u8);

/// The mean of the four quarterly means, in tenths of a µg/m3, not rounded; none if a quarter has no
/// day.
pub(crate) fn exact_mean(year: &PmYear) -> Option<Frac>
    ensures value { option_map fraction_of result ≡ exact_mean year.now }
    ensures range { IfSome result IsExact }
{
    let [first, second, third, fourth] = year.quarters();
    Some(mean_of(
        quarterly_mean(first)?,
        quarterly_mean(second)?,
        quarterly_mean(third)?,
        quarterly_mean(fourth)?,
    ))
}

// None without a day.
fn quarterly_mean(quarter: &PmQuarter) -> Option<Mean>
    ensures mean { result ≡ if_days (of_summaries.mean_with [] quarter.now) }
    ensures each { IfSome result IsQuarterly }
{
    // The quarter keeps its facts.
    let _ = quarter.scheduled();
    let days = quarter.days();
    if days == 0 {
        return None;
    }
    Some((quarter.sum(), days))
}

fn mean_of(first: Mean, second: Mean, third: Mean, fourth: Mean) -> Frac
    requires { All IsQuarterly (first ∷ second ∷ third ∷ fourth ∷ []) }
    ensures value { fraction_of result ≡ mean_of_four first second third fourth }
    ensures range { IsExact result }
{
    let none = (0, 1);
    let sum = sum_of_ratios(&[
        first, second, third, fourth, none, none, none, none, none, none, none, none,
    ]);
    Frac {
        num: sum.num,
        den: 4 * sum.den,
    }
}

/// The greatest whole number, in tenths of a µg/m3, which with two means keeps the level, also in tenths:
/// a third of the three is then below the level and a half.
pub(crate) fn mean_below(level: i32, before: Frac, last: Frac) -> i32
    requires level { IsLevel level }
    requires before { IsExact before }
    requires last { IsExact last }
    ensures { result ≡ mean_below level (sum_of_fractions (fraction_of before ∷ fraction_of last ∷ [])) }
{
    below_half_more(level, sum_of_two(before, last))
}

fn sum_of_two(before: Frac, last: Frac) -> Frac
    requires before { IsExact before }
    requires last { IsExact last }
    ensures value { fraction_of result ≡ sum_of_fractions (fraction_of before ∷ fraction_of last ∷ []) }
    ensures range { IsTwo result }
{
    Frac {
        num: product(before.num, last.den) + product(last.num, before.den),
        den: product(before.den, last.den),
    }
}

fn product(first: i128, second: i128) -> i128
    requires first { unsigned_abs first ≤ 2 ^ 60 }
    requires second { unsigned_abs second ≤ 2 ^ 60 }
    ensures value { result ≡ first *ℤ second }
    ensures size { unsigned_abs result ≤ 2 ^ 120 }
{
    first * second
}

// The greatest whole number below three levels and three halves less the sum.
fn below_half_more(level: i32, sum: Frac) -> i32
    requires level { IsLevel level }
    requires sum { IsTwo sum }
    ensures { result ≡ mean_below level (fraction_of sum) }
{
    below(doubled_left(level, sum), 2 * sum.den)
}

// Six levels and three less twice the sum, over its denominator.
fn doubled_left(level: i32, sum: Frac) -> i128
    requires level { IsLevel level }
    requires sum { IsTwo sum }
    ensures value { result ≡ (((pos 2 *ℤ level) +ℤ pos 1) *ℤ pos (3 * unsigned_abs sum.den)) -ℤ (pos 2 *ℤ sum.num) }
    ensures size { unsigned_abs result ≤ 500000000 * unsigned_abs sum.den }
{
    product(2 * i128::from(level) + 1, 3 * sum.den) - 2 * sum.num
}

// The greatest whole number below a quotient.
fn below(num: i128, den: i128) -> i32
    requires some { pos 1 ≤ℤ den }
    requires few { unsigned_abs den ≤ 2 ^ 60 }
    requires size { unsigned_abs num ≤ 250000000 * unsigned_abs den }
    ensures { result ≡ below num den }
{
    (num - 1).div_euclid(den) as i32
}
