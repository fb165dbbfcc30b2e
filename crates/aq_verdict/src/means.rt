//! Means of quarterly means, as exact fractions (40 CFR Part 50, Appendix N, 4.3(a) and 4.4).
ghost use Rattle.std.specs.Prelude.{◌≡◌, ◌≤◌, ◌*◌, ◌++◌, IsTrue, All, pos};
ghost use Rattle.std.specs.List.{list_all};
ghost use Rattle.aq_base.specs.Decimal.{half_up};
ghost use Rattle.aq_num.specs.Fractions.{sum_of_fractions};
ghost use Rattle.aq_rules.specs.Particles.Means.{has_days, mean_of_means};
ghost use Rattle.aq_verdict.specs.QuarterlyMean.{IsMean, nothing_more};

use crate::rounded::rounded;
use aq_num::sum_of_ratios;

/// A quarterly mean: the sum of the quarter's values, in tenths of a µg/m3, and their number.
pub(crate) type Mean = (i32, u8);

/// The mean of the four quarterly means of a year, in tenths of a µg/m3; none if a quarter has no
/// day.
pub(crate) fn mean_of_year(means: &[Mean; 4]) -> Option<i32>
    requires { All IsMean means.now }
    ensures { result ≡ mean_of_means means.now }
{
    if !have_days(means) {
        return None;
    }
    Some(mean_of(&padded(means), 4))
}

// Twelve quotients with the sum of these four.
fn padded(means: &[Mean; 4]) -> [Mean; 12]
    ensures { result ≡ means.now ++ nothing_more }
{
    let [a, b, c, d] = *means;
    let none = (0, 1);
    [a, b, c, d, none, none, none, none, none, none, none, none]
}

/// The mean of the twelve quarterly means of three years, in tenths of a µg/m3; none if a quarter
/// has no day.
pub(crate) fn mean_of_three_years(means: &[Mean; 12]) -> Option<i32>
    requires { All IsMean means.now }
    ensures { result ≡ mean_of_means means.now }
{
    if !have_days(means) {
        return None;
    }
    Some(mean_of(means, 12))
}

// The sum of the quotients over a number, rounded.
fn mean_of(means: &[Mean; 12], number: u8) -> i32
    requires some { 1 ≤ number }
    requires few { number ≤ 12 }
    requires days { IsTrue (list_all has_days means.now) }
    requires each { All IsMean means.now }
    ensures { result ≡ half_up (sum_of_fractions means.now).0 (pos (number * (sum_of_fractions means.now).1)) }
{
    let sum = sum_of_ratios(means);
    rounded(sum.num, i128::from(number) * sum.den)
}

// Whether each quarter has a day.
fn have_days(means: &[Mean]) -> bool
    ensures { result ≡ list_all has_days means.now }
{
    means.iter().all(has_days)
}

fn has_days(mean: &Mean) -> bool
    ensures { result ≡ has_days mean.now }
{
    mean.1 >= 1
}
