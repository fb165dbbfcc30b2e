//! The quarterly means of PM2.5 years, with copies and without.
ghost use Rattle.std.specs.Prelude.{◌≡◌, ◌++◌, [], map, All};
ghost use Rattle.aq_rules.specs.Particles.AnnualVerdict.{mean_of};
ghost use Rattle.aq_rules.specs.Kept.SummaryVerdicts.{of_summaries};
ghost use Rattle.aq_verdict.specs.Filled.{copies_of, Fills};
ghost use Rattle.aq_verdict.specs.QuarterlyMean.{IsMean};

use crate::means::{Mean, mean_of_year};
use crate::pm_quarter::PmQuarter;
use crate::pm_year::PmYear;
use crate::substitution::Copies;

/// The annual mean, in tenths of a µg/m3; none if a quarter has no day.
pub fn annual_mean(year: &PmYear) -> Option<i32>
    ensures { result ≡ mean_of of_summaries year.now.quarters }
{
    mean_of_year(&quarterly_means(year))
}

/// The quarterly means of a year.
pub(crate) fn quarterly_means(year: &PmYear) -> [Mean; 4]
    ensures means { result ≡ map (of_summaries.mean_with []) year.now.quarters }
    ensures each { All IsMean result }
{
    let [a, b, c, d] = year.quarters();
    [
        quarterly_mean(a),
        quarterly_mean(b),
        quarterly_mean(c),
        quarterly_mean(d),
    ]
}

fn quarterly_mean(quarter: &PmQuarter) -> Mean
    ensures mean { result ≡ of_summaries.mean_with [] quarter.now }
    ensures each { IsMean result }
{
    let _ = quarter.scheduled();
    (quarter.sum(), quarter.days())
}

/// The mean of a quarter's list with its copies.
pub(crate) fn mean_with(quarter: &PmQuarter, copies: Copies) -> Mean
    requires { Fills quarter.now copies }
    ensures mean { result ≡ of_summaries.mean_with (copies_of copies) quarter.now }
    ensures each { IsMean result }
{
    let _ = quarter.scheduled();
    let copied = copies.value * i32::from(copies.number);
    (quarter.sum() + copied, quarter.days() + copies.number)
}

/// The means of three years, one after another.
pub(crate) fn together(first: &[Mean; 4], second: &[Mean; 4], third: &[Mean; 4]) -> [Mean; 12]
    ensures { result ≡ first.now ++ (second.now ++ third.now) }
{
    let [a, b, c, d] = *first;
    let [e, f, g, h] = *second;
    let [i, j, k, l] = *third;
    [a, b, c, d, e, f, g, h, i, j, k, l]
}
