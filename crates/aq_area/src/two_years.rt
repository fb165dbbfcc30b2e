//! What the last two of three years leave to a next one.
ghost use Rattle.std.specs.Prelude.{◌≡◌, pos, ◌≤ℤ◌, map};
ghost use Rattle.std.specs.Option.{IfSome, option_map};
ghost use Rattle.aq_rules.specs.Standards.{level_of};
ghost use Rattle.aq_rules.specs.Ozone.OzoneYear.{OzoneYear as OzoneSummary};
ghost use Rattle.aq_rules.specs.Kept.SummaryVerdicts.{kept_percentile};
ghost use Rattle.aq_rules.specs.Particles.Pm10Estimate.{quarter_estimate, year_of_quarters};
ghost use Rattle.aq_rules.specs.Areas.CriticalValue.{Estimates, Fourths, Means, Percentiles, critical_with, exact_mean, of_last_two};
ghost use Rattle.aq_area.specs.NextYear.{IsLevel, IsPart, left};

use crate::exact_mean::{exact_mean, mean_below};
use aq_base::Standard;
use aq_verdict::{OzoneYear, Pm10Year, PmYear, percentile_of, year_estimate};

/// The level of a standard.
pub(crate) fn level_of(standard: Standard) -> i32
    ensures value { result ≡ level_of standard }
    ensures range { IsLevel result }
{
    standard.level()
}

/// A third of the sum is cut, so three years of ozone may have two above three levels.
pub(crate) fn ozone(level: i32, years: &[OzoneYear; 3]) -> Option<i32>
    requires { IsLevel level }
    ensures { result ≡ option_map (critical_with level) (of_last_two Fourths (map (λ (year : OzoneSummary). year.fourth) years.now)) }
{
    let [_, before, last] = years;
    left(3 * level + 2, fourth_of(before), fourth_of(last))
}

/// A third of the sum of the means is rounded half up, and means are not rounded before.
pub(crate) fn annual(level: i32, years: &[PmYear; 3]) -> Option<i32>
    requires { IsLevel level }
    ensures { result ≡ option_map (critical_with level) (of_last_two Means (map exact_mean years.now)) }
{
    let [_, before, last] = years;
    Some(mean_below(level, exact_mean(before)?, exact_mean(last)?))
}

/// A thirtieth of the sum of tenths is rounded half up, so three years may have 14 above thirty levels.
pub(crate) fn daily(level: i32, years: &[PmYear; 3]) -> Option<i32>
    requires { IsLevel level }
    ensures { result ≡ option_map (critical_with level) (of_last_two Percentiles (map kept_percentile years.now)) }
{
    let [_, before, last] = years;
    left(30 * level + 14, percentile(before), percentile(last))
}

/// A third of the sum of tenths is rounded half up, so three years may have one above three levels.
pub(crate) fn pm10(level: i32, years: &[Pm10Year; 3]) -> Option<i32>
    requires { IsLevel level }
    ensures { result ≡ option_map (critical_with level) (of_last_two Estimates (map (year_of_quarters quarter_estimate) years.now)) }
{
    let [_, before, last] = years;
    left(3 * level + 1, estimate(before), estimate(last))
}

// What two years leave of the most that three may have.
fn left(most: i32, before: Option<i32>, last: Option<i32>) -> Option<i32>
    requires least { pos 0 ≤ℤ most }
    requires most { most ≤ℤ pos 10000 }
    requires before { IfSome before IsPart }
    requires last { IfSome last IsPart }
    ensures { result ≡ left most before last }
{
    Some(most - before? - last?)
}

fn fourth_of(year: &OzoneYear) -> Option<i32>
    ensures value { result ≡ year.now.fourth }
    ensures range { IfSome result IsPart }
{
    // The year keeps its facts.
    let _ = year.season_days();
    year.fourth()
}

fn percentile(year: &PmYear) -> Option<i32>
    ensures value { result ≡ kept_percentile year.now }
    ensures range { IfSome result IsPart }
{
    // The year keeps its facts.
    let _ = year.quarters();
    percentile_of(year)
}

fn estimate(year: &Pm10Year) -> Option<i32>
    ensures value { result ≡ year_of_quarters quarter_estimate year.now }
    ensures range { IfSome result IsPart }
{
    // The year keeps its facts.
    let _ = year.quarters();
    year_estimate(year)
}
