//! Critical values (own).
ghost use Rattle.std.specs.Prelude.{◌≡◌, true, false, ℤ, ◌<ℤ◌, length, All};
ghost use Rattle.std.specs.Option.{IfSome, option_map};
ghost use Rattle.aq_rules.specs.Kept.Summaries.{PmYear as Year};
ghost use Rattle.aq_rules.specs.Areas.CriticalValue.{HasQuarters, critical, critical_with, last_two};
ghost use Rattle.aq_verdict.specs.Designs.{design_of};
ghost use Rattle.aq_area.specs.NextYear.{IsLevel, is_kept_with};

use crate::two_years::{annual, daily, level_of, ozone, pm10};
use aq_base::Standard;
use aq_verdict::{DesignValue, PmYear};

/// How much the year after a report's may measure for a standard still to be met, from the report's
/// design value of that standard: the greatest whole number with which the three years are at or below
/// the level. It is in thousandths of a ppm for ozone and in tenths otherwise, of a µg/m3 as an annual
/// mean or a percentile, or of an estimated exceedance; it may be below 0. `None` if one of the last two
/// years lacks its part: its fourth highest maximum, its annual mean, its percentile or its estimate.
pub fn critical(standard: Standard, value: &DesignValue) -> Option<i32>
    ensures value { result ≡ critical standard (design_of value.now) }
    ensures kept { IfSome result (λ next. is_kept_with standard (design_of value.now) next ≡ true) }
    ensures greatest { IfSome result (λ next. (more : ℤ) → next <ℤ more → is_kept_with standard (design_of value.now) more ≡ false) }
{
    has_quarters(value);
    left_by_two(level_of(standard), value)
}

// What the last two years leave to a next one.
fn left_by_two(level: i32, value: &DesignValue) -> Option<i32>
    requires { IsLevel level }
    ensures { result ≡ option_map (critical_with level) (last_two (design_of value.now)) }
{
    match value {
        DesignValue::Ozone(years, _) => ozone(level, years),
        DesignValue::Annual(years, _) => annual(level, years),
        DesignValue::Daily(years, _) => daily(level, years),
        DesignValue::Pm10(years, _) => pm10(level, years),
    }
}

// Years of PM2.5 keep four quarters.
fn has_quarters(value: &DesignValue)
    ensures { HasQuarters (design_of value.now) }
{
    if let DesignValue::Annual(years, _) = value {
        have_quarters(years);
    }
}

fn have_quarters(years: &[PmYear; 3])
    ensures { All (λ (year : Year). length year.quarters ≡ 4) years.now }
{
    let [first, before, last] = years;
    let _ = first.quarters();
    let _ = before.quarters();
    let _ = last.quarters();
}
