//! The design value of any standard.
ghost use Rattle.std.specs.Prelude.{◌≡◌, ◌+◌, ◌-◌, ◌*◌, ◌≤◌, true};
ghost use Rattle.aq_base.specs.declared.day.TheConstants.{FIRST_YEAR, LAST_YEAR};
ghost use Rattle.aq_base.specs.declared.standard.Standard.TheVariants.{Ozone2015};
ghost use Rattle.aq_rules.specs.DesignValues.{OfAnnual, OfDaily, OfOzone, OfPm10, design_value, pm10_years, pm25_years};
ghost use Rattle.aq_rules.specs.Kept.Summaries.{KeepsPmYear, pm25_summary};
ghost use Rattle.aq_rules.specs.Ozone.OzoneVerdict.{ozone_design, three_years};
ghost use Rattle.aq_rules.specs.Particles.AnnualVerdict.{annual_design};
ghost use Rattle.aq_rules.specs.Particles.DailyVerdict.{daily_design};
ghost use Rattle.aq_rules.specs.Particles.Pm10Verdict.{pm10_design};
ghost use Rattle.aq_verdict.specs.Designs.{design_of};

use crate::years::Years;
use aq_base::{SiteId, Standard, Steps};
use aq_rules::kept::summaries::{
    eight_greatest_are_enough_for_the_daily_verdict, office_verdicts_read_what_is_kept,
};
use aq_verdict::{DesignValue, PmYear, annual, daily, ozone, pm10};
use std::sync::ledger::Ledger;

/// The design value of a standard for a site and the three years that end with a year, with what is kept
/// of these and the verdict (40 CFR Part 50, Appendix U, 3(e) and 4, Appendix N, 4 and 5, and Appendix K,
/// 2.1). It takes no memory. For ozone it makes at most the steps of three years of the source, and for particles none
/// if the source keeps their years. The year is 1992 to 2059.
#[tactic(auto, unfolding(aq_rules::specs::DesignValues::design_value))]
pub fn design_value<Y: Years, L: Ledger>(
    source: &Y,
    standard: Standard,
    site: SiteId,
    year: u16,
    steps: &mut Steps<L>,
) -> DesignValue
    requires first { FIRST_YEAR + 2 ≤ year }
    requires last { year ≤ LAST_YEAR }
    ensures value { design_of result ≡ design_value standard (Y.office source.now) site year }
    ensures steps { standard ≡ Ozone2015 → steps.new ≤ steps.old + 3 * Y.ozone_steps }
    ensures kept { Y.keeps_particles ≡ true → steps.new ≤ steps.old + 3 * Y.ozone_steps }
    ensures particles { Y.keeps_particles ≡ true → (standard ≡ Ozone2015 → ⊥) → steps.new ≤ steps.old }
{
    match standard {
        Standard::Ozone2015 => ozone_value(source, site, year, steps),
        Standard::Annual2012 | Standard::AnnualSecondary | Standard::Annual2024 => {
            annual_value(source, standard.level(), site, year, steps)
        }
        Standard::Daily2006 => daily_value(source, site, year, steps),
        Standard::Pm10Of1987 => pm10_value(source, site, year, steps),
    }
}

/// The ozone design value.
fn ozone_value<Y: Years, L: Ledger>(
    source: &Y,
    site: SiteId,
    year: u16,
    steps: &mut Steps<L>,
) -> DesignValue
    requires first { FIRST_YEAR + 2 ≤ year }
    requires last { year ≤ LAST_YEAR }
    ensures value { design_of result ≡ OfOzone (three_years (Y.office source.now) site year) (ozone_design (Y.office source.now) site year) }
    ensures steps { steps.new ≤ steps.old + 3 * Y.ozone_steps }
{
    let first = source.ozone(site, year - 2, steps);
    let second = source.ozone(site, year - 1, steps);
    let third = source.ozone(site, year, steps);
    let years = [first, second, third];
    DesignValue::Ozone(years, ozone(&years))
}

/// The annual design value of PM2.5, at a level in tenths of a µg/m3.
fn annual_value<Y: Years, L: Ledger>(
    source: &Y,
    level: i32,
    site: SiteId,
    year: u16,
    steps: &mut Steps<L>,
) -> DesignValue
    requires first { FIRST_YEAR + 2 ≤ year }
    requires last { year ≤ LAST_YEAR }
    ensures value { design_of result ≡ OfAnnual (pm25_years (Y.office source.now) site year) (annual_design level (Y.office source.now) site year) }
    ensures kept { Y.keeps_particles ≡ true → steps.new ≤ steps.old }
{
    office_verdicts_read_what_is_kept();
    let years = three_pm25_years(source, site, year, steps);
    DesignValue::Annual(years, annual(&years, level))
}

/// The 24-hour design value of PM2.5.
fn daily_value<Y: Years, L: Ledger>(
    source: &Y,
    site: SiteId,
    year: u16,
    steps: &mut Steps<L>,
) -> DesignValue
    requires first { FIRST_YEAR + 2 ≤ year }
    requires last { year ≤ LAST_YEAR }
    ensures value { design_of result ≡ OfDaily (pm25_years (Y.office source.now) site year) (daily_design (Y.office source.now) site year) }
    ensures kept { Y.keeps_particles ≡ true → steps.new ≤ steps.old }
{
    eight_greatest_are_enough_for_the_daily_verdict();
    let years = three_pm25_years(source, site, year, steps);
    DesignValue::Daily(years, daily(&years))
}

/// The PM10 design value.
fn pm10_value<Y: Years, L: Ledger>(
    source: &Y,
    site: SiteId,
    year: u16,
    steps: &mut Steps<L>,
) -> DesignValue
    requires first { FIRST_YEAR + 2 ≤ year }
    requires last { year ≤ LAST_YEAR }
    ensures value { design_of result ≡ OfPm10 (pm10_years (Y.office source.now) site year) (pm10_design (Y.office source.now) site year) }
    ensures kept { Y.keeps_particles ≡ true → steps.new ≤ steps.old }
{
    let first = source.pm10(site, year - 2, steps);
    let second = source.pm10(site, year - 1, steps);
    let third = source.pm10(site, year, steps);
    let years = [first, second, third];
    DesignValue::Pm10(years, pm10(&years))
}

/// The three PM2.5 years that end with a year, the oldest first.
fn three_pm25_years<Y: Years, L: Ledger>(
    source: &Y,
    site: SiteId,
    last: u16,
    steps: &mut Steps<L>,
) -> [PmYear; 3]
    requires first { FIRST_YEAR + 2 ≤ last }
    requires last { last ≤ LAST_YEAR }
    ensures years { result ≡ pm25_years (Y.office source.now) site last }
    ensures first_kept { KeepsPmYear (pm25_summary (Y.office source.now) site (last - 2)) }
    ensures second_kept { KeepsPmYear (pm25_summary (Y.office source.now) site (last - 1)) }
    ensures third_kept { KeepsPmYear (pm25_summary (Y.office source.now) site last) }
    ensures kept { Y.keeps_particles ≡ true → steps.new ≤ steps.old }
{
    let first = source.pm25(site, last - 2, steps);
    let second = source.pm25(site, last - 1, steps);
    let third = source.pm25(site, last, steps);
    // The proof learns that each keeps its facts.
    let _ = first.quarters();
    let _ = second.quarters();
    let _ = third.quarters();
    [first, second, third]
}
