//! The design value of combined sites.
ghost use Rattle.std.specs.Prelude.{◌≡◌, ℕ, ◌+◌, ◌-◌, ◌*◌, ◌≤◌, Some, None, true, option_map, map};
ghost use Rattle.aq_base.specs.Calendar.{year_first};
ghost use Rattle.aq_base.specs.declared.day.TheConstants.{FIRST_YEAR, LAST_YEAR};
ghost use Rattle.aq_base.specs.declared.monitor.Pollutant.TheVariants.{Ozone, Pm25};
ghost use Rattle.aq_base.specs.declared.standard.Standard.TheVariants.{Ozone2015};
ghost use Rattle.aq_rules.specs.Combined.Pair as pairs;
ghost use Rattle.aq_rules.specs.DesignValues.{design_value};
ghost use Rattle.aq_rules.specs.Kept.Summaries.{KeepsPmYear, summary_of_year};
ghost use Rattle.aq_rules.specs.Office.Monitors.{is_same_pollutant};
ghost use Rattle.aq_rules.specs.Office.Office.{IsOffice};
ghost use Rattle.aq_rules.specs.Office.Questions.{Joined, combined};
ghost use Rattle.aq_rules.specs.Ozone.SiteHour.{site_hour};
ghost use Rattle.aq_rules.specs.Particles.ParticleDay.{site_day};
ghost use Rattle.aq_rules.specs.Standards.{pollutant_of};
ghost use Rattle.aq_design.specs.Combined.Pairs.{office_in, pair_in, value_by};
ghost use Rattle.aq_series.specs.OfficeView.{office_of};
ghost use Rattle.aq_verdict.specs.Designs.{design_of};

use crate::combined::pair::Pair;
use crate::combined::pm25::pm25_year;
use aq_base::{SiteId, Standard, Steps};
use aq_registry::Registry;
use aq_rules::combined::a_joined_site_without_values_changes_nothing;
use aq_rules::kept::summaries::{
    eight_greatest_are_enough_for_the_daily_verdict, sums_are_enough_for_the_annual_verdict,
};
use aq_shelf::Shelf;
use aq_verdict::{DesignValue, PmYear, annual, daily, ozone};
use std::sync::ledger::Ledger;

/// The design value of a standard for the three years that end with a year, with what is kept of these and
/// the verdict (40 CFR Part 50, Appendix U, 3(e) and 4, and Appendix N, 4 and 5), of a site and the one
/// that is joined to it for the standard's pollutant, read as one (own); `None` exactly if none is, and so
/// for PM10. If the joined site has no data and is joined after the last year, it is the site's. For ozone
/// it makes at most 400 steps a day. The year is 1992 to 2059.
pub fn pair_value<L: Ledger>(
    shelf: &Shelf,
    registry: &Registry,
    standard: Standard,
    site: SiteId,
    year: u16,
    steps: &mut Steps<L>,
) -> Option<DesignValue>
    requires first { FIRST_YEAR + 2 ≤ year }
    requires last { year ≤ LAST_YEAR }
    ensures value { option_map design_of result
        ≡ pairs.pair_value standard (office_of registry.now shelf.now) site year }
    ensures ozone_alone { (joined : Joined) → standard ≡ Ozone2015
        → combined registry.now site Ozone ≡ Some joined
        → ((hour : ℕ) → site_hour (office_of registry.now shelf.now) joined.site hour ≡ None)
        → year_first (year + 1) ≤ joined.from
        → option_map design_of result ≡ Some (design_value Ozone2015 (office_of registry.now shelf.now) site year) }
    ensures pm25_alone { (joined : Joined) → is_same_pollutant (pollutant_of standard) Pm25 ≡ true
        → IsOffice (office_of registry.now shelf.now)
        → combined registry.now site Pm25 ≡ Some joined
        → ((day : ℕ) → site_day (office_of registry.now shelf.now) joined.site Pm25 day ≡ None)
        → year_first (year + 1) ≤ joined.from
        → option_map design_of result ≡ Some (design_value standard (office_of registry.now shelf.now) site year) }
    ensures steps { standard ≡ Ozone2015 → steps.new ≤ steps.old + 3 * (400 * 367) }
{
    a_joined_site_without_values_changes_nothing();
    let Some(pair) = Pair::of(shelf, registry, site, standard.pollutant()) else {
        return None;
    };
    value_of(&pair, standard, year, steps)
}

/// The design value of a pair, and none for PM10.
#[tactic(auto, unfolding(crate::specs::Combined::Pairs::value_by))]
fn value_of<L: Ledger>(
    pair: &Pair<'_, '_>,
    standard: Standard,
    year: u16,
    steps: &mut Steps<L>,
) -> Option<DesignValue>
    requires first { FIRST_YEAR + 2 ≤ year }
    requires last { year ≤ LAST_YEAR }
    ensures value { option_map design_of result
        ≡ value_by standard (office_in pair.now) year (pair_in pair.now) }
    ensures steps { standard ≡ Ozone2015 → steps.new ≤ steps.old + 3 * (400 * 367) }
{
    match standard {
        Standard::Ozone2015 => Some(ozone_value(pair, year, steps)),
        Standard::Annual2012 | Standard::AnnualSecondary | Standard::Annual2024 => {
            Some(annual_value(pair, standard.level(), year, steps))
        }
        Standard::Daily2006 => Some(daily_value(pair, year, steps)),
        Standard::Pm10Of1987 => None,
    }
}

/// The ozone design value.
fn ozone_value<L: Ledger>(pair: &Pair<'_, '_>, year: u16, steps: &mut Steps<L>) -> DesignValue
    requires first { FIRST_YEAR + 2 ≤ year }
    requires last { year ≤ LAST_YEAR }
    ensures value { design_of result
        ≡ pairs.ozone_value_of (pairs.pair_ozone_years (office_in pair.now) year (pair_in pair.now)) }
    ensures steps { steps.new ≤ steps.old + 3 * (400 * 367) }
{
    let first = aq_ozone::year_of(pair, year - 2, steps);
    let second = aq_ozone::year_of(pair, year - 1, steps);
    let third = aq_ozone::year_of(pair, year, steps);
    let years = [first, second, third];
    DesignValue::Ozone(years, ozone(&years))
}

/// The annual design value of PM2.5, at a level in tenths of a µg/m3.
fn annual_value<L: Ledger>(
    pair: &Pair<'_, '_>,
    level: i32,
    year: u16,
    steps: &mut Steps<L>,
) -> DesignValue
    requires first { FIRST_YEAR + 2 ≤ year }
    requires last { year ≤ LAST_YEAR }
    ensures { design_of result ≡ pairs.annual_value_of level
        (pairs.pair_pm25_years (office_in pair.now) year (pair_in pair.now)) }
{
    sums_are_enough_for_the_annual_verdict();
    let years = three_pm25_years(pair, year, steps);
    DesignValue::Annual(years, annual(&years, level))
}

/// The 24-hour design value of PM2.5.
fn daily_value<L: Ledger>(pair: &Pair<'_, '_>, year: u16, steps: &mut Steps<L>) -> DesignValue
    requires first { FIRST_YEAR + 2 ≤ year }
    requires last { year ≤ LAST_YEAR }
    ensures { design_of result
        ≡ pairs.daily_value_of (pairs.pair_pm25_years (office_in pair.now) year (pair_in pair.now)) }
{
    eight_greatest_are_enough_for_the_daily_verdict();
    let years = three_pm25_years(pair, year, steps);
    DesignValue::Daily(years, daily(&years))
}

/// The three PM2.5 years that end with a year, the oldest first.
fn three_pm25_years<L: Ledger>(pair: &Pair<'_, '_>, last: u16, steps: &mut Steps<L>) -> [PmYear; 3]
    requires first { FIRST_YEAR + 2 ≤ last }
    requires last { last ≤ LAST_YEAR }
    ensures years { result ≡ map summary_of_year
        (pairs.pair_pm25_years (office_in pair.now) last (pair_in pair.now)) }
    ensures first_kept { KeepsPmYear
        (summary_of_year (pairs.pair_pm25_year (office_in pair.now) (pair_in pair.now) (last - 2))) }
    ensures second_kept { KeepsPmYear
        (summary_of_year (pairs.pair_pm25_year (office_in pair.now) (pair_in pair.now) (last - 1))) }
    ensures third_kept { KeepsPmYear
        (summary_of_year (pairs.pair_pm25_year (office_in pair.now) (pair_in pair.now) last)) }
{
    let first = pm25_year(pair, last - 2, steps);
    let second = pm25_year(pair, last - 1, steps);
    let third = pm25_year(pair, last, steps);
    // The proof learns that each keeps its facts.
    let _ = first.quarters();
    let _ = second.quarters();
    let _ = third.quarters();
    [first, second, third]
}
