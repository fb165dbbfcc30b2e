//! The strata of quarters, by the schedules of a registry (40 CFR Part 50, Appendix K, 3.2).
ghost use Rattle.std.specs.Prelude.{◌≡◌, ◌≤◌, ◌<◌, ◌+◌, ◌-◌, ◌⊎◌, ◌++◌, List, Some, ℤ, filter_map, IfSome};
ghost use Rattle.std.specs.List.{range_with_len};
ghost use Rattle.std.specs.Option.{option_to_list};
ghost use Rattle.aq_base.specs.Calendar.{quarter_of};
ghost use Rattle.aq_base.specs.declared.day.TheConstants.{LAST_DAY};
ghost use Rattle.aq_agg.specs.StratumSums.{stratum_with, IsStratum};
ghost use Rattle.aq_rules.specs.Particles.Strata.{quarter_end, stratum_by};
ghost use Rattle.aq_particle_cells.specs.Pm10.Strata.{days_of_stratum};
ghost use Rattle.aq_particle_cells.specs.Pm10.Pm10Cells.{net_at, stratum_from};

use crate::days::{KeptDays, net};
use aq_base::{Day, Pollutant, SiteId};
use aq_cal::{quarter_of, quarter_span};
use aq_dirty::stratum_first;
use aq_particles::pm10::{STRATUM_DAYS, exceeds};
use aq_registry::Registry;

/// The day behind the last one that a stratum from a day on may have: six days on, or with the quarter.
fn latest_end(first: Day) -> u16
    ensures some { first < result }
    ensures six { result ≤ first + 6 }
    ensures within { result ≤ quarter_end (quarter_of first) }
    ensures either { (result ≡ first + 6) ⊎ (result ≡ quarter_end (quarter_of first)) }
    ensures profile { result ≤ LAST_DAY + 1 }
{
    let (start, days) = quarter_span(quarter_of(first));
    let closes = start.number() + u16::from(days);
    let longest = first.number() + STRATUM_DAYS;
    if longest < closes { longest } else { closes }
}

/// The day behind the last one of the stratum that starts on a day.
fn stratum_end(registry: &Registry, site: SiteId, first: Day) -> u16
    requires { stratum_by registry.now site first ≡ Some first }
    ensures days { days_of_stratum registry.now site first ≡ range_with_len first (result - first) }
    ensures some { first < result }
    ensures few { result ≤ first + 6 }
    ensures profile { result ≤ LAST_DAY + 1 }
{
    let most = latest_end(first);
    let mut end = first.number() + 1;
    while end < most && !registry.is_scheduled(site, Pollutant::Pm10, Day::new(end)) {
        end += 1;
    }
    end
}

/// How many samples exceed and how many there are, with one more sample, if there is one.
fn with_sample(counts: (u8, u8), sample: Option<i32>) -> (u8, u8)
    requires few { counts.1 ≤ 5 }
    requires less { counts.0 ≤ counts.1 }
    ensures counts { (values : List ℤ) → counts ≡ stratum_with values → result
        ≡ stratum_with (values ++ option_to_list sample) }
    ensures few { result.1 ≤ counts.1 + 1 }
    ensures less { result.0 ≤ result.1 }
{
    let (exceedances, samples) = counts;
    match sample {
        Some(value) => (exceedances + u8::from(exceeds(value)), samples + 1),
        None => counts,
    }
}

/// How many of the samples of so many days exceed, and how many samples these have.
fn counts_of(days: &KeptDays, site: SiteId, first: Day, count: u16) -> (u8, u8)
    requires few { count ≤ 6 }
    requires profile { first + count ≤ LAST_DAY + 1 }
    ensures counts { result ≡ stratum_with
        (filter_map (net_at days.now.days.entries site) (range_with_len first count)) }
    ensures few { result.1 ≤ 6 }
    ensures less { result.0 ≤ result.1 }
{
    let mut counts = (0, 0);
    for i in 0..count {
        let day = Day::new(first.number() + i);
        counts = with_sample(counts, net(&days.cell(site, day)));
    }
    counts
}

/// What is to be kept of the stratum that starts on a day, by the values that are kept: how many of its
/// samples exceed and how many it has; nothing if no stratum starts there or it has no sample.
pub(crate) fn stratum_from(
    days: &KeptDays,
    registry: &Registry,
    site: SiteId,
    first: Day,
) -> Option<(u8, u8)>
    ensures value { result ≡ stratum_from registry.now days.now.days.entries site first }
    ensures range { IfSome result IsStratum }
{
    // The proof learns that the day is one of the profile.
    let _ = first.number();
    if stratum_first(registry, site, first) != first {
        return None;
    }
    let end = stratum_end(registry, site, first);
    let counts = counts_of(days, site, first, end - first.number());
    let (_, samples) = counts;
    if samples == 0 {
        return None;
    }
    Some(counts)
}
