//! The days and the strata of PM10 (40 CFR Part 50, Appendix K, 2.3 and 3.1).
ghost use Rattle.std.specs.Prelude.{◌≡◌, ◌≤◌, ◌+◌, ◌&&◌, ◌==◌, ℕ, None, if◌then◌else◌, OnOk};
ghost use Rattle.aq_base.specs.Site.{Site};
ghost use Rattle.aq_base.specs.declared.monitor.Pollutant.TheVariants.{Pm10};
ghost use Rattle.aq_rules.specs.Office.Monitors.{is_same_site};
ghost use Rattle.aq_rules.specs.Office.Schedule.{is_scheduled};
ghost use Rattle.aq_particle_cells.specs.Days.KeptDays.{cell_at, day_at, sample_at};
ghost use Rattle.aq_particle_cells.specs.Pm10.Pm10Cells.{scheduled_sample, stratum_from, AreSamplesBy, AreTallies};
ghost use Rattle.aq_particle_cells.specs.Pm10.Strata.{stratum_at};
ghost use Rattle.aq_particle_cells.specs.Days.Spans.{is_day_of};

use crate::days::{KeptDay, KeptDays};
use crate::pm10::kept_strata::KeptStrata;
use crate::pm10::strata::stratum_from;
use crate::pm10::tallies::Pm10Tallies;
use aq_base::{Day, Memory, Pollutant, Quarter, SiteId, Steps};
use aq_cal::quarter_span;
use aq_registry::Registry;
use aq_series::Cell;
use std::sync::ledger::Ledger;

/// The sample that a day of this value gives its quarter: the value, if the day is scheduled.
fn sample_of(registry: &Registry, site: SiteId, day: Day, cell: &Option<Cell>) -> Option<Cell>
    ensures { result ≡ (if is_scheduled registry.now site Pm10 day then cell.now else None) }
{
    if registry.is_scheduled(site, Pollutant::Pm10, day) {
        *cell
    } else {
        None
    }
}

/// Keeps something else of a day, in one step at most: its quarter has what it gives now in place of what it
/// gave. What was kept before costs none. After want of memory a part of it may be done.
fn exchange_day<L: Ledger>(
    days: &mut KeptDays,
    strata: &KeptStrata,
    tallies: &mut Pm10Tallies,
    site: SiteId,
    day: Day,
    new: &KeptDay,
    steps: &mut Steps<L>,
) -> Result<(), Memory>
    requires tallies { AreTallies days.old.days.entries strata.now.strata.entries tallies.old }
    ensures tallies { OnOk result
        (AreTallies days.new.days.entries strata.now.strata.entries tallies.new) }
    ensures days { OnOk result ((other : Site) (number : ℕ)
        → day_at days.new.days.entries other number
        ≡ (if is_same_site site other && (day == number) then new.now
        else day_at days.old.days.entries other number)) }
    ensures steps { steps.new ≤ steps.old + 1 }
    ensures no_step { day_at days.old.days.entries site day ≡ new.now → steps.new ≤ steps.old }
{
    // The proof learns that the day is one of the profile.
    let _ = day.number();
    let old = days.day(site, day);
    if old == *new {
        return Ok(());
    }
    tallies.exchange_day(site, day, &old, new, steps)?;
    days.put(site, day, new)?;
    Ok(())
}

/// A day has this value, and counts as scheduled or not by a registry. In one step at most, and in none if it
/// was so already. After want of memory a part of it may be done.
pub(crate) fn change_day<L: Ledger>(
    days: &mut KeptDays,
    strata: &KeptStrata,
    tallies: &mut Pm10Tallies,
    registry: &Registry,
    site: SiteId,
    day: Day,
    cell: &Option<Cell>,
    steps: &mut Steps<L>,
) -> Result<(), Memory>
    requires tallies { AreTallies days.old.days.entries strata.now.strata.entries tallies.old }
    ensures tallies { OnOk result
        (AreTallies days.new.days.entries strata.now.strata.entries tallies.new) }
    ensures cells { OnOk result ((other : Site) (number : ℕ)
        → cell_at days.new.days.entries other number
        ≡ (if is_same_site site other && (day == number) then cell.now
        else cell_at days.old.days.entries other number)) }
    ensures samples { OnOk result ((other : Site) (number : ℕ)
        → sample_at days.new.days.entries other number
        ≡ (if is_same_site site other && (day == number)
        then scheduled_sample registry.now days.new.days.entries site day
        else sample_at days.old.days.entries other number)) }
    ensures steps { steps.new ≤ steps.old + 1 }
    ensures no_step { cell_at days.old.days.entries site day ≡ cell.now
        → sample_at days.old.days.entries site day
        ≡ scheduled_sample registry.now days.old.days.entries site day → steps.new ≤ steps.old }
{
    let kept = KeptDay {
        cell: *cell,
        sample: sample_of(registry, site, day, cell),
    };
    exchange_day(days, strata, tallies, site, day, &kept, steps)?;
    Ok(())
}

/// The days of a quarter count as scheduled or not by a registry. In 92 steps at most, and in none if they
/// count so already. After want of memory a part of it may be done.
pub(crate) fn settle_quarter<L: Ledger>(
    days: &mut KeptDays,
    strata: &KeptStrata,
    tallies: &mut Pm10Tallies,
    registry: &Registry,
    site: SiteId,
    quarter: Quarter,
    steps: &mut Steps<L>,
) -> Result<(), Memory>
    requires tallies { AreTallies days.old.days.entries strata.now.strata.entries tallies.old }
    ensures tallies { OnOk result
        (AreTallies days.new.days.entries strata.now.strata.entries tallies.new) }
    ensures cells { OnOk result ((other : Site) (number : ℕ)
        → cell_at days.new.days.entries other number
        ≡ cell_at days.old.days.entries other number) }
    ensures samples { OnOk result ((other : Site) (number : ℕ)
        → sample_at days.new.days.entries other number
        ≡ (if is_same_site site other && is_day_of quarter number
        then scheduled_sample registry.now days.old.days.entries site number
        else sample_at days.old.days.entries other number)) }
    ensures steps { steps.new ≤ steps.old + 92 }
    ensures no_step { AreSamplesBy registry.now days.old.days.entries site quarter
        → steps.new ≤ steps.old }
{
    let (first, count) = quarter_span(quarter);
    for i in 0..count {
        let day = Day::new(first.number() + u16::from(i));
        let cell = days.cell(site, day);
        change_day(days, strata, tallies, registry, site, day, &cell, steps)?;
    }
    Ok(())
}

/// What is kept of the stratum that starts on a day becomes that of its days, by a registry. In one step at
/// most. After want of memory a part of it may be done.
pub(crate) fn settle_stratum<L: Ledger>(
    days: &KeptDays,
    strata: &mut KeptStrata,
    tallies: &mut Pm10Tallies,
    registry: &Registry,
    site: SiteId,
    first: Day,
    steps: &mut Steps<L>,
) -> Result<(), Memory>
    requires tallies { AreTallies days.now.days.entries strata.old.strata.entries tallies.old }
    ensures tallies { OnOk result
        (AreTallies days.now.days.entries strata.new.strata.entries tallies.new) }
    ensures strata { OnOk result ((other : Site) (number : ℕ)
        → stratum_at strata.new.strata.entries other number
        ≡ (if is_same_site site other && (first == number)
        then stratum_from registry.now days.now.days.entries site first
        else stratum_at strata.old.strata.entries other number)) }
    ensures steps { steps.new ≤ steps.old + 1 }
{
    // The proof learns that the day is one of the profile.
    let _ = first.number();
    let old = strata.stratum(site, first);
    let new = stratum_from(days, registry, site, first);
    tallies.exchange_stratum(site, first, old, new, steps)?;
    strata.put(site, first, new)?;
    Ok(())
}
