//! The days of PM2.5, and the creditable samples of their quarters (40 CFR Part 50, Appendix N, 1.0(c)).
ghost use Rattle.std.specs.Prelude.{◌≡◌, ◌≤◌, ◌+◌, ◌&&◌, ◌==◌, ℕ, if◌then◌else◌, IfSome, OnOk};
ghost use Rattle.aq_base.specs.Site.{Site};
ghost use Rattle.aq_rules.specs.Office.Monitors.{is_same_site};
ghost use Rattle.aq_rules.specs.Office.Questions.{makeup_of};
ghost use Rattle.aq_particles.specs.Pm25.QuarterDays.{makeup_cell};
ghost use Rattle.aq_series.specs.DayCells.{IsParticle};
ghost use Rattle.aq_particle_cells.specs.Days.KeptDays.{cell_at, day_at, sample_at, AreDaysOfParticles};
ghost use Rattle.aq_particle_cells.specs.Pm25.Pm25Cells.{is_counted_by, sample_from, site_by, AreTallies, IsCountedBy};
ghost use Rattle.aq_particle_cells.specs.Days.Spans.{is_day_of};

use crate::days::{KeptDay, KeptDays};
use crate::pm25::tallies::Pm25Tallies;
use aq_base::{Day, Memory, Pollutant, Quarter, SiteId, Steps};
use aq_cal::quarter_span;
use aq_particles::pm25::{Pm25Schedule, is_makeup_day};
use aq_registry::Registry;
use aq_series::Cell;
use std::sync::ledger::Ledger;

/// What is kept of a site, with the schedule of a registry.
#[derive(Drop)]
struct KeptSite<'a> {
    days: &'a KeptDays,
    registry: &'a Registry,
    site: SiteId,
}

impl<'a> Pm25Schedule for KeptSite<'a> {
    ghost use Rattle.aq_particle_cells.specs.Days.KeptDays.{cell_at};
    ghost use Rattle.aq_particle_cells.specs.Pm25.Pm25Cells.{site_by};

    ghost site_days = { λ kept. site_by kept.registry.now kept.site
        (cell_at kept.days.now.days.entries kept.site) };

    fn is_scheduled(&self, day: Day) -> bool {
        self.registry.is_scheduled(self.site, Pollutant::Pm25, day)
    }
}

/// The creditable sample of a day of the values that are kept: its own if the day is scheduled, else one
/// that makes up for it.
#[tactic(auto, unfolding(crate::specs::Pm25::Pm25Cells::sample_from))]
pub(crate) fn sample_from(
    days: &KeptDays,
    registry: &Registry,
    site: SiteId,
    day: Day,
) -> Option<Cell>
    ensures { result ≡ sample_from registry.now days.now.days.entries site day }
{
    let kept = KeptSite {
        days,
        registry,
        site,
    };
    if !kept.is_scheduled(day) {
        return None;
    }
    let own = days.cell(site, day);
    if own.is_some() {
        return own;
    }
    makeup_sample(&kept, day)
}

/// The sample that makes up for a missed day, of the values that are kept.
fn makeup_sample(kept: &KeptSite<'_>, missed: Day) -> Option<Cell>
    ensures { result ≡ makeup_cell
        (site_by kept.now.registry.now kept.now.site
        (cell_at kept.now.days.now.days.entries kept.now.site))
        (makeup_of kept.now.registry.now kept.now.site) missed }
{
    let makeup = kept.registry.makeup_of(kept.site, missed)?;
    if !is_makeup_day(kept, missed, makeup) {
        return None;
    }
    kept.days.cell(kept.site, makeup)
}

/// Keeps something else of a day, in three steps at most: its quarter and its year have what it gives them
/// now in place of what it gave. What was kept before costs none. After want of memory a part of it may be
/// done.
fn exchange_day<L: Ledger>(
    days: &mut KeptDays,
    tallies: &mut Pm25Tallies,
    site: SiteId,
    day: Day,
    new: &KeptDay,
    steps: &mut Steps<L>,
) -> Result<(), Memory>
    requires tallies { AreTallies days.old.days.entries tallies.old }
    requires range { IfSome new.now.cell (λ cell. IsParticle cell.value) }
    ensures tallies { OnOk result (AreTallies days.new.days.entries tallies.new) }
    ensures days { OnOk result ((other : Site) (number : ℕ)
        → day_at days.new.days.entries other number
        ≡ (if is_same_site site other && (day == number) then new.now
        else day_at days.old.days.entries other number)) }
    ensures steps { steps.new ≤ steps.old + 3 }
    ensures no_step { day_at days.old.days.entries site day ≡ new.now → steps.new ≤ steps.old }
{
    // The proof learns that the day is one of the profile.
    let _ = day.number();
    let old = days.day(site, day);
    if old == *new {
        return Ok(());
    }
    tallies.exchange(site, day, &old, new, steps)?;
    days.put(site, day, new)?;
    Ok(())
}

/// A day goes from the value that is kept to another one, and its sample stays. In three steps at most.
/// After want of memory a part of it may be done.
fn put_cell<L: Ledger>(
    days: &mut KeptDays,
    tallies: &mut Pm25Tallies,
    site: SiteId,
    day: Day,
    new: &Option<Cell>,
    steps: &mut Steps<L>,
) -> Result<(), Memory>
    requires tallies { AreTallies days.old.days.entries tallies.old }
    requires range { IfSome new.now (λ cell. IsParticle cell.value) }
    ensures tallies { OnOk result (AreTallies days.new.days.entries tallies.new) }
    ensures cells { OnOk result ((other : Site) (number : ℕ)
        → cell_at days.new.days.entries other number
        ≡ (if is_same_site site other && (day == number) then new.now
        else cell_at days.old.days.entries other number)) }
    ensures samples { OnOk result ((other : Site) (number : ℕ)
        → sample_at days.new.days.entries other number
        ≡ sample_at days.old.days.entries other number) }
    ensures steps { steps.new ≤ steps.old + 3 }
{
    let kept = KeptDay {
        cell: *new,
        sample: days.sample(site, day),
    };
    exchange_day(days, tallies, site, day, &kept, steps)?;
    Ok(())
}

/// The sample of a day becomes the one that the schedules and the make-ups of a registry give it. In three
/// steps at most, and in none if it is that already. After want of memory a part of it may be done.
fn count_day<L: Ledger>(
    days: &mut KeptDays,
    tallies: &mut Pm25Tallies,
    registry: &Registry,
    site: SiteId,
    day: Day,
    steps: &mut Steps<L>,
) -> Result<(), Memory>
    requires tallies { AreTallies days.old.days.entries tallies.old }
    requires particles { AreDaysOfParticles days.old.days.entries }
    ensures tallies { OnOk result (AreTallies days.new.days.entries tallies.new) }
    ensures cells { OnOk result ((other : Site) (number : ℕ)
        → cell_at days.new.days.entries other number
        ≡ cell_at days.old.days.entries other number) }
    ensures samples { OnOk result ((other : Site) (number : ℕ)
        → sample_at days.new.days.entries other number
        ≡ (if is_same_site site other && (day == number)
        then sample_from registry.now days.old.days.entries site day
        else sample_at days.old.days.entries other number)) }
    ensures steps { steps.new ≤ steps.old + 3 }
    ensures no_step { sample_at days.old.days.entries site day
        ≡ sample_from registry.now days.old.days.entries site day → steps.new ≤ steps.old }
{
    let kept = KeptDay {
        cell: days.cell(site, day),
        sample: sample_from(days, registry, site, day),
    };
    exchange_day(days, tallies, site, day, &kept, steps)?;
    Ok(())
}

/// A day has another value. Its sample, and that of the missed day for which its own makes up, become those
/// that a registry gives them. In nine steps at most. After want of memory a part of it may be done.
pub(crate) fn change_day<L: Ledger>(
    days: &mut KeptDays,
    tallies: &mut Pm25Tallies,
    registry: &Registry,
    site: SiteId,
    day: Day,
    cell: &Option<Cell>,
    steps: &mut Steps<L>,
) -> Result<(), Memory>
    requires tallies { AreTallies days.old.days.entries tallies.old }
    requires particles { AreDaysOfParticles days.old.days.entries }
    requires range { IfSome cell.now (λ cell. IsParticle cell.value) }
    ensures tallies { OnOk result (AreTallies days.new.days.entries tallies.new) }
    ensures cells { OnOk result ((other : Site) (number : ℕ)
        → cell_at days.new.days.entries other number
        ≡ (if is_same_site site other && (day == number) then cell.now
        else cell_at days.old.days.entries other number)) }
    ensures samples { OnOk result ((other : Site) (number : ℕ)
        → sample_at days.new.days.entries other number
        ≡ (if is_same_site site other && is_counted_by registry.now site day number
        then sample_from registry.now days.new.days.entries site number
        else sample_at days.old.days.entries other number)) }
    ensures steps { steps.new ≤ steps.old + 9 }
{
    put_cell(days, tallies, site, day, cell, steps)?;
    count_day(days, tallies, registry, site, day, steps)?;
    let Some(missed) = registry.missed_of(site, day) else {
        return Ok(());
    };
    count_day(days, tallies, registry, site, missed, steps)?;
    Ok(())
}

/// The samples of the days of a quarter become those that a registry gives them. In 276 steps at most, and in
/// none if they are those already. After want of memory a part of it may be done.
pub(crate) fn settle_quarter<L: Ledger>(
    days: &mut KeptDays,
    tallies: &mut Pm25Tallies,
    registry: &Registry,
    site: SiteId,
    quarter: Quarter,
    steps: &mut Steps<L>,
) -> Result<(), Memory>
    requires tallies { AreTallies days.old.days.entries tallies.old }
    requires particles { AreDaysOfParticles days.old.days.entries }
    ensures tallies { OnOk result (AreTallies days.new.days.entries tallies.new) }
    ensures cells { OnOk result ((other : Site) (number : ℕ)
        → cell_at days.new.days.entries other number
        ≡ cell_at days.old.days.entries other number) }
    ensures samples { OnOk result ((other : Site) (number : ℕ)
        → sample_at days.new.days.entries other number
        ≡ (if is_same_site site other && is_day_of quarter number
        then sample_from registry.now days.old.days.entries site number
        else sample_at days.old.days.entries other number)) }
    ensures steps { steps.new ≤ steps.old + 276 }
    ensures no_step { IsCountedBy registry.now days.old.days.entries site quarter
        → steps.new ≤ steps.old }
{
    let (first, count) = quarter_span(quarter);
    for i in 0..count {
        let day = Day::new(first.number() + u16::from(i));
        count_day(days, tallies, registry, site, day, steps)?;
    }
    Ok(())
}
