//! The PM10 cells of an office, filled from its rows.
ghost use Rattle.std.specs.Prelude.{◌≡◌, ◌≤◌, true, ℕ, List, Some, IfOk, IfSome, OnOk};
ghost use Rattle.aq_base.specs.Site.{Site};
ghost use Rattle.aq_base.specs.declared.day.TheConstants.{LAST_DAY};
ghost use Rattle.aq_base.specs.declared.monitor.Pollutant.TheVariants.{Pm10};
ghost use Rattle.aq_base.specs.declared.observation.ObsKey.{ObsKey};
ghost use Rattle.aq_base.specs.declared.observation.Observation.{Observation};
ghost use Rattle.aq_rules.specs.Particles.Strata.{stratum_by};
ghost use Rattle.aq_series.specs.OfficeView.{office_of};
ghost use Rattle.aq_particle_cells.specs.Days.KeptDays.{cell_at, sample_at};
ghost use Rattle.aq_particle_cells.specs.Days.Observed.{lies_on};
ghost use Rattle.aq_particle_cells.specs.Pm10.Pm10Levels.{AreFilling, AreKept, AreStrataFilling, AreStrataSoFar, AreValuesOf, CountsAs, HasStratumOf, HasValueOf, StrataStay, ValuesStay};
ghost use Rattle.aq_particle_cells.specs.Pm10.Strata.{stratum_at};

use crate::days::{SiteDay, is_last};
use crate::pm10::cells::Pm10Cells;
use aq_base::{Day, Memory, ObsKey, Pollutant, SiteId, Steps};
use aq_dirty::stratum_first;
use aq_registry::Registry;
use aq_series::site_day;
use aq_shelf::Shelf;
use std::alloc::Global;
use std::sync::ledger::Ledger;

/// The PM10 cells of the office of these records and observations. It costs two walks over the observations,
/// for each day of a site that has one of PM10 its value and some look-ups of the cells, and for each stratum
/// with such a day its samples.
pub fn filled<L: Ledger>(
    alloc: Global,
    shelf: &Shelf,
    registry: &Registry,
    steps: &mut Steps<L>,
) -> Result<Pm10Cells, Memory>
    ensures { IfOk result (AreKept (office_of registry.now shelf.now)) }
{
    let mut cells = Pm10Cells::new(alloc);
    fill_days(&mut cells, shelf, registry, steps)?;
    fill_strata(&mut cells, shelf, registry, steps)?;
    Ok(cells)
}

/// Gives each day that is observed the value that the office has.
fn fill_days<L: Ledger>(
    cells: &mut Pm10Cells,
    shelf: &Shelf,
    registry: &Registry,
    steps: &mut Steps<L>,
) -> Result<(), Memory>
    requires { AreFilling (office_of registry.now shelf.now) cells.old }
    ensures values { OnOk result
        ((site : Site) → AreValuesOf (office_of registry.now shelf.now) cells.new site) }
    ensures counts { OnOk result ((site : Site) (day : ℕ)
        → CountsAs (office_of registry.now shelf.now) cells.new site day) }
    ensures strata { OnOk result ((site : Site) (first : ℕ) → stratum_at cells.new.strata site first
        ≡ stratum_at cells.old.strata site first) }
{
    let mut last = None;
    for (key, _) in shelf.rows(steps) {
        fill_observation(cells, &mut last, shelf, registry, &key, steps)?;
    }
    Ok(())
}

/// Fills the day in which an observation lies, if it is one of PM10.
fn fill_observation<L: Ledger>(
    cells: &mut Pm10Cells,
    last: &mut Option<SiteDay>,
    shelf: &Shelf,
    registry: &Registry,
    key: &ObsKey,
    steps: &mut Steps<L>,
) -> Result<(), Memory>
    requires each { AreFilling (office_of registry.now shelf.now) cells.old }
    requires last { IfSome last.old
        (λ last. HasValueOf (office_of registry.now shelf.now) cells.old last.site last.day) }
    ensures each { OnOk result (AreFilling (office_of registry.now shelf.now) cells.new) }
    ensures stay { OnOk result (ValuesStay (office_of registry.now shelf.now) cells.old cells.new) }
    ensures last { OnOk result
        (IfSome last.new (λ last. HasValueOf
        (office_of registry.now shelf.now) cells.new last.site last.day)) }
    ensures filled { OnOk result ((site : Site) (day : ℕ) → lies_on Pm10 site day key.now ≡ true
        → HasValueOf (office_of registry.now shelf.now) cells.new site day) }
    ensures strata { OnOk result ((site : Site) (first : ℕ) → stratum_at cells.new.strata site first
        ≡ stratum_at cells.old.strata site first) }
{
    if key.monitor.pollutant != Pollutant::Pm10 {
        return Ok(());
    }
    let site = key.monitor.site;
    let day = Day::new((key.hour.number() / 24) as u16);
    if is_last(last, site, day) {
        return Ok(());
    }
    fill_day(cells, shelf, registry, site, day, steps)?;
    *last = Some(SiteDay { site, day });
    Ok(())
}

/// Gives a day the value that the office has.
fn fill_day<L: Ledger>(
    cells: &mut Pm10Cells,
    shelf: &Shelf,
    registry: &Registry,
    site: SiteId,
    day: Day,
    steps: &mut Steps<L>,
) -> Result<(), Memory>
    requires { AreFilling (office_of registry.now shelf.now) cells.old }
    ensures each { OnOk result (AreFilling (office_of registry.now shelf.now) cells.new) }
    ensures stay { OnOk result (ValuesStay (office_of registry.now shelf.now) cells.old cells.new) }
    ensures filled { OnOk result
        (HasValueOf (office_of registry.now shelf.now) cells.new site day) }
    ensures strata { OnOk result ((other : Site) (first : ℕ)
        → stratum_at cells.new.strata other first ≡ stratum_at cells.old.strata other first) }
{
    let old = cells.cell(site, day);
    let new = site_day(shelf, registry, site, Pollutant::Pm10, day, steps);
    cells.change_day(registry, site, day, old, new, steps)?;
    Ok(())
}

/// Brings the stratum of each day that is observed up to date, once all days have their values.
fn fill_strata<L: Ledger>(
    cells: &mut Pm10Cells,
    shelf: &Shelf,
    registry: &Registry,
    steps: &mut Steps<L>,
) -> Result<(), Memory>
    requires { AreStrataFilling (office_of registry.now shelf.now) cells.old }
    ensures strata { OnOk result ((site : Site) (first : ℕ) → first ≤ LAST_DAY
        → HasStratumOf (office_of registry.now shelf.now) cells.new site first) }
    ensures cells { OnOk result ((site : Site) (day : ℕ) → cell_at cells.new.days site day
        ≡ cell_at cells.old.days site day) }
    ensures samples { OnOk result ((site : Site) (day : ℕ) → sample_at cells.new.days site day
        ≡ sample_at cells.old.days site day) }
{
    let mut last = None;
    for (key, _) in shelf.rows(steps) {
        fill_stratum(cells, &mut last, registry, &key, steps)?;
    }
    Ok(())
}

/// Brings the stratum of the day in which an observation lies up to date, if it is one of PM10.
fn fill_stratum<L: Ledger>(
    cells: &mut Pm10Cells,
    last: &mut Option<SiteDay>,
    registry: &Registry,
    key: &ObsKey,
    steps: &mut Steps<L>,
) -> Result<(), Memory>
    ensures each { OnOk result ((rows : List (ObsKey × Observation))
        → AreStrataSoFar (office_of registry.now rows) cells.old last.old
        → AreStrataSoFar (office_of registry.now rows) cells.new last.new) }
    ensures stay { OnOk result ((rows : List (ObsKey × Observation))
        → AreStrataSoFar (office_of registry.now rows) cells.old last.old
        → StrataStay (office_of registry.now rows) cells.old cells.new) }
    ensures filled { OnOk result ((rows : List (ObsKey × Observation)) (site : Site) (day first : ℕ)
        → AreStrataSoFar (office_of registry.now rows) cells.old last.old
        → lies_on Pm10 site day key.now ≡ true → stratum_by registry.now site day ≡ Some first
        → HasStratumOf (office_of registry.now rows) cells.new site first) }
    ensures cells { OnOk result ((site : Site) (day : ℕ) → cell_at cells.new.days site day
        ≡ cell_at cells.old.days site day) }
    ensures samples { OnOk result ((site : Site) (day : ℕ) → sample_at cells.new.days site day
        ≡ sample_at cells.old.days site day) }
{
    if key.monitor.pollutant != Pollutant::Pm10 {
        return Ok(());
    }
    let site = key.monitor.site;
    let day = Day::new((key.hour.number() / 24) as u16);
    let first = stratum_first(registry, site, day);
    if is_last(last, site, first) {
        return Ok(());
    }
    cells.settle_stratum(registry, site, first, steps)?;
    *last = Some(SiteDay { site, day: first });
    Ok(())
}
