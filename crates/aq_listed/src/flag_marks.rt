//! The marks of a site, those that an event covers, and those that one with a concurrence leaves out.
ghost use Rattle.std.specs.Prelude.{◌≡◌, IfOk, filter};
ghost use Rattle.aq_rules.specs.Listed.Events.{events_of};
ghost use Rattle.aq_registry.specs.Registry.{office_with};
ghost use Rattle.aq_listed.specs.FlagWords as words;
ghost use Rattle.aq_listed.specs.FlagWords.{AreThose};
ghost use Rattle.aq_listed.specs.Marks.{AreMarksOf};

use crate::event_spans::covered_of;
use crate::marks::{Mark, Marks};
use crate::site_events::{StandingEvent, events_of};
use crate::site_marks::site_marks;
use aq_base::{Memory, MonitorId, ObsKey, Quals, SiteId, Steps};
use aq_registry::Registry;
use aq_shelf::Shelf;
use std::alloc::Global;
use std::iter::Iterator;
use std::sync::ledger::Ledger;

/// The marks of a site.
#[derive(Drop)]
pub(crate) struct FlagMarks {
    /// All of them.
    pub(crate) all: Marks,
    /// Those for which an event of their code stands.
    pub(crate) covered: Marks,
    /// Those for which one with a concurrence stands.
    pub(crate) excluded: Marks,
}

/// The marks of a site, and which of them its events cover. It costs a walk over the records, one over
/// the observations, and a few searches for each mark.
pub(crate) fn flag_marks<L: Ledger>(
    alloc: Global,
    shelf: &Shelf,
    registry: &Registry,
    site: SiteId,
    steps: &mut Steps<L>,
) -> Result<FlagMarks, Memory>
    ensures all { IfOk result (λ marks. AreMarksOf site shelf.now marks.all) }
    ensures covered { IfOk result (λ marks. AreThose (words.is_covered (events_of (office_with registry.now) site)) marks.all marks.covered) }
    ensures excluded { IfOk result (λ marks. AreThose (words.is_left_out registry.now site) marks.all marks.excluded) }
{
    let all = site_marks(alloc, shelf, site, steps)?;
    let standing = events_of(alloc, registry, site)?;
    let covered = covered_marks(alloc, &all, standing.as_slice())?;
    let excluded = excluded_marks(alloc, registry, site, &all)?;
    Ok(FlagMarks {
        all,
        covered,
        excluded,
    })
}

/// The marks that an event covers.
fn covered_marks(alloc: Global, marks: &Marks, standing: &[StandingEvent]) -> Result<Marks, Memory>
    ensures { IfOk result (AreThose (words.is_covered standing.now) marks.now) }
{
    let covered = covered_of(alloc, marks.as_slice(), standing)?;
    Ok(Marks::sorted(covered))
}

/// The marks that an event with a concurrence leaves out.
fn excluded_marks(
    alloc: Global,
    registry: &Registry,
    site: SiteId,
    marks: &Marks,
) -> Result<Marks, Memory>
    ensures { IfOk result (AreThose (words.is_left_out registry.now site) marks.now) }
{
    let excluded = excluded_of(alloc, registry, site, marks.as_slice())?;
    Ok(Marks::sorted(excluded))
}

/// Those of some marks that an event with a concurrence leaves out.
fn excluded_of(
    alloc: Global,
    registry: &Registry,
    site: SiteId,
    marks: &[Mark],
) -> Result<Vec<Mark>, Memory>
    ensures { IfOk result (λ excluded. excluded.items ≡ filter (words.is_left_out registry.now site) marks.now) }
{
    let mut excluded = Vec::new(alloc);
    for mark in marks {
        if is_left_out(registry, site, mark) {
            excluded.push(*mark)?;
        }
    }
    Ok(excluded)
}

/// Whether an event with a concurrence leaves a mark out.
fn is_left_out(registry: &Registry, site: SiteId, mark: &Mark) -> bool
    ensures { result ≡ words.is_left_out registry.now site mark.now }
{
    let monitor = MonitorId {
        site,
        pollutant: mark.pollutant,
        poc: 0,
    };
    let mut quals = Quals::new();
    quals.add(mark.code);
    registry.excluded(
        ObsKey {
            monitor,
            hour: mark.hour,
        },
        &quals,
    )
}
