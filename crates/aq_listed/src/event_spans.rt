//! Which marks the events of a site cover, by two searches of the hours at which events begin and end.
ghost use Rattle.std.specs.Prelude.{◌≡◌, [], ◌∷◌, ◌++◌, if◌then◌else◌, IfOk, OnOk, filter, flat_map};
ghost use Rattle.std.specs.List.Sorted.{IsPermutation, IsSorted};
ghost use Rattle.aq_listed.specs.EventSpans as spans;
ghost use Rattle.aq_listed.specs.EventSpans.{end_in, start_in};
ghost use Rattle.aq_listed.specs.FlagWords.{is_covered};
ghost use Rattle.aq_listed.specs.Marks.{mark_cmp};

use crate::marks::Mark;
use crate::site_events::StandingEvent;
use crate::sorted::{count_below, count_up_to};
use aq_base::Memory;
use std::alloc::Global;

/// Those of some marks that an event covers.
pub(crate) fn covered_of(
    alloc: Global,
    marks: &[Mark],
    standing: &[StandingEvent],
) -> Result<Vec<Mark>, Memory>
    ensures { IfOk result (λ covered. covered.items ≡ filter (is_covered standing.now) marks.now) }
{
    let first_hours = starts_of(alloc, standing)?;
    let last_hours = ends_of(alloc, standing)?;
    let starts = in_order(first_hours);
    let ends = in_order(last_hours);
    let covered = begun_of(alloc, marks, starts.as_slice(), ends.as_slice())?;
    Ok(covered)
}

/// Marks, put in order.
fn in_order(marks: Vec<Mark>) -> Vec<Mark>
    ensures sorted { IsSorted mark_cmp result.items }
    ensures same { IsPermutation marks.items result.items }
{
    let mut marks = marks;
    marks.sort_unstable();
    marks
}

/// Those of some marks before which or with which more events begin than end before them.
fn begun_of(
    alloc: Global,
    marks: &[Mark],
    starts: &[Mark],
    ends: &[Mark],
) -> Result<Vec<Mark>, Memory>
    requires starts { IsSorted mark_cmp starts.now }
    requires ends { IsSorted mark_cmp ends.now }
    ensures { IfOk result (λ begun. begun.items ≡ filter (spans.is_begun starts.now ends.now) marks.now) }
{
    let mut begun = Vec::new(alloc);
    for mark in marks {
        add_begun(&mut begun, starts, ends, mark)?;
    }
    Ok(begun)
}

/// Adds a mark, if more events begin up to it than end before it.
fn add_begun(
    begun: &mut Vec<Mark>,
    starts: &[Mark],
    ends: &[Mark],
    mark: &Mark,
) -> Result<(), Memory>
    requires starts { IsSorted mark_cmp starts.now }
    requires ends { IsSorted mark_cmp ends.now }
    ensures { OnOk result (begun.new.items ≡ begun.old.items ++ (if spans.is_begun starts.now ends.now mark.now then mark.now ∷ [] else [])) }
{
    if is_begun(starts, ends, mark) {
        begun.push(*mark)?;
    }
    Ok(())
}

/// Whether more events begin up to a mark than end before it.
fn is_begun(starts: &[Mark], ends: &[Mark], mark: &Mark) -> bool
    requires starts { IsSorted mark_cmp starts.now }
    requires ends { IsSorted mark_cmp ends.now }
    ensures { result ≡ spans.is_begun starts.now ends.now mark.now }
{
    let ended = count_below(ends, mark);
    let begun = count_up_to(starts, mark);
    ended < begun
}

/// The first hours of events, less those that end before they begin.
fn starts_of(alloc: Global, standing: &[StandingEvent]) -> Result<Vec<Mark>, Memory>
    ensures { IfOk result (λ starts. starts.items ≡ flat_map start_in standing.now) }
{
    let mut starts = Vec::new(alloc);
    for event in standing {
        add_start(&mut starts, event)?;
    }
    Ok(starts)
}

/// Adds the first hour of an event, unless it ends before it begins.
fn add_start(starts: &mut Vec<Mark>, event: &StandingEvent) -> Result<(), Memory>
    ensures { OnOk result (starts.new.items ≡ starts.old.items ++ start_in event.now) }
{
    if event.first.number() <= event.last.number() {
        starts.push(Mark {
            pollutant: event.pollutant,
            code: event.code,
            hour: event.first,
        })?;
    }
    Ok(())
}

/// The last hours of events, less those that end before they begin.
fn ends_of(alloc: Global, standing: &[StandingEvent]) -> Result<Vec<Mark>, Memory>
    ensures { IfOk result (λ ends. ends.items ≡ flat_map end_in standing.now) }
{
    let mut ends = Vec::new(alloc);
    for event in standing {
        add_end(&mut ends, event)?;
    }
    Ok(ends)
}

/// Adds the last hour of an event, unless it ends before it begins.
fn add_end(ends: &mut Vec<Mark>, event: &StandingEvent) -> Result<(), Memory>
    ensures { OnOk result (ends.new.items ≡ ends.old.items ++ end_in event.now) }
{
    if event.first.number() <= event.last.number() {
        ends.push(Mark {
            pollutant: event.pollutant,
            code: event.code,
            hour: event.last,
        })?;
    }
    Ok(())
}
