//! The updates and the insertions: what an extract says and does not stand so.
ghost use Rattle.std.specs.Prelude.{◌≡◌, ◌++◌, false, flat_map, option_map, true, OnOk};
ghost use Rattle.aq_staging.specs.Extracts.Texts.{is_put, put_beside, put_line};
ghost use Rattle.aq_rd.specs.RdReading.{value_of};
ghost use Rattle.aq_registry.specs.Registry.{office_with};
ghost use Rattle.aq_rules.specs.Extracts.Changes.{put_of};
ghost use Rattle.aq_rules.specs.Office.Load as load;
ghost use Rattle.aq_series.specs.OfficeView.{office_of};

use crate::extracts::place::duration_of;
use crate::extracts::text::add_change;
use aq_base::{Duration, Memory, ObsKey, Observation, Steps};
use aq_rd::RdLine;
use aq_registry::Registry;
use aq_shelf::Shelf;
use std::alloc::Global;
use std::sync::ledger::Ledger;

/// Adds the updates of the rows of an extract to one text, and the insertions to another, each in the order of
/// keys. It costs a search of the standing observations for each row, and one of the records for each change.
pub(crate) fn add_puts<L: Ledger>(
    alloc: Global,
    updates: &mut Vec<u8>,
    insertions: &mut Vec<u8>,
    shelf: &Shelf,
    registry: &Registry,
    rows: &Shelf,
    steps: &mut Steps<L>,
) -> Result<(), Memory>
    ensures updates { OnOk result (updates.new.items ≡ updates.old.items ++ flat_map (put_line true (office_of registry.now shelf.now)) rows.now) }
    ensures insertions { OnOk result (insertions.new.items ≡ insertions.old.items ++ flat_map (put_line false (office_of registry.now shelf.now)) rows.now) }
{
    for (key, content) in rows.rows(steps) {
        let standing = shelf.at(key, steps);
        let update = put_change(true, &standing, registry, &key, &content);
        add_change(alloc, updates, update)?;
        let insertion = put_change(false, &standing, registry, &key, &content);
        add_change(alloc, insertions, insertion)?;
    }
    Ok(())
}

/// The update, or else the insertion, of a row of an extract beside what stands at its key, if there is one.
fn put_change(
    update: bool,
    standing: &Option<Observation>,
    registry: &Registry,
    key: &ObsKey,
    content: &Observation,
) -> Option<RdLine>
    ensures { option_map value_of result ≡ put_beside update standing.now (office_with registry.now) (key.now, content.now) }
{
    if is_put(update, standing, content) {
        Some(put_line(update, registry, key, content))
    } else {
        None
    }
}

/// Whether a row of an extract is an update of what stands at its key, or else an insertion.
fn is_put(update: bool, standing: &Option<Observation>, content: &Observation) -> bool
    ensures { result ≡ is_put update standing.now content.now }
{
    match standing {
        Some(standing) => update && !is_same_content(standing, content),
        None => !update,
    }
}

/// Whether two observations have equal values, null codes, qualifiers and methods.
fn is_same_content(a: &Observation, b: &Observation) -> bool
    ensures { result ≡ load.is_same_content a.now b.now }
{
    a.value == b.value
        && a.null == b.null
        && a.quals.codes() == b.quals.codes()
        && a.method == b.method
}

/// What a row of an extract asks for, with the duration of its monitor's samples.
fn put_line(update: bool, registry: &Registry, key: &ObsKey, content: &Observation) -> RdLine
    ensures { value_of result ≡ put_of update (office_with registry.now) (key.now, content.now) }
{
    RdLine::Put {
        update,
        monitor: key.monitor,
        duration: duration_of(registry, &key.monitor).unwrap_or(Duration::Hour),
        hour: key.hour,
        content: *content,
    }
}
