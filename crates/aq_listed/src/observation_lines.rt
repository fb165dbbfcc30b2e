//! A site's observations of a year as the lines that make them anew.
ghost use Rattle.std.specs.Prelude.{◌≡◌, ◌++◌, Some, IfOk, OnOk, unwrap_or};
ghost use Rattle.aq_base.specs.declared.monitor.Duration.TheVariants.{Hour as HourSamples};
ghost use Rattle.aq_rules.specs.Office.Office.{duration_at};
ghost use Rattle.aq_rules.specs.Listed.ObservationLines.{lines_answer, observation_text, with_method};
ghost use Rattle.aq_registry.specs.Registry.{office_with};
ghost use Rattle.aq_series.specs.OfficeView.{office_of};

use crate::series::{is_in_year, is_of_series};
use aq_base::{Duration, Memory, MonitorId, ObsKey, Observation, Pollutant, SiteId, Steps};
use aq_rd::{RdLine, print_rd};
use aq_registry::Registry;
use aq_shelf::Shelf;
use std::alloc::Global;
use std::sync::ledger::Ledger;

/// The method that a line gives an observation that has none.
const NO_METHOD: u16 = 0;

/// The standing observations of a site, pollutant and year, with a value or a null code, each as the
/// line that makes it anew, by POC and hour (own, within the AQS raw data transaction format). The call
/// makes a step for each observation of the shelf.
pub fn lines<L: Ledger>(
    alloc: Global,
    shelf: &Shelf,
    registry: &Registry,
    site: SiteId,
    pollutant: Pollutant,
    year: u16,
    steps: &mut Steps<L>,
) -> Result<Vec<u8>, Memory>
    ensures { IfOk result (λ text. text.items ≡ lines_answer (office_of registry.now shelf.now) site pollutant year) }
{
    let mut text = Vec::new(alloc);
    for (key, content) in shelf.rows(steps) {
        if is_of_series(&key.monitor, &site, pollutant) && is_in_year(key.hour, year) {
            write_insertion(alloc, &mut text, registry, &key, content)?;
        }
    }
    Ok(text)
}

/// Adds the line that makes an observation anew.
fn write_insertion(
    alloc: Global,
    text: &mut Vec<u8>,
    registry: &Registry,
    key: &ObsKey,
    content: Observation,
) -> Result<(), Memory>
    ensures { OnOk result (text.new.items ≡ text.old.items ++ observation_text (office_with registry.now) (key.now, content)) }
{
    let line = RdLine::Put {
        update: false,
        monitor: key.monitor,
        duration: duration_of(registry, &key.monitor),
        hour: key.hour,
        content: with_method(content),
    };
    let line = print_rd(alloc, &line)?;
    text.extend_from_slice(&line)?;
    text.push(b'\n')?;
    Ok(())
}

/// How long a monitor's samples last: an hour if it is not registered.
fn duration_of(registry: &Registry, monitor: &MonitorId) -> Duration
    ensures { result ≡ unwrap_or (duration_at (office_with registry.now) monitor.now) HourSamples }
{
    match registry.monitor(*monitor) {
        Some((duration, _)) => duration,
        None => Duration::Hour,
    }
}

/// The observation with a method.
fn with_method(content: Observation) -> Observation
    ensures { result ≡ with_method content }
{
    Observation {
        method: Some(content.method.unwrap_or(NO_METHOD)),
        ..content
    }
}
