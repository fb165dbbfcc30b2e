//! The lines of an extract, judged one after the other.
ghost use Rattle.std.specs.Prelude.{◌≡◌, ◌≤◌, Some, length, IfErr, IfOk, OnOk};
ghost use Rattle.aq_base.specs.Values.{HasValueInRange};
ghost use Rattle.aq_staging.specs.Extracts.Judging.{IsFault, line_at, put_at, span_of};
ghost use Rattle.aq_staging.specs.Extracts.Samples.{sample_in};
ghost use Rattle.aq_registry.specs.Registry.{office_with};
ghost use Rattle.aq_rules.specs.Extracts.Changes.{Says, extract_of, judged_line, judged_sample};
ghost use Rattle.aq_rules.specs.Limits.{MOST_BYTES};

use crate::extracts::days::Days;
use crate::extracts::place::place_of;
use crate::extracts::sample::{Sample, read_sample};
use aq_base::{ObsKey, Observation, Rule};
use aq_forms::lines_of;
use aq_registry::Registry;
use aq_shelf::{Shelf, ShelfFault};
use std::alloc::Global;

/// Why an extract is not read.
#[derive(Clone, Copy, Debug, PartialEq, Eq)]
pub(crate) enum ExtractFault {
    /// The line breaks the rule, and no line before it breaks one.
    Refused { line: u32, rule: Rule },
    /// Memory could not be had.
    Memory,
}

/// Where each sample of an extract of these days is to stand, beside the records. A body has at most
/// 8,388,608 bytes. It costs some searches of the records and of the samples so far for each line.
#[tactic(auto, unfolding(aq_rules::specs::Extracts::Changes::extract_of))]
pub(crate) fn read_extract(
    alloc: Global,
    registry: &Registry,
    days: &Days,
    body: &[u8],
) -> Result<Shelf, ExtractFault>
    requires { length body.now ≤ MOST_BYTES }
    ensures ok { IfOk result (λ rows. extract_of (span_of days.now) (office_with registry.now) body.now ≡ Says rows) }
    ensures refused { IfErr result (IsFault (extract_of (span_of days.now) (office_with registry.now) body.now)) }
{
    let mut rows = Shelf::new(alloc);
    for line in lines_of(body) {
        take_line(&mut rows, registry, days, line.number, line.text)?;
    }
    Ok(rows)
}

/// Takes one line of an extract.
fn take_line(
    rows: &mut Shelf,
    registry: &Registry,
    days: &Days,
    number: u32,
    text: &[u8],
) -> Result<(), ExtractFault>
    ensures ok { OnOk result (judged_line (span_of days.now) (office_with registry.now) rows.old (line_at number text.now) ≡ Says rows.new) }
    ensures refused { IfErr result (IsFault (judged_line (span_of days.now) (office_with registry.now) rows.old (line_at number text.now))) }
{
    match read_sample(text) {
        Ok(sample) => take_sample(rows, registry, days, number, &sample),
        Err(rule) => Err(ExtractFault::Refused { line: number, rule }),
    }
}

/// Takes the sample of a line, if it is one of the extract.
fn take_sample(
    rows: &mut Shelf,
    registry: &Registry,
    days: &Days,
    number: u32,
    sample: &Sample,
) -> Result<(), ExtractFault>
    requires { HasValueInRange sample.now.monitor.pollutant sample.now.content }
    ensures ok { OnOk result (judged_sample (span_of days.now) (office_with registry.now) rows.old number (Some (sample_in sample.now)) ≡ Says rows.new) }
    ensures refused { IfErr result (IsFault (judged_sample (span_of days.now) (office_with registry.now) rows.old number (Some (sample_in sample.now)))) }
{
    match place_of(registry, days, sample) {
        Ok(key) => put_sample(rows, number, &key, &sample.content),
        Err(rule) => Err(ExtractFault::Refused { line: number, rule }),
    }
}

/// Puts a sample at its key, if none of a line before it is to stand there. A shelf that is full counts as want
/// of memory: no body has so many lines.
fn put_sample(
    rows: &mut Shelf,
    number: u32,
    key: &ObsKey,
    content: &Observation,
) -> Result<(), ExtractFault>
    requires { HasValueInRange key.now.monitor.pollutant content.now }
    ensures ok { OnOk result (put_at number rows.old (key.now, content.now) ≡ Says rows.new) }
    ensures refused { IfErr result (IsFault (put_at number rows.old (key.now, content.now))) }
{
    match rows.insert(*key, *content) {
        Ok(()) => Ok(()),
        Err(ShelfFault::AlreadyThere) => Err(ExtractFault::Refused {
            line: number,
            rule: Rule::AlreadyThere,
        }),
        Err(ShelfFault::Full) => Err(ExtractFault::Memory),
        Err(ShelfFault::Memory) => Err(ExtractFault::Memory),
    }
}
