//! A line of an extract, read.
ghost use Rattle.std.specs.Prelude.{◌≡◌, Some, None, option_map, IfOk, IfErr, IfSome, OnOk};
ghost use Rattle.aq_base.specs.Values.{HasValueInRange};
ghost use Rattle.aq_staging.specs.Extracts.Samples.{inserted, inserts, narrowed, sample_in};
ghost use Rattle.aq_rd.specs.Ranges.{HasLineRange};
ghost use Rattle.aq_rd.specs.RdReading.{value_of};
ghost use Rattle.aq_rules.specs.Extracts.Changes.{extract_rule, sample_of};
ghost use Rattle.aq_rules.specs.Lines.Reading.{line_value};

use aq_base::{Duration, Hour, MonitorId, Observation, Rule};
use aq_rd::{Fields, RdLine, has_office_tag, read_rd};

/// A sample of an extract, as its line has it.
#[derive(Clone, Copy, Debug, PartialEq, Eq)]
pub(crate) struct Sample {
    pub(crate) monitor: MonitorId,
    pub(crate) duration: Duration,
    pub(crate) hour: Hour,
    pub(crate) content: Observation,
}

/// Reads a line of an extract, which is an insertion of the form RD. It is refused under the first
/// reading rule that it breaks. It takes no memory.
pub(crate) fn read_sample(line: &[u8]) -> Result<Sample, Rule>
    ensures ok { IfOk result (λ sample. sample_of (line_value line.now) ≡ Some (sample_in sample)) }
    ensures unbroken { OnOk result (extract_rule line.now ≡ None) }
    ensures rule { IfErr result (λ rule. extract_rule line.now ≡ Some rule) }
    ensures range { IfOk result (λ sample. HasValueInRange sample.monitor.pollutant sample.content) }
{
    if has_office_tag(line) {
        return Err(Rule::BadTag);
    }
    match read_rd(line) {
        Ok(read) => match insertion(&read) {
            Some(sample) => Ok(sample),
            None => Err(Rule::BadAction),
        },
        Err(rule) => Err(rule_in_extract(line, rule)),
    }
}

/// The sample that a line inserts, if it does.
fn insertion(line: &RdLine) -> Option<Sample>
    requires { HasLineRange line.now }
    ensures sample { option_map sample_in result ≡ inserted (value_of line.now) }
    ensures range { IfSome result (λ sample. HasValueInRange sample.monitor.pollutant sample.content) }
{
    match line {
        RdLine::Put {
            update,
            monitor,
            duration,
            hour,
            content,
        } => {
            if *update {
                return None;
            }
            Some(Sample {
                monitor: *monitor,
                duration: *duration,
                hour: *hour,
                content: *content,
            })
        }
        RdLine::Delete { .. } => None,
    }
}

/// The rule under which an extract refuses a line that breaks this one: of a line that inserts nothing, no
/// rule after that of the action is told.
fn rule_in_extract(line: &[u8], rule: Rule) -> Rule
    ensures { result ≡ narrowed (inserts line.now) rule }
{
    if inserts(line) || rule.number() < Rule::BadAction.number() {
        rule
    } else {
        Rule::BadAction
    }
}

/// Whether a line of plain bytes has the action of an insertion.
fn inserts(line: &[u8]) -> bool
    ensures { result ≡ inserts line.now }
{
    match Fields::new(line) {
        Ok(texts) => texts.field(2) == b"I".as_slice(),
        Err(_) => false,
    }
}
