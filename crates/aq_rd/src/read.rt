//! Reading RD lines.
ghost use Rattle.std.specs.Prelude.{◌≡◌, ◌≤◌, true, false, IfOk, IfErr, IsTrue, OnOk, OnErr, Some, None};
ghost use Rattle.aq_rules.specs.Lines.Canonical.{is_rd_value};
ghost use Rattle.aq_rules.specs.Lines.Fields.{field};
ghost use Rattle.aq_rules.specs.Lines.Reading.{reading_rule, line_value, has_wrong_count, is_deletion, OfRd};
ghost use Rattle.aq_rules.specs.Lines.Spellings.{Rd};
ghost use Rattle.aq_rd.specs.Ranges.{HasLineRange};
ghost use Rattle.aq_rd.specs.RdReading.{monitor_reading, start_reading, content_reading, valued_reading, null_reading, put_reading, delete_reading, form_reading, rd_reading, line_of, value_of, ReadsLine};
ghost use Rattle.aq_rd.specs.Tags.{has_office_tag};

use crate::bytes::has_spaces;
use crate::fields::{Fields, MOST_FIELDS};
use crate::line::RdLine;
use crate::spellings::{
    date_in, duration_in, method_in, null_in, parameter_in, poc_in, qualifiers, site_in, time_in,
    unit_in, value,
};
use aq_base::{Hour, MonitorId, Observation, Pollutant, Rule};
use aq_cal::hour_of;
use aq_rules::lines::canonical::what_a_line_spells_is_in_range;

/// Reads a line of the AQS raw data transaction format (RD), whose first field is no tag of the
/// office's forms. It is refused under the reading rule with the smallest number that it breaks
/// (own). It takes no memory.
pub fn read_rd(line: &[u8]) -> Result<RdLine, Rule>
    requires { has_office_tag line.now ≡ false }
    ensures ok { IfOk result (λ x. line_value line.now ≡ Some (OfRd (value_of x))) }
    ensures unbroken { OnOk result (reading_rule line.now ≡ None) }
    ensures rule { IfErr result (λ r. reading_rule line.now ≡ Some r) }
    ensures refused { OnErr result (line_value line.now ≡ None) }
    ensures range { IfOk result HasLineRange }
    ensures spelled { IfOk result (λ x. IsTrue (is_rd_value (value_of x))) }
{
    read_line(line)
}

fn read_line(line: &[u8]) -> Result<RdLine, Rule>
    requires { has_office_tag line.now ≡ false }
    ensures { ReadsLine line_of line.now result }
{
    let read = read_in_order(line);
    what_a_line_spells_is_in_range();
    read
}

#[tactic(auto, unfolding(crate::specs::RdReading::rd_reading))]
fn read_in_order(line: &[u8]) -> Result<RdLine, Rule>
    ensures { result ≡ rd_reading line.now }
{
    let has_spaces = has_spaces(line)?;
    let mut texts = Fields::of_empty_line();
    texts.cut(line, has_spaces);
    if texts.field(1) != b"RD".as_slice() {
        return Err(Rule::BadTag);
    }
    read_form(&texts)
}

#[tactic(auto, unfolding(crate::specs::RdReading::form_reading))]
fn read_form(texts: &Fields<'_>) -> Result<RdLine, Rule>
    ensures { result ≡ form_reading texts.now }
{
    let action = texts.field(2);
    if has_wrong_count(action, texts) {
        return Err(Rule::FieldCount);
    }
    match action {
        b"I" => read_put(false, texts),
        b"U" => read_put(true, texts),
        b"D" => read_delete(texts),
        _ => Err(Rule::BadAction),
    }
}

// A deletion needs the fields up to the time, and another line those up to the value.
fn has_wrong_count(action: &[u8], texts: &Fields<'_>) -> bool
    requires { action.now ≡ field 2 texts.now }
    ensures { result ≡ has_wrong_count Rd (is_deletion texts.now) texts.now }
{
    let fewest = if action == b"D".as_slice() { 12 } else { 13 };
    texts.count() < fewest || texts.has_text_behind(MOST_FIELDS)
}

#[tactic(auto, unfolding(crate::specs::RdReading::put_reading))]
fn read_put(update: bool, texts: &Fields<'_>) -> Result<RdLine, Rule>
    ensures { result ≡ put_reading update texts.now }
{
    let monitor = read_monitor(texts)?;
    let pollutant = monitor.pollutant;
    let duration = duration_in(pollutant, texts.field(8)).ok_or(Rule::BadDuration)?;
    let places = unit_in(pollutant, texts.field(9)).ok_or(Rule::BadUnit)?;
    let method = method_in(texts.field(10)).ok_or(Rule::BadMethod)?;
    let hour = read_start(texts)?;
    let content = read_content(pollutant, places, method, texts)?;
    Ok(RdLine::Put {
        update,
        monitor,
        duration,
        hour,
        content,
    })
}

// Of a deletion, only the monitor and the start are read.
#[tactic(auto, unfolding(crate::specs::RdReading::delete_reading))]
fn read_delete(texts: &Fields<'_>) -> Result<RdLine, Rule>
    ensures { result ≡ delete_reading texts.now }
{
    let monitor = read_monitor(texts)?;
    let hour = read_start(texts)?;
    Ok(RdLine::Delete { monitor, hour })
}

#[tactic(auto, unfolding(crate::specs::RdReading::monitor_reading))]
fn read_monitor(texts: &Fields<'_>) -> Result<MonitorId, Rule>
    ensures { result ≡ monitor_reading texts.now }
{
    let site = site_in(texts.field(3), texts.field(4), texts.field(5)).ok_or(Rule::BadSite)?;
    let pollutant = parameter_in(texts.field(6)).ok_or(Rule::ParameterOutOfProfile)?;
    let poc = poc_in(texts.field(7)).ok_or(Rule::BadPoc)?;
    Ok(MonitorId {
        site,
        pollutant,
        poc,
    })
}

#[tactic(auto, unfolding(crate::specs::RdReading::start_reading))]
fn read_start(texts: &Fields<'_>) -> Result<Hour, Rule>
    ensures { result ≡ start_reading texts.now }
{
    let day = date_in(texts.field(11)).ok_or(Rule::BadDate)?;
    let hour = time_in(texts.field(12)).ok_or(Rule::BadTime)?;
    Ok(hour_of(day, hour))
}

#[tactic(auto, unfolding(crate::specs::RdReading::content_reading))]
fn read_content(
    pollutant: Pollutant,
    places: u8,
    method: u16,
    texts: &Fields<'_>,
) -> Result<Observation, Rule>
    requires { places ≤ 6 }
    ensures { result ≡ content_reading pollutant places method texts.now }
{
    let value = texts.field(13);
    let null = texts.field(14);
    let has_value = !value.is_empty();
    let has_null = !null.is_empty();
    match (has_value, has_null) {
        (true, true) => Err(Rule::ValueAndNull),
        (false, false) => Err(Rule::NeitherValueNorNull),
        (true, false) => read_valued(pollutant, places, method, value, texts),
        (false, true) => read_null(method, null, texts),
    }
}

#[tactic(auto, unfolding(crate::specs::RdReading::valued_reading))]
fn read_valued(
    pollutant: Pollutant,
    places: u8,
    method: u16,
    text: &[u8],
    texts: &Fields<'_>,
) -> Result<Observation, Rule>
    requires places { places ≤ 6 }
    requires text { text.now ≡ field 13 texts.now }
    ensures { result ≡ valued_reading pollutant places method texts.now }
{
    let value = value(pollutant, places, text)?;
    let quals = qualifiers(texts).ok_or(Rule::BadQualifier)?;
    Ok(Observation {
        value: Some(value),
        null: None,
        quals,
        method: Some(method),
    })
}

#[tactic(auto, unfolding(crate::specs::RdReading::null_reading))]
fn read_null(method: u16, text: &[u8], texts: &Fields<'_>) -> Result<Observation, Rule>
    requires { text.now ≡ field 14 texts.now }
    ensures { result ≡ null_reading method texts.now }
{
    let null = null_in(text).ok_or(Rule::BadNull)?;
    let quals = qualifiers(texts).ok_or(Rule::BadQualifier)?;
    Ok(Observation {
        value: None,
        null: Some(null),
        quals,
        method: Some(method),
    })
}
