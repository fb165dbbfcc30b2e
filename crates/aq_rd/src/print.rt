//! Writing RD lines.
ghost use Rattle.std.specs.Prelude.{◌≡◌, false, ◌+◌, ◌++◌, ◌∷◌, map, if◌then◌else◌, codes, IfOk, IsTrue, OnOk, Some};
ghost use Rattle.aq_base.specs.Decimal.{last_digits};
ghost use Rattle.aq_rules.specs.Lines.Reading.{line_value, OfRd};
ghost use Rattle.aq_rules.specs.Lines.Canonical.{canonical_rd, is_rd_value, method_text, monitor_texts, code_text, value_text, texts_behind, unit_text, value_places};
ghost use Rattle.aq_rd.specs.Printing.{behind_bars, null_text};
ghost use Rattle.aq_rd.specs.RdReading.{value_of};
ghost use Rattle.aq_rd.specs.Tags.{has_office_tag};

use crate::field_texts::{duration_name, parameter_name, write_code, write_field, write_start};
use crate::line::RdLine;
use aq_base::{Code, Memory, MonitorId, Observation, Pollutant};
use aq_cal::last_digits;
use aq_num::write_fixed;
use aq_rules::lines::canonical::canonical_samples_are_read_back;
use std::alloc::Global;

/// Writes the one line by which a sample, or its deletion, is written (own, within the AQS raw data
/// transaction format): ozone in ppm with three decimals, PM in µg/m3 with one.
pub fn print_rd(alloc: Global, line: &RdLine) -> Result<Vec<u8>, Memory>
    ensures canonical { IfOk result (λ text. text.items ≡ canonical_rd (value_of line.now)) }
    ensures no_office { IfOk result (λ text. has_office_tag text.items ≡ false) }
    // what a line can spell is read again as it was
    ensures back { IfOk result (λ text. IsTrue (is_rd_value (value_of line.now)) → line_value text.items ≡ Some (OfRd (value_of line.now))) }
{
    let mut out = Vec::new(alloc);
    write_line(&mut out, line)?;
    canonical_samples_are_read_back();
    Ok(out)
}

fn write_line(out: &mut Vec<u8>, line: &RdLine) -> Result<(), Memory>
    ensures { OnOk result (out.new.items ≡ out.old.items ++ canonical_rd (value_of line.now)) }
{
    match line {
        RdLine::Put {
            update,
            monitor,
            duration,
            hour,
            content,
        } => {
            out.extend_from_slice(b"RD")?;
            write_field(out, action_name(*update))?;
            write_monitor(out, monitor)?;
            write_field(out, duration_name(*duration))?;
            write_field(out, unit_name(monitor.pollutant))?;
            write_method(out, content.method)?;
            write_start(out, *hour)?;
            write_value(out, monitor.pollutant, content.value)?;
            write_codes(out, content)?;
            Ok(())
        }
        RdLine::Delete { monitor, hour } => {
            out.extend_from_slice(b"RD")?;
            write_field(out, b"D")?;
            write_monitor(out, monitor)?;
            out.extend_from_slice(b"|||")?;
            write_start(out, *hour)?;
            Ok(())
        }
    }
}

fn write_monitor(out: &mut Vec<u8>, monitor: &MonitorId) -> Result<(), Memory>
    ensures { OnOk result (out.new.items ≡ out.old.items ++ behind_bars (monitor_texts monitor.now)) }
{
    let site = &monitor.site;
    write_field(out, &last_digits::<2>(u16::from(site.state())))?;
    write_field(out, &last_digits::<3>(site.county()))?;
    write_field(out, &last_digits::<4>(site.site()))?;
    write_field(out, parameter_name(monitor.pollutant))?;
    out.push(b'|')?;
    write_fixed(out, i64::from(monitor.poc), 0)?;
    Ok(())
}

fn write_method(out: &mut Vec<u8>, method: Option<u16>) -> Result<(), Memory>
    ensures { OnOk result (out.new.items ≡ out.old.items ++ 124 ∷ method_text method) }
{
    out.push(b'|')?;
    if let Some(method) = method {
        out.extend_from_slice(&last_digits::<3>(method))?;
    }
    Ok(())
}

fn write_value(out: &mut Vec<u8>, pollutant: Pollutant, value: Option<i32>) -> Result<(), Memory>
    ensures { OnOk result (out.new.items ≡ out.old.items ++ 124 ∷ value_text pollutant value) }
{
    out.push(b'|')?;
    if let Some(value) = value {
        write_fixed(out, i64::from(value), places(pollutant))?;
    }
    Ok(())
}

// What follows the value, without empty fields at the end.
fn write_codes(out: &mut Vec<u8>, content: &Observation) -> Result<(), Memory>
    ensures { OnOk result (out.new.items ≡ out.old.items ++ behind_bars (texts_behind content.now.null content.now.quals)) }
{
    let quals = content.quals.codes();
    if quals.is_empty() && content.null.is_none() {
        return Ok(());
    }
    out.push(b'|')?;
    write_null(out, &content.null)?;
    if quals.is_empty() {
        return Ok(());
    }
    out.extend_from_slice(b"||")?;
    write_quals(out, quals)?;
    Ok(())
}

fn write_null(out: &mut Vec<u8>, null: &Option<Code>) -> Result<(), Memory>
    ensures { OnOk result (out.new.items ≡ out.old.items ++ null_text null.now) }
{
    if let Some(code) = null {
        write_code(out, code)?;
    }
    Ok(())
}

fn write_quals(out: &mut Vec<u8>, quals: &[Code]) -> Result<(), Memory>
    ensures { OnOk result (out.new.items ≡ out.old.items ++ behind_bars (map code_text quals.now)) }
{
    for code in quals {
        out.push(b'|')?;
        write_code(out, code)?;
    }
    Ok(())
}

fn action_name(update: bool) -> &'static [u8]
    ensures { result.now ≡ (if update then codes "U" else codes "I") }
{
    if update { b"U" } else { b"I" }
}

fn unit_name(pollutant: Pollutant) -> &'static [u8]
    ensures { result.now ≡ unit_text pollutant }
{
    match pollutant {
        Pollutant::Ozone => b"007",
        Pollutant::Pm25 => b"105",
        Pollutant::Pm10 => b"001",
    }
}

// The places after the point with which values are written.
fn places(pollutant: Pollutant) -> u8
    ensures { result ≡ value_places pollutant }
{
    match pollutant {
        Pollutant::Ozone => 3,
        Pollutant::Pm25 | Pollutant::Pm10 => 1,
    }
}
