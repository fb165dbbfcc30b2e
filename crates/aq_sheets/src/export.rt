//! The observations of a site, pollutant and year as CSV (RFC 4180 with LF; the columns are (own)).
ghost use Rattle.std.specs.Prelude.{◌≡◌, ◌≤◌, ◌++◌, [], IfOk, OnOk, decimal, length, map};
ghost use Rattle.std.specs.List.{join_with_byte};
ghost use Rattle.aq_base.specs.Calendar.{day_of_hour, hour_of_day};
ghost use Rattle.aq_base.specs.Decimal.{last_digits};
ghost use Rattle.aq_rules.specs.Lines.Canonical as line;
ghost use Rattle.aq_rules.specs.Shown.Export as export;
ghost use Rattle.aq_sheets.specs.Written.{IsReady, written};

use crate::text::site_text;
use aq_base::{Code, Day, Hour, Memory, Pollutant, Quals, Shown};
use aq_cal::{day_text, last_digits};
use aq_num::write_fixed;
use csv::{QuoteStyle, Writer, WriterBuilder};
use std::alloc::Global;

/// Writes records to memory.
type Records = Writer<Vec<u8>>;

/// The text of these observations: a line of column names, and one for each of them.
#[tactic(auto, unfolding(aq_rules::specs::Shown::Export::export_of))]
pub fn export_of(alloc: Global, rows: &[Shown]) -> Result<Vec<u8>, Memory>
    ensures { IfOk result (λ text. text.items ≡ export.export_of rows.now) }
{
    let mut records = records_in(alloc);
    write_record(
        &mut records,
        &[
            b"site",
            b"parameter",
            b"poc",
            b"date",
            b"hour",
            b"value",
            b"null",
            b"qualifiers",
            b"excluded",
        ],
    )?;
    for row in rows {
        write_row(alloc, &mut records, row)?;
    }
    text_in(records)
}

/// A writer of records with LF and without quotes, since no field has a comma, a quote or the end of a
/// line.
fn records_in(alloc: Global) -> Records
    ensures ready { IsReady result }
    ensures text { written result ≡ [] }
{
    WriterBuilder::new()
        .quote_style(QuoteStyle::Never)
        .from_writer(Vec::new(alloc))
}

/// A record of two fields or more.
fn write_record(records: &mut Records, fields: &[&[u8]]) -> Result<(), Memory>
    requires ready { IsReady records.old }
    requires some { 2 ≤ length fields.now }
    ensures ready { OnOk result (IsReady records.new) }
    ensures text { OnOk result (written records.new ≡ written records.old ++ export.csv_record (map (λ field. field.now) fields.now)) }
{
    match records.write_fields(fields) {
        Ok(()) => {}
        Err(_) => return Err(Memory),
    }
    Ok(())
}

/// What was written.
fn text_in(records: Records) -> Result<Vec<u8>, Memory>
    ensures { IfOk result (λ text. text.items ≡ written records) }
{
    match records.into_inner() {
        Ok(text) => Ok(text),
        Err(_) => Err(Memory),
    }
}

/// The record of an observation.
fn write_row(alloc: Global, records: &mut Records, row: &Shown) -> Result<(), Memory>
    requires { IsReady records.old }
    ensures ready { OnOk result (IsReady records.new) }
    ensures text { OnOk result (written records.new ≡ written records.old ++ export.csv_record (export.shown_fields row.now)) }
{
    let site = site_text(row.key.monitor.site);
    let pollutant = row.key.monitor.pollutant;
    let poc = poc_text(alloc, row.key.monitor.poc)?;
    let day = day_text(day_of(row.key.hour));
    let hour = hour_text(row.key.hour);
    let value = value_text(alloc, pollutant, row.content.value)?;
    let null = null_text(alloc, row.content.null)?;
    let qualifiers = codes_text(alloc, &row.content.quals)?;
    write_record(
        records,
        &[
            &site,
            parameter_text(pollutant),
            poc.as_slice(),
            &day,
            &hour,
            value.as_slice(),
            null.as_slice(),
            qualifiers.as_slice(),
            truth_text(row.excluded),
        ],
    )
}

fn parameter_text(pollutant: Pollutant) -> &'static [u8]
    ensures { result.now ≡ line.parameter_text pollutant }
{
    match pollutant {
        Pollutant::Ozone => b"44201",
        Pollutant::Pm25 => b"88101",
        Pollutant::Pm10 => b"81102",
    }
}

fn truth_text(truth: bool) -> &'static [u8]
    ensures { result.now ≡ line.truth_text truth }
{
    if truth { b"Y" } else { b"N" }
}

fn poc_text(alloc: Global, poc: u8) -> Result<Vec<u8>, Memory>
    ensures { IfOk result (λ text. text.items ≡ decimal poc) }
{
    let mut text = Vec::new(alloc);
    write_fixed(&mut text, i64::from(poc), 0)?;
    Ok(text)
}

fn day_of(hour: Hour) -> Day
    ensures { result ≡ day_of_hour hour }
{
    Day::new((hour.number() / 24) as u16)
}

/// The hour of its day in two digits.
fn hour_text(hour: Hour) -> [u8; 2]
    ensures { result ≡ last_digits 2 (hour_of_day hour) }
{
    last_digits::<2>((hour.number() % 24) as u16)
}

/// Ozone with three places, PM with one; nothing if there is no value.
fn value_text(alloc: Global, pollutant: Pollutant, value: Option<i32>) -> Result<Vec<u8>, Memory>
    ensures { IfOk result (λ text. text.items ≡ line.value_text pollutant value) }
{
    let mut text = Vec::new(alloc);
    if let Some(value) = value {
        write_fixed(&mut text, i64::from(value), places(pollutant))?;
    }
    Ok(text)
}

fn places(pollutant: Pollutant) -> u8
    ensures value { result ≡ line.value_places pollutant }
    ensures few { result ≤ 6 }
{
    match pollutant {
        Pollutant::Ozone => 3,
        Pollutant::Pm25 | Pollutant::Pm10 => 1,
    }
}

fn null_text(alloc: Global, null: Option<Code>) -> Result<Vec<u8>, Memory>
    ensures { IfOk result (λ text. text.items ≡ export.null_text null) }
{
    let mut text = Vec::new(alloc);
    if let Some(code) = null {
        write_code(&mut text, code)?;
    }
    Ok(text)
}

/// The qualifiers, with single spaces between them.
fn codes_text(alloc: Global, quals: &Quals) -> Result<Vec<u8>, Memory>
    ensures { IfOk result (λ text. text.items ≡ export.codes_text quals.now) }
{
    let mut text = Vec::new(alloc);
    write_codes(&mut text, quals.codes())?;
    Ok(text)
}

fn write_codes(out: &mut Vec<u8>, codes: &[Code]) -> Result<(), Memory>
    ensures { OnOk result (out.new.items ≡ out.old.items ++ export.codes_text codes.now) }
{
    let mut space: &[u8] = b"";
    for code in codes {
        out.extend_from_slice(space)?;
        write_code(out, *code)?;
        space = b" ";
    }
    Ok(())
}

fn write_code(out: &mut Vec<u8>, code: Code) -> Result<(), Memory>
    ensures { OnOk result (out.new.items ≡ out.old.items ++ line.code_text code) }
{
    out.push(code.first)?;
    if code.second != 0 {
        out.push(code.second)?;
    }
    Ok(())
}
