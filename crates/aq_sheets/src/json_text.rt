//! Sheets as JSON: one object with a member for each head and, if there are columns, with their
//! names and the rows (RFC 8259; the choice of members is (own)). A member stands by its name and
//! lends what the sheet has there; the text is written straight from that. Only want of memory
//! refuses it.
ghost use Rattle.std.specs.Prelude.{◌≡◌, ◌≤◌, ◌++◌, true, IfOk, OnOk, map};
ghost use Rattle.std.specs.List.{list_all};
ghost use Rattle.aq_base.specs.Decimal.{fixed};
ghost use Rattle.aq_rules.specs.Shown.Json.{json_of};
ghost use Rattle.aq_rules.specs.Shown.WellFormed.{IsWellFormed, is_cell, is_head, is_word};
ghost use Rattle.json.specs.Token as token;
ghost use Rattle.serde_json.specs.Data.{put as with_member, object, string};
ghost use Rattle.aq_sheets.specs.JsonView.{are_cells, data_of, list_of, row_of, tokens_of, with_heads, with_table};
ghost use Rattle.aq_sheets.specs.PartView.{are_parts, is_part, part_data, parts_data};

use crate::cell::{Content, SheetCell};
use crate::sheet::{Cells, Head, Sheet};
use aq_base::{Bytes, Memory};
use aq_num::write_fixed;
use json::Writer;
use std::alloc::Global;
use std::collections::BTreeMap;
use std::str::from_utf8;

/// What stands at a name.
#[derive(Drop)]
pub(crate) enum Part<'a> {
    Cell(&'a SheetCell),
    Names(&'a [Bytes]),
    Rows(&'a [Cells]),
}

/// The members of an object, in byte order of their names.
type Parts<'a> = BTreeMap<&'a [u8], Part<'a>>;

/// The JSON text of a well-formed sheet.
pub fn json_of(alloc: Global, sheet: &Sheet) -> Result<Vec<u8>, Memory>
    requires { IsWellFormed sheet.now }
    ensures { IfOk result (λ text. text.items ≡ json_of sheet.now) }
{
    let mut parts = Parts::new(alloc);
    put_heads(&mut parts, sheet.heads.as_slice())?;
    put_table(&mut parts, sheet.columns.as_slice(), sheet.rows.as_slice())?;
    let mut out = Writer::new(Vec::new(alloc));
    let mut room = Vec::new(alloc);
    write_parts(&parts, &mut room, &mut out)?;
    Ok(out.into_inner())
}

/// A member for each head.
fn put_heads<'a>(parts: &mut Parts<'a>, heads: &'a [Head]) -> Result<(), Memory>
    requires heads { list_all is_head heads.now ≡ true }
    requires parts { are_parts parts.old.entries ≡ true }
    ensures members { OnOk result
        (parts_data parts.new.entries ≡ with_heads heads.now (parts_data parts.old.entries)) }
    ensures parts { OnOk result (are_parts parts.new.entries ≡ true) }
{
    for head in heads {
        put_part(parts, head.name.as_slice(), Part::Cell(&head.cell))?;
    }
    Ok(())
}

/// The members of a table, if there are columns.
fn put_table<'a>(
    parts: &mut Parts<'a>,
    columns: &'a [Bytes],
    rows: &'a [Cells],
) -> Result<(), Memory>
    requires columns { list_all is_word columns.now ≡ true }
    requires rows { are_cells rows.now ≡ true }
    requires parts { are_parts parts.old.entries ≡ true }
    ensures members { OnOk result (parts_data parts.new.entries
        ≡ with_table columns.now rows.now (parts_data parts.old.entries)) }
    ensures parts { OnOk result (are_parts parts.new.entries ≡ true) }
{
    if !columns.is_empty() {
        put_part(parts, b"columns", Part::Names(columns))?;
        put_part(parts, b"rows", Part::Rows(rows))?;
    }
    Ok(())
}

/// A member, in the place of another of its name.
fn put_part<'a>(parts: &mut Parts<'a>, name: &'a [u8], part: Part<'a>) -> Result<(), Memory>
    requires name { is_word name.now ≡ true }
    requires part { is_part part ≡ true }
    requires parts { are_parts parts.old.entries ≡ true }
    ensures members { OnOk result (parts_data parts.new.entries
        ≡ with_member name.now (part_data part.entry) (parts_data parts.old.entries)) }
    ensures parts { OnOk result (are_parts parts.new.entries ≡ true) }
{
    parts.insert(name, part)?;
    Ok(())
}

/// The object of these members. Texts of numbers are made in `room`.
fn write_parts(parts: &Parts<'_>, room: &mut Vec<u8>, out: &mut Writer) -> Result<(), Memory>
    requires { are_parts parts.now.entries ≡ true }
    ensures before { OnOk result (out.new.before ≡ out.old.before) }
    ensures tokens { OnOk result
        (out.new.tokens ≡ out.old.tokens ++ tokens_of (object (parts_data parts.now.entries))) }
{
    out.begin_object()?;
    for (name, part) in parts {
        out.key(text_in(*name))?;
        write_part(part, room, out)?;
    }
    out.end_object()?;
    Ok(())
}

fn write_part(part: &Part<'_>, room: &mut Vec<u8>, out: &mut Writer) -> Result<(), Memory>
    requires { is_part part.now ≡ true }
    ensures before { OnOk result (out.new.before ≡ out.old.before) }
    ensures tokens { OnOk result
        (out.new.tokens ≡ out.old.tokens ++ tokens_of (part_data part.now)) }
{
    match part {
        Part::Cell(cell) => write_cell(*cell, room, out),
        Part::Names(names) => write_names(*names, out),
        Part::Rows(rows) => write_rows(*rows, room, out),
    }
}

/// The names of the columns.
fn write_names(names: &[Bytes], out: &mut Writer) -> Result<(), Memory>
    requires { list_all is_word names.now ≡ true }
    ensures before { OnOk result (out.new.before ≡ out.old.before) }
    ensures tokens { OnOk result
        (out.new.tokens ≡ out.old.tokens ++ tokens_of (list_of (map string names.now))) }
{
    out.begin_array()?;
    for name in names {
        write_text(name.as_slice(), out)?;
    }
    out.end_array()?;
    Ok(())
}

/// The rows of a table.
fn write_rows(rows: &[Cells], room: &mut Vec<u8>, out: &mut Writer) -> Result<(), Memory>
    requires { are_cells rows.now ≡ true }
    ensures before { OnOk result (out.new.before ≡ out.old.before) }
    ensures tokens { OnOk result
        (out.new.tokens ≡ out.old.tokens ++ tokens_of (list_of (map row_of rows.now))) }
{
    out.begin_array()?;
    for row in rows {
        write_row(row.as_slice(), room, out)?;
    }
    out.end_array()?;
    Ok(())
}

fn write_row(cells: &[SheetCell], room: &mut Vec<u8>, out: &mut Writer) -> Result<(), Memory>
    requires { list_all is_cell cells.now ≡ true }
    ensures before { OnOk result (out.new.before ≡ out.old.before) }
    ensures tokens { OnOk result
        (out.new.tokens ≡ out.old.tokens ++ tokens_of (row_of cells.now)) }
{
    out.begin_array()?;
    for cell in cells {
        write_cell(cell, room, out)?;
    }
    out.end_array()?;
    Ok(())
}

/// A whole number is a number; one with places, and a text, are strings; a missing value is null.
fn write_cell(cell: &SheetCell, room: &mut Vec<u8>, out: &mut Writer) -> Result<(), Memory>
    requires { is_cell cell.now ≡ true }
    ensures before { OnOk result (out.new.before ≡ out.old.before) }
    ensures tokens { OnOk result
        (out.new.tokens ≡ out.old.tokens ++ tokens_of (data_of cell.now)) }
{
    match &cell.content {
        Content::Int(value) => out.i64(*value)?,
        Content::Fixed(value, places) => write_number(*value, *places, room, out)?,
        Content::Text(text) => write_text(text.as_slice(), out)?,
        Content::Missing => out.null()?,
    }
    Ok(())
}

/// The text of `value / 10^places`.
fn write_number(value: i64, places: u8, room: &mut Vec<u8>, out: &mut Writer) -> Result<(), Memory>
    requires { places ≤ 6 }
    ensures before { OnOk result (out.new.before ≡ out.old.before) }
    ensures tokens { OnOk result
        (out.new.tokens ≡ out.old.tokens ++ tokens_of (string (fixed value places))) }
{
    room.clear();
    write_fixed(room, value, places)?;
    write_text(room.as_slice(), out)
}

fn write_text(text: &[u8], out: &mut Writer) -> Result<(), Memory>
    requires { is_word text.now ≡ true }
    ensures before { OnOk result (out.new.before ≡ out.old.before) }
    ensures tokens { OnOk result (out.new.tokens ≡ out.old.tokens ++ tokens_of (string text.now)) }
{
    out.string(text_in(text))?;
    Ok(())
}

/// A word as text: its bytes are ASCII.
fn text_in(word: &[u8]) -> &str
    requires { is_word word.now ≡ true }
    ensures { result.now ≡ word.now }
{
    match from_utf8(word) {
        Ok(text) => text,
        Err(_) => unreachable!(),
    }
}
