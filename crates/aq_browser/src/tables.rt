//! The tables of a sheet, and the sheet in words, by which its kind and its picture are told.
ghost use Rattle.std.specs.Prelude.{◌≡◌, ◌++◌, IfOk, OnOk, flat_map};
ghost use Rattle.aq_browser.specs.Pages as pages;
ghost use Rattle.aq_browser.specs.Pages.{cells_row, columns_and_rows, head_row, heads_table, rows_table, sheet_cell, table_cell};
ghost use Rattle.aq_rules.specs.Shown.Sheet.{cell_text};

use crate::cells::write_word;
use aq_base::{Bytes, Items, Memory};
use aq_pages::{Line, write_cell, write_column_names, write_table_end, write_table_start};
use aq_sheets::{Cells, Head, SheetCell, write_cell as write_cell_text};
use std::alloc::Global;

// ---- the tables

fn write_table_cell(out: &mut Vec<u8>, word: &[u8]) -> Result<(), Memory>
    ensures { OnOk result (out.new.items ≡ out.old.items ++ table_cell word.now) }
{
    write_cell(out, b"<td>", b"</td>", word)
}

/// Appends a cell of a table. `room` is for its text, if that has to be escaped.
fn write_sheet_cell(out: &mut Vec<u8>, room: &mut Vec<u8>, cell: &SheetCell) -> Result<(), Memory>
    ensures { OnOk result (out.new.items ≡ out.old.items ++ sheet_cell cell.now) }
{
    out.extend_from_slice(b"<td>")?;
    write_word(out, room, cell)?;
    out.extend_from_slice(b"</td>")?;
    Ok(())
}

/// Appends the row of a head. `room` is for the text of its cell.
#[tactic(auto, unfolding(crate::specs::Pages::head_row))]
fn write_head_row(out: &mut Vec<u8>, room: &mut Vec<u8>, head: &Head) -> Result<(), Memory>
    ensures { OnOk result (out.new.items ≡ out.old.items ++ head_row head.now) }
{
    out.extend_from_slice(b"<tr>")?;
    write_table_cell(out, head.name())?;
    write_sheet_cell(out, room, head.cell())?;
    out.extend_from_slice(b"</tr>\n")?;
    Ok(())
}

fn write_head_rows(out: &mut Vec<u8>, room: &mut Vec<u8>, heads: &[Head]) -> Result<(), Memory>
    ensures { OnOk result (out.new.items ≡ out.old.items ++ flat_map head_row heads.now) }
{
    for head in heads {
        write_head_row(out, room, head)?;
    }
    Ok(())
}

/// Appends the table of the heads.
#[tactic(auto, unfolding(crate::specs::Pages::heads_table))]
pub(crate) fn write_heads_table(
    alloc: Global,
    out: &mut Vec<u8>,
    heads: &[Head],
) -> Result<(), Memory>
    ensures { OnOk result (out.new.items ≡ out.old.items ++ heads_table heads.now) }
{
    let mut room = Vec::new(alloc);
    write_table_start(out)?;
    write_head_rows(out, &mut room, heads)?;
    write_table_end(out)
}

fn write_sheet_cells(
    out: &mut Vec<u8>,
    room: &mut Vec<u8>,
    cells: &[SheetCell],
) -> Result<(), Memory>
    ensures { OnOk result (out.new.items ≡ out.old.items ++ flat_map sheet_cell cells.now) }
{
    for cell in cells {
        write_sheet_cell(out, room, cell)?;
    }
    Ok(())
}

/// Appends a row. `room` is for the texts of its cells.
#[tactic(auto, unfolding(crate::specs::Pages::cells_row))]
fn write_cells_row(out: &mut Vec<u8>, room: &mut Vec<u8>, cells: &[SheetCell]) -> Result<(), Memory>
    ensures { OnOk result (out.new.items ≡ out.old.items ++ cells_row cells.now) }
{
    out.extend_from_slice(b"<tr>")?;
    write_sheet_cells(out, room, cells)?;
    out.extend_from_slice(b"</tr>\n")?;
    Ok(())
}

fn write_cells_rows(out: &mut Vec<u8>, room: &mut Vec<u8>, rows: &[Cells]) -> Result<(), Memory>
    ensures { OnOk result (out.new.items ≡ out.old.items ++ flat_map cells_row rows.now) }
{
    for row in rows {
        write_cells_row(out, room, row.as_slice())?;
    }
    Ok(())
}

#[tactic(auto, unfolding(crate::specs::Pages::columns_and_rows))]
fn write_columns_and_rows(
    alloc: Global,
    out: &mut Vec<u8>,
    columns: &[Bytes],
    rows: &[Cells],
) -> Result<(), Memory>
    ensures { OnOk result (out.new.items ≡ out.old.items ++ columns_and_rows columns.now rows.now) }
{
    let mut room = Vec::new(alloc);
    write_table_start(out)?;
    write_column_names(out, columns)?;
    write_cells_rows(out, &mut room, rows)?;
    write_table_end(out)
}

/// Appends the table of the rows, if there are columns.
#[tactic(auto, unfolding(crate::specs::Pages::rows_table))]
pub(crate) fn write_rows_table(
    alloc: Global,
    out: &mut Vec<u8>,
    columns: &[Bytes],
    rows: &[Cells],
) -> Result<(), Memory>
    ensures { OnOk result (out.new.items ≡ out.old.items ++ rows_table columns.now rows.now) }
{
    match columns {
        [] => Ok(()),
        _ => write_columns_and_rows(alloc, out, columns, rows),
    }
}

// ---- the sheet in words

fn cell_words(alloc: Global, cell: &SheetCell) -> Result<Bytes, Memory>
    ensures { IfOk result (λ text. text ≡ cell_text cell.now) }
{
    let mut text = Vec::new(alloc);
    write_cell_text(&mut text, cell)?;
    Ok(Bytes::from_vec(text))
}

fn head_words(alloc: Global, head: &Head) -> Result<Line, Memory>
    ensures { IfOk result (λ line. line ≡ pages.head_words head.now) }
{
    let mut words = Line::new(alloc);
    words.push(Bytes::from_vec(head.name().to_vec(alloc)?))?;
    words.push(cell_words(alloc, head.cell())?)?;
    Ok(words)
}

/// The name and the word of each head.
pub(crate) fn lines_of_heads(alloc: Global, heads: &[Head]) -> Result<Items<Line>, Memory>
    ensures { IfOk result (λ lines. lines ≡ pages.lines_of_heads heads.now) }
{
    let mut lines = Items::new(alloc);
    for head in heads {
        lines.push(head_words(alloc, head)?)?;
    }
    Ok(lines)
}

fn row_words(alloc: Global, cells: &[SheetCell]) -> Result<Line, Memory>
    ensures { IfOk result (λ line. line ≡ pages.row_words cells.now) }
{
    let mut words = Line::new(alloc);
    for cell in cells {
        words.push(cell_words(alloc, cell)?)?;
    }
    Ok(words)
}

/// The words of each row.
pub(crate) fn lines_of_rows(alloc: Global, rows: &[Cells]) -> Result<Items<Line>, Memory>
    ensures { IfOk result (λ lines. lines ≡ pages.lines_of_rows rows.now) }
{
    let mut lines = Items::new(alloc);
    for row in rows {
        lines.push(row_words(alloc, row.as_slice())?)?;
    }
    Ok(lines)
}
