//! The page of some sheets.
ghost use Rattle.std.specs.Prelude.{◌≡◌, ◌≤◌, ◌++◌, List, false, length, flat_map, IfOk, IfSome, OnOk};
ghost use Rattle.aq_pages.specs.Numbers.{has_number};
ghost use Rattle.aq_pages.specs.Page as pages;
ghost use Rattle.aq_pages.specs.Page.{behind_first, cells, column_names, columns_and_rows, drawn_as, has_lines, head_value, heads_table, in_its_place, is_drawn, level_by_name, level_by_parameter, level_for, level_line, level_words, opening, paragraph, picture_of, rows_and_words, rows_table, section, section_as, section_of, table_end, table_start, words_line};
ghost use Rattle.aq_pages.specs.Sheets.{Line};

use crate::bars;
use crate::day::write_day;
use crate::html::write_row;
use crate::kind::{Kind, Picture, kind_of};
use crate::level::{Level, day_level, standard_in, words_of, write_level};
use crate::numbers::{has_number, word_at};
use crate::ranked::value_place;
use crate::sheet::{Line, PageSheet};
use crate::subject::{write_heading, write_page_title};
use crate::year::write_year;
use aq_base::{Bytes, Memory, Standard};
use aq_rd::{parameter_in, standard_word};
use std::alloc::Global;

/// Appends a row for each line, with a cell for each word.
fn write_lines(out: &mut Vec<u8>, lines: &[Line]) -> Result<(), Memory>
    ensures { OnOk result (out.new.items ≡ out.old.items ++ flat_map cells lines.now) }
{
    for line in lines {
        write_row(out, b"<td>", b"</td>", line.as_slice())?;
    }
    Ok(())
}

/// Appends the start of a table, and round it what scrolls where it is wider than the page.
pub fn write_table_start(out: &mut Vec<u8>) -> Result<(), Memory>
    ensures { OnOk result (out.new.items ≡ out.old.items ++ table_start) }
{
    out.extend_from_slice(b"<div class=\"table\"><table>\n")?;
    Ok(())
}

/// Appends the end of a table.
pub fn write_table_end(out: &mut Vec<u8>) -> Result<(), Memory>
    ensures { OnOk result (out.new.items ≡ out.old.items ++ table_end) }
{
    out.extend_from_slice(b"</table></div>\n")?;
    Ok(())
}

#[tactic(auto, unfolding(crate::specs::Page::heads_table))]
fn write_heads(out: &mut Vec<u8>, heads: &[Line]) -> Result<(), Memory>
    ensures { OnOk result (out.new.items ≡ out.old.items ++ heads_table heads.now) }
{
    write_table_start(out)?;
    write_lines(out, heads)?;
    write_table_end(out)?;
    Ok(())
}

/// Appends the table of the rows, if there are columns.
#[tactic(auto, unfolding(crate::specs::Page::rows_table))]
fn write_rows(out: &mut Vec<u8>, columns: &[Bytes], rows: &[Line]) -> Result<(), Memory>
    ensures { OnOk result (out.new.items ≡ out.old.items ++ rows_table columns.now rows.now) }
{
    match columns {
        [] => Ok(()),
        _ => write_columns_and_rows(out, columns, rows),
    }
}

/// Appends the row of the names of the columns.
#[tactic(auto, unfolding(crate::specs::Page::column_names))]
pub fn write_column_names(out: &mut Vec<u8>, columns: &[Bytes]) -> Result<(), Memory>
    ensures { OnOk result (out.new.items ≡ out.old.items ++ column_names columns.now) }
{
    write_row(out, b"<th scope=\"col\">", b"</th>", columns)
}

#[tactic(auto, unfolding(crate::specs::Page::columns_and_rows))]
fn write_columns_and_rows(out: &mut Vec<u8>, columns: &[Bytes], rows: &[Line]) -> Result<(), Memory>
    ensures { OnOk result (out.new.items ≡ out.old.items ++ columns_and_rows columns.now rows.now) }
{
    write_table_start(out)?;
    write_column_names(out, columns)?;
    write_lines(out, rows)?;
    write_table_end(out)?;
    Ok(())
}

/// The value of a head by its place from 0.
fn head_value(place: usize, heads: &[Line]) -> &[u8]
    ensures { result.now ≡ head_value place heads.now }
{
    match heads.get(place) {
        Some(line) => word_at(1, line.as_slice()),
        None => b"",
    }
}

fn behind_first(heads: &[Line]) -> &[Line]
    ensures rest { result.now ≡ behind_first heads.now }
    ensures few { length result.now ≤ length heads.now }
{
    match heads {
        [_, rest @ ..] => rest,
        [] => &[],
    }
}

/// The level of the standard of this name.
fn level_by_name(word: &[u8]) -> Option<Level>
    ensures { result ≡ level_by_name word.now }
{
    match standard_word(word) {
        Some(standard) => Some(Level::Of(standard)),
        None => None,
    }
}

/// The level beside which the days of this parameter are drawn.
fn level_by_parameter(word: &[u8]) -> Option<Level>
    ensures { result ≡ level_by_parameter word.now }
{
    match parameter_in(word) {
        Some(pollutant) => Some(day_level(pollutant)),
        None => None,
    }
}

/// The level that is drawn, if there is one.
fn level_for(picture: Picture, heads: &[Line]) -> Option<Level>
    ensures { result ≡ level_for picture heads.now }
{
    match picture {
        Picture::Counts => None,
        Picture::Bars { .. } | Picture::Squares(_) | Picture::Nothing => level_by_name(head_value(
            0, heads,
        )),
        Picture::Lines => Some(Level::Of(Standard::Ozone2015)),
        Picture::Days(pollutant) => Some(day_level(pollutant)),
        Picture::Highest => level_by_parameter(head_value(1, heads)),
    }
}

/// Appends a standard and its level in words.
#[tactic(auto, unfolding(crate::specs::Page::level_line))]
fn write_level_line(out: &mut Vec<u8>, level: Option<Level>) -> Result<(), Memory>
    ensures { OnOk result (out.new.items ≡ out.old.items ++ level_line level) }
{
    if let Some(level) = level {
        out.extend_from_slice(b"<p>")?;
        out.extend_from_slice(words_of(standard_in(level)).as_bytes())?;
        out.extend_from_slice(b". ")?;
        write_level(out, level)?;
        out.extend_from_slice(b".</p>\n")?;
    }
    Ok(())
}

/// Appends the standard beside whose level a sheet with this picture and these heads stands, and that level,
/// in words; nothing if there is none.
pub fn write_level_words(out: &mut Vec<u8>, picture: Picture, heads: &[Line]) -> Result<(), Memory>
    ensures { OnOk result (out.new.items ≡ out.old.items ++ level_words picture heads.now) }
{
    write_level_line(out, level_for(picture, heads))
}

/// Appends the picture of a sheet in which something is drawn.
#[tactic(auto, unfolding(crate::specs::Page::drawn_as))]
fn write_drawn(
    alloc: Global,
    out: &mut Vec<u8>,
    picture: Picture,
    heads: &[Line],
    rows: &[Line],
) -> Result<(), Memory>
    requires heads { length heads.now ≤ 100000 }
    requires rows { length rows.now ≤ 100000 }
    ensures { OnOk result (out.new.items ≡ out.old.items ++ drawn_as picture heads.now rows.now) }
{
    match picture {
        Picture::Counts => bars::write_picture(out, Some(1), None, None, behind_first(heads)),
        Picture::Bars { value, verdict } => {
            let level = level_by_name(head_value(0, heads));
            bars::write_picture(out, Some(value), verdict, level, rows)
        }
        Picture::Squares(verdict) => bars::write_picture(out, None, Some(verdict), None, rows),
        Picture::Lines => write_day(out, Level::Of(Standard::Ozone2015), rows),
        Picture::Days(pollutant) => write_year(alloc, out, pollutant, rows),
        Picture::Highest => {
            let level = level_by_parameter(head_value(1, heads));
            bars::write_highest(out, head_value(4, heads), level, rows)
        }
        Picture::Nothing => Ok(()),
    }
}

fn has_lines(lines: &[Line]) -> bool
    ensures { result ≡ has_lines lines.now }
{
    match lines {
        [] => false,
        _ => true,
    }
}

/// Whether there is a number, or the verdict of an event, to draw.
#[tactic(auto, unfolding(crate::specs::Page::is_drawn))]
fn is_drawn(picture: Picture, heads: &[Line], rows: &[Line]) -> bool
    ensures { result ≡ is_drawn picture heads.now rows.now }
{
    match picture {
        Picture::Counts => has_number(1, behind_first(heads)),
        Picture::Bars { value, .. } => has_number(value, rows),
        Picture::Squares(_) => has_lines(rows),
        Picture::Lines => has_number(1, rows) || has_number(3, rows),
        Picture::Days(pollutant) => has_number(value_place(pollutant), rows),
        Picture::Highest => has_number(2, rows),
        Picture::Nothing => false,
    }
}

/// The two places of a row, counted from 0, whose numbers are drawn: nothing is drawn if no row has a number at
/// either. There are none where the numbers of the rows do not decide that.
#[tactic(auto, unfolding(crate::specs::Page::is_drawn))]
pub fn drawn_places(picture: Picture) -> Option<(usize, usize)>
    ensures { IfSome result (λ places. (heads rows : List Line) → has_number places.0 rows ≡ false → has_number places.1 rows ≡ false → is_drawn picture heads rows ≡ false) }
{
    match picture {
        Picture::Bars { value, .. } => Some((value, value)),
        Picture::Lines => Some((1, 3)),
        Picture::Days(pollutant) => Some((value_place(pollutant), value_place(pollutant))),
        Picture::Highest => Some((2, 2)),
        Picture::Counts | Picture::Squares(_) | Picture::Nothing => None,
    }
}

/// The sentence in place of a picture in which nothing would be drawn.
#[tactic(auto, unfolding(crate::specs::Page::in_its_place))]
pub fn in_its_place(picture: Picture) -> &'static str
    ensures { result.now ≡ in_its_place picture }
{
    match picture {
        Picture::Counts => "<p>No picture: no count is a number.</p>\n",
        Picture::Bars { .. } => "<p>No picture: no row has a value.</p>\n",
        Picture::Squares(_) => "<p>No picture: no event alone would change the verdict.</p>\n",
        Picture::Lines => "<p>No picture: no hour has an average.</p>\n",
        Picture::Days(_) => "<p>No picture: no day has a value.</p>\n",
        Picture::Highest => "<p>No picture: no day is ranked.</p>\n",
        Picture::Nothing => "",
    }
}

/// Appends the picture of a sheet, or the sentence in its place; nothing if none is drawn of its kind.
#[tactic(auto, unfolding(crate::specs::Page::picture_of))]
pub fn write_picture(
    alloc: Global,
    out: &mut Vec<u8>,
    picture: Picture,
    heads: &[Line],
    rows: &[Line],
) -> Result<(), Memory>
    requires heads { length heads.now ≤ 100000 }
    requires rows { length rows.now ≤ 100000 }
    ensures { OnOk result (out.new.items ≡ out.old.items ++ picture_of picture heads.now rows.now) }
{
    if is_drawn(picture, heads, rows) {
        write_drawn(alloc, out, picture, heads, rows)
    } else {
        out.extend_from_slice(in_its_place(picture).as_bytes())?;
        Ok(())
    }
}

/// Appends the heads, and the standard and its level in words above them.
#[tactic(auto, unfolding(crate::specs::Page::opening))]
fn write_opening(out: &mut Vec<u8>, picture: Picture, heads: &[Line]) -> Result<(), Memory>
    ensures { OnOk result (out.new.items ≡ out.old.items ++ opening picture heads.now) }
{
    write_level_words(out, picture, heads)?;
    write_heads(out, heads)
}

/// Appends a paragraph of plain words.
#[tactic(auto, unfolding(crate::specs::Page::paragraph))]
fn write_paragraph(out: &mut Vec<u8>, words: &[u8]) -> Result<(), Memory>
    ensures { OnOk result (out.new.items ≡ out.old.items ++ paragraph words.now) }
{
    out.extend_from_slice(b"<p class=\"words\">")?;
    out.extend_from_slice(words)?;
    out.extend_from_slice(b"</p>\n")?;
    Ok(())
}

/// Appends the words of a kind, which are in HTML, as a paragraph; nothing if there are none.
#[tactic(auto, unfolding(crate::specs::Page::words_line))]
pub fn write_words(out: &mut Vec<u8>, words: &str) -> Result<(), Memory>
    ensures { OnOk result (out.new.items ≡ out.old.items ++ words_line words.now) }
{
    let words = words.as_bytes();
    if words.is_empty() {
        return Ok(());
    }
    write_paragraph(out, words)
}

/// Appends the table of the rows, and behind it what the heads and the columns mean.
#[tactic(auto, unfolding(crate::specs::Page::rows_and_words))]
fn write_rows_and_words(
    out: &mut Vec<u8>,
    columns: &[Bytes],
    rows: &[Line],
    words: &str,
) -> Result<(), Memory>
    ensures { OnOk result (out.new.items ≡ out.old.items ++ rows_and_words columns.now rows.now words.now) }
{
    write_rows(out, columns, rows)?;
    write_words(out, words)
}

/// Appends a section with this title, picture, words, heads, columns and rows.
#[tactic(auto, unfolding(crate::specs::Page::section_of))]
fn write_section_of(
    alloc: Global,
    out: &mut Vec<u8>,
    title: &str,
    picture: Picture,
    words: &str,
    heads: &[Line],
    columns: &[Bytes],
    rows: &[Line],
) -> Result<(), Memory>
    requires heads { length heads.now ≤ 100000 }
    requires rows { length rows.now ≤ 100000 }
    ensures { OnOk result (out.new.items ≡ out.old.items ++ section_of title.now picture words.now heads.now columns.now rows.now) }
{
    write_heading(out, title, heads)?;
    write_opening(out, picture, heads)?;
    write_picture(alloc, out, picture, heads, rows)?;
    write_rows_and_words(out, columns, rows, words)?;
    out.extend_from_slice(b"</section>\n")?;
    Ok(())
}

/// Appends the section of a sheet, as one of this kind.
#[tactic(auto, unfolding(crate::specs::Page::section_as))]
fn write_section_as(
    alloc: Global,
    out: &mut Vec<u8>,
    kind: &Kind,
    sheet: &PageSheet<'_>,
) -> Result<(), Memory>
    ensures { OnOk result (out.new.items ≡ out.old.items ++ section_as kind.now sheet.now) }
{
    write_section_of(
        alloc,
        out,
        kind.title,
        kind.picture,
        kind.words,
        sheet.heads,
        sheet.columns,
        sheet.rows,
    )
}

/// Appends the section of a sheet.
#[tactic(auto, unfolding(crate::specs::Page::section))]
fn write_section(alloc: Global, out: &mut Vec<u8>, sheet: &PageSheet<'_>) -> Result<(), Memory>
    ensures { OnOk result (out.new.items ≡ out.old.items ++ section sheet.now) }
{
    let kind = kind_of(sheet.heads, sheet.columns);
    write_section_as(alloc, out, &kind, sheet)
}

/// Appends a section for each sheet.
fn write_sections(alloc: Global, out: &mut Vec<u8>, sheets: &[PageSheet<'_>]) -> Result<(), Memory>
    ensures { OnOk result (out.new.items ≡ out.old.items ++ flat_map section sheets.now) }
{
    for sheet in sheets {
        write_section(alloc, out, sheet)?;
    }
    Ok(())
}

/// The page of some sheets, between these two texts. Its title says what the first heads among the lines
/// `about` say.
#[tactic(auto, unfolding(crate::specs::Page::page))]
pub fn page_of_sheets(
    alloc: Global,
    head: &[u8],
    about: &[Line],
    sheets: &[PageSheet<'_>],
    foot: &[u8],
) -> Result<Bytes, Memory>
    ensures { IfOk result (λ page. page ≡ pages.page (record { head = head.now; foot = foot.now }) about.now sheets.now) }
{
    let mut out = head.to_vec(alloc)?;
    write_page_title(&mut out, about)?;
    write_sections(alloc, &mut out, sheets)?;
    out.extend_from_slice(foot)?;
    Ok(Bytes::from_vec(out))
}
