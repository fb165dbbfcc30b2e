//! A text, read as sheets in words.
ghost use Rattle.std.specs.Prelude.{◌≡◌, ◌==◌, ◌≤◌, ◌+◌, ◌++◌, length, map, IfOk, IfSome, IsTrue, OnOk, option_map, take_while};
ghost use Rattle.std.specs.List.{list_all, slice_split};
ghost use Rattle.aq_pages.specs.Sheets.{is_word};
ghost use Rattle.airdv_page.specs.Reading as reading;
ghost use Rattle.airdv_page.specs.Reading.{are_heads, first_sheet, found, if_true, is_end, is_row, lines_in, sheet_at, sheets_in};

use aq_base::{Bytes, Items, Memory};
use aq_pages::{Kind, Line, PageSheet, are_same, is_head, is_word, kinds};
use std::alloc::{AllocError, Global};

/// So many lines a text of sheets has at most, with the empty part behind the last line end.
pub(crate) const MOST_LINES: usize = 100_000;

/// It has fewer sheets than this.
pub(crate) const MOST_SHEETS: usize = 100;

/// The parts of a text round a mark.
fn parts(alloc: Global, text: &[u8], mark: u8) -> Result<Vec<&[u8]>, AllocError>
    ensures { IfOk result (λ parts. map (λ part. part.now) parts.items ≡ slice_split (λ byte. byte == mark) text.now) }
{
    text.split(|byte| *byte == mark).collect(alloc)
}

fn words_from(alloc: Global, texts: &[&[u8]]) -> Result<Line, Memory>
    ensures { IfOk result (λ words. words ≡ map (λ text. text.now) texts.now) }
{
    let mut words = Items::new(alloc);
    for text in texts {
        words.push(Bytes::from_vec(text.to_vec(alloc)?))?;
    }
    Ok(words)
}

/// The words of a line.
fn words_of(alloc: Global, line: &[u8]) -> Result<Line, Memory>
    ensures { IfOk result (λ words. words ≡ reading.words_of line.now) }
{
    let texts = parts(alloc, line, b' ')?;
    words_from(alloc, &texts)
}

fn lines_from(alloc: Global, texts: &[&[u8]]) -> Result<Items<Line>, Memory>
    ensures { IfOk result (λ lines. lines ≡ map reading.words_of (map (λ text. text.now) texts.now)) }
{
    let mut lines = Items::new(alloc);
    for text in texts {
        lines.push(words_of(alloc, text)?)?;
    }
    Ok(lines)
}

/// The lines of a text, with the empty part behind the last line end.
#[tactic(auto, unfolding(crate::specs::Reading::lines_of))]
pub(crate) fn lines_of(alloc: Global, text: &[u8]) -> Result<Items<Line>, Memory>
    ensures { IfOk result (λ lines. lines ≡ reading.lines_of text.now) }
{
    let texts = parts(alloc, text, b'\n')?;
    lines_from(alloc, &texts)
}

fn are_words(words: &[Bytes]) -> bool
    ensures { result ≡ list_all is_word words.now }
{
    for word in words {
        if !is_word(word.as_slice()) {
            return false;
        }
    }
    true
}

fn is_row(width: usize, line: &[Bytes]) -> bool
    ensures { result ≡ is_row width line.now }
{
    line.len() == width && are_words(line)
}

/// Whether the first lines are heads of these names.
fn are_heads(names: &[&str], lines: &[Line]) -> bool
    ensures heads { result ≡ are_heads (map (λ name. name.now) names.now) lines.now }
    ensures within { IsTrue result → length names.now ≤ length lines.now }
{
    let mut rest = lines;
    for name in names {
        let [line, behind @ ..] = rest else {
            return false;
        };
        if !is_head(name.as_bytes(), line.as_slice()) {
            return false;
        }
        rest = behind;
    }
    true
}

/// The rows at the front of some lines.
fn rows_of(width: usize, lines: &[Line]) -> &[Line]
    ensures rows { result.now ≡ take_while (is_row width) lines.now }
    ensures within { length result.now ≤ length lines.now }
{
    let mut count = 0;
    for line in lines {
        if !is_row(width, line.as_slice()) {
            break;
        }
        count += 1;
    }
    &lines[..count]
}

/// A sheet with these heads, if the lines behind them begin with the names of its columns.
#[tactic(auto, unfolding(crate::specs::Reading::with_table))]
fn with_table<'a>(heads: &'a [Line], columns: &[&str], lines: &'a [Line]) -> Option<PageSheet<'a>>
    requires { length heads.now + length lines.now ≤ 100000 }
    ensures sheet { result ≡ reading.with_table heads.now (map (λ name. name.now) columns.now) lines.now }
    ensures within { IfSome result (λ sheet. lines_in sheet ≤ length heads.now + length lines.now) }
{
    if columns.is_empty() {
        return Some(PageSheet {
            heads,
            columns: &[],
            rows: &[],
        });
    }
    let [names, rest @ ..] = lines else {
        return None;
    };
    if !are_same(columns, names.as_slice()) {
        return None;
    }
    Some(PageSheet {
        heads,
        columns: names.as_slice(),
        rows: rows_of(columns.len(), rest),
    })
}

/// A sheet whose heads and columns have these names, at the front of the lines.
#[tactic(auto, unfolding(crate::specs::Reading::cut))]
fn cut<'a>(names: &[&str], columns: &[&str], lines: &'a [Line]) -> Option<PageSheet<'a>>
    requires { length lines.now ≤ 100000 }
    ensures sheet { result ≡ reading.cut (map (λ name. name.now) names.now) (map (λ name. name.now) columns.now) lines.now }
    ensures within { IfSome result (λ sheet. lines_in sheet ≤ length lines.now) }
{
    if !are_heads(names, lines) {
        return None;
    }
    let (heads, behind) = lines.split_at(names.len());
    with_table(heads, columns, behind)
}

/// A sheet of this kind at the front of the lines.
#[tactic(auto, unfolding(crate::specs::Reading::sheet_as))]
fn sheet_as<'a>(kind: &Kind, lines: &'a [Line]) -> Option<PageSheet<'a>>
    requires { length lines.now ≤ 100000 }
    ensures sheet { result ≡ reading.sheet_as kind.now lines.now }
    ensures within { IfSome result (λ sheet. lines_in sheet ≤ length lines.now) }
{
    cut(kind.heads, kind.columns, lines)
}

fn first_sheet<'a>(kinds: &[Kind], lines: &'a [Line]) -> Option<PageSheet<'a>>
    requires { length lines.now ≤ 100000 }
    ensures sheet { result ≡ first_sheet kinds.now lines.now }
    ensures within { IfSome result (λ sheet. lines_in sheet ≤ length lines.now) }
{
    for kind in kinds {
        if let Some(sheet) = sheet_as(kind, lines) {
            return Some(sheet);
        }
    }
    None
}

/// The sheet at the front of the lines, of the first kind that fits.
#[tactic(auto, unfolding(crate::specs::Reading::sheet_at))]
fn sheet_at(lines: &[Line]) -> Option<PageSheet<'_>>
    requires { length lines.now ≤ 100000 }
    ensures sheet { result ≡ sheet_at lines.now }
    ensures within { IfSome result (λ sheet. lines_in sheet ≤ length lines.now) }
{
    first_sheet(&kinds(), lines)
}

/// How many lines a sheet has.
fn line_count(sheet: &PageSheet<'_>) -> usize
    ensures { result ≡ lines_in sheet.now }
{
    sheet.heads.len() + sheet.columns.len().min(1) + sheet.rows.len()
}

/// Whether nothing is left but the empty part behind the last line end.
fn is_end(lines: &[Line]) -> bool
    ensures { result ≡ is_end lines.now }
{
    match lines {
        [line] => match line.as_slice() {
            [word] => word.as_slice().is_empty(),
            _ => false,
        },
        _ => false,
    }
}

/// Adds the sheet at the front of some lines, and answers how many of them it has.
fn read_next<'a>(
    lines: &'a [Line],
    sheets: &mut Vec<PageSheet<'a>>,
) -> Result<Option<usize>, Memory>
    requires { length lines.now ≤ 100000 }
    ensures count { IfOk result (λ count. count ≡ option_map lines_in (sheet_at lines.now)) }
    ensures within { IfOk result (λ count. IfSome count (λ n. n ≤ length lines.now)) }
    ensures added { OnOk result (sheets.new.items ≡ sheets.old.items ++ found (sheet_at lines.now)) }
{
    match sheet_at(lines) {
        Some(sheet) => {
            let count = line_count(&sheet);
            sheets.push(sheet)?;
            Ok(Some(count))
        }
        None => Ok(None),
    }
}

/// Adds each sheet of the lines. Answers whether the lines are sheets, so many at most.
pub(crate) fn read_sheets<'a>(
    most: usize,
    lines: &'a [Line],
    sheets: &mut Vec<PageSheet<'a>>,
) -> Result<bool, Memory>
    requires { length lines.now ≤ 100000 }
    ensures { IfOk result (λ whole. if_true whole sheets.new.items ≡ option_map (λ more. sheets.old.items ++ more) (sheets_in most lines.now)) }
{
    let mut left = most;
    let mut rest = lines;
    while left > 0 {
        if is_end(rest) {
            return Ok(true);
        }
        let Some(count) = read_next(rest, sheets)? else {
            return Ok(false);
        };
        rest = &rest[count..];
        left -= 1;
    }
    Ok(false)
}
