//! The section of a sheet.
ghost use Rattle.std.specs.Prelude.{◌≡◌, ◌++◌, OnOk, flat_map};
ghost use Rattle.aq_browser.specs.Pages.{are_several, heads_and_picture, lines_of_rows, own_head, picture_in, picture_of_lines, rows_and_links, section, section_by, section_head, section_of, section_with};

use crate::numbers::is_bare;
use crate::rows::{write_first_word, write_row_links};
use crate::tables::{lines_of_heads, lines_of_rows, write_heads_table, write_rows_table};
use crate::titles::write_dotted;
use aq_base::{Memory, Question};
use aq_pages::{
    Kind, Line, Picture, has_picture, in_its_place, kind_of, write_level_words, write_picture,
    write_words,
};
use aq_sheets::{Cells, Sheet};
use std::alloc::Global;

/// Appends the picture of these heads and rows; nothing if there are too many of them.
#[tactic(auto, unfolding(crate::specs::Pages::picture_of_lines))]
fn write_picture_of_lines(
    alloc: Global,
    out: &mut Vec<u8>,
    picture: Picture,
    heads: &[Line],
    rows: &[Line],
) -> Result<(), Memory>
    ensures { OnOk result (out.new.items ≡ out.old.items ++ picture_of_lines picture heads.now rows.now) }
{
    if heads.len() <= 100_000 && rows.len() <= 100_000 {
        write_picture(alloc, out, picture, heads, rows)
    } else {
        Ok(())
    }
}

fn write_picture_of_words(
    alloc: Global,
    out: &mut Vec<u8>,
    picture: Picture,
    heads: &[Line],
    rows: &[Cells],
) -> Result<(), Memory>
    ensures { OnOk result (out.new.items ≡ out.old.items ++ picture_of_lines picture heads.now (lines_of_rows rows.now)) }
{
    let rows = lines_of_rows(alloc, rows)?;
    write_picture_of_lines(alloc, out, picture, heads, rows.as_slice())
}

/// Appends the picture of these heads and rows, or the sentence in its place. Only for a picture the rows are put
/// into words.
fn write_picture_of_rows(
    alloc: Global,
    out: &mut Vec<u8>,
    picture: Picture,
    heads: &[Line],
    rows: &[Cells],
) -> Result<(), Memory>
    ensures { OnOk result (out.new.items ≡ out.old.items ++ picture_of_lines picture heads.now (lines_of_rows rows.now)) }
{
    if is_bare(alloc, picture, heads, rows)? {
        out.extend_from_slice(in_its_place(picture).as_bytes())?;
        return Ok(());
    }
    write_picture_of_words(alloc, out, picture, heads, rows)
}

/// Appends the picture of a sheet, if there is one of its kind.
#[tactic(auto, unfolding(crate::specs::Pages::picture_in))]
fn write_picture_in(
    alloc: Global,
    out: &mut Vec<u8>,
    picture: Picture,
    heads: &[Line],
    rows: &[Cells],
) -> Result<(), Memory>
    ensures { OnOk result (out.new.items ≡ out.old.items ++ picture_in picture heads.now rows.now) }
{
    if has_picture(picture) {
        write_picture_of_rows(alloc, out, picture, heads, rows)
    } else {
        Ok(())
    }
}

#[tactic(auto, unfolding(crate::specs::Pages::own_head))]
fn write_own_head(out: &mut Vec<u8>, title: &str, word: &[u8]) -> Result<(), Memory>
    ensures { OnOk result (out.new.items ≡ out.old.items ++ own_head title.now word.now) }
{
    out.extend_from_slice(b"<h2>")?;
    out.extend_from_slice(title.as_bytes())?;
    write_dotted(out, word)?;
    out.extend_from_slice(b"</h2>\n")?;
    Ok(())
}

/// Appends the head of a section, if there are several.
fn write_section_head(
    alloc: Global,
    out: &mut Vec<u8>,
    several: bool,
    title: &str,
    sheet: &Sheet,
) -> Result<(), Memory>
    ensures { OnOk result (out.new.items ≡ out.old.items ++ section_head several title.now sheet.now) }
{
    if !several {
        return Ok(());
    }
    let mut word = Vec::new(alloc);
    write_first_word(alloc, &mut word, sheet)?;
    write_own_head(out, title, &word)
}

/// Appends the standard and its level in words, the heads and the picture of a sheet.
#[tactic(auto, unfolding(crate::specs::Pages::heads_and_picture))]
fn write_heads_and_picture(
    alloc: Global,
    out: &mut Vec<u8>,
    picture: Picture,
    heads: &[Line],
    sheet: &Sheet,
) -> Result<(), Memory>
    ensures { OnOk result (out.new.items ≡ out.old.items ++ heads_and_picture picture heads.now sheet.now) }
{
    write_level_words(out, picture, heads)?;
    write_heads_table(alloc, out, sheet.heads())?;
    write_picture_in(alloc, out, picture, heads, sheet.rows())
}

/// Appends the table of the rows of a sheet, what its columns mean, and the links of its rows.
#[tactic(auto, unfolding(crate::specs::Pages::rows_and_links))]
fn write_rows_and_links(
    alloc: Global,
    out: &mut Vec<u8>,
    words: &str,
    question: &Question,
    sheet: &Sheet,
) -> Result<(), Memory>
    ensures { OnOk result (out.new.items ≡ out.old.items ++ rows_and_links words.now question.now sheet.now) }
{
    write_rows_table(alloc, out, sheet.columns(), sheet.rows())?;
    write_words(out, words)?;
    write_row_links(alloc, out, question, sheet)
}

/// Appends a section with this title, picture, words of its columns, and heads in words.
#[tactic(auto, unfolding(crate::specs::Pages::section_of))]
fn write_section_of(
    alloc: Global,
    out: &mut Vec<u8>,
    several: bool,
    question: &Question,
    title: &str,
    picture: Picture,
    words: &str,
    heads: &[Line],
    sheet: &Sheet,
) -> Result<(), Memory>
    ensures { OnOk result (out.new.items ≡ out.old.items ++ section_of several question.now title.now picture words.now heads.now sheet.now) }
{
    out.extend_from_slice(b"<section>\n")?;
    write_section_head(alloc, out, several, title, sheet)?;
    write_heads_and_picture(alloc, out, picture, heads, sheet)?;
    write_rows_and_links(alloc, out, words, question, sheet)?;
    out.extend_from_slice(b"</section>\n")?;
    Ok(())
}

/// Appends the section of a sheet, as one of this kind with these heads in words.
fn write_section_by(
    alloc: Global,
    out: &mut Vec<u8>,
    several: bool,
    question: &Question,
    kind: &Kind,
    heads: &[Line],
    sheet: &Sheet,
) -> Result<(), Memory>
    ensures { OnOk result (out.new.items ≡ out.old.items ++ section_by several question.now kind.now heads.now sheet.now) }
{
    write_section_of(
        alloc,
        out,
        several,
        question,
        kind.title,
        kind.picture,
        kind.words,
        heads,
        sheet,
    )
}

fn write_section_with(
    alloc: Global,
    out: &mut Vec<u8>,
    several: bool,
    question: &Question,
    heads: &[Line],
    sheet: &Sheet,
) -> Result<(), Memory>
    ensures { OnOk result (out.new.items ≡ out.old.items ++ section_with several question.now heads.now sheet.now) }
{
    let kind = kind_of(heads, sheet.columns());
    write_section_by(alloc, out, several, question, &kind, heads, sheet)
}

/// Appends the section of a sheet, which has a head of its own if there are several.
#[tactic(auto, unfolding(crate::specs::Pages::section))]
fn write_section(
    alloc: Global,
    out: &mut Vec<u8>,
    several: bool,
    question: &Question,
    sheet: &Sheet,
) -> Result<(), Memory>
    ensures { OnOk result (out.new.items ≡ out.old.items ++ section several question.now sheet.now) }
{
    let heads = lines_of_heads(alloc, sheet.heads())?;
    write_section_with(alloc, out, several, question, heads.as_slice(), sheet)
}

fn write_each_section(
    alloc: Global,
    out: &mut Vec<u8>,
    several: bool,
    question: &Question,
    sheets: &[Sheet],
) -> Result<(), Memory>
    ensures { OnOk result (out.new.items ≡ out.old.items ++ flat_map (section several question.now) sheets.now) }
{
    for sheet in sheets {
        write_section(alloc, out, several, question, sheet)?;
    }
    Ok(())
}

fn are_several(sheets: &[Sheet]) -> bool
    ensures { result ≡ are_several sheets.now }
{
    match sheets {
        [] | [_] => false,
        _ => true,
    }
}

/// Appends a section for each sheet.
pub(crate) fn write_sections(
    alloc: Global,
    out: &mut Vec<u8>,
    question: &Question,
    sheets: &[Sheet],
) -> Result<(), Memory>
    ensures { OnOk result (out.new.items ≡ out.old.items ++ flat_map (section (are_several sheets.now) question.now) sheets.now) }
{
    write_each_section(alloc, out, are_several(sheets), question, sheets)
}
