//! Whether a number of the rows of a sheet would be drawn.
ghost use Rattle.std.specs.Prelude.{◌≡◌, true, false, IfOk, OnOk, is_some};
ghost use Rattle.aq_pages.specs.Numbers.{has_number, number_at};
ghost use Rattle.aq_pages.specs.Page.{in_its_place};
ghost use Rattle.aq_browser.specs.Pages.{is_drawable, lines_of_rows, picture_of_lines, row_words};

use crate::rows::write_text_at;
use aq_base::Memory;
use aq_pages::{Line, Picture, drawn_places, is_number};
use aq_sheets::{Cells, SheetCell};
use std::alloc::Global;

/// Whether a row has a number at a place. `room` is for the text of the cell.
#[tactic(auto, using(crate::proofs::Bare::word_at_is))]
fn is_number_at(room: &mut Vec<u8>, place: usize, cells: &[SheetCell]) -> Result<bool, Memory>
    ensures { IfOk result (λ is. is ≡ is_some (number_at place (row_words cells.now))) }
{
    room.clear();
    write_text_at(room, place, cells)?;
    Ok(is_number(room))
}

/// Whether some row has a number at a place.
fn have_number(room: &mut Vec<u8>, place: usize, rows: &[Cells]) -> Result<bool, Memory>
    ensures { IfOk result (λ have. have ≡ has_number place (lines_of_rows rows.now)) }
{
    for row in rows {
        if is_number_at(room, place, row.as_slice())? {
            return Ok(true);
        }
    }
    Ok(false)
}

/// Whether no row has a number at either place.
fn have_no_number(alloc: Global, places: (usize, usize), rows: &[Cells]) -> Result<bool, Memory>
    ensures one { IfOk result (λ none. none ≡ true → has_number places.0 (lines_of_rows rows.now) ≡ false) }
    ensures other { IfOk result (λ none. none ≡ true → has_number places.1 (lines_of_rows rows.now) ≡ false) }
{
    let mut room = Vec::new(alloc);
    if have_number(&mut room, places.0, rows)? {
        return Ok(false);
    }
    if places.0 == places.1 {
        return Ok(true);
    }
    Ok(!have_number(&mut room, places.1, rows)?)
}

fn is_drawable(heads: &[Line], rows: &[Cells]) -> bool
    ensures { result ≡ is_drawable heads.now (lines_of_rows rows.now) }
{
    heads.len() <= 100_000 && rows.len() <= 100_000
}

/// Whether the sentence stands in place of the picture, as far as the numbers of the rows say so. It is asked
/// before the rows are put into words.
pub(crate) fn is_bare(
    alloc: Global,
    picture: Picture,
    heads: &[Line],
    rows: &[Cells],
) -> Result<bool, Memory>
    ensures { IfOk result (λ bare. bare ≡ true → picture_of_lines picture heads.now (lines_of_rows rows.now) ≡ in_its_place picture) }
{
    if !is_drawable(heads, rows) {
        return Ok(false);
    }
    match drawn_places(picture) {
        Some(places) => have_no_number(alloc, places, rows),
        None => Ok(false),
    }
}
