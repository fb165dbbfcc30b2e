//! The links to what the rows of a sheet name.
ghost use Rattle.std.specs.Prelude.{◌≡◌, ◌++◌, IfOk, OnOk, flat_map};
ghost use Rattle.aq_pages.specs.Html.{escaped};
ghost use Rattle.aq_browser.specs.Rows.{before_day, before_report, behind_report, day_links, first_word, first_word_in, highest_links, links_along, report_links, row_link, row_links, row_word, target_end, target_start, text_at, word_link};

use crate::cells::write_word;
use crate::paths::year_text;
use aq_base::{Memory, Pollutant, Question, SiteId};
use aq_sheets::{Cells, Head, Sheet, SheetCell, site_text, write_cell as write_cell_text};
use std::alloc::Global;

fn write_first_of(alloc: Global, out: &mut Vec<u8>, heads: &[Head]) -> Result<(), Memory>
    ensures { OnOk result (out.new.items ≡ out.old.items ++ first_word_in heads.now) }
{
    match heads.first() {
        Some(head) => {
            let mut room = Vec::new(alloc);
            write_word(out, &mut room, head.cell())
        }
        None => Ok(()),
    }
}

/// Appends the word of the first head, escaped; nothing if there is no head.
pub(crate) fn write_first_word(
    alloc: Global,
    out: &mut Vec<u8>,
    sheet: &Sheet,
) -> Result<(), Memory>
    ensures { OnOk result (out.new.items ≡ out.old.items ++ first_word sheet.now) }
{
    write_first_of(alloc, out, sheet.heads())
}

/// Appends the text of the cell in this place, counted from 0; nothing if there is none.
pub(crate) fn write_text_at(
    out: &mut Vec<u8>,
    place: usize,
    cells: &[SheetCell],
) -> Result<(), Memory>
    ensures { OnOk result (out.new.items ≡ out.old.items ++ text_at place cells.now) }
{
    match cells.get(place) {
        Some(cell) => write_cell_text(out, cell),
        None => Ok(()),
    }
}

/// Appends the text of the cell in this place, counted from 0, escaped; nothing if there is none. `room` is for
/// the text, if it has to be escaped.
fn write_word_at(
    out: &mut Vec<u8>,
    room: &mut Vec<u8>,
    place: usize,
    cells: &[SheetCell],
) -> Result<(), Memory>
    ensures { OnOk result (out.new.items ≡ out.old.items ++ escaped (text_at place cells.now)) }
{
    match cells.get(place) {
        Some(cell) => write_word(out, room, cell),
        None => Ok(()),
    }
}

/// Appends a link: a word in its target, between what stands before and behind it there, and then as its words.
#[tactic(auto, unfolding(crate::specs::Rows::word_link))]
fn write_word_link(
    out: &mut Vec<u8>,
    before: &[u8],
    behind: &[u8],
    word: &[u8],
) -> Result<(), Memory>
    ensures { OnOk result (out.new.items ≡ out.old.items ++ word_link before.now behind.now word.now) }
{
    out.extend_from_slice(before)?;
    out.extend_from_slice(word)?;
    out.extend_from_slice(behind)?;
    out.extend_from_slice(word)?;
    out.extend_from_slice(b"</a>\n")?;
    Ok(())
}

/// Appends the link of a row, by the text in this place. `word` is for that text, and `room` too, if it has to be
/// escaped.
fn write_row_word(
    out: &mut Vec<u8>,
    word: &mut Vec<u8>,
    room: &mut Vec<u8>,
    before: &[u8],
    place: usize,
    behind: &[u8],
    cells: &[SheetCell],
) -> Result<(), Memory>
    ensures { OnOk result (out.new.items ≡ out.old.items ++ row_word before.now place behind.now cells.now) }
{
    word.clear();
    write_word_at(word, room, place, cells)?;
    write_word_link(out, before, behind, word)
}

fn write_each_row_word(
    alloc: Global,
    out: &mut Vec<u8>,
    before: &[u8],
    place: usize,
    behind: &[u8],
    rows: &[Cells],
) -> Result<(), Memory>
    ensures { OnOk result (out.new.items ≡ out.old.items ++ flat_map (row_word before.now place behind.now) rows.now) }
{
    let mut word = Vec::new(alloc);
    let mut room = Vec::new(alloc);
    for row in rows {
        write_row_word(
            out,
            &mut word,
            &mut room,
            before,
            place,
            behind,
            row.as_slice(),
        )?;
    }
    Ok(())
}

/// What stands before the text in the target of each link, and behind it.
#[tactic(auto, unfolding(crate::specs::Rows::target_start))]
fn target_start(alloc: Global, before: &[u8]) -> Result<Vec<u8>, Memory>
    ensures { IfOk result (λ start. start.items ≡ target_start before.now) }
{
    let mut start = b"<a href=\"/page".to_vec(alloc)?;
    start.extend_from_slice(before)?;
    Ok(start)
}

#[tactic(auto, unfolding(crate::specs::Rows::target_end))]
fn target_end(alloc: Global, behind: &[u8]) -> Result<Vec<u8>, Memory>
    ensures { IfOk result (λ end. end.items ≡ target_end behind.now) }
{
    let mut end = behind.to_vec(alloc)?;
    end.extend_from_slice(b"\">")?;
    Ok(end)
}

/// Appends a link for each row, by the text in this place. What is the same in all of them is put together once.
#[tactic(auto, using(crate::proofs::Targets::same_links))]
fn write_each_row_link(
    alloc: Global,
    out: &mut Vec<u8>,
    before: &[u8],
    place: usize,
    behind: &[u8],
    rows: &[Cells],
) -> Result<(), Memory>
    ensures { OnOk result (out.new.items ≡ out.old.items ++ flat_map (row_link before.now place behind.now) rows.now) }
{
    let start = target_start(alloc, before)?;
    let end = target_end(alloc, behind)?;
    write_each_row_word(alloc, out, &start, place, &end, rows)
}

/// Appends a link for each row, as a paragraph.
#[tactic(auto, unfolding(crate::specs::Rows::links_along))]
fn write_links_along(
    alloc: Global,
    out: &mut Vec<u8>,
    before: &[u8],
    place: usize,
    behind: &[u8],
    rows: &[Cells],
) -> Result<(), Memory>
    ensures { OnOk result (out.new.items ≡ out.old.items ++ links_along before.now place behind.now rows.now) }
{
    out.extend_from_slice(b"<p class=\"links\">\n")?;
    write_each_row_link(alloc, out, before, place, behind, rows)?;
    out.extend_from_slice(b"</p>\n")?;
    Ok(())
}

#[tactic(auto, unfolding(crate::specs::Rows::before_report))]
fn write_before_report(out: &mut Vec<u8>, standard: &[u8]) -> Result<(), Memory>
    ensures { OnOk result (out.new.items ≡ out.old.items ++ before_report standard.now) }
{
    out.extend_from_slice(b"/dv/")?;
    out.extend_from_slice(standard)?;
    out.push(b'/')?;
    Ok(())
}

#[tactic(auto, unfolding(crate::specs::Rows::behind_report))]
fn write_behind_report(out: &mut Vec<u8>, year: u16) -> Result<(), Memory>
    ensures { OnOk result (out.new.items ≡ out.old.items ++ behind_report year) }
{
    out.push(b'/')?;
    out.extend_from_slice(&year_text(year))?;
    Ok(())
}

/// Appends the links of a report's rows to the design values of the sites.
#[tactic(auto, unfolding(crate::specs::Rows::report_links))]
fn write_report_links(
    alloc: Global,
    out: &mut Vec<u8>,
    year: u16,
    sheet: &Sheet,
) -> Result<(), Memory>
    ensures { OnOk result (out.new.items ≡ out.old.items ++ report_links year sheet.now) }
{
    let mut standard = Vec::new(alloc);
    write_first_word(alloc, &mut standard, sheet)?;
    let mut before = Vec::new(alloc);
    write_before_report(&mut before, &standard)?;
    let mut behind = Vec::new(alloc);
    write_behind_report(&mut behind, year)?;
    write_links_along(alloc, out, &before, 0, &behind, sheet.rows())
}

#[tactic(auto, unfolding(crate::specs::Rows::before_day))]
fn write_before_day(out: &mut Vec<u8>, site: SiteId) -> Result<(), Memory>
    ensures { OnOk result (out.new.items ≡ out.old.items ++ before_day site) }
{
    out.extend_from_slice(b"/ozone/")?;
    out.extend_from_slice(&site_text(site))?;
    out.extend_from_slice(b"/windows/")?;
    Ok(())
}

/// Appends the links of the highest days of ozone to the averages of each day.
#[tactic(auto, unfolding(crate::specs::Rows::day_links))]
fn write_day_links(
    alloc: Global,
    out: &mut Vec<u8>,
    site: SiteId,
    rows: &[Cells],
) -> Result<(), Memory>
    ensures { OnOk result (out.new.items ≡ out.old.items ++ day_links site rows.now) }
{
    let mut before = Vec::new(alloc);
    write_before_day(&mut before, site)?;
    write_links_along(alloc, out, &before, 1, b"", rows)
}

fn write_highest_links(
    alloc: Global,
    out: &mut Vec<u8>,
    site: SiteId,
    pollutant: Pollutant,
    rows: &[Cells],
) -> Result<(), Memory>
    ensures { OnOk result (out.new.items ≡ out.old.items ++ highest_links site pollutant rows.now) }
{
    match pollutant {
        Pollutant::Ozone => write_day_links(alloc, out, site, rows),
        Pollutant::Pm25 | Pollutant::Pm10 => Ok(()),
    }
}

/// Appends the links of the rows of a sheet, if they lead anywhere.
pub(crate) fn write_row_links(
    alloc: Global,
    out: &mut Vec<u8>,
    question: &Question,
    sheet: &Sheet,
) -> Result<(), Memory>
    ensures { OnOk result (out.new.items ≡ out.old.items ++ row_links question.now sheet.now) }
{
    match question {
        Question::Sites => write_links_along(alloc, out, b"/monitors/", 0, b"", sheet.rows()),
        Question::Report(_, year) | Question::Reports(year) => {
            write_report_links(alloc, out, *year, sheet)
        }
        Question::Loads => write_links_along(alloc, out, b"/loads/", 0, b"", sheet.rows()),
        Question::Highest(site, pollutant, _) => {
            write_highest_links(alloc, out, *site, *pollutant, sheet.rows())
        }
        _ => Ok(()),
    }
}
