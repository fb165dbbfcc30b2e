//! The page of an answer, and the small pages of what is no answer.
ghost use Rattle.std.specs.Prelude.{◌≡◌, ◌++◌, IfOk, OnOk};
ghost use Rattle.aq_browser.specs.Links.{report_year, year_asked};
ghost use Rattle.aq_browser.specs.Pages as pages;
ghost use Rattle.aq_browser.specs.Pages.{made_from, message, page_head, page_name, page_start, shown_sheets, status_title, status_words};
ghost use Rattle.aq_browser.specs.Titles.{title};

use crate::context::Context;
use crate::links::{report_year, write_leads_of, write_navigation, year_asked};
use crate::paths::write_digits;
use crate::sections::write_sections;
use crate::titles::write_title;
use aq_base::{Memory, Question};
use aq_pages::{FOOT, HEAD};
use aq_sheets::Sheet;
use std::alloc::Global;

/// The room of a title, of a page without its rows, and of a cell, which most of them do not fill.
const TITLE_ROOM: usize = 128;

const PAGE_ROOM: usize = 8192;

const CELL_ROOM: usize = 48;

/// Appends the name of a page in a browser; its body begins behind it.
#[tactic(auto, unfolding(crate::specs::Pages::page_name))]
fn write_page_name(out: &mut Vec<u8>, words: &[u8]) -> Result<(), Memory>
    ensures { OnOk result (out.new.items ≡ out.old.items ++ page_name words.now) }
{
    out.extend_from_slice(b"<title>airdv &#183; ")?;
    out.extend_from_slice(words)?;
    out.extend_from_slice(b"</title>\n</head>\n<body>\n")?;
    Ok(())
}

#[tactic(auto, unfolding(crate::specs::Pages::page_head))]
fn write_page_head(out: &mut Vec<u8>, words: &[u8]) -> Result<(), Memory>
    ensures { OnOk result (out.new.items ≡ out.old.items ++ page_head words.now) }
{
    out.extend_from_slice(b"<h1>")?;
    out.extend_from_slice(words)?;
    out.extend_from_slice(b"</h1>\n")?;
    Ok(())
}

/// Appends a page up to its head, which has these words, with links to the reports of the year.
#[tactic(auto, unfolding(crate::specs::Pages::page_start))]
fn write_page_start(
    alloc: Global,
    out: &mut Vec<u8>,
    words: &[u8],
    year: Option<u16>,
) -> Result<(), Memory>
    ensures { OnOk result (out.new.items ≡ out.old.items ++ page_start words.now year) }
{
    out.extend_from_slice(HEAD)?;
    write_page_name(out, words)?;
    write_navigation(alloc, out, year)?;
    write_page_head(out, words)
}

/// The page of a question up to its head, with so much room for all of it.
fn start_of(
    alloc: Global,
    context: &Context,
    question: &Question,
    room: usize,
) -> Result<Vec<u8>, Memory>
    ensures { IfOk result (λ out. out.items ≡ page_start (title context.now.joined question.now) (report_year (year_asked question.now) context.now.last_day)) }
{
    let mut words = Vec::with_capacity(alloc, TITLE_ROOM)?;
    write_title(alloc, &mut words, context.joined, question)?;
    let mut out = Vec::with_capacity(alloc, room)?;
    write_page_start(
        alloc,
        &mut out,
        &words,
        report_year(year_asked(question), context.last_day),
    )?;
    Ok(out)
}

/// Appends what the page was made from.
#[tactic(auto, unfolding(crate::specs::Pages::made_from))]
fn write_made_from(out: &mut Vec<u8>, loads: u32, observations: u32) -> Result<(), Memory>
    ensures { OnOk result (out.new.items ≡ out.old.items ++ made_from loads observations) }
{
    out.extend_from_slice(b"<p class=\"note\">Made from what stands now. Loads: ")?;
    write_digits(out, loads)?;
    out.extend_from_slice(b". Observations: ")?;
    write_digits(out, observations)?;
    out.extend_from_slice(b".</p>\n")?;
    Ok(())
}

/// Appends what the page of an answer shows.
#[tactic(auto, unfolding(crate::specs::Pages::shown_sheets))]
fn write_shown_sheets(
    alloc: Global,
    out: &mut Vec<u8>,
    context: &Context,
    question: &Question,
    sheets: &[Sheet],
) -> Result<(), Memory>
    ensures { OnOk result (out.new.items ≡ out.old.items ++ shown_sheets context.now question.now sheets.now) }
{
    write_leads_of(alloc, out, context, question)?;
    write_sections(alloc, out, question, sheets)?;
    write_made_from(out, context.loads, context.observations)
}

/// The room that a page of these sheets takes at most, as far as their numbers of cells say so.
fn room_for(sheets: &[Sheet]) -> usize {
    let mut room = PAGE_ROOM;
    for sheet in sheets {
        let columns = sheet.columns().len().saturating_add(1);
        let cells = sheet.rows().len().saturating_mul(columns);
        room = room.saturating_add(cells.saturating_mul(CELL_ROOM));
    }
    room
}

/// The page of the answer of a question.
#[tactic(auto, unfolding(crate::specs::Pages::answer_page, crate::specs::Pages::question_page, crate::specs::Pages::page))]
pub fn answer_page(
    alloc: Global,
    context: &Context,
    question: &Question,
    sheets: &[Sheet],
) -> Result<Vec<u8>, Memory>
    ensures { IfOk result (λ page. page.items ≡ pages.answer_page context.now question.now sheets.now) }
{
    let mut out = start_of(alloc, context, question, room_for(sheets))?;
    write_shown_sheets(alloc, &mut out, context, question, sheets)?;
    out.extend_from_slice(FOOT)?;
    Ok(out)
}

/// Appends a message, and what the page was made from.
#[tactic(auto, unfolding(crate::specs::Pages::message))]
fn write_message(
    out: &mut Vec<u8>,
    loads: u32,
    observations: u32,
    words: &[u8],
) -> Result<(), Memory>
    ensures { OnOk result (out.new.items ≡ out.old.items ++ message loads observations words.now) }
{
    out.extend_from_slice(b"<p>")?;
    out.extend_from_slice(words)?;
    out.extend_from_slice(b"</p>\n")?;
    write_made_from(out, loads, observations)
}

/// The page of a question of which nothing stands, with the message of what is missing.
#[tactic(auto, unfolding(crate::specs::Pages::missing_page, crate::specs::Pages::question_page, crate::specs::Pages::page))]
pub fn missing_page(
    alloc: Global,
    context: &Context,
    question: &Question,
    message: &[u8],
) -> Result<Vec<u8>, Memory>
    ensures { IfOk result (λ page. page.items ≡ pages.missing_page context.now question.now message.now) }
{
    let mut out = start_of(alloc, context, question, PAGE_ROOM)?;
    write_message(&mut out, context.loads, context.observations, message)?;
    out.extend_from_slice(FOOT)?;
    Ok(out)
}

#[tactic(auto, unfolding(crate::specs::Pages::status_title))]
fn status_title(status: u16) -> &'static str
    ensures { result.now ≡ status_title status }
{
    if status == 400 {
        "No such question"
    } else if status == 405 {
        "This page is only read"
    } else {
        "No such page"
    }
}

#[tactic(auto, unfolding(crate::specs::Pages::status_words))]
fn status_words(status: u16) -> &'static str
    ensures { result.now ≡ status_words status }
{
    if status == 400 {
        "The path names a question, but a part of it is not spelled as that question wants it."
    } else if status == 405 {
        "A page is asked for by GET. It takes nothing that is sent."
    } else {
        "No page has this path."
    }
}

/// The page for a target of which no page is made: 400, 404 or 405.
#[tactic(auto, unfolding(crate::specs::Pages::refusal_page, crate::specs::Pages::page))]
pub fn refusal_page(alloc: Global, context: &Context, status: u16) -> Result<Vec<u8>, Memory>
    ensures { IfOk result (λ page. page.items ≡ pages.refusal_page context.now status) }
{
    let mut out = Vec::new(alloc);
    let year = report_year(None, context.last_day);
    write_page_start(alloc, &mut out, status_title(status).as_bytes(), year)?;
    write_message(
        &mut out,
        context.loads,
        context.observations,
        status_words(status).as_bytes(),
    )?;
    out.extend_from_slice(FOOT)?;
    Ok(out)
}
