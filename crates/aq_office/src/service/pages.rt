//! The bytes of replies that are pages.
ghost use Rattle.std.specs.Prelude.{◌≡◌, ◌<◌, ◌++◌, length, IfOk, IsTrue, OnOk};
ghost use Rattle.aq_base.specs.Text.{site_text};
ghost use Rattle.aq_browser.specs.Pages.{lack_words};
ghost use Rattle.aq_browser.specs.Paths.{digits};
ghost use Rattle.aq_browser.specs.Standing as standing;
ghost use Rattle.aq_http.specs.Routes.{IsPage, IsPageStatus};
ghost use Rattle.aq_listed.specs.LastDay as listed;
ghost use Rattle.aq_office.specs.Answers.{lack_of};
ghost use Rattle.aq_rules.specs.Office.Office.{IsOffice};
ghost use Rattle.aq_rules.specs.Questions.Answer.{Lacks, OfSheets, answer};
ghost use Rattle.aq_rules.specs.Questions.Asking.{is_asked};
ghost use Rattle.aq_serve.specs.Answered.{page_methods, refused_page, reply_of, to_asked_page, to_page};

use crate::{Answer, Lack, answer_to};
use aq_base::{Day, Memory, Pollutant, Question, SiteId, Steps};
use aq_book::Book;
use aq_browser::{Context, answer_page, missing_page, refusal_page};
use aq_http::{MediaType, reply_bytes};
use aq_listed::{last_day, last_day_at};
use aq_num::write_fixed;
use aq_sheets::{Sheet, site_text};
use std::alloc::Global;
use std::marker::Brand;
use std::sync::ledger::{Blank, Ledger};

/// The reply with the page that is asked for, or with that of the status with which it is refused. The
/// last day of the office is given.
pub(crate) fn page_reply(
    alloc: Global,
    book: &Book,
    last: Option<Day>,
    asked: &Result<Question, u16>,
    close: bool,
) -> Result<Vec<u8>, Memory>
    requires valid { IsOffice book.now }
    requires last { last ≡ listed.last_day book.now }
    requires page { IsPage asked.now }
    ensures { IfOk result (λ reply. reply.items ≡ reply_of (to_asked_page book.now asked.now) close) }
{
    match asked {
        Ok(question) => answered(alloc, book, last, question, close),
        Err(status) => refused(alloc, book, last, *status, close),
    }
}

/// The reply with the page of a question.
fn answered(
    alloc: Global,
    book: &Book,
    last: Option<Day>,
    question: &Question,
    close: bool,
) -> Result<Vec<u8>, Memory>
    requires valid { IsOffice book.now }
    requires last { last ≡ listed.last_day book.now }
    requires range { IsTrue (is_asked question.now) }
    ensures { IfOk result (λ reply. reply.items ≡ reply_of (to_page book.now question.now (answer book.now question.now)) close) }
{
    match answer_to(alloc, book, question)? {
        Answer::Sheets(sheets) => shown(alloc, book, last, question, sheets.as_slice(), close),
        Answer::Text(_) => refused(alloc, book, last, 404, close),
        Answer::Lacks(lack) => missing(alloc, book, last, question, lack, close),
    }
}

/// The reply with the page of sheets.
fn shown(
    alloc: Global,
    book: &Book,
    last: Option<Day>,
    question: &Question,
    sheets: &[Sheet],
    close: bool,
) -> Result<Vec<u8>, Memory>
    requires valid { IsOffice book.now }
    requires last { last ≡ listed.last_day book.now }
    ensures { IfOk result (λ reply. reply.items ≡ reply_of (to_page book.now question.now (OfSheets sheets.now)) close) }
{
    let context = context_of(book, last, question);
    let page = answer_page(alloc, &context, question, sheets)?;
    reply_bytes(alloc, 200, MediaType::Html, b"", close, &page)
}

/// The reply with the page of what is missing.
fn missing(
    alloc: Global,
    book: &Book,
    last: Option<Day>,
    question: &Question,
    lack: Lack,
    close: bool,
) -> Result<Vec<u8>, Memory>
    requires valid { IsOffice book.now }
    requires last { last ≡ listed.last_day book.now }
    ensures { IfOk result (λ reply. reply.items ≡ reply_of (to_page book.now question.now (Lacks (lack_of lack))) close) }
{
    let context = context_of(book, last, question);
    let message = lack_message(alloc, lack)?;
    let page = missing_page(alloc, &context, question, &message)?;
    reply_bytes(alloc, 404, MediaType::Html, b"", close, &page)
}

/// The reply with the page of a status with which a page is refused.
fn refused(
    alloc: Global,
    book: &Book,
    last: Option<Day>,
    status: u16,
    close: bool,
) -> Result<Vec<u8>, Memory>
    requires valid { IsOffice book.now }
    requires last { last ≡ listed.last_day book.now }
    requires status { IsPageStatus status }
    ensures { IfOk result (λ reply. reply.items ≡ reply_of (refused_page status book.now) close) }
{
    let context = context_beside(book, last);
    let page = refusal_page(alloc, &context, status)?;
    let allow = page_methods(status);
    reply_bytes(alloc, status, MediaType::Html, allow, close, &page)
}

/// The methods that a 405 of a page allows.
fn page_methods(status: u16) -> &'static [u8]
    ensures { result.now ≡ page_methods status }
{
    if status == 405 { b"GET" } else { b"" }
}

// ---- what is missing

/// The message of what is missing.
#[tactic(auto, unfolding(aq_browser::specs::Pages::lack_words))]
fn lack_message(alloc: Global, lack: Lack) -> Result<Vec<u8>, Memory>
    ensures { IfOk result (λ message. message.items ≡ lack_words (lack_of lack)) }
{
    match lack {
        Lack::NoSite(site) => with_site(alloc, b"12 no site ", site),
        Lack::NoEvent(number) => with_number(alloc, b"13 no event ", number),
        Lack::NoCombination(site) => with_site(alloc, b"14 no combination ", site),
        Lack::NoSiteInArea => Ok(b"15 no site in area".to_vec(alloc)?),
        Lack::NoLoad(number) => with_number(alloc, b"16 no load ", number),
    }
}

/// Words and a site.
fn with_site(alloc: Global, words: &[u8], site: SiteId) -> Result<Vec<u8>, Memory>
    ensures { IfOk result (λ message. message.items ≡ words.now ++ site_text site) }
{
    let mut message = words.to_vec(alloc)?;
    message.extend_from_slice(&site_text(site))?;
    Ok(message)
}

/// Words and a number.
fn with_number(alloc: Global, words: &[u8], number: u32) -> Result<Vec<u8>, Memory>
    ensures { IfOk result (λ message. message.items ≡ words.now ++ digits number) }
{
    let mut message = words.to_vec(alloc)?;
    write_fixed(&mut message, i64::from(number), 0)?;
    Ok(message)
}

// ---- what stands beside a page

/// What stands in the office beside the answer to a question.
fn context_of(book: &Book, last: Option<Day>, question: &Question) -> Context
    requires valid { IsOffice book.now }
    requires last { last ≡ listed.last_day book.now }
    ensures { result ≡ standing.context_of book.now question.now }
{
    Context {
        loads: load_count(book),
        observations: book.observation_count(),
        last_day: last,
        ozone: last_day_in(book, question, Pollutant::Ozone),
        pm25: last_day_in(book, question, Pollutant::Pm25),
        pm10: last_day_in(book, question, Pollutant::Pm10),
        joined: joined_in(book, question),
    }
}

/// What stands in the office beside what is no answer.
fn context_beside(book: &Book, last: Option<Day>) -> Context
    requires valid { IsOffice book.now }
    requires last { last ≡ listed.last_day book.now }
    ensures { result ≡ standing.context_beside book.now }
{
    Context {
        loads: load_count(book),
        observations: book.observation_count(),
        last_day: last,
        ozone: None,
        pm25: None,
        pm10: None,
        joined: None,
    }
}

/// How many loads were taken.
fn load_count(book: &Book) -> u32
    requires { IsOffice book.now }
    ensures { result ≡ length book.now.loads }
{
    book.loads().entries().len() as u32
}

/// Of a combined site the site that is joined to it, and from which day on.
fn joined_in(book: &Book, question: &Question) -> Option<(SiteId, Day)>
    ensures { result ≡ standing.joined_in book.now question.now }
{
    match question {
        Question::Combined(standard, site, _) => {
            book.registry().combined(*site, standard.pollutant())
        }
        _ => None,
    }
}

/// Of the monitors of a site the last day of a pollutant.
fn last_day_in(book: &Book, question: &Question, pollutant: Pollutant) -> Option<Day>
    ensures { result ≡ standing.last_day_in book.now question.now pollutant }
{
    match question {
        Question::Monitors(site) => last_at(book, *site, pollutant),
        _ => None,
    }
}

/// The last day with an observation. Nobody counts the steps.
pub(crate) fn last_of_all(book: &Book) -> Option<Day>
    ensures { result ≡ listed.last_day book.now }
{
    last_counted::<Brand>(book, Blank::new(1))
}

/// The same on a counter of its own, which nobody reads.
fn last_counted<L: Ledger>(book: &Book, blank: Blank) -> Option<Day>
    requires name { blank.name ≡ L.name }
    requires parts { blank.parts ≡ L.parts }
    requires some { 0 < L.parts }
    ensures { result ≡ listed.last_day book.now }
{
    let mut steps = Steps::<L>::new(blank);
    last_day(book.shelf(), book.registry(), &mut steps)
}

/// The last day with an observation of a site and pollutant. Nobody counts the steps.
fn last_at(book: &Book, site: SiteId, pollutant: Pollutant) -> Option<Day>
    ensures { result ≡ listed.last_day_at book.now site pollutant }
{
    last_at_counted::<Brand>(book, site, pollutant, Blank::new(1))
}

/// The same on a counter of its own, which nobody reads.
fn last_at_counted<L: Ledger>(
    book: &Book,
    site: SiteId,
    pollutant: Pollutant,
    blank: Blank,
) -> Option<Day>
    requires name { blank.name ≡ L.name }
    requires parts { blank.parts ≡ L.parts }
    requires some { 0 < L.parts }
    ensures { result ≡ listed.last_day_at book.now site pollutant }
{
    let mut steps = Steps::<L>::new(blank);
    last_day_at(book.shelf(), book.registry(), site, pollutant, &mut steps)
}
