//! The bytes of replies over an office.
ghost use Rattle.std.specs.Prelude.{◌≡◌, [], IfOk, IsTrue};
ghost use Rattle.aq_http.specs.Reply.{is_reply_status, reply_text};
ghost use Rattle.aq_http.specs.declared.media.MediaType.TheVariants.{Json};
ghost use Rattle.aq_office.specs.Posting.{IsPostedShown};
ghost use Rattle.aq_rules.specs.Office.Office.{IsOffice, Office};
ghost use Rattle.aq_rules.specs.Questions.Answer.{answer};
ghost use Rattle.aq_rules.specs.Questions.Asking.{is_asked};
ghost use Rattle.aq_rules.specs.Questions.Table.{topic_of};
ghost use Rattle.aq_rules.specs.Shown.OtherSheets.{conflict_sheet};
ghost use Rattle.aq_rules.specs.Shown.Json as json;
ghost use Rattle.aq_rules.specs.Shown.WellFormed.{IsWellFormed};
ghost use Rattle.aq_serve.specs.Answered.{reply_of, text_media, to_question};
ghost use Rattle.aq_office.specs.Service.Replies.{methods, to_posted};

use crate::{Answer, Posted, answer_to};
use aq_base::{Memory, Question, Topic};
use aq_book::Book;
use aq_http::{MediaType, reply_bytes};
use aq_reports::conflict_sheet;
use aq_rows::digest_is_32_bytes;
use aq_rules::shown::well_formed::other_sheets_are_well_formed;
use aq_serve::error_reply;
use aq_sheets::{Sheet, json_of, json_of_sheets};
use std::alloc::Global;

/// The reply to a question.
pub(crate) fn question_reply(
    alloc: Global,
    book: &Book,
    question: &Question,
    close: bool,
) -> Result<Vec<u8>, Memory>
    requires valid { IsOffice book.now }
    requires range { IsTrue (is_asked question.now) }
    ensures { IfOk result (λ reply. reply.items ≡ reply_of
        (to_question book.now (topic_of question.now) (answer book.now question.now)) close) }
{
    match answer_to(alloc, book, question)? {
        Answer::Sheets(sheets) => {
            let body = json_of_sheets(alloc, sheets.as_slice())?;
            reply_bytes(alloc, 200, MediaType::Json, b"", close, &body)
        }
        Answer::Text(text) => {
            let media = text_media(question.topic());
            reply_bytes(alloc, 200, media, b"", close, &text)
        }
        Answer::Lacks(_) => error_reply(alloc, 404, b"", close),
    }
}

/// What the text of an answer is written in.
fn text_media(topic: Topic) -> MediaType
    ensures { result ≡ text_media topic }
{
    match topic {
        Topic::Export => MediaType::Csv,
        _ => MediaType::Plain,
    }
}

/// The reply to a load of this number, whatever office then stands.
pub(crate) fn load_reply(
    alloc: Global,
    number: u32,
    posted: Posted,
    close: bool,
) -> Result<Vec<u8>, Memory>
    requires { IsPostedShown posted }
    ensures { IfOk result (λ bytes. (office : Office) → bytes.items ≡ reply_of (to_posted posted number office) close) }
{
    match posted {
        Posted::Done(sheet) => sheet_reply(alloc, 200, &sheet, close),
        Posted::Conflict { kept, sent } => conflict_reply(alloc, number, &kept, &sent, close),
        Posted::Full => error_reply(alloc, 507, b"", close),
        Posted::Failed => error_reply(alloc, 503, b"", close),
    }
}

/// The reply to a load whose number is kept with another digest.
fn conflict_reply(
    alloc: Global,
    number: u32,
    kept: &[u8; 32],
    sent: &[u8; 32],
    close: bool,
) -> Result<Vec<u8>, Memory>
    ensures { IfOk result (λ bytes. bytes.items ≡ reply_text
        (record { status = 409; media = Json; allow = []; close = close; body = json.json_of (conflict_sheet number kept.now sent.now) })) }
{
    other_sheets_are_well_formed();
    digest_is_32_bytes(kept);
    digest_is_32_bytes(sent);
    let sheet = conflict_sheet(alloc, number, kept, sent)?;
    sheet_reply(alloc, 409, &sheet, close)
}

/// The reply with a sheet.
fn sheet_reply(alloc: Global, status: u16, sheet: &Sheet, close: bool) -> Result<Vec<u8>, Memory>
    requires status { IsTrue (is_reply_status status) }
    requires well_formed { IsWellFormed sheet.now }
    ensures { IfOk result (λ bytes. bytes.items ≡ reply_text
        (record { status = status; media = Json; allow = []; close = close; body = json.json_of sheet.now })) }
{
    let body = json_of(alloc, sheet)?;
    reply_bytes(alloc, status, MediaType::Json, b"", close, &body)
}

/// The methods of a route that has others than the request's.
pub(crate) fn methods(post: bool) -> &'static [u8]
    ensures { result.now ≡ methods post }
{
    if post { b"GET, POST" } else { b"GET" }
}
