//! Replies, written until a connection has all of them.
ghost use Rattle.std.specs.Prelude.{◌≡◌, true, IfOk, IsTrue};
ghost use Rattle.aq_http.specs.Reply.{is_reply_status, reply_text};
ghost use Rattle.aq_http.specs.declared.media.MediaType.TheVariants.{Json};
ghost use Rattle.aq_serve.specs.Answered.{error_body, error_name};
ghost use Rattle.aq_serve.specs.Talking.{Sends};

use aq_base::{Failed, Memory};
use aq_http::{MediaType, reply_bytes};
use aq_outside::Door;
use std::alloc::Global;

/// Writes all bytes of a reply on the accepted connection. After `Failed` a part of them was written.
pub(crate) fn write_all<D: Door>(door: &mut D, text: &[u8]) -> Result<(), Failed>
    requires open { (D.seen door.old).is_open ≡ true }
    ensures { Sends text.now (D.seen door.old) (D.seen door.new) result }
{
    let mut count = 0;
    while count < text.len() {
        count += door.write(&text[count..])?;
    }
    Ok(())
}

/// What the body of a reply names that is not 200 or 409.
fn error_name(status: u16) -> &'static str
    ensures { result.now ≡ error_name status }
{
    match status {
        400 => "BadRequest",
        403 => "Forbidden",
        404 => "NotFound",
        405 => "MethodNotAllowed",
        411 => "LengthRequired",
        413 => "TooLarge",
        431 => "HeadTooLarge",
        501 => "NotImplemented",
        503 => "KeeperFailed",
        _ => "LoadsFull",
    }
}

/// The body of a reply with such a status, in JSON.
#[tactic(auto, using(crate::proofs::Errors::error_body_is))]
fn error_body(alloc: Global, status: u16) -> Result<Vec<u8>, Memory>
    ensures { IfOk result (λ body. body.items ≡ error_body status) }
{
    let name = error_name(status);
    let body = format!(in alloc; "{{\"error\":\"{name}\"}}")?;
    Ok(body.into_bytes())
}

/// The reply with an error, the methods that a 405 allows, and whether it ends the connection.
pub fn error_reply(alloc: Global, status: u16, allow: &[u8], close: bool) -> Result<Vec<u8>, Memory>
    requires { IsTrue (is_reply_status status) }
    ensures { IfOk result (λ bytes. bytes.items
        ≡ reply_text
        (record { status = status; media = Json; allow = allow.now; close = close; body = error_body status })) }
{
    let body = error_body(alloc, status)?;
    reply_bytes(alloc, status, MediaType::Json, allow, close, &body)
}
