//! The bytes of a reply.
ghost use Rattle.std.specs.Prelude.{◌≡◌, IfOk, IsTrue, OnOk, ◌++◌};
ghost use Rattle.aq_http.specs.Reply.{allow_line, close_line, is_reply_status, reply_text};

use crate::media::MediaType;
use aq_base::Memory;
use http::StatusCode;
use std::alloc::Global;

/// What stands in front of a body has room in so many bytes.
const HEAD_ROOM: usize = 336;

/// The bytes of a reply: its status line, the headers and the body (RFC 9112, sections 4 to 6).
/// The head of a page has the lines that say what it may do. `allow` is written for 405 alone, and `close` says that the connection ends after the reply.
#[tactic(auto, unfolding(crate::specs::Reply::reply_text))]
pub fn reply_bytes(
    alloc: Global,
    status: u16,
    media: MediaType,
    allow: &[u8],
    close: bool,
    body: &[u8],
) -> Result<Vec<u8>, Memory>
    requires { IsTrue (is_reply_status status) }
    ensures { IfOk result (λ bytes. bytes.items ≡ reply_text (record {
      status = status;
      media = media;
      allow = allow.now;
      close = close;
      body = body.now;
    })) }
{
    let code = StatusCode::from_u16(status).unwrap();
    let guards = media.guard_lines();
    let media = media.name();
    let length = body.len();
    let mut start = String::with_capacity(alloc, length.saturating_add(HEAD_ROOM))?;
    write!(
        start,
        "HTTP/1.1 {code}\r\nContent-Type: {media}\r\n{guards}Content-Length: {length}\r\n"
    )?;
    let mut out = start.into_bytes();
    write_allow(&mut out, status, allow)?;
    write_close(&mut out, close)?;
    out.extend_from_slice(b"\r\n")?;
    out.extend_from_slice(body)?;
    Ok(out)
}

fn write_allow(out: &mut Vec<u8>, status: u16, allow: &[u8]) -> Result<(), Memory>
    ensures { OnOk result (out.new.items ≡ out.old.items ++ allow_line status allow.now) }
{
    if status == 405 {
        out.extend_from_slice(b"Allow: ")?;
        out.extend_from_slice(allow)?;
        out.extend_from_slice(b"\r\n")?;
    }
    Ok(())
}

fn write_close(out: &mut Vec<u8>, close: bool) -> Result<(), Memory>
    ensures { OnOk result (out.new.items ≡ out.old.items ++ close_line close) }
{
    if close {
        out.extend_from_slice(b"Connection: close\r\n")?;
    }
    Ok(())
}
