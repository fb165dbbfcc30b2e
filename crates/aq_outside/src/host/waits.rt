//! How long the calls of a connection may wait, and whom else they keep waiting.
ghost use Rattle.std.specs.Prelude.{◌≡◌, ◌+◌, ◌<◌, ◌≤◌, length, IfOk, IfSome, OnErr};
ghost use Rattle.std.specs.Duration.{as_nanos};
ghost use Rattle.std.specs.Io.KnownBytes.{ReadConsumes, WriteAppends};
ghost use Rattle.aq_outside.specs.Host.InTime.{AfterRead, AfterWrite, came, count_that_came};

use crate::host::streams::{read_from, write_to};
use aq_base::Failed;
use std::io;
use std::io::{ErrorKind, Read, Write};
use std::net::{OpenListener, OpenStream, Shutdown};
use std::time::{Clock, Duration};

/// A connection may lie idle so many seconds before a request.
const IDLE: u64 = 5;

/// From its first byte to its last a request has so many seconds to come, and a reply to be taken.
const PATIENCE: u64 = 30;

/// Where another peer waits, a connection gives way after so many milliseconds of lying idle before a request.
/// A read waits for no longer until it looks about.
const GLANCE: u64 = 50;

/// Where another peer waits, a request has so many seconds from its first byte on to come whole.
const HURRY: u64 = 2;

/// So often does a read look about, at most: more often than `IDLE` and `PATIENCE` have `GLANCE`s.
const MOST_GLANCES: u32 = 10_000;

/// A peer that sends nothing for so many milliseconds after the last reply has nothing more to send.
const SILENCE: u64 = 250;

/// What a peer still sends after the last reply is read for so many milliseconds at most.
const PARTING: u64 = 2_000;

/// So many pieces are read after the last reply, at most, and so long is each.
const MOST_PIECES: u32 = 1_024;

const PIECE: usize = 16_384;

/// Until when the request that has begun is to have come whole, and the reply to have been taken whole, by
/// the clock.
#[derive(Clone, Copy)]
pub(crate) struct Deadlines {
    pub(crate) request: Option<Duration>,
    pub(crate) reply: Option<Duration>,
}

/// No request has begun, and no reply.
pub(crate) const NONE_BEGUN: Deadlines = Deadlines {
    request: None,
    reply: None,
};

/// Whether another peer waits to be accepted. The first that does is accepted, and comes next.
fn another_waits<L: OpenListener>(listener: &Option<(u16, L)>, next: &mut Option<L::Stream>) -> bool
where
    L::Stream: OpenStream,
{
    if next.is_none() {
        if let Some((_, listener)) = listener {
            *next = accepted_at_once(listener);
        }
    }
    next.is_some()
}

/// The connection that waits to be accepted, if there is one.
fn accepted_at_once<L: OpenListener>(listener: &L) -> Option<L::Stream>
where
    L::Stream: OpenStream,
{
    listener.set_nonblocking(true).ok()?;
    let accepted = listener.accept();
    listener.set_nonblocking(false).ok()?;
    let (stream, _) = accepted.ok()?;
    prepare(&stream).ok()?;
    Some(stream)
}

/// Between which moments a read may end before anything came.
#[derive(Clone, Copy)]
struct Limits {
    /// From then on it ends if another peer waits.
    yields: Duration,
    /// By then it ends.
    until: Duration,
}

/// How many bytes came, and by when the first of them did.
#[derive(Clone, Copy)]
struct Came {
    count: usize,
    by: Duration,
}

/// A reply leaves at once. How long a read or a write may wait is set at each.
pub(crate) fn prepare<S: OpenStream>(stream: &S) -> io::Result<()> {
    stream.set_nodelay(true)
}

/// One read, in the time that the request that has begun has left, or that a connection may lie idle. Where
/// another peer waits it has less.
pub(crate) fn read_in_time<C: Clock, L: OpenListener, S: Read + OpenStream>(
    clock: &C,
    listener: &Option<(u16, L)>,
    next: &mut Option<L::Stream>,
    stream: &mut S,
    deadlines: &mut Deadlines,
    buffer: &mut [u8],
) -> Result<usize, Failed>
where
    L::Stream: OpenStream,
    ensures within { IfOk result (λ n. n ≤ length buffer.new) }
    ensures passed { ReadConsumes (S.remaining stream.old)
        (S.remaining stream.new) result buffer.new }
    ensures deadlines { AfterRead deadlines.old deadlines.new result }
{
    let now = clock.monotonic().map_err(|_| Failed)?;
    let limits = limits_of(deadlines.request, now);
    let came = read_within(clock, listener, next, &limits, stream, buffer)?;
    let until = came.by.saturating_add(Duration::from_secs(PATIENCE));
    deadlines.request = Some(deadlines.request.unwrap_or(until));
    Ok(came.count)
}

/// Those of a read that begins now, behind a request that is to have come whole by then, if one has begun.
fn limits_of(request: Option<Duration>, now: Duration) -> Limits {
    match request {
        Some(until) => Limits {
            yields: until.saturating_sub(Duration::from_secs(PATIENCE - HURRY)),
            until,
        },
        None => Limits {
            yields: now.saturating_add(Duration::from_millis(GLANCE)),
            until: now.saturating_add(Duration::from_secs(IDLE)),
        },
    }
}

/// One read within these limits.
fn read_within<C: Clock, L: OpenListener, S: Read + OpenStream>(
    clock: &C,
    listener: &Option<(u16, L)>,
    next: &mut Option<L::Stream>,
    limits: &Limits,
    stream: &mut S,
    buffer: &mut [u8],
) -> Result<Came, Failed>
where
    L::Stream: OpenStream,
    ensures within { IfOk result (λ (some : Came). some.count ≤ length buffer.new) }
    ensures passed { ReadConsumes (S.remaining stream.old)
        (S.remaining stream.new) (count_that_came result) buffer.new }
{
    let glance = Duration::from_millis(GLANCE);
    for _ in 0..MOST_GLANCES {
        let now = clock.monotonic().map_err(|_| Failed)?;
        if now >= limits.yields && another_waits(listener, next) {
            return Err(Failed);
        }
        let patience = left_until(limits.until, now)?.min(glance);
        if let Some(count) = read_at_once(stream, patience, buffer)? {
            let by = now.saturating_add(patience);
            return Ok(Came { count, by });
        }
    }
    Err(Failed)
}

/// One read that waits for so long; `None` if nothing came, or a signal interrupted it.
fn read_at_once<S: Read + OpenStream>(
    stream: &mut S,
    patience: Duration,
    buffer: &mut [u8],
) -> Result<Option<usize>, Failed>
    ensures within { IfOk result (λ some. IfSome some (λ n. n ≤ length buffer.new)) }
    ensures passed { ReadConsumes (S.remaining stream.old)
        (S.remaining stream.new) (came result) buffer.new }
{
    stream.set_read_timeout(Some(patience)).map_err(|_| Failed)?;
    match stream.read(buffer) {
        Ok(n) => Ok(Some(n)),
        Err(error) if came_nothing(error.kind()) => Ok(None),
        Err(_) => Err(Failed),
    }
}

/// Whether a failed read tells that nothing came in time, or a signal.
fn came_nothing(kind: ErrorKind) -> bool {
    matches!(
        kind,
        ErrorKind::WouldBlock | ErrorKind::TimedOut | ErrorKind::Interrupted
    )
}

/// One write, in the time that the reply has left. A reply is given whole, or what is left of it. One that
/// takes nothing of it is a fault.
pub(crate) fn write_in_time<C: Clock, S: Write + OpenStream>(
    clock: &C,
    stream: &mut S,
    deadlines: &mut Deadlines,
    piece: &[u8],
) -> Result<usize, Failed>
    ensures within { IfOk result (λ n. n ≤ length piece.now) }
    ensures some { IfOk result (λ n. 0 < length piece.now → 0 < n) }
    ensures passed { WriteAppends (S.contents stream.old) (S.contents stream.new) result piece.now }
    ensures deadlines { AfterWrite deadlines.old deadlines.new piece.now result }
{
    let now = clock.monotonic().map_err(|_| Failed)?;
    let begun = now.saturating_add(Duration::from_secs(PATIENCE));
    let until = deadlines.reply.unwrap_or(begun);
    let patience = left_until(until, now)?;
    stream
        .set_write_timeout(Some(patience))
        .map_err(|_| Failed)?;
    let taken = write_to(stream, piece)?;
    if taken == 0 && !piece.is_empty() {
        return Err(Failed);
    }
    deadlines.request = None;
    deadlines.reply = if taken < piece.len() {
        Some(until)
    } else {
        None
    };
    Ok(taken)
}

/// How long it is until then, if that is not past.
fn left_until(until: Duration, now: Duration) -> Result<Duration, Failed>
    ensures left { IfOk result (λ left. as_nanos now + as_nanos left ≡ as_nanos until) }
    ensures some { IfOk result (λ left. 0 < as_nanos left) }
    ensures past { OnErr result (as_nanos until ≤ as_nanos now) }
{
    match until.checked_sub(now) {
        Some(left) => {
            if left.is_zero() {
                return Err(Failed);
            }
            Ok(left)
        }
        None => Err(Failed),
    }
}

/// Says that no further reply comes, and takes what the peer still sends: if that is left unread, the
/// system breaks the connection off, and the last reply can be lost on its way.
pub(crate) fn part<C: Clock, S: Read + OpenStream>(clock: &C, stream: &mut S) {
    let silence = Some(Duration::from_millis(SILENCE));
    let Ok(start) = clock.monotonic() else {
        return;
    };
    let until = start.saturating_add(Duration::from_millis(PARTING));
    if stream.shutdown(Shutdown::Write).is_err() || stream.set_read_timeout(silence).is_err() {
        return;
    }
    let mut piece = [0; PIECE];
    for _ in 0..MOST_PIECES {
        match read_from(stream, &mut piece) {
            Ok(0) | Err(Failed) => return,
            Ok(_) => {}
        }
        match clock.monotonic() {
            Ok(now) if now < until => {}
            _ => return,
        }
    }
}

#[cfg(test)]
mod tests;
