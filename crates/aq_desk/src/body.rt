//! The body of a load, read from a source to its end.
ghost use Rattle.std.specs.Prelude.{◌≡◌, ◌<◌, ◌≤◌, length, vec_len, [], IfOk, IfErr, OnOk};
ghost use Rattle.aq_rules.specs.Limits.{MOST_LINES};
ghost use Rattle.aq_rules.specs.Lines.Lines.{line_count};
ghost use Rattle.aq_desk.specs.Body.{Extends, HasTooManyBytes, IsBodyFault, IsLinesFault, TakesFew};
ghost use Rattle.aq_desk.specs.Stop.{HasRead, ending_at, stop_of};
ghost use Rattle.aq_outside.specs.Outside.{IsAll};

use aq_base::{Failed, MOST_BYTES};
use aq_forms::Body;
use aq_outside::Source;
use std::alloc::{AllocError, Global};

const PIECE: usize = 65_536;

// Why there is no body.
#[derive(Clone, Copy, Debug, PartialEq, Eq)]
pub(crate) enum BodyFault {
    InputFailed,
    Memory,
    TooManyBytes,
    /// With the number of lines.
    TooManyLines(u32),
}

impl From<Failed> for BodyFault {
    ghost use Rattle.std.specs.Prelude.{◌≡◌};
    ghost use Rattle.aq_desk.specs.declared.body.BodyFault.TheVariants.{InputFailed};

    ghost from_gives = { λ _ fault. fault ≡ InputFailed };

    fn from(_: Failed) -> Self {
        BodyFault::InputFailed
    }
}

impl From<AllocError> for BodyFault {
    ghost use Rattle.std.specs.Prelude.{◌≡◌};
    ghost use Rattle.aq_desk.specs.declared.body.BodyFault.TheVariants.{Memory};

    ghost from_gives = { λ _ fault. fault ≡ Memory };

    fn from(_: AllocError) -> Self {
        BodyFault::Memory
    }
}

// Reads one piece after the body.
fn read_piece<S: Source>(
    input: &mut S,
    buffer: &mut [u8],
    body: &mut Vec<u8>,
) -> Result<usize, BodyFault>
    requires { 0 < length buffer.old }
    ensures count { IfOk result (λ n. Extends (S.seen input.old).left (S.seen input.new).left
        body.old.items body.new.items n) }
    ensures within { IfOk result (λ n. n ≤ length buffer.old) }
    ensures read { TakesFew (length buffer.old) (S.seen input.old).left (S.seen input.new).left }
    ensures steady { OnOk result ((S.seen input.new).faults ≡ (S.seen input.old).faults) }
    ensures fault { IfErr result (λ fault. IsBodyFault (S.seen input.old).faults
        (S.seen input.new).faults ⊥ (λ _. ⊥) fault) }
{
    let n = input.read(buffer)?;
    body.extend_from_slice(&buffer[..n])?;
    Ok(n)
}

// Reads to the end after an empty body, or as far as one byte beyond what a body may have.
fn fill<S: Source>(input: &mut S, buffer: &mut [u8], body: &mut Vec<u8>) -> Result<(), BodyFault>
    requires room { 0 < length buffer.old }
    requires empty { body.old.items ≡ [] }
    ensures body { OnOk result (IsAll (S.seen input.old).left body.new.items) }
    ensures few { OnOk result (vec_len body.new ≤ MOST_BYTES) }
    ensures read { OnOk result (HasRead 0 (S.seen input.old).left (S.seen input.new).left) }
    ensures cut { IfErr result (λ fault. let ending = ending_at (stop_of fault) in
        HasRead ending.status (S.seen input.old).left (S.seen input.new).left) }
    ensures steady { OnOk result ((S.seen input.new).faults ≡ (S.seen input.old).faults) }
    ensures fault { IfErr result (λ fault. IsBodyFault (S.seen input.old).faults
        (S.seen input.new).faults (HasTooManyBytes (S.seen input.old).left) (λ _. ⊥) fault) }
{
    while body.len() <= MOST_BYTES {
        let room = buffer.len().min(MOST_BYTES + 1 - body.len());
        let n = read_piece(input, &mut buffer[..room], body)?;
        if n == 0 {
            return Ok(());
        }
    }
    Err(BodyFault::TooManyBytes)
}

/// Reads a source to its end, or as far as one byte beyond what a body may have.
pub(crate) fn read_body<S: Source>(alloc: Global, input: &mut S) -> Result<Vec<u8>, BodyFault>
    ensures body { IfOk result (λ body. IsAll (S.seen input.old).left body.items) }
    ensures bytes { IfOk result (λ body. length body.items ≤ MOST_BYTES) }
    ensures read { OnOk result (HasRead 0 (S.seen input.old).left (S.seen input.new).left) }
    ensures cut { IfErr result (λ fault. let ending = ending_at (stop_of fault) in
        HasRead ending.status (S.seen input.old).left (S.seen input.new).left) }
    ensures steady { OnOk result ((S.seen input.new).faults ≡ (S.seen input.old).faults) }
    ensures fault { IfErr result (λ fault. IsBodyFault (S.seen input.old).faults
        (S.seen input.new).faults (HasTooManyBytes (S.seen input.old).left) (λ _. ⊥) fault) }
{
    let mut buffer = vec![in alloc; 0; PIECE]?;
    let mut body = Vec::new(alloc);
    fill(input, &mut buffer, &mut body)?;
    Ok(body)
}

/// The bytes that were read, as a body: here its lines are counted. More than a body may have are refused.
pub(crate) fn body_of(bytes: &[u8]) -> Result<Body<'_>, BodyFault>
    requires { length bytes.now ≤ MOST_BYTES }
    ensures body { IfOk result (λ body. body ≡ bytes.now) }
    ensures lines { OnOk result (line_count bytes.now ≤ MOST_LINES) }
    ensures fault { IfErr result (IsLinesFault bytes.now) }
{
    match Body::new(bytes) {
        Ok(body) => Ok(body),
        Err(lines) => Err(BodyFault::TooManyLines(lines)),
    }
}
