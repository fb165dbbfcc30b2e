//! The row of a load, and the load that a row says.
ghost use Rattle.std.specs.Prelude.{◌≡◌, ◌+◌, ◌≤◌, ◌&&◌, IfOk, IfSome, length, option_map, sum_by, bytes_eq};
ghost use Rattle.std.specs.List.{list_all};
ghost use Rattle.std.specs.Ordering.{int_eq};
ghost use Rattle.aq_rules.specs.Limits.{MOST_LINES, MOST_LISTED};
ghost use Rattle.aq_rules.specs.Lines.Spellings.{◌>>=◌ as ◌>>-◌};
ghost use Rattle.aq_rules.specs.Office.Office.{is_load, is_listed, is_rest, listed_rank, rest_rank, rises};
ghost use Rattle.aq_rules.specs.Kept.Rows as rows;
ghost use Rattle.aq_rows.specs.KeptLoads.{stored_as, stored_entry};
ghost use Rattle.aq_rows.specs.Loaded.{count_of, digest_in, fits_reply, listed_words, load_in, rest_words};

use crate::kept_loads::{KeptLoad, digest_is_32_bytes};
use crate::pairs::{listed_word, rest_word};
use crate::ranges::between;
use crate::texts::{words_of, write_listed, write_rest};
use aq_base::{
    Bytes, LAST_LOAD_NUMBER, Listed, ListedLine, LoadReply, MOST_LINES, MOST_LISTED, Memory, Rest,
    RestRule,
};
use aq_keeper::LoadRow;
use std::alloc::Global;

/// The row of a load.
pub fn load_row(
    alloc: Global,
    number: u32,
    digest: &[u8; 32],
    reply: &LoadReply,
) -> Result<LoadRow, Memory>
    ensures { IfOk result (λ row. row ≡ rows.load_row (stored_as number digest.now reply.now)) }
{
    let mut listed = Vec::new(alloc);
    write_listed(&mut listed, reply.listed.as_slice())?;
    let mut rest = Vec::new(alloc);
    write_rest(&mut rest, reply.rest.as_slice())?;
    Ok(LoadRow {
        number: i64::from(number),
        digest: Bytes::from_vec(digest[..].to_vec(alloc)?),
        lines: i64::from(reply.lines),
        accepted: i64::from(reply.accepted),
        listed: Bytes::from_vec(listed),
        rest: Bytes::from_vec(rest),
    })
}

/// The load that a row says, if the row is the row of that load, and the load is one that can stand:
/// its number is in its range, its digest of 32 bytes, and its reply one that a load has.
#[tactic(auto, using(crate::proofs::Loaded::read_in_turn))]
pub fn load_of(alloc: Global, row: &LoadRow) -> Result<Option<(u32, KeptLoad)>, Memory>
    ensures { IfOk result (λ found. option_map stored_entry found ≡ (rows.load_of_row row.now >>- rows.only_if is_load)) }
{
    load_in(alloc, row)
}

#[tactic(auto, unfolding(crate::specs::Loaded::load_in))]
fn load_in(alloc: Global, row: &LoadRow) -> Result<Option<(u32, KeptLoad)>, Memory>
    ensures { IfOk result (λ found. option_map stored_entry found ≡ load_in row.now) }
{
    let Some(number) = between(1, LAST_LOAD_NUMBER, row.number) else {
        return Ok(None);
    };
    let Some(lines) = between(0, MOST_LINES, row.lines) else {
        return Ok(None);
    };
    let Some(accepted) = between(0, MOST_LINES, row.accepted) else {
        return Ok(None);
    };
    let Some(listed) = listed_in(alloc, row.listed.as_slice())? else {
        return Ok(None);
    };
    let Some(rest) = rest_in(alloc, row.rest.as_slice())? else {
        return Ok(None);
    };
    let Some(digest) = digest_in(row.digest.as_slice()) else {
        return Ok(None);
    };
    let refused = refused_lines(listed.as_slice(), rest.as_slice());
    let reply = LoadReply {
        number,
        lines,
        accepted,
        refused,
        listed,
        rest,
    };
    if is_row_of(alloc, number, &digest, &reply, row)? {
        Ok(Some((number, KeptLoad { digest, reply })))
    } else {
        Ok(None)
    }
}

/// Whether a reply fits, and the row of the load is this one.
fn is_row_of(
    alloc: Global,
    number: u32,
    digest: &[u8; 32],
    reply: &LoadReply,
    row: &LoadRow,
) -> Result<bool, Memory>
    ensures { IfOk result (λ is. is ≡ (fits_reply reply.now && rows.is_load_row (rows.load_row (stored_as number digest.now reply.now)) row.now)) }
{
    if !fits_reply(reply) {
        return Ok(false);
    }
    let own = load_row(alloc, number, digest, reply)?;
    Ok(is_same(&own, row))
}

/// Whether two rows are the same.
fn is_same(a: &LoadRow, b: &LoadRow) -> bool
    ensures { result ≡ rows.is_load_row a.now b.now }
{
    has_same_front(a, b)
        && a.listed.as_slice() == b.listed.as_slice()
        && a.rest.as_slice() == b.rest.as_slice()
}

fn has_same_front(a: &LoadRow, b: &LoadRow) -> bool
    ensures { result ≡ (int_eq a.now.number b.now.number && bytes_eq a.now.digest b.now.digest && int_eq a.now.lines b.now.lines && int_eq a.now.accepted b.now.accepted) }
{
    a.number == b.number
        && a.digest.as_slice() == b.digest.as_slice()
        && a.lines == b.lines
        && a.accepted == b.accepted
}

/// A digest of 32 bytes.
fn digest_in(bytes: &[u8]) -> Option<[u8; 32]>
    ensures { result ≡ digest_in bytes.now }
{
    if bytes.len() != 32 {
        return None;
    }
    let mut digest = [0; 32];
    digest.copy_from_slice(bytes);
    digest_is_32_bytes(&digest);
    Some(digest)
}

/// The listed lines of a row, at most 500.
#[tactic(auto, unfolding(crate::specs::Loaded::listed_words))]
fn listed_in(alloc: Global, text: &[u8]) -> Result<Option<Listed>, Memory>
    ensures value { IfOk result (λ found. found ≡ listed_words text.now) }
    ensures few { IfOk result (λ found. IfSome found (λ listed. length listed ≤ MOST_LISTED)) }
{
    let mut listed = Vec::new(alloc);
    for word in words_of(text) {
        let Some(line) = listed_word(word) else {
            return Ok(None);
        };
        if listed.len() == MOST_LISTED {
            return Ok(None);
        }
        listed.push(line)?;
    }
    Ok(Some(Listed::from_vec(listed)))
}

/// The rules of the lines that are not listed, each with the count of its lines, at most 120,000 of
/// all.
#[tactic(auto, unfolding(crate::specs::Loaded::rest_words))]
fn rest_in(alloc: Global, text: &[u8]) -> Result<Option<Rest>, Memory>
    ensures value { IfOk result (λ found. found ≡ rest_words text.now) }
    ensures few { IfOk result (λ found. IfSome found (λ rest. sum_by count_of rest ≤ MOST_LINES)) }
{
    let mut rest = Vec::new(alloc);
    let mut total = 0;
    for word in words_of(text) {
        let Some(counted) = rest_word(word) else {
            return Ok(None);
        };
        total += counted.count;
        if total > MOST_LINES {
            return Ok(None);
        }
        rest.push(counted)?;
    }
    Ok(Some(Rest::from_vec(rest)))
}

/// How many lines were refused.
fn refused_lines(listed: &[ListedLine], rest: &[RestRule]) -> u32
    requires listed { length listed.now ≤ MOST_LISTED }
    requires rest { sum_by count_of rest.now ≤ MOST_LINES }
    ensures { result ≡ length listed.now + sum_by count_of rest.now }
{
    let mut total = listed.len() as u32;
    for counted in rest {
        total += counted.count;
    }
    total
}

/// Whether the lists of a reply rise and are in their ranges, and it has no more lines than the body.
#[tactic(auto, unfolding(crate::specs::Loaded::fits_reply))]
fn fits_reply(reply: &LoadReply) -> bool
    ensures { result ≡ fits_reply reply.now }
{
    let listed = reply.listed.as_slice();
    let rest = reply.rest.as_slice();
    do_lines_rise(listed)
        && are_lines_of(reply.lines, listed)
        && (rest.is_empty() || listed.len() == MOST_LISTED)
        && do_rules_rise(rest)
        && are_counted(rest)
        && u64::from(reply.accepted) + u64::from(reply.refused) <= u64::from(reply.lines)
}

fn do_lines_rise(listed: &[ListedLine]) -> bool
    ensures { result ≡ rises listed_rank listed.now }
{
    let Some((first, rest)) = listed.split_first() else {
        return true;
    };
    let mut before = first;
    for line in rest {
        if before.line >= line.line {
            return false;
        }
        before = line;
    }
    true
}

/// Whether all listed lines are lines of the body.
#[tactic(auto, using(crate::proofs::Loaded::known_rule))]
fn are_lines_of(lines: u32, listed: &[ListedLine]) -> bool
    ensures { result ≡ list_all (is_listed lines) listed.now }
{
    for line in listed {
        if line.line < 1 || lines < line.line {
            return false;
        }
    }
    true
}

fn do_rules_rise(rest: &[RestRule]) -> bool
    ensures { result ≡ rises rest_rank rest.now }
{
    let Some((first, others)) = rest.split_first() else {
        return true;
    };
    let mut before = first;
    for counted in others {
        if before.rule.number() >= counted.rule.number() {
            return false;
        }
        before = counted;
    }
    true
}

/// Whether each rule has a line.
#[tactic(auto, using(crate::proofs::Loaded::known_rule))]
fn are_counted(rest: &[RestRule]) -> bool
    ensures { result ≡ list_all is_rest rest.now }
{
    for counted in rest {
        if counted.count < 1 {
            return false;
        }
    }
    true
}
