ghost use Rattle.std.specs.Prelude.{◌≡◌, ◌≤◌, ◌<◌, [], ◌∷◌, length, MatchOption, IfSome, position, count_by, ◌==◌};
ghost use Rattle.aq_rules.specs.Lines.Lines as lines;
ghost use Rattle.aq_rules.specs.Lines.Lines.{body_lines, line_count, cut_at_ends, without_mark};

use aq_base::MOST_BYTES;
use memchr::memchr;
use std::marker::Model;

// So many bytes, a multiple of 16, are counted at once.
const PIECE: usize = 240;

// The byte order mark of UTF-8.
const MARK: [u8; 3] = [0xEF, 0xBB, 0xBF];

/// A line of a body: its number from 1, skipped lines counted, and its bytes without its end.
#[derive(Clone, Copy, Debug, PartialEq, Eq)]
pub struct BodyLine<'a> {
    pub number: u32,
    pub text: &'a [u8],
}

/// The lines of a body, in order. Blank lines and comments are counted and left out. Contracts see
/// the list of the lines that are left.
#[derive(Drop)]
pub struct Lines<'a> {
    rest: &'a [u8],
    // The lines before `rest`.
    before: u32,
}

impl<'a> Model for Lines<'a> {
    ghost use Rattle.std.specs.Prelude.{◌+◌, ◌≤◌, List, length};
    ghost use Rattle.aq_rules.specs.Lines.Lines.{NumberedLine};
    ghost use Rattle.aq_forms.specs.BodyLines.{lines_behind};
    ghost use Rattle.aq_base.specs.declared.limits.TheConstants.{MOST_BYTES};

    ghost Value = { List NumberedLine };

    ghost view = { λ lines. lines_behind lines.before lines.rest.now };

    ghost invariant = { λ lines. lines.before + length lines.rest.now ≤ MOST_BYTES };
}

impl<'a> Iterator for Lines<'a> {
    type Item = BodyLine<'a>;

    ghost use Rattle.std.specs.Iterator.{YieldsFirstBy, item_count};
    ghost use Rattle.aq_forms.specs.BodyLines.{line_of};

    ghost next_gives = { YieldsFirstBy line_of (λ left. left) };

    ghost remaining = { item_count (λ left. left) };

    fn next(&mut self) -> Option<BodyLine<'a>> {
        while let Some((line, rest)) = cut_line(self.rest) {
            self.rest = rest;
            self.before += 1;
            let text = without_return(line);
            if !is_skipped(text) {
                return Some(BodyLine {
                    number: self.before,
                    text,
                });
            }
        }
        None
    }
}

/// The lines of a load's body that are not skipped. A byte order mark before them is dropped, and
/// one CR at the end of each line.
#[tactic(auto, using(crate::proofs::Cuts::kept_lines, crate::proofs::Cuts::few_lines))]
pub fn lines_of(body: &[u8]) -> Lines<'_>
    requires { length body.now ≤ MOST_BYTES }
    ensures lines { result ≡ body_lines body.now }
    ensures kept { length result ≤ line_count body.now }
    ensures few { length result ≤ length body.now }
{
    Lines {
        rest: without_mark(body),
        before: 0,
    }
}

/// The number of a load's lines, skipped ones among them: its LF bytes, and one more if bytes
/// follow the last.
#[tactic(auto, using(crate::proofs::Cuts::lines_are_counted))]
pub fn count_lines(body: &[u8]) -> u32
    requires { length body.now ≤ MOST_BYTES }
    ensures { result ≡ line_count body.now }
{
    let rest = without_mark(body);
    let ends = count_ends(rest);
    match rest.last() {
        Some(last) => ends + u32::from(*last != b'\n'),
        None => ends,
    }
}

// The number of LF bytes, piece by piece.
fn count_ends(bytes: &[u8]) -> u32
    requires { length bytes.now ≤ MOST_BYTES }
    ensures { result ≡ count_by (λ byte. byte == 10) bytes.now }
{
    let mut ends = 0;
    let mut rest = bytes;
    while !rest.is_empty() {
        let (piece, behind) = rest.split_at(rest.len().min(PIECE));
        ends += u32::from(ends_in(piece));
        rest = behind;
    }
    ends
}

// The number of LF bytes in a piece. It fits a byte and no step branches, so that many bytes are
// counted at once.
fn ends_in(piece: &[u8]) -> u8
    requires { length piece.now ≤ PIECE }
    ensures { result ≡ count_by (λ byte. byte == 10) piece.now }
{
    let mut ends = 0;
    for byte in piece {
        ends += u8::from(*byte == b'\n');
    }
    ends
}

// What stands after the byte order mark, if the body begins with it.
fn without_mark(body: &[u8]) -> &[u8]
    ensures value { result.now ≡ lines.without_mark body.now }
    ensures few { length result.now ≤ length body.now }
{
    body.strip_prefix(&MARK).unwrap_or(body)
}

// The first line without its LF, and what follows, if any byte is left.
#[tactic(auto, using(crate::proofs::Cuts::cut_at_some, crate::proofs::Cuts::cut_at_none, std::proofs::lemmas::List::take_rest))]
fn cut_line(rest: &[u8]) -> Option<(&[u8], &[u8])>
    ensures cut { MatchOption result (rest.now ≡ []) (λ parts. cut_at_ends rest.now ≡ parts.0.now ∷ cut_at_ends parts.1.now) }
    ensures shorter { IfSome result (λ parts. length parts.1.now < length rest.now) }
{
    if rest.is_empty() {
        return None;
    }
    match first_end(rest) {
        Some(end) => Some((&rest[..end], &rest[end + 1..])),
        None => Some((rest, &[])),
    }
}

// The place of the first LF.
#[tactic(auto, using(crate::proofs::Cuts::first_place))]
fn first_end(rest: &[u8]) -> Option<usize>
    ensures { result ≡ position (λ byte. byte == 10) rest.now }
{
    memchr(b'\n', rest)
}

#[tactic(auto, using(crate::proofs::Cuts::without_last))]
fn without_return(line: &[u8]) -> &[u8]
    ensures { result.now ≡ lines.without_return line.now }
{
    line.strip_suffix(b"\r").unwrap_or(line)
}

// Whether a line has no byte but spaces, or its first other byte is `#`.
#[tactic(auto, using(crate::proofs::Cuts::skips_more, crate::proofs::Cuts::skips_all))]
fn is_skipped(text: &[u8]) -> bool
    ensures { result ≡ lines.is_skipped text.now }
{
    for byte in text {
        if *byte != b' ' {
            return *byte == b'#';
        }
    }
    true
}
