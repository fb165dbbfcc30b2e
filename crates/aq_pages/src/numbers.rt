//! The numbers of a sheet, and the scale by which they are drawn.
ghost use Rattle.std.specs.Prelude.{◌≡◌, ◌≤◌, ◌<◌, ◌^◌, IfSome, is_some};
ghost use Rattle.aq_pages.specs.Numbers.{greatest, has_number, number_at, number_in, scaled, word_at};

use crate::sheet::Line;
use aq_base::Bytes;
use aq_num::read_decimal;

/// The number that a word says, in thousandths, if it says one. What is below 0 is drawn as 0.
#[tactic(auto, unfolding(crate::specs::Numbers::number_in))]
fn number_in(word: &[u8]) -> Option<u32>
    ensures number { result ≡ number_in word.now }
    ensures within { IfSome result (λ n. n ≤ 999999999) }
{
    match read_decimal(word, 3) {
        Ok(number) => Some(if number < 0 { 0 } else { number.unsigned_abs() }),
        Err(_) => None,
    }
}

/// Whether a word says a number.
pub fn is_number(word: &[u8]) -> bool
    ensures { result ≡ is_some (number_in word.now) }
{
    number_in(word).is_some()
}

/// A word of a line by its place from 0, empty if the line has none.
#[tactic(auto, unfolding(crate::specs::Numbers::word_at))]
pub(crate) fn word_at(place: usize, line: &[Bytes]) -> &[u8]
    ensures { result.now ≡ word_at place line.now }
{
    match line.get(place) {
        Some(word) => word.as_slice(),
        None => b"",
    }
}

/// The number at a place of a line.
pub(crate) fn number_at(place: usize, line: &[Bytes]) -> Option<u32>
    ensures number { result ≡ number_at place line.now }
    ensures within { IfSome result (λ n. n ≤ 999999999) }
{
    number_in(word_at(place, line))
}

/// Whether some line has a number at a place.
pub(crate) fn has_number(place: usize, lines: &[Line]) -> bool
    ensures { result ≡ has_number place lines.now }
{
    for line in lines {
        if number_at(place, line.as_slice()).is_some() {
            return true;
        }
    }
    false
}

/// The greatest of the numbers at a place of some lines, and of one more.
#[tactic(auto, unfolding(crate::specs::Numbers::greatest))]
pub(crate) fn greatest(place: usize, first: u32, lines: &[Line]) -> u32
    requires { first ≤ 999999999 }
    ensures greatest { result ≡ greatest place first lines.now }
    ensures from { first ≤ result }
    ensures within { result ≤ 999999999 }
{
    let mut top = first;
    for line in lines {
        top = top.max(number_at(place, line.as_slice()).unwrap_or(0));
    }
    top
}

/// How far from the start of a span stands a number, if the span stands for those from 0 to `top`.
#[tactic(auto, using(crate::proofs::Scales::scaled_small), unfolding(crate::specs::Numbers::scaled))]
pub(crate) fn scaled(top: u32, span: u16, number: u32) -> u64
    requires { 0 < top }
    ensures place { result ≡ scaled top span number }
    ensures small { result < 2 ^ 48 }
{
    u64::from(number) * u64::from(span) / u64::from(top)
}
