//! Reading a decimal text.
ghost use Rattle.std.specs.Prelude.{◌≡◌, ℕ, ◌≤◌, ◌<◌, ◌+◌, ◌-◌, ◌*◌, ◌↔◌, min, Bool, false, IsTrue, IfOk, OnOk, unsigned_abs, Err, Some};
ghost use Rattle.aq_base.specs.Decimal.{is_decimal, cut_magnitude, cut, is_minus, unsigned_part};
ghost use Rattle.aq_num.specs.DecimalIn.{decimal_in};
ghost use Rattle.aq_num.specs.Magnitude.{magnitude_in};
ghost use Rattle.aq_num.specs.Faults.{fault_text};

use std::error::Error;
use std::fmt;

/// The greatest magnitude that is read, in units of 10^-places (own).
const LARGEST: u64 = 999_999_999;

const PAST_LARGEST: u64 = LARGEST + 1;

/// Why a text is not read as a number.
#[derive(Clone, Copy, Debug, PartialEq, Eq)]
pub enum NumberFault {
    /// It is no decimal text.
    Spelling,
    /// Its magnitude is above the greatest that is read.
    TooLarge,
}

impl fmt::Display for NumberFault {
    ghost output = { λ fault. Some (fault_text fault) };

    fn fmt<W: fmt::Write>(&self, f: &mut fmt::Formatter<W>) -> fmt::Result {
        f.write_str(match self {
            NumberFault::Spelling => "not a decimal number",
            NumberFault::TooLarge => "a number that is too large",
        })
    }
}

impl Error for NumberFault {}

/// Reads a decimal text: an optional sign and then digits with an optional point and optional
/// further digits, or a point and digits. Ok is its number in units of 10^-places, truncated toward
/// zero: `-0.05` at one place is 0. A text may be of any length. Refused are other texts, and numbers
/// above 999,999,999 units.
pub fn read_decimal(text: &[u8], places: u8) -> Result<i32, NumberFault>
    requires { places ≤ 6 }
    ensures value { result ≡ decimal_in text.now places }
    ensures spelling { (result ≡ Err NumberFault.Spelling) ↔ (is_decimal text.now ≡ false) }
    ensures too_large { (result ≡ Err NumberFault.TooLarge)
        ↔ (IsTrue (is_decimal text.now) × (999999999 < cut_magnitude text.now places)) }
    ensures decimal { OnOk result (IsTrue (is_decimal text.now)) }
    ensures number { IfOk result (λ number. number ≡ cut text.now places) }
    ensures within { IfOk result (λ number. unsigned_abs number ≤ 999999999) }
{
    let (is_minus, digits) = split_sign(text);
    let Some(magnitude) = read_magnitude(digits, places) else {
        return Err(NumberFault::Spelling);
    };
    if magnitude > LARGEST {
        return Err(NumberFault::TooLarge);
    }
    let magnitude = magnitude as i32;
    Ok(if is_minus { -magnitude } else { magnitude })
}

/// Whether a minus stands first, and what follows the sign.
fn split_sign(text: &[u8]) -> (bool, &[u8])
    ensures minus { result.0 ≡ is_minus text.now }
    ensures rest { result.1.now ≡ unsigned_part text.now }
{
    match text {
        [b'-', rest @ ..] => (true, rest),
        [b'+', rest @ ..] => (false, rest),
        _ => (false, text),
    }
}

/// The magnitude of a decimal text without its sign, or one past the largest if it is above
/// that. None if the text has another form.
fn read_magnitude(digits: &[u8], places: u8) -> Option<u64>
    requires { places ≤ 6 }
    ensures { result ≡ magnitude_in digits.now places }
{
    let mut magnitude = 0;
    let mut missing = places;
    let mut is_behind = false;
    let mut has_digit = false;
    for &byte in digits {
        if byte.is_ascii_digit() {
            has_digit = true;
            if !is_behind {
                magnitude = with_digit(magnitude, byte);
            } else if missing > 0 {
                magnitude = with_digit(magnitude, byte);
                missing -= 1;
            }
        } else if byte == b'.' && !is_behind {
            is_behind = true;
        } else {
            return None;
        }
    }
    if has_digit {
        Some((magnitude * 10u64.pow(u32::from(missing))).min(PAST_LARGEST))
    } else {
        None
    }
}

/// A magnitude with one more digit after it. Past the largest it stays there.
fn with_digit(magnitude: u64, digit: u8) -> u64
    requires small { magnitude ≤ PAST_LARGEST }
    requires from { 48 ≤ digit }
    requires to { digit ≤ 57 }
    ensures { result ≡ min (magnitude * 10 + (digit - 48)) PAST_LARGEST }
{
    (magnitude * 10 + u64::from(digit - b'0')).min(PAST_LARGEST)
}
