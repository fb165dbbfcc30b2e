//! Numbers of digits alone.
ghost use Rattle.std.specs.Prelude.{◌≡◌, ◌≤◌, ◌<◌, ◌^◌, ◌&&◌, nat_lt, length, IfSome, if◌then◌else◌, Some, None};
ghost use Rattle.std.specs.Str.Parse.{digits_value};
ghost use Rattle.aq_base.specs.Decimal.{are_digits};
ghost use Rattle.aq_rules.specs.Lines.Spellings.{digits_in};
ghost use Rattle.aq_rules.specs.Questions.Spelling.{number_to};

/// A number of exactly so many digits, at most eight.
pub fn digits_in(width: usize, text: &[u8]) -> Option<u32>
    requires { width ≤ 8 }
    ensures value { result ≡ digits_in width text.now }
    ensures small { IfSome result (λ n. n < 10 ^ width) }
{
    if text.len() == width {
        number(text)
    } else {
        None
    }
}

/// The number that at most eight digits write. Another byte than a digit is refused, and a text of
/// no bytes is 0.
pub(crate) fn number(text: &[u8]) -> Option<u32>
    requires { length text.now ≤ 8 }
    ensures value { result ≡ (if are_digits text.now then Some (digits_value 10 text.now) else None) }
    ensures small { IfSome result (λ n. n < 10 ^ length text.now) }
{
    let mut number = 0;
    for digit in text {
        if !digit.is_ascii_digit() {
            return None;
        }
        number = 10 * number + u32::from(*digit - b'0');
    }
    Some(number)
}

/// A number from 1 to a last one, of digits without a leading zero.
pub fn number_to(last: u64, text: &[u8]) -> Option<u64>
    ensures value { result ≡ number_to last text.now }
    ensures least { IfSome result (λ n. 1 ≤ n) }
    ensures most { IfSome result (λ n. n ≤ last) }
{
    if text.first() == Some(&b'0') {
        return None;
    }
    let number = any_number(text)?;
    if 1 <= number && number <= last {
        Some(number)
    } else {
        None
    }
}

/// The number that digits write, if it has 64 bits. Another byte than a digit is refused, and a text
/// of no bytes is 0.
pub fn any_number(text: &[u8]) -> Option<u64>
    ensures { result ≡ (if are_digits text.now && nat_lt (digits_value 10 text.now) (2 ^ 64) then Some (digits_value 10 text.now) else None) }
{
    let mut number = 0u64;
    for digit in text {
        if !digit.is_ascii_digit() {
            return None;
        }
        let tens = number.checked_mul(10)?;
        number = tens.checked_add(u64::from(*digit - b'0'))?;
    }
    Some(number)
}
