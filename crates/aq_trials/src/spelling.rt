//! How bytes that a line cannot hold are spelled.
use crate::trouble::Trouble;
use aq_base::Memory;
use std::alloc::{AllocError, Global};

/// What stands before the next byte.
#[derive(Clone, Copy)]
enum Before {
    Nothing,
    /// A backslash.
    Escape,
    /// `\x`, and the first digit after it.
    Hex,
    HexDigit(u8),
}

const NO_ESCAPE: Trouble = Trouble::Wrong("no such escape");

/// Appends the bytes of a line, and LF unless a backslash ends it. `\r`, `\n`, `\t` and `\\` are CR, LF, a
/// tab and a backslash, and `\x0a` is the byte of two hex digits.
pub fn write_line(line: &[u8], out: &mut Vec<u8>) -> Result<(), Trouble> {
    let mut before = Before::Nothing;
    for byte in line {
        before = write_byte(before, *byte, out)?;
    }
    match before {
        Before::Nothing => Ok(out.push(b'\n')?),
        Before::Escape => Ok(()),
        _ => Err(NO_ESCAPE),
    }
}

/// Appends what a byte says after what stands before it.
fn write_byte(before: Before, byte: u8, out: &mut Vec<u8>) -> Result<Before, Trouble> {
    match read_byte(before, byte) {
        Some((before, None)) => Ok(before),
        Some((before, Some(said))) => {
            out.push(said)?;
            Ok(before)
        }
        None => Err(NO_ESCAPE),
    }
}

/// What stands before the next byte, and the byte that is said.
fn read_byte(before: Before, byte: u8) -> Option<(Before, Option<u8>)> {
    match before {
        Before::Nothing if byte == b'\\' => Some((Before::Escape, None)),
        Before::Nothing => Some((Before::Nothing, Some(byte))),
        Before::Escape if byte == b'x' => Some((Before::Hex, None)),
        Before::Escape => Some((Before::Nothing, Some(escaped(byte)?))),
        Before::Hex => Some((Before::HexDigit(hex_digit(byte)?), None)),
        Before::HexDigit(first) => {
            let second = hex_digit(byte)?;
            Some((Before::Nothing, Some(first.wrapping_mul(16) | second)))
        }
    }
}

/// The byte that a letter says after a backslash.
fn escaped(byte: u8) -> Option<u8> {
    match byte {
        b'r' => Some(b'\r'),
        b'n' => Some(b'\n'),
        b't' => Some(b'\t'),
        b'\\' => Some(b'\\'),
        _ => None,
    }
}

/// The number of a hex digit.
fn hex_digit(byte: u8) -> Option<u8> {
    match byte {
        b'0'..=b'9' => Some(byte - b'0'),
        b'a'..=b'f' => Some(byte - b'a' + 10),
        _ => None,
    }
}

/// Bytes as they are spelled in a line, without its end.
pub fn spelling_of(alloc: Global, bytes: &[u8]) -> Result<String, Memory> {
    let mut text = String::new(alloc);
    for byte in bytes {
        add_spelled(&mut text, *byte)?;
    }
    Ok(text)
}

fn add_spelled(text: &mut String, byte: u8) -> Result<(), AllocError> {
    match byte {
        b'\r' => text.push_str("\\r"),
        b'\n' => text.push_str("\\n"),
        b'\t' => text.push_str("\\t"),
        b'\\' => text.push_str("\\\\"),
        b' '..=b'~' => text.push(char::from(byte)),
        _ => add_hex(text, byte),
    }
}

fn add_hex(text: &mut String, byte: u8) -> Result<(), AllocError> {
    text.push_str("\\x")?;
    text.push(digit_of(byte / 16))?;
    text.push(digit_of(byte % 16))
}

/// The hex digit of a number below 16.
fn digit_of(number: u8) -> char {
    if number < 10 {
        char::from(number.wrapping_add(b'0'))
    } else {
        char::from(number.wrapping_add(b'a' - 10))
    }
}
