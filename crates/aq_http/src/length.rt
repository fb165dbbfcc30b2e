//! The length of a request's body.
ghost use Rattle.std.specs.Prelude.{◌≡◌, ◌≤◌, List, [], ◌∷◌, ◌++◌, length, map, codes, All, IfOk, IfSome};
ghost use Rattle.std.specs.Option.{option_map};
ghost use Rattle.httparse.specs.Spans.{IsHeaderWithin, header_bytes};
ghost use Rattle.http1.specs.Fields.{Header, values_named};
ghost use Rattle.aq_base.specs.Decimal.{are_digits};
ghost use Rattle.aq_rules.specs.Limits.{MOST_BYTES};
ghost use Rattle.aq_http.specs.Head.{body_or_refusal, has_origin, is_of_page};
ghost use Rattle.aq_http.specs.Length.{body_length, digits_of, is_number, length_in, no_length, number_in, stated_of, stated_onto, stated_with, without_zeros, Absent, IsStated, OnDigits};

use crate::verb::Verb;
use aq_base::MOST_BYTES;
use aq_rd::digits_in;
use http1::text::eq_ignore_case;
use httparse::spans::HeaderSpan;

/// A number above `MOST_BYTES` is sure to have more digits than these.
const MOST_DIGITS: usize = 7;

/// What the Content-Length headers come to.
#[derive(Clone, Copy, Debug, Drop)]
pub(crate) enum Stated<'a> {
    Absent,
    /// A value is no number, or two numbers differ.
    Unclear,
    /// The one number, in digits without leading zeros: it may have any size.
    Digits(&'a [u8]),
}

/// How many bytes a request's body has, or the status that refuses the request: 403 for a load that a page
/// in a browser sends, which may not write.
pub(crate) fn body_or_refusal(
    verb: Verb,
    input: &[u8],
    headers: &[HeaderSpan],
) -> Result<usize, u16>
    requires { All (IsHeaderWithin (length input.now)) headers.now }
    ensures value { result ≡ body_or_refusal verb (map (header_bytes input.now) headers.now) }
    ensures most { IfOk result (λ count. count ≤ MOST_BYTES) }
{
    if is_of_page(verb, input, headers) {
        return Err(403);
    }
    body_length(verb, input, headers)
}

/// Whether a page in a browser sends this request: it adds an Origin header to each POST.
fn is_of_page(verb: Verb, input: &[u8], headers: &[HeaderSpan]) -> bool
    requires { All (IsHeaderWithin (length input.now)) headers.now }
    ensures { result ≡ is_of_page verb (map (header_bytes input.now) headers.now) }
{
    match verb {
        Verb::Post => has_origin(input, headers),
        Verb::Get | Verb::Other => false,
    }
}

fn has_origin(input: &[u8], headers: &[HeaderSpan]) -> bool
    requires { All (IsHeaderWithin (length input.now)) headers.now }
    ensures { result ≡ has_origin (map (header_bytes input.now) headers.now) }
{
    for header in headers {
        if eq_ignore_case(header.name.of(input), b"origin") {
            return true;
        }
    }
    false
}

/// How many bytes a request's body has, or the status that refuses the request.
fn body_length(verb: Verb, input: &[u8], headers: &[HeaderSpan]) -> Result<usize, u16>
    requires { All (IsHeaderWithin (length input.now)) headers.now }
    ensures value { result ≡ body_length verb (values_named (codes "content-length") (map (header_bytes input.now) headers.now)) }
    ensures most { IfOk result (λ count. count ≤ MOST_BYTES) }
{
    length_in(verb, stated_length(input, headers))
}

fn length_in(verb: Verb, stated: Stated<'_>) -> Result<usize, u16>
    requires { OnDigits (stated_of stated) }
    ensures value { result ≡ length_in verb (stated_of stated.entry) }
    ensures most { IfOk result (λ count. count ≤ MOST_BYTES) }
{
    match stated {
        Stated::Absent => no_length(verb),
        Stated::Unclear => Err(400),
        Stated::Digits(digits) => number_in(digits),
    }
}

/// A body must have a length for POST, and is empty without one for another method.
fn no_length(verb: Verb) -> Result<usize, u16>
    ensures value { result ≡ no_length verb }
    ensures most { IfOk result (λ count. count ≤ MOST_BYTES) }
{
    match verb {
        Verb::Post => Err(411),
        Verb::Get | Verb::Other => Ok(0),
    }
}

fn stated_length<'a>(input: &'a [u8], headers: &[HeaderSpan]) -> Stated<'a>
    requires { All (IsHeaderWithin (length input.now)) headers.now }
    ensures value { stated_of result ≡ stated_onto Absent (values_named (codes "content-length") (map (header_bytes input.now) headers.now)) }
    ensures digits { OnDigits (stated_of result) }
{
    let mut stated = Stated::Absent;
    for header in headers {
        stated = with_header(stated, header.name.of(input), header.value.of(input));
    }
    stated
}

fn with_header<'a>(before: Stated<'a>, name: &[u8], value: &'a [u8]) -> Stated<'a>
    requires { OnDigits (stated_of before) }
    ensures value { (headers : List Header) → stated_of before.entry ≡ stated_onto Absent (values_named (codes "content-length") headers)
        → stated_of result ≡ stated_onto Absent (values_named (codes "content-length") (headers ++ (name.now, value.now) ∷ [])) }
    ensures digits { OnDigits (stated_of result) }
{
    if eq_ignore_case(name, b"content-length") {
        with_value(before, value)
    } else {
        before
    }
}

fn with_value<'a>(before: Stated<'a>, value: &'a [u8]) -> Stated<'a>
    requires { OnDigits (stated_of before) }
    ensures value { stated_of result ≡ stated_with (stated_of before.entry) value.now }
    ensures digits { OnDigits (stated_of result) }
{
    match (before, digits_of(value)) {
        (Stated::Absent, Some(digits)) => Stated::Digits(digits),
        (Stated::Digits(before), Some(digits)) if before == digits => Stated::Digits(before),
        _ => Stated::Unclear,
    }
}

/// The digits of a number without its leading zeros, if the text is one or more digits.
fn digits_of(text: &[u8]) -> Option<&[u8]>
    ensures value { option_map (λ digits. digits.now) result ≡ digits_of text.now }
    ensures digits { IfSome result (λ digits. IsStated digits.now) }
{
    if is_number(text) {
        Some(without_zeros(text))
    } else {
        None
    }
}

fn is_number(text: &[u8]) -> bool
    ensures { result ≡ is_number text.now }
{
    for byte in text {
        if !byte.is_ascii_digit() {
            return false;
        }
    }
    !text.is_empty()
}

fn without_zeros(mut text: &[u8]) -> &[u8]
    ensures { result.now ≡ without_zeros text.now }
{
    while let [b'0', rest @ ..] = text {
        text = rest;
    }
    text
}

/// The number of the digits, if a body may have so many bytes.
fn number_in(digits: &[u8]) -> Result<usize, u16>
    requires { IsStated digits.now }
    ensures value { result ≡ number_in digits.now }
    ensures most { IfOk result (λ count. count ≤ MOST_BYTES) }
{
    if digits.len() > MOST_DIGITS {
        return Err(413);
    }
    match digits_in(digits.len(), digits) {
        Some(number) if number as usize <= MOST_BYTES => Ok(number as usize),
        _ => Err(413),
    }
}
