//! The spelling of each field: what RD lines, office lines and words share, and what RD lines alone have.
ghost use Rattle.std.specs.Prelude.{◌≡◌, true, ◌≤◌, ◌<◌, take, drop, IfSome, IfOk, Some, ◌≤ℤ◌};
ghost use Rattle.std.specs.Int.{IsInRange};
ghost use Rattle.aq_base.specs.Values.{least_value, greatest_value};
ghost use Rattle.aq_rules.specs.Lines.Spellings.{site_in, parameter_in, poc_in, duration_in, unit_in, method_in, date_in, year_in, time_in, truth_in, null_in, qualifier_in, qualifiers_in, is_code_byte};
ghost use Rattle.aq_rules.specs.Lines.RdForm.{qualifier_fields};
ghost use Rattle.aq_rd.specs.RdReading.{value_reading};
ghost use Rattle.aq_rules.specs.Questions.Spelling.{date_of};

use crate::digits::{digits_in, number};
use crate::fields::Fields;
use aq_base::{Code, Day, Duration, FIRST_YEAR, LAST_YEAR, Pollutant, Quals, Rule, SiteId};
use aq_cal::day_of;
use aq_num::{NumberFault, read_decimal};

/// The least value of each pollutant, in thousandths of a ppm or tenths of a µg/m3.
const LEAST_VALUE: i32 = -999;

/// A site: state, county and site number in two, three and four digits.
#[tactic(auto, unfolding(aq_rules::specs::Lines::Spellings::site_in))]
pub fn site_in(state: &[u8], county: &[u8], number: &[u8]) -> Option<SiteId>
    ensures { result ≡ site_in state.now county.now number.now }
{
    let state = digits_in(2, state)?;
    let county = digits_in(3, county)?;
    let number = digits_in(4, number)?;
    SiteId::new(state as u8, county as u16, number as u16)
}

/// The pollutant of a parameter.
pub fn parameter_in(text: &[u8]) -> Option<Pollutant>
    ensures { result ≡ parameter_in text.now }
{
    match text {
        b"44201" => Some(Pollutant::Ozone),
        b"88101" => Some(Pollutant::Pm25),
        b"81102" => Some(Pollutant::Pm10),
        _ => None,
    }
}

/// A POC: one or two digits, 1 to 99.
pub fn poc_in(text: &[u8]) -> Option<u8>
    ensures value { result ≡ poc_in text.now }
    ensures least { IfSome result (λ poc. 1 ≤ poc) }
    ensures most { IfSome result (λ poc. poc ≤ 99) }
{
    if text.len() > 2 {
        return None;
    }
    let number = number(text)?;
    if number >= 1 {
        Some(number as u8)
    } else {
        None
    }
}

/// A sample duration: `1` for an hour, and `7` for 24 hours, which ozone does not have.
pub fn duration_in(pollutant: Pollutant, text: &[u8]) -> Option<Duration>
    ensures { result ≡ duration_in pollutant text.now }
{
    match text {
        b"1" => Some(Duration::Hour),
        b"7" if pollutant != Pollutant::Ozone => Some(Duration::Day),
        _ => None,
    }
}

/// The places after the point at which a pollutant's values in a unit are cut.
pub(crate) fn unit_in(pollutant: Pollutant, text: &[u8]) -> Option<u8>
    ensures value { result ≡ unit_in pollutant text.now }
    ensures most { IfSome result (λ places. places ≤ 3) }
{
    match (pollutant, text) {
        (Pollutant::Ozone, b"007") => Some(3),
        (Pollutant::Ozone, b"008") => Some(0),
        (Pollutant::Pm25, b"105") => Some(1),
        (Pollutant::Pm10, b"001") => Some(1),
        _ => None,
    }
}

/// A method code of three digits.
pub(crate) fn method_in(text: &[u8]) -> Option<u16>
    ensures value { result ≡ method_in text.now }
    ensures most { IfSome result (λ method. method ≤ 999) }
{
    let number = digits_in(3, text)?;
    Some(number as u16)
}

/// A date of the profile as `YYYYMMDD`.
pub fn date_in(text: &[u8]) -> Option<Day>
    ensures { result ≡ date_in text.now }
{
    let (year, rest) = front(4, text);
    let (month, day) = front(2, rest);
    date_of(year, month, day)
}

/// A date of the profile by its year, month and day, of four, two and two digits.
#[tactic(auto, unfolding(aq_rules::specs::Questions::Spelling::date_of))]
pub(crate) fn date_of(year: &[u8], month: &[u8], day: &[u8]) -> Option<Day>
    ensures { result ≡ date_of year.now month.now day.now }
{
    let year = digits_in(4, year)?;
    let month = digits_in(2, month)?;
    let day = digits_in(2, day)?;
    day_of(year as u16, month as u8, day as u8)
}

/// A year of the profile, of four digits.
#[tactic(auto, unfolding(aq_rules::specs::Lines::Spellings::year_in))]
pub fn year_in(text: &[u8]) -> Option<u16>
    ensures value { result ≡ year_in text.now }
    ensures range { IfSome result (IsInRange FIRST_YEAR LAST_YEAR) }
{
    let year = digits_in(4, text)? as u16;
    if FIRST_YEAR <= year && year <= LAST_YEAR {
        Some(year)
    } else {
        None
    }
}

/// A full hour as `HH:00`.
#[tactic(auto, unfolding(aq_rules::specs::Lines::Spellings::time_in))]
pub fn time_in(text: &[u8]) -> Option<u8>
    ensures value { result ≡ time_in text.now }
    ensures most { IfSome result (λ hour. hour ≤ 23) }
{
    let (hour, minute) = front(2, text);
    let hour = digits_in(2, hour)?;
    if minute == b":00".as_slice() && hour <= 23 {
        Some(hour as u8)
    } else {
        None
    }
}

/// Yes or no, `Y` or `N`.
pub fn truth_in(text: &[u8]) -> Option<bool>
    ensures { result ≡ truth_in text.now }
{
    match text {
        b"Y" => Some(true),
        b"N" => Some(false),
        _ => None,
    }
}

/// The first so many bytes of a text, or all, and those after them.
pub(crate) fn front(count: usize, text: &[u8]) -> (&[u8], &[u8])
    ensures front { result.0.now ≡ take count text.now }
    ensures behind { result.1.now ≡ drop count text.now }
{
    text.split_at(text.len().min(count))
}

/// A sample value, cut at so many places. `BadValue` if the text is no decimal number, else
/// `ValueOutOfRange` if the cut value is out of the pollutant's range.
#[tactic(auto, unfolding(aq_rules::specs::Lines::Spellings::value_in, crate::specs::RdReading::value_reading))]
pub(crate) fn value(pollutant: Pollutant, places: u8, text: &[u8]) -> Result<i32, Rule>
    requires { places ≤ 6 }
    ensures value { result ≡ value_reading pollutant places text.now }
    ensures range { IfOk result (λ v. (least_value ≤ℤ v) × (v ≤ℤ greatest_value pollutant)) }
{
    match read_decimal(text, places) {
        Ok(value) if LEAST_VALUE <= value && value <= greatest(pollutant) => Ok(value),
        Err(NumberFault::Spelling) => Err(Rule::BadValue),
        _ => Err(Rule::ValueOutOfRange),
    }
}

/// The greatest value of a pollutant, in thousandths of a ppm or tenths of a µg/m3.
fn greatest(pollutant: Pollutant) -> i32
    ensures { result ≡ greatest_value pollutant }
{
    match pollutant {
        Pollutant::Ozone => 9_999,
        Pollutant::Pm25 | Pollutant::Pm10 => 99_999,
    }
}

/// A null data code, of two characters.
pub fn null_in(text: &[u8]) -> Option<Code>
    ensures { result ≡ null_in text.now }
{
    match text {
        &[first, second] if is_code_byte(first) && is_code_byte(second) => {
            Some(Code { first, second })
        }
        _ => None,
    }
}

/// A qualifier code, of one character or two.
pub fn qualifier_in(text: &[u8]) -> Option<Code>
    ensures { result ≡ qualifier_in text.now }
{
    match text {
        &[first] if is_code_byte(first) => Some(Code { first, second: 0 }),
        _ => null_in(text),
    }
}

/// A letter or a digit, as codes have them.
pub fn is_code_byte(byte: u8) -> bool
    ensures { result ≡ is_code_byte byte }
{
    byte.is_ascii_uppercase() || byte.is_ascii_digit()
}

/// The codes of the qualifier fields. An empty field is passed over, and a code that came before is
/// dropped.
pub(crate) fn qualifiers(texts: &Fields<'_>) -> Option<Quals>
    ensures { result ≡ qualifiers_in (qualifier_fields texts.now) }
{
    let mut quals = Quals::new();
    for number in 17..texts.count().min(26) + 1 {
        let text = texts.field(number);
        if !text.is_empty() {
            quals.add(qualifier_in(text)?);
        }
    }
    Some(quals)
}
