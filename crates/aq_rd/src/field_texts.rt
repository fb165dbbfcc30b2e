//! Writing the fields that RD lines and office lines share. After want of memory a text is as before.
ghost use Rattle.std.specs.Prelude.{◌≡◌, ◌++◌, ◌∷◌, OnOk, OnErr};
ghost use Rattle.aq_rules.specs.Lines.Canonical.{start_texts, date_text, code_text, parameter_text, duration_text};
ghost use Rattle.aq_rd.specs.Printing.{behind_bars};

use aq_base::{Code, Day, Duration, Hour, Memory, Pollutant};
use aq_cal::{civil_of, last_digits};

/// Appends a field after a bar.
pub fn write_field(out: &mut Vec<u8>, text: &[u8]) -> Result<(), Memory>
    ensures written { OnOk result (out.new.items ≡ out.old.items ++ 124 ∷ text.now) }
    ensures unchanged { OnErr result (out.new.items ≡ out.old.items) }
{
    out.reserve(text.len() + 1)?;
    out.push(b'|')?;
    out.extend_from_slice(text)?;
    Ok(())
}

/// Appends the date and the time of an hour, each after a bar.
pub fn write_start(out: &mut Vec<u8>, hour: Hour) -> Result<(), Memory>
    ensures written { OnOk result (out.new.items ≡ out.old.items ++ behind_bars (start_texts hour)) }
    ensures unchanged { OnErr result (out.new.items ≡ out.old.items) }
{
    write_field(out, &start_digits(hour))
}

/// Appends a date as `YYYYMMDD`, after a bar.
pub fn write_date(out: &mut Vec<u8>, day: Day) -> Result<(), Memory>
    ensures written { OnOk result (out.new.items ≡ out.old.items ++ 124 ∷ date_text day) }
    ensures unchanged { OnErr result (out.new.items ≡ out.old.items) }
{
    write_field(out, &date_digits(day))
}

/// Appends a null or qualifier code.
pub fn write_code(out: &mut Vec<u8>, code: &Code) -> Result<(), Memory>
    ensures written { OnOk result (out.new.items ≡ out.old.items ++ code_text code.now) }
    ensures unchanged { OnErr result (out.new.items ≡ out.old.items) }
{
    if code.second == 0 {
        out.push(code.first)?;
    } else {
        out.extend_from_slice(&[code.first, code.second])?;
    }
    Ok(())
}

// A date as `YYYYMMDD`.
fn date_digits(day: Day) -> [u8; 8]
    ensures { result ≡ date_text day }
{
    let date = civil_of(day);
    let [thousands, hundreds, tens, ones] = last_digits::<4>(date.year);
    let [month_tens, month_ones] = last_digits::<2>(u16::from(date.month));
    let [day_tens, day_ones] = last_digits::<2>(u16::from(date.day));
    [
        thousands, hundreds, tens, ones, month_tens, month_ones, day_tens, day_ones,
    ]
}

// The date and the time of an hour, with a bar between them.
#[tactic(auto, unfolding(aq_base::specs::Decimal::last_digits))]
fn start_digits(hour: Hour) -> [u8; 14]
    ensures { 124 ∷ result ≡ behind_bars (start_texts hour) }
{
    let number = hour.number();
    let date = date_digits(Day::new((number / 24) as u16));
    let [
        thousands,
        hundreds,
        tens,
        ones,
        month_tens,
        month_ones,
        day_tens,
        day_ones,
    ] = date;
    let [hour_tens, hour_ones] = last_digits::<2>((number % 24) as u16);
    [
        thousands, hundreds, tens, ones, month_tens, month_ones, day_tens, day_ones, b'|',
        hour_tens, hour_ones, b':', b'0', b'0',
    ]
}

/// The parameter of a pollutant.
pub fn parameter_name(pollutant: Pollutant) -> &'static [u8]
    ensures { result.now ≡ parameter_text pollutant }
{
    match pollutant {
        Pollutant::Ozone => b"44201",
        Pollutant::Pm25 => b"88101",
        Pollutant::Pm10 => b"81102",
    }
}

/// A sample duration: `1` for an hour, and `7` for 24 hours.
pub fn duration_name(duration: Duration) -> &'static [u8]
    ensures { result.now ≡ duration_text duration }
{
    match duration {
        Duration::Hour => b"1",
        Duration::Day => b"7",
    }
}
