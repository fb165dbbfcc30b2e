//! The levels of the standards, in words and in a picture.
ghost use Rattle.std.specs.Prelude.{◌≡◌, ◌≤◌, ◌<◌, ◌++◌, ◌^◌, OnOk};
ghost use Rattle.aq_pages.specs.Levels.{day_level, form_of, level_at, level_mark, level_or_zero, level_text, standard_in, standard_level, unit_words};

use crate::html::{write_line, write_text_start};
use aq_base::{Memory, Pollutant, Standard};
use aq_num::write_fixed;

/// A level beside which numbers are drawn.
#[derive(Clone, Copy)]
pub enum Level {
    /// That of a standard's design value.
    Of(Standard),
    /// That of a day of PM10, 150 µg/m3 (40 CFR 50.6).
    Pm10Day,
}

/// The level beside which the days of a pollutant are drawn.
pub(crate) fn day_level(pollutant: Pollutant) -> Level
    ensures { result ≡ day_level pollutant }
{
    match pollutant {
        Pollutant::Ozone => Level::Of(Standard::Ozone2015),
        Pollutant::Pm25 => Level::Of(Standard::Daily2006),
        Pollutant::Pm10 => Level::Pm10Day,
    }
}

/// The standard that has the level.
pub(crate) fn standard_in(level: Level) -> Standard
    ensures { result ≡ standard_in level }
{
    match level {
        Level::Of(standard) => standard,
        Level::Pm10Day => Standard::Pm10Of1987,
    }
}

/// What is held beside the level of a standard, in words.
#[tactic(auto, unfolding(crate::specs::Levels::form_of))]
pub(crate) fn words_of(standard: Standard) -> &'static str
    ensures { result.now ≡ (form_of standard).words }
{
    match standard {
        Standard::Ozone2015 => {
            "Ozone, mean of the three years' fourth highest daily 8-hour averages (40 CFR 50.19)"
        }
        Standard::Annual2012 => {
            "PM2.5, mean of three annual means, primary standard of 2012 (40 CFR 50.18)"
        }
        Standard::AnnualSecondary => {
            "PM2.5, mean of three annual means, secondary standard (40 CFR 50.13)"
        }
        Standard::Annual2024 => {
            "PM2.5, mean of three annual means, primary standard of 2024 (40 CFR 50.20)"
        }
        Standard::Daily2006 => {
            "PM2.5, mean of three years' 98th percentiles of 24-hour values (40 CFR 50.18)"
        }
        Standard::Pm10Of1987 => {
            "PM10, mean of three years' days expected above 150 &#181;g/m&#179; (40 CFR 50.6)"
        }
    }
}

/// The places that it and the level have.
#[tactic(auto, unfolding(crate::specs::Levels::form_of))]
fn places_of(standard: Standard) -> u8
    ensures places { result ≡ (form_of standard).places }
    ensures few { result ≤ 3 }
{
    match standard {
        Standard::Ozone2015 => 3,
        Standard::Daily2006 => 0,
        Standard::Annual2012
        | Standard::AnnualSecondary
        | Standard::Annual2024
        | Standard::Pm10Of1987 => 1,
    }
}

#[tactic(auto, unfolding(crate::specs::Levels::unit_words))]
fn unit_words(pollutant: Pollutant) -> &'static str
    ensures { result.now ≡ unit_words pollutant }
{
    match pollutant {
        Pollutant::Ozone => " ppm",
        Pollutant::Pm25 => " &#181;g/m&#179;",
        Pollutant::Pm10 => " days a year",
    }
}

/// The level of a standard's design value, in thousandths.
#[tactic(auto, unfolding(crate::specs::Levels::standard_level))]
fn standard_level(standard: Standard) -> u32
    ensures number { result ≡ standard_level standard }
    ensures within { result ≤ 999999999 }
{
    standard.level().unsigned_abs() * 10u32.pow(u32::from(3 - places_of(standard)))
}

/// A level in thousandths.
#[tactic(auto, unfolding(crate::specs::Levels::level_at))]
pub(crate) fn level_at(level: Level) -> u32
    ensures number { result ≡ level_at level }
    ensures within { result ≤ 999999999 }
{
    match level {
        Level::Of(standard) => standard_level(standard),
        Level::Pm10Day => 150_000,
    }
}

/// Appends a level in words.
#[tactic(auto, unfolding(crate::specs::Levels::level_text))]
pub(crate) fn write_level(out: &mut Vec<u8>, level: Level) -> Result<(), Memory>
    ensures { OnOk result (out.new.items ≡ out.old.items ++ level_text level) }
{
    match level {
        Level::Of(standard) => {
            out.extend_from_slice(b"Level: ")?;
            write_fixed(out, i64::from(standard.level()), places_of(standard))?;
            out.extend_from_slice(unit_words(standard.pollutant()).as_bytes())?;
            Ok(())
        }
        Level::Pm10Day => {
            out.extend_from_slice(b"Level: 150 &#181;g/m&#179;")?;
            Ok(())
        }
    }
}

/// A level in thousandths, and 0 if there is none.
pub(crate) fn level_or_zero(level: Option<Level>) -> u32
    ensures number { result ≡ level_or_zero level }
    ensures within { result ≤ 999999999 }
{
    match level {
        Some(level) => level_at(level),
        None => 0,
    }
}

/// Appends a line from one place to another, and above the picture the level in words.
#[tactic(auto, unfolding(crate::specs::Levels::level_mark))]
pub(crate) fn write_level_mark(
    out: &mut Vec<u8>,
    level: Level,
    from: (u64, u64),
    to: (u64, u64),
) -> Result<(), Memory>
    requires from { (from.0 < 2 ^ 63) × (from.1 < 2 ^ 63) }
    requires to { (to.0 < 2 ^ 63) × (to.1 < 2 ^ 63) }
    ensures { OnOk result (out.new.items ≡ out.old.items ++ level_mark level from to) }
{
    out.extend_from_slice(b"<g class=\"level\">")?;
    write_text_start(out, b"label", 20, 34)?;
    write_level(out, level)?;
    out.extend_from_slice(b"</text>")?;
    write_line(out, from, to)?;
    out.extend_from_slice(b"</g>\n")?;
    Ok(())
}
