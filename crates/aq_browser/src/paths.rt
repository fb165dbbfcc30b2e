//! The path of a question, as the server reads it.
ghost use Rattle.std.specs.Prelude.{◌≡◌, ◌++◌, [], ◌∷◌, OnOk, flat_map};
ghost use Rattle.aq_base.specs.Text.{site_text};
ghost use Rattle.aq_rules.specs.Lines.Canonical.{truth_text};
ghost use Rattle.aq_browser.specs.Paths.{after_slash, area_text, assumed_text, county_text, digits, further_assumed, further_site, list_text, path_of, quarters_texts, series_texts, site_texts, sites_text, standard_texts, whatif_texts, area_texts, year_text};

use aq_base::{Area, Assumed, Memory, Pollutant, Question, SiteId, Standard};
use aq_cal::{day_text, last_digits};
use aq_num::write_fixed;
use aq_rd::parameter_name;
use aq_sheets::site_text;
use std::alloc::Global;

/// Appends a whole number, in digits.
pub(crate) fn write_digits(out: &mut Vec<u8>, number: u32) -> Result<(), Memory>
    ensures { OnOk result (out.new.items ≡ out.old.items ++ digits number) }
{
    write_fixed(out, i64::from(number), 0)
}

/// A year, in four digits.
pub(crate) fn year_text(year: u16) -> [u8; 4]
    ensures { result ≡ year_text year }
{
    last_digits::<4>(year)
}

/// Appends a part of a path, behind a slash.
#[tactic(auto, unfolding(crate::specs::Paths::after_slash))]
fn write_part(out: &mut Vec<u8>, text: &[u8]) -> Result<(), Memory>
    ensures { OnOk result (out.new.items ≡ out.old.items ++ after_slash text.now) }
{
    out.push(b'/')?;
    out.extend_from_slice(text)?;
    Ok(())
}

fn truth_text(truth: bool) -> &'static [u8]
    ensures { result.now ≡ truth_text truth }
{
    if truth { b"Y" } else { b"N" }
}

fn write_assumed(out: &mut Vec<u8>, entry: &Assumed) -> Result<(), Memory>
    ensures { OnOk result (out.new.items ≡ out.old.items ++ assumed_text entry.now) }
{
    write_digits(out, entry.number)?;
    out.extend_from_slice(truth_text(entry.agreed))?;
    Ok(())
}

fn write_further_assumed(out: &mut Vec<u8>, entry: &Assumed) -> Result<(), Memory>
    ensures { OnOk result (out.new.items ≡ out.old.items ++ further_assumed entry.now) }
{
    out.push(b',')?;
    write_assumed(out, entry)
}

fn write_all_further_assumed(out: &mut Vec<u8>, entries: &[Assumed]) -> Result<(), Memory>
    ensures { OnOk result (out.new.items ≡ out.old.items ++ flat_map further_assumed entries.now) }
{
    for entry in entries {
        write_further_assumed(out, entry)?;
    }
    Ok(())
}

/// Appends assumed concurrences, with commas between them.
#[tactic(auto, unfolding(crate::specs::Paths::list_text))]
pub(crate) fn write_list(out: &mut Vec<u8>, entries: &[Assumed]) -> Result<(), Memory>
    ensures { OnOk result (out.new.items ≡ out.old.items ++ list_text entries.now) }
{
    match entries {
        [] => Ok(()),
        [entry, rest @ ..] => {
            write_assumed(out, entry)?;
            write_all_further_assumed(out, rest)
        }
    }
}

fn write_site(out: &mut Vec<u8>, site: SiteId) -> Result<(), Memory>
    ensures { OnOk result (out.new.items ≡ out.old.items ++ site_text site) }
{
    out.extend_from_slice(&site_text(site))?;
    Ok(())
}

fn write_further_site(out: &mut Vec<u8>, site: SiteId) -> Result<(), Memory>
    ensures { OnOk result (out.new.items ≡ out.old.items ++ further_site site) }
{
    out.push(b',')?;
    write_site(out, site)
}

fn write_all_further_sites(out: &mut Vec<u8>, sites: &[SiteId]) -> Result<(), Memory>
    ensures { OnOk result (out.new.items ≡ out.old.items ++ flat_map further_site sites.now) }
{
    for site in sites {
        write_further_site(out, *site)?;
    }
    Ok(())
}

#[tactic(auto, unfolding(crate::specs::Paths::sites_text))]
fn write_sites(out: &mut Vec<u8>, sites: &[SiteId]) -> Result<(), Memory>
    ensures { OnOk result (out.new.items ≡ out.old.items ++ sites_text sites.now) }
{
    match sites {
        [] => Ok(()),
        [site, rest @ ..] => {
            write_site(out, *site)?;
            write_all_further_sites(out, rest)
        }
    }
}

#[tactic(auto, unfolding(crate::specs::Paths::county_text))]
fn write_county(out: &mut Vec<u8>, state: u8, county: u16) -> Result<(), Memory>
    ensures { OnOk result (out.new.items ≡ out.old.items ++ county_text state county) }
{
    out.extend_from_slice(&last_digits::<2>(u16::from(state)))?;
    out.push(b'-')?;
    out.extend_from_slice(&last_digits::<3>(county))?;
    Ok(())
}

/// Appends an area: its county, or its sites with commas between them.
#[tactic(auto, unfolding(crate::specs::Paths::area_text))]
pub(crate) fn write_area(out: &mut Vec<u8>, area: &Area) -> Result<(), Memory>
    ensures { OnOk result (out.new.items ≡ out.old.items ++ area_text area.now) }
{
    match area {
        Area::County { state, county } => write_county(out, *state, *county),
        Area::Sites(sites) => write_sites(out, sites.as_slice()),
    }
}

// ---- paths of the same form

fn write_of_name(out: &mut Vec<u8>, name: &[u8]) -> Result<(), Memory>
    ensures { OnOk result (out.new.items ≡ out.old.items ++ flat_map after_slash (name.now ∷ [])) }
{
    write_part(out, name)
}

fn write_of_two(out: &mut Vec<u8>, name: &[u8], text: &[u8]) -> Result<(), Memory>
    ensures { OnOk result (out.new.items ≡ out.old.items ++ flat_map after_slash (name.now ∷ text.now ∷ [])) }
{
    write_part(out, name)?;
    write_part(out, text)
}

fn write_of_three(out: &mut Vec<u8>, name: &[u8], text: &[u8], last: &[u8]) -> Result<(), Memory>
    ensures { OnOk result (out.new.items ≡ out.old.items ++ flat_map after_slash (name.now ∷ text.now ∷ last.now ∷ [])) }
{
    write_part(out, name)?;
    write_part(out, text)?;
    write_part(out, last)
}

fn write_of_four(
    out: &mut Vec<u8>,
    name: &[u8],
    text: &[u8],
    more: &[u8],
    last: &[u8],
) -> Result<(), Memory>
    ensures { OnOk result (out.new.items ≡ out.old.items ++ flat_map after_slash (name.now ∷ text.now ∷ more.now ∷ last.now ∷ [])) }
{
    write_part(out, name)?;
    write_part(out, text)?;
    write_part(out, more)?;
    write_part(out, last)
}

/// Appends the path of a standard, a site and a year.
fn write_of_standard(
    out: &mut Vec<u8>,
    name: &[u8],
    standard: Standard,
    site: SiteId,
    year: u16,
) -> Result<(), Memory>
    ensures { OnOk result (out.new.items ≡ out.old.items ++ flat_map after_slash (standard_texts name.now standard site year)) }
{
    write_of_four(
        out,
        name,
        standard.name().as_bytes(),
        &site_text(site),
        &year_text(year),
    )
}

/// Appends the path of a site, a parameter and a year.
fn write_of_series(
    out: &mut Vec<u8>,
    name: &[u8],
    site: SiteId,
    pollutant: Pollutant,
    year: u16,
) -> Result<(), Memory>
    ensures { OnOk result (out.new.items ≡ out.old.items ++ flat_map after_slash (series_texts name.now site pollutant year)) }
{
    write_of_four(
        out,
        name,
        &site_text(site),
        parameter_name(pollutant),
        &year_text(year),
    )
}

/// Appends the path of a site and what is asked of it.
fn write_of_site(
    out: &mut Vec<u8>,
    name: &[u8],
    site: SiteId,
    inner: &[u8],
    last: &[u8],
) -> Result<(), Memory>
    ensures { OnOk result (out.new.items ≡ out.old.items ++ flat_map after_slash (site_texts name.now site inner.now last.now)) }
{
    write_of_four(out, name, &site_text(site), inner, last)
}

/// Appends the path of the quarters of a site and year.
fn write_of_quarters(out: &mut Vec<u8>, name: &[u8], site: SiteId, year: u16) -> Result<(), Memory>
    ensures { OnOk result (out.new.items ≡ out.old.items ++ flat_map after_slash (quarters_texts name.now site year)) }
{
    write_of_site(out, name, site, b"quarters", &year_text(year))
}

/// Appends the path of a list of assumed concurrences, behind that of the same question without them.
fn write_assumed_part(alloc: Global, out: &mut Vec<u8>, assumed: &[Assumed]) -> Result<(), Memory>
    ensures { OnOk result (out.new.items ≡ out.old.items ++ flat_map after_slash (list_text assumed.now ∷ [])) }
{
    let mut text = Vec::new(alloc);
    write_list(&mut text, assumed)?;
    write_part(out, &text)
}

fn write_of_whatif(
    alloc: Global,
    out: &mut Vec<u8>,
    standard: Standard,
    site: SiteId,
    year: u16,
    assumed: &[Assumed],
) -> Result<(), Memory>
    ensures { OnOk result (out.new.items ≡ out.old.items ++ flat_map after_slash (whatif_texts standard site year assumed.now)) }
{
    write_of_standard(out, b"whatif", standard, site, year)?;
    write_assumed_part(alloc, out, assumed)
}

fn write_of_area(
    alloc: Global,
    out: &mut Vec<u8>,
    standard: Standard,
    area: &Area,
    year: u16,
) -> Result<(), Memory>
    ensures { OnOk result (out.new.items ≡ out.old.items ++ flat_map after_slash (area_texts standard area.now year)) }
{
    let mut text = Vec::new(alloc);
    write_area(&mut text, area)?;
    write_of_four(
        out,
        b"area",
        standard.name().as_bytes(),
        &text,
        &year_text(year),
    )
}

fn write_of_number(alloc: Global, out: &mut Vec<u8>, name: &[u8], number: u32) -> Result<(), Memory>
    ensures { OnOk result (out.new.items ≡ out.old.items ++ flat_map after_slash (name.now ∷ digits number ∷ [])) }
{
    let mut text = Vec::new(alloc);
    write_digits(&mut text, number)?;
    write_of_two(out, name, &text)
}

/// Appends the path of a question.
#[tactic(auto, unfolding(crate::specs::Paths::path_of, crate::specs::Paths::path_texts))]
pub(crate) fn write_path(
    alloc: Global,
    out: &mut Vec<u8>,
    question: &Question,
) -> Result<(), Memory>
    ensures { OnOk result (out.new.items ≡ out.old.items ++ path_of question.now) }
{
    match question {
        Question::Value(standard, site, year) => {
            write_of_standard(out, b"dv", *standard, *site, *year)
        }
        Question::Report(standard, year) => {
            write_of_three(
                out,
                b"report",
                standard.name().as_bytes(),
                &year_text(*year),
            )
        }
        Question::Export(site, pollutant, year) => {
            write_of_series(out, b"export", *site, *pollutant, *year)
        }
        Question::WhatIf(standard, site, year, assumed) => {
            write_of_whatif(alloc, out, *standard, *site, *year, assumed.as_slice())
        }
        Question::Decisive(standard, site, year) => {
            write_of_standard(out, b"decisive", *standard, *site, *year)
        }
        Question::Combined(standard, site, year) => {
            write_of_standard(out, b"combined", *standard, *site, *year)
        }
        Question::Area(standard, area, year) => {
            write_of_area(alloc, out, *standard, area, *year)
        }
        Question::Reply(number) => write_of_number(alloc, out, b"loads", *number),
        Question::Windows(site, day) => {
            write_of_site(out, b"ozone", *site, b"windows", &day_text(*day))
        }
        Question::Days(site, year) => {
            write_of_site(out, b"ozone", *site, b"days", &year_text(*year))
        }
        Question::Pm25(site, year) => write_of_quarters(out, b"pm25", *site, *year),
        Question::Pm10(site, year) => write_of_quarters(out, b"pm10", *site, *year),
        Question::Sites => write_of_name(out, b"sites"),
        Question::Monitors(site) => write_of_two(out, b"monitors", &site_text(*site)),
        Question::Events(site) => write_of_two(out, b"events", &site_text(*site)),
        Question::Flags(site, pollutant, year) => {
            write_of_series(out, b"flags", *site, *pollutant, *year)
        }
        Question::Loads => write_of_name(out, b"loads"),
        Question::Daily(site, pollutant, year) => {
            write_of_series(out, b"daily", *site, *pollutant, *year)
        }
        Question::Highest(site, pollutant, year) => {
            write_of_series(out, b"highest", *site, *pollutant, *year)
        }
        Question::Completeness(site, pollutant, year) => {
            write_of_series(out, b"completeness", *site, *pollutant, *year)
        }
        Question::Reports(year) => write_of_two(out, b"reports", &year_text(*year)),
        Question::Records => write_of_name(out, b"records"),
        Question::Lines(site, pollutant, year) => {
            write_of_series(out, b"lines", *site, *pollutant, *year)
        }
    }
}
