//! The title of a page: its question in words.
ghost use Rattle.std.specs.Prelude.{◌≡◌, ◌++◌, OnOk};
ghost use Rattle.aq_browser.specs.Titles.{assumed_words, dotted, joined_to, joined_words, of_area, of_day, of_report, of_series, of_site, of_standard, pollutant_words, title, title_parts, title_words, topic_words};
ghost use Rattle.aq_browser.specs.Paths.{area_text, digits};

use crate::paths::{write_area, write_digits, write_list, year_text};
use aq_base::{Area, Assumed, Day, Memory, Pollutant, Question, SiteId, Standard, Topic};
use aq_cal::day_text;
use aq_sheets::site_text;
use std::alloc::Global;

/// Appends what is asked for where events are assumed to be concurred in or not.
#[tactic(auto, unfolding(crate::specs::Titles::assumed_words))]
fn write_assumed_words(out: &mut Vec<u8>, assumed: &[Assumed]) -> Result<(), Memory>
    ensures { OnOk result (out.new.items ≡ out.old.items ++ assumed_words assumed.now) }
{
    out.extend_from_slice(b"The design value of a site with ")?;
    write_list(out, assumed)?;
    out.extend_from_slice(b" assumed, which is not what stands")?;
    Ok(())
}

/// Appends what is asked for where another site is joined to the site.
#[tactic(auto, unfolding(crate::specs::Titles::joined_to))]
fn write_joined_to(out: &mut Vec<u8>, joined: (SiteId, Day)) -> Result<(), Memory>
    ensures { OnOk result (out.new.items ≡ out.old.items ++ joined_to joined) }
{
    out.extend_from_slice(b"The design value of a site, to which ")?;
    out.extend_from_slice(&site_text(joined.0))?;
    out.extend_from_slice(b" is joined from ")?;
    out.extend_from_slice(&day_text(joined.1))?;
    out.extend_from_slice(b" on")?;
    Ok(())
}

fn write_joined_words(out: &mut Vec<u8>, joined: Option<(SiteId, Day)>) -> Result<(), Memory>
    ensures { OnOk result (out.new.items ≡ out.old.items ++ joined_words joined) }
{
    match joined {
        None => {
            out.extend_from_slice(b"The design value of a site and the one that is joined to it")?;
            Ok(())
        }
        Some(joined) => write_joined_to(out, joined),
    }
}

/// What the questions of a row of the table ask for.
#[tactic(auto, unfolding(crate::specs::Titles::topic_words))]
fn topic_words(topic: Topic) -> &'static str
    ensures { result.now ≡ topic_words topic }
{
    match topic {
        Topic::Value => "The design value of a site",
        Topic::Report => "The design values of all sites",
        Topic::Export => "The observations of a year",
        Topic::WhatIf => "The design value of a site with events assumed",
        Topic::Decisive => "The events that decide the verdict of a site",
        Topic::Combined => "The design value of a site and the one that is joined to it",
        Topic::Area => "The verdict of an area",
        Topic::Reply => "What a load did",
        Topic::Windows => "The 8-hour ozone averages of a day",
        Topic::Days => "The ozone days of a year",
        Topic::Pm25 => "The quarters of a year of PM2.5",
        Topic::Pm10 => "The quarters of a year of PM10",
        Topic::Sites => "The sites",
        Topic::Monitors => "The monitors of a site",
        Topic::Events => "The exceptional events of a site",
        Topic::Flags => "The flagged observations of a year",
        Topic::Loads => "The loads",
        Topic::Daily => "The days of a year",
        Topic::Highest => "The highest days of a year",
        Topic::Completeness => "How complete a year is",
        Topic::Reports => "The design values of all sites by all standards",
        Topic::Records => "The records of the office",
        Topic::Lines => "The observations of a year as lines",
    }
}

fn write_topic_words(out: &mut Vec<u8>, topic: Topic) -> Result<(), Memory>
    ensures { OnOk result (out.new.items ≡ out.old.items ++ topic_words topic) }
{
    out.extend_from_slice(topic_words(topic).as_bytes())?;
    Ok(())
}

fn write_title_words(
    out: &mut Vec<u8>,
    joined: Option<(SiteId, Day)>,
    question: &Question,
) -> Result<(), Memory>
    ensures { OnOk result (out.new.items ≡ out.old.items ++ title_words joined question.now) }
{
    match question {
        Question::WhatIf(_, _, _, assumed) => write_assumed_words(out, assumed.as_slice()),
        Question::Combined(..) => write_joined_words(out, joined),
        _ => write_topic_words(out, question.topic()),
    }
}

/// The name of a pollutant.
pub(crate) fn pollutant_words(pollutant: Pollutant) -> &'static [u8]
    ensures { result.now ≡ pollutant_words pollutant }
{
    match pollutant {
        Pollutant::Ozone => b"ozone",
        Pollutant::Pm25 => b"PM2.5",
        Pollutant::Pm10 => b"PM10",
    }
}

/// Appends a part, behind a dot.
#[tactic(auto, unfolding(crate::specs::Titles::dotted))]
pub(crate) fn write_dotted(out: &mut Vec<u8>, part: &[u8]) -> Result<(), Memory>
    ensures { OnOk result (out.new.items ≡ out.old.items ++ dotted part.now) }
{
    out.extend_from_slice(b" &#183; ")?;
    out.extend_from_slice(part)?;
    Ok(())
}

#[tactic(auto, unfolding(crate::specs::Titles::of_standard))]
fn write_of_standard(
    out: &mut Vec<u8>,
    standard: Standard,
    site: SiteId,
    year: u16,
) -> Result<(), Memory>
    ensures { OnOk result (out.new.items ≡ out.old.items ++ of_standard standard site year) }
{
    write_dotted(out, standard.name().as_bytes())?;
    write_dotted(out, &site_text(site))?;
    write_dotted(out, &year_text(year))
}

#[tactic(auto, unfolding(crate::specs::Titles::of_series))]
fn write_of_series(
    out: &mut Vec<u8>,
    site: SiteId,
    pollutant: Pollutant,
    year: u16,
) -> Result<(), Memory>
    ensures { OnOk result (out.new.items ≡ out.old.items ++ of_series site pollutant year) }
{
    write_dotted(out, &site_text(site))?;
    write_dotted(out, pollutant_words(pollutant))?;
    write_dotted(out, &year_text(year))
}

#[tactic(auto, unfolding(crate::specs::Titles::of_site))]
fn write_of_site(out: &mut Vec<u8>, site: SiteId, year: u16) -> Result<(), Memory>
    ensures { OnOk result (out.new.items ≡ out.old.items ++ of_site site year) }
{
    write_dotted(out, &site_text(site))?;
    write_dotted(out, &year_text(year))
}

#[tactic(auto, unfolding(crate::specs::Titles::of_day))]
fn write_of_day(out: &mut Vec<u8>, site: SiteId, day: Day) -> Result<(), Memory>
    ensures { OnOk result (out.new.items ≡ out.old.items ++ of_day site day) }
{
    write_dotted(out, &site_text(site))?;
    write_dotted(out, &day_text(day))
}

#[tactic(auto, unfolding(crate::specs::Titles::of_report))]
fn write_of_report(out: &mut Vec<u8>, standard: Standard, year: u16) -> Result<(), Memory>
    ensures { OnOk result (out.new.items ≡ out.old.items ++ of_report standard year) }
{
    write_dotted(out, standard.name().as_bytes())?;
    write_dotted(out, &year_text(year))
}

#[tactic(auto, unfolding(crate::specs::Titles::of_area))]
fn write_of_area(
    out: &mut Vec<u8>,
    standard: Standard,
    area: &[u8],
    year: u16,
) -> Result<(), Memory>
    ensures { OnOk result (out.new.items ≡ out.old.items ++ of_area standard area.now year) }
{
    write_dotted(out, standard.name().as_bytes())?;
    write_dotted(out, area)?;
    write_dotted(out, &year_text(year))
}

fn write_of_this_area(
    alloc: Global,
    out: &mut Vec<u8>,
    standard: Standard,
    area: &Area,
    year: u16,
) -> Result<(), Memory>
    ensures { OnOk result (out.new.items ≡ out.old.items ++ of_area standard (area_text area.now) year) }
{
    let mut text = Vec::new(alloc);
    write_area(&mut text, area)?;
    write_of_area(out, standard, &text, year)
}

fn write_of_number(alloc: Global, out: &mut Vec<u8>, number: u32) -> Result<(), Memory>
    ensures { OnOk result (out.new.items ≡ out.old.items ++ dotted (digits number)) }
{
    let mut text = Vec::new(alloc);
    write_digits(&mut text, number)?;
    write_dotted(out, &text)
}

/// Appends of which standard, site, parameter, area, year or day a question is.
fn write_title_parts(alloc: Global, out: &mut Vec<u8>, question: &Question) -> Result<(), Memory>
    ensures { OnOk result (out.new.items ≡ out.old.items ++ title_parts question.now) }
{
    match question {
        Question::Value(standard, site, year)
        | Question::WhatIf(standard, site, year, _)
        | Question::Decisive(standard, site, year)
        | Question::Combined(standard, site, year) => {
            write_of_standard(out, *standard, *site, *year)
        }
        Question::Report(standard, year) => write_of_report(out, *standard, *year),
        Question::Area(standard, area, year) => {
            write_of_this_area(alloc, out, *standard, area, *year)
        }
        Question::Reply(number) => write_of_number(alloc, out, *number),
        Question::Windows(site, day) => write_of_day(out, *site, *day),
        Question::Days(site, year) | Question::Pm25(site, year) | Question::Pm10(site, year) => {
            write_of_site(out, *site, *year)
        }
        Question::Monitors(site) | Question::Events(site) => write_dotted(out, &site_text(*site)),
        Question::Export(site, pollutant, year)
        | Question::Flags(site, pollutant, year)
        | Question::Daily(site, pollutant, year)
        | Question::Highest(site, pollutant, year)
        | Question::Completeness(site, pollutant, year)
        | Question::Lines(site, pollutant, year) => {
            write_of_series(out, *site, *pollutant, *year)
        }
        Question::Reports(year) => write_dotted(out, &year_text(*year)),
        Question::Sites | Question::Loads | Question::Records => Ok(()),
    }
}

/// Appends the title of the page of a question.
pub(crate) fn write_title(
    alloc: Global,
    out: &mut Vec<u8>,
    joined: Option<(SiteId, Day)>,
    question: &Question,
) -> Result<(), Memory>
    ensures { OnOk result (out.new.items ≡ out.old.items ++ title joined question.now) }
{
    write_title_words(out, joined, question)?;
    write_title_parts(alloc, out, question)
}
