//! Where a page leads: to the sites and the reports from everywhere, and to what stands beside or below
//! its own question.
ghost use Rattle.std.specs.Prelude.{◌≡◌, ◌++◌, OnOk, flat_map};
ghost use Rattle.aq_base.specs.Calendar as calendar;
ghost use Rattle.aq_rules.specs.Office.Monitors as monitors;
ghost use Rattle.aq_browser.specs.Links.{day_after, day_before, day_link, day_links, design_year, event_links, export_link, first_year, highest_link, highest_links, if_design_year, labelled, last_series, leads, leads_line, leads_of, link_of_year, monitor_links, navigation, of_year, other_years, question_link, report_link, report_links, report_year, reports_of, sample_links, series_head, series_links, value_leads, value_link, value_links, window_leads, year_after, year_asked, year_before, year_in, year_link, years_beside};

use crate::context::Context;
use crate::paths::{write_path, year_text};
use crate::titles::pollutant_words;
use aq_base::{
    Day, FIRST_DESIGN_YEAR, FIRST_YEAR, LAST_DAY, LAST_YEAR, Memory, Pollutant, Question, SiteId,
    Standard,
};
use aq_cal::{civil_of, day_text};
use std::alloc::Global;

// ---- a link

/// Appends the end of a link's target, its words, and the end of its line.
#[tactic(auto, unfolding(crate::specs::Links::labelled))]
pub(crate) fn write_labelled(out: &mut Vec<u8>, words: &[u8]) -> Result<(), Memory>
    ensures { OnOk result (out.new.items ≡ out.old.items ++ labelled words.now) }
{
    out.extend_from_slice(b"\">")?;
    out.extend_from_slice(words)?;
    out.extend_from_slice(b"</a>\n")?;
    Ok(())
}

/// Appends a link to the page of a question.
#[tactic(auto, unfolding(crate::specs::Links::question_link))]
pub(crate) fn write_question_link(
    alloc: Global,
    out: &mut Vec<u8>,
    question: &Question,
    words: &[u8],
) -> Result<(), Memory>
    ensures { OnOk result (out.new.items ≡ out.old.items ++ question_link question.now words.now) }
{
    out.extend_from_slice(b"<a href=\"/page")?;
    write_path(alloc, out, question)?;
    write_labelled(out, words)?;
    Ok(())
}

// ---- the years before and after

/// The year in the path of a question.
fn year_in(question: &Question) -> Option<u16>
    ensures { result ≡ year_in question.now }
{
    match question {
        Question::Value(_, _, year)
        | Question::Report(_, year)
        | Question::Export(_, _, year)
        | Question::WhatIf(_, _, year, _)
        | Question::Decisive(_, _, year)
        | Question::Combined(_, _, year)
        | Question::Area(_, _, year)
        | Question::Days(_, year)
        | Question::Pm25(_, year)
        | Question::Pm10(_, year)
        | Question::Flags(_, _, year)
        | Question::Daily(_, _, year)
        | Question::Highest(_, _, year)
        | Question::Completeness(_, _, year)
        | Question::Reports(year)
        | Question::Lines(_, _, year) => Some(*year),
        Question::Reply(_)
        | Question::Windows(..)
        | Question::Sites
        | Question::Monitors(_)
        | Question::Events(_)
        | Question::Loads
        | Question::Records => None,
    }
}

/// The question with another year in its path.
fn of_year(question: &Question, year: u16) -> Question
    ensures { result ≡ of_year question.now year }
{
    match question {
        Question::Value(standard, site, _) => Question::Value(*standard, *site, year),
        Question::Report(standard, _) => Question::Report(*standard, year),
        Question::Export(site, pollutant, _) => Question::Export(*site, *pollutant, year),
        Question::WhatIf(standard, site, _, assumed) => {
            Question::WhatIf(*standard, *site, year, *assumed)
        }
        Question::Decisive(standard, site, _) => Question::Decisive(*standard, *site, year),
        Question::Combined(standard, site, _) => Question::Combined(*standard, *site, year),
        Question::Area(standard, area, _) => Question::Area(*standard, *area, year),
        Question::Reply(number) => Question::Reply(*number),
        Question::Windows(site, day) => Question::Windows(*site, *day),
        Question::Days(site, _) => Question::Days(*site, year),
        Question::Pm25(site, _) => Question::Pm25(*site, year),
        Question::Pm10(site, _) => Question::Pm10(*site, year),
        Question::Sites => Question::Sites,
        Question::Monitors(site) => Question::Monitors(*site),
        Question::Events(site) => Question::Events(*site),
        Question::Flags(site, pollutant, _) => Question::Flags(*site, *pollutant, year),
        Question::Loads => Question::Loads,
        Question::Daily(site, pollutant, _) => Question::Daily(*site, *pollutant, year),
        Question::Highest(site, pollutant, _) => Question::Highest(*site, *pollutant, year),
        Question::Completeness(site, pollutant, _) => {
            Question::Completeness(*site, *pollutant, year)
        }
        Question::Reports(_) => Question::Reports(year),
        Question::Records => Question::Records,
        Question::Lines(site, pollutant, _) => Question::Lines(*site, *pollutant, year),
    }
}

/// The first year that the question can be asked for.
fn first_year(question: &Question) -> u16
    ensures { result ≡ first_year question.now }
{
    match question {
        Question::Value(..)
        | Question::Report(..)
        | Question::WhatIf(..)
        | Question::Decisive(..)
        | Question::Combined(..)
        | Question::Area(..)
        | Question::Reports(_) => FIRST_DESIGN_YEAR,
        _ => FIRST_YEAR,
    }
}

#[tactic(auto, unfolding(crate::specs::Links::link_of_year))]
fn write_link_of_year(
    alloc: Global,
    out: &mut Vec<u8>,
    question: &Question,
    year: u16,
) -> Result<(), Memory>
    ensures { OnOk result (out.new.items ≡ out.old.items ++ link_of_year question.now year) }
{
    write_question_link(alloc, out, &of_year(question, year), &year_text(year))
}

#[tactic(auto, unfolding(crate::specs::Links::year_before))]
fn write_year_before(
    alloc: Global,
    out: &mut Vec<u8>,
    question: &Question,
    year: u16,
) -> Result<(), Memory>
    ensures { OnOk result (out.new.items ≡ out.old.items ++ year_before question.now year) }
{
    if first_year(question) < year {
        write_link_of_year(alloc, out, question, year - 1)
    } else {
        Ok(())
    }
}

#[tactic(auto, unfolding(crate::specs::Links::year_after))]
fn write_year_after(
    alloc: Global,
    out: &mut Vec<u8>,
    question: &Question,
    year: u16,
) -> Result<(), Memory>
    ensures { OnOk result (out.new.items ≡ out.old.items ++ year_after question.now year) }
{
    if year < LAST_YEAR {
        write_link_of_year(alloc, out, question, year + 1)
    } else {
        Ok(())
    }
}

#[tactic(auto, unfolding(crate::specs::Links::other_years))]
fn write_other_years(
    alloc: Global,
    out: &mut Vec<u8>,
    question: &Question,
    year: u16,
) -> Result<(), Memory>
    ensures { OnOk result (out.new.items ≡ out.old.items ++ other_years question.now year) }
{
    out.extend_from_slice(b"other years:\n")?;
    write_year_before(alloc, out, question, year)?;
    write_year_after(alloc, out, question, year)?;
    Ok(())
}

/// Appends links to the question of the years before and after, if there is a year in its path.
#[tactic(auto, unfolding(crate::specs::Links::years_beside))]
fn write_years_beside(alloc: Global, out: &mut Vec<u8>, question: &Question) -> Result<(), Memory>
    ensures { OnOk result (out.new.items ≡ out.old.items ++ years_beside question.now) }
{
    match year_in(question) {
        None => Ok(()),
        Some(year) => write_other_years(alloc, out, question, year),
    }
}

// ---- from everywhere: the sites and the six reports

/// Whether there can be design values of a year.
fn is_design_year(year: u16) -> bool
    ensures { result ≡ calendar.is_design_year year }
{
    FIRST_DESIGN_YEAR <= year && year <= LAST_YEAR
}

fn if_design_year(year: u16) -> Option<u16>
    ensures { result ≡ if_design_year year }
{
    if is_design_year(year) {
        Some(year)
    } else {
        None
    }
}

fn design_year(year: Option<u16>) -> Option<u16>
    ensures { result ≡ design_year year }
{
    match year {
        None => None,
        Some(year) => if_design_year(year),
    }
}

fn year_of(day: Day) -> u16
    ensures { result ≡ calendar.year_of day }
{
    civil_of(day).year
}

/// The year of the path of a question, or that of its day.
pub(crate) fn year_asked(question: &Question) -> Option<u16>
    ensures { result ≡ year_asked question.now }
{
    match question {
        Question::Windows(_, day) => Some(year_of(*day)),
        _ => year_in(question),
    }
}

/// The year of the reports: the year that is asked for, if it has design values, else that of the last
/// observation of the office.
pub(crate) fn report_year(asked: Option<u16>, last: Option<Day>) -> Option<u16>
    ensures { result ≡ report_year asked last }
{
    match design_year(asked) {
        None => design_year(last.map(year_of)),
        Some(year) => Some(year),
    }
}

#[tactic(auto, unfolding(crate::specs::Links::report_link))]
fn write_report_link(
    alloc: Global,
    out: &mut Vec<u8>,
    year: u16,
    standard: Standard,
) -> Result<(), Memory>
    ensures { OnOk result (out.new.items ≡ out.old.items ++ report_link year standard) }
{
    write_question_link(
        alloc,
        out,
        &Question::Report(standard, year),
        standard.name().as_bytes(),
    )
}

/// Appends a link to the report of each of these standards.
fn write_report_of_each(
    alloc: Global,
    out: &mut Vec<u8>,
    year: u16,
    standards: &[Standard],
) -> Result<(), Memory>
    ensures { OnOk result (out.new.items ≡ out.old.items ++ flat_map (report_link year) standards.now) }
{
    for standard in standards {
        write_report_link(alloc, out, year, *standard)?;
    }
    Ok(())
}

#[tactic(auto, unfolding(crate::specs::Links::reports_of))]
fn write_reports_of(alloc: Global, out: &mut Vec<u8>, year: u16) -> Result<(), Memory>
    ensures { OnOk result (out.new.items ≡ out.old.items ++ reports_of year) }
{
    out.extend_from_slice(b"reports of ")?;
    out.extend_from_slice(&year_text(year))?;
    out.extend_from_slice(b":\n")?;
    write_report_of_each(alloc, out, year, &Standard::all())?;
    Ok(())
}

fn write_report_links(alloc: Global, out: &mut Vec<u8>, year: Option<u16>) -> Result<(), Memory>
    ensures { OnOk result (out.new.items ≡ out.old.items ++ report_links year) }
{
    match year {
        None => Ok(()),
        Some(year) => write_reports_of(alloc, out, year),
    }
}

/// Appends the links that each page has: to the sites, and to the reports of a year.
#[tactic(auto, unfolding(crate::specs::Links::navigation))]
pub(crate) fn write_navigation(
    alloc: Global,
    out: &mut Vec<u8>,
    year: Option<u16>,
) -> Result<(), Memory>
    ensures { OnOk result (out.new.items ≡ out.old.items ++ navigation year) }
{
    out.extend_from_slice(b"<nav>\n<a href=\"/\">Sites</a>\n")?;
    write_report_links(alloc, out, year)?;
    out.extend_from_slice(b"</nav>\n")?;
    Ok(())
}

// ---- from the monitors of a site: the events, and for each parameter what its last year has

fn is_same_pollutant(a: Pollutant, b: Pollutant) -> bool
    ensures { result ≡ monitors.is_same_pollutant a b }
{
    a == b
}

/// Appends a link to the design value by a standard, if it is one of the pollutant and the year ends
/// three years of the profile.
#[tactic(auto, unfolding(crate::specs::Links::value_link))]
fn write_value_link(
    alloc: Global,
    out: &mut Vec<u8>,
    site: SiteId,
    pollutant: Pollutant,
    year: u16,
    standard: Standard,
) -> Result<(), Memory>
    ensures { OnOk result (out.new.items ≡ out.old.items ++ value_link site pollutant year standard) }
{
    if is_same_pollutant(standard.pollutant(), pollutant) && is_design_year(year) {
        write_question_link(
            alloc,
            out,
            &Question::Value(standard, site, year),
            standard.name().as_bytes(),
        )
    } else {
        Ok(())
    }
}

/// Appends a link to the design value by each of these standards that is one of the pollutant.
fn write_value_of_each(
    alloc: Global,
    out: &mut Vec<u8>,
    site: SiteId,
    pollutant: Pollutant,
    year: u16,
    standards: &[Standard],
) -> Result<(), Memory>
    ensures { OnOk result (out.new.items ≡ out.old.items ++ flat_map (value_link site pollutant year) standards.now) }
{
    for standard in standards {
        write_value_link(alloc, out, site, pollutant, year, *standard)?;
    }
    Ok(())
}

#[tactic(auto, unfolding(crate::specs::Links::value_links))]
fn write_value_links(
    alloc: Global,
    out: &mut Vec<u8>,
    site: SiteId,
    pollutant: Pollutant,
    year: u16,
) -> Result<(), Memory>
    ensures { OnOk result (out.new.items ≡ out.old.items ++ value_links site pollutant year) }
{
    write_value_of_each(alloc, out, site, pollutant, year, &Standard::all())
}

/// Appends a link to the days of ozone, or the quarters of the particles.
#[tactic(auto, unfolding(crate::specs::Links::year_link))]
fn write_year_link(
    alloc: Global,
    out: &mut Vec<u8>,
    site: SiteId,
    pollutant: Pollutant,
    year: u16,
) -> Result<(), Memory>
    ensures { OnOk result (out.new.items ≡ out.old.items ++ year_link site pollutant year) }
{
    match pollutant {
        Pollutant::Ozone => {
            write_question_link(alloc, out, &Question::Days(site, year), b"ozone days")
        }
        Pollutant::Pm25 => {
            write_question_link(alloc, out, &Question::Pm25(site, year), b"quarters")
        }
        Pollutant::Pm10 => {
            write_question_link(alloc, out, &Question::Pm10(site, year), b"quarters")
        }
    }
}

#[tactic(auto, unfolding(crate::specs::Links::series_head))]
fn write_series_head(out: &mut Vec<u8>, pollutant: Pollutant, year: u16) -> Result<(), Memory>
    ensures { OnOk result (out.new.items ≡ out.old.items ++ series_head pollutant year) }
{
    out.extend_from_slice(b"<p class=\"links\">")?;
    out.extend_from_slice(pollutant_words(pollutant))?;
    out.extend_from_slice(b" in ")?;
    out.extend_from_slice(&year_text(year))?;
    out.extend_from_slice(b":\n")?;
    Ok(())
}

/// Appends links to the days, the quarters and the highest days.
#[tactic(auto, unfolding(crate::specs::Links::day_links))]
fn write_day_links(
    alloc: Global,
    out: &mut Vec<u8>,
    site: SiteId,
    pollutant: Pollutant,
    year: u16,
) -> Result<(), Memory>
    ensures { OnOk result (out.new.items ≡ out.old.items ++ day_links site pollutant year) }
{
    let days = Question::Daily(site, pollutant, year);
    let highest = Question::Highest(site, pollutant, year);
    write_question_link(alloc, out, &days, b"daily values")?;
    write_year_link(alloc, out, site, pollutant, year)?;
    write_question_link(alloc, out, &highest, b"highest days")?;
    Ok(())
}

#[tactic(auto, unfolding(crate::specs::Links::sample_links))]
fn write_sample_links(
    alloc: Global,
    out: &mut Vec<u8>,
    site: SiteId,
    pollutant: Pollutant,
    year: u16,
) -> Result<(), Memory>
    ensures { OnOk result (out.new.items ≡ out.old.items ++ sample_links site pollutant year) }
{
    let completeness = Question::Completeness(site, pollutant, year);
    let flags = Question::Flags(site, pollutant, year);
    write_question_link(alloc, out, &completeness, b"completeness")?;
    write_question_link(alloc, out, &flags, b"flags")?;
    Ok(())
}

/// Appends what a year of a site and pollutant leads to.
#[tactic(auto, unfolding(crate::specs::Links::series_links))]
fn write_series_links(
    alloc: Global,
    out: &mut Vec<u8>,
    site: SiteId,
    pollutant: Pollutant,
    year: u16,
) -> Result<(), Memory>
    ensures { OnOk result (out.new.items ≡ out.old.items ++ series_links site pollutant year) }
{
    write_series_head(out, pollutant, year)?;
    write_value_links(alloc, out, site, pollutant, year)?;
    write_day_links(alloc, out, site, pollutant, year)?;
    write_sample_links(alloc, out, site, pollutant, year)?;
    out.extend_from_slice(b"</p>\n")?;
    Ok(())
}

/// Appends what the year of the last observation of a site and pollutant leads to, if there is one.
fn write_last_series(
    alloc: Global,
    out: &mut Vec<u8>,
    site: SiteId,
    pollutant: Pollutant,
    last: Option<Day>,
) -> Result<(), Memory>
    ensures { OnOk result (out.new.items ≡ out.old.items ++ last_series site pollutant last) }
{
    match last {
        None => Ok(()),
        Some(day) => write_series_links(alloc, out, site, pollutant, year_of(day)),
    }
}

#[tactic(auto, unfolding(crate::specs::Links::event_links))]
fn write_event_links(alloc: Global, out: &mut Vec<u8>, site: SiteId) -> Result<(), Memory>
    ensures { OnOk result (out.new.items ≡ out.old.items ++ event_links site) }
{
    out.extend_from_slice(b"<p class=\"links\">")?;
    write_question_link(alloc, out, &Question::Events(site), b"events")?;
    out.extend_from_slice(b"</p>\n")?;
    Ok(())
}

/// Appends where the monitors of a site lead.
#[tactic(auto, unfolding(crate::specs::Links::monitor_links))]
fn write_monitor_links(
    alloc: Global,
    out: &mut Vec<u8>,
    context: &Context,
    site: SiteId,
) -> Result<(), Memory>
    ensures { OnOk result (out.new.items ≡ out.old.items ++ monitor_links context.now site) }
{
    write_event_links(alloc, out, site)?;
    write_last_series(alloc, out, site, Pollutant::Ozone, context.ozone)?;
    write_last_series(alloc, out, site, Pollutant::Pm25, context.pm25)?;
    write_last_series(alloc, out, site, Pollutant::Pm10, context.pm10)?;
    Ok(())
}

// ---- from the other questions

#[tactic(auto, unfolding(crate::specs::Links::highest_link))]
fn write_highest_link(
    alloc: Global,
    out: &mut Vec<u8>,
    pollutant: Pollutant,
    site: SiteId,
    year: u16,
) -> Result<(), Memory>
    ensures { OnOk result (out.new.items ≡ out.old.items ++ highest_link pollutant site year) }
{
    write_question_link(
        alloc,
        out,
        &Question::Highest(site, pollutant, year),
        &year_text(year),
    )
}

/// Appends links to the highest days of the three years that end with a year.
#[tactic(auto, unfolding(crate::specs::Links::highest_links))]
fn write_highest_links(
    alloc: Global,
    out: &mut Vec<u8>,
    pollutant: Pollutant,
    site: SiteId,
    year: u16,
) -> Result<(), Memory>
    ensures { OnOk result (out.new.items ≡ out.old.items ++ highest_links pollutant site year) }
{
    write_highest_link(alloc, out, pollutant, site, year.saturating_sub(2))?;
    write_highest_link(alloc, out, pollutant, site, year.saturating_sub(1))?;
    write_highest_link(alloc, out, pollutant, site, year)?;
    Ok(())
}

/// Appends where a design value leads: to the events that decide, and the highest days of each of its
/// years.
#[tactic(auto, unfolding(crate::specs::Links::value_leads))]
fn write_value_leads(
    alloc: Global,
    out: &mut Vec<u8>,
    standard: Standard,
    site: SiteId,
    year: u16,
) -> Result<(), Memory>
    ensures { OnOk result (out.new.items ≡ out.old.items ++ value_leads standard site year) }
{
    let decisive = Question::Decisive(standard, site, year);
    write_question_link(alloc, out, &decisive, b"events that decide")?;
    out.extend_from_slice(b"highest days of:\n")?;
    write_highest_links(alloc, out, standard.pollutant(), site, year)?;
    Ok(())
}

#[tactic(auto, unfolding(crate::specs::Links::day_link))]
fn write_day_link(alloc: Global, out: &mut Vec<u8>, site: SiteId, day: Day) -> Result<(), Memory>
    ensures { OnOk result (out.new.items ≡ out.old.items ++ day_link site day) }
{
    write_question_link(alloc, out, &Question::Windows(site, day), &day_text(day))
}

#[tactic(auto, unfolding(crate::specs::Links::day_before))]
fn write_day_before(alloc: Global, out: &mut Vec<u8>, site: SiteId, day: Day) -> Result<(), Memory>
    ensures { OnOk result (out.new.items ≡ out.old.items ++ day_before site day) }
{
    let number = day.number();
    if 0 < number {
        write_day_link(alloc, out, site, Day::new(number - 1))
    } else {
        Ok(())
    }
}

#[tactic(auto, unfolding(crate::specs::Links::day_after))]
fn write_day_after(alloc: Global, out: &mut Vec<u8>, site: SiteId, day: Day) -> Result<(), Memory>
    ensures { OnOk result (out.new.items ≡ out.old.items ++ day_after site day) }
{
    let number = day.number();
    if number < LAST_DAY {
        write_day_link(alloc, out, site, Day::new(number + 1))
    } else {
        Ok(())
    }
}

/// Appends where a day of ozone leads: to the days before and after, and those of the year.
#[tactic(auto, unfolding(crate::specs::Links::window_leads))]
fn write_window_leads(
    alloc: Global,
    out: &mut Vec<u8>,
    site: SiteId,
    day: Day,
) -> Result<(), Memory>
    ensures { OnOk result (out.new.items ≡ out.old.items ++ window_leads site day) }
{
    write_day_before(alloc, out, site, day)?;
    write_day_after(alloc, out, site, day)?;
    let days = Question::Days(site, year_of(day));
    write_question_link(alloc, out, &days, b"days of the year")?;
    Ok(())
}

/// Appends a link to the observations of a year, which are no page.
#[tactic(auto, unfolding(crate::specs::Links::export_link))]
fn write_export_link(
    alloc: Global,
    out: &mut Vec<u8>,
    site: SiteId,
    pollutant: Pollutant,
    year: u16,
) -> Result<(), Memory>
    ensures { OnOk result (out.new.items ≡ out.old.items ++ export_link site pollutant year) }
{
    out.extend_from_slice(b"<a href=\"")?;
    write_path(alloc, out, &Question::Export(site, pollutant, year))?;
    write_labelled(out, b"observations as CSV")?;
    Ok(())
}

/// Appends where a question leads, beside its other years.
fn write_leads(alloc: Global, out: &mut Vec<u8>, question: &Question) -> Result<(), Memory>
    ensures { OnOk result (out.new.items ≡ out.old.items ++ leads question.now) }
{
    match question {
        Question::Value(standard, site, year)
        | Question::WhatIf(standard, site, year, _)
        | Question::Combined(standard, site, year) => {
            write_value_leads(alloc, out, *standard, *site, *year)
        }
        Question::Windows(site, day) => write_window_leads(alloc, out, *site, *day),
        Question::Daily(site, pollutant, year) => {
            write_export_link(alloc, out, *site, *pollutant, *year)
        }
        Question::Sites => write_question_link(alloc, out, &Question::Loads, b"loads"),
        _ => Ok(()),
    }
}

#[tactic(auto, unfolding(crate::specs::Links::leads_line))]
fn write_leads_line(alloc: Global, out: &mut Vec<u8>, question: &Question) -> Result<(), Memory>
    ensures { OnOk result (out.new.items ≡ out.old.items ++ leads_line question.now) }
{
    out.extend_from_slice(b"<p class=\"links\">")?;
    write_leads(alloc, out, question)?;
    write_years_beside(alloc, out, question)?;
    out.extend_from_slice(b"</p>\n")?;
    Ok(())
}

/// Appends the links that stand above the sheets of a page.
pub(crate) fn write_leads_of(
    alloc: Global,
    out: &mut Vec<u8>,
    context: &Context,
    question: &Question,
) -> Result<(), Memory>
    ensures { OnOk result (out.new.items ≡ out.old.items ++ leads_of context.now question.now) }
{
    match question {
        Question::Monitors(site) => write_monitor_links(alloc, out, context, *site),
        _ => write_leads_line(alloc, out, question),
    }
}
