//! The highest days of a year.
ghost use Rattle.std.specs.Prelude.{◌≡◌, if◌then◌else◌, IfErr, IfOk, IsTrue, None, OnOk, false, is_ok, map, true};
ghost use Rattle.aq_base.specs.Calendar.{is_year};
ghost use Rattle.aq_base.specs.declared.monitor.Pollutant.TheVariants.{Ozone};
ghost use Rattle.aq_base.specs.declared.question.Question.TheVariants as question;
ghost use Rattle.aq_book.specs.declared.fault.AskFault.TheVariants.{UnknownSite as Unknown};
ghost use Rattle.aq_rules.specs.Listed.Highest as highest;
ghost use Rattle.aq_rules.specs.Ozone.OzoneYear.{ranked_maximum};
ghost use Rattle.aq_rules.specs.Questions.Answer.{answer, is_registered};
ghost use Rattle.aq_office.specs.Answers.{seen};

use crate::answers::Answer;
use aq_base::{Items, Memory, Pollutant, SiteId, Steps};
use aq_book::{AskFault, Book, OzoneDays, UnknownSite};
use aq_cal::year_span;
use aq_reports::daily::{
    RankedDay, RankedMaximum, first_at, highest_ozone_sheet, highest_particles, ten_highest,
};
use aq_sheets::Sheet;
use std::alloc::Global;
use std::sync::ledger::Ledger;

/// The ten highest days that the standard ranks.
#[tactic(auto, unfolding(aq_rules::specs::Questions::Answer::answer))]
pub(crate) fn highest_of<L: Ledger>(
    alloc: Global,
    book: &Book,
    site: SiteId,
    pollutant: Pollutant,
    year: u16,
    steps: &mut Steps<L>,
) -> Result<Answer, Memory>
    requires { IsTrue (is_year year) }
    ensures { IfOk result (λ found. answer book.now (question.Highest site pollutant year) ≡ seen found) }
{
    if !book.has_site(site) {
        return Ok(Answer::no_site(site));
    }
    match pollutant {
        Pollutant::Ozone => ozone_of(alloc, book, site, year, steps),
        Pollutant::Pm25 => {
            let sheet = highest_particles(alloc, book, site, Pollutant::Pm25, year, steps)?;
            Answer::of_sheet(alloc, sheet)
        }
        Pollutant::Pm10 => {
            let sheet = highest_particles(alloc, book, site, Pollutant::Pm10, year, steps)?;
            Answer::of_sheet(alloc, sheet)
        }
    }
}

/// The ten highest days of an ozone year.
#[tactic(auto, unfolding(aq_rules::specs::Questions::Answer::answer))]
fn ozone_of<L: Ledger>(
    alloc: Global,
    book: &Book,
    site: SiteId,
    year: u16,
    steps: &mut Steps<L>,
) -> Result<Answer, Memory>
    requires { IsTrue (is_year year) }
    ensures { IfOk result (λ found. answer book.now (question.Highest site Ozone year) ≡ seen found) }
{
    match ozone_sheet(alloc, book, site, year, steps) {
        Ok(sheet) => Answer::of_sheet(alloc, sheet),
        Err(AskFault::UnknownSite) => Ok(Answer::no_site(site)),
        Err(AskFault::Memory) => Err(Memory),
    }
}

/// The sheet of an ozone year, from the days that the book has, if the site is registered.
fn ozone_sheet<L: Ledger>(
    alloc: Global,
    book: &Book,
    site: SiteId,
    year: u16,
    steps: &mut Steps<L>,
) -> Result<Sheet, AskFault>
    requires { IsTrue (is_year year) }
    ensures sheet { IfOk result (λ sheet. sheet ≡ highest.highest_answer book.now site Ozone year) }
    ensures registered { OnOk result (is_registered book.now site ≡ true) }
    ensures refused { IfErr result
        (λ fault. fault ≡ Unknown → is_registered book.now site ≡ false) }
{
    let days = book.ozone_days(alloc, site, year, steps)?;
    let maxima = maxima_of(alloc, &days)?;
    let (first, _) = year_span(year);
    let found = ten_highest(alloc, first, maxima.as_slice())?;
    let rows = rows_of(alloc, book, site, &found.days, steps)?;
    let sheet = highest_ozone_sheet(alloc, site, year, found.ranked, rows.as_slice())?;
    Ok(sheet)
}

/// What is ranked of each day: the maximum of a valid one.
fn maxima_of(alloc: Global, days: &OzoneDays) -> Result<Items<Option<i32>>, Memory>
    ensures { IfOk result (λ maxima. maxima ≡ map ranked_maximum days.now) }
{
    let mut maxima = Items::new(alloc);
    for day in days.as_slice() {
        maxima.push(ranked_of(day.valid, day.maximum))?;
    }
    Ok(maxima)
}

/// The maximum of a day, if the day is valid.
fn ranked_of(valid: bool, maximum: Option<i32>) -> Option<i32>
    ensures { result ≡ (if valid then maximum else None) }
{
    if valid { maximum } else { None }
}

/// Ranked days, each with the start of its maximum, if the site is registered.
fn rows_of<L: Ledger>(
    alloc: Global,
    book: &Book,
    site: SiteId,
    days: &[RankedDay],
    steps: &mut Steps<L>,
) -> Result<Items<RankedMaximum>, AskFault>
    ensures rows { IfOk result
        (λ rows. rows ≡ map (highest.with_start book.now site) days.now) }
    ensures refused { IfErr result
        (λ fault. fault ≡ Unknown → is_registered book.now site ≡ false) }
{
    let mut rows = Items::new(alloc);
    for day in days {
        rows.push(row_of(book, site, day, steps)?)?;
    }
    Ok(rows)
}

/// A ranked day with the start of its maximum, if the site is registered.
fn row_of<L: Ledger>(
    book: &Book,
    site: SiteId,
    day: &RankedDay,
    steps: &mut Steps<L>,
) -> Result<RankedMaximum, UnknownSite>
    ensures row { IfOk result (λ row. row ≡ highest.with_start book.now site day.now) }
    ensures registered { is_ok result ≡ is_registered book.now site }
{
    let windows = book.windows(site, day.day, steps)?;
    let start = first_at(&windows, day.value);
    Ok(RankedMaximum { day: *day, start })
}
