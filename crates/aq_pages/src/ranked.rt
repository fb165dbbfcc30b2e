//! The ten highest days of a year.
ghost use Rattle.std.specs.Prelude.{◌≡◌, ◌≤◌, List, IfOk, OnOk, length, option_and_then, slice_get, take};
ghost use Rattle.aq_rules.specs.Listed.Highest as book;
ghost use Rattle.aq_pages.specs.Ranked.{are_highest, highest_days, is_apart, place_in, ranked_value, value_place, with_value};

use crate::numbers::word_at;
use crate::sheet::Line;
use aq_base::{Bytes, Memory, Pollutant};
use aq_num::read_decimal;
use std::alloc::Global;
use std::marker::Model;

/// So many days are marked at most.
const TEN: usize = 10;

/// A day that is ranked, by its place among the rows and by its value in thousandths. Contracts see the
/// book's ranked day.
#[derive(Clone, Copy)]
pub struct RankedDay {
    pub(crate) day: u32,
    pub(crate) value: i32,
}

impl Model for RankedDay {
    ghost use Rattle.aq_rules.specs.Listed.Highest as book;

    ghost Value = { book.RankedDay };

    ghost view = { λ row. record { day = row.day; value = row.value } };

    ghost inverse = { λ row. record { day = row.day; value = row.value } };
}

/// Where the value of a day stands in its row.
#[tactic(auto, unfolding(crate::specs::Ranked::value_place))]
pub(crate) fn value_place(pollutant: Pollutant) -> usize
    ensures { result ≡ value_place pollutant }
{
    match pollutant {
        Pollutant::Ozone => 4,
        Pollutant::Pm25 => 2,
        Pollutant::Pm10 => 3,
    }
}

/// Whether a day is not ranked: one of ozone that is not valid, one of the particles that is excluded.
#[tactic(auto, unfolding(crate::specs::Ranked::is_apart))]
pub(crate) fn is_apart(pollutant: Pollutant, line: &[Bytes]) -> bool
    ensures { result ≡ is_apart pollutant line.now }
{
    match pollutant {
        Pollutant::Ozone => word_at(2, line) == b"N".as_slice(),
        Pollutant::Pm25 => word_at(3, line) == b"Y".as_slice(),
        Pollutant::Pm10 => word_at(4, line) == b"Y".as_slice(),
    }
}

/// The value by which a day is ranked, in thousandths.
#[tactic(auto, unfolding(crate::specs::Ranked::ranked_value))]
fn ranked_value(pollutant: Pollutant, line: &[Bytes]) -> Option<i32>
    ensures { result ≡ ranked_value pollutant line.now }
{
    if is_apart(pollutant, line) {
        return None;
    }
    match read_decimal(word_at(value_place(pollutant), line), 3) {
        Ok(value) => Some(value),
        Err(_) => None,
    }
}

/// That of a row by its place, if there is one.
fn ranked_value_at(pollutant: Pollutant, place: usize, lines: &[Line]) -> Option<i32>
    ensures { result ≡ option_and_then (ranked_value pollutant) (slice_get lines.now place) }
{
    match lines.get(place) {
        Some(line) => ranked_value(pollutant, line.as_slice()),
        None => None,
    }
}

/// How many days at the front are above a day.
fn place_of(days: &[RankedDay], row: &RankedDay) -> usize
    ensures place { result ≡ place_in row.now.value days.now }
    ensures within { result ≤ length days.now }
{
    let mut place = 0;
    for other in days {
        if other.value <= row.value {
            return place;
        }
        place += 1;
    }
    place
}

/// Puts a day into a list that falls, before the first one that is not above it, and keeps ten.
fn rank_in(days: &mut Vec<RankedDay>, row: RankedDay) -> Result<(), Memory>
    ensures { OnOk result (days.new.items ≡ take book.TEN (book.day_ranked_in row days.old.items)) }
{
    let place = place_of(days.as_slice(), &row);
    days.insert(place, row)?;
    days.truncate(TEN);
    Ok(())
}

/// Adds a day before all others, if it has a value.
fn add(days: &mut Vec<RankedDay>, day: u32, value: Option<i32>) -> Result<(), Memory>
    ensures { OnOk result ((rows : List book.RankedDay) → are_highest rows days.old.items → are_highest (with_value day value rows) days.new.items) }
{
    let Some(value) = value else {
        return Ok(());
    };
    rank_in(days, RankedDay { day, value })?;
    Ok(())
}

/// The ten highest days of some rows, the greatest value first, and of equal ones the earlier day.
#[tactic(auto, unfolding(crate::specs::Ranked::highest_days))]
pub(crate) fn ten_highest(
    alloc: Global,
    pollutant: Pollutant,
    lines: &[Line],
) -> Result<Vec<RankedDay>, Memory>
    requires { length lines.now ≤ 100000 }
    ensures { IfOk result (λ days. days.items ≡ highest_days pollutant lines.now) }
{
    let mut days = Vec::new(alloc);
    let mut place = lines.len();
    while place > 0 {
        place -= 1;
        add(
            &mut days,
            place as u32,
            ranked_value_at(pollutant, place, lines),
        )?;
    }
    Ok(days)
}
