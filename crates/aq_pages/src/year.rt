//! The days of a year beside the level: a line for each day, a ring for one that is set apart, and a dot on
//! each of the ten highest.
ghost use Rattle.std.specs.Prelude.{◌≡◌, ◌≤◌, ◌<◌, ◌++◌, ◌^◌, length, flat_map, OnOk};
ghost use Rattle.aq_pages.specs.Year as pictures;
ghost use Rattle.aq_pages.specs.Year.{along, day_shown, days_from, days_shown, highest_mark, month_label, month_of, shape, year_at, year_legend};

use crate::day::{down, write_end_mark, write_level_along};
use crate::html::{write_circle, write_escaped, write_line, write_svg_start, write_text_start};
use crate::level::{day_level, level_at};
use crate::numbers::{greatest, number_at, word_at};
use crate::ranked::{RankedDay, is_apart, ten_highest, value_place};
use crate::sheet::Line;
use aq_base::{Bytes, Memory, Pollutant};
use std::alloc::Global;

/// How far from the left a day of the year stands.
fn along(index: u32) -> u64
    ensures place { result ≡ along index }
    ensures small { result < 2 ^ 63 }
{
    80 + 2 * u64::from(index)
}

/// Appends a line from the foot up to a value, or a ring where the day is set apart; nothing without a value.
#[tactic(auto, unfolding(crate::specs::Year::shape))]
fn write_shape(
    out: &mut Vec<u8>,
    top: u32,
    apart: bool,
    x: u64,
    number: Option<u32>,
) -> Result<(), Memory>
    requires top { 0 < top }
    requires x { x < 2 ^ 63 }
    ensures { OnOk result (out.new.items ≡ out.old.items ++ shape top apart x number) }
{
    match number {
        Some(number) => {
            let y = down(top, number);
            if apart {
                write_circle(out, x, y, 5)
            } else {
                write_line(out, (x, 340), (x, y))
            }
        }
        None => Ok(()),
    }
}

/// The month of a day that is the first of one; nothing of another day.
#[tactic(auto, unfolding(crate::specs::Year::month_of))]
fn month_of(day: &[u8]) -> &[u8]
    ensures { result.now ≡ month_of day.now }
{
    if day.len() == 10 {
        let (_year, behind) = day.split_at(5);
        let (month, rest) = behind.split_at(2);
        if rest == b"-01".as_slice() {
            return month;
        }
    }
    b""
}

/// Appends a month, this far from the left.
#[tactic(auto, unfolding(crate::specs::Year::month_label))]
fn write_month(out: &mut Vec<u8>, x: u64, name: &[u8]) -> Result<(), Memory>
    requires { x < 2 ^ 63 }
    ensures { OnOk result (out.new.items ≡ out.old.items ++ month_label x name.now) }
{
    if name.is_empty() {
        return Ok(());
    }
    write_text_start(out, b"hour", x, 372)?;
    write_escaped(out, name)?;
    out.extend_from_slice(b"</text>\n")?;
    Ok(())
}

/// Appends a day, and its month if it is the first of one.
#[tactic(auto, unfolding(crate::specs::Year::day_shown))]
fn write_day_shown(
    out: &mut Vec<u8>,
    pollutant: Pollutant,
    top: u32,
    index: u32,
    line: &[Bytes],
) -> Result<(), Memory>
    requires { 0 < top }
    ensures { OnOk result (out.new.items ≡ out.old.items ++ day_shown pollutant top index line.now) }
{
    let x = along(index);
    let number = number_at(value_place(pollutant), line);
    write_shape(out, top, is_apart(pollutant, line), x, number)?;
    write_month(out, x, month_of(word_at(0, line)))
}

fn write_days(
    out: &mut Vec<u8>,
    pollutant: Pollutant,
    top: u32,
    lines: &[Line],
) -> Result<(), Memory>
    requires top { 0 < top }
    requires few { length lines.now ≤ 100000 }
    ensures { OnOk result (out.new.items ≡ out.old.items ++ days_from pollutant top 0 lines.now) }
{
    for (i, line) in lines.iter().enumerate() {
        write_day_shown(out, pollutant, top, i as u32, line.as_slice())?;
    }
    Ok(())
}

/// Appends the dot on one of the highest days.
#[tactic(auto, unfolding(crate::specs::Year::highest_mark))]
fn write_highest_mark(out: &mut Vec<u8>, top: u32, row: &RankedDay) -> Result<(), Memory>
    requires { 0 < top }
    ensures { OnOk result (out.new.items ≡ out.old.items ++ highest_mark top row.now) }
{
    let number = if row.value < 0 {
        0
    } else {
        row.value.unsigned_abs()
    };
    write_circle(out, along(row.day), down(top, number), 7)
}

fn write_highest_marks(out: &mut Vec<u8>, top: u32, rows: &[RankedDay]) -> Result<(), Memory>
    requires { 0 < top }
    ensures { OnOk result (out.new.items ≡ out.old.items ++ flat_map (highest_mark top) rows.now) }
{
    for row in rows {
        write_highest_mark(out, top, row)?;
    }
    Ok(())
}

/// Appends where the scale begins, and what the shapes say.
#[tactic(auto, unfolding(crate::specs::Year::year_legend))]
fn write_year_legend(out: &mut Vec<u8>) -> Result<(), Memory>
    ensures { OnOk result (out.new.items ≡ out.old.items ++ year_legend) }
{
    out.extend_from_slice(
        b"</g>\n<text class=\"end\" x=\"44\" y=\"346\">0</text>\n<path class=\"stem\" d=\"M80 400v24\"/><text x=\"104\" y=\"420\">a day</text>\n<circle class=\"dot\" cx=\"80\" cy=\"448\" r=\"7\"/><text x=\"104\" y=\"456\">one of the ten highest</text>\n<circle class=\"ring\" cx=\"80\" cy=\"484\" r=\"5\"/><text x=\"104\" y=\"492\">not ranked: excluded or not valid</text>\n</svg>\n",
    )?;
    Ok(())
}

/// Appends the days, and the dots on the ten highest.
fn write_days_shown(
    out: &mut Vec<u8>,
    pollutant: Pollutant,
    top: u32,
    highest: &[RankedDay],
    lines: &[Line],
) -> Result<(), Memory>
    requires top { 0 < top }
    requires few { length lines.now ≤ 100000 }
    ensures { OnOk result (out.new.items ≡ out.old.items ++ days_shown pollutant top highest.now lines.now) }
{
    out.extend_from_slice(b"<g class=\"days\">\n")?;
    write_days(out, pollutant, top, lines)?;
    out.extend_from_slice(b"</g>\n<g class=\"dots\">")?;
    write_highest_marks(out, top, highest)?;
    write_year_legend(out)?;
    Ok(())
}

/// Appends the picture of so many days, on a scale that ends at `top`.
#[tactic(auto, unfolding(crate::specs::Year::year_at))]
fn write_year_at(
    out: &mut Vec<u8>,
    pollutant: Pollutant,
    top: u32,
    count: u64,
    highest: &[RankedDay],
    lines: &[Line],
) -> Result<(), Memory>
    requires top { 0 < top }
    requires count { count ≤ 100000 }
    requires few { length lines.now ≤ 100000 }
    ensures { OnOk result (out.new.items ≡ out.old.items ++ year_at pollutant top count highest.now lines.now) }
{
    write_svg_start(out, (100 + 2 * count).max(720), 510)?;
    write_level_along(out, top, 84 + 2 * count, day_level(pollutant))?;
    write_end_mark(out, pollutant, top)?;
    write_days_shown(out, pollutant, top, highest, lines)
}

/// Appends the days of a year beside the level. The scale ends at the greatest of them.
#[tactic(auto, unfolding(crate::specs::Year::year))]
pub(crate) fn write_year(
    alloc: Global,
    out: &mut Vec<u8>,
    pollutant: Pollutant,
    lines: &[Line],
) -> Result<(), Memory>
    requires { length lines.now ≤ 100000 }
    ensures { OnOk result (out.new.items ≡ out.old.items ++ pictures.year pollutant lines.now) }
{
    let highest = ten_highest(alloc, pollutant, lines)?;
    let least = level_at(day_level(pollutant)).max(1);
    let top = greatest(value_place(pollutant), least, lines);
    write_year_at(
        out,
        pollutant,
        top,
        lines.len() as u64,
        highest.as_slice(),
        lines,
    )
}
