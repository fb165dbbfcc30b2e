//! The two lines of a day: the full 8-hour averages and the net ones, hour by hour.
ghost use Rattle.std.specs.Prelude.{◌≡◌, ◌≤◌, ◌<◌, ◌++◌, ◌^◌, false, length, OnOk};
ghost use Rattle.aq_pages.specs.Pictures as pictures;
ghost use Rattle.aq_pages.specs.Pictures.{across, curve, curves, day_at, down, end_mark, hour, hour_word, hours_from, in_unit, legend, level_along, point, points_from};

use crate::html::{write_escaped, write_number, write_svg_start, write_text_start};
use crate::level::{Level, level_at, write_level_mark};
use crate::numbers::{greatest, number_at, scaled, word_at};
use crate::sheet::Line;
use aq_base::{Bytes, Memory, Pollutant};
use aq_num::write_fixed;

/// The height of a point that stands for the greatest number.
const HIGHEST: u16 = 280;

/// How far from the left the hour of a row stands.
fn across(index: u32) -> u64
    ensures place { result ≡ across index }
    ensures small { result < 2 ^ 63 }
{
    80 + 40 * u64::from(index)
}

/// How far from the top a number stands, by the scale from the foot up.
pub(crate) fn down(top: u32, number: u32) -> u64
    requires { 0 < top }
    ensures place { result ≡ down top number }
    ensures small { result < 2 ^ 63 }
{
    340u64.saturating_sub(scaled(top, HIGHEST, number))
}

/// Appends a point, which is joined to the one before it or begins a line anew, with a dot.
#[tactic(auto, unfolding(crate::specs::Pictures::point))]
fn write_point(
    out: &mut Vec<u8>,
    top: u32,
    joined: bool,
    index: u32,
    number: Option<u32>,
) -> Result<(), Memory>
    requires { 0 < top }
    ensures { OnOk result (out.new.items ≡ out.old.items ++ point top joined index number) }
{
    if let Some(number) = number {
        let (step, dot): (&[u8], &[u8]) = if joined { (b" L", b"") } else { (b" M", b"h0") };
        out.extend_from_slice(step)?;
        write_number(out, across(index))?;
        out.push(b' ')?;
        write_number(out, down(top, number))?;
        out.extend_from_slice(dot)?;
    }
    Ok(())
}

fn write_points(out: &mut Vec<u8>, place: usize, top: u32, lines: &[Line]) -> Result<(), Memory>
    requires top { 0 < top }
    requires few { length lines.now ≤ 100000 }
    ensures { OnOk result (out.new.items ≡ out.old.items ++ points_from place top false 0 lines.now) }
{
    let mut joined = false;
    for (i, line) in lines.iter().enumerate() {
        let number = number_at(place, line.as_slice());
        write_point(out, top, joined, i as u32, number)?;
        joined = number.is_some();
    }
    Ok(())
}

/// Appends the line of one column.
#[tactic(auto, unfolding(crate::specs::Pictures::curve))]
fn write_curve(
    out: &mut Vec<u8>,
    name: &[u8],
    place: usize,
    top: u32,
    lines: &[Line],
) -> Result<(), Memory>
    requires top { 0 < top }
    requires few { length lines.now ≤ 100000 }
    ensures { OnOk result (out.new.items ≡ out.old.items ++ curve name.now place top lines.now) }
{
    out.extend_from_slice(b"<path class=\"")?;
    out.extend_from_slice(name)?;
    out.extend_from_slice(b"\" d=\"")?;
    write_points(out, place, top, lines)?;
    out.extend_from_slice(b"\"/>\n")?;
    Ok(())
}

/// Appends the hour of a row.
fn write_hour_word(out: &mut Vec<u8>, line: &[Bytes]) -> Result<(), Memory>
    ensures { OnOk result (out.new.items ≡ out.old.items ++ hour_word line.now) }
{
    let word = word_at(0, line);
    write_escaped(out, &word[..word.len().min(2)])
}

/// Appends the hour of a row, this far from the left.
#[tactic(auto, unfolding(crate::specs::Pictures::hour))]
fn write_hour(out: &mut Vec<u8>, x: u64, line: &[Bytes]) -> Result<(), Memory>
    requires { x < 2 ^ 63 }
    ensures { OnOk result (out.new.items ≡ out.old.items ++ hour x line.now) }
{
    write_text_start(out, b"hour", x, 372)?;
    write_hour_word(out, line)?;
    out.extend_from_slice(b"</text>\n")?;
    Ok(())
}

fn write_hours(out: &mut Vec<u8>, lines: &[Line]) -> Result<(), Memory>
    requires { length lines.now ≤ 100000 }
    ensures { OnOk result (out.new.items ≡ out.old.items ++ hours_from 0 lines.now) }
{
    for (i, line) in lines.iter().enumerate() {
        write_hour(out, across(i as u32), line.as_slice())?;
    }
    Ok(())
}

/// Appends a number of thousandths with the places that the values of a pollutant have.
#[tactic(auto, unfolding(crate::specs::Pictures::in_unit))]
fn write_in_unit(out: &mut Vec<u8>, pollutant: Pollutant, value: u32) -> Result<(), Memory>
    ensures { OnOk result (out.new.items ≡ out.old.items ++ in_unit pollutant value) }
{
    match pollutant {
        Pollutant::Ozone => write_fixed(out, i64::from(value), 3),
        Pollutant::Pm25 | Pollutant::Pm10 => write_fixed(out, i64::from(value / 100), 1),
    }
}

/// Appends the number at which the scale ends.
#[tactic(auto, unfolding(crate::specs::Pictures::end_mark))]
pub(crate) fn write_end_mark(
    out: &mut Vec<u8>,
    pollutant: Pollutant,
    top: u32,
) -> Result<(), Memory>
    ensures { OnOk result (out.new.items ≡ out.old.items ++ end_mark pollutant top) }
{
    write_text_start(out, b"end", 4, 66)?;
    write_in_unit(out, pollutant, top)?;
    out.extend_from_slice(b"</text>\n")?;
    Ok(())
}

/// Appends where the scale begins, and which line is which.
#[tactic(auto, unfolding(crate::specs::Pictures::legend))]
fn write_legend(out: &mut Vec<u8>) -> Result<(), Memory>
    ensures { OnOk result (out.new.items ≡ out.old.items ++ legend) }
{
    out.extend_from_slice(
        b"<text class=\"end\" x=\"44\" y=\"346\">0</text>\n<path class=\"full\" d=\"M80 412h60\"/><text x=\"152\" y=\"420\">full: all hours</text>\n<path class=\"net\" d=\"M80 448h60\"/><text x=\"152\" y=\"456\">average: without agreed events</text>\n</svg>\n",
    )?;
    Ok(())
}

/// Appends the full averages and the net ones, and which is which.
#[tactic(auto, unfolding(crate::specs::Pictures::curves))]
fn write_curves(out: &mut Vec<u8>, top: u32, lines: &[Line]) -> Result<(), Memory>
    requires top { 0 < top }
    requires few { length lines.now ≤ 100000 }
    ensures { OnOk result (out.new.items ≡ out.old.items ++ curves top lines.now) }
{
    write_curve(out, b"full", 3, top, lines)?;
    write_curve(out, b"net", 1, top, lines)?;
    write_legend(out)
}

/// Appends a line that ends so far from the left, where the level stands by the same scale.
#[tactic(auto, unfolding(crate::specs::Pictures::level_along))]
pub(crate) fn write_level_along(
    out: &mut Vec<u8>,
    top: u32,
    right: u64,
    level: Level,
) -> Result<(), Memory>
    requires top { 0 < top }
    requires right { right < 2 ^ 63 }
    ensures { OnOk result (out.new.items ≡ out.old.items ++ level_along top right level) }
{
    let y = down(top, level_at(level));
    write_level_mark(out, level, (64, y), (right, y))
}

/// Appends the picture of so many hours, on a scale that ends at `top`.
#[tactic(auto, unfolding(crate::specs::Pictures::day_at))]
fn write_day_at(
    out: &mut Vec<u8>,
    top: u32,
    count: u64,
    level: Level,
    lines: &[Line],
) -> Result<(), Memory>
    requires top { 0 < top }
    requires count { count ≤ 100000 }
    requires few { length lines.now ≤ 100000 }
    ensures { OnOk result (out.new.items ≡ out.old.items ++ day_at top count level lines.now) }
{
    write_svg_start(out, (80 + 40 * count).max(720), 470)?;
    write_level_along(out, top, 60 + 40 * count, level)?;
    write_end_mark(out, Pollutant::Ozone, top)?;
    write_hours(out, lines)?;
    write_curves(out, top, lines)
}

/// Appends the full averages and the net ones, hour by hour. The scale ends at the greatest of them.
#[tactic(auto, unfolding(crate::specs::Pictures::day))]
pub(crate) fn write_day(out: &mut Vec<u8>, level: Level, lines: &[Line]) -> Result<(), Memory>
    requires { length lines.now ≤ 100000 }
    ensures { OnOk result (out.new.items ≡ out.old.items ++ pictures.day level lines.now) }
{
    let top = greatest(1, level_at(level).max(1), lines);
    write_day_at(
        out,
        greatest(3, top, lines),
        lines.len() as u64,
        level,
        lines,
    )
}
