//! A bar for each line of a sheet, beside the level.
ghost use Rattle.std.specs.Prelude.{◌≡◌, ◌≤◌, ◌<◌, ◌++◌, ◌^◌, length, OnOk};
ghost use Rattle.aq_pages.specs.Pictures as pictures;
ghost use Rattle.aq_pages.specs.Pictures.{bar, bar_at, bars_at, bars_from, caption, decision, decisions_from, end_of, highest_at, label, labelled, level_across, look, look_of, room_for, word_if};

use crate::html::{write_escaped, write_rect, write_start_mark, write_svg_start, write_text_start};
use crate::level::{Level, level_at, level_or_zero, write_level_mark};
use crate::numbers::{greatest, number_at, scaled, word_at};
use crate::sheet::Line;
use aq_base::{Bytes, Memory};

/// The length of a bar that stands for the greatest number.
const LONGEST: u16 = 680;

/// Which words of a line are drawn, by their places from 0, the number at which the scale ends, and the
/// room above the bars.
#[derive(Clone, Copy)]
struct Layout {
    value: Option<usize>,
    verdict: Option<usize>,
    top: u32,
    room: u64,
}

/// The class of a verdict, which has its own colour and hatching.
#[tactic(auto, unfolding(crate::specs::Pictures::look_of))]
fn look_of(verdict: &[u8]) -> &'static str
    ensures { result.now ≡ look_of verdict.now }
{
    if verdict == b"Met".as_slice() {
        "met"
    } else if verdict == b"NotMet".as_slice() {
        "notmet"
    } else if verdict == b"Incomplete".as_slice() {
        "incomplete"
    } else {
        "plain"
    }
}

/// The word at a place of a line, if there is one.
fn word_if(place: Option<usize>, line: &[Bytes]) -> &[u8]
    ensures { result.now ≡ word_if place line.now }
{
    match place {
        Some(place) => word_at(place, line),
        None => b"",
    }
}

fn write_look(out: &mut Vec<u8>, verdict: Option<usize>, line: &[Bytes]) -> Result<(), Memory>
    ensures { OnOk result (out.new.items ≡ out.old.items ++ look verdict line.now) }
{
    out.extend_from_slice(look_of(word_if(verdict, line)).as_bytes())?;
    Ok(())
}

/// Appends a line's first word, its value and its verdict.
#[tactic(auto, unfolding(crate::specs::Pictures::label))]
fn write_label(out: &mut Vec<u8>, layout: Layout, line: &[Bytes]) -> Result<(), Memory>
    ensures { OnOk result (out.new.items ≡ out.old.items ++ label layout.value layout.verdict line.now) }
{
    write_escaped(out, word_at(0, line))?;
    out.extend_from_slice(b": ")?;
    write_escaped(out, word_if(layout.value, line))?;
    out.push(b' ')?;
    write_escaped(out, word_if(layout.verdict, line))
}

/// Appends the label of a bar, this far from the top.
#[tactic(auto, unfolding(crate::specs::Pictures::caption))]
fn write_caption(out: &mut Vec<u8>, layout: Layout, y: u64, line: &[Bytes]) -> Result<(), Memory>
    requires { y < 2 ^ 63 }
    ensures { OnOk result (out.new.items ≡ out.old.items ++ caption layout.value layout.verdict y line.now) }
{
    out.extend_from_slice(b"<g class=\"")?;
    write_look(out, layout.verdict, line)?;
    out.extend_from_slice(b"\">")?;
    write_text_start(out, b"label", 20, y)?;
    write_label(out, layout, line)?;
    out.extend_from_slice(b"</text>")?;
    Ok(())
}

/// Appends a bar as long as its number by the scale, and a line at its start, if there is a number.
#[tactic(auto, unfolding(crate::specs::Pictures::bar))]
fn write_bar(out: &mut Vec<u8>, top: u32, y: u64, number: Option<u32>) -> Result<(), Memory>
    requires top { 0 < top }
    requires y { y < 2 ^ 62 }
    ensures { OnOk result (out.new.items ≡ out.old.items ++ bar top y number) }
{
    match number {
        Some(number) => {
            write_start_mark(out, y)?;
            write_rect(out, y, scaled(top, LONGEST, number))
        }
        None => Ok(()),
    }
}

/// Appends the bar of a line, or a square if it is by its verdict alone.
#[tactic(auto, unfolding(crate::specs::Pictures::bar_at))]
fn write_bar_at(
    out: &mut Vec<u8>,
    top: u32,
    y: u64,
    place: Option<usize>,
    line: &[Bytes],
) -> Result<(), Memory>
    requires top { 0 < top }
    requires y { y < 2 ^ 62 }
    ensures { OnOk result (out.new.items ≡ out.old.items ++ bar_at top y place line.now) }
{
    match place {
        Some(place) => write_bar(out, top, y, number_at(place, line)),
        None => write_rect(out, y, 24),
    }
}

/// Appends a label and its bar.
#[tactic(auto, unfolding(crate::specs::Pictures::labelled))]
fn write_labelled(
    out: &mut Vec<u8>,
    layout: Layout,
    index: u64,
    line: &[Bytes],
) -> Result<(), Memory>
    requires top { 0 < layout.top }
    requires room { layout.room ≤ 48 }
    requires index { index ≤ 100000 }
    ensures { OnOk result (out.new.items ≡ out.old.items ++ labelled layout.value layout.verdict layout.top layout.room index line.now) }
{
    let y = layout.room + 64 * index;
    write_caption(out, layout, 28 + y, line)?;
    write_bar_at(out, layout.top, 36 + y, layout.value, line)?;
    out.extend_from_slice(b"</g>\n")?;
    Ok(())
}

fn write_bars(out: &mut Vec<u8>, layout: Layout, lines: &[Line]) -> Result<(), Memory>
    requires top { 0 < layout.top }
    requires room { layout.room ≤ 48 }
    requires few { length lines.now ≤ 100000 }
    ensures { OnOk result (out.new.items ≡ out.old.items ++ bars_from layout.value layout.verdict layout.top layout.room 0 lines.now) }
{
    for (i, line) in lines.iter().enumerate() {
        write_labelled(out, layout, i as u64, line.as_slice())?;
    }
    Ok(())
}

/// Appends a line across so many bars, where the level stands by the same scale.
#[tactic(auto, unfolding(crate::specs::Pictures::level_across))]
fn write_level_across(
    out: &mut Vec<u8>,
    top: u32,
    count: u64,
    level: Option<Level>,
) -> Result<(), Memory>
    requires top { 0 < top }
    requires count { count ≤ 100000 }
    ensures { OnOk result (out.new.items ≡ out.old.items ++ level_across top count level) }
{
    match level {
        Some(level) => {
            let x = 20 + scaled(top, LONGEST, level_at(level));
            write_level_mark(out, level, (x, 48), (x, 52 + 64 * count))
        }
        None => Ok(()),
    }
}

#[tactic(auto, unfolding(crate::specs::Pictures::bars_at))]
fn write_bars_at(
    out: &mut Vec<u8>,
    layout: Layout,
    count: u64,
    level: Option<Level>,
    lines: &[Line],
) -> Result<(), Memory>
    requires top { 0 < layout.top }
    requires room { layout.room ≤ 48 }
    requires count { count ≤ 100000 }
    requires few { length lines.now ≤ 100000 }
    ensures { OnOk result (out.new.items ≡ out.old.items ++ bars_at layout.top layout.room count layout.value layout.verdict level lines.now) }
{
    write_svg_start(out, 720, 16 + layout.room + 64 * count)?;
    write_bars(out, layout, lines)?;
    write_level_across(out, layout.top, count, level)?;
    out.extend_from_slice(b"</svg>\n")?;
    Ok(())
}

/// The number at which the scale ends: the greatest of the values and the level.
fn end_of(value: Option<usize>, level: Option<Level>, lines: &[Line]) -> u32
    ensures end { result ≡ end_of value level lines.now }
    ensures above { 0 < result }
{
    let least = level_or_zero(level).max(1);
    match value {
        Some(place) => greatest(place, least, lines),
        None => least,
    }
}

/// The room above the bars, for the level in words; none if there is no level.
fn room_for(level: Option<Level>) -> u64
    ensures room { result ≡ room_for level }
    ensures small { result ≤ 48 }
{
    match level {
        Some(_) => 48,
        None => 0,
    }
}

/// Appends a bar for each line, by the words at these places, beside the level.
#[tactic(auto, unfolding(crate::specs::Pictures::bars))]
pub(crate) fn write_picture(
    out: &mut Vec<u8>,
    value: Option<usize>,
    verdict: Option<usize>,
    level: Option<Level>,
    lines: &[Line],
) -> Result<(), Memory>
    requires { length lines.now ≤ 100000 }
    ensures { OnOk result (out.new.items ≡ out.old.items ++ pictures.bars value verdict level lines.now) }
{
    let layout = Layout {
        value,
        verdict,
        top: end_of(value, level, lines),
        room: room_for(level),
    };
    write_bars_at(out, layout, lines.len() as u64, level, lines)
}

/// Appends the mark of a row whose rank decides, beside its label.
#[tactic(auto, unfolding(crate::specs::Pictures::decision))]
fn write_decision(
    out: &mut Vec<u8>,
    decides: &[u8],
    room: u64,
    index: u64,
    line: &[Bytes],
) -> Result<(), Memory>
    requires room { room ≤ 48 }
    requires index { index ≤ 100000 }
    ensures { OnOk result (out.new.items ≡ out.old.items ++ decision decides.now room index line.now) }
{
    if word_at(0, line) == decides {
        write_text_start(out, b"decides", 690, 28 + (room + 64 * index))?;
        out.extend_from_slice(b"decides</text>\n")?;
    }
    Ok(())
}

fn write_decisions(
    out: &mut Vec<u8>,
    decides: &[u8],
    room: u64,
    lines: &[Line],
) -> Result<(), Memory>
    requires room { room ≤ 48 }
    requires few { length lines.now ≤ 100000 }
    ensures { OnOk result (out.new.items ≡ out.old.items ++ decisions_from decides.now room 0 lines.now) }
{
    for (i, line) in lines.iter().enumerate() {
        write_decision(out, decides, room, i as u64, line.as_slice())?;
    }
    Ok(())
}

/// Appends a bar for each of the highest days, beside the level, and marks the row whose rank decides.
#[tactic(auto, unfolding(crate::specs::Pictures::highest))]
pub(crate) fn write_highest(
    out: &mut Vec<u8>,
    decides: &[u8],
    level: Option<Level>,
    lines: &[Line],
) -> Result<(), Memory>
    requires { length lines.now ≤ 100000 }
    ensures { OnOk result (out.new.items ≡ out.old.items ++ pictures.highest decides.now level lines.now) }
{
    let layout = Layout {
        value: Some(2),
        verdict: Some(1),
        top: end_of(Some(2), level, lines),
        room: room_for(level),
    };
    write_highest_at(out, decides, layout, lines.len() as u64, level, lines)
}

fn write_highest_at(
    out: &mut Vec<u8>,
    decides: &[u8],
    layout: Layout,
    count: u64,
    level: Option<Level>,
    lines: &[Line],
) -> Result<(), Memory>
    requires top { 0 < layout.top }
    requires room { layout.room ≤ 48 }
    requires count { count ≤ 100000 }
    requires few { length lines.now ≤ 100000 }
    ensures { OnOk result (out.new.items ≡ out.old.items ++ highest_at decides.now layout.top layout.room count layout.value layout.verdict level lines.now) }
{
    write_svg_start(out, 720, 16 + layout.room + 64 * count)?;
    write_bars(out, layout, lines)?;
    write_decisions(out, decides, layout.room, lines)?;
    write_level_across(out, layout.top, count, level)?;
    out.extend_from_slice(b"</svg>\n")?;
    Ok(())
}
