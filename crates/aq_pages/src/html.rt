//! Texts, rows and the elements of a picture, in HTML. A place in a picture is so far from the left, and
//! from the top.
ghost use Rattle.std.specs.Prelude.{◌≡◌, ◌<◌, ◌^◌, ◌++◌, OnOk, flat_map};
ghost use Rattle.std.specs.List.{list_all};
ghost use Rattle.aq_pages.specs.Html.{attribute, cell, circle, escaped, escaped_byte, is_plain, line, number, rect, row, start_mark, svg_start, text_start};

use aq_base::{Bytes, Memory};
use aq_num::write_fixed;

/// Appends a byte, by its name if it would mean something.
#[tactic(auto, unfolding(crate::specs::Html::escaped_byte))]
fn write_byte(out: &mut Vec<u8>, byte: u8) -> Result<(), Memory>
    ensures { OnOk result (out.new.items ≡ out.old.items ++ escaped_byte byte) }
{
    if byte == b'&' {
        out.extend_from_slice(b"&amp;")?;
    } else if byte == b'<' {
        out.extend_from_slice(b"&lt;")?;
    } else if byte == b'>' {
        out.extend_from_slice(b"&gt;")?;
    } else if byte == b'"' {
        out.extend_from_slice(b"&quot;")?;
    } else {
        out.push(byte)?;
    }
    Ok(())
}

/// Whether a byte stands for itself.
#[tactic(auto, unfolding(crate::specs::Html::is_plain))]
fn is_plain(byte: u8) -> bool
    ensures { result ≡ is_plain byte }
{
    byte != b'&' && byte != b'<' && byte != b'>' && byte != b'"'
}

/// Whether all bytes of a text stand for themselves. All are tested in any case, so that many are tested at once.
#[inline(never)]
pub fn are_plain(bytes: &[u8]) -> bool
    ensures { result ≡ list_all is_plain bytes.now }
{
    let mut are_plain = true;
    for byte in bytes {
        are_plain &= is_plain(*byte);
    }
    are_plain
}

/// Appends each byte of a text, by its name if it would mean something.
fn write_bytes(out: &mut Vec<u8>, text: &[u8]) -> Result<(), Memory>
    ensures { OnOk result (out.new.items ≡ out.old.items ++ escaped text.now) }
{
    for byte in text {
        write_byte(out, *byte)?;
    }
    Ok(())
}

/// Appends a text, escaped; whole, if each of its bytes stands for itself.
#[tactic(auto, using(crate::proofs::Escapes::plain_stays))]
pub fn write_escaped(out: &mut Vec<u8>, text: &[u8]) -> Result<(), Memory>
    ensures { OnOk result (out.new.items ≡ out.old.items ++ escaped text.now) }
{
    if are_plain(text) {
        out.extend_from_slice(text)?;
        return Ok(());
    }
    write_bytes(out, text)
}

/// Appends a row: a cell for each word of a line, between these tags.
#[tactic(auto, unfolding(crate::specs::Html::row))]
pub(crate) fn write_row(
    out: &mut Vec<u8>,
    start: &[u8],
    end: &[u8],
    line: &[Bytes],
) -> Result<(), Memory>
    ensures { OnOk result (out.new.items ≡ out.old.items ++ row start.now end.now line.now) }
{
    out.extend_from_slice(b"<tr>")?;
    write_cells(out, start, end, line)?;
    out.extend_from_slice(b"</tr>\n")?;
    Ok(())
}

/// Appends a cell: its word, escaped, between these tags.
pub fn write_cell(out: &mut Vec<u8>, start: &[u8], end: &[u8], word: &[u8]) -> Result<(), Memory>
    ensures { OnOk result (out.new.items ≡ out.old.items ++ cell start.now end.now word.now) }
{
    out.extend_from_slice(start)?;
    write_escaped(out, word)?;
    out.extend_from_slice(end)?;
    Ok(())
}

fn write_cells(out: &mut Vec<u8>, start: &[u8], end: &[u8], words: &[Bytes]) -> Result<(), Memory>
    ensures { OnOk result (out.new.items ≡ out.old.items ++ flat_map (cell start.now end.now) words.now) }
{
    for word in words {
        write_cell(out, start, end, word.as_slice())?;
    }
    Ok(())
}

/// Appends a whole number.
pub(crate) fn write_number(out: &mut Vec<u8>, value: u64) -> Result<(), Memory>
    requires { value < 2 ^ 63 }
    ensures { OnOk result (out.new.items ≡ out.old.items ++ number value) }
{
    write_fixed(out, value as i64, 0)
}

/// Appends an attribute that is a number.
#[tactic(auto, unfolding(crate::specs::Html::attribute))]
pub(crate) fn write_attribute(out: &mut Vec<u8>, name: &[u8], value: u64) -> Result<(), Memory>
    requires { value < 2 ^ 63 }
    ensures { OnOk result (out.new.items ≡ out.old.items ++ attribute name.now value) }
{
    out.push(b' ')?;
    out.extend_from_slice(name)?;
    out.extend_from_slice(b"=\"")?;
    write_number(out, value)?;
    out.push(b'"')?;
    Ok(())
}

/// Appends the start of a picture.
#[tactic(auto, unfolding(crate::specs::Html::svg_start))]
pub(crate) fn write_svg_start(out: &mut Vec<u8>, width: u64, height: u64) -> Result<(), Memory>
    requires { (width < 2 ^ 63) × (height < 2 ^ 63) }
    ensures { OnOk result (out.new.items ≡ out.old.items ++ svg_start width height) }
{
    out.extend_from_slice(b"<svg viewBox=\"0 0 ")?;
    write_number(out, width)?;
    out.push(b' ')?;
    write_number(out, height)?;
    out.extend_from_slice(b"\">\n")?;
    Ok(())
}

/// Appends what stands before a text of this class at a place.
#[tactic(auto, unfolding(crate::specs::Html::text_start))]
pub(crate) fn write_text_start(
    out: &mut Vec<u8>,
    class: &[u8],
    x: u64,
    y: u64,
) -> Result<(), Memory>
    requires { (x < 2 ^ 63) × (y < 2 ^ 63) }
    ensures { OnOk result (out.new.items ≡ out.old.items ++ text_start class.now x y) }
{
    out.extend_from_slice(b"<text class=\"")?;
    out.extend_from_slice(class)?;
    out.push(b'"')?;
    write_attribute(out, b"x", x)?;
    write_attribute(out, b"y", y)?;
    out.push(b'>')?;
    Ok(())
}

/// Appends a straight line, from one place to another.
#[tactic(auto, unfolding(crate::specs::Html::line))]
pub(crate) fn write_line(out: &mut Vec<u8>, from: (u64, u64), to: (u64, u64)) -> Result<(), Memory>
    requires from { (from.0 < 2 ^ 63) × (from.1 < 2 ^ 63) }
    requires to { (to.0 < 2 ^ 63) × (to.1 < 2 ^ 63) }
    ensures { OnOk result (out.new.items ≡ out.old.items ++ line from to) }
{
    out.extend_from_slice(b"<line")?;
    write_attribute(out, b"x1", from.0)?;
    write_attribute(out, b"y1", from.1)?;
    write_attribute(out, b"x2", to.0)?;
    write_attribute(out, b"y2", to.1)?;
    out.extend_from_slice(b"/>")?;
    Ok(())
}

/// Appends a bar, this far from the top.
#[tactic(auto, unfolding(crate::specs::Html::rect))]
pub(crate) fn write_rect(out: &mut Vec<u8>, y: u64, width: u64) -> Result<(), Memory>
    requires y { y < 2 ^ 63 }
    requires width { width < 2 ^ 63 }
    ensures { OnOk result (out.new.items ≡ out.old.items ++ rect y width) }
{
    out.extend_from_slice(b"<rect")?;
    write_attribute(out, b"x", 20)?;
    write_attribute(out, b"y", y)?;
    write_attribute(out, b"width", width)?;
    write_attribute(out, b"height", 24)?;
    out.extend_from_slice(b"/>")?;
    Ok(())
}

/// Appends a circle round a place.
#[tactic(auto, unfolding(crate::specs::Html::circle))]
pub(crate) fn write_circle(out: &mut Vec<u8>, x: u64, y: u64, radius: u64) -> Result<(), Memory>
    requires place { (x < 2 ^ 63) × (y < 2 ^ 63) }
    requires radius { radius < 2 ^ 63 }
    ensures { OnOk result (out.new.items ≡ out.old.items ++ circle x y radius) }
{
    out.extend_from_slice(b"<circle")?;
    write_attribute(out, b"cx", x)?;
    write_attribute(out, b"cy", y)?;
    write_attribute(out, b"r", radius)?;
    out.extend_from_slice(b"/>")?;
    Ok(())
}

/// Appends the line at which a bar starts, this far from the top.
#[tactic(auto, unfolding(crate::specs::Html::start_mark))]
pub(crate) fn write_start_mark(out: &mut Vec<u8>, y: u64) -> Result<(), Memory>
    requires { y < 2 ^ 62 }
    ensures { OnOk result (out.new.items ≡ out.old.items ++ start_mark y) }
{
    write_line(out, (20, y), (20, y + 24))
}
