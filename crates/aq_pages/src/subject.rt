//! What a page is about, and what each of its sections is about: its standard, its site, its
//! parameter, its year or its day.
ghost use Rattle.std.specs.Prelude.{◌≡◌, ◌++◌, false, OnOk};
ghost use Rattle.aq_pages.specs.Subject.{heading, is_about, page_title, subject_from};

use crate::html::write_cell;
use crate::numbers::word_at;
use crate::sheet::{Line, is_head};
use aq_base::{Bytes, Memory};

/// Whether a line is a head that says what its sheet is about.
#[tactic(auto, unfolding(crate::specs::Subject::is_about))]
fn is_about(line: &[Bytes]) -> bool
    ensures { result ≡ is_about line.now }
{
    is_head(b"standard", line)
        || is_head(b"site", line)
        || is_head(b"parameter", line)
        || is_head(b"year", line)
        || is_head(b"day", line)
}

/// Appends the words of the first heads that say what a sheet is about, each between two texts.
fn write_subject(out: &mut Vec<u8>, start: &[u8], end: &[u8], lines: &[Line]) -> Result<(), Memory>
    ensures { OnOk result (out.new.items ≡ out.old.items ++ subject_from false start.now end.now lines.now) }
{
    let mut begun = false;
    for line in lines {
        if is_about(line.as_slice()) {
            write_cell(out, start, end, word_at(1, line.as_slice()))?;
            begun = true;
        } else if begun {
            return Ok(());
        }
    }
    Ok(())
}

/// Appends what a page is about, as its name in a browser, and where its body begins.
#[tactic(auto, unfolding(crate::specs::Subject::page_title))]
pub(crate) fn write_page_title(out: &mut Vec<u8>, lines: &[Line]) -> Result<(), Memory>
    ensures { OnOk result (out.new.items ≡ out.old.items ++ page_title lines.now) }
{
    out.extend_from_slice(b"<title>airdv")?;
    write_subject(out, b" &#183; ", b"", lines)?;
    out.extend_from_slice(b"</title>\n</head>\n<body>\n")?;
    Ok(())
}

/// Appends the title of a kind of sheet, and behind it what the sheet is about.
#[tactic(auto, unfolding(crate::specs::Subject::heading))]
pub(crate) fn write_heading(out: &mut Vec<u8>, title: &str, heads: &[Line]) -> Result<(), Memory>
    ensures { OnOk result (out.new.items ≡ out.old.items ++ heading title.now heads.now) }
{
    out.extend_from_slice(b"<section>\n<h1>")?;
    out.extend_from_slice(title.as_bytes())?;
    out.extend_from_slice(b"<small>")?;
    write_subject(out, b" <span>", b"</span>", heads)?;
    out.extend_from_slice(b"</small></h1>\n")?;
    Ok(())
}
