//! The page of a text.
ghost use Rattle.std.specs.Prelude.{◌≡◌, IfOk};
ghost use Rattle.airdv_page.specs.Page as pages;

use crate::reading::{MOST_LINES, MOST_SHEETS, lines_of, read_sheets};
use aq_base::{Bytes, Memory};
use aq_pages::page_of_sheets;
use std::alloc::Global;

/// The page of a text, its title and its sections between these two texts; `None` if the text is none of sheets.
#[tactic(auto, unfolding(crate::specs::Page::page_of, crate::specs::Reading::sheets_of))]
pub fn page_of(
    alloc: Global,
    text: &[u8],
    head: &[u8],
    foot: &[u8],
) -> Result<Option<Bytes>, Memory>
    ensures { IfOk result (λ page. page ≡ pages.page_of (record { head = head.now; foot = foot.now }) text.now) }
{
    if text.is_empty() {
        return Ok(None);
    }
    let lines = lines_of(alloc, text)?;
    if lines.as_slice().len() > MOST_LINES {
        return Ok(None);
    }
    let mut sheets = Vec::new(alloc);
    if !read_sheets(MOST_SHEETS, lines.as_slice(), &mut sheets)? {
        return Ok(None);
    }
    let page = page_of_sheets(alloc, head, lines.as_slice(), sheets.as_slice(), foot)?;
    Ok(Some(page))
}
