//! A sheet in words.
ghost use Rattle.std.specs.Prelude.{◌≡◌};
ghost use Rattle.std.specs.List.{list_all};
ghost use Rattle.aq_pages.specs.Sheets.{is_graphic, is_head, is_word};

use aq_base::{Bytes, Items};
use std::marker::Model;

/// The words of a line.
pub type Line = Items<Bytes>;

/// A sheet in words: a line for each head, which is its name and its word, the names of the columns, and a
/// line for each row. It has at most 100,000 heads and as many rows.
#[derive(Drop)]
pub struct PageSheet<'a> {
    pub heads: &'a [Line],
    pub columns: &'a [Bytes],
    pub rows: &'a [Line],
}

impl<'a> Model for PageSheet<'a> {
    ghost use Rattle.std.specs.Prelude.{◌≤◌, length};
    ghost use Rattle.aq_pages.specs.Sheets as book;

    ghost Value = { book.PageSheet };

    ghost view = { λ sheet. record { heads = sheet.heads.now; columns = sheet.columns.now; rows = sheet.rows.now } };

    ghost invariant = { λ sheet. (length sheet.heads.now ≤ 100000) × (length sheet.rows.now ≤ 100000) };
}

fn is_graphic(byte: u8) -> bool
    ensures { result ≡ is_graphic byte }
{
    32 < byte && byte < 127
}

fn are_graphic(bytes: &[u8]) -> bool
    ensures { result ≡ list_all is_graphic bytes.now }
{
    for byte in bytes {
        if !is_graphic(*byte) {
            return false;
        }
    }
    true
}

/// Whether a word has printed bytes alone, one at least.
pub fn is_word(word: &[u8]) -> bool
    ensures { result ≡ is_word word.now }
{
    match word {
        [] => false,
        _ => are_graphic(word),
    }
}

/// Whether a line is a head of this name: its name and one word.
pub fn is_head(name: &[u8], line: &[Bytes]) -> bool
    ensures { result ≡ is_head name.now line.now }
{
    match line {
        [word, value] => word.as_slice() == name && is_word(value.as_slice()),
        _ => false,
    }
}
