//! Texts that hold words with single spaces between them, and pairs of numbers with a colon between
//! them.
ghost use Rattle.std.specs.Prelude.{◌≡◌, ◌<◌, ◌∷◌, ◌++◌, OnOk, MatchOption, length};
ghost use Rattle.std.specs.List.{after_first, before_first, position_or_len, slice_split};
ghost use Rattle.aq_rules.specs.Kept.Rows.{pair_text, words, listed_text, rest_text};
ghost use Rattle.aq_rules.specs.Lines.Fields.{is_space};
ghost use Rattle.aq_rules.specs.Shown.Export.{codes_text, null_text};
ghost use Rattle.aq_rows.specs.Texts.{is_byte, words_left};

use aq_base::{Code, ListedLine, Memory, RestRule};
use aq_num::write_fixed;
use aq_rd::write_code;
use std::marker::Model;

/// The parts of a text between single spaces, in order; an empty text has none. Contracts see the list
/// of those that are left. It takes no memory.
#[derive(Drop)]
pub(crate) struct Words<'a> {
    rest: Option<&'a [u8]>,
}

impl<'a> Model for Words<'a> {
    ghost use Rattle.std.specs.Prelude.{List, ℕ};
    ghost use Rattle.aq_rows.specs.Texts.{words_left};

    ghost Value = { List (List ℕ) };

    ghost view = { λ words. words_left words.rest };
}

impl<'a> Iterator for Words<'a> {
    type Item = &'a [u8];

    ghost use Rattle.std.specs.Iterator.{YieldsFirstBy, item_count};
    ghost use Rattle.aq_rows.specs.Texts.{word_of};

    ghost next_gives = { YieldsFirstBy word_of (λ left. left) };

    ghost remaining = { item_count (λ left. left) };

    fn next(&mut self) -> Option<&'a [u8]> {
        let (word, rest) = first_word(self.rest?);
        self.rest = rest;
        Some(word)
    }
}

/// The words of a text.
pub(crate) fn words_of(text: &[u8]) -> Words<'_>
    ensures { result ≡ words text.now }
{
    if text.is_empty() {
        Words { rest: None }
    } else {
        Words { rest: Some(text) }
    }
}

/// The first word of a text, and what stands after the space after it, if there is one.
#[tactic(auto, using(crate::proofs::Words::one_word, crate::proofs::Words::more_words))]
fn first_word(text: &[u8]) -> (&[u8], Option<&[u8]>)
    ensures { slice_split is_space text.now ≡ result.0.now ∷ words_left result.1 }
{
    match cut_at(b' ', text) {
        Some((word, behind)) => (word, Some(behind)),
        None => (text, None),
    }
}

/// What stands before the first of a byte and what stands after it, if the text has it.
pub(crate) fn cut_at(byte: u8, text: &[u8]) -> Option<(&[u8], &[u8])>
    ensures { MatchOption result (position_or_len (is_byte byte) text.now ≡ length text.now)
        (λ parts. (position_or_len (is_byte byte) text.now < length text.now)
        × (parts.0.now ≡ before_first (is_byte byte) text.now)
        × (parts.1.now ≡ after_first (is_byte byte) text.now)) }
{
    for place in 0..text.len() {
        if text[place] == byte {
            return Some((&text[..place], &text[place + 1..]));
        }
    }
    None
}

/// Appends a null code, if there is one.
pub(crate) fn write_null(out: &mut Vec<u8>, null: &Option<Code>) -> Result<(), Memory>
    ensures { OnOk result (out.new.items ≡ out.old.items ++ null_text null.now) }
{
    if let Some(code) = null {
        write_code(out, code)?;
    }
    Ok(())
}

/// Appends codes with single spaces between them.
pub(crate) fn write_codes(out: &mut Vec<u8>, codes: &[Code]) -> Result<(), Memory>
    ensures { OnOk result (out.new.items ≡ out.old.items ++ codes_text codes.now) }
{
    let Some((first, rest)) = codes.split_first() else {
        return Ok(());
    };
    write_code(out, first)?;
    for code in rest {
        out.push(b' ')?;
        write_code(out, code)?;
    }
    Ok(())
}

/// Appends `line:rule` for each listed line, with single spaces between them.
pub(crate) fn write_listed(out: &mut Vec<u8>, listed: &[ListedLine]) -> Result<(), Memory>
    ensures { OnOk result (out.new.items ≡ out.old.items ++ listed_text listed.now) }
{
    let Some((first, rest)) = listed.split_first() else {
        return Ok(());
    };
    write_pair(out, first.line, u32::from(first.rule.number()))?;
    for listed in rest {
        out.push(b' ')?;
        write_pair(out, listed.line, u32::from(listed.rule.number()))?;
    }
    Ok(())
}

/// Appends `rule:count` for each rule of the rest, with single spaces between them.
pub(crate) fn write_rest(out: &mut Vec<u8>, rules: &[RestRule]) -> Result<(), Memory>
    ensures { OnOk result (out.new.items ≡ out.old.items ++ rest_text rules.now) }
{
    let Some((first, rest)) = rules.split_first() else {
        return Ok(());
    };
    write_pair(out, u32::from(first.rule.number()), first.count)?;
    for counted in rest {
        out.push(b' ')?;
        write_pair(out, u32::from(counted.rule.number()), counted.count)?;
    }
    Ok(())
}

/// Appends two numbers with a colon between them.
fn write_pair(out: &mut Vec<u8>, a: u32, b: u32) -> Result<(), Memory>
    ensures { OnOk result (out.new.items ≡ out.old.items ++ pair_text a b) }
{
    write_fixed(out, i64::from(a), 0)?;
    out.push(b':')?;
    write_fixed(out, i64::from(b), 0)?;
    Ok(())
}
