//! Lists of few items, as a sheet has them.
ghost use Rattle.std.specs.Prelude.{◌≡◌, [], ◌∷◌, ◌++◌, IfOk, OnOk, map};
ghost use Rattle.aq_rules.specs.Shown.Sheet.{count_cell, head_of};
ghost use Rattle.aq_rules.specs.Shown.Sheet.SheetCell.{Text};

use crate::cell::SheetCell;
use crate::sheet::{Head, Heads, Names};
use aq_base::{Bytes, Items, Memory};
use std::alloc::Global;

/// The list of these items.
pub fn list<T: Drop, const N: usize>(alloc: Global, items: [T; N]) -> Result<Items<T>, Memory>
    ensures { IfOk result (λ list. list ≡ items) }
{
    Ok(Items::from_vec(Vec::from_array(alloc, items)?))
}

/// The column names of these texts.
pub fn names(alloc: Global, texts: &[&[u8]]) -> Result<Names, Memory>
    ensures { IfOk result (λ names. names ≡ map (λ text. text.now) texts.now) }
{
    let mut names = Names::new(alloc);
    for text in texts {
        names.push(Bytes::from_vec(text.to_vec(alloc)?))?;
    }
    Ok(names)
}

/// One head more.
pub fn add_head(
    alloc: Global,
    heads: &mut Heads,
    name: &[u8],
    cell: SheetCell,
) -> Result<(), Memory>
    ensures { OnOk result (heads.new ≡ heads.old ++ head_of name.now cell ∷ []) }
{
    heads.push(Head::new(alloc, name, cell)?)?;
    Ok(())
}

/// One head more, with a text.
pub fn add_text(alloc: Global, heads: &mut Heads, name: &[u8], text: &[u8]) -> Result<(), Memory>
    ensures { OnOk result (heads.new ≡ heads.old ++ head_of name.now (Text text.now) ∷ []) }
{
    let cell = SheetCell::text(alloc, text)?;
    add_head(alloc, heads, name, cell)
}

/// One head more, with a number of things.
pub fn add_count(alloc: Global, heads: &mut Heads, name: &[u8], number: u32) -> Result<(), Memory>
    ensures { OnOk result (heads.new ≡ heads.old ++ head_of name.now (count_cell number) ∷ []) }
{
    add_head(alloc, heads, name, SheetCell::count(number))
}
