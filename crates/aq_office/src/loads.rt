//! The sheet of the loads that were taken.
ghost use Rattle.std.specs.Prelude.{◌≡◌, IfOk, length, map};
ghost use Rattle.aq_base.specs.declared.question.Question.TheVariants as question;
ghost use Rattle.aq_rows.specs.KeptLoads.{stored_as};
ghost use Rattle.aq_rules.specs.Listed.Loads as listed;
ghost use Rattle.aq_rules.specs.Questions.Answer.{answer};
ghost use Rattle.aq_rules.specs.Shown.Sheet.{count_cell};
ghost use Rattle.aq_office.specs.Answers.{seen};

use crate::answers::Answer;
use aq_base::{Items, Memory};
use aq_book::Book;
use aq_reports::digest_text;
use aq_rows::{KeptLoad, Loads};
use aq_sheets::{Cells, Head, Sheet, SheetCell, list, names};
use std::alloc::Global;

/// The loads that were taken, by number.
#[tactic(auto, unfolding(aq_rules::specs::Questions::Answer::answer, aq_rules::specs::Listed::Loads::loads_answer))]
pub(crate) fn loads_of(alloc: Global, book: &Book) -> Result<Answer, Memory>
    ensures { IfOk result (λ found. answer book.now question.Loads ≡ seen found) }
{
    Answer::of_sheet(alloc, loads_sheet(alloc, book.loads())?)
}

/// The sheet of loads.
fn loads_sheet(alloc: Global, loads: &Loads) -> Result<Sheet, Memory>
    ensures { IfOk result (λ sheet. sheet ≡ listed.loads_sheet loads.now) }
{
    let rows = load_rows(alloc, loads)?;
    let number = Head::new(alloc, b"loads", number_of(&rows))?;
    let heads = list(alloc, [number])?;
    let columns = names(
        alloc,
        &[b"load", b"lines", b"accepted", b"refused", b"digest"],
    )?;
    Ok(Sheet::new(heads, columns, Items::from_vec(rows)))
}

/// How many rows there are.
fn number_of(rows: &Vec<Cells>) -> SheetCell
    ensures { result ≡ count_cell (length rows.now.items) }
{
    SheetCell::int(rows.len() as i64)
}

/// A row for each load.
fn load_rows(alloc: Global, loads: &Loads) -> Result<Vec<Cells>, Memory>
    ensures { IfOk result (λ rows. rows.items ≡ map listed.load_cells loads.now) }
{
    let mut rows = Vec::new(alloc);
    for (number, kept) in loads.entries() {
        rows.push(load_cells(alloc, *number, kept)?)?;
    }
    Ok(rows)
}

fn load_cells(alloc: Global, number: u32, kept: &KeptLoad) -> Result<Cells, Memory>
    ensures { IfOk result (λ cells. cells ≡ listed.load_cells (stored_as number kept.now.digest kept.now.reply)) }
{
    let digest = digest_text(alloc, &kept.digest)?;
    let digest = SheetCell::text(alloc, digest.as_slice())?;
    list(
        alloc,
        [
            SheetCell::count(number),
            SheetCell::count(kept.reply.lines),
            SheetCell::count(kept.reply.accepted),
            SheetCell::count(kept.reply.refused),
            digest,
        ],
    )
}
