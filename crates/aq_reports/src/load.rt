//! The sheet of a load's reply.
ghost use Rattle.std.specs.Prelude.{◌≡◌, ◌∷◌, [], ◌++◌, IfOk, OnOk, map};
ghost use Rattle.aq_base.specs.Rule.{rule_name, rule_number};
ghost use Rattle.aq_rules.specs.Shown.Sheet.{count_cell};
ghost use Rattle.aq_rules.specs.Shown.Sheet.SheetCell.{Text};
ghost use Rattle.aq_rules.specs.Shown.Sheets as sheets;

use aq_base::{ListedLine, LoadReply, Memory, RestRule, Rule};
use aq_sheets::{Cells, Head, Rows, Sheet, SheetCell, list, names};
use std::alloc::Global;

/// The sheet of a reply: the listed lines in order, and then the further refused lines by their rules.
pub fn load_sheet(alloc: Global, reply: &LoadReply) -> Result<Sheet, Memory>
    ensures { IfOk result (λ sheet. sheet ≡ sheets.load_sheet reply.now) }
{
    let number = Head::new(alloc, b"load", SheetCell::count(reply.number))?;
    let lines = Head::new(alloc, b"lines", SheetCell::count(reply.lines))?;
    let accepted = Head::new(alloc, b"accepted", SheetCell::count(reply.accepted))?;
    let refused = Head::new(alloc, b"refused", SheetCell::count(reply.refused))?;
    let heads = list(alloc, [number, lines, accepted, refused])?;
    let columns = names(alloc, &[b"line", b"rule", b"name", b"count"])?;
    let mut rows = Rows::new(alloc);
    add_listed(alloc, &mut rows, reply.listed.as_slice())?;
    add_rest(alloc, &mut rows, reply.rest.as_slice())?;
    Ok(Sheet::new(heads, columns, rows))
}

/// A row for each refused line that is listed.
fn add_listed(alloc: Global, rows: &mut Rows, lines: &[ListedLine]) -> Result<(), Memory>
    ensures { OnOk result (rows.new ≡ rows.old ++ map sheets.listed_row lines.now) }
{
    for listed in lines {
        let line = SheetCell::count(listed.line);
        rows.push(refused_row(alloc, line, listed.rule, 1)?)?;
    }
    Ok(())
}

/// A row for each rule that further lines broke.
fn add_rest(alloc: Global, rows: &mut Rows, rules: &[RestRule]) -> Result<(), Memory>
    ensures { OnOk result (rows.new ≡ rows.old ++ map sheets.rest_row rules.now) }
{
    for rest in rules {
        rows.push(refused_row(alloc, SheetCell::missing(), rest.rule, rest.count)?)?;
    }
    Ok(())
}

/// A row of so many lines that broke a rule.
fn refused_row(alloc: Global, line: SheetCell, rule: Rule, count: u32) -> Result<Cells, Memory>
    ensures { IfOk result (λ cells. cells ≡ line ∷ count_cell (rule_number rule) ∷ Text (rule_name rule) ∷ count_cell count ∷ []) }
{
    let number = SheetCell::count(u32::from(rule.number()));
    let name = SheetCell::text(alloc, rule.name().as_bytes())?;
    list(alloc, [line, number, name, SheetCell::count(count)])
}
