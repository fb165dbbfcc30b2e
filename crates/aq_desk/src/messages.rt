//! The messages on the errors stream that have a number or a name in them. They take no memory.
ghost use Rattle.std.specs.Prelude.{◌≡◌, ◌<◌, ◌++◌, codes, decimal};
ghost use Rattle.aq_base.specs.Rule.{rule_name, rule_number};
ghost use Rattle.aq_rules.specs.Kept.RowChanges.{table_name};
ghost use Rattle.aq_rules.specs.Shown.OtherSheets.{digest_text};
ghost use Rattle.aq_rules.specs.Shown.Sheet.{site_text};
ghost use Rattle.aq_desk.specs.Ending.{conflict, damaged, line_refused, no_combination, no_event, no_load, no_site, too_many_lines};
ghost use Rattle.aq_desk.specs.Writing.{Writes};

use crate::writing::write_all;
use aq_base::{Failed, Rule, SiteId};
use aq_book::Place;
use aq_outside::Sink;
use aq_reports::hex_digits;
use aq_sheets::site_text;

/// Writes the place of the first damaged row, by its table's number and its index there.
pub(crate) fn write_damaged<E: Sink>(table: u8, index: u64, errors: &mut E) -> Result<(), Failed>
    ensures { let ending = damaged
        (record { table = table; index = index }) in Writes ending.message
        (E.seen errors.old) (E.seen errors.new) result }
{
    write_all(errors, b"airdv: 6 damaged ")?;
    write_all(errors, table_name(table).as_bytes())?;
    write_counted(b" ", index, b"\n", errors)
}

/// The name of a table by its number.
#[tactic(auto, using(crate::proofs::TableNames::records_name, crate::proofs::TableNames::observations_name, crate::proofs::TableNames::loads_name, crate::proofs::TableNames::observations3_name, crate::proofs::TableNames::no_name))]
fn table_name(table: u8) -> &'static str
    ensures { result.now ≡ table_name table }
{
    if table == 0 {
        return "records";
    }
    if table == 1 {
        return "observations";
    }
    if table == 2 {
        return "loads";
    }
    if table == 3 {
        return "observations3";
    }
    ""
}

/// Writes that a load's number is kept with another digest than the one that was sent.
pub(crate) fn write_conflict<E: Sink>(
    number: u32,
    kept: &[u8; 32],
    sent: &[u8; 32],
    errors: &mut E,
) -> Result<(), Failed>
    ensures { let ending = conflict number kept.now sent.now in Writes ending.message
        (E.seen errors.old) (E.seen errors.new) result }
{
    write_counted(b"airdv: 9 load ", number as u64, b" kept ", errors)?;
    write_digests(kept, sent, errors)
}

fn write_digests<E: Sink>(kept: &[u8], sent: &[u8], errors: &mut E) -> Result<(), Failed>
    ensures { Writes (digest_text kept.now ++
        (codes " sent " ++ (digest_text sent.now ++ codes "\n"))) (E.seen errors.old)
        (E.seen errors.new) result }
{
    write_digest(kept, errors)?;
    write_all(errors, b" sent ")?;
    write_digest(sent, errors)?;
    write_all(errors, b"\n")
}

/// Writes how many lines a body has that has too many.
pub(crate) fn write_lines<E: Sink>(lines: u32, errors: &mut E) -> Result<(), Failed>
    ensures { let ending = too_many_lines lines in Writes ending.message (E.seen errors.old)
        (E.seen errors.new) result }
{
    write_counted(b"airdv: 10 ", lines as u64, b" lines\n", errors)
}

/// Writes the site that is not registered.
pub(crate) fn write_no_site<E: Sink>(site: SiteId, errors: &mut E) -> Result<(), Failed>
    ensures { let ending = no_site site in Writes ending.message (E.seen errors.old)
        (E.seen errors.new) result }
{
    write_site(b"airdv: 12 no site ", site, errors)
}

/// Writes the site to which none is joined.
pub(crate) fn write_no_combination<E: Sink>(site: SiteId, errors: &mut E) -> Result<(), Failed>
    ensures { let ending = no_combination site in Writes ending.message (E.seen errors.old)
        (E.seen errors.new) result }
{
    write_site(b"airdv: 14 no combination ", site, errors)
}

/// Writes a site behind a text, to the end of a line.
fn write_site<E: Sink>(before: &[u8], site: SiteId, errors: &mut E) -> Result<(), Failed>
    ensures { Writes ((before.now ++ site_text site) ++ codes "\n") (E.seen errors.old)
        (E.seen errors.new) result }
{
    write_all(errors, before)?;
    write_all(errors, &site_text(site))?;
    write_all(errors, b"\n")
}

/// Writes the number that no event has.
pub(crate) fn write_no_event<E: Sink>(number: u32, errors: &mut E) -> Result<(), Failed>
    ensures { let ending = no_event number in Writes ending.message (E.seen errors.old)
        (E.seen errors.new) result }
{
    write_counted(b"airdv: 13 no event ", number as u64, b"\n", errors)
}

/// Writes the number of which no load stands.
pub(crate) fn write_no_load<E: Sink>(number: u32, errors: &mut E) -> Result<(), Failed>
    ensures { let ending = no_load number in Writes ending.message (E.seen errors.old)
        (E.seen errors.new) result }
{
    write_counted(b"airdv: 16 no load ", number as u64, b"\n", errors)
}

/// Writes the first line of an extract that breaks a rule, and the first rule that it breaks.
pub(crate) fn write_refused<E: Sink>(line: u32, rule: Rule, errors: &mut E) -> Result<(), Failed>
    ensures { let ending = line_refused line rule in Writes ending.message (E.seen errors.old)
        (E.seen errors.new) result }
{
    write_counted(b"airdv: 17 line ", line as u64, b" rule ", errors)?;
    write_rule(rule, errors)
}

/// Writes a rule's number and name, to the end of a line.
fn write_rule<E: Sink>(rule: Rule, errors: &mut E) -> Result<(), Failed>
    ensures { Writes (((decimal (rule_number rule) ++ codes " ") ++ rule_name rule) ++ codes "\n")
        (E.seen errors.old) (E.seen errors.new) result }
{
    write_counted(b"", rule.number() as u64, b" ", errors)?;
    write_all(errors, rule.name().as_bytes())?;
    write_all(errors, b"\n")
}

/// Writes a number between two texts.
fn write_counted<E: Sink>(
    before: &[u8],
    number: u64,
    behind: &[u8],
    errors: &mut E,
) -> Result<(), Failed>
    ensures { Writes ((before.now ++ decimal number) ++ behind.now) (E.seen errors.old)
        (E.seen errors.new) result }
{
    write_all(errors, before)?;
    write_number(number, errors)?;
    write_all(errors, behind)
}

/// Writes a number.
fn write_number<E: Sink>(number: u64, errors: &mut E) -> Result<(), Failed>
    ensures { Writes (decimal number) (E.seen errors.old) (E.seen errors.new) result }
{
    let last = [b'0' + (number % 10) as u8];
    if number < 10 {
        return write_all(errors, &last);
    }
    write_number(number / 10, errors)?;
    write_all(errors, &last)
}

/// Writes bytes as two hexadecimal digits each.
fn write_digest<E: Sink>(bytes: &[u8], errors: &mut E) -> Result<(), Failed>
    ensures { Writes (digest_text bytes.now) (E.seen errors.old) (E.seen errors.new) result }
{
    let Some((first, rest)) = bytes.split_first() else {
        return Ok(());
    };
    write_all(errors, &hex_digits(*first))?;
    write_digest(rest, errors)
}
