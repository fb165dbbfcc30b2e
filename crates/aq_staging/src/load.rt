//! A load's lines, taken in their order beside the office.
ghost use Rattle.std.specs.Prelude.{◌≡◌, ◌++◌, true, IfOk, OnOk};
ghost use Rattle.aq_staging.specs.Identity.{number_in};
ghost use Rattle.aq_staging.specs.Refusals.{office_before, office_in, AreNoted};
ghost use Rattle.aq_staging.specs.Staged.{after_lines, IsStagedOn};
ghost use Rattle.aq_rules.specs.Lines.Lines.{body_lines};
ghost use Rattle.aq_rules.specs.Office.Load.{after, after_all, listed_for, refusal, reply};
ghost use Rattle.aq_rules.specs.Office.Office.{record_rank, rises};
ghost use Rattle.aq_staging.specs.OfficeView.{office_of};

use crate::batch::changes_of;
use crate::identity::{LoadIdentity, number_in};
use crate::reply::reply_of;
use crate::staged::Staged;
use crate::staging::{Refusal, Staging};
use aq_base::{ListedLine, Memory};
use aq_forms::{Body, lines_of};
use aq_registry::Registry;
use aq_shelf::Shelf;
use std::alloc::Global;

/// What the lines of a body make of an office of these records and observations, which are not changed. It
/// costs for each line some searches of the records, of the observations, and of those that the lines before
/// it changed; a load with a line of the office costs a copy of the records besides.
pub fn stage_load(
    alloc: Global,
    registry: &Registry,
    shelf: &Shelf,
    identity: Option<LoadIdentity>,
    body: &Body<'_>,
) -> Result<Staged, Memory>
    requires order { rises record_rank registry.now ≡ true }
    ensures reply { IfOk result (λ staged. staged.reply ≡ reply (office_of registry.now shelf.now) (number_in identity) body.now) }
    ensures identity { IfOk result (λ staged. staged.identity ≡ identity) }
    ensures staged_on { IfOk result (IsStagedOn registry.now shelf.now) }
    ensures office { IfOk result (λ staged. after_lines staged (office_of registry.now shelf.now) ≡ after_all (office_of registry.now shelf.now) (body_lines body.now)) }
{
    let mut staging = Staging::new(alloc, registry, shelf);
    let mut refused = Vec::new(alloc);
    let mut taken = 0;
    for line in lines_of(body.text()) {
        take_line(&mut staging, &mut refused, line.number, line.text)?;
        taken += 1;
    }
    let number = number_in(identity);
    let reply = reply_of(alloc, number, body.line_count(), taken, &refused)?;
    let left = staging.records.into_copy();
    let changes = staging.observations.into_changes();
    let office_changes = changes_of(alloc, &left, &staging.touched, &changes, registry, shelf)?;
    Ok(Staged {
        registry: left,
        changes,
        office_changes,
        identity,
        reply,
    })
}

/// Takes one line, and puts it after the refused ones if it is refused.
fn take_line(
    staging: &mut Staging<'_>,
    refused: &mut Vec<ListedLine>,
    number: u32,
    text: &[u8],
) -> Result<(), Memory>
    ensures office { OnOk result (office_in staging.new ≡ after (office_in staging.old) text.now) }
    ensures refused { OnOk result (refused.new.items ≡ refused.old.items ++ listed_for number (refusal (office_in staging.old) text.now)) }
    ensures before { office_before staging.new ≡ office_before staging.old }
    ensures touched { OnOk result (AreNoted staging.old staging.new) }
{
    match staging.take(text) {
        Ok(()) => Ok(()),
        Err(Refusal::Broken(rule)) => {
            let line = ListedLine { line: number, rule };
            refused.push(line)?;
            Ok(())
        }
        Err(Refusal::Memory) => Err(Memory),
    }
}
