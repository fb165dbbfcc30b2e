//! The marks of a site: the codes by which its observations ask to be left out.
ghost use Rattle.std.specs.Prelude.{◌≡◌, ◌++◌, IfOk, OnOk, flat_map};
ghost use Rattle.aq_rules.specs.Office.Exclusion as exclusion;
ghost use Rattle.aq_listed.specs.Marks.{marks_at, AddsMarks, AreMarksOf};

use crate::marks::{Mark, Marks};
use crate::same_site::is_same_site;
use aq_base::{Code, Memory, ObsKey, Quals, SiteId, Steps};
use aq_shelf::Shelf;
use std::alloc::Global;
use std::iter::Iterator;
use std::sync::ledger::Ledger;

/// The marks of a site: one for each of its observations and each code by which the observation asks for
/// an exclusion. It costs a walk over the observations.
pub(crate) fn site_marks<L: Ledger>(
    alloc: Global,
    shelf: &Shelf,
    site: SiteId,
    steps: &mut Steps<L>,
) -> Result<Marks, Memory>
    ensures { IfOk result (AreMarksOf site shelf.now) }
{
    // The proof learns how many observations there may be.
    let _ = shelf.count();
    let mut marks = Vec::new(alloc);
    for (key, content) in shelf.rows(steps) {
        add_marks(&mut marks, site, &key, &content.quals)?;
    }
    Ok(Marks::sorted(marks))
}

/// Adds a mark for each code by which an observation of the site asks for an exclusion.
fn add_marks(marks: &mut Vec<Mark>, site: SiteId, key: &ObsKey, quals: &Quals) -> Result<(), Memory>
    ensures { OnOk result (AddsMarks site key.now quals.now marks.old.items marks.new.items) }
{
    if !is_same_site(key.monitor.site, site) {
        return Ok(());
    }
    add_codes(marks, key, quals.codes())?;
    Ok(())
}

/// Adds a mark for each of some codes of an observation that asks for an exclusion.
fn add_codes(marks: &mut Vec<Mark>, key: &ObsKey, carried: &[Code]) -> Result<(), Memory>
    ensures { OnOk result (marks.new.items ≡ marks.old.items ++ flat_map (marks_at key.now) carried.now) }
{
    for code in carried {
        add_code(marks, key, *code)?;
    }
    Ok(())
}

/// Adds a mark for a code of an observation, if it asks for an exclusion.
fn add_code(marks: &mut Vec<Mark>, key: &ObsKey, code: Code) -> Result<(), Memory>
    ensures { OnOk result (marks.new.items ≡ marks.old.items ++ marks_at key.now code) }
{
    if asks_exclusion(code) {
        marks.push(Mark {
            pollutant: key.monitor.pollutant,
            code,
            hour: key.hour,
        })?;
    }
    Ok(())
}

/// Whether a code is one from RA to RZ, by which an agency asks for an exclusion.
fn asks_exclusion(code: Code) -> bool
    ensures { result ≡ exclusion.asks_exclusion code }
{
    code.first == b'R' && b'A' <= code.second && code.second <= b'Z'
}
