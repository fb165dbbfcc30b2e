//! The events whose concurrence alone decides a verdict.
ghost use Rattle.std.specs.Prelude.{◌≡◌, ◌+◌, ◌*◌, ◌≤◌, None, Bool, List, true, length, not, IfErr, IfOk, IsTrue, OnOk};
ghost use Rattle.aq_base.specs.declared.day.TheConstants.{FIRST_YEAR, LAST_YEAR};
ghost use Rattle.aq_base.specs.declared.monitor.Pollutant.TheVariants.{Ozone};
ghost use Rattle.aq_base.specs.declared.observation.ObsKey.{ObsKey};
ghost use Rattle.aq_base.specs.declared.observation.Observation.{Observation};
ghost use Rattle.aq_base.specs.declared.standard.Standard.TheVariants.{Ozone2015};
ghost use Rattle.aq_registry.specs.Registry.{office_with};
ghost use Rattle.aq_rules.specs.DesignValues.{is_same_verdict};
ghost use Rattle.aq_rules.specs.Lines.Spellings.{is_event_number};
ghost use Rattle.aq_rules.specs.Office.Office.{IsOffice, event_stands};
ghost use Rattle.aq_rules.specs.Questions.Answer.{is_registered};
ghost use Rattle.aq_rules.specs.WhatIf.Assumed.{assume_one, decisive, events_at, turned_round, verdict_turned};
ghost use Rattle.aq_dirty.specs.OutOfReach.Outside.{AreAsBefore};
ghost use Rattle.aq_series.specs.OfficeView.{office_of};
ghost use Rattle.aq_design.specs.WhatIf.Refusals.{IsFaultOf};
ghost use Rattle.aq_design.specs.WhatIf.Standing.{Stands, hours_in, office_in};

use crate::what_if::fault::WhatIfFault;
use crate::what_if::records::assume;
use crate::what_if::standing::{Hours, Standing, Turned};
use crate::{FromShelf, design_value};
use aq_base::{
    Assumed, DecisiveEvent, Hour, Items, LAST_HOUR, Memory, OfficeKey, OfficeRecord, SiteId,
    Standard, Steps, Verdict,
};
use aq_dirty::out_of_reach::concurrences::years_outside_an_event_are_as_before;
use aq_registry::Registry;
use aq_shelf::Shelf;
use std::alloc::Global;
use std::sync::ledger::Ledger;

/// Events that decide a verdict alone, by rising number. Contracts see the list of them.
pub type DecisiveEvents = Items<DecisiveEvent>;

/// The events of a site and of the standard's pollutant that alone change the verdict of the three years
/// that end with a year, if a concurrence becomes none or comes to be, with the verdict then. They come by
/// rising number. A site without a registered monitor is refused. Of each event the years that read its
/// hours are computed anew, for ozone in at most 200 steps a day; an event that no year reads is not tried.
/// The year is 1992 to 2059.
pub fn decisive<L: Ledger>(
    alloc: Global,
    shelf: &Shelf,
    registry: &Registry,
    standard: Standard,
    site: SiteId,
    year: u16,
    steps: &mut Steps<L>,
) -> Result<DecisiveEvents, WhatIfFault>
    requires first { FIRST_YEAR + 2 ≤ year }
    requires last { year ≤ LAST_YEAR }
    ensures events { IfOk result (λ events. events ≡ decisive standard (office_of registry.now shelf.now) site year) }
    ensures registered { OnOk result (is_registered (office_of registry.now shelf.now) site ≡ true) }
    ensures refused { IfErr result (λ fault. IsFaultOf (is_registered (office_of registry.now shelf.now) site) None fault) }
    ensures steps { standard ≡ Ozone2015 → steps.new ≤ steps.old + 3 * (200 * 367) * (1 + length (events_at (office_of registry.now shelf.now) site Ozone)) }
{
    if !registry.has_site(site) {
        return Err(WhatIfFault::UnknownSite);
    }
    let source = FromShelf { shelf, registry };
    let value = design_value(&source, standard, site, year, steps);
    let standing = Standing {
        shelf,
        registry,
        standard,
        site,
        year,
        value,
    };
    let verdict = value.verdict();
    let pollutant = standard.pollutant();
    let mut events = DecisiveEvents::new(alloc);
    let mut after = 0;
    while let Some(number) = registry.next_event(site, pollutant, after) {
        let turned = verdict_turned(&standing, number, steps)?;
        if differ(verdict, turned) {
            events.push(DecisiveEvent {
                number,
                verdict: turned,
            })?;
        }
        after = number;
    }
    Ok(events)
}

/// The verdict with one event turned round: for an event that none of the three years reads it is the one
/// that stands, and no memory is taken.
fn verdict_turned<L: Ledger>(
    standing: &Standing,
    number: u32,
    steps: &mut Steps<L>,
) -> Result<Verdict, Memory>
    requires first { FIRST_YEAR + 2 ≤ standing.now.year }
    requires last { standing.now.year ≤ LAST_YEAR }
    requires value { Stands standing.now }
    requires event { event_stands (office_with standing.now.registry.now) number ≡ true }
    ensures verdict { IfOk result (λ verdict. verdict ≡ verdict_turned standing.now.standard (office_in standing.now) standing.now.site standing.now.year number) }
    ensures steps { standing.now.standard ≡ Ozone2015 → steps.new ≤ steps.old + 3 * (200 * 367) }
{
    let (standard, site, year) = (standing.standard, standing.site, standing.year);
    // The proof learns that the records are those of a valid office.
    let _ = standing.registry.next_poc(site, standard.pollutant(), 0);
    let entry = turned_round(standing.registry, number);
    let hours = hours_of(standing.registry, number);
    if standing.is_untouched(&hours) {
        return Ok(standing.value.verdict());
    }
    let mut records = standing.registry.copy()?;
    assume(&mut records, entry)?;
    let turned = Turned {
        standing: &*standing,
        records: &records,
        hours,
    };
    Ok(design_value(&turned, standard, site, year, steps).verdict())
}

/// An event turned round: no concurrence or a refused one becomes one that is given, and that a refused one.
fn turned_round(registry: &Registry, number: u32) -> Assumed
    requires { event_stands (office_with registry.now) number ≡ true }
    ensures entry { result ≡ turned_round (office_with registry.now) number }
    ensures number { IsTrue (is_event_number result.number) }
{
    let agreed = match registry.agreed(number) {
        Some(agreed) => !agreed,
        None => true,
    };
    Assumed { number, agreed }
}

/// The hours of an event that stands. Whatever is assumed of it, a year outside them is as before.
fn hours_of(registry: &Registry, number: u32) -> Hours
    requires valid { IsOffice (office_with registry.now) }
    requires stands { event_stands (office_with registry.now) number ≡ true }
    requires number { IsTrue (is_event_number number) }
    ensures { (rows : List (ObsKey × Observation)) (agreed : Bool)
        → AreAsBefore (office_of registry.now rows) (assume_one (office_of registry.now rows) (record { number = number; agreed = agreed })) result.first result.last }
{
    years_outside_an_event_are_as_before();
    hours_in(&registry.get(OfficeKey::Event { number }))
}

/// The hours of an event; where there is none, all hours.
fn hours_in(found: &Option<OfficeRecord>) -> Hours
    ensures { result ≡ hours_in found.now }
{
    match found {
        Some(OfficeRecord::Event { first, last, .. }) => Hours {
            first: *first,
            last: *last,
        },
        _ => Hours {
            first: Hour::new(0),
            last: Hour::new(LAST_HOUR),
        },
    }
}

/// Whether two verdicts are not the same.
fn differ(a: Verdict, b: Verdict) -> bool
    ensures { result ≡ not (is_same_verdict a b) }
{
    a != b
}
