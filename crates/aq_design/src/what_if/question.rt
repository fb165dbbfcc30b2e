//! The design value under assumed concurrences.
ghost use Rattle.std.specs.Prelude.{◌≡◌, ◌+◌, ◌*◌, ◌≤◌, ◌∷◌, [], None, true, IfErr, IfOk, OnOk};
ghost use Rattle.aq_base.specs.declared.assumed.Assumed.{Assumed};
ghost use Rattle.aq_base.specs.declared.day.TheConstants.{FIRST_YEAR, LAST_YEAR};
ghost use Rattle.aq_base.specs.declared.office.OfficeLine.TheVariants.{Change};
ghost use Rattle.aq_base.specs.declared.office.OfficeRecord.TheVariants.{Concurrence};
ghost use Rattle.aq_base.specs.declared.standard.Standard.TheVariants.{Ozone2015};
ghost use Rattle.aq_rules.specs.DesignValues.{design_value};
ghost use Rattle.aq_rules.specs.Lines.Canonical.{canonical_office};
ghost use Rattle.aq_rules.specs.Office.Load.{after};
ghost use Rattle.aq_rules.specs.Questions.Answer.{is_registered};
ghost use Rattle.aq_rules.specs.WhatIf.Assumed.{unknown_event, what_if};
ghost use Rattle.aq_series.specs.OfficeView.{office_of};
ghost use Rattle.aq_verdict.specs.Designs.{design_of};
ghost use Rattle.aq_design.specs.WhatIf.Refusals.{IsFaultOf};

use crate::what_if::fault::WhatIfFault;
use crate::what_if::records::{records_as_if, unknown_event};
use crate::{FromShelf, design_value};
use aq_base::{Assumed, SiteId, Standard, Steps};
use aq_registry::Registry;
use aq_rules::what_if::assuming_is_what_the_line_does;
use aq_shelf::Shelf;
use aq_verdict::DesignValue;
use std::sync::ledger::Ledger;

/// The design value of a standard for a site and the three years that end with a year, if each event of the
/// list were concurred in or not as its entry says; the last entry of a number counts. With one entry it is
/// the design value once the line of that concurrence is accepted. A site without a registered monitor is
/// refused, and then the first number of the list that no event has, without memory. For ozone it makes at
/// most 200 steps a day. The year is 1992 to 2059.
pub fn what_if<L: Ledger>(
    shelf: &Shelf,
    registry: &Registry,
    assumed: &[Assumed],
    standard: Standard,
    site: SiteId,
    year: u16,
    steps: &mut Steps<L>,
) -> Result<DesignValue, WhatIfFault>
    requires first { FIRST_YEAR + 2 ≤ year }
    requires last { year ≤ LAST_YEAR }
    ensures value { IfOk result (λ value. design_of value ≡ what_if standard (office_of registry.now shelf.now) assumed.now site year) }
    ensures line { IfOk result (λ value. (entry : Assumed) → assumed.now ≡ entry ∷ [] → design_of value ≡ design_value standard (after (office_of registry.now shelf.now) (canonical_office (Change (Concurrence entry.number entry.agreed)))) site year) }
    ensures registered { OnOk result (is_registered (office_of registry.now shelf.now) site ≡ true) }
    ensures known { OnOk result (unknown_event (office_of registry.now shelf.now) assumed.now ≡ None) }
    ensures refused { IfErr result (λ fault. IsFaultOf (is_registered (office_of registry.now shelf.now) site) (unknown_event (office_of registry.now shelf.now) assumed.now) fault) }
    ensures steps { standard ≡ Ozone2015 → steps.new ≤ steps.old + 3 * (200 * 367) }
{
    assuming_is_what_the_line_does();
    if !registry.has_site(site) {
        return Err(WhatIfFault::UnknownSite);
    }
    if let Some(number) = unknown_event(registry, assumed) {
        return Err(WhatIfFault::UnknownEvent(number));
    }
    let records = records_as_if(registry, assumed)?;
    let as_if = FromShelf {
        shelf,
        registry: &records,
    };
    Ok(design_value(&as_if, standard, site, year, steps))
}
