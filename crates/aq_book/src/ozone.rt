//! The ozone days of a site, over a shelf and a registry.
ghost use Rattle.std.specs.Prelude.{◌≡◌, ◌+◌, ◌*◌, ◌≤◌, IfOk};
ghost use Rattle.aq_base.specs.declared.day.TheConstants.{FIRST_YEAR, LAST_YEAR};
ghost use Rattle.aq_rules.specs.Ozone.OzoneYear as years;
ghost use Rattle.aq_series.specs.OfficeView.{office_of};

use aq_base::{Items, Memory, SiteId, Steps};
use aq_cal::year_span;
use aq_ozone::{Days, OzoneDay, day_of_windows};
use aq_registry::Registry;
use aq_shelf::Shelf;
use std::alloc::Global;
use std::sync::ledger::Ledger;

/// Ozone days, in order. Contracts see the list of them.
pub type OzoneDays = Items<OzoneDay>;

/// The ozone days of a year, by one walk over its hours.
pub(crate) fn days_of_year<L: Ledger>(
    alloc: Global,
    shelf: &Shelf,
    registry: &Registry,
    site: SiteId,
    year: u16,
    steps: &mut Steps<L>,
) -> Result<OzoneDays, Memory>
    requires first { FIRST_YEAR ≤ year }
    requires last { year ≤ LAST_YEAR }
    ensures days { IfOk result
        (λ days. days ≡ years.ozone_days (office_of registry.now shelf.now) site year) }
    ensures steps { steps.new ≤ steps.old + 200 * 367 }
{
    let (first, count) = year_span(year);
    let mut walk = Days::new(shelf, registry, site, first, steps);
    let mut days = Items::new(alloc);
    for _i in 0..count {
        days.push(day_of_windows(&walk.next(shelf, registry, site, steps)))?;
    }
    Ok(days)
}
