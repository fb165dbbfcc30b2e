//! The 8-hour averages of combined sites.
ghost use Rattle.std.specs.Prelude.{◌≡◌, ℕ, ◌≤◌, ◌+◌, Some, None};
ghost use Rattle.aq_base.specs.declared.monitor.Pollutant.TheVariants.{Ozone};
ghost use Rattle.aq_rules.specs.Combined.Pair as pairs;
ghost use Rattle.aq_rules.specs.Office.Questions.{Joined, combined};
ghost use Rattle.aq_rules.specs.Ozone.OzoneDay as ozone_day;
ghost use Rattle.aq_rules.specs.Ozone.SiteHour.{site_hour};
ghost use Rattle.aq_series.specs.OfficeView.{office_of};

use crate::combined::pair::Pair;
use aq_base::{Day, Pollutant, SiteId, Steps};
use aq_ozone::{DayWindows, windows_on};
use aq_registry::Registry;
use aq_rules::combined::a_joined_site_without_values_changes_nothing;
use aq_shelf::Shelf;
use std::sync::ledger::Ledger;

/// The seventeen 8-hour averages of a day (40 CFR Part 50, Appendix U, 3(b)) of a site and the one that is
/// joined to it for ozone, read as one (own); `None` exactly if none is. If the joined site has no hour,
/// they are the site's. At most 384 steps.
pub fn pair_windows<L: Ledger>(
    shelf: &Shelf,
    registry: &Registry,
    site: SiteId,
    day: Day,
    steps: &mut Steps<L>,
) -> Option<DayWindows>
    ensures windows { result ≡ pairs.pair_windows (office_of registry.now shelf.now) site day }
    ensures alone { (joined : Joined) → combined registry.now site Ozone ≡ Some joined
        → ((hour : ℕ) → site_hour (office_of registry.now shelf.now) joined.site hour ≡ None)
        → result ≡ Some (ozone_day.windows (office_of registry.now shelf.now) site day) }
    ensures steps { steps.new ≤ steps.old + 384 }
{
    a_joined_site_without_values_changes_nothing();
    let Some(pair) = Pair::of(shelf, registry, site, Pollutant::Ozone) else {
        return None;
    };
    Some(windows_on(&pair, day, steps))
}
