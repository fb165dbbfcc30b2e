//! The ozone value of a site for an hour (40 CFR Part 50, Appendix U, 2(b)).
ghost use Rattle.std.specs.Prelude.{◌≡◌, ◌+◌, ◌≤◌, IfSome};
ghost use Rattle.aq_base.specs.Values.{HasValueInRange};
ghost use Rattle.aq_base.specs.declared.monitor.Pollutant.TheVariants.{Ozone};
ghost use Rattle.aq_rules.specs.Office.Monitors as monitors;
ghost use Rattle.aq_rules.specs.Office.Office.{IsOffice};
ghost use Rattle.aq_rules.specs.Ozone.SiteHour as site_hour;
ghost use Rattle.aq_registry.specs.Registry.{office_with};
ghost use Rattle.aq_series.specs.OfficeView.{office_of};
ghost use Rattle.aq_series.specs.Samples.{cell_at, cell_of, IsOzone};

use crate::exclusion::is_excluded;
use crate::tally::Tally;
use aq_base::{Day, Hour, MonitorId, ObsKey, Observation, Pollutant, SiteId, Steps};
use aq_registry::Registry;
use aq_shelf::Shelf;
use std::marker::Model;
use std::sync::ledger::Ledger;

/// A value in thousandths of a ppm, and whether an exceptional event leaves it out. Contracts see the
/// book's cell.
#[derive(Clone, Copy, Debug, PartialEq, Eq)]
pub struct Cell {
    pub value: i32,
    pub excluded: bool,
}

impl Model for Cell {
    ghost use Rattle.aq_rules.specs.Ozone.SiteHour as site_hour;

    ghost Value = { site_hour.Cell };

    ghost view = { λ cell. record { value = cell.value; excluded = cell.excluded } };

    ghost inverse = { λ cell. record { value = cell.value; excluded = cell.excluded } };
}

/// The ozone value of a site for an hour: the primary monitor's if it has one, else the mean of what
/// its other eligible monitors have, truncated to 0.001 ppm (40 CFR Part 50, Appendix U, 2(b)). The mean
/// is excluded if one of them is. The call makes a step for each eligible monitor, at most 8.
pub fn site_hour<L: Ledger>(
    shelf: &Shelf,
    registry: &Registry,
    site: SiteId,
    hour: Hour,
    steps: &mut Steps<L>,
) -> Option<Cell>
    ensures value { result ≡ site_hour.site_hour (office_of registry.now shelf.now) site hour }
    ensures range { IfSome result (λ cell. IsOzone cell.value) }
    ensures steps { steps.new ≤ steps.old + 8 }
{
    // The proof learns that the observations are in order.
    let _ = shelf.count();
    let day = Day::new((hour.number() / 24) as u16);
    let primary = registry.primary_on(site, Pollutant::Ozone, day);
    let mut tally = Tally::new();
    let mut after = 0;
    while let Some(poc) = registry.next_poc(site, Pollutant::Ozone, after) {
        let monitor = MonitorId {
            site,
            pollutant: Pollutant::Ozone,
            poc,
        };
        let sample = sample(shelf, registry, &ObsKey { monitor, hour }, steps);
        if let Some(cell) = sample {
            if primary == Some(poc) {
                return Some(cell);
            }
            tally = tally.with(&cell);
        }
        after = poc;
    }
    tally.mean()
}

/// What a monitor has for an hour, if its values count and there is one, in at most one step.
fn sample<L: Ledger>(
    shelf: &Shelf,
    registry: &Registry,
    key: &ObsKey,
    steps: &mut Steps<L>,
) -> Option<Cell>
    requires ozone { key.now.monitor.pollutant ≡ Ozone }
    requires valid { IsOffice (office_with registry.now) }
    ensures value { result ≡ cell_at registry.now shelf.now key.now }
    ensures range { IfSome result (λ cell. IsOzone cell.value) }
    ensures steps { steps.new ≤ steps.old + 1 }
{
    if !is_eligible(registry, &key.monitor) {
        return None;
    }
    let content = shelf.at(*key, steps)?;
    cell_of(registry, key, &content)
}

/// The cell of what stands at a key, if there is a value.
pub(crate) fn cell_of(registry: &Registry, key: &ObsKey, content: &Observation) -> Option<Cell>
    requires ozone { key.now.monitor.pollutant ≡ Ozone }
    requires range { HasValueInRange Ozone content.now }
    ensures value { result ≡ cell_of registry.now key.now content.now }
    ensures range { IfSome result (λ cell. IsOzone cell.value) }
{
    let value = content.value?;
    Some(Cell {
        value,
        excluded: is_excluded(registry, &key.monitor, key.hour, &content.quals),
    })
}

/// Whether a monitor is registered and its values count.
pub(crate) fn is_eligible(registry: &Registry, monitor: &MonitorId) -> bool
    requires { IsOffice (office_with registry.now) }
    ensures { result ≡ monitors.is_eligible registry.now monitor.now }
{
    match registry.monitor(*monitor) {
        Some((_, eligible)) => eligible,
        None => false,
    }
}
