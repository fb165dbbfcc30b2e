//! The registered monitors of a site, with what stands of each of them.
ghost use Rattle.std.specs.Prelude.{◌≡◌, ◌++◌, [], IfOk, List, OnOk, map};
ghost use Rattle.std.specs.List.{cons_option};
ghost use Rattle.aq_base.specs.declared.office.OfficeRecord.{OfficeRecord};
ghost use Rattle.aq_listed.specs.Registrations.{registered_monitor};
ghost use Rattle.aq_rules.specs.Listed.Monitors as listed;
ghost use Rattle.aq_series.specs.OfficeView.{office_of};

use crate::standing_days::observed;
use aq_base::{Day, Duration, Hour, Items, LAST_HOUR, Memory, MonitorId, Pollutant, SiteId, Steps};
use aq_registry::Registry;
use aq_shelf::Shelf;
use std::alloc::Global;
use std::marker::Model;
use std::sync::ledger::Ledger;

/// A registered monitor, the number of its standing observations, with a value or a null code, and the
/// days of the first and the last of them. Contracts see the book's row.
#[derive(Clone, Copy, Debug, PartialEq, Eq)]
pub(crate) struct ListedMonitor {
    pub(crate) id: MonitorId,
    pub(crate) duration: Duration,
    pub(crate) eligible: bool,
    pub(crate) observations: u32,
    pub(crate) first: Option<Day>,
    pub(crate) last: Option<Day>,
}

impl Model for ListedMonitor {
    ghost use Rattle.aq_rules.specs.Listed.Monitors as listed;

    ghost Value = { listed.ListedMonitor };

    ghost view = { λ row. record { monitor = record { id = row.id; duration = row.duration; eligible = row.eligible }; observations = row.observations; first = row.first; last = row.last } };

    ghost inverse = { λ row. record { id = row.monitor.id; duration = row.monitor.duration; eligible = row.monitor.eligible; observations = row.observations; first = row.first; last = row.last } };
}

/// The monitors of a site by parameter, in the order ozone, PM2.5, PM10, and then by POC.
#[tactic(auto, unfolding(aq_rules::specs::Listed::Monitors::listed_monitors))]
pub(crate) fn listed_monitors<L: Ledger>(
    alloc: Global,
    shelf: &Shelf,
    registry: &Registry,
    site: SiteId,
    steps: &mut Steps<L>,
) -> Result<Items<ListedMonitor>, Memory>
    ensures { IfOk result (λ rows. rows ≡ listed.listed_monitors (office_of registry.now shelf.now) site) }
{
    let mut rows = Items::new(alloc);
    add_monitors(&mut rows, shelf, registry, site, Pollutant::Ozone, steps)?;
    add_monitors(&mut rows, shelf, registry, site, Pollutant::Pm25, steps)?;
    add_monitors(&mut rows, shelf, registry, site, Pollutant::Pm10, steps)?;
    Ok(rows)
}

/// The monitors of a pollutant, by POC.
fn add_monitors<L: Ledger>(
    rows: &mut Items<ListedMonitor>,
    shelf: &Shelf,
    registry: &Registry,
    site: SiteId,
    pollutant: Pollutant,
    steps: &mut Steps<L>,
) -> Result<(), Memory>
    ensures { OnOk result (rows.new ≡ rows.old ++ map (listed.listed_monitor (office_of registry.now shelf.now)) (listed.monitors_of (office_of registry.now shelf.now) site pollutant)) }
{
    let mut after = 0;
    while let Some(poc) = registry.next_poc(site, pollutant, after) {
        let id = MonitorId {
            site,
            pollutant,
            poc,
        };
        add_monitor(rows, shelf, registry, &id, steps)?;
        after = poc;
    }
    Ok(())
}

/// The row of a monitor, if it is registered.
fn add_monitor<L: Ledger>(
    rows: &mut Items<ListedMonitor>,
    shelf: &Shelf,
    registry: &Registry,
    id: &MonitorId,
    steps: &mut Steps<L>,
) -> Result<(), Memory>
    ensures { OnOk result (rows.new ≡ rows.old ++ map (listed.listed_monitor (office_of registry.now shelf.now)) (cons_option (registered_monitor registry.now id.now) [])) }
{
    let Some(registered) = registry.monitor(*id) else {
        return Ok(());
    };
    rows.push(listed_monitor(shelf, id, registered, steps))?;
    Ok(())
}

/// A monitor of this duration that is eligible or not, with what stands of it, by its stretches of
/// observations and not by a walk over them.
fn listed_monitor<L: Ledger>(
    shelf: &Shelf,
    id: &MonitorId,
    registered: (Duration, bool),
    steps: &mut Steps<L>,
) -> ListedMonitor
    ensures { (records : List OfficeRecord) → result ≡ listed.listed_monitor (office_of records shelf.now) (record { id = id.now; duration = registered.0; eligible = registered.1 }) }
{
    let standing = observed(shelf.span(*id, Hour::new(0), LAST_HOUR + 1, steps));
    ListedMonitor {
        id: *id,
        duration: registered.0,
        eligible: registered.1,
        observations: standing.count,
        first: standing.first,
        last: standing.last,
    }
}
