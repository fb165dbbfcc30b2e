//! How complete the samples of a site's monitors are, month by month.
ghost use Rattle.std.specs.Prelude.{◌≡◌, ◌++◌, Bool, IfOk, OnOk};
ghost use Rattle.std.specs.Int.{IsInRange};
ghost use Rattle.aq_base.specs.declared.day.TheConstants.{FIRST_YEAR, LAST_YEAR};
ghost use Rattle.aq_rules.specs.Listed.Completeness as completeness;
ghost use Rattle.aq_series.specs.OfficeView.{office_of};
ghost use Rattle.aq_listed.specs.MonitorMonths.{months_at, registered_as};

use crate::month_counts::{MonthCounts, month_counts};
use aq_base::{Duration, Items, Memory, MonitorId, Pollutant, SiteId, Steps};
use aq_registry::Registry;
use aq_shelf::Shelf;
use std::alloc::Global;
use std::marker::Model;
use std::sync::ledger::Ledger;

/// What a monitor has of a month, from 1 for January to 12. Contracts see the book's row.
#[derive(Clone, Copy, Debug, PartialEq, Eq)]
pub struct ListedMonth {
    pub poc: u8,
    pub month: u8,
    pub counts: MonthCounts,
}

impl Model for ListedMonth {
    ghost use Rattle.aq_rules.specs.Listed.Completeness as completeness;

    ghost Value = { completeness.ListedMonth };

    ghost view = { λ row. record { poc = row.poc; month = row.month; counts = row.counts } };

    ghost inverse = { λ row. record { poc = row.poc; month = row.month; counts = row.counts } };
}

/// How many of each month's due samples each registered monitor of a site and pollutant has, by POC and
/// month (own). Eligibility and exclusion bear on nothing here. The call walks over one span of each
/// monitor and month. The year is 1990 to 2059.
pub fn listed_months<L: Ledger>(
    alloc: Global,
    shelf: &Shelf,
    registry: &Registry,
    site: SiteId,
    pollutant: Pollutant,
    year: u16,
    steps: &mut Steps<L>,
) -> Result<Items<ListedMonth>, Memory>
    requires year { IsInRange FIRST_YEAR LAST_YEAR year }
    ensures { IfOk result (λ rows. rows ≡ completeness.listed_months (office_of registry.now shelf.now) site pollutant year) }
{
    // The proof learns that the records are those of a valid office.
    let _ = registry.next_poc(site, pollutant, 0);
    let mut rows = Items::new(alloc);
    let mut after = 0;
    while let Some(poc) = registry.next_poc(site, pollutant, after) {
        let monitor = MonitorId {
            site,
            pollutant,
            poc,
        };
        add_monitor(&mut rows, shelf, registry, &monitor, year, steps)?;
        after = poc;
    }
    Ok(rows)
}

/// Adds what a monitor has of each month of a year, if it is registered.
#[tactic(auto, using(crate::proofs::MonthRows::months_found, crate::proofs::MonthRows::months_none))]
fn add_monitor<L: Ledger>(
    rows: &mut Items<ListedMonth>,
    shelf: &Shelf,
    registry: &Registry,
    monitor: &MonitorId,
    year: u16,
    steps: &mut Steps<L>,
) -> Result<(), Memory>
    requires year { IsInRange FIRST_YEAR LAST_YEAR year }
    ensures { OnOk result (rows.new ≡ rows.old ++ months_at (office_of registry.now shelf.now) year monitor.now) }
{
    let Some((duration, _)) = registry.monitor(*monitor) else {
        return Ok(());
    };
    add_months(rows, shelf, registry, monitor, duration, year, steps)?;
    Ok(())
}

/// Adds what a monitor whose samples last so long has of each month of a year.
fn add_months<L: Ledger>(
    rows: &mut Items<ListedMonth>,
    shelf: &Shelf,
    registry: &Registry,
    monitor: &MonitorId,
    duration: Duration,
    year: u16,
    steps: &mut Steps<L>,
) -> Result<(), Memory>
    requires year { IsInRange FIRST_YEAR LAST_YEAR year }
    ensures { OnOk result ((eligible : Bool) → rows.new ≡ rows.old ++ completeness.months_of (office_of registry.now shelf.now) year (registered_as monitor.now duration eligible)) }
{
    for month in 1..=12 {
        let counts = month_counts(shelf, registry, monitor, duration, year, month, steps);
        rows.push(ListedMonth {
            poc: monitor.poc,
            month,
            counts,
        })?;
    }
    Ok(())
}
