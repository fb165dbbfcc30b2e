//! The registered sites, with how many monitors of each pollutant they have.
ghost use Rattle.std.specs.Prelude.{◌≡◌, ◌≤◌, IfOk, length};
ghost use Rattle.aq_base.specs.declared.limits.TheConstants.{MOST_SITES};
ghost use Rattle.aq_registry.specs.Registry.{office_with};
ghost use Rattle.aq_rules.specs.Listed.Sites as listed;
ghost use Rattle.aq_rules.specs.Office.Office.{IsOffice};

use aq_base::{Items, Memory, Pollutant, SiteId};
use aq_registry::Registry;
use std::alloc::Global;
use std::marker::Model;

/// A site, and the number of its registered monitors of each pollutant, eligible or not. Contracts see
/// the book's row.
#[derive(Clone, Copy, Debug, PartialEq, Eq)]
pub(crate) struct ListedSite {
    pub(crate) site: SiteId,
    pub(crate) ozone: u32,
    pub(crate) pm25: u32,
    pub(crate) pm10: u32,
}

impl Model for ListedSite {
    ghost use Rattle.aq_rules.specs.Listed.Sites as listed;

    ghost Value = { listed.ListedSite };

    ghost view = { λ row. record { site = row.site; ozone = row.ozone; pm25 = row.pm25; pm10 = row.pm10 } };

    ghost inverse = { λ row. record { site = row.site; ozone = row.ozone; pm25 = row.pm25; pm10 = row.pm10 } };
}

/// The registered sites in rising order, each asked for once.
pub(crate) fn listed_sites(alloc: Global, registry: &Registry) -> Result<Items<ListedSite>, Memory>
    ensures rows { IfOk result (λ rows. rows ≡ listed.listed_sites (office_with registry.now)) }
    ensures few { IfOk result (λ rows. length rows ≤ MOST_SITES) }
{
    let mut rows = Items::new(alloc);
    let mut after = None;
    while let Some(site) = registry.next_site(after) {
        rows.push(listed_site(registry, site))?;
        after = Some(site);
    }
    Ok(rows)
}

/// A site, with the monitors of each pollutant counted.
fn listed_site(registry: &Registry, site: SiteId) -> ListedSite
    ensures row { result ≡ listed.listed_site (office_with registry.now) site }
    ensures valid { IsOffice (office_with registry.now) }
{
    ListedSite {
        site,
        ozone: monitor_count(registry, site, Pollutant::Ozone),
        pm25: monitor_count(registry, site, Pollutant::Pm25),
        pm10: monitor_count(registry, site, Pollutant::Pm10),
    }
}

/// How many monitors of a pollutant a site has, by one search of the records for each of them.
fn monitor_count(registry: &Registry, site: SiteId, pollutant: Pollutant) -> u32
    ensures count { result ≡ listed.monitor_count (office_with registry.now) site pollutant }
    ensures valid { IsOffice (office_with registry.now) }
{
    let mut count = 0;
    let mut after = 0;
    while let Some(poc) = registry.next_poc(site, pollutant, after) {
        count += 1;
        after = poc;
    }
    count
}
