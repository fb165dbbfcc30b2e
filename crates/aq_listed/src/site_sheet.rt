//! The sheet of the registered sites.
ghost use Rattle.std.specs.Prelude.{◌≡◌, ◌≤◌, IfOk, length, map};
ghost use Rattle.aq_base.specs.declared.limits.TheConstants.{MOST_SITES};
ghost use Rattle.aq_registry.specs.Registry.{office_with};
ghost use Rattle.aq_rules.specs.Listed.Sites as listed;

use crate::site_list::{ListedSite, listed_sites};
use aq_base::Memory;
use aq_registry::Registry;
use aq_sheets::{Cells, Head, Rows, Sheet, SheetCell, list, names, site_text};
use std::alloc::Global;

/// The registered sites in rising order, and how many monitors of each pollutant each of them has,
/// eligible or not (own). Each site and each monitor is asked for once.
#[tactic(auto, unfolding(aq_rules::specs::Listed::Sites::sites_answer))]
pub fn sites(alloc: Global, registry: &Registry) -> Result<Sheet, Memory>
    ensures { IfOk result (λ sheet. sheet ≡ listed.sites_answer (office_with registry.now)) }
{
    let rows = listed_sites(alloc, registry)?;
    sites_sheet(alloc, rows.as_slice())
}

fn sites_sheet(alloc: Global, sites: &[ListedSite]) -> Result<Sheet, Memory>
    requires { length sites.now ≤ MOST_SITES }
    ensures { IfOk result (λ sheet. sheet ≡ listed.sites_sheet sites.now) }
{
    let number = Head::new(alloc, b"sites", SheetCell::count(sites.len() as u32))?;
    let heads = list(alloc, [number])?;
    let columns = names(alloc, &[b"site", b"ozone", b"pm25", b"pm10"])?;
    let rows = site_rows(alloc, sites)?;
    Ok(Sheet::new(heads, columns, rows))
}

/// A row for each site.
fn site_rows(alloc: Global, sites: &[ListedSite]) -> Result<Rows, Memory>
    ensures { IfOk result (λ rows. rows ≡ map listed.site_cells sites.now) }
{
    let mut rows = Rows::new(alloc);
    for site in sites {
        rows.push(site_cells(alloc, site)?)?;
    }
    Ok(rows)
}

fn site_cells(alloc: Global, row: &ListedSite) -> Result<Cells, Memory>
    ensures { IfOk result (λ cells. cells ≡ listed.site_cells row.now) }
{
    let site = SheetCell::text(alloc, &site_text(row.site))?;
    let ozone = SheetCell::count(row.ozone);
    let pm25 = SheetCell::count(row.pm25);
    let pm10 = SheetCell::count(row.pm10);
    list(alloc, [site, ozone, pm25, pm10])
}
