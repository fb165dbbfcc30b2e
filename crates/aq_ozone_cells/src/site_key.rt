//! The keys by which something is kept of sites.
ghost use Rattle.std.specs.Prelude.{◌≡◌};
ghost use Rattle.aq_ozone_cells.specs.SiteKeys.{site_key};

use aq_base::SiteId;

/// A calendar day or a year of a site, by numbers.
#[derive(Clone, Copy, Debug, PartialEq, Eq, PartialOrd, Ord)]
pub(crate) struct SiteKey {
    state: u8,
    county: u16,
    site: u16,
    number: u16,
}

impl SiteKey {
    pub(crate) fn new(site: SiteId, number: u16) -> SiteKey
        ensures { result ≡ site_key site number }
    {
        SiteKey {
            state: site.state(),
            county: site.county(),
            site: site.site(),
            number,
        }
    }
}
