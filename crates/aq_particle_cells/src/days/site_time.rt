//! Days, quarters and years of sites, as the keys of maps.
ghost use Rattle.std.specs.Prelude.{◌≡◌};
ghost use Rattle.aq_particle_cells.specs.Days.SiteTimes.{site_time};

use aq_base::SiteId;

/// A day, a quarter or a year of a site, by numbers.
#[derive(Clone, Copy, Debug, PartialEq, Eq, PartialOrd, Ord)]
pub struct SiteTime {
    state: u8,
    county: u16,
    number: u16,
    time: u16,
}

impl SiteTime {
    pub fn new(site: SiteId, time: u16) -> SiteTime
        ensures { result ≡ site_time site time }
    {
        SiteTime {
            state: site.state(),
            county: site.county(),
            number: site.site(),
            time,
        }
    }
}
