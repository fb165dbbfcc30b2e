//! The areas for which designations are made (own).
use crate::site::SiteId;
use std::marker::Model;

/// An area that is given by its sites has at most this many.
pub const MOST_AREA_SITES: usize = 32;

/// 1 to 32 sites, none twice, in the order in which they are given. Contracts see the list. It takes no
/// memory.
#[derive(Clone, Copy, Debug, PartialEq, Eq)]
pub struct SiteList {
    places: [SiteId; MOST_AREA_SITES],
    count: u8,
}

impl Model for SiteList {
    ghost use Rattle.std.specs.Prelude.{List, length, take};
    ghost use Rattle.aq_base.specs.Site.{Site};

    ghost Value = { List Site };

    ghost view = { λ list. take list.count list.places };

    ghost use Rattle.aq_base.specs.Sites.{HoldsSites, site_places};

    ghost invariant = { λ list. HoldsSites list.places list.count };

    ghost inverse = { λ sites. record { places = site_places sites; count = length sites } };

    ghost use Rattle.aq_base.specs.SitePlaces.{site_places-take};

    ghost inverse_ok = { λ list holds. site_places-take list.places list.count holds };
}

impl SiteList {
    ghost use Rattle.std.specs.Prelude.{◌≡◌, ◌≤◌, ◌∷◌, [], length, IsTrue};
    ghost use Rattle.aq_base.specs.Sites.{all_sites_distinct, has_site, is_further_site, with_further_site};

    /// The list of one site.
    pub fn new(first: SiteId) -> SiteList
        ensures { result ≡ first ∷ [] }
    {
        SiteList {
            places: [first; MOST_AREA_SITES],
            count: 1,
        }
    }

    /// Puts a site last. The answer is `false`, and nothing changes, exactly if the site is there or
    /// 32 sites are.
    pub fn add(&mut self, site: SiteId) -> bool
        ensures taken { result ≡ is_further_site self.old site }
        ensures sites { self.new ≡ with_further_site self.old site }
    {
        if self.has(site) || usize::from(self.count) == MOST_AREA_SITES {
            return false;
        }
        self.places[usize::from(self.count)] = site;
        self.count += 1;
        true
    }

    // Whether a site is there.
    fn has(&self, site: SiteId) -> bool
        ensures { result ≡ has_site site self.now }
    {
        self.as_slice().iter().any(|other| *other == site)
    }

    /// The sites, in order.
    pub fn as_slice(&self) -> &[SiteId]
        ensures value { result.now ≡ self.now }
        ensures some { 1 ≤ length result.now }
        ensures few { length result.now ≤ MOST_AREA_SITES }
        ensures distinct { IsTrue (all_sites_distinct result.now) }
    {
        &self.places[..usize::from(self.count)]
    }
}

/// The sites for which a designation is made: those of a county, or some sites. Whether a site is
/// registered does not matter.
#[derive(Clone, Copy, Debug, PartialEq, Eq)]
pub enum Area {
    /// A state's code, of two digits, and a county's, of three.
    County { state: u8, county: u16 },
    Sites(SiteList),
}

impl Area {
    ghost use Rattle.std.specs.Prelude.{◌≡◌};
    ghost use Rattle.aq_base.specs.Areas.{area_holds};

    /// Whether the area has the site.
    pub fn holds(&self, site: SiteId) -> bool
        ensures { result ≡ area_holds self.now site }
    {
        match self {
            Area::County { state, county } => site.state() == *state && site.county() == *county,
            Area::Sites(sites) => sites.has(site),
        }
    }
}
