use std::marker::Model;

/// A monitoring site: a state, a county and the site's number in the county. Contracts see the three
/// parts.
#[derive(Clone, Copy, Debug, PartialEq, Eq, PartialOrd, Ord)]
pub struct SiteId {
    state: u8,
    county: u16,
    number: u16,
}

impl Model for SiteId {
    ghost use Rattle.aq_base.specs.Site.{Site, IsSite};

    ghost Value = { Site };

    ghost view = { λ site. record { state = site.state; county = site.county; number = site.number } };

    ghost invariant = { λ site. IsSite (record { state = site.state; county = site.county; number = site.number }) };

    ghost inverse = { λ site. record { state = site.state; county = site.county; number = site.number } };
}

impl SiteId {
    ghost use Rattle.std.specs.Prelude.{◌≡◌, ◌≤◌};
    ghost use Rattle.aq_base.specs.Site.{site_of};

    /// The site with these parts, or `None` if the state is above 99, the county above 999 or the
    /// site's number above 9999.
    pub fn new(state: u8, county: u16, site: u16) -> Option<SiteId>
        ensures { result ≡ site_of state county site }
    {
        if state <= 99 && county <= 999 && site <= 9999 {
            Some(SiteId {
                state,
                county,
                number: site,
            })
        } else {
            None
        }
    }

    /// The state's code, of two digits.
    pub fn state(self) -> u8
        ensures value { result ≡ self.state }
        ensures range { result ≤ 99 }
    {
        self.state
    }

    /// The county's code, of three digits.
    pub fn county(self) -> u16
        ensures value { result ≡ self.county }
        ensures range { result ≤ 999 }
    {
        self.county
    }

    /// The site's number, of four digits.
    pub fn site(self) -> u16
        ensures value { result ≡ self.number }
        ensures range { result ≤ 9999 }
    {
        self.number
    }
}
