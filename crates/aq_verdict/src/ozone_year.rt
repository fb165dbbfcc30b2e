//! What is kept of a site's ozone year.
use std::marker::Model;

/// A site's ozone year: the days of the season, those of them that are valid or approved, the ranked
/// maxima, and the fourth highest of these in thousandths of a ppm (40 CFR Part 50, Appendix U, 3(e)
/// and 4(b)). Its facts hold always. Contracts see the four parts.
#[derive(Clone, Copy, Debug, PartialEq, Eq)]
pub struct OzoneYear {
    season_days: u16,
    season_valid: u16,
    ranked: u16,
    fourth: Option<i32>,
}

impl Model for OzoneYear {
    ghost use Rattle.aq_rules.specs.Ozone.OzoneYear.{OzoneYear as Year};
    ghost use Rattle.aq_rules.specs.Kept.Summaries.{KeepsOzoneYear};

    ghost Value = { Year };

    ghost view = { λ year. record { season_days = year.season_days; season_valid = year.season_valid; ranked = year.ranked; fourth = year.fourth } };

    ghost invariant = { λ year. KeepsOzoneYear (record { season_days = year.season_days; season_valid = year.season_valid; ranked = year.ranked; fourth = year.fourth }) };

    ghost inverse = { λ year. record { season_days = year.season_days; season_valid = year.season_valid; ranked = year.ranked; fourth = year.fourth } };
}

impl OzoneYear {
    ghost use Rattle.std.specs.Prelude.{◌≡◌};
    ghost use Rattle.aq_rules.specs.Kept.Summaries.{KeepsOzoneYear};

    /// The year of these parts.
    pub fn new(season_days: u16, season_valid: u16, ranked: u16, fourth: Option<i32>) -> OzoneYear
        requires { KeepsOzoneYear (record { season_days = season_days; season_valid = season_valid; ranked = ranked; fourth = fourth }) }
        ensures { result ≡ record { season_days = season_days; season_valid = season_valid; ranked = ranked; fourth = fourth } }
    {
        OzoneYear {
            season_days,
            season_valid,
            ranked,
            fourth,
        }
    }

    /// The days of the season.
    pub fn season_days(&self) -> u16
        ensures value { result ≡ self.now.season_days }
        ensures facts { KeepsOzoneYear self.now }
    {
        self.season_days
    }

    /// The days of the season that are valid or approved.
    pub fn season_valid(&self) -> u16
        ensures { result ≡ self.now.season_valid }
    {
        self.season_valid
    }

    /// How many daily maxima are ranked.
    pub fn ranked(&self) -> u16
        ensures { result ≡ self.now.ranked }
    {
        self.ranked
    }

    /// The fourth highest of the ranked maxima, in thousandths of a ppm.
    pub fn fourth(&self) -> Option<i32>
        ensures { result ≡ self.now.fourth }
    {
        self.fourth
    }
}
