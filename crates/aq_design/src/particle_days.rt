//! Where the particle days of an office are had from.
ghost use Rattle.std.specs.Prelude.{◌≡◌};
ghost use Rattle.aq_rules.specs.Particles.ParticleDay.{site_day};
ghost use Rattle.aq_series.specs.DayCells.{IsParticulate};

use crate::years::Years;
use aq_base::{Day, Pollutant, SiteId};
use aq_registry::Registry;
use aq_series::Cell;

/// Gives the particle days of an office's sites beside their years, and the records that say what is asked
/// of a day. It takes no memory and makes no step.
pub trait ParticleDays: Years {
    /// The agency's records, lent.
    fn records(&self) -> &Registry
        ensures { result.now ≡ (Self.office self.now).records };

    /// The value that a site has for a day, with whether it is excluded, in tenths of a µg/m3 (40 CFR Part
    /// 50, Appendix N, 3.0 for PM2.5, and Appendix K, 2.3 for PM10).
    fn particle_day(&self, site: SiteId, pollutant: Pollutant, day: Day) -> Option<Cell>
        requires { IsParticulate pollutant }
        ensures { result ≡ site_day (Self.office self.now) site pollutant day };
}
