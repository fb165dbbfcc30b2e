//! The years of what stands on a shelf and in a registry.
use crate::years::Years;
use aq_base::{SiteId, Steps};
use aq_registry::Registry;
use aq_shelf::Shelf;
use aq_verdict::{OzoneYear, Pm10Year, PmYear};
use std::sync::ledger::Ledger;

/// A shelf and a registry as a source of years, which are computed from the observations at each call.
#[derive(Clone, Copy)]
pub struct FromShelf<'a> {
    pub shelf: &'a Shelf,
    pub registry: &'a Registry,
}

impl<'a> Years for FromShelf<'a> {
    ghost use Rattle.std.specs.Prelude.{◌*◌, false};
    ghost use Rattle.aq_series.specs.OfficeView.{office_of};

    ghost office = { λ source. office_of source.registry.now source.shelf.now };

    ghost ozone_steps = { 200 * 367 };

    ghost keeps_particles = { false };

    fn ozone<L: Ledger>(&self, site: SiteId, year: u16, steps: &mut Steps<L>) -> OzoneYear {
        aq_ozone::year(self.shelf, self.registry, site, year, steps)
    }

    fn pm25<L: Ledger>(&self, site: SiteId, year: u16, steps: &mut Steps<L>) -> PmYear {
        aq_particles::pm25::year(self.shelf, self.registry, site, year, steps)
    }

    fn pm10<L: Ledger>(&self, site: SiteId, year: u16, steps: &mut Steps<L>) -> Pm10Year {
        aq_particles::pm10::year(self.shelf, self.registry, site, year, steps)
    }
}
