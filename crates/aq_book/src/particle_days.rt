//! The particle days of an office's sites, as they are kept (40 CFR Part 50, Appendices N and K).
use crate::book::Book;
use aq_base::{Day, Pollutant, SiteId};
use aq_design::ParticleDays;
use aq_registry::Registry;
use aq_series::Cell;

impl ParticleDays for Book {
    fn records(&self) -> &Registry {
        self.registry()
    }

    fn particle_day(&self, site: SiteId, pollutant: Pollutant, day: Day) -> Option<Cell> {
        match pollutant {
            Pollutant::Ozone => None,
            Pollutant::Pm25 => self.cells.pm25.cell(site, day),
            Pollutant::Pm10 => self.cells.pm10.cell(site, day),
        }
    }
}
