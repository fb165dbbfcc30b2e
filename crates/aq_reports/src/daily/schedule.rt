//! The schedule of a site, as PM2.5 reads it.
use aq_base::{Day, Pollutant, SiteId};
use aq_particles::pm25::Pm25Schedule;
use aq_registry::Registry;

/// The PM2.5 schedule of a site, by the records. No sample is read by it.
#[derive(Drop)]
pub(crate) struct SiteSchedule<'a> {
    pub(crate) records: &'a Registry,
    pub(crate) site: SiteId,
}

impl<'a> Pm25Schedule for SiteSchedule<'a> {
    ghost use Rattle.std.specs.Prelude.{None};
    ghost use Rattle.aq_base.specs.declared.monitor.Pollutant.TheVariants.{Pm25};
    ghost use Rattle.aq_rules.specs.Office.Schedule.{is_scheduled};

    ghost site_days = { λ schedule. record { cell_on = λ day. None; schedules = is_scheduled schedule.records.now schedule.site Pm25 } };

    fn is_scheduled(&self, day: Day) -> bool {
        self.records.is_scheduled(self.site, Pollutant::Pm25, day)
    }
}
