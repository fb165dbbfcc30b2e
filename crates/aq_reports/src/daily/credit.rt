//! Whether a day's sample makes up for a missed day (40 CFR Part 50, Appendix N, 1.0(c)).
ghost use Rattle.std.specs.Prelude.{◌≡◌};
ghost use Rattle.aq_rules.specs.Listed.Daily as daily;
ghost use Rattle.aq_rules.specs.Particles.QuarterCounts as counts;
ghost use Rattle.aq_particles.specs.Pm25.SiteDays.{as_makeup};

use crate::daily::schedule::SiteSchedule;
use aq_base::{Day, Pollutant, SiteId};
use aq_design::ParticleDays;
use aq_particles::pm25::{Pm25Schedule, is_makeup_day};

/// Whether a day is the make-up day of a record that gives credit. A day has one such record at most.
pub(crate) fn is_credited<S: ParticleDays>(source: &S, site: SiteId, day: Day) -> bool
    ensures { result ≡ daily.is_credited (S.office source.now) site day }
{
    let records = source.records();
    // The proof learns that the records are those of a valid office.
    let _ = records.next_poc(site, Pollutant::Pm25, 0);
    let Some(missed) = records.missed_of(site, day) else {
        return false;
    };
    gives_credit(source, site, missed, day)
}

/// Whether a sample makes up for a missed day: a scheduled day without one, by a sample of an unscheduled day
/// before the next scheduled one or exactly a week later.
fn gives_credit<S: ParticleDays>(source: &S, site: SiteId, missed: Day, makeup: Day) -> bool
    ensures { result ≡ counts.gives_credit (S.office source.now) site (as_makeup missed makeup) }
{
    let records = source.records();
    let schedule = SiteSchedule { records, site };
    schedule.is_scheduled(missed)
        && source.particle_day(site, Pollutant::Pm25, missed).is_none()
        && is_makeup_day(&schedule, missed, makeup)
        && source.particle_day(site, Pollutant::Pm25, makeup).is_some()
}
