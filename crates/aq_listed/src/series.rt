//! Whether an observation is one of a site and pollutant, and of a year.
ghost use Rattle.std.specs.Prelude.{◌≡◌, ◌==◌, ◌&&◌};
ghost use Rattle.aq_base.specs.Calendar.{day_of_hour, year_of};
ghost use Rattle.aq_rules.specs.Office.Monitors as monitors;

use aq_base::{Day, Hour, MonitorId, Pollutant, SiteId};
use aq_cal::civil_of;

/// Whether a monitor is one of a site and pollutant.
pub(crate) fn is_of_series(monitor: &MonitorId, site: &SiteId, pollutant: Pollutant) -> bool
    ensures { result ≡ (monitors.is_same_site monitor.now.site site.now && monitors.is_same_pollutant monitor.now.pollutant pollutant) }
{
    is_same_site(&monitor.site, site) && is_same_pollutant(monitor.pollutant, pollutant)
}

fn is_same_site(a: &SiteId, b: &SiteId) -> bool
    ensures { result ≡ monitors.is_same_site a.now b.now }
{
    a.state() == b.state() && a.county() == b.county() && a.site() == b.site()
}

fn is_same_pollutant(a: Pollutant, b: Pollutant) -> bool
    ensures { result ≡ monitors.is_same_pollutant a b }
{
    match (a, b) {
        (Pollutant::Ozone, Pollutant::Ozone) => true,
        (Pollutant::Pm25, Pollutant::Pm25) => true,
        (Pollutant::Pm10, Pollutant::Pm10) => true,
        _ => false,
    }
}

/// Whether an hour lies in a year.
pub(crate) fn is_in_year(hour: Hour, year: u16) -> bool
    ensures { result ≡ (year_of (day_of_hour hour) == year) }
{
    let day = Day::new((hour.number() / 24) as u16);
    civil_of(day).year == year
}
