use crate::site::SiteId;

/// A pollutant, by the parameter under which it is reported.
#[derive(Clone, Copy, Debug, PartialEq, Eq, PartialOrd, Ord)]
pub enum Pollutant {
    /// 44201, in thousandths of a ppm.
    Ozone,
    /// 88101, PM2.5 at local conditions, in tenths of a µg/m3.
    Pm25,
    /// 81102, PM10 at standard conditions, in tenths of a µg/m3.
    Pm10,
}

/// How long a monitor's sample lasts.
#[derive(Clone, Copy, Debug, PartialEq, Eq)]
pub enum Duration {
    Hour,
    /// 24 hours.
    Day,
}

/// A monitor: a site, a pollutant and the parameter occurrence code (POC), which distinguishes the
/// instruments for one pollutant at one site.
#[derive(Clone, Copy, Debug, PartialEq, Eq, PartialOrd, Ord)]
pub struct MonitorId {
    pub site: SiteId,
    pub pollutant: Pollutant,
    pub poc: u8,
}
