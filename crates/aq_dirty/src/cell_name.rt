use aq_base::{Day, Hour, Pollutant, Quarter, SiteId};

/// A cell: what is kept of an office beside its rows, by what it is of (own).
#[derive(Clone, Copy, Debug)]
pub enum CellName {
    /// The ozone value of a site for an hour.
    Hour(SiteId, Hour),
    /// The 8-hour average of ozone that starts at an hour.
    Window(SiteId, Hour),
    /// An ozone day: whether it is valid, and its maximum.
    OzoneDay(SiteId, Day),
    /// An ozone year: its ranked maxima and its valid days.
    OzoneYear(SiteId, u16),
    /// The PM2.5 or PM10 value of a site for a day.
    PmDay(SiteId, Pollutant, Day),
    /// A stratum of PM10, by its first day.
    Stratum(SiteId, Day),
    /// A quarter of PM2.5 or PM10: its counts and values.
    Quarter(SiteId, Pollutant, Quarter),
    /// The eight greatest values of a PM2.5 year.
    PmYear(SiteId, u16),
}
