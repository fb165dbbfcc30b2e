//! The agency's own records, beside the observations.
ghost use Rattle.std.specs.Prelude.{◌≡◌};
ghost use Rattle.aq_base.specs.OfficeKeys.{key_of};

use crate::code::Code;
use crate::day::{Day, Hour};
use crate::monitor::{Duration, MonitorId, Pollutant};
use crate::site::SiteId;

/// A record of the agency's office (own).
#[derive(Clone, Copy, Debug, PartialEq, Eq)]
pub enum OfficeRecord {
    /// A registered monitor. Only an eligible one's values count.
    Monitor {
        id: MonitorId,
        duration: Duration,
        eligible: bool,
    },
    /// The primary monitor of a site and pollutant from a day on. POC 0 means none.
    Primary {
        site: SiteId,
        pollutant: Pollutant,
        from: Day,
        poc: u8,
    },
    /// The sampling schedule of a site and pollutant from a day on: each day whose distance from the
    /// anchor is a multiple of the interval, which is 1, 2, 3 or 6 days.
    Schedule {
        site: SiteId,
        pollutant: Pollutant,
        from: Day,
        interval: u8,
        anchor: Day,
    },
    /// The ozone season of a site and year.
    Season {
        site: SiteId,
        year: u16,
        first: Day,
        last: Day,
    },
    /// A PM2.5 sample that makes up for a missed scheduled one.
    Makeup {
        site: SiteId,
        missed: Day,
        makeup: Day,
    },
    /// An exceptional event: the hours of a site and pollutant, and the qualifier code of the
    /// observations that it flags.
    Event {
        number: u32,
        site: SiteId,
        pollutant: Pollutant,
        first: Hour,
        last: Hour,
        code: Code,
    },
    /// Whether the Regional Administrator concurred in an event (40 CFR 50.14).
    Concurrence {
        number: u32,
        agreed: bool,
    },
    /// An ozone day that counts as valid by approval.
    Approved {
        site: SiteId,
        day: Day,
    },
    /// A site whose record of a pollutant, ozone or PM2.5, goes on at another site, the joined one, from a
    /// day on. A site is combined once for each pollutant.
    Combined {
        site: SiteId,
        pollutant: Pollutant,
        from: Day,
        joined: SiteId,
    },
}

impl OfficeRecord {
    /// The key under which the record is kept (own).
    pub fn key(&self) -> OfficeKey
        ensures { result ≡ key_of self.now }
    {
        match *self {
            OfficeRecord::Monitor { id, .. } => OfficeKey::Monitor { id },
            OfficeRecord::Primary {
                site,
                pollutant,
                from,
                ..
            } => OfficeKey::Primary {
                site,
                pollutant,
                from,
            },
            OfficeRecord::Schedule {
                site,
                pollutant,
                from,
                ..
            } => OfficeKey::Schedule {
                site,
                pollutant,
                from,
            },
            OfficeRecord::Season { site, year, .. } => OfficeKey::Season { site, year },
            OfficeRecord::Makeup { site, missed, .. } => OfficeKey::Makeup { site, missed },
            OfficeRecord::Event { number, .. } => OfficeKey::Event { number },
            OfficeRecord::Concurrence { number, .. } => OfficeKey::Concurrence { number },
            OfficeRecord::Approved { site, day } => OfficeKey::Approved { site, day },
            OfficeRecord::Combined {
                site,
                pollutant,
                ..
            } => OfficeKey::Combined { site, pollutant },
        }
    }
}

/// What sets an office record apart from the others of its kind. It has no order: rows go by kind and
/// printed key, in which PM10 (81102) comes before PM2.5 (88101).
#[derive(Clone, Copy, Debug, PartialEq, Eq)]
pub enum OfficeKey {
    Monitor {
        id: MonitorId,
    },
    Primary {
        site: SiteId,
        pollutant: Pollutant,
        from: Day,
    },
    Schedule {
        site: SiteId,
        pollutant: Pollutant,
        from: Day,
    },
    Season {
        site: SiteId,
        year: u16,
    },
    Makeup {
        site: SiteId,
        missed: Day,
    },
    Event {
        number: u32,
    },
    Concurrence {
        number: u32,
    },
    Approved {
        site: SiteId,
        day: Day,
    },
    Combined {
        site: SiteId,
        pollutant: Pollutant,
    },
}

/// What an office line asks for: a new record, a changed one, or one dropped.
#[derive(Clone, Copy, Debug, PartialEq, Eq)]
pub enum OfficeLine {
    Put(OfficeRecord),
    Change(OfficeRecord),
    Drop(OfficeKey),
}
