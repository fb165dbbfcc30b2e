//! Where a record stands among the others.
ghost use Rattle.std.specs.Prelude.{◌≡◌};
ghost use Rattle.aq_rules.specs.Office.Office.{parameter_number};
ghost use Rattle.aq_registry.specs.Places.{behind_site, of_event, of_kind, of_site, place_of};

use aq_base::{OfficeKey, Pollutant, SiteId};

/// A record's place in the order of rows: by kind, site, parameter, and last by POC, day, year or event
/// number. What a kind does not have is 0.
#[derive(Clone, Copy, Debug, PartialEq, Eq, PartialOrd, Ord)]
pub(crate) struct Place {
    /// The number of the kind in the order of rows, from monitors, 1, to combined sites, 9.
    kind: u8,
    state: u8,
    county: u16,
    number: u16,
    /// As reported, so that PM10 comes before PM2.5.
    parameter: u32,
    part: u32,
}

impl Place {
    /// A place of a kind that goes by site.
    pub(crate) fn of_site(kind: u8, site: &SiteId, parameter: u32, part: u32) -> Place
        ensures { result ≡ of_site kind site.now parameter part }
    {
        Place {
            kind,
            state: site.state(),
            county: site.county(),
            number: site.site(),
            parameter,
            part,
        }
    }

    /// A place of a kind that goes by event number.
    pub(crate) fn of_event(kind: u8, number: u32) -> Place
        ensures { result ≡ of_event kind number }
    {
        Place {
            kind,
            state: 0,
            county: 0,
            number: 0,
            parameter: 0,
            part: number,
        }
    }

    /// The first place of a kind.
    pub(crate) fn of_kind(kind: u8) -> Place
        ensures { result ≡ of_kind kind }
    {
        Place::of_event(kind, 0)
    }

    /// The first place of a kind after all those of a site.
    pub(crate) fn behind_site(kind: u8, site: &SiteId) -> Place
        ensures { result ≡ behind_site kind site.now }
    {
        Place {
            kind,
            state: site.state(),
            county: site.county(),
            number: site.site() + 1,
            parameter: 0,
            part: 0,
        }
    }

    /// Where the record of a key stands.
    pub(crate) fn of(key: &OfficeKey) -> Place
        ensures { result ≡ place_of key.now }
    {
        match key {
            OfficeKey::Monitor { id } => {
                Place::of_site(1, &id.site, parameter(id.pollutant), u32::from(id.poc))
            }
            OfficeKey::Primary {
                site,
                pollutant,
                from,
            } => Place::of_site(2, site, parameter(*pollutant), u32::from(from.number())),
            OfficeKey::Schedule {
                site,
                pollutant,
                from,
            } => Place::of_site(3, site, parameter(*pollutant), u32::from(from.number())),
            OfficeKey::Season { site, year } => Place::of_site(4, site, 0, u32::from(*year)),
            OfficeKey::Makeup { site, missed } => {
                Place::of_site(5, site, 0, u32::from(missed.number()))
            }
            OfficeKey::Event { number } => Place::of_event(6, *number),
            OfficeKey::Concurrence { number } => Place::of_event(7, *number),
            OfficeKey::Approved { site, day } => {
                Place::of_site(8, site, 0, u32::from(day.number()))
            }
            OfficeKey::Combined { site, pollutant } => {
                Place::of_site(9, site, parameter(*pollutant), 0)
            }
        }
    }
}

/// The parameter under which a pollutant is reported.
pub(crate) fn parameter(pollutant: Pollutant) -> u32
    ensures { result ≡ parameter_number pollutant }
{
    match pollutant {
        Pollutant::Ozone => 44201,
        Pollutant::Pm25 => 88101,
        Pollutant::Pm10 => 81102,
    }
}
