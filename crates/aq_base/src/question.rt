//! The questions about an office.
ghost use Rattle.std.specs.Prelude.{◌≡◌};
ghost use Rattle.aq_base.specs.Questions.{all_topics, topic_of};

use crate::area::Area;
use crate::assumed::AssumedList;
use crate::day::Day;
use crate::monitor::Pollutant;
use crate::site::SiteId;
use crate::standard::Standard;

/// What a question is about: one row of the table of questions, in its order.
#[derive(Clone, Copy, Debug, PartialEq, Eq)]
pub enum Topic {
    Value,
    Report,
    Export,
    WhatIf,
    Decisive,
    Combined,
    Area,
    Reply,
    Windows,
    Days,
    Pm25,
    Pm10,
    Sites,
    Monitors,
    Events,
    Flags,
    Loads,
    Daily,
    Highest,
    Completeness,
    Reports,
    Records,
    Lines,
}

impl Topic {
    /// All topics, in the order of the table.
    pub fn all() -> [Topic; 23]
        ensures { result ≡ all_topics }
    {
        [
            Topic::Value,
            Topic::Report,
            Topic::Export,
            Topic::WhatIf,
            Topic::Decisive,
            Topic::Combined,
            Topic::Area,
            Topic::Reply,
            Topic::Windows,
            Topic::Days,
            Topic::Pm25,
            Topic::Pm10,
            Topic::Sites,
            Topic::Monitors,
            Topic::Events,
            Topic::Flags,
            Topic::Loads,
            Topic::Daily,
            Topic::Highest,
            Topic::Completeness,
            Topic::Reports,
            Topic::Records,
            Topic::Lines,
        ]
    }
}

/// A question about an office. A year is one of the profile, and the year of a design value ends three of
/// them.
#[derive(Clone, Copy, Debug, PartialEq, Eq)]
pub enum Question {
    /// The design value and verdict of a site for the three years that end with the year.
    Value(Standard, SiteId, u16),
    /// The design values and verdicts of all sites for the three years that end with the year.
    Report(Standard, u16),
    /// The observations of a site, pollutant and year.
    Export(SiteId, Pollutant, u16),
    /// The design value and verdict of a site as if events were concurred in or not.
    WhatIf(Standard, SiteId, u16, AssumedList),
    /// The events of which each alone decides the verdict of a site.
    Decisive(Standard, SiteId, u16),
    /// The design value and verdict of a site and the one that is joined to it. The standard is not that
    /// of PM10.
    Combined(Standard, SiteId, u16),
    /// The value and verdict of an area, its years before, and the critical values of its sites.
    Area(Standard, Area, u16),
    /// The reply to a load, by its number.
    Reply(u32),
    /// The 8-hour ozone averages of a site and day.
    Windows(SiteId, Day),
    /// The ozone days of a site and year.
    Days(SiteId, u16),
    /// The PM2.5 quarters of a site and year.
    Pm25(SiteId, u16),
    /// The PM10 quarters of a site and year.
    Pm10(SiteId, u16),
    /// The registered sites.
    Sites,
    /// The monitors of a site.
    Monitors(SiteId),
    /// The exceptional events of a site.
    Events(SiteId),
    /// The flagged observations of a site, pollutant and year, and those that events cover.
    Flags(SiteId, Pollutant, u16),
    /// The loads that were taken.
    Loads,
    /// The days of a site, pollutant and year.
    Daily(SiteId, Pollutant, u16),
    /// The ten highest days of a site, pollutant and year.
    Highest(SiteId, Pollutant, u16),
    /// How many of the samples due in each month stand, by the monitors of a site and pollutant.
    Completeness(SiteId, Pollutant, u16),
    /// The reports of all standards.
    Reports(u16),
    /// The records of the office, as lines.
    Records,
    /// The observations of a site, pollutant and year, as lines.
    Lines(SiteId, Pollutant, u16),
}

impl Question {
    /// The row of the table that it is a question of.
    pub fn topic(&self) -> Topic
        ensures { result ≡ topic_of self.now }
    {
        match self {
            Question::Value(..) => Topic::Value,
            Question::Report(..) => Topic::Report,
            Question::Export(..) => Topic::Export,
            Question::WhatIf(..) => Topic::WhatIf,
            Question::Decisive(..) => Topic::Decisive,
            Question::Combined(..) => Topic::Combined,
            Question::Area(..) => Topic::Area,
            Question::Reply(_) => Topic::Reply,
            Question::Windows(..) => Topic::Windows,
            Question::Days(..) => Topic::Days,
            Question::Pm25(..) => Topic::Pm25,
            Question::Pm10(..) => Topic::Pm10,
            Question::Sites => Topic::Sites,
            Question::Monitors(_) => Topic::Monitors,
            Question::Events(_) => Topic::Events,
            Question::Flags(..) => Topic::Flags,
            Question::Loads => Topic::Loads,
            Question::Daily(..) => Topic::Daily,
            Question::Highest(..) => Topic::Highest,
            Question::Completeness(..) => Topic::Completeness,
            Question::Reports(_) => Topic::Reports,
            Question::Records => Topic::Records,
            Question::Lines(..) => Topic::Lines,
        }
    }
}
