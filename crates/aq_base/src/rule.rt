//! The rules of which a line is refused under the first that it breaks.
ghost use Rattle.std.specs.Prelude.{◌≡◌};
ghost use Rattle.aq_base.specs.Rule.{rule_number, rule_name, all_rules};

/// A rule of the line formats (own). Numbers 1 to 18, 26 to 29, 33 and 35 are rules of reading, and the
/// others look at what stands.
#[derive(Clone, Copy, Debug, PartialEq, Eq)]
pub enum Rule {
    /// A byte is outside 20 to 7E (hexadecimal).
    BadBytes,
    /// The first field is no tag of the formats.
    BadTag,
    /// The line has too few fields, or too many.
    FieldCount,
    /// The action is none of the form.
    BadAction,
    /// State, county or site number is not spelled as digits of its width.
    BadSite,
    /// The parameter is none of the form.
    ParameterOutOfProfile,
    /// The POC is not spelled as 1 to 99.
    BadPoc,
    /// The sample duration is neither `1` nor `7`, or is `7` for ozone.
    BadDuration,
    /// The unit is none of the parameter's.
    BadUnit,
    /// The method is not three digits.
    BadMethod,
    /// A date or a year is not spelled so, or out of the profile.
    BadDate,
    /// A time is not spelled as a full hour.
    BadTime,
    /// Both a sample value and a null data code are given.
    ValueAndNull,
    /// Neither a sample value nor a null data code is given.
    NeitherValueNorNull,
    /// The sample value is no decimal number.
    BadValue,
    /// The sample value is out of range.
    ValueOutOfRange,
    /// The null data code is not two characters of A-Z and 0-9.
    BadNull,
    /// A qualifier is not one or two characters of A-Z and 0-9.
    BadQualifier,
    /// The monitor, or one of the parameter at the site, is not registered.
    UnknownMonitor,
    /// The sample duration is not the monitor's.
    WrongDuration,
    /// What is to be inserted stands already.
    AlreadyThere,
    /// What is to be updated or deleted does not stand.
    NotThere,
    /// As many observations stand as may.
    ObservationsFull,
    /// As many sites stand as may.
    SitesFull,
    /// As many monitors of the site and parameter stand as may.
    MonitorsFull,
    /// An event's last hour is before its first, or it has too many hours.
    BadSpan,
    /// The interval is not 1, 2, 3 or 6 days.
    BadInterval,
    /// A season's first or last day is not in its year, or the last is before the first.
    BadSeason,
    /// The make-up day is not in the week after the missed day, or not in its quarter.
    BadMakeup,
    /// As many make-up records of the site and quarter stand as may.
    MakeupsFull,
    /// No event has the number.
    UnknownEvent,
    /// As many events stand as may.
    EventsFull,
    /// An eligibility, a flag, an event code or an event number is not spelled so.
    BadCode,
    /// As many designations or schedules of the site and parameter stand as may.
    ListFull,
    /// The two sites of a combination are the same.
    BadPair,
    /// One of the two sites stands in another combination of the parameter.
    PairTaken,
}

impl Rule {
    /// All rules that the formats have, in rising number.
    pub fn all() -> [Rule; 36]
        ensures { result ≡ all_rules }
    {
        [
            Rule::BadBytes,
            Rule::BadTag,
            Rule::FieldCount,
            Rule::BadAction,
            Rule::BadSite,
            Rule::ParameterOutOfProfile,
            Rule::BadPoc,
            Rule::BadDuration,
            Rule::BadUnit,
            Rule::BadMethod,
            Rule::BadDate,
            Rule::BadTime,
            Rule::ValueAndNull,
            Rule::NeitherValueNorNull,
            Rule::BadValue,
            Rule::ValueOutOfRange,
            Rule::BadNull,
            Rule::BadQualifier,
            Rule::UnknownMonitor,
            Rule::WrongDuration,
            Rule::AlreadyThere,
            Rule::NotThere,
            Rule::ObservationsFull,
            Rule::SitesFull,
            Rule::MonitorsFull,
            Rule::BadSpan,
            Rule::BadInterval,
            Rule::BadSeason,
            Rule::BadMakeup,
            Rule::MakeupsFull,
            Rule::UnknownEvent,
            Rule::EventsFull,
            Rule::BadCode,
            Rule::ListFull,
            Rule::BadPair,
            Rule::PairTaken,
        ]
    }

    /// The number that replies and stored loads give.
    pub fn number(self) -> u8
        ensures { result ≡ rule_number self }
    {
        match self {
            Rule::BadBytes => 1,
            Rule::BadTag => 2,
            Rule::FieldCount => 3,
            Rule::BadAction => 4,
            Rule::BadSite => 5,
            Rule::ParameterOutOfProfile => 6,
            Rule::BadPoc => 7,
            Rule::BadDuration => 8,
            Rule::BadUnit => 9,
            Rule::BadMethod => 10,
            Rule::BadDate => 11,
            Rule::BadTime => 12,
            Rule::ValueAndNull => 13,
            Rule::NeitherValueNorNull => 14,
            Rule::BadValue => 15,
            Rule::ValueOutOfRange => 16,
            Rule::BadNull => 17,
            Rule::BadQualifier => 18,
            Rule::UnknownMonitor => 19,
            Rule::WrongDuration => 20,
            Rule::AlreadyThere => 21,
            Rule::NotThere => 22,
            Rule::ObservationsFull => 23,
            Rule::SitesFull => 24,
            Rule::MonitorsFull => 25,
            Rule::BadSpan => 26,
            Rule::BadInterval => 27,
            Rule::BadSeason => 28,
            Rule::BadMakeup => 29,
            Rule::MakeupsFull => 30,
            Rule::UnknownEvent => 31,
            Rule::EventsFull => 32,
            Rule::BadCode => 33,
            Rule::ListFull => 34,
            Rule::BadPair => 35,
            Rule::PairTaken => 36,
        }
    }

    /// The name that replies give.
    pub fn name(self) -> &'static str
        ensures { result.now ≡ rule_name self }
    {
        match self {
            Rule::BadBytes => "BadBytes",
            Rule::BadTag => "BadTag",
            Rule::FieldCount => "FieldCount",
            Rule::BadAction => "BadAction",
            Rule::BadSite => "BadSite",
            Rule::ParameterOutOfProfile => "ParameterOutOfProfile",
            Rule::BadPoc => "BadPoc",
            Rule::BadDuration => "BadDuration",
            Rule::BadUnit => "BadUnit",
            Rule::BadMethod => "BadMethod",
            Rule::BadDate => "BadDate",
            Rule::BadTime => "BadTime",
            Rule::ValueAndNull => "ValueAndNull",
            Rule::NeitherValueNorNull => "NeitherValueNorNull",
            Rule::BadValue => "BadValue",
            Rule::ValueOutOfRange => "ValueOutOfRange",
            Rule::BadNull => "BadNull",
            Rule::BadQualifier => "BadQualifier",
            Rule::UnknownMonitor => "UnknownMonitor",
            Rule::WrongDuration => "WrongDuration",
            Rule::AlreadyThere => "AlreadyThere",
            Rule::NotThere => "NotThere",
            Rule::ObservationsFull => "ObservationsFull",
            Rule::SitesFull => "SitesFull",
            Rule::MonitorsFull => "MonitorsFull",
            Rule::BadSpan => "BadSpan",
            Rule::BadInterval => "BadInterval",
            Rule::BadSeason => "BadSeason",
            Rule::BadMakeup => "BadMakeup",
            Rule::MakeupsFull => "MakeupsFull",
            Rule::UnknownEvent => "UnknownEvent",
            Rule::EventsFull => "EventsFull",
            Rule::BadCode => "BadCode",
            Rule::ListFull => "ListFull",
            Rule::BadPair => "BadPair",
            Rule::PairTaken => "PairTaken",
        }
    }
}
