ghost use Rattle.std.specs.Prelude.{◌≡◌};
ghost use Rattle.aq_base.specs.Standard.{standard_name, standards, pollutant_of, level_of};

use crate::monitor::Pollutant;

/// A national ambient air quality standard, in the order in which reports give them.
#[derive(Clone, Copy, Debug, PartialEq, Eq)]
pub enum Standard {
    /// Ozone, 0.070 ppm (40 CFR Part 50, Appendix U).
    Ozone2015,
    /// PM2.5, annual primary of 2012, 12.0 µg/m3 (Appendix N).
    Annual2012,
    /// PM2.5, annual secondary, 15.0 µg/m3 (Appendix N).
    AnnualSecondary,
    /// PM2.5, annual primary of 2024, 9.0 µg/m3 (Appendix N).
    Annual2024,
    /// PM2.5, 24-hour, 35 µg/m3 (Appendix N).
    Daily2006,
    /// PM10, 24-hour, 150 µg/m3 with 1.0 expected exceedances a year (Appendix K).
    Pm10Of1987,
}

impl Standard {
    /// All standards, in the order in which reports give them.
    pub fn all() -> [Standard; 6]
        ensures { result ≡ standards }
    {
        [
            Standard::Ozone2015,
            Standard::Annual2012,
            Standard::AnnualSecondary,
            Standard::Annual2024,
            Standard::Daily2006,
            Standard::Pm10Of1987,
        ]
    }

    /// The short name (own).
    pub fn name(self) -> &'static str
        ensures { result.now ≡ standard_name self }
    {
        match self {
            Standard::Ozone2015 => "O3-2015",
            Standard::Annual2012 => "PM25-ANNUAL-2012",
            Standard::AnnualSecondary => "PM25-ANNUAL-SECONDARY",
            Standard::Annual2024 => "PM25-ANNUAL-2024",
            Standard::Daily2006 => "PM25-24H-2006",
            Standard::Pm10Of1987 => "PM10-24H-1987",
        }
    }

    /// The pollutant that it limits.
    pub fn pollutant(self) -> Pollutant
        ensures { result ≡ pollutant_of self }
    {
        match self {
            Standard::Ozone2015 => Pollutant::Ozone,
            Standard::Annual2012
            | Standard::AnnualSecondary
            | Standard::Annual2024
            | Standard::Daily2006 => Pollutant::Pm25,
            Standard::Pm10Of1987 => Pollutant::Pm10,
        }
    }

    /// Its level, in the unit of its design value: thousandths of a ppm of ozone, tenths of a µg/m3 of a
    /// PM2.5 year, whole µg/m3 of a PM2.5 day, tenths of a PM10 exceedance a year (40 CFR 50.6, 50.13,
    /// 50.18, 50.19 and 50.20).
    pub fn level(self) -> i32
        ensures { result ≡ level_of self }
    {
        match self {
            Standard::Ozone2015 => 70,
            Standard::Annual2012 => 120,
            Standard::AnnualSecondary => 150,
            Standard::Annual2024 => 90,
            Standard::Daily2006 => 35,
            Standard::Pm10Of1987 => 10,
        }
    }
}

/// Whether a standard is met.
#[derive(Clone, Copy, Debug, PartialEq, Eq)]
pub enum Verdict {
    Met,
    NotMet,
    /// There is a design value, but too few samples were taken to rest a verdict on it. It may be above
    /// the level too: for an annual PM2.5 standard if the minimum test fails, and for PM10.
    Incomplete,
    /// There is no design value.
    NoValue,
}
