//! What is kept of a site's PM10 quarters and year.
ghost use Rattle.std.specs.Prelude.{◌≡◌};
ghost use Rattle.aq_rules.specs.Kept.Summaries.{KeepsPm10Quarter, KeepsPm10Year};

use std::marker::Model;

/// A site's PM10 quarter: the days of the calendar quarter, its scheduled days and those of them with a
/// sample, its strata with a sample, its samples, how many of them exceed 150 µg/m3, of all and of
/// those on scheduled days, and the sum over the strata of the part of their samples that exceed, in
/// sixtieths (40 CFR Part 50, Appendix K, 2.3 and 3.1). Its facts hold always. Contracts see the eight
/// parts.
#[derive(Clone, Copy, Debug, PartialEq, Eq)]
pub struct Pm10Quarter {
    days: u8,
    scheduled: u8,
    captured: u8,
    strata: u8,
    samples: u8,
    exceedances: u8,
    scheduled_exceedances: u8,
    sixtieths: u32,
}

impl Model for Pm10Quarter {
    ghost use Rattle.aq_rules.specs.Particles.Pm10Estimate.{Pm10Quarter as Quarter};
    ghost use Rattle.aq_rules.specs.Kept.Summaries.{KeepsPm10Quarter};

    ghost Value = { Quarter };

    ghost view = { λ q. record { calendar_days = q.days; scheduled = q.scheduled; captured = q.captured; strata = q.strata; samples = q.samples; exceedances = q.exceedances; scheduled_exceedances = q.scheduled_exceedances; sixtieths = q.sixtieths } };

    ghost invariant = { λ q. KeepsPm10Quarter (record { calendar_days = q.days; scheduled = q.scheduled; captured = q.captured; strata = q.strata; samples = q.samples; exceedances = q.exceedances; scheduled_exceedances = q.scheduled_exceedances; sixtieths = q.sixtieths }) };

    ghost inverse = { λ q. record { days = q.calendar_days; scheduled = q.scheduled; captured = q.captured; strata = q.strata; samples = q.samples; exceedances = q.exceedances; scheduled_exceedances = q.scheduled_exceedances; sixtieths = q.sixtieths } };
}

impl Pm10Quarter {
    /// The quarter of these parts.
    pub fn new(
        days: u8,
        scheduled: u8,
        captured: u8,
        strata: u8,
        samples: u8,
        exceedances: u8,
        scheduled_exceedances: u8,
        sixtieths: u32,
    ) -> Pm10Quarter
        requires { KeepsPm10Quarter (record { calendar_days = days; scheduled = scheduled; captured = captured; strata = strata; samples = samples; exceedances = exceedances; scheduled_exceedances = scheduled_exceedances; sixtieths = sixtieths }) }
        ensures { result ≡ record { calendar_days = days; scheduled = scheduled; captured = captured; strata = strata; samples = samples; exceedances = exceedances; scheduled_exceedances = scheduled_exceedances; sixtieths = sixtieths } }
    {
        Pm10Quarter {
            days,
            scheduled,
            captured,
            strata,
            samples,
            exceedances,
            scheduled_exceedances,
            sixtieths,
        }
    }

    /// The days of the calendar quarter.
    pub fn days(&self) -> u8
        ensures value { result ≡ self.now.calendar_days }
        ensures facts { KeepsPm10Quarter self.now }
    {
        self.days
    }

    /// The scheduled days.
    pub fn scheduled(&self) -> u8
        ensures { result ≡ self.now.scheduled }
    {
        self.scheduled
    }

    /// The scheduled days with a sample, excluded or not.
    pub fn captured(&self) -> u8
        ensures { result ≡ self.now.captured }
    {
        self.captured
    }

    /// The strata with a sample.
    pub fn strata(&self) -> u8
        ensures { result ≡ self.now.strata }
    {
        self.strata
    }

    /// The samples.
    pub fn samples(&self) -> u8
        ensures { result ≡ self.now.samples }
    {
        self.samples
    }

    /// The samples that exceed.
    pub fn exceedances(&self) -> u8
        ensures { result ≡ self.now.exceedances }
    {
        self.exceedances
    }

    /// The samples on scheduled days that exceed.
    pub fn scheduled_exceedances(&self) -> u8
        ensures { result ≡ self.now.scheduled_exceedances }
    {
        self.scheduled_exceedances
    }

    /// The sum over the strata of the part of their samples that exceed, in sixtieths.
    pub fn sixtieths(&self) -> u32
        ensures { result ≡ self.now.sixtieths }
    {
        self.sixtieths
    }
}

/// The four quarters of a site's PM10 year. Contracts see the list of them.
#[derive(Clone, Copy, Debug, PartialEq, Eq)]
pub struct Pm10Year {
    quarters: [Pm10Quarter; 4],
}

impl Model for Pm10Year {
    ghost use Rattle.std.specs.Prelude.{List};
    ghost use Rattle.aq_rules.specs.Particles.Pm10Estimate.{Pm10Quarter as Quarter};
    ghost use Rattle.aq_rules.specs.Kept.Summaries.{KeepsPm10Year};

    ghost Value = { List Quarter };

    ghost view = { λ year. year.quarters };

    ghost invariant = { λ year. KeepsPm10Year year.quarters };

    ghost inverse = { λ quarters. record { quarters = quarters } };
}

impl Pm10Year {
    /// The year of these quarters.
    pub fn new(quarters: [Pm10Quarter; 4]) -> Pm10Year
        ensures { result ≡ quarters }
    {
        let [first, second, third, fourth] = &quarters;
        // Each keeps its facts.
        let _ = (first.days(), second.days(), third.days(), fourth.days());
        Pm10Year { quarters }
    }

    /// The quarters, the first one first.
    pub fn quarters(&self) -> &[Pm10Quarter; 4]
        ensures value { result.now ≡ self.now }
        ensures facts { KeepsPm10Year self.now }
    {
        &self.quarters
    }
}
