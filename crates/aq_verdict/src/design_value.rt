//! The design value of any standard.
ghost use Rattle.std.specs.Prelude.{◌≡◌};
ghost use Rattle.aq_rules.specs.DesignValues.{value_in, verdict_in};
ghost use Rattle.aq_verdict.specs.Designs.{design_of};

use crate::annual_value::AnnualDv;
use crate::daily_value::DailyDv;
use crate::ozone_value::OzoneDv;
use crate::ozone_year::OzoneYear;
use crate::pm_year::PmYear;
use crate::pm10_value::Pm10Dv;
use crate::pm10_year::Pm10Year;
use aq_base::Verdict;

/// What is kept of three years, the oldest first, and the design value of a standard with its verdict.
/// Contracts see it as `design_of` says.
#[derive(Clone, Copy, Debug, PartialEq, Eq)]
pub enum DesignValue {
    Ozone([OzoneYear; 3], OzoneDv),
    Annual([PmYear; 3], AnnualDv),
    Daily([PmYear; 3], DailyDv),
    Pm10([Pm10Year; 3], Pm10Dv),
}

impl DesignValue {
    /// Its number, in the standard's unit: thousandths of a ppm, tenths of a µg/m3 or whole ones, or
    /// tenths of an exceedance a year.
    pub fn value(&self) -> Option<i32>
        ensures { result ≡ value_in (design_of self.now) }
    {
        match self {
            DesignValue::Ozone(_, design) => design.value,
            DesignValue::Annual(_, design) => design.value,
            DesignValue::Daily(_, design) => design.value,
            DesignValue::Pm10(_, design) => design.value,
        }
    }

    /// Whether the standard is met.
    pub fn verdict(&self) -> Verdict
        ensures { result ≡ verdict_in (design_of self.now) }
    {
        match self {
            DesignValue::Ozone(_, design) => design.verdict,
            DesignValue::Annual(_, design) => design.verdict,
            DesignValue::Daily(_, design) => design.verdict,
            DesignValue::Pm10(_, design) => design.verdict,
        }
    }
}
