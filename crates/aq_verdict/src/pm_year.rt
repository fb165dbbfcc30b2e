//! What is kept of a site's PM2.5 year.
ghost use Rattle.std.specs.Prelude.{◌≡◌};
ghost use Rattle.aq_rules.specs.Kept.Summaries.{KeepsPmYear};
ghost use Rattle.aq_verdict.specs.Top.{given, placed};

use crate::pm_quarter::PmQuarter;
use crate::top_eight::TopEight;
use std::marker::Model;

/// The four quarters of a site's PM2.5 year and the year's eight greatest values, downwards, in tenths
/// of a µg/m3. Its facts hold always. Contracts see the list of the quarters and that of the values.
#[derive(Clone, Copy, Debug, PartialEq, Eq)]
pub struct PmYear {
    quarters: [PmQuarter; 4],
    top: TopEight,
}

impl Model for PmYear {
    ghost use Rattle.aq_rules.specs.Kept.Summaries.{PmYear as Year, KeepsPmYear};

    ghost Value = { Year };

    ghost view = { λ year. record { quarters = year.quarters; top = year.top } };

    ghost invariant = { λ year. KeepsPmYear (record { quarters = year.quarters; top = year.top }) };

    ghost inverse = { λ year. record { quarters = year.quarters; top = year.top } };
}

impl PmYear {
    /// The year of these quarters and greatest values.
    pub fn new(quarters: [PmQuarter; 4], top: TopEight) -> PmYear
        requires { KeepsPmYear (record { quarters = quarters; top = top }) }
        ensures { result ≡ record { quarters = quarters; top = top } }
    {
        PmYear { quarters, top }
    }

    /// The quarters, the first one first.
    pub fn quarters(&self) -> &[PmQuarter; 4]
        ensures value { result.now ≡ self.now.quarters }
        ensures facts { KeepsPmYear self.now }
    {
        &self.quarters
    }

    /// The eight greatest values, downwards, and empty places after them.
    pub fn top(&self) -> &[Option<i32>; 8]
        ensures value { result.now ≡ placed 8 self.now.top }
        ensures given { given result.now ≡ self.now.top }
    {
        self.top.places()
    }

    /// The same values as one.
    pub(crate) fn greatest_values(&self) -> &TopEight
        ensures { result.now ≡ self.now.top }
    {
        &self.top
    }
}
