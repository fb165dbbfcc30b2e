//! What is kept of a site's PM2.5 quarters.
ghost use Rattle.std.specs.Prelude.{◌≡◌};
ghost use Rattle.aq_rules.specs.Kept.Summaries.{KeepsPmQuarter};

use std::marker::Model;

/// A site's PM2.5 quarter: its scheduled days, its creditable samples and those of them that are not
/// excluded, and of all days that are not excluded their number, sum, least and greatest value in
/// tenths of a µg/m3 (40 CFR Part 50, Appendix N, 1.0(c) and 4.1 to 4.4). Its facts hold always.
/// Contracts see the seven parts.
#[derive(Clone, Copy, Debug, PartialEq, Eq)]
pub struct PmQuarter {
    scheduled: u8,
    creditable: u8,
    counted: u8,
    days: u8,
    sum: i32,
    least: Option<i32>,
    greatest: Option<i32>,
}

impl Model for PmQuarter {
    ghost use Rattle.aq_rules.specs.Kept.Summaries.{PmQuarter as Quarter, KeepsPmQuarter};

    ghost Value = { Quarter };

    ghost view = { λ q. record { scheduled = q.scheduled; creditable = q.creditable; counted = q.counted; net_days = q.days; sum = q.sum; least = q.least; greatest = q.greatest } };

    ghost invariant = { λ q. KeepsPmQuarter (record { scheduled = q.scheduled; creditable = q.creditable; counted = q.counted; net_days = q.days; sum = q.sum; least = q.least; greatest = q.greatest }) };

    ghost inverse = { λ q. record { scheduled = q.scheduled; creditable = q.creditable; counted = q.counted; days = q.net_days; sum = q.sum; least = q.least; greatest = q.greatest } };
}

impl PmQuarter {
    /// The quarter of these parts.
    pub fn new(
        scheduled: u8,
        creditable: u8,
        counted: u8,
        days: u8,
        sum: i32,
        least: Option<i32>,
        greatest: Option<i32>,
    ) -> PmQuarter
        requires { KeepsPmQuarter (record { scheduled = scheduled; creditable = creditable; counted = counted; net_days = days; sum = sum; least = least; greatest = greatest }) }
        ensures { result ≡ record { scheduled = scheduled; creditable = creditable; counted = counted; net_days = days; sum = sum; least = least; greatest = greatest } }
    {
        PmQuarter {
            scheduled,
            creditable,
            counted,
            days,
            sum,
            least,
            greatest,
        }
    }

    /// The scheduled days.
    pub fn scheduled(&self) -> u8
        ensures value { result ≡ self.now.scheduled }
        ensures facts { KeepsPmQuarter self.now }
    {
        self.scheduled
    }

    /// The creditable samples.
    pub fn creditable(&self) -> u8
        ensures { result ≡ self.now.creditable }
    {
        self.creditable
    }

    /// The creditable samples that are not excluded.
    pub fn counted(&self) -> u8
        ensures { result ≡ self.now.counted }
    {
        self.counted
    }

    /// The days with a value that is not excluded, scheduled or not.
    pub fn days(&self) -> u8
        ensures { result ≡ self.now.net_days }
    {
        self.days
    }

    /// The sum of their values, in tenths of a µg/m3.
    pub fn sum(&self) -> i32
        ensures { result ≡ self.now.sum }
    {
        self.sum
    }

    /// The least of their values, in tenths of a µg/m3.
    pub fn least(&self) -> Option<i32>
        ensures { result ≡ self.now.least }
    {
        self.least
    }

    /// The greatest of their values, in tenths of a µg/m3.
    pub fn greatest(&self) -> Option<i32>
        ensures { result ≡ self.now.greatest }
    {
        self.greatest
    }
}
