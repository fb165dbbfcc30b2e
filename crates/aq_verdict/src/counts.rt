//! Whether a PM2.5 quarter and year have enough samples.
ghost use Rattle.std.specs.Prelude.{◌≡◌, ◌≤◌};
ghost use Rattle.std.specs.List.{list_all};
ghost use Rattle.aq_rules.specs.Particles.QuarterCounts.{capture};
ghost use Rattle.aq_rules.specs.Particles.AnnualVerdict.{is_captured, has_eleven_each, counts_in};
ghost use Rattle.aq_rules.specs.Kept.Summaries.{counts_of};
ghost use Rattle.aq_rules.specs.Kept.SummaryVerdicts.{of_summaries, kept_counted};
ghost use Rattle.aq_verdict.specs.Counts.{is_quarter_captured, has_eleven, creditable_in};

use crate::pm_quarter::PmQuarter;
use crate::pm_year::PmYear;
use crate::rounded::rounded;

/// The creditable samples in percent of the scheduled days, to the nearest whole one; 0 if nothing
/// is scheduled (40 CFR Part 50, Appendix N, 1.0(c)).
pub fn capture(quarter: &PmQuarter) -> u32
    ensures { result ≡ capture (counts_of quarter.now) }
{
    if quarter.scheduled() == 0 {
        return 0;
    }
    let samples = 100 * i128::from(quarter.creditable());
    rounded(samples, i128::from(quarter.scheduled())).unsigned_abs()
}

/// Whether three quarters of the scheduled days of each quarter have a sample.
pub(crate) fn is_captured(year: &PmYear) -> bool
    ensures { result ≡ is_captured (counts_in of_summaries year.now) }
{
    are_quarters_captured(year.quarters())
}

fn are_quarters_captured(quarters: &[PmQuarter; 4]) -> bool
    ensures { result ≡ list_all is_quarter_captured quarters.now }
{
    quarters.iter().all(is_quarter_captured)
}

fn is_quarter_captured(quarter: &PmQuarter) -> bool
    ensures { result ≡ is_quarter_captured quarter.now }
{
    capture(quarter) >= 75
}

/// Whether each quarter has eleven creditable samples.
pub(crate) fn has_eleven_each(year: &PmYear) -> bool
    ensures { result ≡ has_eleven_each (counts_in of_summaries year.now) }
{
    have_eleven(year.quarters())
}

fn have_eleven(quarters: &[PmQuarter; 4]) -> bool
    ensures { result ≡ list_all has_eleven quarters.now }
{
    quarters.iter().all(has_eleven)
}

fn has_eleven(quarter: &PmQuarter) -> bool
    ensures { result ≡ has_eleven quarter.now }
{
    quarter.creditable() >= 11
}

/// The creditable samples of the year.
pub(crate) fn creditable_in(year: &PmYear) -> u16
    ensures { result ≡ creditable_in year.now.quarters }
{
    let [a, b, c, d] = year.quarters();
    u16::from(a.creditable())
        + u16::from(b.creditable())
        + u16::from(c.creditable())
        + u16::from(d.creditable())
}

/// The creditable samples of the year that are not excluded: at most one a day.
pub fn counted_in(year: &PmYear) -> u16
    ensures value { result ≡ kept_counted year.now.quarters }
    ensures most { result ≤ 366 }
{
    counted_of(year.quarters())
}

fn counted_of(quarters: &[PmQuarter; 4]) -> u16
    ensures { result ≡ kept_counted quarters.now }
{
    let [a, b, c, d] = quarters;
    u16::from(a.counted())
        + u16::from(b.counted())
        + u16::from(c.counted())
        + u16::from(d.counted())
}
