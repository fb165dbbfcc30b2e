//! The copies of a value that join the list of an incomplete PM2.5 quarter, for the substitution tests
//! (40 CFR Part 50, Appendix N, 4.1(c) and 4.2(c)).
ghost use Rattle.std.specs.Prelude.{◌≡◌, ◌<◌, ◌≤◌, ◌-◌, IsTrue, replicate, max, [], ◌∷◌};
ghost use Rattle.std.specs.Option.{IfSome, option_map};
ghost use Rattle.aq_base.specs.declared.monitor.Pollutant.TheVariants.{Pm25};
ghost use Rattle.aq_rules.specs.Particles.Substitution.{minimum_copies, maximum_copies, minimum_for, maximum_for, same_part};
ghost use Rattle.aq_rules.specs.Kept.Summaries.{counts_of, is_value};
ghost use Rattle.aq_rules.specs.Kept.SummaryVerdicts.{of_summaries};
ghost use Rattle.aq_verdict.specs.Filled.{copies_of, lesser_of, greater_of, together, IsCombined, copies_in_test, Fills, FillsUp};

use crate::counts::capture;
use crate::pm_quarter::PmQuarter;
use crate::pm_year::PmYear;

/// So many copies of a value, in tenths of a µg/m3.
#[derive(Clone, Copy, Debug)]
pub(crate) struct Copies {
    pub(crate) value: i32,
    pub(crate) number: u8,
}

/// What the test of an annual value fills quarters with: copies of the least value or of the greatest.
#[derive(Clone, Copy, Debug)]
pub(crate) enum Test {
    Minimum,
    Maximum,
}

/// Of a calendar quarter in three years the days with a value, and the least and the greatest value.
#[derive(Clone, Copy, Debug)]
pub(crate) struct ThreeQuarters {
    days: u16,
    least: Option<i32>,
    greatest: Option<i32>,
}

/// The copies for a quarter, which is the given part of its year, in a test; none if the test is
/// not to be had.
pub(crate) fn copies_in_test(
    years: &[PmYear; 3],
    quarter: &PmQuarter,
    part: usize,
    test: Test,
) -> Option<Copies>
    requires { part < 4 }
    ensures copies { option_map copies_of result ≡ copies_in_test test (quarter.now, same_part of_summaries years.now part) }
    ensures fills { IfSome result (Fills quarter.now) }
{
    match test {
        Test::Minimum => minimum_for(years, quarter, part),
        Test::Maximum => maximum_for(years, quarter, part),
    }
}

/// The copies for a quarter in the minimum test.
fn minimum_for(years: &[PmYear; 3], quarter: &PmQuarter, part: usize) -> Option<Copies>
    requires { part < 4 }
    ensures copies { option_map copies_of result ≡ minimum_for of_summaries (quarter.now, same_part of_summaries years.now part) }
    ensures fills { IfSome result (Fills quarter.now) }
{
    let all = together_at(years, part);
    minimum_copies(quarter, all.days, all.least)
}

/// The copies for a quarter in the maximum test.
pub(crate) fn maximum_for(years: &[PmYear; 3], quarter: &PmQuarter, part: usize) -> Option<Copies>
    requires { part < 4 }
    ensures copies { option_map copies_of result ≡ maximum_for of_summaries (quarter.now, same_part of_summaries years.now part) }
    ensures fills { IfSome result (FillsUp quarter.now) }
{
    let all = together_at(years, part);
    maximum_copies(quarter, all.greatest)
}

// Fewer than eleven creditable samples are filled up to eleven, which needs thirty days of values.
fn minimum_copies(quarter: &PmQuarter, days: u16, least: Option<i32>) -> Option<Copies>
    requires { IsTrue (is_value Pm25 least) }
    ensures copies { option_map copies_of result ≡ minimum_copies (counts_of quarter.now) days least }
    ensures fills { IfSome result (Fills quarter.now) }
{
    let creditable = quarter.creditable();
    if creditable >= 11 {
        return Some(no_copies(quarter));
    }
    if days < 30 {
        return None;
    }
    copies_to(quarter, 11, least)
}

// A capture below 75 is filled up to the scheduled days, and one below 50 is too low.
fn maximum_copies(quarter: &PmQuarter, greatest: Option<i32>) -> Option<Copies>
    requires { IsTrue (is_value Pm25 greatest) }
    ensures copies { option_map copies_of result ≡ maximum_copies (counts_of quarter.now) greatest }
    ensures fills { IfSome result (FillsUp quarter.now) }
{
    let captured = capture(quarter);
    if captured >= 75 {
        return Some(no_copies(quarter));
    }
    if captured < 50 {
        return None;
    }
    copies_to(quarter, quarter.scheduled(), greatest)
}

fn no_copies(quarter: &PmQuarter) -> Copies
    ensures copies { copies_of result ≡ [] }
    ensures fills { FillsUp quarter.now result }
{
    let _ = (
        quarter.scheduled(),
        quarter.creditable(),
        quarter.counted(),
        quarter.days(),
    );
    Copies {
        value: 0,
        number: 0,
    }
}

// Copies of the value that fill the creditable samples up to so many.
fn copies_to(quarter: &PmQuarter, samples: u8, value: Option<i32>) -> Option<Copies>
    requires range { IsTrue (is_value Pm25 value) }
    requires more { quarter.now.creditable ≤ samples }
    requires most { samples ≤ max 11 quarter.now.scheduled }
    ensures copies { option_map copies_of result ≡ option_map (replicate (samples - quarter.now.creditable)) value }
    ensures fills { IfSome result (Fills quarter.now) }
    ensures up { samples ≡ quarter.now.scheduled → IfSome result (FillsUp quarter.now) }
{
    let _ = (quarter.scheduled(), quarter.counted(), quarter.days());
    Some(Copies {
        value: value?,
        number: samples - quarter.creditable(),
    })
}

// The quarters that are this part of the three years.
fn together_at(years: &[PmYear; 3], part: usize) -> ThreeQuarters
    requires { part < 4 }
    ensures value { result ≡ together (same_part of_summaries years.now part) }
    ensures range { IsCombined result }
{
    let [a, b, c] = years;
    together(
        &a.quarters()[part],
        &b.quarters()[part],
        &c.quarters()[part],
    )
}

fn together(a: &PmQuarter, b: &PmQuarter, c: &PmQuarter) -> ThreeQuarters
    ensures value { result ≡ together (a.now ∷ b.now ∷ c.now ∷ []) }
    ensures range { IsCombined result }
{
    let _ = (a.scheduled(), b.scheduled(), c.scheduled());
    ThreeQuarters {
        days: u16::from(a.days()) + u16::from(b.days()) + u16::from(c.days()),
        least: lesser_of(lesser_of(a.least(), b.least()), c.least()),
        greatest: greater_of(greater_of(a.greatest(), b.greatest()), c.greatest()),
    }
}

fn lesser_of(a: Option<i32>, b: Option<i32>) -> Option<i32>
    ensures { result ≡ lesser_of a b }
{
    match (a, b) {
        (None, _) => b,
        (Some(_), None) => a,
        (Some(a), Some(b)) => Some(a.min(b)),
    }
}

fn greater_of(a: Option<i32>, b: Option<i32>) -> Option<i32>
    ensures { result ≡ greater_of a b }
{
    match (a, b) {
        (None, _) => b,
        (Some(_), None) => a,
        (Some(a), Some(b)) => Some(a.max(b)),
    }
}
