//! The 98th percentile of a PM2.5 year (40 CFR Part 50, Appendix N, 4.5 and Table 1).
ghost use Rattle.std.specs.Prelude.{◌≡◌, ◌≤◌, take, length};
ghost use Rattle.std.specs.List.{flat_map};
ghost use Rattle.aq_rules.specs.Particles.Percentile.{rank_of};
ghost use Rattle.aq_rules.specs.Particles.DailyVerdict.{percentile_of};
ghost use Rattle.aq_rules.specs.Kept.SummaryVerdicts.{of_summaries};
ghost use Rattle.aq_verdict.specs.Filled.{copies_of};
ghost use Rattle.aq_verdict.specs.Inserted.{inserted};
ghost use Rattle.aq_verdict.specs.Ranks.{percentile_in, counted_with};

use crate::counts::counted_in;
use crate::pm_year::PmYear;
use crate::substitution::Copies;
use crate::top_eight::TopEight;

/// The percentile, in tenths of a µg/m3; none without a counted sample.
pub fn percentile_of(year: &PmYear) -> Option<i32>
    ensures { result ≡ percentile_of of_summaries year.now }
{
    // The year keeps its facts.
    let _ = year.quarters();
    percentile(year.greatest_values(), counted_in(year))
}

/// The percentile of the year's list with the copies of its quarters.
pub(crate) fn percentile_with(year: &PmYear, copies: &[Copies; 4]) -> Option<i32>
    requires { counted_with year.now.quarters copies.now ≤ 400 }
    ensures { result ≡ of_summaries.percentile_with (flat_map copies_of copies.now) year.now }
{
    // The year keeps its facts, and the order of the copies does not matter.
    let _ = year.quarters();
    aq_rules::lists::ranking_forgets_the_order();
    percentile(
        &top_with(year, copies),
        counted_in(year) + number_of(copies),
    )
}

// The eight greatest values with the copies.
fn top_with(year: &PmYear, copies: &[Copies; 4]) -> TopEight
    ensures { result ≡ take 8 (inserted (flat_map copies_of copies.now) year.now.top) }
{
    let [a, b, c, d] = copies;
    let top = with_copies(year.greatest_values(), d);
    let top = with_copies(&top, c);
    let top = with_copies(&top, b);
    with_copies(&top, a)
}

fn with_copies(top: &TopEight, copies: &Copies) -> TopEight
    ensures { result ≡ take 8 (inserted (copies_of copies.now) top.now) }
{
    top.with_copies(copies.value, copies.number)
}

// How many copies the quarters get.
fn number_of(copies: &[Copies; 4]) -> u16
    ensures { result ≡ length (flat_map copies_of copies.now) }
{
    let [a, b, c, d] = copies;
    number(a) + number(b) + number(c) + number(d)
}

fn number(copies: &Copies) -> u16
    ensures value { result ≡ copies.now.number }
    ensures few { result ≤ 255 }
{
    u16::from(copies.number)
}

// The value whose rank among the greatest ones is that of so many counted samples.
fn percentile(top: &TopEight, counted: u16) -> Option<i32>
    requires { counted ≤ 400 }
    ensures { result ≡ percentile_in top.now counted }
{
    if counted == 0 {
        return None;
    }
    top.value_at(rank_of(counted))
}

/// The rank of a year's 98th percentile, counted from the greatest value, by how many samples are
/// counted: first for 1 to 50, second to 100, and so on to the eighth (40 CFR Part 50, Appendix N, 4.5,
/// Table 1). The number is 1 to 400; a year has at most 366.
pub fn rank_of(counted: u16) -> u8
    requires some { 1 ≤ counted }
    requires most { counted ≤ 400 }
    ensures rank { result ≡ rank_of counted }
    ensures some { 1 ≤ result }
    ensures few { result ≤ 8 }
{
    ((counted + 49) / 50) as u8
}
