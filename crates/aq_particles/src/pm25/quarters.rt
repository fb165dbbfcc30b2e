//! What is kept of a site's PM2.5 quarters and years (40 CFR Part 50, Appendix N, 1.0(c) and 4.1 to 4.5).
ghost use Rattle.std.specs.Prelude.{◌≡◌, ◌≤◌, ◌<◌};
ghost use Rattle.aq_base.specs.Calendar.{quarter_number};
ghost use Rattle.aq_base.specs.declared.day.TheConstants.{FIRST_YEAR, LAST_YEAR};
ghost use Rattle.aq_rules.specs.Kept.Summaries.{pm25_summary, summary_of_quarter, summary_of_year};
ghost use Rattle.aq_rules.specs.Particles.QuarterCounts.{pm25_quarter};
ghost use Rattle.aq_series.specs.OfficeView.{office_of};
ghost use Rattle.aq_particles.specs.Pm25.QuarterDays.{IsQuarterOf};
ghost use Rattle.aq_particles.specs.Pm25.SiteDays.{quarter_by, year_by};

use crate::pm25::quarter_days::{DayOfQuarter, day_of_quarter};
use crate::pm25::quarter_values::QuarterValues;
use crate::pm25::source::{AtSite, Pm25Source};
use aq_base::{Day, FIRST_YEAR, Pollutant, Quarter, SiteId, Steps};
use aq_cal::{a_quarter_holds_the_days_of_its_span, quarter_span};
use aq_registry::Registry;
use aq_shelf::Shelf;
use aq_verdict::{PmQuarter, PmYear, TopEight};
use std::sync::ledger::Ledger;

/// A site's PM2.5 quarter: its scheduled days, its creditable samples and those that are counted (40 CFR
/// Part 50, Appendix N, 1.0(c) and 3.0), and of all days that are not excluded their number, sum, least
/// and greatest value in tenths of a µg/m3. Each day of the quarter is read once, and the make-up days of
/// those that are missed.
pub fn quarter<L: Ledger>(
    shelf: &Shelf,
    registry: &Registry,
    site: SiteId,
    quarter: Quarter,
    steps: &mut Steps<L>,
) -> PmQuarter
    ensures { result ≡ summary_of_quarter (pm25_quarter (office_of registry.now shelf.now) site quarter) }
{
    a_quarter_holds_the_days_of_its_span();
    // The proof learns that the records are those of a valid office.
    let _ = registry.next_poc(site, Pollutant::Pm25, 0);
    let at = AtSite {
        shelf,
        registry,
        site,
    };
    tally_of(&at, quarter, TopEight::new(), steps).quarter()
}

/// A site's PM2.5 year: its four quarters and its eight greatest values that are not excluded, downwards,
/// in tenths of a µg/m3 (40 CFR Part 50, Appendix N, 4.1 to 4.5). The year is 1990 to 2059.
pub fn year<L: Ledger>(
    shelf: &Shelf,
    registry: &Registry,
    site: SiteId,
    year: u16,
    steps: &mut Steps<L>,
) -> PmYear
    requires first { FIRST_YEAR ≤ year }
    requires last { year ≤ LAST_YEAR }
    ensures { result ≡ pm25_summary (office_of registry.now shelf.now) site year }
{
    a_quarter_holds_the_days_of_its_span();
    // The proof learns that the records are those of a valid office.
    let _ = registry.next_poc(site, Pollutant::Pm25, 0);
    let at = AtSite {
        shelf,
        registry,
        site,
    };
    year_of(&at, year, steps)
}

/// The PM2.5 year of what is read as one site, by the same rules. The year is 1990 to 2059.
pub fn year_of<S: Pm25Source, L: Ledger>(source: &S, year: u16, steps: &mut Steps<L>) -> PmYear
    requires first { FIRST_YEAR ≤ year }
    requires last { year ≤ LAST_YEAR }
    ensures { result
        ≡ summary_of_year (year_by (S.site_days source.now) (S.makeup_for source.now) year) }
{
    let top = TopEight::new();
    let a = tally_of(source, part_of(year, 0), top, steps);
    let first = a.quarter();
    let b = tally_of(source, part_of(year, 1), a.values.top, steps);
    let second = b.quarter();
    let c = tally_of(source, part_of(year, 2), b.values.top, steps);
    let third = c.quarter();
    let d = tally_of(source, part_of(year, 3), c.values.top, steps);
    PmYear::new([first, second, third, d.quarter()], d.values.top)
}

/// The quarter that is a part of a year, 1990 to 2059, from 0 for the first one to 3.
pub fn part_of(year: u16, part: u16) -> Quarter
    requires first { FIRST_YEAR ≤ year }
    requires last { year ≤ LAST_YEAR }
    requires part { part < 4 }
    ensures { result ≡ quarter_number year part }
{
    Quarter::new(4 * (year - FIRST_YEAR) + part)
}

/// What the days of a quarter give together, whose values join the greatest of the quarters before it in
/// its year.
fn tally_of<S: Pm25Source, L: Ledger>(
    source: &S,
    quarter: Quarter,
    top: TopEight,
    steps: &mut Steps<L>,
) -> QuarterTally
    ensures { IsQuarterOf
        (quarter_by (S.site_days source.now) (S.makeup_for source.now) quarter) top result }
{
    source.makeups_lie_apart(quarter);
    let (first, days) = quarter_span(quarter);
    let cells = source.days(first, days, steps);
    let mut so_far = QuarterTally::new(top);
    for count in 0..days {
        let day = Day::new(first.number() + u16::from(count));
        let cell = cells[usize::from(count)];
        so_far = so_far.with(day_of_quarter(source, day, cell, steps));
    }
    so_far
}

/// What the days of a quarter so far give.
#[derive(Clone, Copy)]
struct QuarterTally {
    scheduled: u8,
    creditable: u8,
    counted: u8,
    values: QuarterValues,
}

impl QuarterTally {
    ghost use Rattle.std.specs.Prelude.{◌≡◌, ◌<◌, ◌++◌, [], ◌∷◌, ℤ, List, IfSome};
    ghost use Rattle.aq_rules.specs.Kept.Summaries.{KeepsPmQuarter};
    ghost use Rattle.aq_series.specs.DayCells.{IsParticle};
    ghost use Rattle.aq_particles.specs.declared.pm25.quarter_days.DayOfQuarter.{DayOfQuarter};
    ghost use Rattle.aq_particles.specs.Pm25.QuarterDays.{summary_of, HasRoom, IsTallyOf};
    ghost use Rattle.aq_particles.specs.Pm25.QuarterValues.{IsSumInRange};

    /// Of no days.
    fn new(top: TopEight) -> QuarterTally
        ensures tally { IsTallyOf top [] result }
        ensures sum { IsSumInRange result.values }
    {
        QuarterTally {
            scheduled: 0,
            creditable: 0,
            counted: 0,
            values: QuarterValues::new(top),
        }
    }

    /// With one more day.
    fn with(self, day: DayOfQuarter) -> QuarterTally
        requires room { HasRoom self }
        requires range { IfSome day.value (λ value. IsParticle value) }
        requires sum { IsSumInRange self.values }
        ensures tally { (before : List ℤ) (days : List DayOfQuarter) → IsTallyOf before days self → IsTallyOf before (days ++ day ∷ []) result }
        ensures sum { IsSumInRange result.values }
    {
        QuarterTally {
            scheduled: self.scheduled + u8::from(day.scheduled),
            creditable: self.creditable + u8::from(day.creditable),
            counted: self.counted + u8::from(day.counted),
            values: self.values.with(day.value),
        }
    }

    /// The quarter of these days.
    fn quarter(&self) -> PmQuarter
        requires { KeepsPmQuarter (summary_of self.now) }
        ensures { result ≡ summary_of self.now }
    {
        PmQuarter::new(
            self.scheduled,
            self.creditable,
            self.counted,
            self.values.count,
            self.values.sum,
            self.values.least,
            self.values.greatest,
        )
    }
}
