//! The ozone year of a site (40 CFR Part 50, Appendix U, 3(e) and 4(b)).
ghost use Rattle.std.specs.Prelude.{◌≡◌, ◌+◌, ◌*◌, ◌≤◌, List, IfSome};
ghost use Rattle.aq_rules.specs.Ozone.EightHour.{window_by};
ghost use Rattle.aq_rules.specs.Ozone.OzoneDay as ozone_day;
ghost use Rattle.aq_rules.specs.Ozone.OzoneYear.{ozone_year, ranked_maximum};
ghost use Rattle.aq_base.specs.declared.day.TheConstants.{FIRST_YEAR, LAST_YEAR};
ghost use Rattle.aq_ozone.specs.DayHours.{AreNetOzone};
ghost use Rattle.aq_ozone.specs.YearDays.{day_in, ozone_year_by};
ghost use Rattle.aq_series.specs.OfficeView.{office_of};
ghost use Rattle.aq_series.specs.Samples.{IsOzone};

use crate::days::Days;
use crate::eight_hour::DayWindows;
use crate::ozone_day::{OzoneDay, day_of_windows};
use crate::source::{AtSite, OzoneSource};
use crate::top_four::TopFour;
use aq_base::{Day, FIRST_YEAR, LAST_YEAR, SiteId, Steps};
use aq_cal::year_span;
use aq_registry::Registry;
use aq_rules::lists::ranking_forgets_the_order;
use aq_shelf::Shelf;
use aq_verdict::OzoneYear;
use std::sync::ledger::Ledger;

/// The ozone year of a site: the days of its season, those of them that are valid or approved, the number
/// of ranked maxima, and the fourth highest of these in thousandths of a ppm (40 CFR Part 50, Appendix U,
/// 3(e) and 4(b)). The maxima of all valid days of the year are ranked, in season or not. The call reads
/// each calendar day of the year and the day after it once, eight days together: at most 200 steps a day.
/// The year is 1990 to 2059.
#[tactic(auto, unfolding(crate::specs::YearDays::ozone_year_by, aq_rules::specs::Ozone::OzoneYear::ozone_year, aq_rules::specs::Ozone::OzoneYear::ozone_days, aq_rules::specs::Ozone::OzoneDay::ozone_day, aq_rules::specs::Ozone::OzoneDay::windows, aq_rules::specs::Ozone::EightHour::window))]
pub fn year<L: Ledger>(
    shelf: &Shelf,
    registry: &Registry,
    site: SiteId,
    year: u16,
    steps: &mut Steps<L>,
) -> OzoneYear
    requires first { FIRST_YEAR ≤ year }
    requires last { year ≤ LAST_YEAR }
    ensures year { result ≡ ozone_year (office_of registry.now shelf.now) site year }
    ensures steps { steps.new ≤ steps.old + 200 * 367 }
{
    let at = AtSite {
        shelf,
        registry,
        site,
    };
    year_of(&at, year, steps)
}

/// The ozone year of what is read as one site, by the same rules, in at most 200 steps a day for each site.
/// The year is 1990 to 2059.
pub fn year_of<S: OzoneSource, L: Ledger>(source: &S, year: u16, steps: &mut Steps<L>) -> OzoneYear
    requires first { FIRST_YEAR ≤ year }
    requires last { year ≤ LAST_YEAR }
    ensures year { result
        ≡ ozone_year_by (S.cell_at source.now) (S.approves source.now)
        (S.season_of source.now year) year }
    ensures steps { steps.new ≤ steps.old + 200 * 367 * S.sites }
{
    let (first, days) = year_span(year);
    let season = source.season(year);
    let mut so_far = YearTally::new();
    let mut walk = Days::starting(source, first, steps);
    for count in 0..days {
        let day = Day::new(first.number() + count);
        let windows = walk.next_of(source, steps);
        so_far = so_far.with(day_of_year(source, &season, day, &windows));
    }
    OzoneYear::new(
        so_far.season_days,
        so_far.season_valid,
        so_far.ranked,
        so_far.top.fourth(),
    )
}

/// What a day gives its year: whether it is of the season, whether it is one of the season's valid or
/// approved days, and the maximum that is ranked.
#[derive(Clone, Copy)]
struct DayOfYear {
    in_season: bool,
    counted: bool,
    maximum: Option<i32>,
}

/// A day in a season's year, by its averages. An approval is looked up if the day is not valid by its
/// hours.
fn day_of_year<S: OzoneSource>(
    source: &S,
    season: &(Day, Day),
    day: Day,
    windows: &DayWindows,
) -> DayOfYear
    requires { AreNetOzone windows.now }
    ensures day { windows.now ≡ ozone_day.windows_by (window_by (S.cell_at source.now)) day
        → result ≡ day_in (S.cell_at source.now) (S.approves source.now)
        (record { first = season.now.0; last = season.now.1 }) day }
    ensures range { IfSome result.maximum (λ value. IsOzone value) }
{
    let ozone = day_of_windows(windows);
    let in_season = season.0 <= day && day <= season.1;
    DayOfYear {
        in_season,
        counted: in_season && (ozone.valid || source.is_approved(day)),
        maximum: ranked_maximum(&ozone),
    }
}

/// The maximum of a valid day.
fn ranked_maximum(day: &OzoneDay) -> Option<i32>
    ensures { result ≡ ranked_maximum day.now }
{
    if day.valid { day.maximum } else { None }
}

/// What the days of a year so far give.
#[derive(Clone, Copy)]
struct YearTally {
    season_days: u16,
    season_valid: u16,
    ranked: u16,
    top: TopFour,
}

impl YearTally {
    ghost use Rattle.std.specs.Prelude.{◌<◌, ◌++◌, [], ◌∷◌, List, IfSome};
    ghost use Rattle.aq_series.specs.Samples.{IsOzone};
    ghost use Rattle.aq_ozone.specs.declared.ozone_year.DayOfYear.{DayOfYear};
    ghost use Rattle.aq_ozone.specs.YearDays.{IsTallyOf};

    /// Of no days.
    fn new() -> YearTally
        ensures { IsTallyOf [] result }
    {
        YearTally {
            season_days: 0,
            season_valid: 0,
            ranked: 0,
            top: TopFour::new(),
        }
    }

    /// With one more day.
    fn with(self, day: DayOfYear) -> YearTally
        requires season_days { self.season_days < 366 }
        requires season_valid { self.season_valid < 366 }
        requires ranked { self.ranked < 366 }
        requires range { IfSome day.maximum (λ value. IsOzone value) }
        ensures { (days : List DayOfYear) → IsTallyOf days self → IsTallyOf (days ++ day ∷ []) result }
    {
        ranking_forgets_the_order();
        YearTally {
            season_days: self.season_days + u16::from(day.in_season),
            season_valid: self.season_valid + u16::from(day.counted),
            ranked: self.ranked + u16::from(day.maximum.is_some()),
            top: match day.maximum {
                Some(maximum) => self.top.with(maximum),
                None => self.top,
            },
        }
    }
}
