//! What a day gives its PM2.5 quarter (40 CFR Part 50, Appendix N, 1.0(c) and 3.0).
ghost use Rattle.std.specs.Prelude.{◌≡◌, ◌+◌, ◌-◌, option_and_then, IfSome};
ghost use Rattle.std.specs.List.{list_any, range_with_len};
ghost use Rattle.aq_rules.specs.Particles.ParticleDay.{unless_excluded};
ghost use Rattle.aq_series.specs.DayCells.{IsParticle};
ghost use Rattle.aq_particles.specs.Pm25.QuarterDays.{credited, day_in, is_makeup_day, makeup_cell};
ghost use Rattle.aq_particles.specs.Pm25.SiteDays.{as_makeup, gives_credit_by};

use crate::pm25::source::{Pm25Days, Pm25Schedule, Pm25Source};
use aq_base::{Day, Steps};
use aq_series::Cell;
use std::sync::ledger::Ledger;

/// A day of a quarter: whether it is scheduled, whether it has a creditable sample, its own or one that
/// makes up for it, and whether that one is not excluded; and the day's own value, if it is not excluded.
#[derive(Clone, Copy)]
pub(crate) struct DayOfQuarter {
    pub(crate) scheduled: bool,
    pub(crate) creditable: bool,
    pub(crate) counted: bool,
    pub(crate) value: Option<i32>,
}

/// A day in its quarter, by what is had for the day.
pub(crate) fn day_of_quarter<S: Pm25Source, L: Ledger>(
    source: &S,
    day: Day,
    cell: Option<Cell>,
    steps: &mut Steps<L>,
) -> DayOfQuarter
    requires cell { cell ≡ (S.site_days source.now).cell_on day }
    requires range { IfSome cell (λ cell. IsParticle cell.value) }
    ensures day { result ≡ day_in (S.site_days source.now) (S.makeup_for source.now) day }
    ensures range { IfSome result.value (λ value. IsParticle value) }
{
    let scheduled = source.is_scheduled(day);
    let value = net(&cell);
    let sample = creditable(source, day, scheduled, cell, steps);
    DayOfQuarter {
        scheduled,
        creditable: sample.is_some(),
        counted: net(&sample).is_some(),
        value,
    }
}

/// A value, if it is not excluded.
fn net(cell: &Option<Cell>) -> Option<i32>
    ensures { result ≡ option_and_then unless_excluded cell.now }
{
    match cell {
        Some(cell) if !cell.excluded => Some(cell.value),
        _ => None,
    }
}

/// The creditable sample of a scheduled day: its own, else one that makes up for it.
fn creditable<S: Pm25Source, L: Ledger>(
    source: &S,
    day: Day,
    scheduled: bool,
    cell: Option<Cell>,
    steps: &mut Steps<L>,
) -> Option<Cell>
    requires scheduled { scheduled ≡ (S.site_days source.now).schedules day }
    requires cell { cell ≡ (S.site_days source.now).cell_on day }
    ensures { result ≡ credited (S.site_days source.now) (S.makeup_for source.now) day }
{
    if !scheduled {
        return None;
    }
    if cell.is_some() {
        return cell;
    }
    makeup_sample(source, day, steps)
}

/// The sample that makes up for a missed day: taken on an unscheduled day, before the next scheduled one
/// or exactly a week later.
fn makeup_sample<S: Pm25Source, L: Ledger>(
    source: &S,
    missed: Day,
    steps: &mut Steps<L>,
) -> Option<Cell>
    ensures { result ≡ makeup_cell (S.site_days source.now) (S.makeup_for source.now) missed }
{
    let makeup = source.makeup_of(missed, steps)?;
    if !is_makeup_day(source, missed, makeup) {
        return None;
    }
    source.day(makeup, steps)
}

/// Whether a sample makes up for a missed day (40 CFR Part 50, Appendix N, 1.0(c)): a scheduled day
/// without one, by a sample of an unscheduled day before the next scheduled one or exactly a week later.
pub fn gives_credit<D: Pm25Days, L: Ledger>(
    source: &D,
    missed: Day,
    makeup: Day,
    steps: &mut Steps<L>,
) -> bool
    ensures { result ≡ gives_credit_by (D.site_days source.now) (as_makeup missed makeup) }
{
    source.is_scheduled(missed)
        && source.day(missed, steps).is_none()
        && is_makeup_day(source, missed, makeup)
        && source.day(makeup, steps).is_some()
}

/// Whether a day is one on which a sample may make up for a missed day: not scheduled, and before the next
/// scheduled day or exactly a week later (40 CFR Part 50, Appendix N, 1.0(c)).
pub fn is_makeup_day<D: Pm25Schedule>(source: &D, missed: Day, makeup: Day) -> bool
    ensures { result ≡ is_makeup_day (D.site_days source.now).schedules missed makeup }
{
    !source.is_scheduled(makeup)
        && (makeup.number() == missed.number() + 7 || !is_scheduled_between(source, missed, makeup))
}

/// Whether a day after the missed one is scheduled, to the make-up day at the latest.
fn is_scheduled_between<D: Pm25Schedule>(source: &D, missed: Day, makeup: Day) -> bool
    ensures { result ≡ list_any (D.site_days source.now).schedules
        (range_with_len (missed + 1) (makeup - missed)) }
{
    let first = missed.number() + 1;
    let end = makeup.number() + 1;
    for day in first..end {
        if source.is_scheduled(Day::new(day)) {
            return true;
        }
    }
    false
}
