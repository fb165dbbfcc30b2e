//! The particle cells that read days or quarters of a site which follow one another, added to the spans of
//! each kind.
ghost use Rattle.std.specs.Prelude.{◌≡◌, ◌≤◌, ◌<◌, ◌+◌, ◌-◌, ◌||◌, ℕ, OnOk};
ghost use Rattle.aq_base.specs.Calendar.{quarter_first, quarter_of, year_of};
ghost use Rattle.aq_base.specs.Site.{Site};
ghost use Rattle.aq_base.specs.declared.day.TheConstants.{LAST_DAY};
ghost use Rattle.aq_rules.specs.Particles.Strata.{quarter_end};
ghost use Rattle.aq_dirty.specs.Reach.{span_of};
ghost use Rattle.aq_dirty.specs.Spans.{covers, holds};

use crate::spans::{Span, Spans};
use aq_base::{Day, Memory, Quarter, SiteId};
use aq_cal::{civil_of, quarter_of, quarter_span};

/// Takes memory for one more span of a kind, and for so many of another.
pub(crate) fn reserve_two(one: &mut Spans, other: &mut Spans, count: usize) -> Result<(), Memory>
    ensures one { one.new.spans ≡ one.old.spans }
    ensures other { other.new.spans ≡ other.old.spans }
    ensures room_of_one { OnOk result (0 < one.new.room) }
    ensures room_of_other { OnOk result (count ≤ other.new.room) }
{
    one.reserve(1)?;
    other.reserve(count)?;
    Ok(())
}

/// Takes memory for one more span of two kinds, and for so many of a third.
pub(crate) fn reserve_three(
    one: &mut Spans,
    other: &mut Spans,
    third: &mut Spans,
    count: usize,
) -> Result<(), Memory>
    ensures one { one.new.spans ≡ one.old.spans }
    ensures other { other.new.spans ≡ other.old.spans }
    ensures third { third.new.spans ≡ third.old.spans }
    ensures room_of_one { OnOk result (0 < one.new.room) }
    ensures room_of_other { OnOk result (0 < other.new.room) }
    ensures room_of_third { OnOk result (count ≤ third.new.room) }
{
    one.reserve(1)?;
    other.reserve(1)?;
    third.reserve(count)?;
    Ok(())
}

/// Adds the days from the first to the last, and their quarters. It takes no memory.
pub(crate) fn add_days(days: &mut Spans, quarters: &mut Spans, site: SiteId, first: Day, last: Day)
    requires some { first ≤ last }
    requires end { last ≤ LAST_DAY }
    requires room_of_days { 0 < days.old.room }
    requires room_of_quarters { 0 < quarters.old.room }
    ensures days { (other : Site) (number : ℕ) → holds other number days.new.spans ≡
        (holds other number days.old.spans || covers other number (span_of site first last)) }
    ensures quarters { (other : Site) (number : ℕ) → holds other number quarters.new.spans ≡
        (holds other number quarters.old.spans || covers other number
        (span_of site (quarter_of first) (quarter_of last))) }
{
    days.add(Span {
        site,
        first: u32::from(first.number()),
        last: u32::from(last.number()),
    });
    add_quarters(quarters, site, quarter_of(first), quarter_of(last));
}

/// Adds the years of the days from the first to the last. It takes no memory.
pub(crate) fn add_years(years: &mut Spans, site: SiteId, first: Day, last: Day)
    requires some { first ≤ last }
    requires end { last ≤ LAST_DAY }
    requires room { 0 < years.old.room }
    ensures { (other : Site) (number : ℕ) → holds other number years.new.spans ≡
        (holds other number years.old.spans || covers other number
        (span_of site (year_of first) (year_of last))) }
{
    years.add(Span {
        site,
        first: u32::from(civil_of(first).year),
        last: u32::from(civil_of(last).year),
    });
}

/// Adds the quarters from the first to the last. It takes no memory.
pub(crate) fn add_quarters(quarters: &mut Spans, site: SiteId, first: Quarter, last: Quarter)
    requires some { first ≤ last }
    requires room { 0 < quarters.old.room }
    ensures { (other : Site) (number : ℕ) → holds other number quarters.new.spans ≡
        (holds other number quarters.old.spans || covers other number
        (span_of site first last)) }
{
    quarters.add(Span {
        site,
        first: u32::from(first.number()),
        last: u32::from(last.number()),
    });
}

/// How many days there are from the first to the last.
pub(crate) fn days_between(first: Day, last: Day) -> usize
    requires { first ≤ last }
    ensures { result ≡ last - first + 1 }
{
    usize::from(last.number() - first.number()) + 1
}

/// The first day of a quarter.
pub(crate) fn first_day(quarter: Quarter) -> Day
    ensures { result ≡ quarter_first quarter }
{
    let (first, _) = quarter_span(quarter);
    first
}

/// The last day of a quarter.
pub(crate) fn last_day(quarter: Quarter) -> Day
    ensures value { result ≡ quarter_end quarter - 1 }
    ensures end { quarter_end quarter ≡ result + 1 }
    ensures range { result ≤ LAST_DAY }
{
    let (first, days) = quarter_span(quarter);
    Day::new(first.number() + (u16::from(days) - 1))
}
