//! The ozone cells that read hours of a site which follow one another, added to the spans of each kind.
ghost use Rattle.std.specs.Prelude.{◌≡◌, ◌≤◌, ◌<◌, ◌-◌, ◌&&◌, ◌||◌, ℕ, nat_le, OnOk};
ghost use Rattle.aq_base.specs.Site.{Site};
ghost use Rattle.aq_base.specs.Calendar.{year_of};
ghost use Rattle.aq_base.specs.declared.day.TheConstants.{LAST_HOUR};
ghost use Rattle.aq_dirty.specs.Reach.{day_reading, span_of};
ghost use Rattle.aq_dirty.specs.Spans.{covers, holds};

use crate::spans::{Span, Spans};
use aq_base::{Day, Memory, SiteId};
use aq_cal::civil_of;

/// Takes memory for one more span of each kind.
pub(crate) fn reserve_each(
    hours: &mut Spans,
    windows: &mut Spans,
    days: &mut Spans,
    years: &mut Spans,
) -> Result<(), Memory>
    ensures hours { hours.new.spans ≡ hours.old.spans }
    ensures windows { windows.new.spans ≡ windows.old.spans }
    ensures days { days.new.spans ≡ days.old.spans }
    ensures years { years.new.spans ≡ years.old.spans }
    ensures room_of_hours { OnOk result (0 < hours.new.room) }
    ensures room_of_windows { OnOk result (0 < windows.new.room) }
    ensures room_of_days { OnOk result (0 < days.new.room) }
    ensures room_of_years { OnOk result (0 < years.new.room) }
{
    hours.reserve(1)?;
    windows.reserve(1)?;
    days.reserve(1)?;
    years.reserve(1)?;
    Ok(())
}

/// Adds the hours from the first to the last, and the averages that read one of them: they start at most
/// seven hours before it. It takes no memory.
pub(crate) fn add_hours(hours: &mut Spans, windows: &mut Spans, site: SiteId, first: u32, last: u32)
    requires some { first ≤ last }
    requires room_of_hours { 0 < hours.old.room }
    requires room_of_windows { 0 < windows.old.room }
    ensures hours { (other : Site) (number : ℕ) → holds other number hours.new.spans ≡ (holds other number hours.old.spans || covers other number (span_of site first last)) }
    ensures windows { (other : Site) (number : ℕ) → holds other number windows.new.spans ≡ (holds other number windows.old.spans || covers other number (span_of site (first - 7) last)) }
{
    hours.add(Span { site, first, last });
    windows.add(Span {
        site,
        first: first.saturating_sub(7),
        last,
    });
}

/// Adds the days that read one of the hours from the first to the last, and their years. No day reads the
/// first seven hours of the profile. It takes no memory.
pub(crate) fn add_days(days: &mut Spans, years: &mut Spans, site: SiteId, first: u32, last: u32)
    requires some { first ≤ last }
    requires end { last ≤ LAST_HOUR }
    requires room_of_days { 0 < days.old.room }
    requires room_of_years { 0 < years.old.room }
    ensures days { (other : Site) (number : ℕ) → holds other number days.new.spans ≡ (holds other number days.old.spans || (nat_le 7 last && covers other number (span_of site (day_reading first) (day_reading last)))) }
    ensures years { (other : Site) (number : ℕ) → holds other number years.new.spans ≡ (holds other number years.old.spans || (nat_le 7 last && covers other number (span_of site (year_of (day_reading first)) (year_of (day_reading last))))) }
{
    if last >= 7 {
        add_read_days(days, years, site, first, last);
    }
}

fn add_read_days(days: &mut Spans, years: &mut Spans, site: SiteId, first: u32, last: u32)
    requires some { first ≤ last }
    requires end { last ≤ LAST_HOUR }
    requires room_of_days { 0 < days.old.room }
    requires room_of_years { 0 < years.old.room }
    ensures days { (other : Site) (number : ℕ) → holds other number days.new.spans ≡ (holds other number days.old.spans || covers other number (span_of site (day_reading first) (day_reading last))) }
    ensures years { (other : Site) (number : ℕ) → holds other number years.new.spans ≡ (holds other number years.old.spans || covers other number (span_of site (year_of (day_reading first)) (year_of (day_reading last)))) }
{
    let first = day_reading(first);
    let last = day_reading(last);
    days.add(Span {
        site,
        first: u32::from(first.number()),
        last: u32::from(last.number()),
    });
    years.add(Span {
        site,
        first: u32::from(civil_of(first).year),
        last: u32::from(civil_of(last).year),
    });
}

/// The day that reads an hour: that on which the hour seven before it lies.
fn day_reading(hour: u32) -> Day
    requires { hour ≤ LAST_HOUR }
    ensures { result ≡ day_reading hour }
{
    Day::new((hour.saturating_sub(7) / 24) as u16)
}
