//! What the fields of a form must be beside their spelling (own).
ghost use Rattle.std.specs.Prelude.{◌≡◌, ◌≤◌, true};
ghost use Rattle.aq_rules.specs.Lines.Forms.{fewest_fields, most_fields};
ghost use Rattle.aq_rules.specs.Lines.OfficeForms.{is_season, is_makeup, is_span, is_pair};
ghost use Rattle.aq_rules.specs.Lines.Reading.{has_wrong_count, is_deletion};
ghost use Rattle.aq_rd.specs.Tags.{tag_value};

use aq_base::{Day, Hour, MOST_EVENT_HOURS, SiteId};
use aq_cal::{civil_of, quarter_of};
use aq_rd::{Fields, MOST_FIELDS, Tag};

/// Whether a line has too few fields, or a text after those of its form.
pub(crate) fn has_wrong_count(tag: Tag, texts: &Fields<'_>) -> bool
    ensures { result ≡ has_wrong_count (tag_value tag) (is_deletion texts.now) texts.now }
{
    let deletes = texts.field(2) == b"D".as_slice();
    texts.count() < fewest_fields(tag, deletes) || texts.has_text_behind(most_fields(tag))
}

// A deletion needs the fields up to the last of its key.
fn fewest_fields(tag: Tag, deletes: bool) -> usize
    ensures { result ≡ fewest_fields (tag_value tag) deletes }
{
    if deletes {
        key_fields(tag)
    } else if tag == Tag::Rd {
        13
    } else {
        most_fields(tag)
    }
}

fn key_fields(tag: Tag) -> usize
    ensures { result ≡ fewest_fields (tag_value tag) true }
{
    match tag {
        Tag::Rd => 12,
        Tag::Xm | Tag::Xp | Tag::Xs | Tag::Xu => 7,
        Tag::Xo | Tag::Xa | Tag::Xb => 6,
        Tag::Xe | Tag::Xc => 3,
    }
}

fn most_fields(tag: Tag) -> usize
    ensures value { result ≡ most_fields (tag_value tag) }
    ensures most { result ≤ MOST_FIELDS }
{
    match tag {
        Tag::Rd => 28,
        Tag::Xm | Tag::Xs => 9,
        Tag::Xp | Tag::Xo | Tag::Xu => 8,
        Tag::Xe => 12,
        Tag::Xc => 4,
        Tag::Xa => 6,
        Tag::Xb => 10,
    }
}

/// Whether a season's first and last day lie in its year, in this order.
pub(crate) fn is_season(year: u16, first: Day, last: Day) -> bool
    ensures { result ≡ is_season year first last }
{
    civil_of(first).year == year && civil_of(last).year == year && first.number() <= last.number()
}

/// Whether a make-up day comes after the missed day, in its quarter, at most seven days later.
pub(crate) fn is_makeup(missed: Day, makeup: Day) -> bool
    ensures { result ≡ is_makeup missed makeup }
{
    missed.number() < makeup.number()
        && quarter_of(makeup).number() == quarter_of(missed).number()
        && makeup.number() <= missed.number() + 7
}

/// Whether a site is combined with another one.
pub(crate) fn is_pair(site: &SiteId, joined: &SiteId) -> bool
    ensures { result ≡ is_pair site.now joined.now }
{
    let is_same = site.state() == joined.state()
        && site.county() == joined.county()
        && site.site() == joined.site();
    !is_same
}

/// Whether an event has its last hour at or after its first, and not too many hours.
pub(crate) fn is_span(first: Hour, last: Hour) -> bool
    ensures { result ≡ is_span first last }
{
    first.number() <= last.number() && last.number() < first.number() + MOST_EVENT_HOURS
}
