//! The value and verdict of an area in a year (own).
ghost use Rattle.std.specs.Prelude.{◌≡◌, ◌<◌, ◌≤◌, ◌^◌, ◌-◌, ◌||◌, length, Some};
ghost use Rattle.aq_base.specs.declared.limits.TheConstants.{MOST_SITES};
ghost use Rattle.aq_rules.specs.Office.Office.{comes_before, site_numbers};
ghost use Rattle.aq_rules.specs.DesignValues.{is_same_verdict};
ghost use Rattle.aq_rules.specs.Areas.AreaValue.{area_year, lower_site};
ghost use Rattle.aq_area.specs.AreaRows.{governing_with, greater_of, no_rows, site_values, with_row, worse_of};

use aq_base::{Area, SiteId, Verdict};
use aq_verdict::DesignValue;
use std::marker::Model;

/// How many sites of an area there are, the one that governs with its value, and the verdict. The value
/// is in the standard's unit, as in `DesignValue`. Contracts see the four parts.
#[derive(Clone, Copy, Debug, PartialEq, Eq)]
pub struct AreaYear {
    pub sites: u16,
    pub governing: Option<SiteId>,
    pub value: Option<i32>,
    pub verdict: Verdict,
}

impl Model for AreaYear {
    ghost use Rattle.aq_rules.specs.Areas.AreaValue.{AreaYear as Year};

    ghost Value = { Year };

    ghost view = { λ year. record { sites = year.sites; governing = year.governing; value = year.value; verdict = year.verdict } };

    ghost inverse = { λ year. record { sites = year.sites; governing = year.governing; value = year.value; verdict = year.verdict } };
}

/// An area's value and verdict, from the design values of one standard and year, each of another site.
/// The site with the greatest value governs, and of several the one with the lowest number. The area is
/// `NotMet` if one of its sites is, else `Incomplete` if one is, else `Met` if one is, else `NoValue`.
/// Sites that the area does not have are passed over.
pub fn area_year(rows: &[(SiteId, DesignValue)], area: &Area) -> AreaYear
    requires { length rows.now ≤ MOST_SITES }
    ensures { result ≡ area_year (site_values rows.now) area.now }
{
    let mut year = without_rows();
    for (site, value) in rows {
        if area.holds(*site) {
            year = with_row(&year, *site, value.value(), value.verdict());
        }
    }
    year
}

fn without_rows() -> AreaYear
    ensures { result ≡ no_rows }
{
    AreaYear {
        sites: 0,
        governing: None,
        value: None,
        verdict: Verdict::NoValue,
    }
}

// The year with one more site.
fn with_row(year: &AreaYear, site: SiteId, value: Option<i32>, verdict: Verdict) -> AreaYear
    requires { year.now.sites < 2 ^ 16 - 1 }
    ensures { result ≡ with_row year.now site value verdict }
{
    AreaYear {
        sites: year.sites + 1,
        governing: governing_with(year.governing, year.value, site, value),
        value: greater_of(year.value, value),
        verdict: worse_of(year.verdict, verdict),
    }
}

// The site that governs once one more is there.
fn governing_with(
    governing: Option<SiteId>,
    greatest: Option<i32>,
    site: SiteId,
    value: Option<i32>,
) -> Option<SiteId>
    ensures { result ≡ governing_with governing greatest site value }
{
    let Some(value) = value else {
        return governing;
    };
    match greatest {
        Some(greatest) if value < greatest => governing,
        Some(greatest) if value == greatest => Some(lower_of(governing, site)),
        _ => Some(site),
    }
}

// The one whose number is less.
fn lower_of(governing: Option<SiteId>, site: SiteId) -> SiteId
    ensures { Some result ≡ lower_site governing site }
{
    match governing {
        Some(governing) if comes_before(governing, site) => governing,
        _ => site,
    }
}

fn comes_before(first: SiteId, second: SiteId) -> bool
    ensures { result ≡ comes_before (site_numbers first) (site_numbers second) }
{
    if first.state() != second.state() {
        return first.state() < second.state();
    }
    if first.county() != second.county() {
        return first.county() < second.county();
    }
    first.site() < second.site()
}

// The greater of two values; a missing one is below all.
fn greater_of(first: Option<i32>, second: Option<i32>) -> Option<i32>
    ensures { result ≡ greater_of first second }
{
    match (first, second) {
        (Some(first), Some(second)) => Some(first.max(second)),
        (Some(first), None) => Some(first),
        (None, second) => second,
    }
}

// Of two sites' verdicts the one that the area has.
fn worse_of(first: Verdict, second: Verdict) -> Verdict
    ensures { result ≡ worse_of first second }
{
    if is_one(first, second, Verdict::NotMet) {
        Verdict::NotMet
    } else if is_one(first, second, Verdict::Incomplete) {
        Verdict::Incomplete
    } else if is_one(first, second, Verdict::Met) {
        Verdict::Met
    } else {
        Verdict::NoValue
    }
}

fn is_one(first: Verdict, second: Verdict, verdict: Verdict) -> bool
    ensures { result ≡ is_same_verdict first verdict || is_same_verdict second verdict }
{
    is_same(first, verdict) || is_same(second, verdict)
}

/// Whether two verdicts are the same.
pub(crate) fn is_same(first: Verdict, second: Verdict) -> bool
    ensures { result ≡ is_same_verdict first second }
{
    first == second
}
