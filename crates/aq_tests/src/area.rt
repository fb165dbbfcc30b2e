//! The areas of two ozone sites, and what their years leave.
ghost use Rattle.std.specs.Prelude.{pos, ◌≤ℤ◌};

use aq_area::{AreaYear, area_year, critical, history};
use aq_base::{Area, SiteId, SiteList, Standard, Verdict};
use aq_verdict::{DesignValue, OzoneDv, OzoneYear};
use std::test::Fail;

/// An ozone year with this fourth highest maximum.
fn ozone_year(fourth: i32) -> OzoneYear
    requires least { pos 0 ≤ℤ fourth }
    requires most { fourth ≤ℤ pos 150 }
{
    OzoneYear::new(245, 240, 240, Some(fourth))
}

fn ozone(value: Option<i32>, verdict: Verdict) -> DesignValue {
    let years = [ozone_year(69), ozone_year(70), ozone_year(71)];
    DesignValue::Ozone(years, OzoneDv { value, verdict })
}

fn year_of(verdict: Verdict) -> AreaYear {
    AreaYear {
        sites: 1,
        governing: None,
        value: None,
        verdict,
    }
}

#[test]
fn two_years_leave_a_critical_value(rt: HostRuntime) -> Result<(), Fail> {
    let value = ozone(None, Verdict::NoValue);
    assert!(rt; critical(Standard::Ozone2015, &value) == Some(71));
    Ok(())
}

#[test]
fn lower_of_two_sites_governs(rt: HostRuntime) -> Result<(), Fail> {
    let Some(first) = SiteId::new(6, 37, 1103) else {
        return Ok(());
    };
    let Some(second) = SiteId::new(6, 37, 4004) else {
        return Ok(());
    };
    let rows = [
        (first, ozone(Some(71), Verdict::NotMet)),
        (second, ozone(Some(71), Verdict::NotMet)),
    ];
    let county = Area::County {
        state: 6,
        county: 37,
    };
    let both = area_year(&rows, &county);
    assert!(rt; both.governing == Some(first));
    assert!(rt; both.sites == 2);
    let one = area_year(&rows, &Area::Sites(SiteList::new(second)));
    assert!(rt; one.governing == Some(second));
    assert!(rt; one.sites == 1);
    Ok(())
}

#[test]
fn years_that_are_met_count_from_the_last(rt: HostRuntime) -> Result<(), Fail> {
    let [met, not_met, incomplete] = [Verdict::Met, Verdict::NotMet, Verdict::Incomplete].map(
        year_of,
    );
    let again = history(&[met, not_met, incomplete, met, met]);
    assert!(rt; again.first == Some(1));
    assert!(rt; again.met == 2);
    Ok(())
}
