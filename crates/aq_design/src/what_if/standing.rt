//! What stands of a question, and the years of an office in which one event is turned round.
ghost use Rattle.std.specs.Prelude.{◌≡◌, ◌+◌, ◌≤◌, true, slice_get, IfSome};
ghost use Rattle.aq_base.specs.declared.day.TheConstants.{FIRST_YEAR, LAST_YEAR};
ghost use Rattle.aq_rules.specs.Kept.Summaries.{pm25_summary};
ghost use Rattle.aq_rules.specs.Ozone.OzoneYear.{ozone_year};
ghost use Rattle.aq_rules.specs.Particles.Pm10Estimate.{pm10_year};
ghost use Rattle.aq_dirty.specs.OutOfReach.Outside.{IsOutside};
ghost use Rattle.aq_verdict.specs.Designs.{design_of};
ghost use Rattle.aq_design.specs.WhatIf.Standing.{AreOutside, IsUntouched, Stands, office_in, ozone_years_in, pm10_years_in, pm25_years_in};

use crate::Years;
use aq_base::{Hour, SiteId, Standard, Steps};
use aq_cal::year_span;
use aq_registry::Registry;
use aq_shelf::Shelf;
use aq_verdict::{DesignValue, OzoneYear, Pm10Year, PmYear};
use std::marker::Model;
use std::sync::ledger::Ledger;

/// A question about a shelf and a registry, and the design value that stands.
#[derive(Drop)]
pub(crate) struct Standing<'a> {
    pub(crate) shelf: &'a Shelf,
    pub(crate) registry: &'a Registry,
    pub(crate) standard: Standard,
    pub(crate) site: SiteId,
    pub(crate) year: u16,
    pub(crate) value: DesignValue,
}

/// The hours of an event, from the first to the last.
#[derive(Drop)]
pub(crate) struct Hours {
    pub(crate) first: Hour,
    pub(crate) last: Hour,
}

/// The years of an office in which one event is turned round. A year of the question that the event does
/// not touch is taken from the design value that stands; others are computed from the observations.
/// Contracts see the office.
#[derive(Drop)]
pub(crate) struct Turned<'a> {
    pub(crate) standing: &'a Standing<'a>,
    pub(crate) records: &'a Registry,
    pub(crate) hours: Hours,
}

impl<'a> Model for Turned<'a> {
    ghost use Rattle.aq_rules.specs.Office.Office.{Office};
    ghost use Rattle.aq_series.specs.OfficeView.{office_of};
    ghost use Rattle.aq_dirty.specs.OutOfReach.Outside.{AreAsBefore};
    ghost use Rattle.aq_design.specs.WhatIf.Standing.{Stands, office_in};

    ghost Value = { Office };

    ghost view = { λ turned. office_of turned.records.now turned.standing.now.shelf.now };

    ghost invariant = { λ turned.
        Stands turned.standing.now
        × AreAsBefore (office_in turned.standing.now) (office_of turned.records.now turned.standing.now.shelf.now) turned.hours.first turned.hours.last };
}

impl<'a> Years for Turned<'a> {
    ghost use Rattle.std.specs.Prelude.{◌*◌, false};

    ghost office = { λ office. office };

    ghost ozone_steps = { 200 * 367 };

    ghost keeps_particles = { false };

    fn ozone<L: Ledger>(&self, site: SiteId, year: u16, steps: &mut Steps<L>) -> OzoneYear {
        match self.standing.ozone(&self.hours, site, year) {
            Some(known) => known,
            None => aq_ozone::year(self.standing.shelf, self.records, site, year, steps),
        }
    }

    fn pm25<L: Ledger>(&self, site: SiteId, year: u16, steps: &mut Steps<L>) -> PmYear {
        match self.standing.pm25(&self.hours, site, year) {
            Some(known) => known,
            None => aq_particles::pm25::year(self.standing.shelf, self.records, site, year, steps),
        }
    }

    fn pm10<L: Ledger>(&self, site: SiteId, year: u16, steps: &mut Steps<L>) -> Pm10Year {
        match self.standing.pm10(&self.hours, site, year) {
            Some(known) => known,
            None => aq_particles::pm10::year(self.standing.shelf, self.records, site, year, steps),
        }
    }
}

impl<'a> Standing<'a> {
    /// The ozone year that stands, if none of the hours is read for it.
    fn ozone(&self, hours: &Hours, site: SiteId, year: u16) -> Option<OzoneYear>
        requires stands { Stands self.now }
        requires first { FIRST_YEAR ≤ year }
        requires last { year ≤ LAST_YEAR }
        ensures { IfSome result (λ known. IsOutside hours.now.first hours.now.last year × (known ≡ ozone_year (office_in self.now) site year)) }
    {
        let place = self.untouched(hours, site, year)?;
        ozone_at(&self.value, place)
    }

    /// The PM2.5 year that stands, if none of the hours is read for it.
    fn pm25(&self, hours: &Hours, site: SiteId, year: u16) -> Option<PmYear>
        requires stands { Stands self.now }
        requires first { FIRST_YEAR ≤ year }
        requires last { year ≤ LAST_YEAR }
        ensures { IfSome result (λ known. IsOutside hours.now.first hours.now.last year × (known ≡ pm25_summary (office_in self.now) site year)) }
    {
        let place = self.untouched(hours, site, year)?;
        pm25_at(&self.value, place)
    }

    /// The PM10 year that stands, if none of the hours is read for it.
    fn pm10(&self, hours: &Hours, site: SiteId, year: u16) -> Option<Pm10Year>
        requires stands { Stands self.now }
        requires first { FIRST_YEAR ≤ year }
        requires last { year ≤ LAST_YEAR }
        ensures { IfSome result (λ known. IsOutside hours.now.first hours.now.last year × (known ≡ pm10_year (office_in self.now) site year)) }
    {
        let place = self.untouched(hours, site, year)?;
        pm10_at(&self.value, place)
    }

    /// Whether none of the hours is read for any of the three years.
    pub(crate) fn is_untouched(&self, hours: &Hours) -> bool
        requires first { FIRST_YEAR + 2 ≤ self.now.year }
        requires last { self.now.year ≤ LAST_YEAR }
        ensures { result ≡ true → AreOutside hours.now self.now.year }
    {
        hours.are_outside(self.year - 2)
            && hours.are_outside(self.year - 1)
            && hours.are_outside(self.year)
    }

    /// The place of a year among the three of the question, if none of the hours is read for it.
    fn untouched(&self, hours: &Hours, site: SiteId, year: u16) -> Option<usize>
        requires first { FIRST_YEAR ≤ year }
        requires last { year ≤ LAST_YEAR }
        ensures { IfSome result (IsUntouched self.now hours.now site year) }
    {
        if site != self.site || year + 2 < self.year || !hours.are_outside(year) {
            return None;
        }
        Some(usize::from(year + 2 - self.year))
    }
}

impl Hours {
    /// Whether none of the hours is read for a year.
    pub(crate) fn are_outside(&self, year: u16) -> bool
        requires first { FIRST_YEAR ≤ year }
        requires last { year ≤ LAST_YEAR }
        ensures { result ≡ true → IsOutside self.now.first self.now.last year }
    {
        let (first, days) = year_span(year);
        let start = 24 * u32::from(first.number());
        let end = start + 24 * u32::from(days) + 6;
        self.last.number() < start || end < self.first.number()
    }
}

/// The year at a place of a design value of ozone.
fn ozone_at(value: &DesignValue, place: usize) -> Option<OzoneYear>
    ensures { result ≡ slice_get (ozone_years_in (design_of value.now)) place }
{
    match value {
        DesignValue::Ozone(years, _) => years.get(place).copied(),
        _ => None,
    }
}

/// The year at a place of a design value of PM2.5.
fn pm25_at(value: &DesignValue, place: usize) -> Option<PmYear>
    ensures { result ≡ slice_get (pm25_years_in (design_of value.now)) place }
{
    match value {
        DesignValue::Annual(years, _) | DesignValue::Daily(years, _) => years.get(place).copied(),
        _ => None,
    }
}

/// The year at a place of a design value of PM10.
fn pm10_at(value: &DesignValue, place: usize) -> Option<Pm10Year>
    ensures { result ≡ slice_get (pm10_years_in (design_of value.now)) place }
{
    match value {
        DesignValue::Pm10(years, _) => years.get(place).copied(),
        _ => None,
    }
}
