//! The registry: the records of the office.
ghost use Rattle.std.specs.Prelude.{◌≡◌, ◌≤◌, [], option_map, IfOk};
ghost use Rattle.std.specs.List.{list_any};
ghost use Rattle.std.specs.Map.{values_of};
ghost use Rattle.aq_rules.specs.Office.Monitors.{is_same_site};
ghost use Rattle.aq_rules.specs.Office.Office.{sites_of, IsOffice};
ghost use Rattle.aq_rules.specs.Office.Questions as questions;
ghost use Rattle.aq_rules.specs.Office.Designation as designations;
ghost use Rattle.aq_rules.specs.Office.Schedule as schedules;
ghost use Rattle.aq_rules.specs.Office.Season as seasons;
ghost use Rattle.aq_rules.specs.Office.Approval as approvals;
ghost use Rattle.aq_rules.specs.Office.Exclusion as exclusions;
ghost use Rattle.aq_registry.specs.Places.{behind_sites};
ghost use Rattle.aq_registry.specs.Registry.{days_of, joined_from, missed_by, office_with, pair_of, schedule_on};
ghost use Rattle.aq_base.specs.declared.day.TheConstants.{FIRST_YEAR, LAST_YEAR};

mod apply;
mod events;
mod rules;

use crate::agreed::Agreed;
use crate::exclusion::any_leaves_out;
use crate::facts;
use crate::place::{Place, parameter};
use crate::records::Records;
use crate::rows::Rows;
use crate::schedule::Schedule;
use aq_base::{
    Day, Duration, Hour, Memory, MonitorId, ObsKey, OfficeKey, OfficeRecord, Pollutant, Quals,
    SiteId,
};
use aq_cal::year_span;
use aq_rules::office::valid_load::an_office_of_nothing_is_valid;
use std::alloc::Global;
use std::collections::btree_map::Range;
use std::iter::Iterator;
use std::marker::Model;

/// The office's records, one for each key. Contracts see the list of them in the order of rows: by kind,
/// and then by site, parameter, and POC, day, year or number.
#[derive(Drop)]
pub struct Registry {
    records: Records,
    /// How many sites have a monitor.
    sites: u32,
    /// How many events stand.
    events: u32,
    /// The agreed events whose code asks for an exclusion.
    agreed: Agreed,
}

impl Model for Registry {
    ghost use Rattle.std.specs.Prelude.{List};
    ghost use Rattle.aq_base.specs.declared.office.OfficeRecord.{OfficeRecord};
    ghost use Rattle.aq_registry.specs.Registry.{IsRegistry};

    ghost Value = { List OfficeRecord };

    ghost view = { λ registry. registry.records };

    ghost invariant = { λ registry. IsRegistry registry.records registry.sites registry.events registry.agreed.spans };
}

impl Registry {
    /// No records. It takes no memory.
    pub fn new(alloc: Global) -> Registry
        ensures { result ≡ [] }
    {
        an_office_of_nothing_is_valid();
        Registry {
            records: Records::new(alloc),
            sites: 0,
            events: 0,
            agreed: Agreed::new(alloc),
        }
    }

    /// A registry with the same records, by a walk over all of them.
    pub fn copy(&self) -> Result<Registry, Memory>
        ensures { IfOk result (λ copy. copy ≡ self.now) }
    {
        Ok(Registry {
            records: self.records.copy()?,
            sites: self.sites,
            events: self.events,
            agreed: self.agreed.copy()?,
        })
    }

    /// The record of a key, by one search of the map.
    pub fn get(&self, key: OfficeKey) -> Option<OfficeRecord>
        ensures { result ≡ questions.record_of self.now key }
    {
        self.records.get(&key)
    }

    /// All records, in the order of rows.
    pub fn rows(&self) -> Rows<'_>
        ensures { result ≡ self.now }
    {
        self.records.rows()
    }

    /// The record that follows a key, whether or not one has the key, and of none the first, by one search
    /// of the map.
    pub fn following(&self, after: Option<OfficeKey>) -> Option<OfficeRecord>
        ensures { result ≡ questions.following self.now after }
    {
        self.records.following(&after)
    }

    /// How long a registered monitor's samples last, and whether its values count, by one search of the
    /// map.
    #[tactic(auto, using(crate::proofs::QuestionLemmas::registration_found))]
    pub fn monitor(&self, id: MonitorId) -> Option<(Duration, bool)>
        ensures { result ≡ option_map pair_of (questions.registration_of self.now id) }
    {
        facts::registration(&self.records.get(&OfficeKey::Monitor { id }))
    }

    /// The least registered POC of a site and pollutant above the given one, by one search of the map.
    #[tactic(auto, using(crate::proofs::QuestionLemmas::poc_found))]
    pub fn next_poc(&self, site: SiteId, pollutant: Pollutant, after: u8) -> Option<u8>
        ensures value { result ≡ questions.next_poc self.now site pollutant after }
        ensures valid { IsOffice (office_with self.now) }
    {
        let from = u32::from(after) + 1;
        facts::poc(
            &self
                .records
                .first_from(1, &site, parameter(pollutant), from),
        )
    }

    /// Whether a monitor of a site is registered, by one search of the map.
    #[tactic(auto, using(crate::proofs::SiteLemmas::site_found, crate::proofs::SiteLemmas::IsSpan_site))]
    pub fn has_site(&self, site: SiteId) -> bool
        ensures { result ≡ list_any (is_same_site site) (sites_of self.now) }
    {
        let start = Place::of_site(1, &site, 0, 0);
        let end = Place::behind_site(1, &site);
        self.records.first_between(start, end).is_some()
    }

    /// The registered site that comes after the given one, and of none the first, by one search of the map.
    #[tactic(auto, using(crate::proofs::SiteLemmas::next_site_found, crate::proofs::SiteLemmas::IsSpan_sites))]
    pub fn next_site(&self, after: Option<SiteId>) -> Option<SiteId>
        ensures { result ≡ questions.next_site self.now after }
    {
        let start = behind_sites(&after);
        facts::site(&self.records.first_between(start, Place::of_kind(2)))
    }

    /// The primary monitor's POC of a site and pollutant on a day: that of the standing designation with
    /// the greatest start date not after the day (40 CFR Part 50, Appendix U, 2(b), and Appendix N, 3.0),
    /// and `None` if it names none. By one search of the map.
    #[tactic(auto, using(crate::proofs::LatestLemmas::primary_found))]
    pub fn primary_on(&self, site: SiteId, pollutant: Pollutant, day: Day) -> Option<u8>
        ensures { result ≡ designations.primary_on self.now site pollutant day }
    {
        let end = u32::from(day.number()) + 1;
        facts::designated(
            &self
                .records
                .last_before(2, &site, parameter(pollutant), end),
        )
    }

    /// The schedule in force on a day: the standing one with the greatest start date not after it, and
    /// `None` if there is none (40 CFR 58.12). By one search of the map.
    #[tactic(auto, using(crate::proofs::ScheduleLemmas::schedule_found, crate::proofs::ScheduleLemmas::last_is_record))]
    pub fn schedule_on(&self, site: SiteId, pollutant: Pollutant, day: Day) -> Option<Schedule>
        ensures { result ≡ schedule_on self.now site pollutant day }
    {
        let end = u32::from(day.number()) + 1;
        facts::schedule(
            &self
                .records
                .last_before(3, &site, parameter(pollutant), end),
        )
    }

    /// Whether a day is scheduled: by the schedule in force on it, and not if there is none (40 CFR
    /// 58.12). By one search of the map.
    #[tactic(auto, unfolding(aq_rules::specs::Office::Schedule::is_scheduled, crate::specs::Registry::schedule_on))]
    pub fn is_scheduled(&self, site: SiteId, pollutant: Pollutant, day: Day) -> bool
        ensures { result ≡ schedules.is_scheduled self.now site pollutant day }
    {
        self.schedule_on(site, pollutant, day)
            .is_some_and(|schedule| schedule.asks(day))
    }

    /// The ozone season of a site and year: the season on record, else the whole year (40 CFR Part 50,
    /// Appendix U, 4(b)). By one search of the map. The year is 1990 to 2059.
    #[tactic(auto, using(crate::proofs::QuestionLemmas::season_found))]
    pub fn season(&self, site: SiteId, year: u16) -> (Day, Day)
        requires first { FIRST_YEAR ≤ year }
        requires last { year ≤ LAST_YEAR }
        ensures { result ≡ days_of (seasons.season_of self.now site year) }
    {
        let found = self.records.get(&OfficeKey::Season { site, year });
        match facts::season(&found) {
            Some(days) => days,
            None => whole_year(year),
        }
    }

    /// Whether an ozone day of a site counts as valid by approval (40 CFR Part 50, Appendix U, 4(c)), by
    /// one search of the map.
    #[tactic(auto, using(crate::proofs::QuestionLemmas::approval_found))]
    pub fn is_approved(&self, site: SiteId, day: Day) -> bool
        ensures { result ≡ approvals.is_approved self.now site day }
    {
        self.records
            .get(&OfficeKey::Approved { site, day })
            .is_some()
    }

    /// The day of the sample that makes up for a missed day of a site, by one search of the map.
    #[tactic(auto, using(crate::proofs::QuestionLemmas::makeup_found))]
    pub fn makeup_of(&self, site: SiteId, missed: Day) -> Option<Day>
        ensures { result ≡ questions.makeup_of self.now site missed }
    {
        facts::makeup(&self.records.get(&OfficeKey::Makeup { site, missed }))
    }

    /// The missed day for which the sample of a day of a site makes up, by a walk over the make-up records
    /// of the seven days before alone.
    #[tactic(auto, using(crate::proofs::ScheduleLemmas::missed_found))]
    pub fn missed_of(&self, site: SiteId, makeup: Day) -> Option<Day>
        ensures { result ≡ questions.missed_of self.now site makeup }
    {
        let end = u32::from(makeup.number());
        let start = Place::of_site(5, &site, 0, end.saturating_sub(7));
        let end = Place::of_site(5, &site, 0, end);
        first_missed(self.records.between(start, end), makeup)
    }

    /// The site that is joined to a site for a pollutant, and the day from which it is; `None` if the
    /// site is not the first one of a combination of the pollutant (own). By one search of the map.
    #[tactic(auto, using(crate::proofs::QuestionLemmas::combined_found))]
    pub fn combined(&self, site: SiteId, pollutant: Pollutant) -> Option<(SiteId, Day)>
        ensures { result ≡ option_map joined_from (questions.combined self.now site pollutant) }
    {
        facts::joined(&self.records.get(&OfficeKey::Combined { site, pollutant }))
    }

    /// Whether an event holds an hour in its span, and `None` if no event has the number, by one search
    /// of the map.
    #[tactic(auto, using(crate::proofs::QuestionLemmas::event_found))]
    pub fn covers(&self, number: u32, hour: Hour) -> Option<bool>
        ensures { result ≡ questions.covers self.now number hour }
    {
        facts::coverage(&self.records.get(&OfficeKey::Event { number }), hour)
    }

    /// Whether the observation with this key and these codes is left out for an exceptional event (40 CFR
    /// 50.14): one in whose span it lies, whose code it has, and in which the Regional Administrator
    /// concurred. By one binary search for each of the codes that asks for an exclusion, however many events
    /// stand.
    pub fn excluded(&self, key: ObsKey, quals: &Quals) -> bool
        ensures { result ≡ exclusions.excluded self.now key quals.now }
    {
        any_leaves_out(&self.agreed, &key, quals.codes())
    }
}

/// The first and the last day of a year.
fn whole_year(year: u16) -> (Day, Day)
    requires first { FIRST_YEAR ≤ year }
    requires last { year ≤ LAST_YEAR }
    ensures { result ≡ days_of (seasons.whole_year year) }
{
    let (first, days) = year_span(year);
    (first, Day::new(first.number() + days - 1))
}

/// The first place after all monitors of a site, or the first of all monitors.
fn behind_sites(after: &Option<SiteId>) -> Place
    ensures { result ≡ behind_sites after.now }
{
    match after {
        Some(site) => Place::behind_site(1, site),
        None => Place::of_kind(1),
    }
}

/// The first missed day of a part of the map for which the sample of a day makes up.
fn first_missed(part: Range<'_, Place, OfficeRecord>, makeup: Day) -> Option<Day>
    ensures { result ≡ questions.first_given (missed_by makeup) (values_of part.entry) }
{
    for (_, row) in part {
        let missed = facts::missed(row, makeup);
        if missed.is_some() {
            return missed;
        }
    }
    None
}
