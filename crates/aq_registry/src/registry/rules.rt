//! The first rule of the office that a line breaks.
ghost use Rattle.std.specs.Prelude.{◌≡◌, count_by, IsTrue};
ghost use Rattle.std.specs.List.{list_any};
ghost use Rattle.std.specs.Map.{values_of};
ghost use Rattle.aq_base.specs.declared.office.OfficeLine.TheVariants.{Put};
ghost use Rattle.aq_rules.specs.Lines.Canonical.{is_office_line};
ghost use Rattle.aq_rules.specs.Lines.Reading.{OfOffice};
ghost use Rattle.aq_rules.specs.Office.Office as offices;
ghost use Rattle.aq_rules.specs.Office.Refusal as refusals;
ghost use Rattle.aq_registry.specs.Places.{is_of};
ghost use Rattle.aq_registry.specs.Registry.{office_with};
ghost use Rattle.aq_registry.specs.Rules as rules;

use super::Registry;
use crate::facts;
use crate::place::{Place, parameter};
use aq_base::{
    Day, Duration, MOST_EVENTS, MOST_IN_LIST, MOST_MAKEUPS, MOST_MONITORS, MOST_SITES, MonitorId,
    OfficeKey, OfficeLine, OfficeRecord, Pollutant, Rule, SiteId,
};
use aq_cal::{a_quarter_holds_the_days_of_its_span, quarter_of, quarter_span};
use std::collections::btree_map::Range;
use std::iter::Iterator;

impl Registry {
    /// The first rule of the office that a line breaks, in the order of their numbers. Sites and events
    /// are not counted anew: a walk goes over the monitors, designations or schedules of one site and
    /// pollutant, the make-up samples of one quarter, or the combined sites, at most.
    #[tactic(auto, using(crate::proofs::RuleLemmas::new_is, crate::proofs::RuleLemmas::change_is, crate::proofs::RuleLemmas::drop_is))]
    pub(super) fn broken_rule(&self, line: &OfficeLine) -> Option<Rule>
        requires { IsTrue (is_office_line line.now) }
        ensures { result ≡ refusals.broken (office_with self.now) (OfOffice line.now) }
    {
        match line {
            OfficeLine::Put(row) => self.broken_by_new(row),
            OfficeLine::Change(row) => self.broken_by_change(row),
            OfficeLine::Drop(key) => self.broken_by_drop(key),
        }
    }

    /// The first rule that a new record breaks.
    fn broken_by_new(&self, row: &OfficeRecord) -> Option<Rule>
        ensures { result ≡ rules.new_rule (office_with self.now) row.now }
    {
        if !self.has_its_monitor(row) {
            return Some(Rule::UnknownMonitor);
        }
        if self.stands(&row.key()) || self.is_taken(row) {
            return Some(Rule::AlreadyThere);
        }
        if self.lacks_site_room(row) {
            return Some(Rule::SitesFull);
        }
        if self.is_combined(row) {
            return Some(Rule::PairTaken);
        }
        self.full_rule(row)
    }

    /// The first rule that a changed record breaks.
    fn broken_by_change(&self, row: &OfficeRecord) -> Option<Rule>
        ensures { result ≡ rules.change_rule (office_with self.now) row.now }
    {
        match row {
            OfficeRecord::Monitor { id, duration, .. } => match self.duration(id) {
                None => Some(Rule::UnknownMonitor),
                Some(registered) if registered != *duration => Some(Rule::WrongDuration),
                Some(_) => None,
            },
            OfficeRecord::Concurrence { number, .. } => {
                let number = *number;
                if self.stands(&OfficeKey::Event { number }) {
                    None
                } else {
                    Some(Rule::UnknownEvent)
                }
            }
            _ => None,
        }
    }

    /// The rule that a deletion breaks.
    fn broken_by_drop(&self, key: &OfficeKey) -> Option<Rule>
        ensures { result ≡ rules.drop_rule (office_with self.now) key.now }
    {
        if self.stands(key) {
            None
        } else {
            Some(absent_rule(key))
        }
    }

    /// Whether a record of the key stands, by one search of the map.
    pub(super) fn stands(&self, key: &OfficeKey) -> bool
        ensures { result ≡ refusals.key_stands (office_with self.now) key.now }
    {
        self.records.get(key).is_some()
    }

    /// The duration of a registered monitor, by one search of the map.
    fn duration(&self, id: &MonitorId) -> Option<Duration>
        ensures { result ≡ offices.duration_at (office_with self.now) id.now }
    {
        facts::duration(&self.records.get(&OfficeKey::Monitor { id: *id }))
    }

    /// Whether a site has a monitor of the pollutant, by one search of the map.
    #[tactic(auto, using(crate::proofs::RuleLemmas::has_monitor_found))]
    fn has_monitor(&self, site: &SiteId, pollutant: Pollutant) -> bool
        ensures { result ≡ offices.has_monitor (office_with self.now) site.now pollutant }
    {
        self.records
            .first_from(1, site, parameter(pollutant), 0)
            .is_some()
    }

    /// Whether the monitor stands without which the record does not.
    fn has_its_monitor(&self, row: &OfficeRecord) -> bool
        ensures { result ≡ offices.has_its_monitor (office_with self.now) row.now }
    {
        match row {
            OfficeRecord::Primary {
                site,
                pollutant,
                poc,
                ..
            } => self.has_designated(site, *pollutant, *poc),
            OfficeRecord::Schedule {
                site,
                pollutant,
                ..
            } => self.has_monitor(site, *pollutant),
            OfficeRecord::Event {
                site,
                pollutant,
                ..
            } => self.has_monitor(site, *pollutant),
            OfficeRecord::Season { site, .. } => self.has_monitor(site, Pollutant::Ozone),
            OfficeRecord::Approved { site, .. } => self.has_monitor(site, Pollutant::Ozone),
            OfficeRecord::Makeup { site, .. } => self.has_monitor(site, Pollutant::Pm25),
            OfficeRecord::Combined {
                site,
                pollutant,
                joined,
                ..
            } => self.has_monitor(site, *pollutant) && self.has_monitor(joined, *pollutant),
            OfficeRecord::Monitor { .. } => true,
            OfficeRecord::Concurrence { .. } => true,
        }
    }

    /// Whether the designated monitor stands, or, if POC 0 designates none, one of the pollutant.
    fn has_designated(&self, site: &SiteId, pollutant: Pollutant, poc: u8) -> bool
        ensures { result ≡ rules.has_designated (office_with self.now) site.now pollutant poc }
    {
        if poc == 0 {
            return self.has_monitor(site, pollutant);
        }
        let id = MonitorId {
            site: *site,
            pollutant,
            poc,
        };
        self.duration(&id).is_some()
    }

    /// Whether the day of a make-up sample makes up for a missed day already.
    #[tactic(auto, using(crate::proofs::RuleLemmas::taken_found))]
    fn is_taken(&self, row: &OfficeRecord) -> bool
        ensures { result ≡ refusals.is_taken (office_with self.now) row.now }
    {
        match row {
            OfficeRecord::Makeup { site, makeup, .. } => self.missed_of(*site, *makeup).is_some(),
            _ => false,
        }
    }

    /// Whether a record combines a site that stands in another combination of the pollutant.
    fn is_combined(&self, row: &OfficeRecord) -> bool
        ensures { result ≡ refusals.is_combined (office_with self.now) row.now }
    {
        match row {
            OfficeRecord::Combined {
                site,
                pollutant,
                joined,
                ..
            } => self.combines_either(site, joined, *pollutant),
            _ => false,
        }
    }

    /// Whether one of two sites stands in a combination of a pollutant, by a walk over the combined sites.
    fn combines_either(&self, site: &SiteId, joined: &SiteId, pollutant: Pollutant) -> bool
        ensures { result ≡ list_any (offices.combines_either site.now joined.now pollutant) self.now }
    {
        let start = Place::of_kind(9);
        let end = Place::of_kind(10);
        any_combines(self.records.between(start, end), site, joined, pollutant)
    }

    /// Whether a record is a monitor of a new site, and as many sites are registered as may be.
    fn lacks_site_room(&self, row: &OfficeRecord) -> bool
        ensures { result ≡ rules.lacks_site_room (office_with self.now) row.now }
    {
        self.adds_site(row) && self.sites as usize >= MOST_SITES
    }

    /// Whether a record is a monitor of a new site, by one search of the map.
    #[tactic(auto, using(crate::proofs::RuleLemmas::site_listed))]
    pub(super) fn adds_site(&self, row: &OfficeRecord) -> bool
        ensures { result ≡ refusals.is_new_site (office_with self.now) (OfOffice (Put row.now)) }
    {
        match row {
            OfficeRecord::Monitor { id, .. } => !self.has_site(id.site),
            _ => false,
        }
    }

    /// The rule of the list that a new record joins, if as many stand as may.
    fn full_rule(&self, row: &OfficeRecord) -> Option<Rule>
        ensures { result ≡ rules.full_rule (office_with self.now) row.now }
    {
        match row {
            OfficeRecord::Monitor { id, .. } => {
                let count = self.count(1, &id.site, id.pollutant);
                rule_where_full(count, MOST_MONITORS, Rule::MonitorsFull)
            }
            OfficeRecord::Primary {
                site,
                pollutant,
                ..
            } => {
                let count = self.count(2, site, *pollutant);
                rule_where_full(count, MOST_IN_LIST, Rule::ListFull)
            }
            OfficeRecord::Schedule {
                site,
                pollutant,
                ..
            } => {
                let count = self.count(3, site, *pollutant);
                rule_where_full(count, MOST_IN_LIST, Rule::ListFull)
            }
            OfficeRecord::Makeup { site, missed, .. } => {
                let count = self.makeups_in_quarter(site, *missed);
                rule_where_full(count, MOST_MAKEUPS, Rule::MakeupsFull)
            }
            OfficeRecord::Event { .. } => {
                rule_where_full(self.events as usize, MOST_EVENTS, Rule::EventsFull)
            }
            _ => None,
        }
    }

    /// How many records of a kind, site and pollutant stand, by a walk over them.
    fn count(&self, kind: u8, site: &SiteId, pollutant: Pollutant) -> usize
        ensures { result ≡ count_by (is_of kind site.now (offices.parameter_number pollutant)) self.now }
    {
        let parameter = parameter(pollutant);
        let start = Place::of_site(kind, site, parameter, 0);
        let end = Place::of_site(kind, site, parameter + 1, 0);
        self.records.count_between(start, end)
    }

    /// How many make-up samples of a site stand whose missed days lie in the quarter of a day, by a walk
    /// over them.
    fn makeups_in_quarter(&self, site: &SiteId, missed: Day) -> usize
        ensures { result ≡ count_by (rules.makes_up_in site.now missed) self.now }
    {
        a_quarter_holds_the_days_of_its_span();
        let (first, days) = quarter_span(quarter_of(missed));
        let first = u32::from(first.number());
        let start = Place::of_site(5, site, 0, first);
        let end = Place::of_site(5, site, 0, first + u32::from(days));
        self.records.count_between(start, end)
    }
}

/// Whether a record of a part of the map combines one of two sites for a pollutant.
fn any_combines(
    part: Range<'_, Place, OfficeRecord>,
    site: &SiteId,
    joined: &SiteId,
    pollutant: Pollutant,
) -> bool
    ensures { result ≡ list_any (offices.combines_either site.now joined.now pollutant) (values_of part.entry) }
{
    for (_, row) in part {
        if facts::combines_either(row, site, joined, pollutant) {
            return true;
        }
    }
    false
}

/// The rule of a full list, if as many stand as may.
fn rule_where_full(count: usize, most: usize, rule: Rule) -> Option<Rule>
    ensures { result ≡ rules.rule_where_full count most rule }
{
    if count >= most { Some(rule) } else { None }
}

/// The rule of a key that does not stand.
fn absent_rule(key: &OfficeKey) -> Rule
    ensures { result ≡ rules.absent_rule key.now }
{
    match key {
        OfficeKey::Event { .. } => Rule::UnknownEvent,
        _ => Rule::NotThere,
    }
}
