//! Questions of events and their concurrences.
ghost use Rattle.std.specs.Prelude.{◌≡◌, ◌∷◌, true, is_some, slice_get, IfSome, IsSome, IsTrue};
ghost use Rattle.std.specs.Map.{values_of};
ghost use Rattle.aq_registry.specs.Events.{event_above, events_above};
ghost use Rattle.aq_registry.specs.Registry.{office_with};
ghost use Rattle.aq_rules.specs.Lines.Spellings.{is_event_number};
ghost use Rattle.aq_rules.specs.Office.Office.{event_stands};
ghost use Rattle.aq_rules.specs.Office.Questions.{first_given};
ghost use Rattle.aq_rules.specs.WhatIf.Assumed.{events_at, is_agreed};

use super::Registry;
use crate::facts;
use crate::place::Place;
use aq_base::{OfficeKey, OfficeRecord, Pollutant, SiteId};
use aq_rules::what_if::events_come_by_rising_number;
use std::collections::btree_map::Range;
use std::iter::Iterator;

impl Registry {
    /// The least number above the given one that an event of a site and pollutant has, by a walk over the
    /// events whose numbers lie between. It takes no memory.
    pub fn next_event(&self, site: SiteId, pollutant: Pollutant, after: u32) -> Option<u32>
        ensures value { result ≡ slice_get (events_above self.now site pollutant after) 0 }
        ensures rest { IfSome result (λ number. events_above self.now site pollutant after ≡ number ∷ events_above self.now site pollutant number) }
        ensures stands { IfSome result (λ number. event_stands (office_with self.now) number ≡ true) }
        ensures all { events_above self.now site pollutant 0 ≡ events_at (office_with self.now) site pollutant }
    {
        events_come_by_rising_number();
        let start = Place::of_event(6, after);
        first_event(
            self.records.between(start, Place::of_kind(7)),
            &site,
            pollutant,
            after,
        )
    }

    /// Whether a concurrence `Y` stands in the event of a number, and `None` if no event has it, by two
    /// searches of the map. It takes no memory.
    pub fn agreed(&self, number: u32) -> Option<bool>
        ensures stands { is_some result ≡ event_stands (office_with self.now) number }
        ensures agreed { IfSome result (λ agreed. agreed ≡ is_agreed (office_with self.now) number) }
        ensures number { IsSome result → IsTrue (is_event_number number) }
    {
        if self.stands(&OfficeKey::Event { number }) {
            Some(self.records.agree_to(number))
        } else {
            None
        }
    }
}

/// The first event of a part of the map that is of a site and pollutant and has a number above the given
/// one.
fn first_event(
    part: Range<'_, Place, OfficeRecord>,
    site: &SiteId,
    pollutant: Pollutant,
    after: u32,
) -> Option<u32>
    ensures { result ≡ first_given (event_above site.now pollutant after) (values_of part.entry) }
{
    for (_, row) in part {
        let number = facts::event_above(row, site, pollutant, after);
        if number.is_some() {
            return number;
        }
    }
    None
}
