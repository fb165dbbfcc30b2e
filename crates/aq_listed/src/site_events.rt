//! The events of a site as they stand, and what was said of each.
ghost use Rattle.std.specs.Prelude.{◌≡◌, IfOk};
ghost use Rattle.std.specs.Option.{option_and_then};
ghost use Rattle.aq_rules.specs.Listed.Events as events;
ghost use Rattle.aq_registry.specs.Registry.{office_with};
ghost use Rattle.aq_listed.specs.EventWords.{agreement_in};

use crate::same_site::is_same_site;
use aq_base::{Code, Hour, Items, Memory, OfficeKey, OfficeRecord, Pollutant, SiteId};
use aq_registry::Registry;
use std::alloc::Global;
use std::iter::Iterator;
use std::marker::Model;

/// An exceptional event as it stands, from its first hour to its last. Contracts see the book's event.
#[derive(Clone, Copy, Debug, PartialEq, Eq)]
pub struct StandingEvent {
    pub number: u32,
    pub site: SiteId,
    pub pollutant: Pollutant,
    pub first: Hour,
    pub last: Hour,
    /// The code by which observations ask to be left out for it.
    pub code: Code,
}

impl Model for StandingEvent {
    ghost use Rattle.aq_rules.specs.Listed.Events as events;

    ghost Value = { events.StandingEvent };

    ghost view = { λ event. record { number = event.number; site = event.site; pollutant = event.pollutant; first = event.first; last = event.last; code = event.code } };

    ghost inverse = { λ event. record { number = event.number; site = event.site; pollutant = event.pollutant; first = event.first; last = event.last; code = event.code } };
}

/// Events in the order of their numbers. Contracts see the list of them.
pub(crate) type StandingEvents = Items<StandingEvent>;

/// The events of a site, by number. It costs a walk over the records.
#[tactic(auto, unfolding(aq_rules::specs::Listed::Events::events_of))]
pub(crate) fn events_of(
    alloc: Global,
    registry: &Registry,
    site: SiteId,
) -> Result<StandingEvents, Memory>
    ensures { IfOk result (λ list. list ≡ events.events_of (office_with registry.now) site) }
{
    let mut list = StandingEvents::new(alloc);
    for row in registry.rows() {
        if let Some(event) = event_in(&row, site) {
            list.push(event)?;
        }
    }
    Ok(list)
}

/// The event of the site that a record is.
fn event_in(row: &OfficeRecord, site: SiteId) -> Option<StandingEvent>
    ensures { result ≡ events.event_by site row.now }
{
    match *row {
        OfficeRecord::Event {
            number,
            site: other,
            pollutant,
            first,
            last,
            code,
        } => {
            if is_same_site(other, site) {
                Some(StandingEvent {
                    number,
                    site: other,
                    pollutant,
                    first,
                    last,
                    code,
                })
            } else {
                None
            }
        }
        _ => None,
    }
}

/// What the Administrator said of an event, if anything, by one search of the records.
pub(crate) fn agreement_of(registry: &Registry, number: u32) -> Option<bool>
    ensures { result ≡ events.agreement_of (office_with registry.now) number }
{
    agreement_in(&registry.get(OfficeKey::Concurrence { number }))
}

/// What a record says of its event.
fn agreement_in(row: &Option<OfficeRecord>) -> Option<bool>
    ensures { result ≡ option_and_then agreement_in row.now }
{
    match row {
        Some(OfficeRecord::Concurrence { agreed, .. }) => Some(*agreed),
        _ => None,
    }
}
