//! The events of a site, with what was said of each and how many observations it flags.
ghost use Rattle.std.specs.Prelude.{◌≡◌, IfOk, map};
ghost use Rattle.aq_rules.specs.Listed.Events as events;
ghost use Rattle.aq_series.specs.OfficeView.{office_of};
ghost use Rattle.aq_listed.specs.EventWords.{listed_by};

use crate::marks::Marks;
use crate::site_events::{StandingEvent, agreement_of, events_of};
use crate::site_marks::site_marks;
use aq_base::{Items, Memory, Pollutant, SiteId, Steps};
use aq_registry::Registry;
use aq_shelf::Shelf;
use std::alloc::Global;
use std::marker::Model;
use std::sync::ledger::Ledger;

/// An event, what the Administrator said of it, if anything, and the number of standing observations
/// that it flags. Contracts see the book's row.
#[derive(Clone, Copy, Debug, PartialEq, Eq)]
pub struct ListedEvent {
    pub event: StandingEvent,
    pub agreed: Option<bool>,
    pub flagged: u32,
}

impl Model for ListedEvent {
    ghost use Rattle.aq_rules.specs.Listed.Events as events;

    ghost Value = { events.ListedEvent };

    ghost view = { λ row. record { event = row.event; agreed = row.agreed; flagged = row.flagged } };

    ghost inverse = { λ row. record { event = row.event; agreed = row.agreed; flagged = row.flagged } };
}

/// Events in the order of their numbers. Contracts see the list of them.
pub type ListedEvents = Items<ListedEvent>;

/// The events of a site, by number, each with what was said of it and how many observations it flags. It
/// costs a walk over the records, one over the observations, and two searches of the site's marks for
/// each event.
pub fn listed_events<L: Ledger>(
    alloc: Global,
    shelf: &Shelf,
    registry: &Registry,
    site: SiteId,
    steps: &mut Steps<L>,
) -> Result<ListedEvents, Memory>
    ensures { IfOk result (λ rows. rows ≡ events.listed_events (office_of registry.now shelf.now) site) }
{
    // The proof learns that the records are valid.
    let _ = registry.next_poc(site, Pollutant::Ozone, 0);
    let marks = site_marks(alloc, shelf, site, steps)?;
    let standing = events_of(alloc, registry, site)?;
    let rows = rows_of(alloc, registry, &marks, standing.as_slice())?;
    Ok(rows)
}

/// The rows of some events.
fn rows_of(
    alloc: Global,
    registry: &Registry,
    marks: &Marks,
    standing: &[StandingEvent],
) -> Result<ListedEvents, Memory>
    ensures { IfOk result (λ rows. rows ≡ map (listed_by registry.now marks.now) standing.now) }
{
    let mut rows = ListedEvents::new(alloc);
    for event in standing {
        rows.push(listed_event(registry, marks, event))?;
    }
    Ok(rows)
}

/// The row of an event.
fn listed_event(registry: &Registry, marks: &Marks, event: &StandingEvent) -> ListedEvent
    ensures { result ≡ listed_by registry.now marks.now event.now }
{
    ListedEvent {
        event: *event,
        agreed: agreement_of(registry, event.number),
        flagged: marks.count(event.pollutant, event.code, event.first, event.last),
    }
}
