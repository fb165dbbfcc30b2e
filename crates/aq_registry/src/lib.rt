//! The office's records: monitors, designations, schedules, seasons, make-up samples, exceptional events
//! with their concurrences, approved days and combined sites, as one map in the order of rows. Contracts
//! see the list of its records. Every question of them is answered here, and every line of the office is
//! applied here.
//!
//! # What it has
//!
//! - `Registry::new`, `copy`, `rows`, `get`, `following`: the records, one of them, and the one after a
//!   key.
//! - `monitor`, `next_poc`, `has_site`, `next_site`, `primary_on`: monitors, sites, and a day's primary.
//! - `schedule_on`, `is_scheduled`: the `Schedule` in force on a day, and whether it asks for the day.
//! - `season`, `is_approved`, `makeup_of`, `missed_of`: seasons, approvals, make-ups.
//! - `combined`: the site that is joined to a site for a pollutant, and from when.
//! - `covers`, `excluded`, `next_event`, `agreed`: events, and what they leave out.
//! - `apply(line)`: a line of the office; it answers the `Changes` that it made, or a `RegistryFault`.
//! - `Records`: the map alone, without the rules of the office; `Rows`: a walk over it.
//!
//! # What it promises
//!
//! - The records are the book's list in the order of rows, and each question of them is answered as the
//!   book answers it, without memory.
//! - A line that breaks a rule of the office is refused under the first that it breaks; any other is
//!   applied, unless memory is wanted, of which a deletion takes none; after a refusal nothing is
//!   changed (`apply`).
//! - It says what a line changed: the record of its key before and after, and a concurrence that is
//!   dropped with its event (clause `changes`).
//! - What `Records` puts and removes is what the book's list does; after want of memory it is as before.
//!
//! # An example
//!
//! ```rust
//! let mut registry = Registry::new(alloc);
//! let id = MonitorId { site, pollutant: Pollutant::Ozone, poc: 1 };
//! let line = OfficeLine::Put(OfficeRecord::Monitor { id, duration: Duration::Hour, eligible: true });
//! registry.apply(line)?;
//! assert!(rt; registry.has_site(site));
//! assert_eq!(rt; registry.next_poc(site, Pollutant::Ozone, 0), Some(1));
//! assert!(rt; registry.apply(line) == Err(RegistryFault::Broken(Rule::AlreadyThere)));
//! ```
#![tactic(auto)]

mod agreed;
mod changes;
mod exclusion;
mod facts;
mod place;
mod records;
mod registry;
mod rows;
mod schedule;

pub use changes::{Changes, RecordChange, RegistryFault};
pub use records::Records;
pub use registry::Registry;
pub use rows::Rows;
pub use schedule::Schedule;
