//! What stands in an office, as lists: its sites, the monitors and events of a site, the flags of a year and
//! how complete its months are; its records and observations as the lines that make them anew; and the last
//! day with an observation.
//!
//! # What it has
//!
//! - `sites`: the registered sites, and how many monitors of each pollutant each has.
//! - `monitors`: the registered monitors of a site, with how many of their observations stand, and from which
//!   day to which.
//! - `events`: the exceptional events of a site, each with what the Administrator said of it and how many
//!   observations it flags. `listed_events` has its rows, as `ListedEvent` with a `StandingEvent`.
//! - `flags`: the days and codes of a year at which observations of a site and pollutant ask to be left out,
//!   and for how many of them an event stands. `listed_flags` has its rows, as `ListedFlag`.
//! - `completeness`: how many of each month's due samples each monitor has. `listed_months` has its rows, as
//!   `ListedMonth` with its `MonthCounts`.
//! - `records` and `lines`: the records, and the observations of a site, pollutant and year, as text.
//! - `last_day` and `last_day_at`: the last day with an observation of a registered monitor, of the office, and
//!   of a site and pollutant. They take no memory.
//!
//! # What it promises
//!
//! - Each sheet, list of rows and text is the book's, of the office that the registry and the shelf make.
//! - A last day is the latest of the last days of the book's listed monitors.
//! - The only refusal is want of memory.
//!
//! # An example
//!
//! ```rust
//! let sheet = monitors(alloc, &shelf, &registry, site, &mut steps)?;
//! let text = text_of(alloc, &sheet)?;
//! let lines = records(alloc, &registry)?;
//! ```
#![tactic(auto)]

mod code_cell;
mod completeness_sheet;
mod due_samples;
mod event_list;
mod event_sheet;
mod event_spans;
mod flag_list;
mod flag_marks;
mod flag_sheet;
mod last_days;
mod marks;
mod moment;
mod monitor_list;
mod monitor_months;
mod monitor_sheet;
mod month_counts;
mod month_days;
mod month_tally;
mod observation_lines;
mod record_lines;
mod same_site;
mod series;
mod site_events;
mod site_list;
mod site_marks;
mod site_sheet;
mod sorted;
mod standing_days;

pub use completeness_sheet::completeness;
pub use event_list::{ListedEvent, ListedEvents, listed_events};
pub use event_sheet::events;
pub use flag_list::{ListedFlag, ListedFlags, listed_flags};
pub use flag_sheet::flags;
pub use last_days::{last_day, last_day_at};
pub use monitor_months::{ListedMonth, listed_months};
pub use monitor_sheet::monitors;
pub use month_counts::MonthCounts;
pub use observation_lines::lines;
pub use record_lines::records;
pub use site_events::StandingEvent;
pub use site_sheet::sites;
