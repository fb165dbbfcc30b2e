//! The types of the field with their ranges, and the limits of what is taken and kept. Every room speaks
//! in these types and stands on this one; its `specs/` has the definitions that all share.
//!
//! # What it has
//!
//! - `SiteId`, `Day`, `Hour`, `Quarter`: a site; a day, hour and quarter, numbered from 1990 on.
//! - `Pollutant`, `Duration`, `MonitorId`: what is measured, how long a sample lasts, and where.
//! - `ObsKey`, `Observation`, `Code`, `Quals`: where a sample stands, what was reported, and its codes.
//! - `OfficeRecord`, `OfficeKey`, `OfficeLine`: a record of the agency, its key, and a line for it.
//! - `Rule`, `LoadReply`, `Listed`, `Rest`: the rules of lines, and what became of the lines of a load.
//! - `Standard`, `Verdict`; `Shown`: the six standards; an observation of an export.
//! - `Question`, `Topic`: each question that there is, and its row in the table of questions.
//! - `Area`, `SiteList`; `Assumed`, `AssumedList`, `DecisiveEvent`: areas; assumed concurrences.
//! - `Items`, `Bytes`, `Steps`: lists that grow, and a count of look-ups that exists for clauses alone.
//! - `Memory`, `Failed`: want of memory, and an object of the outside that failed.
//!
//! # What it promises
//!
//! - A `SiteId`, `Day`, `Hour`, `Quarter`, `Quals`, `SiteList` or `AssumedList` is in its range, always.
//! - The open types (`MonitorId`, `Observation`, the office records, keys and lines, `Question`,
//!   `Area`, `Assumed`, `DecisiveEvent`) keep the ranges of their parts alone. They do not keep that a POC is 1
//!   to 99 (0 in a designation of no monitor), an interval 1, 2, 3 or 6, a year one of the profile, an
//!   event's number 1 to 999,999, a season in its year, an area's state and county of two and three
//!   digits, a method 0 to 999, or that an observation has exactly one of a value and a null code:
//!   readers of lines, rows and words give such values alone, and calls that need it say so.
//! - A rule has its number and name, a standard its name, pollutant and level; `Rule::all` and
//!   `Standard::all` are the whole lists, in their order.
//! - A new qualifier is put last, and one that is there is not put twice (`Quals::add`); after want of
//!   memory a list is as before (`Items::push`). The last day, hour and quarter are those of the
//!   profile's years.
//!
//! # An example
//!
//! ```rust
//! let site = SiteId::new(6, 37, 1103)?;
//! assert!(rt; SiteId::new(6, 1000, 1103).is_none());
//! assert_eq!(rt; Day::new(12_600).number(), 12_600); // 1 July 2024
//! assert_eq!(rt; Standard::Ozone2015.level(), 70);   // thousandths of a ppm
//! ```
#![tactic(auto)]

mod area;
mod assumed;
mod code;
mod day;
mod items;
mod limits;
mod monitor;
mod observation;
mod office;
mod quals;
mod question;
mod refusal;
mod reply;
mod rule;
mod shown;
mod site;
mod standard;
mod steps;

pub use area::{Area, MOST_AREA_SITES, SiteList};
pub use assumed::{Assumed, AssumedList, DecisiveEvent, MOST_ASSUMED};
pub use code::Code;
pub use day::{
    Day, FIRST_DESIGN_YEAR, FIRST_YEAR, HOURS_BEFORE_2000, Hour, LAST_DAY, LAST_HOUR, LAST_YEAR,
    QUARTERS, Quarter,
};
pub use items::{Bytes, Items};
pub use limits::{
    FEWEST_GENERATED_YEARS, LAST_EVENT_NUMBER, LAST_LOAD_NUMBER, MOST_BYTES, MOST_EVENT_HOURS,
    MOST_EVENTS, MOST_GENERATED_SITES, MOST_GENERATED_YEARS, MOST_IN_LIST, MOST_LINES, MOST_LISTED,
    MOST_LOADS, MOST_MAKEUPS, MOST_MONITORS, MOST_OBSERVATIONS, MOST_SITES,
};
pub use monitor::{Duration, MonitorId, Pollutant};
pub use observation::{LAST_METHOD, ObsKey, Observation};
pub use office::{OfficeKey, OfficeLine, OfficeRecord};
pub use quals::{MOST_QUALIFIERS, Quals};
pub use question::{Question, Topic};
pub use refusal::{Failed, Memory};
pub use reply::{Listed, ListedLine, LoadReply, Rest, RestRule};
pub use rule::Rule;
pub use shown::Shown;
pub use site::SiteId;
pub use standard::{Standard, Verdict};
pub use steps::Steps;
