//! A sheet for each answer: reports, design values, areas, days and averages, and the replies to loads.
//!
//! # What it has
//!
//! - `load_sheet`, `conflict_sheet`, `error_sheet`, `summary_sheet`: of a reply, a conflict, an error, a
//!   simulation.
//! - `windows_sheet`, `days_sheet`: of an ozone day's averages, and of the days of a year.
//! - `pm25_sheet`, `pm10_sheet`: of a year's quarters.
//! - `value_sheet`, `report_sheet`: of a design value, and of the design values of sites.
//! - `decisive_sheet`: of the events that a verdict hangs on.
//! - `area_sheet`, `area_sites_sheet`: of an area's years, and of its sites with their critical values.
//! - `daily`: the days behind a number, and the highest of them.
//! - `digest_text`, `hex_digits`: a digest as its digits, and a byte as two.
//!
//! # What it promises
//!
//! - Each is the book's sheet of what it is made of.
//! - The sheets of a design value, of decisive events and of an area are well formed, whatever numbers
//!   they show.
//! - The only refusal is want of memory.
//!
//! # An example
//!
//! ```rust
//! let sheet = windows_sheet(alloc, site, day, &windows)?;
//! let text = text_of(alloc, &sheet)?; // of aq_sheets: lines, as `scan` prints them
//! ```
#![tactic(auto)]

mod area;
pub mod daily;
mod days;
mod decisive;
mod load;
mod numbered;
mod quarters;
mod report;
mod single;
mod value;
mod value_pm10;
mod value_pm25;
mod windows;

pub use area::{area_sheet, area_sites_sheet};
pub use days::days_sheet;
pub use decisive::decisive_sheet;
pub use load::load_sheet;
pub use quarters::{pm10_sheet, pm25_sheet};
pub use report::report_sheet;
pub use single::{conflict_sheet, digest_text, error_sheet, hex_digits, summary_sheet};
pub use value::value_sheet;
pub use windows::windows_sheet;
