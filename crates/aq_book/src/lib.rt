//! The book: an office with its records, observations and loads, and its cells of ozone and particles. It
//! is read from rows and gives them back, stages a load beside what stands, names its batch, takes it, and
//! answers questions of a site. Contracts see the valid office of the book of rules, and nothing else of it.
//!
//! # What it has
//!
//! - `Book::new`, `book_of`, `rows_of`: an empty book, one of an office's rows, and the rows of one.
//!   `Book::over`: one of an office that aq_rows opened, so that its rows can be let go first.
//! - `migrate`, `Migration`: the batch that brings rows of version 1 up to date, and the rows after it.
//! - `Book::check`, `reply_of`, `digest_of`: what becomes of a load's number (`LoadCheck`), and what is
//!   kept of a load.
//! - `Book::stage`, `batch`, `take`: a load beside the book (`Staged`), its changes of rows, and the change
//!   of the book by it. `windows_after`: a day's windows after a load, for whoever asks nothing else.
//! - `Book::windows`, `season`, `is_approved`, `ozone_days`, `ozone_year`, `pm25_year`, `pm10_year`,
//!   `design_value`, `observations`, `observation_count`: questions; `UnknownSite` and `AskFault` say
//!   why one has no answer.
//! - `Book::report`: the design values of all sites, as `SiteValues`. A book is a source of `Years` and of
//!   `ParticleDays` for aq_design and whoever asks them.
//! - `Book::shelf`, `registry`, `loads`: its observations, records and loads, lent to rooms that ask them
//!   themselves; and `has_site`, whether a monitor of a site is registered.
//!
//! # What it promises
//!
//! - It is read from rows and gives them back as aq_rows says (`book_of`, `rows_of`). Rows of version 1
//!   have a migration, with the book of rules' batch and migrated rows; an office's rows have none; of
//!   other rows the first is named that cannot be opened with those before it (`migrate`, `Migration`).
//! - A number is a repeat, a conflict, without room or new as the book of rules decides (`check`), and
//!   what is kept of a load is found (`reply_of`, `digest_of`).
//! - A load is staged beside the book and changes nothing: its reply is the book of rules' reply, the
//!   office with what is staged is the one after the load, and its batch is the book's (`stage`,
//!   `batch`). Once taken, the book is that of this office; after want of memory nothing stands in it
//!   (`take`).
//! - A day's windows after a load are those of the office that it leaves, without a cell of it
//!   (`windows_after`).
//! - A question of a site is answered as the book of rules answers it, and refused exactly if no monitor
//!   of the site is registered, or for want of memory where its answer takes some.
//! - Each cell that is kept is the office's, in every book (the invariant of `Book`): a load that is taken
//!   marks what reads one of its changes, before it or after it, and nothing else, and brings it up to
//!   date. So a year, a design value and a report make no step (`ozone_year`, `pm25_year`, `pm10_year`,
//!   `design_value`, `report`), a day's windows are those of the hours that are kept (`windows`), and a
//!   particle day is the one that is kept (`ParticleDays`).
//! - The report of a standard has the sites with a monitor of its pollutant, in rising order, each with
//!   its whole design value (`report`).
//!
//! # An example
//!
//! ```rust
//! let mut book = Book::new(alloc);
//! let staged = book.stage(alloc, 1, digest, &body)?;
//! let batch = book.batch(alloc, &staged)?; // a keeper commits it, and then
//! book.take(staged, &mut steps)?;
//! let value = book.design_value(Standard::Ozone2015, site, 2024, &mut steps)?;
//! ```
#![tactic(auto)]

mod batch;
mod book;
mod check;
mod design;
mod export;
mod fault;
mod migration;
mod opening;
mod ozone;
mod particle_days;
mod question;
mod report;
mod unsettled;
mod version_1;

pub use aq_rows::{OpenFault, Place};
pub use aq_staging::Staged;
pub use batch::RowChanges;
pub use book::Book;
pub use check::LoadCheck;
pub use export::ShownRows;
pub use fault::{AskFault, UnknownSite};
pub use migration::{Migration, migrate};
pub use opening::{book_of, rows_of};
pub use ozone::OzoneDays;
pub use report::SiteValues;
