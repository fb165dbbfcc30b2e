//! What is not in reach of a change is as before. The reach of a change from one office to another is
//! the set of cells that read a changed row; `Kept::Reach` of the book of rules has the table of what
//! reads what. The functions here are laws alone: what is kept of a cell outside the reach is right for
//! the new office without a look at it, so the table leaves out nothing that counts.
//!
//! # What it has
//!
//! - `ozone`: averages, days, seasons and approvals, and years.
//! - `particles`: days of PM2.5 and PM10. `quarters`: their quarters, and the values of a PM2.5 year.
//! - `strata`: strata of PM10 with their days and samples.
//! - `concurrences`: the years that an event does not touch.
//! - Each but the last has worked offices too, which show that neither side of a law is empty
//!   (`a_corrected_hour_reaches_this`).
//!
//! # What it promises
//!
//! For all valid offices, what a change does not reach is as before:
//!
//! - the averages of a start, an ozone day with its validity and maximum, and an ozone year with its
//!   season, approvals, days and maxima (`averages_`, `ozone_days_`, `seasons_and_approvals_` and
//!   `ozone_years_out_of_reach_are_as_before`);
//! - a day of PM2.5 or PM10, a quarter with its scheduled days, make-ups, counts and values, and the
//!   values of a PM2.5 year (`particle_days_`, `quarters_`,
//!   `values_of_a_pm25_year_out_of_reach_are_as_before`);
//! - a stratum of PM10, its days and samples (`days_of_strata_`, `strata_out_of_reach_are_as_before`).
//!
//! A year of PM2.5 or PM10 is as before if none of its quarters is reached; the cell of a PM2.5 year
//! alone does not say so, since a schedule or a make-up changes counts and no value
//! (`years_whose_quarters_are_out_of_reach_are_as_before`). Where the records rise, and for PM2.5 are
//! ones that lines can spell, a year that an event does not touch is as before whatever becomes of its
//! concurrence (`years_outside_an_event_are_as_before`). An hour has its law in the book of rules.
//!
//! # An example
//!
//! A body calls a law, which does nothing when it runs; from there on its clause may be cited:
//!
//! ```rust
//! // For the proof: an average that no changed row reaches is still that of the office.
//! averages_out_of_reach_are_as_before();
//! ```

pub mod concurrences;
pub mod ozone;
pub mod particles;
pub mod quarters;
pub mod strata;
