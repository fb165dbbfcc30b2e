//! What is kept of the particle days of sites, PM2.5 and PM10 alike, and the bags in which they count: of a
//! quarter or a year of a site. The modules `pm25` and `pm10` stand on it.
//!
//! # What it has
//!
//! - [`KeptDays`]: what is kept of each day of a site, a [`KeptDay`]: its value, and the sample that it gives
//!   its quarter; `net`: a value, if it is not excluded.
//! - [`SiteTime`]: a day, a quarter or a year of a site, as the key of a map; `exchange`: one item of the bag
//!   under such a key for another.
//! - `scheduled_days`: how many days of a quarter are scheduled.
//! - [`SiteDay`], `is_last`: the day of a site that was read last, in a walk over the observations.
//!
//! # What it promises
//!
//! - Nothing is kept of a day that was never changed, and a change of one day is no change of another
//!   (`KeptDays`).
//! - An exchange changes one bag by what it says, and no other bag (`exchange`).
//! - For the crates above it has lemmas: once one day gives another item, the bags of quarters and years are
//!   those of their days still.

mod kept_days;
mod observed;
mod schedule;
mod site_time;
mod tallied;

pub use kept_days::{KeptDay, KeptDays, net};
pub use observed::{SiteDay, is_last};
pub use schedule::scheduled_days;
pub use site_time::SiteTime;
pub use tallied::exchange;
