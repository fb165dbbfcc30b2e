//! Laws of the rules on ozone.

pub mod eight_hour;
pub mod ozone_day;
pub mod ozone_verdict;
pub mod ozone_year;
pub mod site_hour;
pub mod windows;
