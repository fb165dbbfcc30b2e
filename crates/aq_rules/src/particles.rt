//! Laws of the rules on PM2.5 and PM10.

pub mod annual_verdict;
pub mod daily_verdict;
pub mod particle_day;
pub mod percentile;
pub mod pm10;
pub mod quarter_counts;
pub mod strata;
