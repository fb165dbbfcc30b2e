//! What stands beside an answer.
use aq_base::{Day, SiteId};

/// What a page says and links to beside its sheets: how many loads and observations stand in the office,
/// the day of its last observation, of the monitors of a site the last day of each pollutant, and of a
/// combined site the site that is joined to it and from which day on.
#[derive(Clone, Copy, Debug, PartialEq, Eq)]
pub struct Context {
    pub loads: u32,
    pub observations: u32,
    pub last_day: Option<Day>,
    pub ozone: Option<Day>,
    pub pm25: Option<Day>,
    pub pm10: Option<Day>,
    pub joined: Option<(SiteId, Day)>,
}
