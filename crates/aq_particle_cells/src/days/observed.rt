//! The days of which something is observed.
ghost use Rattle.std.specs.Prelude.{◌≡◌};
ghost use Rattle.aq_particle_cells.specs.Days.Observed.{is_last};

use aq_base::{Day, SiteId};

/// A day of a site.
#[derive(Clone, Copy, Debug)]
pub struct SiteDay {
    pub site: SiteId,
    pub day: Day,
}

/// Whether a day of a site is the last one that was read. The hours of a day follow one another.
pub fn is_last(last: &Option<SiteDay>, site: SiteId, day: Day) -> bool
    ensures { result ≡ is_last last.now site day }
{
    match last {
        Some(last) => last.site == site && last.day == day,
        None => false,
    }
}
