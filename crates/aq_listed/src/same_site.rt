//! Whether two sites are the same.
ghost use Rattle.std.specs.Prelude.{◌≡◌};
ghost use Rattle.aq_rules.specs.Office.Monitors as monitors;

use aq_base::SiteId;

/// Whether two sites are the same.
pub(crate) fn is_same_site(one: SiteId, other: SiteId) -> bool
    ensures { result ≡ monitors.is_same_site one other }
{
    one.state() == other.state() && one.county() == other.county() && one.site() == other.site()
}
