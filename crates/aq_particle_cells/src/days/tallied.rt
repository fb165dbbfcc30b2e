//! One item of the bag of a quarter or a year, exchanged.
ghost use Rattle.std.specs.Prelude.{◌≡◌, ◌+◌, IfSome, OnOk};
ghost use Rattle.aq_particle_cells.specs.Days.Tallied.{ExchangesItem, HasItem};

use crate::days::site_time::SiteTime;
use aq_agg::{Aggregate, Tally};
use aq_base::{Memory, SiteId, Steps};
use std::sync::ledger::Ledger;

/// Takes the old item out of the bag of a quarter or a year of a site, in which it is, and puts the new one
/// in, in one step; either may be absent.
pub fn exchange<A: Aggregate, L: Ledger>(
    tally: &mut Tally<SiteTime, A>,
    site: SiteId,
    time: u16,
    old: Option<A::Item>,
    new: Option<A::Item>,
    steps: &mut Steps<L>,
) -> Result<(), Memory>
    requires old { HasItem A.is_of site time old tally.old }
    requires new { IfSome new A.may_hold }
    ensures items { OnOk result (ExchangesItem A.is_of site time old new tally.old tally.new) }
    ensures steps { steps.new ≡ steps.old + 1 }
{
    tally.change(SiteTime::new(site, time), old, new, steps)?;
    Ok(())
}
