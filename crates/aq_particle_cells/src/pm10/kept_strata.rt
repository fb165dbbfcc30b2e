//! What is kept of the strata of sites.
ghost use Rattle.std.specs.Prelude.{◌≡◌, ◌&&◌, ◌==◌, ℕ, None, if◌then◌else◌, OnOk, OnErr};
ghost use Rattle.aq_base.specs.Site.{Site};
ghost use Rattle.aq_rules.specs.Office.Monitors.{is_same_site};
ghost use Rattle.aq_particle_cells.specs.Pm10.Strata.{stratum_at};

use crate::days::SiteTime;
use aq_base::{Day, Memory, SiteId};
use std::alloc::Global;
use std::collections::BTreeMap;

/// By the first day of each stratum of a site with samples, how many of these exceed and how many there are.
#[derive(Drop)]
pub(crate) struct KeptStrata {
    strata: BTreeMap<SiteTime, (u8, u8)>,
}

impl KeptStrata {
    /// Nothing is kept. It takes no memory.
    #[tactic(auto, unfolding(crate::specs::Pm10::Strata::stratum_at))]
    pub(crate) fn new(alloc: Global) -> KeptStrata
        ensures { (site : Site) (first : ℕ) → stratum_at result.strata.entries site first ≡ None }
    {
        KeptStrata {
            strata: BTreeMap::new(alloc),
        }
    }

    /// What is kept of the stratum that starts on a day.
    #[tactic(auto, unfolding(crate::specs::Pm10::Strata::stratum_at))]
    pub(crate) fn stratum(&self, site: SiteId, first: Day) -> Option<(u8, u8)>
        ensures { result ≡ stratum_at self.now.strata.entries site first }
    {
        self.strata
            .get(&SiteTime::new(site, first.number()))
            .copied()
    }

    /// Keeps something else of it, or nothing. After want of memory all is as before.
    pub(crate) fn put(
        &mut self,
        site: SiteId,
        first: Day,
        stratum: Option<(u8, u8)>,
    ) -> Result<(), Memory>
        ensures ok { OnOk result ((other : Site) (number : ℕ)
            → stratum_at self.new.strata.entries other number
            ≡ (if is_same_site site other && (first == number) then stratum
            else stratum_at self.old.strata.entries other number)) }
        ensures err { OnErr result (self.new.strata.entries ≡ self.old.strata.entries) }
    {
        let key = SiteTime::new(site, first.number());
        let Some(stratum) = stratum else {
            self.strata.remove(&key);
            return Ok(());
        };
        match self.strata.insert(key, stratum) {
            Ok(_) => Ok(()),
            Err(_) => Err(Memory),
        }
    }
}
