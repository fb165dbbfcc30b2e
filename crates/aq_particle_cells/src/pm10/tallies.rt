//! What the days and the strata of PM10 give the quarters of their sites.
ghost use Rattle.std.specs.Prelude.{◌≡◌, ◌+◌, ℕ, List, ℤ, [], false, IfSome, OnOk, option_map};
ghost use Rattle.std.specs.Option.{option_map_or};
ghost use Rattle.aq_base.specs.Calendar.{quarter_of};
ghost use Rattle.aq_base.specs.Site.{Site};
ghost use Rattle.aq_agg.specs.StratumSums.{IsStratum};
ghost use Rattle.aq_agg.specs.Sums.{sum_and_number};
ghost use Rattle.aq_rules.specs.Particles.ParticleDay.{unless_excluded};
ghost use Rattle.aq_rules.specs.Particles.Pm10Estimate.{exceeds};
ghost use Rattle.aq_particle_cells.specs.Pm10.Pm10Tallies.{captured_of, item_of};
ghost use Rattle.aq_particle_cells.specs.Pm10.StrataTotals.{strata_summary, AreTotalsOf};
ghost use Rattle.aq_particle_cells.specs.Days.Tallied.{ExchangesItem, HasBag, HasItem, AreSumsOf};

use crate::days::{KeptDay, SiteTime, exchange};
use crate::pm10::strata_totals::{StrataSummary, StrataTotals};
use aq_agg::{SumCount, Tally};
use aq_base::{Day, Memory, Quarter, SiteId, Steps};
use aq_cal::quarter_of;
use aq_particles::pm10::exceeds;
use aq_series::Cell;
use std::alloc::Global;
use std::sync::ledger::Ledger;

/// For each quarter of a site an item for each scheduled day with a sample, 1 if it exceeds and is not
/// excluded and else 0; and its strata with samples.
#[derive(Drop)]
pub(crate) struct Pm10Tallies {
    samples: Tally<SiteTime, SumCount>,
    strata: Tally<SiteTime, StrataTotals>,
}

impl Pm10Tallies {
    /// No quarter has a day or a stratum. It takes no memory.
    pub(crate) fn new(alloc: Global) -> Pm10Tallies
        ensures samples { (site : Site) (quarter : ℕ)
            → HasBag AreSumsOf site quarter [] result.samples }
        ensures strata { (site : Site) (quarter : ℕ)
            → HasBag AreTotalsOf site quarter [] result.strata }
    {
        Pm10Tallies {
            samples: Tally::new(alloc),
            strata: Tally::new(alloc),
        }
    }

    /// Takes what a day gave its quarter out, and puts what it gives now in, in one step.
    pub(crate) fn exchange_day<L: Ledger>(
        &mut self,
        site: SiteId,
        day: Day,
        old: &KeptDay,
        new: &KeptDay,
        steps: &mut Steps<L>,
    ) -> Result<(), Memory>
        requires day { HasItem AreSumsOf site (quarter_of day)
            (captured_of old.now) self.old.samples }
        ensures samples { OnOk result
            (ExchangesItem AreSumsOf site (quarter_of day) (captured_of old.now)
            (captured_of new.now) self.old.samples self.new.samples) }
        ensures strata { self.new.strata ≡ self.old.strata }
        ensures steps { steps.new ≡ steps.old + 1 }
    {
        let quarter = quarter_of(day).number();
        exchange(
            &mut self.samples,
            site,
            quarter,
            captured(&old.sample),
            captured(&new.sample),
            steps,
        )?;
        Ok(())
    }

    /// Takes what was kept of a stratum out of its quarter, and puts what is kept now in, in one step.
    pub(crate) fn exchange_stratum<L: Ledger>(
        &mut self,
        site: SiteId,
        first: Day,
        old: Option<(u8, u8)>,
        new: Option<(u8, u8)>,
        steps: &mut Steps<L>,
    ) -> Result<(), Memory>
        requires stratum { HasItem AreTotalsOf site (quarter_of first) old self.old.strata }
        requires range { IfSome new IsStratum }
        ensures strata { OnOk result
            (ExchangesItem AreTotalsOf site
            (quarter_of first) old new self.old.strata self.new.strata) }
        ensures samples { self.new.samples ≡ self.old.samples }
        ensures steps { steps.new ≡ steps.old + 1 }
    {
        let quarter = quarter_of(first).number();
        exchange(&mut self.strata, site, quarter, old, new, steps)?;
        Ok(())
    }

    /// How many scheduled days of a quarter have a sample that exceeds and is not excluded, and how many have
    /// a sample.
    pub(crate) fn samples(&self, site: SiteId, quarter: Quarter) -> (i64, u32)
        ensures { (bag : List ℤ) → HasBag AreSumsOf site quarter bag self.now.samples → result
            ≡ sum_and_number bag }
    {
        self.samples.answer(SiteTime::new(site, quarter.number()))
    }

    /// The strata of a quarter, taken together.
    pub(crate) fn strata(&self, site: SiteId, quarter: Quarter) -> StrataSummary
        ensures { (bag : List (ℕ × ℕ)) → HasBag AreTotalsOf site quarter bag self.now.strata
            → result ≡ strata_summary bag }
    {
        self.strata.answer(SiteTime::new(site, quarter.number()))
    }
}

/// The item of the sample of a scheduled day: 1 if it exceeds and is not excluded, and else 0.
fn captured(sample: &Option<Cell>) -> Option<i32>
    ensures { result ≡ option_map item_of sample.now }
{
    match sample {
        Some(cell) => Some(if is_exceedance(cell) { 1 } else { 0 }),
        None => None,
    }
}

/// Whether a sample exceeds and is not excluded.
fn is_exceedance(cell: &Cell) -> bool
    ensures { result ≡ option_map_or exceeds (unless_excluded cell.now) false }
{
    !cell.excluded && exceeds(cell.value)
}
