//! What the days of PM2.5 give the quarters and years of their sites.
ghost use Rattle.std.specs.Prelude.{◌≡◌, ◌+◌, ◌≤◌, ℕ, [], List, ℤ, IfSome, OnOk, option_map};
ghost use Rattle.std.specs.Option.{option_to_list};
ghost use Rattle.aq_base.specs.Site.{Site};
ghost use Rattle.aq_agg.specs.Sums.{sum_and_number};
ghost use Rattle.aq_rules.specs.Kept.Summaries.{eight_greatest};
ghost use Rattle.aq_series.specs.DayCells.{IsParticle};
ghost use Rattle.aq_particles.specs.Pm25.QuarterValues.{top_after};
ghost use Rattle.aq_particle_cells.specs.Pm25.DayValues.{summary_of, AreValuesOf};
ghost use Rattle.aq_particle_cells.specs.Pm25.Pm25Tallies.{item_of, AreGreatestOf, ExchangesDay, HasDay};
ghost use Rattle.aq_particle_cells.specs.Days.Tallied.{HasBag, AreSumsOf};

use crate::days::{KeptDay, SiteTime, exchange, net};
use crate::pm25::day_values::{DayValues, ValueSummary};
use aq_agg::{RankedBag, SumCount, Tally};
use aq_base::{Day, Memory, Quarter, SiteId, Steps};
use aq_cal::{civil_of, quarter_of};
use aq_series::Cell;
use aq_verdict::TopEight;
use std::alloc::Global;
use std::sync::ledger::Ledger;

/// For each quarter of a site the values that are not excluded, and an item for each creditable sample, 1 if
/// it is not excluded and else 0; for each year the same values, ranked.
#[derive(Drop)]
pub(crate) struct Pm25Tallies {
    values: Tally<SiteTime, DayValues>,
    samples: Tally<SiteTime, SumCount>,
    greatest: Tally<SiteTime, RankedBag>,
}

impl Pm25Tallies {
    /// No quarter and no year has a day. It takes no memory.
    pub(crate) fn new(alloc: Global) -> Pm25Tallies
        ensures values { (site : Site) (quarter : ℕ)
            → HasBag AreValuesOf site quarter [] result.values }
        ensures samples { (site : Site) (quarter : ℕ)
            → HasBag AreSumsOf site quarter [] result.samples }
        ensures greatest { (site : Site) (year : ℕ)
            → HasBag AreGreatestOf site year [] result.greatest }
    {
        Pm25Tallies {
            values: Tally::new(alloc),
            samples: Tally::new(alloc),
            greatest: Tally::new(alloc),
        }
    }

    /// Takes what a day gave its quarter and its year out, and puts what it gives now in, in three steps.
    /// After want of memory a part of it may be done.
    pub(crate) fn exchange<L: Ledger>(
        &mut self,
        site: SiteId,
        day: Day,
        old: &KeptDay,
        new: &KeptDay,
        steps: &mut Steps<L>,
    ) -> Result<(), Memory>
        requires day { HasDay site day old.now self.old }
        requires range { IfSome new.now.cell (λ cell. IsParticle cell.value) }
        ensures day { OnOk result (ExchangesDay site day old.now new.now self.old self.new) }
        ensures steps { steps.new ≤ steps.old + 3 }
    {
        let quarter = quarter_of(day).number();
        let year = civil_of(day).year;
        exchange(
            &mut self.values,
            site,
            quarter,
            net(&old.cell),
            net(&new.cell),
            steps,
        )?;
        exchange(
            &mut self.samples,
            site,
            quarter,
            counted(&old.sample),
            counted(&new.sample),
            steps,
        )?;
        exchange(
            &mut self.greatest,
            site,
            year,
            net(&old.cell),
            net(&new.cell),
            steps,
        )?;
        Ok(())
    }

    /// The values of a quarter, taken together.
    pub(crate) fn values(&self, site: SiteId, quarter: Quarter) -> ValueSummary
        ensures { (bag : List ℤ) → HasBag AreValuesOf site quarter bag self.now.values → result
            ≡ summary_of bag }
    {
        self.values.answer(SiteTime::new(site, quarter.number()))
    }

    /// How many of the creditable samples of a quarter are not excluded, and how many there are.
    pub(crate) fn samples(&self, site: SiteId, quarter: Quarter) -> (i64, u32)
        ensures { (bag : List ℤ) → HasBag AreSumsOf site quarter bag self.now.samples → result
            ≡ sum_and_number bag }
    {
        self.samples.answer(SiteTime::new(site, quarter.number()))
    }

    /// The eight greatest values of a year.
    pub(crate) fn greatest(&self, site: SiteId, year: u16) -> TopEight
        ensures { (bag : List ℤ) → HasBag AreGreatestOf site year bag self.now.greatest → result
            ≡ eight_greatest bag }
    {
        let [a, b, c, d, e, f, g, h] = self.greatest.answer(SiteTime::new(site, year));
        let four = joined(&joined(&joined(&joined(&TopEight::new(), a), b), c), d);
        joined(&joined(&joined(&joined(&four, e), f), g), h)
    }
}

/// The eight greatest of these values and one more, if there is one.
fn joined(top: &TopEight, value: Option<i32>) -> TopEight
    ensures { result ≡ top_after top.now (option_to_list value) }
{
    match value {
        Some(value) => top.with_value(value),
        None => *top,
    }
}

/// The item of a creditable sample: 1 if it is not excluded, and else 0.
fn counted(sample: &Option<Cell>) -> Option<i32>
    ensures { result ≡ option_map item_of sample.now }
{
    match sample {
        Some(cell) => Some(if cell.excluded { 0 } else { 1 }),
        None => None,
    }
}
