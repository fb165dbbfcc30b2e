//! What the days of the years of sites give them.
ghost use Rattle.std.specs.Prelude.{◌≡◌, ◌+◌, ◌≤◌, ℕ, [], List, length, ℤ, IfSome, OnOk};
ghost use Rattle.aq_base.specs.Site.{Site};
ghost use Rattle.aq_rules.specs.Ozone.OzoneYear.{fourth_of};
ghost use Rattle.aq_series.specs.Samples.{IsOzone};
ghost use Rattle.aq_ozone_cells.specs.RankedMaxima.{number_and_fourth};
ghost use Rattle.aq_ozone_cells.specs.YearTallies.{count_of, maximum_of, AreBags, Exchanges, HasDay, OthersStay};

use crate::kept_days::HeldDay;
use crate::ranked_maxima::RankedMaxima;
use crate::site_key::SiteKey;
use aq_agg::{SumCount, Tally};
use aq_base::{Memory, SiteId, Steps};
use std::alloc::Global;
use std::sync::ledger::Ledger;

/// For each year of a site the maxima of its valid days, and an item for each day of its season that is
/// valid or approved.
#[derive(Drop)]
pub(crate) struct YearTallies {
    maxima: Tally<SiteKey, RankedMaxima>,
    counted: Tally<SiteKey, SumCount>,
}

impl YearTallies {
    /// No year has a day. It takes no memory.
    pub(crate) fn new(alloc: Global) -> YearTallies
        ensures { (site : Site) (year : ℕ) → AreBags site year [] [] result }
    {
        YearTallies {
            maxima: Tally::new(alloc),
            counted: Tally::new(alloc),
        }
    }

    /// Takes what a day gave its year out, and puts what it gives now in, in two steps. After want of
    /// memory a part of it may be done.
    pub(crate) fn exchange<L: Ledger>(
        &mut self,
        site: SiteId,
        year: u16,
        old: &HeldDay,
        new: &HeldDay,
        steps: &mut Steps<L>,
    ) -> Result<(), Memory>
        requires day { HasDay site year old.now self.old }
        requires range { IfSome (maximum_of new.now) IsOzone }
        ensures day { OnOk result (Exchanges site year old.now new.now self.old self.new) }
        ensures others { OnOk result (OthersStay site year self.old self.new) }
        ensures steps { steps.new ≤ steps.old + 2 }
    {
        let key = SiteKey::new(site, year);
        self.maxima
            .change(key, maximum_of(old), maximum_of(new), steps)?;
        self.counted
            .change(key, count_of(old), count_of(new), steps)?;
        Ok(())
    }

    /// How many maxima a year has, and the fourth greatest of them.
    pub(crate) fn maxima(&self, site: SiteId, year: u16) -> (u32, Option<i32>)
        ensures { (maxima counted : List ℤ) → AreBags site year maxima counted self.now → result ≡ number_and_fourth maxima }
    {
        self.maxima.answer(SiteKey::new(site, year))
    }

    /// How many days of the season of a year are valid or approved.
    pub(crate) fn counted(&self, site: SiteId, year: u16) -> u32
        ensures { (maxima counted : List ℤ) → AreBags site year maxima counted self.now → result ≡ length counted }
    {
        let (_, number) = self.counted.answer(SiteKey::new(site, year));
        number
    }
}

/// The maximum of a valid day.
fn maximum_of(day: &HeldDay) -> Option<i32>
    ensures { result ≡ maximum_of day.now }
{
    match day.maximum {
        Some(maximum) if day.valid => Some(i32::from(maximum)),
        _ => None,
    }
}

/// An item for a day that is counted.
fn count_of(day: &HeldDay) -> Option<i32>
    ensures { result ≡ count_of day.now }
{
    if day.counted { Some(0) } else { None }
}
