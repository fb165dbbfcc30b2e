//! Design values of a site that has moved, whose hours are made up.
ghost use Rattle.std.specs.Prelude.{◌≡◌, ◌+◌, ◌<◌, ◌≤◌, IsTrue};
ghost use Rattle.aq_base.specs.declared.day.TheConstants.{LAST_HOUR};
ghost use Rattle.aq_rules.specs.Lines.OfficeForms.{is_pair};
ghost use Rattle.aq_rules.specs.Lines.Spellings.{Xb, has_parameter};
ghost use Rattle.aq_rules.specs.Office.Office.{is_site};

use crate::designs::number_of;
use crate::made_up::{Hours, LAST, fill_between, put, schedule, three_years};
use aq_base::{Day, Memory, OfficeLine, OfficeRecord, Pollutant, SiteId, Standard, Steps};
use aq_design::combined::pair_value;
use aq_design::{FromShelf, design_value};
use aq_registry::Registry;
use aq_shelf::Shelf;
use aq_verdict::DesignValue;
use std::alloc::Global;
use std::marker::Brand;
use std::sync::ledger::{Blank, Ledger};

/// The site moves at the end of the first half of 2023.
const MOVED: u32 = 24 * (33 * 365 + 8 + 181);

/// Each site has so many monitors.
const MONITORS: u8 = 2;

/// Where the hours are of which a design value is asked. At both sites an hour has the same values.
#[derive(Clone, Copy)]
pub enum Where {
    /// All at one site, to which none is joined.
    OneSite,
    /// Before the move at the site, and from then on at the joined one.
    Moved,
    /// All at both.
    Both,
}

/// Computes the design value of a standard again and again, and gives the sum of the values. Each hour of
/// three years has a value at each monitor, and each day is scheduled.
pub fn moved_designs(
    alloc: Global,
    standard: Standard,
    hours: Where,
    runs: u32,
) -> Result<i64, Memory> {
    let site = SiteId::new(6, 37, 1103).ok_or(Memory)?;
    let joined = SiteId::new(6, 37, 1104).ok_or(Memory)?;
    let mut shelf = Shelf::new(alloc);
    let mut registry = Registry::new(alloc);
    let pollutant = standard.pollutant();
    let all = three_years();
    let (before, after) = halves(all);
    match hours {
        Where::OneSite => place(&mut shelf, &mut registry, site, pollutant, all)?,
        Where::Moved => {
            place(&mut shelf, &mut registry, site, pollutant, before)?;
            place(&mut shelf, &mut registry, joined, pollutant, after)?;
        }
        Where::Both => {
            place(&mut shelf, &mut registry, site, pollutant, all)?;
            place(&mut shelf, &mut registry, joined, pollutant, all)?;
        }
    }
    if let Where::OneSite = hours {
        let source = FromShelf {
            shelf: &shelf,
            registry: &registry,
        };
        return Ok(repeated::<Brand>(&source, standard, site, runs, Blank::new(1)));
    }
    match pollutant {
        Pollutant::Ozone => combine(&mut registry, site, joined, Pollutant::Ozone)?,
        _ => combine(&mut registry, site, joined, Pollutant::Pm25)?,
    }
    Ok(repeated_pair::<Brand>(&shelf, &registry, standard, site, runs, Blank::new(1)))
}

/// Puts the monitors of a site and their hours. Each day is scheduled.
fn place(
    shelf: &mut Shelf,
    registry: &mut Registry,
    site: SiteId,
    pollutant: Pollutant,
    hours: Hours,
) -> Result<(), Memory>
    requires site { IsTrue (is_site site) }
    requires profile { hours.end ≤ LAST_HOUR + 1 }
{
    fill_between(shelf, registry, site, pollutant, MONITORS, hours)?;
    if pollutant == Pollutant::Pm25 {
        schedule(registry, site)?;
    }
    Ok(())
}

/// The hours before the move, and those from it on.
fn halves(all: Hours) -> (Hours, Hours)
    requires { all.end ≤ LAST_HOUR + 1 }
    ensures before { result.0.end ≤ LAST_HOUR + 1 }
    ensures after { result.1.end ≤ LAST_HOUR + 1 }
{
    let before = Hours {
        first: all.first,
        end: MOVED,
    };
    let after = Hours {
        first: MOVED,
        end: all.end,
    };
    (before, after)
}

/// Joins a site to another one from the move on.
fn combine(
    registry: &mut Registry,
    site: SiteId,
    joined: SiteId,
    pollutant: Pollutant,
) -> Result<(), Memory>
    requires site { IsTrue (is_site site) }
    requires joined { IsTrue (is_site joined) }
    requires pair { IsTrue (is_pair site joined) }
    requires pollutant { IsTrue (has_parameter Xb pollutant) }
{
    let from = Day::new((MOVED / 24) as u16);
    put(
        registry,
        OfficeLine::Put(OfficeRecord::Combined {
            site,
            pollutant,
            from,
            joined,
        }),
    )
}

/// Computes the design value of the one site so many times.
fn repeated<L: Ledger>(
    source: &FromShelf<'_>,
    standard: Standard,
    site: SiteId,
    runs: u32,
    blank: Blank,
) -> i64
    requires name { blank.name ≡ L.name }
    requires parts { blank.parts ≡ L.parts }
    requires some { 0 < L.parts }
{
    let mut steps = Steps::<L>::new(blank);
    let mut sum = 0;
    for _ in 0..runs {
        let value = design_value(source, standard, site, LAST, &mut steps);
        sum = added(sum, &value);
    }
    sum
}

/// Computes that of the pair so many times.
fn repeated_pair<L: Ledger>(
    shelf: &Shelf,
    registry: &Registry,
    standard: Standard,
    site: SiteId,
    runs: u32,
    blank: Blank,
) -> i64
    requires name { blank.name ≡ L.name }
    requires parts { blank.parts ≡ L.parts }
    requires some { 0 < L.parts }
{
    let mut steps = Steps::<L>::new(blank);
    let mut sum = 0;
    for _ in 0..runs {
        if let Some(value) = pair_value(shelf, registry, standard, site, LAST, &mut steps) {
            sum = added(sum, &value);
        }
    }
    sum
}

/// A sum with one more value.
fn added(sum: i64, value: &DesignValue) -> i64 {
    sum.wrapping_add(number_of(value.value()))
}
