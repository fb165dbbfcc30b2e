//! Generated loads, taken one after the other.
ghost use Rattle.std.specs.Prelude.{◌≡◌, ◌+◌, ◌-◌, ◌*◌, ◌≤◌, true, IfOk, OnOk};
ghost use Rattle.sha2.specs.Sha256.{sha256};
ghost use Rattle.aq_rules.specs.Limits.{MOST_LINES, MOST_GENERATED_SITES, FEWEST_GENERATED_YEARS, MOST_GENERATED_YEARS};
ghost use Rattle.aq_rules.specs.Lines.Lines.{line_count};
ghost use Rattle.aq_rules.specs.Office.Load.{post};
ghost use Rattle.aq_rules.specs.Office.Office.{IsOffice};
ghost use Rattle.aq_rules.specs.Shown.Generator.{generated_lines, generated_load, generated_office, load_count};

use crate::generator::{generate, load_count};
use aq_base::Memory;
use aq_book::Book;
use aq_forms::Body;
use aq_keeper::SteadyKeeper;
use aq_office::post_uncounted;
use aq_rules::office::valid_load::an_office_of_nothing_is_valid;
use std::alloc::Global;

/// An office of the loads that were taken, and how many lines they have in all.
#[derive(Drop)]
pub(crate) struct Taken {
    pub(crate) book: Book,
    pub(crate) lines: u32,
}

/// Takes all loads of a simulation.
pub(crate) fn take_all(alloc: Global, start: u64, sites: u8, years: u8) -> Result<Taken, Memory>
    requires some_sites { 1 ≤ sites }
    requires few_sites { sites ≤ MOST_GENERATED_SITES }
    requires some_years { FEWEST_GENERATED_YEARS ≤ years }
    requires few_years { years ≤ MOST_GENERATED_YEARS }
    ensures office { IfOk result (λ taken. taken.book ≡ generated_office sha256 start sites years) }
    ensures lines { IfOk result (λ taken. taken.lines ≡ generated_lines start sites years) }
{
    an_office_of_nothing_is_valid();
    let mut keeper = SteadyKeeper::new(alloc);
    let mut taken = Taken {
        book: Book::new(alloc),
        lines: 0,
    };
    let count = load_count(sites, years);
    let mut load = 1;
    while load <= count {
        take_load(alloc, start, sites, years, load, &mut keeper, &mut taken)?;
        load += 1;
    }
    Ok(taken)
}

/// Takes one load of a simulation.
fn take_load(
    alloc: Global,
    start: u64,
    sites: u8,
    years: u8,
    load: u32,
    keeper: &mut SteadyKeeper,
    taken: &mut Taken,
) -> Result<(), Memory>
    requires some_sites { 1 ≤ sites }
    requires few_sites { sites ≤ MOST_GENERATED_SITES }
    requires some_years { FEWEST_GENERATED_YEARS ≤ years }
    requires few_years { years ≤ MOST_GENERATED_YEARS }
    requires first { 1 ≤ load }
    requires last { load ≤ load_count sites years }
    requires room { taken.old.lines ≤ 400 * MOST_LINES }
    requires valid { IsOffice taken.old.book }
    requires held { keeper.old.is_held ≡ true }
    ensures held { keeper.new.is_held ≡ true }
    ensures valid { OnOk result (IsOffice taken.new.book) }
    ensures book { OnOk result (taken.new.book ≡ post taken.old.book load (sha256 (generated_load start sites years load)) (generated_load start sites years load)) }
    ensures lines { OnOk result (taken.new.lines ≡ taken.old.lines + line_count (generated_load start sites years load)) }
    ensures few_lines { OnOk result (taken.new.lines ≤ taken.old.lines + MOST_LINES) }
{
    let Some(text) = generate(alloc, start, sites, years, load)? else {
        return Ok(());
    };
    let Ok(body) = Body::new(&text) else {
        return Ok(());
    };
    take(alloc, load, &body, keeper, taken)
}

/// Takes a body as the load with a number. A number that was taken before changes nothing.
fn take(
    alloc: Global,
    number: u32,
    body: &Body<'_>,
    keeper: &mut SteadyKeeper,
    taken: &mut Taken,
) -> Result<(), Memory>
    requires room { taken.old.lines ≤ 400 * MOST_LINES }
    requires valid { IsOffice taken.old.book }
    requires held { keeper.old.is_held ≡ true }
    ensures held { keeper.new.is_held ≡ true }
    ensures valid { OnOk result (IsOffice taken.new.book) }
    ensures book { OnOk result (taken.new.book ≡ post taken.old.book number (sha256 body.now) body.now) }
    ensures lines { OnOk result (taken.new.lines ≡ taken.old.lines + line_count body.now) }
    ensures few_lines { OnOk result (taken.new.lines ≤ taken.old.lines + MOST_LINES) }
{
    post_uncounted(alloc, &mut taken.book, keeper, number, body)?;
    taken.lines += body.line_count();
    Ok(())
}
