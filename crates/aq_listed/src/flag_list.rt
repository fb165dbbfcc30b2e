//! The days and codes of a year at which observations ask to be left out, and for how many of them an
//! event stands.
ghost use Rattle.std.specs.Prelude.{◌≡◌, [], ◌∷◌, ◌++◌, if◌then◌else◌, IfOk, OnOk, filter};
ghost use Rattle.std.specs.Int.{IsInRange};
ghost use Rattle.aq_base.specs.declared.day.TheConstants.{FIRST_YEAR, LAST_YEAR};
ghost use Rattle.aq_rules.specs.Listed.Flags as flags;
ghost use Rattle.aq_series.specs.OfficeView.{office_of};
ghost use Rattle.aq_listed.specs.FlagWords.{flag_by, flags_by, is_carried};

use crate::flag_marks::{FlagMarks, flag_marks};
use aq_base::{Code, Day, Hour, Items, Memory, Pollutant, SiteId, Steps};
use aq_cal::year_span;
use aq_registry::Registry;
use aq_shelf::Shelf;
use std::alloc::Global;
use std::marker::Model;
use std::sync::ledger::Ledger;

/// A day and a code: how many observations carry the code then, for how many of them an event of the code
/// stands, and for how many one with a concurrence. Contracts see the book's row.
#[derive(Clone, Copy, Debug, PartialEq, Eq)]
pub struct ListedFlag {
    pub day: Day,
    pub code: Code,
    pub flagged: u32,
    pub covered: u32,
    pub excluded: u32,
}

impl Model for ListedFlag {
    ghost use Rattle.aq_rules.specs.Listed.Flags as flags;

    ghost Value = { flags.ListedFlag };

    ghost view = { λ row. record { day = row.day; code = row.code; flagged = row.flagged; covered = row.covered; excluded = row.excluded } };

    ghost inverse = { λ row. record { day = row.day; code = row.code; flagged = row.flagged; covered = row.covered; excluded = row.excluded } };
}

/// Flags by day and then by code. Contracts see the list of them.
pub type ListedFlags = Items<ListedFlag>;

/// The days of a year and the codes from RA to RZ that an observation of a site and pollutant carries. It
/// costs a walk over the records and one over the observations. The year is 1990 to 2059.
pub fn listed_flags<L: Ledger>(
    alloc: Global,
    shelf: &Shelf,
    registry: &Registry,
    site: SiteId,
    pollutant: Pollutant,
    year: u16,
    steps: &mut Steps<L>,
) -> Result<ListedFlags, Memory>
    requires year { IsInRange FIRST_YEAR LAST_YEAR year }
    ensures { IfOk result (λ rows. rows ≡ flags.listed_flags (office_of registry.now shelf.now) site pollutant year) }
{
    let marks = flag_marks(alloc, shelf, registry, site, steps)?;
    let (first, days) = year_span(year);
    let mut rows = ListedFlags::new(alloc);
    for place in 0..days {
        let day = Day::new(first.number() + place);
        add_day(&mut rows, &marks, pollutant, day)?;
    }
    Ok(rows)
}

/// Adds the rows of a day.
fn add_day(
    rows: &mut ListedFlags,
    marks: &FlagMarks,
    pollutant: Pollutant,
    day: Day,
) -> Result<(), Memory>
    ensures { OnOk result (rows.new ≡ rows.old ++ filter is_carried (flags_by marks.now pollutant day)) }
{
    for place in 0..26u8 {
        let code = Code {
            first: b'R',
            second: b'A' + place,
        };
        let row = listed_flag(marks, pollutant, day, code);
        add_carried(rows, row)?;
    }
    Ok(())
}

/// Adds a row if an observation carries its code.
fn add_carried(rows: &mut ListedFlags, row: ListedFlag) -> Result<(), Memory>
    ensures { OnOk result (rows.new ≡ rows.old ++ (if is_carried row then row ∷ [] else [])) }
{
    if row.flagged > 0 {
        rows.push(row)?;
    }
    Ok(())
}

/// The row of a day and a code.
fn listed_flag(marks: &FlagMarks, pollutant: Pollutant, day: Day, code: Code) -> ListedFlag
    ensures { result ≡ flag_by marks.now pollutant day code }
{
    let start = 24 * u32::from(day.number());
    let (first, last) = (Hour::new(start), Hour::new(start + 23));
    ListedFlag {
        day,
        code,
        flagged: marks.all.count(pollutant, code, first, last),
        covered: marks.covered.count(pollutant, code, first, last),
        excluded: marks.excluded.count(pollutant, code, first, last),
    }
}
