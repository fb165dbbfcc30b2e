//! The ten highest of ranked days.
ghost use Rattle.std.specs.Prelude.{◌≡◌, ◌+◌, ◌≤◌, List, IfOk, OnOk, length, take};
ghost use Rattle.aq_base.specs.declared.day.TheConstants.{LAST_DAY};
ghost use Rattle.aq_rules.specs.Listed.Highest as highest;
ghost use Rattle.aq_reports.specs.Daily.Ranked.{place_in, ranked_from, with_value, IsHighest};

use aq_base::{Day, Memory};
use std::alloc::Global;
use std::marker::Model;

/// So many of the ranked days are listed at most.
pub const TEN: usize = 10;

/// A day that is ranked by its value. Contracts see the book's ranked day.
#[derive(Clone, Copy, Debug, PartialEq, Eq)]
pub struct RankedDay {
    pub day: Day,
    pub value: i32,
}

impl Model for RankedDay {
    ghost use Rattle.aq_rules.specs.Listed.Highest as highest;

    ghost Value = { highest.RankedDay };

    ghost view = { λ row. record { day = row.day; value = row.value } };

    ghost inverse = { λ row. record { day = row.day; value = row.value } };
}

/// How many days are ranked, and the ten highest of them: the greatest value first, and of equal ones the
/// earlier day.
#[derive(Debug, Drop)]
pub struct Highest {
    pub ranked: u32,
    pub days: Vec<RankedDay>,
}

impl Highest {
    /// Adds a day before all others, if it has a value.
    fn add(&mut self, day: Day, value: Option<i32>) -> Result<(), Memory>
        requires { self.old.ranked ≤ LAST_DAY }
        ensures days { OnOk result ((rows : List highest.RankedDay) → IsHighest rows self.old → IsHighest (with_value day value rows) self.new) }
        ensures few { OnOk result (self.new.ranked ≤ self.old.ranked + 1) }
    {
        let Some(value) = value else {
            return Ok(());
        };
        rank_in(&mut self.days, RankedDay { day, value })?;
        self.ranked += 1;
        Ok(())
    }
}

/// The ten highest of the days from the first one on that have a value, and how many have one. It costs a
/// walk over the days, each put into ten at most.
pub fn ten_highest(alloc: Global, first: Day, values: &[Option<i32>]) -> Result<Highest, Memory>
    requires in_profile { first + length values.now ≤ LAST_DAY + 1 }
    ensures { IfOk result (λ found. IsHighest (ranked_from first values.now) found) }
{
    let mut found = Highest {
        ranked: 0,
        days: Vec::new(alloc),
    };
    let mut place = values.len();
    while place > 0 {
        place -= 1;
        let day = Day::new(first.number() + place as u16);
        found.add(day, values[place])?;
    }
    Ok(found)
}

/// Puts a day into a list that falls, before the first one that is not above it, and keeps ten.
fn rank_in(days: &mut Vec<RankedDay>, row: RankedDay) -> Result<(), Memory>
    ensures { OnOk result (days.new.items ≡ take highest.TEN (highest.day_ranked_in row days.old.items)) }
{
    let place = place_of(days.as_slice(), &row);
    days.insert(place, row)?;
    days.truncate(TEN);
    Ok(())
}

/// How many days at the front are above a day.
fn place_of(days: &[RankedDay], row: &RankedDay) -> usize
    ensures place { result ≡ place_in row.now.value days.now }
    ensures within { result ≤ length days.now }
{
    let mut place = 0;
    for other in days {
        if other.value <= row.value {
            return place;
        }
        place += 1;
    }
    place
}
