//! The PM2.5 and PM10 values of a monitor for the days of a quarter, with one span of its hours.
ghost use Rattle.std.specs.Prelude.{◌≡◌, ℕ, ◌+◌, ◌<◌, ◌≤◌, true, List, Some, None, option_map, IfSome, get_or, length, set};
ghost use Rattle.aq_base.specs.Calendar.{hour_number};
ghost use Rattle.aq_base.specs.Values.{HasValueInRange};
ghost use Rattle.aq_base.specs.declared.day.TheConstants.{LAST_DAY};
ghost use Rattle.aq_base.specs.declared.monitor.Duration.TheVariants.{Hour as HourSamples};
ghost use Rattle.aq_rules.specs.Office.Office.{IsOffice};
ghost use Rattle.aq_rules.specs.Office.Questions.{registration_of};
ghost use Rattle.aq_rules.specs.Ozone.SiteHour.{Cell};
ghost use Rattle.aq_rules.specs.Particles.ParticleDay as particle_day;
ghost use Rattle.aq_rules.specs.Particles.ParticleDay.{day_cell};
ghost use Rattle.aq_registry.specs.Registry.{office_with, pair_of};
ghost use Rattle.aq_series.specs.DayCells.{cell_at, cell_of, cells_in, hours_of, key_at, IsOfParticles, IsParticle, IsParticulate, IsTallyOf};
ghost use Rattle.aq_series.specs.OfficeView.{office_of};
ghost use Rattle.aq_series.specs.declared.day_tally.DayTally.{DayTally};

use crate::day_tally::DayTally;
use crate::days::cell_at;
use crate::exclusion::is_excluded;
use crate::hours::Cell;
use aq_base::{Day, Duration, Hour, MonitorId, Observation, Pollutant, Steps};
use aq_registry::Registry;
use aq_shelf::Shelf;
use std::sync::ledger::Ledger;

/// So many days are read together: the longest quarter has as many.
pub const MOST_DAYS: usize = 92;

/// The values that a monitor has for the hours of each day from the first one on.
#[inline(never)]
pub(crate) fn day_tallies<L: Ledger>(
    shelf: &Shelf,
    registry: &Registry,
    monitor: &MonitorId,
    first: Day,
    steps: &mut Steps<L>,
) -> [DayTally; MOST_DAYS]
    requires particles { IsParticulate monitor.now.pollutant }
    ensures many { length result ≡ 92 }
    ensures tallies { (k : ℕ) (d : DayTally) → k < 92 → IsTallyOf (cells_in registry.now shelf.now monitor.now (hours_of (first + k))) (get_or result k d) }
    ensures values { (k : ℕ) (d : DayTally) → k < 92 → IsOfParticles (get_or result k d) }
{
    let start = 24 * u32::from(first.number());
    let mut days = [DayTally::new(); MOST_DAYS];
    let mut at_hand = DayAtHand {
        place: 0,
        end: start + 24,
        tally: days[0],
    };
    let mut span = shelf.span(*monitor, Hour::new(start), 24 * MOST_DAYS as u32, steps);
    while let Some(item) = span.next_standing() {
        at_hand.turn(&mut days, start, item.0.number());
        let cell = particle_of(registry, monitor, item.0, &item.1);
        at_hand.tally.add(cell);
    }
    days[at_hand.place] = at_hand.tally;
    days
}

/// The day whose hours are read: its place, the hour that ends it, and the tally of its hours so far, which
/// is put into its place only when another day comes.
#[derive(Drop)]
struct DayAtHand {
    place: usize,
    end: u32,
    tally: DayTally,
}

impl DayAtHand {
    ghost use Rattle.std.specs.Prelude.{◌≡◌, ◌+◌, ◌-◌, ◌*◌, ◌/◌, ◌<◌, ◌≤◌, length, set};
    ghost use Rattle.aq_base.specs.declared.day.TheConstants.{LAST_HOUR};

    /// Turns to the day of an hour, which is no earlier day. In the same day nothing is moved.
    fn turn(&mut self, days: &mut [DayTally; MOST_DAYS], start: u32, hour: u32)
        requires start { start ≤ LAST_HOUR }
        requires place { self.old.place < 92 }
        requires end { self.old.end ≡ start + 24 * self.old.place + 24 }
        requires low { start + 24 * self.old.place ≤ hour }
        requires high { hour < start + 2208 }
        ensures many { length days.new ≡ 92 }
        ensures place { self.new.place ≡ (hour - start) / 24 }
        ensures end { self.new.end ≡ start + 24 * self.new.place + 24 }
        ensures same { set days.new self.new.place self.new.tally ≡ set days.old self.old.place self.old.tally }
    {
        if hour >= self.end {
            days[self.place] = self.tally;
            let place = (hour - start) / 24;
            self.place = place as usize;
            self.end = start + 24 * place + 24;
            self.tally = days[self.place];
        }
    }
}

/// The cell of what a monitor has for an hour, if there is a value.
fn particle_of(
    registry: &Registry,
    monitor: &MonitorId,
    hour: Hour,
    content: &Observation,
) -> Option<Cell>
    requires particles { IsParticulate monitor.now.pollutant }
    requires range { HasValueInRange monitor.now.pollutant content.now }
    ensures value { result ≡ cell_of registry.now (key_at monitor.now hour) content.now }
    ensures range { IfSome result (λ cell. IsParticle cell.value) }
{
    let value = content.value?;
    Some(Cell {
        value,
        excluded: is_excluded(registry, monitor, hour, &content.quals),
    })
}

/// What a monitor has for so many days from the first one on, if its samples last so long and its
/// values count.
pub(crate) fn monitor_days<L: Ledger>(
    shelf: &Shelf,
    registry: &Registry,
    monitor: &MonitorId,
    duration: Duration,
    first: Day,
    count: u8,
    steps: &mut Steps<L>,
) -> [Option<Cell>; MOST_DAYS]
    requires particles { IsParticulate monitor.now.pollutant }
    requires valid { IsOffice (office_with registry.now) }
    requires registered { Some (duration, true) ≡ option_map pair_of (registration_of registry.now monitor.now) }
    requires few { count ≤ 92 }
    requires in_profile { first + count ≤ LAST_DAY + 1 }
    ensures many { length result ≡ 92 }
    ensures days { (k : ℕ) → k < count → get_or result k None ≡ particle_day.monitor_day (office_of registry.now shelf.now) monitor.now (first + k) }
    ensures range { (k : ℕ) → IfSome (get_or result k None) (λ cell. IsParticle cell.value) }
{
    // The proof learns that the observations are in order.
    let _ = shelf.count();
    match duration {
        Duration::Hour => {
            let tallies = day_tallies(shelf, registry, monitor, first, steps);
            days_of(&tallies, monitor.pollutant)
        }
        Duration::Day => sampled_days(shelf, registry, monitor, first, count, steps),
    }
}

/// The days that a monitor's hours make.
fn days_of(tallies: &[DayTally; MOST_DAYS], pollutant: Pollutant) -> [Option<Cell>; MOST_DAYS]
    requires particles { IsParticulate pollutant }
    requires values { (k : ℕ) (d : DayTally) → k < 92 → IsOfParticles (get_or tallies.now k d) }
    ensures many { length result ≡ 92 }
    ensures days { (k : ℕ) (d : DayTally) → k < 92 → (cells : List Cell) → IsTallyOf cells (get_or tallies.now k d) → get_or result k None ≡ day_cell pollutant HourSamples cells }
    ensures range { (k : ℕ) → IfSome (get_or result k None) (λ cell. IsParticle cell.value) }
{
    let mut days = [None; MOST_DAYS];
    for i in 0..MOST_DAYS {
        days[i] = tallies[i].day(pollutant);
    }
    days
}

/// The samples of days of a monitor.
fn sampled_days<L: Ledger>(
    shelf: &Shelf,
    registry: &Registry,
    monitor: &MonitorId,
    first: Day,
    count: u8,
    steps: &mut Steps<L>,
) -> [Option<Cell>; MOST_DAYS]
    requires particles { IsParticulate monitor.now.pollutant }
    requires few { count ≤ 92 }
    requires in_profile { first + count ≤ LAST_DAY + 1 }
    ensures many { length result ≡ 92 }
    ensures days { (k : ℕ) → k < count → get_or result k None ≡ cell_at registry.now shelf.now monitor.now (hour_number (first + k) 0) }
    ensures range { (k : ℕ) → IfSome (get_or result k None) (λ cell. IsParticle cell.value) }
{
    let mut days = [None; MOST_DAYS];
    for i in 0..count {
        let hour = 24 * (u32::from(first.number()) + u32::from(i));
        days[usize::from(i)] = cell_at(shelf, registry, monitor, hour, steps);
    }
    days
}
