//! Values of PM2.5 or PM10 taken together: the hours of a monitor's day, or the monitors of a site's day.
ghost use Rattle.std.specs.Prelude.{◌≡◌, [], IfSome};
ghost use Rattle.aq_series.specs.DayCells.{IsOfParticles, IsParticle, IsParticulate, IsTallyOf};

use crate::hours::Cell;
use aq_base::Pollutant;

/// So many hours make a day.
const ENOUGH_HOURS: u8 = 18;

/// With fewer hours there is a PM2.5 day only if this is their least sum: 24 hours of 35.5 µg/m3, the
/// least mean that is above the level of 35 once it is rounded.
const LEAST_HIGH_SUM: i32 = 24 * 355;

/// Values in tenths of a µg/m3: how many, their sum, and whether one of them is excluded.
#[derive(Clone, Copy)]
pub(crate) struct DayTally {
    sum: i32,
    count: u8,
    excluded: bool,
}

impl DayTally {
    ghost use Rattle.std.specs.Prelude.{◌≡◌, ◌<◌, ◌≤◌, ◌+◌, [], ◌++◌, List, IfSome};
    ghost use Rattle.std.specs.Option.{option_to_list};
    ghost use Rattle.aq_base.specs.declared.monitor.Duration.TheVariants.{Hour};
    ghost use Rattle.aq_rules.specs.Ozone.SiteHour.{Cell};
    ghost use Rattle.aq_rules.specs.Particles.ParticleDay.{day_cell};
    ghost use Rattle.aq_series.specs.DayCells.{mean_of, IsOfParticles, IsParticle, IsParticulate, IsTallyOf};

    /// No values.
    pub(crate) fn new() -> DayTally
        ensures tally { IsTallyOf [] result }
        ensures count { result.count ≡ 0 }
        ensures values { IsOfParticles result }
    {
        DayTally {
            sum: 0,
            count: 0,
            excluded: false,
        }
    }

    /// With one more value, if there is one.
    pub(crate) fn with(self, cell: Option<Cell>) -> DayTally
        requires values { IsOfParticles self }
        requires count { self.count < 24 }
        requires value { IfSome cell (λ cell. IsParticle cell.value) }
        ensures tally { (before : List Cell) → IsTallyOf before self → IsTallyOf (before ++ option_to_list cell) result }
        ensures count { result.count ≤ self.count + 1 }
        ensures values { IsOfParticles result }
    {
        match cell {
            Some(cell) => DayTally {
                sum: self.sum + cell.value,
                count: self.count + 1,
                excluded: self.excluded || cell.excluded,
            },
            None => self,
        }
    }

    /// Adds one more value, if there is one, where the tally stands.
    pub(crate) fn add(&mut self, cell: Option<Cell>)
        requires values { IsOfParticles self.old }
        requires count { self.old.count < 24 }
        requires value { IfSome cell (λ cell. IsParticle cell.value) }
        ensures tally { (before : List Cell) → IsTallyOf before self.old → IsTallyOf (before ++ option_to_list cell) self.new }
        ensures count { self.new.count ≤ self.old.count + 1 }
        ensures values { IsOfParticles self.new }
    {
        if let Some(cell) = cell {
            self.sum += cell.value;
            self.count += 1;
            if cell.excluded {
                self.excluded = true;
            }
        }
    }

    /// The mean, truncated, if there are values.
    pub(crate) fn mean(self) -> Option<Cell>
        requires { IsOfParticles self }
        ensures value { (before : List Cell) → IsTallyOf before self → result ≡ mean_of before }
        ensures range { IfSome result (λ cell. IsParticle cell.value) }
    {
        if self.count == 0 {
            return None;
        }
        Some(Cell {
            value: self.sum / i32::from(self.count),
            excluded: self.excluded,
        })
    }

    /// The day that these hours of a monitor make: their mean, truncated, if there are 18 or more;
    /// for PM2.5 also their sum over 24 if that is 35.5 µg/m3 or more.
    pub(crate) fn day(self, pollutant: Pollutant) -> Option<Cell>
        requires values { IsOfParticles self }
        requires particles { IsParticulate pollutant }
        ensures value { (before : List Cell) → IsTallyOf before self → result ≡ day_cell pollutant Hour before }
        ensures range { IfSome result (λ cell. IsParticle cell.value) }
    {
        let value = if self.count >= ENOUGH_HOURS {
            self.sum / i32::from(self.count)
        } else if pollutant == Pollutant::Pm25 && self.sum >= LEAST_HIGH_SUM {
            self.sum / 24
        } else {
            return None;
        };
        Some(Cell {
            value,
            excluded: self.excluded,
        })
    }
}
