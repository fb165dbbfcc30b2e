//! The samples of a site and year, as lines.
ghost use Rattle.std.specs.Prelude.{◌≡◌, ◌+◌, ◌*◌, ◌≤◌, ◌++◌, ◌∷◌, List, map, filter, OnOk, IfOk};
ghost use Rattle.std.specs.Int.{IsInRange};
ghost use Rattle.std.specs.List.{range_with_len};
ghost use Rattle.aq_base.specs.declared.day.TheConstants.{LAST_DAY, LAST_YEAR};
ghost use Rattle.aq_base.specs.declared.monitor.Pollutant.TheVariants.{Ozone};
ghost use Rattle.aq_rules.specs.Shown.Generator.{Wanted, samples_from, wanted_in, generated_start};
ghost use Rattle.aq_simulation.specs.Generator.Samples as samples;
ghost use Rattle.aq_simulation.specs.Generator.Samples.{wanted, wanted_at_midnight, completed, is_due};

use crate::generator::draws::Draws;
use crate::generator::office::{FIRST_GENERATED_YEAR, site_of};
use aq_base::{Day, Duration, Hour, Memory, MonitorId, Pollutant, SiteId};
use aq_cal::{hour_of, year_span};
use aq_rd::{RdLine, print_rd};
use std::alloc::Global;

/// The lines of a load as far as they are written, and where its draws stand.
#[derive(Drop)]
pub(crate) struct Samples {
    text: Vec<u8>,
    draws: Draws,
}

/// The samples of a site and year, drawn from a state: each hour of ozone, then the scheduled days of
/// PM2.5, then those of PM10.
pub(crate) fn samples_of(
    alloc: Global,
    state: u64,
    number: u16,
    year: u16,
) -> Result<Vec<u8>, Memory>
    requires number { number ≤ 9999 }
    requires year { IsInRange FIRST_GENERATED_YEAR LAST_YEAR year }
    ensures { IfOk result (λ text. text.items ≡ samples_from state (wanted_in number year)) }
{
    let site = site_of(number);
    let (start, _) = year_span(FIRST_GENERATED_YEAR);
    let (first, days) = year_span(year);
    let mut samples = Samples {
        text: Vec::new(alloc),
        draws: Draws { state },
    };
    samples.add_hours(alloc, site, first, days)?;
    samples.add_days(alloc, site, Pollutant::Pm25, 3, start, first, days)?;
    samples.add_days(alloc, site, Pollutant::Pm10, 6, start, first, days)?;
    Ok(samples.text)
}

impl Samples {
    // A sample of ozone for each hour of so many days.
    fn add_hours(
        &mut self,
        alloc: Global,
        site: SiteId,
        first: Day,
        days: u16,
    ) -> Result<(), Memory>
        requires { first + days ≤ LAST_DAY + 1 }
        ensures { OnOk result ((more : List Wanted) → completed self.new more ≡ completed self.old (map (wanted site Ozone) (range_with_len (24 * first) (24 * days)) ++ more)) }
    {
        let start = 24 * u32::from(first.number());
        let end = start + 24 * u32::from(days);
        for hour in start..end {
            self.add(alloc, site, Pollutant::Ozone, Hour::new(hour))?;
        }
        Ok(())
    }

    // A sample of a pollutant for each of so many days that is scheduled.
    fn add_days(
        &mut self,
        alloc: Global,
        site: SiteId,
        pollutant: Pollutant,
        interval: u16,
        start: Day,
        first: Day,
        days: u16,
    ) -> Result<(), Memory>
        requires interval { 1 ≤ interval }
        requires start { start ≤ first }
        requires days { first + days ≤ LAST_DAY + 1 }
        ensures { OnOk result ((more : List Wanted) → completed self.new more ≡ completed self.old (map (wanted_at_midnight site pollutant) (filter (is_due interval start) (range_with_len first days)) ++ more)) }
    {
        let end = first.number() + days;
        for day in first.number()..end {
            if (day - start.number()) % interval == 0 {
                self.add(alloc, site, pollutant, hour_of(Day::new(day), 0))?;
            }
        }
        Ok(())
    }

    // A sample's line.
    fn add(
        &mut self,
        alloc: Global,
        site: SiteId,
        pollutant: Pollutant,
        hour: Hour,
    ) -> Result<(), Memory>
        ensures { OnOk result ((more : List Wanted) → completed self.new more ≡ completed self.old (wanted site pollutant hour ∷ more)) }
    {
        let (least, count) = values_of(pollutant);
        let line = RdLine::Put {
            update: false,
            monitor: MonitorId {
                site,
                pollutant,
                poc: 1,
            },
            duration: duration_of(pollutant),
            hour,
            content: self.draws.observation(least, count),
        };
        let text = print_rd(alloc, &line)?;
        self.text.extend_from_slice(&text)?;
        self.text.push(b'\n')?;
        Ok(())
    }
}

/// How long a sample lasts.
pub(crate) fn duration_of(pollutant: Pollutant) -> Duration
    ensures { result ≡ samples.duration_of pollutant }
{
    match pollutant {
        Pollutant::Ozone => Duration::Hour,
        Pollutant::Pm25 | Pollutant::Pm10 => Duration::Day,
    }
}

// The least value that is drawn, in thousandths of a ppm or tenths of a µg/m3, and how many there are.
fn values_of(pollutant: Pollutant) -> (u16, u16)
    ensures least { result.0 ≡ samples.least_of pollutant }
    ensures count { result.1 ≡ samples.count_of pollutant }
{
    match pollutant {
        Pollutant::Ozone => (20, 60),
        Pollutant::Pm25 => (40, 200),
        Pollutant::Pm10 => (100, 1_500),
    }
}
