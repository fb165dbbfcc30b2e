//! The records of the office, as lines.
ghost use Rattle.std.specs.Prelude.{◌≡◌, ◌+◌, ◌≤◌, ◌++◌, true, OnOk, IfOk, map, flat_map};
ghost use Rattle.std.specs.Int.{IsInRange};
ghost use Rattle.std.specs.List.{range_with_len};
ghost use Rattle.aq_base.specs.declared.day.TheConstants.{FIRST_YEAR, LAST_YEAR};
ghost use Rattle.aq_base.specs.declared.office.OfficeRecord.TheVariants.{Monitor, Primary, Schedule};
ghost use Rattle.aq_rules.specs.Limits.{MOST_GENERATED_YEARS};
ghost use Rattle.aq_rules.specs.Shown.Generator.{generated_site, generated_records, generated_season, generated_years, office_load, record_text};
ghost use Rattle.aq_simulation.specs.Generator.Samples as samples;

use crate::generator::samples::duration_of;
use aq_base::{Day, Memory, MonitorId, OfficeLine, OfficeRecord, Pollutant, SiteId};
use aq_cal::{day_of, year_span};
use aq_forms::print_office;
use std::alloc::Global;

/// The first generated year.
pub const FIRST_GENERATED_YEAR: u16 = 2021;

/// The lines of the office: the records of each site in order.
pub(crate) fn office_of(alloc: Global, sites: u8, years: u8) -> Result<Vec<u8>, Memory>
    requires { years ≤ MOST_GENERATED_YEARS }
    ensures { IfOk result (λ text. text.items ≡ office_load sites years) }
{
    let mut text = Vec::new(alloc);
    for number in 1..u16::from(sites) + 1 {
        add_site(alloc, &mut text, number, years)?;
    }
    Ok(text)
}

/// A generated site.
pub(crate) fn site_of(number: u16) -> SiteId
    requires { number ≤ 9999 }
    ensures { result ≡ generated_site number }
{
    SiteId::new(99, 1, number).unwrap()
}

// The records of a site.
fn add_site(alloc: Global, text: &mut Vec<u8>, number: u16, years: u8) -> Result<(), Memory>
    requires number { number ≤ 9999 }
    requires years { years ≤ MOST_GENERATED_YEARS }
    ensures { OnOk result (text.new.items ≡ text.old.items ++ flat_map record_text (generated_records years number)) }
{
    let site = site_of(number);
    let (from, _) = year_span(FIRST_GENERATED_YEAR);
    add_monitor(alloc, text, site, Pollutant::Ozone)?;
    add_monitor(alloc, text, site, Pollutant::Pm25)?;
    add_monitor(alloc, text, site, Pollutant::Pm10)?;
    add_primary(alloc, text, site, Pollutant::Ozone, from)?;
    add_primary(alloc, text, site, Pollutant::Pm25, from)?;
    add_primary(alloc, text, site, Pollutant::Pm10, from)?;
    add_schedule(alloc, text, site, Pollutant::Pm25, from, 3)?;
    add_schedule(alloc, text, site, Pollutant::Pm10, from, 6)?;
    add_seasons(alloc, text, number, years)?;
    Ok(())
}

fn add_monitor(
    alloc: Global,
    text: &mut Vec<u8>,
    site: SiteId,
    pollutant: Pollutant,
) -> Result<(), Memory>
    ensures { OnOk result (text.new.items ≡ text.old.items ++ record_text (Monitor (record { site = site; pollutant = pollutant; poc = 1 }) (samples.duration_of pollutant) true)) }
{
    let id = MonitorId {
        site,
        pollutant,
        poc: 1,
    };
    let entry = OfficeRecord::Monitor {
        id,
        duration: duration_of(pollutant),
        eligible: true,
    };
    add_record(alloc, text, entry)
}

fn add_primary(
    alloc: Global,
    text: &mut Vec<u8>,
    site: SiteId,
    pollutant: Pollutant,
    from: Day,
) -> Result<(), Memory>
    ensures { OnOk result (text.new.items ≡ text.old.items ++ record_text (Primary site pollutant from 1)) }
{
    let entry = OfficeRecord::Primary {
        site,
        pollutant,
        from,
        poc: 1,
    };
    add_record(alloc, text, entry)
}

fn add_schedule(
    alloc: Global,
    text: &mut Vec<u8>,
    site: SiteId,
    pollutant: Pollutant,
    from: Day,
    interval: u8,
) -> Result<(), Memory>
    ensures { OnOk result (text.new.items ≡ text.old.items ++ record_text (Schedule site pollutant from interval from)) }
{
    let entry = OfficeRecord::Schedule {
        site,
        pollutant,
        from,
        interval,
        anchor: from,
    };
    add_record(alloc, text, entry)
}

// The ozone seasons of a site, from March 1 to October 31.
fn add_seasons(alloc: Global, text: &mut Vec<u8>, number: u16, years: u8) -> Result<(), Memory>
    requires number { number ≤ 9999 }
    requires years { years ≤ MOST_GENERATED_YEARS }
    ensures { OnOk result (text.new.items ≡ text.old.items ++ flat_map record_text (map (generated_season number) (generated_years years))) }
{
    for year in FIRST_GENERATED_YEAR..FIRST_GENERATED_YEAR + u16::from(years) {
        add_season(alloc, text, number, year)?;
    }
    Ok(())
}

fn add_season(alloc: Global, text: &mut Vec<u8>, number: u16, year: u16) -> Result<(), Memory>
    requires number { number ≤ 9999 }
    requires year { IsInRange FIRST_YEAR LAST_YEAR year }
    ensures { OnOk result (text.new.items ≡ text.old.items ++ record_text (generated_season number year)) }
{
    let entry = OfficeRecord::Season {
        site: site_of(number),
        year,
        first: day_of(year, 3, 1).unwrap(),
        last: day_of(year, 10, 31).unwrap(),
    };
    add_record(alloc, text, entry)
}

fn add_record(alloc: Global, text: &mut Vec<u8>, entry: OfficeRecord) -> Result<(), Memory>
    ensures { OnOk result (text.new.items ≡ text.old.items ++ record_text entry) }
{
    let line = print_office(alloc, &OfficeLine::Put(entry))?;
    text.extend_from_slice(&line)?;
    text.push(b'\n')?;
    Ok(())
}
