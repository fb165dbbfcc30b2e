//! The row of an observation, and the observation that a row says.
ghost use Rattle.std.specs.Prelude.{◌≡◌, true, IfOk, option_map, pos};
ghost use Rattle.std.specs.List.{list_all};
ghost use Rattle.aq_base.specs.declared.observation.ObsKey as key;
ghost use Rattle.aq_base.specs.declared.observation.Observation as content;
ghost use Rattle.aq_rules.specs.Lines.Spellings.{◌>>=◌ as ◌>>-◌, is_in_range};
ghost use Rattle.aq_rules.specs.Office.Office.{Office, fits_monitors, fits_records, is_measured, is_null_code};
ghost use Rattle.aq_rules.specs.Kept.Rows as rows;
ghost use Rattle.aq_rows.specs.Standing.{can_stand};
ghost use Rattle.aq_rows.specs.Observed.{observation_in, site_in, pollutant_in, method_in, quals_in, content_in};

use crate::hours::{hour_in, stored_hour};
use crate::keys::{pollutant_number, site_number};
use crate::ranges::between;
use crate::texts::{words_of, write_codes, write_null};
use aq_base::{
    Bytes, Code, LAST_METHOD, MOST_QUALIFIERS, Memory, MonitorId, ObsKey, Observation, Pollutant,
    Quals, SiteId,
};
use aq_keeper::ObsRow2;
use aq_rd::{is_code_byte, qualifier_in};
use std::alloc::Global;

/// The row of an observation.
pub fn observation_row(
    alloc: Global,
    key: &ObsKey,
    content: &Observation,
) -> Result<ObsRow2, Memory>
    ensures { IfOk result (λ row. row ≡ rows.obs_row (key.now, content.now)) }
{
    let mut null = Vec::new(alloc);
    write_null(&mut null, &content.null)?;
    let mut quals = Vec::new(alloc);
    write_codes(&mut quals, content.quals.codes())?;
    let monitor = &key.monitor;
    Ok(ObsRow2 {
        site: site_number(&monitor.site),
        pollutant: pollutant_number(monitor.pollutant),
        poc: i64::from(monitor.poc),
        hour: stored_hour(key.hour),
        value: wide_value(content.value),
        method: wide_method(content.method),
        null: Bytes::from_vec(null),
        quals: Bytes::from_vec(quals),
    })
}

fn wide_value(value: Option<i32>) -> Option<i64>
    ensures { result ≡ value }
{
    match value {
        Some(value) => Some(i64::from(value)),
        None => None,
    }
}

fn wide_method(method: Option<u16>) -> Option<i64>
    ensures { result ≡ option_map pos method }
{
    match method {
        Some(method) => Some(i64::from(method)),
        None => None,
    }
}

/// The observation that a row says, if the row is the row of that observation, and the observation
/// is one that can stand: its site, POC and hour are in their ranges, and it has a value in range or a
/// null code, at most ten distinct qualifiers, and a method from 0 to 999 or none. It takes no memory.
#[tactic(auto, using(crate::proofs::Observed::read_in_turn))]
pub fn observation_of(row: &ObsRow2) -> Option<(ObsKey, Observation)>
    ensures { result ≡ (rows.observation_of_row row.now >>- rows.only_if can_stand) }
{
    observation_in(row)
}

/// An observation that fits an office can stand, if the office's records fit: a row that says one
/// which cannot is no row of an office.
#[tactic(auto, using(crate::specs::Fitting::fitting_can_stand))]
pub fn fitting_observations_can_stand()
    ensures { (office : Office) (entry : key.ObsKey × content.Observation) → list_all (fits_records office) office.records ≡ true → fits_monitors office entry ≡ true → can_stand entry ≡ true }
{}

#[tactic(auto, unfolding(crate::specs::Observed::observation_in))]
fn observation_in(row: &ObsRow2) -> Option<(ObsKey, Observation)>
    ensures { result ≡ observation_in row.now }
{
    let site = site_in(row.site)?;
    let pollutant = pollutant_in(row.pollutant)?;
    let poc = between(1, 99, row.poc)?;
    let hour = hour_in(row.hour)?;
    let method = method_in(row.method)?;
    let null = null_of(row.null.as_slice())?;
    let quals = quals_in(row.quals.as_slice())?;
    let content = content_in(pollutant, row.value, null, quals, method)?;
    let monitor = MonitorId {
        site,
        pollutant,
        poc: poc as u8,
    };
    Some((ObsKey { monitor, hour }, content))
}

/// The site that a number of at most nine digits names: two of the state, three of the county and four
/// of the site.
fn site_in(number: i64) -> Option<SiteId>
    ensures { result ≡ site_in number }
{
    let number = between(0, 999_999_999, number)?;
    SiteId::new(
        (number / 10_000_000) as u8,
        (number / 10_000 % 1_000) as u16,
        (number % 10_000) as u16,
    )
}

fn pollutant_in(number: i64) -> Option<Pollutant>
    ensures { result ≡ pollutant_in number }
{
    match number {
        1 => Some(Pollutant::Ozone),
        2 => Some(Pollutant::Pm25),
        3 => Some(Pollutant::Pm10),
        _ => None,
    }
}

/// The method of a row, 0 to 999, or none.
#[tactic(auto, using(crate::proofs::Observed::method_between))]
fn method_in(number: Option<i64>) -> Option<Option<u16>>
    ensures { result ≡ method_in number }
{
    let Some(number) = number else {
        return Some(None);
    };
    let method = between(0, u32::from(LAST_METHOD), number)?;
    Some(Some(method as u16))
}

/// The null code of a row, or none if the text is empty.
fn null_of(text: &[u8]) -> Option<Option<Code>>
    ensures { result ≡ rows.null_of text.now }
{
    if text.is_empty() {
        return Some(None);
    }
    let code = qualifier_in(text)?;
    Some(Some(code))
}

/// The qualifiers of a row: codes between single spaces, at most ten and none twice.
#[tactic(auto, using(crate::proofs::Codes::not_new), unfolding(crate::specs::Observed::quals_in))]
fn quals_in(text: &[u8]) -> Option<Quals>
    ensures { result ≡ quals_in text.now }
{
    let mut quals = Quals::new();
    for word in words_of(text) {
        let code = qualifier_in(word)?;
        let count = quals.codes().len();
        if count == MOST_QUALIFIERS {
            return None;
        }
        quals.add(code);
        if quals.codes().len() == count {
            return None;
        }
    }
    Some(quals)
}

/// What an observation has beside its key: a value in its pollutant's range, or a null code of two
/// characters.
fn content_in(
    pollutant: Pollutant,
    value: Option<i64>,
    null: Option<Code>,
    quals: Quals,
    method: Option<u16>,
) -> Option<Observation>
    ensures { result ≡ content_in pollutant value null quals method }
{
    match (value, null) {
        (Some(value), None) if is_in_range(pollutant, value) => Some(Observation {
            value: Some(value as i32),
            null: None,
            quals,
            method,
        }),
        (None, Some(code)) if is_null_code(code) => Some(Observation {
            value: None,
            null: Some(code),
            quals,
            method,
        }),
        _ => None,
    }
}

/// Whether a value is from -0.999 ppm to 9.999 ppm of ozone, or from -99.9 µg/m3 to 9999.9 µg/m3 of PM.
fn is_in_range(pollutant: Pollutant, value: i64) -> bool
    ensures { result ≡ is_in_range pollutant value }
{
    let greatest = match pollutant {
        Pollutant::Ozone => 9_999,
        Pollutant::Pm25 | Pollutant::Pm10 => 99_999,
    };
    -999 <= value && value <= greatest
}

fn is_null_code(code: Code) -> bool
    ensures { result ≡ is_null_code code }
{
    is_code_byte(code.first) && is_code_byte(code.second)
}
