//! The keys of rows.
ghost use Rattle.std.specs.Prelude.{◌≡◌, IfOk, pos};
ghost use Rattle.aq_rules.specs.Kept.RowChanges as row_changes;
ghost use Rattle.aq_rules.specs.Kept.Rows.{site_key};
ghost use Rattle.aq_rules.specs.Office.Office.{kind_of, pollutant_number};

use crate::hours::stored_hour;
use aq_base::{Bytes, Memory, ObsKey, OfficeKey, Pollutant, SiteId};
use aq_forms::print_key;
use aq_keeper::RowKey;
use std::alloc::Global;

/// The key of a record's row: its kind, and its printed key.
pub fn office_key(alloc: Global, key: &OfficeKey) -> Result<RowKey, Memory>
    ensures { IfOk result (λ found. found ≡ row_changes.office_row_key key.now) }
{
    let text = print_key(alloc, key)?;
    Ok(RowKey::office(kind_of(key), Bytes::from_vec(text)))
}

/// A key's kind, from 1 (a monitor) to 9 (a combination).
pub(crate) fn kind_of(key: &OfficeKey) -> i64
    ensures { result ≡ pos (kind_of key.now) }
{
    match key {
        OfficeKey::Monitor { .. } => 1,
        OfficeKey::Primary { .. } => 2,
        OfficeKey::Schedule { .. } => 3,
        OfficeKey::Season { .. } => 4,
        OfficeKey::Makeup { .. } => 5,
        OfficeKey::Event { .. } => 6,
        OfficeKey::Concurrence { .. } => 7,
        OfficeKey::Approved { .. } => 8,
        OfficeKey::Combined { .. } => 9,
    }
}

/// The key of an observation's row.
pub fn observation_key(key: &ObsKey) -> RowKey
    ensures { result ≡ row_changes.obs_row_key key.now }
{
    let monitor = &key.monitor;
    RowKey::second(
        site_number(&monitor.site),
        pollutant_number(monitor.pollutant),
        i64::from(monitor.poc),
        stored_hour(key.hour),
    )
}

/// A site as one number.
pub(crate) fn site_number(site: &SiteId) -> i64
    ensures { result ≡ pos (site_key site.now) }
{
    i64::from(site.state()) * 10_000_000
        + i64::from(site.county()) * 10_000
        + i64::from(site.site())
}

/// A pollutant as the tables have it.
pub(crate) fn pollutant_number(pollutant: Pollutant) -> i64
    ensures { result ≡ pos (pollutant_number pollutant) }
{
    match pollutant {
        Pollutant::Ozone => 1,
        Pollutant::Pm25 => 2,
        Pollutant::Pm10 => 3,
    }
}
