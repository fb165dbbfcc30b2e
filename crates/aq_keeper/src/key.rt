//! Keys of rows, and their order.
ghost use Rattle.std.specs.Prelude.{◌≡◌};
ghost use Rattle.aq_rules.specs.Kept.RowChanges.{batch_before, key_before, is_same_row_key};
ghost use Rattle.aq_keeper.specs.KeyView.{is_load, key_seen, key_order, table_of_key};

use crate::row::copy_of;
use aq_base::{Bytes, Memory};
use std::alloc::Global;
use std::cmp::Ordering;
use std::marker::Model;

/// What a key holds, by its table, in the order of tables.
#[derive(Debug, Drop)]
pub enum KeyContent {
    Office {
        kind: i64,
        key: Bytes,
    },
    Observation {
        site: i64,
        pollutant: i64,
        poc: i64,
        hour: i64,
    },
    Load {
        number: i64,
    },
    Second {
        site: i64,
        pollutant: i64,
        poc: i64,
        hour: i64,
    },
}

/// The key of a row in its table. Contracts see the book's key.
#[derive(Debug, Drop)]
pub struct RowKey {
    pub content: KeyContent,
}

impl Model for RowKey {
    ghost use Rattle.aq_rules.specs.Kept.RowChanges as row_changes;

    ghost Value = { row_changes.RowKey };

    ghost use Rattle.aq_keeper.specs.KeyView.{key_of};

    ghost view = { λ key. key_of key.content };
}

/// A key whose text is lent. The order of tables, and in a table that of its columns, is the order of
/// rows; a text goes by its bytes, and a shorter one before those that it begins.
#[derive(Clone, Copy, Debug, PartialEq, Eq, PartialOrd, Ord)]
pub(crate) enum KeyView<'a> {
    Office {
        kind: i64,
        key: &'a [u8],
    },
    Observation {
        site: i64,
        pollutant: i64,
        poc: i64,
        hour: i64,
    },
    Load {
        number: i64,
    },
    Second {
        site: i64,
        pollutant: i64,
        poc: i64,
        hour: i64,
    },
}

impl RowKey {
    ghost use Rattle.std.specs.Prelude.{◌≡◌, IfOk};
    ghost use Rattle.aq_rules.specs.Kept.RowChanges as row_changes;
    ghost use Rattle.aq_keeper.specs.KeyView.{key_seen};

    /// The key of a record.
    pub fn office(kind: i64, key: Bytes) -> RowKey
        ensures { result ≡ row_changes.OfficeRowKey kind key }
    {
        RowKey {
            content: KeyContent::Office { kind, key },
        }
    }

    /// The key of an observation of version 1.
    pub fn observation(site: i64, pollutant: i64, poc: i64, hour: i64) -> RowKey
        ensures { result ≡ row_changes.ObsRowKey site pollutant poc hour }
    {
        RowKey {
            content: KeyContent::Observation {
                site,
                pollutant,
                poc,
                hour,
            },
        }
    }

    /// The key of a load.
    pub fn load(number: i64) -> RowKey
        ensures { result ≡ row_changes.LoadRowKey number }
    {
        RowKey {
            content: KeyContent::Load { number },
        }
    }

    /// The key of an observation.
    pub fn second(site: i64, pollutant: i64, poc: i64, hour: i64) -> RowKey
        ensures { result ≡ row_changes.SecondRowKey site pollutant poc hour }
    {
        RowKey {
            content: KeyContent::Second {
                site,
                pollutant,
                poc,
                hour,
            },
        }
    }

    /// The same key once more.
    pub fn copy(&self, alloc: Global) -> Result<RowKey, Memory>
        ensures { IfOk result (λ copy. copy ≡ self.now) }
    {
        Ok(match &self.content {
            KeyContent::Office { kind, key } => RowKey::office(*kind, copy_of(alloc, key)?),
            KeyContent::Observation {
                site,
                pollutant,
                poc,
                hour,
            } => RowKey::observation(*site, *pollutant, *poc, *hour),
            KeyContent::Load { number } => RowKey::load(*number),
            KeyContent::Second {
                site,
                pollutant,
                poc,
                hour,
            } => RowKey::second(*site, *pollutant, *poc, *hour),
        })
    }

    pub(crate) fn view(&self) -> KeyView<'_>
        ensures { key_seen result ≡ self.now }
    {
        match &self.content {
            KeyContent::Office { kind, key } => KeyView::Office {
                kind: *kind,
                key: key.as_slice(),
            },
            KeyContent::Observation {
                site,
                pollutant,
                poc,
                hour,
            } => KeyView::Observation {
                site: *site,
                pollutant: *pollutant,
                poc: *poc,
                hour: *hour,
            },
            KeyContent::Load { number } => KeyView::Load { number: *number },
            KeyContent::Second {
                site,
                pollutant,
                poc,
                hour,
            } => KeyView::Second {
                site: *site,
                pollutant: *pollutant,
                poc: *poc,
                hour: *hour,
            },
        }
    }
}

/// Where a key stands to another in the order of tables and keys.
fn compare(a: KeyView<'_>, b: KeyView<'_>) -> Ordering
    ensures { result ≡ key_order (key_seen a.entry) (key_seen b.entry) }
{
    a.cmp(&b)
}

/// Whether a key comes before another in the order of tables and keys.
#[tactic(auto, using(crate::proofs::KeyOrder::before_key))]
pub(crate) fn comes_before(a: KeyView<'_>, b: KeyView<'_>) -> bool
    ensures { result ≡ key_before (key_seen a.entry) (key_seen b.entry) }
{
    compare(a, b).is_lt()
}

/// Whether a key comes before another in a batch, where loads come last.
#[tactic(auto, using(crate::proofs::KeyOrder::batch_by_load))]
pub(crate) fn comes_before_in_batch(a: KeyView<'_>, b: KeyView<'_>) -> bool
    ensures { result ≡ batch_before (key_seen a.entry) (key_seen b.entry) }
{
    if is_load(a) {
        is_load(b) && comes_before(a, b)
    } else {
        is_load(b) || comes_before(a, b)
    }
}

/// Whether a key is that of a load.
fn is_load(key: KeyView<'_>) -> bool
    ensures { result ≡ is_load (key_seen key.entry) }
{
    matches!(key, KeyView::Load { .. })
}

/// The number of a key's table.
pub(crate) fn table_of(key: KeyView<'_>) -> u8
    ensures { result ≡ table_of_key (key_seen key.entry) }
{
    match key {
        KeyView::Office { .. } => 0,
        KeyView::Observation { .. } => 1,
        KeyView::Load { .. } => 2,
        KeyView::Second { .. } => 3,
    }
}

/// Whether two keys are the same.
#[tactic(auto, using(crate::proofs::KeyOrder::same_key))]
pub(crate) fn is_same(a: KeyView<'_>, b: KeyView<'_>) -> bool
    ensures { result ≡ is_same_row_key (key_seen a.entry) (key_seen b.entry) }
{
    compare(a, b).is_eq()
}
