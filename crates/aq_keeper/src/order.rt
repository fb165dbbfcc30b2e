//! Whether rows are in the order of tables and keys, and changes of rows in that of a batch.
ghost use Rattle.std.specs.Prelude.{◌≡◌, map};
ghost use Rattle.aq_rules.specs.Kept.RowChanges.{batch_rises, row_key, changed_key, keys_rise};

use crate::change::RowChange;
use crate::key::{comes_before, comes_before_in_batch};
use crate::row::Row;

/// Whether rows are in the order of tables and keys, and no two have one key.
pub fn are_in_order(rows: &[Row]) -> bool
    ensures { result ≡ keys_rise (map row_key rows.now) }
{
    let Some((first, rest)) = rows.split_first() else {
        return true;
    };
    let mut before = first;
    for row in rest {
        if !comes_before(before.key(), row.key()) {
            return false;
        }
        before = row;
    }
    true
}

/// Whether the keys of changes rise in the order of a batch, and no two are the same.
pub fn do_keys_rise(batch: &[RowChange]) -> bool
    ensures { result ≡ batch_rises (map changed_key batch.now) }
{
    let Some((first, rest)) = batch.split_first() else {
        return true;
    };
    let mut before = first;
    for change in rest {
        if !comes_before_in_batch(before.key(), change.key()) {
            return false;
        }
        before = change;
    }
    true
}
