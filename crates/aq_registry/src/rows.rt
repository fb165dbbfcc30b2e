//! All records that stand.
ghost use Rattle.std.specs.Iterator.{YieldsFirst, item_count};

use crate::place::Place;
use aq_base::OfficeRecord;
use std::collections::btree_map::Iter;
use std::iter::Iterator;
use std::marker::Model;

/// The records that stand, in the order of rows. Contracts see the list of what is left.
#[derive(Drop)]
pub struct Rows<'a> {
    behind: Iter<'a, Place, OfficeRecord>,
}

impl<'a> Model for Rows<'a> {
    ghost use Rattle.std.specs.Prelude.{List};
    ghost use Rattle.std.specs.Map.{values_of};
    ghost use Rattle.aq_base.specs.declared.office.OfficeRecord.{OfficeRecord};

    ghost Value = { List OfficeRecord };

    ghost view = { λ rows. values_of rows.behind };
}

impl<'a> Rows<'a> {
    ghost use Rattle.std.specs.Prelude.{◌≡◌};
    ghost use Rattle.std.specs.Map.{values_of};

    /// The records of a map's entries.
    pub(crate) fn new(entries: Iter<'a, Place, OfficeRecord>) -> Rows<'a>
        ensures { result ≡ values_of entries.entry }
    {
        Rows { behind: entries }
    }
}

impl<'a> Iterator for Rows<'a> {
    type Item = OfficeRecord;

    ghost next_gives = { YieldsFirst (λ rest. rest) };

    ghost remaining = { item_count (λ rest. rest) };

    fn next(&mut self) -> Option<OfficeRecord> {
        let (_, record) = self.behind.next()?;
        Some(*record)
    }
}
