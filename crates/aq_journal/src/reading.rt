//! The bytes of a journal, read.
ghost use Rattle.std.specs.Prelude.{◌≡◌, [], ◌∷◌, ◌++◌, IfOk, OnOk};
ghost use Rattle.aq_journal.specs.JournalFormat.{count_at, whole_at, optional_at, sized_at, record_at, load_at, hour_in, row_in, key_in, change_in, change_at, changes_at, batch_in};
ghost use Rattle.aq_journal.specs.Reading.{Gives, GivesAll};

use crate::trouble::Trouble;
use aq_base::{Bytes, Memory};
use aq_keeper::{LoadRow, ObsRow, ObsRow2, OfficeRow, Row, RowChange, RowKey};
use std::alloc::Global;

/// Bytes that are read from the front on.
#[derive(Drop)]
pub(crate) struct Cursor<'a> {
    pub(crate) rest: &'a [u8],
}

impl<'a> Cursor<'a> {
    ghost use Rattle.std.specs.Prelude.{◌≡◌};

    /// A count in four bytes.
    #[tactic(auto, unfolding(crate::specs::JournalFormat::count_at))]
    pub(crate) fn count(&mut self) -> Result<u32, Trouble>
        ensures { Gives (λ n. n) result self.new.rest.now (count_at self.old.rest.now) }
    {
        if self.rest.len() < 4 {
            return Err(Trouble::Refused);
        }
        let (front, rest) = self.rest.split_at(4);
        self.rest = rest;
        Ok(u32::from_be_bytes([front[0], front[1], front[2], front[3]]))
    }

    /// A whole number in eight bytes.
    #[tactic(auto, unfolding(crate::specs::JournalFormat::whole_at))]
    fn whole(&mut self) -> Result<i64, Trouble>
        ensures { Gives (λ n. n) result self.new.rest.now (whole_at self.old.rest.now) }
    {
        if self.rest.len() < 8 {
            return Err(Trouble::Refused);
        }
        let (front, rest) = self.rest.split_at(8);
        self.rest = rest;
        Ok(i64::from_be_bytes([
            front[0], front[1], front[2], front[3], front[4], front[5], front[6], front[7],
        ]))
    }

    /// A number that may be missing.
    #[tactic(auto, unfolding(crate::specs::JournalFormat::optional_at))]
    fn optional(&mut self) -> Result<Option<i64>, Trouble>
        ensures { Gives (λ n. n) result self.new.rest.now (optional_at self.old.rest.now) }
    {
        let [flag, rest @ ..] = self.rest else {
            return Err(Trouble::Refused);
        };
        self.rest = rest;
        if *flag == 0 {
            Ok(None)
        } else if *flag == 1 {
            Ok(Some(self.whole()?))
        } else {
            Err(Trouble::Refused)
        }
    }

    /// Bytes behind their length.
    #[tactic(auto, unfolding(crate::specs::JournalFormat::sized_at))]
    pub(crate) fn sized(&mut self) -> Result<&'a [u8], Trouble>
        ensures { Gives (λ bytes. bytes.now) result self.new.rest.now (sized_at self.old.rest.now) }
    {
        let size = self.count()? as usize;
        if self.rest.len() < size {
            return Err(Trouble::Refused);
        }
        let (bytes, rest) = self.rest.split_at(size);
        self.rest = rest;
        Ok(bytes)
    }

    /// The same, to be kept.
    fn bytes(&mut self, alloc: Global) -> Result<Bytes, Trouble>
        ensures { Gives (λ bytes. bytes) result self.new.rest.now (sized_at self.old.rest.now) }
    {
        let bytes = self.sized()?;
        Ok(copied(alloc, bytes)?)
    }

    #[tactic(auto, unfolding(crate::specs::JournalFormat::fields_at))]
    fn record(&mut self, alloc: Global) -> Result<OfficeRow, Trouble>
        ensures { Gives (λ row. row) result self.new.rest.now (record_at self.old.rest.now) }
    {
        let kind = self.whole()?;
        let key = self.bytes(alloc)?;
        let line = self.bytes(alloc)?;
        Ok(OfficeRow { kind, key, line })
    }

    #[tactic(auto, unfolding(crate::specs::JournalFormat::fields_at))]
    fn load(&mut self, alloc: Global) -> Result<LoadRow, Trouble>
        ensures { Gives (λ row. row) result self.new.rest.now (load_at self.old.rest.now) }
    {
        let number = self.whole()?;
        let digest = self.bytes(alloc)?;
        let lines = self.whole()?;
        let accepted = self.whole()?;
        let listed = self.bytes(alloc)?;
        let rest = self.bytes(alloc)?;
        Ok(LoadRow {
            number,
            digest,
            lines,
            accepted,
            listed,
            rest,
        })
    }

    /// The row of an hour, which has a method in the second table of observations.
    #[tactic(auto, unfolding(crate::specs::JournalFormat::fields_at))]
    fn hour(&mut self, alloc: Global, has_method: bool) -> Result<Row, Trouble>
        ensures { Gives (λ row. row) result self.new.rest.now (hour_in has_method self.old.rest.now) }
    {
        let site = self.whole()?;
        let pollutant = self.whole()?;
        let poc = self.whole()?;
        let hour = self.whole()?;
        let value = self.optional()?;
        if !has_method {
            return Ok(Row::observation(ObsRow {
                site,
                pollutant,
                poc,
                hour,
                value,
                null: self.bytes(alloc)?,
                quals: self.bytes(alloc)?,
            }));
        }
        Ok(Row::second(ObsRow2 {
            site,
            pollutant,
            poc,
            hour,
            value,
            method: self.optional()?,
            null: self.bytes(alloc)?,
            quals: self.bytes(alloc)?,
        }))
    }

    /// The row of a table.
    #[tactic(auto, unfolding(crate::specs::JournalFormat::row_in))]
    fn row(&mut self, alloc: Global, table: u8) -> Result<Row, Trouble>
        ensures { Gives (λ row. row) result self.new.rest.now (row_in table self.old.rest.now) }
    {
        if table == 0 {
            Ok(Row::office(self.record(alloc)?))
        } else if table == 1 {
            self.hour(alloc, false)
        } else if table == 2 {
            Ok(Row::load(self.load(alloc)?))
        } else if table == 3 {
            self.hour(alloc, true)
        } else {
            Err(Trouble::Refused)
        }
    }

    #[tactic(auto, unfolding(crate::specs::JournalFormat::key_in, crate::specs::JournalFormat::fields_at))]
    fn key(&mut self, alloc: Global, table: u8) -> Result<RowKey, Trouble>
        ensures { Gives (λ key. key) result self.new.rest.now (key_in table self.old.rest.now) }
    {
        if table == 0 {
            let kind = self.whole()?;
            Ok(RowKey::office(kind, self.bytes(alloc)?))
        } else if table == 2 {
            Ok(RowKey::load(self.whole()?))
        } else if table == 1 || table == 3 {
            let site = self.whole()?;
            let pollutant = self.whole()?;
            let poc = self.whole()?;
            let hour = self.whole()?;
            if table == 1 {
                Ok(RowKey::observation(site, pollutant, poc, hour))
            } else {
                Ok(RowKey::second(site, pollutant, poc, hour))
            }
        } else {
            Err(Trouble::Refused)
        }
    }

    /// A change, of which the kind and the table are known.
    #[tactic(auto, unfolding(crate::specs::JournalFormat::change_in))]
    fn change_of(&mut self, alloc: Global, kind: u8, table: u8) -> Result<RowChange, Trouble>
        ensures { Gives (λ change. change) result self.new.rest.now (change_in kind table self.old.rest.now) }
    {
        if kind == 0 {
            Ok(RowChange::put(self.row(alloc, table)?))
        } else if kind == 1 {
            Ok(RowChange::drop(self.key(alloc, table)?))
        } else {
            Err(Trouble::Refused)
        }
    }

    #[tactic(auto, unfolding(crate::specs::JournalFormat::change_at))]
    fn change(&mut self, alloc: Global) -> Result<RowChange, Trouble>
        ensures { Gives (λ change. change) result self.new.rest.now (change_at self.old.rest.now) }
    {
        let [kind, table, rest @ ..] = self.rest else {
            return Err(Trouble::Refused);
        };
        self.rest = rest;
        self.change_of(alloc, *kind, *table)
    }

    /// So many changes.
    fn changes(&mut self, alloc: Global, count: u32) -> Result<Vec<RowChange>, Trouble>
        ensures { Gives (λ changes. changes.items) result self.new.rest.now (changes_at count self.old.rest.now) }
    {
        let mut changes = Vec::new(alloc);
        for _ in 0..count {
            let change = self.change(alloc)?;
            add(&mut changes, change)?;
        }
        Ok(changes)
    }
}

/// A batch, of which these are all bytes.
#[tactic(auto, unfolding(crate::specs::JournalFormat::batch_in))]
pub(crate) fn batch_in(alloc: Global, body: &[u8]) -> Result<Vec<RowChange>, Trouble>
    ensures { GivesAll (λ batch. batch.items) result (batch_in body.now) }
{
    let mut cursor = Cursor { rest: body };
    let count = cursor.count()?;
    let changes = cursor.changes(alloc, count)?;
    if !cursor.rest.is_empty() {
        return Err(Trouble::Refused);
    }
    Ok(changes)
}

/// The same bytes, to be kept.
fn copied(alloc: Global, bytes: &[u8]) -> Result<Bytes, Memory>
    ensures { IfOk result (λ copy. copy ≡ bytes.now) }
{
    Ok(Bytes::from_vec(bytes.to_vec(alloc)?))
}

/// Adds a change.
fn add(changes: &mut Vec<RowChange>, change: RowChange) -> Result<(), Memory>
    ensures { OnOk result (changes.new.items ≡ changes.old.items ++ change ∷ []) }
{
    changes.push(change)?;
    Ok(())
}
