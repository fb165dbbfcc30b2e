//! Rows of the four tables: any that a table can hold, whether an office has them or not.
ghost use Rattle.std.specs.Prelude.{◌≡◌, IfOk};

use crate::key::KeyView;
use aq_base::{Bytes, Items, Memory};
use std::alloc::Global;
use std::marker::Model;

/// A row of the table `records`: a record of the office by its kind, from 1 (a monitor) to 8 (an
/// approved day), and its printed key, with its canonical line. Contracts see the book's row.
#[derive(Debug, Drop)]
pub struct OfficeRow {
    pub kind: i64,
    pub key: Bytes,
    pub line: Bytes,
}

impl Model for OfficeRow {
    ghost use Rattle.aq_rules.specs.Kept.Rows as rows;

    ghost Value = { rows.OfficeRow };

    ghost view = { λ row. record { kind = row.kind; key = row.key; line = row.line } };
}

/// A row of the table `observations`, which version 1 kept: a value in thousandths of a ppm or tenths of a µg/m3, or a null
/// code, and the qualifiers with spaces between them, by site, pollutant, POC and hour. Contracts see
/// the book's row.
#[derive(Debug, Drop)]
pub struct ObsRow {
    /// State, county and site number as one number: `state * 10000000 + county * 10000 + number`.
    pub site: i64,
    /// Ozone 1, PM2.5 2, PM10 3.
    pub pollutant: i64,
    pub poc: i64,
    pub hour: i64,
    pub value: Option<i64>,
    /// Empty, or the code.
    pub null: Bytes,
    pub quals: Bytes,
}

impl Model for ObsRow {
    ghost use Rattle.aq_rules.specs.Kept.Rows as rows;

    ghost Value = { rows.ObsRow };

    ghost view = { λ row. record { site = row.site; pollutant = row.pollutant; poc = row.poc; hour = row.hour; value = row.value; null = row.null; quals = row.quals } };
}

/// A row of the table `observations3`: an observation with its method. Contracts see the book's row.
#[derive(Debug, Drop)]
pub struct ObsRow2 {
    /// State, county and site number as one number: `state * 10000000 + county * 10000 + number`.
    pub site: i64,
    /// Ozone 1, PM2.5 2, PM10 3.
    pub pollutant: i64,
    pub poc: i64,
    pub hour: i64,
    pub value: Option<i64>,
    /// 0 to 999, or none.
    pub method: Option<i64>,
    /// Empty, or the code.
    pub null: Bytes,
    pub quals: Bytes,
}

impl Model for ObsRow2 {
    ghost use Rattle.aq_rules.specs.Kept.Rows as rows;

    ghost Value = { rows.ObsRow2 };

    ghost view = { λ row. record { site = row.site; pollutant = row.pollutant; poc = row.poc; hour = row.hour; value = row.value; method = row.method; null = row.null; quals = row.quals } };
}

/// A row of the table `loads`: a load by its number, with its digest and what became of its lines.
/// `listed` has `line:rule` for each listed line, `rest` has `rule:count`, with spaces between them.
/// Contracts see the book's row.
#[derive(Debug, Drop)]
pub struct LoadRow {
    pub number: i64,
    pub digest: Bytes,
    pub lines: i64,
    pub accepted: i64,
    pub listed: Bytes,
    pub rest: Bytes,
}

impl Model for LoadRow {
    ghost use Rattle.aq_rules.specs.Kept.Rows as rows;

    ghost Value = { rows.LoadRow };

    ghost view = { λ row. record { number = row.number; digest = row.digest; lines = row.lines; accepted = row.accepted; listed = row.listed; rest = row.rest } };
}

/// What a row holds, by its table, in the order of tables.
#[derive(Debug, Drop)]
pub enum RowContent {
    Office(OfficeRow),
    Observation(ObsRow),
    Load(LoadRow),
    Second(ObsRow2),
}

/// A row of one of the tables. Contracts see the book's row.
#[derive(Debug, Drop)]
pub struct Row {
    pub content: RowContent,
}

impl Model for Row {
    ghost use Rattle.aq_rules.specs.Kept.Rows as rows;

    ghost Value = { rows.Row };

    ghost use Rattle.aq_keeper.specs.RowView.{row_of};

    ghost view = { λ row. row_of row.content };
}

/// Rows in the order in which a keeper hands them out.
pub type Rows = Items<Row>;

/// The same bytes once more.
pub(crate) fn copy_of(alloc: Global, bytes: &Bytes) -> Result<Bytes, Memory>
    ensures { IfOk result (λ copy. copy ≡ bytes.now) }
{
    Ok(Bytes::from_vec(bytes.as_slice().to_vec(alloc)?))
}

impl OfficeRow {
    ghost use Rattle.std.specs.Prelude.{◌≡◌, IfOk};

    fn copy(&self, alloc: Global) -> Result<OfficeRow, Memory>
        ensures { IfOk result (λ copy. copy ≡ self.now) }
    {
        Ok(OfficeRow {
            kind: self.kind,
            key: copy_of(alloc, &self.key)?,
            line: copy_of(alloc, &self.line)?,
        })
    }
}

impl ObsRow {
    ghost use Rattle.std.specs.Prelude.{◌≡◌, IfOk};

    fn copy(&self, alloc: Global) -> Result<ObsRow, Memory>
        ensures { IfOk result (λ copy. copy ≡ self.now) }
    {
        Ok(ObsRow {
            site: self.site,
            pollutant: self.pollutant,
            poc: self.poc,
            hour: self.hour,
            value: self.value,
            null: copy_of(alloc, &self.null)?,
            quals: copy_of(alloc, &self.quals)?,
        })
    }
}

impl LoadRow {
    ghost use Rattle.std.specs.Prelude.{◌≡◌, IfOk};

    fn copy(&self, alloc: Global) -> Result<LoadRow, Memory>
        ensures { IfOk result (λ copy. copy ≡ self.now) }
    {
        Ok(LoadRow {
            number: self.number,
            digest: copy_of(alloc, &self.digest)?,
            lines: self.lines,
            accepted: self.accepted,
            listed: copy_of(alloc, &self.listed)?,
            rest: copy_of(alloc, &self.rest)?,
        })
    }
}

impl ObsRow2 {
    ghost use Rattle.std.specs.Prelude.{◌≡◌, IfOk};

    fn copy(&self, alloc: Global) -> Result<ObsRow2, Memory>
        ensures { IfOk result (λ copy. copy ≡ self.now) }
    {
        Ok(ObsRow2 {
            site: self.site,
            pollutant: self.pollutant,
            poc: self.poc,
            hour: self.hour,
            value: self.value,
            method: self.method,
            null: copy_of(alloc, &self.null)?,
            quals: copy_of(alloc, &self.quals)?,
        })
    }
}

impl Row {
    ghost use Rattle.std.specs.Prelude.{◌≡◌, IfOk};
    ghost use Rattle.aq_rules.specs.Kept.Rows as rows;
    ghost use Rattle.aq_rules.specs.Kept.RowChanges.{row_key};
    ghost use Rattle.aq_keeper.specs.KeyView.{key_seen};

    /// A row of the table `records`.
    pub fn office(row: OfficeRow) -> Row
        ensures { result ≡ rows.OfOfficeRow row }
    {
        Row {
            content: RowContent::Office(row),
        }
    }

    /// A row of the table `observations`.
    pub fn observation(row: ObsRow) -> Row
        ensures { result ≡ rows.OfObsRow row }
    {
        Row {
            content: RowContent::Observation(row),
        }
    }

    /// A row of the table `loads`.
    pub fn load(row: LoadRow) -> Row
        ensures { result ≡ rows.OfLoadRow row }
    {
        Row {
            content: RowContent::Load(row),
        }
    }

    /// A row of the table `observations3`.
    pub fn second(row: ObsRow2) -> Row
        ensures { result ≡ rows.OfSecondRow row }
    {
        Row {
            content: RowContent::Second(row),
        }
    }

    /// The same row once more.
    pub fn copy(&self, alloc: Global) -> Result<Row, Memory>
        ensures { IfOk result (λ copy. copy ≡ self.now) }
    {
        Ok(match &self.content {
            RowContent::Office(row) => Row::office(row.copy(alloc)?),
            RowContent::Observation(row) => Row::observation(row.copy(alloc)?),
            RowContent::Load(row) => Row::load(row.copy(alloc)?),
            RowContent::Second(row) => Row::second(row.copy(alloc)?),
        })
    }

    pub(crate) fn key(&self) -> KeyView<'_>
        ensures { key_seen result ≡ row_key self.now }
    {
        match &self.content {
            RowContent::Office(row) => KeyView::Office {
                kind: row.kind,
                key: row.key.as_slice(),
            },
            RowContent::Observation(row) => KeyView::Observation {
                site: row.site,
                pollutant: row.pollutant,
                poc: row.poc,
                hour: row.hour,
            },
            RowContent::Load(row) => KeyView::Load { number: row.number },
            RowContent::Second(row) => KeyView::Second {
                site: row.site,
                pollutant: row.pollutant,
                poc: row.poc,
                hour: row.hour,
            },
        }
    }
}
