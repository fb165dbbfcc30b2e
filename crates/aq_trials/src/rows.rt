//! Rows of the tables as text, both ways, with `, ` between the columns, and `-` for one that has nothing:
//!
//! - `records KIND, KEY, LINE`
//! - `observations SITE, POLLUTANT, POC, HOUR, VALUE, NULL CODE, QUALIFIERS`, which version 1 kept
//! - `loads NUMBER, DIGEST, LINES, ACCEPTED, LISTED, REST`, the digest as hex digits
//! - `observations3 SITE, POLLUTANT, POC, HOUR, VALUE, METHOD, NULL CODE, QUALIFIERS`
use crate::trouble::Trouble;
use aq_base::{Bytes, Memory};
use aq_keeper::{LoadRow, ObsRow, ObsRow2, OfficeRow, Row, RowContent, RowKey};
use std::alloc::Global;

const NO_ROW: Trouble = Trouble::Wrong("no row");

/// The rows of a text, in order.
pub fn read_rows(alloc: Global, text: &[u8]) -> Result<Vec<Row>, Trouble> {
    let mut rows = Vec::new(alloc);
    add_rows(alloc, text, &mut rows)?;
    Ok(rows)
}

fn add_rows(alloc: Global, text: &[u8], rows: &mut Vec<Row>) -> Result<(), Trouble> {
    let Ok(text) = str::from_utf8(text) else {
        return Err(NO_ROW);
    };
    for line in text.lines() {
        add_read(alloc, line, rows)?;
    }
    Ok(())
}

fn add_read(alloc: Global, line: &str, rows: &mut Vec<Row>) -> Result<(), Trouble> {
    let row = read_row(alloc, line)?;
    Ok(rows.push(row)?)
}

/// The columns of a line that are not read yet, and what was wrong with those that were.
#[derive(Drop)]
struct Columns<'a> {
    alloc: Global,
    rest: &'a str,
    trouble: Option<Trouble>,
}

impl<'a> Columns<'a> {
    /// The next column, behind which others stand.
    fn next(&mut self) -> &'a str {
        match self.rest.split_once(", ") {
            Some((column, rest)) => {
                self.rest = rest;
                column
            }
            None => {
                self.trouble = Some(NO_ROW);
                ""
            }
        }
    }

    fn number(&mut self) -> i64 {
        let column = self.next();
        self.number_in(column)
    }

    fn number_in(&mut self, column: &str) -> i64 {
        match column.parse() {
            Ok(number) => number,
            Err(_) => {
                self.trouble = Some(NO_ROW);
                0
            }
        }
    }

    /// The next column as a number, or none.
    fn option(&mut self) -> Option<i64> {
        match self.next() {
            "-" => None,
            column => Some(self.number_in(column)),
        }
    }

    fn bytes(&mut self) -> Bytes {
        let column = self.next();
        self.bytes_in(column)
    }

    /// The last column, whatever stands in it.
    fn last(&mut self) -> Bytes {
        self.bytes_in(self.rest)
    }

    fn bytes_in(&mut self, column: &str) -> Bytes {
        if column == "-" {
            return Bytes::new(self.alloc);
        }
        match column.as_bytes().to_vec(self.alloc) {
            Ok(bytes) => Bytes::from_vec(bytes),
            Err(_) => {
                self.trouble = Some(Trouble::Memory);
                Bytes::new(self.alloc)
            }
        }
    }

    fn digest(&mut self) -> Bytes {
        let column = self.next();
        if column == "-" {
            return Bytes::new(self.alloc);
        }
        match hex::decode(self.alloc, column) {
            Ok(bytes) => Bytes::from_vec(bytes),
            Err(_) => {
                self.trouble = Some(NO_ROW);
                Bytes::new(self.alloc)
            }
        }
    }

    fn record(&mut self) -> OfficeRow {
        OfficeRow {
            kind: self.number(),
            key: self.bytes(),
            line: self.last(),
        }
    }

    fn observation(&mut self) -> ObsRow {
        ObsRow {
            site: self.number(),
            pollutant: self.number(),
            poc: self.number(),
            hour: self.number(),
            value: self.option(),
            null: self.bytes(),
            quals: self.last(),
        }
    }

    /// An observation of version 1, with a method between its value and its null code.
    fn second(&mut self) -> ObsRow2 {
        ObsRow2 {
            site: self.number(),
            pollutant: self.number(),
            poc: self.number(),
            hour: self.number(),
            value: self.option(),
            method: self.option(),
            null: self.bytes(),
            quals: self.last(),
        }
    }

    fn load(&mut self) -> LoadRow {
        LoadRow {
            number: self.number(),
            digest: self.digest(),
            lines: self.number(),
            accepted: self.number(),
            listed: self.bytes(),
            rest: self.last(),
        }
    }

    fn row(&mut self, table: &str) -> Option<Row> {
        match table {
            "records" => Some(Row::office(self.record())),
            "observations" => Some(Row::observation(self.observation())),
            "loads" => Some(Row::load(self.load())),
            "observations3" => Some(Row::second(self.second())),
            _ => None,
        }
    }

    fn key(&mut self, table: &str) -> Option<RowKey> {
        if table == "loads" {
            return Some(RowKey::load(self.number_in(self.rest)));
        }
        let (site, pollutant, poc) = (self.number(), self.number(), self.number());
        let hour = self.number_in(self.rest);
        match table {
            "observations" => Some(RowKey::observation(site, pollutant, poc, hour)),
            "observations3" => Some(RowKey::second(site, pollutant, poc, hour)),
            _ => None,
        }
    }
}

/// The name of a line's table, and its columns.
fn columns_of(alloc: Global, line: &str) -> (&str, Columns<'_>) {
    let (table, rest) = match line.split_once(' ') {
        Some(parts) => parts,
        None => (line, ""),
    };
    let columns = Columns {
        alloc,
        rest,
        trouble: None,
    };
    (table, columns)
}

/// The row of a line.
pub fn read_row(alloc: Global, line: &str) -> Result<Row, Trouble> {
    let (table, mut columns) = columns_of(alloc, line);
    match columns.row(table) {
        Some(row) => well(row, columns.trouble),
        None => Err(NO_ROW),
    }
}

/// The key of a load, `loads NUMBER`, or of an observation, `TABLE SITE, POLLUTANT, POC, HOUR`.
pub fn read_key(alloc: Global, line: &str) -> Result<RowKey, Trouble> {
    let (table, mut columns) = columns_of(alloc, line);
    match columns.key(table) {
        Some(key) => well(key, columns.trouble),
        None => Err(NO_ROW),
    }
}

/// What was read, if nothing was wrong with it.
fn well<T: Drop>(read: T, trouble: Option<Trouble>) -> Result<T, Trouble> {
    match trouble {
        None => Ok(read),
        Some(trouble) => Err(trouble),
    }
}

/// The text of rows, a line for each.
pub fn rows_text(alloc: Global, rows: &[Row]) -> Result<String, Memory> {
    let mut text = String::new(alloc);
    for row in rows {
        add_row(alloc, &mut text, row)?;
    }
    Ok(text)
}

fn add_row(alloc: Global, text: &mut String, row: &Row) -> Result<(), Memory> {
    match &row.content {
        RowContent::Office(row) => add_record(alloc, text, row),
        RowContent::Observation(row) => add_observation(alloc, text, row),
        RowContent::Load(row) => add_load(alloc, text, row),
        RowContent::Second(row) => add_second(alloc, text, row),
    }
}

fn add_record(alloc: Global, text: &mut String, row: &OfficeRow) -> Result<(), Memory> {
    text.push_str("records ")?;
    add_number(alloc, text, row.kind)?;
    add_bytes(alloc, text, &row.key, ", ")?;
    add_bytes(alloc, text, &row.line, "\n")
}

fn add_observation(alloc: Global, text: &mut String, row: &ObsRow) -> Result<(), Memory> {
    text.push_str("observations ")?;
    add_place(alloc, text, row.site, row.pollutant, row.poc, row.hour)?;
    add_option(alloc, text, row.value)?;
    add_bytes(alloc, text, &row.null, ", ")?;
    add_bytes(alloc, text, &row.quals, "\n")
}

fn add_second(alloc: Global, text: &mut String, row: &ObsRow2) -> Result<(), Memory> {
    text.push_str("observations3 ")?;
    add_place(alloc, text, row.site, row.pollutant, row.poc, row.hour)?;
    add_option(alloc, text, row.value)?;
    add_option(alloc, text, row.method)?;
    add_bytes(alloc, text, &row.null, ", ")?;
    add_bytes(alloc, text, &row.quals, "\n")
}

fn add_load(alloc: Global, text: &mut String, row: &LoadRow) -> Result<(), Memory> {
    text.push_str("loads ")?;
    add_number(alloc, text, row.number)?;
    add_digest(alloc, text, &row.digest)?;
    add_number(alloc, text, row.lines)?;
    add_number(alloc, text, row.accepted)?;
    add_bytes(alloc, text, &row.listed, ", ")?;
    add_bytes(alloc, text, &row.rest, "\n")
}

fn add_digest(alloc: Global, text: &mut String, digest: &Bytes) -> Result<(), Memory> {
    let digits = hex::encode(alloc, digest.as_slice())?;
    text.push_str(digits.as_str())?;
    Ok(text.push_str(", ")?)
}

fn add_place(
    alloc: Global,
    text: &mut String,
    site: i64,
    pollutant: i64,
    poc: i64,
    hour: i64,
) -> Result<(), Memory> {
    add_number(alloc, text, site)?;
    add_number(alloc, text, pollutant)?;
    add_number(alloc, text, poc)?;
    add_number(alloc, text, hour)
}

/// Adds a column that is a number, before another one.
fn add_number(alloc: Global, text: &mut String, number: i64) -> Result<(), Memory> {
    Ok(text.push_str(format!(in alloc; "{number}, ")?.as_str())?)
}

fn add_option(alloc: Global, text: &mut String, number: Option<i64>) -> Result<(), Memory> {
    match number {
        Some(number) => add_number(alloc, text, number),
        None => Ok(text.push_str("-, ")?),
    }
}

/// Adds a column of bytes, and what stands behind it.
fn add_bytes(alloc: Global, text: &mut String, bytes: &Bytes, end: &str) -> Result<(), Memory> {
    if bytes.as_slice().is_empty() {
        text.push_str("-")?;
    } else {
        text.push_str(String::from_utf8_lossy(alloc, bytes.as_slice())?.as_str())?;
    }
    Ok(text.push_str(end)?)
}
