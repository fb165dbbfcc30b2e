//! The commit of a year of hours to a file, by either keeper.
use aq_base::{Bytes, Memory};
use aq_file::{AtName, FileDisk};
use aq_journal::JournalKeeper;
use aq_keeper::{Keeper, KeeperFault, LoadRow, ObsRow2, OfficeRow, Row, RowChange, do_keys_rise};
use aq_sqlite::{AtPath, FileKeeper, Holds, LateKeeper, Unknown};
use std::alloc::Global;
use std::io::{self, ErrorKind};
use std::time::{Duration, Instant};

/// The year's hours stand at the site 06-037-0002, from the first hour of 2024 on.
const SITE: i64 = 60_370_002;

const FIRST_HOUR: i64 = 24 * (24 * 365 + 6);

const HOURS: u16 = 8_784;

/// The load that has them, and its monitor.
const NUMBER: i64 = 4_000_000_000;

/// What a keeper of a file took, and how many rows stood in it.
#[derive(Drop)]
pub struct CommitTimes {
    pub rows: usize,
    pub reading: Duration,
    pub commit: Duration,
}

/// What the keeper of a file of tables takes.
pub fn table_times(rt: &HostRuntime, path: &str) -> io::Result<CommitTimes> {
    table_times_from::<Unknown>(rt, path)
}

/// The same, whatever the file holds at first.
fn table_times_from<S: Holds>(rt: &HostRuntime, path: &str) -> io::Result<CommitTimes> {
    let path = String::from_str(rt.alloc(), path)?;
    let mut keeper: FileKeeper<'_, S> = LateKeeper::new(AtPath::new(rt, path));
    commit_times(rt, &mut keeper)
}

/// What the keeper of a journal takes, which is a file of the working folder.
pub fn journal_times(rt: &HostRuntime, name: &str) -> io::Result<CommitTimes> {
    let file = AtName::<Unknown>::new(rt, name);
    let mut keeper = JournalKeeper::new(FileDisk::new(rt.alloc(), file));
    commit_times(rt, &mut keeper)
}

/// Reads all rows, which opens the file, and then commits a year of hours: each by the clock.
fn commit_times<K: Keeper>(rt: &HostRuntime, keeper: &mut K) -> io::Result<CommitTimes> {
    let alloc = rt.alloc();
    let Ok(batch) = year_of_hours(alloc) else {
        return Err(io::Error::from(ErrorKind::OutOfMemory));
    };
    let start = Instant::now(rt)?;
    let rows = row_count(alloc, keeper)?;
    let reading = start.elapsed(rt)?;
    let start = Instant::now(rt)?;
    commit(alloc, keeper, &batch)?;
    let commit = start.elapsed(rt)?;
    Ok(CommitTimes {
        rows,
        reading,
        commit,
    })
}

fn row_count<K: Keeper>(alloc: Global, keeper: &mut K) -> io::Result<usize> {
    match keeper.read_all(alloc) {
        Ok(rows) => Ok(rows.as_slice().len()),
        Err(fault) => Err(error_of(fault)),
    }
}

fn commit<K: Keeper>(alloc: Global, keeper: &mut K, batch: &[RowChange]) -> io::Result<()> {
    if !do_keys_rise(batch) {
        return Err(io::Error::from(ErrorKind::InvalidData));
    }
    match keeper.commit(alloc, batch) {
        Ok(()) => Ok(()),
        Err(fault) => Err(error_of(fault)),
    }
}

fn error_of(fault: KeeperFault) -> io::Error {
    io::Error::from(match fault {
        KeeperFault::Memory => ErrorKind::OutOfMemory,
        KeeperFault::Failed => ErrorKind::Other,
    })
}

/// The changes of rows of a load: a monitor, a year of its hours, and the load's own row.
fn year_of_hours(alloc: Global) -> Result<Vec<RowChange>, Memory> {
    let mut batch = Vec::new(alloc);
    batch.push(RowChange::put(monitor(alloc)?))?;
    for number in 0..HOURS {
        batch.push(RowChange::put(hour(alloc, number)))?;
    }
    batch.push(RowChange::put(load(alloc)?))?;
    Ok(batch)
}

fn monitor(alloc: Global) -> Result<Row, Memory> {
    Ok(Row::office(OfficeRow {
        kind: 1,
        key: bytes(alloc, b"06|037|0002|44201|01")?,
        line: bytes(alloc, b"XM|I|06|037|0002|44201|1|1|Y")?,
    }))
}

fn hour(alloc: Global, number: u16) -> Row {
    Row::second(ObsRow2 {
        site: SITE,
        pollutant: 1,
        poc: 1,
        hour: FIRST_HOUR + i64::from(number),
        value: Some(20 + i64::from(number % 60)),
        method: Some(87),
        null: Bytes::new(alloc),
        quals: Bytes::new(alloc),
    })
}

fn load(alloc: Global) -> Result<Row, Memory> {
    Ok(Row::load(LoadRow {
        number: NUMBER,
        digest: bytes(alloc, &[0; 32])?,
        lines: i64::from(HOURS) + 1,
        accepted: i64::from(HOURS) + 1,
        listed: Bytes::new(alloc),
        rest: Bytes::new(alloc),
    }))
}

fn bytes(alloc: Global, text: &[u8]) -> Result<Bytes, Memory> {
    Ok(Bytes::from_vec(text.to_vec(alloc)?))
}
