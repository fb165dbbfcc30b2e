//! The keeper over a database on a disk in memory.
use crate::batches::job::{Answer, End, Job, prepared, work};
use crate::batches::stops::{are_done_or_not, are_prepared_or_not};
use crate::batches::wrong;
use aq_sqlite::SqliteKeeper;
use sqlite::{Connection, FileStore, Files, Options};
use sqlite_disk::{Crash, Disk, Fuse, Memory};
use std::alloc::Global;
use std::io;

/// The bytes of a database's log and of its file.
#[derive(Drop)]
pub struct Images {
    pub log: Vec<u8>,
    pub db: Vec<u8>,
}

impl Images {
    /// Those of a database in which nothing stands.
    pub fn new(alloc: Global) -> Images {
        Images {
            log: Vec::new(alloc),
            db: Vec::new(alloc),
        }
    }
}

/// So many calls of the log and of the file are passed on.
#[derive(Clone, Copy)]
pub struct Calls {
    pub log: u64,
    pub db: u64,
}

pub const ALL: Calls = Calls {
    log: u64::MAX,
    db: u64::MAX,
};

/// A disk that holds bytes and passes so many calls on. What is done with one is generic over it, and what is
/// done with a connection over its store. A function that calls such a one for the store of a disk takes long to
/// check, so there are few.
pub trait Stops: Crash + Drop {
    fn holding(alloc: Global, bytes: &[u8], calls: u64) -> io::Result<Self>;

    fn bytes(&self) -> &[u8];
}

/// A disk in memory, which can be stopped.
pub type Stoppable = Fuse<Memory>;

pub type Store = FileStore<Stoppable>;

impl Stops for Stoppable {
    fn holding(alloc: Global, bytes: &[u8], calls: u64) -> io::Result<Self> {
        let mut disk = Memory::new(alloc);
        disk.write_at(0, bytes)?;
        disk.sync()?;
        Ok(Fuse::new(disk, calls))
    }

    fn bytes(&self) -> &[u8] {
        self.inner().bytes()
    }
}

fn files_of<D: Stops>(alloc: Global, images: &Images, calls: Calls) -> io::Result<Files<D>> {
    let log = D::holding(alloc, images.log.as_slice(), calls.log)?;
    let db = D::holding(alloc, images.db.as_slice(), calls.db)?;
    Ok(Files { log, db })
}

fn images_of<D: Stops>(alloc: Global, files: &Files<D>) -> io::Result<Images> {
    let log = files.log.bytes().to_vec(alloc)?;
    let db = files.db.bytes().to_vec(alloc)?;
    Ok(Images { log, db })
}

/// A connection over files with these bytes, if they can be opened.
pub fn connected<D: Stops>(
    alloc: Global,
    images: &Images,
    calls: Calls,
) -> Option<Connection<FileStore<D>>> {
    match files_of(alloc, images, calls) {
        Ok(files) => opened(alloc, files),
        Err(_) => None,
    }
}

fn opened<D: Disk + Drop>(alloc: Global, files: Files<D>) -> Option<Connection<FileStore<D>>> {
    if !files.may_be_used() {
        return None;
    }
    Connection::open_files(alloc, files, Options::new(1)).ok()
}

/// The connection over files with these bytes, once a job was done with it; nothing if they cannot be opened, or
/// if the job needs it no more.
fn worked<D: Stops>(
    alloc: Global,
    images: &Images,
    calls: Calls,
    job: &Job<'_>,
    answer: &mut Answer,
) -> Option<Connection<FileStore<D>>> {
    work(alloc, connected(alloc, images, calls)?, job, answer)
}

/// The files of a database with which a job was done, once it is closed.
pub fn closed_after<D: Stops>(
    alloc: Global,
    images: &Images,
    job: &Job<'_>,
    answer: &mut Answer,
) -> Option<Images> {
    let connection = worked::<D>(alloc, images, ALL, job, answer)?;
    images_of(alloc, &closed(connection)?).ok()
}

fn closed<D: Disk + Drop>(connection: Connection<FileStore<D>>) -> Option<Files<D>> {
    connection.close_files().ok()
}

/// What a stop leaves of the files of a database with which a job was done.
pub fn crashed_after<D: Stops>(
    alloc: Global,
    images: &Images,
    calls: Calls,
    job: &Job<'_>,
    answer: &mut Answer,
) -> Option<Images> {
    let connection = worked::<D>(alloc, images, calls, job, answer)?;
    images_of(alloc, &crashed(connection)).ok()
}

fn crashed<D: Crash + Drop>(connection: Connection<FileStore<D>>) -> Files<D> {
    let mut files = connection.into_store().close();
    files.log.crash();
    files.db.crash();
    files
}

/// What a job answers that needs no files after it.
pub fn answered<D: Stops>(alloc: Global, images: &Images, job: &Job<'_>) -> Answer {
    let mut answer = Answer::new(alloc);
    let _ = worked::<D>(alloc, images, ALL, job, &mut answer);
    answer
}

/// Whether a database in which these statements were run takes these steps. Wherever it is stopped while it
/// is prepared, it tells the same rows; and what the steps leave of a batch is done or not wherever that is
/// stopped.
pub fn keeps<D: Stops>(alloc: Global, sql: &str, steps: &str) -> io::Result<bool> {
    let images = images_with::<D>(alloc, sql)?;
    if !are_prepared_or_not::<D>(alloc, &images) {
        return Ok(false);
    }
    takes::<D>(alloc, &images, steps)
}

/// The files of a database in which these statements were run.
pub fn images_with<D: Stops>(alloc: Global, sql: &str) -> io::Result<Images> {
    let mut answer = Answer::new(alloc);
    match closed_after::<D>(alloc, &Images::new(alloc), &Job::Runs(sql), &mut answer) {
        Some(images) => Ok(images),
        None => Err(wrong()),
    }
}

fn takes<D: Stops>(alloc: Global, images: &Images, steps: &str) -> io::Result<bool> {
    let mut answer = Answer::new(alloc);
    match closed_after::<D>(alloc, images, &Job::Takes(steps), &mut answer) {
        Some(images) => are_done_or_not::<D>(alloc, &images, &answer),
        None => Ok(false),
    }
}

/// Whether a database in which these statements were run ends so.
pub fn ends<D: Stops>(alloc: Global, sql: &str, end: End<'_>) -> bool {
    answered::<D>(alloc, &Images::new(alloc), &Job::Ends(sql, end)).is_well
}

/// A keeper over a database in which nothing stands, if it can be opened.
pub fn new_keeper(alloc: Global) -> Option<SqliteKeeper<Store>> {
    keeper_over::<Stoppable>(alloc)
}

fn keeper_over<D: Stops>(alloc: Global) -> Option<SqliteKeeper<FileStore<D>>> {
    prepared(alloc, connected(alloc, &Images::new(alloc), ALL)?)
}
