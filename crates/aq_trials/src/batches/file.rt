//! The keeper of a real file, which stands in the folder that the program runs in.
use crate::batches::database::{Stops, images_with};
use crate::batches::step::{Step, fails, reads, take_steps, text_read};
use aq_keeper::Keeper;
use aq_sqlite::{AtPath, FileKeeper, Holds, LateKeeper, Unknown};
use std::alloc::Global;
use std::{fs, io};

const PATH: &str = "tried.sqlite";

const LOG: &str = "tried.sqlite-wal";

/// A keeper of the file. What is done with one is generic over it, as with a store.
trait OfFile<'a>: Keeper + Drop {
    /// One that tries only once to open the file.
    fn of_file(rt: &'a HostRuntime) -> io::Result<Self>;
}

impl<'a, S: Holds> OfFile<'a> for FileKeeper<'a, S> {
    fn of_file(rt: &'a HostRuntime) -> io::Result<Self> {
        let path = String::from_str(rt.alloc(), PATH)?;
        Ok(LateKeeper::new(AtPath::at_once(rt, path)))
    }
}

/// Makes a file in which these statements were run.
fn make<D: Stops>(rt: &HostRuntime, sql: &str) -> io::Result<()> {
    let images = images_with::<D>(rt.alloc(), sql)?;
    fs::write(rt, PATH, images.db.as_slice())
}

/// Whether a file in which these statements were run takes these steps, from one keeper at a time.
pub fn excludes<D: Stops>(rt: &HostRuntime, sql: &str, steps: &str) -> io::Result<bool> {
    make::<D>(rt, sql)?;
    excludes_from::<Unknown>(rt, steps)
}

/// The same, whatever the file holds at first.
fn excludes_from<'a, S: Holds>(rt: &'a HostRuntime, steps: &str) -> io::Result<bool> {
    excludes_others::<FileKeeper<'a, S>>(rt, steps)
}

fn excludes_others<'a, K: OfFile<'a>>(rt: &'a HostRuntime, steps: &str) -> io::Result<bool> {
    let mut second = K::of_file(rt)?;
    waits(rt, &mut second, steps)
}

/// Whether a keeper waits while the first one takes these steps, and ever after.
fn waits<'a, K: OfFile<'a>>(rt: &'a HostRuntime, second: &mut K, steps: &str) -> io::Result<bool> {
    let stands = stands_first(rt, second, steps)?;
    // The file stands for itself. What was refused once is not tried again.
    fs::remove_file(rt, LOG)?;
    let is_well = fails(rt.alloc(), second) && stands_again::<K>(rt, stands.as_str())?;
    fs::remove_file(rt, LOG)?;
    fs::remove_file(rt, PATH)?;
    Ok(is_well)
}

/// The rows that stand once the first keeper took these steps; no text if not all is well.
fn stands_first<'a, K: OfFile<'a>>(
    rt: &'a HostRuntime,
    second: &mut K,
    steps: &str,
) -> io::Result<String> {
    let mut first = K::of_file(rt)?;
    taken_alone(rt.alloc(), &mut first, second, steps)
}

fn taken_alone<K: Keeper>(
    alloc: Global,
    first: &mut K,
    second: &mut K,
    steps: &str,
) -> io::Result<String> {
    if is_taken_alone(alloc, first, second, steps)? {
        text_read(alloc, first)
    } else {
        Ok(String::new(alloc))
    }
}

fn is_taken_alone<K: Keeper>(
    alloc: Global,
    first: &mut K,
    second: &mut K,
    steps: &str,
) -> io::Result<bool> {
    if text_read(alloc, first)?.as_str().is_empty() || !fails(alloc, second) {
        return Ok(false);
    }
    let mut step = Step::new(alloc);
    Ok(take_steps(alloc, first, steps, &mut step)? && fails(alloc, second))
}

/// Whether a further keeper finds these rows, and another one after it.
fn stands_again<'a, K: OfFile<'a>>(rt: &'a HostRuntime, rows: &str) -> io::Result<bool> {
    let mut third = K::of_file(rt)?;
    Ok(goes(rt.alloc(), &mut third, rows)? && is_free::<K>(rt, rows)?)
}

/// Whether a keeper finds these rows. What is let go is free, and its keeper answers no more.
fn goes<K: Keeper>(alloc: Global, keeper: &mut K, rows: &str) -> io::Result<bool> {
    let is_found = finds(alloc, keeper, rows)?;
    keeper.let_go();
    Ok(is_found && fails(alloc, keeper))
}

fn is_free<'a, K: OfFile<'a>>(rt: &'a HostRuntime, rows: &str) -> io::Result<bool> {
    let mut last = K::of_file(rt)?;
    finds(rt.alloc(), &mut last, rows)
}

/// Whether a keeper finds these rows, which are some.
fn finds<K: Keeper>(alloc: Global, keeper: &mut K, rows: &str) -> io::Result<bool> {
    let found = text_read(alloc, keeper)?;
    Ok(!rows.is_empty() && found.as_str() == rows)
}

/// Whether a file that is no database is refused and stays. Where there is none, the next keeper makes it.
pub fn leaves_what_is_no_database(rt: &HostRuntime) -> io::Result<bool> {
    leaves_from::<Unknown>(rt)
}

/// The same, whatever the file holds at first.
fn leaves_from<'a, S: Holds>(rt: &'a HostRuntime) -> io::Result<bool> {
    leaves::<FileKeeper<'a, S>>(rt)
}

const NO_DATABASE: &[u8] = b"not a database";

fn leaves<'a, K: OfFile<'a>>(rt: &'a HostRuntime) -> io::Result<bool> {
    fs::write(rt, PATH, NO_DATABASE)?;
    let is_refused = refuses::<K>(rt)?;
    let left = fs::read(rt, PATH)?;
    fs::remove_file(rt, PATH)?;
    let is_made = makes::<K>(rt)?;
    fs::remove_file(rt, LOG)?;
    fs::remove_file(rt, PATH)?;
    Ok(is_refused && left.as_slice() == NO_DATABASE && is_made)
}

fn refuses<'a, K: OfFile<'a>>(rt: &'a HostRuntime) -> io::Result<bool> {
    let mut keeper = K::of_file(rt)?;
    Ok(fails(rt.alloc(), &mut keeper))
}

fn makes<'a, K: OfFile<'a>>(rt: &'a HostRuntime) -> io::Result<bool> {
    let mut keeper = K::of_file(rt)?;
    reads(rt.alloc(), &mut keeper, &[])
}
