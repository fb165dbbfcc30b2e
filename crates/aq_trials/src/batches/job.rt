//! What is done with a connection, over any store.
use crate::batches::step::{Step, commit, take_steps, text_read};
use aq_keeper::{KeeperFault, RowChange};
use aq_sqlite::SqliteKeeper;
use aq_tables::prepare as prepare_tables;
use sqlite::{Alter, Connection};
use std::alloc::Global;

/// What is done with a connection.
#[derive(Clone, Copy)]
pub enum Job<'a> {
    /// Statements are run.
    Runs(&'a str),
    /// Statements are run, and the database ends so.
    Ends(&'a str, End<'a>),
    /// A keeper is prepared, and tells its rows.
    Tells,
    /// A keeper is prepared, twice, and takes steps. Then it tells its rows.
    Takes(&'a str),
    /// The tables are prepared.
    Prepares,
    /// A keeper is prepared, and commits a batch.
    Commits(&'a [RowChange]),
}

/// What becomes of a database.
#[derive(Clone, Copy)]
pub enum End<'a> {
    /// It is refused, twice, so that nothing was made. The second time its keeper is asked, which has none with an
    /// open transaction.
    Refused,
    /// This statement is refused, and the database is then prepared.
    Wrong(&'a str),
    /// It is prepared, twice, and so many tables and views then stand.
    Leaves(usize, usize),
}

/// What came out of a job.
#[derive(Drop)]
pub struct Answer {
    pub is_well: bool,
    /// The rows that the keeper told.
    pub rows: String,
    /// What the steps leave of one.
    pub step: Step,
}

impl Answer {
    pub fn new(alloc: Global) -> Answer {
        Answer {
            is_well: false,
            rows: String::new(alloc),
            step: Step::new(alloc),
        }
    }
}

/// Does a job. Gives the connection back, unless it could not be done, or it needs the connection no more.
pub fn work<S: Alter + Drop>(
    alloc: Global,
    mut connection: Connection<S>,
    job: &Job<'_>,
    answer: &mut Answer,
) -> Option<Connection<S>> {
    match job {
        Job::Runs(sql) => with(connection, sql),
        Job::Ends(sql, end) => {
            answer.is_well = run(&mut connection, sql) && ends(alloc, connection, end);
            None
        }
        _ => kept(alloc, adopted(connection)?, job, answer),
    }
}

fn with<S: Alter + Drop>(mut connection: Connection<S>, sql: &str) -> Option<Connection<S>> {
    if run(&mut connection, sql) {
        Some(connection)
    } else {
        None
    }
}

/// Does a job of a keeper.
fn kept<S: Alter + Drop>(
    alloc: Global,
    mut keeper: SqliteKeeper<S>,
    job: &Job<'_>,
    answer: &mut Answer,
) -> Option<Connection<S>> {
    let is_prepared = prepare(alloc, &mut keeper);
    if is_prepared {
        answer.is_well = does(alloc, &mut keeper, job, answer);
    }
    if is_prepared || matches!(job, Job::Prepares) {
        Some(keeper.into_connection())
    } else {
        None
    }
}

/// Does a job of a keeper whose tables are prepared.
fn does<S: Alter + Drop>(
    alloc: Global,
    keeper: &mut SqliteKeeper<S>,
    job: &Job<'_>,
    answer: &mut Answer,
) -> bool {
    match job {
        Job::Commits(batch) => commit(alloc, keeper, batch).is_ok(),
        Job::Takes(steps) => {
            prepare(alloc, keeper)
                && takes(alloc, keeper, steps, &mut answer.step)
                && tells(alloc, keeper, &mut answer.rows)
        }
        Job::Tells => tells(alloc, keeper, &mut answer.rows),
        _ => true,
    }
}

fn takes<S: Alter + Drop>(
    alloc: Global,
    keeper: &mut SqliteKeeper<S>,
    steps: &str,
    step: &mut Step,
) -> bool {
    matches!(take_steps(alloc, keeper, steps, step), Ok(true))
}

fn tells<S: Alter + Drop>(alloc: Global, keeper: &mut SqliteKeeper<S>, rows: &mut String) -> bool {
    match text_read(alloc, keeper) {
        Ok(text) => {
            *rows = text;
            true
        }
        Err(_) => false,
    }
}

fn ends<S: Alter + Drop>(alloc: Global, mut connection: Connection<S>, end: &End<'_>) -> bool {
    match end {
        End::Refused => is_of_others(alloc, connection),
        End::Wrong(last) => !run(&mut connection, last) && prepares(alloc, &mut connection),
        End::Leaves(tables, views) => has(alloc, &mut connection, (*tables, *views)),
    }
}

fn is_of_others<S: Alter + Drop>(alloc: Global, mut connection: Connection<S>) -> bool {
    let before = stands(&connection);
    if prepares(alloc, &mut connection) || stands(&connection) != before {
        return false;
    }
    match adopted(connection) {
        Some(keeper) => refuses(alloc, keeper, before),
        None => true,
    }
}

fn refuses<S: Alter + Drop>(
    alloc: Global,
    mut keeper: SqliteKeeper<S>,
    before: (usize, usize),
) -> bool {
    let again = keeper.prepare(alloc) == Err(KeeperFault::Failed);
    again && stands(&keeper.into_connection()) == before
}

fn has<S: Alter>(alloc: Global, connection: &mut Connection<S>, wanted: (usize, usize)) -> bool {
    let first = prepares(alloc, connection);
    let again = prepares(alloc, connection);
    first && again && stands(connection) == wanted
}

fn prepares<S: Alter>(alloc: Global, connection: &mut Connection<S>) -> bool {
    prepare_tables(connection, alloc).is_ok()
}

/// How many tables and views stand.
fn stands<S: Alter>(connection: &Connection<S>) -> (usize, usize) {
    let schema = connection.schema();
    (schema.tables.len(), schema.views.len())
}

/// Whether some statements can be run.
fn run<S: Alter>(connection: &mut Connection<S>, sql: &str) -> bool {
    connection.execute_batch(sql).is_ok()
}

/// The keeper of a connection without an open transaction.
fn adopted<S: Alter + Drop>(connection: Connection<S>) -> Option<SqliteKeeper<S>> {
    if !connection.is_autocommit() {
        return None;
    }
    Some(SqliteKeeper::adopt(connection))
}

fn prepare<S: Alter + Drop>(alloc: Global, keeper: &mut SqliteKeeper<S>) -> bool {
    keeper.prepare(alloc).is_ok()
}

/// A keeper whose tables are prepared, if that is not refused or stopped.
pub fn prepared<S: Alter + Drop>(
    alloc: Global,
    connection: Connection<S>,
) -> Option<SqliteKeeper<S>> {
    let mut keeper = adopted(connection)?;
    if prepare(alloc, &mut keeper) {
        Some(keeper)
    } else {
        None
    }
}
