//! A commit, and a preparation, that a stop of the machine cuts short.
use crate::batches::database::{Calls, Images, Stops, answered, crashed_after};
use crate::batches::job::{Answer, Job};
use crate::batches::step::text_of;
use std::alloc::Global;
use std::io;

/// What is stopped, with the rows that stand before it and after it.
#[derive(Clone, Copy)]
struct Task<'a> {
    job: Job<'a>,
    before: &'a str,
    after: &'a str,
}

/// How a task came out that was stopped at a call.
#[derive(Clone, Copy)]
enum Outcome {
    /// The calls do not suffice to begin.
    Unopened,
    Stopped,
    Done,
    Wrong,
}

/// Whether the batch that some steps leave is done or not, if it is stopped at any call of the log or of the file.
/// The log is written alone, and the file when it is closed.
pub fn are_done_or_not<D: Stops>(
    alloc: Global,
    images: &Images,
    taken: &Answer,
) -> io::Result<bool> {
    if !taken.is_well || taken.step.batch.is_empty() {
        return Ok(taken.is_well);
    }
    let after = text_of(alloc, &taken.step.rows)?;
    let task = Task {
        job: Job::Commits(taken.step.batch.as_slice()),
        before: taken.rows.as_str(),
        after: after.as_str(),
    };
    // A commit is stopped at one call of the log at least.
    Ok(
        stop_each::<D>(alloc, images, true, &task, false)
            && stop_each::<D>(alloc, images, false, &task, true),
    )
}

/// Whether a database that is stopped at any call of the log or of the file while it is prepared tells the
/// rows that it tells when it is not stopped.
pub fn are_prepared_or_not<D: Stops>(alloc: Global, images: &Images) -> bool {
    let told = answered::<D>(alloc, images, &Job::Tells);
    let task = Task {
        job: Job::Prepares,
        before: told.rows.as_str(),
        after: told.rows.as_str(),
    };
    told.is_well
        && stop_each::<D>(alloc, images, true, &task, true)
        && stop_each::<D>(alloc, images, false, &task, true)
}

/// Stops a task at each call of the log or of the file in turn, until it is done.
fn stop_each<D: Stops>(
    alloc: Global,
    images: &Images,
    is_log: bool,
    task: &Task<'_>,
    may_be_whole: bool,
) -> bool {
    let mut is_stopped = may_be_whole;
    for calls in 0..400 {
        match stop::<D>(alloc, images, calls_of(is_log, calls), task) {
            Outcome::Unopened => {}
            Outcome::Stopped => is_stopped = true,
            Outcome::Done => return is_stopped,
            Outcome::Wrong => return false,
        }
    }
    false
}

fn calls_of(is_log: bool, calls: u64) -> Calls {
    if is_log {
        Calls {
            log: calls,
            db: u64::MAX,
        }
    } else {
        Calls {
            log: u64::MAX,
            db: calls,
        }
    }
}

/// How a task over some files comes out.
fn stop<D: Stops>(alloc: Global, images: &Images, calls: Calls, task: &Task<'_>) -> Outcome {
    let mut answer = Answer::new(alloc);
    match crashed_after::<D>(alloc, images, calls, &task.job, &mut answer) {
        Some(images) => {
            let told = answered::<D>(alloc, &images, &Job::Tells);
            outcome_of(task, answer.is_well, &told)
        }
        None => Outcome::Unopened,
    }
}

fn outcome_of(task: &Task<'_>, is_done: bool, told: &Answer) -> Outcome {
    let found = told.rows.as_str();
    let is_after = told.is_well && found == task.after;
    let is_before = told.is_well && found == task.before;
    if is_done && is_after {
        Outcome::Done
    } else if !is_done && (is_after || is_before) {
        Outcome::Stopped
    } else {
        Outcome::Wrong
    }
}
