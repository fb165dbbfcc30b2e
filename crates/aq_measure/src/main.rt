//! A program for measures alone, run by the scripts of `bench/`.
//!
//! # What it has
//!
//! - `cut` and `bytes` count the lines and fields of a body on standard input, for `bench/scan`: `cut`
//!   cuts the body as a scan does, and does nothing else with it; `bytes` looks at each byte once in a
//!   plain loop.
//! - `ozone MONITORS RUNS` and `pm25 MONITORS RUNS` compute the design values of a site whose hours are
//!   made up, for `bench/ozone` and `bench/pm25`.
//! - `whatif QUESTION RUNS` asks a question about such a site with a hundred events, for `bench/whatif`:
//!   `value`, its design value; `list`, that with the first 64 events concurred in; `one`, that with event
//!   94 concurred in; `decisive`, the events that decide; `elsewhere`, these with a hundred further events
//!   elsewhere.
//! - `combined STANDARD-WHERE RUNS` computes the design value of a site that has moved, for
//!   `bench/combined`: of ozone or of PM2.5, with all hours at one site, before the move at the one and then
//!   at the other, or all at both (`ozone-one`, `ozone-moved`, `ozone-both`, `pm25-one` and so on).
//! - `commit FILE` reads all rows of a file of the tables and commits a year of hours to it, for
//!   `bench/load`; `journal FILE` does so with a journal in the working folder, for `bench/journal`.
//! - `fixed PORT CONNECTIONS` answers each HTTP request of so many connections with the bytes that stand
//!   on standard input, for `bench/serve`.
//!
//! # What it promises
//!
//! - How many lines and fields a body has, and how many line ends and bars, are the definition's
//!   (`fields_in`, `bars_in`). That it prints them is only tried, by `bench/scan`.
//! - The other modes have no clauses: design values and questions of made-up hours, a commit by a clock and a server
//!   of one fixed reply are only tried, by the scripts that run them.
//!
//! # An example
//!
//! ```sh
//! bin/build measure
//! crates/aq_measure/out/aq_measure cut < samples/two-sites.txt
//! ```
#![tactic(auto)]

ghost use Rattle.std.specs.Prelude.{◌≤◌};

mod commits;
mod counts;
mod designs;
mod fixed;
mod made_up;
mod moved;
mod particles;
mod questions;
mod smoke;

use aq_base::{MOST_BYTES, Standard};
use commits::{CommitTimes, journal_times, table_times};
use counts::{bars_in, fields_in};
use designs::ozone_designs;
use made_up::MOST_MONITORS;
use moved::{Where, moved_designs};
use particles::pm25_designs;
use questions::{Question, ask};
use std::io::{ErrorKind, Read};
use std::{env, io};

fn main(rt: HostRuntime) -> io::Result<()> {
    let words: Vec<String> = env::args(&rt)?.skip(1).collect(rt.alloc())?;
    if let [word, path] = words.as_slice() {
        return match word.as_str() {
            "commit" => print_times(&rt, table_times(&rt, path.as_str())?),
            "journal" => print_times(&rt, journal_times(&rt, path.as_str())?),
            _ => Err(io::Error::from(ErrorKind::InvalidInput)),
        };
    }
    if let [word, monitors, runs] = words.as_slice() {
        let refused = io::Error::from(ErrorKind::InvalidInput);
        if word.as_str() == "fixed" {
            return serve_fixed(&rt, monitors, runs);
        }
        if word.as_str() == "whatif" {
            return print_answers(&rt, monitors, runs);
        }
        if word.as_str() == "combined" {
            return print_moved(&rt, monitors, runs);
        }
        let (Ok(monitors), Ok(runs)) = (monitors.parse::<u8>(), runs.parse::<u32>()) else {
            return Err(refused);
        };
        if monitors > MOST_MONITORS {
            return Err(refused);
        }
        return match word.as_str() {
            "ozone" => print_ozone(&rt, monitors, runs),
            "pm25" => print_pm25(&rt, monitors, runs),
            _ => Err(refused),
        };
    }
    let mut body = Vec::new(rt.alloc());
    rt.reader().read_to_end(&mut body)?;
    if body.len() > MOST_BYTES {
        return Err(io::Error::from(ErrorKind::InvalidData));
    }
    let [word] = words.as_slice() else {
        return Err(io::Error::from(ErrorKind::InvalidInput));
    };
    match word.as_str() {
        "cut" => {
            let counts = fields_in(&body);
            println!(rt; "lines {}\nfields {}", counts.lines, counts.fields)
        }
        "bytes" => {
            let counts = bars_in(&body);
            println!(rt; "ends {}\nbars {}", counts.ends, counts.bars)
        }
        _ => Err(io::Error::from(ErrorKind::InvalidInput)),
    }
}

/// Serves so many connections on the port with the reply that stands on standard input.
fn serve_fixed(rt: &HostRuntime, port: &str, connections: &str) -> io::Result<()> {
    let (Ok(port), Ok(connections)) = (port.parse::<u16>(), connections.parse::<u32>()) else {
        return Err(io::Error::from(ErrorKind::InvalidInput));
    };
    let mut reply = Vec::new(rt.alloc());
    rt.reader().read_to_end(&mut reply)?;
    fixed::serve(rt, port, connections, &reply)
}

/// Computes and prints the sums of so many design values of ozone.
fn print_ozone(rt: &HostRuntime, monitors: u8, runs: u32) -> io::Result<()>
    requires { monitors ≤ MOST_MONITORS }
{
    let Ok(sums) = ozone_designs(rt.alloc(), monitors, runs) else {
        return Err(io::Error::from(ErrorKind::OutOfMemory));
    };
    println!(rt;
        "valid {}\nranked {}\nfourths {}\nvalues {}\nunmet {}",
        sums.valid, sums.ranked, sums.fourths, sums.values, sums.unmet
    )
}

/// Computes and prints the sums of so many design values of PM2.5.
fn print_pm25(rt: &HostRuntime, monitors: u8, runs: u32) -> io::Result<()>
    requires { monitors ≤ MOST_MONITORS }
{
    let Ok(sums) = pm25_designs(rt.alloc(), monitors, runs) else {
        return Err(io::Error::from(ErrorKind::OutOfMemory));
    };
    println!(rt;
        "creditable {}\ndays {}\nsum {}\neighths {}\nannual {}\ndaily {}\nmet {}",
        sums.creditable, sums.days, sums.sum, sums.eighths, sums.annual, sums.daily, sums.met
    )
}

/// Asks the question so many times and prints the sums of the answers.
fn print_answers(rt: &HostRuntime, question: &str, runs: &str) -> io::Result<()> {
    let refused = io::Error::from(ErrorKind::InvalidInput);
    let Ok(runs) = runs.parse::<u32>() else {
        return Err(refused);
    };
    let question = match question {
        "value" => Question::Value,
        "list" => Question::Assumed(1, 64),
        "one" => Question::Assumed(94, 94),
        "decisive" => Question::Decisive,
        "elsewhere" => Question::Elsewhere,
        _ => return Err(refused),
    };
    let Ok(answers) = ask(rt.alloc(), question, runs) else {
        return Err(io::Error::from(ErrorKind::OutOfMemory));
    };
    println!(rt;
        "values {}\nmet {}\nunmet {}\nevents {}\nnumbers {}",
        answers.values, answers.met, answers.unmet, answers.events, answers.numbers
    )
}

/// Computes the design value of a moved site so many times and prints the sum.
fn print_moved(rt: &HostRuntime, what: &str, runs: &str) -> io::Result<()> {
    let refused = io::Error::from(ErrorKind::InvalidInput);
    let (Some((pollutant, hours)), Ok(runs)) = (what.split_once('-'), runs.parse::<u32>()) else {
        return Err(refused);
    };
    let standard = match pollutant {
        "ozone" => Standard::Ozone2015,
        "pm25" => Standard::Annual2024,
        _ => return Err(refused),
    };
    let hours = match hours {
        "one" => Where::OneSite,
        "moved" => Where::Moved,
        "both" => Where::Both,
        _ => return Err(refused),
    };
    let Ok(sum) = moved_designs(rt.alloc(), standard, hours, runs) else {
        return Err(io::Error::from(ErrorKind::OutOfMemory));
    };
    println!(rt; "values {sum}")
}

/// Prints how many rows stood in a file, and the microseconds that the reading and the commit took.
fn print_times(rt: &HostRuntime, times: CommitTimes) -> io::Result<()> {
    println!(rt;
        "rows {}\nreading {}\ncommit {}",
        times.rows,
        times.reading.as_micros(),
        times.commit.as_micros()
    )
}
