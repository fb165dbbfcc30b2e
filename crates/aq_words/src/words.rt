//! The words of the command line.
ghost use Rattle.std.specs.Prelude.{◌≡◌, ◌≤◌, map, string_bytes, IfSome, IsTrue};
ghost use Rattle.std.specs.Option.{option_map};
ghost use Rattle.aq_rules.specs.Questions.Asking.{asked_in_words};
ghost use Rattle.aq_rules.specs.Questions.Table.{all_topics};
ghost use Rattle.aq_rules.specs.Limits.{FEWEST_GENERATED_YEARS, MOST_GENERATED_YEARS};
ghost use Rattle.aq_words.specs.declared.words.Command.TheVariants.{Ask};
ghost use Rattle.aq_words.specs.Words.{changes_of, command_of, is_command, load_of, option_of, pair_of, scan_of, serve_of, served_by, simulate_of, start_in, try_of, years_in};

use crate::asking::asked_in_words;
use aq_base::{
    Day, FEWEST_GENERATED_YEARS, LAST_LOAD_NUMBER, MOST_GENERATED_SITES, MOST_GENERATED_YEARS,
    Question, SiteId,
};
use aq_rd::{day_word, number_to, site_word};

/// The most connections that `serve` takes.
const MOST_CONNECTIONS: u64 = 1_000_000;

/// What the program is asked to do.
#[derive(Clone, Copy, Debug, PartialEq, Eq)]
pub enum Command {
    /// Takes the input as a load over an empty office, and prints the reply and a day's windows.
    Scan { site: SiteId, day: Day },
    /// Takes the input as the load with this number over the office of the tables.
    Load(u32),
    /// Says what the input would make of the office of the tables, which stays as it is.
    Draft(Draft),
    /// Answers a question about the office of the tables.
    Ask(Question),
    /// Listens on this port of the machine, and serves so many connections at most.
    Serve { port: u16, connections: u32 },
    /// Takes generated loads of so many sites and years over an empty office, and prints a summary.
    Simulate { start: u64, sites: u8, years: u8 },
}

/// What is said of an input beside an office that stays as it is.
#[derive(Clone, Copy, Debug, PartialEq, Eq)]
pub enum Draft {
    /// The reply that a load of it would get.
    Try,
    /// The lines that bring what stands up to date with it, an extract of these days.
    Changes { first: Day, last: Day },
}

#[tactic(auto, unfolding(crate::specs::Words::scan_of))]
fn scan(words: &[String]) -> Option<Command>
    ensures command { result ≡ scan_of (map string_bytes words.now) }
    ensures range { IfSome result (λ command. IsTrue (is_command command)) }
{
    let [site, day] = words else {
        return None;
    };
    let site = site_word(site.as_bytes())?;
    let day = day_word(day.as_bytes())?;
    Some(Command::Scan { site, day })
}

#[tactic(auto, unfolding(crate::specs::Words::load_of))]
fn load(words: &[String]) -> Option<Command>
    ensures command { result ≡ load_of (map string_bytes words.now) }
    ensures range { IfSome result (λ command. IsTrue (is_command command)) }
{
    let [number] = words else {
        return None;
    };
    let number = number_to(u64::from(LAST_LOAD_NUMBER), number.as_bytes())?;
    Some(Command::Load(number as u32))
}

#[tactic(auto, unfolding(crate::specs::Words::try_of))]
fn try_load(words: &[String]) -> Option<Command>
    ensures command { result ≡ try_of (map string_bytes words.now) }
    ensures range { IfSome result (λ command. IsTrue (is_command command)) }
{
    match words {
        [] => Some(Command::Draft(Draft::Try)),
        _ => None,
    }
}

#[tactic(auto, unfolding(crate::specs::Words::changes_of))]
fn changes(words: &[String]) -> Option<Command>
    ensures command { result ≡ changes_of (map string_bytes words.now) }
    ensures range { IfSome result (λ command. IsTrue (is_command command)) }
{
    let [first, last] = words else {
        return None;
    };
    let first = day_word(first.as_bytes())?;
    let last = day_word(last.as_bytes())?;
    if first.number() <= last.number() {
        Some(Command::Draft(Draft::Changes { first, last }))
    } else {
        None
    }
}

#[tactic(auto, unfolding(crate::specs::Words::serve_of))]
fn serve(words: &[String]) -> Option<Command>
    ensures command { result ≡ serve_of (map string_bytes words.now) }
    ensures range { IfSome result (λ command. IsTrue (is_command command)) }
{
    if let Some((port, connections)) = pair_of(b"--port", b"--connections", words) {
        return served_by(port, connections);
    }
    let (connections, port) = pair_of(b"--connections", b"--port", words)?;
    served_by(port, connections)
}

#[tactic(auto, unfolding(crate::specs::Words::served_by))]
fn served_by(port: &[u8], connections: &[u8]) -> Option<Command>
    ensures command { result ≡ served_by port.now connections.now }
    ensures range { IfSome result (λ command. IsTrue (is_command command)) }
{
    let port = number_to(u64::from(u16::MAX), port)?;
    let connections = number_to(MOST_CONNECTIONS, connections)?;
    Some(Command::Serve {
        port: port as u16,
        connections: connections as u32,
    })
}

/// The values of two options in this order, after which no word stands.
#[tactic(auto, unfolding(crate::specs::Words::pair_of))]
fn pair_of<'a>(first: &[u8], second: &[u8], words: &'a [String]) -> Option<(&'a [u8], &'a [u8])>
    ensures { option_map (λ pair. record { first = pair.0.now; second = pair.1.now }) result ≡ pair_of first.now second.now (map string_bytes words.now) }
{
    let (one, rest) = option_of(first, words)?;
    let (two, rest) = option_of(second, rest)?;
    if rest.is_empty() {
        Some((one, two))
    } else {
        None
    }
}

/// An option's value and the words after it: the value is a word of its own, or stands after an equals
/// sign.
#[tactic(auto, unfolding(crate::specs::Words::option_of, crate::specs::Words::taken_here))]
fn option_of<'a>(name: &[u8], words: &'a [String]) -> Option<(&'a [u8], &'a [String])>
    ensures { option_map (λ taken. record { value = taken.0.now; rest = map string_bytes taken.1.now }) result ≡ option_of name.now (map string_bytes words.now) }
{
    let [word, rest @ ..] = words else {
        return None;
    };
    let word = word.as_bytes();
    if word == name {
        let [value, rest @ ..] = rest else {
            return None;
        };
        return Some((value.as_bytes(), rest));
    }
    let value = word.strip_prefix(name)?.strip_prefix(b"=")?;
    Some((value, rest))
}

#[tactic(auto, unfolding(crate::specs::Words::simulate_of))]
fn simulate(words: &[String]) -> Option<Command>
    ensures command { result ≡ simulate_of (map string_bytes words.now) }
    ensures range { IfSome result (λ command. IsTrue (is_command command)) }
{
    let [start, sites, years] = words else {
        return None;
    };
    let start = start_in(start.as_bytes())?;
    let sites = number_to(u64::from(MOST_GENERATED_SITES), sites.as_bytes())?;
    let years = years_in(years.as_bytes())?;
    Some(Command::Simulate {
        start,
        sites: sites as u8,
        years,
    })
}

/// A number that loads may start from.
#[tactic(auto, unfolding(crate::specs::Words::start_in))]
fn start_in(text: &[u8]) -> Option<u64>
    ensures { result ≡ start_in text.now }
{
    if text == b"0".as_slice() {
        Some(0)
    } else {
        number_to(u64::MAX, text)
    }
}

/// A number of simulated years.
#[tactic(auto, unfolding(crate::specs::Words::years_in))]
fn years_in(text: &[u8]) -> Option<u8>
    ensures years { result ≡ years_in text.now }
    ensures least { IfSome result (λ years. FEWEST_GENERATED_YEARS ≤ years) }
    ensures most { IfSome result (λ years. years ≤ MOST_GENERATED_YEARS) }
{
    let years = number_to(u64::from(MOST_GENERATED_YEARS), text)?;
    if years >= u64::from(FEWEST_GENERATED_YEARS) {
        Some(years as u8)
    } else {
        None
    }
}

/// The command that the words name, the program's name left out. It takes no memory.
pub fn read_words(words: &[String]) -> Option<Command>
    ensures command { result ≡ command_of (map string_bytes words.now) }
    ensures range { IfSome result (λ command. IsTrue (is_command command)) }
{
    let [name, parts @ ..] = words else {
        return None;
    };
    match name.as_str() {
        "scan" => scan(parts),
        "load" => load(parts),
        "try" => try_load(parts),
        "changes" => changes(parts),
        "serve" => serve(parts),
        "simulate" => simulate(parts),
        _ => asked(words),
    }
}

/// A question, by its name and a word for each part.
fn asked(words: &[String]) -> Option<Command>
    ensures command { result ≡ option_map Ask (asked_in_words all_topics (map string_bytes words.now)) }
    ensures range { IfSome result (λ command. IsTrue (is_command command)) }
{
    let question = asked_in_words(words)?;
    Some(Command::Ask(question))
}
