//! Functions that a case may call, by their names, and their answers as text. Each takes words with spaces
//! between them; bytes are spelled as in a block.
ghost use Rattle.std.specs.Prelude.{◌≤◌, IfSome, length};
ghost use Rattle.aq_rules.specs.Limits.{MOST_BYTES};

use crate::dates::{day_in, first_hour};
use crate::spelling::{spelling_of, write_line};
use crate::trouble::Trouble;
use aq_base::{
    Area, Assumed, AssumedList, Day, FIRST_YEAR, Hour, LAST_YEAR, MOST_BYTES, Memory, OfficeKey,
    OfficeLine, Quarter, Rule, SiteId, SiteList,
};
use aq_cal::{quarter_of, quarter_span, write_day, year_span};
use aq_forms::{count_lines, lines_of, print_key, print_office, read_office};
use aq_http::{Found, Request, Routes, Step, Verb, next_request};
use aq_keeper::{RowChange, RowKey, do_keys_rise};
use aq_num::{read_decimal, round_half_up, trunc_div, write_fixed};
use aq_rd::{has_office_tag, print_rd, read_rd, site_word, tag_of};
use aq_registry::Registry;
use std::alloc::Global;
use std::fmt::Display;

/// What a function answers.
pub fn answer(alloc: Global, name: &str, arguments: &str) -> Result<String, Trouble> {
    match name {
        "route" => route(alloc, arguments),
        "request" => request(alloc, arguments),
        "line" => line(alloc, arguments),
        "key" => key(alloc, arguments),
        "body" => body(alloc, arguments),
        "decimal" => decimal(alloc, arguments),
        "fixed" => fixed(alloc, arguments),
        _ => number_answer(alloc, name, arguments),
    }
}

/// What a function of numbers, dates or short lists answers.
fn number_answer(alloc: Global, name: &str, arguments: &str) -> Result<String, Trouble> {
    match name {
        "truncated" => truncated(alloc, arguments),
        "half_up" => half_up(alloc, arguments),
        "day" => day(alloc, arguments),
        "quarter" => quarter(alloc, arguments),
        "year" => year(alloc, arguments),
        "keys_rise" => keys_rise(alloc, arguments),
        "assumed" => assumed(alloc, arguments),
        "sites" => sites(alloc, arguments),
        "holds" => holds(alloc, arguments),
        "covers" => covers(alloc, arguments),
        _ => Err(Trouble::Wrong("there is no such call")),
    }
}

/// A call's arguments are not those of its name.
pub const NOT_SO: Trouble = Trouble::Wrong("it is not called so");

fn text(alloc: Global, text: &str) -> Result<String, Trouble> {
    Ok(String::from_str(alloc, text)?)
}

/// A value as it is printed.
fn said<T: Display>(alloc: Global, value: &T) -> Result<String, Trouble> {
    Ok(format!(in alloc; "{value}")?)
}

/// Bytes as a case spells them.
fn shown(alloc: Global, bytes: &[u8]) -> Result<String, Trouble> {
    Ok(spelling_of(alloc, bytes)?)
}

/// The bytes that a text spells.
fn spelled(alloc: Global, spelling: &str) -> Result<Vec<u8>, Trouble> {
    let mut bytes = Vec::new(alloc);
    write_line(spelling.as_bytes(), &mut bytes)?;
    // A line ends with LF, and this text does not.
    if !spelling.ends_with("\\") {
        let _ = bytes.pop();
    }
    Ok(bytes)
}

/// `VERB TARGET`: what a request asks.
fn route(alloc: Global, arguments: &str) -> Result<String, Trouble> {
    let (verb, target) = cut(arguments);
    let routes = Routes::new(alloc)?;
    found_text(alloc, &routes.find(verb_of(verb), target.as_bytes()))
}

fn verb_of(word: &str) -> Verb {
    match word {
        "GET" => Verb::Get,
        "POST" => Verb::Post,
        _ => Verb::Other,
    }
}

fn found_text(alloc: Global, found: &Found) -> Result<String, Trouble> {
    Ok(format!(in alloc; "{found:?}")?)
}

/// What is due on a connection with these bytes: `more`, `refuse STATUS`, or `whole USED VERB TARGET BODY`,
/// the last three by their lengths, and `close` if the connection ends after the reply.
fn request(alloc: Global, arguments: &str) -> Result<String, Trouble> {
    let bytes = spelled(alloc, arguments)?;
    match next_request(&bytes) {
        Step::More => text(alloc, "more"),
        Step::Refuse(status) => Ok(format!(in alloc; "refuse {status}")?),
        Step::Whole(request) => request_text(alloc, &request),
    }
}

fn request_text(alloc: Global, request: &Request<'_>) -> Result<String, Trouble> {
    let (used, verb) = (request.used, request.verb);
    let (target, body) = (request.target.len(), request.body.len());
    let end = if request.close { " close" } else { "" };
    Ok(format!(in alloc; "whole {used} {verb:?} {target} {body}{end}")?)
}

/// The canonical line of a line's value, or the name of the first reading rule that it breaks.
fn line(alloc: Global, arguments: &str) -> Result<String, Trouble> {
    let bytes = spelled(alloc, arguments)?;
    match read_any(alloc, &bytes)? {
        Ok(canonical) => shown(alloc, &canonical),
        Err(rule) => text(alloc, rule.name()),
    }
}

#[tactic(auto, using(aq_forms::specs::OfficeTags::no_rd_tag))]
fn read_any(alloc: Global, line: &[u8]) -> Result<Result<Vec<u8>, Rule>, Memory> {
    if let Err(rule) = tag_of(line) {
        return Ok(Err(rule));
    }
    if has_office_tag(line) {
        match read_office(line) {
            Ok(read) => Ok(Ok(print_office(alloc, &read)?)),
            Err(rule) => Ok(Err(rule)),
        }
    } else {
        match read_rd(line) {
            Ok(read) => Ok(Ok(print_rd(alloc, &read)?)),
            Err(rule) => Ok(Err(rule)),
        }
    }
}

/// The key of an office line that drops a record.
#[tactic(auto, using(aq_forms::specs::OfficeTags::no_rd_tag))]
fn key(alloc: Global, arguments: &str) -> Result<String, Trouble> {
    let line = arguments.as_bytes();
    if !has_office_tag(line) {
        return Err(NOT_SO);
    }
    match read_office(line) {
        Ok(OfficeLine::Drop(key)) => key_text(alloc, &key),
        _ => Err(NOT_SO),
    }
}

fn key_text(alloc: Global, key: &OfficeKey) -> Result<String, Trouble> {
    shown(alloc, &print_key(alloc, key)?)
}

/// How many lines a body has, and those that are not skipped, each with its number.
fn body(alloc: Global, arguments: &str) -> Result<String, Trouble> {
    let bytes = spelled(alloc, arguments)?;
    if bytes.len() > MOST_BYTES {
        return Err(NOT_SO);
    }
    body_text(alloc, &bytes)
}

fn body_text(alloc: Global, body: &[u8]) -> Result<String, Trouble>
    requires few { length body.now ≤ MOST_BYTES }
{
    let mut all = said(alloc, &count_lines(body))?;
    for line in lines_of(body) {
        add_line(alloc, &mut all, line.number, line.text)?;
    }
    Ok(all)
}

fn add_line(alloc: Global, all: &mut String, number: u32, text: &[u8]) -> Result<(), Memory> {
    let text = spelling_of(alloc, text)?;
    Ok(all.push_str(format!(in alloc; " {number}:{text}|")?.as_str())?)
}

/// The first word of a text and what stands after it; no text if there is no space.
pub fn cut(text: &str) -> (&str, &str) {
    match text.split_once(' ') {
        Some(parts) => parts,
        None => (text, ""),
    }
}

/// `A B`, two numbers with or without a sign.
fn two_numbers(words: &str) -> Option<(i64, i64)> {
    let (a, b) = cut(words);
    match (a.parse(), b.parse()) {
        (Ok(a), Ok(b)) => Some((a, b)),
        _ => None,
    }
}

/// How many places a number has: 0 to 6.
fn places(word: &str) -> Option<u8>
    ensures { IfSome result (λ places. places ≤ 6) }
{
    match word.parse() {
        Ok(places) if places <= 6 => Some(places),
        _ => None,
    }
}

/// `TEXT PLACES`: the number that a decimal text is cut to.
fn decimal(alloc: Global, arguments: &str) -> Result<String, Trouble> {
    let Some((digits, word)) = arguments.rsplit_once(' ') else {
        return Err(NOT_SO);
    };
    let Some(places) = places(word) else {
        return Err(NOT_SO);
    };
    match read_decimal(digits.as_bytes(), places) {
        Ok(number) => said(alloc, &number),
        Err(fault) => said(alloc, &fault),
    }
}

/// `VALUE PLACES`: the value in units of the last place, as it is written.
fn fixed(alloc: Global, arguments: &str) -> Result<String, Trouble> {
    let (value, word) = cut(arguments);
    match (value.parse(), places(word)) {
        (Ok(value), Some(places)) => fixed_text(alloc, value, places),
        _ => Err(NOT_SO),
    }
}

fn fixed_text(alloc: Global, value: i64, places: u8) -> Result<String, Trouble>
    requires { places ≤ 6 }
{
    let mut out = Vec::new(alloc);
    write_fixed(&mut out, value, places)?;
    shown(alloc, &out)
}

/// `A B`: the quotient, cut toward zero.
fn truncated(alloc: Global, arguments: &str) -> Result<String, Trouble> {
    match two_numbers(arguments) {
        Some((a, b)) if b > 0 => said(alloc, &trunc_div(a, b)),
        _ => Err(NOT_SO),
    }
}

/// `A B`: the quotient, halves rounded up.
fn half_up(alloc: Global, arguments: &str) -> Result<String, Trouble> {
    match two_numbers(arguments) {
        Some((a, b)) if b > 0 => said(alloc, &round_half_up(i128::from(a), i128::from(b))),
        _ => Err(NOT_SO),
    }
}

/// `YYYY-MM-DD`: the day's number, and how it is written, or `none`.
fn day(alloc: Global, arguments: &str) -> Result<String, Trouble> {
    match day_in(arguments) {
        Some(day) => day_text(alloc, day),
        None => text(alloc, "none"),
    }
}

fn day_text(alloc: Global, day: Day) -> Result<String, Trouble> {
    let name = day_name(alloc, day)?;
    Ok(format!(in alloc; "{} {name}", day.number())?)
}

fn day_name(alloc: Global, day: Day) -> Result<String, Trouble> {
    let mut written = Vec::new(alloc);
    write_day(&mut written, day)?;
    shown(alloc, &written)
}

/// `YYYY-MM-DD`: the number of the day's quarter, its first day, and how many days it has.
fn quarter(alloc: Global, arguments: &str) -> Result<String, Trouble> {
    match day_in(arguments) {
        Some(day) => quarter_text(alloc, quarter_of(day)),
        None => Err(NOT_SO),
    }
}

fn quarter_text(alloc: Global, quarter: Quarter) -> Result<String, Trouble> {
    let (first, days) = quarter_span(quarter);
    let first = day_name(alloc, first)?;
    Ok(format!(in alloc; "{} {first} {days}", quarter.number())?)
}

/// `YYYY`: the number of the year's first day, and how many days it has.
fn year(alloc: Global, arguments: &str) -> Result<String, Trouble> {
    match arguments.parse() {
        Ok(year) if FIRST_YEAR <= year && year <= LAST_YEAR => {
            let (first, days) = year_span(year);
            Ok(format!(in alloc; "{} {days}", first.number())?)
        }
        _ => Err(NOT_SO),
    }
}

/// `NUMBER..`: whether the keys of the loads with these numbers rise.
fn keys_rise(alloc: Global, arguments: &str) -> Result<String, Trouble> {
    let mut batch = Vec::new(alloc);
    add_drops(arguments, &mut batch)?;
    text(
        alloc,
        if do_keys_rise(&batch) {
            "true"
        } else {
            "false"
        },
    )
}

fn add_drops(numbers: &str, batch: &mut Vec<RowChange>) -> Result<(), Trouble> {
    for word in numbers.split(' ') {
        match word.parse() {
            Ok(number) => batch.push(RowChange::drop(RowKey::load(number)))?,
            Err(_) => return Err(NOT_SO),
        }
    }
    Ok(())
}

/// Puts a word after those that are there, with a space between them.
pub fn add_word(words: &mut String, word: &str) -> Result<(), Memory> {
    if !words.is_empty() {
        words.push_str(" ")?;
    }
    Ok(words.push_str(word)?)
}

/// `NUMBER..`: the entries of a list of assumed concurrences to which each is added, a number without
/// its sign if its event is taken not to be concurred in.
fn assumed(alloc: Global, arguments: &str) -> Result<String, Trouble> {
    let mut list = AssumedList::new();
    for word in arguments.split(' ') {
        let Some(entry) = assumed_in(word) else {
            return Err(NOT_SO);
        };
        let _ = list.add(entry);
    }
    assumed_text(alloc, list.as_slice())
}

fn assumed_in(word: &str) -> Option<Assumed> {
    let (digits, agreed) = match word.strip_prefix("-") {
        Some(digits) => (digits, false),
        None => (word, true),
    };
    match digits.parse() {
        Ok(number) => Some(Assumed { number, agreed }),
        Err(_) => None,
    }
}

fn assumed_text(alloc: Global, list: &[Assumed]) -> Result<String, Trouble> {
    let mut all = String::new(alloc);
    for entry in list {
        add_assumed(alloc, &mut all, *entry)?;
    }
    Ok(all)
}

fn add_assumed(alloc: Global, all: &mut String, entry: Assumed) -> Result<(), Memory> {
    let sign = if entry.agreed { "" } else { "-" };
    let word = format!(in alloc; "{sign}{}", entry.number)?;
    add_word(all, word.as_str())
}

/// The list of the sites of these words, each added in turn. What is not taken is put after `refused`.
fn site_list(words: &str, refused: &mut String) -> Result<Option<SiteList>, Memory> {
    let (first, rest) = cut(words);
    let Some(first) = site_word(first.as_bytes()) else {
        return Ok(None);
    };
    let mut list = SiteList::new(first);
    for word in rest.split(' ') {
        if !word.is_empty() {
            let Some(site) = site_word(word.as_bytes()) else {
                return Ok(None);
            };
            if !list.add(site) {
                add_word(refused, word)?;
            }
        }
    }
    Ok(Some(list))
}

/// `SITE..`: the sites of an area's list to which each is added, and after `not` those that it answers not
/// to have taken.
fn sites(alloc: Global, arguments: &str) -> Result<String, Trouble> {
    let mut refused = String::new(alloc);
    match site_list(arguments, &mut refused)? {
        Some(list) => sites_text(alloc, list.as_slice(), refused.as_str()),
        None => Err(NOT_SO),
    }
}

fn sites_text(alloc: Global, list: &[SiteId], refused: &str) -> Result<String, Trouble> {
    let mut all = String::new(alloc);
    for site in list {
        add_site(alloc, &mut all, *site)?;
    }
    add_refused(&mut all, refused)?;
    Ok(all)
}

fn add_site(alloc: Global, all: &mut String, site: SiteId) -> Result<(), Memory> {
    let (state, county, number) = (site.state(), site.county(), site.site());
    let word = format!(in alloc; "{state:02}-{county:03}-{number:04}")?;
    add_word(all, word.as_str())
}

fn add_refused(all: &mut String, refused: &str) -> Result<(), Memory> {
    if refused.is_empty() {
        return Ok(());
    }
    add_word(all, "not")?;
    add_word(all, refused)
}

/// `SITE county SITE` or `SITE in SITE..`: whether the area, the county of the second site or the list of
/// those after it, has the first site.
fn holds(alloc: Global, arguments: &str) -> Result<String, Trouble> {
    let (word, rest) = cut(arguments);
    let (kind, rest) = cut(rest);
    let Some(site) = site_word(word.as_bytes()) else {
        return Err(NOT_SO);
    };
    match area_of(alloc, kind, rest)? {
        Some(area) => said(alloc, &area.holds(site)),
        None => Err(NOT_SO),
    }
}

fn area_of(alloc: Global, kind: &str, words: &str) -> Result<Option<Area>, Memory> {
    match kind {
        "county" => Ok(county_of(words)),
        "in" => sites_of(alloc, words),
        _ => Ok(None),
    }
}

fn sites_of(alloc: Global, words: &str) -> Result<Option<Area>, Memory> {
    let mut refused = String::new(alloc);
    match site_list(words, &mut refused)? {
        Some(list) => Ok(Some(Area::Sites(list))),
        None => Ok(None),
    }
}

/// The county of the site of a word.
fn county_of(word: &str) -> Option<Area> {
    let site = site_word(word.as_bytes())?;
    Some(Area::County {
        state: site.state(),
        county: site.county(),
    })
}

/// `NUMBER YYYY-MM-DD HH:00 LINE..`: whether the event of a number holds an hour in its span, once these
/// lines are applied to no records, or `none`.
fn covers(alloc: Global, arguments: &str) -> Result<String, Trouble> {
    let (number, rest) = cut(arguments);
    let (day, rest) = cut(rest);
    let (time, lines) = cut(rest);
    match (number.parse(), first_hour(day, time)) {
        (Ok(number), Some(hour)) => covered_text(alloc, number, hour, lines),
        _ => Err(NOT_SO),
    }
}

fn covered_text(alloc: Global, number: u32, hour: Hour, lines: &str) -> Result<String, Trouble> {
    let mut registry = Registry::new(alloc);
    let word = covered(&mut registry, number, hour, lines);
    drop(registry);
    match word {
        Ok(word) => text(alloc, word),
        Err(trouble) => Err(trouble),
    }
}

fn covered(
    registry: &mut Registry,
    number: u32,
    hour: Hour,
    lines: &str,
) -> Result<&'static str, Trouble> {
    for line in lines.split(' ') {
        apply_line(registry, line.as_bytes())?;
    }
    Ok(match registry.covers(number, hour) {
        Some(true) => "true",
        Some(false) => "false",
        None => "none",
    })
}

/// Applies a line of the agency's own forms.
#[tactic(auto, using(aq_forms::specs::OfficeTags::no_rd_tag))]
fn apply_line(registry: &mut Registry, line: &[u8]) -> Result<(), Trouble> {
    if !has_office_tag(line) {
        return Err(NOT_SO);
    }
    let Ok(line) = read_office(line) else {
        return Err(NOT_SO);
    };
    match registry.apply(line) {
        Ok(_) => Ok(()),
        Err(_) => Err(NOT_SO),
    }
}
