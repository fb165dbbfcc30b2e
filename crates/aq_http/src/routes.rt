//! What a request's verb and target ask.
ghost use Rattle.std.specs.Prelude.{◌≡◌, ◌==◌, map, option_map, IfOk, IfErr, IsTrue, OnOk, Some};
ghost use Rattle.std.specs.List.{before_first, after_first};
ghost use Rattle.matchit.specs.Seek.{first};
ghost use Rattle.aq_rules.specs.Questions.Asking.{asked_in_path, is_asked, is_load_number};
ghost use Rattle.aq_rules.specs.Questions.Table.{topic_of};
ghost use Rattle.aq_http.specs.Routes.{AreApart, IsFound, IsFoundStatus, IsPage, all_routes, found, found_at, found_on, has_page, load_number, page_at, page_on, page_path, part, route_of, takes_post, texts_in, with_routes};

use crate::verb::Verb;
use aq_base::{LAST_LOAD_NUMBER, Memory, Question, Topic};
use aq_rd::number_to;
use aq_words::{BAD_REQUEST, NOT_FOUND, asked_in_path};
use matchit::Router;
use std::alloc::Global;
use std::marker::Model;
use std::str::from_utf8;

/// The path of each question.
const ROUTES: [(&str, Topic); 23] = [
    ("/dv/{standard}/{site}/{year}", Topic::Value),
    ("/report/{standard}/{year}", Topic::Report),
    ("/export/{site}/{parameter}/{year}", Topic::Export),
    ("/whatif/{standard}/{site}/{year}/{list}", Topic::WhatIf),
    ("/decisive/{standard}/{site}/{year}", Topic::Decisive),
    ("/combined/{standard}/{site}/{year}", Topic::Combined),
    ("/area/{standard}/{area}/{year}", Topic::Area),
    ("/loads/{n}", Topic::Reply),
    ("/ozone/{site}/windows/{day}", Topic::Windows),
    ("/ozone/{site}/days/{year}", Topic::Days),
    ("/pm25/{site}/quarters/{year}", Topic::Pm25),
    ("/pm10/{site}/quarters/{year}", Topic::Pm10),
    ("/sites", Topic::Sites),
    ("/monitors/{site}", Topic::Monitors),
    ("/events/{site}", Topic::Events),
    ("/flags/{site}/{parameter}/{year}", Topic::Flags),
    ("/loads", Topic::Loads),
    ("/daily/{site}/{parameter}/{year}", Topic::Daily),
    ("/highest/{site}/{parameter}/{year}", Topic::Highest),
    (
        "/completeness/{site}/{parameter}/{year}",
        Topic::Completeness,
    ),
    ("/reports/{year}", Topic::Reports),
    ("/records", Topic::Records),
    ("/lines/{site}/{parameter}/{year}", Topic::Lines),
];

/// What a request asks, as far as its verb and target say.
#[derive(Clone, Copy, Debug, PartialEq, Eq)]
pub enum Found {
    /// A question about the office.
    Ask(Question),
    /// The body is the load of this number.
    Load(u32),
    /// The page of this question, in HTML; or the page of a refusal, whose status is 400, 404, or 405 for
    /// another method than GET. The path is `/`, or begins with `/page/`.
    Page(Result<Question, u16>),
    /// The reply has this status, 400 or 404.
    Status(u16),
    /// The route has another method (405): GET, and POST too if `post` is true.
    NotAllowed { post: bool },
}

/// The routes of the server.
#[derive(Drop)]
pub struct Routes {
    router: Router<Topic>,
}

impl Model for Routes {
    ghost use Rattle.std.specs.Prelude.{◌≡◌};
    ghost use Rattle.aq_http.specs.Routes.{all_routes};

    ghost Value = { Unit {0} };

    ghost view = { λ _. tt };

    ghost invariant = { λ routes. routes.router ≡ all_routes };
}

impl Routes {
    /// The routes.
    pub fn new(alloc: Global) -> Result<Routes, Memory> {
        let mut router = Router::new(alloc);
        add_all(&mut router, &ROUTES)?;
        Ok(Routes { router })
    }

    /// What a verb and a target ask. It takes no memory.
    #[tactic(auto, unfolding(crate::specs::Routes::found))]
    pub fn find(&self, verb: Verb, target: &[u8]) -> Found
        ensures value { result ≡ found verb target.now }
        ensures asked { IsFound result }
    {
        let path = before(b'?', target);
        match page_path(path) {
            Some(page) => Found::Page(self.find_page(verb, page)),
            None => self.find_plain(verb, path),
        }
    }

    /// The question of the page that stands behind `/page` at this path, or the status that refuses it.
    fn find_page(&self, verb: Verb, path: &[u8]) -> Result<Question, u16>
        ensures value { result ≡ page_on verb (route_of path.now) path.now }
        ensures asked { IsPage result }
    {
        match self.route(path) {
            Some(topic) => page_on(verb, topic, path),
            None => Err(NOT_FOUND),
        }
    }

    /// What is asked at a path that no page has.
    fn find_plain(&self, verb: Verb, path: &[u8]) -> Found
        ensures value { result ≡ found_on verb (route_of path.now) path.now }
        ensures asked { IsFound result }
    {
        match self.route(path) {
            Some(topic) => found_at(verb, topic, path),
            None => Found::Status(NOT_FOUND),
        }
    }

    fn route(&self, path: &[u8]) -> Option<Topic>
        ensures { result ≡ route_of path.now }
    {
        match from_utf8(path) {
            Ok(text) => self.route_of_text(text),
            Err(_) => None,
        }
    }

    fn route_of_text(&self, path: &str) -> Option<Topic>
        ensures { result ≡ option_map (λ row. row.value) (first all_routes path.now) }
    {
        match self.router.at(path) {
            Ok(found) => Some(*found.value),
            Err(_) => None,
        }
    }
}

/// Adds routes of which none conflicts with another: memory alone may be wanting.
#[tactic(auto, unfolding(crate::specs::Routes::with_routes))]
fn add_all(router: &mut Router<Topic>, routes: &[(&str, Topic)]) -> Result<(), Memory>
    requires { AreApart router.old (map (λ entry. (entry.0.now, entry.1)) routes.now) }
    ensures { OnOk result (router.new ≡ with_routes router.old (map (λ entry. (entry.0.now, entry.1)) routes.now)) }
{
    for entry in routes {
        let (text, topic) = *entry;
        if router.insert(text, topic).is_err() {
            return Err(Memory);
        }
    }
    Ok(())
}

/// The path of the question whose page a path asks for: that of the sites for `/`, and for any other page
/// what stands behind `/page`.
#[tactic(auto, unfolding(crate::specs::Routes::page_path))]
fn page_path(path: &[u8]) -> Option<&[u8]>
    ensures { option_map (λ page. page.now) result ≡ page_path path.now }
{
    if path == b"/".as_slice() {
        Some(b"/sites")
    } else if path.starts_with(b"/page/") {
        Some(&path[5..])
    } else {
        None
    }
}

/// The question of a page, or the status that refuses it: 404 for a topic that has no page.
fn page_on(verb: Verb, topic: Topic, path: &[u8]) -> Result<Question, u16>
    ensures value { result ≡ page_on verb (Some topic) path.now }
    ensures asked { IsPage result }
{
    if has_page(topic) {
        page_at(verb, topic, path)
    } else {
        Err(NOT_FOUND)
    }
}

/// The question of the page of a topic that has one. A page takes GET alone.
fn page_at(verb: Verb, topic: Topic, path: &[u8]) -> Result<Question, u16>
    requires { IsTrue (has_page topic) }
    ensures value { result ≡ page_at verb topic path.now }
    ensures asked { IsPage result }
{
    match verb {
        Verb::Get => asked(topic, path),
        Verb::Post | Verb::Other => Err(405),
    }
}

/// Whether the questions of a topic have a page. Observations to export, records and lines have none.
fn has_page(topic: Topic) -> bool
    ensures { result ≡ has_page topic }
{
    !matches!(topic, Topic::Export | Topic::Records | Topic::Lines)
}

fn found_at(verb: Verb, topic: Topic, path: &[u8]) -> Found
    ensures value { result ≡ found_at verb topic path.now }
    ensures asked { IsFound result }
{
    match verb {
        Verb::Get => match asked(topic, path) {
            Ok(question) => Found::Ask(question),
            Err(status) => Found::Status(status),
        },
        Verb::Post if takes_post(topic) => match load_number(part(2, path)) {
            Ok(number) => Found::Load(number),
            Err(status) => Found::Status(status),
        },
        Verb::Post | Verb::Other => Found::NotAllowed {
            post: takes_post(topic),
        },
    }
}

/// Whether the route of a topic takes POST, as that of a load does. Each takes GET.
fn takes_post(topic: Topic) -> bool
    ensures { result ≡ takes_post topic }
{
    topic == Topic::Reply
}

/// The question of a topic that the parts of a path ask.
#[tactic(auto, unfolding(crate::specs::Routes::texts_in))]
fn asked(topic: Topic, path: &[u8]) -> Result<Question, u16>
    ensures value { result ≡ asked_in_path topic (texts_in topic path.now) }
    ensures range { IfOk result (λ question. IsTrue (is_asked question)) }
    ensures topic { IfOk result (λ question. topic_of question ≡ topic) }
    ensures status { IfErr result IsFoundStatus }
{
    match topic {
        Topic::Sites | Topic::Loads | Topic::Records => asked_in_path(topic, &[]),
        Topic::Reply | Topic::Monitors | Topic::Events | Topic::Reports => {
            asked_in_path(topic, &[part(2, path)])
        }
        Topic::Report => asked_in_path(topic, &[part(2, path), part(3, path)]),
        Topic::Windows | Topic::Days | Topic::Pm25 | Topic::Pm10 => {
            asked_in_path(topic, &[part(2, path), part(4, path)])
        }
        Topic::WhatIf => asked_in_path(
            topic,
            &[part(2, path), part(3, path), part(4, path), part(5, path)],
        ),
        Topic::Value
        | Topic::Export
        | Topic::Decisive
        | Topic::Combined
        | Topic::Area
        | Topic::Flags
        | Topic::Daily
        | Topic::Highest
        | Topic::Completeness
        | Topic::Lines => asked_in_path(topic, &[part(2, path), part(3, path), part(4, path)]),
    }
}

#[tactic(auto, unfolding(crate::specs::Routes::load_number))]
fn load_number(text: &[u8]) -> Result<u32, u16>
    ensures value { result ≡ load_number text.now }
    ensures range { IfOk result (λ number. IsTrue (is_load_number number)) }
    ensures status { IfErr result IsFoundStatus }
{
    let number = number_to(u64::from(LAST_LOAD_NUMBER), text).ok_or(BAD_REQUEST)?;
    Ok(number as u32)
}

/// The part of a path after so many slashes, up to the next.
fn part(slashes: usize, path: &[u8]) -> &[u8]
    ensures { result.now ≡ part slashes path.now }
{
    let mut rest = path;
    let mut left = slashes;
    while left > 0 {
        rest = behind(b'/', rest);
        left -= 1;
    }
    before(b'/', rest)
}

/// What stands before the first such byte, or all if there is none.
fn before(byte: u8, text: &[u8]) -> &[u8]
    ensures { result.now ≡ before_first (λ b. b == byte) text.now }
{
    match text.iter().position(|b| *b == byte) {
        Some(place) => &text[..place],
        None => text,
    }
}

/// What stands after the first such byte, or nothing if there is none.
fn behind(byte: u8, text: &[u8]) -> &[u8]
    ensures { result.now ≡ after_first (λ b. b == byte) text.now }
{
    match text.iter().position(|b| *b == byte) {
        Some(place) => &text[place + 1..],
        None => &[],
    }
}
