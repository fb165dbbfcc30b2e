//! The question of each row of the table, by the texts of its parts.
ghost use Rattle.std.specs.Prelude.{◌≡◌, ◌∷◌, [], length, IfSome, None};
ghost use Rattle.aq_base.specs.declared.question.Topic.TheVariants.{Area, Combined, Completeness, Daily, Days, Decisive, Events, Export, Flags, Highest, Lines, Loads, Monitors, Pm10, Pm25, Records, Reply, Report, Reports, Sites, Value, WhatIf, Windows};
ghost use Rattle.aq_rules.specs.Questions.Asking.{question_of};
ghost use Rattle.aq_rules.specs.Questions.Table.{parts_of};
ghost use Rattle.aq_words.specs.Texts.{texts_of};

use crate::lists::{area_word, assumed_list};
use crate::years::{combined_word, design_year};
use aq_base::{LAST_LOAD_NUMBER, Question, Topic};
use aq_rd::{day_word, number_to, parameter_in, site_word, standard_word, year_in};

/// The question of a row of the table whose parts these texts name: one for each part, and none more.
pub fn question_of(topic: Topic, texts: &[&[u8]]) -> Option<Question>
    ensures { result ≡ question_of topic (texts_of texts.now) }
{
    match topic {
        Topic::Value => value(texts),
        Topic::Report => report(texts),
        Topic::Export => export(texts),
        Topic::WhatIf => what_if(texts),
        Topic::Decisive => decisive(texts),
        Topic::Combined => combined(texts),
        Topic::Area => area(texts),
        Topic::Reply => reply(texts),
        Topic::Windows => windows(texts),
        Topic::Days => days(texts),
        Topic::Pm25 => pm25(texts),
        Topic::Pm10 => pm10(texts),
        Topic::Sites => sites(texts),
        Topic::Monitors => monitors(texts),
        Topic::Events => events(texts),
        Topic::Flags => flags(texts),
        Topic::Loads => loads(texts),
        Topic::Daily => daily(texts),
        Topic::Highest => highest(texts),
        Topic::Completeness => completeness(texts),
        Topic::Reports => reports(texts),
        Topic::Records => records(texts),
        Topic::Lines => lines(texts),
    }
}

#[tactic(auto, unfolding(aq_rules::specs::Questions::Asking::question_of))]
fn value(texts: &[&[u8]]) -> Option<Question>
    ensures { result ≡ question_of Value (texts_of texts.now) }
{
    let (standard, site, year) = three(Topic::Value, texts)?;
    let standard = standard_word(standard)?;
    let site = site_word(site)?;
    let year = design_year(year)?;
    Some(Question::Value(standard, site, year))
}

#[tactic(auto, unfolding(aq_rules::specs::Questions::Asking::question_of))]
fn report(texts: &[&[u8]]) -> Option<Question>
    ensures { result ≡ question_of Report (texts_of texts.now) }
{
    let (standard, year) = two(Topic::Report, texts)?;
    let standard = standard_word(standard)?;
    let year = design_year(year)?;
    Some(Question::Report(standard, year))
}

#[tactic(auto, unfolding(aq_rules::specs::Questions::Asking::question_of))]
fn export(texts: &[&[u8]]) -> Option<Question>
    ensures { result ≡ question_of Export (texts_of texts.now) }
{
    let (site, parameter, year) = three(Topic::Export, texts)?;
    let site = site_word(site)?;
    let pollutant = parameter_in(parameter)?;
    let year = year_in(year)?;
    Some(Question::Export(site, pollutant, year))
}

#[tactic(auto, unfolding(aq_rules::specs::Questions::Asking::question_of))]
fn what_if(texts: &[&[u8]]) -> Option<Question>
    ensures { result ≡ question_of WhatIf (texts_of texts.now) }
{
    let (standard, site, year, list) = four(Topic::WhatIf, texts)?;
    let standard = standard_word(standard)?;
    let site = site_word(site)?;
    let year = design_year(year)?;
    let list = assumed_list(list)?;
    Some(Question::WhatIf(standard, site, year, list))
}

#[tactic(auto, unfolding(aq_rules::specs::Questions::Asking::question_of))]
fn decisive(texts: &[&[u8]]) -> Option<Question>
    ensures { result ≡ question_of Decisive (texts_of texts.now) }
{
    let (standard, site, year) = three(Topic::Decisive, texts)?;
    let standard = standard_word(standard)?;
    let site = site_word(site)?;
    let year = design_year(year)?;
    Some(Question::Decisive(standard, site, year))
}

#[tactic(auto, unfolding(aq_rules::specs::Questions::Asking::question_of))]
fn combined(texts: &[&[u8]]) -> Option<Question>
    ensures { result ≡ question_of Combined (texts_of texts.now) }
{
    let (standard, site, year) = three(Topic::Combined, texts)?;
    let standard = combined_word(standard)?;
    let site = site_word(site)?;
    let year = design_year(year)?;
    Some(Question::Combined(standard, site, year))
}

#[tactic(auto, unfolding(aq_rules::specs::Questions::Asking::question_of))]
fn area(texts: &[&[u8]]) -> Option<Question>
    ensures { result ≡ question_of Area (texts_of texts.now) }
{
    let (standard, area, year) = three(Topic::Area, texts)?;
    let standard = standard_word(standard)?;
    let area = area_word(area)?;
    let year = design_year(year)?;
    Some(Question::Area(standard, area, year))
}

#[tactic(auto, unfolding(aq_rules::specs::Questions::Asking::question_of))]
fn reply(texts: &[&[u8]]) -> Option<Question>
    ensures { result ≡ question_of Reply (texts_of texts.now) }
{
    let [number] = texts else {
        return None;
    };
    let number = number_to(u64::from(LAST_LOAD_NUMBER), number)?;
    Some(Question::Reply(number as u32))
}

#[tactic(auto, unfolding(aq_rules::specs::Questions::Asking::question_of))]
fn windows(texts: &[&[u8]]) -> Option<Question>
    ensures { result ≡ question_of Windows (texts_of texts.now) }
{
    let (site, day) = two(Topic::Windows, texts)?;
    let site = site_word(site)?;
    let day = day_word(day)?;
    Some(Question::Windows(site, day))
}

#[tactic(auto, unfolding(aq_rules::specs::Questions::Asking::question_of))]
fn days(texts: &[&[u8]]) -> Option<Question>
    ensures { result ≡ question_of Days (texts_of texts.now) }
{
    let (site, year) = two(Topic::Days, texts)?;
    let site = site_word(site)?;
    let year = year_in(year)?;
    Some(Question::Days(site, year))
}

#[tactic(auto, unfolding(aq_rules::specs::Questions::Asking::question_of))]
fn pm25(texts: &[&[u8]]) -> Option<Question>
    ensures { result ≡ question_of Pm25 (texts_of texts.now) }
{
    let (site, year) = two(Topic::Pm25, texts)?;
    let site = site_word(site)?;
    let year = year_in(year)?;
    Some(Question::Pm25(site, year))
}

#[tactic(auto, unfolding(aq_rules::specs::Questions::Asking::question_of))]
fn pm10(texts: &[&[u8]]) -> Option<Question>
    ensures { result ≡ question_of Pm10 (texts_of texts.now) }
{
    let (site, year) = two(Topic::Pm10, texts)?;
    let site = site_word(site)?;
    let year = year_in(year)?;
    Some(Question::Pm10(site, year))
}

#[tactic(auto, unfolding(aq_rules::specs::Questions::Asking::question_of))]
fn monitors(texts: &[&[u8]]) -> Option<Question>
    ensures { result ≡ question_of Monitors (texts_of texts.now) }
{
    let [site] = texts else {
        return None;
    };
    let site = site_word(site)?;
    Some(Question::Monitors(site))
}

#[tactic(auto, unfolding(aq_rules::specs::Questions::Asking::question_of))]
fn events(texts: &[&[u8]]) -> Option<Question>
    ensures { result ≡ question_of Events (texts_of texts.now) }
{
    let [site] = texts else {
        return None;
    };
    let site = site_word(site)?;
    Some(Question::Events(site))
}

#[tactic(auto, unfolding(aq_rules::specs::Questions::Asking::question_of))]
fn flags(texts: &[&[u8]]) -> Option<Question>
    ensures { result ≡ question_of Flags (texts_of texts.now) }
{
    let (site, parameter, year) = three(Topic::Flags, texts)?;
    let site = site_word(site)?;
    let pollutant = parameter_in(parameter)?;
    let year = year_in(year)?;
    Some(Question::Flags(site, pollutant, year))
}

#[tactic(auto, unfolding(aq_rules::specs::Questions::Asking::question_of))]
fn daily(texts: &[&[u8]]) -> Option<Question>
    ensures { result ≡ question_of Daily (texts_of texts.now) }
{
    let (site, parameter, year) = three(Topic::Daily, texts)?;
    let site = site_word(site)?;
    let pollutant = parameter_in(parameter)?;
    let year = year_in(year)?;
    Some(Question::Daily(site, pollutant, year))
}

#[tactic(auto, unfolding(aq_rules::specs::Questions::Asking::question_of))]
fn highest(texts: &[&[u8]]) -> Option<Question>
    ensures { result ≡ question_of Highest (texts_of texts.now) }
{
    let (site, parameter, year) = three(Topic::Highest, texts)?;
    let site = site_word(site)?;
    let pollutant = parameter_in(parameter)?;
    let year = year_in(year)?;
    Some(Question::Highest(site, pollutant, year))
}

#[tactic(auto, unfolding(aq_rules::specs::Questions::Asking::question_of))]
fn completeness(texts: &[&[u8]]) -> Option<Question>
    ensures { result ≡ question_of Completeness (texts_of texts.now) }
{
    let (site, parameter, year) = three(Topic::Completeness, texts)?;
    let site = site_word(site)?;
    let pollutant = parameter_in(parameter)?;
    let year = year_in(year)?;
    Some(Question::Completeness(site, pollutant, year))
}

#[tactic(auto, unfolding(aq_rules::specs::Questions::Asking::question_of))]
fn reports(texts: &[&[u8]]) -> Option<Question>
    ensures { result ≡ question_of Reports (texts_of texts.now) }
{
    let [year] = texts else {
        return None;
    };
    let year = design_year(year)?;
    Some(Question::Reports(year))
}

#[tactic(auto, unfolding(aq_rules::specs::Questions::Asking::question_of))]
fn lines(texts: &[&[u8]]) -> Option<Question>
    ensures { result ≡ question_of Lines (texts_of texts.now) }
{
    let (site, parameter, year) = three(Topic::Lines, texts)?;
    let site = site_word(site)?;
    let pollutant = parameter_in(parameter)?;
    let year = year_in(year)?;
    Some(Question::Lines(site, pollutant, year))
}

#[tactic(auto, unfolding(aq_rules::specs::Questions::Asking::question_of))]
fn sites(texts: &[&[u8]]) -> Option<Question>
    ensures { result ≡ question_of Sites (texts_of texts.now) }
{
    if texts.is_empty() {
        Some(Question::Sites)
    } else {
        None
    }
}

#[tactic(auto, unfolding(aq_rules::specs::Questions::Asking::question_of))]
fn loads(texts: &[&[u8]]) -> Option<Question>
    ensures { result ≡ question_of Loads (texts_of texts.now) }
{
    if texts.is_empty() {
        Some(Question::Loads)
    } else {
        None
    }
}

#[tactic(auto, unfolding(aq_rules::specs::Questions::Asking::question_of))]
fn records(texts: &[&[u8]]) -> Option<Question>
    ensures { result ≡ question_of Records (texts_of texts.now) }
{
    if texts.is_empty() {
        Some(Question::Records)
    } else {
        None
    }
}

/// Two texts, if there are as many.
#[tactic(auto, using(crate::proofs::Counted::wrong_count))]
fn two<'a>(topic: Topic, texts: &[&'a [u8]]) -> Option<(&'a [u8], &'a [u8])>
    requires { length (parts_of topic) ≡ 2 }
    ensures texts { IfSome result (λ parts. texts_of texts.now ≡ parts.0.now ∷ parts.1.now ∷ []) }
    ensures other { result ≡ None → None ≡ question_of topic (texts_of texts.now) }
{
    match texts {
        [first, second] => Some((first, second)),
        _ => None,
    }
}

/// Three texts, if there are as many.
#[tactic(auto, using(crate::proofs::Counted::wrong_count))]
fn three<'a>(topic: Topic, texts: &[&'a [u8]]) -> Option<(&'a [u8], &'a [u8], &'a [u8])>
    requires { length (parts_of topic) ≡ 3 }
    ensures texts { IfSome result (λ parts. texts_of texts.now ≡ parts.0.now ∷ parts.1.now ∷ parts.2.now ∷ []) }
    ensures other { result ≡ None → None ≡ question_of topic (texts_of texts.now) }
{
    match texts {
        [first, second, third] => Some((first, second, third)),
        _ => None,
    }
}

/// Four texts, if there are as many.
#[tactic(auto, using(crate::proofs::Counted::wrong_count))]
fn four<'a>(topic: Topic, texts: &[&'a [u8]]) -> Option<(&'a [u8], &'a [u8], &'a [u8], &'a [u8])>
    requires { length (parts_of topic) ≡ 4 }
    ensures texts { IfSome result (λ parts. texts_of texts.now
        ≡ parts.0.now ∷ parts.1.now ∷ parts.2.now ∷ parts.3.now ∷ []) }
    ensures other { result ≡ None → None ≡ question_of topic (texts_of texts.now) }
{
    match texts {
        [first, second, third, fourth] => Some((first, second, third, fourth)),
        _ => None,
    }
}
