//! The questions about an office, as the words of a command and the texts in a path ask them: two readings of
//! one table.
ghost use Rattle.std.specs.Prelude.{◌≡◌, ◌⊎◌, map, string_bytes, IfErr, IfOk, IfSome, IsTrue};
ghost use Rattle.aq_rules.specs.Questions.Asking.{asked_in_path, asked_in_words, is_asked, question_of, refusal_of, topic_named};
ghost use Rattle.aq_rules.specs.Questions.Table.{all_topics, name_of, topic_of};
ghost use Rattle.aq_words.specs.Parts.{part_of};
ghost use Rattle.aq_words.specs.Texts.{texts_of};
ghost use Rattle.aq_words.specs.declared.asking.TheConstants.{BAD_REQUEST, NOT_FOUND};

use crate::parts::{Part, is_misspelled, parts_of};
use crate::rows::question_of;
use aq_base::{Question, Topic};
use aq_rules::questions::asking::questions_asked_are_in_range;

/// A text in a path does not spell its part.
pub const BAD_REQUEST: u16 = 400;

/// There is no such standard or parameter.
pub const NOT_FOUND: u16 = 404;

/// The question that the words of a command ask: its name, and a word for each part.
/// It takes no memory.
#[tactic(auto, unfolding(aq_rules::specs::Questions::Asking::asked_in_words))]
pub fn asked_in_words(words: &[String]) -> Option<Question>
    ensures question { result ≡ asked_in_words all_topics (map string_bytes words.now) }
    ensures range { IfSome result (λ question. IsTrue (is_asked question)) }
{
    questions_asked_are_in_range();
    let [name, words @ ..] = words else {
        return None;
    };
    let topic = topic_named(name.as_bytes())?;
    question_in(topic, words)
}

/// The question of a row by the words of its parts.
fn question_in(topic: Topic, words: &[String]) -> Option<Question>
    ensures { result ≡ question_of topic (map string_bytes words.now) }
{
    match words {
        [] => question_of(topic, &[]),
        [one] => question_of(topic, &[one.as_bytes()]),
        [one, two] => question_of(topic, &[one.as_bytes(), two.as_bytes()]),
        [one, two, three] => {
            question_of(topic, &[one.as_bytes(), two.as_bytes(), three.as_bytes()])
        }
        [one, two, three, four] => question_of(
            topic,
            &[
                one.as_bytes(),
                two.as_bytes(),
                three.as_bytes(),
                four.as_bytes(),
            ],
        ),
        _ => None,
    }
}

/// The question of this name, if there is one.
fn topic_named(name: &[u8]) -> Option<Topic>
    ensures { result ≡ topic_named all_topics name.now }
{
    first_named(&Topic::all(), name)
}

fn first_named(topics: &[Topic], name: &[u8]) -> Option<Topic>
    ensures { result ≡ topic_named topics.now name.now }
{
    for topic in topics {
        if name_of(*topic).as_bytes() == name {
            return Some(*topic);
        }
    }
    None
}

/// The name of a question, with which its words begin.
fn name_of(topic: Topic) -> &'static str
    ensures { result.now ≡ name_of topic }
{
    match topic {
        Topic::Value => "show",
        Topic::Report => "report",
        Topic::Export => "export",
        Topic::WhatIf => "whatif",
        Topic::Decisive => "decisive",
        Topic::Combined => "combined",
        Topic::Area => "area",
        Topic::Reply => "reply",
        Topic::Windows => "windows",
        Topic::Days => "days",
        Topic::Pm25 => "pm25",
        Topic::Pm10 => "pm10",
        Topic::Sites => "sites",
        Topic::Monitors => "monitors",
        Topic::Events => "events",
        Topic::Flags => "flags",
        Topic::Loads => "loads",
        Topic::Daily => "daily",
        Topic::Highest => "highest",
        Topic::Completeness => "completeness",
        Topic::Reports => "reports",
        Topic::Records => "records",
        Topic::Lines => "lines",
    }
}

/// The question of a row that the texts in its path ask. The refusal is 400 if a text does not spell its part,
/// and else 404: there is no such standard or parameter.
#[tactic(auto, unfolding(aq_rules::specs::Questions::Asking::asked_in_path))]
pub fn asked_in_path(topic: Topic, texts: &[&[u8]]) -> Result<Question, u16>
    ensures question { result ≡ asked_in_path topic (texts_of texts.now) }
    ensures range { IfOk result (λ question. IsTrue (is_asked question)) }
    ensures topic { IfOk result (λ question. topic_of question ≡ topic) }
    ensures status { IfErr result (λ status. (status ≡ BAD_REQUEST) ⊎ (status ≡ NOT_FOUND)) }
{
    questions_asked_are_in_range();
    match question_of(topic, texts) {
        Some(question) => Ok(question),
        None => Err(refusal_of(parts_of(topic), texts)),
    }
}

fn refusal_of(parts: &[Part], texts: &[&[u8]]) -> u16
    ensures { result ≡ refusal_of (map part_of parts.now) (texts_of texts.now) }
{
    if is_misspelled(parts, texts) {
        BAD_REQUEST
    } else {
        NOT_FOUND
    }
}
