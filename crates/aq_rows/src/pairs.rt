//! Pairs of numbers with a colon between them: listed lines, and the rules of the rest.
ghost use Rattle.std.specs.Prelude.{◌≡◌, ◌≤◌, ◌==◌, IfSome, find};
ghost use Rattle.aq_base.specs.Rule.{rule_number};
ghost use Rattle.aq_rules.specs.Limits.{MOST_LINES};
ghost use Rattle.aq_rows.specs.Loaded.{listed_word, rest_word, rule_in, small_number};

use crate::texts::cut_at;
use aq_base::{ListedLine, MOST_LINES, RestRule, Rule};
use aq_rd::any_number;

/// A listed line, `line:rule`, of a body of the most lines.
#[tactic(auto, using(crate::proofs::PairTexts::no_listed), unfolding(crate::specs::Loaded::listed_word))]
pub(crate) fn listed_word(word: &[u8]) -> Option<ListedLine>
    ensures { result ≡ listed_word word.now }
{
    let (line, rule) = cut_at(b':', word)?;
    let line = small_number(line)?;
    let rule = rule_in(rule)?;
    Some(ListedLine { line, rule })
}

/// A rule of the rest, `rule:count`, of a body of the most lines.
#[tactic(auto, using(crate::proofs::PairTexts::no_rest), unfolding(crate::specs::Loaded::rest_word))]
pub(crate) fn rest_word(word: &[u8]) -> Option<RestRule>
    ensures value { result ≡ rest_word word.now }
    ensures few { IfSome result (λ counted. counted.count ≤ MOST_LINES) }
{
    let (rule, count) = cut_at(b':', word)?;
    let rule = rule_in(rule)?;
    let count = small_number(count)?;
    Some(RestRule { rule, count })
}

/// The rule with the number that a text writes.
#[tactic(auto, using(crate::proofs::PairTexts::by_small))]
fn rule_in(text: &[u8]) -> Option<Rule>
    ensures { result ≡ rule_in text.now }
{
    let number = small_number(text)?;
    rule_with(&Rule::all(), number)
}

fn rule_with(rules: &[Rule], number: u32) -> Option<Rule>
    ensures { result ≡ find (λ r. rule_number r == number) rules.now }
{
    for rule in rules {
        if u32::from(rule.number()) == number {
            return Some(*rule);
        }
    }
    None
}

/// A number of digits, zeros at its front among them, that is at most that of the most lines.
#[tactic(auto, using(crate::proofs::PairTexts::no_number, crate::proofs::PairTexts::whole_number))]
fn small_number(text: &[u8]) -> Option<u32>
    ensures value { result ≡ small_number text.now }
    ensures few { IfSome result (λ n. n ≤ MOST_LINES) }
{
    if text.is_empty() {
        return None;
    }
    let number = any_number(text)?;
    if number <= u64::from(MOST_LINES) {
        Some(number as u32)
    } else {
        None
    }
}
