//! The reply to a load.
ghost use Rattle.std.specs.Prelude.{◌≡◌, ◌<◌, ◌≤◌, ◌++◌, ◌^◌, length, filter_map, IfOk, OnOk};
ghost use Rattle.std.specs.Option.{option_to_list};
ghost use Rattle.aq_staging.specs.Counts.{counted_in, CountsByNumber};
ghost use Rattle.aq_rules.specs.Office.Load.{reply_for, rest_of};

use aq_base::{Listed, ListedLine, LoadReply, MOST_LISTED, Memory, Rest, RestRule, Rule};
use std::alloc::Global;

/// A rule's number is below this.
const NUMBERS: usize = 256;

/// How many of the lines are refused under each rule, by its number.
fn counts_by_number(refused: &[ListedLine]) -> [u32; NUMBERS]
    requires { length refused.now < 2 ^ 32 }
    ensures { CountsByNumber refused.now result }
{
    let mut counts = [0; NUMBERS];
    for line in refused {
        counts[usize::from(line.rule.number())] += 1;
    }
    counts
}

/// The lines by rule, in the order of the rules.
fn rest_of(alloc: Global, refused: &[ListedLine]) -> Result<Rest, Memory>
    requires { length refused.now < 2 ^ 32 }
    ensures { IfOk result (λ rest. rest ≡ rest_of refused.now) }
{
    let counts = counts_by_number(refused);
    let mut rest = Rest::new(alloc);
    add_counts(&mut rest, &Rule::all(), &counts)?;
    Ok(rest)
}

/// Adds how many lines are refused under each of these rules.
fn add_counts(rest: &mut Rest, rules: &[Rule], counts: &[u32; NUMBERS]) -> Result<(), Memory>
    ensures { OnOk result (rest.new ≡ rest.old ++ filter_map (counted_in counts.now) rules.now) }
{
    for rule in rules {
        add_count(rest, *rule, counts)?;
    }
    Ok(())
}

/// Adds how many lines are refused under a rule, unless none is.
fn add_count(rest: &mut Rest, rule: Rule, counts: &[u32; NUMBERS]) -> Result<(), Memory>
    ensures { OnOk result (rest.new ≡ rest.old ++ option_to_list (counted_in counts.now rule)) }
{
    let count = counts[usize::from(rule.number())];
    if count > 0 {
        rest.push(RestRule { rule, count })?;
    }
    Ok(())
}

fn listed_of(alloc: Global, refused: &[ListedLine]) -> Result<Listed, Memory>
    ensures { IfOk result (λ listed. listed ≡ refused.now) }
{
    let mut listed = Listed::new(alloc);
    for line in refused {
        listed.push(*line)?;
    }
    Ok(listed)
}

/// The reply to a load, by a pass over the refused lines.
pub(crate) fn reply_of(
    alloc: Global,
    number: u32,
    lines: u32,
    taken: u32,
    refused: &[ListedLine],
) -> Result<LoadReply, Memory>
    requires { length refused.now ≤ taken }
    ensures { IfOk result (λ reply. reply ≡ reply_for number lines taken refused.now) }
{
    let cut = refused.len().min(MOST_LISTED);
    Ok(LoadReply {
        number,
        lines,
        accepted: taken - refused.len() as u32,
        refused: refused.len() as u32,
        listed: listed_of(alloc, &refused[..cut])?,
        rest: rest_of(alloc, &refused[cut..])?,
    })
}
