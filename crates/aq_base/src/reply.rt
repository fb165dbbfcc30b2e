//! The reply to a load.
use crate::items::Items;
use crate::rule::Rule;

/// A refused line, by its number in the body from 1, and the first rule that it broke.
#[derive(Clone, Copy, Debug, PartialEq, Eq)]
pub struct ListedLine {
    pub line: u32,
    pub rule: Rule,
}

/// How many lines beyond those that are listed broke a rule.
#[derive(Clone, Copy, Debug, PartialEq, Eq)]
pub struct RestRule {
    pub rule: Rule,
    pub count: u32,
}

/// The first refused lines, in the order of the body.
pub type Listed = Items<ListedLine>;

/// The refused lines beyond those that are listed, by rule in rising number.
pub type Rest = Items<RestRule>;

/// What became of a load's lines. Skipped lines count among `lines` alone.
#[derive(Debug, Drop)]
pub struct LoadReply {
    pub number: u32,
    pub lines: u32,
    pub accepted: u32,
    pub refused: u32,
    pub listed: Listed,
    pub rest: Rest,
}
