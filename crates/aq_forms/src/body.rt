//! The body of a load, whose lines are counted once.
ghost use Rattle.std.specs.Prelude.{◌≡◌, ◌≤◌, ◌<◌, length, IfErr, IfOk, OnOk};
ghost use Rattle.aq_rules.specs.Lines.Lines.{line_count};
ghost use Rattle.aq_rules.specs.Limits.{MOST_BYTES, MOST_LINES};

use crate::lines::count_lines;
use aq_base::{MOST_BYTES, MOST_LINES};
use std::marker::Model;

/// The body of a load within the limits: at most 8,388,608 bytes and 120,000 lines, which are counted
/// once. Contracts see its bytes.
#[derive(Drop)]
pub struct Body<'a> {
    text: &'a [u8],
    lines: u32,
}

impl<'a> Model for Body<'a> {
    ghost use Rattle.std.specs.Prelude.{◌≡◌, ◌≤◌, ℕ, List, length};
    ghost use Rattle.aq_rules.specs.Lines.Lines.{line_count};
    ghost use Rattle.aq_rules.specs.Limits.{MOST_BYTES, MOST_LINES};

    ghost Value = { List ℕ };

    ghost view = { λ body. body.text.now };

    ghost invariant = { λ body. (length body.text.now ≤ MOST_BYTES) × (body.lines ≡ line_count body.text.now) × (body.lines ≤ MOST_LINES) };
}

impl<'a> Body<'a> {
    /// A text of at most 8,388,608 bytes as a body, or the number of its lines if these are more than may
    /// be.
    pub fn new(text: &'a [u8]) -> Result<Body<'a>, u32>
        requires { length text.now ≤ MOST_BYTES }
        ensures body { IfOk result (λ body. body ≡ text.now) }
        ensures few { OnOk result (line_count text.now ≤ MOST_LINES) }
        ensures too_many { IfErr result (λ lines. (lines ≡ line_count text.now) × (MOST_LINES < lines)) }
    {
        let lines = count_lines(text);
        if lines > MOST_LINES {
            return Err(lines);
        }
        Ok(Body { text, lines })
    }

    /// Its bytes.
    pub fn text(&self) -> &'a [u8]
        ensures text { result.now ≡ self.now }
        ensures bytes { length self.now ≤ MOST_BYTES }
        ensures lines { line_count self.now ≤ MOST_LINES }
    {
        self.text
    }

    /// The number of its lines, skipped ones among them.
    pub fn line_count(&self) -> u32
        ensures count { result ≡ line_count self.now }
        ensures few { line_count self.now ≤ MOST_LINES }
    {
        self.lines
    }
}
