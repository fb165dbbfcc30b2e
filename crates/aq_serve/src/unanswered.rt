ghost use Rattle.std.specs.Prelude.{◌≡◌, ◌≤◌, ◌++◌, length, drop, OnOk};

use aq_base::Memory;
use std::alloc::Global;
use std::marker::Model;

/// The bytes of a connection that were read and are not answered. Contracts see them as a list.
#[derive(Drop)]
pub(crate) struct Unanswered {
    bytes: Vec<u8>,
    start: usize,
}

impl Model for Unanswered {
    ghost use Rattle.std.specs.Prelude.{ℕ, ◌≤◌, List, drop, length};

    ghost Value = { List ℕ };

    ghost view = { λ unanswered. drop unanswered.start unanswered.bytes.items };

    ghost invariant = { λ unanswered. unanswered.start ≤ length unanswered.bytes.items };
}

impl Unanswered {
    ghost use Rattle.std.specs.Prelude.{◌≡◌, ◌≤◌, [], ◌++◌, length, drop, OnOk};

    /// None. It takes no memory.
    pub(crate) fn new(alloc: Global) -> Unanswered
        ensures { result ≡ [] }
    {
        Unanswered {
            bytes: Vec::new(alloc),
            start: 0,
        }
    }

    /// All bytes, in order.
    pub(crate) fn as_slice(&self) -> &[u8]
        ensures { result.now ≡ self.now }
    {
        &self.bytes[self.start..]
    }

    /// Drops the first bytes, which are answered. None is moved.
    pub(crate) fn skip(&mut self, count: usize)
        requires { count ≤ length self.old }
        ensures { self.new ≡ drop count self.old }
    {
        self.start += count;
    }

    /// Puts a piece after the bytes. What was answered goes first, so that the bytes of earlier
    /// requests take no memory.
    pub(crate) fn add(&mut self, alloc: Global, piece: &[u8]) -> Result<(), Memory>
        ensures { OnOk result (self.new ≡ self.old ++ piece.now) }
    {
        self.shed(alloc)?;
        push_behind(&mut self.bytes, self.start, piece)
    }

    /// Lets go of what was answered.
    fn shed(&mut self, alloc: Global) -> Result<(), Memory>
        ensures { OnOk result (self.new ≡ self.old) }
    {
        if self.start > 0 {
            self.bytes = Vec::from_slice(alloc, &self.bytes[self.start..])?;
            self.start = 0;
        }
        Ok(())
    }
}

// Puts a piece after the bytes from a start on.
fn push_behind(bytes: &mut Vec<u8>, start: usize, piece: &[u8]) -> Result<(), Memory>
    requires { start ≤ length bytes.old.items }
    ensures rest { OnOk result
        (drop start bytes.new.items ≡ drop start bytes.old.items ++ piece.now) }
    ensures more { length bytes.old.items ≤ length bytes.new.items }
{
    bytes.extend_from_slice(piece)?;
    Ok(())
}
