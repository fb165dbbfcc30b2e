ghost use Rattle.std.specs.Prelude.{◌≡◌, ◌+◌, ◌<◌, ◌≤◌, [], ◌++◌, take, drop, length, vec_len, vec_capacity};

use aq_base::Memory;
use std::alloc::Global;
use std::marker::Model;

/// A connection of a door in memory. Contracts see its state.
#[derive(Drop)]
pub(crate) struct MemoryLine {
    input: Vec<u8>,
    at: usize,
    written: Vec<u8>,
    room: usize,
    reads: u64,
    writes: u64,
}

impl Model for MemoryLine {
    ghost use Rattle.std.specs.Prelude.{◌≤◌, drop, vec_len, vec_capacity};
    ghost use Rattle.aq_outside.specs.Memories.{LineState};

    ghost Value = { LineState };

    ghost view = { λ line. record { left = drop line.at line.input.items; written = line.written.items; room = line.room; reads = line.reads; writes = line.writes } };

    ghost invariant = { λ line. (line.at ≤ vec_len line.input) × (vec_len line.written ≤ line.room) × (line.room ≤ vec_capacity line.written) };
}

impl MemoryLine {
    ghost use Rattle.std.specs.Prelude.{◌≡◌, ◌+◌, ◌<◌, ◌≤◌, ◌&&◌, ◌==◌, nat_lt, ◌++◌, [], take, length, IfOk};
    ghost use Rattle.aq_outside.specs.Memories.{finds_no_room};

    /// A connection with these bytes, and room for so many written ones, which it takes at once.
    pub(crate) fn new(alloc: Global, input: Vec<u8>, room: usize) -> Result<MemoryLine, Memory>
        ensures { IfOk result (λ line. line ≡
            record { left = input.items; written = []; room = room; reads = 0; writes = 0 }) }
    {
        Ok(MemoryLine {
            input,
            at: 0,
            written: Vec::with_capacity(alloc, room)?,
            room,
            reads: 0,
            writes: 0,
        })
    }

    /// The bytes that were written.
    pub(crate) fn written(&self) -> &[u8]
        ensures { result.now ≡ self.now.written }
    {
        self.written.as_slice()
    }

    /// Forgets what was written.
    pub(crate) fn clear(&mut self)
        ensures { self.new ≡ record self.old { written = [] } }
    {
        self.written.clear();
    }

    /// Notes the counts as it is finished.
    pub(crate) fn finish(&mut self, reads: u64, writes: u64)
        ensures { self.new ≡ record self.old { reads = reads; writes = writes } }
    {
        self.reads = reads;
        self.writes = writes;
    }

    /// Moves bytes from the front of what is left into the buffer, as far as there is room.
    pub(crate) fn read(&mut self, buffer: &mut [u8]) -> usize
        ensures within { result ≤ length buffer.new }
        ensures moved { self.old.left ≡ take result buffer.new ++ self.new.left }
        ensures end { result ≡ 0 → 0 < length buffer.new → self.old.left ≡ [] }
        ensures written { self.new.written ≡ self.old.written }
        ensures room { self.new.room ≡ self.old.room }
    {
        let n = copy_front(&self.input[self.at..], buffer);
        self.at += n;
        n
    }

    /// How many bytes of a piece there is room for.
    pub(crate) fn room_for(&self, piece: &[u8]) -> usize
        ensures within { result ≤ length piece.now }
        ensures room { length self.now.written + result ≤ self.now.room }
        ensures none { finds_no_room self.now piece.now
            ≡ ((result == 0) && nat_lt 0 (length piece.now)) }
    {
        piece.len().min(self.room - self.written.len())
    }

    /// Puts the first bytes of a piece, for which there is room, after what was written.
    pub(crate) fn write(&mut self, piece: &[u8])
        requires { length self.old.written + length piece.now ≤ self.old.room }
        ensures { self.new ≡ record self.old { written = self.old.written ++ piece.now } }
    {
        push_all(&mut self.written, piece);
    }
}

/// Copies the front of what is left, as far as there is room.
pub(crate) fn copy_front(left: &[u8], buffer: &mut [u8]) -> usize
    ensures short { result ≤ length left.now }
    ensures within { result ≤ length buffer.new }
    ensures moved { left.now ≡ take result buffer.new ++ drop result left.now }
    ensures end { result ≡ 0 → 0 < length buffer.new → left.now ≡ [] }
{
    let n = left.len().min(buffer.len());
    buffer[..n].copy_from_slice(&left[..n]);
    n
}

/// Adds bytes for which there is room.
pub(crate) fn push_all(bytes: &mut Vec<u8>, piece: &[u8])
    requires { vec_len bytes.old + length piece.now ≤ vec_capacity bytes.old }
    ensures items { bytes.new.items ≡ bytes.old.items ++ piece.now }
    ensures capacity { vec_capacity bytes.old ≤ vec_capacity bytes.new }
{
    // There is room, so no memory is asked for.
    let _ = bytes.extend_from_slice(piece);
}
