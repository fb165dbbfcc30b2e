use crate::memory_line::push_all;
use crate::streams::Sink;
use aq_base::{Failed, Memory};
use std::alloc::Global;
use std::marker::Model;

/// A sink in memory with room for so many bytes, which fails at the calls that it is told to, and
/// if a piece with bytes finds no room. Contracts see its state.
#[derive(Drop)]
pub struct MemorySink {
    bytes: Vec<u8>,
    room: usize,
    failing: Vec<u64>,
    calls: u64,
    faults: u64,
}

impl Model for MemorySink {
    ghost use Rattle.std.specs.Prelude.{◌≤◌, vec_len, vec_capacity};
    ghost use Rattle.aq_outside.specs.MemoryStreams.{SinkState};

    ghost Value = { SinkState };

    ghost view = { λ sink. record { written = sink.bytes.items; room = sink.room; failing = sink.failing.items; calls = sink.calls; faults = sink.faults } };

    ghost invariant = { λ sink. (vec_len sink.bytes ≤ sink.room) × (sink.room ≤ vec_capacity sink.bytes) };
}

impl MemorySink {
    ghost use Rattle.std.specs.Prelude.{◌≡◌, [], IfOk};

    /// A sink with this room, which it takes at once, and that fails at the calls with these numbers,
    /// counted from 1.
    pub fn new(alloc: Global, room: u32, failing: Vec<u64>) -> Result<MemorySink, Memory>
        ensures { IfOk result (λ sink. sink ≡
            record { written = []; room = room; failing = failing.items; calls = 0; faults = 0 }) }
    {
        let room = room as usize;
        Ok(MemorySink {
            bytes: Vec::with_capacity(alloc, room)?,
            room,
            failing,
            calls: 0,
            faults: 0,
        })
    }

    /// The bytes that were written.
    pub fn written(&self) -> &[u8]
        ensures { result.now ≡ self.now.written }
    {
        self.bytes.as_slice()
    }
}

impl Sink for MemorySink {
    ghost use Rattle.std.specs.Prelude.{◌≡◌, ◌↔◌, ◌&&◌, ◌||◌, ◌==◌, not, length, IsTrue, IsErr, IfOk, OnErr, Some};
    ghost use Rattle.aq_base.specs.Faults.{is_listed, next};
    ghost use Rattle.aq_outside.specs.Door.{HasCause, faults_after};
    ghost use Rattle.aq_outside.specs.Outside.{Takes};
    ghost use Rattle.aq_outside.specs.MemoryStreams.{finds_no_room};

    ghost seen = { λ sink. record { written = Some sink.written; faults = sink.faults } };

    fn write(&mut self, piece: &[u8]) -> Result<usize, Failed>
        ensures taken { IfOk result
            (λ n. Takes (Some self.old.written) (Some self.new.written) piece.now n) }
        ensures failed { OnErr result (self.new.written ≡ self.old.written) }
        ensures cause { HasCause self.old.faults self.new.faults result }

        // It fails exactly at the listed calls, and if a piece with bytes finds no room.
        ensures listed { IsErr result
            ↔ IsTrue (is_listed self.old.failing (next self.old.calls)
            || finds_no_room self.old piece.now) }
        ensures faults { self.new.faults ≡ faults_after self.old.faults result }
        ensures calls { self.new.calls ≡ next self.old.calls }
        ensures kept { self.new.failing ≡ self.old.failing }
        ensures room { self.new.room ≡ self.old.room }
    {
        self.calls = self.calls.saturating_add(1);
        let n = piece.len().min(self.room - self.bytes.len());
        if self.failing.contains(&self.calls) || (n == 0 && !piece.is_empty()) {
            self.faults = self.faults.saturating_add(1);
            return Err(Failed);
        }
        push_all(&mut self.bytes, &piece[..n]);
        Ok(n)
    }
}
