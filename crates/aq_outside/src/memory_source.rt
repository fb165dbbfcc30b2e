use crate::memory_line::copy_front;
use crate::streams::Source;
use aq_base::Failed;
use std::marker::Model;

/// A source in memory, which fails at the calls that it is told to. Contracts see its state.
#[derive(Drop)]
pub struct MemorySource {
    bytes: Vec<u8>,
    at: usize,
    failing: Vec<u64>,
    calls: u64,
    faults: u64,
}

impl Model for MemorySource {
    ghost use Rattle.std.specs.Prelude.{◌≤◌, drop, vec_len};
    ghost use Rattle.aq_outside.specs.MemoryStreams.{SourceState};

    ghost Value = { SourceState };

    ghost view = { λ source. record { left = drop source.at source.bytes.items; failing = source.failing.items; calls = source.calls; faults = source.faults } };

    ghost invariant = { λ source. source.at ≤ vec_len source.bytes };
}

impl MemorySource {
    ghost use Rattle.std.specs.Prelude.{◌≡◌};

    /// A source of these bytes, which fails at the calls with these numbers, counted from 1.
    pub fn new(bytes: Vec<u8>, failing: Vec<u64>) -> MemorySource
        ensures { result ≡
            record { left = bytes.items; failing = failing.items; calls = 0; faults = 0 } }
    {
        MemorySource {
            bytes,
            at: 0,
            failing,
            calls: 0,
            faults: 0,
        }
    }
}

impl Source for MemorySource {
    ghost use Rattle.std.specs.Prelude.{◌≡◌, ◌↔◌, IsTrue, IsErr, IfOk, OnErr, Some};
    ghost use Rattle.aq_base.specs.Faults.{is_listed, next};
    ghost use Rattle.aq_outside.specs.Door.{HasCause, faults_after};
    ghost use Rattle.aq_outside.specs.Outside.{Moves};

    ghost seen = { λ source. record { left = Some source.left; faults = source.faults } };

    fn read(&mut self, buffer: &mut [u8]) -> Result<usize, Failed>
        ensures moved { IfOk result
            (λ n. Moves (Some self.old.left) (Some self.new.left) buffer.new n) }
        ensures failed { OnErr result (self.new.left ≡ self.old.left) }
        ensures cause { HasCause self.old.faults self.new.faults result }

        // It fails exactly at the listed calls.
        ensures listed { IsErr result ↔ IsTrue (is_listed self.old.failing (next self.old.calls)) }
        ensures faults { self.new.faults ≡ faults_after self.old.faults result }
        ensures calls { self.new.calls ≡ next self.old.calls }
        ensures kept { self.new.failing ≡ self.old.failing }
    {
        self.calls = self.calls.saturating_add(1);
        if self.failing.contains(&self.calls) {
            self.faults = self.faults.saturating_add(1);
            return Err(Failed);
        }
        let n = copy_front(&self.bytes[self.at..], buffer);
        self.at += n;
        Ok(n)
    }
}
