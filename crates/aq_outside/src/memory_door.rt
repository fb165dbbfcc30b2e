ghost use Rattle.std.specs.Prelude.{◌≡◌, [], map, IfOk};

use crate::door::Door;
use crate::memory_line::MemoryLine;
use aq_base::{Failed, Memory};
use std::alloc::Global;
use std::marker::Model;

/// A door in memory, which fails at the calls that it is told to, and if a piece with bytes finds no
/// room. Contracts see its state.
#[derive(Drop)]
pub struct MemoryDoor {
    lines: Vec<MemoryLine>,
    accepted: usize,
    listens: Option<u16>,
    is_open: bool,
    failing_accepts: Vec<u64>,
    failing_transfers: Vec<u64>,
    accept_calls: u64,
    transfer_calls: u64,
    accepts: u64,
    reads: u64,
    writes: u64,
}

impl Model for MemoryDoor {
    ghost use Rattle.std.specs.Prelude.{◌≡◌, true, ◌<◌, ◌≤◌, length};
    ghost use Rattle.aq_outside.specs.Memories.{DoorState};

    ghost Value = { DoorState };

    ghost view = { λ door. record {
      lines = door.lines.items;
      accepted = door.accepted;
      listens = door.listens;
      is_open = door.is_open;
      failing_accepts = door.failing_accepts.items;
      failing_transfers = door.failing_transfers.items;
      accept_calls = door.accept_calls;
      transfer_calls = door.transfer_calls;
      accepts = door.accepts;
      reads = door.reads;
      writes = door.writes;
    } };

    ghost invariant = { λ door. (door.accepted ≤ length door.lines.items) × (door.is_open ≡ true → 0 < door.accepted) };
}

impl MemoryDoor {
    ghost use Rattle.std.specs.Prelude.{◌≡◌, [], true, false, map, None, IfOk, if◌then◌else◌};
    ghost use Rattle.std.specs.Option.{option_map};
    ghost use Rattle.std.specs.List.{slice_get};
    ghost use Rattle.aq_base.specs.Faults.{HasRisen, next};
    ghost use Rattle.aq_outside.specs.Memories.{LineState, fails_to_accept, fails_to_transfer};

    /// A door at which these connections come, each with room for so many written bytes, which it takes
    /// at once. It fails at the calls with these numbers, counted from 1: `listen` and `accept` in one
    /// list, `read` and `write` in the other.
    pub fn new(
        alloc: Global,
        connections: Vec<Vec<u8>>,
        room: u32,
        failing_accepts: Vec<u64>,
        failing_transfers: Vec<u64>,
    ) -> Result<MemoryDoor, Memory>
        ensures { IfOk result (λ door. door ≡ record {
          lines = map (λ bytes. record { left = bytes.items; written = []; room = room; reads = 0; writes = 0 }) connections.items;
          accepted = 0;
          listens = None;
          is_open = false;
          failing_accepts = failing_accepts.items;
          failing_transfers = failing_transfers.items;
          accept_calls = 0;
          transfer_calls = 0;
          accepts = 0;
          reads = 0;
          writes = 0;
        }) }
    {
        Ok(MemoryDoor {
            lines: lines_of(alloc, connections, room as usize)?,
            accepted: 0,
            listens: None,
            is_open: false,
            failing_accepts,
            failing_transfers,
            accept_calls: 0,
            transfer_calls: 0,
            accepts: 0,
            reads: 0,
            writes: 0,
        })
    }

    /// The bytes that were written on a connection, counted from 0, if there is one.
    pub fn written(&self, connection: usize) -> Option<&[u8]>
        ensures { option_map (λ bytes. bytes.now) result
            ≡ option_map (λ (line : LineState). line.written)
            (slice_get self.now.lines connection) }
    {
        match self.lines.get(connection) {
            Some(line) => Some(line.written()),
            None => None,
        }
    }

    /// Counts a call of `listen` or `accept`, and answers whether it is to fail.
    fn fails_to_accept(&mut self) -> bool
        ensures listed { result ≡ fails_to_accept self.old }
        ensures state { self.new ≡
            record self.old {
              accept_calls = next self.old.accept_calls;
              accepts = if result then next self.old.accepts else self.old.accepts;
            } }
        ensures risen { result ≡ true → HasRisen self.old.accepts self.new.accepts }
    {
        self.accept_calls = self.accept_calls.saturating_add(1);
        let fails = self.failing_accepts.contains(&self.accept_calls);
        if fails {
            self.accepts = self.accepts.saturating_add(1);
        }
        fails
    }

    /// Counts a call of `read` or `write`, and answers whether it is to fail.
    fn fails_to_transfer(&mut self) -> bool
        ensures listed { result ≡ fails_to_transfer self.old }
        ensures state { self.new ≡
            record self.old { transfer_calls = next self.old.transfer_calls } }
    {
        self.transfer_calls = self.transfer_calls.saturating_add(1);
        self.failing_transfers.contains(&self.transfer_calls)
    }
}

fn lines_of(
    alloc: Global,
    connections: Vec<Vec<u8>>,
    room: usize,
) -> Result<Vec<MemoryLine>, Memory>
    ensures { IfOk result (λ lines. lines.items ≡
        map (λ bytes. record { left = bytes.items; written = []; room = room; reads = 0; writes = 0 })
        connections.items) }
{
    let mut lines = Vec::new(alloc);
    for input in connections {
        lines.push(MemoryLine::new(alloc, input, room)?)?;
    }
    Ok(lines)
}

impl Door for MemoryDoor {
    ghost use Rattle.std.specs.Prelude.{◌≡◌, ◌↔◌, ◌||◌, true, false, Some, IsTrue, IsErr, IfOk, OnOk, OnErr};
    ghost use Rattle.std.specs.Option.{is_some};
    ghost use Rattle.aq_outside.specs.Door.{HasCause, HasSameTransfers, IsAccepted, IsFinished, IsSameDoor, Reads, Writes};
    ghost use Rattle.aq_outside.specs.Memories.{CountsAccept, CountsNothing, CountsTransfer, current, fails_to_accept, fails_to_transfer, finds_no_room, view_of};

    ghost seen = { view_of };

    fn listen(&mut self, port: u16) -> Result<(), Failed>
        ensures listens { OnOk result (self.new.listens ≡ Some port) }
        ensures failed { OnErr result (self.new.listens ≡ self.old.listens) }
        ensures wire { (view_of self.new).wire ≡ (view_of self.old).wire }
        ensures open { self.new.is_open ≡ self.old.is_open }
        ensures cause { HasCause self.old.accepts self.new.accepts result }
        ensures transfers { HasSameTransfers (view_of self.old) (view_of self.new) }

        // It fails exactly at the listed calls.
        ensures listed { IsErr result ↔ IsTrue (fails_to_accept self.old) }
        ensures calls { CountsAccept self.old self.new }
    {
        if self.fails_to_accept() {
            return Err(Failed);
        }
        self.listens = Some(port);
        Ok(())
    }

    fn accept(&mut self) -> Result<bool, Failed>
        requires listens { is_some self.old.listens ≡ true }
        requires none_open { self.old.is_open ≡ false }
        ensures accepted { IfOk result
            (λ is_there. IsAccepted is_there (view_of self.old) (view_of self.new)) }
        ensures failed { OnErr result ((view_of self.new).wire ≡ (view_of self.old).wire) }
        ensures none { OnErr result (self.new.is_open ≡ false) }
        ensures listens { self.new.listens ≡ self.old.listens }
        ensures cause { HasCause self.old.accepts self.new.accepts result }
        ensures transfers { HasSameTransfers (view_of self.old) (view_of self.new) }

        // It fails exactly at the listed calls.
        ensures listed { IsErr result ↔ IsTrue (fails_to_accept self.old) }
        ensures calls { CountsAccept self.old self.new }
    {
        if self.fails_to_accept() {
            return Err(Failed);
        }
        if self.accepted == self.lines.len() {
            return Ok(false);
        }
        self.lines[self.accepted].clear();
        self.accepted += 1;
        self.is_open = true;
        Ok(true)
    }

    fn read(&mut self, buffer: &mut [u8]) -> Result<usize, Failed>
        requires open { self.old.is_open ≡ true }
        ensures moved { IfOk result
            (λ n. Reads (view_of self.old) (view_of self.new) buffer.new n) }
        ensures failed { OnErr result ((view_of self.new).wire ≡ (view_of self.old).wire) }
        ensures cause { HasCause self.old.reads self.new.reads result }
        ensures door { IsSameDoor (view_of self.old) (view_of self.new) }
        ensures writes { self.new.writes ≡ self.old.writes }

        // It fails exactly at the listed calls.
        ensures listed { IsErr result ↔ IsTrue (fails_to_transfer self.old) }
        ensures calls { CountsTransfer self.old self.new }
    {
        if self.fails_to_transfer() {
            self.reads = self.reads.saturating_add(1);
            return Err(Failed);
        }
        Ok(self.lines[self.accepted - 1].read(buffer))
    }

    fn write(&mut self, piece: &[u8]) -> Result<usize, Failed>
        requires open { self.old.is_open ≡ true }
        ensures moved { IfOk result
            (λ n. Writes (view_of self.old) (view_of self.new) piece.now n) }
        ensures failed { OnErr result ((view_of self.new).wire ≡ (view_of self.old).wire) }
        ensures cause { HasCause self.old.writes self.new.writes result }
        ensures door { IsSameDoor (view_of self.old) (view_of self.new) }
        ensures reads { self.new.reads ≡ self.old.reads }

        // It fails exactly at the listed calls, and if a piece with bytes finds no room.
        ensures listed { IsErr result
            ↔ IsTrue (fails_to_transfer self.old
            || finds_no_room (current self.old) piece.now) }
        ensures calls { CountsTransfer self.old self.new }
    {
        let fails = self.fails_to_transfer();
        let n = self.lines[self.accepted - 1].room_for(piece);
        if fails || (n == 0 && !piece.is_empty()) {
            self.writes = self.writes.saturating_add(1);
            return Err(Failed);
        }
        self.lines[self.accepted - 1].write(&piece[..n]);
        Ok(n)
    }

    fn finish(&mut self)
        requires open { self.old.is_open ≡ true }
        ensures ended { IsFinished (view_of self.old) (view_of self.new) }
        ensures open { self.new.is_open ≡ false }
        ensures listens { self.new.listens ≡ self.old.listens }
        ensures accepts { self.new.accepts ≡ self.old.accepts }
        ensures transfers { HasSameTransfers (view_of self.old) (view_of self.new) }
        ensures calls { CountsNothing self.old self.new }
    {
        self.lines[self.accepted - 1].finish(self.reads, self.writes);
        self.is_open = false;
    }
}
