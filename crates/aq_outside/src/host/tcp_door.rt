//! The door of the network: connections over TCP, from this machine alone. It tells none of their
//! bytes. What a connection gives is passed on as it is, and what is given reaches it.
ghost use Rattle.std.specs.Prelude.{◌≡◌, ◌+◌, ◌<◌, ◌≤◌, length, IfOk, OnErr};
ghost use Rattle.std.specs.Duration.{as_nanos};
ghost use Rattle.std.specs.Io.KnownBytes.{ReadConsumes, WriteAppends};
ghost use Rattle.aq_outside.specs.Host.InTime.{AfterRead, AfterWrite};

use crate::Door;
use crate::host::waits::{Deadlines, NONE_BEGUN, part, prepare, read_in_time, write_in_time};
use aq_base::Failed;
use std::io::ErrorKind;
use std::net::{Ipv4Addr, Net, OpenListener, OpenStream, SocketAddr};
use std::time::Clock;

/// A door on 127.0.0.1. A connection that lies idle for five seconds before a request is ended, and so is
/// one whose request has not come whole, or whose reply has not been taken whole, thirty seconds after
/// its first byte, however often a byte moves: each by a fault of that read or write. Where another peer
/// waits, a connection gives way after a twentieth of a second of lying idle, or once its request has not come
/// whole for two seconds. So no peer keeps the others waiting for long.
#[derive(Drop)]
pub struct TcpDoor<N: Net + Clock + Drop> {
    net: N,
    /// The port on which it listens, with what listens there.
    listener: Option<(u16, N::Listener)>,
    /// The connection that comes next, if one was found to wait.
    next: Option<N::Stream>,
    stream: Option<N::Stream>,
    deadlines: Deadlines,
    /// A read or a write of the connection has failed.
    is_cut: bool,
    accepts: u64,
    reads: u64,
    writes: u64,
}

impl<N: Net + Clock + Drop> TcpDoor<N> {
    ghost use Rattle.std.specs.Prelude.{◌≡◌, false, None};

    /// A door that does not listen yet.
    pub fn new(net: N) -> TcpDoor<N>
        ensures { result ≡
            record {
              net = net;
              listener = None;
              next = None;
              stream = None;
              deadlines = record { request = None; reply = None };
              is_cut = false;
              accepts = 0;
              reads = 0;
              writes = 0;
            } }
    {
        TcpDoor {
            net,
            listener: None,
            next: None,
            stream: None,
            deadlines: NONE_BEGUN,
            is_cut: false,
            accepts: 0,
            reads: 0,
            writes: 0,
        }
    }
}

impl<N: Net + Clock + Drop> Door for TcpDoor<N> {
    ghost use Rattle.std.specs.Prelude.{◌≡◌, true, false, None, IfOk, OnOk, OnErr};
    ghost use Rattle.std.specs.Option.{is_some, option_and_then, option_map};
    ghost use Rattle.std.specs.Io.KnownBytes.{ReadConsumes, WriteAppends};
    ghost use Rattle.aq_outside.specs.Host.InTime.{AfterRead, AfterWrite, none_begun};
    ghost use Rattle.aq_outside.specs.Door.{HasCause, HasSameTransfers, IsAccepted, IsSameDoor, Reads, Writes, faults_after};

    ghost seen = { λ door. record {
      wire = None;
      listens = option_map (λ listening. listening.0) door.listener;
      is_open = is_some door.stream;
      accepts = door.accepts;
      reads = door.reads;
      writes = door.writes;
    } };

    fn listen(&mut self, port: u16) -> Result<(), Failed> {
        match self.net.bind(SocketAddr::from((Ipv4Addr::LOCALHOST, port))) {
            Ok(listener) => {
                self.listener = Some((port, listener));
                Ok(())
            }
            Err(_) => {
                self.accepts = self.accepts.saturating_add(1);
                Err(Failed)
            }
        }
    }

    fn accept(&mut self) -> Result<bool, Failed>
        requires listens { is_some (option_map (λ listening. listening.0) self.old.listener)
            ≡ true }
        requires none_open { is_some self.old.stream ≡ false }
        ensures accepted { IfOk result
            (λ is_there. IsAccepted is_there (⟦<TcpDoor<N> as Door>⟧.seen self.old)
            (⟦<TcpDoor<N> as Door>⟧.seen self.new)) }
        ensures none { OnErr result (is_some self.new.stream ≡ false) }
        ensures listens { option_map (λ listening. listening.0) self.new.listener
            ≡ option_map (λ listening. listening.0) self.old.listener }
        ensures cause { HasCause self.old.accepts self.new.accepts result }
        ensures transfers { HasSameTransfers (⟦<TcpDoor<N> as Door>⟧.seen self.old)
            (⟦<TcpDoor<N> as Door>⟧.seen self.new) }

        // Connections come as long as the port is listened on: a failure is never told as their end.
        ensures more { IfOk result (λ is_there. is_there ≡ true) }
        ensures faults { self.new.accepts ≡ faults_after self.old.accepts result }
        ensures deadlines { OnOk result (self.new.deadlines ≡ none_begun) }
    {
        let accepted = match &self.listener {
            Some((_, listener)) => accept_next(listener, &mut self.next),
            None => Err(Failed),
        };
        match accepted {
            Ok(stream) => {
                self.stream = Some(stream);
                self.deadlines = NONE_BEGUN;
                self.is_cut = false;
                Ok(true)
            }
            Err(failed) => {
                self.accepts = self.accepts.saturating_add(1);
                Err(failed)
            }
        }
    }

    fn read(&mut self, buffer: &mut [u8]) -> Result<usize, Failed>
        requires open { is_some self.old.stream ≡ true }
        ensures moved { IfOk result
            (λ n. Reads (⟦<TcpDoor<N> as Door>⟧.seen self.old)
            (⟦<TcpDoor<N> as Door>⟧.seen self.new) buffer.new n) }
        ensures cause { HasCause self.old.reads self.new.reads result }
        ensures door { IsSameDoor (⟦<TcpDoor<N> as Door>⟧.seen self.old)
            (⟦<TcpDoor<N> as Door>⟧.seen self.new) }
        ensures writes { self.new.writes ≡ self.old.writes }

        // The bytes that the connection gave are those that are answered, and no other.
        ensures passed { ReadConsumes
            (option_and_then (λ stream. N.Stream.remaining stream) self.old.stream)
            (option_and_then (λ stream. N.Stream.remaining stream) self.new.stream)
            result buffer.new }
        ensures faults { self.new.reads ≡ faults_after self.old.reads result }
        ensures deadlines { AfterRead self.old.deadlines self.new.deadlines result }
    {
        let got = match &mut self.stream {
            Some(stream) => {
                read_in_time(
                    &self.net,
                    &self.listener,
                    &mut self.next,
                    stream,
                    &mut self.deadlines,
                    buffer,
                )
            }
            None => Err(Failed),
        };
        if got.is_err() {
            self.is_cut = true;
            self.reads = self.reads.saturating_add(1);
        }
        got
    }

    fn write(&mut self, piece: &[u8]) -> Result<usize, Failed>
        requires open { is_some self.old.stream ≡ true }
        ensures moved { IfOk result
            (λ n. Writes (⟦<TcpDoor<N> as Door>⟧.seen self.old)
            (⟦<TcpDoor<N> as Door>⟧.seen self.new) piece.now n) }
        ensures cause { HasCause self.old.writes self.new.writes result }
        ensures door { IsSameDoor (⟦<TcpDoor<N> as Door>⟧.seen self.old)
            (⟦<TcpDoor<N> as Door>⟧.seen self.new) }
        ensures reads { self.new.reads ≡ self.old.reads }

        // The bytes that are answered as taken reached the connection, and no other.
        ensures passed { WriteAppends
            (option_and_then (λ stream. N.Stream.contents stream) self.old.stream)
            (option_and_then (λ stream. N.Stream.contents stream) self.new.stream)
            result piece.now }
        ensures faults { self.new.writes ≡ faults_after self.old.writes result }
        ensures deadlines { AfterWrite self.old.deadlines self.new.deadlines piece.now result }
    {
        let taken = match &mut self.stream {
            Some(stream) => write_in_time(&self.net, stream, &mut self.deadlines, piece),
            None => Err(Failed),
        };
        if taken.is_err() {
            self.is_cut = true;
            self.writes = self.writes.saturating_add(1);
        }
        taken
    }

    fn finish(&mut self) {
        if let Some(mut stream) = self.stream.take() {
            // One that was cut has no reply on its way.
            if !self.is_cut {
                part(&self.net, &mut stream);
            }
        }
    }
}

/// The connection that was found to wait, or the next one.
fn accept_next<L: OpenListener>(
    listener: &L,
    next: &mut Option<L::Stream>,
) -> Result<L::Stream, Failed>
where
    L::Stream: OpenStream,
{
    match next.take() {
        Some(stream) => Ok(stream),
        None => accept_from(listener),
    }
}

/// The next connection. One that is lost before it can be served is passed over, so that no peer ends
/// the serving of the others.
fn accept_from<L: OpenListener>(listener: &L) -> Result<L::Stream, Failed>
where
    L::Stream: OpenStream,
{
    for _ in 0..u64::MAX {
        match listener.accept() {
            Ok((stream, _)) => {
                if prepare(&stream).is_ok() {
                    return Ok(stream);
                }
            }
            Err(error) if is_of_one_peer(error.kind()) => {}
            Err(_) => return Err(Failed),
        }
    }
    Err(Failed)
}

/// Whether a failed accept tells of the connection that was to be accepted, or of a signal, and not of
/// the listener.
fn is_of_one_peer(kind: ErrorKind) -> bool {
    matches!(
        kind,
        ErrorKind::ConnectionAborted | ErrorKind::ConnectionReset | ErrorKind::Interrupted
    )
}

#[cfg(test)]
mod tests;
