//! A reader as a source, and a writer as a sink. They tell none of their bytes. What the stream beneath
//! gives is passed on as it is, and what is given reaches it; the streams' own words for that are the
//! contracts'.
ghost use Rattle.std.specs.Prelude.{◌≤◌, length, IfOk};
ghost use Rattle.std.specs.Io.KnownBytes.{ReadConsumes, WriteAppends};

use crate::{Sink, Source};
use aq_base::Failed;
use std::io::{ErrorKind, Read, Write};

/// So often is a call that a signal interrupts made again; past that it is a fault.
const MOST_TRIES: u32 = 1_000;

/// A reader as a source.
#[derive(Drop)]
pub struct Reading<R: Read> {
    reader: R,
    faults: u64,
}

impl<R: Read> Reading<R> {
    ghost use Rattle.std.specs.Prelude.{◌≡◌};

    pub fn new(reader: R) -> Reading<R>
        ensures { result ≡ record { reader = reader; faults = 0 } }
    {
        Reading { reader, faults: 0 }
    }
}

impl<R: Read> Source for Reading<R> {
    ghost use Rattle.std.specs.Prelude.{◌≡◌, None, IfOk};
    ghost use Rattle.std.specs.Io.KnownBytes.{ReadConsumes};
    ghost use Rattle.aq_outside.specs.Door.{HasCause, faults_after};
    ghost use Rattle.aq_outside.specs.Outside.{Moves};

    ghost seen = { λ source. record { left = None; faults = source.faults } };

    fn read(&mut self, buffer: &mut [u8]) -> Result<usize, Failed>
        ensures moved { IfOk result (λ n. Moves None None buffer.new n) }
        ensures cause { HasCause self.old.faults self.new.faults result }

        // The bytes that the reader gave are those that are answered, and no other.
        ensures passed { ReadConsumes (R.remaining self.old.reader)
            (R.remaining self.new.reader) result buffer.new }
        ensures faults { self.new.faults ≡ faults_after self.old.faults result }
    {
        match read_from(&mut self.reader, buffer) {
            Ok(n) => Ok(n),
            Err(failed) => {
                self.faults = self.faults.saturating_add(1);
                Err(failed)
            }
        }
    }
}

/// One read, made again if a signal interrupts it.
pub(crate) fn read_from<R: Read>(reader: &mut R, buffer: &mut [u8]) -> Result<usize, Failed>
    ensures within { IfOk result (λ n. n ≤ length buffer.new) }
    ensures passed { ReadConsumes (R.remaining reader.old)
        (R.remaining reader.new) result buffer.new }
{
    for _ in 0..MOST_TRIES {
        match reader.read(buffer) {
            Ok(n) => return Ok(n),
            Err(error) if error.kind() == ErrorKind::Interrupted => {}
            Err(_) => return Err(Failed),
        }
    }
    Err(Failed)
}

/// A writer as a sink.
#[derive(Drop)]
pub struct Writing<W: Write> {
    writer: W,
    faults: u64,
}

impl<W: Write> Writing<W> {
    ghost use Rattle.std.specs.Prelude.{◌≡◌};

    pub fn new(writer: W) -> Writing<W>
        ensures { result ≡ record { writer = writer; faults = 0 } }
    {
        Writing { writer, faults: 0 }
    }
}

impl<W: Write> Sink for Writing<W> {
    ghost use Rattle.std.specs.Prelude.{◌≡◌, None, IfOk};
    ghost use Rattle.std.specs.Io.KnownBytes.{WriteAppends};
    ghost use Rattle.aq_outside.specs.Door.{HasCause, faults_after};
    ghost use Rattle.aq_outside.specs.Outside.{Takes};

    ghost seen = { λ sink. record { written = None; faults = sink.faults } };

    fn write(&mut self, piece: &[u8]) -> Result<usize, Failed>
        ensures taken { IfOk result (λ n. Takes None None piece.now n) }
        ensures cause { HasCause self.old.faults self.new.faults result }

        // The bytes that are answered as taken reached the writer, and no other.
        ensures passed { WriteAppends (W.contents self.old.writer)
            (W.contents self.new.writer) result piece.now }
        ensures faults { self.new.faults ≡ faults_after self.old.faults result }
    {
        match write_to(&mut self.writer, piece) {
            Ok(n) if n > 0 || piece.is_empty() => Ok(n),
            _ => {
                self.faults = self.faults.saturating_add(1);
                Err(Failed)
            }
        }
    }
}

/// One write, made again if a signal interrupts it.
pub(crate) fn write_to<W: Write>(writer: &mut W, piece: &[u8]) -> Result<usize, Failed>
    ensures within { IfOk result (λ n. n ≤ length piece.now) }
    ensures passed { WriteAppends (W.contents writer.old) (W.contents writer.new) result piece.now }
{
    for _ in 0..MOST_TRIES {
        match writer.write(piece) {
            Ok(n) => return Ok(n),
            Err(error) if error.kind() == ErrorKind::Interrupted => {}
            Err(_) => return Err(Failed),
        }
    }
    Err(Failed)
}
