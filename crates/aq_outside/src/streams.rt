//! The outside: where bytes come from and where they go. An object tells its bytes or does not, and
//! counts its faults. A count rises at a call that fails, and at no other; one at its greatest value
//! counts as risen.
ghost use Rattle.std.specs.Prelude.{◌≡◌, IfOk, OnErr};
ghost use Rattle.aq_outside.specs.Door.{HasCause};
ghost use Rattle.aq_outside.specs.Outside.{Moves, SinkView, SourceView, Takes};

use aq_base::Failed;

/// Bytes to be read.
pub trait Source {
    /// The bytes that are left, if it tells them, and its count of faults.
    ghost seen: { Self → SourceView };

    /// Moves bytes from the front of what is left into the buffer, and answers how many. None of a
    /// buffer with room is the end, and comes only there. After `Failed` the bytes are as before.
    fn read(&mut self, buffer: &mut [u8]) -> Result<usize, Failed>
        ensures moved { IfOk result (λ n. Moves (seen self.old).left (seen self.new).left
            buffer.new n) }
        ensures failed { OnErr result ((seen self.new).left ≡ (seen self.old).left) }
        ensures cause { HasCause (seen self.old).faults (seen self.new).faults result };
}

/// Bytes that are written.
pub trait Sink {
    /// The bytes that were written, if it tells them, and its count of faults.
    ghost seen: { Self → SinkView };

    /// Puts the front of a piece after what was written, and answers how many bytes. One that takes
    /// nothing of a piece with bytes is a fault. After `Failed` the bytes are as before.
    fn write(&mut self, piece: &[u8]) -> Result<usize, Failed>
        ensures taken { IfOk result (λ n. Takes (seen self.old).written (seen self.new).written
            piece.now n) }
        ensures failed { OnErr result ((seen self.new).written ≡ (seen self.old).written) }
        ensures cause { HasCause (seen self.old).faults (seen self.new).faults result };
}
