//! The door: where connections come from. It tells their bytes or does not, and counts its faults. A
//! count rises at a call that fails, and at no other; one at its greatest value counts as risen.
ghost use Rattle.std.specs.Prelude.{◌≡◌, true, false, Some, IfOk, OnOk, OnErr};
ghost use Rattle.std.specs.Option.{is_some};
ghost use Rattle.aq_outside.specs.Door.{DoorView, HasCause, HasSameTransfers, IsAccepted, IsFinished, IsSameDoor, Reads, Writes};

use aq_base::Failed;

/// Connections, of which one at a time is accepted, served and finished.
pub trait Door {
    /// What it tells, and its counts of faults.
    ghost seen: { Self → DoorView };

    /// Listens on a port of this machine.
    fn listen(&mut self, port: u16) -> Result<(), Failed>
        ensures listens { OnOk result ((seen self.new).listens ≡ Some port) }
        ensures failed { OnErr result ((seen self.new).listens ≡ (seen self.old).listens) }
        ensures wire { (seen self.new).wire ≡ (seen self.old).wire }
        ensures open { (seen self.new).is_open ≡ (seen self.old).is_open }
        ensures cause { HasCause (seen self.old).accepts (seen self.new).accepts result }
        ensures transfers { HasSameTransfers (seen self.old) (seen self.new) };

    /// Takes the next connection, and answers false exactly if there is none. After `Failed` none is
    /// taken.
    fn accept(&mut self) -> Result<bool, Failed>
        requires listens { is_some (seen self.old).listens ≡ true }
        requires none_open { (seen self.old).is_open ≡ false }
        ensures accepted { IfOk result
            (λ is_there. IsAccepted is_there (seen self.old) (seen self.new)) }
        ensures failed { OnErr result ((seen self.new).wire ≡ (seen self.old).wire) }
        ensures none { OnErr result ((seen self.new).is_open ≡ false) }
        ensures listens { (seen self.new).listens ≡ (seen self.old).listens }
        ensures cause { HasCause (seen self.old).accepts (seen self.new).accepts result }
        ensures transfers { HasSameTransfers (seen self.old) (seen self.new) };

    /// Moves bytes from the front of what is left of the accepted connection into the buffer, and
    /// answers how many. None of a buffer with room is the end, and comes only there. After `Failed` the
    /// bytes are as before.
    fn read(&mut self, buffer: &mut [u8]) -> Result<usize, Failed>
        requires open { (seen self.old).is_open ≡ true }
        ensures moved { IfOk result (λ n. Reads (seen self.old) (seen self.new) buffer.new n) }
        ensures failed { OnErr result ((seen self.new).wire ≡ (seen self.old).wire) }
        ensures cause { HasCause (seen self.old).reads (seen self.new).reads result }
        ensures door { IsSameDoor (seen self.old) (seen self.new) }
        ensures writes { (seen self.new).writes ≡ (seen self.old).writes };

    /// Puts the front of a piece after what was written on the accepted connection, and answers how
    /// many bytes. One that takes nothing of a piece with bytes is a fault. After `Failed` the bytes are
    /// as before.
    fn write(&mut self, piece: &[u8]) -> Result<usize, Failed>
        requires open { (seen self.old).is_open ≡ true }
        ensures moved { IfOk result (λ n. Writes (seen self.old) (seen self.new) piece.now n) }
        ensures failed { OnErr result ((seen self.new).wire ≡ (seen self.old).wire) }
        ensures cause { HasCause (seen self.old).writes (seen self.new).writes result }
        ensures door { IsSameDoor (seen self.old) (seen self.new) }
        ensures reads { (seen self.new).reads ≡ (seen self.old).reads };

    /// Ends the accepted connection, and notes the counts of reads and writes as they stand. It does not
    /// fail.
    fn finish(&mut self)
        requires open { (seen self.old).is_open ≡ true }
        ensures ended { IsFinished (seen self.old) (seen self.new) }
        ensures open { (seen self.new).is_open ≡ false }
        ensures listens { (seen self.new).listens ≡ (seen self.old).listens }
        ensures accepts { (seen self.new).accepts ≡ (seen self.old).accepts }
        ensures transfers { HasSameTransfers (seen self.old) (seen self.new) };
}
