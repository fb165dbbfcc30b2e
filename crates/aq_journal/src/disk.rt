//! A disk as the journal sees it: one file of bytes. It tells its bytes or does not: it may stop within any call,
//! and never begins to. It counts its faults: the count rises at a call that fails, and at no other. It says what
//! a crash may leave, at this moment and at each since a given one.
//!
//! Bytes that are written, and then synced by a call that is answered, stand. Nothing is said of a sync that
//! fails: what was written before it, and is not written again, may stand or not, whatever a read gives and
//! however many later syncs are answered. Only `refresh` makes that certain.
ghost use Rattle.std.specs.Prelude.{◌≡◌, ◌+◌, ◌<◌, ◌≤◌, ◌^◌, ℕ, List, length, Option, IfSome, IfOk, OnOk, OnErr};
ghost use Rattle.std.specs.Option.{option_map};
ghost use Rattle.aq_keeper.specs.Told.{HasCause as HasFaultCause};
ghost use Rattle.aq_journal.specs.Disks.{HasCause, IfTells, Gives, written, IsWritten, Torn, TornIfTold, Only, NothingNew, Follows, Elapses};

use aq_base::Failed;
use aq_keeper::KeeperFault;

/// A file of bytes that can be synced. Its first call is to be `refresh`: a disk may refuse every other one before.
pub trait Disk {
    /// The bytes that a read gives, if the disk tells them.
    ghost seen: { Self → Option (List ℕ) };

    /// What a crash at this moment may leave.
    ghost may_leave: { Self → List ℕ → Type 0 };

    /// What a crash may leave once a sync is answered, if nothing is written before it.
    ghost once_synced: { Self → List ℕ → Type 0 };

    /// The moment, as a number that does not fall.
    ghost moment: { Self → ℕ };

    /// What a crash at some moment from that one on might have left, during a call or between two.
    ghost left_since: { Self → ℕ → List ℕ → Type 0 };

    /// How often it has failed.
    ghost faults: { Self → ℕ };

    /// How many bytes there are.
    fn length(&mut self) -> Result<u64, Failed>
        ensures length { IfOk result (λ n. IfSome (seen self.new) (λ bytes. n ≡ length bytes)) }
        ensures bound { IfOk result (λ n. n < 2 ^ 63) }
        ensures same { IfTells (seen self.new) (seen self.new ≡ seen self.old) }
        ensures crash { NothingNew (may_leave self.old) (may_leave self.new) }
        ensures time { Elapses (moment self.old) (moment self.new) (left_since self.old) (left_since self.new) (may_leave self.new) }
        ensures cause { HasCause (faults self.old) (faults self.new) result };

    /// Reads bytes from a place on into the front of the buffer, and answers how many: at least one, if one
    /// is there and the buffer has room.
    fn read(&mut self, at: u64, buffer: &mut [u8]) -> Result<usize, Failed>
        ensures within { IfOk result (λ n. n ≤ length buffer.new) }
        ensures gives { IfOk result (λ n. IfSome (seen self.new) (λ bytes. Gives bytes at buffer.new n)) }
        ensures same { IfTells (seen self.new) (seen self.new ≡ seen self.old) }
        ensures crash { NothingNew (may_leave self.old) (may_leave self.new) }
        ensures time { Elapses (moment self.old) (moment self.new) (left_since self.old) (left_since self.new) (may_leave self.new) }
        ensures cause { HasCause (faults self.old) (faults self.new) result };

    /// Writes over what is there, and past the end. Until a sync a crash may leave any bytes in the range, and
    /// past the old end; so may a write that fails. Once a sync is answered the bytes stand, over what could
    /// stand before.
    fn write_at(&mut self, at: u64, bytes: &[u8]) -> Result<(), Failed>
        requires { at + length bytes.now < 2 ^ 63 }
        ensures written { OnOk result (IfTells (seen self.new) (seen self.new ≡ option_map (written at bytes.now) (seen self.old))) }
        ensures failed { OnErr result (IfTells (seen self.new) (TornIfTold at (length bytes.now) (seen self.old) (seen self.new))) }
        ensures stands { OnOk result (Follows (IsWritten at bytes.now) (once_synced self.old) (once_synced self.new)) }
        ensures crash { Follows (Torn at (length bytes.now)) (may_leave self.old) (may_leave self.new) }
        ensures time { Elapses (moment self.old) (moment self.new) (left_since self.old) (left_since self.new) (may_leave self.new) }
        ensures cause { HasCause (faults self.old) (faults self.new) result };

    /// Syncs what was written since the last sync that was answered. If one failed meanwhile, what was written
    /// before it and not again stays in doubt.
    fn sync(&mut self) -> Result<(), Failed>
        ensures synced { OnOk result (NothingNew (once_synced self.old) (may_leave self.new)) }
        ensures same { IfTells (seen self.new) (seen self.new ≡ seen self.old) }
        ensures crash { NothingNew (may_leave self.old) (may_leave self.new) }
        ensures time { Elapses (moment self.old) (moment self.new) (left_since self.old) (left_since self.new) (may_leave self.new) }
        ensures cause { HasCause (faults self.old) (faults self.new) result };

    /// Opens the file if it is not open yet, syncs it, and drops each copy that is held beside the disk. After it a
    /// crash leaves what a read gives, also of bytes that an earlier program wrote and did not sync. Want of memory is
    /// no fault.
    fn refresh(&mut self) -> Result<(), KeeperFault>
        ensures refreshed { OnOk result (IfSome (seen self.new) (λ bytes. Only bytes (may_leave self.new))) }
        ensures same { IfTells (seen self.new) (seen self.new ≡ seen self.old) }
        ensures crash { NothingNew (may_leave self.old) (may_leave self.new) }
        ensures time { Elapses (moment self.old) (moment self.new) (left_since self.old) (left_since self.new) (may_leave self.new) }
        ensures cause { HasFaultCause (faults self.old) (faults self.new) result };

    /// Lets the file go, so that others may have it. What is told stays told, and a crash leaves what it could leave
    /// before.
    fn let_go(&mut self)
        ensures same { seen self.new ≡ seen self.old }
        ensures crash { NothingNew (may_leave self.old) (may_leave self.new) }
        ensures time { Elapses (moment self.old) (moment self.new) (left_since self.old) (left_since self.new) (may_leave self.new) }
        ensures faults { faults self.new ≡ faults self.old };

    /// A sync that is answered leaves nothing new.
    ghost once_synced_less: { (disk : Self) (image : List ℕ) → once_synced disk image → may_leave disk image };

    /// This moment is one of those since an earlier one.
    ghost counts_now: { (disk : Self) (t : ℕ) (image : List ℕ) → t ≤ moment disk → may_leave disk image → left_since disk t image };

    /// Since this moment there is no other.
    ghost only_now: { (disk : Self) (image : List ℕ) → left_since disk (moment disk) image → may_leave disk image };

    /// The bytes as they read are one of the images.
    ghost reads_image: { (disk : Self) → IfSome (seen disk) (may_leave disk) };
}
