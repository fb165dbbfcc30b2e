use crate::disk::Disk;
use crate::gate::Gate;
use crate::journal;
use crate::trouble::{Trouble, counted};
use aq_keeper::{Keeper, KeeperFault, RowChange, Rows};
use std::alloc::Global;
use std::marker::Model;

/// A keeper over a disk, which it opens at its first call. Each commit is a frame behind the gate that ends the
/// journal; the frame is synced before the gate is opened. Its faults are those of the disk, files that are no
/// journal, batches that are too great, and calls behind the one that lets its tables go.
#[derive(Drop)]
pub struct JournalKeeper<D: Disk + Drop> {
    disk: D,
    gate: Gate,
    refusals: u64,
    commits: u64,
    is_held: bool,
}

impl<D: Disk + Drop> Model for JournalKeeper<D> {
    ghost use Rattle.aq_journal.specs.Keeping.{KeeperState, IsHeld};

    ghost Value = { KeeperState D };

    ghost view = { λ keeper. record { disk = keeper.disk; gate = keeper.gate; refusals = keeper.refusals; commits = keeper.commits; is_held = keeper.is_held } };

    ghost invariant = { λ keeper. IsHeld D.Disk keeper.disk keeper.gate };
}

impl<D: Disk + Drop> JournalKeeper<D> {
    ghost use Rattle.std.specs.Prelude.{◌≡◌, true};
    ghost use Rattle.aq_journal.specs.declared.gate.Gate.TheVariants.{Unsynced};

    /// A keeper over a disk. It takes no memory.
    pub fn new(disk: D) -> JournalKeeper<D>
        ensures { result ≡ record { disk = disk; gate = Unsynced; refusals = 0; commits = 0; is_held = true } }
    {
        JournalKeeper {
            disk,
            gate: Gate::Unsynced,
            refusals: 0,
            commits: 0,
            is_held: true,
        }
    }

    /// The disk.
    pub fn disk(&self) -> &D
        ensures { result.now ≡ self.now.disk }
    {
        &self.disk
    }
}

impl<D: Disk + Drop> Keeper for JournalKeeper<D> {
    ghost use Rattle.std.specs.Prelude.{◌≡◌, ◌⊎◌, true, false, map, None, Err, IfSome, IfOk, OnOk, OnErr};
    ghost use Rattle.aq_rules.specs.Kept.RowChanges.{batch_rises, changed_key};
    ghost use Rattle.aq_base.specs.Faults.{HasRisen, next};
    ghost use Rattle.aq_keeper.specs.Told.{HasCause};
    ghost use Rattle.aq_keeper.specs.declared.keeper.KeeperFault.TheVariants.{Failed};
    ghost use Rattle.aq_journal.specs.Disks.{IfTells};
    ghost use Rattle.aq_journal.specs.Keeping.{Endures, IsCertain, IsLeft, both_counts, told, with_batch};
    ghost use Rattle.aq_journal.specs.Opening.{FailsOnlyIf, IsTooGreat};

    ghost seen = { λ keeper. record {
      tables = told keeper.gate (D.seen keeper.disk);
      faults = both_counts (D.faults keeper.disk) keeper.refusals;
      commits = keeper.commits;
      is_held = keeper.is_held;
    } };

    fn read_all(&mut self, alloc: Global) -> Result<Rows, KeeperFault>
        ensures rows { IfOk result (λ rows. IfSome (told self.new.gate (D.seen self.new.disk)) (λ told. rows ≡ told)) }
        ensures kept { IfTells (D.seen self.new.disk) (told self.new.gate (D.seen self.new.disk) ≡ told self.old.gate (D.seen self.old.disk)) }
        ensures cause { HasCause (both_counts (D.faults self.old.disk) self.old.refusals) (both_counts (D.faults self.new.disk) self.new.refusals) result }
        ensures commits { self.new.commits ≡ self.old.commits }
        ensures held { self.new.is_held ≡ self.old.is_held }
        ensures gone { self.old.is_held ≡ false → result ≡ Err Failed }

        // It fails only where the disk failed, no tables are told, as of a file that is no journal, or they are gone.
        ensures why { FailsOnlyIf result (HasRisen (D.faults self.old.disk) (D.faults self.new.disk) ⊎ ((told self.new.gate (D.seen self.new.disk) ≡ None) ⊎ (self.old.is_held ≡ false))) }

        // A crash at any moment of the call leaves the tables told before it, or those in doubt, and between this
        // call and the next those told or in doubt after it. After Ok no others than those told are in doubt.
        ensures crash { IfTells (D.seen self.new.disk) (Endures D.Disk self.old.disk self.new.disk self.old.gate self.new.gate (told self.old.gate (D.seen self.old.disk))) }
        ensures left { IsLeft D.Disk self.new.disk self.new.gate }
        ensures settled { OnOk result (IsCertain self.new.gate (D.seen self.new.disk)) }
    {
        if !self.is_held {
            return counted(&mut self.refusals, Err(Trouble::Refused));
        }
        let read = journal::read_all(alloc, &mut self.disk, &mut self.gate);
        counted(&mut self.refusals, read)
    }

    fn commit(&mut self, alloc: Global, batch: &[RowChange]) -> Result<(), KeeperFault>
        requires rising { batch_rises (map changed_key batch.now) ≡ true }
        ensures done { OnOk result (IfTells (D.seen self.new.disk) (told self.new.gate (D.seen self.new.disk) ≡ with_batch batch.now (told self.old.gate (D.seen self.old.disk)))) }
        ensures kept { OnErr result (IfTells (D.seen self.new.disk) (told self.new.gate (D.seen self.new.disk) ≡ told self.old.gate (D.seen self.old.disk))) }
        ensures cause { HasCause (both_counts (D.faults self.old.disk) self.old.refusals) (both_counts (D.faults self.new.disk) self.new.refusals) result }
        ensures commits { self.new.commits ≡ next self.old.commits }
        ensures held { self.new.is_held ≡ self.old.is_held }
        ensures gone { self.old.is_held ≡ false → result ≡ Err Failed }

        // It fails only where the disk failed, no tables are told, the batch is too great, or they are gone.
        ensures why { FailsOnlyIf result (HasRisen (D.faults self.old.disk) (D.faults self.new.disk) ⊎ ((told self.new.gate (D.seen self.new.disk) ≡ None) ⊎ (IsTooGreat batch.now self.new.gate ⊎ (self.old.is_held ≡ false)))) }

        // A crash at any moment of the call leaves the tables told before it, those in doubt, or those with the
        // batch, and between this call and the next those told or in doubt after it. After Ok no others than those
        // told, which have the batch, are in doubt.
        ensures crash { IfTells (D.seen self.new.disk) (Endures D.Disk self.old.disk self.new.disk self.old.gate self.new.gate (with_batch batch.now (told self.old.gate (D.seen self.old.disk)))) }
        ensures left { IsLeft D.Disk self.new.disk self.new.gate }
        ensures settled { OnOk result (IsCertain self.new.gate (D.seen self.new.disk)) }
    {
        self.commits = self.commits.saturating_add(1);
        if !self.is_held {
            return counted(&mut self.refusals, Err(Trouble::Refused));
        }
        let made = journal::commit(alloc, &mut self.disk, &mut self.gate, batch);
        counted(&mut self.refusals, made)
    }

    fn let_go(&mut self)
        ensures gone { self.new.is_held ≡ false }
        ensures commits { self.new.commits ≡ self.old.commits }
        ensures kept { told self.new.gate (D.seen self.new.disk) ≡ told self.old.gate (D.seen self.old.disk) }
        ensures faults { both_counts (D.faults self.new.disk) self.new.refusals ≡ both_counts (D.faults self.old.disk) self.old.refusals }

        // A crash leaves what it could leave before.
        ensures crash { Endures D.Disk self.old.disk self.new.disk self.old.gate self.new.gate (told self.old.gate (D.seen self.old.disk)) }
        ensures left { IsLeft D.Disk self.new.disk self.new.gate }
    {
        self.disk.let_go();
        self.is_held = false;
    }
}
