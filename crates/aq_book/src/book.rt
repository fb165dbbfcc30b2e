//! An office with its observations and records.
ghost use Rattle.std.specs.Prelude.{◌≡◌, ◌≤◌, ◌+◌, ◌⊎◌, ℕ, List, option_map, IfOk, OnErr, OnOk};
ghost use Rattle.aq_book.specs.Checks.{decision_of};
ghost use Rattle.aq_rows.specs.KeptLoads.{digest_in, reply_in};
ghost use Rattle.aq_book.specs.Staged.{kept_under, office_with, Fits, IsStageOf};
ghost use Rattle.aq_rules.specs.Kept.Reach.{cost};
ghost use Rattle.aq_rules.specs.Kept.RowChanges.{row_batch};
ghost use Rattle.aq_rules.specs.Office.Load.{New, decide, load, reply};
ghost use Rattle.aq_rules.specs.Office.Office.{load_at, nothing};

use crate::batch::{RowChanges, batch_of};
use crate::check::LoadCheck;
use aq_base::{LoadReply, Memory, Steps};
use aq_cells::{Cells, bring_up};
use aq_forms::Body;
use aq_ozone_cells::OzoneCells;
use aq_particle_cells::pm10::Pm10Cells;
use aq_particle_cells::pm25::Pm25Cells;
use aq_registry::Registry;
use aq_rows::{Loads, digest_is_32_bytes};
use aq_rules::kept::reach::what_reads_a_changed_row_is_in_reach;
use aq_rules::office::valid_load::{an_office_of_nothing_is_valid, loads_leave_the_office_valid};
use aq_shelf::Shelf;
use aq_staging::{LoadIdentity, Staged, registry_after, stage_load};
use std::alloc::Global;
use std::marker::Model;
use std::mem;
use std::sync::ledger::Ledger;

/// An office with its records, observations and loads, as it stands between two loads, and with its
/// cells. Contracts see the valid office of the book of rules; every cell that is kept is that office's.
#[derive(Drop)]
pub struct Book {
    pub(crate) registry: Registry,
    pub(crate) shelf: Shelf,
    pub(crate) loads: Loads,
    pub(crate) cells: Cells,
    pub(crate) alloc: Global,
}

impl Model for Book {
    ghost use Rattle.aq_rules.specs.Office.Office.{Office};
    ghost use Rattle.aq_book.specs.View.{standing, IsBook};

    ghost Value = { Office };

    ghost view = { λ book. standing book.registry book.shelf book.loads };

    ghost invariant = { λ book. IsBook book.registry book.shelf book.loads book.cells };
}

impl Book {
    /// The book of an office of which nothing stands. It takes no memory.
    pub fn new(alloc: Global) -> Book
        ensures { result ≡ nothing }
    {
        an_office_of_nothing_is_valid();
        Book {
            registry: Registry::new(alloc),
            shelf: Shelf::new(alloc),
            loads: Loads::new(alloc),
            cells: Cells {
                ozone: OzoneCells::new(alloc),
                pm25: Pm25Cells::new(alloc),
                pm10: Pm10Cells::new(alloc),
            },
            alloc,
        }
    }

    /// The standing observations, lent. It takes no memory.
    pub fn shelf(&self) -> &Shelf
        ensures { result.now ≡ self.now.observations }
    {
        &self.shelf
    }

    /// The agency's records, lent. It takes no memory.
    pub fn registry(&self) -> &Registry
        ensures { result.now ≡ self.now.records }
    {
        &self.registry
    }

    /// The loads that were taken, lent. It takes no memory.
    pub fn loads(&self) -> &Loads
        ensures { result.now ≡ self.now.loads }
    {
        &self.loads
    }

    /// What becomes of a load with a number from 1 on: a known number with the same digest is a repeat, and
    /// with another a conflict; for a new one there is no room if `MOST_LOADS` stand. It takes no memory.
    pub fn check(&self, number: u32, digest: &[u8; 32]) -> LoadCheck
        ensures { decision_of result ≡ decide self.now number digest.now }
    {
        match self.loads.digest_of(number) {
            Some(kept) => {
                if kept == *digest {
                    LoadCheck::Repeat
                } else {
                    LoadCheck::Conflict
                }
            }
            None => {
                if self.loads.are_full() {
                    LoadCheck::Full
                } else {
                    LoadCheck::New
                }
            }
        }
    }

    /// The reply to the load with a number, if one stands. It takes no memory.
    pub fn reply_of(&self, number: u32) -> Option<&LoadReply>
        ensures { option_map (λ reply. reply.now) result
            ≡ option_map reply_in (load_at self.now number) }
    {
        self.loads.reply_of(number)
    }

    /// The digest of the load with a number, if one stands. It takes no memory.
    pub fn digest_of(&self, number: u32) -> Option<[u8; 32]>
        ensures { result ≡ option_map digest_in (load_at self.now number) }
    {
        self.loads.digest_of(number)
    }

    /// What a load makes of the book, which is not changed. The number is that of a new load, or 0, the
    /// number of a load that is not kept. It costs for each line some searches of the records, of the
    /// observations, and of those that the lines before it changed; a load with a line of the office costs a
    /// copy of the records besides.
    pub fn stage(
        &self,
        alloc: Global,
        number: u32,
        digest: [u8; 32],
        body: &Body<'_>,
    ) -> Result<Staged, Memory>
        requires number { (number ≡ 0) ⊎ (decide self.now number digest ≡ New) }
        ensures reply { IfOk result (λ staged. staged.reply ≡ reply self.now number body.now) }
        ensures office { IfOk result
            (λ staged. office_with staged self.now ≡ load self.now number digest body.now) }
        ensures fits { IfOk result (λ staged. Fits staged self.now) }
        ensures staged { IfOk result (IsStageOf self.now number digest body.now) }
    {
        loads_leave_the_office_valid();
        // The proof learns that the digest is 32 bytes, and that the lines are few.
        digest_is_32_bytes(&digest);
        body.line_count();
        let identity = LoadIdentity::new(number, digest);
        let staged = stage_load(alloc, &self.registry, &self.shelf, identity, body)?;
        Ok(staged)
    }

    /// The changes of rows that a load staged on this book makes, in the order of tables and keys and its own
    /// row last, as a keeper takes them. A row that is the same after the load is not among them.
    pub fn batch(&self, alloc: Global, staged: &Staged) -> Result<RowChanges, Memory>
        ensures { IfOk result (λ batch. (number : ℕ) (digest body : List ℕ)
            → IsStageOf self.now number digest body staged.now
            → batch ≡ row_batch self.now number digest body) }
    {
        let batch = batch_of(alloc, staged.changes(), staged.identity(), staged.reply())?;
        Ok(batch)
    }

    /// Takes a load that fits the book: one that was staged on it. It costs a search of the observations for
    /// each that the load changed, or two, and brings the cells that the load reaches up to date, lower levels
    /// first, in at most the steps that the change from the one office to the other costs. After want of
    /// memory nothing stands in the book.
    pub fn take<L: Ledger>(&mut self, staged: Staged, steps: &mut Steps<L>) -> Result<(), Memory>
        requires { Fits staged self.old }
        ensures book { OnOk result (self.new ≡ office_with staged self.old) }
        ensures lost { OnErr result (self.new ≡ nothing) }
        ensures steps { steps.new ≤ steps.old + cost self.old (office_with staged self.old) }
    {
        let empty = Book::new(self.alloc);
        let before = mem::replace(self, empty);
        *self = before.taken(staged, steps)?;
        Ok(())
    }

    // The book after a load that fits it. After want of memory the book is gone.
    fn taken<L: Ledger>(self, staged: Staged, steps: &mut Steps<L>) -> Result<Book, Memory>
        requires { Fits staged self }
        ensures book { IfOk result (λ book. book ≡ office_with staged self) }
        ensures steps { steps.new ≤ steps.old + cost self (office_with staged self) }
    {
        aq_ozone_cells::cells_out_of_reach_are_those_of_the_office_after_it();
        aq_particle_cells::pm25::cells_out_of_reach_are_those_of_the_office_after_it();
        aq_particle_cells::pm10::cells_out_of_reach_are_those_of_the_office_after_it();
        what_reads_a_changed_row_is_in_reach();
        let taken = staged.onto(self.shelf)?;
        let loads = with_load(self.loads, taken.identity, taken.reply)?;
        let mut cells = self.cells;
        let after = registry_after(&taken.registry, &self.registry);
        bring_up(
            self.alloc,
            &mut cells,
            &taken.changes,
            &self.registry,
            after,
            &taken.shelf,
            steps,
        )?;
        Ok(Book {
            registry: taken.registry.unwrap_or(self.registry),
            shelf: taken.shelf,
            loads,
            cells,
            alloc: self.alloc,
        })
    }
}

/// The loads with one more, if it is kept. After want of memory the loads are gone.
fn with_load(
    mut loads: Loads,
    identity: Option<LoadIdentity>,
    reply: LoadReply,
) -> Result<Loads, Memory>
    ensures { IfOk result (λ after. after ≡ kept_under identity reply loads) }
{
    if let Some(identity) = identity {
        loads.put(identity.number, identity.digest, reply)?;
    }
    Ok(loads)
}
