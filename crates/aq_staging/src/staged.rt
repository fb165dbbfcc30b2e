//! A load that is staged, and not yet taken.
ghost use Rattle.std.specs.Prelude.{◌≡◌, ◌≤◌, length, IfOk};
ghost use Rattle.aq_staging.specs.Changes.{with_changes};
ghost use Rattle.aq_rules.specs.Limits.{MOST_OBSERVATIONS};

use crate::changes::Changes;
use crate::identity::LoadIdentity;
use crate::list::OfficeChanges;
use aq_base::{LoadReply, Memory};
use aq_registry::Registry;
use aq_shelf::Shelf;
use std::marker::Model;

/// What a load makes of an office, held beside it: the records after it, if it may have changed one, what it
/// leaves of the observations, what it changes of both, under what it is kept, if it is, and its reply.
#[derive(Drop)]
pub struct Staged {
    pub(crate) registry: Option<Registry>,
    pub(crate) changes: Changes,
    pub(crate) office_changes: OfficeChanges,
    pub(crate) identity: Option<LoadIdentity>,
    pub(crate) reply: LoadReply,
}

impl Model for Staged {
    ghost use Rattle.aq_staging.specs.Staged.{StagedLoad};

    ghost Value = { StagedLoad };

    ghost view = { λ staged. record { records = staged.registry; changes = staged.changes; office_changes = staged.office_changes; identity = staged.identity; reply = staged.reply } };
}

impl Staged {
    /// The reply to the load.
    pub fn reply(&self) -> &LoadReply
        ensures { result.now ≡ self.now.reply }
    {
        &self.reply
    }

    /// The changes that the load makes to the records and observations that it was staged on, in the order
    /// of their tables and keys. One that is the same after the load is not among them.
    pub fn changes(&self) -> &OfficeChanges
        ensures { result.now ≡ self.now.office_changes }
    {
        &self.office_changes
    }

    /// Under what the load is kept, if it is.
    pub fn identity(&self) -> Option<LoadIdentity>
        ensures { result ≡ self.now.identity }
    {
        self.identity
    }

    /// What a load leaves of the office whose observations stand on this shelf. It costs a search of the
    /// shelf for each observation that the load changed, or two. After want of memory the shelf is gone.
    pub fn onto(self, shelf: Shelf) -> Result<Taken, Memory>
        requires { length (with_changes self.changes shelf) ≤ MOST_OBSERVATIONS }
        ensures records { IfOk result (λ taken. taken.registry ≡ self.records) }
        ensures observations { IfOk result (λ taken. taken.shelf ≡ with_changes self.changes shelf) }
        ensures changes { IfOk result (λ taken. taken.changes ≡ self.office_changes) }
        ensures identity { IfOk result (λ taken. taken.identity ≡ self.identity) }
        ensures reply { IfOk result (λ taken. taken.reply ≡ self.reply) }
    {
        Ok(Taken {
            registry: self.registry,
            shelf: self.changes.onto(shelf)?,
            changes: self.office_changes,
            identity: self.identity,
            reply: self.reply,
        })
    }
}

/// What stands after a load: the records, if it may have changed one, the observations, what it changed of
/// both, and of the load under what it is kept, if it is, and its reply.
#[derive(Drop)]
pub struct Taken {
    pub registry: Option<Registry>,
    pub shelf: Shelf,
    pub changes: OfficeChanges,
    pub identity: Option<LoadIdentity>,
    pub reply: LoadReply,
}
