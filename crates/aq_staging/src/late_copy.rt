//! The records while a load is staged.
ghost use Rattle.std.specs.Prelude.{◌≡◌, None, unwrap_or, IfErr, IfOk, IsTrue, OnErr, OnOk};
ghost use Rattle.aq_rules.specs.Lines.Canonical.{is_office_line};
ghost use Rattle.aq_rules.specs.Lines.Reading.{OfOffice};
ghost use Rattle.aq_rules.specs.Office.Load.{changed};
ghost use Rattle.aq_rules.specs.Office.Refusal.{broken};
ghost use Rattle.aq_registry.specs.Changes.{changes_of};
ghost use Rattle.aq_registry.specs.Registry.{office_with};
ghost use Rattle.aq_staging.specs.LateCopy.{IsCopyFault};

use aq_base::{Memory, OfficeLine};
use aq_registry::{Changes, Registry, RegistryFault};
use std::marker::Model;

/// The records of a registry with a load's changes. These are made to a copy, and the first line that may
/// change a record makes it: a load without one copies nothing. Contracts see the records of the registry,
/// and those that stand so far.
#[derive(Drop)]
pub(crate) struct LateCopy<'a> {
    before: &'a Registry,
    copy: Option<Registry>,
}

impl<'a> Model for LateCopy<'a> {
    ghost use Rattle.std.specs.Prelude.{unwrap_or};
    ghost use Rattle.aq_staging.specs.LateCopy.{Copied};

    ghost Value = { Copied };

    ghost view = { λ records. record { before = records.before.now; standing = unwrap_or records.copy records.before.now } };
}

impl<'a> LateCopy<'a> {
    /// The records of a registry, of which none is changed. It takes no memory.
    pub(crate) fn new(before: &'a Registry) -> LateCopy<'a>
        ensures { result ≡ record { before = before.now; standing = before.now } }
    {
        LateCopy { before, copy: None }
    }

    /// The records that stand so far, lent.
    pub(crate) fn standing(&self) -> &Registry
        ensures { result.now ≡ self.now.standing }
    {
        registry_after(&self.copy, self.before)
    }

    /// Applies a line that a body can spell, as `Registry::apply` does, to a copy of the records. The first
    /// line makes the copy. After a refusal or want of memory the records are unchanged.
    pub(crate) fn apply(&mut self, line: OfficeLine) -> Result<Changes, RegistryFault>
        requires { IsTrue (is_office_line line) }
        ensures unbroken { OnOk result (broken (office_with self.old.standing) (OfOffice line) ≡ None) }
        ensures after { OnOk result (self.new.standing ≡ (changed (office_with self.old.standing) (OfOffice line)).records) }
        ensures changes { IfOk result (λ changes. changes ≡ changes_of self.old.standing self.new.standing line) }
        ensures before { self.new.before ≡ self.old.before }
        ensures refused { IfErr result (IsCopyFault (broken (office_with self.old.standing) (OfOffice line))) }
        ensures unchanged { OnErr result (self.new ≡ self.old) }
    {
        let mut copy = made_copy(self.copy.take(), self.before)?;
        let applied = copy.apply(line);
        self.copy = Some(copy);
        applied
    }

    /// The copy alone, if one was made.
    pub(crate) fn into_copy(self) -> Option<Registry>
        ensures { unwrap_or result self.entry.before ≡ self.entry.standing }
    {
        self.copy
    }
}

/// The copy that was made, or one that is made now.
fn made_copy(copy: Option<Registry>, before: &Registry) -> Result<Registry, Memory>
    ensures same { IfOk result (λ made. made ≡ unwrap_or copy before.now) }
    ensures first { OnErr result (copy ≡ None) }
{
    match copy {
        Some(copy) => Ok(copy),
        None => before.copy(),
    }
}

/// The records after a load, lent: those that it left, or those before it if it changed none.
pub fn registry_after<'a>(after: &'a Option<Registry>, before: &'a Registry) -> &'a Registry
    ensures { result.now ≡ unwrap_or after.now before.now }
{
    match after {
        Some(after) => after,
        None => before,
    }
}
