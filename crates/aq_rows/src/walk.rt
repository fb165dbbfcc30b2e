//! The rows of an office, taken one after the other.
ghost use Rattle.std.specs.Prelude.{◌≡◌, ◌<◌, ◌++◌, ◌∷◌, ◌&&◌, [], Some, length, IfErr, IfOk, IsTrue, OnErr, OnOk};
ghost use Rattle.aq_base.specs.declared.observation.Observation.{Observation};
ghost use Rattle.aq_rows.specs.KeptLoads.{stored_entry};
ghost use Rattle.aq_rows.specs.declared.kept_loads.KeptLoad.{KeptLoad};
ghost use Rattle.aq_rules.specs.Kept.Rows as rows;
ghost use Rattle.aq_rules.specs.Lines.Canonical.{is_office_line, record_line};
ghost use Rattle.aq_rules.specs.Limits.{MOST_LOADS, MOST_OBSERVATIONS};
ghost use Rattle.aq_rules.specs.Office.Office as offices;
ghost use Rattle.aq_rules.specs.Office.Office.{IsOffice, duration_at, load_rank, observation_numbers, observation_rank, record_rank, rises};
ghost use Rattle.aq_registry.specs.Registry as registries;
ghost use Rattle.aq_rows.specs.OneMoreRow.{has_none, may_follow};
ghost use Rattle.aq_rows.specs.Standing.{can_stand};
ghost use Rattle.aq_rows.specs.Walking.{Follows, IsFault, IsRowFault, IsWalk, standing};

use crate::kept_loads::{KeptLoad, Loads};
use crate::loads::load_of;
use crate::observations::observation_of;
use crate::records::{record_line, record_of};
use aq_base::{Duration, Hour, Memory, MonitorId, ObsKey, Observation, OfficeKey, OfficeRecord};
use aq_keeper::{LoadRow, ObsRow2, OfficeRow, Row, RowContent};
use aq_registry::{Registry, RegistryFault};
use aq_shelf::{Shelf, ShelfFault};
use std::alloc::Global;

/// Why a row is not taken.
#[derive(Clone, Copy, Debug, PartialEq, Eq)]
pub(crate) enum RowFault {
    /// With it the rows are no office's.
    Damaged,
    Memory,
}

impl From<Memory> for RowFault {
    ghost use Rattle.std.specs.Prelude.{◌≡◌};
    ghost use Rattle.aq_rows.specs.declared.walk.RowFault.TheVariants as faults;

    ghost from_gives = { λ _ fault. fault ≡ faults.Memory };

    fn from(_: Memory) -> Self {
        RowFault::Memory
    }
}

/// What the last row said.
#[derive(Clone, Copy)]
pub(crate) enum Last {
    /// A record; or there was no row.
    Record,
    /// The load with a number.
    Load { number: u32 },
    /// An observation, at a key whose monitor has samples that last so long.
    Observation { key: ObsKey, duration: Duration },
}

/// The office of the rows that were taken.
#[derive(Drop)]
pub(crate) struct Walk {
    pub(crate) registry: Registry,
    pub(crate) shelf: Shelf,
    pub(crate) loads: Loads,
    pub(crate) last: Last,
}

impl Walk {
    /// No row was taken yet. It takes no memory.
    pub(crate) fn new(alloc: Global) -> Walk
        ensures office { standing result ≡ offices.nothing }
        ensures walk { IsWalk result }
    {
        Walk {
            registry: Registry::new(alloc),
            shelf: Shelf::new(alloc),
            loads: Loads::new(alloc),
            last: Last::Record,
        }
    }

    /// Takes the next row, or says that with it the rows are no office's. After a fault the walk has come to
    /// its end.
    pub(crate) fn follow(&mut self, alloc: Global, row: &Row) -> Result<(), RowFault>
        requires { IsWalk self.old }
        ensures taken { OnOk result (Follows self.old row.now self.new) }
        ensures refused { IfErr result (IsRowFault (may_follow (standing self.old) row.now)) }
    {
        match &row.content {
            RowContent::Office(row) => self.take_record(alloc, row),
            // it has to be migrated first
            RowContent::Observation(_) => Err(RowFault::Damaged),
            RowContent::Load(row) => self.take_load(alloc, row),
            RowContent::Second(row) => self.take_observation(row),
        }
    }

    fn take_record(&mut self, alloc: Global, row: &OfficeRow) -> Result<(), RowFault>
        requires { IsWalk self.old }
        ensures taken { OnOk result (Follows self.old (rows.OfOfficeRow row.now) self.new) }
        ensures refused { IfErr result (IsRowFault (may_follow (standing self.old) (rows.OfOfficeRow row.now))) }
    {
        let Some(entry) = record_of(alloc, row)? else {
            return Err(RowFault::Damaged);
        };
        match &self.last {
            Last::Record => put_record(&mut self.registry, &entry),
            _ => Err(RowFault::Damaged),
        }
    }

    fn take_observation(&mut self, row: &ObsRow2) -> Result<(), RowFault>
        requires { IsWalk self.old }
        ensures taken { OnOk result (Follows self.old (rows.OfSecondRow row.now) self.new) }
        ensures refused { IfErr result (IsRowFault (may_follow (standing self.old) (rows.OfSecondRow row.now))) }
    {
        let Some((key, content)) = observation_of(row) else {
            return Err(RowFault::Damaged);
        };
        if !self.is_next_observation(&key) {
            return Err(RowFault::Damaged);
        }
        let Some(duration) = self.duration_of(&key.monitor) else {
            return Err(RowFault::Damaged);
        };
        if !is_kept_hour(duration, key.hour) {
            return Err(RowFault::Damaged);
        }
        put_observation(&mut self.shelf, &key, &content)?;
        self.last = Last::Observation { key, duration };
        Ok(())
    }

    fn take_load(&mut self, alloc: Global, row: &LoadRow) -> Result<(), RowFault>
        requires { IsWalk self.old }
        ensures taken { OnOk result (Follows self.old (rows.OfLoadRow row.now) self.new) }
        ensures refused { IfErr result (IsRowFault (may_follow (standing self.old) (rows.OfLoadRow row.now))) }
    {
        let Some((number, kept)) = load_of(alloc, row)? else {
            return Err(RowFault::Damaged);
        };
        if !self.is_next_load(number) {
            return Err(RowFault::Damaged);
        }
        put_load(&mut self.loads, number, kept)?;
        self.last = Last::Load { number };
        Ok(())
    }

    /// Whether an observation with a key may come after the last row.
    fn is_next_observation(&self, key: &ObsKey) -> bool
        requires { IsWalk self.now }
        ensures { (content : Observation) → result ≡ rises observation_rank (self.now.shelf ++ (key.now, content) ∷ []) }
    {
        match &self.last {
            Last::Observation { key: before, .. } => comes_before(before, key),
            _ => true,
        }
    }

    /// Whether a load with a number may come after the last row: no observation came, and the number is
    /// after those of the loads.
    fn is_next_load(&self, number: u32) -> bool
        requires { IsWalk self.now }
        ensures { (kept : KeptLoad) → result ≡ (has_none self.now.shelf && rises load_rank (self.now.loads ++ stored_entry (number, kept) ∷ [])) }
    {
        match &self.last {
            Last::Record => true,
            Last::Load { number: before } => *before < number,
            Last::Observation { .. } => false,
        }
    }

    /// How long the samples of a monitor last, if it is registered. That of the last observation's monitor
    /// is known.
    fn duration_of(&self, monitor: &MonitorId) -> Option<Duration>
        requires { IsWalk self.now }
        ensures { result ≡ duration_at (standing self.now) monitor.now }
    {
        match &self.last {
            Last::Observation { key, duration } if key.monitor == *monitor => Some(*duration),
            _ => duration_in(&self.registry, monitor),
        }
    }
}

/// Whether one observation's key comes before another's.
fn comes_before(a: &ObsKey, b: &ObsKey) -> bool
    ensures { result ≡ offices.comes_before (observation_numbers a.now) (observation_numbers b.now) }
{
    a < b
}

/// How long the samples of a monitor last, if it is registered, by one search of the records.
fn duration_in(registry: &Registry, monitor: &MonitorId) -> Option<Duration>
    ensures { result ≡ duration_at (registries.office_with registry.now) monitor.now }
{
    let found = registry.get(OfficeKey::Monitor { id: *monitor });
    match &found {
        Some(OfficeRecord::Monitor { duration, .. }) => Some(*duration),
        _ => None,
    }
}

/// Whether samples that last so long stand at an hour: those of 24 hours stand at hour 00 of their date.
fn is_kept_hour(duration: Duration, hour: Hour) -> bool
    ensures { result ≡ offices.is_kept_hour (Some duration) hour }
{
    match duration {
        Duration::Hour => true,
        Duration::Day => hour.number() % 24 == 0,
    }
}

/// Puts a record after the others of an office, or says that with it they are no office's.
fn put_record(registry: &mut Registry, entry: &OfficeRecord) -> Result<(), RowFault>
    requires spelled { IsTrue (is_office_line (record_line entry.now)) }
    requires valid { IsOffice (registries.office_with registry.old) }
    ensures ok { OnOk result (registry.new ≡ registry.old ++ entry.now ∷ []) }
    ensures office { OnOk result (IsOffice (registries.office_with registry.new)) }
    ensures refused { IfErr result (IsFault (IsOffice (registries.office_with (registry.old ++ entry.now ∷ [])))) }
{
    if !comes_last(registry, entry) {
        return Err(RowFault::Damaged);
    }
    match registry.apply(record_line(entry)) {
        Ok(_) => Ok(()),
        Err(RegistryFault::Broken(_)) => Err(RowFault::Damaged),
        Err(RegistryFault::Memory) => Err(RowFault::Memory),
    }
}

/// Whether a record is after all that stand, by two searches of them.
fn comes_last(registry: &Registry, entry: &OfficeRecord) -> bool
    requires { IsTrue (rises record_rank registry.now) }
    ensures { result ≡ rises record_rank (registry.now ++ entry.now ∷ []) }
{
    registry.following(Some(entry.key())).is_none() && registry.get(entry.key()).is_none()
}

/// Puts an observation after the others, unless as many stand as may.
fn put_observation(shelf: &mut Shelf, key: &ObsKey, content: &Observation) -> Result<(), RowFault>
    requires stands { IsTrue (can_stand (key.now, content.now)) }
    requires rising { IsTrue (rises observation_rank (shelf.old ++ (key.now, content.now) ∷ [])) }
    ensures ok { OnOk result (shelf.new ≡ shelf.old ++ (key.now, content.now) ∷ []) }
    ensures room { OnOk result (length shelf.old < MOST_OBSERVATIONS) }
    ensures refused { IfErr result (IsFault (length shelf.old < MOST_OBSERVATIONS)) }
{
    match shelf.insert(*key, *content) {
        Ok(()) => Ok(()),
        Err(ShelfFault::AlreadyThere) => Err(RowFault::Damaged),
        Err(ShelfFault::Full) => Err(RowFault::Damaged),
        Err(ShelfFault::Memory) => Err(RowFault::Memory),
    }
}

/// Puts a load after the others, unless as many stand as may.
fn put_load(loads: &mut Loads, number: u32, kept: KeptLoad) -> Result<(), RowFault>
    requires rising { IsTrue (rises load_rank (loads.old ++ stored_entry (number, kept) ∷ [])) }
    ensures ok { OnOk result (loads.new ≡ loads.old ++ stored_entry (number, kept) ∷ []) }
    ensures room { OnOk result (length loads.old < MOST_LOADS) }
    ensures refused { IfErr result (IsFault (length loads.old < MOST_LOADS)) }
{
    if loads.are_full() {
        return Err(RowFault::Damaged);
    }
    loads.put(number, kept.digest, kept.reply)?;
    Ok(())
}
