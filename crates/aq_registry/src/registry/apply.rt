//! Lines of the office, applied.
ghost use Rattle.std.specs.Prelude.{◌≡◌, None, length, option_map, IfErr, IfOk, IsTrue, OnErr, OnOk};
ghost use Rattle.aq_base.specs.declared.office.OfficeLine.TheVariants.{Drop};
ghost use Rattle.aq_rules.specs.Lines.Canonical.{is_office_line};
ghost use Rattle.aq_rules.specs.Lines.Reading.{OfOffice};
ghost use Rattle.aq_rules.specs.Office.Load.{changed, without_key};
ghost use Rattle.aq_rules.specs.Office.Office.{IsOffice, record_rank, sites_of, with_row};
ghost use Rattle.aq_rules.specs.Office.Refusal.{broken};
ghost use Rattle.aq_registry.specs.Changes.{changes_of, drop_changes, dropped_with, dropping, IsFaultOf, putting};
ghost use Rattle.aq_registry.specs.Registry.{adds_event, drops_event, events_in, office_with};

use super::Registry;
use crate::changes::{Changes, RecordChange, RegistryFault};
use crate::exclusion::{is_agreed, note_drop, note_put};
use crate::records::Records;
use aq_base::{Memory, OfficeKey, OfficeLine, OfficeRecord};
use aq_rules::office::valid_load::lines_leave_the_office_valid;

impl Registry {
    /// Applies a line that a body can spell: a record is new, is changed or is dropped, an event with its
    /// concurrence. The line is refused under the first rule of the office that it breaks, or for want of
    /// memory, of which a deletion takes none. The registry is then unchanged.
    ///
    /// It costs a few searches of the map, and for a new record a walk over those that its limit counts:
    /// the monitors, designations or schedules of its site and pollutant, or the make-up samples of its
    /// site and quarter. Sites and events are kept as numbers. An update that changes nothing is accepted.
    pub fn apply(&mut self, line: OfficeLine) -> Result<Changes, RegistryFault>
        requires { IsTrue (is_office_line line) }
        ensures unbroken { OnOk result (broken (office_with self.old) (OfOffice line) ≡ None) }
        ensures after { OnOk result (self.new ≡ (changed (office_with self.old) (OfOffice line)).records) }
        ensures changes { IfOk result (λ changes. changes ≡ changes_of self.old self.new line) }
        ensures refused { IfErr result (λ fault. IsFaultOf (broken (office_with self.old) (OfOffice line)) line fault) }
        ensures unchanged { OnErr result (self.new ≡ self.old) }
    {
        if let Some(rule) = self.broken_rule(&line) {
            return Err(RegistryFault::Broken(rule));
        }
        // For the proof: the records are those of a valid office.
        let _ = &self.records;
        lines_leave_the_office_valid();
        match line {
            OfficeLine::Put(row) => Ok(self.put_record(row)?),
            OfficeLine::Change(row) => Ok(self.put_record(row)?),
            OfficeLine::Drop(key) => Ok(self.drop_record(key)),
        }
    }

    /// Puts a record, in place of one with its key. It and `drop_record` alone change the registry.
    fn put_record(&mut self, row: OfficeRecord) -> Result<Changes, Memory>
        requires { IsOffice (office_with (with_row record_rank row self.old)) }
        ensures after { OnOk result (self.new ≡ with_row record_rank row self.old) }
        ensures changes { IfOk result (λ changes. changes ≡ putting self.old row) }
        ensures unchanged { OnErr result (self.new ≡ self.old) }
    {
        let old = self.records.get(&row.key());
        let sites = self.sites_with(&row);
        let events = self.events_with(&row);
        let was = is_agreed(&self.records, &row.key());
        self.agreed.reserve()?;
        self.records.put(row)?;
        self.sites = sites;
        self.events = events;
        note_put(&mut self.agreed, &self.records, &row.key(), was);
        let new = Some(row);
        Ok(Changes {
            first: RecordChange { old, new },
            second: None,
        })
    }

    /// Drops the record of a key, and an event's concurrence with it.
    fn drop_record(&mut self, key: OfficeKey) -> Changes
        requires spelled { IsTrue (is_office_line (Drop key)) }
        requires valid { IsOffice (without_key key (office_with self.old)) }
        ensures after { self.new ≡ (without_key key (office_with self.old)).records }
        ensures changes { result ≡ drop_changes self.old key }
    {
        let old = self.records.get(&key);
        let concurrence = concurrence_of(&self.records, &key);
        let events = self.events_without(&key);
        let was = is_agreed(&self.records, &key);
        remove_whole(&mut self.records, &key);
        self.events = events;
        note_drop(&mut self.agreed, &key, was);
        Changes {
            first: RecordChange { old, new: None },
            second: dropping(concurrence),
        }
    }

    /// How many sites have a monitor once a record is put.
    fn sites_with(&self, row: &OfficeRecord) -> u32
        ensures { result ≡ length (sites_of (with_row record_rank row.now self.now)) }
    {
        if self.adds_site(row) {
            self.sites + 1
        } else {
            self.sites
        }
    }

    /// How many events stand once a record is put.
    fn events_with(&self, row: &OfficeRecord) -> u32
        ensures { result ≡ events_in (with_row record_rank row.now self.now) }
    {
        if self.adds_event(row) {
            self.events + 1
        } else {
            self.events
        }
    }

    /// How many events stand once a key is dropped.
    fn events_without(&self, key: &OfficeKey) -> u32
        ensures { result ≡ events_in (without_key key.now (office_with self.now)).records }
    {
        if self.drops_event(key) {
            self.events - 1
        } else {
            self.events
        }
    }

    /// Whether a record is an event whose number is new.
    fn adds_event(&self, row: &OfficeRecord) -> bool
        ensures { result ≡ adds_event self.now row.now }
    {
        match row {
            OfficeRecord::Event { number, .. } => !self.stands(&OfficeKey::Event {
                number: *number,
            }),
            _ => false,
        }
    }

    /// Whether a key is that of an event that stands.
    fn drops_event(&self, key: &OfficeKey) -> bool
        ensures { result ≡ drops_event self.now key.now }
    {
        match key {
            OfficeKey::Event { .. } => self.stands(key),
            _ => false,
        }
    }
}

/// The concurrence that is dropped with a key, which is that of an event.
fn concurrence_of(records: &Records, key: &OfficeKey) -> Option<OfficeRecord>
    ensures { result ≡ dropped_with records.now key.now }
{
    match key {
        OfficeKey::Event { number } => records.get(&OfficeKey::Concurrence { number: *number }),
        _ => None,
    }
}

/// Takes the record of a key away, and an event's concurrence with it.
fn remove_whole(records: &mut Records, key: &OfficeKey)
    ensures { records.new ≡ (without_key key.now (office_with records.old)).records }
{
    records.remove(key);
    if let OfficeKey::Event { number } = key {
        records.remove(&OfficeKey::Concurrence { number: *number });
    }
}

/// What became of a record that was dropped, if there was one.
fn dropping(row: Option<OfficeRecord>) -> Option<RecordChange>
    ensures { result ≡ option_map dropping row }
{
    let old = row?;
    Some(RecordChange {
        old: Some(old),
        new: None,
    })
}
