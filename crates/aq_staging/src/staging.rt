//! The office while a load is staged: the records, and the observations.
ghost use Rattle.std.specs.Prelude.{◌≡◌};
ghost use Rattle.aq_rules.specs.Office.Refusal.{kept_at};

use crate::late_copy::LateCopy;
use crate::overlay::{Overlay, OverlayFault};
use crate::touched::note;
use aq_base::{
    Duration, Hour, Memory, MonitorId, ObsKey, Observation, OfficeKey, OfficeLine, OfficeRecord,
    Rule,
};
use aq_forms::read_office;
use aq_rd::{RdLine, has_office_tag, read_rd};
use aq_registry::{Records, Registry, RegistryFault};
use aq_shelf::{Shelf, ShelfFault};
use std::alloc::Global;

/// An office as a load's lines leave it so far. What stood before the load is not touched.
#[derive(Drop)]
pub(crate) struct Staging<'a> {
    pub(crate) records: LateCopy<'a>,
    /// Under each key of which the lines put, changed or dropped a record, one such record.
    pub(crate) touched: Records,
    pub(crate) observations: Overlay<'a>,
}

/// Why a line is not taken.
#[derive(Clone, Copy, Debug, PartialEq, Eq)]
pub(crate) enum Refusal {
    Broken(Rule),
    Memory,
}

impl From<ShelfFault> for Refusal {
    ghost use Rattle.std.specs.Prelude.{◌≡◌};
    ghost use Rattle.aq_staging.specs.Refusals.{refusal_of_put};

    ghost from_gives = { λ fault refusal. refusal ≡ refusal_of_put fault };

    fn from(fault: ShelfFault) -> Self {
        match fault {
            ShelfFault::AlreadyThere => Refusal::Broken(Rule::AlreadyThere),
            ShelfFault::Full => Refusal::Broken(Rule::ObservationsFull),
            ShelfFault::Memory => Refusal::Memory,
        }
    }
}

impl From<OverlayFault> for Refusal {
    ghost use Rattle.std.specs.Prelude.{◌≡◌};
    ghost use Rattle.aq_staging.specs.Refusals.{refusal_of_change};

    ghost from_gives = { λ fault refusal. refusal ≡ refusal_of_change fault };

    fn from(fault: OverlayFault) -> Self {
        match fault {
            OverlayFault::NotThere => Refusal::Broken(Rule::NotThere),
            OverlayFault::Memory => Refusal::Memory,
        }
    }
}

impl<'a> Staging<'a> {
    ghost use Rattle.std.specs.Prelude.{◌≡◌, ℕ, None, true, false, IfErr, IsTrue, OnErr, OnOk};
    ghost use Rattle.aq_base.specs.Values.{HasValueInRange};
    ghost use Rattle.aq_staging.specs.Refusals.{office_before, office_in, AreNoted, IsAsBefore, IsRefusal};
    ghost use Rattle.aq_staging.specs.Touched.{AreTouched};
    ghost use Rattle.aq_rules.specs.Lines.Canonical.{is_office_line};
    ghost use Rattle.aq_rules.specs.Lines.RdForm.{Put as PutSample, Delete as DeleteSample};
    ghost use Rattle.aq_rules.specs.Lines.Reading.{OfOffice, OfRd};
    ghost use Rattle.aq_rules.specs.Office.Load.{after, changed, refusal};
    ghost use Rattle.aq_rules.specs.Office.Office.{duration_at};
    ghost use Rattle.aq_rules.specs.Office.Refusal.{broken};
    ghost use Rattle.aq_rd.specs.RdReading.{value_of};
    ghost use Rattle.aq_rd.specs.Ranges.{HasLineRange};
    ghost use Rattle.aq_rd.specs.Tags.{has_office_tag};
    ghost use Rattle.aq_staging.specs.OfficeView.{office_of};

    /// An office of these records and observations, of which no line was taken yet. It takes no memory.
    pub(crate) fn new(alloc: Global, registry: &'a Registry, shelf: &'a Shelf) -> Staging<'a>
        ensures office { office_in result ≡ office_of registry.now shelf.now }
        ensures before { office_before result ≡ office_of registry.now shelf.now }
        ensures touched { AreTouched registry.now result.records.standing result.touched }
    {
        Staging {
            records: LateCopy::new(registry),
            touched: Records::new(alloc),
            observations: Overlay::new(alloc, shelf),
        }
    }

    /// Takes a line, and notes what it touched. After a refusal nothing is changed.
    pub(crate) fn take(&mut self, line: &[u8]) -> Result<(), Refusal>
        ensures unbroken { OnOk result (refusal (office_in self.old) line.now ≡ None) }
        ensures after { OnOk result (office_in self.new ≡ after (office_in self.old) line.now) }
        ensures refused { IfErr result (IsRefusal (refusal (office_in self.old) line.now)) }
        ensures unchanged { IfErr result (λ refusal. IsAsBefore refusal self.old self.new) }
        ensures touched { OnOk result (AreNoted self.old self.new) }
        ensures before { office_before self.new ≡ office_before self.old }
    {
        if has_office_tag(line) {
            self.take_record(line)
        } else {
            self.take_sample(line)
        }
    }

    /// Takes a line of the agency's own forms.
    fn take_record(&mut self, line: &[u8]) -> Result<(), Refusal>
        requires { has_office_tag line.now ≡ true }
        ensures unbroken { OnOk result (refusal (office_in self.old) line.now ≡ None) }
        ensures after { OnOk result (office_in self.new ≡ after (office_in self.old) line.now) }
        ensures refused { IfErr result (IsRefusal (refusal (office_in self.old) line.now)) }
        ensures unchanged { IfErr result (λ refusal. IsAsBefore refusal self.old self.new) }
        ensures touched { OnOk result (AreNoted self.old self.new) }
        ensures before { office_before self.new ≡ office_before self.old }
    {
        match read_office(line) {
            Ok(line) => self.apply_record(line),
            Err(rule) => Err(Refusal::Broken(rule)),
        }
    }

    /// Takes an RD line.
    fn take_sample(&mut self, line: &[u8]) -> Result<(), Refusal>
        requires { has_office_tag line.now ≡ false }
        ensures unbroken { OnOk result (refusal (office_in self.old) line.now ≡ None) }
        ensures after { OnOk result (office_in self.new ≡ after (office_in self.old) line.now) }
        ensures refused { IfErr result (IsRefusal (refusal (office_in self.old) line.now)) }
        ensures unchanged { IfErr result (λ refusal. IsAsBefore refusal self.old self.new) }
        ensures touched { OnOk result (AreNoted self.old self.new) }
        ensures before { office_before self.new ≡ office_before self.old }
    {
        match read_rd(line) {
            Ok(line) => self.apply_sample(&line),
            Err(rule) => Err(Refusal::Broken(rule)),
        }
    }

    /// Puts, changes or drops a record of the office.
    fn apply_record(&mut self, line: OfficeLine) -> Result<(), Refusal>
        requires { IsTrue (is_office_line line) }
        ensures unbroken { OnOk result (broken (office_in self.old) (OfOffice line) ≡ None) }
        ensures after { OnOk result (office_in self.new ≡ changed (office_in self.old) (OfOffice line)) }
        ensures refused { IfErr result (IsRefusal (broken (office_in self.old) (OfOffice line))) }
        ensures unchanged { IfErr result (λ refusal. IsAsBefore refusal self.old self.new) }
        ensures touched { OnOk result (AreNoted self.old self.new) }
        ensures before { office_before self.new ≡ office_before self.old }
    {
        match self.records.apply(line) {
            Ok(changes) => match note(&mut self.touched, &changes) {
                Ok(()) => Ok(()),
                Err(Memory) => Err(Refusal::Memory),
            },
            Err(RegistryFault::Broken(rule)) => Err(Refusal::Broken(rule)),
            Err(RegistryFault::Memory) => Err(Refusal::Memory),
        }
    }

    /// Inserts, updates or deletes an observation.
    fn apply_sample(&mut self, line: &RdLine) -> Result<(), Refusal>
        requires { HasLineRange line.now }
        ensures unbroken { OnOk result (broken (office_in self.old) (OfRd (value_of line.now)) ≡ None) }
        ensures after { OnOk result (office_in self.new ≡ changed (office_in self.old) (OfRd (value_of line.now))) }
        ensures refused { let value = OfRd (value_of line.now) in
            IfErr result (IsRefusal (broken (office_in self.old) value)) }
        ensures unchanged { IfErr result (λ refusal. IsAsBefore refusal self.old self.new) }
        ensures touched { OnOk result (AreNoted self.old self.new) }
        ensures before { office_before self.new ≡ office_before self.old }
    {
        match line {
            RdLine::Put {
                update,
                monitor,
                duration,
                hour,
                content,
            } => self.put(*update, monitor, *duration, *hour, content),
            RdLine::Delete { monitor, hour } => self.delete(monitor, *hour),
        }
    }

    /// How long a registered monitor's samples last, by one search of the records.
    fn duration(&self, monitor: &MonitorId) -> Option<Duration>
        ensures { result ≡ duration_at (office_in self.now) monitor.now }
    {
        let key = OfficeKey::Monitor { id: *monitor };
        match self.records.standing().get(key)? {
            OfficeRecord::Monitor { duration, .. } => Some(duration),
            _ => None,
        }
    }

    /// Inserts or updates an observation, with the line's method.
    fn put(
        &mut self,
        update: bool,
        monitor: &MonitorId,
        duration: Duration,
        hour: Hour,
        content: &Observation,
    ) -> Result<(), Refusal>
        requires { HasValueInRange monitor.now.pollutant content.now }
        ensures unbroken { let value = OfRd (PutSample update monitor.now duration hour content.now) in
            OnOk result (broken (office_in self.old) value ≡ None) }
        ensures after { let value = OfRd (PutSample update monitor.now duration hour content.now) in
            OnOk result (office_in self.new ≡ changed (office_in self.old) value) }
        ensures refused { let value = OfRd (PutSample update monitor.now duration hour content.now) in
            IfErr result (IsRefusal (broken (office_in self.old) value)) }
        ensures unchanged { IfErr result (λ refusal. IsAsBefore refusal self.old self.new) }
        ensures touched { OnOk result (AreNoted self.old self.new) }
        ensures before { office_before self.new ≡ office_before self.old }
    {
        let Some(registered) = self.duration(monitor) else {
            return Err(Refusal::Broken(Rule::UnknownMonitor));
        };
        if duration != registered {
            return Err(Refusal::Broken(Rule::WrongDuration));
        }
        let key = kept_key(monitor, registered, hour);
        if update {
            self.observations.update(key, *content)?;
            Ok(())
        } else {
            self.observations.insert(key, *content)?;
            Ok(())
        }
    }

    /// Takes an observation away.
    fn delete(&mut self, monitor: &MonitorId, hour: Hour) -> Result<(), Refusal>
        ensures unbroken { let value = OfRd (DeleteSample monitor.now hour) in
            OnOk result (broken (office_in self.old) value ≡ None) }
        ensures after { let value = OfRd (DeleteSample monitor.now hour) in
            OnOk result (office_in self.new ≡ changed (office_in self.old) value) }
        ensures refused { let value = OfRd (DeleteSample monitor.now hour) in
            IfErr result (IsRefusal (broken (office_in self.old) value)) }
        ensures unchanged { IfErr result (λ refusal. IsAsBefore refusal self.old self.new) }
        ensures touched { OnOk result (AreNoted self.old self.new) }
        ensures before { office_before self.new ≡ office_before self.old }
    {
        let Some(registered) = self.duration(monitor) else {
            return Err(Refusal::Broken(Rule::UnknownMonitor));
        };
        self.observations
            .remove(kept_key(monitor, registered, hour))?;
        Ok(())
    }
}

/// Where a monitor's sample stands: one of 24 hours at hour 00 of its date, whatever start time its line
/// names.
fn kept_key(monitor: &MonitorId, duration: Duration, hour: Hour) -> ObsKey
    ensures { result ≡ record { monitor = monitor.now; hour = kept_at (Some duration) hour } }
{
    let hour = match duration {
        Duration::Hour => hour,
        Duration::Day => Hour::new(24 * (hour.number() / 24)),
    };
    ObsKey {
        monitor: *monitor,
        hour,
    }
}
