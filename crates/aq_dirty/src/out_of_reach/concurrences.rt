//! What a concurrence reaches.
#![tactic(auto)]

ghost use Rattle.std.specs.Prelude.{◌≡◌, ℕ, [], Some, IsTrue};
ghost use Rattle.aq_base.specs.Site.{Site};
ghost use Rattle.aq_base.specs.declared.assumed.Assumed.{Assumed};
ghost use Rattle.aq_base.specs.declared.code.Code.{Code};
ghost use Rattle.aq_base.specs.declared.monitor.Pollutant.{Pollutant};
ghost use Rattle.aq_base.specs.declared.office.OfficeKey.TheVariants.{Event as EventKey};
ghost use Rattle.aq_base.specs.declared.office.OfficeRecord.TheVariants.{Event};
ghost use Rattle.aq_rules.specs.Lines.Spellings.{is_event_number};
ghost use Rattle.aq_rules.specs.Office.Office.{IsOffice, Office};
ghost use Rattle.aq_rules.specs.Office.Questions.{record_of};
ghost use Rattle.aq_rules.specs.WhatIf.Assumed.{assume_one};
ghost use Rattle.aq_dirty.specs.OutOfReach.Outside.{AreAsBefore};

/// A concurrence reaches the hours of its event alone: a year that the event does not touch is as before,
/// of ozone, PM2.5 and PM10, at the event's site and at any other. The records are those of a valid office;
/// of the observations nothing is asked.
pub fn years_outside_an_event_are_as_before()
    ensures { (office : Office) (entry : Assumed) (site : Site) (pollutant : Pollutant) (first last : ℕ) (code : Code)
        → IsOffice (record { records = office.records; observations = []; loads = [] })
        → IsTrue (is_event_number entry.number)
        → record_of office.records (EventKey entry.number) ≡ Some (Event entry.number site pollutant first last code)
        → AreAsBefore office (assume_one office entry) first last }
{}
