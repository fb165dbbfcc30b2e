//! What is asked of the records of an office, worked out over those of two sites.
ghost use Rattle.std.specs.Prelude.{◌≡◌, ◌∷◌, [], Some, None, true, false};
ghost use Rattle.aq_base.specs.declared.monitor.Pollutant.TheVariants.{Ozone, Pm10, Pm25};
ghost use Rattle.aq_base.specs.declared.monitor.Duration.TheVariants.{Hour, Day};
ghost use Rattle.aq_base.specs.declared.office.OfficeKey.TheVariants.{Monitor as MonitorKey, Primary as PrimaryKey, Event as EventKey, Concurrence as ConcurrenceKey};
ghost use Rattle.aq_base.specs.declared.office.OfficeRecord.TheVariants.{Monitor, Primary, Makeup, Concurrence, Combined};
ghost use Rattle.aq_rules.specs.Office.Questions.{combined, covers, following, makeup_of, missed_of, next_poc, next_site, record_of, registration_of};
ghost use Rattle.aq_rules.specs.Office.QuestionExamples.{coast, desert, two_sites, valley};
ghost use Rattle.aq_rules.specs.Office.OfficeExamples.{monitor_at};

/// A record is found by its key, and the next one by any key, whether or not a record has it. PM10
/// comes before PM2.5. A monitor's duration and eligibility, the registered POC that comes next, and
/// the site.
#[tactic(auto, unfolding(crate::specs::Office::Questions::following, crate::specs::Office::Questions::registration_of, crate::specs::Office::Questions::next_poc, crate::specs::Office::Questions::next_site))]
pub fn records_and_monitors_asked_for()
    ensures found { record_of two_sites (PrimaryKey coast Ozone 12418) ≡ Some (Primary coast Ozone 12418 4) }
    ensures absent { record_of two_sites (PrimaryKey coast Ozone 12419) ≡ None }
    ensures first { following two_sites None ≡ Some (Monitor (monitor_at coast Ozone 1) Hour true) }
    ensures next { following two_sites (Some (MonitorKey (monitor_at coast Ozone 4))) ≡ Some (Monitor (monitor_at coast Pm10 2) Day true) }
    ensures between { following two_sites (Some (MonitorKey (monitor_at coast Pm10 7))) ≡ Some (Monitor (monitor_at coast Pm25 3) Day false) }
    ensures next_kind { following two_sites (Some (PrimaryKey coast Ozone 12418)) ≡ Some (Makeup coast 12424 12426) }
    ensures behind_events { following two_sites (Some (EventKey 15)) ≡ Some (Concurrence 12 true) }
    ensures behind_all { following two_sites (Some (ConcurrenceKey 12)) ≡ None }
    ensures hours { registration_of two_sites (monitor_at coast Ozone 4) ≡ Some (record { duration = Hour; eligible = false }) }
    ensures days { registration_of two_sites (monitor_at coast Pm10 2) ≡ Some (record { duration = Day; eligible = true }) }
    ensures other_pollutant { registration_of two_sites (monitor_at coast Pm10 4) ≡ None }
    ensures least_poc { next_poc two_sites coast Ozone 0 ≡ Some 1 }
    ensures next_poc { next_poc two_sites coast Ozone 1 ≡ Some 4 }
    ensures no_poc { next_poc two_sites coast Ozone 4 ≡ None }
    ensures poc_of_site { next_poc two_sites valley Pm25 3 ≡ Some 5 }
    ensures first_site { next_site two_sites None ≡ Some coast }
    ensures next_site { next_site two_sites (Some coast) ≡ Some valley }
    ensures no_site { next_site two_sites (Some valley) ≡ None }
    ensures monitors_and_sites_behind_all { next_site two_sites (Some desert) ≡ None }
{}

/// A missed day has its make-up day, and a make-up day its missed day, each at its own site.
#[tactic(auto, unfolding(crate::specs::Office::Questions::makeup_of, crate::specs::Office::Questions::missed_of))]
pub fn days_that_are_made_up()
    ensures makeup { makeup_of two_sites coast 12442 ≡ Some 12445 }
    ensures missed { missed_of two_sites coast 12445 ≡ Some 12442 }
    ensures own_makeup { makeup_of two_sites valley 12424 ≡ Some 12427 }
    ensures other_site { missed_of two_sites coast 12427 ≡ None }
    ensures not_missed { makeup_of two_sites coast 12426 ≡ None }
{}

/// A site has the site that is joined to it, for the pollutant alone; the joined site itself has none.
#[tactic(auto, unfolding(crate::specs::Office::Questions::combined))]
pub fn sites_that_are_combined()
    ensures joined { combined (Combined coast Ozone 12601 valley ∷ Combined valley Pm25 12602 desert ∷ []) coast Ozone ≡ Some (record { site = valley; from = 12601 }) }
    ensures own { combined (Combined coast Ozone 12601 valley ∷ Combined valley Pm25 12602 desert ∷ []) valley Pm25 ≡ Some (record { site = desert; from = 12602 }) }
    ensures other_pollutant { combined (Combined coast Ozone 12601 valley ∷ Combined valley Pm25 12602 desert ∷ []) coast Pm25 ≡ None }
    ensures joined_site { combined (Combined coast Ozone 12601 valley ∷ Combined valley Pm25 12602 desert ∷ []) valley Ozone ≡ None }
    ensures none { combined two_sites coast Ozone ≡ None }
{}

/// An event covers its hours from the first to the last; of an unknown event nothing is said.
#[tactic(auto, unfolding(crate::specs::Office::Questions::covers))]
pub fn hours_of_an_event()
    ensures before { covers two_sites 12 297647 ≡ Some false }
    ensures first { covers two_sites 12 297648 ≡ Some true }
    ensures last { covers two_sites 12 297671 ≡ Some true }
    ensures after { covers two_sites 12 297672 ≡ Some false }
    ensures other { covers two_sites 15 297672 ≡ Some true }
    ensures unknown { covers two_sites 13 297658 ≡ None }
{}
