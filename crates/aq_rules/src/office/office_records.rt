//! What the office's records say of a site and day, worked out.
#![tactic(auto)]

ghost use Rattle.std.specs.Prelude.{◌≡◌, true, false, ◌∷◌, [], Some, None};
ghost use Rattle.aq_base.specs.declared.monitor.Pollutant.TheVariants.{Ozone, Pm25};
ghost use Rattle.aq_base.specs.declared.office.OfficeRecord.TheVariants.{Primary, Schedule, Season as SeasonRecord};
ghost use Rattle.aq_rules.specs.Office.Designation.{primary_on};
ghost use Rattle.aq_rules.specs.Office.Schedule.{is_scheduled};
ghost use Rattle.aq_rules.specs.Office.Season.{Season, season_of};
ghost use Rattle.aq_rules.specs.Ozone.OzoneExamples.{site};

/// The designation with the latest start counts, whatever its place in the list, and POC 0 means none.
/// Every third day counts from an anchor, before it and after it, once the schedule has begun. The
/// season on record counts for its year; another year's season is the whole year.
pub fn what_records_say_of_a_day()
    ensures before { primary_on (Primary site Ozone 100 2 ∷ Primary site Ozone 50 1 ∷ []) site Ozone 49 ≡ None }
    ensures first { primary_on (Primary site Ozone 100 2 ∷ Primary site Ozone 50 1 ∷ []) site Ozone 99 ≡ Some 1 }
    ensures second { primary_on (Primary site Ozone 100 2 ∷ Primary site Ozone 50 1 ∷ []) site Ozone 100 ≡ Some 2 }
    ensures ended { primary_on (Primary site Ozone 50 1 ∷ Primary site Ozone 100 0 ∷ []) site Ozone 100 ≡ None }
    ensures anchor { is_scheduled (Schedule site Pm25 10 3 20 ∷ []) site Pm25 20 ≡ true }
    ensures after { is_scheduled (Schedule site Pm25 10 3 20 ∷ []) site Pm25 23 ≡ true }
    ensures earlier { is_scheduled (Schedule site Pm25 10 3 20 ∷ []) site Pm25 11 ≡ true }
    ensures between { is_scheduled (Schedule site Pm25 10 3 20 ∷ []) site Pm25 22 ≡ false }
    ensures not_begun { is_scheduled (Schedule site Pm25 10 3 20 ∷ []) site Pm25 8 ≡ false }
    ensures recorded { season_of (SeasonRecord site 2000 3712 3956 ∷ []) site 2000 ≡ record { first = 3712; last = 3956 } }
    ensures whole { season_of (SeasonRecord site 2000 3712 3956 ∷ []) site 2001 ≡ record { first = 4018; last = 4382 } }
{}
