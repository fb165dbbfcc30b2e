//! What assumed concurrences make of an office, and which events decide a verdict.
#![tactic(auto)]

ghost use Rattle.std.specs.Prelude.{◌≡◌, ℕ, Bool, true, false, List, [], ◌∷◌, ◌++◌, Some, None, pos, IsTrue};
ghost use Rattle.aq_base.specs.Site.{Site};
ghost use Rattle.aq_base.specs.declared.assumed.Assumed.{Assumed};
ghost use Rattle.aq_base.specs.declared.monitor.Pollutant.{Pollutant};
ghost use Rattle.aq_base.specs.declared.monitor.Pollutant.TheVariants.{Pm10};
ghost use Rattle.aq_base.specs.declared.office.OfficeKey.{OfficeKey};
ghost use Rattle.aq_base.specs.declared.office.OfficeKey.TheVariants.{Concurrence as ConcurrenceKey};
ghost use Rattle.aq_base.specs.declared.office.OfficeLine.TheVariants.{Change as ChangeRecord};
ghost use Rattle.aq_base.specs.declared.office.OfficeRecord.TheVariants.{Concurrence};
ghost use Rattle.aq_base.specs.declared.standard.Standard.TheVariants.{Pm10Of1987};
ghost use Rattle.aq_base.specs.declared.standard.Verdict.TheVariants.{NotMet, Incomplete, NoValue};
ghost use Rattle.aq_rules.specs.Lines.Canonical.{canonical_office};
ghost use Rattle.aq_rules.specs.Lines.Spellings.{is_event_number};
ghost use Rattle.aq_rules.specs.Office.Load.{after};
ghost use Rattle.aq_rules.specs.Office.Office.{KeysRise, Office, event_stands, is_same, key_numbers, record_at, rises};
ghost use Rattle.aq_rules.specs.Office.OfficeExamples.{east, west};
ghost use Rattle.aq_rules.specs.Ozone.OzoneExamples.{year_with};
ghost use Rattle.aq_rules.specs.Ozone.OzoneVerdict.{ozone_dv};
ghost use Rattle.aq_rules.specs.Ozone.OzoneYear.{ozone_year};
ghost use Rattle.aq_rules.specs.DesignValues.{verdict_in};
ghost use Rattle.aq_rules.specs.WhatIf.Assumed.{assume, decisive, events_at, unknown_event, what_if};
ghost use Rattle.aq_rules.specs.WhatIf.WhatIfExamples.{as_if, dusty, smoky_june};

/// For an event that stands, to assume a concurrence is to take the line by which an agency keeps it.
/// So the design value is the one that the office has once that line is accepted.
pub fn assuming_is_what_the_line_does()
    ensures { (office : Office) (number : ℕ) (agreed : Bool)
        → IsTrue (is_event_number number) → event_stands office number ≡ true
        → after office (canonical_office (ChangeRecord (Concurrence number agreed))) ≡ assume office (record { number = number; agreed = agreed } ∷ []) }
{}

/// Nothing assumed changes nothing. The last entry of a number counts, whatever stands and whatever the
/// entries before it say; and an entry leaves the other records, and all else, as they were.
pub fn the_last_entry_of_a_number_counts()
    ensures nothing { (office : Office) → assume office [] ≡ office }
    ensures last { (office : Office) (list : List Assumed) (entry : Assumed)
        → record_at (assume office (list ++ entry ∷ [])) (ConcurrenceKey entry.number) ≡ Some (Concurrence entry.number entry.agreed) }
    ensures others { (office : Office) (list : List Assumed) (entry : Assumed) (key : OfficeKey)
        → is_same (key_numbers (ConcurrenceKey entry.number)) (key_numbers key) ≡ false
        → record_at (assume office (list ++ entry ∷ [])) key ≡ record_at (assume office list) key }
    ensures observations { (office : Office) (list : List Assumed) → (assume office list).observations ≡ office.observations }
    ensures loads { (office : Office) (list : List Assumed) → (assume office list).loads ≡ office.loads }
{}

/// A year has days of 0.075, 0.075, 0.075, 0.074 and 0.060, of which the first is smoky. With a
/// concurrence in its event the fourth highest value is 0.060 instead of 0.074. After two years of 0.070
/// the design value is then 200 / 3, cut to 0.066, instead of 214 / 3, cut to 0.071: so a verdict of
/// NotMet becomes one of Incomplete, since few days are valid.
pub fn an_event_moves_the_fourth_highest_value()
    ensures stands { (ozone_year (smoky_june []) west 2024).fourth ≡ Some (pos 74) }
    ensures as_if_agreed { (ozone_year (assume (smoky_june []) (as_if 1 true ∷ [])) west 2024).fourth ≡ Some (pos 60) }
    ensures not_met { ozone_dv (year_with 4 70 ∷ year_with 4 70 ∷ year_with 5 74 ∷ []) ≡ record { value = Some (pos 71); verdict = NotMet } }
    ensures incomplete { ozone_dv (year_with 4 70 ∷ year_with 4 70 ∷ year_with 5 60 ∷ []) ≡ record { value = Some (pos 66); verdict = Incomplete } }
{}

/// Five exceedances of PM10 in a year do not meet the standard, and neither do four; three decide nothing.
/// Event 3 holds one of them and event 5 two, so event 5 alone is decisive, whatever stands of event 3.
/// Event 4 is of another site, and event 6 of ozone: they are known, and change nothing.
pub fn events_that_decide_a_pm10_verdict()
    ensures events { events_at (dusty 2024 []) west Pm10 ≡ 3 ∷ 5 ∷ [] }
    ensures decisive { decisive Pm10Of1987 (dusty 2024 []) west 2024 ≡ record { number = 5; verdict = NoValue } ∷ [] }
    ensures beside_agreed { decisive Pm10Of1987 (dusty 2024 (Concurrence 3 true ∷ [])) west 2024 ≡ record { number = 5; verdict = NoValue } ∷ [] }
    ensures agreed { decisive Pm10Of1987 (dusty 2024 (Concurrence 5 true ∷ [])) west 2024 ≡ record { number = 5; verdict = NotMet } ∷ [] }
    ensures none { decisive Pm10Of1987 (dusty 2024 []) east 2024 ≡ [] }
    ensures last_agreed { verdict_in (what_if Pm10Of1987 (dusty 2024 []) (as_if 5 false ∷ as_if 3 false ∷ as_if 5 true ∷ []) west 2024) ≡ NoValue }
    ensures last_disagreed { verdict_in (what_if Pm10Of1987 (dusty 2024 (Concurrence 5 true ∷ [])) (as_if 5 true ∷ as_if 5 false ∷ []) west 2024) ≡ NotMet }
    ensures elsewhere { verdict_in (what_if Pm10Of1987 (dusty 2024 []) (as_if 4 true ∷ as_if 6 true ∷ []) west 2024) ≡ NotMet }
    ensures unknown { unknown_event (dusty 2024 []) (as_if 6 true ∷ as_if 9 true ∷ as_if 8 false ∷ []) ≡ Some 9 }
    ensures known { unknown_event (dusty 2024 []) (as_if 4 true ∷ as_if 6 true ∷ as_if 3 false ∷ []) ≡ None }
{}

/// The events of a site and pollutant come by rising number, each once, if the keys of the records
/// rise.
pub fn events_come_by_rising_number()
    ensures { (office : Office) (site : Site) (pollutant : Pollutant)
        → KeysRise office → IsTrue (rises (λ number. number ∷ []) (events_at office site pollutant)) }
{}
