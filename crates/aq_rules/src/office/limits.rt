//! Limits of records and observations, on both sides.
#![tactic(auto)]

ghost use Rattle.std.specs.Prelude.{◌≡◌, true, false, [], ◌∷◌, map, Some, None, pos};
ghost use Rattle.std.specs.List.{range_with_len};
ghost use Rattle.aq_base.specs.Calendar.{day_number, hour_number};
ghost use Rattle.aq_base.specs.declared.monitor.Pollutant.TheVariants.{Ozone};
ghost use Rattle.aq_rules.specs.Lines.OfficeForms.{is_span};
ghost use Rattle.aq_rules.specs.Lines.Spellings.{is_event_number};
ghost use Rattle.aq_rules.specs.Office.Office.{is_content, is_method};

/// An event has at most 8,784 hours, those of a leap year, and a number up to 999,999. An observation has
/// at most ten qualifiers, none twice, and a method up to 999.
pub fn limits_of_events_and_observations()
    ensures hours { is_span 0 8783 ≡ true }
    ensures more_hours { is_span 0 8784 ≡ false }
    ensures leap_year { is_span (hour_number (day_number 2024 1 1) 0) (hour_number (day_number 2024 12 31) 23) ≡ true }
    ensures an_hour_more { is_span (hour_number (day_number 2024 1 1) 0) (hour_number (day_number 2025 1 1) 0) ≡ false }
    ensures numbers { map is_event_number (0 ∷ 1 ∷ 999999 ∷ 1000000 ∷ []) ≡ false ∷ true ∷ true ∷ false ∷ [] }
    ensures methods { map (λ method. is_method (Some method)) (0 ∷ 999 ∷ 1000 ∷ []) ≡ true ∷ true ∷ false ∷ [] }
    ensures ten { is_content Ozone (record { value = Some (pos 71); null = None; quals = map (λ second. record { first = 82; second = second }) (range_with_len 65 10); method = None }) ≡ true }
    ensures eleven { is_content Ozone (record { value = Some (pos 71); null = None; quals = map (λ second. record { first = 82; second = second }) (range_with_len 65 11); method = None }) ≡ false }
{}
