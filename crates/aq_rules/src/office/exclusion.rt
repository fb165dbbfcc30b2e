//! What an exclusion needs.
#![tactic(auto)]

ghost use Rattle.std.specs.Prelude.{◌≡◌, ℕ, ◌+◌, ◌-◌, true, false, List, [], ◌∷◌};
ghost use Rattle.std.specs.List.{list_any};
ghost use Rattle.aq_base.specs.Calendar.{hour_number};
ghost use Rattle.aq_base.specs.declared.code.Code.{Code};
ghost use Rattle.aq_base.specs.declared.observation.ObsKey.{ObsKey};
ghost use Rattle.aq_base.specs.declared.office.OfficeRecord.{OfficeRecord};
ghost use Rattle.aq_base.specs.declared.office.OfficeRecord.TheVariants.{Event, Concurrence};
ghost use Rattle.aq_base.specs.declared.monitor.MonitorId.{MonitorId};
ghost use Rattle.aq_base.specs.declared.monitor.Pollutant.TheVariants.{Ozone, Pm25};
ghost use Rattle.aq_rules.specs.Office.Exclusion.{agrees_to, excluded};
ghost use Rattle.aq_rules.specs.Ozone.OzoneExamples.{monitor_id, site, smoke, smoke_event, summer_day};
ghost use Rattle.aq_rules.specs.Office.OfficeExamples.{east, events, fireworks, monitor_at, noon, west};

/// Nothing is excluded if no concurrence `Y` stands. The event's hours with its code are excluded;
/// its other hours, hours outside, and hours under the number of another event are not. A code outside
/// RA to RZ, as IT, excludes nothing, whatever events stand.
pub fn exclusion_needs_an_event_and_its_concurrence()
    ensures exclusion_needs_a_concurrence { (records : List OfficeRecord) (key : ObsKey) (codes : List Code)
        → ((number : ℕ) → list_any (agrees_to number) records ≡ false)
        → excluded records key codes ≡ false }
    ensures first { excluded (smoke_event ∷ Concurrence 1 true ∷ []) (record { monitor = monitor_id 1; hour = hour_number summer_day 12 }) (smoke ∷ []) ≡ true }
    ensures last { excluded (smoke_event ∷ Concurrence 1 true ∷ []) (record { monitor = monitor_id 1; hour = hour_number summer_day 14 }) (smoke ∷ []) ≡ true }
    ensures later { excluded (smoke_event ∷ Concurrence 1 true ∷ []) (record { monitor = monitor_id 1; hour = hour_number summer_day 15 }) (smoke ∷ []) ≡ false }
    ensures without_code { excluded (smoke_event ∷ Concurrence 1 true ∷ []) (record { monitor = monitor_id 1; hour = hour_number summer_day 12 }) [] ≡ false }
    ensures other_number { excluded (smoke_event ∷ Concurrence 2 true ∷ []) (record { monitor = monitor_id 1; hour = hour_number summer_day 12 }) (smoke ∷ []) ≡ false }
    ensures disagreed { excluded (smoke_event ∷ Concurrence 1 false ∷ []) (record { monitor = monitor_id 1; hour = hour_number summer_day 12 }) (smoke ∷ []) ≡ false }
    ensures exclusion_needs_a_code_from_ra_to_rz { excluded
        (Event 1 site Ozone 0 9 (record { first = 73; second = 84 }) ∷ Concurrence 1 true ∷ [])
        (record { monitor = monitor_id 1; hour = 5 }) (record { first = 73; second = 84 } ∷ []) ≡ false }
{}

/// An event takes out no hour before its first, and none of another pollutant, site or code.
#[tactic(auto, unfolding(crate::specs::Office::Exclusion::excluded, aq_base::specs::Calendar::days_of_years, aq_base::specs::Calendar::days_of_months))]
pub fn exclusion_is_of_its_hours_pollutant_and_site()
    ensures first { excluded events (record { monitor = monitor_at west Ozone 1; hour = noon }) (smoke ∷ []) ≡ true }
    ensures hour_before { excluded events (record { monitor = monitor_at west Ozone 1; hour = noon - 1 }) (smoke ∷ []) ≡ false }
    ensures hour_behind { excluded events (record { monitor = monitor_at west Ozone 1; hour = noon + 3 }) (smoke ∷ []) ≡ false }
    ensures pollutant { excluded events (record { monitor = monitor_at west Pm25 1; hour = noon }) (smoke ∷ []) ≡ false }
    ensures site { excluded events (record { monitor = monitor_at east Ozone 1; hour = noon }) (smoke ∷ []) ≡ false }
    ensures code { excluded events (record { monitor = monitor_at west Ozone 1; hour = noon }) (fireworks ∷ []) ≡ false }
    ensures any_code { excluded events (record { monitor = monitor_at west Ozone 1; hour = noon }) (fireworks ∷ smoke ∷ []) ≡ true }
    ensures any_monitor { excluded events (record { monitor = monitor_at west Ozone 9; hour = noon }) (smoke ∷ []) ≡ true }
{}
