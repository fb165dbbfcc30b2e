//! Lines and their values, both ways.
ghost use Rattle.std.specs.Prelude.{◌≡◌, ℕ, ◌∷◌, [], List, Some, None, codes, true, false, pos, neg_ℤ, option_and_then, IsTrue};
ghost use Rattle.aq_base.specs.declared.monitor.MonitorId.{MonitorId};
ghost use Rattle.aq_base.specs.declared.monitor.Pollutant.TheVariants.{Ozone, Pm25, Pm10};
ghost use Rattle.aq_base.specs.declared.monitor.Duration.TheVariants.{Hour, Day};
ghost use Rattle.aq_base.specs.declared.office.OfficeRecord.TheVariants.{Monitor, Primary, Schedule, Season, Makeup, Event, Concurrence, Approved, Combined};
ghost use Rattle.aq_base.specs.declared.office.OfficeKey.TheVariants.{Monitor as MonitorKey, Primary as PrimaryKey, Season as SeasonKey, Makeup as MakeupKey, Event as EventKey, Approved as ApprovedKey, Combined as CombinedKey};
ghost use Rattle.aq_base.specs.declared.office.OfficeLine.{OfficeLine};
ghost use Rattle.aq_base.specs.declared.office.OfficeLine.TheVariants.{Put as PutRecord, Change as ChangeRecord, Drop as DropKey};
ghost use Rattle.aq_rules.specs.Lines.LineExamples.{home, neighbor, ozone_monitor, particle_monitor, new_year, noon, code_rt};
ghost use Rattle.aq_rules.specs.Lines.Spellings.{unit_in, value_in, null_in, qualifiers_in};
ghost use Rattle.aq_rules.specs.Lines.RdForm.{Put, Delete, RdValue};
ghost use Rattle.aq_rules.specs.Lines.Reading.{LineValue, OfRd, OfOffice, line_value};
ghost use Rattle.aq_rules.specs.Lines.Canonical.{canonical_rd, canonical_office, is_line_value, is_office_line, is_rd_value, printed_key};

/// Digits beyond thousandths of a ppm, or tenths of a µg/m3, are dropped, toward zero for negative
/// values too; a value in ppb is cut to whole ppb. The least and the greatest value of each pollutant
/// are read, and the ones beyond are not. Codes of one character and of two, in the fields of
/// qualifiers and of the null code. Three canonical RD lines, and the values that they spell.
#[tactic(auto, unfolding(crate::specs::Lines::Spellings::value_in, crate::specs::Lines::Spellings::qualifiers_in, crate::specs::Lines::Spellings::site_in, crate::specs::Lines::Spellings::date_in, crate::specs::Lines::Spellings::time_in, crate::specs::Lines::RdForm::monitor_in, crate::specs::Lines::RdForm::start_in, crate::specs::Lines::RdForm::content_in, crate::specs::Lines::RdForm::put_in, crate::specs::Lines::RdForm::delete_in, aq_base::specs::Calendar::days_of_years, aq_base::specs::Calendar::days_of_months))]
pub fn fields_and_samples_are_read()
    ensures ppm { option_and_then (λ places. value_in Ozone places (codes ".0437")) (unit_in Ozone (codes "007")) ≡ Some (pos 43) }
    ensures ppb { option_and_then (λ places. value_in Ozone places (codes "43.7")) (unit_in Ozone (codes "008")) ≡ Some (pos 43) }
    ensures below_zero { option_and_then (λ places. value_in Pm25 places (codes "-0.05")) (unit_in Pm25 (codes "105")) ≡ Some (pos 0) }
    ensures tenths { option_and_then (λ places. value_in Pm10 places (codes "12.39")) (unit_in Pm10 (codes "001")) ≡ Some (pos 123) }
    ensures least { value_in Ozone 3 (codes "-.9999") ≡ Some (neg_ℤ (pos 999)) }
    ensures too_low { value_in Ozone 3 (codes "-1") ≡ None }
    ensures greatest { value_in Pm25 1 (codes "+9999.99") ≡ Some (pos 99999) }
    ensures least_ozone { value_in Ozone 3 (codes "-0.999") ≡ Some (neg_ℤ (pos 999)) }
    ensures greatest_ozone { value_in Ozone 3 (codes "9.9999") ≡ Some (pos 9999) }
    ensures above_ozone { value_in Ozone 3 (codes "10") ≡ None }
    ensures least_pm25 { value_in Pm25 1 (codes "-99.9") ≡ Some (neg_ℤ (pos 999)) }
    ensures below_pm25 { value_in Pm25 1 (codes "-100.0") ≡ None }
    ensures above_pm25 { value_in Pm25 1 (codes "10000") ≡ None }
    ensures least_pm10 { value_in Pm10 1 (codes "-99.99") ≡ Some (neg_ℤ (pos 999)) }
    ensures greatest_pm10 { value_in Pm10 1 (codes "9999.9") ≡ Some (pos 99999) }
    ensures above_pm10 { value_in Pm10 1 (codes "10000.0") ≡ None }
    ensures digit { qualifiers_in (codes "1" ∷ []) ≡ Some (record { first = 49; second = 0 } ∷ []) }
    ensures digit_and_letter { qualifiers_in (codes "9Z" ∷ []) ≡ Some (record { first = 57; second = 90 } ∷ []) }
    ensures behind_empty_fields { qualifiers_in ([] ∷ codes "V" ∷ [] ∷ codes "RT" ∷ []) ≡ Some (record { first = 86; second = 0 } ∷ record { first = 82; second = 84 } ∷ []) }
    ensures twice { qualifiers_in (codes "V" ∷ codes "RT" ∷ codes "V" ∷ []) ≡ Some (record { first = 86; second = 0 } ∷ record { first = 82; second = 84 } ∷ []) }
    ensures small_letter { qualifiers_in (codes "V" ∷ codes "v" ∷ []) ≡ None }
    ensures three_characters { qualifiers_in (codes "RTX" ∷ []) ≡ None }
    ensures null { null_in (codes "A1") ≡ Some (record { first = 65; second = 49 }) }
    ensures null_of_one_character { null_in (codes "A") ≡ None }
    ensures inserted { line_value (codes "RD|I|06|037|1103|44201|1|1|007|087|20240701|13:00|0.071||||V|RT") ≡ Some (OfRd (Put false (record { site = record { state = 6; county = 37; number = 1103 }; pollutant = Ozone; poc = 1 }) Hour 302413 (record { value = Some (pos 71); null = None; quals = record { first = 86; second = 0 } ∷ record { first = 82; second = 84 } ∷ []; method = Some 87 }))) }
    ensures updated { line_value (codes "RD|U|06|037|1103|88101|2|7|105|145|20240107|00:00||AN") ≡ Some (OfRd (Put true (record { site = record { state = 6; county = 37; number = 1103 }; pollutant = Pm25; poc = 2 }) Day 298176 (record { value = None; null = Some (record { first = 65; second = 78 }); quals = []; method = Some 145 }))) }
    ensures deleted { line_value (codes "RD|D|06|037|1103|44201|1||||20240701|13:00") ≡ Some (OfRd (Delete (record { site = record { state = 6; county = 37; number = 1103 }; pollutant = Ozone; poc = 1 }) 302413)) }
    ensures first_hour { line_value (codes "RD|D|06|037|1103|44201|1||||19900101|00:00") ≡ Some (OfRd (Delete (record { site = record { state = 6; county = 37; number = 1103 }; pollutant = Ozone; poc = 1 }) 0)) }
    ensures last_hour { line_value (codes "RD|D|06|037|1103|44201|1||||20591231|23:00") ≡ Some (OfRd (Delete (record { site = record { state = 6; county = 37; number = 1103 }; pollutant = Ozone; poc = 1 }) 613607)) }
    ensures rough { line_value (codes " RD |D| 06|037|1103|44201|01|9|?|x|20240701|13:00|1e3|||||||||||||||| |") ≡ Some (OfRd (Delete (record { site = record { state = 6; county = 37; number = 1103 }; pollutant = Ozone; poc = 1 }) 302413)) }
{}

/// The same values are written as these lines.
pub fn samples_are_written()
    ensures inserted { canonical_rd (Put false (record { site = record { state = 6; county = 37; number = 1103 }; pollutant = Ozone; poc = 1 }) Hour 302413 (record { value = Some (pos 71); null = None; quals = record { first = 86; second = 0 } ∷ record { first = 82; second = 84 } ∷ []; method = Some 87 })) ≡ codes "RD|I|06|037|1103|44201|1|1|007|087|20240701|13:00|0.071||||V|RT" }
    ensures updated { canonical_rd (Put true (record { site = record { state = 6; county = 37; number = 1103 }; pollutant = Pm25; poc = 2 }) Day 298176 (record { value = None; null = Some (record { first = 65; second = 78 }); quals = []; method = Some 145 })) ≡ codes "RD|U|06|037|1103|88101|2|7|105|145|20240107|00:00||AN" }
    ensures deleted { canonical_rd (Delete (record { site = record { state = 6; county = 37; number = 1103 }; pollutant = Ozone; poc = 1 }) 302413) ≡ codes "RD|D|06|037|1103|44201|1||||20240701|13:00" }
{}

/// A canonical line of each office form, and the value that it spells.
#[tactic(auto, unfolding(crate::specs::Lines::Spellings::site_in, crate::specs::Lines::Spellings::parameter_of, crate::specs::Lines::Spellings::date_in, crate::specs::Lines::Spellings::year_in, crate::specs::Lines::Spellings::time_in, crate::specs::Lines::Spellings::interval_in, crate::specs::Lines::Spellings::event_number_in, crate::specs::Lines::Spellings::event_code_in, crate::specs::Lines::RdForm::monitor_in, crate::specs::Lines::OfficeForms::xm_record, crate::specs::Lines::OfficeForms::xp_record, crate::specs::Lines::OfficeForms::xp_key, crate::specs::Lines::OfficeForms::xs_record, crate::specs::Lines::OfficeForms::xo_record, crate::specs::Lines::OfficeForms::xo_key, crate::specs::Lines::OfficeForms::xu_record, crate::specs::Lines::OfficeForms::xu_key, crate::specs::Lines::OfficeForms::xe_record, crate::specs::Lines::OfficeForms::xe_key, crate::specs::Lines::OfficeForms::xc_record, crate::specs::Lines::OfficeForms::xa_record, crate::specs::Lines::OfficeForms::xa_key, crate::specs::Lines::OfficeForms::xb_record, crate::specs::Lines::OfficeForms::xb_key, aq_base::specs::Calendar::days_of_years, aq_base::specs::Calendar::days_of_months, aq_base::specs::Calendar::year_of, aq_base::specs::Calendar::month_of))]
pub fn office_lines_are_read()
    ensures monitor { line_value (codes "XM|I|06|037|1103|44201|1|1|Y") ≡ Some (OfOffice (PutRecord (Monitor ozone_monitor Hour true))) }
    ensures eligibility { line_value (codes "XM|U|06|037|1103|88101|1|7|N") ≡ Some (OfOffice (ChangeRecord (Monitor particle_monitor Day false))) }
    ensures primary { line_value (codes "XP|I|06|037|1103|44201|20240101|0") ≡ Some (OfOffice (PutRecord (Primary home Ozone new_year 0))) }
    ensures primary_deleted { line_value (codes "XP|D|06|037|1103|44201|20240101") ≡ Some (OfOffice (DropKey (PrimaryKey home Ozone new_year))) }
    ensures schedule { line_value (codes "XS|I|06|037|1103|88101|20240101|3|20240107") ≡ Some (OfOffice (PutRecord (Schedule home Pm25 new_year 3 12424))) }
    ensures season { line_value (codes "XO|I|06|037|1103|2024|20240301|20241031") ≡ Some (OfOffice (PutRecord (Season home 2024 12478 12722))) }
    ensures season_deleted { line_value (codes "XO|D|06|037|1103|2024") ≡ Some (OfOffice (DropKey (SeasonKey home 2024))) }
    ensures makeup { line_value (codes "XU|I|06|037|1103|88101|20240107|20240109") ≡ Some (OfOffice (PutRecord (Makeup home 12424 12426))) }
    ensures makeup_deleted { line_value (codes "XU|D|06|037|1103|88101|20240107") ≡ Some (OfOffice (DropKey (MakeupKey home 12424))) }
    ensures event { line_value (codes "XE|I|12|06|037|1103|44201|20240101|00:00|20240701|13:00|RT") ≡ Some (OfOffice (PutRecord (Event 12 home Ozone 298032 noon code_rt))) }
    ensures event_deleted { line_value (codes "XE|D|12") ≡ Some (OfOffice (DropKey (EventKey 12))) }
    ensures concurrence { line_value (codes "XC|U|12|Y") ≡ Some (OfOffice (ChangeRecord (Concurrence 12 true))) }
    ensures approved { line_value (codes "XA|I|06|037|1103|20240701") ≡ Some (OfOffice (PutRecord (Approved home 12600))) }
    ensures approval_deleted { line_value (codes "XA|D|06|037|1103|20240701") ≡ Some (OfOffice (DropKey (ApprovedKey home 12600))) }
    ensures combined { line_value (codes "XB|I|06|037|1103|44201|20240702|06|037|1104") ≡ Some (OfOffice (PutRecord (Combined home Ozone 12601 neighbor))) }
    ensures combination_deleted { line_value (codes "XB|D|06|037|1103|44201") ≡ Some (OfOffice (DropKey (CombinedKey home Ozone))) }
{}

/// The same values are written as these lines, and keys as these texts.
pub fn office_lines_are_written()
    ensures monitor { canonical_office (PutRecord (Monitor ozone_monitor Hour true)) ≡ codes "XM|I|06|037|1103|44201|1|1|Y" }
    ensures eligibility { canonical_office (ChangeRecord (Monitor particle_monitor Day false)) ≡ codes "XM|U|06|037|1103|88101|1|7|N" }
    ensures primary { canonical_office (PutRecord (Primary home Ozone new_year 0)) ≡ codes "XP|I|06|037|1103|44201|20240101|0" }
    ensures primary_deleted { canonical_office (DropKey (PrimaryKey home Ozone new_year)) ≡ codes "XP|D|06|037|1103|44201|20240101" }
    ensures schedule { canonical_office (PutRecord (Schedule home Pm25 new_year 3 12424)) ≡ codes "XS|I|06|037|1103|88101|20240101|3|20240107" }
    ensures season { canonical_office (PutRecord (Season home 2024 12478 12722)) ≡ codes "XO|I|06|037|1103|2024|20240301|20241031" }
    ensures makeup { canonical_office (PutRecord (Makeup home 12424 12426)) ≡ codes "XU|I|06|037|1103|88101|20240107|20240109" }
    ensures makeup_deleted { canonical_office (DropKey (MakeupKey home 12424)) ≡ codes "XU|D|06|037|1103|88101|20240107" }
    ensures event { canonical_office (PutRecord (Event 12 home Ozone 298032 noon code_rt)) ≡ codes "XE|I|12|06|037|1103|44201|20240101|00:00|20240701|13:00|RT" }
    ensures event_deleted { canonical_office (DropKey (EventKey 12)) ≡ codes "XE|D|12" }
    ensures concurrence { canonical_office (ChangeRecord (Concurrence 12 true)) ≡ codes "XC|U|12|Y" }
    ensures approved { canonical_office (PutRecord (Approved home 12600)) ≡ codes "XA|I|06|037|1103|20240701" }
    ensures combined { canonical_office (PutRecord (Combined home Ozone 12601 neighbor)) ≡ codes "XB|I|06|037|1103|44201|20240702|06|037|1104" }
    ensures combination_deleted { canonical_office (DropKey (CombinedKey home Ozone)) ≡ codes "XB|D|06|037|1103|44201" }
    ensures monitor_key { printed_key (MonitorKey ozone_monitor) ≡ codes "06|037|1103|44201|01" }
    ensures makeup_key { printed_key (MakeupKey home 12424) ≡ codes "06|037|1103|20240107" }
    ensures event_key { printed_key (EventKey 12) ≡ codes "000012" }
    ensures combined_key { printed_key (CombinedKey home Pm25) ≡ codes "06|037|1103|88101" }
{}

/// The canonical line of an office line is read as that line, for each that a body's line can spell.
pub fn canonical_office_lines_are_read_back()
    ensures { (line : OfficeLine) → IsTrue (is_office_line line) → line_value (canonical_office line) ≡ Some (OfOffice line) }
{}

/// The canonical line of a sample is read as that sample, for each that a body's line can spell.
pub fn canonical_samples_are_read_back()
    ensures { (value : RdValue) → IsTrue (is_rd_value value) → line_value (canonical_rd value) ≡ Some (OfRd value) }
{}

/// What a line spells is one of the values whose canonical lines are read back.
pub fn what_a_line_spells_is_in_range()
    ensures { (line : List ℕ) (value : LineValue) → line_value line ≡ Some value → IsTrue (is_line_value value) }
{}
