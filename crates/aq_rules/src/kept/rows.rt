//! What a row of each table must keep, on both sides of each limit.
#![tactic(auto)]

ghost use Rattle.std.specs.Prelude.{◌≡◌, ℕ, ◌<◌, ◌≤◌, IsTrue, true, false, List, length, ◌∷◌, [], ◌++◌, codes, map, replicate, Some, None, pos, negsuc};
ghost use Rattle.std.specs.List.{range_with_len};
ghost use Rattle.aq_base.specs.Calendar.{day_number, hour_number};
ghost use Rattle.aq_base.specs.declared.office.OfficeRecord.TheVariants.{Concurrence};
ghost use Rattle.aq_base.specs.declared.rule.Rule.TheVariants.{AlreadyThere, BadTag, ParameterOutOfProfile};
ghost use Rattle.aq_rules.specs.Lines.LineExamples.{many_monitors, many_sites, refused_lines};
ghost use Rattle.aq_rules.specs.Office.Office.{IsOffice, Office, StoredLoad, is_load, load_at};
ghost use Rattle.aq_rules.specs.Office.Load.{with_load};
ghost use Rattle.aq_rules.specs.Kept.Rows.{are_office_rows, hour_of_stored, hours_before_2000, is_valid, load_row, office_row, stored_hour};
ghost use Rattle.aq_rules.specs.Kept.RowExamples.{combination_row, neighbor_row, kept_load, load_of, load_with, monitor_row, nine_monitors, ozone_at, ozone_row, record_with, sample_by, sample_with};

/// A record's row has its kind, its key and its canonical line; a concurrence has its event.
pub fn record_rows()
    ensures monitor { are_office_rows (monitor_row ∷ []) ≡ true }
    ensures kind { are_office_rows (record_with (pos 2) (codes "06|037|1103|88101|01") (codes "XM|I|06|037|1103|88101|1|7|Y") ∷ []) ≡ false }
    ensures key { are_office_rows (record_with (pos 1) (codes "06|037|1103|88101|1") (codes "XM|I|06|037|1103|88101|1|7|Y") ∷ []) ≡ false }
    ensures another_key { are_office_rows (record_with (pos 1) (codes "06|037|1103|88101|02") (codes "XM|I|06|037|1103|88101|1|7|Y") ∷ []) ≡ false }
    ensures zeros { are_office_rows (record_with (pos 1) (codes "06|037|1103|88101|01") (codes "XM|I|06|037|1103|88101|01|7|Y") ∷ []) ≡ false }
    ensures spaces { are_office_rows (record_with (pos 1) (codes "06|037|1103|88101|01") (codes "XM|I|06|037|1103|88101|1|7| Y") ∷ []) ≡ false }
    ensures update { are_office_rows (record_with (pos 1) (codes "06|037|1103|88101|01") (codes "XM|U|06|037|1103|88101|1|7|Y") ∷ []) ≡ false }
    ensures hours_of_a_day { are_office_rows (record_with (pos 1) (codes "06|037|1103|44201|01") (codes "XM|I|06|037|1103|44201|1|7|Y") ∷ []) ≡ false }
    ensures event { are_office_rows (monitor_row ∷ record_with (pos 6) (codes "000012") (codes "XE|I|12|06|037|1103|88101|20240101|00:00|20240101|05:00|RT") ∷ record_with (pos 7) (codes "000012") (codes "XC|U|12|Y") ∷ []) ≡ true }
    ensures three_digits { are_office_rows (monitor_row ∷ record_with (pos 6) (codes "000012") (codes "XE|I|12|06|037|1103|88101|20240101|00:00|20240101|05:00|RT") ∷ record_with (pos 7) (codes "012") (codes "XC|U|12|Y") ∷ []) ≡ false }
    ensures no_event { are_office_rows (monitor_row ∷ record_with (pos 7) (codes "000012") (codes "XC|U|12|Y") ∷ []) ≡ false }
    ensures no_monitor { are_office_rows (record_with (pos 6) (codes "000012") (codes "XE|I|12|06|037|1103|88101|20240101|00:00|20240101|05:00|RT") ∷ []) ≡ false }
    ensures twice { are_office_rows (monitor_row ∷ monitor_row ∷ []) ≡ false }
    ensures concurrence { office_row (Concurrence 12 true) ≡ record { kind = pos 7; key = codes "000012"; line = codes "XC|U|12|Y" } }
{}

/// A combination's row has a monitor at each of its sites, and no site of another combination.
pub fn combination_rows()
    ensures combined { are_office_rows (monitor_row ∷ neighbor_row ∷ combination_row (codes "1103") (codes "1104") ∷ []) ≡ true }
    ensures other_line { are_office_rows (monitor_row ∷ neighbor_row ∷ record_with (pos 9) (codes "06|037|1104|88101") (codes "XB|I|06|037|1103|88101|20240702|06|037|1104") ∷ []) ≡ false }
    ensures no_monitor { are_office_rows (neighbor_row ∷ combination_row (codes "1103") (codes "1104") ∷ []) ≡ false }
    ensures no_joined_monitor { are_office_rows (monitor_row ∷ combination_row (codes "1103") (codes "1104") ∷ []) ≡ false }
    ensures both_ways { are_office_rows (monitor_row ∷ neighbor_row ∷ combination_row (codes "1103") (codes "1104") ∷ combination_row (codes "1104") (codes "1103") ∷ []) ≡ false }
    ensures same_site { are_office_rows (monitor_row ∷ neighbor_row ∷ combination_row (codes "1103") (codes "1103") ∷ []) ≡ false }
{}

/// An observation's row has a value in range or a null code, at most ten distinct qualifiers, and a method
/// from 0 to 999 or none.
pub fn observation_rows()
    ensures value { are_office_rows (monitor_row ∷ sample_with (Some (pos 120)) [] (codes "V RT") ∷ []) ≡ true }
    ensures greatest { are_office_rows (monitor_row ∷ sample_with (Some (pos 99999)) [] [] ∷ []) ≡ true }
    ensures too_great { are_office_rows (monitor_row ∷ sample_with (Some (pos 100000)) [] [] ∷ []) ≡ false }
    ensures least { are_office_rows (monitor_row ∷ sample_with (Some (negsuc 998)) [] [] ∷ []) ≡ true }
    ensures too_small { are_office_rows (monitor_row ∷ sample_with (Some (negsuc 999)) [] [] ∷ []) ≡ false }
    ensures null { are_office_rows (monitor_row ∷ sample_with None (codes "AN") [] ∷ []) ≡ true }
    ensures both { are_office_rows (monitor_row ∷ sample_with (Some (pos 120)) (codes "AN") [] ∷ []) ≡ false }
    ensures neither { are_office_rows (monitor_row ∷ sample_with None [] [] ∷ []) ≡ false }
    ensures short_null { are_office_rows (monitor_row ∷ sample_with None (codes "A") [] ∷ []) ≡ false }
    ensures small_letter { are_office_rows (monitor_row ∷ sample_with None (codes "aN") [] ∷ []) ≡ false }
    ensures ten { are_office_rows (monitor_row ∷ sample_with (Some (pos 120)) [] (codes "1 2 3 4 5 6 7 8 9 A") ∷ []) ≡ true }
    ensures eleven { are_office_rows (monitor_row ∷ sample_with (Some (pos 120)) [] (codes "1 2 3 4 5 6 7 8 9 A B") ∷ []) ≡ false }
    ensures twice { are_office_rows (monitor_row ∷ sample_with (Some (pos 120)) [] (codes "V V") ∷ []) ≡ false }
    ensures two_spaces { are_office_rows (monitor_row ∷ sample_with (Some (pos 120)) [] (codes "V  RT") ∷ []) ≡ false }
    ensures method_0 { are_office_rows (monitor_row ∷ sample_by (Some (pos 0)) ∷ []) ≡ true }
    ensures last_method { are_office_rows (monitor_row ∷ sample_by (Some (pos 999)) ∷ []) ≡ true }
    ensures beyond_methods { are_office_rows (monitor_row ∷ sample_by (Some (pos 1000)) ∷ []) ≡ false }
    ensures method_below_0 { are_office_rows (monitor_row ∷ sample_by (Some (negsuc 0)) ∷ []) ≡ false }
{}

/// A row counts its hour from 2000-01-01 00:00, which is hour 87,648 of the profile: 10:00 of 1 July 2024 is
/// 214762, and the hour before 2000 is -1. The first hour of 1990 and the last one of 2059 may stand, and
/// none beyond.
pub fn hours_of_rows()
    ensures hours { hours_before_2000 ≡ 87648 }
    ensures summer { stored_hour (hour_number (day_number 2024 7 1) 10) ≡ pos 214762 }
    ensures start_of_2000 { stored_hour (hour_number (day_number 2000 1 1) 0) ≡ pos 0 }
    ensures end_of_1999 { stored_hour (hour_number (day_number 1999 12 31) 23) ≡ negsuc 0 }
    ensures start_of_1990 { stored_hour (hour_number (day_number 1990 1 1) 0) ≡ negsuc 87647 }
    ensures end_of_2059 { stored_hour (hour_number (day_number 2059 12 31) 23) ≡ pos 525959 }
    ensures back { (hour : ℕ) → hour_of_stored (stored_hour hour) ≡ Some hour }
    ensures first { are_office_rows (ozone_row ∷ ozone_at (negsuc 87647) ∷ []) ≡ true }
    ensures before_the_first { are_office_rows (ozone_row ∷ ozone_at (negsuc 87648) ∷ []) ≡ false }
    ensures last { are_office_rows (ozone_row ∷ ozone_at (pos 525959) ∷ []) ≡ true }
    ensures after_the_last { are_office_rows (ozone_row ∷ ozone_at (pos 525960) ∷ []) ≡ false }
    ensures in_order { are_office_rows (ozone_row ∷ ozone_at (negsuc 0) ∷ ozone_at (pos 0) ∷ []) ≡ true }
    ensures out_of_order { are_office_rows (ozone_row ∷ ozone_at (pos 0) ∷ ozone_at (negsuc 0) ∷ []) ≡ false }
{}

/// A load's row has a number, a digest of 32 bytes, at most 120,000 lines, rising lines with rules, and no
/// more accepted and refused lines than lines.
pub fn load_rows()
    ensures lines { are_office_rows (load_with (pos 3) (pos 1) (codes "2:21 3:6") [] ∷ []) ≡ true }
    ensures most_lines { are_office_rows (load_with (pos 120000) (pos 0) [] [] ∷ []) ≡ true }
    ensures too_many_lines { are_office_rows (load_with (pos 120001) (pos 0) [] [] ∷ []) ≡ false }
    ensures below_zero { are_office_rows (load_with (pos 3) (negsuc 0) [] [] ∷ []) ≡ false }
    ensures too_many_accepted { are_office_rows (load_with (pos 3) (pos 2) (codes "2:21 3:6") [] ∷ []) ≡ false }
    ensures line_zero { are_office_rows (load_with (pos 3) (pos 0) (codes "0:21") [] ∷ []) ≡ false }
    ensures line_beyond { are_office_rows (load_with (pos 3) (pos 0) (codes "4:21") [] ∷ []) ≡ false }
    ensures falling { are_office_rows (load_with (pos 3) (pos 0) (codes "3:6 2:21") [] ∷ []) ≡ false }
    ensures one_line_twice { are_office_rows (load_with (pos 3) (pos 0) (codes "2:6 2:21") [] ∷ []) ≡ false }
    ensures last_rule { are_office_rows (load_with (pos 3) (pos 0) (codes "2:36") [] ∷ []) ≡ true }
    ensures no_rule { are_office_rows (load_with (pos 3) (pos 0) (codes "2:37") [] ∷ []) ≡ false }
    ensures rule_99 { are_office_rows (load_with (pos 3) (pos 0) (codes "2:99") [] ∷ []) ≡ false }
    ensures zeros { are_office_rows (load_with (pos 3) (pos 0) (codes "02:21") [] ∷ []) ≡ false }
    ensures spaces { are_office_rows (load_with (pos 3) (pos 0) (codes "2:21  3:6") [] ∷ []) ≡ false }
    ensures no_colon { are_office_rows (load_with (pos 3) (pos 0) (codes "2 21") [] ∷ []) ≡ false }
    ensures rest_of_few { are_office_rows (load_with (pos 3) (pos 0) (codes "2:21") (codes "6:1") ∷ []) ≡ false }
    ensures number { are_office_rows (load_of (pos 4294967295) (replicate 32 9) ∷ []) ≡ true }
    ensures great_number { are_office_rows (load_of (pos 4294967296) (replicate 32 9) ∷ []) ≡ false }
    ensures short_digest { are_office_rows (load_of (pos 7) (replicate 31 9) ∷ []) ≡ false }
    ensures no_byte { are_office_rows (load_of (pos 7) (replicate 32 256) ∷ []) ≡ false }
    ensures rest { (load_row (kept_load 700 50 602 (refused_lines 500) (record { rule = BadTag; count = 100 } ∷ record { rule = ParameterOutOfProfile; count = 2 } ∷ []))).rest ≡ codes "2:100 6:2" }
{}

/// Beyond 500 listed lines the others are counted by rule, in rising number, each once at least. Nine
/// monitors of a site may stand if they are of two pollutants, and of one eight.
pub fn rests_and_monitors()
    ensures rest { is_load (kept_load 700 50 602 (refused_lines 500) (record { rule = BadTag; count = 100 } ∷ record { rule = ParameterOutOfProfile; count = 2 } ∷ [])) ≡ true }
    ensures falling { is_load (kept_load 700 50 602 (refused_lines 500) (record { rule = ParameterOutOfProfile; count = 2 } ∷ record { rule = BadTag; count = 100 } ∷ [])) ≡ false }
    ensures none { is_load (kept_load 700 50 500 (refused_lines 500) (record { rule = BadTag; count = 0 } ∷ [])) ≡ false }
    ensures after_499 { is_load (kept_load 700 50 500 (refused_lines 499) (record { rule = BadTag; count = 1 } ∷ [])) ≡ false }
    ensures listed_501 { is_load (kept_load 700 50 501 (refused_lines 501) []) ≡ false }
    ensures other_number { is_load (kept_load 700 50 600 (refused_lines 500) (record { rule = BadTag; count = 102 } ∷ [])) ≡ false }
    ensures two_pollutants { is_valid nine_monitors ≡ true }
    ensures eight { is_valid (many_monitors 8) ≡ true }
    ensures nine { is_valid (many_monitors 9) ≡ false }
{}

/// As long as fewer than 100,000 loads stand, one more may; and no more than that stand.
pub fn a_hundred_thousand_loads_may_stand()
    ensures room { (office : Office) (load : StoredLoad) → IsOffice office → length office.loads < 100000 → IsTrue (is_load load) → IsOffice (with_load load office) }
    ensures most { (office : Office) → IsOffice office → length office.loads ≤ 100000 }
{}
