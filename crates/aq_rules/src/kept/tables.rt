//! The rows of an office, and where damaged rows are found.
#![tactic(auto)]

ghost use Rattle.std.specs.Prelude.{◌≡◌, ◌↔◌, IsTrue, true, List, ◌∷◌, [], codes, map, replicate, Some, None, pos};
ghost use Rattle.aq_base.specs.declared.monitor.Pollutant.TheVariants.{Pm25};
ghost use Rattle.aq_base.specs.declared.monitor.Duration.TheVariants.{Day};
ghost use Rattle.aq_rules.specs.Office.Office.{IsOffice, Office};
ghost use Rattle.aq_rules.specs.Kept.Rows.{FirstDamaged, OfObsRow, Place, Row, are_office_rows, damage, is_valid, load_row, obs_row, office_in, office_of_rows, office_row, rows_of};
ghost use Rattle.aq_rules.specs.Kept.RowExamples.{old_day};
ghost use Rattle.aq_rules.specs.Particles.ParticleExamples.{empty_load, exported, first_sampler, load_of_three_lines, primary_of, sample_at, sampler, stray_designation};

/// A monitor's row, a sample's, and a load's with a listed line and the rest.
pub fn rows_are_written()
    ensures monitor { office_row (sampler Pm25 Day 1) ≡ record { kind = pos 1; key = codes "06|037|1103|88101|01"; line = codes "XM|I|06|037|1103|88101|1|7|Y" } }
    ensures designation { office_row (primary_of Pm25 2) ≡ record { kind = pos 2; key = codes "06|037|1103|88101|19900101"; line = codes "XP|I|06|037|1103|88101|19900101|2" } }
    ensures samples { map obs_row exported.observations
        ≡ record { site = pos 60371103; pollutant = pos 2; poc = pos 1; hour = pos 210528; value = Some (pos 120); method = Some (pos 145); null = []; quals = codes "V RT" }
        ∷ record { site = pos 60371103; pollutant = pos 2; poc = pos 1; hour = pos 210600; value = None; method = None; null = codes "AN"; quals = codes "RT" } ∷ [] }
    ensures load { load_row load_of_three_lines ≡ record { number = pos 7; digest = replicate 32 9; lines = pos 3; accepted = pos 1; listed = codes "2:21 3:6"; rest = [] } }
{}

/// The rows of an office give the office back.
pub fn rows_give_the_office_back()
    ensures office { office_of_rows (rows_of exported) ≡ Some exported }
    ensures undamaged { damage (rows_of exported) ≡ None }
    ensures nothing { damage [] ≡ None }
{}

/// A load with the number 0, a designation of a monitor that is not registered, an hour that a sample
/// of 24 hours does not have, a sample without any record, and one of version 1: each is found in its
/// table, at its place there.
pub fn damaged_rows_are_found()
    ensures load_zero { damage (first_sampler ∷ empty_load 0 ∷ []) ≡ Some (record { table = 2; index = 0 }) }
    ensures second_load { damage (first_sampler ∷ empty_load 5 ∷ empty_load 5 ∷ sample_at 0 ∷ []) ≡ Some (record { table = 2; index = 1 }) }
    ensures designation { damage (first_sampler ∷ stray_designation ∷ []) ≡ Some (record { table = 0; index = 1 }) }
    ensures hour { damage (first_sampler ∷ sample_at 13 ∷ []) ≡ Some (record { table = 3; index = 0 }) }
    ensures no_records { damage (sample_at 0 ∷ []) ≡ Some (record { table = 3; index = 0 }) }
    ensures version_1 { damage (first_sampler ∷ OfObsRow old_day ∷ []) ≡ Some (record { table = 1; index = 0 }) }
    ensures loads_before_observations { damage (first_sampler ∷ sample_at 0 ∷ empty_load 5 ∷ []) ≡ Some (record { table = 2; index = 0 }) }
    ensures order { damage (empty_load 5 ∷ first_sampler ∷ []) ≡ Some (record { table = 0; index = 0 }) }
{}

/// The test by which rows are judged is what makes an office a valid one.
pub fn valid_offices_pass_the_test()
    ensures { (office : Office) → IsTrue (is_valid office) ↔ IsOffice office }
{}

/// A place that is found is that of the first row with which the rows up to it are no office's, and none is
/// found exactly if the rows are an office's.
pub fn first_damaged_row_is_named()
    ensures place { (rows : List Row) (place : Place) → damage rows ≡ Some place → FirstDamaged rows place }
    ensures none { (rows : List Row) → (damage rows ≡ None) ↔ IsTrue (are_office_rows rows) }
{}

/// Rows that are an office's are the rows of that office, which is a valid one.
pub fn rows_are_those_of_their_office()
    ensures rows { (rows : List Row) → IsTrue (are_office_rows rows) → rows_of (office_in rows) ≡ rows }
    ensures valid { (rows : List Row) → IsTrue (are_office_rows rows) → IsOffice (office_in rows) }
{}

/// The rows of a valid office are an office's, give that office back, and have no damaged one.
pub fn valid_offices_come_back()
    ensures rows { (office : Office) → IsOffice office → are_office_rows (rows_of office) ≡ true }
    ensures office { (office : Office) → IsOffice office → office_of_rows (rows_of office) ≡ Some office }
    ensures undamaged { (office : Office) → IsOffice office → damage (rows_of office) ≡ None }
{}
