//! Changes of rows, and the batch of a load as such changes.
#![tactic(auto)]

ghost use Rattle.std.specs.Prelude.{◌≡◌, ◌≤◌, ℕ, IsTrue, All, List, ◌∷◌, ◌++◌, [], Some, None, codes, map, pos, negsuc, true, false};
ghost use Rattle.aq_rules.specs.Lines.LineExamples.{agreed_event, digest_a, one_monitor, three_lines};
ghost use Rattle.aq_rules.specs.Particles.ParticleExamples.{empty_load, first_sampler, sample_at};
ghost use Rattle.aq_rules.specs.Office.Office.{IsOffice, Office, load_at};
ghost use Rattle.aq_rules.specs.Office.Load.{stored};
ghost use Rattle.aq_rules.specs.Kept.Rows.{OfLoadRow, OfSecondRow, Row, load_row, rows_of};
ghost use Rattle.aq_rules.specs.Kept.RowChanges.{Alters, DropRow, GivesRowsAfter, LoadRowKey, OfficeRowKey, ObsRowKey, PutRow, RowChange, SecondRowKey, batch_before, batch_rises, changed_key, key_before, keys_rise, row_batch, row_key, table_name, with_row_change};

/// The tables by their numbers.
pub fn tables_have_names()
    ensures records { table_name 0 ≡ codes "records" }
    ensures observations { table_name 1 ≡ codes "observations" }
    ensures loads { table_name 2 ≡ codes "loads" }
    ensures with_methods { table_name 3 ≡ codes "observations3" }
{}

/// Keys are ordered by table, then by their columns, whole numbers as such and texts by their bytes. In a
/// batch the loads come last.
pub fn keys_are_ordered_by_their_columns()
    ensures tables { key_before (ObsRowKey (pos 9) (pos 9) (pos 9) (pos 9)) (LoadRowKey (pos 1)) ≡ true }
    ensures numbers { key_before (LoadRowKey (pos 9)) (LoadRowKey (pos 10)) ≡ true }
    ensures below_zero { key_before (LoadRowKey (negsuc 0)) (LoadRowKey (pos 0)) ≡ true }
    ensures kinds { key_before (OfficeRowKey (pos 1) (codes "99")) (OfficeRowKey (pos 2) (codes "06")) ≡ true }
    ensures texts { key_before (OfficeRowKey (pos 1) (codes "06|1")) (OfficeRowKey (pos 1) (codes "06|1|2")) ≡ true }
    ensures last_table { key_before (LoadRowKey (pos 9)) (SecondRowKey (pos 1) (pos 1) (pos 1) (pos 1)) ≡ true }
    ensures last_hour { key_before (SecondRowKey (pos 1) (pos 1) (pos 1) (pos 8)) (SecondRowKey (pos 1) (pos 1) (pos 1) (pos 9)) ≡ true }
    ensures last_in_a_batch { batch_before (SecondRowKey (pos 9) (pos 9) (pos 9) (pos 9)) (LoadRowKey (pos 1)) ≡ true }
    ensures drop_before_put { batch_before (ObsRowKey (pos 9) (pos 9) (pos 9) (pos 9)) (SecondRowKey (pos 1) (pos 1) (pos 1) (pos 1)) ≡ true }
    ensures pollutants { key_before (ObsRowKey (pos 1) (pos 1) (pos 9) (pos 9)) (ObsRowKey (pos 1) (pos 2) (pos 1) (pos 1)) ≡ true }
    ensures itself { key_before (LoadRowKey (pos 9)) (LoadRowKey (pos 9)) ≡ false }
{}

/// A row is put at its place, or takes the place of the row with its key; another is dropped by its key.
pub fn rows_are_put_and_dropped()
    ensures between { with_row_change (first_sampler ∷ empty_load 3 ∷ empty_load 7 ∷ []) (PutRow (empty_load 5)) ≡ first_sampler ∷ empty_load 3 ∷ empty_load 5 ∷ empty_load 7 ∷ [] }
    ensures tables { with_row_change (first_sampler ∷ empty_load 3 ∷ []) (PutRow (sample_at 0)) ≡ first_sampler ∷ empty_load 3 ∷ sample_at 0 ∷ [] }
    ensures replaced { with_row_change (first_sampler ∷ OfLoadRow (record { number = pos 3; digest = digest_a; lines = pos 2; accepted = pos 1; listed = codes "1:2"; rest = [] }) ∷ []) (PutRow (empty_load 3)) ≡ first_sampler ∷ empty_load 3 ∷ [] }
    ensures dropped { with_row_change (first_sampler ∷ empty_load 3 ∷ empty_load 7 ∷ []) (DropRow (LoadRowKey (pos 3))) ≡ first_sampler ∷ empty_load 7 ∷ [] }
    ensures none_there { with_row_change (first_sampler ∷ empty_load 3 ∷ []) (DropRow (LoadRowKey (pos 7))) ≡ first_sampler ∷ empty_load 3 ∷ [] }
{}

/// The batch of a load of three lines, and that of an event deleted with its concurrence.
#[tactic(auto, unfolding(crate::specs::Lines::Spellings::site_in, crate::specs::Lines::Spellings::parameter_of, crate::specs::Lines::Spellings::date_in, crate::specs::Lines::Spellings::time_in, crate::specs::Lines::Spellings::event_number_in, crate::specs::Lines::Spellings::value_in, crate::specs::Lines::Spellings::qualifiers_in, crate::specs::Lines::RdForm::monitor_in, crate::specs::Lines::RdForm::start_in, crate::specs::Lines::RdForm::content_in, crate::specs::Lines::RdForm::put_in, crate::specs::Lines::OfficeForms::xe_key, crate::specs::Kept::RowChanges::row_batch, crate::specs::Lines::Canonical::key_texts, aq_base::specs::Calendar::days_of_years, aq_base::specs::Calendar::days_of_months, aq_base::specs::Decimal::last_digits))]
pub fn batches_of_loads()
    ensures hours { row_batch one_monitor 7 digest_a three_lines
        ≡ PutRow (OfSecondRow (record { site = pos 60371103; pollutant = pos 1; poc = pos 1; hour = pos 214765; value = Some (pos 71); method = Some (pos 87); null = []; quals = [] }))
        ∷ PutRow (OfSecondRow (record { site = pos 60371103; pollutant = pos 1; poc = pos 1; hour = pos 214766; value = Some (pos 73); method = Some (pos 87); null = []; quals = [] }))
        ∷ PutRow (OfLoadRow (record { number = pos 7; digest = digest_a; lines = pos 3; accepted = pos 2; listed = codes "2:21"; rest = [] })) ∷ [] }
    ensures event { row_batch agreed_event 0 digest_a (codes "XE|D|12") ≡ DropRow (OfficeRowKey (pos 6) (codes "000012")) ∷ DropRow (OfficeRowKey (pos 7) (codes "000012")) ∷ [] }
{}

/// The batch of a load, done to the rows of the office, gives the rows of the office after it.
pub fn batch_gives_the_rows_after()
    ensures { (office : Office) (number : ℕ) (digest body : List ℕ) → IsOffice office → GivesRowsAfter office number digest body }
{}

/// The changes of a batch are in the order of tables and keys, none at one key, and the load's row is last.
pub fn batch_is_in_order()
    ensures order { (office : Office) (number : ℕ) (digest body : List ℕ) → IsOffice office → IsTrue (batch_rises (map changed_key (row_batch office number digest body))) }
    ensures last { (office : Office) (number : ℕ) (digest body : List ℕ) → 1 ≤ number → row_batch office number digest body ≡ row_batch office 0 digest body ++ PutRow (OfLoadRow (load_row (stored office number digest body))) ∷ [] }
{}

/// Each change of a new load's batch alters the rows of the office.
pub fn batch_holds_what_changes()
    ensures { (office : Office) (number : ℕ) (digest body : List ℕ) → IsOffice office → load_at office number ≡ None → All (Alters (rows_of office)) (row_batch office number digest body) }
{}

/// A change that alters rows gives other rows.
pub fn a_change_that_alters_gives_other_rows()
    ensures { (rows : List Row) (change : RowChange) → Alters rows change → with_row_change rows change ≡ rows → ⊥ }
{}

/// The rows of a valid office are in the order of tables and keys, and rows in order stay in it.
pub fn rows_stay_in_order()
    ensures office { (office : Office) → IsOffice office → IsTrue (keys_rise (map row_key (rows_of office))) }
    ensures change { (rows : List Row) (change : RowChange) → IsTrue (keys_rise (map row_key rows)) → IsTrue (keys_rise (map row_key (with_row_change rows change))) }
{}
