//! How tables of version 1 become an office's.
#![tactic(auto)]

ghost use Rattle.std.specs.Prelude.{◌≡◌, IsTrue, true, false, List, ◌∷◌, [], map, Some, None, pos};
ghost use Rattle.aq_rules.specs.Kept.Rows.{OfObsRow, OfSecondRow, Place, Row, are_office_rows};
ghost use Rattle.aq_rules.specs.Kept.RowChanges.{DropRow, ObsRowKey, PutRow, batch_rises, changed_key, with_row_changes};
ghost use Rattle.aq_rules.specs.Kept.Migration.{FirstUnopened, are_version_1, can_be_opened, migrated, migration_batch, opening_damage, second_row};
ghost use Rattle.aq_rules.specs.Kept.RowExamples.{next_old_hour, old_hour, ozone_at, ozone_row};
ghost use Rattle.aq_rules.specs.Particles.ParticleExamples.{empty_load};

/// An hour of version 1 with its value, null code and qualifiers, and without a method; a load that
/// stood after it stands before it. The batch has all drops before all puts.
pub fn an_old_hour_is_migrated()
    ensures hour { second_row old_hour ≡ record { site = pos 60371103; pollutant = pos 1; poc = pos 1; hour = pos 214762; value = Some (pos 71); method = None; null = []; quals = [] } }
    ensures rows { migrated (ozone_row ∷ OfObsRow old_hour ∷ empty_load 3 ∷ []) ≡ ozone_row ∷ empty_load 3 ∷ OfSecondRow (second_row old_hour) ∷ [] }
    ensures batch { migration_batch (ozone_row ∷ OfObsRow old_hour ∷ empty_load 3 ∷ []) ≡ DropRow (ObsRowKey (pos 60371103) (pos 1) (pos 1) (pos 214762)) ∷ PutRow (OfSecondRow (second_row old_hour)) ∷ [] }
    ensures two { migration_batch (ozone_row ∷ OfObsRow old_hour ∷ OfObsRow next_old_hour ∷ []) ≡ DropRow (ObsRowKey (pos 60371103) (pos 1) (pos 1) (pos 214762)) ∷ DropRow (ObsRowKey (pos 60371103) (pos 1) (pos 1) (pos 214763)) ∷ PutRow (OfSecondRow (second_row old_hour)) ∷ PutRow (OfSecondRow (second_row next_old_hour)) ∷ [] }
{}

/// Rows of version 1 and an office's, and rows that are neither: with a row in both tables of
/// observations, with an hour of a monitor that is not registered, and with the tables out of order.
pub fn old_tables_and_damaged_ones()
    ensures old { are_version_1 (ozone_row ∷ OfObsRow old_hour ∷ empty_load 3 ∷ []) ≡ true }
    ensures new { are_version_1 (ozone_row ∷ empty_load 3 ∷ ozone_at (pos 214762) ∷ []) ≡ false }
    ensures nothing { are_version_1 [] ≡ false }
    ensures undamaged { opening_damage (ozone_row ∷ OfObsRow old_hour ∷ OfObsRow next_old_hour ∷ []) ≡ None }
    ensures no_rows { opening_damage [] ≡ None }
    ensures both_tables { opening_damage (ozone_row ∷ OfObsRow old_hour ∷ OfSecondRow (second_row next_old_hour) ∷ []) ≡ Some (record { table = 3; index = 0 }) }
    ensures one_key { opening_damage (ozone_row ∷ OfObsRow old_hour ∷ OfSecondRow (second_row old_hour) ∷ []) ≡ Some (record { table = 3; index = 0 }) }
    ensures no_monitor { opening_damage (OfObsRow old_hour ∷ []) ≡ Some (record { table = 1; index = 0 }) }
    ensures twice { opening_damage (ozone_row ∷ OfObsRow old_hour ∷ OfObsRow old_hour ∷ []) ≡ Some (record { table = 1; index = 1 }) }
    ensures load_first { opening_damage (ozone_row ∷ empty_load 3 ∷ OfObsRow old_hour ∷ []) ≡ Some (record { table = 1; index = 0 }) }
{}

/// Migrated rows are an office's, and are not migrated again; those of an office stay as they are.
pub fn migrated_rows_are_an_offices()
    ensures office { (rows : List Row) → IsTrue (are_version_1 rows) → IsTrue (are_office_rows (migrated rows)) }
    ensures once { (rows : List Row) → IsTrue (are_office_rows rows) → are_version_1 rows ≡ false }
    ensures as_they_are { (rows : List Row) → IsTrue (are_office_rows rows) → migrated rows ≡ rows }
{}

/// The batch of a migration, done to rows of version 1, gives the migrated rows, and its changes are in the
/// order of a batch, none at one key.
pub fn the_batch_of_a_migration_gives_the_migrated_rows()
    ensures rows { (rows : List Row) → IsTrue (are_version_1 rows) → with_row_changes rows (migration_batch rows) ≡ migrated rows }
    ensures order { (rows : List Row) → IsTrue (are_version_1 rows) → IsTrue (batch_rises (map changed_key (migration_batch rows))) }
{}

/// A place that is found is that of the first row that cannot be opened with those before it; if none is
/// found, the rows are an office's or of version 1.
pub fn first_row_that_cannot_be_opened_is_named()
    ensures place { (rows : List Row) (place : Place) → opening_damage rows ≡ Some place → FirstUnopened rows place }
    ensures none { (rows : List Row) → opening_damage rows ≡ None → IsTrue (can_be_opened rows) }
{}
