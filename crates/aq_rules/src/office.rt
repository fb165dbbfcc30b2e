//! The order of an office's records.

pub mod exclusion;
pub mod limits;
pub mod load;
pub mod methods;
pub mod monitors;
pub mod office_records;
pub mod questions;
pub mod refusal;
pub mod site_records;
pub mod valid_load;
pub mod what_counts;

ghost use Rattle.std.specs.Prelude.{◌≡◌, ◌∷◌, IsTrue};
ghost use Rattle.aq_base.specs.declared.office.OfficeKey.{OfficeKey};
ghost use Rattle.aq_rules.specs.Lines.Canonical.{printed_key};
ghost use Rattle.aq_rules.specs.Office.Office.{comes_before, is_key, is_same, key_numbers, kind_of};

/// Keys are ordered by kind and then by the bytes of their printed keys, and no two of a kind print
/// alike.
pub fn keys_are_ordered_as_printed()
    ensures order { (a b : OfficeKey) → IsTrue (is_key a) → IsTrue (is_key b) → comes_before (key_numbers a) (key_numbers b) ≡ comes_before (kind_of a ∷ printed_key a) (kind_of b ∷ printed_key b) }
    ensures same { (a b : OfficeKey) → IsTrue (is_key a) → IsTrue (is_key b) → kind_of a ≡ kind_of b → printed_key a ≡ printed_key b → IsTrue (is_same (key_numbers a) (key_numbers b)) }
{}
