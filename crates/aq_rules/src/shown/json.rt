//! A sheet as JSON.
#![tactic(auto)]

ghost use Rattle.std.specs.Prelude.{◌≡◌, length, codes, map, ◌++◌, IsTrue};
ghost use Rattle.std.specs.List.Sorted.{IsPermutation};
ghost use Rattle.aq_rules.specs.Office.Office.{rises};
ghost use Rattle.aq_rules.specs.Shown.Sheet.{Sheet};
ghost use Rattle.aq_rules.specs.Shown.WellFormed.{IsWellFormed};
ghost use Rattle.aq_rules.specs.Shown.Sheets.{load_sheet};
ghost use Rattle.aq_rules.specs.Shown.OtherSheets.{conflict_sheet, error_sheet};
ghost use Rattle.aq_rules.specs.Shown.Json.{Member, head_member, json_of, members_of, table_members};
ghost use Rattle.aq_rules.specs.Particles.ParticleExamples.{reply_without_lines, one_row};

/// The reply to a load without lines, of 96 bytes. Members go by their names. An error has one member,
/// and a sheet without columns has neither names nor rows. A whole number is a number, one with places
/// and a text are strings, and a missing value is null.
pub fn sheets_have_their_json()
    ensures body { json_of (load_sheet (reply_without_lines 5))
        ≡ codes "{\"accepted\":0,\"columns\":[\"line\",\"rule\",\"name\",\"count\"],\"lines\":0,\"load\":5,\"refused\":0,\"rows\":[]}" }
    ensures bytes { length (json_of (load_sheet (reply_without_lines 5))) ≡ 96 }
    ensures error_has_one_member { json_of (error_sheet (codes "NotFound")) ≡ codes "{\"error\":\"NotFound\"}" }
    ensures cells_have_their_json { json_of one_row
        ≡ codes "{\"columns\":[\"a\",\"b\",\"c\",\"d\"],\"rows\":[[-7,\"-0.5\",\"Met\",null]],\"site\":\"06-037-1103\"}" }
{}

/// The members of an object are those of the heads and of the table, in byte order of their names; and
/// if the sheet is well formed each of them is there, once.
pub fn members_stand_once_and_in_order()
    ensures order { (sheet : Sheet) → IsTrue (rises (λ (m : Member). m.name) (members_of sheet)) }
    ensures once { (sheet : Sheet) → IsWellFormed sheet
        → IsPermutation (map head_member sheet.heads ++ table_members sheet.columns sheet.rows) (members_of sheet) }
{}
