//! The lines of a body, and the fields of a line.

pub mod canonical;
pub mod reading;

ghost use Rattle.std.specs.Prelude.{◌≡◌, ◌∷◌, ◌++◌, [], codes};
ghost use Rattle.aq_rules.specs.Lines.Fields.{fields};
ghost use Rattle.aq_rules.specs.Lines.Lines.{body_lines, line_count, BYTE_ORDER_MARK};

/// Spaces round a field are dropped, and those inside it are kept.
pub fn fields_without_spaces_round_them()
    ensures fields { fields (codes " XC | U|7 8||") ≡ codes "XC" ∷ codes "U" ∷ codes "7 8" ∷ [] ∷ [] ∷ [] }
    ensures none { fields [] ≡ [] ∷ [] }
{}

/// The mark is dropped before lines are counted, skipped lines are counted too, one CR is dropped at
/// the end of a line, and the last line needs no end.
pub fn lines_of_a_body()
    ensures skipped { body_lines (codes "A\r\n  # B\n \n\nC|D\r\r\nE") ≡ record { number = 1; text = codes "A" } ∷ record { number = 5; text = codes "C|D\r" } ∷ record { number = 6; text = codes "E" } ∷ [] }
    ensures count { line_count (codes "A\r\n  # B\n \n\nC|D\r\r\nE") ≡ 6 }
    ensures ended { line_count (codes "A\nB\n") ≡ 2 }
    ensures mark { line_count BYTE_ORDER_MARK ≡ 0 }
    ensures after_mark { body_lines (BYTE_ORDER_MARK ++ codes "A\n") ≡ record { number = 1; text = codes "A" } ∷ [] }
    ensures nothing { body_lines [] ≡ [] }
{}
