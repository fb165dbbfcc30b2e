//! A load leaves the office valid.
ghost use Rattle.std.specs.Prelude.{◌≡◌, ◌≤◌, ◌<◌, ℕ, List, None, IsTrue, length, nat_lt};
ghost use Rattle.std.specs.List.{list_all};
ghost use Rattle.aq_rules.specs.Limits.{LAST_LOAD_NUMBER, MOST_LINES};
ghost use Rattle.aq_rules.specs.Lines.Lines.{NumberedLine, line_count};
ghost use Rattle.aq_rules.specs.Office.Office.{IsOffice, Office, nothing};
ghost use Rattle.aq_rules.specs.Lines.Canonical.{is_line_value};
ghost use Rattle.aq_rules.specs.Lines.Reading.{LineValue};
ghost use Rattle.aq_rules.specs.Office.Load.{New, after, after_all, changed, decide, load, post};
ghost use Rattle.aq_rules.specs.Office.Refusal.{broken};

/// An agency begins with a valid office.
pub fn an_office_of_nothing_is_valid()
    ensures { IsOffice nothing }
{}

/// Each line, whatever its bytes are, leaves a valid office valid: the limits of the records, the
/// monitors and events that records rest on, and the monitor, duration and hour of each observation.
pub fn lines_leave_the_office_valid()
    ensures value { (office : Office) (value : LineValue) → IsOffice office → IsTrue (is_line_value value) → broken office value ≡ None → IsOffice (changed office value) }
    ensures line { (office : Office) (line : List ℕ) → IsOffice office → IsOffice (after office line) }
    ensures lines { (office : Office) (lines : List NumberedLine) → IsOffice office → IsOffice (after_all office lines) }
{}

/// A load leaves a valid office valid, with its own row in order: the number and the digest that it
/// was sent with, and a reply whose listed lines rise and whose counts add up.
pub fn loads_leave_the_office_valid()
    ensures kept { (office : Office) (number : ℕ) (digest body : List ℕ) → IsOffice office → 1 ≤ number → number ≤ LAST_LOAD_NUMBER → length digest ≡ 32 → IsTrue (list_all (λ byte. nat_lt byte 256) digest) → line_count body ≤ MOST_LINES → decide office number digest ≡ New → IsOffice (load office number digest body) }
    ensures not_kept { (office : Office) (digest body : List ℕ) → IsOffice office → IsOffice (load office 0 digest body) }
    ensures posted { (office : Office) (number : ℕ) (digest body : List ℕ) → IsOffice office → 1 ≤ number → number ≤ LAST_LOAD_NUMBER → length digest ≡ 32 → IsTrue (list_all (λ byte. nat_lt byte 256) digest) → IsOffice (post office number digest body) }
{}
