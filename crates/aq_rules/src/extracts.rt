//! What a load would be replied, and what an extract makes of what stands, worked out.
#![tactic(auto)]

ghost use Rattle.std.specs.Prelude.{◌≡◌, ◌≤◌, ℕ, List, [], ◌++◌, codes, length};
ghost use Rattle.aq_base.specs.declared.observation.ObsKey.{ObsKey};
ghost use Rattle.aq_base.specs.declared.observation.Observation.{Observation};
ghost use Rattle.aq_base.specs.declared.rule.Rule.TheVariants.{AlreadyThere, BadAction, BadDate, BadTag, BadValue, FieldCount, UnknownMonitor, WrongDuration};
ghost use Rattle.aq_rules.specs.Extracts.BroughtUpToDate.{after_changes, changes_text, updated, updated_office, wanted_at};
ghost use Rattle.aq_rules.specs.Extracts.Changes.{DaySpan, OfLines, RefusedAt, Says, change_values, changes_answer, extract_of};
ghost use Rattle.aq_rules.specs.Extracts.ExtractExamples.{against_key, by_key, eight_lines, first_week, five_monitors, hours_of_extract, line_at, on_that_day, one_day, standing, three_changes, two_codes, two_days, varied, with_lines};
ghost use Rattle.aq_rules.specs.Extracts.Try.{try_answer};
ghost use Rattle.aq_rules.specs.Limits.{MOST_OBSERVATIONS};
ghost use Rattle.aq_rules.specs.Listed.LoadsBack.{LoadsTo};
ghost use Rattle.aq_rules.specs.Office.Office.{IsOffice, Office, observation_at};
ghost use Rattle.aq_rules.specs.Lines.RdForm.{RdValue};
ghost use Rattle.aq_rules.specs.Lines.LineExamples.{one_monitor, three_lines};
ghost use Rattle.aq_rules.specs.Ozone.OzoneExamples.{office_of};
ghost use Rattle.aq_rules.specs.Shown.Sheet.{text_of};

/// A load is tried under the number 0. Its second line inserts what the first one did. After the load each
/// line of it is refused; and over an office without a monitor.
pub fn loads_are_tried()
    ensures anew { text_of (try_answer one_monitor three_lines)
        ≡ codes "load 0\nlines 3\naccepted 2\nrefused 1\nline rule name count\n2 21 AlreadyThere 1\n" }
    ensures again { text_of (try_answer (with_lines one_monitor three_lines) three_lines)
        ≡ codes "load 0\nlines 3\naccepted 0\nrefused 3\nline rule name count\n1 21 AlreadyThere 1\n2 21 AlreadyThere 1\n3 21 AlreadyThere 1\n" }
    ensures nowhere { text_of (try_answer (office_of [] []) three_lines)
        ≡ codes "load 0\nlines 3\naccepted 0\nrefused 3\nline rule name count\n1 19 UnknownMonitor 1\n2 19 UnknownMonitor 1\n3 19 UnknownMonitor 1\n" }
    ensures nothing { text_of (try_answer one_monitor []) ≡ codes "load 0\nlines 0\naccepted 0\nrefused 0\nline rule name count\n" }
{}

/// Eight hours stand from 10:00 to 17:00. The extract has 10:00 with another value, lacks 17:00, and has
/// 18:00 besides: a deletion, an update and an insertion, in this order. A load of them takes each, and the
/// same extract over what then stands changes nothing, as one without a line does, and one of what stands.
pub fn extracts_become_lines()
    ensures three { changes_answer on_that_day standing hours_of_extract ≡ OfLines three_changes }
    ensures tried { text_of (try_answer standing three_changes) ≡ codes "load 0\nlines 3\naccepted 3\nrefused 0\nline rule name count\n" }
    ensures again { changes_answer on_that_day (with_lines standing three_changes) hours_of_extract ≡ OfLines [] }
    ensures same { changes_answer on_that_day standing eight_lines ≡ OfLines [] }
    ensures nothing { changes_answer on_that_day standing [] ≡ OfLines [] }
{}

/// What an extract says otherwise of a standing hour is an update: a code that it lacks, a method where none
/// stands, another method, a null code, and the same codes in another order. A value that is cut to the standing
/// one is none. Hours of other monitors and days stay.
pub fn contents_that_differ_are_updates()
    ensures code { changes_answer on_that_day varied
        (codes "RD|I|06|037|1103|44201|1|1|007|087|20240701|12:00|0.071\nRD|I|06|037|1103|44201|1|1|007|000|20240701|13:00|0.071\nRD|I|06|037|1103|44201|1|1|007|087|20240701|14:00|0.0719\n")
        ≡ OfLines (codes "RD|U|06|037|1103|44201|1|1|007|087|20240701|12:00|0.071\nRD|U|06|037|1103|44201|1|1|007|000|20240701|13:00|0.071\n") }
    ensures null { changes_answer on_that_day varied
        (codes "RD|I|06|037|1103|44201|1|1|007|087|20240701|14:00||AN\nRD|I|06|037|1103|44201|1|1|007|047|20240701|12:00|0.071||||RT\n")
        ≡ OfLines (codes "RD|D|06|037|1103|44201|1||||20240701|13:00\n"
        ++ codes "RD|U|06|037|1103|44201|1|1|007|047|20240701|12:00|0.071||||RT\nRD|U|06|037|1103|44201|1|1|007|087|20240701|14:00||AN\n") }
    ensures order { changes_answer on_that_day two_codes (codes "RD|I|06|037|1103|44201|1|1|007|087|20240701|12:00|0.071||||RF|RT\n")
        ≡ OfLines (codes "RD|U|06|037|1103|44201|1|1|007|087|20240701|12:00|0.071||||RF|RT\n") }
    ensures same_order { changes_answer on_that_day two_codes (codes "RD|I|06|037|1103|44201|1|1|007|087|20240701|12:00|0.071||||RT|RF\n") ≡ OfLines [] }
    ensures other_monitor { changes_answer on_that_day varied (line_at (codes "I") (codes "2") (codes "20240701") (codes "13:00"))
        ≡ OfLines (codes "RD|D|06|037|1103|44201|2||||20240701|12:00\nRD|I|06|037|1103|44201|2|1|007|087|20240701|13:00|0.071\n") }
{}

/// The lines of an extract come in any order, here the last one first. Deletions, updates and insertions go by
/// site, pollutant, POC and hour each: ozone comes before PM2.5 and PM2.5 before PM10, and POC 2 before POC 12.
pub fn changes_go_by_key()
    ensures insertions { changes_answer on_that_day five_monitors (against_key (codes "I") (codes "20240701") (codes "RT"))
        ≡ OfLines (by_key (codes "I") (codes "20240701") (codes "RT")) }
    ensures updates { changes_answer on_that_day (with_lines five_monitors (by_key (codes "I") (codes "20240701") (codes "RT")))
        (against_key (codes "I") (codes "20240701") (codes "RF"))
        ≡ OfLines (by_key (codes "U") (codes "20240701") (codes "RF")) }
    ensures deletions { changes_answer two_days (with_lines five_monitors (by_key (codes "I") (codes "20240701") (codes "RT")))
        (against_key (codes "I") (codes "20240702") (codes "RT"))
        ≡ OfLines (codes "RD|D|06|037|1103|44201|2||||20240701|10:00\nRD|D|06|037|1103|44201|2||||20240701|11:00\nRD|D|06|037|1103|44201|12||||20240701|09:00\n"
        ++ codes "RD|D|06|037|1103|88101|1||||20240701|00:00\nRD|D|06|037|1103|81102|1||||20240701|00:00\nRD|D|06|037|1104|44201|1||||20240701|08:00\n"
        ++ by_key (codes "I") (codes "20240702") (codes "RT")) }
{}

/// A sample of 24 hours stands at hour 00 of its day, whatever start the extract's line names. An hour of a
/// monitor of days has the wrong duration, also where its day has been named before.
pub fn samples_of_a_day_are_one()
    ensures noon { changes_answer first_week one_day (codes "RD|I|06|037|1103|88101|1|7|105|145|20240107|12:00|12.0\n")
        ≡ OfLines (codes "RD|U|06|037|1103|88101|1|7|105|145|20240107|00:00|12.0\n") }
    ensures twice { changes_answer first_week one_day (codes "RD|I|06|037|1103|88101|1|7|105|145|20240107|00:00|12.0\nRD|I|06|037|1103|88101|1|7|105|145|20240107|12:00|12.0\n")
        ≡ RefusedAt 2 AlreadyThere }
    ensures hours { changes_answer first_week one_day (codes "RD|I|06|037|1103|88101|1|1|105|145|20240107|00:00|12.0\n") ≡ RefusedAt 1 WrongDuration }
    ensures hours_again { changes_answer first_week one_day (codes "RD|I|06|037|1103|88101|1|7|105|145|20240107|00:00|12.0\nRD|I|06|037|1103|88101|1|1|105|145|20240107|12:00|12.0\n")
        ≡ RefusedAt 2 WrongDuration }
    ensures dropped { changes_answer first_week one_day (codes "# an extract\n\nRD|I|06|037|1103|88101|1|7|105|145|20240104|00:00|12.0\n")
        ≡ OfLines (codes "RD|D|06|037|1103|88101|1||||20240107|00:00\nRD|I|06|037|1103|88101|1|7|105|145|20240104|00:00|12.0\n") }
{}

/// A day outside the span, the same hour twice, a line that is no sample, an action other than I, a line
/// that ends before its value, a value that is none, and a monitor that is not registered: each is named with
/// its line, lines that are skipped among them, and its first rule.
pub fn extracts_are_refused_at_their_first_bad_line()
    ensures outside { changes_answer on_that_day standing (eight_lines ++ line_at (codes "I") (codes "1") (codes "20240702") (codes "10:00")) ≡ RefusedAt 9 BadDate }
    ensures twice { changes_answer on_that_day standing (eight_lines ++ line_at (codes "I") (codes "1") (codes "20240701") (codes "10:00")) ≡ RefusedAt 9 AlreadyThere }
    ensures monitor { changes_answer on_that_day standing (codes "XM|I|06|037|1103|44201|2|1|Y\n") ≡ RefusedAt 1 BadTag }
    ensures update { changes_answer on_that_day standing (line_at (codes "U") (codes "1") (codes "20240701") (codes "10:00")) ≡ RefusedAt 1 BadAction }
    ensures deletion { changes_answer on_that_day standing (codes "RD|D|06|037|1103|44201|1||||20240701|10:00\n") ≡ RefusedAt 1 BadAction }
    ensures short { changes_answer on_that_day standing (codes "RD|I|06|037|1103|44201|1||||20240701|10:00\n") ≡ RefusedAt 1 FieldCount }
    ensures value { changes_answer on_that_day standing (codes "# two lines\n\nRD|I|06|037|1103|44201|1|1|007|087|20240701|10:00|1e3\n") ≡ RefusedAt 3 BadValue }
    ensures unknown { changes_answer on_that_day standing (line_at (codes "I") (codes "2") (codes "20240701") (codes "10:00")) ≡ RefusedAt 1 UnknownMonitor }
    ensures outside_first { changes_answer on_that_day standing (line_at (codes "I") (codes "2") (codes "20240630") (codes "10:00")) ≡ RefusedAt 1 BadDate }
    ensures first_line { changes_answer on_that_day standing (codes "XM\n" ++ line_at (codes "I") (codes "2") (codes "20240701") (codes "10:00")) ≡ RefusedAt 1 BadTag }
{}

/// A load of the changes of an extract accepts each line, and brings what stands up to date, if at most 4,000,000
/// observations stand after it. A load of a piece of them, over the changes before it, takes each of its lines
/// too. What stands after them all is what the extract says at its places, and what stood at all others, and the
/// same extract then changes nothing.
pub fn extracts_bring_up_to_date()
    ensures whole { (span : DaySpan) (office : Office) (body : List ℕ) (rows : List (ObsKey × Observation)) → IsOffice office
        → extract_of span office body ≡ Says rows → length (updated span office rows) ≤ MOST_OBSERVATIONS
        → LoadsTo office (changes_text (change_values span office rows)) (updated_office span office rows) }
    ensures pieces { (span : DaySpan) (office : Office) (body : List ℕ) (rows : List (ObsKey × Observation)) (front piece rest : List RdValue) → IsOffice office
        → extract_of span office body ≡ Says rows → length (updated span office rows) ≤ MOST_OBSERVATIONS
        → change_values span office rows ≡ front ++ (piece ++ rest)
        → LoadsTo (after_changes office front) (changes_text piece) (after_changes (after_changes office front) piece) }
    ensures stands { (span : DaySpan) (office : Office) (body : List ℕ) (rows : List (ObsKey × Observation)) (key : ObsKey) → IsOffice office
        → extract_of span office body ≡ Says rows → observation_at (updated_office span office rows) key ≡ wanted_at span office rows key }
    ensures again { (span : DaySpan) (office : Office) (body : List ℕ) (rows : List (ObsKey × Observation)) → IsOffice office
        → extract_of span office body ≡ Says rows → changes_answer span (updated_office span office rows) body ≡ OfLines [] }
{}
