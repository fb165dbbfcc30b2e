//! What a load makes of an office.
ghost use Rattle.std.specs.Prelude.{◌≡◌, ◌↔◌, IsTrue, ℕ, ◌<◌, ◌≤◌, ◌∷◌, ◌++◌, [], All, List, length, Some, None, codes, pos, true, false, map, fold};
ghost use Rattle.std.specs.List.{range_with_len};
ghost use Rattle.aq_base.specs.declared.monitor.Duration.TheVariants.{Hour};
ghost use Rattle.aq_base.specs.declared.monitor.Pollutant.TheVariants.{Ozone};
ghost use Rattle.aq_base.specs.declared.observation.Observation.{Observation};
ghost use Rattle.aq_base.specs.declared.office.OfficeRecord.{OfficeRecord};
ghost use Rattle.aq_base.specs.declared.office.OfficeRecord.TheVariants.{Monitor, Event, Concurrence};
ghost use Rattle.aq_base.specs.declared.office.OfficeKey.TheVariants.{Event as EventKey, Concurrence as ConcurrenceKey};
ghost use Rattle.aq_base.specs.declared.rule.Rule.TheVariants.{AlreadyThere, BadTag, NotThere};
ghost use Rattle.aq_rules.specs.Office.Office.{Office, StoredLoad, KeysRise, load_at, nothing};
ghost use Rattle.aq_base.specs.declared.rule.Rule.{Rule};
ghost use Rattle.aq_rules.specs.Office.Load.{reply, reply_for, rest_of, load, decide, decision_of, posted, post, batch, with_change, refusal, after, Repeat, Conflict, New, TooManyLines, Repeated, Differing, NoRoom, Taken, is_same_record, is_same_content, PutLoad, PutObservation, PutRecord, DropObservation, DropRecord, record_changes};
ghost use Rattle.aq_rules.specs.Lines.Lines.{line_count};
ghost use Rattle.aq_rules.specs.Lines.LineExamples.{code_rt, home, one_monitor, one_hour, hour_without_method, one_sample, three_lines, hour_key, valued, noon, ozone_monitor, agreed_event, refused_lines, digest_a, digest_b};

/// A load of three lines, of which the second inserts an hour that stands. What lines change beside the
/// row that they name, and what changes no row. A code alone that differs is a change, and a method alone;
/// a row that is dropped and put again as it was is none.
#[tactic(auto, unfolding(crate::specs::Lines::Spellings::site_in, crate::specs::Lines::Spellings::parameter_of, crate::specs::Lines::Spellings::date_in, crate::specs::Lines::Spellings::time_in, crate::specs::Lines::Spellings::value_in, crate::specs::Lines::Spellings::qualifiers_in, crate::specs::Lines::RdForm::monitor_in, crate::specs::Lines::RdForm::start_in, crate::specs::Lines::RdForm::content_in, crate::specs::Lines::RdForm::put_in, aq_base::specs::Calendar::days_of_years, aq_base::specs::Calendar::days_of_months, crate::specs::Lines::Spellings::event_number_in, crate::specs::Lines::RdForm::delete_in, crate::specs::Lines::OfficeForms::xe_key, crate::specs::Lines::Spellings::event_code_in, crate::specs::Lines::OfficeForms::xe_record, crate::specs::Lines::OfficeForms::xc_record))]
pub fn lines_and_rows_that_change()
    ensures reply { reply one_monitor 7 three_lines ≡ record { number = 7; lines = 3; accepted = 2; refused = 1; listed = record { line = 2; rule = AlreadyThere } ∷ []; rest = [] } }
    ensures kept { (load one_monitor 7 digest_a three_lines).observations ≡ (hour_key noon, valued (pos 71)) ∷ (hour_key 302414, valued (pos 73)) ∷ [] }
    ensures recorded { (load one_monitor 7 digest_a three_lines).loads ≡ record { number = 7; digest = digest_a; reply = reply one_monitor 7 three_lines } ∷ [] }
    ensures batch { batch one_monitor 7 digest_a three_lines ≡ PutObservation (hour_key noon) (valued (pos 71)) ∷ PutObservation (hour_key 302414) (valued (pos 73)) ∷ PutLoad (record { number = 7; digest = digest_a; reply = reply one_monitor 7 three_lines }) ∷ [] }
    ensures new { decide one_monitor 7 digest_a ≡ New }
    ensures repeat { decide (load one_monitor 7 digest_a three_lines) 7 digest_a ≡ Repeat }
    ensures conflict { decide (load one_monitor 7 digest_a three_lines) 7 digest_b ≡ Conflict }
    ensures other { decide (load one_monitor 7 digest_a three_lines) 8 digest_a ≡ New }
    ensures event_with_concurrence { (after agreed_event (codes "XE|D|12")).records ≡ Monitor ozone_monitor Hour true ∷ [] }
    ensures two_drops { record_changes agreed_event (after agreed_event (codes "XE|D|12")) ≡ DropRecord (EventKey 12) ∷ DropRecord (ConcurrenceKey 12) ∷ [] }
    ensures whole_day { (after one_sample (codes "RD|D|06|037|1103|88101|1||||20240107|09:00")).observations ≡ [] }
    ensures same_value { batch one_hour 0 digest_a (codes "RD|U|06|037|1103|44201|1|1|007|087|20240701|13:00|0.0719") ≡ [] }
    ensures not_kept { (load one_monitor 0 digest_a three_lines).loads ≡ [] }
    ensures event_code { batch agreed_event 0 digest_a (codes "XE|D|12\nXE|I|12|06|037|1103|44201|19900101|00:00|19900101|00:00|RF\nXC|U|12|Y") ≡ PutRecord (Event 12 home Ozone 0 0 (record { first = 82; second = 70 })) ∷ [] }
    ensures last_hour { batch agreed_event 0 digest_a (codes "XE|D|12\nXE|I|12|06|037|1103|44201|19900101|00:00|19900101|01:00|RT\nXC|U|12|Y") ≡ PutRecord (Event 12 home Ozone 0 1 code_rt) ∷ [] }
    ensures event_again { batch agreed_event 0 digest_a (codes "XE|D|12\nXE|I|12|06|037|1103|44201|19900101|00:00|19900101|00:00|RT\nXC|U|12|Y") ≡ [] }
    ensures flag { batch agreed_event 0 digest_a (codes "XC|U|12|N") ≡ PutRecord (Concurrence 12 false) ∷ [] }
    ensures same_flag { batch agreed_event 0 digest_a (codes "XC|U|12|Y") ≡ [] }
    ensures qualifier { batch one_hour 0 digest_a (codes "RD|U|06|037|1103|44201|1|1|007|087|20240701|13:00|0.071||||V") ≡ PutObservation (hour_key noon) (record { value = Some (pos 71); null = None; quals = record { first = 86; second = 0 } ∷ []; method = Some 87 }) ∷ [] }
    ensures method { batch one_hour 0 digest_a (codes "RD|U|06|037|1103|44201|1|1|007|047|20240701|13:00|0.071") ≡ PutObservation (hour_key noon) (record { value = Some (pos 71); null = None; quals = []; method = Some 47 }) ∷ [] }
    ensures first_method { batch hour_without_method 0 digest_a (codes "RD|U|06|037|1103|44201|1|1|007|000|20240701|13:00|0.071") ≡ PutObservation (hour_key noon) (record { value = Some (pos 71); null = None; quals = []; method = Some 0 }) ∷ [] }
    ensures null { batch one_hour 0 digest_a (codes "RD|U|06|037|1103|44201|1|1|007|087|20240701|13:00||AN") ≡ PutObservation (hour_key noon) (record { value = None; null = Some (record { first = 65; second = 78 }); quals = []; method = Some 87 }) ∷ [] }
    ensures hour_again { batch one_hour 0 digest_a (codes "RD|D|06|037|1103|44201|1||||20240701|13:00\nRD|I|06|037|1103|44201|1|1|007|087|20240701|13:00|0.071") ≡ [] }
    ensures hour_gone { batch one_hour 0 digest_a (codes "RD|D|06|037|1103|44201|1||||20240701|13:00") ≡ DropObservation (hour_key noon) ∷ [] }
{}

/// The first 500 refused lines are listed, and the others are counted by rule.
pub fn many_refused_lines()
    ensures listed { (reply_for 7 700 650 (refused_lines 600)).listed ≡ map (λ line. record { line = line; rule = BadTag }) (range_with_len 1 500) }
    ensures rest { (reply_for 7 700 650 (refused_lines 600)).rest ≡ record { rule = BadTag; count = 100 } ∷ [] }
    ensures two_rules { rest_of (record { line = 9; rule = NotThere } ∷ refused_lines 2) ≡ record { rule = BadTag; count = 2 } ∷ record { rule = NotThere; count = 1 } ∷ [] }
    ensures counts { ((reply_for 7 700 650 (refused_lines 600)).accepted ≡ 50) × ((reply_for 7 700 650 (refused_lines 600)).refused ≡ 600) }
{}

/// A refused line leaves the office as it was.
pub fn a_refused_line_changes_nothing()
    ensures { (office : Office) (line : List ℕ) (rule : Rule) → refusal office line ≡ Some rule → after office line ≡ office }
{}

/// What a posted load answers: it is taken; sent again, it gives the kept reply; another body under its
/// number gives both digests.
#[tactic(auto, unfolding(crate::specs::Lines::Spellings::site_in, crate::specs::Lines::Spellings::parameter_of, crate::specs::Lines::Spellings::date_in, crate::specs::Lines::Spellings::time_in, crate::specs::Lines::Spellings::value_in, crate::specs::Lines::Spellings::qualifiers_in, crate::specs::Lines::RdForm::monitor_in, crate::specs::Lines::RdForm::start_in, crate::specs::Lines::RdForm::content_in, crate::specs::Lines::RdForm::put_in, aq_base::specs::Calendar::days_of_years, aq_base::specs::Calendar::days_of_months))]
pub fn a_load_posted_twice()
    ensures taken { posted one_monitor 7 digest_a three_lines ≡ Taken (reply one_monitor 7 three_lines) (load one_monitor 7 digest_a three_lines) }
    ensures repeated { posted (load one_monitor 7 digest_a three_lines) 7 digest_a three_lines ≡ Repeated (record { number = 7; lines = 3; accepted = 2; refused = 1; listed = record { line = 2; rule = AlreadyThere } ∷ []; rest = [] }) }
    ensures differing { posted (load one_monitor 7 digest_a three_lines) 7 digest_b three_lines ≡ Differing digest_a digest_b }
    ensures other { posted (load one_monitor 7 digest_a []) 8 digest_a [] ≡ Taken (reply_for 8 0 0 []) (load (load one_monitor 7 digest_a []) 8 digest_a []) }
{}

/// A load whose lines are all refused is recorded all the same.
pub fn a_load_of_refused_lines_is_recorded()
    ensures { (post nothing 6 digest_a (codes "abc")).loads ≡ record { number = 6; digest = digest_a; reply = record { number = 6; lines = 1; accepted = 0; refused = 1; listed = record { line = 1; rule = BadTag } ∷ []; rest = [] } } ∷ [] }
{}

/// The lines are counted first: more than 120,000 are refused under a known number too. Then the number is
/// looked up: a known one is answered if no further load can be kept too. Then 100,000 loads are as many as
/// may stand.
pub fn answers_come_in_this_order()
    ensures too_many { (office : Office) (number : ℕ) (digest body : List ℕ) → 120000 < line_count body → posted office number digest body ≡ TooManyLines }
    ensures same { (office : Office) (number : ℕ) (digest body : List ℕ) (kept : StoredLoad) → line_count body ≤ 120000 → load_at office number ≡ Some kept → kept.digest ≡ digest → posted office number digest body ≡ Repeated kept.reply }
    ensures differing { (office : Office) (number : ℕ) (digest body : List ℕ) (kept : StoredLoad) → line_count body ≤ 120000 → load_at office number ≡ Some kept → (kept.digest ≡ digest → ⊥) → posted office number digest body ≡ Differing kept.digest digest }
    ensures full { (office : Office) (number : ℕ) (digest body : List ℕ) → line_count body ≤ 120000 → load_at office number ≡ None → 100000 ≤ length office.loads → posted office number digest body ≡ NoRoom }
    ensures taken { (office : Office) (number : ℕ) (digest body : List ℕ) → line_count body ≤ 120000 → load_at office number ≡ None → length office.loads < 100000 → posted office number digest body ≡ Taken (reply office number body) (load office number digest body) }
{}

/// On a body of not too many lines the answer is that of the decision.
pub fn answers_follow_the_decision()
    ensures { (office : Office) (number : ℕ) (digest body : List ℕ) → line_count body ≤ 120000 → decision_of (posted office number digest body) ≡ Some (decide office number digest) }
{}

/// A load with a known number changes nothing, whatever it holds, and neither does one that is not new.
pub fn a_known_number_changes_nothing()
    ensures known { (office : Office) (number : ℕ) (digest body : List ℕ) (kept : StoredLoad) → load_at office number ≡ Some kept → post office number digest body ≡ office }
    ensures not_new { (office : Office) (number : ℕ) (digest body : List ℕ) → (decide office number digest ≡ New → ⊥) → post office number digest body ≡ office }
{}

/// The load's own row is the last change of its batch, and a load with the number 0 has none.
pub fn the_load_is_the_last_change()
    ensures last { (office : Office) (number : ℕ) (digest body : List ℕ) → 1 ≤ number → batch office number digest body ≡ batch office 0 digest body ++ PutLoad (record { number = number; digest = digest; reply = reply office number body }) ∷ [] }
    ensures none { (office : Office) (digest body : List ℕ) → All (λ change. (load : StoredLoad) → change ≡ PutLoad load → ⊥) (batch office 0 digest body) }
{}

/// Two records that test as the same are equal, and two observations.
pub fn sameness_of_rows_is_equality()
    ensures records { (a b : OfficeRecord) → IsTrue (is_same_record a b) ↔ (a ≡ b) }
    ensures observations { (a b : Observation) → IsTrue (is_same_content a b) ↔ (a ≡ b) }
{}

/// The batch of a load, done to the office change by change, gives the office after the load.
pub fn the_batch_gives_the_office_after()
    ensures { (office : Office) (number : ℕ) (digest body : List ℕ) → KeysRise office → fold with_change office (batch office number digest body) ≡ load office number digest body }
{}

/// The keys of each list stay in rising order, so none stands twice.
pub fn keys_stay_in_order()
    ensures line { (office : Office) (line : List ℕ) → KeysRise office → KeysRise (after office line) }
    ensures load { (office : Office) (number : ℕ) (digest body : List ℕ) → KeysRise office → KeysRise (load office number digest body) }
{}
