//! What is shown is well formed.
#![tactic(auto)]

ghost use Rattle.std.specs.Prelude.{◌≡◌, ℕ, ◌^◌, ◌<◌, ◌≤◌, List, length, nat_lt, IsTrue, All, Option, Some, ℤ};
ghost use Rattle.std.specs.List.{list_all};
ghost use Rattle.aq_base.specs.Site.{Site};
ghost use Rattle.aq_base.specs.declared.monitor.Pollutant.{Pollutant};
ghost use Rattle.aq_base.specs.declared.question.Question.TheVariants as question;
ghost use Rattle.aq_base.specs.declared.reply.LoadReply.{LoadReply};
ghost use Rattle.aq_base.specs.declared.standard.Standard.{Standard};
ghost use Rattle.aq_base.specs.declared.standard.Verdict.{Verdict};
ghost use Rattle.aq_rules.specs.Limits.{LAST_LOAD_NUMBER};
ghost use Rattle.aq_rules.specs.Listed.Completeness.{completeness_answer};
ghost use Rattle.aq_rules.specs.Listed.Daily.{daily_answer};
ghost use Rattle.aq_rules.specs.Listed.Events.{events_answer};
ghost use Rattle.aq_rules.specs.Listed.Flags.{flags_answer};
ghost use Rattle.aq_rules.specs.Listed.Highest.{highest_answer};
ghost use Rattle.aq_rules.specs.Listed.Loads.{loads_answer};
ghost use Rattle.aq_rules.specs.Listed.Monitors.{monitors_answer};
ghost use Rattle.aq_rules.specs.Listed.Sites.{sites_answer};
ghost use Rattle.aq_rules.specs.Office.Office.{IsOffice, Office, StoredLoad, is_reply, load_at};
ghost use Rattle.aq_rules.specs.Questions.Asking.{is_asked};
ghost use Rattle.aq_rules.specs.Shown.Sheet.{Sheet};
ghost use Rattle.aq_rules.specs.Shown.Sheets.{days_answer, load_sheet, windows_answer};
ghost use Rattle.aq_rules.specs.Shown.ParticleSheets.{pm10_answer, pm25_answer};
ghost use Rattle.aq_rules.specs.Shown.OtherSheets.{conflict_sheet, error_names, error_sheet, report_answer, summary_sheet, value_answer};
ghost use Rattle.aq_rules.specs.Shown.AreaSheets.{area_sheet, area_sites_sheet, decisive_sheet};
ghost use Rattle.aq_rules.specs.Shown.WellFormed.{IsWellFormed, is_whole_if};

/// Of a valid office the sheets of a load, of windows, days and quarters, of a value and of a report are well
/// formed, each for what may be asked of it.
pub fn answers_are_well_formed()
    ensures reply { (office : Office) (number : ℕ) (load : StoredLoad)
        → IsOffice office → load_at office number ≡ Some load → IsWellFormed (load_sheet load.reply) }
    ensures windows { (office : Office) (site : Site) (day : ℕ)
        → IsOffice office → IsTrue (is_asked (question.Windows site day)) → IsWellFormed (windows_answer office site day) }
    ensures days { (office : Office) (site : Site) (year : ℕ)
        → IsOffice office → IsTrue (is_asked (question.Days site year)) → IsWellFormed (days_answer office site year) }
    ensures fine { (office : Office) (site : Site) (year : ℕ)
        → IsOffice office → IsTrue (is_asked (question.Pm25 site year)) → IsWellFormed (pm25_answer office site year) }
    ensures coarse { (office : Office) (site : Site) (year : ℕ)
        → IsOffice office → IsTrue (is_asked (question.Pm10 site year)) → IsWellFormed (pm10_answer office site year) }
    ensures value { (office : Office) (standard : Standard) (site : Site) (year : ℕ)
        → IsOffice office → IsTrue (is_asked (question.Value standard site year)) → IsWellFormed (value_answer standard office site year) }
    ensures report { (office : Office) (standard : Standard) (year : ℕ)
        → IsOffice office → IsTrue (is_asked (question.Report standard year)) → IsWellFormed (report_answer standard office year) }
{}

/// So are the sheets of a load's reply, of a conflict of two digests, of each error, and of a summary
/// whose counts are below 2^63.
pub fn other_sheets_are_well_formed()
    ensures load { (reply : LoadReply) → IsTrue (is_reply reply) → reply.number ≤ LAST_LOAD_NUMBER → IsWellFormed (load_sheet reply) }
    ensures conflict { (number : ℕ) (kept sent : List ℕ)
        → number ≤ LAST_LOAD_NUMBER
        → length kept ≡ 32 → IsTrue (list_all (λ byte. nat_lt byte 256) kept)
        → length sent ≡ 32 → IsTrue (list_all (λ byte. nat_lt byte 256) sent)
        → IsWellFormed (conflict_sheet number kept sent) }
    ensures error { All (λ name. IsWellFormed (error_sheet name)) error_names }
    ensures summary { (loads lines observations : ℕ)
        → loads < 2 ^ 63 → lines < 2 ^ 63 → observations < 2 ^ 63 → IsWellFormed (summary_sheet loads lines observations) }
{}

/// And so are the sheets of decisive events, and of an area and its sites, whose numbers are of 64 bits
/// with their sign.
pub fn sheets_of_areas_are_well_formed()
    ensures decisive { (standard : Standard) (site : Site) (year : ℕ) (verdict : Verdict) (rows : List (ℕ × Verdict))
        → year < 2 ^ 63 → All (λ (row : ℕ × Verdict). row.0 < 2 ^ 63) rows
        → IsWellFormed (decisive_sheet standard site year verdict rows) }
    ensures area { (standard : Standard) (year : ℕ) (verdict : Verdict) (governing : Option Site) (value : Option ℤ) (met : ℕ) (rows : List (ℕ × Verdict × Option ℤ))
        → year < 2 ^ 63 → IsTrue (is_whole_if value) → met < 2 ^ 63
        → All (λ (row : ℕ × Verdict × Option ℤ). (row.0 < 2 ^ 63) × IsTrue (is_whole_if row.2)) rows
        → IsWellFormed (area_sheet standard year verdict governing value met rows) }
    ensures sites { (standard : Standard) (year : ℕ) (rows : List (Site × Option ℤ × Verdict × Option ℤ))
        → year < 2 ^ 63
        → All (λ (row : Site × Option ℤ × Verdict × Option ℤ). IsTrue (is_whole_if row.1) × IsTrue (is_whole_if row.3)) rows
        → IsWellFormed (area_sites_sheet standard year rows) }
{}

/// And so are the lists of what stands in a valid office, and of the days behind a number.
pub fn sheets_of_lists_are_well_formed()
    ensures sites { (office : Office) → IsOffice office → IsWellFormed (sites_answer office) }
    ensures monitors { (office : Office) (site : Site) → IsOffice office → IsWellFormed (monitors_answer office site) }
    ensures events { (office : Office) (site : Site) → IsOffice office → IsWellFormed (events_answer office site) }
    ensures flags { (office : Office) (site : Site) (pollutant : Pollutant) (year : ℕ)
        → IsOffice office → IsTrue (is_asked (question.Flags site pollutant year)) → IsWellFormed (flags_answer office site pollutant year) }
    ensures loads { (office : Office) → IsOffice office → IsWellFormed (loads_answer office) }
    ensures daily { (office : Office) (site : Site) (pollutant : Pollutant) (year : ℕ)
        → IsOffice office → IsTrue (is_asked (question.Daily site pollutant year)) → IsWellFormed (daily_answer office site pollutant year) }
    ensures highest { (office : Office) (site : Site) (pollutant : Pollutant) (year : ℕ)
        → IsOffice office → IsTrue (is_asked (question.Highest site pollutant year)) → IsWellFormed (highest_answer office site pollutant year) }
    ensures completeness { (office : Office) (site : Site) (pollutant : Pollutant) (year : ℕ)
        → IsOffice office → IsTrue (is_asked (question.Completeness site pollutant year)) → IsWellFormed (completeness_answer office site pollutant year) }
{}
