//! The answer to each question, and what is missing.
#![tactic(auto)]

ghost use Rattle.std.specs.Prelude.{◌≡◌, ℕ, List, true, false, [], ◌∷◌, codes, map, Some, None};
ghost use Rattle.aq_base.specs.Site.{Site};
ghost use Rattle.aq_base.specs.Standard.{standards};
ghost use Rattle.aq_base.specs.declared.area.Area.{Area as OneArea};
ghost use Rattle.aq_base.specs.declared.area.Area.TheVariants.{County, Sites as SitesArea};
ghost use Rattle.aq_base.specs.declared.assumed.Assumed.{Assumed};
ghost use Rattle.aq_base.specs.declared.monitor.Pollutant.{Pollutant};
ghost use Rattle.aq_base.specs.declared.question.Question.TheVariants.{Value, Report, Export, WhatIf, Decisive, Combined, Area, Reply, Windows, Days, Pm25, Pm10, Sites, Monitors, Events, Flags, Loads, Daily, Highest, Completeness, Reports, Records, Lines};
ghost use Rattle.aq_base.specs.declared.standard.Standard.{Standard};
ghost use Rattle.aq_base.specs.declared.standard.Standard.TheVariants.{Annual2012, Ozone2015};
ghost use Rattle.aq_rules.specs.Combined.Pair.{pair_value};
ghost use Rattle.aq_rules.specs.DesignValues.{DesignValue};
ghost use Rattle.aq_rules.specs.Lines.LineExamples.{home, one_of_each};
ghost use Rattle.aq_rules.specs.Listed.Completeness.{completeness_answer};
ghost use Rattle.aq_rules.specs.Listed.Daily.{daily_answer};
ghost use Rattle.aq_rules.specs.Listed.Events.{events_answer};
ghost use Rattle.aq_rules.specs.Listed.Flags.{flags_answer};
ghost use Rattle.aq_rules.specs.Listed.Highest.{highest_answer};
ghost use Rattle.aq_rules.specs.Listed.Loads.{loads_answer};
ghost use Rattle.aq_rules.specs.Listed.Monitors.{monitors_answer};
ghost use Rattle.aq_rules.specs.Listed.ObservationLines.{lines_answer};
ghost use Rattle.aq_rules.specs.Listed.Records.{records_answer};
ghost use Rattle.aq_rules.specs.Listed.Sites.{sites_answer};
ghost use Rattle.aq_rules.specs.Office.Office.{Office, StoredLoad, load_at, nothing};
ghost use Rattle.aq_rules.specs.Questions.Answer.{Lacks, NoCombination, NoEvent, NoLoad, NoSite, NoSiteInArea, OfSheets, OfText, answer, is_registered, json_of_sheets, texts_of};
ghost use Rattle.aq_rules.specs.Shown.AreaSheets.{area_answer, area_sites, area_sites_answer, decisive_answer, what_if_answer};
ghost use Rattle.aq_rules.specs.Shown.Export.{export_answer};
ghost use Rattle.aq_rules.specs.Shown.OtherSheets.{report_answer, value_answer, value_sheet};
ghost use Rattle.aq_rules.specs.Shown.ParticleSheets.{pm10_answer, pm25_answer};
ghost use Rattle.aq_rules.specs.Shown.Sheets.{days_answer, load_sheet, windows_answer};
ghost use Rattle.aq_rules.specs.Shown.ShownExamples.{other_site, third_site, two_sites};
ghost use Rattle.aq_rules.specs.Ozone.OzoneExamples.{site};
ghost use Rattle.aq_rules.specs.WhatIf.Assumed.{unknown_event};

/// A site without a monitor has no answer, whatever is asked of it, before all else that may be missing.
pub fn unregistered_sites_have_no_answer()
    ensures value { (office : Office) (standard : Standard) (at : Site) (year : ℕ) → is_registered office at ≡ false → answer office (Value standard at year) ≡ Lacks (NoSite at) }
    ensures export { (office : Office) (at : Site) (pollutant : Pollutant) (year : ℕ) → is_registered office at ≡ false → answer office (Export at pollutant year) ≡ Lacks (NoSite at) }
    ensures whatif { (office : Office) (standard : Standard) (at : Site) (year : ℕ) (list : List Assumed) → is_registered office at ≡ false → answer office (WhatIf standard at year list) ≡ Lacks (NoSite at) }
    ensures decisive { (office : Office) (standard : Standard) (at : Site) (year : ℕ) → is_registered office at ≡ false → answer office (Decisive standard at year) ≡ Lacks (NoSite at) }
    ensures combined { (office : Office) (standard : Standard) (at : Site) (year : ℕ) → is_registered office at ≡ false → answer office (Combined standard at year) ≡ Lacks (NoSite at) }
    ensures windows { (office : Office) (at : Site) (day : ℕ) → is_registered office at ≡ false → answer office (Windows at day) ≡ Lacks (NoSite at) }
    ensures days { (office : Office) (at : Site) (year : ℕ) → is_registered office at ≡ false → answer office (Days at year) ≡ Lacks (NoSite at) }
    ensures pm25 { (office : Office) (at : Site) (year : ℕ) → is_registered office at ≡ false → answer office (Pm25 at year) ≡ Lacks (NoSite at) }
    ensures pm10 { (office : Office) (at : Site) (year : ℕ) → is_registered office at ≡ false → answer office (Pm10 at year) ≡ Lacks (NoSite at) }
    ensures monitors { (office : Office) (at : Site) → is_registered office at ≡ false → answer office (Monitors at) ≡ Lacks (NoSite at) }
    ensures events { (office : Office) (at : Site) → is_registered office at ≡ false → answer office (Events at) ≡ Lacks (NoSite at) }
    ensures flags { (office : Office) (at : Site) (pollutant : Pollutant) (year : ℕ) → is_registered office at ≡ false → answer office (Flags at pollutant year) ≡ Lacks (NoSite at) }
    ensures daily { (office : Office) (at : Site) (pollutant : Pollutant) (year : ℕ) → is_registered office at ≡ false → answer office (Daily at pollutant year) ≡ Lacks (NoSite at) }
    ensures highest { (office : Office) (at : Site) (pollutant : Pollutant) (year : ℕ) → is_registered office at ≡ false → answer office (Highest at pollutant year) ≡ Lacks (NoSite at) }
    ensures completeness { (office : Office) (at : Site) (pollutant : Pollutant) (year : ℕ) → is_registered office at ≡ false → answer office (Completeness at pollutant year) ≡ Lacks (NoSite at) }
    ensures lines { (office : Office) (at : Site) (pollutant : Pollutant) (year : ℕ) → is_registered office at ≡ false → answer office (Lines at pollutant year) ≡ Lacks (NoSite at) }
{}

/// A registered site has the answer of its question: each its own sheet, or its own text. A list has one where
/// each of its events stands, and sites are combined where there is a value for them.
pub fn each_question_has_its_own_answer()
    ensures value { (office : Office) (standard : Standard) (at : Site) (year : ℕ) → is_registered office at ≡ true → answer office (Value standard at year) ≡ OfSheets (value_answer standard office at year ∷ []) }
    ensures export { (office : Office) (at : Site) (pollutant : Pollutant) (year : ℕ) → is_registered office at ≡ true → answer office (Export at pollutant year) ≡ OfText (export_answer office at pollutant year) }
    ensures whatif { (office : Office) (standard : Standard) (at : Site) (year : ℕ) (list : List Assumed) → is_registered office at ≡ true → unknown_event office list ≡ None
        → answer office (WhatIf standard at year list) ≡ OfSheets (what_if_answer standard office list at year ∷ []) }
    ensures decisive { (office : Office) (standard : Standard) (at : Site) (year : ℕ) → is_registered office at ≡ true → answer office (Decisive standard at year) ≡ OfSheets (decisive_answer standard office at year ∷ []) }
    ensures combined { (office : Office) (standard : Standard) (at : Site) (year : ℕ) (design : DesignValue) → is_registered office at ≡ true → pair_value standard office at year ≡ Some design
        → answer office (Combined standard at year) ≡ OfSheets (value_sheet standard at year design ∷ []) }
    ensures windows { (office : Office) (at : Site) (day : ℕ) → is_registered office at ≡ true → answer office (Windows at day) ≡ OfSheets (windows_answer office at day ∷ []) }
    ensures days { (office : Office) (at : Site) (year : ℕ) → is_registered office at ≡ true → answer office (Days at year) ≡ OfSheets (days_answer office at year ∷ []) }
    ensures pm25 { (office : Office) (at : Site) (year : ℕ) → is_registered office at ≡ true → answer office (Pm25 at year) ≡ OfSheets (pm25_answer office at year ∷ []) }
    ensures pm10 { (office : Office) (at : Site) (year : ℕ) → is_registered office at ≡ true → answer office (Pm10 at year) ≡ OfSheets (pm10_answer office at year ∷ []) }
    ensures monitors { (office : Office) (at : Site) → is_registered office at ≡ true → answer office (Monitors at) ≡ OfSheets (monitors_answer office at ∷ []) }
    ensures events { (office : Office) (at : Site) → is_registered office at ≡ true → answer office (Events at) ≡ OfSheets (events_answer office at ∷ []) }
    ensures flags { (office : Office) (at : Site) (pollutant : Pollutant) (year : ℕ) → is_registered office at ≡ true → answer office (Flags at pollutant year) ≡ OfSheets (flags_answer office at pollutant year ∷ []) }
    ensures daily { (office : Office) (at : Site) (pollutant : Pollutant) (year : ℕ) → is_registered office at ≡ true → answer office (Daily at pollutant year) ≡ OfSheets (daily_answer office at pollutant year ∷ []) }
    ensures highest { (office : Office) (at : Site) (pollutant : Pollutant) (year : ℕ) → is_registered office at ≡ true → answer office (Highest at pollutant year) ≡ OfSheets (highest_answer office at pollutant year ∷ []) }
    ensures completeness { (office : Office) (at : Site) (pollutant : Pollutant) (year : ℕ) → is_registered office at ≡ true → answer office (Completeness at pollutant year) ≡ OfSheets (completeness_answer office at pollutant year ∷ []) }
    ensures lines { (office : Office) (at : Site) (pollutant : Pollutant) (year : ℕ) → is_registered office at ≡ true → answer office (Lines at pollutant year) ≡ OfText (lines_answer office at pollutant year) }
{}

/// Of a registered site an event of the list, or a combination, may be missing; of an area its sites with a
/// monitor of the pollutant; and of a number its load.
pub fn what_else_may_be_missing()
    ensures event { answer one_of_each (WhatIf Ozone2015 home 2024 (record { number = 21; agreed = true } ∷ record { number = 9; agreed = true } ∷ record { number = 8; agreed = true } ∷ [])) ≡ Lacks (NoEvent 9) }
    ensures combination { answer two_sites (Combined Ozone2015 site 2024) ≡ Lacks (NoCombination site) }
    ensures unregistered { answer two_sites (Combined Ozone2015 third_site 2024) ≡ Lacks (NoSite third_site) }
    ensures area { answer two_sites (Area Annual2012 (County 6 59) 2024) ≡ Lacks NoSiteInArea }
    ensures pollutant { answer two_sites (Area Annual2012 (SitesArea (other_site ∷ [])) 2024) ≡ Lacks NoSiteInArea }
    ensures load { (office : Office) (number : ℕ) → load_at office number ≡ None → answer office (Reply number) ≡ Lacks (NoLoad number) }
{}

/// Records are a text, a report, sites and loads a sheet each, and a load's number has the reply that is kept. An
/// area with a site has two sheets, and the reports are those of all standards in their order. Several sheets are
/// one array in JSON, and one is an object.
pub fn answers_are_sheets_or_texts()
    ensures records { (office : Office) → answer office Records ≡ OfText (records_answer office) }
    ensures sites { (office : Office) → answer office Sites ≡ OfSheets (sites_answer office ∷ []) }
    ensures loads { (office : Office) → answer office Loads ≡ OfSheets (loads_answer office ∷ []) }
    ensures reply { (office : Office) (number : ℕ) (load : StoredLoad) → load_at office number ≡ Some load → answer office (Reply number) ≡ OfSheets (load_sheet load.reply ∷ []) }
    ensures area { (office : Office) (standard : Standard) (area : OneArea) (year : ℕ) (first : Site) (others : List Site) → area_sites standard office area ≡ first ∷ others
        → answer office (Area standard area year) ≡ OfSheets (area_answer standard office area year ∷ area_sites_answer standard office area year ∷ []) }
    ensures report { (office : Office) (standard : Standard) (year : ℕ) → answer office (Report standard year) ≡ OfSheets (report_answer standard office year ∷ []) }
    ensures reports { (office : Office) (year : ℕ) → answer office (Reports year) ≡ OfSheets (map (λ standard. report_answer standard office year) standards) }
    ensures one { json_of_sheets (sites_answer nothing ∷ []) ≡ codes "{\"columns\":[\"site\",\"ozone\",\"pm25\",\"pm10\"],\"rows\":[],\"sites\":0}" }
    ensures two { json_of_sheets (sites_answer nothing ∷ sites_answer nothing ∷ [])
        ≡ codes "[{\"columns\":[\"site\",\"ozone\",\"pm25\",\"pm10\"],\"rows\":[],\"sites\":0},{\"columns\":[\"site\",\"ozone\",\"pm25\",\"pm10\"],\"rows\":[],\"sites\":0}]" }
    ensures text { texts_of (sites_answer nothing ∷ sites_answer nothing ∷ []) ≡ codes "sites 0\nsite ozone pm25 pm10\nsites 0\nsite ozone pm25 pm10\n" }
{}
