//! The table of questions: what it holds, and that words and paths read it alike.
#![tactic(auto)]

ghost use Rattle.std.specs.Prelude.{◌≡◌, ◌↔◌, ℕ, IsTrue, true, false, List, [], ◌∷◌, codes, map, replicate, Some, None, Ok, Err};
ghost use Rattle.aq_base.specs.Site.{Site};
ghost use Rattle.aq_base.specs.declared.area.Area.TheVariants.{County, Sites as SitesArea};
ghost use Rattle.aq_base.specs.declared.assumed.Assumed.{Assumed};
ghost use Rattle.aq_base.specs.declared.monitor.Pollutant.{Pollutant};
ghost use Rattle.aq_base.specs.declared.monitor.Pollutant.TheVariants.{Ozone, Pm25 as Fine, Pm10 as Coarse};
ghost use Rattle.aq_base.specs.declared.question.Question.{Question};
ghost use Rattle.aq_base.specs.declared.question.Question.TheVariants as question;
ghost use Rattle.aq_base.specs.declared.question.Topic.{Topic};
ghost use Rattle.aq_base.specs.declared.question.Topic.TheVariants.{Value, Report, Export, WhatIf, Decisive, Combined, Area, Reply, Windows, Days, Sites};
ghost use Rattle.aq_base.specs.declared.standard.Standard.{Standard};
ghost use Rattle.aq_base.specs.declared.standard.Standard.TheVariants.{Annual2012, Ozone2015, Pm10Of1987};
ghost use Rattle.aq_rules.specs.Ozone.OzoneExamples.{site, summer_day};
ghost use Rattle.aq_rules.specs.Questions.Asking.{asked_in_path, asked_in_words, is_asked, named_by, question_of};
ghost use Rattle.aq_rules.specs.Questions.QuestionExamples.{entries, ozone_word, site_text, usage_line};
ghost use Rattle.aq_rules.specs.Questions.Table.{OfArea, OfDay, OfEndYear, OfList, OfNumber, OfPairStandard, OfParameter, OfSite, OfStandard, OfYear, all_topics, name_of, parts_of, pattern_of, topic_of};
ghost use Rattle.aq_rules.specs.Shown.ShownExamples.{other_site};

/// The table in words: each question as the usage text has it.
pub fn questions_in_words()
    ensures { map usage_line all_topics
        ≡ codes "show STANDARD SITE YEAR" ∷ codes "report STANDARD YEAR" ∷ codes "export SITE PARAMETER YEAR"
        ∷ codes "whatif STANDARD SITE YEAR LIST" ∷ codes "decisive STANDARD SITE YEAR" ∷ codes "combined STANDARD SITE YEAR"
        ∷ codes "area STANDARD AREA YEAR" ∷ codes "reply NUMBER" ∷ codes "windows SITE DAY" ∷ codes "days SITE YEAR"
        ∷ codes "pm25 SITE YEAR" ∷ codes "pm10 SITE YEAR" ∷ codes "sites" ∷ codes "monitors SITE" ∷ codes "events SITE"
        ∷ codes "flags SITE PARAMETER YEAR" ∷ codes "loads" ∷ codes "daily SITE PARAMETER YEAR" ∷ codes "highest SITE PARAMETER YEAR"
        ∷ codes "completeness SITE PARAMETER YEAR" ∷ codes "reports YEAR" ∷ codes "records" ∷ codes "lines SITE PARAMETER YEAR" ∷ [] }
{}

/// The table in paths.
pub fn questions_in_paths()
    ensures { map pattern_of all_topics
        ≡ codes "/dv/{standard}/{site}/{year}" ∷ codes "/report/{standard}/{year}" ∷ codes "/export/{site}/{parameter}/{year}"
        ∷ codes "/whatif/{standard}/{site}/{year}/{list}" ∷ codes "/decisive/{standard}/{site}/{year}" ∷ codes "/combined/{standard}/{site}/{year}"
        ∷ codes "/area/{standard}/{area}/{year}" ∷ codes "/loads/{n}" ∷ codes "/ozone/{site}/windows/{day}" ∷ codes "/ozone/{site}/days/{year}"
        ∷ codes "/pm25/{site}/quarters/{year}" ∷ codes "/pm10/{site}/quarters/{year}" ∷ codes "/sites" ∷ codes "/monitors/{site}" ∷ codes "/events/{site}"
        ∷ codes "/flags/{site}/{parameter}/{year}" ∷ codes "/loads" ∷ codes "/daily/{site}/{parameter}/{year}" ∷ codes "/highest/{site}/{parameter}/{year}"
        ∷ codes "/completeness/{site}/{parameter}/{year}" ∷ codes "/reports/{year}" ∷ codes "/records" ∷ codes "/lines/{site}/{parameter}/{year}" ∷ [] }
{}

/// What each question asks for, in order. Its year ends three years where it has a standard, and where it asks
/// for the reports of all standards: it is then 1992 to 2059. Any other year is 1990 to 2059, a day is one of
/// these years, and the number of a load is 1 to 4294967295.
pub fn questions_ask_for_their_parts()
    ensures parts { map parts_of all_topics
        ≡ (OfStandard ∷ OfSite ∷ OfEndYear ∷ []) ∷ (OfStandard ∷ OfEndYear ∷ []) ∷ (OfSite ∷ OfParameter ∷ OfYear ∷ [])
        ∷ (OfStandard ∷ OfSite ∷ OfEndYear ∷ OfList ∷ []) ∷ (OfStandard ∷ OfSite ∷ OfEndYear ∷ []) ∷ (OfPairStandard ∷ OfSite ∷ OfEndYear ∷ [])
        ∷ (OfStandard ∷ OfArea ∷ OfEndYear ∷ []) ∷ (OfNumber ∷ []) ∷ (OfSite ∷ OfDay ∷ []) ∷ (OfSite ∷ OfYear ∷ [])
        ∷ (OfSite ∷ OfYear ∷ []) ∷ (OfSite ∷ OfYear ∷ []) ∷ [] ∷ (OfSite ∷ []) ∷ (OfSite ∷ [])
        ∷ (OfSite ∷ OfParameter ∷ OfYear ∷ []) ∷ [] ∷ (OfSite ∷ OfParameter ∷ OfYear ∷ []) ∷ (OfSite ∷ OfParameter ∷ OfYear ∷ [])
        ∷ (OfSite ∷ OfParameter ∷ OfYear ∷ []) ∷ (OfEndYear ∷ []) ∷ [] ∷ (OfSite ∷ OfParameter ∷ OfYear ∷ []) ∷ [] }
    ensures end_years { map (λ text. named_by OfEndYear text) (codes "1991" ∷ codes "1992" ∷ codes "2059" ∷ codes "2060" ∷ []) ≡ None ∷ Some 1992 ∷ Some 2059 ∷ None ∷ [] }
    ensures years { map (λ text. named_by OfYear text) (codes "1989" ∷ codes "1990" ∷ codes "2059" ∷ codes "2060" ∷ []) ≡ None ∷ Some 1990 ∷ Some 2059 ∷ None ∷ [] }
    ensures days { map (λ text. named_by OfDay text) (codes "1989-12-31" ∷ codes "1990-01-01" ∷ codes "2059-12-31" ∷ codes "2060-01-01" ∷ []) ≡ None ∷ Some 0 ∷ Some 25566 ∷ None ∷ [] }
    ensures numbers { map (λ text. named_by OfNumber text) (codes "0" ∷ codes "1" ∷ codes "4294967295" ∷ codes "4294967296" ∷ []) ≡ None ∷ Some 1 ∷ Some 4294967295 ∷ None ∷ [] }
{}

/// Each row's words ask its question.
pub fn words_ask_each_question()
    ensures show { asked_in_words all_topics (codes "show" ∷ ozone_word ∷ site_text ∷ codes "2024" ∷ []) ≡ Some (question.Value Ozone2015 site 2024) }
    ensures report { asked_in_words all_topics (codes "report" ∷ codes "PM25-ANNUAL-2012" ∷ codes "1992" ∷ []) ≡ Some (question.Report Annual2012 1992) }
    ensures export { asked_in_words all_topics (codes "export" ∷ site_text ∷ codes "44201" ∷ codes "1990" ∷ []) ≡ Some (question.Export site Ozone 1990) }
    ensures whatif { asked_in_words all_topics (codes "whatif" ∷ ozone_word ∷ site_text ∷ codes "2024" ∷ codes "7Y,12N" ∷ [])
        ≡ Some (question.WhatIf Ozone2015 site 2024 (record { number = 7; agreed = true } ∷ record { number = 12; agreed = false } ∷ [])) }
    ensures decisive { asked_in_words all_topics (codes "decisive" ∷ ozone_word ∷ site_text ∷ codes "2059" ∷ []) ≡ Some (question.Decisive Ozone2015 site 2059) }
    ensures combined { asked_in_words all_topics (codes "combined" ∷ ozone_word ∷ site_text ∷ codes "2024" ∷ []) ≡ Some (question.Combined Ozone2015 site 2024) }
    ensures county { asked_in_words all_topics (codes "area" ∷ ozone_word ∷ codes "06-037" ∷ codes "2024" ∷ []) ≡ Some (question.Area Ozone2015 (County 6 37) 2024) }
    ensures area { asked_in_words all_topics (codes "area" ∷ ozone_word ∷ codes "06-037-1103,06-037-1104" ∷ codes "2024" ∷ []) ≡ Some (question.Area Ozone2015 (SitesArea (site ∷ other_site ∷ [])) 2024) }
    ensures reply { asked_in_words all_topics (codes "reply" ∷ codes "4294967295" ∷ []) ≡ Some (question.Reply 4294967295) }
    ensures windows { asked_in_words all_topics (codes "windows" ∷ site_text ∷ codes "2024-07-01" ∷ []) ≡ Some (question.Windows site summer_day) }
    ensures days { asked_in_words all_topics (codes "days" ∷ site_text ∷ codes "2024" ∷ []) ≡ Some (question.Days site 2024) }
    ensures pm25 { asked_in_words all_topics (codes "pm25" ∷ site_text ∷ codes "2024" ∷ []) ≡ Some (question.Pm25 site 2024) }
    ensures pm10 { asked_in_words all_topics (codes "pm10" ∷ site_text ∷ codes "2024" ∷ []) ≡ Some (question.Pm10 site 2024) }
    ensures sites { asked_in_words all_topics (codes "sites" ∷ []) ≡ Some question.Sites }
    ensures monitors { asked_in_words all_topics (codes "monitors" ∷ site_text ∷ []) ≡ Some (question.Monitors site) }
    ensures events { asked_in_words all_topics (codes "events" ∷ site_text ∷ []) ≡ Some (question.Events site) }
    ensures flags { asked_in_words all_topics (codes "flags" ∷ site_text ∷ codes "88101" ∷ codes "2024" ∷ []) ≡ Some (question.Flags site Fine 2024) }
    ensures loads { asked_in_words all_topics (codes "loads" ∷ []) ≡ Some question.Loads }
    ensures daily { asked_in_words all_topics (codes "daily" ∷ site_text ∷ codes "81102" ∷ codes "2024" ∷ []) ≡ Some (question.Daily site Coarse 2024) }
    ensures highest { asked_in_words all_topics (codes "highest" ∷ site_text ∷ codes "44201" ∷ codes "2024" ∷ []) ≡ Some (question.Highest site Ozone 2024) }
    ensures completeness { asked_in_words all_topics (codes "completeness" ∷ site_text ∷ codes "44201" ∷ codes "2024" ∷ []) ≡ Some (question.Completeness site Ozone 2024) }
    ensures reports { asked_in_words all_topics (codes "reports" ∷ codes "1992" ∷ []) ≡ Some (question.Reports 1992) }
    ensures records { asked_in_words all_topics (codes "records" ∷ []) ≡ Some question.Records }
    ensures lines { asked_in_words all_topics (codes "lines" ∷ site_text ∷ codes "44201" ∷ codes "2024" ∷ []) ≡ Some (question.Lines site Ozone 2024) }
{}

/// Words of which one is missing, or one is too many, are no command, nor are a name in capitals and a year or
/// number outside the range of its question.
pub fn words_that_ask_nothing()
    ensures none { asked_in_words all_topics [] ≡ None }
    ensures capital { asked_in_words all_topics (codes "Sites" ∷ []) ≡ None }
    ensures too_few { asked_in_words all_topics (codes "show" ∷ ozone_word ∷ site_text ∷ []) ≡ None }
    ensures too_many { asked_in_words all_topics (codes "sites" ∷ codes "2024" ∷ []) ≡ None }
    ensures before { asked_in_words all_topics (codes "show" ∷ ozone_word ∷ site_text ∷ codes "1991" ∷ []) ≡ None }
    ensures after { asked_in_words all_topics (codes "reports" ∷ codes "2060" ∷ []) ≡ None }
    ensures number { asked_in_words all_topics (codes "reply" ∷ codes "0" ∷ []) ≡ None }
    ensures zeros { asked_in_words all_topics (codes "reply" ∷ codes "07" ∷ []) ≡ None }
    ensures pm10_pair { asked_in_words all_topics (codes "combined" ∷ codes "PM10-24H-1987" ∷ site_text ∷ codes "2024" ∷ []) ≡ None }
{}

/// A path whose standard or parameter there is not is not found, and any other part that spells nothing is a bad
/// request: also if there is no such standard. A list of 65 entries and an area with one site twice are bad
/// requests, and of PM10 no sites are combined.
pub fn paths_are_refused()
    ensures found { asked_in_path Value (ozone_word ∷ site_text ∷ codes "2024" ∷ []) ≡ Ok (question.Value Ozone2015 site 2024) }
    ensures no_standard { asked_in_path Value (codes "O3-2016" ∷ site_text ∷ codes "2024" ∷ []) ≡ Err 404 }
    ensures bad_site { asked_in_path Value (ozone_word ∷ codes "06-37-1103" ∷ codes "2024" ∷ []) ≡ Err 400 }
    ensures both { asked_in_path Value (codes "O3-2016" ∷ site_text ∷ codes "1991" ∷ []) ≡ Err 400 }
    ensures no_parameter { asked_in_path Export (site_text ∷ codes "42602" ∷ codes "2024" ∷ []) ≡ Err 404 }
    ensures most_entries { asked_in_path WhatIf (codes "O3-2016" ∷ site_text ∷ codes "2024" ∷ entries 64 ∷ []) ≡ Err 404 }
    ensures too_many_entries { asked_in_path WhatIf (ozone_word ∷ site_text ∷ codes "2024" ∷ entries 65 ∷ []) ≡ Err 400 }
    ensures twice { asked_in_path Area (ozone_word ∷ codes "06-037-1103,06-037-1103" ∷ codes "2024" ∷ []) ≡ Err 400 }
    ensures pm10_pair { asked_in_path Combined (codes "PM10-24H-1987" ∷ site_text ∷ codes "2024" ∷ []) ≡ Err 404 }
    ensures bad_pair { asked_in_path Combined (codes "PM10-24H-1987" ∷ site_text ∷ codes "24" ∷ []) ≡ Err 400 }
    ensures number { asked_in_path Reply (codes "05" ∷ []) ≡ Err 400 }
    ensures day { asked_in_path Windows (site_text ∷ codes "2023-02-29" ∷ []) ≡ Err 400 }
{}

/// Words and paths are two readings of one table: the same texts ask the same question, or none.
pub fn words_and_paths_ask_alike()
    ensures words { (topic : Topic) (texts : List (List ℕ)) → asked_in_words all_topics (name_of topic ∷ texts) ≡ question_of topic texts }
    ensures paths { (topic : Topic) (texts : List (List ℕ)) (asked : Question)
        → (asked_in_words all_topics (name_of topic ∷ texts) ≡ Some asked) ↔ (asked_in_path topic texts ≡ Ok asked) }
{}

/// What is asked is a question of its row, and in range.
pub fn questions_asked_are_in_range()
    ensures row { (topic : Topic) (texts : List (List ℕ)) (asked : Question) → question_of topic texts ≡ Some asked → topic_of asked ≡ topic }
    ensures range { (topic : Topic) (texts : List (List ℕ)) (asked : Question) → question_of topic texts ≡ Some asked → IsTrue (is_asked asked) }
{}

/// A question with a standard, and that of all reports, is asked of 1992 to 2059, and any other that has a year
/// of 1990 to 2059. Windows are asked of each day up to 31 December 2059, and a load's number is 1 to
/// 4294967295. Of PM10 no sites are combined. A county has a state of two digits and a code of three.
pub fn questions_have_their_ranges()
    ensures end_years { (standard : Standard) (at : Site) (list : List Assumed)
        → map (λ year. map is_asked (question.Value standard at year ∷ question.Report standard year ∷ question.WhatIf standard at year list ∷ question.Decisive standard at year ∷ question.Combined Ozone2015 at year ∷ question.Area standard (County 6 37) year ∷ question.Area standard (SitesArea (at ∷ [])) year ∷ question.Reports year ∷ [])) (1991 ∷ 1992 ∷ 2059 ∷ 2060 ∷ [])
        ≡ replicate 8 false ∷ replicate 8 true ∷ replicate 8 true ∷ replicate 8 false ∷ [] }
    ensures years { (at : Site) (pollutant : Pollutant)
        → map (λ year. map is_asked (question.Export at pollutant year ∷ question.Days at year ∷ question.Pm25 at year ∷ question.Pm10 at year ∷ question.Flags at pollutant year ∷ question.Daily at pollutant year ∷ question.Highest at pollutant year ∷ question.Completeness at pollutant year ∷ question.Lines at pollutant year ∷ [])) (1989 ∷ 1990 ∷ 2059 ∷ 2060 ∷ [])
        ≡ replicate 9 false ∷ replicate 9 true ∷ replicate 9 true ∷ replicate 9 false ∷ [] }
    ensures windows { (at : Site) → map (λ day. is_asked (question.Windows at day)) (0 ∷ 25566 ∷ 25567 ∷ []) ≡ true ∷ true ∷ false ∷ [] }
    ensures numbers { map (λ number. is_asked (question.Reply number)) (0 ∷ 1 ∷ 4294967295 ∷ 4294967296 ∷ []) ≡ false ∷ true ∷ true ∷ false ∷ [] }
    ensures pair { (at : Site) → map (λ standard. is_asked (question.Combined standard at 2024)) (Ozone2015 ∷ Annual2012 ∷ Pm10Of1987 ∷ []) ≡ true ∷ true ∷ false ∷ [] }
    ensures counties { (standard : Standard) → map (λ area. is_asked (question.Area standard area 2024)) (County 99 999 ∷ County 100 999 ∷ County 99 1000 ∷ []) ≡ true ∷ false ∷ false ∷ [] }
{}
