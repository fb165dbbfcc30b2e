//! What holds of all steps, for whoever reads a connection piece by piece, and what targets ask.
ghost use Rattle.std.specs.Prelude.{◌≡◌, ◌≢◌, ℕ, true, false, ◌∷◌, [], map, replicate, codes, ◌+◌, ◌<◌, ◌≤◌, List, ◌++◌, length, Err, Ok, IsTrue};
ghost use Rattle.aq_rules.specs.Limits.{MOST_BYTES};
ghost use Rattle.aq_rules.specs.Ozone.OzoneExamples.{site};
ghost use Rattle.aq_rules.specs.Questions.QuestionExamples.{entries};
ghost use Rattle.aq_base.specs.declared.area.Area.TheVariants.{County};
ghost use Rattle.aq_base.specs.declared.monitor.Pollutant.TheVariants.{Ozone};
ghost use Rattle.aq_base.specs.declared.question.Question.TheVariants.{Area, Combined, Completeness, Daily, Days, Decisive, Events, Export, Flags, Highest, Lines, Loads, Monitors, Pm10, Pm25, Records, Reply, Report, Reports, Sites, Value, WhatIf, Windows};
ghost use Rattle.aq_base.specs.declared.standard.Standard.TheVariants.{Ozone2015, Pm10Of1987};
ghost use Rattle.aq_http.specs.declared.limits.TheConstants.{MOST_HEAD};
ghost use Rattle.aq_http.specs.declared.routes.Found.TheVariants.{Ask as Asks, Load, NotAllowed, Page, Status};
ghost use Rattle.aq_http.specs.declared.verb.Verb.TheVariants.{Get, Other, Post};
ghost use Rattle.aq_http.specs.Head.{HeadStep, IsHeadStep, More as MoreOfHead, verb_of};
ghost use Rattle.aq_http.specs.Routes.{found};
ghost use Rattle.aq_http.specs.Reply.{is_reply_status};
ghost use Rattle.aq_http.specs.Step.{IsStep, More, Refuse, Request, Step, Whole};

/// A refusal and a whole request stay, whatever bytes come after, and if a whole request stands
/// there is no other step.
pub fn steps_stay()
    ensures head { (input more : List ℕ) (step : HeadStep) → step ≢ MoreOfHead
        → IsHeadStep input step → IsHeadStep (input ++ more) step }
    ensures step { (input more : List ℕ) (step : Step) → step ≢ More
        → IsStep input step → IsStep (input ++ more) step }
    ensures whole { (input : List ℕ) (request : Request) (step : Step)
        → IsStep input (Whole request) → IsStep input step → step ≡ Whole request }
{}

/// More bytes are wanted only of fewer than a head and a body may have together; a request lies in the
/// bytes, and its body is no longer than a load; each refusal has a reply.
pub fn steps_are_bounded()
    ensures more_of_head { (input : List ℕ) → IsHeadStep input MoreOfHead → length input < MOST_HEAD }
    ensures more { (input : List ℕ) → IsStep input More → length input < MOST_HEAD + MOST_BYTES }
    ensures used { (input : List ℕ) (request : Request) → IsStep input (Whole request) → request.used ≤ length input }
    ensures body { (input : List ℕ) (request : Request) → IsStep input (Whole request) → length request.body ≤ MOST_BYTES }
    ensures refusal { (input : List ℕ) (status : ℕ) → IsStep input (Refuse status) → IsTrue (is_reply_status status) }
{}

/// On `/loads/5` GET asks for the reply to load 5, POST brings the load in, and another verb, as HEAD, is
/// not allowed (405). A number has no leading zero and is not percent-decoded (400 for GET and POST). A
/// slash at the end, an empty part, and a target that does not begin with a slash take no route,
/// whatever the verb (404).
/// Each further route asks its question of the site 06-037-1103, or of its county: 2 January 1990 is day 1
/// of the profile. A standard or a parameter that there is not is not found (404), and of PM10 no sites are
/// combined. A part that is misspelled, a list of 65 entries and an area with one site twice are bad
/// requests (400).
/// The sites, the loads and the records of the office stand at a path without a part, which takes GET alone.
/// A question of a series is asked of 1990 to 2059, and the reports of all standards of 1992 to 2059. Any
/// other year is a bad request (400).
/// The page of the sites stands at `/`, and the page of any question at `/page` and the question's path. A
/// page takes GET alone (405). The observations to export, the records and the lines have no page: they are
/// not found (404), whatever the verb and the parts are. A refusal in place of a page is a page too, of the
/// same status as at the question's own path.
pub fn worked_targets()
    ensures head { verb_of (codes "HEAD") ≡ Other }
    ensures get { found Get (codes "/loads/5") ≡ Asks (Reply 5) }
    ensures post { found Post (codes "/loads/5") ≡ Load 5 }
    ensures other { found Other (codes "/loads/5") ≡ NotAllowed true }
    ensures slash_at_the_end { map (λ verb. found verb (codes "/loads/5/")) (Get ∷ Post ∷ Other ∷ []) ≡ replicate 3 (Status 404) }
    ensures no_number { map (λ verb. found verb (codes "/loads/")) (Get ∷ Post ∷ Other ∷ []) ≡ replicate 3 (Status 404) }
    ensures no_slash { map (λ verb. found verb (codes "loads/5")) (Get ∷ Post ∷ Other ∷ []) ≡ replicate 3 (Status 404) }
    ensures leading_zero { map (λ verb. found verb (codes "/loads/05")) (Get ∷ Post ∷ Other ∷ []) ≡ Status 400 ∷ Status 400 ∷ NotAllowed true ∷ [] }
    ensures not_decoded { found Get (codes "/loads/%35") ≡ Status 400 }
    ensures windows { found Get (codes "/ozone/06-037-1103/windows/1990-01-02") ≡ Asks (Windows site 1) }
    ensures days { found Get (codes "/ozone/06-037-1103/days/2024") ≡ Asks (Days site 2024) }
    ensures pm25 { found Get (codes "/pm25/06-037-1103/quarters/2024") ≡ Asks (Pm25 site 2024) }
    ensures pm10 { found Get (codes "/pm10/06-037-1103/quarters/2024") ≡ Asks (Pm10 site 2024) }
    ensures value { found Get (codes "/dv/O3-2015/06-037-1103/2024") ≡ Asks (Value Ozone2015 site 2024) }
    ensures report { found Get (codes "/report/PM10-24H-1987/2024") ≡ Asks (Report Pm10Of1987 2024) }
    ensures export { found Get (codes "/export/06-037-1103/44201/2024") ≡ Asks (Export site Ozone 2024) }
    ensures whatif { found Get (codes "/whatif/O3-2015/06-037-1103/2024/7Y,12N")
        ≡ Asks (WhatIf Ozone2015 site 2024 (record { number = 7; agreed = true } ∷ record { number = 12; agreed = false } ∷ [])) }
    ensures decisive { found Get (codes "/decisive/O3-2015/06-037-1103/2024") ≡ Asks (Decisive Ozone2015 site 2024) }
    ensures combined { found Get (codes "/combined/O3-2015/06-037-1103/2024") ≡ Asks (Combined Ozone2015 site 2024) }
    ensures area { found Get (codes "/area/O3-2015/06-037/2024") ≡ Asks (Area Ozone2015 (County 6 37) 2024) }
    ensures no_standard { found Get (codes "/dv/O3-2016/06-037-1103/2024") ≡ Status 404 }
    ensures no_parameter { found Get (codes "/export/06-037-1103/42602/2024") ≡ Status 404 }
    ensures misspelled_beside { found Get (codes "/dv/O3-2016/06-37-1103/2024") ≡ Status 400 }
    ensures too_many_entries { found Get (codes "/whatif/O3-2015/06-037-1103/2024/" ++ entries 65) ≡ Status 400 }
    ensures twice { found Get (codes "/area/O3-2015/06-037-1103,06-037-1103/2024") ≡ Status 400 }
    ensures pm10_pair { found Get (codes "/combined/PM10-24H-1987/06-037-1103/2024") ≡ Status 404 }
    ensures no_post { found Post (codes "/export/06-037-1103/44201/2024") ≡ NotAllowed false }
    ensures further_slash { found Get (codes "/export/06-037-1103/44201/2024/") ≡ Status 404 }
    ensures sites { found Get (codes "/sites") ≡ Asks Sites }
    ensures monitors { found Get (codes "/monitors/06-037-1103") ≡ Asks (Monitors site) }
    ensures events { found Get (codes "/events/06-037-1103") ≡ Asks (Events site) }
    ensures flags { found Get (codes "/flags/06-037-1103/44201/2024") ≡ Asks (Flags site Ozone 2024) }
    ensures loads { found Get (codes "/loads") ≡ Asks Loads }
    ensures daily { found Get (codes "/daily/06-037-1103/44201/2024") ≡ Asks (Daily site Ozone 2024) }
    ensures highest { found Get (codes "/highest/06-037-1103/44201/2024") ≡ Asks (Highest site Ozone 2024) }
    ensures completeness { found Get (codes "/completeness/06-037-1103/44201/2024") ≡ Asks (Completeness site Ozone 2024) }
    ensures reports { found Get (codes "/reports/2024") ≡ Asks (Reports 2024) }
    ensures records { found Get (codes "/records") ≡ Asks Records }
    ensures lines { found Get (codes "/lines/06-037-1103/44201/2024") ≡ Asks (Lines site Ozone 2024) }
    ensures sites_slash { found Get (codes "/sites/") ≡ Status 404 }
    ensures sites_part { found Get (codes "/sites/x") ≡ Status 404 }
    ensures no_site { found Get (codes "/monitors") ≡ Status 404 }
    ensures bad_site { map (λ path. found Get path) (codes "/monitors/6-37-1103" ∷ codes "/events/6-37-1103" ∷ []) ≡ replicate 2 (Status 400) }
    ensures no_series { map (λ path. found Get path) (codes "/flags/06-037-1103/42602/2024" ∷ codes "/daily/06-037-1103/42602/2024"
        ∷ codes "/highest/06-037-1103/42602/2024" ∷ codes "/completeness/06-037-1103/42602/2024" ∷ codes "/lines/06-037-1103/42602/2024" ∷ [])
        ≡ replicate 5 (Status 404) }
    ensures before_1990 { map (λ path. found Get path) (codes "/flags/06-037-1103/44201/1989" ∷ codes "/daily/06-037-1103/44201/1989"
        ∷ codes "/highest/06-037-1103/44201/1989" ∷ codes "/completeness/06-037-1103/44201/1989" ∷ codes "/lines/06-037-1103/44201/1989" ∷ [])
        ≡ replicate 5 (Status 400) }
    ensures report_years { map (λ path. found Get path) (codes "/reports/1991" ∷ codes "/reports/1992" ∷ codes "/reports/2059" ∷ codes "/reports/2060" ∷ [])
        ≡ Status 400 ∷ Asks (Reports 1992) ∷ Asks (Reports 2059) ∷ Status 400 ∷ [] }
    ensures lists_take_no_post { map (λ path. found Post path) (codes "/sites" ∷ codes "/loads" ∷ codes "/records" ∷ []) ≡ replicate 3 (NotAllowed false) }
    ensures lists_take_no_head { map (λ path. found Other path) (codes "/sites" ∷ codes "/loads" ∷ codes "/records" ∷ []) ≡ replicate 3 (NotAllowed false) }
    ensures page_of_sites { map (λ path. found Get path) (codes "/" ∷ codes "/page/sites" ∷ codes "/?a" ∷ []) ≡ replicate 3 (Page (Ok Sites)) }
    ensures page_of_value { found Get (codes "/page/dv/O3-2015/06-037-1103/2024") ≡ Page (Ok (Value Ozone2015 site 2024)) }
    ensures no_page { map (λ path. found Get path) (codes "/page/export/06-037-1103/44201/2024" ∷ codes "/page/records"
        ∷ codes "/page/lines/06-037-1103/44201/2024" ∷ []) ≡ replicate 3 (Page (Err 404)) }
    ensures no_page_first { found Post (codes "/page/records") ∷ found Get (codes "/page/export/6-37-1103/44201/2024") ∷ [] ≡ replicate 2 (Page (Err 404)) }
    ensures pages_take_get_alone { found Post (codes "/page/sites") ∷ found Other (codes "/page/sites")
        ∷ found Post (codes "/") ∷ found Post (codes "/page/loads/5") ∷ [] ≡ replicate 4 (Page (Err 405)) }
    ensures no_such_page { found Get (codes "/page/nothing") ∷ found Get (codes "/page/") ∷ found Post (codes "/page//sites") ∷ []
        ≡ replicate 3 (Page (Err 404)) }
    ensures page_alone { found Get (codes "/page") ≡ Status 404 }
    ensures page_of_no_standard { found Get (codes "/page/dv/O3-2016/06-037-1103/2024") ≡ Page (Err 404) }
    ensures page_misspelled { found Get (codes "/page/dv/O3-2015/06-037-1103/1991") ≡ Page (Err 400) }
{}
