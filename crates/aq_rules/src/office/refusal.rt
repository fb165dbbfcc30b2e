//! Which office rule a line breaks, against what stands.
ghost use Rattle.std.specs.Prelude.{◌≡◌, ◌<◌, ℕ, false, Some, None, codes, All, IsFalse, length};
ghost use Rattle.aq_base.specs.declared.rule.Rule.TheVariants.{BadDuration, BadInterval, BadSeason, BadSpan, BadCode, UnknownMonitor, WrongDuration, AlreadyThere, NotThere, ObservationsFull, SitesFull, MonitorsFull, MakeupsFull, UnknownEvent, EventsFull, ListFull, BadPair, PairTaken, ParameterOutOfProfile};
ghost use Rattle.aq_base.specs.declared.rule.Rule.{Rule};
ghost use Rattle.aq_rules.specs.Office.Office.{Office, duration_at};
ghost use Rattle.aq_base.specs.declared.monitor.MonitorId.{MonitorId};
ghost use Rattle.aq_base.specs.declared.monitor.Duration.{Duration};
ghost use Rattle.aq_base.specs.declared.observation.Observation.{Observation};
ghost use Rattle.aq_rules.specs.Lines.RdForm.{Put};
ghost use Rattle.aq_rules.specs.Lines.Reading.{LineValue, OfRd};
ghost use Rattle.aq_rules.specs.Office.Refusal.{broken, breaks_office, office_rules, sample_stands};
ghost use Rattle.aq_rules.specs.Least.{IsLeastBroken};
ghost use Rattle.aq_rules.specs.Office.Load.{refusal};
ghost use Rattle.aq_rules.specs.Lines.LineExamples.{one_monitor, one_hour, one_sample, one_of_each, hourly_particles, many_monitors, many_sites, many_primaries, many_schedules, many_makeups, many_events, three_sites, two_combined};

/// Samples, against an office with an ozone hour or a PM2.5 sample. Samples of the other duration than
/// their monitor's, and a deletion, which names none.
#[tactic(auto, unfolding(crate::specs::Lines::Spellings::site_in, crate::specs::Lines::Spellings::parameter_of, crate::specs::Lines::Spellings::date_in, crate::specs::Lines::Spellings::time_in, crate::specs::Lines::Spellings::value_in, crate::specs::Lines::Spellings::qualifiers_in, crate::specs::Lines::RdForm::monitor_in, crate::specs::Lines::RdForm::start_in, crate::specs::Lines::RdForm::content_in, crate::specs::Lines::RdForm::put_in, crate::specs::Lines::RdForm::delete_in, aq_base::specs::Calendar::days_of_years, aq_base::specs::Calendar::days_of_months))]
pub fn samples_and_their_rules()
    ensures unknown { refusal one_hour (codes "RD|I|06|037|1103|44201|2|1|007|087|20240701|14:00|0.071") ≡ Some UnknownMonitor }
    ensures there { refusal one_hour (codes "RD|I|06|037|1103|44201|1|1|007|087|20240701|13:00|0.071") ≡ Some AlreadyThere }
    ensures next { refusal one_hour (codes "RD|I|06|037|1103|44201|1|1|007|087|20240701|14:00|0.071") ≡ None }
    ensures update { refusal one_hour (codes "RD|U|06|037|1103|44201|1|1|007|087|20240701|13:00|0.071") ≡ None }
    ensures missing { refusal one_hour (codes "RD|U|06|037|1103|44201|1|1|007|087|20240701|14:00|0.071") ≡ Some NotThere }
    ensures missing_too { refusal one_hour (codes "RD|D|06|037|1103|44201|1||||20240701|14:00") ≡ Some NotThere }
    ensures duration { refusal one_sample (codes "RD|I|06|037|1103|88101|1|1|105|145|20240109|00:00|1") ≡ Some WrongDuration }
    ensures same_day { refusal one_sample (codes "RD|I|06|037|1103|88101|1|7|105|145|20240107|09:00|1") ≡ Some AlreadyThere }
    ensures same_day_deleted { refusal one_sample (codes "RD|D|06|037|1103|88101|1||||20240107|09:00") ≡ None }
    ensures inserted { refusal one_sample (codes "RD|I|06|037|1103|88101|1|1|105|145|20240109|00:00|1") ≡ Some WrongDuration }
    ensures updated { refusal one_sample (codes "RD|U|06|037|1103|88101|1|1|105|145|20240107|00:00|1") ≡ Some WrongDuration }
    ensures days_of_a_monitor_of_hours { refusal hourly_particles (codes "RD|I|06|037|1103|88101|2|7|105|145|20240109|00:00|1") ≡ Some WrongDuration }
    ensures hours_of_a_monitor_of_hours { refusal hourly_particles (codes "RD|I|06|037|1103|88101|2|1|105|145|20240109|00:00|1") ≡ None }
    ensures updated_at_noon { refusal one_sample (codes "RD|U|06|037|1103|88101|1|7|105|145|20240107|12:00|1") ≡ None }
    ensures deleted { refusal one_sample (codes "RD|D|06|037|1103|88101|1|1|105|145|20240107|12:00") ≡ None }
    ensures deleted_of_no_monitor { refusal one_sample (codes "RD|D|06|037|1103|88101|2||||20240107|12:00") ≡ Some UnknownMonitor }
{}

/// Office lines, against an office with one ozone monitor of hours. A record stands by its key: the
/// same key again is refused, whatever the other fields, and one that differs in a part of the key is
/// new. A deletion needs its key to stand, and a concurrence its event. The monitors that office lines
/// need.
#[tactic(auto, unfolding(crate::specs::Lines::Spellings::site_in, crate::specs::Lines::Spellings::parameter_of, crate::specs::Lines::Spellings::date_in, crate::specs::Lines::Spellings::year_in, crate::specs::Lines::Spellings::time_in, crate::specs::Lines::Spellings::interval_in, crate::specs::Lines::Spellings::event_number_in, crate::specs::Lines::Spellings::event_code_in, crate::specs::Lines::RdForm::monitor_in, crate::specs::Lines::OfficeForms::xm_record, crate::specs::Lines::OfficeForms::xp_record, crate::specs::Lines::OfficeForms::xs_record, crate::specs::Lines::OfficeForms::xo_record, crate::specs::Lines::OfficeForms::xu_record, crate::specs::Lines::OfficeForms::xe_record, crate::specs::Lines::OfficeForms::xe_key, crate::specs::Lines::OfficeForms::xc_record, crate::specs::Lines::OfficeForms::xa_record, crate::specs::Lines::OfficeForms::xa_key, crate::specs::Lines::OfficeForms::xb_record, crate::specs::Lines::OfficeForms::xb_key, aq_base::specs::Calendar::days_of_years, aq_base::specs::Calendar::days_of_months, aq_base::specs::Calendar::year_of, aq_base::specs::Calendar::month_of, crate::specs::Lines::OfficeForms::xp_key, crate::specs::Lines::OfficeForms::xs_key, crate::specs::Lines::OfficeForms::xo_key, crate::specs::Lines::OfficeForms::xu_key))]
pub fn office_lines_and_their_rules()
    ensures primary_elsewhere { refusal one_monitor (codes "XP|I|06|037|1104|44201|20240101|0") ≡ Some UnknownMonitor }
    ensures primary_of_two { refusal one_monitor (codes "XP|I|06|037|1103|44201|20240101|2") ≡ Some UnknownMonitor }
    ensures no_primary { refusal one_monitor (codes "XP|I|06|037|1103|44201|20240101|0") ≡ None }
    ensures schedule { refusal one_monitor (codes "XS|I|06|037|1103|88101|20240101|3|20240101") ≡ Some UnknownMonitor }
    ensures makeup { refusal one_monitor (codes "XU|I|06|037|1103|88101|20240107|20240109") ≡ Some UnknownMonitor }
    ensures season { refusal one_monitor (codes "XO|I|06|037|1104|2024|20240301|20241031") ≡ Some UnknownMonitor }
    ensures approved { refusal one_monitor (codes "XA|I|06|037|1103|20240701") ≡ None }
    ensures ozone_of_days { refusal one_monitor (codes "XM|U|06|037|1103|44201|1|7|N") ≡ Some BadDuration }
    ensures again { refusal one_monitor (codes "XM|I|06|037|1103|44201|01|1|N") ≡ Some AlreadyThere }
    ensures eligibility { refusal one_monitor (codes "XM|U|06|037|1103|44201|1|1|N") ≡ None }
    ensures other_duration { refusal one_sample (codes "XM|U|06|037|1103|88101|1|1|N") ≡ Some WrongDuration }
    ensures interval { refusal one_monitor (codes "XS|I|06|037|1103|88101|20240101|4|20240101") ≡ Some BadInterval }
    ensures two_years { refusal one_monitor (codes "XO|I|06|037|1103|2024|20240301|20250101") ≡ Some BadSeason }
    ensures concurrence { refusal one_monitor (codes "XC|U|9|Y") ≡ Some UnknownEvent }
    ensures event_deleted { refusal one_monitor (codes "XE|D|9") ≡ Some UnknownEvent }
    ensures long_event { refusal one_monitor (codes "XE|I|1|06|037|1103|44201|20240101|00:00|20250101|00:00|RT") ≡ Some BadSpan }
    ensures event_code { refusal one_monitor (codes "XE|I|1|06|037|1103|44201|20240101|00:00|20240101|05:00|V") ≡ Some BadCode }
    ensures not_approved { refusal one_monitor (codes "XA|D|06|037|1103|20240701") ≡ Some NotThere }
    ensures monitor { refusal one_of_each (codes "XM|I|06|037|1103|44201|3|1|N") ≡ Some AlreadyThere }
    ensures other_poc { refusal one_of_each (codes "XM|I|06|037|1103|44201|4|1|N") ≡ None }
    ensures primary { refusal one_of_each (codes "XP|I|06|037|1103|44201|20240102|0") ≡ Some AlreadyThere }
    ensures primary_from_another_day { refusal one_of_each (codes "XP|I|06|037|1103|44201|20240103|3") ≡ None }
    ensures primary_of_another_pollutant { refusal one_of_each (codes "XP|I|06|037|1103|88101|20240102|4") ≡ None }
    ensures one_record_for_each_key_schedule { refusal one_of_each (codes "XS|I|06|037|1103|88101|20240103|3|20240105") ≡ Some AlreadyThere }
    ensures schedule_from_its_anchor { refusal one_of_each (codes "XS|I|06|037|1103|88101|20240107|6|20240103") ≡ None }
    ensures one_record_for_each_key_season { refusal one_of_each (codes "XO|I|06|037|1103|2024|20240401|20240930") ≡ Some AlreadyThere }
    ensures season_of_another_year { refusal one_of_each (codes "XO|I|06|037|1103|2025|20250301|20251031") ≡ None }
    ensures one_record_for_each_key_makeup { refusal one_of_each (codes "XU|I|06|037|1103|88101|20240110|20240111") ≡ Some AlreadyThere }
    ensures makeup_day { refusal one_of_each (codes "XU|I|06|037|1103|88101|20240109|20240112") ≡ Some AlreadyThere }
    ensures missed_makeup_day { refusal one_of_each (codes "XU|I|06|037|1103|88101|20240112|20240113") ≡ None }
    ensures event { refusal one_of_each (codes "XE|I|21|06|037|1103|88101|20240101|00:00|20240102|01:00|RA") ≡ Some AlreadyThere }
    ensures event_of_another_number { refusal one_of_each (codes "XE|I|22|06|037|1103|44201|20240701|19:00|20240703|04:00|RT") ≡ None }
    ensures one_record_for_each_key_approved { refusal one_of_each (codes "XA|I|06|037|1103|20240704") ≡ Some AlreadyThere }
    ensures approved_on_another_day { refusal one_of_each (codes "XA|I|06|037|1103|20240705") ≡ None }
    ensures records_deleted_by_their_keys_primary { refusal one_of_each (codes "XP|D|06|037|1103|44201|20240102") ≡ None }
    ensures records_deleted_by_their_keys_primary_elsewhere { refusal one_of_each (codes "XP|D|06|037|1104|44201|20240102") ≡ Some NotThere }
    ensures records_deleted_by_their_keys_primary_of_another_pollutant { refusal one_of_each (codes "XP|D|06|037|1103|88101|20240102") ≡ Some NotThere }
    ensures records_deleted_by_their_keys_schedule { refusal one_of_each (codes "XS|D|06|037|1103|88101|20240103") ≡ None }
    ensures records_deleted_by_their_keys_schedule_from_its_anchor { refusal one_of_each (codes "XS|D|06|037|1103|88101|20240107") ≡ Some NotThere }
    ensures records_deleted_by_their_keys_season { refusal one_of_each (codes "XO|D|06|037|1103|2024") ≡ None }
    ensures records_deleted_by_their_keys_season_of_another_year { refusal one_of_each (codes "XO|D|06|037|1103|2023") ≡ Some NotThere }
    ensures records_deleted_by_their_keys_makeup { refusal one_of_each (codes "XU|D|06|037|1103|88101|20240110") ≡ None }
    ensures makeup_by_its_makeup_day { refusal one_of_each (codes "XU|D|06|037|1103|88101|20240112") ≡ Some NotThere }
    ensures records_deleted_by_their_keys_event { refusal one_of_each (codes "XE|D|21") ≡ None }
    ensures records_deleted_by_their_keys_event_of_another_number { refusal one_of_each (codes "XE|D|22") ≡ Some UnknownEvent }
    ensures records_deleted_by_their_keys_approved { refusal one_of_each (codes "XA|D|06|037|1103|20240704") ≡ None }
    ensures approved_elsewhere { refusal one_of_each (codes "XA|D|06|031|1103|20240704") ≡ Some NotThere }
    ensures one_record_for_each_key_combined { refusal one_of_each (codes "XB|I|06|037|1103|44201|20240201|06|037|1104") ≡ Some AlreadyThere }
    ensures records_deleted_by_their_keys_combined { refusal one_of_each (codes "XB|D|06|037|1103|44201") ≡ None }
    ensures combined_for_another_pollutant { refusal one_of_each (codes "XB|D|06|037|1103|88101") ≡ Some NotThere }
    ensures concurrence_again { refusal one_of_each (codes "XC|U|21|N") ≡ None }
    ensures concurrence_of_another_number { refusal one_of_each (codes "XC|U|22|N") ≡ Some UnknownEvent }
    ensures season_where_only_a_monitor_stands { refusal one_monitor (codes "XO|I|06|037|1103|2024|20240301|20241031") ≡ None }
    ensures season_of_particles { refusal one_sample (codes "XO|I|06|037|1103|2024|20240301|20241031") ≡ Some UnknownMonitor }
    ensures approved_of_particles { refusal one_sample (codes "XA|I|06|037|1103|20240701") ≡ Some UnknownMonitor }
    ensures makeup_of_particles { refusal one_sample (codes "XU|I|06|037|1103|88101|20240107|20240109") ≡ None }
    ensures schedule_of_pm10 { refusal one_sample (codes "XS|I|06|037|1103|81102|20240101|3|20240107") ≡ Some UnknownMonitor }
    ensures event_of_particles { refusal one_monitor (codes "XE|I|7|06|037|1103|88101|20240101|05:00|20240102|06:00|RT") ≡ Some UnknownMonitor }
    ensures event_of_ozone { refusal one_monitor (codes "XE|I|7|06|037|1103|44201|20240101|05:00|20240102|06:00|RT") ≡ None }
    ensures no_primary_of_particles { refusal one_monitor (codes "XP|I|06|037|1103|88101|20240101|0") ≡ Some UnknownMonitor }
    ensures eligibility_of_no_monitor { refusal one_monitor (codes "XM|U|06|037|1103|44201|2|1|N") ≡ Some UnknownMonitor }
    ensures monitors_that_office_lines_need_eligibility { refusal one_of_each (codes "XM|U|06|037|1103|88101|4|7|Y") ≡ None }
    ensures hours_of_a_monitor_of_days { refusal one_of_each (codes "XM|U|06|037|1103|88101|4|1|Y") ≡ Some WrongDuration }
{}

/// Lines that combine sites, against three sites with ozone monitors, and against them with the first
/// two combined. Each site needs a monitor of the parameter. A site is combined once for a parameter,
/// as the first site or as the joined one.
#[tactic(auto, unfolding(crate::specs::Lines::Spellings::site_in, crate::specs::Lines::Spellings::parameter_of, crate::specs::Lines::Spellings::date_in, crate::specs::Lines::OfficeForms::xb_record, crate::specs::Lines::OfficeForms::xb_key, aq_base::specs::Calendar::days_of_years, aq_base::specs::Calendar::days_of_months))]
pub fn combined_sites_and_their_rules()
    ensures combined { refusal three_sites (codes "XB|I|06|037|1103|44201|20240702|06|037|1104") ≡ None }
    ensures same_site { refusal three_sites (codes "XB|I|06|037|1103|44201|20240702|06|037|1103") ≡ Some BadPair }
    ensures unknown_first_site { refusal three_sites (codes "XB|I|06|037|1109|44201|20240702|06|037|1104") ≡ Some UnknownMonitor }
    ensures unknown_joined_site { refusal three_sites (codes "XB|I|06|037|1103|44201|20240702|06|037|1109") ≡ Some UnknownMonitor }
    ensures of_particles { refusal three_sites (codes "XB|I|06|037|1105|88101|20240702|06|037|1103") ≡ Some UnknownMonitor }
    ensures pm10 { refusal three_sites (codes "XB|I|06|037|1103|81102|20240702|06|037|1104") ≡ Some ParameterOutOfProfile }
    ensures again { refusal two_combined (codes "XB|I|06|037|1103|44201|20240801|06|037|1105") ≡ Some AlreadyThere }
    ensures unknown_before_again { refusal two_combined (codes "XB|I|06|037|1103|44201|20240801|06|037|1109") ≡ Some UnknownMonitor }
    ensures the_other_way { refusal two_combined (codes "XB|I|06|037|1104|44201|20240702|06|037|1103") ≡ Some PairTaken }
    ensures first_site_joined { refusal two_combined (codes "XB|I|06|037|1105|44201|20240702|06|037|1103") ≡ Some PairTaken }
    ensures joined_site_joined { refusal two_combined (codes "XB|I|06|037|1105|44201|20240702|06|037|1104") ≡ Some PairTaken }
    ensures joined_site_first { refusal two_combined (codes "XB|I|06|037|1104|44201|20240702|06|037|1105") ≡ Some PairTaken }
    ensures deleted { refusal two_combined (codes "XB|D|06|037|1103|44201") ≡ None }
    ensures deleted_of_particles { refusal two_combined (codes "XB|D|06|037|1103|88101") ≡ Some NotThere }
    ensures deleted_by_joined_site { refusal two_combined (codes "XB|D|06|037|1104|44201") ≡ Some NotThere }
    ensures deleted_where_none_stands { refusal three_sites (codes "XB|D|06|037|1103|44201") ≡ Some NotThere }
{}

/// Office lines, against lists that are full and lists with room for one more.
#[tactic(auto, unfolding(crate::specs::Lines::Spellings::site_in, crate::specs::Lines::Spellings::parameter_of, crate::specs::Lines::Spellings::date_in, crate::specs::Lines::Spellings::time_in, crate::specs::Lines::Spellings::interval_in, crate::specs::Lines::Spellings::event_number_in, crate::specs::Lines::Spellings::event_code_in, crate::specs::Lines::RdForm::monitor_in, crate::specs::Lines::OfficeForms::xm_record, crate::specs::Lines::OfficeForms::xp_record, crate::specs::Lines::OfficeForms::xs_record, crate::specs::Lines::OfficeForms::xu_record, crate::specs::Lines::OfficeForms::xe_record, aq_base::specs::Calendar::days_of_years, aq_base::specs::Calendar::days_of_months, aq_base::specs::Calendar::year_of, aq_base::specs::Calendar::month_of))]
pub fn full_lists()
    ensures sites { refusal (many_sites 256) (codes "XM|I|06|037|1103|44201|1|1|Y") ≡ Some SitesFull }
    ensures known_site { refusal (many_sites 256) (codes "XM|I|99|001|0256|44201|2|1|Y") ≡ None }
    ensures room_for_site { refusal (many_sites 255) (codes "XM|I|06|037|1103|44201|1|1|Y") ≡ None }
    ensures monitors { refusal (many_monitors 8) (codes "XM|I|06|037|1103|44201|9|1|Y") ≡ Some MonitorsFull }
    ensures room_for_another_pollutant { refusal (many_monitors 8) (codes "XM|I|06|037|1103|88101|9|1|Y") ≡ None }
    ensures room_for_monitor { refusal (many_monitors 7) (codes "XM|I|06|037|1103|44201|9|1|Y") ≡ None }
    ensures room_for_makeup { refusal (many_makeups 4) (codes "XU|I|06|037|1103|88101|20240201|20240202") ≡ None }
    ensures makeups { refusal (many_makeups 5) (codes "XU|I|06|037|1103|88101|20240201|20240202") ≡ Some MakeupsFull }
    ensures next_quarter { refusal (many_makeups 5) (codes "XU|I|06|037|1103|88101|20240401|20240402") ≡ None }
    ensures makeup_taken { refusal (many_makeups 5) (codes "XU|I|06|037|1103|88101|20240107|20240108") ≡ Some AlreadyThere }
    ensures primaries { refusal (many_primaries 64) (codes "XP|I|06|037|1103|44201|20240101|1") ≡ Some ListFull }
    ensures events { refusal (many_events 10000) (codes "XE|I|10001|06|037|1103|44201|20240101|00:00|20240101|05:00|RT") ≡ Some EventsFull }
    ensures room_for_event { refusal (many_events 9999) (codes "XE|I|10001|06|037|1103|44201|20240101|00:00|20240101|05:00|RT") ≡ None }
    ensures room_for_primary { refusal (many_primaries 63) (codes "XP|I|06|037|1103|44201|20240101|1") ≡ None }
    ensures schedules { refusal (many_schedules 64) (codes "XS|I|06|037|1103|88101|20240101|3|20240101") ≡ Some ListFull }
    ensures room_for_schedule { refusal (many_schedules 63) (codes "XS|I|06|037|1103|88101|20240101|3|20240101") ≡ None }
{}

/// The rule of a value is the least one of those that it meets and that it breaks in the office.
pub fn the_least_office_rule_is_named()
    ensures rule { (office : Office) (value : LineValue) (rule : Rule) → broken office value ≡ Some rule → IsLeastBroken (λ r. breaks_office r office value) (office_rules value) rule }
    ensures none { (office : Office) (value : LineValue) → broken office value ≡ None → All (λ r. breaks_office r office value ≡ false) (office_rules value) }
{}

/// A new sample of a registered monitor is refused if 4,000,000 observations stand, and taken if fewer
/// do.
pub fn observations_are_full()
    ensures full { (office : Office) (monitor : MonitorId) (duration : Duration) (hour : ℕ) (content : Observation) → duration_at office monitor ≡ Some duration → IsFalse (sample_stands office monitor hour) → length office.observations ≡ 4000000 → broken office (OfRd (Put false monitor duration hour content)) ≡ Some ObservationsFull }
    ensures room { (office : Office) (monitor : MonitorId) (duration : Duration) (hour : ℕ) (content : Observation) → duration_at office monitor ≡ Some duration → IsFalse (sample_stands office monitor hour) → length office.observations < 4000000 → broken office (OfRd (Put false monitor duration hour content)) ≡ None }
{}
