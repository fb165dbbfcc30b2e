//! Sites, monitors, loads, events, flags and months of small offices.
#![tactic(auto)]

ghost use Rattle.std.specs.Prelude.{◌≡◌, ◌+◌, true, false, [], ◌∷◌, ◌++◌, codes, length, map, Some, None, pos};
ghost use Rattle.std.specs.List.{range_with_len};
ghost use Rattle.aq_base.specs.declared.monitor.Duration.TheVariants.{Day, Hour};
ghost use Rattle.aq_base.specs.declared.monitor.Pollutant.TheVariants.{Ozone, Pm25};
ghost use Rattle.aq_rules.specs.Listed.Completeness.{ListedMonth, completeness_sheet, due_hours, listed_months, month_counts, percent};
ghost use Rattle.aq_rules.specs.Listed.Events.{events_answer};
ghost use Rattle.aq_rules.specs.Listed.Flags.{flags_answer};
ghost use Rattle.aq_rules.specs.Listed.ListedExamples.{codes_in_smoke, every_third_day, flag_rows, missed_by_its_event, other_event, outer_codes, smoky_noon, three_slots, two_codes, two_months, unsaid, whole_year, without_event};
ghost use Rattle.aq_rules.specs.Listed.Loads.{loads_answer};
ghost use Rattle.aq_rules.specs.Listed.Monitors.{monitors_answer};
ghost use Rattle.aq_rules.specs.Listed.Places.{days_of_month};
ghost use Rattle.aq_rules.specs.Listed.Sites.{sites_answer};
ghost use Rattle.aq_rules.specs.Office.OfficeExamples.{east, monitor_at, watched, west};
ghost use Rattle.aq_rules.specs.Ozone.OzoneExamples.{afternoon, monitor_id, office_of, registered, site, smoky, summer_day};
ghost use Rattle.aq_rules.specs.Particles.ParticleExamples.{exported, load_of_three_lines, particle_id, sampled_quarter, winter_day};
ghost use Rattle.aq_rules.specs.Shown.Sheet.{text_of};
ghost use Rattle.aq_rules.specs.Shown.ShownExamples.{two_sites};

/// A site is listed with the number of its monitors of each pollutant, and a monitor, eligible or not, with
/// how many of its observations stand, with a value or a null code, and from which day to which. PM2.5 comes
/// before PM10. A load is listed with its lines and its digest.
pub fn sites_monitors_and_loads_are_listed()
    ensures sites { text_of (sites_answer two_sites) ≡ codes "sites 2\nsite ozone pm25 pm10\n06-037-1103 2 1 0\n06-037-1104 1 0 0\n" }
    ensures no_site { text_of (sites_answer (office_of [] [])) ≡ codes "sites 0\nsite ozone pm25 pm10\n" }
    ensures monitors { text_of (monitors_answer two_sites site)
        ≡ codes "site 06-037-1103\nparameter poc duration eligible observations first last\n"
        ++ codes "44201 1 1 Y 1 2024-07-01 2024-07-01\n44201 12 1 Y 1 2024-07-01 2024-07-01\n88101 1 7 Y 1 2024-01-07 2024-01-07\n" }
    ensures order { text_of (monitors_answer (watched []) west)
        ≡ codes "site 06-037-1103\nparameter poc duration eligible observations first last\n"
        ++ codes "44201 1 1 Y 0 - -\n44201 2 1 N 0 - -\n44201 3 1 Y 0 - -\n88101 1 1 Y 0 - -\n88101 2 7 N 0 - -\n88101 4 7 Y 0 - -\n81102 1 7 N 0 - -\n81102 3 7 Y 0 - -\n" }
    ensures null_code { text_of (monitors_answer exported site)
        ≡ codes "site 06-037-1103\nparameter poc duration eligible observations first last\n88101 1 7 Y 2 2024-01-07 2024-01-10\n" }
    ensures no_load { text_of (loads_answer afternoon) ≡ codes "loads 0\nload lines accepted refused digest\n" }
    ensures load { text_of (loads_answer (record afternoon { loads = load_of_three_lines ∷ [] }))
        ≡ codes "loads 1\nload lines accepted refused digest\n7 3 1 2 0909090909090909090909090909090909090909090909090909090909090909\n" }
{}

/// Each hour of 2024 stands: 366 days of 24 hours.
pub fn a_whole_year_of_a_monitor_is_listed()
    ensures { text_of (monitors_answer whole_year site)
        ≡ codes "site 06-037-1103\nparameter poc duration eligible observations first last\n44201 1 1 Y 8784 2024-01-01 2024-12-31\n" }
{}

/// An event is listed with what the Administrator said of it and how many observations of its site and
/// pollutant it flags by its code, with a value or a null code, and those of a monitor that does not count too.
/// One outside its span is none of these. Events of other sites are not listed.
pub fn events_are_listed()
    ensures agreed { text_of (events_answer (smoky true) site)
        ≡ codes "site 06-037-1103\nevent parameter first last code agreed flagged\n1 44201 2024-07-01T12:00 2024-07-01T14:00 RT Y 3\n" }
    ensures denied { text_of (events_answer (smoky false) site)
        ≡ codes "site 06-037-1103\nevent parameter first last code agreed flagged\n1 44201 2024-07-01T12:00 2024-07-01T14:00 RT N 3\n" }
    ensures unsaid { text_of (events_answer unsaid site)
        ≡ codes "site 06-037-1103\nevent parameter first last code agreed flagged\n1 44201 2024-07-01T12:00 2024-07-01T14:00 RT - 3\n" }
    ensures two { text_of (events_answer smoky_noon west)
        ≡ codes "site 06-037-1103\nevent parameter first last code agreed flagged\n"
        ++ codes "7 44201 2024-07-01T12:00 2024-07-01T14:00 RT Y 2\n8 88101 2024-07-04T21:00 2024-07-04T22:00 RF Y 0\n" }
    ensures null_code { text_of (events_answer exported site)
        ≡ codes "site 06-037-1103\nevent parameter first last code agreed flagged\n1 88101 2024-01-07T00:00 2024-01-10T18:00 RT Y 2\n" }
    ensures missed { text_of (events_answer missed_by_its_event site)
        ≡ codes "site 06-037-1103\nevent parameter first last code agreed flagged\n1 88101 2024-01-07T10:00 2024-01-07T22:00 RT Y 0\n" }
    ensures elsewhere { text_of (events_answer smoky_noon east)
        ≡ codes "site 06-037-4004\nevent parameter first last code agreed flagged\n" }
{}

/// Three flagged hours: covered by an event and excluded with a concurrence `Y`, covered alone with `N` or with
/// nothing said, and neither without the event or with one of another code. A sample of 24 hours stands at
/// hour 00, so an event that begins at 10:00 misses it. An hour with two codes has two rows, and one that is
/// excluded under the one is not by the other's row. A null code has its row too. Other codes than RA to RZ
/// have none.
pub fn flags_are_listed()
    ensures agreed { flag_rows (smoky true) Ozone summer_day
        ≡ codes "2024-07-01 RT 3 3 3\n" ∷ [] }
    ensures denied { flag_rows (smoky false) Ozone summer_day
        ≡ codes "2024-07-01 RT 3 3 0\n" ∷ [] }
    ensures unsaid { flag_rows unsaid Ozone summer_day
        ≡ codes "2024-07-01 RT 3 3 0\n" ∷ [] }
    ensures without { flag_rows without_event Ozone summer_day
        ≡ codes "2024-07-01 RT 3 0 0\n" ∷ [] }
    ensures other_code { flag_rows other_event Ozone summer_day
        ≡ codes "2024-07-01 RT 3 0 0\n" ∷ [] }
    ensures missed { flag_rows missed_by_its_event Pm25 winter_day
        ≡ codes "2024-01-07 RT 1 0 0\n" ∷ [] }
    ensures two_codes { flag_rows two_codes Ozone summer_day
        ≡ codes "2024-07-01 RF 1 0 0\n" ∷ codes "2024-07-01 RT 1 0 0\n" ∷ [] }
    ensures by_its_code { flag_rows codes_in_smoke Ozone summer_day ≡ codes "2024-07-01 RF 1 0 0\n" ∷ codes "2024-07-01 RT 1 1 1\n" ∷ [] }
    ensures null_code { flag_rows exported Pm25 (winter_day + 3) ≡ codes "2024-01-10 RT 1 1 1\n" ∷ [] }
    ensures no_flag { flag_rows exported Pm25 winter_day ≡ codes "2024-01-07 RT 1 1 1\n" ∷ [] }
    ensures ends { flag_rows outer_codes Ozone summer_day ≡ codes "2024-07-01 RA 1 0 0\n" ∷ codes "2024-07-01 RZ 1 0 0\n" ∷ [] }
{}

/// Of a year the days and codes that an observation carries have a row each, and no others.
pub fn flags_of_a_year_are_listed()
    ensures this_year { text_of (flags_answer two_codes site Ozone 2024)
        ≡ codes "site 06-037-1103\nparameter 44201\nyear 2024\nday code flagged covered excluded\n2024-07-01 RF 1 0 0\n2024-07-01 RT 1 0 0\n" }
    ensures other_year { text_of (flags_answer two_codes site Ozone 2023)
        ≡ codes "site 06-037-1103\nparameter 44201\nyear 2023\nday code flagged covered excluded\n" }
{}

/// In February 2024 a monitor of hours has 696 due, and in July 744. Of every sixth day from 1 January on,
/// January has 1, 7, 13, 19, 25 and 31; samples stand on 1, 13 and 19, and the one of 9 January is extra. Of
/// every third day January has eleven and February 3, 6, .., 27; a sample of 2 January is extra. An excluded
/// hour is one with a value, and a monitor that does not count is counted like any other. A null code is never
/// extra, nor is a sample of another year's January. No percentage is made of nothing, and half a percent
/// rounds up.
pub fn months_have_their_due_hours()
    ensures leap { length (due_hours afternoon (monitor_id 1) Hour (days_of_month 2024 2)) ≡ 696 }
    ensures every_sixth_day { length (due_hours sampled_quarter (particle_id Pm25 1) Day (days_of_month 2024 1)) ≡ 6 }
    ensures every_third_day { length (due_hours every_third_day (particle_id Pm25 1) Day (days_of_month 2024 1)) ≡ 11 }
    ensures next_month { length (due_hours every_third_day (particle_id Pm25 1) Day (days_of_month 2024 2)) ≡ 9 }
    ensures january { month_counts sampled_quarter (record { id = particle_id Pm25 1; duration = Day; eligible = true }) 2024 1
        ≡ record { due = 6; valued = 3; null = 0; missing = 3; extra = 1 } }
    ensures extra { month_counts every_third_day (record { id = particle_id Pm25 1; duration = Day; eligible = true }) 2024 1
        ≡ record { due = 11; valued = 0; null = 0; missing = 11; extra = 1 } }
    ensures null_code { month_counts exported (record { id = particle_id Pm25 1; duration = Day; eligible = true }) 2024 1
        ≡ record { due = 0; valued = 0; null = 0; missing = 0; extra = 1 } }
    ensures other_year { month_counts sampled_quarter (record { id = particle_id Pm25 1; duration = Day; eligible = true }) 2023 1
        ≡ record { due = 0; valued = 0; null = 0; missing = 0; extra = 0 } }
    ensures july { month_counts three_slots (record { id = monitor_at west Ozone 1; duration = Hour; eligible = true }) 2024 7
        ≡ record { due = 744; valued = 1; null = 1; missing = 742; extra = 0 } }
    ensures ineligible { month_counts three_slots (record { id = monitor_at west Ozone 2; duration = Hour; eligible = false }) 2024 7
        ≡ record { due = 744; valued = 1; null = 0; missing = 743; extra = 0 } }
    ensures none { percent (record { due = 0; valued = 0; null = 0; missing = 0; extra = 3 }) ≡ None }
    ensures half { percent (record { due = 200; valued = 1; null = 0; missing = 199; extra = 0 }) ≡ Some (pos 1) }
    ensures below_half { percent (record { due = 201; valued = 1; null = 0; missing = 200; extra = 0 }) ≡ Some (pos 0) }
{}

/// Each monitor has the twelve months, and each of them a row. Four of eleven are 36 percent.
pub fn months_print()
    ensures order { map (λ (row : ListedMonth). row.month) (listed_months (office_of (registered 1 ∷ registered 2 ∷ []) []) site Ozone 2024)
        ≡ range_with_len 1 12 ++ range_with_len 1 12 }
    ensures rows { text_of (completeness_sheet site Pm25 2024 two_months)
        ≡ codes "site 06-037-1103\nparameter 88101\nyear 2024\npoc month due valued null missing extra percent\n1 3 11 4 2 5 6 36\n7 8 0 0 0 0 1 -\n" }
{}
