//! The days behind a number, worked out on small offices.
#![tactic(auto)]

ghost use Rattle.std.specs.Prelude.{◌≡◌, ℕ, ◌+◌, ◌-◌, ◌*◌, true, false, [], ◌∷◌, ◌++◌, codes, length, map, Some, None, pos};
ghost use Rattle.std.specs.List.{range_with_len};
ghost use Rattle.aq_base.specs.Calendar.{day_number};
ghost use Rattle.aq_base.specs.Site.{Site};
ghost use Rattle.aq_base.specs.declared.monitor.Pollutant.TheVariants.{Ozone, Pm10, Pm25};
ghost use Rattle.aq_rules.specs.Office.Office.{Office};
ghost use Rattle.aq_rules.specs.Listed.Daily.{daily_answer, is_credited, pm10_day, pm10_day_cells, pm10_days_sheet, pm25_day, pm25_days_sheet, stratum_place};
ghost use Rattle.aq_rules.specs.Listed.Highest.{days_ranked, first_at, highest_answer, highest_of, ranked_day};
ghost use Rattle.aq_rules.specs.Listed.ListedExamples.{every_third_day, fifty_days, made_up_on, new_year_besides};
ghost use Rattle.aq_rules.specs.Ozone.OzoneExamples.{four_peaks, site, smoky, summer_day};
ghost use Rattle.aq_rules.specs.Particles.ParticleExamples.{mixed_days, particle_sample, sampled_quarter, with_exceedance};
ghost use Rattle.aq_rules.specs.Shown.Sheet.{row_text, text_of};
ghost use Rattle.aq_rules.specs.Shown.Sheets.{days_answer};

/// Of ozone the days are its days sheet, and of the particles each day of the year has a row.
pub fn a_year_has_its_days()
    ensures ozone { (office : Office) (at : Site) (year : ℕ) → daily_answer office at Ozone year ≡ days_answer office at year }
    ensures fine { (office : Office) (at : Site) → length (daily_answer office at Pm25 2024).rows ≡ 366 }
    ensures coarse { (office : Office) (at : Site) → length (daily_answer office at Pm10 2023).rows ≡ 365 }
{}

/// The sample of 9 January makes up for the missed 7 January: it has credit, and is not scheduled. That of
/// 19 January is scheduled and excluded. On 7 January there is none. A sample of 9, 12 or 14 January makes
/// up for it; the 13th is scheduled, and makes up for none.
pub fn days_of_fine_particles_say_what_they_count_for()
    ensures sheet { text_of (pm25_days_sheet site 2024 (map (λ day. pm25_day sampled_quarter site (day_number 2024 1 day)) (7 ∷ 9 ∷ 13 ∷ 19 ∷ [])))
        ≡ codes "site 06-037-1103\nparameter 88101\nyear 2024\nday scheduled value excluded credit\n"
        ++ codes "2024-01-07 Y - - N\n2024-01-09 N 10.0 N Y\n2024-01-13 Y 10.0 N N\n2024-01-19 Y 10.0 Y N\n" }
    ensures in_turn { map (λ day. is_credited (made_up_on day) site (day_number 2024 1 day)) (9 ∷ 12 ∷ 13 ∷ 14 ∷ []) ≡ true ∷ true ∷ false ∷ true ∷ [] }
    ensures others { map (λ day. is_credited (made_up_on 12) site (day_number 2024 1 day)) (7 ∷ 9 ∷ 13 ∷ 14 ∷ []) ≡ false ∷ false ∷ false ∷ false ∷ [] }
{}

/// Every sixth day from 1 July is scheduled, so the strata of the quarter are 16. That of the exceeding 1 July
/// has a second sample on the 3rd. A day of 155.0 exceeds, one of 154.9 does not, and an excluded one exceeds
/// by itself.
pub fn days_of_coarse_particles_name_their_stratum()
    ensures places { map (λ k. stratum_place (with_exceedance []) site (day_number 2023 7 1 + 6 * k)) (range_with_len 0 16) ≡ range_with_len 1 16 }
    ensures first { map (λ day. row_text (pm10_day_cells (pm10_day (with_exceedance (particle_sample Pm10 1 400 (day_number 2023 7 3) ∷ [])) site (day_number 2023 7 day)))) (1 ∷ 2 ∷ 3 ∷ 6 ∷ 7 ∷ [])
        ≡ codes "2023-07-01 Y 1 155.0 N Y\n" ∷ codes "2023-07-02 N 1 - - -\n" ∷ codes "2023-07-03 N 1 40.0 N N\n" ∷ codes "2023-07-06 N 1 - - -\n" ∷ codes "2023-07-07 Y 2 40.0 N N\n" ∷ [] }
    ensures sheet { text_of (pm10_days_sheet site 2023 (map (λ day. pm10_day mixed_days site (day_number 2023 7 day)) (3 ∷ 13 ∷ 19 ∷ [])))
        ≡ codes "site 06-037-1103\nparameter 81102\nyear 2023\nday scheduled stratum value excluded exceeds\n"
        ++ codes "2023-07-03 N 1 160.0 N Y\n2023-07-13 Y 3 154.9 N N\n2023-07-19 Y 4 180.0 Y Y\n" }
    ensures last { stratum_place mixed_days site (day_number 2023 9 30) ≡ 16 }
{}

/// The maximum of the smoky day is ranked: it comes from 07:00 with eight hours, and with the event concurred
/// in from 13:00 with six. The day before has two averages, at 22:00 and 23:00. It is not valid, and so it is
/// not ranked. Of two days with one value the earlier stands first.
pub fn highest_days_have_their_start()
    ensures day { ranked_day (smoky false) site Ozone summer_day ≡ Some (record { day = summer_day; value = pos 75 }) }
    ensures net_day { ranked_day (smoky true) site Ozone summer_day ≡ Some (record { day = summer_day; value = pos 60 }) }
    ensures day_before { map (λ agreed. ranked_day (smoky agreed) site Ozone (summer_day - 1)) (false ∷ true ∷ []) ≡ None ∷ None ∷ [] }
    ensures whole { text_of (highest_of (smoky false) site Ozone 2024 (record { day = summer_day; value = pos 75 } ∷ []))
        ≡ codes "site 06-037-1103\nparameter 44201\nyear 2024\nranked 1\ndecides 4\nrank day value hour hours\n1 2024-07-01 0.075 07:00 8\n" }
    ensures net { text_of (highest_of (smoky true) site Ozone 2024 (record { day = summer_day; value = pos 60 } ∷ []))
        ≡ codes "site 06-037-1103\nparameter 44201\nyear 2024\nranked 1\ndecides 4\nrank day value hour hours\n1 2024-07-01 0.060 13:00 6\n" }
    ensures no_start { first_at (smoky true) site summer_day (pos 75) ≡ None }
    ensures ties { days_ranked (record { day = 1; value = pos 60 } ∷ record { day = 2; value = pos 75 } ∷ record { day = 3; value = pos 60 } ∷ record { day = 4; value = pos 61 } ∷ [])
        ≡ record { day = 2; value = pos 75 } ∷ record { day = 4; value = pos 61 } ∷ record { day = 1; value = pos 60 } ∷ record { day = 3; value = pos 60 } ∷ [] }
{}

/// Four days of one hour at noon, of eight times their maximum: each is ranked, and starts at 07:00. No day of
/// another year is.
pub fn highest_days_of_an_ozone_year()
    ensures year { text_of (highest_answer four_peaks site Ozone 2024)
        ≡ codes "site 06-037-1103\nparameter 44201\nyear 2024\nranked 4\ndecides 4\nrank day value hour hours\n"
        ++ codes "1 2024-06-02 0.075 07:00 1\n2 2024-07-01 0.073 07:00 1\n3 2024-12-31 0.072 07:00 1\n4 2024-06-01 0.071 07:00 1\n" }
    ensures year_before { text_of (highest_answer four_peaks site Ozone 2023)
        ≡ codes "site 06-037-1103\nparameter 44201\nyear 2023\nranked 0\ndecides 4\nrank day value hour hours\n" }
{}

/// Fifty counted samples are decided by the first, and 51 by the second. At most ten days are listed, the
/// earliest of equal ones. A sample of a day that is not scheduled is ranked, and is not counted: beside fifty
/// counted ones it leaves the decision with the first, and alone it leaves none.
pub fn highest_days_of_a_year_of_fine_particles()
    ensures fifty { text_of (highest_answer (fifty_days 0) site Pm25 2024)
        ≡ codes "site 06-037-1103\nparameter 88101\nyear 2024\nranked 50\ndecides 1\nrank day value\n"
        ++ codes "1 2024-02-19 30.0\n2 2024-02-18 20.0\n3 2024-01-01 10.0\n4 2024-01-02 10.0\n5 2024-01-03 10.0\n"
        ++ codes "6 2024-01-04 10.0\n7 2024-01-05 10.0\n8 2024-01-06 10.0\n9 2024-01-07 10.0\n10 2024-01-08 10.0\n" }
    ensures one_more { text_of (highest_answer (fifty_days 1) site Pm25 2024)
        ≡ codes "site 06-037-1103\nparameter 88101\nyear 2024\nranked 51\ndecides 2\nrank day value\n"
        ++ codes "1 2024-02-19 30.0\n2 2024-02-18 20.0\n3 2024-01-01 10.0\n4 2024-01-02 10.0\n5 2024-01-03 10.0\n"
        ++ codes "6 2024-01-04 10.0\n7 2024-01-05 10.0\n8 2024-01-06 10.0\n9 2024-01-07 10.0\n10 2024-01-08 10.0\n" }
    ensures one_besides { text_of (highest_answer new_year_besides site Pm25 2024)
        ≡ codes "site 06-037-1103\nparameter 88101\nyear 2024\nranked 51\ndecides 1\nrank day value\n"
        ++ codes "1 2024-01-01 30.0\n2 2024-02-20 20.0\n3 2024-01-02 10.0\n4 2024-01-03 10.0\n5 2024-01-04 10.0\n"
        ++ codes "6 2024-01-05 10.0\n7 2024-01-06 10.0\n8 2024-01-07 10.0\n9 2024-01-08 10.0\n10 2024-01-09 10.0\n" }
    ensures none_counted { text_of (highest_answer every_third_day site Pm25 2024)
        ≡ codes "site 06-037-1103\nparameter 88101\nyear 2024\nranked 1\ndecides -\nrank day value\n1 2024-01-02 10.0\n" }
    ensures no_sample { text_of (highest_answer (fifty_days 0) site Pm25 2023)
        ≡ codes "site 06-037-1103\nparameter 88101\nyear 2023\nranked 0\ndecides -\nrank day value\n" }
{}

/// No rank decides about PM10, and excluded days are not ranked.
pub fn highest_days_of_a_year_of_coarse_particles()
    ensures { text_of (highest_answer mixed_days site Pm10 2023)
        ≡ codes "site 06-037-1103\nparameter 81102\nyear 2023\nranked 7\ndecides -\nrank day value\n"
        ++ codes "1 2023-07-14 170.0\n2 2023-07-03 160.0\n3 2023-07-01 155.0\n4 2023-07-13 154.9\n5 2023-08-01 42.0\n6 2023-07-31 41.0\n7 2023-07-07 40.0\n" }
{}
