//! What a pair of combined sites reads, worked out.
#![tactic(auto)]

ghost use Rattle.std.specs.Prelude.{◌≡◌, ℕ, ◌+◌, ◌≤◌, true, false, List, [], ◌∷◌, ◌++◌, map, replicate, option_map, is_some, Some, None, pos};
ghost use Rattle.aq_base.specs.Calendar.{day_number, hour_number, quarter_number, year_first};
ghost use Rattle.aq_base.specs.Site.{Site};
ghost use Rattle.aq_base.specs.declared.day.TheConstants.{FIRST_YEAR};
ghost use Rattle.aq_base.specs.declared.monitor.Pollutant.TheVariants.{Ozone, Pm10, Pm25};
ghost use Rattle.aq_base.specs.declared.standard.Standard.{Standard};
ghost use Rattle.aq_base.specs.declared.standard.Standard.TheVariants.{Ozone2015, Pm10Of1987};
ghost use Rattle.aq_rules.specs.Standards.{pollutant_of};
ghost use Rattle.aq_rules.specs.Office.Office.{IsOffice, Office};
ghost use Rattle.aq_rules.specs.Office.Monitors.{is_same_pollutant};
ghost use Rattle.aq_rules.specs.Office.OfficeExamples.{east, sampled, smoke, west};
ghost use Rattle.aq_rules.specs.Office.Questions.{Joined, combined};
ghost use Rattle.aq_rules.specs.Ozone.SiteHour.{site_hour};
ghost use Rattle.aq_rules.specs.Ozone.EightHour.{WindowRow};
ghost use Rattle.aq_rules.specs.Ozone.OzoneDay.{windows};
ghost use Rattle.aq_rules.specs.Particles.ParticleDay.{site_day};
ghost use Rattle.aq_rules.specs.Particles.QuarterCounts.{gives_credit};
ghost use Rattle.aq_rules.specs.DesignValues.{design_value};
ghost use Rattle.aq_rules.specs.Combined.Pair.{is_pair_approved, is_pair_scheduled, pair_counts, pair_credits, pair_day, pair_hour, pair_ozone_year, pair_value, pair_windows, would_give_credit};
ghost use Rattle.aq_rules.specs.Combined.PairExamples.{joined_hours, joining_day, last_day, made_up, makes_up, moved, moved_sampler, moved_to_clean_air, not_missed, summer_pair, winter, winter_pair};

/// A site has 0.080 from 07:00 to 06:00 of the day on which another is joined to it, and that one has
/// 0.060 from 00:00 to 06:00. Averages up to 16:00 read no hour of that day; the one of 20:00 is 560 / 8,
/// and the one of 23:00 500 / 8, cut to 0.062. The site alone has 0.080 throughout, and the joined site
/// is no pair. With a concurrence in what the joined site has from 00:00 to 02:00 the net averages that
/// read fewer than six of the other hours are gone: the site's hours do not take their place.
pub fn averages_on_the_day_before_a_site_is_joined()
    ensures full { option_map (λ rows. map (λ (r : WindowRow). r.full) rows) (pair_windows moved_to_clean_air west last_day)
        ≡ Some (replicate 10 (Some (pos 80)) ++ Some (pos 77) ∷ Some (pos 75) ∷ Some (pos 72) ∷ Some (pos 70) ∷ Some (pos 67) ∷ Some (pos 65) ∷ Some (pos 62) ∷ []) }
    ensures site_alone { map (λ (r : WindowRow). r.full) (windows moved_to_clean_air west last_day) ≡ replicate 17 (Some (pos 80)) }
    ensures joined_site { pair_windows moved_to_clean_air east last_day ≡ None }
    ensures net { option_map (λ rows. map (λ (r : WindowRow). r.net) rows) (pair_windows (moved (joined_hours 60 (smoke ∷ []) (hour_number joining_day 0) 3 ++ joined_hours 60 [] (hour_number joining_day 3) 4)) west last_day)
        ≡ Some (replicate 12 (Some (pos 80)) ++ replicate 5 None) }
{}

/// Before the day the joined site's hours are not read. From then on they are, and the site's if
/// there is none. An excluded hour of the joined site is there, and hides the site's. Approved days are
/// the site's before the day, and the joined site's from then on. The season is the site's, of June and
/// July: one of its days is valid by its averages, and another one is approved.
pub fn hours_and_approvals_of_a_pair()
    ensures before { pair_hour (moved (joined_hours 200 [] (hour_number last_day 12) 1)) summer_pair (hour_number last_day 12) ≡ Some (record { value = pos 80; excluded = false }) }
    ensures only_the_sites { pair_hour (moved []) summer_pair (hour_number joining_day 0) ≡ Some (record { value = pos 80; excluded = false }) }
    ensures joined { pair_hour moved_to_clean_air summer_pair (hour_number joining_day 0) ≡ Some (record { value = pos 60; excluded = false }) }
    ensures excluded { pair_hour (moved (joined_hours 60 (smoke ∷ []) (hour_number joining_day 0) 1)) summer_pair (hour_number joining_day 0) ≡ Some (record { value = pos 60; excluded = true }) }
    ensures neither { pair_hour moved_to_clean_air summer_pair (hour_number joining_day 7) ≡ None }
    ensures approved_before { is_pair_approved (moved []) summer_pair last_day ≡ true }
    ensures approved_by_the_joined_site_before { is_pair_approved (moved []) summer_pair (day_number 2024 6 30) ≡ false }
    ensures approved_by_the_site_after { is_pair_approved (moved []) summer_pair joining_day ≡ false }
    ensures approved_after { is_pair_approved (moved []) summer_pair (day_number 2024 7 3) ≡ true }
    ensures year { pair_ozone_year moved_to_clean_air summer_pair 2024 ≡ record { season_days = 61; season_valid = 2; ranked = 1; fourth = None } }
{}

/// A site is scheduled each sixth day from 1 January on, and the site joined to it from 15 January on
/// each third one. So of the pair the 1st, 7th and 13th are scheduled, and each third day from the 16th
/// on: 29 of the quarter. So a sample of the 17th makes up for the 13th at the site alone, and not in the
/// pair. The joined site's sample of the 20th makes up for the 13th, a week before, of
/// the site; then it does not make up for the 19th of the joined site. If the 13th has a sample, its
/// make-up gives no credit, and takes none from that of the 19th. Make-ups of the site from the 15th on
/// and of the joined site before it are not read.
pub fn schedules_and_makeups_of_a_pair()
    ensures joined_sites_before { is_pair_scheduled made_up winter_pair (winter 4) ≡ false }
    ensures sites_before { is_pair_scheduled made_up winter_pair (winter 7) ≡ true }
    ensures joined_sites_after { is_pair_scheduled made_up winter_pair (winter 22) ≡ true }
    ensures sites_day { pair_day made_up winter_pair (winter 8) ≡ Some (record { value = pos 100; excluded = false }) }
    ensures joined_day { pair_day made_up winter_pair (winter 20) ≡ Some (record { value = pos 110; excluded = false }) }
    ensures only_the_sites { pair_day made_up winter_pair (winter 26) ≡ Some (record { value = pos 100; excluded = false }) }
    ensures credit_by_the_sites_schedule { gives_credit (moved_sampler (sampled west Pm25 1 100 (winter 17) ∷ [])) west (makes_up 13 17) ≡ true }
    ensures no_credit_by_the_pairs { would_give_credit (moved_sampler (sampled west Pm25 1 100 (winter 17) ∷ [])) winter_pair (makes_up 13 17) ≡ false }
    ensures no_credit_of_the_site_alone { gives_credit made_up west (makes_up 13 20) ≡ false }
    ensures earlier { pair_credits made_up winter_pair (quarter_number 2024 0) ≡ makes_up 13 20 ∷ [] }
    ensures takes_none { pair_credits not_missed winter_pair (quarter_number 2024 0) ≡ makes_up 19 20 ∷ [] }
    ensures counts { pair_counts made_up winter_pair (quarter_number 2024 0) ≡ record { scheduled = 29; creditable = 1; counted = 1 } }
    ensures counts_not_missed { pair_counts not_missed winter_pair (quarter_number 2024 0) ≡ record { scheduled = 29; creditable = 2; counted = 2 } }
{}

/// There are averages of a pair if the site is the first of a combination for ozone, and a design
/// value if it is of one for the standard's pollutant. There is no pair for PM10.
pub fn pairs_are_where_sites_are_combined()
    ensures averages { (office : Office) (site : Site) (day : ℕ)
        → is_some (pair_windows office site day) ≡ is_some (combined office.records site Ozone) }
    ensures values { (standard : Standard) (office : Office) (site : Site) (year : ℕ) → is_same_pollutant (pollutant_of standard) Pm10 ≡ false
        → is_some (pair_value standard office site year) ≡ is_some (combined office.records site (pollutant_of standard)) }
    ensures pm10 { (office : Office) (site : Site) (year : ℕ) → pair_value Pm10Of1987 office site year ≡ None }
{}

/// Without a value of the joined site, and joined only after the last of the three years, the pair's
/// design value is the site's. For PM2.5 this needs a valid office, in which a make-up day lies in the
/// quarter of its missed day.
pub fn a_joined_site_without_values_changes_nothing()
    ensures averages { (office : Office) (site : Site) (day : ℕ) (joined : Joined)
        → combined office.records site Ozone ≡ Some joined → ((hour : ℕ) → site_hour office joined.site hour ≡ None)
        → pair_windows office site day ≡ Some (windows office site day) }
    ensures ozone { (office : Office) (site : Site) (year : ℕ) (joined : Joined)
        → combined office.records site Ozone ≡ Some joined → ((hour : ℕ) → site_hour office joined.site hour ≡ None)
        → FIRST_YEAR + 2 ≤ year → year_first (year + 1) ≤ joined.from
        → pair_value Ozone2015 office site year ≡ Some (design_value Ozone2015 office site year) }
    ensures pm25 { (standard : Standard) (office : Office) (site : Site) (year : ℕ) (joined : Joined)
        → is_same_pollutant (pollutant_of standard) Pm25 ≡ true → IsOffice office
        → combined office.records site Pm25 ≡ Some joined → ((day : ℕ) → site_day office joined.site Pm25 day ≡ None)
        → FIRST_YEAR + 2 ≤ year → year_first (year + 1) ≤ joined.from
        → pair_value standard office site year ≡ Some (design_value standard office site year) }
{}
