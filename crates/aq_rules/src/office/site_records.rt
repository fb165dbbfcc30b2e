//! Records count for their own site, pollutant, day and year alone, worked out.

ghost use Rattle.std.specs.Prelude.{◌≡◌, true, false, ◌∷◌, [], codes, Some, None};
ghost use Rattle.aq_base.specs.declared.monitor.Pollutant.TheVariants.{Ozone, Pm25, Pm10};
ghost use Rattle.aq_base.specs.declared.office.OfficeRecord.TheVariants.{Approved, Primary, Schedule, Season as SeasonRecord};
ghost use Rattle.aq_base.specs.declared.rule.Rule.TheVariants.{BadSeason};
ghost use Rattle.aq_rules.specs.Lines.Reading.{reading_rule};
ghost use Rattle.aq_rules.specs.Office.Approval.{is_approved};
ghost use Rattle.aq_rules.specs.Office.Designation.{primary_on};
ghost use Rattle.aq_rules.specs.Office.Schedule.{is_scheduled};
ghost use Rattle.aq_rules.specs.Office.Season.{season_of};
ghost use Rattle.aq_rules.specs.Office.OfficeExamples.{east, west};

/// An approval is of one day of one site. A designation of PM2.5 or of another site makes no primary of
/// ozone. A schedule of PM10 or of another site asks for no sample of PM2.5. The schedule that began
/// last counts, whichever anchor is later. A season is of one year of one site, and lies in that year.
#[tactic(auto, unfolding(crate::specs::Office::Approval::is_approved, crate::specs::Office::Designation::primary_on, crate::specs::Office::Schedule::is_scheduled, crate::specs::Office::Season::season_of, crate::specs::Lines::Spellings::site_in, crate::specs::Lines::Spellings::year_in, crate::specs::Lines::Spellings::date_in, aq_base::specs::Calendar::year_of, aq_base::specs::Calendar::days_of_years, aq_base::specs::Calendar::days_of_months))]
pub fn records_are_of_their_own_site()
    ensures day { is_approved (Approved west 12600 ∷ []) west 12600 ≡ true }
    ensures next_day { is_approved (Approved west 12600 ∷ []) west 12601 ≡ false }
    ensures day_before { is_approved (Approved west 12600 ∷ []) west 12599 ≡ false }
    ensures other_site { is_approved (Approved west 12600 ∷ []) east 12600 ≡ false }
    ensures pollutant { primary_on (Primary west Pm25 50 1 ∷ []) west Ozone 60 ≡ None }
    ensures site { primary_on (Primary east Ozone 50 1 ∷ []) west Ozone 60 ≡ None }
    ensures among_others { primary_on (Primary west Ozone 50 2 ∷ Primary west Pm25 55 4 ∷ Primary east Ozone 55 3 ∷ []) west Ozone 60 ≡ Some 2 }
    ensures schedule_is_of_its_site_and_pollutant_pollutant { is_scheduled (Schedule west Pm10 10 3 20 ∷ []) west Pm25 20 ≡ false }
    ensures schedule_is_of_its_site_and_pollutant_site { is_scheduled (Schedule east Pm25 10 3 20 ∷ []) west Pm25 20 ≡ false }
    ensures before_the_second { is_scheduled (Schedule west Pm25 10 3 20 ∷ Schedule west Pm25 50 6 0 ∷ []) west Pm25 47 ≡ true }
    ensures second { is_scheduled (Schedule west Pm25 10 3 20 ∷ Schedule west Pm25 50 6 0 ∷ []) west Pm25 60 ≡ true }
    ensures not_by_the_first { is_scheduled (Schedule west Pm25 10 3 20 ∷ Schedule west Pm25 50 6 0 ∷ []) west Pm25 62 ≡ false }
    ensures season_is_of_its_site_and_year_site { season_of (SeasonRecord east 2000 3712 3956 ∷ []) west 2000 ≡ record { first = 3652; last = 4017 } }
    ensures year { season_of (SeasonRecord west 2000 3712 3956 ∷ SeasonRecord west 2001 4082 4292 ∷ []) west 2001 ≡ record { first = 4082; last = 4292 } }
    ensures begins_before { reading_rule (codes "XO|I|06|037|1103|2024|20231101|20240430") ≡ Some BadSeason }
    ensures ends_behind { reading_rule (codes "XO|I|06|037|1103|2024|20240501|20250430") ≡ Some BadSeason }
    ensures whole_year { reading_rule (codes "XO|I|06|037|1103|2024|20240101|20241231") ≡ None }
{}
