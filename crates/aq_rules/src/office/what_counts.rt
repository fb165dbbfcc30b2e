//! Whose values count, and what an exclusion takes along, worked out for hours and days.

ghost use Rattle.std.specs.Prelude.{◌≡◌, ◌+◌, true, false, ◌∷◌, [], Some, None, pos, neg_ℤ};
ghost use Rattle.aq_base.specs.declared.monitor.Pollutant.TheVariants.{Ozone, Pm25, Pm10};
ghost use Rattle.aq_rules.specs.Ozone.SiteHour.{mean_of, site_hour};
ghost use Rattle.aq_rules.specs.Ozone.EightHour.{average};
ghost use Rattle.aq_rules.specs.Particles.ParticleDay.{site_day};
ghost use Rattle.aq_rules.specs.Office.OfficeExamples.{west, east, noon, plain_day, festive_day, smoke, fireworks, watched, designated, measured, missed, sampled, festive_hours};

/// A monitor that is not eligible gives no hour and no day, beside others or alone, though another
/// site's or pollutant's monitor with its POC does. One excluded hour of two monitors excludes their
/// mean, one excluded hour of eighteen the day of its monitor, and that day the mean of the monitors'
/// days. The values stay what they are. If the primary has a value it is the site's, excluded or
/// not, whatever the others are. Where it has none, or a null code, theirs count.
#[tactic(auto, unfolding(crate::specs::Office::Monitors::is_eligible, crate::specs::Office::Exclusion::excluded, crate::specs::Office::Designation::primary_on, crate::specs::Ozone::SiteHour::site_hour, crate::specs::Particles::ParticleDay::eligible_pocs, crate::specs::Particles::ParticleDay::monitor_day, crate::specs::Particles::ParticleDay::site_day, aq_base::specs::Calendar::days_of_years, aq_base::specs::Calendar::days_of_months))]
pub fn what_counts_for_a_site()
    ensures hour { site_hour (watched (measured west Ozone 1 40 [] noon ∷ measured west Ozone 2 90 [] noon ∷ measured west Ozone 3 43 [] noon ∷ [])) west noon ≡ Some (record { value = pos 41; excluded = false }) }
    ensures no_hour { site_hour (watched (measured west Ozone 2 90 [] noon ∷ [])) west noon ≡ None }
    ensures hour_elsewhere { site_hour (watched (measured west Ozone 2 90 [] noon ∷ measured east Ozone 2 61 [] noon ∷ [])) east noon ≡ Some (record { value = pos 61; excluded = false }) }
    ensures fine_day { site_day (watched (sampled west Pm25 2 300 plain_day ∷ sampled west Pm25 4 123 plain_day ∷ [])) west Pm25 plain_day ≡ Some (record { value = pos 123; excluded = false }) }
    ensures no_fine_day { site_day (watched (sampled west Pm25 2 300 plain_day ∷ [])) west Pm25 plain_day ≡ None }
    ensures fine_day_elsewhere { site_day (watched (sampled west Pm25 2 300 plain_day ∷ sampled east Pm25 2 87 plain_day ∷ [])) east Pm25 plain_day ≡ Some (record { value = pos 87; excluded = false }) }
    ensures coarse_day { site_day (watched (sampled west Pm10 1 500 plain_day ∷ sampled west Pm10 3 210 plain_day ∷ [])) west Pm10 plain_day ≡ Some (record { value = pos 210; excluded = false }) }
    ensures no_coarse_day { site_day (watched (sampled west Pm10 1 500 plain_day ∷ [])) west Pm10 plain_day ≡ None }
    ensures one_excluded_value_excludes_the_mean_hour { site_hour (watched (measured west Ozone 1 40 (smoke ∷ []) noon ∷ measured west Ozone 3 43 [] noon ∷ [])) west noon ≡ Some (record { value = pos 41; excluded = true }) }
    ensures other_hour { site_hour (watched (measured west Ozone 1 40 [] noon ∷ measured west Ozone 3 43 (smoke ∷ []) noon ∷ [])) west noon ≡ Some (record { value = pos 41; excluded = true }) }
    ensures plain_hour { site_hour (watched (measured west Ozone 1 40 (smoke ∷ []) (noon + 3) ∷ measured west Ozone 3 43 [] (noon + 3) ∷ [])) west (noon + 3) ≡ Some (record { value = pos 41; excluded = false }) }
    ensures day { site_day (watched (festive_hours (fireworks ∷ []))) west Pm25 festive_day ≡ Some (record { value = pos 141; excluded = true }) }
    ensures plain { site_day (watched (festive_hours [])) west Pm25 festive_day ≡ Some (record { value = pos 141; excluded = false }) }
    ensures days { site_day (watched (sampled west Pm25 4 120 festive_day ∷ festive_hours (fireworks ∷ []))) west Pm25 festive_day ≡ Some (record { value = pos 130; excluded = true }) }
    ensures excluded { site_hour (designated (measured west Ozone 1 40 [] noon ∷ measured west Ozone 3 43 (smoke ∷ []) noon ∷ [])) west noon ≡ Some (record { value = pos 43; excluded = true }) }
    ensures beside_excluded { site_hour (designated (measured west Ozone 1 40 (smoke ∷ []) noon ∷ measured west Ozone 3 43 [] noon ∷ [])) west noon ≡ Some (record { value = pos 43; excluded = false }) }
    ensures null { site_hour (designated (measured west Ozone 1 40 [] noon ∷ missed west Ozone 3 noon ∷ [])) west noon ≡ Some (record { value = pos 40; excluded = false }) }
    ensures all_null { site_hour (designated (missed west Ozone 1 noon ∷ missed west Ozone 3 noon ∷ [])) west noon ≡ None }
    ensures primary_stands_with_its_own_exclusion_day { site_day (designated (sampled west Pm25 4 120 festive_day ∷ festive_hours (fireworks ∷ []))) west Pm25 festive_day ≡ Some (record { value = pos 141; excluded = true }) }
    ensures day_of_another { site_day (designated (sampled west Pm25 4 120 festive_day ∷ [])) west Pm25 festive_day ≡ Some (record { value = pos 120; excluded = false }) }
{}

/// A mean below zero is cut toward zero.
pub fn negative_means_are_cut_toward_zero()
    ensures two { mean_of (record { poc = 1; cell = record { value = neg_ℤ (pos 3); excluded = false } } ∷ record { poc = 3; cell = record { value = pos 0; excluded = false } } ∷ []) ≡ Some (record { value = neg_ℤ (pos 1); excluded = false }) }
    ensures average { average 8 (neg_ℤ (pos 15)) ≡ Some (neg_ℤ (pos 1)) }
{}
