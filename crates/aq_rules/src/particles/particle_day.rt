//! The PM2.5 and PM10 values of a day, worked out.
#![tactic(auto)]

ghost use Rattle.std.specs.Prelude.{◌≡◌, ℕ, ◌≤◌, true, false, List, ◌∷◌, [], length, filter, IsPermutation, Some, None, pos};
ghost use Rattle.aq_base.specs.declared.monitor.Pollutant.TheVariants.{Pm25, Pm10};
ghost use Rattle.aq_base.specs.Site.{Site};
ghost use Rattle.aq_base.specs.declared.monitor.Pollutant.{Pollutant};
ghost use Rattle.aq_base.specs.declared.observation.ObsKey.{ObsKey};
ghost use Rattle.aq_base.specs.declared.observation.Observation.{Observation};
ghost use Rattle.aq_rules.specs.Office.Office.{Office};
ghost use Rattle.aq_rules.specs.Office.Monitors.{is_same_key};
ghost use Rattle.aq_rules.specs.Ozone.SiteHour.{Sample, mean_of};
ghost use Rattle.aq_rules.specs.Particles.ParticleDay.{mean_or_high_sum, monitor_day, site_day};
ghost use Rattle.aq_rules.specs.Particles.QuarterCounts.{pm25_year};
ghost use Rattle.aq_rules.specs.Particles.Pm10Estimate.{pm10_year};
ghost use Rattle.aq_rules.specs.Ozone.OzoneExamples.{office_of, site};
ghost use Rattle.aq_rules.specs.Particles.ParticleExamples.{hourly, particle_id, particle_sample, primary_of, smoky_evening, smoky_sample, three_samplers, winter_day, with_ineligible};

/// Seventeen hours of PM2.5 with a sum of 852.0 make a day of 35.5, and with 851.9 they make none. Of
/// PM10 they make none at all, and eighteen hours make the day of their mean. One excluded hour of
/// eighteen makes the day an excluded one. A monitor that is not eligible has no day, and neither has
/// one that is not registered. An event takes a 24-hour sample out if it holds hour 00 of the day, and
/// leaves it in if it begins at 01:00. A monitor's own duration decides: of hours its day is their
/// mean, of 24 hours its sample at 00:00. Of PM2.5 the primary's sample counts, and if it has none
/// the truncated mean of the others'. Of PM10 the primary alone counts, and without one the lowest POC
/// alone, whether or not it has a sample.
pub fn days_of_monitors_and_sites()
    ensures high { site_day (hourly Pm25 504 16) site Pm25 winter_day ≡ Some (record { value = pos 355; excluded = false }) }
    ensures lower { site_day (hourly Pm25 503 16) site Pm25 winter_day ≡ None }
    ensures coarse { site_day (hourly Pm10 504 16) site Pm10 winter_day ≡ None }
    ensures eighteen { site_day (hourly Pm10 504 17) site Pm10 winter_day ≡ Some (record { value = pos 501; excluded = false }) }
    ensures fine { site_day (smoky_evening Pm25) site Pm25 winter_day ≡ Some (record { value = pos 105; excluded = true }) }
    ensures one_excluded_hour_excludes_the_day_coarse { site_day (smoky_evening Pm10) site Pm10 winter_day ≡ Some (record { value = pos 105; excluded = true }) }
    ensures event_from_midnight_fine { site_day (smoky_sample Pm25 0) site Pm25 winter_day ≡ Some (record { value = pos 190; excluded = true }) }
    ensures event_from_one_fine { site_day (smoky_sample Pm25 1) site Pm25 winter_day ≡ Some (record { value = pos 190; excluded = false }) }
    ensures event_from_midnight_coarse { site_day (smoky_sample Pm10 0) site Pm10 winter_day ≡ Some (record { value = pos 190; excluded = true }) }
    ensures event_from_one_coarse { site_day (smoky_sample Pm10 1) site Pm10 winter_day ≡ Some (record { value = pos 190; excluded = false }) }
    ensures eligible { monitor_day (with_ineligible Pm25) (particle_id Pm25 3) winter_day ≡ Some (record { value = pos 123; excluded = false }) }
    ensures not_eligible { monitor_day (with_ineligible Pm25) (particle_id Pm25 2) winter_day ≡ None }
    ensures not_registered { monitor_day (office_of [] (particle_sample Pm25 2 120 winter_day ∷ [])) (particle_id Pm25 2) winter_day ≡ None }
    ensures other_monitors_have_no_day_fine { site_day (with_ineligible Pm25) site Pm25 winter_day ≡ Some (record { value = pos 123; excluded = false }) }
    ensures other_monitors_have_no_day_coarse { site_day (with_ineligible Pm10) site Pm10 winter_day ≡ Some (record { value = pos 123; excluded = false }) }
    ensures hours { monitor_day (hourly Pm25 504 17) (particle_id Pm25 1) winter_day ≡ Some (record { value = pos 501; excluded = false }) }
    ensures day { monitor_day (three_samplers Pm25 []) (particle_id Pm25 2) winter_day ≡ Some (record { value = pos 120; excluded = false }) }
    ensures primary { site_day (three_samplers Pm25 (primary_of Pm25 3 ∷ [])) site Pm25 winter_day ≡ Some (record { value = pos 123; excluded = false }) }
    ensures others { site_day (three_samplers Pm25 (primary_of Pm25 1 ∷ [])) site Pm25 winter_day ≡ Some (record { value = pos 121; excluded = false }) }
    ensures one_monitor_counts_for_pm10_primary { site_day (three_samplers Pm10 (primary_of Pm10 3 ∷ [])) site Pm10 winter_day ≡ Some (record { value = pos 123; excluded = false }) }
    ensures primary_without { site_day (three_samplers Pm10 (primary_of Pm10 1 ∷ [])) site Pm10 winter_day ≡ None }
    ensures lowest { site_day (three_samplers Pm10 []) site Pm10 winter_day ≡ None }
{}

/// Eighteen hours make a day of PM2.5 of their own mean, whatever their sum.
pub fn eighteen_hours_need_no_high_sum()
    ensures low { mean_or_high_sum 18 (pos 1800) ≡ Some (pos 100) }
    ensures high { mean_or_high_sum 18 (pos 8520) ≡ Some (pos 473) }
    ensures too_few { mean_or_high_sum 17 (pos 1800) ≡ None }
    ensures few_but_high { mean_or_high_sum 17 (pos 8520) ≡ Some (pos 355) }
{}

/// The order of the monitors does not matter to their mean.
pub fn mean_forgets_the_order()
    ensures { (a b : List Sample) → IsPermutation a b → mean_of a ≡ mean_of b }
{}

/// The order of the observations does not matter to a site's day or year, if no two stand at one
/// key.
pub fn particles_forget_the_order()
    ensures day { (a b : Office) (site : Site) (pollutant : Pollutant) (day : ℕ)
        → a.records ≡ b.records
        → IsPermutation a.observations b.observations
        → ((key : ObsKey) → length (filter (λ (e : ObsKey × Observation). is_same_key e.0 key) a.observations) ≤ 1)
        → site_day a site pollutant day ≡ site_day b site pollutant day }
    ensures fine { (a b : Office) (site : Site) (year : ℕ)
        → a.records ≡ b.records
        → IsPermutation a.observations b.observations
        → ((key : ObsKey) → length (filter (λ (e : ObsKey × Observation). is_same_key e.0 key) a.observations) ≤ 1)
        → pm25_year a site year ≡ pm25_year b site year }
    ensures coarse { (a b : Office) (site : Site) (year : ℕ)
        → a.records ≡ b.records
        → IsPermutation a.observations b.observations
        → ((key : ObsKey) → length (filter (λ (e : ObsKey × Observation). is_same_key e.0 key) a.observations) ≤ 1)
        → pm10_year a site year ≡ pm10_year b site year }
{}
