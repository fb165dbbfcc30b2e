//! The site's value for an hour, worked out.
#![tactic(auto)]

ghost use Rattle.std.specs.Prelude.{◌≡◌, ℕ, ◌≤◌, false, ◌∷◌, [], length, filter, IsPermutation, Some, pos};
ghost use Rattle.aq_base.specs.Site.{Site};
ghost use Rattle.aq_base.specs.declared.observation.ObsKey.{ObsKey};
ghost use Rattle.aq_base.specs.declared.observation.Observation.{Observation};
ghost use Rattle.aq_base.specs.Calendar.{hour_number};
ghost use Rattle.aq_rules.specs.Office.Office.{Office};
ghost use Rattle.aq_rules.specs.Office.Monitors.{is_same_key};
ghost use Rattle.aq_rules.specs.Ozone.SiteHour.{is_ozone_at, site_hour};
ghost use Rattle.aq_rules.specs.Ozone.OzoneExamples.{site, summer_day, three_monitors, secondaries, reading, office_of};

/// Without the primary's value the mean of the other two monitors is taken, truncated. With the
/// primary's value it alone is taken.
pub fn hours_of_two_monitors()
    ensures secondaries_are_averaged { site_hour (office_of three_monitors secondaries) site (hour_number summer_day 12)
        ≡ Some (record { value = pos 42; excluded = false }) }
    ensures primary_stands_alone { site_hour (office_of three_monitors (reading 1 50 [] (hour_number summer_day 12) ∷ secondaries)) site (hour_number summer_day 12)
        ≡ Some (record { value = pos 50; excluded = false }) }
{}

/// The order of the observations does not matter, if no two stand at one key.
pub fn site_hour_forgets_the_order()
    ensures { (a b : Office) (site : Site) (hour : ℕ)
        → a.records ≡ b.records
        → IsPermutation a.observations b.observations
        → ((key : ObsKey) → length (filter (λ (e : ObsKey × Observation). is_same_key e.0 key) a.observations) ≤ 1)
        → site_hour a site hour ≡ site_hour b site hour }
{}

/// A site hour reads no observation of another site, pollutant or hour.
pub fn site_hour_reads_its_own_observations()
    ensures { (a b : Office) (site : Site) (hour : ℕ)
        → a.records ≡ b.records
        → filter (λ (e : ObsKey × Observation). is_ozone_at site hour e.0) a.observations ≡ filter (λ (e : ObsKey × Observation). is_ozone_at site hour e.0) b.observations
        → site_hour a site hour ≡ site_hour b site hour }
{}
