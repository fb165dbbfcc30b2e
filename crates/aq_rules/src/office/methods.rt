//! Methods are kept, and nothing that is computed reads them.
#![tactic(auto)]

ghost use Rattle.std.specs.Prelude.{◌≡◌, ℕ};
ghost use Rattle.aq_base.specs.Site.{Site};
ghost use Rattle.aq_base.specs.declared.monitor.Pollutant.{Pollutant};
ghost use Rattle.aq_rules.specs.Office.Methods.{without_methods};
ghost use Rattle.aq_rules.specs.Office.Office.{Office};
ghost use Rattle.aq_rules.specs.Ozone.SiteHour.{site_hour};
ghost use Rattle.aq_rules.specs.Particles.ParticleDay.{site_day};
ghost use Rattle.aq_rules.specs.Shown.Export.{export_answer};

/// A site's value for an hour, its value for a day, and its export are those of the office without
/// methods. So observations that differ in the method alone give the same.
pub fn nothing_reads_a_method()
    ensures hour { (office : Office) (site : Site) (hour : ℕ) → site_hour (without_methods office) site hour ≡ site_hour office site hour }
    ensures day { (office : Office) (site : Site) (pollutant : Pollutant) (day : ℕ) → site_day (without_methods office) site pollutant day ≡ site_day office site pollutant day }
    ensures export { (office : Office) (site : Site) (pollutant : Pollutant) (year : ℕ) → export_answer (without_methods office) site pollutant year ≡ export_answer office site pollutant year }
{}
