//! The export of a year's observations.
#![tactic(auto)]

ghost use Rattle.std.specs.Prelude.{◌≡◌, ℕ, true, false, ◌∷◌, [], map, IsTrue, codes, ◌++◌};
ghost use Rattle.std.specs.List.{list_all};
ghost use Rattle.aq_base.specs.Site.{Site};
ghost use Rattle.aq_base.specs.declared.shown.Shown.{Shown};
ghost use Rattle.aq_base.specs.declared.monitor.Pollutant.{Pollutant};
ghost use Rattle.aq_base.specs.declared.monitor.Pollutant.TheVariants.{Ozone, Pm25};
ghost use Rattle.aq_rules.specs.Shown.Export.{export_answer, needs_no_quotes, shown_fields, shown_of};
ghost use Rattle.aq_rules.specs.Office.Office.{IsOffice, Office};
ghost use Rattle.aq_rules.specs.Ozone.OzoneExamples.{afternoon, site};
ghost use Rattle.aq_rules.specs.Particles.ParticleExamples.{exported};
ghost use Rattle.aq_rules.specs.Shown.ShownExamples.{other_site, two_sites};

/// Eight hours of ozone, one record each; another year has the header alone. A value with two
/// qualifiers, and a null code. A null observation is shown as excluded like any other. Of an office of
/// two sites and two pollutants, an export has the asked site and pollutant alone, in order of POC and
/// then of the hour, and each pollutant with its places.
pub fn exports_print()
    ensures year { export_answer afternoon site Ozone 2024
        ≡ codes "site,parameter,poc,date,hour,value,null,qualifiers,excluded\n"
        ++ codes "06-037-1103,44201,1,2024-07-01,10,0.071,,,N\n06-037-1103,44201,1,2024-07-01,11,0.071,,,N\n"
        ++ codes "06-037-1103,44201,1,2024-07-01,12,0.071,,,N\n06-037-1103,44201,1,2024-07-01,13,0.071,,,N\n"
        ++ codes "06-037-1103,44201,1,2024-07-01,14,0.071,,,N\n06-037-1103,44201,1,2024-07-01,15,0.071,,,N\n"
        ++ codes "06-037-1103,44201,1,2024-07-01,16,0.071,,,N\n06-037-1103,44201,1,2024-07-01,17,0.071,,,N\n" }
    ensures other_year { export_answer afternoon site Ozone 2023
        ≡ codes "site,parameter,poc,date,hour,value,null,qualifiers,excluded\n" }
    ensures export_shows_codes { export_answer exported site Pm25 2024
        ≡ codes "site,parameter,poc,date,hour,value,null,qualifiers,excluded\n"
        ++ codes "06-037-1103,88101,1,2024-01-07,00,12.0,,V RT,Y\n06-037-1103,88101,1,2024-01-10,00,,AN,RT,Y\n" }
    ensures ozone { export_answer two_sites site Ozone 2024
        ≡ codes "site,parameter,poc,date,hour,value,null,qualifiers,excluded\n"
        ++ codes "06-037-1103,44201,1,2024-07-01,10,0.071,,,N\n06-037-1103,44201,12,2024-07-01,09,0.064,,,N\n" }
    ensures particles { export_answer two_sites site Pm25 2024
        ≡ codes "site,parameter,poc,date,hour,value,null,qualifiers,excluded\n06-037-1103,88101,1,2024-01-07,00,12.0,,,N\n" }
    ensures other_site { export_answer two_sites other_site Ozone 2024
        ≡ codes "site,parameter,poc,date,hour,value,null,qualifiers,excluded\n06-037-1104,44201,1,2024-07-01,10,0.055,,,N\n" }
    ensures no_values { export_answer two_sites other_site Pm25 2024
        ≡ codes "site,parameter,poc,date,hour,value,null,qualifiers,excluded\n" }
{}

/// No field of an export of a valid office has a comma, a quote or the end of a line, so each record has
/// the header's columns, without quotes.
pub fn exported_fields_need_no_quotes()
    ensures fields { (office : Office) (site : Site) (pollutant : Pollutant) (year : ℕ)
        → IsOffice office
        → IsTrue (list_all (λ (row : Shown). list_all needs_no_quotes (shown_fields row)) (shown_of office site pollutant year)) }
    ensures other_bytes { map needs_no_quotes ((44 ∷ []) ∷ (34 ∷ []) ∷ (10 ∷ []) ∷ (13 ∷ []) ∷ codes "-0.5 V:RT" ∷ [] ∷ []) ≡ false ∷ false ∷ false ∷ false ∷ true ∷ true ∷ [] }
{}
