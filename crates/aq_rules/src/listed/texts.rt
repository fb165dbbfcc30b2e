//! Records and observations as lines, worked out on small offices.
#![tactic(auto)]

ghost use Rattle.std.specs.Prelude.{◌≡◌, ◌+◌, true, [], ◌∷◌, ◌++◌, codes};
ghost use Rattle.aq_base.specs.Calendar.{hour_number};
ghost use Rattle.aq_base.specs.declared.monitor.Pollutant.TheVariants.{Ozone, Pm25};
ghost use Rattle.aq_rules.specs.Lines.LineExamples.{one_of_each};
ghost use Rattle.aq_rules.specs.Lines.Lines.{body_lines};
ghost use Rattle.aq_rules.specs.Listed.ObservationLines.{lines_answer};
ghost use Rattle.aq_rules.specs.Listed.Records.{records_answer};
ghost use Rattle.aq_rules.specs.Office.Load.{after_all, refusals};
ghost use Rattle.aq_rules.specs.Office.Office.{nothing};
ghost use Rattle.aq_rules.specs.Ozone.OzoneExamples.{office_of, reading, registered, site, smoke, smoky, summer_day};
ghost use Rattle.aq_rules.specs.Particles.ParticleExamples.{exported};

/// The records as the lines that make them, in the order of their rows: a concurrence by its update, and
/// each record after those without which it does not stand.
pub fn records_print_as_lines()
    ensures smoky { records_answer (smoky true)
        ≡ codes "XM|I|06|037|1103|44201|1|1|Y\nXE|I|1|06|037|1103|44201|20240701|12:00|20240701|14:00|RT\nXC|U|1|Y\n" }
    ensures each { records_answer one_of_each
        ≡ codes "XM|I|06|037|1103|44201|3|1|Y\nXM|I|06|037|1103|88101|4|7|N\nXM|I|06|037|1104|44201|5|1|Y\nXP|I|06|037|1103|44201|20240102|3\n"
        ++ codes "XS|I|06|037|1103|88101|20240103|6|20240107\nXO|I|06|037|1103|2024|20240301|20241031\nXU|I|06|037|1103|88101|20240110|20240112\n"
        ++ codes "XE|I|21|06|037|1103|44201|20240701|19:00|20240703|04:00|RT\nXC|U|21|Y\nXA|I|06|037|1103|20240704\nXB|I|06|037|1103|44201|20240115|06|037|1104\n" }
    ensures none { records_answer nothing ≡ [] }
{}

/// A load of these lines over an empty office refuses none of them and makes the same records.
pub fn records_of_each_kind_load_back()
    ensures accepted { refusals nothing (body_lines (records_answer one_of_each)) ≡ [] }
    ensures records { after_all nothing (body_lines (records_answer one_of_each)) ≡ one_of_each }
{}

/// An observation without a method is printed with the method 000. Values, null codes and qualifiers print in
/// their fields, and other years do not.
pub fn observations_print_as_lines()
    ensures hour { lines_answer (office_of (registered 1 ∷ []) (reading 1 71 (smoke ∷ []) (hour_number summer_day 10) ∷ [])) site Ozone 2024
        ≡ codes "RD|I|06|037|1103|44201|1|1|007|000|20240701|10:00|0.071||||RT\n" }
    ensures days { lines_answer exported site Pm25 2024
        ≡ codes "RD|I|06|037|1103|88101|1|7|105|145|20240107|00:00|12.0||||V|RT\nRD|I|06|037|1103|88101|1|7|105|000|20240110|00:00||AN|||RT\n" }
    ensures other_year { lines_answer exported site Pm25 2023 ≡ [] }
    ensures other_pollutant { lines_answer exported site Ozone 2024 ≡ [] }
{}
