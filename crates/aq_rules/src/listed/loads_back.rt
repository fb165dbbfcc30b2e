//! Records and observations that are printed as lines load back.
#![tactic(auto)]

ghost use Rattle.std.specs.Prelude.{◌≡◌, ◌≤◌, ◌+◌, ℕ, All, List, None, filter, length, ◌++◌};
ghost use Rattle.aq_base.specs.Site.{Site};
ghost use Rattle.aq_base.specs.declared.monitor.Pollutant.{Pollutant};
ghost use Rattle.aq_base.specs.declared.observation.ObsKey.{ObsKey};
ghost use Rattle.aq_base.specs.declared.observation.Observation.{Observation};
ghost use Rattle.aq_base.specs.declared.office.OfficeRecord.{OfficeRecord};
ghost use Rattle.aq_rules.specs.Limits.{MOST_OBSERVATIONS};
ghost use Rattle.aq_rules.specs.Listed.LoadsBack.{LoadsTo, observations_text, records_text, with_rows};
ghost use Rattle.aq_rules.specs.Listed.Places.{is_in_year, standing_of};
ghost use Rattle.aq_rules.specs.Listed.Records.{records_answer};
ghost use Rattle.aq_rules.specs.Office.Office.{IsOffice, Office, nothing, observation_at};

/// The records of a valid office load back. A piece of their text, loaded over an office with the records
/// before it, is accepted line by line and adds its records: so pieces that are loaded one after the other
/// do, and the whole text does over an empty office.
pub fn records_load_back()
    ensures piece { (office now : Office) (piece rest : List OfficeRecord) → IsOffice office → office.records ≡ now.records ++ (piece ++ rest)
        → LoadsTo now (records_text piece) (record now { records = now.records ++ piece }) }
    ensures whole { (office : Office) → IsOffice office → LoadsTo nothing (records_answer office) (record nothing { records = office.records }) }
{}

/// The observations of a site, pollutant and year load back. A piece of their lines, loaded over an office with
/// the same records and none of their keys, is accepted line by line and puts them at their places, by the
/// method 000 where they have none, if at most 4,000,000 observations stand after it.
pub fn observations_load_back()
    ensures { (office now : Office) (site : Site) (pollutant : Pollutant) (year : ℕ) (front piece rest : List (ObsKey × Observation))
        → IsOffice office → now.records ≡ office.records
        → filter (is_in_year year) (standing_of office site pollutant) ≡ front ++ (piece ++ rest)
        → All (λ (row : ObsKey × Observation). observation_at now row.0 ≡ None) piece
        → length now.observations + length piece ≤ MOST_OBSERVATIONS
        → LoadsTo now (observations_text office piece) (record now { observations = with_rows piece now.observations }) }
{}
