//! What is answered, and how many rows the sheets of particles have.
#![tactic(auto)]

ghost use Rattle.std.specs.Prelude.{◌≡◌, ℕ, codes, true, Some, ◌∷◌, [], ◌++◌, length, map};
ghost use Rattle.std.specs.List.{list_all};
ghost use Rattle.aq_base.specs.Calendar.{is_design_year, is_year};
ghost use Rattle.aq_base.specs.Site.{Site};
ghost use Rattle.aq_base.specs.declared.question.Question.TheVariants.{Days, Pm10, Pm25, Reply, Report, Value, Windows};
ghost use Rattle.aq_base.specs.declared.standard.Standard.{Standard};
ghost use Rattle.aq_base.specs.declared.standard.Standard.TheVariants.{Annual2012, AnnualSecondary};
ghost use Rattle.aq_base.specs.Standard.{standard_name};
ghost use Rattle.aq_rules.specs.Office.Office.{Office, StoredLoad, load_at};
ghost use Rattle.aq_rules.specs.Standards.{pollutant_of, years_to};
ghost use Rattle.aq_rules.specs.Shown.OtherSheets.{report_answer, sites_with, value_answer};
ghost use Rattle.aq_rules.specs.Shown.ParticleSheets.{pm10_answer, pm25_answer};
ghost use Rattle.aq_rules.specs.Shown.Sheet.{cell_at, count_cell, day_text, site_text, text_of};
ghost use Rattle.aq_rules.specs.Shown.ShownExamples.{between_levels, map_sheet, other_site, outline, two_sites, value_columns};
ghost use Rattle.aq_rules.specs.Shown.Sheet.SheetCell.{Text};
ghost use Rattle.aq_rules.specs.Questions.Answer.{answer, is_registered};

/// A design value is asked of the last of three years of the profile.
pub fn design_years_have_three_years()
    ensures { (year : ℕ) → is_design_year year ≡ list_all is_year (years_to year) }
{}

/// Each question about a registered site is answered by a sheet of its own: with the columns of that sheet, and
/// the site, day, year and standard that were asked under its heads. A site is answered about a pollutant of
/// which it has no monitor, with nothing counted.
pub fn questions_have_their_sheets()
    ensures load { (office : Office) (number : ℕ) (load : StoredLoad) → load_at office number ≡ Some load
        → outline (codes "load" ∷ []) (answer office (Reply number))
        ≡ Some (count_cell load.reply.number ∷ [], codes "line" ∷ codes "rule" ∷ codes "name" ∷ codes "count" ∷ []) }
    ensures windows { (office : Office) (site : Site) (day : ℕ) → is_registered office site ≡ true
        → outline (codes "site" ∷ codes "day" ∷ []) (answer office (Windows site day))
        ≡ Some (Text (site_text site) ∷ Text (day_text day) ∷ [], codes "hour" ∷ codes "average" ∷ codes "hours" ∷ codes "full" ∷ codes "full_hours" ∷ []) }
    ensures days { (office : Office) (site : Site) (year : ℕ) → is_registered office site ≡ true
        → outline (codes "site" ∷ codes "year" ∷ []) (answer office (Days site year))
        ≡ Some (Text (site_text site) ∷ count_cell year ∷ [], codes "day" ∷ codes "averages" ∷ codes "valid" ∷ codes "approved" ∷ codes "maximum" ∷ []) }
    ensures fine { (office : Office) (site : Site) (year : ℕ) → is_registered office site ≡ true
        → outline (codes "site" ∷ codes "year" ∷ []) (answer office (Pm25 site year))
        ≡ Some (
          Text (site_text site) ∷ count_cell year ∷ [],
          codes "quarter" ∷ codes "scheduled" ∷ codes "creditable" ∷ codes "capture" ∷ codes "counted" ∷ codes "days" ∷ codes "sum" ∷ codes "least" ∷ codes "greatest" ∷ [],
        ) }
    ensures coarse { (office : Office) (site : Site) (year : ℕ) → is_registered office site ≡ true
        → outline (codes "site" ∷ codes "year" ∷ []) (answer office (Pm10 site year))
        ≡ Some (
          Text (site_text site) ∷ count_cell year ∷ [],
          codes "quarter" ∷ codes "days" ∷ codes "scheduled" ∷ codes "captured" ∷ codes "strata" ∷ codes "samples" ∷ codes "exceedances" ∷ codes "estimate" ∷ codes "lower" ∷ [],
        ) }
    ensures value { (office : Office) (standard : Standard) (site : Site) (year : ℕ) → is_registered office site ≡ true
        → outline (codes "standard" ∷ codes "site" ∷ codes "year" ∷ []) (answer office (Value standard site year))
        ≡ Some (Text (standard_name standard) ∷ Text (site_text site) ∷ count_cell year ∷ [], value_columns standard) }
    ensures report { (office : Office) (standard : Standard) (year : ℕ)
        → outline (codes "standard" ∷ codes "year" ∷ []) (answer office (Report standard year))
        ≡ Some (Text (standard_name standard) ∷ count_cell year ∷ [], codes "site" ∷ codes "value" ∷ codes "verdict" ∷ []) }
    ensures without { map_sheet text_of (answer two_sites (Pm25 other_site 2024))
        ≡ Some (codes "site 06-037-1104\nyear 2024\ncounted 0\nrank -\npercentile -\nmean -\n"
        ++ codes "quarter scheduled creditable capture counted days sum least greatest\n"
        ++ codes "1 0 0 0 0 0 0.0 - -\n2 0 0 0 0 0 0.0 - -\n3 0 0 0 0 0 0.0 - -\n4 0 0 0 0 0 0.0 - -\n") }
    ensures of_sites { map_sheet text_of (answer two_sites (Report Annual2012 2024))
        ≡ Some (codes "standard PM25-ANNUAL-2012\nyear 2024\nsite value verdict\n06-037-1103 - NoValue\n") }
{}

/// A site whose PM2.5 stands at 13.0 all the time is above 12.0 and within 15.0: a report on the
/// secondary standard judges it at 15.0.
pub fn reports_judge_at_the_level_of_their_standard()
    ensures { map_sheet text_of (answer between_levels (Report AnnualSecondary 2024))
        ≡ Some (codes "standard PM25-ANNUAL-SECONDARY\nyear 2024\nsite value verdict\n06-037-1103 13.0 Met\n") }
{}

/// A year of particles has four rows.
pub fn particle_sheets_have_their_rows()
    ensures fine { (office : Office) (site : Site) (year : ℕ) → length (pm25_answer office site year).rows ≡ 4 }
    ensures coarse { (office : Office) (site : Site) (year : ℕ) → length (pm10_answer office site year).rows ≡ 4 }
{}

/// A report has a row for each site with a monitor of its pollutant, and the row says what the value
/// sheet of the site says: the same value and the same verdict.
pub fn reports_say_what_value_sheets_say()
    ensures { (standard : Standard) (office : Office) (year : ℕ)
        → (report_answer standard office year).rows ≡ map
        (λ site. Text (site_text site) ∷ cell_at (codes "value") (value_answer standard office site year) ∷ cell_at (codes "verdict") (value_answer standard office site year) ∷ [])
        (sites_with office (pollutant_of standard)) }
{}
