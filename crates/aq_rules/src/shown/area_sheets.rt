//! The sheets of decisive events and of areas, as they print.
#![tactic(auto)]

ghost use Rattle.std.specs.Prelude.{◌≡◌, true, ◌∷◌, [], ◌++◌, codes, Some, None, pos, neg_ℤ};
ghost use Rattle.aq_base.specs.declared.area.Area.TheVariants.{County, Sites};
ghost use Rattle.aq_base.specs.declared.standard.Standard.TheVariants.{Ozone2015, Annual2024, Daily2006, Pm10Of1987};
ghost use Rattle.aq_base.specs.declared.standard.Verdict.TheVariants.{Met, NotMet, Incomplete, NoValue};
ghost use Rattle.aq_rules.specs.Office.OfficeExamples.{east, west};
ghost use Rattle.aq_rules.specs.Areas.AreaExamples.{year_of};
ghost use Rattle.aq_rules.specs.DesignValues.{OfOzone};
ghost use Rattle.aq_rules.specs.Ozone.OzoneExamples.{site, year_with};
ghost use Rattle.aq_rules.specs.Shown.AreaSheets.{area_answer, area_sheet, area_sites, area_sites_answer, area_sites_sheet, area_site_row, decisive_answer, decisive_sheet, end_years, sheet_of_years, what_if_answer};
ghost use Rattle.aq_rules.specs.Shown.Sheet.{cell_at, text_of};
ghost use Rattle.aq_rules.specs.Shown.Sheet.SheetCell.{Text};
ghost use Rattle.aq_rules.specs.Shown.ShownExamples.{other_site, third_site};
ghost use Rattle.aq_rules.specs.WhatIf.WhatIfExamples.{as_if, dusty};

/// Each head and column prints its own field: all fields of the rows differ. Where no event is decisive
/// the names of the columns stand alone.
pub fn decisive_sheets_print()
    ensures rows { text_of (decisive_sheet Ozone2015 site 2024 NotMet ((1, Incomplete) ∷ (999999, NoValue) ∷ []))
        ≡ codes "standard O3-2015\nsite 06-037-1103\nyear 2024\nverdict NotMet\nevent verdict\n1 Incomplete\n999999 NoValue\n" }
    ensures none { text_of (decisive_sheet Annual2024 other_site 1992 Met [])
        ≡ codes "standard PM25-ANNUAL-2024\nsite 06-037-1104\nyear 1992\nverdict Met\nevent verdict\n" }
{}

/// Values print as in the value sheet, whole for the daily PM2.5 standard. A year may be NotMet without
/// a value. Critical values print as the next year's part: in ppm for ozone, and else with tenths, for
/// the daily standard too; they have no bounds.
pub fn area_sheets_print()
    ensures ozone { text_of (area_sheet Ozone2015 2024 Incomplete (Some site) (Some (pos 70)) 0 ((2022, NotMet, Some (pos 72)) ∷ (2023, Met, Some (pos 69)) ∷ (2024, Incomplete, Some (pos 70)) ∷ []))
        ≡ codes "standard O3-2015\nyear 2024\nverdict Incomplete\ngoverning 06-037-1103\nvalue 0.070\nmet 0\n"
        ++ codes "year verdict value\n2022 NotMet 0.072\n2023 Met 0.069\n2024 Incomplete 0.070\n" }
    ensures daily { text_of (area_sheet Daily2006 2003 Met (Some third_site) (Some (pos 34)) 12 [])
        ≡ codes "standard PM25-24H-2006\nyear 2003\nverdict Met\ngoverning 06-037-1105\nvalue 34\nmet 12\n"
        ++ codes "year verdict value\n" }
    ensures without_value { text_of (area_sheet Pm10Of1987 2059 NotMet None None 0 ((2059, NotMet, None) ∷ []))
        ≡ codes "standard PM10-24H-1987\nyear 2059\nverdict NotMet\ngoverning -\nvalue -\nmet 0\n"
        ++ codes "year verdict value\n2059 NotMet -\n" }
    ensures history { text_of (sheet_of_years Ozone2015 1995 (year_of Met ∷ year_of NotMet ∷ year_of Met ∷ year_of Met ∷ []) (record { sites = 3; governing = Some other_site; value = Some (pos 66); verdict = Met }))
        ≡ codes "standard O3-2015\nyear 1995\nverdict Met\ngoverning 06-037-1104\nvalue 0.066\nmet 2\n"
        ++ codes "year verdict value\n1993 NotMet -\n1994 Met -\n1995 Met -\n" }
    ensures site_row { area_site_row Ozone2015 (site, OfOzone (year_with 245 99 ∷ year_with 245 70 ∷ year_with 240 71 ∷ []) (record { value = Some (pos 80); verdict = Incomplete })) ≡ (site, Some (pos 80), Incomplete, Some (pos 71)) }
    ensures ozone_sites { text_of (area_sites_sheet Ozone2015 2024 ((site, Some (pos 72), NotMet, Some (pos 68)) ∷ (other_site, None, NoValue, None) ∷ (third_site, Some (pos 70), Incomplete, Some (neg_ℤ (pos 5))) ∷ []))
        ≡ codes "standard O3-2015\nyear 2024\nsite value verdict critical\n"
        ++ codes "06-037-1103 0.072 NotMet 0.068\n06-037-1104 - NoValue -\n06-037-1105 0.070 Incomplete -0.005\n" }
    ensures annual_sites { text_of (area_sites_sheet Annual2024 2025 ((site, Some (pos 91), NotMet, Some (pos 89)) ∷ []))
        ≡ codes "standard PM25-ANNUAL-2024\nyear 2025\nsite value verdict critical\n06-037-1103 9.1 NotMet 8.9\n" }
    ensures daily_sites { text_of (area_sites_sheet Daily2006 2025 ((site, Some (pos 34), Met, Some (pos 355)) ∷ []))
        ≡ codes "standard PM25-24H-2006\nyear 2025\nsite value verdict critical\n06-037-1103 34 Met 35.5\n" }
    ensures pm10_sites { text_of (area_sites_sheet Pm10Of1987 2025 ((site, Some (pos 11), NotMet, Some (pos 10)) ∷ []))
        ≡ codes "standard PM10-24H-1987\nyear 2025\nsite value verdict critical\n06-037-1103 1.1 NotMet 1.0\n" }
{}

/// Five exceedances of March 1993 in the west, of which event 5 takes two: the sheets as commands fill
/// them. The end years begin with 1992, which has nothing, and are listed from 1993 on; in 1996 the
/// exceedances are no more of the three years. A site without a value is a row of the area.
pub fn answers_about_events_and_areas_print()
    ensures decisive { text_of (decisive_answer Pm10Of1987 (dusty 1993 []) west 1994)
        ≡ codes "standard PM10-24H-1987\nsite 06-037-1103\nyear 1994\nverdict NotMet\nevent verdict\n5 NoValue\n" }
    ensures as_if { cell_at (codes "verdict") (what_if_answer Pm10Of1987 (dusty 1993 []) (as_if 5 true ∷ []) west 1994) ≡ Text (codes "NoValue") }
    ensures years { end_years 1994 ≡ 1992 ∷ 1993 ∷ 1994 ∷ [] }
    ensures area { text_of (area_answer Pm10Of1987 (dusty 1993 []) (County 6 37) 1996)
        ≡ codes "standard PM10-24H-1987\nyear 1996\nverdict NoValue\ngoverning -\nvalue -\nmet 0\n"
        ++ codes "year verdict value\n1993 NotMet -\n1994 NotMet -\n1995 NotMet -\n1996 NoValue -\n" }
    ensures sites { text_of (area_sites_answer Pm10Of1987 (dusty 1993 []) (County 6 37) 1993)
        ≡ codes "standard PM10-24H-1987\nyear 1993\nsite value verdict critical\n06-037-1103 - NotMet -\n06-037-4004 - NoValue -\n" }
    ensures county { area_sites Pm10Of1987 (dusty 1993 []) (County 6 37) ≡ west ∷ east ∷ [] }
    ensures other_county { area_sites Pm10Of1987 (dusty 1993 []) (County 6 38) ≡ [] }
    ensures other_pollutant { area_sites Daily2006 (dusty 1993 []) (County 6 37) ≡ [] }
    ensures named { area_sites Pm10Of1987 (dusty 1993 []) (Sites (third_site ∷ east ∷ [])) ≡ east ∷ [] }
{}
