//! The generated loads.
#![tactic(auto)]

ghost use Rattle.std.specs.Prelude.{◌≡◌, ℕ, ◌+◌, ◌*◌, ◌<◌, List, ◌∷◌, [], ◌++◌, codes, length, map, take, drop, slice_get, Some, None, option_map};
ghost use Rattle.std.specs.List.{range_with_len};
ghost use Rattle.aq_base.specs.Calendar.{year_first, hour_number};
ghost use Rattle.aq_rules.specs.Lines.Lines.{line_count, texts};
ghost use Rattle.aq_rules.specs.Shown.Generator.{Wanted, generate, generated_lines, generated_office, load_count, office_load, samples_from, simulation, wanted_hour, wanted_in};
ghost use Rattle.aq_base.specs.declared.standard.Standard.TheVariants.{Ozone2015, Annual2012, AnnualSecondary, Annual2024, Daily2006, Pm10Of1987};
ghost use Rattle.aq_rules.specs.Shown.OtherSheets.{report_answer, summary_sheet};
ghost use Rattle.aq_rules.specs.Shown.Sheet.{text_of};

/// One site and three years have four loads: eleven lines of the office, and 26,280 hours and 365 and
/// 183 days of samples. The office of one site and one year. The first hours of load 2 from the start
/// number 1, whose draws begin at 3; the 22nd has the null code. There is no load 0, and none beyond
/// one for each site and year and the office's. The loads of a site are its years in order, and those
/// of the sites stand one after the other: of two sites and three years load 3 is the second year of
/// the first site, and load 5 the first of the second. Each begins with the start number plus its own,
/// which is taken below 2^64. After the 8,760 hours of 2021 stand the samples of PM2.5 of every third
/// day, of 4.0 to 23.9, and after its 122 those of PM10 of every sixth day, of 10.0 to 159.9. A
/// simulation of three years prints the summary and then the report of each standard for 2023.
pub fn generated_loads()
    ensures loads { load_count 1 3 ≡ 4 }
    ensures office { line_count (office_load 1 3) ≡ 11 }
    ensures samples { length (wanted_in 1 2021) + length (wanted_in 1 2022) + length (wanted_in 1 2023) ≡ 26280 + 365 + 183 }
    ensures office_is_generated { office_load 1 1
        ≡ codes "XM|I|99|001|0001|44201|1|1|Y\nXM|I|99|001|0001|88101|1|7|Y\nXM|I|99|001|0001|81102|1|7|Y\n"
        ++ codes "XP|I|99|001|0001|44201|20210101|1\nXP|I|99|001|0001|88101|20210101|1\nXP|I|99|001|0001|81102|20210101|1\n"
        ++ codes "XS|I|99|001|0001|88101|20210101|3|20210101\nXS|I|99|001|0001|81102|20210101|6|20210101\n"
        ++ codes "XO|I|99|001|0001|2021|20210301|20211031\n" }
    ensures first { samples_from 3 (map (wanted_hour 1) (range_with_len (hour_number (year_first 2021) 0) 2))
        ≡ codes "RD|I|99|001|0001|44201|1|1|007|000|20210101|00:00|0.063\nRD|I|99|001|0001|44201|1|1|007|000|20210101|01:00|0.078\n" }
    ensures null { slice_get (texts (samples_from 3 (map (wanted_hour 1) (range_with_len (hour_number (year_first 2021) 0) 22)))) 21
        ≡ Some (codes "RD|I|99|001|0001|44201|1|1|007|000|20210101|21:00||AN") }
    ensures zero { (start sites years : ℕ) → generate start sites years 0 ≡ None }
    ensures beyond { (start sites years load : ℕ) → 1 + sites * years < load → generate start sites years load ≡ None }
    ensures second { option_map (take 56) (generate 7 1 3 2) ≡ Some (codes "RD|I|99|001|0001|44201|1|1|007|000|20210101|00:00|0.041\n") }
    ensures wrapped { option_map (take 56) (generate 18446744073709551615 1 3 2) ≡ Some (codes "RD|I|99|001|0001|44201|1|1|007|000|20210101|00:00|0.053\n") }
    ensures year { option_map (take 56) (generate 1 2 3 3) ≡ Some (codes "RD|I|99|001|0001|44201|1|1|007|000|20220101|00:00|0.072\n") }
    ensures site { option_map (take 56) (generate 1 2 3 5) ≡ Some (codes "RD|I|99|001|0002|44201|1|1|007|000|20210101|00:00|0.022\n") }
    ensures last_hour { map (λ (w : Wanted). w.hour) (take 1 (drop 8759 (wanted_in 1 2021))) ≡ hour_number (year_first 2021) 8759 ∷ [] }
    ensures fine { samples_from 3 (take 2 (drop 8760 (wanted_in 1 2021)))
        ≡ codes "RD|I|99|001|0001|88101|1|7|105|000|20210101|00:00|20.3\nRD|I|99|001|0001|88101|1|7|105|000|20210104|00:00|17.8\n" }
    ensures coarse { samples_from 3 (take 2 (drop 8882 (wanted_in 1 2021)))
        ≡ codes "RD|I|99|001|0001|81102|1|7|001|000|20210101|00:00|56.3\nRD|I|99|001|0001|81102|1|7|001|000|20210107|00:00|123.8\n" }
    ensures no_more { drop 8943 (wanted_in 1 2021) ≡ [] }
    ensures simulation_prints_a_summary_and_six_reports { (digest : List ℕ → List ℕ) (start sites : ℕ) → simulation digest start sites 3
        ≡ text_of (summary_sheet (1 + sites * 3) (generated_lines start sites 3) (length (generated_office digest start sites 3).observations))
        ++ (text_of (report_answer Ozone2015 (generated_office digest start sites 3) 2023)
        ++ (text_of (report_answer Annual2012 (generated_office digest start sites 3) 2023)
        ++ (text_of (report_answer AnnualSecondary (generated_office digest start sites 3) 2023)
        ++ (text_of (report_answer Annual2024 (generated_office digest start sites 3) 2023)
        ++ (text_of (report_answer Daily2006 (generated_office digest start sites 3) 2023)
        ++ text_of (report_answer Pm10Of1987 (generated_office digest start sites 3) 2023)))))) }
{}
