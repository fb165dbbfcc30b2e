//! The standards, one by one.
#![tactic(auto)]

ghost use Rattle.std.specs.Prelude.{◌≡◌, ℕ, true, false, ◌∷◌, [], map, Some, None, ℤ, pos, ◌≤ℤ◌};
ghost use Rattle.aq_base.specs.declared.monitor.Pollutant.TheVariants.{Ozone, Pm25, Pm10};
ghost use Rattle.aq_base.specs.declared.standard.Standard.{Standard};
ghost use Rattle.aq_base.specs.declared.standard.Standard.TheVariants.{Ozone2015, Annual2012, AnnualSecondary, Annual2024, Daily2006, Pm10Of1987};
ghost use Rattle.aq_base.specs.declared.standard.Verdict.TheVariants.{Met, NotMet};
ghost use Rattle.aq_base.specs.Site.{Site};
ghost use Rattle.aq_rules.specs.DesignValues.{OfAnnual, design_value, pm25_years, value_in, verdict_in};
ghost use Rattle.aq_rules.specs.Office.Office.{Office};
ghost use Rattle.aq_rules.specs.Particles.AnnualVerdict.{annual_design};
ghost use Rattle.aq_rules.specs.Standards.{pollutant_of, level_of, is_above, is_at_or_below};

/// Ozone 0.070 ppm; PM2.5 12.0, 15.0, 9.0 and 35 µg/m3; PM10 1.0 exceedances a year.
pub fn standards_have_their_pollutants_and_levels()
    ensures pollutants { map pollutant_of (Ozone2015 ∷ Annual2012 ∷ AnnualSecondary ∷ Annual2024 ∷ Daily2006 ∷ Pm10Of1987 ∷ []) ≡ Ozone ∷ Pm25 ∷ Pm25 ∷ Pm25 ∷ Pm25 ∷ Pm10 ∷ [] }
    ensures levels { map level_of (Ozone2015 ∷ Annual2012 ∷ AnnualSecondary ∷ Annual2024 ∷ Daily2006 ∷ Pm10Of1987 ∷ []) ≡ pos 70 ∷ pos 120 ∷ pos 150 ∷ pos 90 ∷ pos 35 ∷ pos 10 ∷ [] }
{}

/// A value at the level is not above it, and a missing one is neither above nor below.
pub fn levels_belong_to_what_is_below()
    ensures at { is_above (pos 120) (Some (pos 120)) ≡ false }
    ensures above { is_above (pos 120) (Some (pos 121)) ≡ true }
    ensures kept { is_at_or_below (pos 120) (Some (pos 120)) ≡ true }
    ensures broken { is_at_or_below (pos 120) (Some (pos 121)) ≡ false }
    ensures missing_above { is_above (pos 120) None ≡ false }
    ensures missing_below { is_at_or_below (pos 120) None ≡ false }
{}

/// An annual design value is judged at the level of its own standard.
pub fn annual_standards_have_their_own_levels()
    ensures primary { (office : Office) (site : Site) (year : ℕ) → design_value Annual2012 office site year ≡ OfAnnual (pm25_years office site year) (annual_design (pos 120) office site year) }
    ensures secondary { (office : Office) (site : Site) (year : ℕ) → design_value AnnualSecondary office site year ≡ OfAnnual (pm25_years office site year) (annual_design (pos 150) office site year) }
    ensures primary_of_2024 { (office : Office) (site : Site) (year : ℕ) → design_value Annual2024 office site year ≡ OfAnnual (pm25_years office site year) (annual_design (pos 90) office site year) }
{}

/// A standard is met only by a design value at or below its level. That of ozone or PM2.5 is not met only
/// if the design value is above the level; of PM10 the exceedances may show it without one. A 24-hour
/// PM2.5 design value of 36 µg/m3 or more is not met.
pub fn verdicts_follow_the_level()
    ensures met { (standard : Standard) (office : Office) (site : Site) (year : ℕ) → verdict_in (design_value standard office site year) ≡ Met
        → is_at_or_below (level_of standard) (value_in (design_value standard office site year)) ≡ true }
    ensures not_met { (standard : Standard) (office : Office) (site : Site) (year : ℕ) → (standard ≡ Pm10Of1987 → ⊥) → verdict_in (design_value standard office site year) ≡ NotMet
        → is_above (level_of standard) (value_in (design_value standard office site year)) ≡ true }
    ensures daily_above { (office : Office) (site : Site) (year : ℕ) (value : ℤ) → value_in (design_value Daily2006 office site year) ≡ Some value → pos 36 ≤ℤ value
        → verdict_in (design_value Daily2006 office site year) ≡ NotMet }
{}
