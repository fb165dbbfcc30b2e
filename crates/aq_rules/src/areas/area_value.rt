//! The value and verdict of an area and its history, worked out.
#![tactic(auto)]

ghost use Rattle.std.specs.Prelude.{◌≡◌, ℕ, ◌+◌, List, [], ◌∷◌, ◌++◌, if◌then◌else◌, Option, Some, None, is_some, pos, ℤ, map, filter, false, All, Contains, MatchOption};
ghost use Rattle.std.specs.List.{list_any};
ghost use Rattle.aq_base.specs.Site.{Site};
ghost use Rattle.aq_base.specs.declared.area.Area.TheVariants.{County, Sites};
ghost use Rattle.aq_base.specs.declared.standard.Verdict.TheVariants.{Met, NotMet, Incomplete, NoValue};
ghost use Rattle.aq_rules.specs.Office.Office.{comes_before, site_numbers};
ghost use Rattle.aq_rules.specs.Areas.AreaValue.{AreaYear, SiteValue, area_year, first_not_met, governing_site, greatest_value, has_value, history, is_year_of, least_site, met_at_end, site_in};
ghost use Rattle.aq_rules.specs.Areas.AreaExamples.{judged_at, site_at, year_of};

/// Of two sites with 0.071 ppm the lower one governs, in whatever order they come. A greater value
/// governs before a lower number. A site without a value beside one that is Met is Met; one that is
/// Incomplete makes the area so, and one that is NotMet too, also without a value. Sites of another
/// county, and sites that are not named, are no rows. Without rows there is neither value nor verdict.
#[tactic(auto, unfolding(crate::specs::Areas::AreaValue::area_year))]
pub fn areas_of_some_sites()
    ensures lower { area_year (judged_at 37 1103 (Some (pos 71)) NotMet ∷ judged_at 37 4004 (Some (pos 71)) NotMet ∷ []) (County 6 37)
        ≡ record { sites = 2; governing = Some (site_at 37 1103); value = Some (pos 71); verdict = NotMet } }
    ensures lower_last { area_year (judged_at 37 4004 (Some (pos 71)) NotMet ∷ judged_at 37 1103 (Some (pos 71)) NotMet ∷ []) (County 6 37)
        ≡ record { sites = 2; governing = Some (site_at 37 1103); value = Some (pos 71); verdict = NotMet } }
    ensures greater { area_year (judged_at 37 1103 (Some (pos 68)) Met ∷ judged_at 37 4004 (Some (pos 70)) Incomplete ∷ judged_at 37 5005 (Some (pos 69)) Met ∷ []) (County 6 37)
        ≡ record { sites = 3; governing = Some (site_at 37 4004); value = Some (pos 70); verdict = Incomplete } }
    ensures not_met_beside_incomplete { area_year (judged_at 37 1103 (Some (pos 72)) Incomplete ∷ judged_at 37 4004 (Some (pos 71)) NotMet ∷ []) (County 6 37)
        ≡ record { sites = 2; governing = Some (site_at 37 1103); value = Some (pos 72); verdict = NotMet } }
    ensures no_value_beside_met { area_year (judged_at 37 1103 None NoValue ∷ judged_at 37 4004 (Some (pos 65)) Met ∷ []) (County 6 37)
        ≡ record { sites = 2; governing = Some (site_at 37 4004); value = Some (pos 65); verdict = Met } }
    ensures not_met_without_value { area_year (judged_at 37 1103 None NotMet ∷ judged_at 37 4004 None NoValue ∷ []) (County 6 37)
        ≡ record { sites = 2; governing = None; value = None; verdict = NotMet } }
    ensures other_county { area_year (judged_at 37 1103 (Some (pos 65)) Met ∷ judged_at 38 1103 (Some (pos 75)) NotMet ∷ []) (County 6 37)
        ≡ record { sites = 1; governing = Some (site_at 37 1103); value = Some (pos 65); verdict = Met } }
    ensures other_state { area_year (judged_at 37 1103 (Some (pos 65)) Met ∷ []) (County 7 37)
        ≡ record { sites = 0; governing = None; value = None; verdict = NoValue } }
    ensures named { area_year (judged_at 37 1103 (Some (pos 65)) Met ∷ judged_at 37 4004 (Some (pos 75)) NotMet ∷ judged_at 38 1103 (Some (pos 68)) Incomplete ∷ []) (Sites (site_at 38 1103 ∷ site_at 39 9 ∷ site_at 37 1103 ∷ []))
        ≡ record { sites = 2; governing = Some (site_at 38 1103); value = Some (pos 68); verdict = Incomplete } }
{}

/// The first year that is NotMet is found by its place from 0. Years that are Met count from the last
/// one backwards, and one without a value ends them.
pub fn histories_of_some_years()
    ensures again_met { history (year_of Met ∷ year_of NotMet ∷ year_of NotMet ∷ year_of Met ∷ year_of Met ∷ []) ≡ record { first = Some 1; met = 2 } }
    ensures always_met { history (year_of Met ∷ year_of Met ∷ []) ≡ record { first = None; met = 2 } }
    ensures not_met_last { history (year_of Met ∷ year_of NotMet ∷ []) ≡ record { first = Some 1; met = 0 } }
    ensures no_value_between { history (year_of NotMet ∷ year_of Met ∷ year_of NoValue ∷ year_of Met ∷ []) ≡ record { first = Some 0; met = 1 } }
    ensures incomplete_last { history (year_of Met ∷ year_of Incomplete ∷ []) ≡ record { first = None; met = 0 } }
    ensures nothing { history [] ≡ record { first = None; met = 0 } }
{}

/// A further year that is Met adds one to those that are, and any other one leaves none. There is a
/// first year that is NotMet if one is.
pub fn histories_grow_by_the_year()
    ensures met { (years : List AreaYear) (year : AreaYear)
        → met_at_end (years ++ year ∷ []) ≡ (if is_year_of Met year then met_at_end years + 1 else 0) }
    ensures first { (years : List AreaYear) → is_some (first_not_met years) ≡ list_any (is_year_of NotMet) years }
{}

/// The least of some sites is one of them, and none has a lower number. Where a row has a value one of
/// the sites with the greatest value governs, and else none does.
pub fn the_least_site_with_the_greatest_value_governs()
    ensures least { (sites : List Site)
        → MatchOption (least_site sites) (sites ≡ []) (λ least. Contains sites least × All (λ site. comes_before (site_numbers site) (site_numbers least) ≡ false) sites) }
    ensures governs { (rows : List SiteValue) (value : ℤ) → greatest_value rows ≡ Some value
        → governing_site rows ≡ least_site (map site_in (filter (has_value value) rows)) }
    ensures some { (rows : List SiteValue) → is_some (governing_site rows) ≡ is_some (greatest_value rows) }
{}
