//! The tests of sameness hold of equal things, and of no others.
#![tactic(auto)]

ghost use Rattle.std.specs.Prelude.{◌≡◌, true};
ghost use Rattle.aq_base.specs.Site.{Site};
ghost use Rattle.aq_base.specs.declared.monitor.Pollutant.{Pollutant};
ghost use Rattle.aq_base.specs.declared.observation.ObsKey.{ObsKey};
ghost use Rattle.aq_rules.specs.Office.Monitors.{is_same_site, is_same_pollutant, is_same_key};

pub fn sameness_is_equality()
    ensures sites { (a b : Site) → is_same_site a b ≡ true → a ≡ b }
    ensures pollutants { (a b : Pollutant) → is_same_pollutant a b ≡ true → a ≡ b }
    ensures keys { (a b : ObsKey) → is_same_key a b ≡ true → a ≡ b }
    ensures key_itself { (key : ObsKey) → is_same_key key key ≡ true }
{}
