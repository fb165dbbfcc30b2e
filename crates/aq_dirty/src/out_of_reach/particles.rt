//! Days of PM2.5 and PM10 that are not in reach.
#![tactic(auto)]

ghost use Rattle.std.specs.Prelude.{◌≡◌, ℕ, ◌+◌, ◌-◌, ◌≤◌, false, true, Some, pos, option_map, [], ◌∷◌, map};
ghost use Rattle.std.specs.List.{list_any, range_with_len};
ghost use Rattle.aq_base.specs.Site.{Site};
ghost use Rattle.aq_base.specs.declared.day.TheConstants.{LAST_DAY};
ghost use Rattle.aq_base.specs.declared.monitor.Pollutant.{Pollutant};
ghost use Rattle.aq_base.specs.declared.monitor.Pollutant.TheVariants.{Pm25, Pm10};
ghost use Rattle.aq_rules.specs.Kept.Cells.{PmDayCell, is_same_cell};
ghost use Rattle.aq_rules.specs.Kept.Reach.{reach};
ghost use Rattle.aq_rules.specs.Office.Office.{IsOffice, Office};
ghost use Rattle.aq_rules.specs.Office.OfficeExamples.{plain_day, west};
ghost use Rattle.aq_rules.specs.Ozone.SiteHour.{Cell};
ghost use Rattle.aq_rules.specs.Particles.ParticleDay.{site_day};
ghost use Rattle.aq_dirty.specs.OutOfReach.Examples.{joined_by_another, samplers};

/// A second PM2.5 sampler comes to a site, with a sample on 2 July: that day is in reach, with a value
/// that is new. The days beside it are not, though the site has a monitor more, nor is PM10's day: that of
/// 1 July keeps its value. Both offices are valid ones, so the law speaks of them.
pub fn a_second_sampler_reaches_this()
    ensures valid_before { IsOffice samplers }
    ensures valid_after { IsOffice joined_by_another }
    ensures days { map (λ day. list_any (is_same_cell (PmDayCell west Pm25 day)) (reach samplers joined_by_another)) (range_with_len (plain_day - 1) 4)
        ≡ false ∷ false ∷ true ∷ false ∷ [] }
    ensures of_pm10 { list_any (is_same_cell (PmDayCell west Pm10 (plain_day + 1))) (reach samplers joined_by_another) ≡ false }
    ensures value { option_map (λ (c : Cell). c.value) (site_day samplers west Pm25 plain_day) ≡ Some (pos 120) }
    ensures same_value { option_map (λ (c : Cell). c.value) (site_day joined_by_another west Pm25 plain_day) ≡ Some (pos 120) }
    ensures new_value { option_map (λ (c : Cell). c.value) (site_day joined_by_another west Pm25 (plain_day + 1)) ≡ Some (pos 300) }
{}

/// A day of PM2.5 or PM10 that is not in reach has the value that it had, excluded or not. It reads the
/// observations of its site and pollutant on the day, the monitors, the designation that counts on the
/// day, and the events with their concurrences. A new monitor of PM2.5 has no observation in the office
/// of before, so what it gives shows in changed observations; one of PM10 is read by every day, since it
/// may be the one with the lowest POC.
pub fn particle_days_out_of_reach_are_as_before()
    ensures { (old new : Office) (site : Site) (pollutant : Pollutant) (day : ℕ)
        → day ≤ LAST_DAY
        → IsOffice old
        → IsOffice new
        → list_any (is_same_cell (PmDayCell site pollutant day)) (reach old new) ≡ false
        → site_day old site pollutant day ≡ site_day new site pollutant day }
{}
