//! The 8-hour average, worked out.
#![tactic(auto)]

ghost use Rattle.std.specs.Prelude.{◌≡◌, ℕ, ◌+◌, ◌<◌, ◌≤◌, false, List, Some, None, pos};
ghost use Rattle.std.specs.List.{list_any};
ghost use Rattle.aq_base.specs.Site.{Site};
ghost use Rattle.aq_rules.specs.Office.Office.{Office};
ghost use Rattle.aq_rules.specs.Ozone.SiteHour.{Cell, site_hour};
ghost use Rattle.aq_rules.specs.Ozone.EightHour.{WindowRow, average, row_of, window};

/// Six hours, five of 0.071 ppm and one of 0.070: the mean is cut to 0.070. Five hours whose sum over
/// eight is not above the level of 0.070 ppm have no average. With one more thousandth they have one.
pub fn averages_of_six_hours_and_of_five()
    ensures six_hours_are_truncated { average 6 (pos 425) ≡ Some (pos 70) }
    ensures five_hours_with_567_have_no_average { average 5 (pos 567) ≡ None }
    ensures five_hours_with_568_have_an_average { average 5 (pos 568) ≡ Some (pos 71) }
{}

/// An average reads no hour outside the eight from its start: offices with the same site hours there
/// have the same average.
pub fn average_reads_its_eight_hours()
    ensures { (a b : Office) (site : Site) (start : ℕ)
        → ((hour : ℕ) → start ≤ hour → hour < start + 8 → site_hour a site hour ≡ site_hour b site hour)
        → window a site start ≡ window b site start }
{}

/// Where no hour is excluded the net average is the full one, of as many hours.
pub fn net_average_is_full_without_exclusions()
    ensures { (cells : List Cell)
        → list_any (λ (c : Cell). c.excluded) cells ≡ false
        → row_of cells ≡ record {
          net = (row_of cells).full;
          net_hours = (row_of cells).full_hours;
          full = (row_of cells).full;
          full_hours = (row_of cells).full_hours;
        } }
{}
