//! How much the program takes and keeps (own). Each limit stands here once, and all else cites it.
ghost use Rattle.std.specs.Prelude.{◌≡◌};
ghost use Rattle.aq_base.specs.declared.limits.TheConstants.{FEWEST_GENERATED_YEARS, LAST_EVENT_NUMBER, LAST_LOAD_NUMBER, MOST_BYTES, MOST_EVENT_HOURS, MOST_EVENTS, MOST_GENERATED_SITES, MOST_GENERATED_YEARS, MOST_IN_LIST, MOST_LINES, MOST_LISTED, MOST_LOADS, MOST_MAKEUPS, MOST_MONITORS, MOST_OBSERVATIONS, MOST_SITES};

/// A load's body has at most this many bytes.
pub const MOST_BYTES: usize = 8_388_608;

/// A load's body has at most this many lines.
pub const MOST_LINES: u32 = 120_000;

/// A reply lists at most this many refused lines, and counts the others by rule.
pub const MOST_LISTED: usize = 500;

/// At most this many loads stand.
pub const MOST_LOADS: usize = 100_000;

/// A load's number is 1 to this.
pub const LAST_LOAD_NUMBER: u32 = 4_294_967_295;

/// At most this many observations stand.
pub const MOST_OBSERVATIONS: u32 = 4_000_000;

/// At most this many sites have a registered monitor.
pub const MOST_SITES: usize = 256;

/// A site and pollutant has at most this many monitors.
pub const MOST_MONITORS: usize = 8;

/// A site and pollutant has at most this many designations, and as many schedules.
pub const MOST_IN_LIST: usize = 64;

/// A site has at most this many make-up records whose missed days are in one quarter.
pub const MOST_MAKEUPS: usize = 5;

/// At most this many events stand.
pub const MOST_EVENTS: usize = 10_000;

/// An event has at most this many hours.
pub const MOST_EVENT_HOURS: u32 = 8_784;

/// An event's number is 1 to this.
pub const LAST_EVENT_NUMBER: u32 = 999_999;

/// A simulated office has at most this many sites.
pub const MOST_GENERATED_SITES: u8 = 32;

/// A simulated office has at least this many years, since a design value needs three.
pub const FEWEST_GENERATED_YEARS: u8 = 3;

/// A simulated office has at most this many years.
pub const MOST_GENERATED_YEARS: u8 = 10;

/// The limits are these numbers, on which an agency's scripts and its loads rest.
pub fn limits_are_these_numbers()
    ensures bytes { MOST_BYTES ≡ 8388608 }
    ensures lines { MOST_LINES ≡ 120000 }
    ensures listed { MOST_LISTED ≡ 500 }
    ensures loads { MOST_LOADS ≡ 100000 }
    ensures load_number { LAST_LOAD_NUMBER ≡ 4294967295 }
    ensures observations { MOST_OBSERVATIONS ≡ 4000000 }
    ensures sites { MOST_SITES ≡ 256 }
    ensures monitors { MOST_MONITORS ≡ 8 }
    ensures in_list { MOST_IN_LIST ≡ 64 }
    ensures makeups { MOST_MAKEUPS ≡ 5 }
    ensures events { MOST_EVENTS ≡ 10000 }
    ensures event_hours { MOST_EVENT_HOURS ≡ 8784 }
    ensures event_number { LAST_EVENT_NUMBER ≡ 999999 }
    ensures generated_sites { MOST_GENERATED_SITES ≡ 32 }
    ensures fewest_years { FEWEST_GENERATED_YEARS ≡ 3 }
    ensures most_years { MOST_GENERATED_YEARS ≡ 10 }
{}
