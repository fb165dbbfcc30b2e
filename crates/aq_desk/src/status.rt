//! The exit statuses of a run (own). Each has its name here once, and all else cites it.
ghost use Rattle.std.specs.Prelude.{◌≡◌};
ghost use Rattle.aq_desk.specs.declared.status.TheConstants.{DONE, NO_COMMAND, INPUT_FAILED, OUTPUT_FAILED, KEEPER_FAILED, DAMAGED, NO_MEMORY, DOOR_FAILED, CONFLICT, TOO_LARGE, LOADS_FULL, NO_SITE, NO_EVENT, NO_COMBINATION, NO_SITE_IN_AREA, NO_LOAD, LINE_REFUSED};

/// The command was done.
pub const DONE: u8 = 0;

/// The words are no command.
pub const NO_COMMAND: u8 = 2;

/// The input failed.
pub const INPUT_FAILED: u8 = 3;

/// The output failed.
pub const OUTPUT_FAILED: u8 = 4;

/// The keeper failed.
pub const KEEPER_FAILED: u8 = 5;

/// A row of the tables is damaged.
pub const DAMAGED: u8 = 6;

/// Memory could not be had.
pub const NO_MEMORY: u8 = 7;

/// The door failed to listen or to accept.
pub const DOOR_FAILED: u8 = 8;

/// A load's number is kept with another digest.
pub const CONFLICT: u8 = 9;

/// The input has too many bytes or lines.
pub const TOO_LARGE: u8 = 10;

/// No further load is kept.
pub const LOADS_FULL: u8 = 11;

/// The site is not registered.
pub const NO_SITE: u8 = 12;

/// A number of a list is that of no event.
pub const NO_EVENT: u8 = 13;

/// The site has no combination for the pollutant.
pub const NO_COMBINATION: u8 = 14;

/// No registered site of an area measures the pollutant.
pub const NO_SITE_IN_AREA: u8 = 15;

/// No load with the number stands.
pub const NO_LOAD: u8 = 16;

/// A line of an extract breaks a rule.
pub const LINE_REFUSED: u8 = 17;

/// The statuses are these numbers, on which scripts of an agency rest.
pub fn statuses_are_these_numbers()
    ensures done { DONE ≡ 0 }
    ensures no_command { NO_COMMAND ≡ 2 }
    ensures input_failed { INPUT_FAILED ≡ 3 }
    ensures output_failed { OUTPUT_FAILED ≡ 4 }
    ensures keeper_failed { KEEPER_FAILED ≡ 5 }
    ensures damaged { DAMAGED ≡ 6 }
    ensures no_memory { NO_MEMORY ≡ 7 }
    ensures door_failed { DOOR_FAILED ≡ 8 }
    ensures conflict { CONFLICT ≡ 9 }
    ensures too_large { TOO_LARGE ≡ 10 }
    ensures loads_full { LOADS_FULL ≡ 11 }
    ensures no_site { NO_SITE ≡ 12 }
    ensures no_event { NO_EVENT ≡ 13 }
    ensures no_combination { NO_COMBINATION ≡ 14 }
    ensures no_site_in_area { NO_SITE_IN_AREA ≡ 15 }
    ensures no_load { NO_LOAD ≡ 16 }
    ensures line_refused { LINE_REFUSED ≡ 17 }
{}
