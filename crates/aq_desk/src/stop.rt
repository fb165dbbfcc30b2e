//! What stops a command: the exit status of each cause, and its message on the errors stream.
ghost use Rattle.std.specs.Prelude.{◌≡◌};
ghost use Rattle.aq_desk.specs.Stop.{ending_at};
ghost use Rattle.aq_desk.specs.Writing.{Writes};

use crate::body::BodyFault;
use crate::lack::{status_of_lack, write_lack};
use crate::messages::{write_conflict, write_damaged, write_lines, write_refused};
use crate::status::{
    CONFLICT, DAMAGED, DOOR_FAILED, INPUT_FAILED, KEEPER_FAILED, LINE_REFUSED, LOADS_FULL,
    NO_MEMORY, OUTPUT_FAILED, TOO_LARGE,
};
use crate::writing::write_all;
use aq_base::{Failed, Rule};
use aq_book::{OpenFault, Place};
use aq_keeper::KeeperFault;
use aq_office::Lack;
use aq_outside::Sink;

/// What stops a command before it has done all.
#[derive(Clone, Copy, Debug, PartialEq, Eq)]
pub enum Stop {
    InputFailed,
    OutputFailed,
    KeeperFailed,
    /// The door failed to listen or to accept.
    DoorFailed,
    /// With the first damaged row.
    Damaged(Place),
    Memory,
    /// A load's number is kept with another digest.
    Conflict {
        number: u32,
        kept: [u8; 32],
        sent: [u8; 32],
    },
    TooManyBytes,
    /// With the number of lines.
    TooManyLines(u32),
    LoadsFull,
    /// What a question asks for is not there.
    Lacks(Lack),
    /// A line of an extract breaks a rule: the first such line, and its first rule.
    Refused {
        line: u32,
        rule: Rule,
    },
}

impl Stop {
    /// The exit status.
    pub fn status(&self) -> u8
        ensures { let ending = ending_at self.now in result ≡ ending.status }
    {
        match self {
            Stop::InputFailed => INPUT_FAILED,
            Stop::OutputFailed => OUTPUT_FAILED,
            Stop::KeeperFailed => KEEPER_FAILED,
            Stop::Damaged(_) => DAMAGED,
            Stop::Memory => NO_MEMORY,
            Stop::DoorFailed => DOOR_FAILED,
            Stop::Conflict { .. } => CONFLICT,
            Stop::TooManyBytes | Stop::TooManyLines(_) => TOO_LARGE,
            Stop::LoadsFull => LOADS_FULL,
            Stop::Lacks(what) => status_of_lack(what),
            Stop::Refused { .. } => LINE_REFUSED,
        }
    }

    /// Writes the message. It takes no memory.
    pub(crate) fn write<E: Sink>(&self, errors: &mut E) -> Result<(), Failed>
        ensures { let ending = ending_at self.now in Writes ending.message (E.seen errors.old)
            (E.seen errors.new) result }
    {
        match self {
            Stop::InputFailed => write_all(errors, b"airdv: 3 input failed\n"),
            Stop::OutputFailed => write_all(errors, b"airdv: 4 output failed\n"),
            Stop::KeeperFailed => write_all(errors, b"airdv: 5 keeper failed\n"),
            Stop::DoorFailed => write_all(errors, b"airdv: 8 door failed\n"),
            Stop::Damaged(place) => write_damaged(place.table, place.index, errors),
            Stop::Memory => write_all(errors, b"airdv: 7 memory\n"),
            Stop::Conflict { number, kept, sent } => write_conflict(*number, kept, sent, errors),
            Stop::TooManyBytes => write_all(errors, b"airdv: 10 more than 8388608 bytes\n"),
            Stop::TooManyLines(lines) => write_lines(*lines, errors),
            Stop::LoadsFull => write_all(errors, b"airdv: 11 loads full\n"),
            Stop::Lacks(what) => write_lack(what, errors),
            Stop::Refused { line, rule } => write_refused(*line, *rule, errors),
        }
    }
}

impl From<BodyFault> for Stop {
    ghost use Rattle.std.specs.Prelude.{◌≡◌};
    ghost use Rattle.aq_desk.specs.Stop.{stop_of};

    ghost from_gives = { λ fault stop. stop ≡ stop_of fault };

    fn from(fault: BodyFault) -> Self {
        match fault {
            BodyFault::InputFailed => Stop::InputFailed,
            BodyFault::Memory => Stop::Memory,
            BodyFault::TooManyBytes => Stop::TooManyBytes,
            BodyFault::TooManyLines(lines) => Stop::TooManyLines(lines),
        }
    }
}

impl From<aq_base::Memory> for Stop {
    ghost use Rattle.std.specs.Prelude.{◌≡◌};
    ghost use Rattle.aq_desk.specs.declared.stop.Stop.TheVariants.{Memory};

    ghost from_gives = { λ _ stop. stop ≡ Memory };

    fn from(_: aq_base::Memory) -> Self {
        Stop::Memory
    }
}

impl From<KeeperFault> for Stop {
    ghost use Rattle.std.specs.Prelude.{◌≡◌};
    ghost use Rattle.aq_desk.specs.Stop.{stop_of_keeper};

    ghost from_gives = { λ fault stop. stop ≡ stop_of_keeper fault };

    fn from(fault: KeeperFault) -> Self {
        match fault {
            KeeperFault::Failed => Stop::KeeperFailed,
            KeeperFault::Memory => Stop::Memory,
        }
    }
}

impl From<OpenFault> for Stop {
    ghost use Rattle.std.specs.Prelude.{◌≡◌};
    ghost use Rattle.aq_desk.specs.Stop.{stop_of_book};

    ghost from_gives = { λ fault stop. stop ≡ stop_of_book fault };

    fn from(fault: OpenFault) -> Self {
        match fault {
            OpenFault::Damaged(place) => Stop::Damaged(place),
            OpenFault::Memory => Stop::Memory,
        }
    }
}
