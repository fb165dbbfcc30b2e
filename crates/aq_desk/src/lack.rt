//! What a question asks for and is not there: the exit status, and the message on the errors stream.
ghost use Rattle.std.specs.Prelude.{◌≡◌};
ghost use Rattle.aq_office.specs.Answers.{lack_of};
ghost use Rattle.aq_desk.specs.Ask.{lacking};
ghost use Rattle.aq_desk.specs.Writing.{Writes};

use crate::messages::{write_no_combination, write_no_event, write_no_load, write_no_site};
use crate::status::{NO_COMBINATION, NO_EVENT, NO_LOAD, NO_SITE, NO_SITE_IN_AREA};
use crate::writing::write_all;
use aq_base::Failed;
use aq_office::Lack;
use aq_outside::Sink;

/// The exit status of a question that lacks this.
pub(crate) fn status_of_lack(what: &Lack) -> u8
    ensures { let ending = lacking (lack_of what.now) in result ≡ ending.status }
{
    match what {
        Lack::NoSite(_) => NO_SITE,
        Lack::NoEvent(_) => NO_EVENT,
        Lack::NoCombination(_) => NO_COMBINATION,
        Lack::NoSiteInArea => NO_SITE_IN_AREA,
        Lack::NoLoad(_) => NO_LOAD,
    }
}

/// Writes what a question lacks.
pub(crate) fn write_lack<E: Sink>(what: &Lack, errors: &mut E) -> Result<(), Failed>
    ensures { let ending = lacking (lack_of what.now) in Writes ending.message
        (E.seen errors.old) (E.seen errors.new) result }
{
    match what {
        Lack::NoSite(site) => write_no_site(*site, errors),
        Lack::NoEvent(number) => write_no_event(*number, errors),
        Lack::NoCombination(site) => write_no_combination(*site, errors),
        Lack::NoSiteInArea => write_all(errors, b"airdv: 15 no site in area\n"),
        Lack::NoLoad(number) => write_no_load(*number, errors),
    }
}
