//! The command `scan`.
ghost use Rattle.std.specs.Prelude.{◌≡◌, true, IfErr, IfOk};
ghost use Rattle.aq_base.specs.declared.question.Question.TheVariants.{Windows};
ghost use Rattle.aq_book.specs.Staged.{office_with, Fits};
ghost use Rattle.aq_rules.specs.Shown.Sheet.{text_of};
ghost use Rattle.aq_rules.specs.Shown.Sheets.{load_sheet};
ghost use Rattle.aq_desk.specs.Ask.{IsUnanswered, ask_printout};
ghost use Rattle.aq_desk.specs.Command.{after_text, printed, RisesAt, WritesNothing};
ghost use Rattle.aq_outside.specs.Outside.{OfTold};
ghost use Rattle.aq_desk.specs.Scan.{scan_answer, scan_outcome};
ghost use Rattle.aq_desk.specs.Stop.{HasCauses, HasRead, IsCutShort, IsMeasured, IsTaken, Obeys, status_of};
ghost use Rattle.aq_desk.specs.declared.status.TheConstants.{DOOR_FAILED, KEEPER_FAILED, OUTPUT_FAILED};

use crate::ask::shown_text;
use crate::body::{body_of, read_body};
use crate::stop::Stop;
use crate::writing::{print_sheet, print_text};
use aq_base::{Bytes, Day, SiteId};
use aq_book::{Book, Staged};
use aq_forms::Body;
use aq_office::windows_answer_after;
use aq_outside::{Sink, Source};
use aq_reports::load_sheet;
use std::alloc::Global;

/// Takes the input as a load over an office of which nothing stands, and prints the reply and then the
/// day's windows.
pub(crate) fn scan<S: Source, O: Sink>(
    alloc: Global,
    site: SiteId,
    day: Day,
    input: &mut S,
    output: &mut O,
) -> Result<(), Stop>
    ensures told { OfTold (S.seen input.old).left (λ body. Obeys (scan_outcome site day body)
        result (O.seen output.old) (O.seen output.new) × IsMeasured true body
        (status_of result)) }
    ensures causes { HasCauses (status_of result) (S.seen input.old) (S.seen input.new)
        (O.seen output.old) (O.seen output.new) }
    ensures read { HasRead (status_of result) (S.seen input.old).left (S.seen input.new).left }
    ensures no_keeper { status_of result ≡ KEEPER_FAILED → ⊥ }
    ensures no_door { status_of result ≡ DOOR_FAILED → ⊥ }
    ensures silent { WritesNothing (status_of result) → output.new ≡ output.old }
{
    let bytes = read_body(alloc, input)?;
    let body = body_of(&bytes)?;
    answer(alloc, site, day, &body, output)
}

/// Answers to a body.
fn answer<O: Sink>(
    alloc: Global,
    site: SiteId,
    day: Day,
    body: &Body<'_>,
    output: &mut O,
) -> Result<(), Stop>
    ensures told { Obeys (scan_answer site day body.now) result (O.seen output.old)
        (O.seen output.new) }
    ensures taken { IsTaken (status_of result) }
    ensures output_failed { RisesAt OUTPUT_FAILED (status_of result) (O.seen output.old).faults
        (O.seen output.new).faults }
{
    // A load with this number is not kept, and its digest is not looked at.
    let book = Book::new(alloc);
    let staged = book.stage(alloc, 0, [0; 32], body)?;
    print_staged(alloc, book, staged, site, day, output)
}

/// Prints the reply to a staged load, and then the day's windows of the office that it leaves.
fn print_staged<O: Sink>(
    alloc: Global,
    book: Book,
    staged: Staged,
    site: SiteId,
    day: Day,
    output: &mut O,
) -> Result<(), Stop>
    requires { Fits staged book }
    ensures told { Obeys (after_text (text_of (load_sheet staged.reply))
        (ask_printout (Windows site day) (office_with staged book))) result
        (O.seen output.old) (O.seen output.new) }
    ensures taken { IsTaken (status_of result) }
    ensures output_failed { RisesAt OUTPUT_FAILED (status_of result) (O.seen output.old).faults
        (O.seen output.new).faults }
{
    print_reply(alloc, &staged, output)?;
    print_windows(alloc, book, staged, site, day, output)
}

/// Prints the reply to a staged load.
fn print_reply<O: Sink>(alloc: Global, staged: &Staged, output: &mut O) -> Result<(), Stop>
    ensures told { Obeys (printed (text_of (load_sheet staged.now.reply))) result
        (O.seen output.old) (O.seen output.new) }
    ensures cut { IfErr result IsCutShort }
    ensures output_failed { RisesAt OUTPUT_FAILED (status_of result) (O.seen output.old).faults
        (O.seen output.new).faults }
{
    let sheet = load_sheet(alloc, staged.reply())?;
    print_sheet(alloc, &sheet, output)
}

/// Prints the day's windows of the office that a staged load leaves, if the site is registered in it.
fn print_windows<O: Sink>(
    alloc: Global,
    book: Book,
    staged: Staged,
    site: SiteId,
    day: Day,
    output: &mut O,
) -> Result<(), Stop>
    requires { Fits staged book }
    ensures told { Obeys (ask_printout (Windows site day) (office_with staged book)) result
        (O.seen output.old) (O.seen output.new) }
    ensures taken { IsTaken (status_of result) }
    ensures output_failed { RisesAt OUTPUT_FAILED (status_of result) (O.seen output.old).faults
        (O.seen output.new).faults }
{
    let text = text_of_windows(alloc, book, staged, site, day)?;
    print_text(text.as_slice(), output)
}

/// The text of the day's windows of the office that a staged load leaves.
fn text_of_windows(
    alloc: Global,
    book: Book,
    staged: Staged,
    site: SiteId,
    day: Day,
) -> Result<Bytes, Stop>
    requires { Fits staged book }
    ensures text { IfOk result
        (λ text. ask_printout (Windows site day) (office_with staged book) ≡ printed text) }
    ensures refused { IfErr result
        (IsUnanswered (ask_printout (Windows site day) (office_with staged book))) }
{
    let answer = windows_answer_after(alloc, book, staged, site, day)?;
    shown_text(alloc, answer)
}
