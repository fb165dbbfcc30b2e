//! Texts and sheets, written until a sink has all of them.
ghost use Rattle.std.specs.Prelude.{◌≡◌, IfErr};
ghost use Rattle.aq_rules.specs.Shown.Sheet.{text_of};
ghost use Rattle.aq_desk.specs.Command.{RisesAt, printed};
ghost use Rattle.aq_desk.specs.Stop.{IsCutShort, Obeys, status_of};
ghost use Rattle.aq_desk.specs.Writing.{Writes};
ghost use Rattle.aq_desk.specs.declared.stop.Stop.TheVariants.{OutputFailed};
ghost use Rattle.aq_desk.specs.declared.status.TheConstants.{OUTPUT_FAILED};

use crate::stop::Stop;
use aq_base::Failed;
use aq_outside::Sink;
use aq_sheets::{Sheet, text_of};
use std::alloc::Global;

/// Writes all bytes of a text. After `Failed` a front of them was written.
pub(crate) fn write_all<O: Sink>(sink: &mut O, text: &[u8]) -> Result<(), Failed>
    ensures { Writes text.now (O.seen sink.old) (O.seen sink.new) result }
{
    let mut count = 0;
    while count < text.len() {
        count += sink.write(&text[count..])?;
    }
    Ok(())
}

/// Prints a text on the output of a command.
pub(crate) fn print_text<O: Sink>(text: &[u8], output: &mut O) -> Result<(), Stop>
    ensures told { Obeys (printed text.now) result (O.seen output.old) (O.seen output.new) }
    ensures cut { IfErr result (λ stop. stop ≡ OutputFailed) }
    ensures output_failed { RisesAt OUTPUT_FAILED (status_of result) (O.seen output.old).faults
        (O.seen output.new).faults }
{
    match write_all(output, text) {
        Ok(()) => Ok(()),
        Err(Failed) => Err(Stop::OutputFailed),
    }
}

/// Prints a sheet on the output of a command.
pub(crate) fn print_sheet<O: Sink>(alloc: Global, sheet: &Sheet, output: &mut O) -> Result<(), Stop>
    ensures told { Obeys (printed (text_of sheet.now)) result (O.seen output.old)
        (O.seen output.new) }
    ensures cut { IfErr result IsCutShort }
    ensures output_failed { RisesAt OUTPUT_FAILED (status_of result) (O.seen output.old).faults
        (O.seen output.new).faults }
{
    let text = text_of(alloc, sheet)?;
    print_text(&text, output)
}
