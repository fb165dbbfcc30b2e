//! The top call over the words of a program.
ghost use Rattle.std.specs.Prelude.{◌≡◌, false, IfOk, OnErr, map, string_bytes};
ghost use Rattle.std.specs.Process.{exit_status};
ghost use Rattle.aq_desk.specs.Command.{Tells};
ghost use Rattle.aq_desk.specs.Ending.{no_memory};
ghost use Rattle.aq_desk.specs.Run.{IsRun};
ghost use Rattle.aq_words.specs.Words.{command_of};
ghost use Rattle.aq_desk.specs.declared.status.TheConstants.{NO_MEMORY};

use crate::{end_without_memory, run};
use aq_base::Memory;
use aq_keeper::Keeper;
use aq_outside::{Door, Sink, Source};
use std::alloc::Global;
use std::process::ExitCode;

/// Runs the command of the words, if there was memory to read them.
pub fn obey<K: Keeper, D: Door, S: Source, O: Sink, E: Sink>(
    alloc: Global,
    words: Result<Vec<String>, Memory>,
    keeper: &mut K,
    door: &mut D,
    input: &mut S,
    output: &mut O,
    errors: &mut E,
) -> ExitCode
    requires none_open { (D.seen door.old).is_open ≡ false }

    // It ends as the run of the words does.
    ensures run { IfOk words (λ words. IsRun (command_of (map string_bytes words.items))
        (exit_status result)
        (record {
          door = D.seen door.old;
          keeper = K.seen keeper.old;
          input = S.seen input.old;
          output = O.seen output.old;
          errors = E.seen errors.old;
        })
        (record {
          door = D.seen door.new;
          keeper = K.seen keeper.new;
          input = S.seen input.new;
          output = O.seen output.new;
          errors = E.seen errors.new;
        }) keeper.old keeper.new door.old door.new input.old input.new output.old output.new) }

    // Without memory for the words nothing is used but the errors stream.
    ensures no_memory { OnErr words (exit_status result ≡ NO_MEMORY) }
    ensures no_memory_unused { OnErr words ((input.new ≡ input.old) × (keeper.new ≡ keeper.old) ×
        (output.new ≡ output.old) × (door.new ≡ door.old)) }
    ensures no_memory_told { let ending = no_memory in OnErr words
        (Tells ending.message (E.seen errors.old) (E.seen errors.new)) }
{
    match words {
        Ok(words) => {
            let status = run(alloc, &words, keeper, door, input, output, errors);
            ExitCode::from(status)
        }
        Err(Memory) => ExitCode::from(end_without_memory(errors)),
    }
}
